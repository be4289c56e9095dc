//! `mftb zones`: who is in which zone of a file, from when to when.
use crate::commands::asking::{Question, frame_of, told_by};
use crate::commands::bounds::{period_of, plane};
use crate::commands::rectangles::NamedRect;
use crate::explain::empty_areas::tell_elsewhere;
use crate::explain::misplaced_words::tell_form;
use crate::outcome::Outcome;
use arguments::{Telling, ValueMode, ZoneRowKind, Zones};
use legs::Leg;
use mfcsv::{Dimension, without_marks};
use outputs::Output;
use pages::PageStore;
use predicates::Predicate;
use reasons::Area;
use reports::{
    Heading, OF_ZONE, ZoneFrame, push_columns, push_dwell_fields, push_dwells, push_feature_fields,
    push_heading, push_label, push_valued_zone_stays, push_zone_features, push_zone_stays,
    push_zone_visits,
};
use sessions::{Fault, MOST_BYTES, Named, read_named, send_all};
use std::alloc::{AllocError, Global};
use std::fs::File;
use std::io::Eprint;
use std::random::RandomSource;
use std::rt::Files;
use timebase::Period;
use trajdb::{Db, RunFault};
use zone_files::{Shape, Zone, ZoneFault, ZoneFile, read_zones};
use zoning::{Courses, Site, Stay, Tallies, Visit, dwells_of, features_of, visits_of};

/// The site of a shape.
fn site_of(alloc: Global, shape: Shape) -> Result<Site, AllocError> {
    match shape {
        Shape::Polygon(rings) => Site::of_rings(alloc, rings),
        Shape::Gate(gate) => Site::of_gate(alloc, gate),
    }
}

/// What is asked of each zone.
#[derive(Clone, Copy)]
struct Asked {
    alloc: Global,
    period: Period,
    rows: ZoneRowKind,
}

impl Asked {
    /// Appends the names of the fields, but for those of attributes.
    fn push_fields(&self, text: &mut Vec<u8>, dimension: Dimension) -> Result<(), AllocError> {
        match self.rows {
            ZoneRowKind::Visits => push_heading(text, OF_ZONE, dimension, Heading::ZoneVisits),
            ZoneRowKind::Legs(_) => push_heading(text, OF_ZONE, dimension, Heading::ZoneStays),
            ZoneRowKind::Dwell => push_dwell_fields(text, OF_ZONE),
            ZoneRowKind::Features(_) => push_feature_fields(text, OF_ZONE),
        }
    }

    /// Appends the line that names the fields.
    fn push_heading<S: PageStore>(
        &self,
        text: &mut Vec<u8>,
        database: &Db<S>,
    ) -> Result<(), RunFault> {
        self.push_fields(text, frame_of(database, b"").dimension)?;
        match self.rows {
            ZoneRowKind::Legs(ValueMode::With) => push_columns(self.alloc, text, database),
            _ => Ok(()),
        }
    }

    /// The legs that have a moment in the period, where the stays in a zone are not enough for an answer.
    fn legs<S: PageStore>(&self, database: &mut Db<S>) -> Result<Vec<Leg>, RunFault> {
        match self.rows {
            ZoneRowKind::Features(predicate) if predicate != Predicate::Ever => {
                let Some(plane) = plane() else {
                    return Err(RunFault::Failed);
                };
                database.legs(self.alloc, Predicate::Ever, &plane, &self.period)
            }
            _ => Ok(Vec::new(self.alloc)),
        }
    }

    /// The legs of a database that may be in a zone. The index is asked for the zone's least box.
    fn near<S: PageStore>(&self, database: &mut Db<S>, site: &Site) -> Result<Vec<Leg>, RunFault> {
        match site.bounds() {
            Some(bounds) => database.legs(self.alloc, Predicate::Ever, &bounds, &self.period),
            None => Ok(Vec::new(self.alloc)),
        }
    }

    /// The features of legs in the period, with their legs, where the answer needs them.
    fn tallies<S: PageStore>(&self, database: &mut Db<S>) -> Result<Tallies, RunFault> {
        let legs = self.legs(database)?;
        Ok(Tallies::of(self.alloc, &legs)?)
    }

    /// Appends the stays of a leg in a zone.
    fn add_stays(&self, stays: &mut Vec<Stay>, site: &Site, leg: &Leg) -> Result<(), AllocError> {
        let more = site.stays_of(self.alloc, leg, &self.period)?;
        stays.extend_from_slice(more.as_slice())
    }

    /// The stays of legs in a zone.
    fn stays(&self, site: &Site, legs: &[Leg]) -> Result<Vec<Stay>, AllocError> {
        let mut stays = Vec::new(self.alloc);
        for leg in legs {
            self.add_stays(&mut stays, site, leg)?;
        }
        Ok(stays)
    }

    /// The name of a zone, as it stands before each record.
    fn label(&self, name: &str) -> Result<Vec<u8>, RunFault> {
        let mut label = Vec::new(self.alloc);
        push_label(self.alloc, &mut label, name)?;
        Ok(label)
    }
}

/// What a database answers, zone by zone.
struct Told {
    asked: Asked,
    /// Of each feature its legs in the period, where the answer needs them.
    tallies: Tallies,
    text: Vec<u8>,
    /// The least boxes of the zones, and in which zones no leg is.
    boxes: Vec<NamedRect>,
    empty: Vec<usize>,
}

// In one place, and not at each end of what owns it.
impl Drop for Told {
    fn drop(self) {
        let Told {
            asked,
            tallies,
            text,
            boxes,
            empty,
        } = self;
    }
}

impl Told {
    /// No zone yet.
    fn new(asked: Asked, tallies: Tallies) -> Told {
        let alloc = asked.alloc;
        Told {
            asked,
            tallies,
            text: Vec::new(alloc),
            boxes: Vec::new(alloc),
            empty: Vec::new(alloc),
        }
    }

    /// Appends the records of visits in a zone.
    fn push_visits<S: PageStore>(
        &mut self,
        database: &Db<S>,
        zone: &ZoneFrame<'_>,
        visits: &[Visit],
    ) -> Result<(), RunFault> {
        let (alloc, text) = (self.asked.alloc, &mut self.text);
        match self.asked.rows {
            ZoneRowKind::Dwell => {
                let label = zone.frame.label;
                push_dwells(alloc, text, database, label, &dwells_of(alloc, visits)?)
            }
            _ => push_zone_visits(alloc, text, database, zone, visits),
        }
    }

    /// Appends the records of stays in a zone.
    fn push<S: PageStore>(
        &mut self,
        database: &Db<S>,
        zone: &ZoneFrame<'_>,
        stays: &[Stay],
    ) -> Result<(), RunFault> {
        let alloc = self.asked.alloc;
        match self.asked.rows {
            ZoneRowKind::Legs(ValueMode::Without) => {
                push_zone_stays(alloc, &mut self.text, database, zone, stays)
            }
            ZoneRowKind::Legs(ValueMode::With) => {
                push_valued_zone_stays(alloc, &mut self.text, database, zone, stays)
            }
            _ => self.push_visits(database, zone, &visits_of(alloc, stays)?),
        }
    }

    /// The features of which a predicate holds with a zone. Legs that are not near it say nothing of `Ever`.
    fn holding(
        &self,
        predicate: Predicate,
        near: &[Leg],
        courses: &Courses,
    ) -> Result<Vec<u32>, AllocError> {
        let alloc = self.asked.alloc;
        match predicate {
            Predicate::Ever => {
                features_of(alloc, predicate, &Tallies::of(alloc, near)?, courses)
            }
            _ => features_of(alloc, predicate, &self.tallies, courses),
        }
    }

    /// Appends the features of which a predicate holds with a zone.
    fn push_features<S: PageStore>(
        &mut self,
        database: &Db<S>,
        label: &[u8],
        predicate: Predicate,
        near: &[Leg],
        courses: &Courses,
    ) -> Result<(), RunFault> {
        let features = self.holding(predicate, near, courses)?;
        push_zone_features(self.asked.alloc, &mut self.text, database, label, &features)
    }

    /// Appends the features of which a predicate holds with a zone, and says whether a leg is in it.
    fn push_holding<S: PageStore>(
        &mut self,
        database: &Db<S>,
        label: &[u8],
        predicate: Predicate,
        site: &Site,
        near: &[Leg],
    ) -> Result<bool, RunFault> {
        let courses = Courses::of(self.asked.alloc, site, near, &self.asked.period)?;
        self.push_features(database, label, predicate, near, &courses)?;
        Ok(courses.is_ever())
    }

    /// Appends the records of a zone, and says whether a leg is in it.
    fn push_all<S: PageStore>(
        &mut self,
        database: &Db<S>,
        zone: &ZoneFrame<'_>,
        site: &Site,
        near: &[Leg],
    ) -> Result<bool, RunFault> {
        if let ZoneRowKind::Features(predicate) = self.asked.rows {
            return self.push_holding(database, zone.frame.label, predicate, site, near);
        }
        let stays = self.asked.stays(site, near)?;
        self.push(database, zone, &stays)?;
        Ok(!stays.is_empty())
    }

    /// Appends the records of a zone of that name, and says whether a leg is in it.
    fn push_site<S: PageStore>(
        &mut self,
        database: &mut Db<S>,
        name: &str,
        site: &Site,
    ) -> Result<bool, RunFault> {
        let near = self.asked.near(database, site)?;
        let label = self.asked.label(name)?;
        let zone = ZoneFrame {
            frame: frame_of(database, &label),
            is_gate: site.is_gate(),
        };
        self.push_all(database, &zone, site, &near)
    }

    /// Keeps the least box of a zone, and notes whether no leg is in it.
    fn keep(&mut self, zone: NamedRect, is_entered: bool) -> Result<(), AllocError> {
        if !is_entered {
            self.empty.push(self.boxes.len())?;
        }
        Ok(self.boxes.push(zone)?)
    }

    /// Appends the records of a zone.
    fn add<S: PageStore>(&mut self, database: &mut Db<S>, zone: Zone) -> Result<(), RunFault> {
        let Zone { name, shape } = zone;
        let site = site_of(self.asked.alloc, shape)?;
        let is_entered = self.push_site(database, name.as_str(), &site)?;
        match site.bounds() {
            Some(rect) => Ok(self.keep(NamedRect { name, rect }, is_entered)?),
            None => Ok(()),
        }
    }

    /// Asks a database of each zone of a file, one after another.
    fn add_all<S: PageStore>(
        &mut self,
        database: &mut Db<S>,
        file: ZoneFile,
    ) -> Result<(), RunFault> {
        self.asked.push_heading(&mut self.text, database)?;
        for zone in file.zones {
            self.add(database, zone)?;
        }
        Ok(())
    }
}

/// What a database answers of each zone of a file.
fn ask<S: PageStore>(database: &mut Db<S>, asked: Asked, file: ZoneFile) -> Result<Told, RunFault> {
    let mut told = Told::new(asked, asked.tallies(database)?);
    match told.add_all(database, file) {
        Ok(()) => Ok(told),
        Err(fault) => Err(fault),
    }
}

/// A question of the zones of a file, one after another.
#[derive(Drop)]
struct ZonesAsked {
    asked: Asked,
    file: ZoneFile,
}

impl Question for ZonesAsked {
    type Told = Told;

    fn ask<S: PageStore>(self, database: &mut Db<S>) -> Result<Told, RunFault> {
        let ZonesAsked { asked, file } = self;
        ask(database, asked, file)
    }
}

/// Says why no leg is in some of the zones, where that is to be said.
fn tell_empty<R: Files<File = File> + Eprint + AllocGlobal>(
    rt: &R,
    task: &Zones<'_>,
    period: &Period,
    told: &Told,
    is_terminal: bool,
) {
    if task.telling.is_told(is_terminal) {
        tell_elsewhere(rt, task.store, Area::Zone, period, &told.boxes, &told.empty);
    }
}

/// Prints who is in which of the zones.
fn print_answer<R: Files<File = File> + Eprint + AllocGlobal + RandomSource, O: Output>(
    rt: &R,
    task: &Zones<'_>,
    asked: Asked,
    file: ZoneFile,
    out: &mut O,
    is_terminal: bool,
) -> Result<Outcome, Fault> {
    let question = ZonesAsked { asked, file };
    let told = told_by(rt, task.store, task.cache_pages, question)?;
    send_all(out, &told.text)?;
    tell_empty(rt, task, &asked.period, &told, is_terminal);
    Ok(Outcome::Done)
}

/// Says why a zone file is refused, and what it plainly is.
fn tell_refused<R: Files<File = File> + Eprint + AllocGlobal>(
    rt: &R,
    task: &Zones<'_>,
    refused: &ZoneFault,
    bytes: &[u8],
) {
    let _ = eprintln!(rt; "mftb: {refused}");
    if !matches!(task.telling, Telling::Never) {
        tell_form(rt, task, bytes);
    }
}

/// Prints who is in which of the zones of a file of those bytes, unless it is refused.
fn print_of<R: Files<File = File> + Eprint + AllocGlobal + RandomSource, O: Output>(
    rt: &R,
    task: &Zones<'_>,
    asked: Asked,
    bytes: &[u8],
    out: &mut O,
    is_terminal: bool,
) -> Result<Outcome, Fault> {
    match read_zones(rt.alloc(), bytes) {
        Ok(file) => print_answer(rt, task, asked, file, out, is_terminal),
        Err(ZoneFault::Memory) => Err(Fault::Run(RunFault::Memory)),
        Err(refused) => {
            tell_refused(rt, task, &refused, bytes);
            Ok(Outcome::ZonesRefused)
        }
    }
}

/// Reads the zone file, opens the store to be read alone, and prints who is in which zone in the period. A zone file
/// with a fault is refused in words, and nothing is printed; what is plainly another file is said to be that.
pub(crate) fn print_zones<R: Files<File = File> + Eprint + AllocGlobal + RandomSource, O: Output>(
    rt: &R,
    task: &Zones<'_>,
    out: &mut O,
    is_terminal: bool,
) -> Result<Outcome, Fault> {
    let asked = Asked {
        alloc: rt.alloc(),
        period: period_of(task.times)?,
        rows: task.rows,
    };
    let bytes = read_named(rt, Named::Areas, task.zones, MOST_BYTES)?;
    print_of(rt, task, asked, without_marks(&bytes), out, is_terminal)
}
