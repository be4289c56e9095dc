//! `mftb moments`: when legs are inside rectangles in a period.
use crate::commands::asking::{Question, frame_of, told_by};
use crate::commands::bounds::{hold_times, period_of};
use crate::commands::rectangles::{NamedRect, rects_of};
use crate::explain::empty_areas::tell_elsewhere;
use arguments::{Moments, RowKind, ValueMode, Where};
use mfcsv::Dimension;
use moments::{Stay, Visit, dwells_of, stays, visits_of};
use outputs::Output;
use pages::PageStore;
use reasons::Area;
use reports::{
    Heading, OF_FEATURE, OF_RECTANGLE, push_columns, push_dwell_fields, push_dwells, push_heading,
    push_label, push_stays, push_valued_stays, push_visits,
};
use sessions::{Fault, send_all};
use std::alloc::{AllocError, Global};
use std::fs::File;
use std::io::Eprint;
use std::random::RandomSource;
use std::rt::Files;
use timebase::Period;
use trajdb::{Db, RunFault};

/// What is asked of each rectangle.
#[derive(Clone, Copy)]
struct Asked {
    alloc: Global,
    period: Period,
    rows: RowKind,
    /// Whether the name of its rectangle stands in each record.
    is_named: bool,
}

/// What a database answers.
#[derive(Drop)]
struct Told {
    text: Vec<u8>,
    /// In which rectangles no leg is.
    empty: Vec<usize>,
}

impl Told {
    /// Nothing yet.
    fn new(alloc: Global) -> Told {
        Told {
            text: Vec::new(alloc),
            empty: Vec::new(alloc),
        }
    }
}

impl Asked {
    /// Appends the names of the fields, but for those of attributes.
    fn push_fields(&self, text: &mut Vec<u8>, dimension: Dimension) -> Result<(), AllocError> {
        let first = if self.is_named {
            OF_RECTANGLE
        } else {
            OF_FEATURE
        };
        match self.rows {
            RowKind::Legs(_) => push_heading(text, first, dimension, Heading::Stays),
            RowKind::Visits => push_heading(text, first, dimension, Heading::Visits),
            RowKind::Dwell => push_dwell_fields(text, first),
        }
    }

    /// Appends the line that names the fields.
    fn push_heading<S: PageStore>(
        &self,
        text: &mut Vec<u8>,
        database: &Db<S>,
    ) -> Result<(), RunFault> {
        self.push_fields(text, frame_of(database, b"").dimension)?;
        match self.rows {
            RowKind::Legs(ValueMode::With) => push_columns(self.alloc, text, database),
            _ => Ok(()),
        }
    }

    /// What stands before each record of a rectangle.
    fn label(&self, name: &str) -> Result<Vec<u8>, RunFault> {
        let mut label = Vec::new(self.alloc);
        if self.is_named {
            push_label(self.alloc, &mut label, name)?;
        }
        Ok(label)
    }

    /// Appends the records of visits.
    fn push_visits<S: PageStore>(
        &self,
        text: &mut Vec<u8>,
        database: &Db<S>,
        label: &[u8],
        visits: &[Visit],
    ) -> Result<(), RunFault> {
        match self.rows {
            RowKind::Dwell => {
                push_dwells(
                    self.alloc,
                    text,
                    database,
                    label,
                    &dwells_of(self.alloc, visits)?,
                )
            }
            _ => push_visits(
                self.alloc,
                text,
                database,
                &frame_of(database, label),
                visits,
            ),
        }
    }

    /// Appends the records of stays.
    fn push<S: PageStore>(
        &self,
        text: &mut Vec<u8>,
        database: &Db<S>,
        label: &[u8],
        stays: &[Stay],
    ) -> Result<(), RunFault> {
        let alloc = self.alloc;
        match self.rows {
            RowKind::Legs(ValueMode::Without) => {
                push_stays(alloc, text, database, &frame_of(database, label), stays)
            }
            RowKind::Legs(ValueMode::With) => {
                push_valued_stays(alloc, text, database, &frame_of(database, label), stays)
            }
            _ => self.push_visits(text, database, label, &visits_of(alloc, stays)?),
        }
    }

    /// Appends the records of a rectangle, and says whether there are any stays.
    fn push_rect<S: PageStore>(
        &self,
        text: &mut Vec<u8>,
        database: &mut Db<S>,
        asked: &NamedRect,
    ) -> Result<bool, RunFault> {
        let stays = stays(database, self.alloc, &asked.rect, &self.period)?;
        let label = self.label(asked.name.as_str())?;
        self.push(text, database, &label, &stays)?;
        Ok(!stays.is_empty())
    }

    /// Asks a database of each rectangle, one after another.
    fn ask<S: PageStore>(
        &self,
        told: &mut Told,
        database: &mut Db<S>,
        rects: &[NamedRect],
    ) -> Result<(), RunFault> {
        self.push_heading(&mut told.text, database)?;
        for place in 0..rects.len() {
            if !self.push_rect(&mut told.text, database, &rects[place])? {
                told.empty.push(place)?;
            }
        }
        Ok(())
    }

    /// What a database answers of each rectangle.
    fn told<S: PageStore>(
        &self,
        database: &mut Db<S>,
        rects: &[NamedRect],
    ) -> Result<Told, RunFault> {
        let mut told = Told::new(self.alloc);
        match self.ask(&mut told, database, rects) {
            Ok(()) => Ok(told),
            Err(fault) => Err(fault),
        }
    }
}

/// A question of rectangles, one after another.
#[derive(Drop)]
struct RectsAsked<'q> {
    asked: &'q Asked,
    rects: &'q [NamedRect],
}

impl<'q> Question for RectsAsked<'q> {
    type Told = Told;

    fn ask<S: PageStore>(self, database: &mut Db<S>) -> Result<Told, RunFault> {
        self.asked.told(database, self.rects)
    }
}

/// What the store's database answers of these rectangles in a period.
fn told_of<R: Files<File = File> + AllocGlobal + RandomSource>(
    rt: &R,
    task: &Moments<'_>,
    rects: &[NamedRect],
    period: Period,
) -> Result<Told, Fault> {
    let asked = Asked {
        alloc: rt.alloc(),
        period,
        rows: task.rows,
        is_named: matches!(task.place, Where::Rects(_)),
    };
    let question = RectsAsked {
        asked: &asked,
        rects,
    };
    told_by(rt, task.store, task.cache_pages, question)
}

/// Prints when legs of the store's database are inside these rectangles in the period.
fn print_answer<R: Files<File = File> + Eprint + AllocGlobal + RandomSource, O: Output>(
    rt: &R,
    task: &Moments<'_>,
    rects: &[NamedRect],
    out: &mut O,
    is_terminal: bool,
) -> Result<(), Fault> {
    let period = period_of(task.times)?;
    let told = told_of(rt, task, rects, period)?;
    send_all(out, &told.text)?;
    if task.telling.is_told(is_terminal) {
        tell_elsewhere(rt, task.store, Area::Rectangle, &period, rects, &told.empty);
    }
    Ok(())
}

/// Opens the store to be read alone, and prints when legs of its database are inside the rectangles in the period.
pub(crate) fn print_moments<R: Files<File = File> + Eprint + AllocGlobal + RandomSource, O: Output>(
    rt: &R,
    task: &Moments<'_>,
    out: &mut O,
    is_terminal: bool,
) -> Result<(), Fault> {
    hold_times(task.times)?;
    let rects = rects_of(rt, &task.place)?;
    print_answer(rt, task, &rects, out, is_terminal)
}
