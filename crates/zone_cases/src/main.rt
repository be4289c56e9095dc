//! The stays of courses in zones, of cases given as text: what tools/zone_cases compares with a plain program.
//!
//! A case is a line of whole numbers: x0 y0 x1 y1 of a course; two fractions of it, from and to, each as numerator and
//! denominator; and for each ring how many corners it has, and x and y of each. A line is answered by its stays, each
//! as FROM:TO in lowest terms; by `-` where there is none; or by `no case`.
//!
//! Behind the word `leg` a line has t0 and t1 of a leg and the start and end of a period, in milliseconds, then x0 y0
//! x1 y1 of the leg and the rings. Behind `gate` it has two positions in the place of the rings. Each stay is answered
//! as FROM:TO X,Y:X,Y BY:BY SIDE:SIDE, moments as WHOLE+REST/DEN.
#![tactic(auto)]

mod cases;
mod leg_cases;
mod numbers;

use cases::{Case, read_case};
use fractions::lowest_terms;
use leg_cases::{Behind, LegCase, read_leg_case};
use mfcsv::Position;
use std::alloc::Global;
use std::io::{self, BufRead, BufReader};
use zones::{CoursePlace, Cut, stays};
use zoning::{Moment, Side, Stay};

/// Prints a place in lowest terms.
fn print_place(rt: &impl Print, place: &CoursePlace) -> io::Result<()> {
    if place.num < 0 {
        print!(rt; "-")?;
    }
    let terms = lowest_terms(place.num.unsigned_abs(), place.den.unsigned_abs());
    print!(rt; "{}/{}", terms.num, terms.den)
}

/// Prints the stays as one line.
fn print_cuts(rt: &impl Print, cuts: &[Cut]) -> io::Result<()> {
    if cuts.is_empty() {
        print!(rt; "-")?;
    }
    for cut in cuts {
        print_place(rt, &cut.lo)?;
        print!(rt; ":")?;
        print_place(rt, &cut.hi)?;
        print!(rt; " ")?;
    }
    println!(rt; "")
}

/// Prints the stays of one case.
fn print_case(rt: &impl Print, alloc: Global, case: &Case) -> io::Result<()> {
    let cuts = stays(&case.rings, &case.course, case.first, case.last, alloc)?;
    print_cuts(rt, &cuts)
}

/// Prints a moment.
fn print_moment(rt: &impl Print, moment: &Moment) -> io::Result<()> {
    let whole = moment.whole.millis();
    if moment.rest == 0 {
        return print!(rt; "{whole}");
    }
    print!(rt; "{whole}+{}/{}", moment.rest, moment.den)
}

/// Prints x and y.
fn print_position(rt: &impl Print, position: &Position) -> io::Result<()> {
    print!(rt; "{},{}", position.x.units(), position.y.units())
}

/// A side as a word.
fn side_text(side: Option<Side>) -> &'static str {
    match side {
        Some(side) => side.as_str(),
        None => "none",
    }
}

/// Prints a stay of a leg.
fn print_stay(rt: &impl Print, stay: &Stay) -> io::Result<()> {
    print_moment(rt, &stay.enters)?;
    print!(rt; ":")?;
    print_moment(rt, &stay.leaves)?;
    print!(rt; " ")?;
    print_position(rt, &stay.entry)?;
    print!(rt; ":")?;
    print_position(rt, &stay.exit)?;
    let (begins, ends) = (stay.enters_by.as_str(), stay.leaves_by.as_str());
    let (from, to) = (side_text(stay.from), side_text(stay.to));
    print!(rt; " {begins}:{ends} {from}:{to} ")
}

/// Prints the stays of one case of a leg, if there is one.
fn print_leg_case(rt: &impl Print, alloc: Global, case: Option<LegCase>) -> io::Result<()> {
    let Some(case) = case else {
        return println!(rt; "no case");
    };
    let stays = case.site.stays_of(alloc, &case.leg, &case.period)?;
    if stays.is_empty() {
        print!(rt; "-")?;
    }
    for stay in &stays {
        print_stay(rt, stay)?;
    }
    println!(rt; "")
}

/// Prints the answer to a line.
fn print_line(rt: &impl Print, alloc: Global, line: &str) -> io::Result<()> {
    if let Some(numbers) = line.strip_prefix("leg ") {
        let case = read_leg_case(alloc, numbers, Behind::Rings)?;
        return print_leg_case(rt, alloc, case);
    }
    if let Some(numbers) = line.strip_prefix("gate ") {
        let case = read_leg_case(alloc, numbers, Behind::Gate)?;
        return print_leg_case(rt, alloc, case);
    }
    match read_case(alloc, line)? {
        Some(case) => print_case(rt, alloc, &case),
        None => println!(rt; "no case"),
    }
}

fn main(rt: HostRuntime) -> io::Result<()> {
    let alloc = rt.alloc();
    for line in BufReader::new(alloc, rt.reader())?.lines(alloc) {
        let line = line?;
        print_line(&rt, alloc, line.as_str())?;
    }
    Ok(())
}
