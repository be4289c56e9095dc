//! What is said of rectangles and zones in which no leg is.
use crate::commands::rectangles::NamedRect;
use crate::explain::saying::{say, tell};
use crate::system::stored::look_at;
use legs::Box3;
use reasons::{Area, Sentence, misses, say_reach};
use std::fs::File;
use std::io::Eprint;
use std::rt;
use timebase::Period;

/// Says of an area why no leg is inside it, where the store has none there.
fn tell_area<R: Eprint + AllocGlobal>(
    rt: &R,
    area: Area,
    period: &Period,
    asked: &NamedRect,
    reach: &Box3,
) {
    let bounds = Box3::new(&asked.rect, period);
    if !misses(&bounds, reach) {
        return;
    }
    let mut said = Sentence::new(rt.alloc());
    if !asked.name.is_empty() {
        said.value("{}: ", asked.name.as_str());
    }
    say_reach(&mut said, area, &bounds, reach);
    tell(rt, said);
}

/// Says of the areas at these places why no leg is inside.
fn tell_areas<R: Eprint + AllocGlobal>(
    rt: &R,
    area: Area,
    period: &Period,
    rects: &[NamedRect],
    places: &[usize],
    reach: &Box3,
) {
    for place in places {
        if let Some(asked) = rects.get(*place) {
            tell_area(rt, area, period, asked, reach);
        }
    }
}

/// Says why no leg is inside those of the rectangles, or of the zones with these least boxes, in a period, where the
/// store has none there.
pub(crate) fn tell_elsewhere<R: rt::Files<File = File> + Eprint + AllocGlobal>(
    rt: &R,
    store: &str,
    area: Area,
    period: &Period,
    rects: &[NamedRect],
    empty: &[usize],
) {
    if empty.is_empty() {
        return;
    }
    let Some(seen) = look_at(rt, store) else {
        return;
    };
    if seen.header.root == 0 {
        say(rt, "the store has no legs");
    } else if let Ok(Some(reach)) = seen.extent {
        tell_areas(rt, area, period, rects, empty, &reach);
    }
}
