//! Whether a question is asked of where, or of when, a store has legs.
use crate::moments::say_beside;
use crate::sentence::Sentence;
use legs::Box3;
use timebase::Ms;

/// Whether the closed intervals from `a` to `b` and from `c` to `d` meet.
fn meet(a: i64, b: i64, c: i64, d: i64) -> bool {
    a <= d && c <= b
}

/// Whether a rectangle meets another one.
fn meet_in_plane(asked: &Box3, reach: &Box3) -> bool {
    meet(asked.x_min, asked.x_max, reach.x_min, reach.x_max)
        && meet(asked.y_min, asked.y_max, reach.y_min, reach.y_max)
}

/// Whether a rectangle meets another one where its x and y are exchanged.
fn meet_exchanged(asked: &Box3, reach: &Box3) -> bool {
    meet(asked.y_min, asked.y_max, reach.x_min, reach.x_max)
        && meet(asked.x_min, asked.x_max, reach.y_min, reach.y_max)
}

/// Says from one coordinate to another one, both in units of 10^-7.
fn say_range(said: &mut Sentence, least: i64, most: i64) {
    said.coordinate(least);
    said.text(" to ");
    said.coordinate(most);
}

/// What a question asks of.
#[derive(Clone, Copy)]
pub enum Area {
    /// A rectangle.
    Rectangle,
    /// A zone, by its least box.
    Zone,
}

impl Area {
    /// How it is said that it does not meet an x.
    fn off(self) -> &'static str {
        match self {
            Area::Rectangle => "the rectangle does not meet x ",
            Area::Zone => "the zone does not meet x ",
        }
    }

    /// What is said besides where it meets no leg.
    fn exchange_hint(self, asked: &Box3, reach: &Box3) -> &'static str {
        if !meet_exchanged(asked, reach) {
            return "";
        }
        match self {
            Area::Rectangle => "; with x and y exchanged it would",
            Area::Zone => "; with x and y exchanged its least box would",
        }
    }

    /// Says why it meets no leg.
    fn say_off_in_plane(self, said: &mut Sentence, asked: &Box3, reach: &Box3) {
        said.text(self.off());
        say_range(said, reach.x_min, reach.x_max);
        said.text(", y ");
        say_range(said, reach.y_min, reach.y_max);
        said.text(", where the store has legs");
        said.text(self.exchange_hint(asked, reach));
    }
}

/// Says why a period meets no leg of a store that has legs between these moments.
fn say_off_in_time(said: &mut Sentence, begin: Ms, end: Ms) {
    said.text("the period does not meet ");
    said.instant(begin, 0);
    said.text(" to ");
    say_beside(said, end, begin);
    said.text(", when the store has legs");
}

/// Whether boxes do not meet, the first of what is asked of, and the other over all legs of a store.
pub fn misses(asked: &Box3, reach: &Box3) -> bool {
    !meet_in_plane(asked, reach) || !meet(asked.t_min, asked.t_max, reach.t_min, reach.t_max)
}

/// Says why an area of that box and a period meet no leg of a store whose legs all lie in that other box, which the first
/// one misses.
pub fn say_reach(said: &mut Sentence, area: Area, asked: &Box3, reach: &Box3) {
    if !meet_in_plane(asked, reach) {
        area.say_off_in_plane(said, asked, reach);
    } else if let (Some(begin), Some(end)) = (Ms::new(reach.t_min), Ms::new(reach.t_max)) {
        say_off_in_time(said, begin, end);
    }
}
