//! Legs, stays and what is known of the book, asked of a database.
use fixedpoint::Coord;
use legs::{Limits, Rect};
use moments::{Moment, stays};
use pages::MemStore;
use predicates::Predicate;
use std::alloc::Global;
use std::hash::RandomState;
use std::test::Fail;
use tbtree::Shape;
use timebase::{Ms, Period};
use trajdb::Db;

/// A feature that goes ten units in ten seconds, and one that stays.
const FEED: &str = "\
@stboundedby,plane,2D,0 0,10 10,1970-01-01T00:00:00Z,1970-01-01T00:01:00Z,sec
@columns,mfidref,trajectory
ferry,0,10,0 0 10 0
buoy,0,10,20 0 20 0
";

/// What a database answers.
#[derive(Clone, Copy, PartialEq, Eq, Debug)]
struct Seen {
    legs: usize,
    features: u64,
    counted: u64,
    most_legs: u64,
    is_ferry: bool,
    has_head: bool,
    enters: Moment,
    leaves: Moment,
}

/// The rectangle of x from 2 to 6 and y from 0 to 6, over the first minute.
fn square() -> Option<(Rect, Period)> {
    let (low, high) = (Coord::new(20_000_000)?, Coord::new(60_000_000)?);
    let rect = Rect::new(low, Coord::new(0)?, high, high)?;
    Some((rect, Period::new(Ms::new(0)?, Ms::new(60_000)?)?))
}

/// The feed in a new database.
fn loaded(alloc: Global, keys: RandomState) -> Option<Db<MemStore>> {
    let (shape, limits) = (Shape::new(50, 72)?, Limits::new(1_000, 100)?);
    let store = MemStore::new(alloc, 100);
    let mut database = Db::create(alloc, keys, store, shape, 16, limits).ok()?;
    database.load(alloc, FEED.as_bytes()).ok()?;
    Some(database)
}

fn answers(alloc: Global, keys: RandomState) -> Option<Seen> {
    let (rect, period) = square()?;
    let mut database = loaded(alloc, keys)?;
    let legs = database
        .legs(alloc, Predicate::Ever, &rect, &period)
        .ok()?
        .len();
    let stays = stays(&mut database, alloc, &rect, &period).ok()?;
    let stay = *stays.first()?;
    Some(Seen {
        legs,
        features: database.feature_count(),
        counted: database.leg_count(),
        most_legs: database.limits().legs(),
        is_ferry: database.name(stay.leg.feature) == Some("ferry"),
        has_head: database.head().is_some(),
        enters: stay.enters,
        leaves: stay.leaves,
    })
}

#[test]
fn a_database_tells_its_legs_and_stays(rt: HostRuntime) -> Result<(), Fail> {
    let seen = answers(rt.alloc(), RandomState::new(&rt)?).ok_or("answers")?;
    assert_eq!(rt; (seen.legs, seen.features, seen.counted), (1, 2, 2));
    assert_eq!(rt; seen.most_legs, 1_000);
    assert!(rt; seen.is_ferry && seen.has_head);
    assert_eq!(rt; (seen.enters.num, seen.enters.den), (2_000, 1));
    assert_eq!(rt; (seen.leaves.num, seen.leaves.den), (6_000, 1));
    Ok(())
}
