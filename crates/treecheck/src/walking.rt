//! The way along the chain of a feature, for a check.
ghost use Rattle.std.specs.Prelude.{ℕ, ◌≡◌, ◌<◌, ◌↔◌, ◌++◌, ◌∷◌, [], List, Some, map, length, slice_get, unwrap_or, ◌^◌, IsTrue};
ghost use Rattle.legs.specs.Legs.{LegView};
ghost use Rattle.tbnode.specs.Form.{node_of};
ghost use Rattle.treecheck.specs.Check.{AreLeavesOf, AreChains};
ghost use Rattle.tbtree.specs.Turn.{last_leg, ComesAfter, ComeInTurn};
ghost use Rattle.tbtree.specs.Nodes.{ALeaf};
ghost use Rattle.treecheck.specs.Finding.{FindsPages, TakesIf};
ghost use Rattle.treecheck.specs.Walking.{pages_by, IsAtEnd, IsNextNode, Surveys, TakesNext, Walks};

use crate::leaves::{AnyLeaf, bounds_of};
use legs::{Box3, Leg, Track, Tracks};
use pagecache::PageCache;
use pages::{PageStore, Payload};
use std::alloc::{AllocError, Global};
use std::marker::PhantomData;
use tbtree::{Place, TreeFault};

/// A leaf that was met: the ordinal of its first leg, its page, and the least box that holds its
/// legs.
#[derive(Clone, Copy, PartialEq, Eq, Debug)]
pub struct Met {
    pub first: u64,
    pub page: u32,
    pub bounds: Box3,
}

/// What the ways along the chains found: the ordinal of each leg, each leaf, and the ordinal of
/// each feature's first leg.
#[derive(Drop)]
pub struct Survey {
    pub ordinals: Vec<u64>,
    pub leaves: Vec<Met>,
    pub firsts: Vec<u64>,
}

/// How far the way along a feature's chain has come: the page that it came from (0 at first) and
/// the one that is next (0 for none), how many legs are left, and the last leg.
#[derive(Clone, Copy)]
pub struct Walk {
    pub feature: u32,
    pub previous: u32,
    pub page: u32,
    pub left: u64,
    pub last: Option<Leg>,
}

/// Whether a leg comes after the one before it in its feature.
fn comes_after(last: &Option<Leg>, leg: &Leg) -> bool
    ensures { IsTrue result ↔ ComesAfter last.now leg.now }
{
    match last {
        None => true,
        Some(last) => last.ordinal < leg.ordinal && last.t1 <= leg.t0,
    }
}

/// Whether a leg of a feature, with a row of so many, comes after the one before it.
fn is_next_leg(feature: u32, rows: u64, last: &Option<Leg>, leg: &Leg) -> bool
    ensures { IsTrue result ↔ ComeInTurn feature rows last.now (leg.now ∷ []) }
{
    leg.feature == feature && u64::from(leg.row) < rows && comes_after(last, leg)
}

/// Notes the ordinals of a leaf's legs, as long as each comes after the one before it; whether each
/// does.
fn take_legs<L: AnyLeaf>(
    leaf: &L,
    feature: u32,
    rows: u64,
    last: &mut Option<Leg>,
    ordinals: &mut Vec<u64>,
) -> Result<bool, AllocError>
    ensures { TakesIf (ComeInTurn feature rows last.old (L.says leaf.now).legs)
        ((last.new ≡ last_leg last.old (L.says leaf.now).legs) × (ordinals.new.items
        ≡ ordinals.old.items ++ map (λ leg. leg.ordinal) (L.says leaf.now).legs)) result }
{
    for i in 0..leaf.len() {
        let leg = leaf.leg(i);
        if !is_next_leg(feature, rows, last, &leg) {
            return Ok(false);
        }
        ordinals.push(leg.ordinal)?;
        *last = Some(leg);
    }
    Ok(true)
}

/// Whether a leaf is the next one of a way.
fn is_next<L: AnyLeaf>(leaf: &L, walk: &Walk, most: u64) -> bool
    ensures { IsTrue result ↔ IsNextNode most walk.now (Some (ALeaf (L.says leaf.now))) }
{
    let head = leaf.head();
    head.feature == walk.feature
        && head.previous == walk.previous
        && leaf.len() as u64 == most.min(walk.left)
}

/// Takes a leaf, where it is the one that is next; whether it is.
pub fn take_next<L: AnyLeaf>(
    leaf: &L,
    walk: &mut Walk,
    most: u64,
    rows: u64,
    survey: &mut Survey,
) -> Result<bool, AllocError>
    // A leaf is taken just where it is the next one, with legs that come in order and rows that are
    // there. The walk then goes on, and the survey has the leaf and its ordinals at its end.
    ensures { TakesNext most rows (Some (ALeaf (L.says leaf.now))) walk.old walk.new survey.old
        survey.new result }
{
    if !is_next(leaf, walk, most) {
        return Ok(false);
    }
    prove!(leaf.len() > 0);
    let first = leaf.leg(0).ordinal;
    let bounds = bounds_of(leaf);
    survey.leaves.push(Met {
        first,
        page: walk.page,
        bounds,
    })?;
    let whole = take_legs(
        leaf,
        walk.feature,
        rows,
        &mut walk.last,
        &mut survey.ordinals,
    )?;
    walk.previous = walk.page;
    walk.page = leaf.head().next;
    walk.left = walk.left.saturating_sub(most);
    Ok(whole)
}

/// Takes the payload of the next page of a way, where it is the leaf that is next; whether it is.
fn take_payload(
    payload: &Payload,
    walk: &mut Walk,
    most: u64,
    rows: u64,
    survey: &mut Survey,
) -> Result<bool, AllocError>
    ensures { TakesNext most rows (node_of payload.now) walk.old walk.new survey.old survey.new
        result }
{
    match tbnode::leaf(payload) {
        Some(leaf) => take_next(&leaf, walk, most, rows, survey),
        None => Ok(false),
    }
}

/// How the leaves of chains are read.
pub trait LeafReader {
    ghost use Rattle.std.specs.Prelude.{◌<◌, Option};
    ghost use Rattle.legs.specs.Boxes.{BoxView};
    ghost use Rattle.legs.specs.Legs.{LegView};
    ghost use Rattle.pages.specs.declared.payload.Payload.{Payload};
    ghost use Rattle.pagecache.specs.Cache.{Cache};
    ghost use Rattle.tbnode.specs.Nodes.{Node};
    ghost use Rattle.treecheck.specs.Check.{IsLeafOf};
    ghost use Rattle.treecheck.specs.Finding.{FindsPages};
    ghost use Rattle.tbtree.specs.Turn.{ComeInTurn};
    ghost use Rattle.tbtree.specs.Descent.{legs_in};
    ghost use Rattle.treecheck.specs.Walking.{pages_by, TakesLeaf};

    /// What they are read from.
    type Source;

    /// What contracts see of it: a cache of its pages.
    ghost seen: { Self.Source → Cache };

    /// The node that a payload says.
    ghost node: { Payload → Option (Node LegView BoxView) };

    /// Takes the next leaf of a way. Where its page is not that leaf it is malformed, or damaged;
    /// where no page is named, or none is there, the page that names it is malformed.
    fn take_leaf(
        source: &mut Self::Source,
        walk: &mut Walk,
        most: u64,
        rows: u64,
        survey: &mut Survey,
    ) -> Result<(), TreeFault>
        // Over a faithful store the page is the next leaf of the chain, and is taken. If the page is
        // that leaf, it fails only if memory runs out or the store fails.
        ensures { FindsPages
            (IsLeafOf (pages_by node (seen source.old)) most walk.old.feature walk.old.previous
            walk.old.left walk.old.page
            × ComeInTurn walk.old.feature rows walk.old.last
            (legs_in ((pages_by node (seen source.old)).at walk.old.page)))
            (λ _. 0 < walk.old.left → TakesLeaf (pages_by node (seen source.old)) most rows
            walk.old walk.new survey.old survey.new)
            (seen source.old) (seen source.new) result };
}

/// Leaves of the present version, which are read from a cache.
pub struct Cached<S: PageStore> {
    store: PhantomData<S>,
}

impl<S: PageStore> LeafReader for Cached<S> {
    ghost use Rattle.tbnode.specs.Form.{node_of};

    type Source = PageCache<S>;

    ghost seen = { λ cache. cache };

    ghost node = { node_of };

    fn take_leaf(
        cache: &mut PageCache<S>,
        walk: &mut Walk,
        most: u64,
        rows: u64,
        survey: &mut Survey,
    ) -> Result<(), TreeFault> {
        if walk.page == 0 {
            return Err(TreeFault::Malformed(walk.previous));
        }
        let next = cache.noted_after(walk.page);
        let payload = match cache.page_ahead(walk.page, &next) {
            Ok(payload) => payload,
            Err(fault) => return Err(TreeFault::of(fault, walk.previous)),
        };
        let page = walk.page;
        if take_payload(payload, walk, most, rows, survey)? {
            Ok(())
        } else {
            Err(TreeFault::Malformed(page))
        }
    }
}

/// Whether the last leg of a way, if any, ends when the track does.
fn ends(last: &Option<Leg>, track: &Track) -> bool
    ensures { IsTrue result ↔ ((leg : LegView) → last.now ≡ Some leg → leg.t1 ≡ track.now.end) }
{
    match last {
        None => true,
        Some(leg) => leg.t1 == track.end,
    }
}

/// Whether a way has come to the end of a feature's chain, as its place and its track say it.
fn is_at_end(walk: &Walk, place: &Place, track: &Track) -> bool
    ensures { IsTrue result ↔ IsAtEnd walk.now place.now track.now }
{
    walk.page == 0
        && walk.previous == place.last
        && track.legs == place.legs
        && ends(&walk.last, track)
}

/// Notes the leaves of a feature, along its chain from the first to the last, as its place and its
/// track say them.
pub fn walk_chain<R: LeafReader>(
    source: &mut R::Source,
    most: u64,
    rows: u64,
    feature: u32,
    place: &Place,
    track: &Track,
    survey: &mut Survey,
) -> Result<(), TreeFault>
    requires { 0 < most }
    ensures { FindsPages
        ((pages : List ℕ) × AreLeavesOf (pages_by R.node (R.seen source.old)) most rows feature
        place.now track.now pages)
        (λ _. Walks (pages_by R.node (R.seen source.old)) most rows feature place.now track.now
        survey.old survey.new)
        (R.seen source.old) (R.seen source.new) result }
{
    let mut walk = Walk {
        feature,
        previous: 0,
        page: place.first,
        left: place.legs,
        last: None,
    };
    'leaves: for _ in 0..place.legs.div_ceil(most) {
        R::take_leaf(source, &mut walk, most, rows, survey)?;
    }
    if !is_at_end(&walk, place, track) {
        return Err(TreeFault::Malformed(walk.previous));
    }
    Ok(())
}

/// The ordinal at a place; 0 where there is none.
fn ordinal_at(ordinals: &[u64], place: usize) -> u64
    ensures { result ≡ unwrap_or (slice_get ordinals.now place) 0 }
{
    match ordinals.get(place) {
        Some(ordinal) => *ordinal,
        None => 0,
    }
}

/// Whether there are as many tracks as places.
fn are_paired(places: &[Place], tracks: &Tracks) -> bool
    ensures { IsTrue result ↔ (length tracks.now.tracks ≡ length places.now) }
{
    let _ = tracks.track(0);
    tracks.feature_count() == places.len() as u64
}

/// Notes the leaves of each feature along its chain, as the places and the tracks say them.
pub fn walk_all<R: LeafReader>(
    alloc: Global,
    source: &mut R::Source,
    most: u64,
    rows: u64,
    places: &[Place],
    tracks: &Tracks,
) -> Result<Survey, TreeFault>
    // A leaf has room for a leg.
    requires { 0 < most }
    // Over a faithful store the survey has the leaves of each feature's chain, and the ordinals of
    // their legs. If all chains are whole, it fails only if memory runs out or the store fails.
    ensures { FindsPages
        ((length places.now < 2 ^ 32) × (chains : List (List ℕ))
        × AreChains (pages_by R.node (R.seen source.old)) most rows 0 places.now tracks.now.tracks
        chains)
        (λ survey. Surveys (pages_by R.node (R.seen source.old)) most rows places.now
        tracks.now.tracks survey)
        (R.seen source.old) (R.seen source.new) result }
{
    let mut survey = Survey {
        ordinals: Vec::new(alloc),
        leaves: Vec::new(alloc),
        firsts: Vec::new(alloc),
    };
    if !are_paired(places, tracks) {
        return Err(TreeFault::Malformed(0));
    }
    if places.len() > u32::MAX as usize {
        return Err(TreeFault::Malformed(0));
    }
    for feature in 0..places.len() as u32 {
        let Some(track) = tracks.track(feature) else {
            return Err(TreeFault::Malformed(0));
        };
        let start = survey.ordinals.len();
        let place = &places[feature as usize];
        walk_chain::<R>(source, most, rows, feature, place, &track, &mut survey)?;
        survey.firsts.push(ordinal_at(&survey.ordinals, start))?;
    }
    Ok(survey)
}
