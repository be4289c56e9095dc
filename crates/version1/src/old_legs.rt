//! The legs of a lent store of version 1.
ghost use Rattle.std.specs.Prelude.{◌≡◌, ◌≢◌, ◌+◌, ◌<◌, List, Some, None, IfOk, IfErr, IsTrue, OnOk};
ghost use Rattle.legs.specs.Index.{MayRefuseLeg};
ghost use Rattle.legs.specs.Legs.{LegView};
ghost use Rattle.legs.specs.declared.index.IndexFault.{IndexFault};
ghost use Rattle.pages.specs.Store.{Stays};
ghost use Rattle.pagecache.specs.Cache.{fresh, payload_of};
ghost use Rattle.version1.specs.OldForm.{old_node_of};
ghost use Rattle.treecheck.specs.Check.{HoldChains};
ghost use Rattle.tbtree.specs.Faults.{MayRefuseRead, NamesEach, RefusesRead};
ghost use Rattle.tbtree.specs.Turn.{IsRising};
ghost use Rattle.tbtree.specs.Descent.{legs_in};
ghost use Rattle.treecheck.specs.Checking.{Agree};
ghost use Rattle.version1.specs.Migrating.{IsReady, TakesFrom, TakesLegs};
ghost use Rattle.version1.specs.OldLegs.{unsealing, AreAmong, AreOpened, AreReadable, AreSurveyed, HaveEachOf, HaveLegsOf, IsNumbered, IsReadable, Opens, StandByOrdinal};
ghost use Rattle.treecheck.specs.Finding.{FindsPages};
ghost use Rattle.treecheck.specs.Walking.{pages_by, TakesNext};
ghost use Rattle.treecheck.specs.declared.walking.Met.{Met};

use crate::old_form::{OldLeaf, old_leaf};
use crate::waiting::{put_behind, put_waiting};
use boxsearch::of_tree;
use legs::{IndexFault, Leg, LegIndex, Tracks};
use pagecache::CacheFault;
use pages::{PageFault, PageStore, Payload, unseal};
use std::alloc::{AllocError, AllocFailed, Global};
use std::collections::HashMap;
use std::hash::RandomState;
use std::marker::PhantomData;
use tbtree::{Place, TreeFault};
use treecheck::{LeafReader, Met, Survey, Walk, agree, is_whole, sort_leaves, take_next, walk_all};

/// The legs of leaves that have been opened and not used up, by their ordinals.
type Opened = HashMap<u64, Leg, RandomState>;

/// A page of zero bytes.
fn blank() -> [u8; 4096] {
    [0; 4096]
}

/// Why a page is not unsealed.
fn fault_of(fault: PageFault) -> TreeFault
    ensures { result ≡ unsealing fault }
{
    match fault {
        PageFault::Damaged(page) => TreeFault::Cache(CacheFault::Damaged(page)),
    }
}

/// Reads a page of a store, and its payload. A page that is not there is said as the page `from`,
/// which names it, being malformed.
fn read_payload<S: PageStore>(store: &mut S, page: u32, from: u32) -> Result<Payload, TreeFault>
    ensures value { IfOk result (λ payload. IsTrue (S.seen store.old).is_faithful
        → payload_of (fresh (S.seen store.old) 1) page ≡ Some payload) }
    ensures below { OnOk result (page < (S.seen store.old).count) }
    ensures only { IfErr result (λ fault. IsTrue (S.seen store.old).is_faithful
        → page < (S.seen store.old).count
        → payload_of (fresh (S.seen store.old) 1) page ≢ None → MayRefuseRead fault) }
    ensures named { IfErr result (NamesEach
        (λ n. (n ≡ page) × (IsTrue (S.seen store.old).is_faithful
        → payload_of (fresh (S.seen store.old) 1) page ≡ None))
        (λ n. (n ≡ from) × (page < (S.seen store.old).count → ⊥))) }
    ensures stays { Stays (S.seen store.old) (S.seen store.new) }
    ensures caused { IfErr result
        (RefusesRead (fresh (S.seen store.old) 1) (fresh (S.seen store.new) 1)) }
{
    if page >= store.len() {
        return Err(TreeFault::Malformed(from));
    }
    let mut bytes = blank();
    match store.read(page, &mut bytes) {
        Ok(()) => match unseal(page, &bytes) {
            Ok(payload) => Ok(payload),
            Err(fault) => Err(fault_of(fault)),
        },
        Err(_) => Err(TreeFault::Cache(CacheFault::Store)),
    }
}

/// Takes the payload of the next page of a way, where it is the leaf of version 1 that is next;
/// whether it is.
fn take_old_payload(
    payload: &Payload,
    walk: &mut Walk,
    most: u64,
    rows: u64,
    survey: &mut Survey,
) -> Result<bool, AllocError>
    ensures { TakesNext most rows (old_node_of payload.now) walk.old walk.new survey.old
        survey.new result }
{
    match old_leaf(payload) {
        Some(leaf) => take_next(&leaf, walk, most, rows, survey),
        None => Ok(false),
    }
}

/// Leaves of version 1, which are read from a lent store.
struct Lent<S: PageStore> {
    store: PhantomData<S>,
}

impl<S: PageStore> LeafReader for Lent<S> {
    ghost use Rattle.pagecache.specs.Cache.{fresh};
    ghost use Rattle.version1.specs.OldForm.{old_node_of};

    type Source = S;

    ghost seen = { λ store. fresh (S.seen store) 1 };

    ghost node = { old_node_of };

    fn take_leaf(
        store: &mut S,
        walk: &mut Walk,
        most: u64,
        rows: u64,
        survey: &mut Survey,
    ) -> Result<(), TreeFault> {
        if walk.page == 0 {
            return Err(TreeFault::Malformed(walk.previous));
        }
        let payload = match read_payload(store, walk.page, walk.previous) {
            Ok(payload) => payload,
            Err(fault) => return Err(fault),
        };
        let page = walk.page;
        if take_old_payload(&payload, walk, most, rows, survey)? {
            Ok(())
        } else {
            Err(TreeFault::Malformed(page))
        }
    }
}

/// The leaves of the store, in the order of their first legs. The chains are walked and tested as
/// they are in a check.
fn survey_leaves<S: PageStore>(
    alloc: Global,
    store: &mut S,
    most: u64,
    places: &[Place],
    tracks: &Tracks,
    rows: u64,
) -> Result<Survey, TreeFault>
    requires { 0 < most }
    ensures { FindsPages
        (Agree tracks.now rows tracks.now.legs × (legs : List LegView)
        × HoldChains (pages_by old_node_of (fresh (S.seen store.old) 1)) most rows tracks.now.legs
        places.now tracks.now.tracks legs)
        (λ survey. AreSurveyed (pages_by old_node_of (fresh (S.seen store.old) 1)) most rows
        tracks.now.legs places.now tracks.now.tracks survey.leaves.items)
        (fresh (S.seen store.old) 1) (fresh (S.seen store.new) 1) result }
{
    let legs = tracks.leg_count();
    let mut survey = walk_all::<Lent<S>>(alloc, store, most, rows, places, tracks)?;
    if !is_whole(places, legs, &mut survey) {
        return Err(TreeFault::Malformed(0));
    }
    if !agree(tracks, rows, legs) {
        return Err(TreeFault::Malformed(0));
    }
    sort_leaves(&mut survey.leaves);
    Ok(survey)
}

/// Puts the legs of a leaf to those of opened leaves, by their ordinals.
fn put_legs(leaf: &OldLeaf<'_>, opened: &mut Opened) -> Result<(), AllocFailed<(u64, Leg)>>
    ensures stand { OnOk result ((legs : List LegView) → StandByOrdinal legs opened.old.entries
        → AreAmong leaf.now.legs legs → StandByOrdinal legs opened.new.entries) }
    ensures opens { OnOk result (Opens leaf.now.legs opened.old.entries opened.new.entries) }
{
    for i in 0..leaf.len() {
        let leg = leaf.leg(i);
        let ordinal = leg.ordinal;
        opened.insert(ordinal, leg)?;
    }
    Ok(())
}

/// Opens the leaf on a page.
fn open_leaf<S: PageStore>(store: &mut S, page: u32, opened: &mut Opened) -> Result<(), TreeFault>
    ensures opened { OnOk result (IsTrue (S.seen store.old).is_faithful → (legs : List LegView)
        → StandByOrdinal legs opened.old.entries
        → AreAmong (legs_in ((pages_by old_node_of (fresh (S.seen store.old) 1)).at page)) legs
        → StandByOrdinal legs opened.new.entries) }
    ensures opens { OnOk result (IsTrue (S.seen store.old).is_faithful
        → Opens (legs_in ((pages_by old_node_of (fresh (S.seen store.old) 1)).at page))
        opened.old.entries opened.new.entries) }
    ensures only { IfErr result (λ fault. IsTrue (S.seen store.old).is_faithful
        → IsReadable (pages_by old_node_of (fresh (S.seen store.old) 1)) page
        → MayRefuseRead fault) }
    ensures stays { Stays (S.seen store.old) (S.seen store.new) }
    ensures caused { IfErr result
        (RefusesRead (fresh (S.seen store.old) 1) (fresh (S.seen store.new) 1)) }
{
    let payload = match read_payload(store, page, 0) {
        Ok(payload) => payload,
        Err(fault) => return Err(fault),
    };
    match old_leaf(&payload) {
        Some(leaf) => {
            put_legs(&leaf, opened)?;
            Ok(())
        }
        None => Err(TreeFault::Malformed(page)),
    }
}

/// How many leaves are opened, of so many that were, once the next one is where it begins with a
/// leg.
fn open_next<S: PageStore>(
    store: &mut S,
    leaves: &[Met],
    next: usize,
    ordinal: u64,
    opened: &mut Opened,
) -> Result<usize, TreeFault>
    ensures opened { OnOk result (IsTrue (S.seen store.old).is_faithful → (legs : List LegView)
        → StandByOrdinal legs opened.old.entries
        → HaveLegsOf (pages_by old_node_of (fresh (S.seen store.old) 1)) leaves.now legs
        → StandByOrdinal legs opened.new.entries) }
    ensures on { IfOk result (λ later. IsTrue (S.seen store.old).is_faithful
        → IsRising (λ (m : Met). m.first) leaves.now
        → AreOpened (pages_by old_node_of (fresh (S.seen store.old) 1)) leaves.now next ordinal
        ordinal opened.old.entries
        → AreOpened (pages_by old_node_of (fresh (S.seen store.old) 1)) leaves.now later ordinal
        (ordinal + 1) opened.new.entries) }
    ensures only { IfErr result (λ fault. IsTrue (S.seen store.old).is_faithful
        → AreReadable (pages_by old_node_of (fresh (S.seen store.old) 1)) leaves.now
        → MayRefuseRead fault) }
    ensures stays { Stays (S.seen store.old) (S.seen store.new) }
    ensures caused { IfErr result
        (RefusesRead (fresh (S.seen store.old) 1) (fresh (S.seen store.new) 1)) }
{
    match leaves.get(next) {
        Some(leaf) => {
            if leaf.first != ordinal {
                return Ok(next);
            }
            open_leaf(store, leaf.page, opened)?;
            Ok(next + 1)
        }
        None => Ok(next),
    }
}

/// Puts the legs of the store, in their accepted order, at the end of an index without legs, 65,536
/// of them at a time. Each leaf is read twice, and in memory are kept 64 bytes or so a leaf, 8 bytes
/// a leg while the chains are walked, and then only the legs that are next, and those of leaves that
/// are opened and not used up: at most one leaf a feature.
///
/// A store whose chains a check would refuse is `Damaged`, with the page at which the walk along them
/// fails, or page 0 where all of them do not have the legs that are to be. What is said of memory no
/// clause says.
pub fn take_old_legs<S: PageStore, I: LegIndex>(
    alloc: Global,
    keys: RandomState,
    old: &mut S,
    most: u64,
    places: &[Place],
    tracks: &Tracks,
    rows: u64,
    index: &mut I,
) -> Result<(), IndexFault>
    // A leaf has room for a leg.
    requires { 0 < most }
    // The legs of the old store come into the index, or it is said why not.
    ensures { TakesLegs I.Listed (S.seen old.old) (S.seen old.new) most rows tracks.now places.now
        index.old index.new result }
{
    let survey = match survey_leaves(alloc, old, most, places, tracks, rows) {
        Ok(survey) => survey,
        Err(fault) => return Err(of_tree(fault)),
    };
    bring(
        alloc,
        keys,
        old,
        survey.leaves.as_slice(),
        tracks.leg_count(),
        index,
    )
}

/// Puts so many legs of leaves, which are in the order of their first legs, at the end of an index.
fn bring<S: PageStore, I: LegIndex>(
    alloc: Global,
    keys: RandomState,
    old: &mut S,
    leaves: &[Met],
    legs: u64,
    index: &mut I,
) -> Result<(), IndexFault>
    ensures brought { OnOk result (IsReady I.Listed (S.seen old.old) index.old
        → (list : List LegView)
        → HaveLegsOf (pages_by old_node_of (fresh (S.seen old.old) 1)) leaves.now list
        → IsNumbered legs list → I.is_sound index.new × (I.content index.new ≡ list)) }
    ensures only { IfErr result (λ fault. IsReady I.Listed (S.seen old.old) index.old
        → (list : List LegView)
        → HaveLegsOf (pages_by old_node_of (fresh (S.seen old.old) 1)) leaves.now list
        → HaveEachOf (pages_by old_node_of (fresh (S.seen old.old) 1)) leaves.now list
        → IsNumbered legs list → MayRefuseLeg fault) }
    ensures marked { IsReady I.Listed (S.seen old.old) index.old → I.is_marked index.old
        → (list : List LegView)
        → HaveLegsOf (pages_by old_node_of (fresh (S.seen old.old) 1)) leaves.now list
        → IsNumbered legs list → I.is_marked index.new }
    ensures takes { TakesFrom I.Listed (S.seen old.old) (S.seen old.new) index.old index.new
        result }
{
    let mut opened = HashMap::with_hasher(alloc, keys);
    let mut waiting = Vec::new(alloc);
    let mut next = 0;
    'legs: for ordinal in 0..legs {
        next = match open_next(old, leaves, next, ordinal, &mut opened) {
            Ok(next) => next,
            Err(fault) => return Err(of_tree(fault)),
        };
        let Some(leg) = opened.remove(&ordinal) else {
            return Err(IndexFault::Damaged(0));
        };
        put_behind(index, &mut waiting, leg)?;
    }
    put_waiting(index, &mut waiting)
}
