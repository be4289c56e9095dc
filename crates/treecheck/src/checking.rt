//! A check of an index: its pages hold one list of legs.
ghost use Rattle.std.specs.Prelude.{◌≡◌, ◌≢◌, ◌<◌, ◌↔◌, Err, None, IfErr, IsErrOf, OnOk, IsTrue, true};
ghost use Rattle.pagecache.specs.Cache.{payload_of};
ghost use Rattle.chains.specs.Chains.{AreHeld};
ghost use Rattle.chains.specs.Reads.{OnlyReads};
ghost use Rattle.tbtree.specs.Nodes.{pages_of_cache};
ghost use Rattle.treecheck.specs.Checking.{Agree, AreTracksOf, IsWholeCache};
ghost use Rattle.treecheck.specs.Finding.{TestsPages};
ghost use Rattle.boxsearch.specs.Beside.{with_cache};
ghost use Rattle.boxsearch.specs.Index.{content, words, IsSoundIndex};
ghost use Rattle.header.specs.Front.{SaysState};
ghost use Rattle.legs.specs.Asking.{Leaves};
ghost use Rattle.legs.specs.Index.{MayRefuse, HasRisen};
ghost use Rattle.legs.specs.declared.index.IndexFault.{IndexFault};
ghost use Rattle.treecheck.specs.Ordering.{IsSurveyWhole};
ghost use Rattle.treecheck.specs.declared.walking.Survey.{Survey};

use crate::levels::check_tree;
use crate::ordering::{are_once, have_legs, leaves_rise, name_last, rise, sort_leaves};
use crate::walking::{Cached, Survey, walk_all};
use boxsearch::{TreeIndex, answer};
use header::has_state;
use legs::{IndexFault, LegIndex, Tracks};
use pagecache::{PageCache, behind};
use pages::{PageStore, Payload};
use std::alloc::Global;
use tbtree::{Place, TbTree, TreeFault};

/// The most features that any limit allows.
const MOST_FEATURES: u64 = 2_147_483_648;

/// The page that a page names as the leaf after it; where it is no leaf, a number that no page has.
fn next_of(payload: &Payload) -> u32 {
    match tbnode::untested(payload) {
        Some(leaf) => leaf.head().next,
        None => u32::MAX,
    }
}

/// Reads a page, for its seal, and notes which leaf comes after it. Those behind it may come into
/// memory with it.
fn read_page<S: PageStore>(cache: &mut PageCache<S>, page: u32) -> Result<(), TreeFault>
    requires { page < cache.old.count }
    ensures { TestsPages ((pages_of_cache cache.old).at page ≢ None) cache.old cache.new result }
{
    match cache.page_ahead(page, &behind(page)) {
        Ok(payload) => {
            let next = next_of(payload);
            cache.note_next(page, next);
            Ok(())
        }
        Err(fault) => Err(TreeFault::of(fault, page)),
    }
}

/// Notes that the first leaf of each feature is read after the last one of the feature before it.
fn note_places<S: PageStore>(cache: &mut PageCache<S>, places: &[Place])
    ensures { cache.new ≡ cache.old }
{
    let mut last = u32::MAX;
    for place in places {
        cache.note_next(last, place.first);
        last = place.last;
    }
}

/// Reads each page once, for its seal, and notes the order in which the leaves of the places are to
/// come. A page that the store has beyond those of the cache is malformed, and so is page 0 where
/// there is none.
#[tactic(auto, using(chains::proofs::ReadLemmas::reading))]
fn read_pages<S: PageStore>(cache: &mut PageCache<S>, places: &[Place]) -> Result<(), TreeFault>
    ensures { TestsPages ((0 < cache.old.count) × (cache.old.count ≡ cache.old.store.count)
        × AreHeld (pages_of_cache cache.old)) cache.old cache.new result }
{
    let count = cache.count();
    for page in 0..count {
        read_page(cache, page)?;
    }
    if count == 0 || cache.store().len() != count {
        return Err(TreeFault::Malformed(count));
    }
    note_places(cache, places);
    Ok(())
}

/// Reads page 0, and tests that it is the header of a store that is not finished where its database
/// has begun, and of a finished one where it has not.
fn check_state<S: PageStore>(cache: &mut PageCache<S>, begun: bool) -> Result<(), TreeFault>
    ensures { TestsPages ((0 < cache.old.count) × SaysState begun (payload_of cache.old 0))
        cache.old cache.new result }
{
    let payload = match cache.page(0) {
        Ok(payload) => payload,
        Err(fault) => return Err(TreeFault::of(fault, 0)),
    };
    if !has_state(payload, begun) {
        return Err(TreeFault::Malformed(0));
    }
    Ok(())
}

/// Whether a survey is whole: each feature has a leg, each ordinal below the total stands once, and
/// features are in the order of their first legs. The ordinals may be put in another order; nothing
/// else of the survey changes.
pub fn is_whole(places: &[Place], total: u64, survey: &mut Survey) -> bool
    // A survey passes just where it is whole.
    ensures whole { IsTrue result ↔ IsSurveyWhole places.now total survey.old }
    // The leaves stay as they are.
    ensures leaves { survey.new.leaves ≡ survey.old.leaves }
{
    if survey.ordinals.len() as u64 != total {
        return false;
    }
    if !have_legs(places) {
        return false;
    }
    if !are_once(&mut survey.ordinals) {
        return false;
    }
    rise(survey.firsts.as_slice())
}

/// Whether the tracks have so many legs and rows, and no more features than any limit allows.
pub fn agree(tracks: &Tracks, rows: u64, legs: u64) -> bool
    ensures { IsTrue result ↔ Agree tracks.now rows legs }
{
    let _ = tracks.track(0);
    tracks.leg_count() == legs
        && tracks.row_count() == rows
        && tracks.feature_count() <= MOST_FEATURES
}

/// Tests that the pages hold one list of so many legs under a tree, with the places and the tracks
/// of its features, and a row of so many for each leg, and that page 0 says whether the database has
/// begun. The first page that fails is malformed; page 0 where what it keeps does.
#[tactic(auto, using(chains::proofs::ReadLemmas::reading))]
pub fn check_pages<S: PageStore>(
    alloc: Global,
    cache: &mut PageCache<S>,
    tree: &TbTree,
    places: &[Place],
    tracks: &Tracks,
    rows: u64,
    legs: u64,
    begun: bool,
) -> Result<(), TreeFault>
    ensures { TestsPages (IsWholeCache cache.old tree.now rows legs places.now tracks.now begun)
        cache.old cache.new result }
{
    let most = u64::from(tree.shape.leaf());
    read_pages(cache, places)?;
    check_state(cache, begun)?;
    let mut survey = walk_all::<Cached<S>>(alloc, cache, most, rows, places, tracks)?;
    if !is_whole(places, legs, &mut survey) {
        return Err(TreeFault::Malformed(0));
    }
    if !agree(tracks, rows, legs) {
        return Err(TreeFault::Malformed(0));
    }
    sort_leaves(&mut survey.leaves);
    if !leaves_rise(survey.leaves.as_slice()) {
        return Err(TreeFault::Malformed(0));
    }
    check_tree(alloc, cache, tree, survey.leaves.as_slice())?;
    if !name_last(places, survey.leaves.as_slice()) {
        return Err(TreeFault::Malformed(0));
    }
    Ok(())
}

/// Checks the pages of an index, whose places are apart.
fn check_index<S: PageStore>(
    alloc: Global,
    index: &mut TreeIndex<S>,
    places: &[Place],
    tracks: &Tracks,
    rows: u64,
    begun: bool,
) -> Result<(), TreeFault>
    ensures tests { TestsPages (IsWholeCache index.old.cache index.old.tree rows index.old.legs
        places.now tracks.now begun) index.old.cache index.new.cache result }
    ensures same { index.new ≡ with_cache index.old index.new.cache index.new.known }
{
    let tree = index.tree();
    let legs = index.leg_count();
    check_pages(
        alloc,
        index.cache_mut(),
        &tree,
        places,
        tracks,
        rows,
        legs,
        begun,
    )
}

/// Tests that the pages of an index, whoever made them, hold one list of legs, which its tree, its
/// places, these tracks and so many rows of attribute values are of. Each page is asked of the
/// cache for its seal, then page 0, which is the header of a store that is not finished where the
/// database has begun, and of a finished one where it has not, then the leaves of each feature
/// along its chain, then the tree from the root down; where the cache was flushed, what it gives
/// are the pages as written.
///
/// The first page that fails is `Damaged`: the last leaf of a feature that ends elsewhere than its
/// track or its place says, and page 0 where the numbers of all legs, of the tree, or of the rows
/// do. A spent index is `Spent`.
pub fn check<S: PageStore>(
    index: &mut TreeIndex<S>,
    tracks: &Tracks,
    rows: u64,
    begun: bool,
) -> Result<(), IndexFault>
    // What passes is sound, with the tracks of its legs; what is sound passes.
    ensures sound { OnOk result (IsTrue index.old.cache.store.is_faithful → IsSoundIndex index.new) }
    // The tracks and the number of rows are then those of the index's legs.
    ensures tracks { OnOk result (IsTrue index.old.cache.store.is_faithful
        → AreTracksOf tracks.now rows (content index.new)) }
    // Page 0 then says unfinished if the database has begun, and finished if not.
    ensures says { OnOk result (IsTrue index.old.cache.store.is_faithful
        → SaysState begun (payload_of index.new.cache 0)) }
    // A sound index with its tracks and a right page 0 fails only if memory runs out or the store
    // fails.
    ensures only { IsSoundIndex index.old → AreTracksOf tracks.now rows (content index.old)
        → SaysState begun (payload_of index.old.cache 0) → IfErr result MayRefuse }

    // Nothing changes.
    ensures same { index.new ≡ with_cache index.old index.new.cache index.new.known }
    // No payload changes, and no page more is changed or written.
    ensures reads { OnlyReads index.old.cache index.new.cache }
    // The index tells the same legs, sound where it was, and spent where it was.
    ensures leaves { Leaves words index.old index.new }

    // `Spent` is returned only of a spent index.
    ensures works { IsErrOf result IndexFault.Spent → index.old.tree.spent ≡ true }
    // `Store` is returned only if the store failed.
    ensures store { IsErrOf result IndexFault.Store
        → HasRisen index.old.cache.store.faults index.new.cache.store.faults }
    // `StoreFull` is never returned.
    ensures full { IsErrOf result IndexFault.StoreFull → ⊥ }
{
    if index.tree().spent {
        return Err(IndexFault::Spent);
    }
    let alloc = index.allocator();
    let places = index.take_places();
    let given = check_index(alloc, index, places.as_slice(), tracks, rows, begun);
    index.put_places(places);
    answer(given)
}
