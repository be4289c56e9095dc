//! The leaves of other features that are likely to be asked for soon, so that they may come into memory with one that
//! is. No contract says which these are.
use crate::again::is_end;
use pagecache::PageCache;
use pages::PageStore;
use timebase::Period;

/// The leaf before one that is in memory, where a walk back for a period goes on to it.
fn before<S: PageStore>(cache: &PageCache<S>, page: u32, period: &Option<Period>) -> Option<u32> {
    let Some(payload) = cache.peek(page) else {
        return None;
    };
    let Some(leaf) = tbnode::untested(payload) else {
        return None;
    };
    match is_end(&leaf, period) {
        Some(false) => Some(leaf.head().previous),
        _ => None,
    }
}

/// The leaf that a walk back from a last leaf comes to once it passed so many, which are in memory.
fn passed_to<S: PageStore>(
    cache: &PageCache<S>,
    last: u32,
    passed: usize,
    period: &Option<Period>,
) -> Option<u32> {
    let mut page = last;
    for _ in 0..passed {
        page = match before(cache, page, period) {
            Some(page) => page,
            None => return None,
        };
    }
    Some(page)
}

/// Where the walks of the next seven features are once each passed so many leaves, those first whose last leaf was noted
/// to come after this one. In place of one that is not known stands a number that no page has.
pub(crate) fn beside<S: PageStore>(
    cache: &PageCache<S>,
    last: u32,
    passed: usize,
    period: &Option<Period>,
) -> [u32; 7] {
    let mut pages = [u32::MAX; 7];
    let mut other = last;
    for i in 0..7 {
        other = cache.follower(other);
        if let Some(page) = passed_to(cache, other, passed, period) {
            pages[i] = page;
        }
    }
    pages
}
