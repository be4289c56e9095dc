//! What a store says of its database without its rows.
ghost use Rattle.std.specs.Prelude.{ℕ, ◌≡◌, List, Option, option_map};
ghost use Rattle.pagecache.specs.Cache.{payload_of};
ghost use Rattle.tbtree.specs.declared.tree.Place.{Place};
ghost use Rattle.tbtree.specs.declared.tree.TbTree.{TbTree};
ghost use Rattle.register.specs.Restoring.{IsOf, HoldsContents, ReadsStore, before_rows, Summarizes};
ghost use Rattle.register.specs.ChainReader.{Finds, ReadsPages};
ghost use Rattle.register.specs.Lasting.{IsKept};
ghost use Rattle.register.specs.Saved.{CatalogueView};
ghost use Rattle.register.specs.declared.contents.Contents.{Contents};

use crate::building::head_from;
use crate::chain_reader::ChainReader;
use crate::contents::{CatalogueHead, Features};
use crate::entries::leg_sum;
use crate::fault::CatalogueFault;
use crate::page_zero::read_header;
use crate::restoring::is_short;
use header::Fields;
use legs::{BookHead, Limits};
use pagecache::PageCache;
use pages::PageStore;
use std::alloc::Global;

/// What the text of a catalogue says before its rows.
#[derive(Drop)]
pub(crate) struct BeforeRows {
    pub(crate) head: CatalogueHead,
    pub(crate) features: Features,
}

/// What a store says of its database without its rows.
#[derive(Drop)]
pub struct Summary {
    /// What the first accepted file gave, if a file was accepted.
    pub head: Option<BookHead>,
    /// How many legs and features there may be.
    pub limits: Limits,
    /// How many features there are.
    pub features: u64,
    /// How many legs there are.
    pub legs: u64,
}

impl ChainReader {
    ghost use Rattle.register.specs.ChainReader.{ReadsValue};
    ghost use Rattle.register.specs.Restoring.{before_text, IsBeforeRows};

    /// The head and the features.
    fn before_rows<S: PageStore>(
        &mut self,
        alloc: Global,
        cache: &mut PageCache<S>,
    ) -> Result<BeforeRows, CatalogueFault>
        ensures { ReadsValue cache.old cache.new self.old self.new before_text IsBeforeRows result }
    {
        let head = self.head(alloc, cache)?;
        let features = self.counted_features(alloc, cache)?;
        Ok(BeforeRows { head, features })
    }
}

/// What the text of a catalogue says before its rows, if a file was accepted.
fn read_before<S: PageStore>(
    alloc: Global,
    cache: &mut PageCache<S>,
    fields: &Fields,
) -> Result<Option<BeforeRows>, CatalogueFault>
    ensures { ReadsPages cache.old cache.new (λ at before. (contents : Option Contents)
        → HoldsContents at cache.old.count fields.now.first fields.now.length contents
        → before ≡ option_map before_rows contents)
        (λ at. (contents : Option Contents)
        → HoldsContents at cache.old.count fields.now.first fields.now.length contents → ⊥)
        result }
{
    if !is_short(cache, fields.length) {
        return Err(CatalogueFault::Malformed);
    }
    let mut reader = ChainReader::new(alloc, fields.first, fields.length);
    let flag = reader.byte(cache)?;
    match flag {
        0 => Ok(None),
        1 => match reader.before_rows(alloc, cache) {
            Ok(before) => Ok(Some(before)),
            Err(fault) => Err(fault),
        },
        _ => Err(CatalogueFault::Malformed),
    }
}

/// What page 0 and the text before the rows say; none where they say more legs than the limit, or
/// no head.
fn summary_of(fields: &Fields, before: Option<BeforeRows>) -> Option<Summary>
    ensures { Finds (λ summary. (count : ℕ) (contents : Option Contents)
        (c : CatalogueView) (places : List Place) → IsOf count fields.now contents c places
        → before ≡ option_map before_rows contents → Summarizes c summary)
        ((count : ℕ) (contents : Option Contents) (c : CatalogueView) (places : List Place)
        → IsOf count fields.now contents c places → before ≡ option_map before_rows contents → ⊥)
        result }
{
    let limits = fields.limits;
    let Some(before) = before else {
        return Some(Summary {
            head: None,
            limits,
            features: 0,
            legs: 0,
        });
    };
    let BeforeRows { head, features } = before;
    let legs = leg_sum(&features);
    if legs > limits.legs() {
        return None;
    }
    let head = head_from(head, fields.dimension)?;
    Some(Summary {
        head: Some(head),
        limits,
        features: features.features.as_slice().len() as u64,
        legs,
    })
}

/// What the pages of a finished store say of its database without its rows. Of the catalogue's text
/// only what stands before the rows is read.
///
/// Refused as by `read_back`, but for what is wrong with the rows, the tree, or
/// a feature.
pub fn summarize<S: PageStore>(
    alloc: Global,
    cache: &mut PageCache<S>,
) -> Result<Summary, CatalogueFault>
    // Over a faithful store that keeps a catalogue the summary says what that one does. Such a
    // store is refused only if memory runs out or the store fails.
    ensures { ReadsStore cache.old cache.new (λ summary. (c : CatalogueView) (tree : TbTree)
        (places : List Place) → IsKept (payload_of cache.old) cache.old.count c tree places
        → Summarizes c summary) ((c : CatalogueView) (tree : TbTree) (places : List Place)
        → IsKept (payload_of cache.old) cache.old.count c tree places → ⊥) result }
{
    let fields = read_header(cache)?;
    let before = read_before(alloc, cache, &fields)?;
    match summary_of(&fields, before) {
        Some(summary) => Ok(summary),
        None => Err(CatalogueFault::Malformed),
    }
}
