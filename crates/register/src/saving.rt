//! A catalogue is kept in pages.
ghost use Rattle.std.specs.Prelude.{◌≡◌, ◌<◌, ◌^◌, ◌++◌, ◌∷◌, [], length, slice_get, unwrap_or, false, All, IfErr, IfOk, IsOk, IsTrue, OnErr, OnOk};
ghost use Rattle.pages.specs.Store.{IsSynced, NoneUnsynced};
ghost use Rattle.pagecache.specs.Cache.{is_changed, page_of, payload_of, IsClean, Rests};
ghost use Rattle.register.specs.Lasting.{Says};
ghost use Rattle.chains.specs.Reads.{OnlyReads};
ghost use Rattle.tbtree.specs.Passes.{KeepsLength};
ghost use Rattle.tbtree.specs.Stands.{no_place};
ghost use Rattle.header.specs.Fields.{first_of};
ghost use Rattle.register.specs.Saved.{dimensions_of, fields_for, head_of, Continues, IsWrittenButFirst, KeepsFront, SparesTree};
ghost use Rattle.register.specs.Saving.{contents_of, end_of, feature_at, features_of, HasFew, HasPageZero, IsSavingStop, IsCatalogue, IsCaused, Puts, PutsFields, PutsText, RefusesFirst, WritesAll};
ghost use Rattle.register.specs.declared.fault.CatalogueFault.TheVariants.{Malformed};
ghost use Rattle.register.specs.Text.{catalogue_text, feature_text, features_bytes, head_text, row_text, rows_text, AreCounted, IsFeature, IsHead, IsShortText, IsWhole};

use crate::chain_reader::fault_of;
use crate::chain_writer::ChainWriter;
use crate::contents::Kept;
use crate::encoding::{push_byte, push_feature, push_head, push_row, push_u32};
use crate::fault::CatalogueFault;
use header::{Fields, first_of, put_fields};
use legs::{BookHead, Limits, Tracks};
use mfcsv::Dimension;
use pagecache::PageCache;
use pages::PageStore;
use rows::{Row, Rows};
use std::alloc::Global;
use std::marker::Model;
use tbtree::{Place, TbTree};

/// What a store keeps of a database beside its legs.
#[derive(Drop)]
pub struct Catalogue {
    /// What the first accepted file gave, if a file was accepted.
    pub head: Option<BookHead>,
    /// How many legs and features there may be.
    pub limits: Limits,
    /// The features.
    pub tracks: Tracks,
    /// The attribute values of each record.
    pub rows: Rows,
}

impl Model for Catalogue {
    ghost use Rattle.register.specs.Saved.{CatalogueView};

    ghost Value = { CatalogueView };

    ghost view = { λ a.
        record { head = a.head; limits = a.limits; tracks = a.tracks; rows = a.rows } };
}

/// Writes the pages that the text fills.
fn write_text<S: PageStore>(
    writer: &mut ChainWriter,
    cache: &mut PageCache<S>,
) -> Result<(), CatalogueFault>
    ensures { Puts [] (Unit {0}) (Unit {0}) cache.old cache.new writer.old writer.new result }
{
    match writer.write_full(cache) {
        Ok(()) => Ok(()),
        Err(fault) => Err(fault_of(fault)),
    }
}

/// When a feature's last leg ends.
fn end_at(tracks: &Tracks, feature: u32) -> i64
    ensures { result ≡ end_of (slice_get tracks.now.tracks feature) }
{
    match tracks.track(feature) {
        Some(track) => track.end.millis(),
        None => 0,
    }
}

/// The place of a feature.
fn place_at(places: &[Place], feature: u32) -> Place
    ensures { result ≡ unwrap_or (slice_get places.now feature) no_place }
{
    match places.get(feature as usize) {
        Some(place) => *place,
        None => Place::new(),
    }
}

/// What is kept of a feature beside its name.
#[tactic(auto, unfolding(crate::specs::Saving::feature_at))]
fn kept_at(tracks: &Tracks, places: &[Place], feature: u32) -> Kept
    ensures { result ≡ (feature_at tracks.now places.now feature).kept }
{
    let end = end_at(tracks, feature);
    let place = place_at(places, feature);
    Kept { end, place }
}

/// The name of a feature.
#[tactic(auto, unfolding(crate::specs::Saving::feature_at))]
fn name_at(tracks: &Tracks, feature: u32) -> &str
    ensures { result.now ≡ unwrap_or (slice_get tracks.now.names feature) [] }
{
    match tracks.name(feature) {
        Some(name) => name,
        None => "",
    }
}

/// Puts a feature at the end of the text.
fn write_feature<S: PageStore>(
    writer: &mut ChainWriter,
    cache: &mut PageCache<S>,
    tracks: &Tracks,
    places: &[Place],
    feature: u32,
) -> Result<(), CatalogueFault>
    ensures { Puts (feature_text (feature_at tracks.now places.now feature)) (Unit {0})
        (IsFeature (feature_at tracks.now places.now feature))
        cache.old cache.new writer.old writer.new result }
{
    let kept = kept_at(tracks, places, feature);
    push_feature(writer, name_at(tracks, feature), &kept)?;
    write_text(writer, cache)
}

/// Puts the features behind their number at the end of the text.
fn write_features<S: PageStore>(
    writer: &mut ChainWriter,
    cache: &mut PageCache<S>,
    tracks: &Tracks,
    places: &[Place],
    count: u32,
) -> Result<(), CatalogueFault>
    ensures { count ≡ length tracks.now.names
        → Puts (features_bytes (features_of tracks.now places.now)) (Unit {0})
        (AreCounted IsFeature 32 (features_of tracks.now places.now))
        cache.old cache.new writer.old writer.new result }
{
    push_u32(writer, count)?;
    for feature in 0..count {
        write_feature(writer, cache, tracks, places, feature)?;
    }
    Ok(())
}

/// Puts a row of attribute values at the end of the text.
fn write_row<S: PageStore>(
    writer: &mut ChainWriter,
    cache: &mut PageCache<S>,
    row: &Row<'_>,
) -> Result<(), CatalogueFault>
    ensures { Puts (row_text row.now) (Unit {0}) (All IsShortText row.now)
        cache.old cache.new writer.old writer.new result }
{
    push_row(writer, row)?;
    write_text(writer, cache)
}

/// Puts the rows behind their number at the end of the text.
fn write_rows<S: PageStore>(
    writer: &mut ChainWriter,
    cache: &mut PageCache<S>,
    rows: &Rows,
    count: u32,
) -> Result<(), CatalogueFault>
    ensures { count ≡ length rows.now
        → Puts (rows_text rows.now) (Unit {0}) (AreCounted (All IsShortText) 32 rows.now)
        cache.old cache.new writer.old writer.new result }
{
    push_u32(writer, count)?;
    for i in 0..rows.len() {
        let Some(row) = rows.row(i) else {
            unreachable!()
        };
        write_row(writer, cache, &row)?;
    }
    Ok(())
}

/// Puts the head of the first accepted file at the end of the text, behind the byte that says that
/// there is one.
fn write_head<S: PageStore>(
    writer: &mut ChainWriter,
    cache: &mut PageCache<S>,
    head: &BookHead,
) -> Result<(), CatalogueFault>
    ensures { Puts (1 ∷ head_text (head_of head.now)) (Unit {0}) (IsHead (head_of head.now))
        cache.old cache.new writer.old writer.new result }
{
    push_byte(writer, 1)?;
    push_head(writer, head)?;
    write_text(writer, cache)
}

/// How many there are, as a number of four bytes.
fn count_of(count: u64) -> Result<u32, CatalogueFault>
    ensures ok { IfOk result (λ n. n ≡ count) }
    ensures few { count < 2 ^ 32 → IsOk result }
    ensures many { IfErr result (λ fault. fault ≡ Malformed) }
{
    match u32::try_from(count) {
        Ok(count) => Ok(count),
        Err(_) => Err(CatalogueFault::Malformed),
    }
}

/// Puts the features and the rows at the end of the text.
fn write_lists<S: PageStore>(
    writer: &mut ChainWriter,
    cache: &mut PageCache<S>,
    tracks: &Tracks,
    places: &[Place],
    rows: &Rows,
) -> Result<(), CatalogueFault>
    ensures { Puts (features_bytes (features_of tracks.now places.now) ++ rows_text rows.now)
        ((length tracks.now.names < 2 ^ 32) × (length rows.now < 2 ^ 32))
        (AreCounted IsFeature 32 (features_of tracks.now places.now)
        × AreCounted (All IsShortText) 32 rows.now)
        cache.old cache.new writer.old writer.new result }
{
    let features = count_of(tracks.feature_count())?;
    let row_count = count_of(rows.len() as u64)?;
    write_features(writer, cache, tracks, places, features)?;
    write_rows(writer, cache, rows, row_count)
}

/// Puts the whole text of a catalogue at the end of an empty one; only what there are too many of
/// for their number is `Malformed`.
fn write_catalogue<S: PageStore>(
    writer: &mut ChainWriter,
    cache: &mut PageCache<S>,
    catalogue: &Catalogue,
    places: &[Place],
) -> Result<(), CatalogueFault>
    ensures { Puts (catalogue_text (contents_of catalogue.now places.now)) (HasFew catalogue.now)
        (IsCatalogue catalogue.now → IsWhole (contents_of catalogue.now places.now))
        cache.old cache.new writer.old writer.new result }
{
    match &catalogue.head {
        None => match push_byte(writer, 0) {
            Ok(()) => Ok(()),
            Err(memory) => Err(CatalogueFault::from(memory)),
        },
        Some(head) => {
            write_head(writer, cache, head)?;
            write_lists(writer, cache, &catalogue.tracks, places, &catalogue.rows)
        }
    }
}

/// The first page of the earlier catalogue, 0 for none.
fn earlier_page<S: PageStore>(cache: &mut PageCache<S>) -> Result<u32, CatalogueFault>
    ensures some { OnOk result (0 < cache.old.count) }
    ensures there { OnOk result (HasPageZero cache.old) }
    ensures reads { OnlyReads cache.old cache.new }
    ensures refused { RefusesFirst cache.old cache.new result }
{
    match cache.page(0) {
        Ok(payload) => Ok(first_of(payload)),
        Err(fault) => Err(fault_of(fault)),
    }
}

/// Writes to page 0 what it says of the tree and of the catalogue; how it begins stays.
fn write_fields<S: PageStore>(
    cache: &mut PageCache<S>,
    fields: &Fields,
) -> Result<(), CatalogueFault>
    ensures puts { OnOk result (PutsFields fields.now cache.old cache.new) }
    ensures rests { OnErr result (Rests cache.old cache.new) }
    ensures later { Continues cache.old cache.new }
    ensures written { IsTrue cache.old.store.is_faithful → 0 < cache.old.count
        → is_changed cache.old 0 ≡ false
        → page_of cache.new 0 ≡ page_of cache.old 0 }
    ensures refused { RefusesFirst cache.old cache.new result }
{
    match cache.page_mut(0) {
        Ok(payload) => {
            put_fields(payload, fields);
            Ok(())
        }
        Err(fault) => Err(fault_of(fault)),
    }
}

/// Writes the whole text of a catalogue to its chain of pages, and answers the first page and the
/// length of the text.
fn write_chain<S: PageStore>(
    alloc: Global,
    catalogue: &Catalogue,
    places: &[Place],
    cache: &mut PageCache<S>,
    earlier: u32,
) -> Result<(u32, u64), CatalogueFault>
    ensures { PutsText catalogue.now places.now cache.old cache.new result }
{
    let keys = catalogue.tracks.keys();
    let mut writer = match ChainWriter::new(alloc, keys, cache, earlier) {
        Ok(writer) => writer,
        Err(fault) => return Err(fault_of(fault)),
    };
    write_catalogue(&mut writer, cache, catalogue, places)?;
    match writer.finish(cache) {
        Ok(chain) => Ok(chain),
        Err(fault) => Err(fault_of(fault)),
    }
}

/// Writes all that is changed to the store, and syncs it.
pub fn write_all<S: PageStore>(cache: &mut PageCache<S>) -> Result<(), CatalogueFault>
    ensures { WritesAll cache.old cache.new result }
{
    match cache.flush() {
        Ok(()) => Ok(()),
        Err(fault) => Err(fault_of(fault)),
    }
}

/// Writes the whole text of a catalogue to its chain of pages, and answers the first page and the
/// length of the text; all that is changed is then written to the store, and synced.
fn write_whole<S: PageStore>(
    alloc: Global,
    catalogue: &Catalogue,
    places: &[Place],
    cache: &mut PageCache<S>,
    earlier: u32,
) -> Result<(u32, u64), CatalogueFault>
    ensures puts { PutsText catalogue.now places.now cache.old cache.new result }
    ensures written { OnOk result (IsClean cache.new) }
    ensures synced { OnOk result (IsSynced cache.new.store) }
{
    let chain = write_chain(alloc, catalogue, places, cache, earlier)?;
    write_all(cache)?;
    Ok(chain)
}

/// How many dimensions a database has; 2 where no file was accepted.
fn dimension_of(head: &Option<BookHead>) -> u32
    ensures { result ≡ dimensions_of head.now }
{
    match head {
        None => 2,
        Some(head) => match head.dimension {
            Dimension::Two => 2,
            Dimension::Three => 3,
        },
    }
}

/// What page 0 says of a database behind how it begins.
fn fields_for(catalogue: &Catalogue, tree: TbTree, first: u32, length: u64) -> Fields
    ensures { result ≡ fields_for catalogue.now.limits catalogue.now.head tree first length }
{
    Fields {
        shape: tree.shape,
        limits: catalogue.limits,
        root: tree.root,
        levels: tree.levels,
        leaves: tree.leaves,
        first,
        length,
        dimension: dimension_of(&catalogue.head),
    }
}

/// Keeps a catalogue in pages: its text, with the places of the features in a tree, in a chain of
/// them, those of an earlier catalogue first, which is then written with all else that is changed,
/// and synced; and in page 0, which is not written yet, where it is, with the limits and the tree.
/// How page 0 begins stays, finished or not, and so do the pages of the tree, and all that are none of a catalogue's.
///
/// Refused for want of memory, and where the store fails or is full; page 0 stays then. Where page 0 is damaged, it is
/// named, and a store without a page is malformed.
pub fn keep<S: PageStore>(
    alloc: Global,
    catalogue: &Catalogue,
    tree: TbTree,
    places: &[Place],
    cache: &mut PageCache<S>,
) -> Result<(), CatalogueFault>
    // Page 0 and a chain of pages then say exactly this catalogue, the tree and the places.
    ensures saved { OnOk result (IsTrue cache.old.store.is_faithful
        → Says (payload_of cache.new) cache.new.count catalogue.now tree places.now) }
    // If there are few enough features and rows, each row with all its values, everything fits into
    // the text.
    ensures whole { OnOk result (IsCatalogue catalogue.now
        → IsWhole (contents_of catalogue.now places.now)) }
    // Page 0 begins as it did: finished or not.
    ensures front { OnOk result (IsTrue cache.old.store.is_faithful
        → 0 < cache.old.count → KeepsFront cache.old cache.new) }
    // After an error page 0 has the payload that it had.
    ensures first { OnErr result (IsTrue cache.old.store.is_faithful
        → 0 < cache.old.count → payload_of cache.new 0 ≡ payload_of cache.old 0) }
    // If page 0 was not changed, it is as it was written.
    ensures first_written { IsTrue cache.old.store.is_faithful → 0 < cache.old.count
        → is_changed cache.old 0 ≡ false
        → page_of cache.new 0 ≡ page_of cache.old 0 }
    // After an error page 0 is not changed, unless it was.
    ensures first_unmarked { OnErr result (0 < cache.old.count
        → is_changed cache.old 0 ≡ false → is_changed cache.new 0 ≡ false) }
    // It succeeds only if there is a page 0.
    ensures some { OnOk result (0 < cache.old.count) }
    // The cache is the same one, no page goes, and no count falls.
    ensures later { Continues cache.old cache.new }
    // The pages of the tree say what they said, on an error too.
    ensures tree { SparesTree cache.old cache.new }
    // After `Ok` the cache counts all pages of the store, if it did before.
    ensures length { OnOk result (KeepsLength cache.old cache.new) }
    // After `Ok` no page but page 0 is changed.
    ensures written { OnOk result (IsWrittenButFirst cache.new) }
    // After `Ok` every page that was written is synced.
    ensures synced { OnOk result (NoneUnsynced cache.new.store) }
    // With a page 0, and few features and rows, it fails only if memory runs out, or the store
    // fails or is full.
    ensures only { HasFew catalogue.now → IsTrue cache.old.store.is_faithful
        → 0 < cache.old.count → HasPageZero cache.old → IfErr result IsSavingStop }
    // `Store` is returned only if the store failed, and `StoreFull` only if it is full.
    ensures caused { IfErr result (IsCaused cache.old cache.new) }
{
    let earlier = earlier_page(cache)?;
    let (first, length) = write_whole(alloc, catalogue, places, cache, earlier)?;
    let fields = fields_for(catalogue, tree, first, length);
    write_fields(cache, &fields)
}
