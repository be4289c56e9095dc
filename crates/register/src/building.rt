//! A catalogue that is made of what its text says.
ghost use Rattle.std.specs.Prelude.{List, ◌≡◌, ◌≢◌, ◌≤◌, ◌<◌, ◌-◌, ◌↔◌, [], length, All, IsTrue, None, Some};
ghost use Rattle.timebase.specs.Instant.{IsMoment};
ghost use Rattle.legs.specs.Law.{IsName};
ghost use Rattle.legs.specs.Limits.{IsLimits};
ghost use Rattle.legs.specs.declared.head.BookHead.{BookHead};
ghost use Rattle.register.specs.Restoring.{number_of, tree_of, AddsFeature, AreLawful, IsKnown, IsOf};
ghost use Rattle.register.specs.ChainReader.{Finds, Makes};
ghost use Rattle.register.specs.Lasting.{IsLawfulFeature, IsWithin};
ghost use Rattle.register.specs.Saved.{dimensions_of, head_of, CatalogueView};
ghost use Rattle.tbtree.specs.declared.tree.Place.{Place};

use crate::contents::{CatalogueHead, Contents, Feature, Features, Lists};
use crate::fault::CatalogueFault;
use crate::saving::Catalogue;
use header::Fields;
use legs::{BookHead, Limits, Track, Tracks};
use mfcsv::Dimension;
use rows::Rows;
use std::alloc::{AllocError, Global};
use std::hash::RandomState;
use tbtree::Place;
use timebase::Ms;

/// The features of a database, and their places in its tree.
#[derive(Drop)]
pub(crate) struct Known {
    pub(crate) tracks: Tracks,
    pub(crate) places: Vec<Place>,
}

/// Whether a name has 1 to 255 bytes.
fn is_name(name: &str) -> bool
    ensures { IsTrue result ↔ IsName name.now }
{
    let len = name.len();
    1 <= len && len <= 255
}

/// Whether a place is one among so many pages, and has a leg.
fn is_place(count: u32, place: &Place) -> bool
    ensures { IsTrue result ↔ ((place.now.first < count) × (place.now.last < count)
        × (0 < place.now.legs)) }
{
    place.first < count && place.last < count && place.legs > 0
}

/// The track of a feature that is lawful among so many pages.
fn track_of(count: u32, feature: &Feature) -> Option<Track>
    ensures { Finds (λ track. IsLawfulFeature count feature.now
        × (track.end ≡ feature.now.kept.end) × (track.legs ≡ feature.now.kept.place.legs))
        (IsLawfulFeature count feature.now → ⊥) result }
{
    let place = &feature.kept.place;
    if !is_name(feature.name.as_str()) || !is_place(count, place) {
        return None;
    }
    let end = Ms::new(feature.kept.end)?;
    Some(Track {
        end,
        legs: place.legs,
    })
}

/// Adds a feature that is lawful among so many pages, and has a name of its own.
fn add_feature(known: &mut Known, count: u32, feature: Feature) -> Result<(), CatalogueFault>
    ensures { Makes (λ _. AddsFeature count feature known.old known.new)
        (IsLawfulFeature count feature
        → All (λ n. n ≢ feature.name) known.old.tracks.names → ⊥) result }
{
    let Some(track) = track_of(count, &feature) else {
        return Err(CatalogueFault::Malformed);
    };
    known.places.push(feature.kept.place)?;
    if !known.tracks.add(feature.name.into_string(), track)? {
        return Err(CatalogueFault::Malformed);
    }
    Ok(())
}

/// The features of a text, where all are lawful among so many pages, and no two have one name.
fn known_of(
    alloc: Global,
    keys: RandomState,
    count: u32,
    features: Features,
) -> Result<Known, CatalogueFault>
    ensures { Makes (IsKnown count features) (AreLawful count features → ⊥) result }
{
    let mut known = Known {
        tracks: Tracks::new(alloc, keys)?,
        places: Vec::new(alloc),
    };
    for feature in features.features {
        add_feature(&mut known, count, feature)?;
    }
    Ok(known)
}

/// How many dimensions a database has, by their number.
fn dimension_from(dimension: u32) -> Option<Dimension>
    ensures { Finds (λ d. dimension ≡ number_of d) ((dimension ≢ 2) × (dimension ≢ 3)) result }
{
    if dimension == 2 {
        return Some(Dimension::Two);
    }
    if dimension == 3 {
        return Some(Dimension::Three);
    }
    None
}

/// The head of the first accepted file, where its base is a moment, and there are 2 or 3
/// dimensions.
pub(crate) fn head_from(head: CatalogueHead, dimension: u32) -> Option<BookHead>
    ensures { Finds (λ h. (head_of h ≡ head) × (dimensions_of (Some h) ≡ dimension)
        × IsMoment h.base) ((h : BookHead) → IsMoment h.base → head_of h ≡ head
        → dimensions_of (Some h) ≡ dimension → ⊥) result }
{
    let base = Ms::new(head.base)?;
    let dimension = dimension_from(dimension)?;
    Some(BookHead {
        crs: head.space.crs,
        dimension,
        base,
        columns: head.space.columns,
    })
}

/// Whether the tree is one of so many pages.
pub fn is_within(count: u32, fields: &Fields) -> bool
    ensures { IsTrue result ↔ IsWithin count (tree_of fields.now) }
{
    fields.root < count && fields.leaves <= count && fields.levels <= 32
}

/// Whether there are no more features and legs than the limits.
fn is_few(tracks: &Tracks, limits: &Limits) -> bool
    ensures few { IsTrue result ↔ ((length tracks.now.names ≤ limits.now.features)
        × (tracks.now.legs ≤ limits.now.legs)) }
    ensures limits { IsLimits limits.now }
{
    tracks.feature_count() <= u64::from(limits.features()) && tracks.leg_count() <= limits.legs()
}

/// Whether there are legs, and of so many rows none.
fn lacks_rows(tracks: &Tracks, rows: usize) -> bool
    ensures { IsTrue result ↔ ((rows ≡ 0) × (0 < tracks.now.legs)) }
{
    rows == 0 && tracks.leg_count() > 0
}

/// The catalogue of a database into which no file was accepted.
fn empty_catalogue(
    alloc: Global,
    keys: RandomState,
    count: u32,
    fields: &Fields,
) -> Result<(Catalogue, Vec<Place>), CatalogueFault>
    ensures { Makes (λ r. IsOf count fields.now None r.0 r.1.items)
        ((c : CatalogueView) (places : List Place) → IsOf count fields.now None c places → ⊥)
        result }
{
    if fields.dimension != 2 {
        return Err(CatalogueFault::Malformed);
    }
    let catalogue = Catalogue {
        head: None,
        limits: fields.limits,
        tracks: Tracks::new(alloc, keys)?,
        rows: Rows::new(alloc),
    };
    Ok((catalogue, Vec::new(alloc)))
}

/// The catalogue of a database into which a file was accepted.
fn whole_catalogue(
    alloc: Global,
    keys: RandomState,
    count: u32,
    fields: &Fields,
    contents: Contents,
) -> Result<(Catalogue, Vec<Place>), CatalogueFault>
    ensures { Makes (λ r. IsOf count fields.now (Some contents) r.0 r.1.items)
        ((c : CatalogueView) (places : List Place)
        → IsOf count fields.now (Some contents) c places → ⊥) result }
{
    let Contents { head, lists } = contents;
    let Lists { features, rows } = lists;
    let Some(head) = head_from(head, fields.dimension) else {
        return Err(CatalogueFault::Malformed);
    };
    let Known { mut tracks, places } = known_of(alloc, keys, count, features)?;
    if !is_few(&tracks, &fields.limits) {
        return Err(CatalogueFault::Malformed);
    }
    if lacks_rows(&tracks, rows.len()) {
        return Err(CatalogueFault::Malformed);
    }
    if !tracks.set_rows(rows.len() as u64) {
        return Err(CatalogueFault::Malformed);
    }
    let catalogue = Catalogue {
        head: Some(head),
        limits: fields.limits,
        tracks,
        rows,
    };
    Ok((catalogue, places))
}

/// The catalogue that page 0 of so many pages and the text say, and the places of its features,
/// where it is lawful.
pub fn catalogue_of(
    alloc: Global,
    keys: RandomState,
    count: u32,
    fields: &Fields,
    contents: Option<Contents>,
) -> Result<(Catalogue, Vec<Place>), CatalogueFault>
    // It returns the lawful catalogue and the places that page 0 and the text say. If it fails for
    // another reason than memory, they say none.
    ensures { Makes (λ r. IsOf count fields.now contents r.0 r.1.items)
        ((c : CatalogueView) (places : List Place) → IsOf count fields.now contents c places → ⊥)
        result }
{
    match contents {
        None => empty_catalogue(alloc, keys, count, fields),
        Some(contents) => whole_catalogue(alloc, keys, count, fields, contents),
    }
}
