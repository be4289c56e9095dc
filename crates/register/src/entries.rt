//! What a text says of columns, features and rows.
ghost use Rattle.std.specs.Prelude.{◌≡◌, ◌-◌, ◌^◌, ℕ, min, length};
ghost use Rattle.std.specs.List.{flat_map};
ghost use Rattle.register.specs.Text.{kept_text, leg_sum, FitsKept};

use crate::chain_reader::ChainReader;
use crate::contents::{CatalogueHead, Contents, Feature, Features, Kept, Lists, Space};
use crate::fault::CatalogueFault;
use crate::numbers::i64_of;
use header::{u32_of, u64_of};
use legs::Limits;
use mfcsv::{Column, Columns};
use pagecache::PageCache;
use pages::PageStore;
use rows::{GrowingRows, Rows};
use std::alloc::Global;
use tbnode::fields::part;
use tbtree::Place;

/// What 28 bytes say of a feature.
fn kept_of(bytes: &[u8]) -> Kept
    requires { length bytes.now ≡ 28 }
    ensures text { kept_text result ≡ bytes.now }
    ensures fits { FitsKept result }
{
    let place = Place {
        first: u32_of(part(bytes, 8, 4)),
        last: u32_of(part(bytes, 12, 4)),
        last_index: u32_of(part(bytes, 16, 4)),
        legs: u64_of(part(bytes, 20, 8)),
    };
    Kept {
        end: i64_of(part(bytes, 0, 8)),
        place,
    }
}

/// How many legs features have; 2^64 - 1 stands for any greater number.
pub(crate) fn leg_sum(features: &Features) -> u64
    ensures { result ≡ min (leg_sum features.now) (2 ^ 64 - 1) }
{
    let features = features.features.as_slice();
    let mut legs: u64 = 0;
    for feature in features {
        legs = legs.saturating_add(feature.kept.place.legs);
    }
    legs
}

impl ChainReader {
    ghost use Rattle.std.specs.Prelude.{◌≡◌, ◌≤◌, [], length, Some};
    ghost use Rattle.rows.specs.Rows.{with_row};
    ghost use Rattle.register.specs.ChainReader.{ReadsInto, ReadsValue};
    ghost use Rattle.register.specs.Text.{column_text, columns_text, contents_text, feature_text, features_bytes, head_text, kept_text, lists_text, row_text, rows_text, space_text, AreMany, AreLists, HasFewLegs, IsColumn, IsFeature, IsHead, FitsKept, IsRead, IsRow, IsSpace, AreCounted};

    /// An attribute column.
    fn column<S: PageStore>(
        &mut self,
        alloc: Global,
        cache: &mut PageCache<S>,
    ) -> Result<Column, CatalogueFault>
        ensures { ReadsValue cache.old cache.new self.old self.new column_text IsColumn result }
    {
        let name = self.text(alloc, cache)?;
        let kind = self.text(alloc, cache)?;
        Ok(Column { name, kind })
    }

    /// So many attribute columns.
    pub(crate) fn columns<S: PageStore>(
        &mut self,
        alloc: Global,
        cache: &mut PageCache<S>,
        count: u64,
    ) -> Result<Columns, CatalogueFault>
        ensures { ReadsValue cache.old cache.new self.old self.new
            (λ columns. flat_map column_text columns) (AreMany IsColumn count) result }
    {
        let mut columns = Vec::new(alloc);
        for _ in 0..count {
            columns.push(self.column(alloc, cache)?)?;
        }
        Ok(Columns::from(columns))
    }

    /// Attribute columns behind their number.
    fn counted_columns<S: PageStore>(
        &mut self,
        alloc: Global,
        cache: &mut PageCache<S>,
    ) -> Result<Columns, CatalogueFault>
        ensures { ReadsValue cache.old cache.new self.old self.new columns_text (AreCounted IsColumn 64) result }
    {
        let count = self.u64(cache)?;
        self.columns(alloc, cache, count)
    }

    /// What is kept of a feature beside its name.
    fn kept<S: PageStore>(&mut self, cache: &mut PageCache<S>) -> Result<Kept, CatalogueFault>
        ensures { ReadsValue cache.old cache.new self.old self.new kept_text FitsKept result }
    {
        self.fill(cache, 28)?;
        let kept = kept_of(self.ahead(28));
        self.skip(28);
        Ok(kept)
    }

    /// A feature.
    fn feature<S: PageStore>(
        &mut self,
        alloc: Global,
        cache: &mut PageCache<S>,
    ) -> Result<Feature, CatalogueFault>
        ensures { ReadsValue cache.old cache.new self.old self.new feature_text IsFeature result }
    {
        let name = self.text(alloc, cache)?;
        let kept = self.kept(cache)?;
        Ok(Feature { name, kept })
    }

    /// So many features.
    fn features<S: PageStore>(
        &mut self,
        alloc: Global,
        cache: &mut PageCache<S>,
        count: u32,
    ) -> Result<Features, CatalogueFault>
        ensures { ReadsValue cache.old cache.new self.old self.new
            (λ features. flat_map feature_text features) (AreMany IsFeature count) result }
    {
        let mut features = Vec::new(alloc);
        for _ in 0..count {
            features.push(self.feature(alloc, cache)?)?;
        }
        Ok(Features { features })
    }

    /// Features behind their number.
    pub(crate) fn counted_features<S: PageStore>(
        &mut self,
        alloc: Global,
        cache: &mut PageCache<S>,
    ) -> Result<Features, CatalogueFault>
        ensures { ReadsValue cache.old cache.new self.old self.new
            features_bytes (AreCounted IsFeature 32) result }
    {
        let count = self.u32(cache)?;
        self.features(alloc, cache, count)
    }

    /// A row of so many attribute values, put behind the others.
    fn row<S: PageStore>(
        &mut self,
        cache: &mut PageCache<S>,
        columns: u64,
        rows: &mut GrowingRows,
    ) -> Result<(), CatalogueFault>
        requires { rows.old.row ≡ [] }
        ensures { ReadsInto cache.old cache.new self.old self.new row_text (IsRow columns)
            (λ row. rows.new ≡ with_row (record rows.old { row = row })) result }
    {
        for _ in 0..columns {
            self.value(cache, rows)?;
        }
        match rows.end_row() {
            Ok(()) => Ok(()),
            Err(_) => Err(CatalogueFault::Memory),
        }
    }

    /// So many rows.
    fn rows<S: PageStore>(
        &mut self,
        alloc: Global,
        cache: &mut PageCache<S>,
        columns: u64,
        count: u32,
    ) -> Result<Rows, CatalogueFault>
        ensures { ReadsValue cache.old cache.new self.old self.new
            (λ rows. flat_map row_text rows) (AreMany (IsRow columns) count) result }
    {
        let mut rows = GrowingRows::new(alloc);
        for _ in 0..count {
            self.row(cache, columns, &mut rows)?;
        }
        Ok(rows.into_rows())
    }

    /// Rows behind their number; `Malformed` where there are more than that, before any is read.
    fn counted_rows<S: PageStore>(
        &mut self,
        alloc: Global,
        cache: &mut PageCache<S>,
        columns: u64,
        most: u64,
    ) -> Result<Rows, CatalogueFault>
        ensures { ReadsValue cache.old cache.new self.old self.new
            rows_text (λ rows. AreCounted (IsRow columns) 32 rows × (length rows ≤ most)) result }
    {
        let count = self.u32(cache)?;
        if u64::from(count) > most {
            return Err(CatalogueFault::Malformed);
        }
        self.rows(alloc, cache, columns, count)
    }

    /// The coordinate reference system and the columns.
    fn space<S: PageStore>(
        &mut self,
        alloc: Global,
        cache: &mut PageCache<S>,
    ) -> Result<Space, CatalogueFault>
        ensures { ReadsValue cache.old cache.new self.old self.new space_text IsSpace result }
    {
        let crs = self.text(alloc, cache)?;
        let columns = self.counted_columns(alloc, cache)?;
        Ok(Space { crs, columns })
    }

    /// What is kept of the head of the first accepted file.
    pub(crate) fn head<S: PageStore>(
        &mut self,
        alloc: Global,
        cache: &mut PageCache<S>,
    ) -> Result<CatalogueHead, CatalogueFault>
        ensures { ReadsValue cache.old cache.new self.old self.new head_text IsHead result }
    {
        let base = self.i64(cache)?;
        let space = self.space(alloc, cache)?;
        Ok(CatalogueHead { base, space })
    }

    /// The features and the rows; `Malformed` where there are more legs than the limit, or more
    /// rows than legs, before any row is read.
    fn lists<S: PageStore>(
        &mut self,
        alloc: Global,
        cache: &mut PageCache<S>,
        columns: u64,
        limits: &Limits,
    ) -> Result<Lists, CatalogueFault>
        ensures { ReadsValue cache.old cache.new self.old self.new
            lists_text (λ lists. AreLists columns lists × HasFewLegs limits.now.legs lists)
            result }
    {
        let features = self.counted_features(alloc, cache)?;
        let legs = leg_sum(&features);
        if legs > limits.legs() {
            return Err(CatalogueFault::Malformed);
        }
        let rows = self.counted_rows(alloc, cache, columns, legs)?;
        Ok(Lists { features, rows })
    }

    /// All that is kept of a database into which a file was accepted.
    pub(crate) fn contents<S: PageStore>(
        &mut self,
        alloc: Global,
        cache: &mut PageCache<S>,
        limits: &Limits,
    ) -> Result<Contents, CatalogueFault>
        ensures { ReadsValue cache.old cache.new self.old self.new
            contents_text (λ contents. IsRead limits.now.legs (Some contents)) result }
    {
        let head = self.head(alloc, cache)?;
        let columns = head.space.columns.as_slice().len() as u64;
        let lists = self.lists(alloc, cache, columns, limits)?;
        Ok(Contents { head, lists })
    }
}
