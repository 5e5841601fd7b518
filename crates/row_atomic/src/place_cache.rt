//! The cache of places: the tablets of the rows located last.

ghost use Rattle.std.specs.Prelude.{◌≡◌, ◌≢◌, ◌+◌, [], length, IfOk, IfSome, option_map, slice_get, IsOkUnless};
ghost use Rattle.metadata_table.specs.Table.{IsTable};
ghost use Rattle.lru.specs.LruCache.{promoted};
ghost use Rattle.row_atomic.specs.PlaceCaches.{AddsOnly, AreHeld, IsLocatedLast, IsHeldBy, hits_after, is_key_of, number_kept};

use cell_key::{Refusal, Row};
use lru::LruCache;
use metadata_table::MetadataTable;
use std::alloc::Global;
use std::num::NonZeroUsize;

/// How many rows it holds.
const ROWS: usize = 128;

/// The tablets' numbers for the rows located last. A compaction changes a tablet's files, but not its number.
#[derive(Drop)]
pub(crate) struct PlaceCache {
    numbers: LruCache<Row, u32>,
    hits: u64,
}

impl PlaceCache {
    /// An empty cache with no hits. Answers `NoMemory` if there is no memory.
    pub(crate) fn new(alloc: Global) -> Result<PlaceCache, Refusal>
        ensures none { IfOk result (λ cache. cache.numbers.entries ≡ []) }
        ensures rows { IfOk result (λ cache. cache.numbers.cap ≡ 128) }
        ensures hits { IfOk result (λ cache. cache.hits ≡ 0) }
        ensures refusal { IsOkUnless result Refusal.NoMemory }
    {
        let rows = NonZeroUsize::new(ROWS).unwrap();
        let numbers = LruCache::new(alloc, rows)?;
        Ok(PlaceCache { numbers, hits: 0 })
    }

    /// How many rows were found. The count saturates at 2^64 - 1.
    pub(crate) fn hits(&self) -> u64
        ensures { result ≡ self.now.hits }
    {
        self.hits
    }

    /// Removes all rows. The hits are unchanged.
    pub(crate) fn clear(&mut self)
        ensures none { self.new.numbers.entries ≡ [] }
        ensures rows { self.new.numbers.cap ≡ self.old.numbers.cap }
        ensures hits { self.new.hits ≡ self.old.hits }
    {
        self.numbers.clear();
    }

    /// The number of the row located last.
    fn first(&self) -> Option<u32>
        ensures { result ≡ option_map (λ entry. entry.1) (slice_get self.now.numbers.entries 0) }
    {
        let (_, number) = self.numbers.peek_mru()?;
        Some(*number)
    }

    /// A row's number, if the row is the one located last.
    fn last(&self, row: &Row) -> Option<u32>
        ensures { IfSome result (IsLocatedLast row.now self.now.numbers.entries) }
    {
        let (kept, number) = self.numbers.peek_mru()?;
        if row == kept { Some(*number) } else { None }
    }

    /// A row's number, if it is cached. The row then counts as the one located last.
    fn number_of(&mut self, row: &Row) -> Option<u32>
        ensures found { result ≡ number_kept row.now self.old.numbers.entries }
        ensures first { self.new.numbers.entries
            ≡ promoted (is_key_of row.now) self.old.numbers.entries }
        ensures rows { self.new.numbers.cap ≡ self.old.numbers.cap }
        ensures hits { self.new.hits ≡ self.old.hits }
    {
        if let Some(number) = self.last(row) {
            return Some(number);
        }
        if self.numbers.promote(row) {
            self.first()
        } else {
            None
        }
    }

    /// A row's number, if it is cached, which is a hit. The row then counts as the one located last.
    fn find(&mut self, row: &Row) -> Option<u32>
        ensures found { result ≡ number_kept row.now self.old.numbers.entries }
        ensures first { self.new.numbers.entries
            ≡ promoted (is_key_of row.now) self.old.numbers.entries }
        ensures rows { self.new.numbers.cap ≡ self.old.numbers.cap }
        ensures hits { self.new.hits ≡ hits_after result self.old.hits }
    {
        let number = self.number_of(row)?;
        self.hits = self.hits.saturating_add(1);
        Some(number)
    }

    /// Caches a row's number. If there are already 128 rows, the least recently located one is evicted. If there is no
    /// memory, nothing is cached. Copying a row of at most 32 bytes allocates nothing.
    fn keep(&mut self, row: &Row, number: u32)
        ensures adds { AddsOnly row.now number self.old.numbers.entries self.new.numbers.entries }
        ensures rows { self.new.numbers.cap ≡ self.old.numbers.cap }
        ensures hits { self.new.hits ≡ self.old.hits }
    {
        if let Ok(row) = row.clone() {
            let _told: Result<_, _> = self.numbers.put(row, number);
        }
    }
}

/// The index of the tablet that holds a row, from the cache, or else from the table, and then it is cached. A table's only
/// tablet has the number 1 and holds every row: then neither is searched.
pub(crate) fn index_of(table: &MetadataTable, cache: &mut PlaceCache, row: &Row) -> usize
    requires { AreHeld table.now cache.old.numbers.entries }
    ensures holder { IsHeldBy table.now row.now (result + 1) }
    ensures table { IsTable table.now }
    ensures right { AreHeld table.now cache.new.numbers.entries }
    ensures only { length table.now ≡ 1 → cache.new ≡ cache.old }
    ensures hits { length table.now ≢ 1 → cache.new.hits
        ≡ hits_after (number_kept row.now cache.old.numbers.entries) cache.old.hits }
{
    if table.len() == 1 {
        return 0;
    }
    let number = match cache.find(row) {
        Some(number) => number,
        None => {
            let number = table.locate(row).tablet;
            cache.keep(row, number);
            number
        }
    };
    number as usize - 1
}
