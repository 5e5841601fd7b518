//! A file of entries, open for reading.

ghost use Rattle.std.specs.Prelude.{◌≡◌, ◌≤◌, ◌<◌, List, ℕ, Option, Some, None, false, length, slice_get, take, option_map, IfOk, IfSome, IsErrOf, IsOkUnless};
ghost use Rattle.std.specs.NonZero.{non_zero_usize_get};
ghost use Rattle.cell_key.specs.Entries.{Entry, entries_from};
ghost use Rattle.cell_key.specs.Keys.{text};
ghost use Rattle.file_store.specs.Store.{Contents};
ghost use Rattle.lru.specs.LruCache.{lru_cache};
ghost use Rattle.sorted_file.specs.Grammar.{block_bytes};
ghost use Rattle.sorted_file.specs.Index.{block_of, Tells};
ghost use Rattle.sorted_file.specs.File.{IsUncached};
ghost use Rattle.sorted_file.specs.Block.{IsParsed, first_from};
ghost use Rattle.sorted_file.specs.Source.{ReadsFiles};
ghost use Rattle.sorted_file.specs.declared.block.BlockRow.{BlockRow as Row};

use crate::block::{Block, BlockRow, newest_at, number_of_block, rows_to};
use crate::bounds::ColumnBounds;
use crate::cache::{evict, few_blocks, keep, no_blocks, promote, resize};
use crate::check::{Opening, read_file};
use crate::cursor::FileCursor;
use crate::format::HEAD;
use crate::gathering::Columns;
use crate::lock_index::LockIndex;
use crate::lock_values::LockValue;
use crate::lookup_key::LookupKey;
use crate::numbers::Numbers;
use crate::source::read_part;
use cell_key::{CellKey, Refusal, Stamp};
use file_store::Files;
use lru::LruCache;
use std::alloc::Global;
use std::num::NonZeroUsize;

/// A file of entries, open for reading. It is valid as long as the bytes under its name don't change.
#[derive(Drop)]
pub struct SortedFile {
    alloc: Global,
    name: u64,
    /// The index: a row for each block.
    rows: Vec<BlockRow>,
    /// How many entries there are.
    count: u64,
    /// How many bytes the entries take.
    bytes: u64,
    pub(crate) bounds: ColumnBounds,
    /// A hash of each column that has an entry.
    pub(crate) numbers: Numbers,
    /// A hash of the key's text of each lock entry, value or erasure.
    pub(crate) lock_keys: Numbers,
    /// The key of each lock that has a value.
    pub(crate) lock_values: Vec<LockValue>,
    /// The keys of its entries, values or erasures, in ascending order, that matched a lock in the index of the older
    /// files' locks when the file was opened. They match by hash, so some may be false matches.
    pub(crate) named_locks: Vec<CellKey>,
    /// The blocks that were used last, by their numbers.
    cache: LruCache<usize, Block>,
}

impl SortedFile {
    ghost use Rattle.sorted_file.specs.Cursor.{cursor_lent, cursor_remaining, CursorHolds};
    ghost use Rattle.sorted_file.specs.Newest.{at_stamp, found_bytes, IsNewestEntry, IsOfColumn, IsShortValue};
    ghost use Rattle.sorted_file.specs.Check.{IsOpening, IsWhole};
    ghost use Rattle.sorted_file.specs.File.{bytes_of, count_of, HasFile, IsCursorOf, IsFoundNow, IsOpen, IsReadFrom, IsReadNow, IsSameFile, KeepsWhatItRead, listed, name_of, MayHaveKey};

    /// Opens a file with a cache of 8 blocks. Answers `Damaged` if the file doesn't exist or is no entry list's file,
    /// `Device` if a device fails, and `NoMemory` if there is no memory.
    pub fn open<F: Files>(alloc: Global, name: u64, files: &mut F) -> Result<SortedFile, Refusal>
        ensures opened { IfOk result (λ file. IfSome (F.contents files.old) (λ m. IsOpen m file)) }
        ensures named { IfOk result (λ file. name_of file ≡ name) }
        ensures sized { IfOk result (λ file. file.cache.cap ≡ 8) }
        ensures damaged { IsErrOf result Refusal.Damaged
            → IfSome (F.contents files.old) (λ m. ¬ HasFile m name) }
        ensures reads { ReadsFiles F.contents F.faults files.old files.new result }
    {
        SortedFile::open_with(alloc, name, few_blocks(), files)
    }

    /// Opens a file with a cache of this many blocks. Answers `Damaged` if the file doesn't exist or is no entry list's
    /// file, `Device` if a device fails, and `NoMemory` if there is no memory.
    pub fn open_with<F: Files>(
        alloc: Global,
        name: u64,
        most_blocks: NonZeroUsize,
        files: &mut F,
    ) -> Result<SortedFile, Refusal>
        ensures opened { IfOk result (λ file. IfSome (F.contents files.old) (λ m. IsOpen m file)) }
        ensures named { IfOk result (λ file. name_of file ≡ name) }
        ensures sized { IfOk result (λ file. file.cache.cap ≡ non_zero_usize_get most_blocks) }
        ensures damaged { IsErrOf result Refusal.Damaged
            → IfSome (F.contents files.old) (λ m. ¬ HasFile m name) }
        ensures reads { ReadsFiles F.contents F.faults files.old files.new result }
    {
        let none = LockIndex::new(alloc);
        SortedFile::open_over(alloc, name, most_blocks, &none, files)
    }

    /// Opens a file as `open_with` does. `over` is the index of the older files' locks: the open file keeps the keys of
    /// those locks that it has an entry of, so that an index of all the files can leave these locks out.
    pub fn open_over<F: Files>(
        alloc: Global,
        name: u64,
        most_blocks: NonZeroUsize,
        over: &LockIndex,
        files: &mut F,
    ) -> Result<SortedFile, Refusal>
        ensures opened { IfOk result (λ file. IfSome (F.contents files.old) (λ m. IsOpen m file)) }
        ensures named { IfOk result (λ file. name_of file ≡ name) }
        ensures sized { IfOk result (λ file. file.cache.cap ≡ non_zero_usize_get most_blocks) }
        ensures damaged { IsErrOf result Refusal.Damaged
            → IfSome (F.contents files.old) (λ m. ¬ HasFile m name) }
        ensures reads { ReadsFiles F.contents F.faults files.old files.new result }
    {
        let opening = read_file(alloc, name, over, files)?;
        SortedFile::of_opening(alloc, name, most_blocks, opening)
    }

    /// The open file with this name and the blocks of an opening. Answers `NoMemory` if there is no memory.
    pub(crate) fn of_opening(
        alloc: Global,
        name: u64,
        most_blocks: NonZeroUsize,
        opening: Opening,
    ) -> Result<SortedFile, Refusal>
        requires { IsOpening opening }
        ensures opened { IfOk result (λ file. (m : Contents) → IsWhole m name opening
            → IsOpen m file) }
        ensures named { IfOk result (λ file. name_of file ≡ name) }
        ensures sized { IfOk result (λ file. file.cache.cap ≡ non_zero_usize_get most_blocks) }
        ensures refusal { IsOkUnless result Refusal.NoMemory }
    {
        let Opening {
            rows,
            count,
            end,
            columns,
            ..
        } = opening;
        let Columns {
            bounds,
            numbers,
            lock_keys,
            lock_values,
            named_locks,
        } = columns;
        let cache = no_blocks(alloc, most_blocks)?;
        let numbers = Numbers::new(alloc, numbers)?;
        let lock_keys = Numbers::new(alloc, lock_keys)?;
        Ok(SortedFile {
            alloc,
            name,
            rows,
            count,
            bytes: end - HEAD,
            bounds,
            numbers,
            lock_keys,
            lock_values,
            named_locks,
            cache,
        })
    }

    /// The name of the file.
    pub fn name(&self) -> u64
        ensures { result ≡ name_of self.now }
    {
        self.name
    }

    /// How many entries the file has, erasures included. Allocates nothing and reads nothing.
    pub fn len(&self) -> usize
        ensures count { result ≡ count_of self.now }
        ensures listed { (m : Contents) → IsOpen m self.now
            → result ≡ length (listed m self.now) }
    {
        self.count as usize
    }

    /// How many bytes the file's entries take in it, erasures included, without the file's head, index and foot. Allocates
    /// nothing and reads nothing.
    pub fn entry_bytes(&self) -> u64
        ensures count { result ≡ bytes_of self.now }
        ensures listed { (m : Contents) → IsOpen m self.now
            → result ≡ length (block_bytes (listed m self.now)) }
    {
        self.bytes
    }

    /// Whether, by its hashes and bounds, the file may have an entry of the key's column at a stamp from `lo` to the key's.
    /// A single lock is tested by its key. Allocates nothing and reads nothing.
    fn may_have(&self, key: &LookupKey, lo: Stamp) -> bool
        ensures { result ≡ false → (s : ℕ) → lo ≤ s → s ≤ key.now.stamp
            → ¬ MayHaveKey self.now (at_stamp key.now s) }
    {
        if key.is_one_lock(lo) {
            return self.lock_keys.has(key.entry_number());
        }
        self.numbers.has(key.column_number()) && self.bounds.meet_column(key.key(), lo)
    }

    /// The file's newest entry of the key's column at a stamp from `lo` to the key's: its stamp, and its value of at most
    /// 65,536 bytes, or `None` for an erasure. With `lo` the key's stamp it is the look-up of one version. Reads at most
    /// one block, and none that is still cached from an earlier read, or if what is kept in memory rules such an entry
    /// out: hashes, bounds, and the first and last texts of blocks. The file is unchanged, even after an `Err`.
    ///
    /// # Errors
    ///
    /// `Device`, `NoMemory`, and `Damaged` only if the file has changed since it was opened.
    pub fn newest<F: Files>(
        &mut self,
        key: &LookupKey,
        lo: Stamp,
        files: &mut F,
    ) -> Result<Option<(Stamp, Option<Vec<u8>>)>, Refusal>
        ensures found { IfOk result (λ found. IfSome (F.contents files.old) (λ m. IsOpen m self.old
            → IsNewestEntry (listed m self.old) key.now lo (option_map found_bytes found))) }
        ensures now { IfOk result (λ found. IsFoundNow (F.contents files.old) self.old key.now lo
            (option_map found_bytes found)) }
        ensures within { IfOk result (λ found.
            IfSome found (λ entry. (lo ≤ entry.0) × (entry.0 ≤ key.now.stamp))) }
        ensures short { IfOk result (λ found. IfSome found (λ entry. IsShortValue entry.1)) }
        ensures stays { IsSameFile (F.contents files.old) self.old self.new }
        ensures kept { KeepsWhatItRead (F.contents files.old) self.old self.new }
        ensures damaged { IsErrOf result Refusal.Damaged
            → IfSome (F.contents files.old) (λ m. ¬ IsOpen m self.old) }
        ensures reads { ReadsFiles F.contents F.faults files.old files.new result }
    {
        // It shows that row, family and stamp are within their limits.
        let _own = key.key();
        if !self.may_have(key, lo) {
            return Ok(None);
        }
        let number = number_of_block(&self.rows, key.text());
        let Some(row) = self.rows.get(number) else {
            return Ok(None);
        };
        if !row.may_have(key, lo) {
            return Ok(None);
        }
        self.newest_in(number, key, lo, files)
    }

    /// The stamp and the value of a block's first entry at or above the key's text, if the entry is of the key's column and
    /// its stamp is from `lo` to the key's. Answers `Damaged` if the block isn't there, `Device` if a device fails, and
    /// `NoMemory` if there is no memory.
    fn newest_in<F: Files>(
        &mut self,
        number: usize,
        key: &LookupKey,
        lo: Stamp,
        files: &mut F,
    ) -> Result<Option<(Stamp, Option<Vec<u8>>)>, Refusal>
        requires { number < length self.old.rows.items }
        ensures found { IfOk result (λ found. IfSome (F.contents files.old) (λ m. IsOpen m self.old
            → (row : Row) → slice_get self.old.rows.items number ≡ Some row
            → IsOfColumn key.now lo (first_from (text key.now) (block_of row))
            (option_map found_bytes found))) }
        ensures now { IfOk result (λ found. (row : Row) (image : List ℕ)
            → slice_get self.old.rows.items number ≡ Some row
            → IsUncached number self.old.cache.entries
            → Tells (F.contents files.old) (name_of self.old) image → (es : List Entry)
            × IsReadFrom image row es
            × IsOfColumn key.now lo (first_from (text key.now) es)
            (option_map found_bytes found)) }
        ensures within { IfOk result (λ found.
            IfSome found (λ entry. (lo ≤ entry.0) × (entry.0 ≤ key.now.stamp))) }
        ensures short { IfOk result (λ found. IfSome found (λ entry. IsShortValue entry.1)) }
        ensures stays { IsSameFile (F.contents files.old) self.old self.new }
        ensures kept { KeepsWhatItRead (F.contents files.old) self.old self.new }
        ensures damaged { IsErrOf result Refusal.Damaged
            → IfSome (F.contents files.old) (λ m. ¬ IsOpen m self.old) }
        ensures reads { ReadsFiles F.contents F.faults files.old files.new result }
    {
        match self.cache.peek(&number) {
            Some(block) => {
                let found = newest_at(self.alloc, block, key, lo)?;
                promote(&mut self.cache, number);
                Ok(found)
            }
            None => {
                let room = evict(self.alloc, &mut self.cache);
                let block = self.read_block(number, room, files)?;
                let found = newest_at(self.alloc, &block, key, lo)?;
                keep(&mut self.cache, number, block);
                Ok(found)
            }
        }
    }

    /// A block, read from the file into the memory of `room`. Answers `Damaged` if there is no block that begins with the
    /// text in the index, `Device` if a device fails, and `NoMemory` if there is no memory.
    fn read_block<F: Files>(
        &self,
        number: usize,
        room: Block,
        files: &mut F,
    ) -> Result<Block, Refusal>
        requires { number < length self.now.rows.items }
        ensures read { IfOk result (λ block. (row : Row)
            → slice_get self.now.rows.items number ≡ Some row
            → IsReadNow (F.contents files.old) (name_of self.now) row block) }
        ensures right { IfOk result (λ block. IfSome (F.contents files.old) (λ m. IsOpen m self.now
            → (row : Row) → slice_get self.now.rows.items number ≡ Some row
            → IsParsed (block_of row) block)) }
        ensures damaged { IsErrOf result Refusal.Damaged
            → IfSome (F.contents files.old) (λ m. ¬ IsOpen m self.now) }
        ensures reads { ReadsFiles F.contents F.faults files.old files.new result }
    {
        let row = &self.rows[number];
        let len = row.length as u64;
        let bytes = read_part(room.bytes, self.name, row.offset, len, files)?;
        let Some(block) = Block::parse(bytes, room.starts)? else {
            return Err(Refusal::Damaged);
        };
        if !block.begins_with(&row.first) {
            return Err(Refusal::Damaged);
        }
        Ok(block)
    }

    /// Empties the cache. The file is unchanged. Allocates nothing.
    pub fn drop_cache(&mut self)
        ensures stays { (disk : Option Contents) → IsSameFile disk self.old self.new }
        ensures none { (number : ℕ) → IsUncached number self.new.cache.entries }
    {
        self.cache.clear();
    }

    /// Sets the capacity of the cache, in blocks. If it holds more, the least recently used ones are evicted. Only the
    /// cache changes.
    pub fn resize_cache(&mut self, most_blocks: NonZeroUsize)
        ensures stays { (disk : Option Contents) → IsSameFile disk self.old self.new }
        ensures kept { (disk : Option Contents) → KeepsWhatItRead disk self.old self.new }
        ensures cache { self.new.cache ≡ lru_cache
            (take (non_zero_usize_get most_blocks) self.old.cache.entries)
            (non_zero_usize_get most_blocks) }
    {
        resize(&mut self.cache, most_blocks);
    }

    /// A cursor over the entries at or above `from`, which may be any bytes. Allocates nothing and reads nothing.
    pub fn cursor<'a>(&'a self, from: &'a [u8]) -> FileCursor<'a>
        ensures lent { cursor_lent result ≡ None }
        ensures entries { (m : Contents) → IsOpen m self.now
            → cursor_remaining (Some m) result ≡ entries_from from.now (listed m self.now) }
        ensures holds { (m : Contents) → IsOpen m self.now → CursorHolds (Some m) result }
        ensures of { IsCursorOf self.now from.now result }
    {
        let at = rows_to(&self.rows, from).saturating_sub(1);
        FileCursor::new(self.alloc, self.name, from, self.rows.split_at(at).1)
    }
}
