//! The memtable: recent writes in key order.

ghost use Rattle.std.specs.Prelude.{◌≡◌, ◌↔◌, ◌+◌, ◌≤◌, ◌^◌, [], length, vec_len, IsTrue, OnOk, OnErr, IfErr, IfOk, IfSome, IsErrOf, option_map, None, ◌⊎◌, IsOkUnless};
ghost use Rattle.std.specs.Borrow.{sem};
ghost use Rattle.std.specs.Io.BufRead.{Rests};
ghost use Rattle.std.specs.List.{AllByRecursion};
ghost use Rattle.cell_key.specs.Keys.{text};
ghost use Rattle.cell_key.specs.Cells.{IsEditOf, IsNewest, version};
ghost use Rattle.cell_key.specs.Versions.{IsVersion};
ghost use Rattle.cell_key.specs.Entries.{IsEntry, IsEntryList, IsRising, cells_of, lent_entry, entry_of_key, entries_from};
ghost use Rattle.memtable.specs.Slots.{lent_version, over, slot_entries};
ghost use Rattle.memtable.specs.Sizes.{IsSizeOf};
ghost use Rattle.memtable.specs.Blocks.{block_entries, AreEntryBlocks, HasRoom, IsEntryBlock};
ghost use Rattle.memtable.specs.contracts.table.Memtable.{the_row};
ghost use Rattle.memtable.specs.Edits.{with_edits, bytes_of, IsLimited, IsWithinLimits, HasStoredKey};

use crate::blocks::{self, Block, Blocks};
use crate::cursor::Cursor;
use crate::entries::Slot;
use crate::prepared::Prepared;
use crate::size::{self, Size};
use crate::sought::{Version, version_of};
use crate::stamp_range::StampRange;
use crate::{searches, staging};
use cell_key::{CellKey, Edit, EntryRef, Family, Qualifier, Refusal, Row, Stamp};
use std::alloc::Global;
use std::marker::Model;
use std::mem;

/// The recent writes of a tablet: an entry for each key that was put or erased, in the byte order of the keys' texts
/// (Bigtable, tablet serving: the memtable). An erasure is an entry.
#[derive(Drop)]
pub struct Memtable {
    pub(crate) alloc: Global,
    pub(crate) blocks: Blocks,
    pub(crate) len: usize,
    pub(crate) bytes: usize,
    /// How many locks have a value.
    pub(crate) locks: usize,
    /// A range with the stamps of all keys.
    pub(crate) stamps: StampRange,
}

impl Model for Memtable {
    ghost use Rattle.std.specs.Prelude.{List};
    ghost use Rattle.cell_key.specs.Entries.{Entry};
    ghost use Rattle.memtable.specs.Blocks.{block_entries, IsKept};

    ghost Value = { List Entry };

    ghost view = { λ table. block_entries table.blocks.filled.items };

    ghost invariant = { λ table.
        IsKept table.blocks table.len table.bytes table.locks table.stamps };
}

/// Whether a table stays within the limits when entries are put over it. If there is room for them whatever they
/// replace, the replaced ones aren't looked up.
fn fit(table: &[Block], before: Size, staged: &[Box<Slot>]) -> bool
    requires rising { IsRising (block_entries table.now) }
    requires blocks { AllByRecursion IsEntryBlock table.now }
    requires before { IsSizeOf before (block_entries table.now) }
    requires few { before.entries ≤ 2 ^ 64 }
    requires small { before.bytes ≤ 2 ^ 64 }
    requires staged { IsRising (slot_entries staged.now) }
    requires limits { AllByRecursion IsEntry (slot_entries staged.now) }
    ensures { IsTrue result
        ↔ IsWithinLimits (over (slot_entries staged.now) (block_entries table.now)) }
{
    if before.has_room(staged.len()) {
        return true;
    }
    let size = staging::size_with(table, before, staged);
    size.entries <= Memtable::MOST_ENTRIES as u128 && size.bytes <= Memtable::MOST_BYTES as u128
}

/// Edits as entries, for which room is made, if the limits allow them.
fn stage_within(
    alloc: Global,
    blocks: &mut Blocks,
    before: Size,
    edits: Vec<Edit>,
) -> Result<Vec<Box<Slot>>, Refusal>
    requires rising { IsRising (block_entries blocks.old.filled.items) }
    requires blocks { AreEntryBlocks blocks.old }
    requires before { IsSizeOf before (block_entries blocks.old.filled.items) }
    requires few { before.entries ≤ 2 ^ 64 }
    requires small { before.bytes ≤ 2 ^ 64 }
    requires edits { AllByRecursion IsLimited edits.items }
    ensures same { blocks.new.filled.items ≡ blocks.old.filled.items }
    ensures blocks { AreEntryBlocks blocks.new }
    ensures staged { IfOk result (λ staged. over (slot_entries staged.items)
        (block_entries blocks.old.filled.items)
        ≡ with_edits (block_entries blocks.old.filled.items) edits.items) }
    ensures limits { IfOk result (λ staged. AllByRecursion IsEntry (slot_entries staged.items)) }
    ensures room { IfOk result (λ staged. HasRoom (vec_len staged) blocks.new) }
    ensures within { OnOk result (IsWithinLimits
        (with_edits (block_entries blocks.old.filled.items) edits.items)) }
    ensures keys { OnOk result (AllByRecursion HasStoredKey edits.items) }
    ensures full { IsErrOf result Refusal.MemtableFull → ¬ (IsWithinLimits
        (with_edits (block_entries blocks.old.filled.items) edits.items)) }
    ensures refusal { IfErr result (λ refusal.
        (refusal ≡ Refusal.MemtableFull) ⊎ (refusal ≡ Refusal.NoMemory)) }
{
    let staged = staging::stage(alloc, edits)?;
    if !fit(&blocks.filled, before, &staged) {
        return Err(Refusal::MemtableFull);
    }
    blocks::make_room(alloc, blocks, staged.len())?;
    Ok(staged)
}

impl Memtable {
    /// The most entries.
    pub const MOST_ENTRIES: usize = size::MOST_ENTRIES;

    /// The most bytes of all entries together, as `entry_bytes` counts them.
    pub const MOST_BYTES: usize = size::MOST_BYTES;

    /// A table without entries. Allocates nothing.
    pub fn new(alloc: Global) -> Memtable
        ensures { result ≡ [] }
    {
        Memtable {
            alloc,
            blocks: Blocks::new(alloc),
            len: 0,
            bytes: 0,
            locks: 0,
            stamps: StampRange::EMPTY,
        }
    }

    /// How many entries there are, erasures included: at most 100,000. Allocates nothing.
    pub fn len(&self) -> usize
        ensures len { result ≡ length self.now }
        ensures list { IsEntryList self.now }
        ensures limits { IsWithinLimits self.now }
    {
        self.len
    }

    /// Whether there are no entries. Allocates nothing.
    pub fn is_empty(&self) -> bool
        ensures { IsTrue result ↔ (self.now ≡ []) }
    {
        self.len == 0
    }

    /// The entries' length in a file, at most 67,108,864 bytes: for each entry 4 bytes and its text, one byte for
    /// whether it has a value, and 4 bytes and the value if it has one. Allocates nothing.
    pub fn entry_bytes(&self) -> usize
        ensures { result ≡ bytes_of self.now }
    {
        self.bytes
    }

    /// The entry of a key, a value or an erasure, if there is one. Searches nothing if the key's stamp is outside the
    /// range of all entries' stamps. Allocates nothing.
    pub fn lookup(&self, key: &CellKey) -> Option<EntryRef<'_>>
        ensures found { option_map (λ lent. (lent_entry lent).1) result
            ≡ entry_of_key self.now (text key.now) }
        ensures named { IfSome result (λ lent. lent.key.now ≡ text key.now) }
        ensures list { IsEntryList self.now }
    {
        if self.stamps.misses(key.stamp, key.stamp) {
            // These calls show that row and family are within their limits.
            let _row = key.row.as_bytes();
            let _family = key.family.as_bytes();
            return None;
        }
        searches::find_version(&self.blocks.filled, &self.blocks.recent, version_of(key))
    }

    /// A cursor over the entries at or above some bytes, in order. Allocates nothing.
    pub fn cursor(&self, from: &[u8]) -> Cursor<'_>
        ensures cursor { result ≡ (None, entries_from from.now self.now) }
        ensures list { IsEntryList self.now }
    {
        // A copy, so that a cursor leaves the recent places unchanged.
        let mut recent = self.blocks.recent;
        let (rest, later) = blocks::rest_from(&self.blocks.filled, from, &mut recent);
        Cursor::new(rest, later)
    }

    /// The version of a cell's column with the greatest stamp in `lo..=hi`, if there is one: its stamp (1 to 2^63 - 1)
    /// and its value, of at most 65,536 bytes. An erasure is no version. Searches nothing for a lock if no lock has a
    /// value, nor outside the range of all entries' stamps. The entries are unchanged; only the hint where the next
    /// search starts may change. Allocates nothing.
    pub fn newest(
        &mut self,
        row: &Row,
        family: &Family,
        qualifier: Qualifier,
        lo: Stamp,
        hi: Stamp,
    ) -> Option<(Stamp, &[u8])>
        ensures found { IsNewest (cells_of self.old) (version row.now family.now qualifier) lo hi
            (option_map lent_version result) }
        ensures limits { IfSome result (λ found. IsVersion found.0 found.1.now) }
        ensures list { IsEntryList self.old }
        ensures* same { sem 𝓛 (Rests the_row self.entry (λ after. after ≡ self.old)) }
    {
        if self.stamps.misses(lo, hi) {
            return None;
        }
        if qualifier == Qualifier::Lock && self.locks == 0 {
            return None;
        }
        let sought = Version {
            row,
            family,
            qualifier,
            stamp: hi,
        };
        searches::newest(&self.blocks.filled, &mut self.blocks.recent, sought, lo)
    }

    /// Applies edits of one row in order, all or none: a put sets its key's entry to the value, and an erase sets it to
    /// an erasure. Memory for all of them is allocated before the first change.
    ///
    /// # Errors
    ///
    /// `MemtableFull` if the table with all edits would have more than 100,000 entries or more than 67,108,864 bytes of
    /// entries, and `NoMemory` if an allocation failed. The table is then unchanged.
    pub fn apply(&mut self, row: &Row, edits: Vec<Edit>) -> Result<(), Refusal>
        requires { AllByRecursion (IsEditOf row.now) edits.items }
        ensures ok { OnOk result (self.new ≡ with_edits self.old edits.items) }
        ensures within { OnOk result (IsWithinLimits (with_edits self.old edits.items)) }
        ensures keys { OnOk result (AllByRecursion HasStoredKey edits.items) }
        ensures list { IsEntryList self.new }
        ensures err { OnErr result (self.new ≡ self.old) }
        ensures full { IsErrOf result Refusal.MemtableFull
            → ¬ (IsWithinLimits (with_edits self.old edits.items)) }
        ensures refusal { IfErr result (λ refusal.
            (refusal ≡ Refusal.MemtableFull) ⊎ (refusal ≡ Refusal.NoMemory)) }
    {
        let before = Size {
            entries: self.len as u128,
            bytes: self.bytes as u128,
            locks: self.locks as u128,
        };
        if edits.len() == 2 && before.has_room(2) {
            return self.put_two(row, edits, before);
        }
        let stamps = self.stamps.with_edits(&edits);
        let staged = stage_within(self.alloc, &mut self.blocks, before, edits)?;
        let size = blocks::put_all(&mut self.blocks, staged, before);
        self.len = size.entries as usize;
        self.bytes = size.bytes as usize;
        self.locks = size.locks as usize;
        self.stamps = stamps;
        Ok(())
    }

    /// Takes the table out, with edits that are ready to be put: applied in order, as `apply` does, and of any rows. No
    /// entries are left. The memory for all of the edits is allocated.
    ///
    /// # Errors
    ///
    /// `MemtableFull` if the table with all edits would have more than 100,000 entries or more than 67,108,864 bytes of
    /// entries, and `NoMemory` if an allocation failed. The table is then unchanged.
    pub fn prepare(&mut self, edits: Vec<Edit>) -> Result<Prepared, Refusal>
        requires { AllByRecursion IsLimited edits.items }
        ensures taken { OnOk result (self.new ≡ []) }
        ensures ready { IfOk result (λ ready.
            ready ≡ (self.old, with_edits self.old edits.items)) }
        ensures within { OnOk result (IsWithinLimits (with_edits self.old edits.items)) }
        ensures keys { OnOk result (AllByRecursion HasStoredKey edits.items) }
        ensures err { OnErr result (self.new ≡ self.old) }
        ensures full { IsErrOf result Refusal.MemtableFull
            → ¬ (IsWithinLimits (with_edits self.old edits.items)) }
        ensures refusal { IfErr result (λ refusal.
            (refusal ≡ Refusal.MemtableFull) ⊎ (refusal ≡ Refusal.NoMemory)) }
    {
        let before = Size {
            entries: self.len as u128,
            bytes: self.bytes as u128,
            locks: self.locks as u128,
        };
        let widened = self.stamps.with_edits(&edits);
        let staged = stage_within(self.alloc, &mut self.blocks, before, edits)?;
        let blocks = mem::replace(&mut self.blocks, Blocks::new(self.alloc));
        let ready = Prepared {
            alloc: self.alloc,
            blocks,
            len: self.len,
            bytes: self.bytes,
            locks: self.locks,
            stamps: self.stamps,
            staged,
            widened,
        };
        self.len = 0;
        self.bytes = 0;
        self.locks = 0;
        self.stamps = StampRange::EMPTY;
        Ok(ready)
    }

    /// Applies two edits in order. There must be room for them, whatever they replace.
    fn put_two(&mut self, row: &Row, mut edits: Vec<Edit>, before: Size) -> Result<(), Refusal>
        requires two { vec_len edits ≡ 2 }
        requires edits { AllByRecursion (IsEditOf row.now) edits.items }
        requires before { IsSizeOf before self.old }
        requires entries { length self.old + 2 ≤ 100000 }
        requires bytes { bytes_of self.old + 2 ^ 19 ≤ 67108864 }
        ensures ok { OnOk result (self.new ≡ with_edits self.old edits.items) }
        ensures within { OnOk result (IsWithinLimits (with_edits self.old edits.items)) }
        ensures keys { OnOk result (AllByRecursion HasStoredKey edits.items) }
        ensures list { IsEntryList self.new }
        ensures err { OnErr result (self.new ≡ self.old) }
        ensures refusal { IsOkUnless result Refusal.NoMemory }
    {
        let stamps = self.stamps.with_edits(&edits);
        let last = edits.pop().unwrap();
        let first = edits.pop().unwrap();
        let first = staging::slot_of(self.alloc, first)?;
        let last = staging::slot_of(self.alloc, last)?;
        blocks::make_room(self.alloc, &mut self.blocks, 2)?;
        let half = blocks::put_counted(&mut self.blocks, first, before);
        let size = blocks::put_counted(&mut self.blocks, last, half);
        self.len = size.entries as usize;
        self.bytes = size.bytes as usize;
        self.locks = size.locks as usize;
        self.stamps = stamps;
        Ok(())
    }
}
