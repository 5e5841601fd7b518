//! The locks that may have a value in any of several files, by which a lock test needs no read.

ghost use Rattle.std.specs.Prelude.{◌≡◌, ◌≤◌, ◌∷◌, [], false, Contains, IfOk, List, map, ℕ, IsOkUnless};
ghost use Rattle.cell_key.specs.Keys.{text};
ghost use Rattle.cell_key.specs.declared.keys.CellKey.{CellKey as KeyOf};
ghost use Rattle.sorted_file.specs.LockIndexes.{IsIndexOf, stamp_of};
ghost use Rattle.sorted_file.specs.LockStamps.{IsLatest};
ghost use Rattle.sorted_file.specs.Newest.{at_stamp, IsAfterStamp};
ghost use Rattle.sorted_file.specs.Numbers.{lock_stamp, number_of};
ghost use Rattle.sorted_file.specs.declared.file.SortedFile.{SortedFile as FileOf};

use crate::file::SortedFile;
use crate::filter::Filter;
use crate::lock_stamps::LockStamps;
use crate::lock_values::{LockValue, rows_of, stamps_of, values_over};
use crate::lookup_key::LookupKey;
use crate::numbers::text_number;
use cell_key::{Refusal, Row, Stamp};
use std::alloc::Global;
use std::marker::Model;

/// The keys of the locks that may have a value in any of several files: each lock that a file has a value of, unless a
/// newer file is known to have an entry of its key.
#[derive(Drop)]
pub struct LockIndex {
    alloc: Global,
    values: Vec<LockValue>,
    /// Their stamps.
    stamps: LockStamps,
    /// A filter of their rows.
    rows: Filter,
}

impl Model for LockIndex {
    ghost use Rattle.std.specs.Prelude.{List, All, map};
    ghost use Rattle.cell_key.specs.declared.keys.CellKey.{CellKey as KeyOf};
    ghost use Rattle.sorted_file.specs.LockIndexes.{HasRow, stamp_of};
    ghost use Rattle.sorted_file.specs.Numbers.{IsAmong};

    ghost Value = { List KeyOf };

    ghost view = { λ index. index.values.items };

    ghost invariant = { λ index. IsAmong (map stamp_of index.values.items) index.stamps
        × IsAmong index.stamps (map stamp_of index.values.items)
        × All (HasRow index.rows.words.items) index.values.items };
}

impl LockIndex {
    /// The index of no files. Allocates nothing.
    pub fn new(alloc: Global) -> LockIndex
        ensures { result ≡ [] }
    {
        LockIndex {
            alloc,
            values: Vec::new(alloc),
            stamps: LockStamps::new(Vec::new(alloc)),
            rows: Filter::all(alloc),
        }
    }

    /// The index of these locks. Answers `NoMemory` if there is no memory.
    fn of_values(alloc: Global, values: Vec<LockValue>) -> Result<LockIndex, Refusal>
        ensures values { IfOk result (λ index. index ≡ values.items) }
        ensures refusal { IsOkUnless result Refusal.NoMemory }
    {
        let stamps = LockStamps::new(stamps_of(alloc, &values)?);
        let rows = rows_of(alloc, &values)?;
        Ok(LockIndex {
            alloc,
            values,
            stamps,
            rows,
        })
    }

    /// The index of these files, newest first. Answers `NoMemory` if there is no memory.
    pub fn of(alloc: Global, files: &[SortedFile]) -> Result<LockIndex, Refusal>
        ensures files { IfOk result (λ index. IsIndexOf index files.now) }
        ensures refusal { IsOkUnless result Refusal.NoMemory }
    {
        let mut index = LockIndex::new(alloc);
        let mut newer = files;
        while let Some((file, rest)) = newer.split_last() {
            index = index.over(file)?;
            newer = rest;
        }
        Ok(index)
    }

    /// The index of its files and a newer one. Answers `NoMemory` if there is no memory.
    pub fn over(&self, file: &SortedFile) -> Result<LockIndex, Refusal>
        ensures over { IfOk result (λ index. (files : List FileOf) → IsIndexOf self.now files
            → IsIndexOf index (file.now ∷ files)) }
        ensures refusal { IsOkUnless result Refusal.NoMemory }
    {
        let values = values_over(
            self.alloc,
            &self.values,
            &file.lock_values,
            &file.named_locks,
        )?;
        LockIndex::of_values(self.alloc, values)
    }

    /// Whether it has a lock at this stamp whose column has this hash. Allocates nothing.
    pub(crate) fn has(&self, column: u64, stamp: Stamp) -> bool
        ensures { result ≡ false → ¬ Contains (map stamp_of self.now) (lock_stamp column stamp) }
    {
        !self.values.is_empty() && self.stamps.latest(column, stamp, stamp).is_some()
    }

    /// The greatest stamp, from `lo` to the key's, of its locks whose columns have the same hash as the key's. Above
    /// it, up to the key's stamp, it has no lock of the key's column. Allocates nothing.
    pub fn latest(&self, key: &LookupKey, lo: Stamp) -> Option<Stamp>
        ensures latest { IsLatest
            (map stamp_of self.now) (number_of (text key.now)) lo key.now.stamp result }
        ensures none { (s : ℕ) → IsAfterStamp s lo result → s ≤ key.now.stamp
            → ¬ Contains self.now (at_stamp key.now s) }
    {
        self.stamps.latest(key.column_number(), lo, key.key().stamp)
    }

    /// Whether it may have a lock of the row. No means that it has none: either it is empty, or the filter of its rows
    /// rules the row out. Allocates nothing.
    pub fn may_have_row(&self, row: &Row) -> bool
        ensures { result ≡ false → (key : KeyOf) → Contains self.now key → ¬ (key.row ≡ row.now) }
    {
        !self.values.is_empty() && self.rows.has(text_number(row.as_bytes()))
    }
}
