//! Tablets: the type, and its calls that write no file.

ghost use Rattle.std.specs.Prelude.{◌≡◌, ◌≤◌, ◌<◌, ◌+◌, ◌-◌, ◌^◌, ◌++◌, ◌∷◌, ◌⊎◌, ◌↔◌, [], None, length, min, vec_len, vec_capacity, IsTrue, if◌then◌else◌, IsOk, IfErr, IfOk, OnErr, OnOk, IsErrOf, IsOkUnless};
ghost use Rattle.std.specs.List.{AllByRecursion};
ghost use Rattle.cell_key.specs.Cells.{IsEditOf, after_edits};
ghost use Rattle.file_store.specs.Store.{Contents};
ghost use Rattle.memtable.specs.Edits.{bytes_of, with_edits, HasStoredKey, IsLimited, IsWithinLimits};

use crate::open_files::OpenFiles;
use crate::ranges::RowRange;
use cell_key::{Edit, Refusal, Row};
use memtable::{Memtable, Prepared};
use sorted_file::few_blocks;
use std::alloc::Global;
use std::num::NonZeroUsize;

/// A range of rows: a memtable with the recent writes, and immutable sorted files, the newest first. A read
/// sees the merged view of all of them, cut to the range (Bigtable, tablet serving).
#[derive(Drop)]
pub struct Tablet {
    pub(crate) alloc: Global,
    pub(crate) range: RowRange,
    pub(crate) memtable: Memtable,
    /// The newest first.
    pub(crate) files: OpenFiles,
    /// How many blocks each newly opened file caches at most.
    pub(crate) most_blocks: NonZeroUsize,
}

impl Tablet {
    ghost use Rattle.tablet.specs.Ranges.{has_row};
    ghost use Rattle.tablet.specs.Views.{file_bytes_of, range_of, memory_of, files_of, names_of, with_memory, cells_at, Holds};

    /// A tablet with this many files gets no further one: a minor compaction with entries to write is refused with
    /// `TooManyFiles`.
    pub const MOST_FILES: usize = 64;

    /// A tablet of all rows, with no entries and no files. Each file that it opens caches 8 blocks at most. Allocates
    /// nothing.
    pub fn new(alloc: Global) -> Tablet
        ensures range { range_of result ≡ record { after = None; end = None } }
        ensures memory { memory_of result ≡ [] }
        ensures files { files_of result ≡ [] }
    {
        Tablet {
            alloc,
            range: RowRange {
                after: None,
                end: None,
            },
            memtable: Memtable::new(alloc),
            files: OpenFiles::new(alloc),
            most_blocks: few_blocks(),
        }
    }

    /// The rows that the tablet holds. Allocates nothing.
    pub fn range(&self) -> &RowRange
        ensures { result.now ≡ range_of self.now }
    {
        &self.range
    }

    /// How many entries the memtable has, erasures among them. Allocates nothing.
    pub fn len(&self) -> usize
        ensures len { result ≡ length (memory_of self.now) }
        ensures limits { IsWithinLimits (memory_of self.now) }
    {
        self.memtable.len()
    }

    /// How many bytes the memtable's entries take in a file, as `Memtable::entry_bytes` counts them. Allocates nothing.
    pub fn entry_bytes(&self) -> usize
        ensures { result ≡ bytes_of (memory_of self.now) }
    {
        self.memtable.entry_bytes()
    }

    /// Whether the memtable has no entries. Allocates nothing.
    pub fn is_empty(&self) -> bool
        ensures { IsTrue result ↔ (memory_of self.now ≡ []) }
    {
        self.memtable.is_empty()
    }

    /// How many blocks each file that the tablet opens caches at most. Allocates nothing.
    pub fn most_blocks(&self) -> NonZeroUsize
        ensures { result ≡ self.now.most_blocks }
    {
        self.most_blocks
    }

    /// How many files the tablet has. Allocates nothing.
    pub fn file_count(&self) -> usize
        ensures { result ≡ length (names_of self.now) }
    {
        self.files.len()
    }

    /// How many bytes the entries of the files take in them; `u64::MAX` if it is more. Allocates and reads nothing.
    pub fn file_bytes(&self) -> u64
        ensures { result ≡ min (file_bytes_of self.now) (2 ^ 64 - 1) }
    {
        let mut bytes: u64 = 0;
        for file in self.files.as_slice() {
            bytes = bytes.saturating_add(file.entry_bytes());
        }
        bytes
    }

    /// Appends the names of the files, the newest first. `NoMemory` if `out` cannot grow; never if it has the capacity.
    /// On `Err`, `out` is unchanged.
    pub fn push_names(&self, out: &mut Vec<u64>) -> Result<(), Refusal>
        ensures ok { OnOk result (out.new.items ≡ out.old.items ++ names_of self.now) }
        ensures err { OnErr result (out.new.items ≡ out.old.items) }
        ensures refusal { IsOkUnless result Refusal.NoMemory }
        ensures room { vec_len out.old + length (names_of self.now) ≤ vec_capacity out.old
            → IsOk result }
    {
        out.reserve(self.file_count())?;
        for file in self.files.as_slice() {
            out.push_reserved(file.name());
        }
        Ok(())
    }

    /// Applies edits to one row in order, all of them or none.
    ///
    /// # Errors
    ///
    /// `MemtableFull` if a limit of the memtable would be exceeded, and `NoMemory`. The tablet is then unchanged.
    pub fn apply(&mut self, row: &Row, edits: Vec<Edit>) -> Result<(), Refusal>
        requires { AllByRecursion (IsEditOf row.now) edits.items }
        ensures ok { OnOk result ((m : Contents) → Holds m self.old
            → IsTrue (has_row (range_of self.old) row.now)
            → cells_at m self.new ≡ after_edits (cells_at m self.old) edits.items) }
        ensures memory { OnOk result (memory_of self.new
            ≡ with_edits (memory_of self.old) edits.items) }
        ensures still { OnOk result ((m : Contents) → Holds m self.old → Holds m self.new) }
        ensures range { range_of self.new ≡ range_of self.old }
        ensures files { files_of self.new ≡ files_of self.old }
        ensures err { OnErr result (self.new ≡ self.old) }
        ensures full { IsErrOf result Refusal.MemtableFull
            → ¬ (IsWithinLimits (with_edits (memory_of self.old) edits.items)) }
        ensures within { OnOk result (IsWithinLimits
            (with_edits (memory_of self.old) edits.items)) }
        ensures refusal { IfErr result (λ refusal. (refusal ≡ Refusal.MemtableFull)
            ⊎ (refusal ≡ Refusal.NoMemory)) }
    {
        self.memtable.apply(row, edits)
    }

    /// Takes the memtable out, with edits that are ready to be put: applied in order, of any rows. Until `finish` the
    /// tablet has no entries in memory.
    ///
    /// # Errors
    ///
    /// `MemtableFull` if a limit of the memtable would be exceeded, and `NoMemory`. The tablet is then unchanged.
    pub fn prepare(&mut self, edits: Vec<Edit>) -> Result<Prepared, Refusal>
        requires { AllByRecursion IsLimited edits.items }
        ensures taken { OnOk result (self.new ≡ with_memory self.old []) }
        ensures ready { IfOk result (λ ready. ready
            ≡ (memory_of self.old, with_edits (memory_of self.old) edits.items)) }
        ensures within { OnOk result (IsWithinLimits
            (with_edits (memory_of self.old) edits.items)) }
        ensures keys { OnOk result (AllByRecursion HasStoredKey edits.items) }
        ensures err { OnErr result (self.new ≡ self.old) }
        ensures full { IsErrOf result Refusal.MemtableFull
            → ¬ (IsWithinLimits (with_edits (memory_of self.old) edits.items)) }
        ensures refusal { IfErr result (λ refusal. (refusal ≡ Refusal.MemtableFull)
            ⊎ (refusal ≡ Refusal.NoMemory)) }
    {
        self.memtable.prepare(edits)
    }

    /// Makes a memtable that was taken out this tablet's: with its edits if they are to be put, else as it was.
    /// Allocates nothing.
    pub fn finish(&mut self, ready: Prepared, is_put: bool)
        ensures { self.new ≡ with_memory self.old (if is_put then ready.1 else ready.0) }
    {
        self.memtable = if is_put { ready.put() } else { ready.cancel() };
    }
}
