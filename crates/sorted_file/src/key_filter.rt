//! A filter of the keys of several files, by which a read skips all of them with one test.

ghost use Rattle.std.specs.Prelude.{◌≡◌, ℕ, None, false, All, IfOk, OnErr, OnOk, IsOkUnless};
ghost use Rattle.file_store.specs.Store.{Contents};
ghost use Rattle.sorted_file.specs.Bounds.{HasNoneOfKind};
ghost use Rattle.sorted_file.specs.File.{IsOpen, listed};
ghost use Rattle.sorted_file.specs.KeyFilters.{Covers};
ghost use Rattle.sorted_file.specs.Newest.{IsNewestEntry};
ghost use Rattle.sorted_file.specs.declared.file.SortedFile.{SortedFile as FileOf};

use crate::bounds::ColumnBounds;
use crate::file::SortedFile;
use crate::filter::Filter;
use crate::lookup_key::LookupKey;
use cell_key::{Qualifier, Refusal, Stamp};
use std::alloc::Global;

/// The capacity of a filter, for each kind of hash.
#[derive(Clone, Copy)]
struct Room {
    numbers: usize,
    lock_keys: usize,
}

impl Room {
    /// Adds room for twice a file's hashes.
    fn with_file(self, file: &SortedFile) -> Room {
        Room {
            numbers: self
                .numbers
                .saturating_add(file.numbers.len().saturating_mul(2)),
            lock_keys: self
                .lock_keys
                .saturating_add(file.lock_keys.len().saturating_mul(2)),
        }
    }

    /// Room for twice the hashes of these files, so that not every new file needs a new filter, and for `more` entries.
    fn for_files(files: &[SortedFile], more: usize) -> Room {
        let mut room = Room {
            numbers: more,
            lock_keys: more,
        };
        for file in files {
            room = room.with_file(file);
        }
        room
    }
}

/// A filter over the keys of several files. If it says that none may have an entry of a key, no file that it covers has
/// one.
#[derive(Drop)]
pub struct KeyFilter {
    alloc: Global,
    /// A filter of the hashes of columns that have an entry.
    numbers: Filter,
    /// A filter of the hashes of locks' key texts.
    lock_keys: Filter,
    /// The bounds of the entries.
    bounds: ColumnBounds,
}

impl KeyFilter {
    /// A filter without capacity, which rules out no key. Allocates nothing.
    pub fn without_room(alloc: Global) -> KeyFilter {
        KeyFilter {
            alloc,
            numbers: Filter::all(alloc),
            lock_keys: Filter::all(alloc),
            bounds: ColumnBounds::NONE,
        }
    }

    /// A filter that covers these files, with room for twice their keys and for `more` entries. Answers `NoMemory` if
    /// there is no memory.
    pub fn new(alloc: Global, files: &[SortedFile], more: usize) -> Result<KeyFilter, Refusal>
        ensures covers { IfOk result (λ filter. All (Covers filter) files.now) }
        ensures refusal { IsOkUnless result Refusal.NoMemory }
    {
        let room = Room::for_files(files, more);
        let mut filter = KeyFilter {
            alloc,
            numbers: Filter::with_room(alloc, room.numbers)?,
            lock_keys: Filter::with_room(alloc, room.lock_keys)?,
            bounds: ColumnBounds::NONE,
        };
        for file in files {
            filter.add(file);
        }
        Ok(filter)
    }

    /// Whether it has room for `more` entries.
    fn has_room(&self, more: usize) -> bool {
        self.numbers.has_room(more) && self.lock_keys.has_room(more)
    }

    /// Makes room for a file of `more` entries. If there isn't room, the filter is rebuilt from these files. It covers
    /// them as before, even after an `Err`, which is `NoMemory`.
    pub fn reserve(&mut self, files: &[SortedFile], more: usize) -> Result<(), Refusal>
        requires { All (Covers self.old) files.now }
        ensures covers { All (Covers self.new) files.now }
        ensures refusal { IsOkUnless result Refusal.NoMemory }
    {
        if !self.has_room(more) {
            *self = KeyFilter::new(self.alloc, files, more)?;
        }
        Ok(())
    }

    /// Adds the keys of a file. Allocates nothing: without room for them the filter has more false positives.
    pub fn add(&mut self, file: &SortedFile)
        ensures covers { Covers self.new file.now }
        ensures keeps { (other : FileOf) → Covers self.old other → Covers self.new other }
    {
        file.numbers.add_to(&mut self.numbers);
        file.lock_keys.add_to(&mut self.lock_keys);
        self.bounds = self.bounds.joined(file.bounds);
    }

    /// Whether a file that the filter covers may have an entry in a column of this kind at a stamp in `lo..=hi`.
    /// Allocates nothing.
    pub fn may_have(&self, qualifier: Qualifier, lo: Stamp, hi: Stamp) -> bool
        ensures { result ≡ false → (file : FileOf) → Covers self.now file → (m : Contents)
            → IsOpen m file → HasNoneOfKind qualifier lo hi (listed m file) }
    {
        self.bounds.meet(qualifier, lo, hi)
    }

    /// Whether a file that the filter covers may have an entry, value or erasure, of the key's column at a stamp from `lo`
    /// to the key's. A single lock is tested by its key, else the column is. Allocates nothing.
    pub fn may_have_from(&self, key: &LookupKey, lo: Stamp) -> bool
        ensures { result ≡ false → (file : FileOf) → Covers self.now file → (m : Contents)
            → IsOpen m file → IsNewestEntry (listed m file) key.now lo None }
    {
        // It shows that row, family and stamp are within their limits.
        let _own = key.key();
        if key.is_one_lock(lo) {
            return self.lock_keys.has(key.entry_number());
        }
        self.numbers.has(key.column_number())
    }
}
