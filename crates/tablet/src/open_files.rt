//! The open files of a tablet, with a filter of their keys and an index of their locks.

ghost use Rattle.std.specs.Prelude.{◌≡◌, ◌≤◌, ◌<◌, ◌+◌, ◌^◌, ◌∷◌, ◌++◌, [], false, Option, option_map, map, take, drop, length, vec_len, IfOk, IfSome, IsErrOf, OnOk, OnErr, IsOkUnless};
ghost use Rattle.std.specs.List.{AllByRecursion, AllZip};
ghost use Rattle.cell_key.specs.Entries.{merged};
ghost use Rattle.cell_key.specs.declared.keys.Qualifier.TheVariants.{Lock};
ghost use Rattle.file_store.specs.Store.{Contents};
ghost use Rattle.sorted_file.specs.File.{IsOpen, IsSameFile, listed};
ghost use Rattle.sorted_file.specs.LockIndexes.{IsIndexOf};
ghost use Rattle.sorted_file.specs.Newest.{IsNewestEntry, IsShortValue, found_bytes};
ghost use Rattle.sorted_file.specs.Source.{ReadsFiles};
ghost use Rattle.tablet.specs.Reads.{HasNoLater, HaveNoValue};

use crate::lookup::newest;
use cell_key::{Qualifier, Refusal, Row, Stamp};
use file_store::Files;
use sorted_file::{KeyFilter, LockIndex, LookupKey, SortedFile, stays_covered, stays_indexed};
use std::alloc::Global;
use std::marker::Model;
use std::num::NonZeroUsize;

/// Replaces the first `count` files with one.
fn replace_newest(files: &mut Vec<SortedFile>, count: usize, file: SortedFile)
    requires some { 1 ≤ count }
    requires within { count ≤ vec_len files.old }
    ensures { files.new.items ≡ file ∷ drop count files.old.items }
{
    'newest: for _ in 0..count - 1 {
        let _ = files.remove(0);
    }
    files[0] = file;
}

/// Replaces the first `count` files with one. Answers `NoMemory` if there is no memory; the files are then unchanged.
fn put_newest(files: &mut Vec<SortedFile>, count: usize, file: SortedFile) -> Result<(), Refusal>
    requires { count ≤ vec_len files.old }
    ensures ok { OnOk result (files.new.items ≡ file ∷ drop count files.old.items) }
    ensures err { OnErr result (files.new.items ≡ files.old.items) }
    ensures refusal { IsOkUnless result Refusal.NoMemory }
{
    if count == 0 {
        files.insert(0, file)?;
    } else {
        replace_newest(files, count, file);
    }
    Ok(())
}

/// Replaces `count` files from a place on with one.
fn put_run(files: &mut Vec<SortedFile>, at: usize, count: usize, file: SortedFile)
    requires some { 1 ≤ count }
    requires within { at + count ≤ vec_len files.old }
    ensures { files.new.items
        ≡ take at files.old.items ++ file ∷ drop (at + count) files.old.items }
{
    'run: for _ in 0..count - 1 {
        let _ = files.remove(at);
    }
    files[at] = file;
}

/// Empties the caches of some files. The files are unchanged.
fn drop_each(files: &mut [SortedFile])
    ensures { (disk : Option Contents) → AllZip (IsSameFile disk) files.old files.new }
{
    for file in files.iter_mut() {
        file.drop_cache();
    }
}

/// Sets how many blocks each of some files caches at most. The files are otherwise unchanged.
fn resize_each(files: &mut [SortedFile], most_blocks: NonZeroUsize)
    ensures { (disk : Option Contents) → AllZip (IsSameFile disk) files.old files.new }
{
    for file in files.iter_mut() {
        file.resize_cache(most_blocks);
    }
}

/// The open files of a tablet, the newest first.
#[derive(Drop)]
pub(crate) struct OpenFiles {
    alloc: Global,
    files: Vec<SortedFile>,
    /// It covers each file.
    filter: KeyFilter,
    /// The index of the files' locks.
    locks: LockIndex,
}

impl Model for OpenFiles {
    ghost use Rattle.std.specs.Prelude.{List, All};
    ghost use Rattle.sorted_file.specs.KeyFilters.{Covers};
    ghost use Rattle.sorted_file.specs.LockIndexes.{IsIndexOf};
    ghost use Rattle.sorted_file.specs.declared.file.SortedFile.{SortedFile as FileOf};

    ghost Value = { List FileOf };

    ghost view = { λ opened. opened.files.items };

    ghost invariant = { λ opened. All (Covers opened.filter) opened.files.items
        × IsIndexOf opened.locks opened.files.items };
}

impl OpenFiles {
    /// No files. Allocates nothing.
    pub(crate) fn new(alloc: Global) -> OpenFiles
        ensures { result ≡ [] }
    {
        OpenFiles {
            alloc,
            files: Vec::new(alloc),
            filter: KeyFilter::without_room(alloc),
            locks: LockIndex::new(alloc),
        }
    }

    /// The files.
    pub(crate) fn as_slice(&self) -> &[SortedFile]
        ensures { result.now ≡ self.now }
    {
        &self.files
    }

    /// How many files there are.
    pub(crate) fn len(&self) -> usize
        ensures { result ≡ length self.now }
    {
        self.files.len()
    }

    /// The index of the files' locks.
    pub(crate) fn locks(&self) -> &LockIndex {
        &self.locks
    }

    /// The index of the locks of all files but the first `count`. Answers `NoMemory` if there is no memory.
    pub(crate) fn locks_behind(&self, count: usize) -> Result<LockIndex, Refusal>
        requires { count ≤ length self.now }
        ensures index { IfOk result (λ index. IsIndexOf index (drop count self.now)) }
        ensures refusal { IsOkUnless result Refusal.NoMemory }
    {
        LockIndex::of(self.alloc, &self.files[count..])
    }

    /// The index of the locks of a file and of all files but the first `count`. Answers `NoMemory` if there is no
    /// memory.
    fn locks_over(&self, count: usize, file: &SortedFile) -> Result<LockIndex, Refusal>
        requires { count ≤ length self.now }
        ensures index { IfOk result (λ index. IsIndexOf index (file.now ∷ drop count self.now)) }
        ensures refusal { IsOkUnless result Refusal.NoMemory }
    {
        if count == 0 {
            return self.locks.over(file);
        }
        self.locks_behind(count)?.over(file)
    }

    /// The index of the locks of the files with one in the place of `count` from a place on. Answers `NoMemory` if there
    /// is no memory.
    fn locks_with(&self, at: usize, count: usize, file: &SortedFile) -> Result<LockIndex, Refusal>
        requires { at + count ≤ length self.now }
        ensures index { IfOk result (λ index. IsIndexOf index
            (take at self.now ++ file.now ∷ drop (at + count) self.now)) }
        ensures refusal { IsOkUnless result Refusal.NoMemory }
    {
        let mut newer = &self.files[..at];
        let mut index = self.locks_over(at + count, file)?;
        'newer: while let Some((next, rest)) = newer.split_last() {
            index = index.over(next)?;
            newer = rest;
        }
        Ok(index)
    }

    /// Whether the files' merged list may have a value of a column of this kind in the row, at a stamp in `lo..=hi`.
    /// For a lock the index says whether the row may have one. Allocates nothing and reads no file.
    pub(crate) fn may_have(&self, row: &Row, qualifier: Qualifier, lo: Stamp, hi: Stamp) -> bool
        ensures { result ≡ false → HaveNoValue row.now qualifier lo hi self.now }
    {
        match qualifier {
            Qualifier::Lock => self.locks.may_have_row(row),
            Qualifier::Data | Qualifier::Write => self.filter.may_have(qualifier, lo, hi),
        }
    }

    /// Reserves room for one more file of at most `entries` entries. Answers `NoMemory` if there is no memory. The
    /// files are unchanged, also after an `Err`.
    pub(crate) fn reserve(&mut self, entries: usize) -> Result<(), Refusal>
        ensures same { self.new ≡ self.old }
        ensures refusal { IsOkUnless result Refusal.NoMemory }
    {
        self.filter.reserve(&self.files, entries)?;
        self.files.reserve(1)?;
        Ok(())
    }

    /// Replaces the first `count` files with one. Answers `NoMemory` if there is no memory; the files are then
    /// unchanged.
    pub(crate) fn replace_newest(&mut self, count: usize, file: SortedFile) -> Result<(), Refusal>
        requires { count ≤ length self.old }
        ensures ok { OnOk result (self.new ≡ file ∷ drop count self.old) }
        ensures err { OnErr result (self.new ≡ self.old) }
        ensures refusal { IsOkUnless result Refusal.NoMemory }
    {
        let locks = self.locks_over(count, &file)?;
        self.filter.add(&file);
        put_newest(&mut self.files, count, file)?;
        self.locks = locks;
        Ok(())
    }

    /// Replaces `count` files from a place on, one at least, with one. Answers `NoMemory` if there is no memory; the files
    /// are then unchanged.
    pub(crate) fn replace_run(
        &mut self,
        at: usize,
        count: usize,
        file: SortedFile,
    ) -> Result<(), Refusal>
        requires some { 1 ≤ count }
        requires within { at + count ≤ length self.old }
        ensures ok { OnOk result (self.new
            ≡ take at self.old ++ file ∷ drop (at + count) self.old) }
        ensures err { OnErr result (self.new ≡ self.old) }
        ensures refusal { IsOkUnless result Refusal.NoMemory }
    {
        let locks = self.locks_with(at, count, &file)?;
        self.filter.add(&file);
        put_run(&mut self.files, at, count, file);
        self.locks = locks;
        Ok(())
    }

    /// The latest stamp, from `lo` up to the key's, at which the files may have a value of a lock's column: their merged
    /// list has no later one. Allocates nothing and reads no file.
    pub(crate) fn latest_lock(&self, key: &LookupKey, lo: Stamp) -> Option<Stamp>
        ensures none { key.now.qualifier ≡ Lock → (m : Contents)
            → AllByRecursion (IsOpen m) self.now
            → HasNoLater key.now lo result (map (listed m) self.now) }
        ensures within { IfSome result (λ stamp. (lo ≤ stamp) × (stamp ≤ key.now.stamp)) }
    {
        self.locks.latest(key, lo)
    }

    /// The newest entry of the key's column in the files, at a stamp from `lo` to the key's: its stamp, and its value or
    /// `None` for an erasure. Where several files have an entry at this stamp, the newest of them decides. No file is
    /// asked if the filter rules out such an entry. The files are unchanged.
    pub(crate) fn newest<F: Files>(
        &mut self,
        key: &LookupKey,
        lo: Stamp,
        store: &mut F,
    ) -> Result<Option<(Stamp, Option<Vec<u8>>)>, Refusal>
        requires { key.now.stamp < 2 ^ 63 }
        ensures found { IfOk result (λ found. IfSome (F.contents store.old) (λ m.
            AllByRecursion (IsOpen m) self.old → IsNewestEntry (merged (map (listed m) self.old))
            key.now lo (option_map found_bytes found))) }
        ensures within { IfOk result (λ found.
            IfSome found (λ entry. (lo ≤ entry.0) × (entry.0 ≤ key.now.stamp))) }
        ensures short { IfOk result (λ found. IfSome found (λ entry. IsShortValue entry.1)) }
        ensures stay { AllZip (IsSameFile (F.contents store.old)) self.old self.new }
        ensures damaged { IsErrOf result Refusal.Damaged → IfSome (F.contents store.old)
            (λ m. ¬ AllByRecursion (IsOpen m) self.old) }
        ensures reads { ReadsFiles F.contents F.faults store.old store.new result }
    {
        stays_covered();
        stays_indexed();
        if !self.filter.may_have_from(key, lo) {
            return Ok(None);
        }
        newest(&mut self.files, key, lo, store)
    }

    /// Empties the caches of the files. The files are unchanged. Allocates nothing.
    pub(crate) fn drop_caches(&mut self)
        ensures { (disk : Option Contents) → AllZip (IsSameFile disk) self.old self.new }
    {
        stays_covered();
        stays_indexed();
        drop_each(&mut self.files);
    }

    /// Sets how many blocks each file caches at most. The files are otherwise unchanged.
    pub(crate) fn resize_caches(&mut self, most_blocks: NonZeroUsize)
        ensures { (disk : Option Contents) → AllZip (IsSameFile disk) self.old self.new }
    {
        stays_covered();
        stays_indexed();
        resize_each(&mut self.files, most_blocks);
    }
}
