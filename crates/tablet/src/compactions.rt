//! Compactions (Bigtable, tablet serving): several sources are merged into one file. The tablet changes last. Room for
//! the file in its list is reserved before the file is written, unless it replaces others, and the file is open once it
//! is written. After that only the new index of locks may be refused, with `NoMemory`; the tablet is then unchanged and
//! the file is left over. Calls of lemmas of lower crates, like `stays_open()`, do nothing at run time; the contracts
//! here rest on them.

ghost use Rattle.std.specs.Prelude.{◌≡◌, ◌≢◌, ◌≤◌, ◌<◌, ◌+◌, ◌^◌, ◌⊎◌, [], Option, Some, length, map, take, false, nat_lt, option_map, IfOk, IfErr, OnOk, OnErr, IfSome, IsNone, IsOk, IsSomeAnd, IsErrOf, IsOkUnless};
ghost use Rattle.std.specs.Option.{option_copied};
ghost use Rattle.std.specs.List.{AllByRecursion};
ghost use Rattle.file_store.specs.Store.{Contents};
ghost use Rattle.sorted_file.specs.Source.{ComesToEnd};
ghost use Rattle.sorted_file.specs.Grammar.{FitsIn};
ghost use Rattle.sorted_file.specs.Limits.{IsFileLimit};
ghost use Rattle.sorted_file.specs.File.{listed, name_of};
ghost use Rattle.cell_key.specs.Faults.{HasReason};
ghost use Rattle.compaction.specs.Merging.{AreAtStart};
ghost use Rattle.compaction.specs.Passing.{MergeBreaks, MergesNoList, MergesTooMuch};
ghost use Rattle.compaction.specs.Writing.{written};
ghost use Rattle.tablet.specs.Ranges.{seen};
ghost use Rattle.tablet.specs.Sources.{IsOpenIn, listed_in, lists_over};
ghost use Rattle.tablet.specs.Views.{range_of, memory_of, files_of, names_of, IsUnchanged, Keeps};
ghost use Rattle.tablet.specs.declared.compactions.Compaction.TheVariants.{Minor, Merge, Major};
ghost use Rattle.tablet.specs.Compactions.{compacted, compacted_of, inputs_of, keeps_erasures, memory_read, Compacts, Flushes, HasAsMany, files_read, IsCompactionRefusal, IsMergeRefusal, IsMinorRefusal, IsNewFile, IsRefusedFirst, IsUnreadable, IsUntouched, NeedsTooManyFiles, ReadsOpen, ReadsThrough, ReadsTooMuch, Replaces, TakesName, WritesNext};

use crate::sources::{fences, sources};
use crate::tablet::Tablet;
use cell_key::Refusal;
use compaction::{keeps_one_list, merge_into, names_first};
use file_store::Files;
use memtable::Memtable;
use sorted_file::{LockIndex, SortedFile, Source, stays_open, written_is_listed};
use std::alloc::Global;
use std::num::NonZeroUsize;

/// The greatest name of a file.
const MOST_NAME: u64 = 9_223_372_036_854_775_807;

/// The sources that a compaction writes as one file.
#[derive(Clone, Copy)]
pub enum Compaction {
    /// The memtable.
    Minor,
    /// This many of the newest files.
    Merge(u32),
    /// The memtable and all files.
    Major,
}

/// Takes the next file name, which is never used again.
pub(crate) fn take_name(next_name: &mut u64) -> Result<u64, Refusal>
    ensures name { IfOk result (λ name. name ≡ next_name.old) }
    ensures used { OnOk result (next_name.new ≡ next_name.old + 1) }
    ensures left { OnOk result (next_name.old < 2 ^ 63) }
    ensures err { OnErr result (next_name.new ≡ next_name.old) }
    ensures refusal { IfErr result (λ refusal. refusal ≡ Refusal.Exhausted) }
    ensures exhausted { OnErr result (2 ^ 63 ≤ next_name.old) }
{
    let name = *next_name;
    if name > MOST_NAME {
        return Err(Refusal::Exhausted);
    }
    *next_name += 1;
    Ok(name)
}

/// Writes the merged list of the sources as a file of the next name, opened at once, with `most_blocks` cached blocks
/// at most, over the index of the locks of older files.
fn write_new<F: Files, S: Source<F> + Drop>(
    alloc: Global,
    sources: Vec<S>,
    keep_erasures: bool,
    file_limit: u64,
    most_blocks: NonZeroUsize,
    over: &LockIndex,
    next_name: &mut u64,
    files: &mut F,
) -> Result<SortedFile, Refusal>
    requires limit { IsFileLimit file_limit }
    ensures named { IfOk result (λ file. name_of file ≡ next_name.old) }
    ensures made { IfOk result (λ file. IfSome (F.contents files.old) (λ m.
        AreAtStart S.lent (S.holds (Some m)) sources.items → IsSomeAnd (F.contents files.new) (λ n.
        IsNewFile n file (written keep_erasures (map (S.remaining (Some m)) sources.items))))) }
    ensures wrote { OnOk result (WritesNext
        (F.contents files.old) next_name.old (F.contents files.new) next_name.new) }
    ensures comes { OnOk result (AllByRecursion
        (ComesToEnd (S.steps (F.contents files.old)) S.lent) sources.items) }
    ensures name { TakesName
        (F.contents files.old) next_name.old (F.contents files.new) next_name.new }
    ensures exhausted { IsErrOf result Refusal.Exhausted → 2 ^ 63 ≤ next_name.old }
    ensures large { IsErrOf result Refusal.FileTooLarge
        → AreAtStart S.lent (S.holds (F.contents files.old)) sources.items → ¬ FitsIn file_limit
        (written keep_erasures (map (S.remaining (F.contents files.old)) sources.items)) }
    ensures fits { OnOk result (AreAtStart S.lent (S.holds (F.contents files.old)) sources.items
        → FitsIn file_limit
        (written keep_erasures (map (S.remaining (F.contents files.old)) sources.items))) }
    ensures too_much { IsErrOf result Refusal.FileTooLarge → MergesTooMuch
        (S.steps (F.contents files.old)) S.lent keep_erasures file_limit sources.items }
    ensures damaged { IsErrOf result Refusal.Damaged → IfSome (F.contents files.old) (λ m.
        ¬ AreAtStart S.lent (S.holds (Some m)) sources.items) }
    ensures broken { IsErrOf result Refusal.Damaged → IfSome (F.contents files.old) (λ m.
        MergeBreaks (S.steps (Some m)) S.lent (S.breaks (Some m)) sources.items
        ⊎ MergesNoList (S.steps (Some m)) S.lent keep_erasures sources.items) }
    ensures refusal { IfErr result IsCompactionRefusal }
    ensures reason { HasReason (F.faults files.old) (F.faults files.new) result }
{
    written_is_listed();
    let name = take_name(next_name)?;
    let mut file = merge_into(alloc, sources, keep_erasures, name, file_limit, over, files)?;
    file.resize_cache(most_blocks);
    Ok(file)
}

impl Tablet {
    /// The sources of a compaction: the memtable, if it is one of them, and the files.
    fn inputs(&self, compaction: Compaction) -> (Option<&Memtable>, &[SortedFile])
        requires { HasAsMany compaction (length (files_of self.now)) }
        ensures lists { (disk : Option Contents)
            → lists_over disk (option_copied result.0) result.1.now
            ≡ inputs_of compaction (memory_of self.now) (map (listed_in disk) (files_of self.now)) }
        ensures open { (disk : Option Contents) → ReadsOpen compaction disk self.now
            → AllByRecursion (IsOpenIn disk) result.1.now }
        ensures files { result.1.now ≡ files_read compaction (files_of self.now) }
        ensures memory { option_copied result.0 ≡ memory_read compaction (memory_of self.now) }
    {
        match compaction {
            Compaction::Minor => (Some(&self.memtable), &[]),
            Compaction::Merge(count) => (None, &self.files.as_slice()[..count as usize]),
            Compaction::Major => (Some(&self.memtable), self.files.as_slice()),
        }
    }

    /// Whether a compaction keeps erasures.
    fn keeps_erasures(&self, compaction: Compaction) -> bool
        ensures { result ≡ keeps_erasures compaction (length (files_of self.now)) }
    {
        match compaction {
            Compaction::Minor => true,
            Compaction::Merge(count) => (count as usize) < self.files.len(),
            Compaction::Major => false,
        }
    }

    /// The index of the locks of the files older than those that a compaction replaces; `None` for a minor one, which
    /// replaces none. Answers `NoMemory` if there is no memory.
    fn older_locks(&self, compaction: Compaction) -> Result<Option<LockIndex>, Refusal>
        requires { HasAsMany compaction (length (files_of self.now)) }
        ensures { IsOkUnless result Refusal.NoMemory }
    {
        match compaction {
            Compaction::Minor => Ok(None),
            Compaction::Merge(count) => Ok(Some(self.files.locks_behind(count as usize)?)),
            Compaction::Major => Ok(Some(LockIndex::new(self.alloc))),
        }
    }

    /// Writes the file of a compaction under the next name, opened at once. Only keys of the tablet's range are
    /// written.
    fn write<F: Files>(
        &self,
        compaction: Compaction,
        file_limit: u64,
        next_name: &mut u64,
        files: &mut F,
    ) -> Result<SortedFile, Refusal>
        requires limit { IsFileLimit file_limit }
        requires within { HasAsMany compaction (length (files_of self.now)) }
        ensures named { IfOk result (λ file. name_of file ≡ next_name.old) }
        ensures made { IfOk result (λ file. IfSome (F.contents files.old) (λ m.
            ReadsOpen compaction (Some m) self.now → IsSomeAnd (F.contents files.new) (λ n.
            IsNewFile n file (compacted_of compaction m self.now)))) }
        ensures read { OnOk result (ReadsThrough compaction (F.contents files.old) self.now) }
        ensures wrote { OnOk result (WritesNext
            (F.contents files.old) next_name.old (F.contents files.new) next_name.new) }
        ensures name { TakesName
            (F.contents files.old) next_name.old (F.contents files.new) next_name.new }
        ensures exhausted { IsErrOf result Refusal.Exhausted → 2 ^ 63 ≤ next_name.old }
        ensures large { IsErrOf result Refusal.FileTooLarge
            → ReadsOpen compaction (F.contents files.old) self.now
            → ¬ FitsIn file_limit (compacted compaction (range_of self.now)
            (memory_of self.now) (map (listed_in (F.contents files.old)) (files_of self.now))) }
        ensures fits { OnOk result (ReadsOpen compaction (F.contents files.old) self.now
            → FitsIn file_limit (compacted compaction (range_of self.now)
            (memory_of self.now) (map (listed_in (F.contents files.old)) (files_of self.now)))) }
        ensures too_much { IsErrOf result Refusal.FileTooLarge
            → ReadsTooMuch compaction file_limit (F.contents files.old) self.now }
        ensures damaged { IsErrOf result Refusal.Damaged → IfSome (F.contents files.old) (λ m.
            ¬ ReadsOpen compaction (Some m) self.now) }
        ensures broken { IsErrOf result Refusal.Damaged → IfSome (F.contents files.old) (λ m.
            IsUnreadable compaction (Some m) self.now) }
        ensures refusal { IfErr result IsCompactionRefusal }
        ensures reason { HasReason (F.faults files.old) (F.faults files.new) result }
    {
        let (from, end) = fences(self.alloc, &self.range)?;
        let (memtable, old) = self.inputs(compaction);
        let sources = sources::<F>(self.alloc, memtable, old, &from, end.as_deref())?;
        let keep_erasures = self.keeps_erasures(compaction);
        let older = self.older_locks(compaction)?;
        let over = older.as_ref().unwrap_or(self.files.locks());
        write_new(
            self.alloc,
            sources,
            keep_erasures,
            file_limit,
            self.most_blocks,
            over,
            next_name,
            files,
        )
    }

    /// Writes the memtable, only keys of the range, as a new file (Bigtable, minor compaction), and empties it. If it
    /// is empty, the call does nothing and succeeds.
    ///
    /// # Errors
    ///
    /// `TooManyFiles` if there are already 64 files, `FileTooLarge`, `Exhausted` if no name is left, `Device` and
    /// `NoMemory`. No file of the tablet is read; `Damaged` comes only from a store that does not keep the bytes it is
    /// given. An error comes only if the memtable has entries, and leaves the tablet unchanged.
    pub fn minor<F: Files>(
        &mut self,
        file_limit: u64,
        next_name: &mut u64,
        files: &mut F,
    ) -> Result<(), Refusal>
        requires limit { IsFileLimit file_limit }
        ensures flushed { OnOk result (Flushes file_limit (F.contents files.old)
            next_name.old (F.contents files.new) next_name.new self.old self.new) }
        ensures lists { OnOk result (Compacts
            Minor (F.contents files.old) next_name.old (F.contents files.new) self.old self.new) }
        ensures keeps { Keeps (F.contents files.old)
            next_name.old self.old (F.contents files.new) next_name.new self.new }
        ensures empty { memory_of self.old ≡ [] → IsOk result × IsUntouched (F.contents files.old)
            next_name.old (F.contents files.new) next_name.new self.old self.new }
        ensures range { range_of self.new ≡ range_of self.old }
        ensures err { OnErr result (IsUnchanged self.old self.new) }
        ensures name { TakesName
            (F.contents files.old) next_name.old (F.contents files.new) next_name.new }
        // With 64 files it is refused before a file is written, whatever else may fail.
        ensures full { IsRefusedFirst result Refusal.TooManyFiles (NeedsTooManyFiles self.old)
            (F.contents files.old) next_name.old (F.contents files.new) next_name.new
            self.old self.new }
        ensures exhausted { IsErrOf result Refusal.Exhausted
            → (memory_of self.old ≢ []) × (2 ^ 63 ≤ next_name.old) }
        ensures large { IsErrOf result Refusal.FileTooLarge → (memory_of self.old ≢ [])
            × ¬ FitsIn file_limit (seen (range_of self.old) (memory_of self.old)) }
        ensures too_much { IsErrOf result Refusal.FileTooLarge
            → ReadsTooMuch Minor file_limit (F.contents files.old) self.old }
        ensures damaged { IsErrOf result Refusal.Damaged → IsNone (F.contents files.old) }
        ensures refusal { IfErr result IsMinorRefusal }
        ensures reason { HasReason (F.faults files.old) (F.faults files.new) result }
    {
        stays_open();
        keeps_one_list();
        if self.memtable.is_empty() {
            return Ok(());
        }
        if self.files.len() >= Tablet::MOST_FILES {
            return Err(Refusal::TooManyFiles);
        }
        self.files.reserve(self.memtable.len())?;
        let file = self.write(Compaction::Minor, file_limit, next_name, files)?;
        self.files.replace_newest(0, file)?;
        self.memtable = Memtable::new(self.alloc);
        Ok(())
    }

    /// Merges the newest `count` files into one that replaces them (Bigtable, merging compaction), only keys of the
    /// range. Erasures are kept unless `count` is all files.
    ///
    /// # Errors
    ///
    /// `BadCount` exactly if `count` is below 2 or above the number of files, `FileTooLarge`, `Exhausted` if no name is
    /// left, `Device`, `NoMemory`, and `Damaged` only if one of these files has changed since it was opened: it can't
    /// be read further, or its entries are out of order. The tablet is then unchanged.
    pub fn merge<F: Files>(
        &mut self,
        count: u32,
        file_limit: u64,
        next_name: &mut u64,
        files: &mut F,
    ) -> Result<(), Refusal>
        requires limit { IsFileLimit file_limit }
        ensures made { OnOk result (Replaces (Merge count) file_limit (F.contents files.old)
            next_name.old (F.contents files.new) next_name.new self.old self.new) }
        ensures lists { OnOk result (Compacts (Merge count)
            (F.contents files.old) next_name.old (F.contents files.new) self.old self.new) }
        ensures keeps { Keeps (F.contents files.old)
            next_name.old self.old (F.contents files.new) next_name.new self.new }
        ensures range { range_of self.new ≡ range_of self.old }
        ensures err { OnErr result (IsUnchanged self.old self.new) }
        ensures name { TakesName
            (F.contents files.old) next_name.old (F.contents files.new) next_name.new }
        ensures count { IsRefusedFirst result Refusal.BadCount
            (¬ ((2 ≤ count) × (count ≤ length (names_of self.old))))
            (F.contents files.old) next_name.old (F.contents files.new) next_name.new
            self.old self.new }
        ensures exhausted { IsErrOf result Refusal.Exhausted → 2 ^ 63 ≤ next_name.old }
        ensures large { IsErrOf result Refusal.FileTooLarge
            → IfSome (F.contents files.old) (λ m. ReadsOpen (Merge count) (Some m) self.old
            → ¬ FitsIn file_limit (compacted_of (Merge count) m self.old)) }
        ensures too_much { IsErrOf result Refusal.FileTooLarge
            → ReadsTooMuch (Merge count) file_limit (F.contents files.old) self.old }
        ensures damaged { IsErrOf result Refusal.Damaged → IfSome (F.contents files.old) (λ m.
            ¬ ReadsOpen (Merge count) (Some m) self.old) }
        ensures broken { IsErrOf result Refusal.Damaged → IfSome (F.contents files.old) (λ m.
            IsUnreadable (Merge count) (Some m) self.old) }
        ensures refusal { IfErr result IsMergeRefusal }
        ensures reason { HasReason (F.faults files.old) (F.faults files.new) result }
    {
        stays_open();
        names_first();
        let compaction = Compaction::Merge(count);
        let count = count as usize;
        if count < 2 || count > self.files.len() {
            return Err(Refusal::BadCount);
        }
        let file = self.write(compaction, file_limit, next_name, files)?;
        self.files.replace_newest(count, file)?;
        Ok(())
    }

    /// Writes the memtable and all files, only keys of the range, as exactly one file without erasures (Bigtable, major
    /// compaction), even if there is nothing to write, and empties the memtable.
    ///
    /// # Errors
    ///
    /// `FileTooLarge`, `Exhausted` if no name is left, `Device`, `NoMemory`, and `Damaged` only if a file has changed
    /// since it was opened: it can't be read further, or its entries are out of order. The tablet is then unchanged.
    pub fn major<F: Files>(
        &mut self,
        file_limit: u64,
        next_name: &mut u64,
        files: &mut F,
    ) -> Result<(), Refusal>
        requires limit { IsFileLimit file_limit }
        ensures made { OnOk result (Replaces Major file_limit (F.contents files.old)
            next_name.old (F.contents files.new) next_name.new self.old self.new) }
        ensures lists { OnOk result (Compacts
            Major (F.contents files.old) next_name.old (F.contents files.new) self.old self.new) }
        ensures keeps { Keeps (F.contents files.old)
            next_name.old self.old (F.contents files.new) next_name.new self.new }
        ensures range { range_of self.new ≡ range_of self.old }
        ensures err { OnErr result (IsUnchanged self.old self.new) }
        ensures name { TakesName
            (F.contents files.old) next_name.old (F.contents files.new) next_name.new }
        ensures exhausted { IsErrOf result Refusal.Exhausted → 2 ^ 63 ≤ next_name.old }
        ensures large { IsErrOf result Refusal.FileTooLarge
            → IfSome (F.contents files.old) (λ m. ReadsOpen Major (Some m) self.old
            → ¬ FitsIn file_limit (compacted_of Major m self.old)) }
        ensures too_much { IsErrOf result Refusal.FileTooLarge
            → ReadsTooMuch Major file_limit (F.contents files.old) self.old }
        ensures damaged { IsErrOf result Refusal.Damaged → IfSome (F.contents files.old) (λ m.
            ¬ ReadsOpen Major (Some m) self.old) }
        ensures broken { IsErrOf result Refusal.Damaged → IfSome (F.contents files.old) (λ m.
            IsUnreadable Major (Some m) self.old) }
        ensures refusal { IfErr result IsCompactionRefusal }
        ensures reason { HasReason (F.faults files.old) (F.faults files.new) result }
    {
        stays_open();
        names_first();
        self.files.reserve(self.memtable.len())?;
        let file = self.write(Compaction::Major, file_limit, next_name, files)?;
        self.files.replace_newest(self.files.len(), file)?;
        self.memtable = Memtable::new(self.alloc);
        Ok(())
    }
}
