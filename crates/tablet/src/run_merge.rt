//! Merges of a run of a tablet's files that are written in steps. Between two steps the tablet may change.

ghost use Rattle.std.specs.Prelude.{◌≡◌, ◌<◌, ◌≤◌, ◌+◌, ◌^◌, ◌⊎◌, ◌↔◌, true, false, List, None, Some, drop, length, map, nat_lt, take, IfErr, IfOk, IfSome, IsErrOf, IsOkUnless, IsSomeAnd, OnErr, OnOk};
ghost use Rattle.std.specs.List.{AllByRecursion};
ghost use Rattle.std.specs.Option.{option_copied};
ghost use Rattle.cell_key.specs.Entries.{Entry};
ghost use Rattle.cell_key.specs.Faults.{HasReason};
ghost use Rattle.file_store.specs.Store.{Contents, KeepsOthers};
ghost use Rattle.sorted_file.specs.File.{IsOpen, name_of};
ghost use Rattle.sorted_file.specs.Grammar.{FitsIn};
ghost use Rattle.sorted_file.specs.Limits.{IsFileLimit};
ghost use Rattle.sorted_file.specs.PartialFiles.{CanGoOn, IsWhole, keeps_erasures, limit_of, target_of};
ghost use Rattle.sorted_file.specs.Source.{IsFaultRefusal};
ghost use Rattle.sorted_file.specs.Written.{only_written};
ghost use Rattle.tablet.specs.Compactions.{IsMergeRefusal, IsNewFile, TakesName};
ghost use Rattle.tablet.specs.RunMerges.{BeginsWith, CanStandAt, IsAllOf, IsBeginRefusal, IsEndRefusal, IsPartOf, IsRunAt, KeepsCells, ReplacesRun, keeps_of, sources_of, written_to};
ghost use Rattle.tablet.specs.Views.{files_of, names_of, range_of, IsUnchanged};

use crate::compactions::take_name;
use crate::scan::later;
use crate::sources::{fences, sources};
use crate::tablet::Tablet;
use cell_key::Refusal;
use compaction::{merge_on, merges_ranges, names_first};
use file_store::Files;
use memtable::Memtable;
use sorted_file::{PartialFile, SortedFile, one_listing, stays_open, written_is_listed};
use std::alloc::Global;
use std::num::NonZeroUsize;

/// A merge of files that stand one behind the other in a tablet, as a file that is written in steps.
#[derive(Drop)]
pub struct RunMerge<W> {
    /// The names of the files, the newest first.
    names: Vec<u64>,
    keep_erasures: bool,
    file: PartialFile<W>,
}

impl<W: Drop> RunMerge<W> {
    /// Gives the merge up. No file changes.
    pub fn give_up<F: Files<Writing = W>>(self, files: &mut F)
        ensures same { F.contents files.new ≡ F.contents files.old }
        ensures told { F.faults files.new ≡ F.faults files.old }
    {
        self.file.give_up(files);
    }

    /// The names of the files that are merged, the newest first. Allocates nothing.
    pub fn sources(&self) -> &[u64]
        ensures { result.now ≡ sources_of self.now }
    {
        &self.names
    }
}

/// The names of files. Answers `NoMemory` if there is no memory.
fn names_of(alloc: Global, files: &[SortedFile]) -> Result<Vec<u64>, Refusal>
    ensures names { IfOk result (λ names. names.items ≡ map name_of files.now) }
    ensures refusal { IsOkUnless result Refusal.NoMemory }
{
    let mut names = Vec::new(alloc);
    for file in files {
        names.push(file.name())?;
    }
    Ok(names)
}

/// Puts a file of all entries of a merge in its place, with `most_blocks` cached blocks at most.
fn finish_file<F: Files>(
    file: PartialFile<F::Writing>,
    most_blocks: NonZeroUsize,
    files: &mut F,
) -> Result<SortedFile, Refusal>
    requires able { CanGoOn F.has F.writes_to file }
    ensures named { IfOk result (λ made. name_of made ≡ target_of file) }
    ensures made { IfOk result (λ made. (whole : List Entry) → IsWhole whole file
        → IfSome (F.contents files.old) (λ m. IsSomeAnd (F.contents files.new) (λ n.
        IsNewFile n made (only_written (keeps_erasures file) whole)))) }
    ensures fits { OnOk result ((whole : List Entry) → IsWhole whole file
        → FitsIn (limit_of file) (only_written (keeps_erasures file) whole)) }
    ensures large { IsErrOf result Refusal.FileTooLarge → (whole : List Entry)
        → IsWhole whole file
        → ¬ FitsIn (limit_of file) (only_written (keeps_erasures file) whole) }
    ensures unfit { IsErrOf result Refusal.FileTooLarge
        → F.contents files.new ≡ F.contents files.old }
    ensures others { KeepsOthers (target_of file) (F.contents files.old) (F.contents files.new) }
    ensures refusal { IfErr result (λ refusal.
        (refusal ≡ Refusal.FileTooLarge) ⊎ IsFaultRefusal refusal) }
    ensures reason { HasReason (F.faults files.old) (F.faults files.new) result }
{
    written_is_listed();
    let mut made = file.finish(files)?;
    made.resize_cache(most_blocks);
    Ok(made)
}

/// Whether files begin with those of these names.
fn begins_with(files: &[SortedFile], names: &[u64]) -> bool
    ensures { result ≡ true → BeginsWith files.now names.now }
{
    let mut files_left = files;
    let mut names_left = names;
    'names: while let Some((name, later_names)) = names_left.split_first() {
        let Some((file, later_files)) = files_left.split_first() else {
            return false;
        };
        if file.name() != *name {
            return false;
        }
        files_left = later_files;
        names_left = later_names;
    }
    true
}

/// The place from which files have these names, one behind the other.
fn place_of(files: &[SortedFile], names: &[u64]) -> Option<usize>
    ensures { IfSome result (IsRunAt files.now names.now) }
{
    for at in 0..files.len() {
        if begins_with(&files[at..], names) {
            return Some(at);
        }
    }
    None
}

impl Tablet {
    /// The place of a merge's files among the tablet's, the newest first, if they still stand there one behind the
    /// other.
    pub fn place_of_merge<W>(&self, merge: &RunMerge<W>) -> Option<usize>
        ensures { IfSome result (IsRunAt (files_of self.now) (sources_of merge.now)) }
    {
        place_of(self.files.as_slice(), &merge.names)
    }

    /// The place at which a merge's file can stand in the stead of its files.
    fn place_to_stand<W>(&self, merge: &RunMerge<W>) -> Option<usize>
        ensures { IfSome result (CanStandAt (files_of self.now) merge.now) }
    {
        let Some(at) = self.place_of_merge(merge) else {
            return None;
        };
        let count = merge.names.len();
        if count < 1 {
            return None;
        }
        if merge.keep_erasures {
            return Some(at);
        }
        if at.saturating_add(count) == self.files.len() {
            return Some(at);
        }
        None
    }

    /// Begins a merge in steps of the newest `count` files, whose file takes the next name. Erasures are kept unless
    /// `count` is all files. The file may have at most `file_limit` bytes. No file changes.
    ///
    /// # Errors
    ///
    /// `BadCount` exactly if `count` is below 2 or above the number of files, `Exhausted` if no name is left, `Device`
    /// and `NoMemory`.
    pub fn begin_merge<F: Files>(
        &self,
        count: u32,
        file_limit: u64,
        next_name: &mut u64,
        files: &mut F,
    ) -> Result<RunMerge<F::Writing>, Refusal>
        requires limit { IsFileLimit file_limit }
        ensures able { IfOk result (λ merge. CanGoOn F.has F.writes_to (written_to merge)) }
        ensures sources { IfOk result (λ merge.
            sources_of merge ≡ take count (names_of self.now)) }
        ensures named { IfOk result (λ merge. target_of (written_to merge) ≡ next_name.old) }
        ensures keep { IfOk result (λ merge.
            keeps_of merge ≡ nat_lt count (length (names_of self.now))) }
        ensures kept { IfOk result (λ merge.
            keeps_erasures (written_to merge) ≡ keeps_of merge) }
        ensures limit { IfOk result (λ merge. limit_of (written_to merge) ≡ file_limit) }
        ensures begun { IfOk result (λ merge. (m : Contents)
            → IsPartOf (range_of self.now) m (files_of self.now) merge) }
        ensures used { OnOk result (next_name.new ≡ next_name.old + 1) }
        ensures left { OnOk result (next_name.old < 2 ^ 63) }
        ensures name { TakesName
            (F.contents files.old) next_name.old (F.contents files.new) next_name.new }
        ensures same { F.contents files.new ≡ F.contents files.old }
        ensures count { IsErrOf result Refusal.BadCount
            ↔ (¬ ((2 ≤ count) × (count ≤ length (names_of self.now)))) }
        ensures exhausted { IsErrOf result Refusal.Exhausted → 2 ^ 63 ≤ next_name.old }
        ensures refusal { IfErr result IsBeginRefusal }
        ensures reason { HasReason (F.faults files.old) (F.faults files.new) result }
    {
        let most = count as usize;
        if most < 2 || most > self.files.len() {
            return Err(Refusal::BadCount);
        }
        let names = names_of(self.alloc, &self.files.as_slice()[..most])?;
        let name = take_name(next_name)?;
        let keep_erasures = most < self.files.len();
        let file = PartialFile::begin(self.alloc, name, keep_erasures, file_limit, files)?;
        Ok(RunMerge {
            names,
            keep_erasures,
            file,
        })
    }

    /// Ends a merge that has no more entries: its file takes the place of its files, which may have newer ones before
    /// them. The range must be the one of its steps. The merge is given up on `BadCount`.
    ///
    /// # Errors
    ///
    /// `BadCount` if the files don't stand in the tablet one behind the other any more, or have older ones behind them
    /// although erasures were dropped; then no file has changed. `FileTooLarge`, `Device` and `NoMemory`. The tablet is
    /// then unchanged, and a file may be left under the merge's name.
    pub fn end_merge<F: Files>(
        &mut self,
        merge: RunMerge<F::Writing>,
        files: &mut F,
    ) -> Result<(), Refusal>
        requires able { CanGoOn F.has F.writes_to (written_to merge) }
        requires kept { keeps_erasures (written_to merge) ≡ keeps_of merge }
        ensures made { OnOk result (ReplacesRun
            (F.contents files.old) (F.contents files.new) merge self.old self.new) }
        ensures keeps { KeepsCells
            (F.contents files.old) (F.contents files.new) merge self.old self.new }
        ensures range { range_of self.new ≡ range_of self.old }
        ensures err { OnErr result (IsUnchanged self.old self.new) }
        ensures others { KeepsOthers (target_of (written_to merge))
            (F.contents files.old) (F.contents files.new) }
        ensures gone { IsErrOf result Refusal.BadCount
            → F.contents files.new ≡ F.contents files.old }
        ensures large { IsErrOf result Refusal.FileTooLarge
            → (F.contents files.new ≡ F.contents files.old)
            × ((whole : List Entry) → IsWhole whole (written_to merge)
            → ¬ FitsIn (limit_of (written_to merge)) (only_written (keeps_of merge) whole)) }
        ensures refusal { IfErr result IsEndRefusal }
        ensures reason { HasReason (F.faults files.old) (F.faults files.new) result }
    {
        stays_open();
        one_listing();
        names_first();
        let Some(at) = self.place_to_stand(&merge) else {
            merge.give_up(files);
            return Err(Refusal::BadCount);
        };
        let RunMerge { names, file, .. } = merge;
        let made = finish_file(file, self.most_blocks, files)?;
        self.files.replace_run(at, names.len(), made)?;
        Ok(())
    }

    /// No memtable, and this many files from a place on.
    fn run(&self, at: usize, count: usize) -> (Option<&Memtable>, &[SortedFile])
        requires { at + count ≤ length (files_of self.now) }
        ensures memory { option_copied result.0 ≡ None }
        ensures files { result.1.now ≡ take count (drop at (files_of self.now)) }
    {
        (None, &self.files.as_slice()[at..][..count])
    }

    /// Goes on with a merge of a run of the tablet's files, only keys of the range, and answers whether there may be
    /// more. It stops once entries of the merge with at least `budget` bytes of texts and values were passed. The
    /// tablet and its files are unchanged.
    ///
    /// # Errors
    ///
    /// `BadCount` if the files don't stand in the tablet one behind the other any more, `FileTooLarge`, `Device`,
    /// `NoMemory`, and `Damaged` only if one of these files has changed since it was opened. After an `Err` the merge
    /// can only be given up.
    pub fn merge_step<F: Files>(
        &self,
        merge: &mut RunMerge<F::Writing>,
        budget: usize,
        files: &mut F,
    ) -> Result<bool, Refusal>
        requires some { 0 < budget }
        requires able { CanGoOn F.has F.writes_to (written_to merge.old) }
        ensures able { OnOk result (CanGoOn F.has F.writes_to (written_to merge.new)) }
        ensures sources { sources_of merge.new ≡ sources_of merge.old }
        ensures named { target_of (written_to merge.new) ≡ target_of (written_to merge.old) }
        ensures keep { keeps_erasures (written_to merge.new)
            ≡ keeps_erasures (written_to merge.old) }
        ensures limit { OnOk result (limit_of (written_to merge.new)
            ≡ limit_of (written_to merge.old)) }
        ensures kept { keeps_of merge.new ≡ keeps_of merge.old }
        ensures goes { IfOk result (λ more. more ≡ true → IfSome (F.contents files.old) (λ m.
            AllByRecursion (IsOpen m) (files_of self.now)
            → IsPartOf (range_of self.now) m (files_of self.now) merge.old
            → IsPartOf (range_of self.now) m (files_of self.now) merge.new)) }
        ensures done { IfOk result (λ more. more ≡ false → IfSome (F.contents files.old) (λ m.
            AllByRecursion (IsOpen m) (files_of self.now)
            → IsPartOf (range_of self.now) m (files_of self.now) merge.old
            → IsAllOf (range_of self.now) m (files_of self.now) merge.new)) }
        ensures same { F.contents files.new ≡ F.contents files.old }
        ensures refusal { IfErr result IsMergeRefusal }
        ensures reason { HasReason (F.faults files.old) (F.faults files.new) result }
    {
        merges_ranges();
        one_listing();
        let Some(at) = self.place_of_merge(merge) else {
            return Err(Refusal::BadCount);
        };
        let (low, end) = fences(self.alloc, &self.range)?;
        let next = Vec::from_slice(self.alloc, merge.file.next())?;
        let (memtable, run) = self.run(at, merge.names.len());
        let from = later(&low, &next);
        let sources = sources::<F>(self.alloc, memtable, run, from, end.as_deref())?;
        let older = self
            .files
            .locks_behind(at.saturating_add(merge.names.len()))?;
        merge_on(&mut merge.file, sources, budget, &older, files)
    }
}
