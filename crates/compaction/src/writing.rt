//! Merging several sources into one file.

ghost use Rattle.std.specs.Prelude.{◌≡◌, ◌≤◌, ◌⊎◌, ℕ, List, length, map, IfErr, IfOk, IfSome, OnOk, OnErr, IsErrOf};
ghost use Rattle.std.specs.List.{AllByRecursion};
ghost use Rattle.file_store.specs.Store.{KeepsOthers, with_file};
ghost use Rattle.sorted_file.specs.File.{IsOpen, name_of};
ghost use Rattle.sorted_file.specs.Grammar.{IsFile, FitsIn};
ghost use Rattle.sorted_file.specs.Limits.{IsFileLimit};
ghost use Rattle.sorted_file.specs.Source.{ComesToEnd, IsWriteRefusal, StaysIfUnfit};
ghost use Rattle.sorted_file.specs.declared.format.Format.TheVariants.{Two};
ghost use Rattle.cell_key.specs.Faults.{HasReason};
ghost use Rattle.compaction.specs.Merging.{AreAtStart};
ghost use Rattle.compaction.specs.Passing.{IsFileOfMerge, MergeBreaks, MergesNoList, MergesTooMuch};
ghost use Rattle.compaction.specs.Writing.{written};

use crate::merge::Merge;
use crate::values::Values;
use cell_key::Refusal;
use file_store::Files;
use sorted_file::{LockIndex, SortedFile, Source, write_file};
use std::alloc::Global;

/// Writes the merge of sources, newest first, as a file, which replaces a file of this name (Bigtable, tablet serving:
/// minor and merging compactions keep erasures; a major compaction rewrites all files and need not), and returns it
/// open without reading any of it, as `write_file` does. None of the sources has been advanced. Without `keep_erasures`
/// only values are written. No sources give a file without entries. `over` is the index of the older files' locks.
///
/// # Errors
///
/// `FileTooLarge` if the file would have more than `file_limit` bytes, `Damaged` if a source is damaged or the entries
/// to be written are no entry list, `Device` if a device fails, and `NoMemory` if there is no memory. No file changes
/// until the whole file is in memory. After an `Err` of the write itself any bytes may be under this name. No other
/// file changes.
pub fn merge_into<F: Files, S: Source<F> + Drop>(
    alloc: Global,
    sources: Vec<S>,
    keep_erasures: bool,
    name: u64,
    file_limit: u64,
    over: &LockIndex,
    files: &mut F,
) -> Result<SortedFile, Refusal>
    requires limit { IsFileLimit file_limit }
    ensures opened { IfOk result (λ file. IfSome (F.contents files.new) (λ m. IsOpen m file)) }
    ensures named { IfOk result (λ file. name_of file ≡ name) }
    ensures sized { IfOk result (λ file. file.cache.cap ≡ 8) }
    ensures written { OnOk result ((image : List ℕ)
        × ((F.contents files.new ≡ with_file name image (F.contents files.old))
        × (length image ≤ file_limit)
        × (AreAtStart S.lent (S.holds (F.contents files.old)) sources.items → IsFile Two
        (written keep_erasures (map (S.remaining (F.contents files.old)) sources.items)) image))) }
    ensures whole { OnOk result ((image : List ℕ)
        × (F.contents files.new ≡ with_file name image (F.contents files.old))
        × IsFileOfMerge
        (S.steps (F.contents files.old)) S.lent keep_erasures sources.items image) }
    ensures comes { OnOk result (AllByRecursion
        (ComesToEnd (S.steps (F.contents files.old)) S.lent) sources.items) }
    ensures large { IsErrOf result Refusal.FileTooLarge
        → AreAtStart S.lent (S.holds (F.contents files.old)) sources.items → ¬ FitsIn file_limit
        (written keep_erasures (map (S.remaining (F.contents files.old)) sources.items)) }
    ensures damaged { IsErrOf result Refusal.Damaged
        → ¬ AreAtStart S.lent (S.holds (F.contents files.old)) sources.items }
    ensures too_much { IsErrOf result Refusal.FileTooLarge → MergesTooMuch
        (S.steps (F.contents files.old)) S.lent keep_erasures file_limit sources.items }
    ensures broken { IsErrOf result Refusal.Damaged → MergeBreaks (S.steps (F.contents files.old))
        S.lent (S.breaks (F.contents files.old)) sources.items
        ⊎ MergesNoList (S.steps (F.contents files.old)) S.lent keep_erasures sources.items }
    ensures unfit { StaysIfUnfit (F.contents files.old) (F.contents files.new) result }
    ensures others { OnErr result (KeepsOthers name (F.contents files.old) (F.contents files.new)) }
    ensures refusal { IfErr result IsWriteRefusal }
    ensures reason { HasReason (F.faults files.old) (F.faults files.new) result }
{
    let merge = Merge::new::<F>(sources)?;
    let mut values = Values::new(merge, keep_erasures);
    write_file(alloc, &mut values, name, file_limit, over, files)
}
