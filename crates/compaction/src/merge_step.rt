//! One step of a merge that is written in steps.

ghost use Rattle.std.specs.Prelude.{◌≡◌, ◌<◌, ℕ, List, Option, true, false, map, IfErr, IfOk, OnOk, IsErrOf};
ghost use Rattle.std.specs.List.{AllByRecursion};
ghost use Rattle.cell_key.specs.Entries.{Entry, IsEntryList, entries_from, merged};
ghost use Rattle.cell_key.specs.Faults.{HasReason};
ghost use Rattle.sorted_file.specs.Grammar.{FitsIn};
ghost use Rattle.sorted_file.specs.PartialFiles.{CanGoOn, IsUnderWay, IsWhole, keeps_erasures, limit_of, next_of, target_of};
ghost use Rattle.sorted_file.specs.Source.{IsWriteRefusal};
ghost use Rattle.compaction.specs.Ends.{entries_until};
ghost use Rattle.compaction.specs.Merging.{AreAtStart};
ghost use Rattle.compaction.specs.Passing.{MergesBudget, MergesToEnd};
ghost use Rattle.compaction.specs.Writing.{only_written};

use crate::laws::merges_ranges;
use crate::merge::Merge;
use cell_key::{Refusal, merges_lists};
use file_store::Files;
use sorted_file::{LockIndex, PartialFile, Source};

/// Goes on with a file of the merge of sources, newest first, and answers whether there may be more, as
/// `PartialFile::go_on` does. The sources are made for this step: each has the entries of its list from the text on from
/// which the file goes on, perhaps up to an end, and none has been advanced. In each step they stand for the same lists.
/// The step stops once entries of the merge with at least `budget` bytes of texts and values were passed. `over` is the
/// index of the older files' locks. No file changes.
///
/// # Errors
///
/// `FileTooLarge` if the file would have more bytes than its limit, `Damaged` if a source is damaged or the entries are
/// no entry list, `Device` if a device fails, and `NoMemory` if there is no memory. After an `Err` the file can only be
/// given up.
pub fn merge_on<F: Files, S: Source<F> + Drop>(
    file: &mut PartialFile<F::Writing>,
    sources: Vec<S>,
    budget: usize,
    over: &LockIndex,
    files: &mut F,
) -> Result<bool, Refusal>
    requires some { 0 < budget }
    requires able { CanGoOn F.has F.writes_to file.old }
    ensures able { OnOk result (CanGoOn F.has F.writes_to file.new) }
    ensures named { target_of file.new ≡ target_of file.old }
    ensures keep { keeps_erasures file.new ≡ keeps_erasures file.old }
    ensures limit { OnOk result (limit_of file.new ≡ limit_of file.old) }
    ensures step { IfOk result (λ more. more ≡ true → MergesBudget
        (S.steps (F.contents files.old)) S.lent budget sources.items (next_of file.new)) }
    ensures ends { IfOk result (λ more. more ≡ false → MergesToEnd
        (S.steps (F.contents files.old)) S.lent budget sources.items) }
    ensures goes { IfOk result (λ more. more ≡ true
        → (lists : List (List Entry)) (end : Option (List ℕ))
        → AreAtStart S.lent (S.holds (F.contents files.old)) sources.items
        → map (S.remaining (F.contents files.old)) sources.items
        ≡ map (λ es. entries_until end (entries_from (next_of file.old) es)) lists
        → IsUnderWay (entries_until end (merged lists)) file.old
        → IsUnderWay (entries_until end (merged lists)) file.new) }
    ensures done { IfOk result (λ more. more ≡ false
        → (lists : List (List Entry)) (end : Option (List ℕ))
        → AreAtStart S.lent (S.holds (F.contents files.old)) sources.items
        → map (S.remaining (F.contents files.old)) sources.items
        ≡ map (λ es. entries_until end (entries_from (next_of file.old) es)) lists
        → IsUnderWay (entries_until end (merged lists)) file.old
        → IsWhole (entries_until end (merged lists)) file.new) }
    ensures damaged { IsErrOf result Refusal.Damaged
        → (lists : List (List Entry)) (end : Option (List ℕ)) → AllByRecursion IsEntryList lists
        → map (S.remaining (F.contents files.old)) sources.items
        ≡ map (λ es. entries_until end (entries_from (next_of file.old) es)) lists
        → IsUnderWay (entries_until end (merged lists)) file.old
        → ¬ AreAtStart S.lent (S.holds (F.contents files.old)) sources.items }
    ensures large { IsErrOf result Refusal.FileTooLarge
        → (lists : List (List Entry)) (end : Option (List ℕ))
        → AreAtStart S.lent (S.holds (F.contents files.old)) sources.items
        → map (S.remaining (F.contents files.old)) sources.items
        ≡ map (λ es. entries_until end (entries_from (next_of file.old) es)) lists
        → IsUnderWay (entries_until end (merged lists)) file.old
        → ¬ FitsIn (limit_of file.old)
        (only_written (keeps_erasures file.old) (entries_until end (merged lists))) }
    ensures same { F.contents files.new ≡ F.contents files.old }
    ensures refusal { IfErr result IsWriteRefusal }
    ensures reason { HasReason (F.faults files.old) (F.faults files.new) result }
{
    merges_lists();
    merges_ranges();
    let mut merge = Merge::new::<F>(sources)?;
    file.go_on(&mut merge, budget, over, files)
}
