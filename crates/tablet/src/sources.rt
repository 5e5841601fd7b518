//! The sources of a tablet's reads: its memtable and its files, each cut to a range of key texts.

ghost use Rattle.std.specs.Prelude.{◌≡◌, [], map, Option, option_map, IfOk, IsOkUnless};
ghost use Rattle.std.specs.Option.{option_copied, option_to_list};
ghost use Rattle.std.specs.List.{AllByRecursion};
ghost use Rattle.file_store.specs.Store.{Contents};
ghost use Rattle.cell_key.specs.Entries.{IsEntryList};
ghost use Rattle.compaction.specs.Merging.{AreAtStart};
ghost use Rattle.tablet.specs.Ranges.{lower_fence, upper_fence};
ghost use Rattle.tablet.specs.Sources.{entries_between, listed_in, lists_over, AreSourcesOf, HasSource, IsAtStart, IsMemorySource, IsOpenIn, IsSourceOf, remaining_of};

use crate::ranges::RowRange;
use cell_key::{Refusal, Row};
use compaction::{Bounded, Input};
use file_store::Files;
use memtable::Memtable;
use sorted_file::{SortedFile, Source};
use std::alloc::Global;

/// The fences of a range: a lower bound of the key texts of its rows, above the texts of all earlier rows, and an upper
/// bound, if the range has an end. Answers `NoMemory` if there is no memory.
pub(crate) fn fences(alloc: Global, range: &RowRange) -> Result<(Vec<u8>, Option<Vec<u8>>), Refusal>
    ensures from { IfOk result (λ fences. fences.0.items ≡ lower_fence range.now) }
    ensures end { IfOk result (λ fences.
        option_map (λ fence. fence.items) fences.1 ≡ upper_fence range.now) }
    ensures refusal { IsOkUnless result Refusal.NoMemory }
{
    let from = match &range.after {
        Some(row) => row.fence(alloc)?,
        None => Vec::new(alloc),
    };
    let end = match &range.end {
        Some(row) => Some(row.fence(alloc)?),
        None => None,
    };
    Ok((from, end))
}

/// The entries of a memtable from the text `from` on and below `end`.
fn memtable_source<'a>(
    memtable: &'a Memtable,
    from: &[u8],
    end: Option<&'a [u8]>,
) -> Bounded<'a, Input<'a>>
    ensures start { (disk : Option Contents) → IsAtStart disk result }
    ensures list { (disk : Option Contents) → remaining_of disk result
        ≡ entries_between from.now (option_copied end.entry) memtable.now }
    ensures entries { IsEntryList memtable.now }
    ensures of { IsMemorySource from.now (option_copied end.entry) memtable.now result }
{
    Bounded::new(Input::Memtable(memtable.cursor(from)), end)
}

/// The entries of a memtable, if one is given, from the text `from` on and below `end`.
fn memtable_sources<'a>(
    alloc: Global,
    memtable: Option<&'a Memtable>,
    from: &[u8],
    end: Option<&'a [u8]>,
) -> Result<Vec<Bounded<'a, Input<'a>>>, Refusal>
    ensures start { IfOk result (λ sources. (disk : Option Contents)
        → AllByRecursion (IsAtStart disk) sources.items) }
    ensures lists { IfOk result (λ sources. (disk : Option Contents)
        → map (remaining_of disk) sources.items
        ≡ map (entries_between from.now (option_copied end.entry))
        (option_to_list (option_copied memtable.entry))) }
    ensures entries { IfOk result (λ sources.
        AllByRecursion IsEntryList (option_to_list (option_copied memtable.entry))) }
    ensures of { IfOk result (λ sources. AreSourcesOf
        from.now (option_copied end.entry) (option_copied memtable.entry) [] sources.items) }
    ensures refusal { IsOkUnless result Refusal.NoMemory }
{
    let mut sources = Vec::new(alloc);
    if let Some(memtable) = memtable {
        sources.push(memtable_source(memtable, from, end))?;
    }
    Ok(sources)
}

/// The entries of a file from the text `from` on and below `end`.
fn file_source<'a>(
    file: &'a SortedFile,
    from: &'a [u8],
    end: Option<&'a [u8]>,
) -> Bounded<'a, Input<'a>>
    ensures start { (disk : Option Contents) → IsOpenIn disk file.now → IsAtStart disk result }
    ensures list { (disk : Option Contents) → IsOpenIn disk file.now → remaining_of disk result
        ≡ entries_between from.now (option_copied end.entry) (listed_in disk file.now) }
    ensures of { IsSourceOf from.now (option_copied end.entry) file.now result }
{
    Bounded::new(Input::File(file.cursor(from)), end)
}

/// The entries of a memtable, if one is given, and of files, from the text `from` on and below `end`, if one is given:
/// one source each, in this order, at its start. Answers `NoMemory` if there is no memory.
pub(crate) fn sources<'a, F: Files>(
    alloc: Global,
    memtable: Option<&'a Memtable>,
    files: &'a [SortedFile],
    from: &'a [u8],
    end: Option<&'a [u8]>,
) -> Result<Vec<Bounded<'a, Input<'a>>>, Refusal>
    ensures start { IfOk result (λ sources. (disk : Option Contents)
        → AllByRecursion (IsOpenIn disk) files.now
        → AreAtStart ⟦<Bounded<'static, Input<'static>> as Source<F>>⟧.lent
        (⟦<Bounded<'static, Input<'static>> as Source<F>>⟧.holds disk) sources.items) }
    ensures lists { IfOk result (λ sources. (disk : Option Contents)
        → AllByRecursion (IsOpenIn disk) files.now
        → map (⟦<Bounded<'static, Input<'static>> as Source<F>>⟧.remaining disk) sources.items
        ≡ map (entries_between from.now (option_copied end.entry))
        (lists_over disk (option_copied memtable.entry) files.now)) }
    ensures entries { IfOk result (λ sources. (disk : Option Contents)
        → AllByRecursion (IsOpenIn disk) files.now
        → AllByRecursion IsEntryList (lists_over disk (option_copied memtable.entry) files.now)) }
    ensures of { IfOk result (λ sources. AllByRecursion
        (HasSource from.now (option_copied end.entry) sources.items) files.now) }
    ensures each { IfOk result (λ sources. AreSourcesOf from.now
        (option_copied end.entry) (option_copied memtable.entry) files.now sources.items) }
    ensures refusal { IsOkUnless result Refusal.NoMemory }
{
    let mut sources = memtable_sources(alloc, memtable, from, end)?;
    for file in files {
        let source = file_source(file, from, end);
        sources.push(source)?;
    }
    Ok(sources)
}
