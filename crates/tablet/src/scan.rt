//! Merged scans of a memtable and files from a key text on: the places of their values, the cells with their newest
//! versions, and the newest versions of one column (Bigtable, tablet serving).

ghost use Rattle.std.specs.Prelude.{◌≡◌, ◌≤◌, ◌++◌, List, false, length, [], ◌∷◌, None, Some, option_map, map, take, IfOk, OnOk, IfErr, IfSome, IsErrOf, IsOkUnless};
ghost use Rattle.std.specs.Bool.{OnFalse, OnTrue};
ghost use Rattle.std.specs.Option.{option_copied, option_to_list};
ghost use Rattle.std.specs.List.{AllByRecursion};
ghost use Rattle.cell_key.specs.Cells.{version};
ghost use Rattle.cell_key.specs.Entries.{Entry, IsEntry, IsEntryList, entries_from, lent_entry};
ghost use Rattle.cell_key.specs.Keys.{text};
ghost use Rattle.cell_key.specs.Names.{IsRow, IsFamily};
ghost use Rattle.cell_key.specs.Places.{AreNext, place_named};
ghost use Rattle.cell_key.specs.Versions.{IsVersion, stamped};
ghost use Rattle.sorted_file.specs.File.{IsOpen, listed};
ghost use Rattle.sorted_file.specs.Source.{ReadsFiles};
ghost use Rattle.rows.specs.Batches.{IsFull};
ghost use Rattle.tablet.specs.Gathering.{AreVersionsIn, Gathers, IsGatheringRefusal, IsWithin, KeepsLimits};
ghost use Rattle.tablet.specs.Reads.{first_value, later, past_place, stamped_values, HasLeft, IsNextIn, IsPlaceOrNone, NamesPlace};
ghost use Rattle.tablet.specs.Sources.{part};

use crate::gathering::Gathering;
use crate::lookup::copy_value;
use crate::sources::sources;
use cell_key::{CellKey, EntryRef, Family, Qualifier, Refusal, Row, Stamp, last_place};
use compaction::Merge;
use file_store::Files;
use memtable::Memtable;
use rows::{BatchLimits, VersionBatch};
use sorted_file::{SortedFile, Source};
use std::alloc::Global;

/// The place of an entry's key, if the entry is a value and its text is not below `past`. Answers `Damaged` if such an
/// entry exceeds the limits of entries, and `NoMemory` if there is no memory for the place.
fn place_of(
    alloc: Global,
    entry: EntryRef<'_>,
    past: &[u8],
) -> Result<Option<(Row, Family)>, Refusal>
    ensures found { IfOk result
        (NamesPlace (first_value (entries_from past.now (lent_entry entry.entry ∷ [])))) }
    ensures damaged { IsErrOf result Refusal.Damaged → ¬ IsEntry (lent_entry entry.entry) }
    ensures refusal { IfErr result IsGatheringRefusal }
{
    if entry.value.is_none() || entry.key.cmp(&past).is_lt() {
        return Ok(None);
    }
    match CellKey::decode(alloc, entry.key)? {
        Some(key) => Ok(Some((key.row, key.family))),
        None => Err(Refusal::Damaged),
    }
}

/// The place of a source's current entry, if that is a value whose text is not below `past`.
fn place_at<F: Files, S: Source<F>>(
    alloc: Global,
    source: &S,
    past: &[u8],
) -> Result<Option<(Row, Family)>, Refusal>
    ensures found { IfOk result
        (NamesPlace (first_value (entries_from past.now (option_to_list (S.lent source.now))))) }
    ensures damaged { IsErrOf result Refusal.Damaged → ¬ IfSome (S.lent source.now) IsEntry }
    ensures refusal { IfErr result IsGatheringRefusal }
{
    match source.current() {
        Some(entry) => place_of(alloc, entry, past),
        None => Ok(None),
    }
}

/// The place of the next value of a source whose text is not below `past`. Reads no further than that value.
fn next_place<F: Files, S: Source<F>>(
    alloc: Global,
    source: &mut S,
    past: &[u8],
    store: &mut F,
) -> Result<Option<(Row, Family)>, Refusal>
    ensures found { IfOk result (λ found. S.holds (F.contents store.old) source.old → NamesPlace
        (first_value (entries_from past.now (S.remaining (F.contents store.old) source.old))) found) }
    // The entries after the place have not been read.
    ensures rest { IfOk result (λ found. S.holds (F.contents store.old) source.old
        → IfSome found (λ place. HasLeft (past_place (Some place))
        (S.remaining (F.contents store.old) source.old)
        (S.remaining (F.contents store.old) source.new))) }
    ensures holds { OnOk result (S.holds (F.contents store.old) source.old
        → S.holds (F.contents store.old) source.new) }
    ensures damaged { IsErrOf result Refusal.Damaged → ¬ S.holds (F.contents store.old) source.old }
    ensures reads { ReadsFiles F.contents F.faults store.old store.new result }
{
    while source.advance(store)? {
        if let Some(place) = place_at::<F, S>(alloc, source, past)? {
            return Ok(Some(place));
        }
    }
    Ok(None)
}

/// The next places of values of a source, each once: `most` of them or all if there are fewer. Reads no further than
/// the last one answered.
fn next_places<F: Files, S: Source<F>>(
    alloc: Global,
    source: &mut S,
    most: usize,
    store: &mut F,
) -> Result<Vec<(Row, Family)>, Refusal>
    ensures found { IfOk result (λ found. S.holds (F.contents store.old) source.old → AreNext
        (IsNextIn (S.remaining (F.contents store.old) source.old)) None most found.items) }
    ensures few { IfOk result (λ found. length found.items ≤ most) }
    ensures damaged { IsErrOf result Refusal.Damaged → ¬ S.holds (F.contents store.old) source.old }
    ensures reads { ReadsFiles F.contents F.faults store.old store.new result }
{
    let mut found = Vec::new(alloc);
    'wanted: while found.len() < most {
        let past = past_place(alloc, last_place(&found, None))?;
        match next_place(alloc, source, &past, store)? {
            Some(place) => found.push(place)?,
            None => return Ok(found),
        }
    }
    Ok(found)
}

/// The places of the values that a memtable and files (the newest first) show together, with texts from `from` on and
/// below `end`, if one is given: `most` of them or all if there are fewer. One pass over that range, which ends at the
/// last place answered.
pub(crate) fn merged_places<F: Files>(
    alloc: Global,
    memtable: &Memtable,
    files: &[SortedFile],
    from: &[u8],
    end: Option<&[u8]>,
    most: usize,
    store: &mut F,
) -> Result<Vec<(Row, Family)>, Refusal>
    ensures found { IfOk result (λ found.
        IfSome (F.contents store.old) (λ m. AllByRecursion (IsOpen m) files.now
        → AreNext (IsNextIn (part from.now (option_copied end.entry)
        (memtable.now ∷ map (listed m) files.now))) None most found.items)) }
    ensures few { IfOk result (λ found. length found.items ≤ most) }
    ensures damaged { IsErrOf result Refusal.Damaged
        → IfSome (F.contents store.old) (λ m. ¬ AllByRecursion (IsOpen m) files.now) }
    ensures reads { ReadsFiles F.contents F.faults store.old store.new result }
{
    let sources = sources::<F>(alloc, Some(memtable), files, from, end)?;
    let mut merge = Merge::new::<F>(sources)?;
    next_places(alloc, &mut merge, most, store)
}

/// Takes a source's current entry, if it has one, unless the batch is full. Answers whether it did.
fn take_at<F: Files, S: Source<F>>(
    alloc: Global,
    gathering: &mut Gathering,
    source: &S,
) -> Result<bool, Refusal>
    requires { IsWithin gathering.old }
    ensures gathers { (es : List Entry) → IsEntryList (es ++ option_to_list (S.lent source.now))
        → Gathers es gathering.old → IfOk result (λ taken. OnTrue taken
        (Gathers (es ++ option_to_list (S.lent source.now)) gathering.new)) }
    ensures stops { (es more : List Entry)
        → IsEntryList (es ++ (option_to_list (S.lent source.now) ++ more))
        → Gathers es gathering.old → IfOk result (λ taken. OnFalse taken
        (AreVersionsIn (es ++ (option_to_list (S.lent source.now) ++ more))
        gathering.old.hi gathering.new.cells.items false)) }
    ensures full { IfOk result (λ taken. OnFalse taken
        (IsFull gathering.old.limits gathering.new.cells.items)) }
    ensures within { OnOk result (IsWithin gathering.new) }
    ensures limits { KeepsLimits gathering.old gathering.new }
    ensures damaged { (es : List Entry) → Gathers es gathering.old
        → IsErrOf result Refusal.Damaged → ¬ IfSome (S.lent source.now) IsEntry }
    ensures refusal { IfErr result IsGatheringRefusal }
{
    match source.current() {
        Some(entry) => gathering.take(alloc, entry),
        None => Ok(true),
    }
}

/// The next cells of a source, with their newest versions at or below `hi`, until the batch is full or no cell is left.
/// Reads no further than the first value after the last of them.
fn next_versions<F: Files, S: Source<F>>(
    alloc: Global,
    source: &mut S,
    limits: BatchLimits,
    hi: Stamp,
    store: &mut F,
) -> Result<VersionBatch, Refusal>
    ensures found { IfOk result (λ batch. S.holds (F.contents store.old) source.old → AreVersionsIn
        (S.remaining (F.contents store.old) source.old) hi batch.cells.items batch.is_last) }
    ensures full { IfOk result (λ batch. OnFalse batch.is_last (IsFull limits batch.cells.items)) }
    ensures few { IfOk result (λ batch. length batch.cells.items ≤ limits.cells) }
    ensures damaged { IsErrOf result Refusal.Damaged → ¬ S.holds (F.contents store.old) source.old }
    ensures reads { ReadsFiles F.contents F.faults store.old store.new result }
{
    let mut gathering = Gathering::new(alloc, limits, hi)?;
    while source.advance(store)? {
        if !take_at::<F, S>(alloc, &mut gathering, source)? {
            return Ok(gathering.stopped());
        }
    }
    Ok(gathering.ended())
}

/// The cells that a memtable and files (the newest first) show together, with their newest versions at or below `hi`:
/// those with texts from `from` on and below `end`, if one is given, until the batch is full or no cell is left. One
/// pass over that range.
pub(crate) fn merged_versions<F: Files>(
    alloc: Global,
    memtable: &Memtable,
    files: &[SortedFile],
    from: &[u8],
    end: Option<&[u8]>,
    limits: BatchLimits,
    hi: Stamp,
    store: &mut F,
) -> Result<VersionBatch, Refusal>
    ensures found { IfOk result (λ batch.
        IfSome (F.contents store.old) (λ m. AllByRecursion (IsOpen m) files.now → AreVersionsIn
        (part from.now (option_copied end.entry) (memtable.now ∷ map (listed m) files.now))
        hi batch.cells.items batch.is_last)) }
    ensures full { IfOk result (λ batch. OnFalse batch.is_last (IsFull limits batch.cells.items)) }
    ensures few { IfOk result (λ batch. length batch.cells.items ≤ limits.cells) }
    ensures damaged { IsErrOf result Refusal.Damaged
        → IfSome (F.contents store.old) (λ m. ¬ AllByRecursion (IsOpen m) files.now) }
    ensures reads { ReadsFiles F.contents F.faults store.old store.new result }
{
    let inputs = sources::<F>(alloc, Some(memtable), files, from, end)?;
    let mut merge = Merge::new::<F>(inputs)?;
    next_versions(alloc, &mut merge, limits, hi, store)
}

/// The version in an entry, if it is no erasure. Answers `Damaged` if such an entry exceeds the limits of entries, and
/// `NoMemory` if there is no memory for a copy.
fn version_in(alloc: Global, entry: EntryRef<'_>) -> Result<Option<(Stamp, Vec<u8>)>, Refusal>
    ensures found { IfOk result (λ found. option_to_list (option_map stamped found)
        ≡ stamped_values (lent_entry entry.entry ∷ [])) }
    ensures limits { IfOk result (λ found.
        IfSome found (λ version. IsVersion version.0 version.1.items)) }
    ensures damaged { IsErrOf result Refusal.Damaged → ¬ IsEntry (lent_entry entry.entry) }
    ensures refusal { IfErr result IsGatheringRefusal }
{
    let Some(value) = copy_value(alloc, entry.value)? else {
        return Ok(None);
    };
    match CellKey::decode(alloc, entry.key)? {
        Some(key) => Ok(Some((key.stamp, value))),
        None => Err(Refusal::Damaged),
    }
}

/// The version in a source's current entry, if that is a value.
fn version_at<F: Files, S: Source<F>>(
    alloc: Global,
    source: &S,
) -> Result<Option<(Stamp, Vec<u8>)>, Refusal>
    ensures found { IfOk result (λ found. option_to_list (option_map stamped found)
        ≡ stamped_values (option_to_list (S.lent source.now))) }
    ensures limits { IfOk result (λ found.
        IfSome found (λ version. IsVersion version.0 version.1.items)) }
    ensures damaged { IsErrOf result Refusal.Damaged → ¬ IfSome (S.lent source.now) IsEntry }
    ensures refusal { IfErr result IsGatheringRefusal }
{
    match source.current() {
        Some(entry) => version_in(alloc, entry),
        None => Ok(None),
    }
}

/// The next versions of a source: `most` of them or all if there are fewer. Reads no further than the last one
/// answered.
fn first_versions<F: Files, S: Source<F>>(
    alloc: Global,
    source: &mut S,
    most: usize,
    store: &mut F,
) -> Result<Vec<(Stamp, Vec<u8>)>, Refusal>
    ensures found { IfOk result (λ found. S.holds (F.contents store.old) source.old
        → map stamped found.items
        ≡ take most (stamped_values (S.remaining (F.contents store.old) source.old))) }
    ensures few { IfOk result (λ found. length found.items ≤ most) }
    ensures limits { IfOk result (λ found.
        AllByRecursion (λ version. IsVersion version.0 version.1.items) found.items) }
    ensures damaged { IsErrOf result Refusal.Damaged → ¬ S.holds (F.contents store.old) source.old }
    ensures reads { ReadsFiles F.contents F.faults store.old store.new result }
{
    let mut found = Vec::new(alloc);
    'wanted: while found.len() < most {
        if !source.advance(store)? {
            return Ok(found);
        }
        if let Some(version) = version_at::<F, S>(alloc, source)? {
            found.push(version)?;
        }
    }
    Ok(found)
}

/// The first versions that a memtable and files (the newest first) show together, with texts from `from` on and below
/// `end`, if one is given: `most` of them or all if there are fewer. One pass over that range, which ends at the last
/// version answered.
pub(crate) fn merged_values<F: Files>(
    alloc: Global,
    memtable: &Memtable,
    files: &[SortedFile],
    from: &[u8],
    end: Option<&[u8]>,
    most: usize,
    store: &mut F,
) -> Result<Vec<(Stamp, Vec<u8>)>, Refusal>
    ensures found { IfOk result (λ found.
        IfSome (F.contents store.old) (λ m. AllByRecursion (IsOpen m) files.now
        → map stamped found.items ≡ take most (stamped_values
        (part from.now (option_copied end.entry) (memtable.now ∷ map (listed m) files.now))))) }
    ensures few { IfOk result (λ found. length found.items ≤ most) }
    ensures limits { IfOk result (λ found.
        AllByRecursion (λ version. IsVersion version.0 version.1.items) found.items) }
    ensures damaged { IsErrOf result Refusal.Damaged
        → IfSome (F.contents store.old) (λ m. ¬ AllByRecursion (IsOpen m) files.now) }
    ensures reads { ReadsFiles F.contents F.faults store.old store.new result }
{
    let inputs = sources::<F>(alloc, Some(memtable), files, from, end)?;
    let mut merge = Merge::new::<F>(inputs)?;
    first_versions(alloc, &mut merge, most, store)
}

/// The text of the key of a version. Answers `NoMemory` if there is no memory.
pub(crate) fn version_text(
    alloc: Global,
    row: &Row,
    family: &Family,
    qualifier: Qualifier,
    stamp: Stamp,
) -> Result<Vec<u8>, Refusal>
    ensures text { IfOk result (λ bytes.
        bytes.items ≡ text (version row.now family.now qualifier stamp)) }
    ensures row { IsRow row.now }
    ensures family { IsFamily family.now }
    ensures refusal { IsOkUnless result Refusal.NoMemory }
{
    let key = CellKey::new(row, family, qualifier, stamp)?;
    let mut text = Vec::new(alloc);
    key.encode(&mut text)?;
    Ok(text)
}

/// A bound above all texts of a place and below those of later places; without a place, a bound below all texts.
/// Answers `NoMemory` if there is no memory.
pub(crate) fn past_place(alloc: Global, after: Option<(&Row, &Family)>) -> Result<Vec<u8>, Refusal>
    ensures past { IfOk result (λ text.
        text.items ≡ past_place (option_map place_named after.entry)) }
    ensures names { IsPlaceOrNone (option_map place_named after.entry) }
    ensures refusal { IsOkUnless result Refusal.NoMemory }
{
    match after {
        Some((row, family)) => version_text(alloc, row, family, Qualifier::Write, 0),
        None => Ok(Vec::new(alloc)),
    }
}

/// The later of two texts.
pub(crate) fn later<'a>(a: &'a [u8], b: &'a [u8]) -> &'a [u8]
    ensures { result.now ≡ later a.now b.now }
{
    if a.cmp(&b).is_le() { b } else { a }
}
