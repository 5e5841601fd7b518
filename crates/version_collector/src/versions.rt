//! The finds of a second pass in a cell: old records, data that no record names, or the record of a deletion.

ghost use Rattle.std.specs.Prelude.{◌≡◌, ◌↔◌, ◌⊎◌, ℕ, ◌<◌, ◌≤◌, ◌^◌, Some, length, map, IfErr, IfNone, IfOk, IfSome, IsTrue, option_map};
ghost use Rattle.std.specs.List.{AllByRecursion};
ghost use Rattle.cell_key.specs.Cells.{Cells};
ghost use Rattle.cell_key.specs.Faults.{HasReason};
ghost use Rattle.cell_key.specs.Moments.{IsMoment};
ghost use Rattle.cell_key.specs.Versions.{IsVersion, stamped};
ghost use Rattle.cell_key.specs.Columns.{NamesStart, NamesWrite};
ghost use Rattle.cell_key.specs.declared.columns.WriteKind.TheVariants as Kind;
ghost use Rattle.cell_key.specs.declared.keys.Qualifier.TheVariants.{Write};
ghost use Rattle.rows.specs.Calls.{OnlyReads};
ghost use Rattle.rows.specs.Refusals.{IsRefusalOfRead};
ghost use Rattle.si_model.specs.ShowsCells.{key_of};
ghost use Rattle.si_model.specs.declared.replies.Cell.{Cell as Names};
ghost use Rattle.rows.specs.Reads.{AreNewestFirst};
ghost use Rattle.version_collector.specs.Versions.{AreFound, AreNear, AreNamedFrom, AreShown, AreUnnamed, HasNoOldFrom, HasOneRecord, IsAmong, IsLastDeletion, IsLatestBelow, IsNamedBy, IsTidyFrom, NamesNext, NamesNone, last_of};

use cell_key::{MOST_STAMP, Moment, Qualifier, Record, Refusal, Stamp, WriteKind};
use rows::{Rows, oldest};
use si_model::Cell;
use std::alloc::Global;

/// The most records erased at once, each with the data that it names.
const MOST_RECORDS: usize = 128;

/// The number of records that are looked up one by one.
const FEW_RECORDS: usize = 32;

/// The most data without a record erased at once.
const MOST_DATA: usize = 256;

/// The stamps from which on a cell has nothing to erase: from `commit` on no record older than the newest one at or
/// below the floor, and from `start` on no data below the floor that no record names.
#[derive(Clone, Copy, Drop)]
pub(crate) struct TidyFrom {
    pub(crate) commit: Stamp,
    pub(crate) start: Stamp,
}

impl TidyFrom {
    /// The stamps of a cell of which nothing is known.
    pub(crate) fn new(floor: Stamp) -> TidyFrom
        ensures { (cells : Cells) (x : Names) → IsTidyFrom cells x floor result }
    {
        TidyFrom {
            commit: floor,
            start: floor,
        }
    }

    /// The same stamps with another one for the data.
    fn named_from(self, start: Stamp) -> TidyFrom
        ensures { result ≡ record self { start = start } }
    {
        TidyFrom {
            commit: self.commit,
            start,
        }
    }

    /// The stamps after these records are erased, which are the newest old ones, in falling order.
    pub(crate) fn past_records(self, records: &[(Moment, Moment)]) -> TidyFrom
        ensures commit { result.commit ≡ last_of self.commit (map (λ v. v.0) records.now) }
        ensures start { result.start ≡ self.start }
    {
        match records.last() {
            Some((commit, _)) => TidyFrom {
                commit: commit.stamp(),
                start: self.start,
            },
            None => self,
        }
    }

    /// The stamps after these data are erased, which are the newest that no record names, in falling order.
    pub(crate) fn past_data(self, starts: &[Moment]) -> TidyFrom
        ensures commit { result.commit ≡ self.commit }
        ensures start { result.start ≡ last_of self.start starts.now }
    {
        match starts.last() {
            Some(start) => TidyFrom {
                commit: self.commit,
                start: start.stamp(),
            },
            None => self,
        }
    }
}

/// The lesser of two stamps.
fn lesser(one: Stamp, other: Stamp) -> Stamp
    ensures low { result ≤ one }
    ensures least { (s : ℕ) → result ≤ s → s < one → other ≤ s }
{
    if other < one {
        return other;
    }
    one
}

/// The version of a cell's column with the greatest stamp below this one, if there is one.
fn latest_below<R: Rows>(
    rows: &mut R,
    cell: &Cell,
    column: Qualifier,
    below: Stamp,
) -> Result<Option<(Stamp, Vec<u8>)>, Refusal>
    ensures found { R.seen.readable rows.old cell.now.row
        → IfOk result (λ found.
        IsLatestBelow (R.seen.cells rows.old) cell.now column below (option_map stamped found)) }
    ensures lower { IfOk result (λ found. IfSome found (λ version. version.0 < below)) }
    ensures limits { IfOk result (λ found. IfSome found (λ version. IsMoment version.0)) }
    ensures reads { OnlyReads R.seen rows.old rows.new }
    ensures refusal { IfErr result (IsRefusalOfRead (R.seen.readable rows.old cell.now.row)) }
    ensures reason { HasReason (R.faults rows.old) (R.faults rows.new) result }
{
    if below == 0 {
        return Ok(None);
    }
    let found = rows.newest(&cell.row, &cell.family, column, 0, below - 1)?;
    let Some((stamp, value)) = found else {
        return Ok(None);
    };
    Ok(Some((stamp, value)))
}

/// The start that a record's text names, and the kind of its write. `Damaged` if it names none.
fn write_of(text: &[u8]) -> Result<(Moment, WriteKind), Refusal>
    ensures named { IfOk result (λ write. NamesWrite text.now write.0 write.1) }
    ensures refusal { IfErr result (λ refusal. refusal ≡ Refusal.Damaged) }
    ensures damaged { IfErr result (λ refusal.
        (t : ℕ) → 1 ≤ t → t < 2 ^ 63 → ¬ NamesStart text.now t) }
{
    match Record::decode(text) {
        Some(record) if 1 <= record.start && record.start <= MOST_STAMP => {
            Ok((Moment::new(record.start), record.kind))
        }
        _ => Err(Refusal::Damaged),
    }
}

/// The newest records of a cell at or below a stamp, newest first: at most 32. Each is looked up by itself, so that its
/// block may come from the cache.
fn look_up_records<R: Rows>(
    alloc: Global,
    rows: &mut R,
    cell: &Cell,
    hi: Stamp,
) -> Result<Vec<(Stamp, Vec<u8>)>, Refusal>
    ensures found { R.seen.readable rows.old cell.now.row → IfOk result (λ found. AreNewestFirst
        (R.seen.cells rows.old) (key_of cell.now Write) hi 32 (map stamped found.items)) }
    ensures few { IfOk result (λ found. length found.items ≤ 32) }
    ensures limits { IfOk result (λ found.
        AllByRecursion (λ version. IsVersion version.0 version.1.items) found.items) }
    ensures reads { OnlyReads R.seen rows.old rows.new }
    ensures refusal { IfErr result (IsRefusalOfRead (R.seen.readable rows.old cell.now.row)) }
    ensures reason { HasReason (R.faults rows.old) (R.faults rows.new) result }
{
    let mut found = Vec::new(alloc);
    let mut last = hi;
    'records: while found.len() < FEW_RECORDS {
        let next = rows.newest(&cell.row, &cell.family, Qualifier::Write, 0, last)?;
        let Some((commit, text)) = next else {
            return Ok(found);
        };
        found.push((commit, text))?;
        last = commit - 1;
    }
    Ok(found)
}

/// The newest records of a cell at or below a stamp, newest first: at most 128. They are looked up one by one up to the
/// 32nd. If that many are found, all are read in one pass, which reads a block of each file whose range has the cell.
fn newest_records<R: Rows>(
    alloc: Global,
    rows: &mut R,
    cell: &Cell,
    hi: Stamp,
) -> Result<Vec<(Stamp, Vec<u8>)>, Refusal>
    ensures found { R.seen.readable rows.old cell.now.row → IfOk result (λ found. AreNewestFirst
        (R.seen.cells rows.old) (key_of cell.now Write) hi 128 (map stamped found.items)) }
    ensures few { IfOk result (λ found. length found.items ≤ 128) }
    ensures limits { IfOk result (λ found.
        AllByRecursion (λ version. IsVersion version.0 version.1.items) found.items) }
    ensures reads { OnlyReads R.seen rows.old rows.new }
    ensures refusal { IfErr result (IsRefusalOfRead (R.seen.readable rows.old cell.now.row)) }
    ensures reason { HasReason (R.faults rows.old) (R.faults rows.new) result }
{
    let found = look_up_records(alloc, rows, cell, hi)?;
    if found.len() < FEW_RECORDS {
        return Ok(found);
    }
    rows.versions(&cell.row, &cell.family, Qualifier::Write, hi, MOST_RECORDS)
}

/// The newest 128 records older than the newest one at or below the floor, newest first, each as its stamp and the
/// start that it names; all of them, if there are fewer. There is none from the stamp `from` on, so the search begins
/// below it.
///
/// # Errors
///
/// `Device`, `NoMemory` or `Damaged`, as for every read, and `Damaged` if a record names no start.
pub(crate) fn old_records<R: Rows>(
    alloc: Global,
    rows: &mut R,
    cell: &Cell,
    floor: Stamp,
    from: Stamp,
) -> Result<Vec<(Moment, Moment)>, Refusal>
    ensures found { R.seen.readable rows.old cell.now.row
        → AreShown (R.seen.cells rows.old)
        → HasNoOldFrom (R.seen.cells rows.old) cell.now floor from
        → IfOk result (λ found. AreFound (R.seen.cells rows.old) cell.now floor found.items) }
    ensures few { IfOk result (λ found. length found.items ≤ 128) }
    ensures reads { OnlyReads R.seen rows.old rows.new }
    ensures refusal { IfErr result (IsRefusalOfRead
        (R.seen.readable rows.old cell.now.row × AreShown (R.seen.cells rows.old))) }
    ensures reason { HasReason (R.faults rows.old) (R.faults rows.new) result }
{
    let mut found = Vec::with_capacity(alloc, MOST_RECORDS)?;
    let newest = rows.newest(&cell.row, &cell.family, Qualifier::Write, 0, floor)?;
    let Some((last, _text)) = newest else {
        return Ok(found);
    };
    let below = lesser(last, from);
    let records = newest_records(alloc, rows, cell, below.saturating_sub(1))?;
    let mut rest = records.as_slice();
    'records: while let Some((record, after)) = rest.split_first() {
        let (commit, text) = record;
        let (start, _) = write_of(text)?;
        found.push((Moment::new(*commit), start))?;
        rest = after;
    }
    Ok(found)
}

/// The starts named by the records nearest to a floor.
#[derive(Clone, Copy, Drop)]
pub(crate) struct NearStarts {
    /// The start named by the newest record at or below the floor, if there is one.
    last: Option<Stamp>,
    /// The start named by the oldest record above the floor, if there is one.
    next: Option<Stamp>,
}

/// Whether a start is one of the two.
fn is_among(start: Stamp, near: NearStarts) -> bool
    ensures { IsTrue result ↔ IsAmong start near }
{
    near.last == Some(start) || near.next == Some(start)
}

/// The start that a record names; `None` if there is no record. `Damaged` if it names no start.
fn named_by(found: Option<(Stamp, Vec<u8>)>) -> Result<Option<Stamp>, Refusal>
    ensures named { IfOk result (IsNamedBy (option_map stamped found)) }
    ensures refusal { IfErr result (λ refusal. refusal ≡ Refusal.Damaged) }
    ensures damaged { IfErr result (λ refusal. NamesNone (option_map stamped found)) }
{
    match found {
        Some((_, text)) => Ok(Some(write_of(&text)?.0.stamp())),
        None => Ok(None),
    }
}

/// The start named by the oldest record above a stamp, if there is one.
fn next_start<R: Rows>(rows: &mut R, cell: &Cell, floor: Stamp) -> Result<Option<Stamp>, Refusal>
    ensures named { R.seen.readable rows.old cell.now.row
        → IfOk result (NamesNext (R.seen.cells rows.old) cell.now floor) }
    ensures reads { OnlyReads R.seen rows.old rows.new }
    ensures refusal { IfErr result (IsRefusalOfRead
        (R.seen.readable rows.old cell.now.row × AreShown (R.seen.cells rows.old))) }
    ensures reason { HasReason (R.faults rows.old) (R.faults rows.new) result }
{
    if floor == Stamp::MAX {
        return Ok(None);
    }
    let next = oldest(
        rows,
        &cell.row,
        &cell.family,
        Qualifier::Write,
        floor + 1,
        Stamp::MAX,
    )?;
    named_by(next)
}

/// The stamp of a record if its write is a deletion.
fn deletion_at(commit: Moment, kind: WriteKind) -> Option<Moment>
    ensures some { IfSome result (λ at. (at ≡ commit) × (kind ≡ Kind.Delete)) }
    ensures none { IfNone result (kind ≡ Kind.Set) }
{
    match kind {
        WriteKind::Set => None,
        WriteKind::Delete => Some(commit),
    }
}

/// The starts named by the records nearest to the floor, and the stamp of the newest record at or below the floor if it
/// is a deletion's.
///
/// # Errors
///
/// The same as for `old_records`.
pub(crate) fn near_records<R: Rows>(
    rows: &mut R,
    cell: &Cell,
    floor: Stamp,
) -> Result<(NearStarts, Option<Moment>), Refusal>
    ensures named { R.seen.readable rows.old cell.now.row
        → IfOk result (λ found. AreNear (R.seen.cells rows.old) cell.now floor found.0) }
    ensures deletion { R.seen.readable rows.old cell.now.row
        → AreShown (R.seen.cells rows.old)
        → IfOk result (λ found. IsLastDeletion (R.seen.cells rows.old) cell.now floor found.1) }
    ensures reads { OnlyReads R.seen rows.old rows.new }
    ensures refusal { IfErr result (IsRefusalOfRead
        (R.seen.readable rows.old cell.now.row × AreShown (R.seen.cells rows.old))) }
    ensures reason { HasReason (R.faults rows.old) (R.faults rows.new) result }
{
    let last = rows.newest(&cell.row, &cell.family, Qualifier::Write, 0, floor)?;
    let Some((commit, text)) = last else {
        let next = next_start(rows, cell, floor)?;
        return Ok((NearStarts { last: None, next }, None));
    };
    let (start, kind) = write_of(&text)?;
    let deletion = deletion_at(Moment::new(commit), kind);
    let last = Some(start.stamp());
    let next = next_start(rows, cell, floor)?;
    Ok((NearStarts { last, next }, deletion))
}

/// The same stamps with a lesser `start`, if the data from there on are named too. The newest data below `start` tells:
/// its stamp is below `commit`, or one of the records nearest to the floor names it. So visits that erase records also
/// pass the data erased by earlier ones, and no later visit has to pass all of them.
///
/// # Errors
///
/// The same as for `old_records`.
pub(crate) fn pass_named<R: Rows>(
    rows: &mut R,
    cell: &Cell,
    floor: Stamp,
    tidy: TidyFrom,
) -> Result<TidyFrom, Refusal>
    ensures tidy { R.seen.readable rows.old cell.now.row → AreShown (R.seen.cells rows.old)
        → IsTidyFrom (R.seen.cells rows.old) cell.now floor tidy
        → IfOk result (IsTidyFrom (R.seen.cells rows.old) cell.now floor) }
    ensures reads { OnlyReads R.seen rows.old rows.new }
    ensures refusal { IfErr result (IsRefusalOfRead
        (R.seen.readable rows.old cell.now.row × AreShown (R.seen.cells rows.old))) }
    ensures reason { HasReason (R.faults rows.old) (R.faults rows.new) result }
{
    if tidy.start <= tidy.commit {
        return Ok(tidy);
    }
    let found = latest_below(rows, cell, Qualifier::Data, tidy.start)?;
    let Some((start, _value)) = found else {
        return Ok(tidy.named_from(tidy.commit));
    };
    if start < tidy.commit {
        return Ok(tidy.named_from(tidy.commit));
    }
    let (near, _) = near_records(rows, cell, floor)?;
    if is_among(start, near) {
        return Ok(tidy.named_from(start));
    }
    Ok(tidy)
}

/// The newest 256 data below the floor that no record names, newest first; all of them, if there are fewer. The cell
/// has at most one record at or below the floor, and `near` has the starts named by the records nearest to the floor.
/// A record names each data from `from` on, so the search begins below it.
///
/// # Errors
///
/// `Device`, `NoMemory` or `Damaged`, as for every read.
pub(crate) fn unnamed_data<R: Rows>(
    alloc: Global,
    rows: &mut R,
    cell: &Cell,
    floor: Stamp,
    from: Stamp,
    near: NearStarts,
) -> Result<Vec<Moment>, Refusal>
    ensures found { R.seen.readable rows.old cell.now.row
        → AreShown (R.seen.cells rows.old)
        → HasOneRecord (R.seen.cells rows.old) cell.now floor
        → AreNear (R.seen.cells rows.old) cell.now floor near
        → AreNamedFrom (R.seen.cells rows.old) cell.now floor from
        → IfOk result (λ found. AreUnnamed (R.seen.cells rows.old) cell.now floor found.items) }
    ensures few { IfOk result (λ found. length found.items ≤ 256) }
    ensures reads { OnlyReads R.seen rows.old rows.new }
    ensures refusal { IfErr result (IsRefusalOfRead (R.seen.readable rows.old cell.now.row)) }
    ensures reason { HasReason (R.faults rows.old) (R.faults rows.new) result }
{
    let mut found = Vec::with_capacity(alloc, MOST_DATA)?;
    let mut below = lesser(floor, from);
    while found.len() < MOST_DATA {
        let next = latest_below(rows, cell, Qualifier::Data, below)?;
        let Some((start, _value)) = next else {
            return Ok(found);
        };
        below = start;
        if is_among(start, near) {
            continue;
        }
        found.push(Moment::new(start))?;
    }
    Ok(found)
}
