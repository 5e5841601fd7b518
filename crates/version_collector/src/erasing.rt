//! The erasures of a second pass in a cell, in one row transaction.

ghost use Rattle.std.specs.Prelude.{◌≡◌, ◌≢◌, [], IfErr, IfNone, IfOk, IfSome, IsErrOf, OnErr, OnSome};
ghost use Rattle.std.specs.List.{AllByRecursion};
ghost use Rattle.cell_key.specs.Cells.{IsEditOf, after_edits};
ghost use Rattle.cell_key.specs.Faults.{HasReason};
ghost use Rattle.rows.specs.Calls.{AppliesSuch, OnlyReads};
ghost use Rattle.rows.specs.Refusals.{IsRefusalOfRead};
ghost use Rattle.rows.specs.Room.{HasNoRoom};
ghost use Rattle.si_model.specs.Collection.{IsTidy};
ghost use Rattle.version_collector.specs.Erasing.{CollectsCell, ErasesOrIsTidy, IsKnown, data_erasures, deletion_erasures, record_erasures};
ghost use Rattle.version_collector.specs.Refusals.{IsVisitRefusal};
ghost use Rattle.version_collector.specs.Versions.{AreShown, IsTidyFrom};

use crate::versions::{TidyFrom, near_records, old_records, pass_named, unnamed_data};
use cell_key::{CellKey, Edit, Moment, Qualifier, Refusal, Stamp};
use rows::Rows;
use si_model::Cell;
use std::alloc::Global;

/// A cell of which versions were erased, and the stamps from which on nothing is left to erase.
#[derive(Drop)]
pub(crate) struct CellProgress {
    pub(crate) cell: Cell,
    pub(crate) tidy: TidyFrom,
}

impl CellProgress {
    /// The progress in a cell, which is copied. Answers `NoMemory` if allocation fails.
    fn new(cell: &Cell, tidy: TidyFrom) -> Result<CellProgress, Refusal>
        ensures cell { IfOk result (λ progress. progress.cell ≡ cell.now) }
        ensures tidy { IfOk result (λ progress. progress.tidy ≡ tidy) }
        ensures refusal { IfErr result (λ refusal. refusal ≡ Refusal.NoMemory) }
    {
        let cell = Cell {
            row: cell.row.clone()?,
            family: cell.family.clone()?,
        };
        Ok(CellProgress { cell, tidy })
    }
}

/// Edits that erase versions of a cell, and the stamps from which on nothing is left to erase after them.
#[derive(Drop)]
struct Erasure {
    edits: Vec<Edit>,
    tidy: TidyFrom,
}

/// The edits that erase records, each with the data that it names. Answers `NoMemory` if allocation fails.
fn record_edits(
    alloc: Global,
    cell: &Cell,
    records: &[(Moment, Moment)],
) -> Result<Vec<Edit>, Refusal>
    ensures edits { IfOk result (λ edits. edits.items ≡ record_erasures cell.now records.now) }
    ensures under { IfOk result (λ edits. AllByRecursion (IsEditOf cell.now.row) edits.items) }
    ensures refusal { IfErr result (λ refusal. refusal ≡ Refusal.NoMemory) }
{
    let mut edits = Vec::new(alloc);
    for (commit, start) in records {
        let record = CellKey::new(&cell.row, &cell.family, Qualifier::Write, commit.stamp())?;
        let data = CellKey::new(&cell.row, &cell.family, Qualifier::Data, start.stamp())?;
        edits.push(Edit::Erase(record))?;
        edits.push(Edit::Erase(data))?;
    }
    Ok(edits)
}

/// The edits that erase data. Answers `NoMemory` if allocation fails.
fn data_edits(alloc: Global, cell: &Cell, starts: &[Moment]) -> Result<Vec<Edit>, Refusal>
    ensures edits { IfOk result (λ edits. edits.items ≡ data_erasures cell.now starts.now) }
    ensures under { IfOk result (λ edits. AllByRecursion (IsEditOf cell.now.row) edits.items) }
    ensures refusal { IfErr result (λ refusal. refusal ≡ Refusal.NoMemory) }
{
    let mut edits = Vec::new(alloc);
    for start in starts {
        let data = CellKey::new(&cell.row, &cell.family, Qualifier::Data, start.stamp())?;
        edits.push(Edit::Erase(data))?;
    }
    Ok(edits)
}

/// The edit that erases the record of a deletion; none if there is no such record. Answers `NoMemory` if allocation
/// fails.
fn deletion_edits(
    alloc: Global,
    cell: &Cell,
    deletion: Option<Moment>,
) -> Result<Vec<Edit>, Refusal>
    ensures edits { IfOk result (λ edits. edits.items ≡ deletion_erasures cell.now deletion) }
    ensures under { IfOk result (λ edits. AllByRecursion (IsEditOf cell.now.row) edits.items) }
    ensures refusal { IfErr result (λ refusal. refusal ≡ Refusal.NoMemory) }
{
    let mut edits = Vec::new(alloc);
    if let Some(commit) = deletion {
        let record = CellKey::new(&cell.row, &cell.family, Qualifier::Write, commit.stamp())?;
        edits.push(Edit::Erase(record))?;
    }
    Ok(edits)
}

/// The edits that erase old versions of a cell; none if the cell is tidy. From the stamps `tidy` on nothing is left to
/// erase, so the searches begin below them.
///
/// # Errors
///
/// `Device`, `NoMemory` or `Damaged`, as for every read, and `Damaged` if a record names no start.
fn old_edits<R: Rows>(
    alloc: Global,
    rows: &mut R,
    cell: &Cell,
    floor: Stamp,
    tidy: TidyFrom,
) -> Result<Erasure, Refusal>
    ensures old { IfOk result (λ erasure. ErasesOrIsTidy
        (IsKnown R.seen rows.old cell.now floor tidy) (R.seen.cells rows.old) cell.now floor
        erasure.edits.items) }
    ensures tidy { IsKnown R.seen rows.old cell.now floor tidy
        → AreShown (R.seen.cells rows.old) → IfOk result (λ erasure. IsTidyFrom
        (after_edits (R.seen.cells rows.old) erasure.edits.items) cell.now floor erasure.tidy) }
    ensures under { IfOk result (λ erasure.
        AllByRecursion (IsEditOf cell.now.row) erasure.edits.items) }
    ensures reads { OnlyReads R.seen rows.old rows.new }
    ensures refusal { IfErr result (IsRefusalOfRead
        (R.seen.readable rows.old cell.now.row × AreShown (R.seen.cells rows.old))) }
    ensures reason { HasReason (R.faults rows.old) (R.faults rows.new) result }
{
    let records = old_records(alloc, rows, cell, floor, tidy.commit)?;
    if !records.is_empty() {
        let passed = pass_named(rows, cell, floor, tidy)?;
        let edits = record_edits(alloc, cell, &records)?;
        let tidy = passed.past_records(&records);
        return Ok(Erasure { edits, tidy });
    }
    let (near, deletion) = near_records(rows, cell, floor)?;
    let starts = unnamed_data(alloc, rows, cell, floor, tidy.start, near)?;
    if !starts.is_empty() {
        let edits = data_edits(alloc, cell, &starts)?;
        let tidy = tidy.past_data(&starts);
        return Ok(Erasure { edits, tidy });
    }
    let edits = deletion_edits(alloc, cell, deletion)?;
    let tidy = TidyFrom::new(floor);
    Ok(Erasure { edits, tidy })
}

/// Erases old versions of a cell in one row transaction, and returns the progress in it, or `None` if the cell is tidy.
/// The versions are the newest 128 records older than the newest one at or below the floor, with the data that they
/// name; else the newest 256 data below the floor that no record names; else the record at or below the floor if it is
/// a deletion's. A cell without any of these is tidy. From the stamps `tidy` on nothing is left to erase, so the
/// searches begin below them.
///
/// # Errors
///
/// `MemtableFull` if the rows have no room for the edits, `Device`, `NoMemory`, or `Damaged` if bytes that were read
/// are malformed.
pub(crate) fn erase_old<R: Rows>(
    alloc: Global,
    rows: &mut R,
    cell: &Cell,
    floor: Stamp,
    tidy: TidyFrom,
) -> Result<Option<CellProgress>, Refusal>
    ensures erased { IfOk result (λ progress.
        OnSome progress (AppliesSuch R.seen
        (CollectsCell (IsKnown R.seen rows.old cell.now floor tidy) (R.seen.cells rows.old)
        cell.now floor) rows.old rows.new)) }
    ensures left { IfOk result (λ progress. IfNone progress (OnlyReads R.seen rows.old rows.new)) }
    ensures tidy { IsKnown R.seen rows.old cell.now floor tidy
        → AreShown (R.seen.cells rows.old)
        → IfOk result (λ progress. IfNone progress
        (IsTidy (R.seen.cells rows.old) cell.now floor)) }
    ensures cell { IfOk result (λ progress. IfSome progress (λ progress.
        progress.cell ≡ cell.now)) }
    // The progress is right in the cells after the erasure.
    ensures progress { IsKnown R.seen rows.old cell.now floor tidy
        → AreShown (R.seen.cells rows.old)
        → IfOk result (λ progress. IfSome progress (λ progress.
        IsTidyFrom (R.seen.cells rows.new) cell.now floor progress.tidy)) }
    ensures err { OnErr result (OnlyReads R.seen rows.old rows.new) }
    ensures refusal { IfErr result IsVisitRefusal }
    // Cells that show a reached state never give Damaged.
    ensures undamaged { R.seen.readable rows.old cell.now.row → AreShown (R.seen.cells rows.old)
        → ¬ IsErrOf result Refusal.Damaged }
    ensures full { IsErrOf result Refusal.MemtableFull
        → HasNoRoom R.seen.overfills rows.old
        (CollectsCell (IsKnown R.seen rows.old cell.now floor tidy) (R.seen.cells rows.old)
        cell.now floor) }
    ensures reason { HasReason (R.faults rows.old) (R.faults rows.new) result }
{
    let erasure = old_edits(alloc, rows, cell, floor, tidy)?;
    let Erasure { edits, tidy } = erasure;
    if edits.is_empty() {
        return Ok(None);
    }
    let progress = CellProgress::new(cell, tidy)?;
    rows.apply(&cell.row, edits)?;
    Ok(Some(progress))
}
