//! The edits of a transaction that is committed at once: data and record of each write, and no lock.

ghost use Rattle.std.specs.Prelude.{◌≡◌, ◌+◌, ◌<◌, ◌≤◌, ◌^◌, ◌⊎◌, ℕ, List, length, map, Some, None, IfOk, IfErr, IsErrOf, OnErr, OnOk};
ghost use Rattle.std.specs.List.{AllByRecursion};
ghost use Rattle.cell_key.specs.Cells.{Cells, IsEditOf, after_edits};
ghost use Rattle.cell_key.specs.Columns.{record_text};
ghost use Rattle.cell_key.specs.Faults.{HasReason};
ghost use Rattle.cell_key.specs.LockEdits.{IsPut};
ghost use Rattle.cell_key.specs.declared.keys.Qualifier.TheVariants as qualifier;
ghost use Rattle.oracle.specs.Marks.{MayHold};
ghost use Rattle.oracle.specs.Ranges.{next_range_end};
ghost use Rattle.rows.specs.Calls.{AppliesAll, OnlyReads};
ghost use Rattle.rows.specs.Refusals.{IsEditRefusal};
ghost use Rattle.rows.specs.Room.{OverfillsOne};
ghost use Rattle.rows.specs.RowEdits.{AreOfTheirRow, all_edits};
ghost use Rattle.si_model.specs.PutCells.{all_put_cells};
ghost use Rattle.si_model.specs.ShowsCells.{key_of};
ghost use Rattle.txn_client.specs.Commits.{HasNoRoomToPut, PutsWith};
ghost use Rattle.txn_client.specs.Puts.{ArePuttings, IsPutting, IsPutRefusal};
ghost use Rattle.txn_client.specs.Refusals.{HasOneReason};
ghost use Rattle.txn_client.specs.Writes.{write_of};

use crate::value::Value;
use crate::writes::Write;
use cell_key::{CellKey, Edit, MOST_STAMP, Moment, Qualifier, Record, Refusal, Stamp, WriteKind};
use oracle::{MarkStore, Oracle};
use rows::{RowEdits, Rows};
use si_model::Cell;
use std::alloc::Global;

/// The edit that puts the record of a write at its commit stamp.
fn recording(
    alloc: Global,
    cell: &Cell,
    start: Moment,
    commit: Moment,
    kind: WriteKind,
) -> Result<Edit, Refusal>
    ensures put { IfOk result (λ edit.
        IsPut edit (key_of cell.now qualifier.Write commit) (record_text start kind)) }
    ensures under { IfOk result (λ edit. IsEditOf cell.now.row edit) }
    ensures refusal { IfErr result (λ refusal. refusal ≡ Refusal.NoMemory) }
{
    let start = start.stamp();
    let commit = commit.stamp();
    let key = CellKey::new(&cell.row, &cell.family, Qualifier::Write, commit)?;
    let text = Record { start, kind }.encode(alloc)?;
    Ok(Edit::Put(key, text))
}

/// The two edits that put a value with its record.
fn putting_value(
    alloc: Global,
    cell: &Cell,
    start: Moment,
    commit: Moment,
    value: Vec<u8>,
) -> Result<Vec<Edit>, Refusal>
    requires value { length value.items ≤ 65536 }
    ensures putting { IfOk result (λ edits.
        IsPutting cell.now start commit (Some value.items) edits.items) }
    ensures under { IfOk result (λ edits. AllByRecursion (IsEditOf cell.now.row) edits.items) }
    ensures refusal { IfErr result (λ refusal. refusal ≡ Refusal.NoMemory) }
{
    let mut edits = Vec::with_capacity(alloc, 2)?;
    let stamp = start.stamp();
    let key = CellKey::new(&cell.row, &cell.family, Qualifier::Data, stamp)?;
    let record = recording(alloc, cell, start, commit, WriteKind::Set)?;
    edits.push(Edit::Put(key, value))?;
    edits.push(record)?;
    Ok(edits)
}

/// The edit that puts the record of a deletion.
fn putting_deletion(
    alloc: Global,
    cell: &Cell,
    start: Moment,
    commit: Moment,
) -> Result<Vec<Edit>, Refusal>
    ensures putting { IfOk result (λ edits.
        IsPutting cell.now start commit None edits.items) }
    ensures under { IfOk result (λ edits. AllByRecursion (IsEditOf cell.now.row) edits.items) }
    ensures refusal { IfErr result (λ refusal. refusal ≡ Refusal.NoMemory) }
{
    let mut edits = Vec::with_capacity(alloc, 1)?;
    let record = recording(alloc, cell, start, commit, WriteKind::Delete)?;
    edits.push(record)?;
    Ok(edits)
}

/// The edits that put a write with its record: its data, if it has a value, and the record.
fn putting(
    alloc: Global,
    cell: &Cell,
    start: Moment,
    commit: Moment,
    value: Option<Value>,
) -> Result<Vec<Edit>, Refusal>
    ensures putting { IfOk result (λ edits.
        IsPutting cell.now start commit value edits.items) }
    ensures under { IfOk result (λ edits. AllByRecursion (IsEditOf cell.now.row) edits.items) }
    ensures refusal { IfErr result (λ refusal. refusal ≡ Refusal.NoMemory) }
{
    match value {
        Some(value) => putting_value(alloc, cell, start, commit, value.into_vec()),
        None => putting_deletion(alloc, cell, start, commit),
    }
}

/// The edits of a write, with their row.
fn putting_row(
    alloc: Global,
    write: Write,
    start: Moment,
    commit: Moment,
) -> Result<RowEdits, Refusal>
    ensures putting { IfOk result (λ change.
        IsPutting write.cell start commit write.value change.edits.items) }
    ensures under { IfOk result AreOfTheirRow }
    ensures row { IfOk result (λ change. change.row ≡ write.cell.row) }
    ensures refusal { IfErr result (λ refusal. refusal ≡ Refusal.NoMemory) }
{
    let Write { cell, value } = write;
    let edits = putting(alloc, &cell, start, commit, value)?;
    let Cell { row, family: _ } = cell;
    Ok(RowEdits { row, edits })
}

/// The edits of all writes, in their order. Answers `NoMemory` if allocation fails.
pub(crate) fn putting_all(
    alloc: Global,
    writes: Vec<Write>,
    start: Moment,
    commit: Moment,
) -> Result<Vec<RowEdits>, Refusal>
    ensures made { IfOk result (λ changes. (cells : Cells)
        → after_edits cells (all_edits changes.items)
        ≡ all_put_cells cells (map write_of writes.items) start commit) }
    ensures under { IfOk result (λ changes. AllByRecursion AreOfTheirRow changes.items) }
    ensures puttings { IfOk result (λ changes. ArePuttings
        start commit (map write_of writes.items) changes.items) }
    ensures refusal { IfErr result (λ refusal. refusal ≡ Refusal.NoMemory) }
{
    let mut changes = Vec::with_capacity(alloc, writes.len())?;
    for write in writes {
        let change = putting_row(alloc, write, start, commit)?;
        changes.push(change)?;
    }
    Ok(changes)
}

/// Applies edits of several rows in order, all of them or none. If there is one row, it is a row's edits that are
/// applied, which costs less. Refusals: as of `Rows::apply_all`.
fn apply_changes<R: Rows>(rows: &mut R, mut changes: Vec<RowEdits>) -> Result<(), Refusal>
    requires { AllByRecursion AreOfTheirRow changes.items }
    ensures ok { OnOk result (AppliesAll R.seen changes.items rows.old rows.new) }
    ensures err { OnErr result (OnlyReads R.seen rows.old rows.new) }
    ensures refusal { IfErr result IsEditRefusal }
    ensures full { IsErrOf result Refusal.MemtableFull
        → OverfillsOne R.seen.overfills changes.items rows.old }
    ensures reason { HasReason (R.faults rows.old) (R.faults rows.new) result }
{
    if changes.len() == 1 {
        let RowEdits { row, edits } = changes.pop().unwrap();
        return rows.apply(&row, edits);
    }
    rows.apply_all(changes)
}

/// Puts writes of a session that began at `start`, with their records at the last of the next `count` stamps, which are
/// served then. Returns that stamp. Refusals: Exhausted, NoMemory, Device, MemtableFull; no stamp is drawn then.
pub(crate) fn put_at_once<R: Rows, M: MarkStore>(
    alloc: Global,
    rows: &mut R,
    oracle: &mut Oracle<M>,
    start: Moment,
    count: Stamp,
    writes: Vec<Write>,
) -> Result<Stamp, Refusal>
    requires some { 1 ≤ count }
    requires few { count ≤ 2 }
    requires limit { oracle.old.last + count ≤ 2 ^ 63 }
    ensures puts { IfOk result (λ commit. PutsWith
        R.seen (map write_of writes.items) start commit rows.old rows.new) }
    ensures commit { IfOk result (λ commit. commit ≡ oracle.old.last + count) }
    ensures served { IfOk result (λ commit. oracle.new.last ≡ commit) }
    ensures limit { IfOk result (λ commit. commit < 2 ^ 63) }
    ensures reads { OnErr result (OnlyReads R.seen rows.old rows.new) }
    ensures stays { OnErr result (oracle.new.last ≡ oracle.old.last) }
    ensures range { OnErr result ((oracle.new.range_end ≡ oracle.old.range_end)
        ⊎ (oracle.new.range_end ≡ next_range_end oracle.old.range_end)) }
    ensures mark { OnErr result (MayHold (next_range_end oracle.old.range_end)
        (M.mark oracle.old.marks) (M.mark oracle.new.marks)) }
    ensures refusal { IfErr result IsPutRefusal }
    ensures exhausted { IsErrOf result Refusal.Exhausted → MOST_STAMP < oracle.old.last + count }
    ensures full { IsErrOf result Refusal.MemtableFull → HasNoRoomToPut R.seen
        (map write_of writes.items) start (oracle.old.last + count) rows.old }
    ensures reason { HasOneReason (R.faults rows.old) (R.faults rows.new)
        (M.faults oracle.old.marks) (M.faults oracle.new.marks) result }
{
    let commit = Moment::after(oracle.last() + (count - 1))?;
    let changes = putting_all(alloc, writes, start, commit)?;
    oracle.ready(count)?;
    apply_changes(rows, changes)?;
    oracle.serve(count);
    Ok(commit.stamp())
}
