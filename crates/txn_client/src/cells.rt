//! Reads of a cell, and row transactions on it.

ghost use Rattle.std.specs.Prelude.{◌≡◌, ◌≢◌, ◌<◌, ◌≤◌, ◌^◌, [], ◌∷◌, ℕ, List, length, IfOk, OnOk, OnErr, IfErr, IsErrOf, IfSome, IfNone, OnSome, Some, None};
ghost use Rattle.std.specs.Bool.{OnTrue, OnFalse};
ghost use Rattle.std.specs.List.{AllByRecursion};
ghost use Rattle.cell_key.specs.Cells.{IsEditOf};
ghost use Rattle.cell_key.specs.Faults.{HasReason};
ghost use Rattle.cell_key.specs.Columns.{lock_text};
ghost use Rattle.cell_key.specs.declared.columns.WriteKind.TheVariants as kind;
ghost use Rattle.rows.specs.Calls.{AppliesSuch, OnlyReads};
ghost use Rattle.rows.specs.Refusals.{IsEditRefusal, IsReadRefusal, IsRefusalOfRead};
ghost use Rattle.rows.specs.Room.{HasNoRoom};
ghost use Rattle.si_model.specs.Edits.{RecordsCell};
ghost use Rattle.si_model.specs.Reads.{IsGone};
ghost use Rattle.si_model.specs.declared.replies.Cell.{Cell as CellOf};
ghost use Rattle.txn_client.specs.Reads.{IsFound, IsShort, IsDamaged, IsTaken, IsFree};
ghost use Rattle.txn_client.specs.Refusals.{IsRowRefusal};
ghost use Rattle.txn_client.specs.Room.{HoldsCell, IsHolding};

use crate::writes::Write;
use cell_key::{
    CellKey, Edit, Lock, Moment, Qualifier, Record, Refusal, Stamp, WriteKind, record_lock,
};
use rows::Rows;
use si_model::{Cell, Found};
use std::alloc::Global;

/// Reads a cell for a session that began at `start` (Percolator, Get).
pub(crate) fn read_cell<R: Rows>(rows: &mut R, cell: &Cell, start: Stamp) -> Result<Found, Refusal>
    ensures found { R.seen.readable rows.old cell.now.row
        → IfOk result (IsFound (R.seen.cells rows.old) cell.now start) }
    ensures short { IfOk result IsShort }
    ensures reads { OnlyReads R.seen rows.old rows.new }
    ensures refusal { IfErr result IsReadRefusal }
    ensures damaged { R.seen.readable rows.old cell.now.row → IfErr result (λ refusal.
        refusal ≡ Refusal.Damaged → IsDamaged (R.seen.cells rows.old) cell.now start) }
    ensures reason { HasReason (R.faults rows.old) (R.faults rows.new) result }
{
    let lock = rows.newest(&cell.row, &cell.family, Qualifier::Lock, 0, start)?;
    if let Some((pending, _)) = lock {
        return Ok(Found::Pending(pending));
    }
    let last = rows.newest(&cell.row, &cell.family, Qualifier::Write, 0, start)?;
    let Some((_, text)) = last else {
        return Ok(Found::Nothing);
    };
    let Some(record) = Record::decode(&text) else {
        return Err(Refusal::Damaged);
    };
    let named = record.start;
    match record.kind {
        WriteKind::Delete => Ok(Found::Nothing),
        WriteKind::Set => {
            match rows.newest(&cell.row, &cell.family, Qualifier::Data, named, named)? {
                Some((_, value)) => Ok(Found::Value(value)),
                None => Err(Refusal::Damaged),
            }
        }
    }
}

/// Whether a lock, or a write record at or after `start`, keeps a session that began at `start` from holding the cell
/// (Percolator, Prewrite).
pub(crate) fn is_taken<R: Rows>(rows: &mut R, cell: &Cell, start: Stamp) -> Result<bool, Refusal>
    ensures taken { R.seen.readable rows.old cell.now.row
        → IfOk result (λ taken. OnTrue taken (IsTaken (R.seen.cells rows.old) cell.now start)) }
    ensures free { R.seen.readable rows.old cell.now.row
        → IfOk result (λ taken. OnFalse taken (IsFree (R.seen.cells rows.old) cell.now start)) }
    ensures reads { OnlyReads R.seen rows.old rows.new }
    ensures refusal { IfErr result (IsRefusalOfRead (R.seen.readable rows.old cell.now.row)) }
    ensures reason { HasReason (R.faults rows.old) (R.faults rows.new) result }
{
    let is_locked = rows.has_version(&cell.row, &cell.family, Qualifier::Lock, 0, u64::MAX)?;
    if is_locked {
        return Ok(true);
    }
    rows.has_version(&cell.row, &cell.family, Qualifier::Write, start, u64::MAX)
}

/// The two edits that hold a cell for a set: data and lock.
fn setting(
    alloc: Global,
    cell: &Cell,
    start: Stamp,
    value: Vec<u8>,
    lock: Vec<u8>,
) -> Result<Vec<Edit>, Refusal>
    requires from { 1 ≤ start }
    requires to { start < 2 ^ 63 }
    requires value { length value.items ≤ 65536 }
    requires lock { length lock.items ≤ 65536 }
    ensures holding { IfOk result (λ edits. (first : CellOf)
        → lock.items ≡ lock_text first.row first.family kind.Set
        → IsHolding cell.now start (Some value.items) first edits.items) }
    ensures under { IfOk result (λ edits. AllByRecursion (IsEditOf cell.now.row) edits.items) }
    ensures refusal { IfErr result (λ refusal. refusal ≡ Refusal.NoMemory) }
{
    let mut edits = Vec::with_capacity(alloc, 2)?;
    let data_key = CellKey::new(&cell.row, &cell.family, Qualifier::Data, start)?;
    let lock_key = CellKey::new(&cell.row, &cell.family, Qualifier::Lock, start)?;
    edits.push(Edit::Put(data_key, value))?;
    edits.push(Edit::Put(lock_key, lock))?;
    Ok(edits)
}

/// The edit that holds a cell for a deletion: the lock alone, without data.
fn deleting(alloc: Global, cell: &Cell, start: Stamp, lock: Vec<u8>) -> Result<Vec<Edit>, Refusal>
    requires from { 1 ≤ start }
    requires to { start < 2 ^ 63 }
    requires lock { length lock.items ≤ 65536 }
    ensures holding { IfOk result (λ edits. (first : CellOf)
        → lock.items ≡ lock_text first.row first.family kind.Delete
        → IsHolding cell.now start None first edits.items) }
    ensures under { IfOk result (λ edits. AllByRecursion (IsEditOf cell.now.row) edits.items) }
    ensures refusal { IfErr result (λ refusal. refusal ≡ Refusal.NoMemory) }
{
    let mut edits = Vec::with_capacity(alloc, 1)?;
    let lock_key = CellKey::new(&cell.row, &cell.family, Qualifier::Lock, start)?;
    edits.push(Edit::Put(lock_key, lock))?;
    Ok(edits)
}

/// The edits that hold a cell for a write: its lock, and its data if it is a set.
fn holding(alloc: Global, write: &Write, start: Moment, first: &Cell) -> Result<Vec<Edit>, Refusal>
    ensures holding { IfOk result (λ edits.
        IsHolding write.now.cell start write.now.value first.now edits.items) }
    ensures under { IfOk result (λ edits.
        AllByRecursion (IsEditOf write.now.cell.row) edits.items) }
    ensures refusal { IfErr result (λ refusal. refusal ≡ Refusal.NoMemory) }
{
    let start = start.stamp();
    let lock = Lock::encode(alloc, &first.row, &first.family, write.kind())?;
    match &write.value {
        Some(value) => {
            let value = value.to_vec()?;
            setting(alloc, &write.cell, start, value, lock)
        }
        None => deleting(alloc, &write.cell, start, lock),
    }
}

/// Puts the data and the lock of a cell. The lock names the row and family of the first cell and the kind of the write.
/// A deletion puts no data.
pub(crate) fn hold<R: Rows>(
    alloc: Global,
    rows: &mut R,
    write: &Write,
    start: Moment,
    first: &Write,
) -> Result<(), Refusal>
    ensures ok { OnOk result (AppliesSuch R.seen
        (HoldsCell write.now.cell start write.now.value first.now.cell) rows.old rows.new) }
    ensures err { OnErr result (OnlyReads R.seen rows.old rows.new) }
    ensures refusal { IfErr result IsEditRefusal }
    ensures full { IsErrOf result Refusal.MemtableFull → HasNoRoom
        R.seen.overfills rows.old (HoldsCell write.now.cell start write.now.value first.now.cell) }
    ensures reason { HasReason (R.faults rows.old) (R.faults rows.new) result }
{
    let edits = holding(alloc, write, start, &first.cell)?;
    rows.apply(&write.cell.row, edits)?;
    Ok(())
}

/// Replaces the lock by the write record, if the lock is still there.
pub(crate) fn record<R: Rows>(
    alloc: Global,
    rows: &mut R,
    cell: &Cell,
    start: Moment,
    commit: Moment,
    kind: WriteKind,
) -> Result<bool, Refusal>
    ensures made { IfOk result (λ stood.
        OnTrue stood (AppliesSuch R.seen (RecordsCell
        (R.seen.holds rows.old) (R.seen.cells rows.old) cell.now start commit kind)
        rows.old rows.new)) }
    ensures gone { R.seen.holds rows.old
        → IfOk result (λ stood. OnFalse stood (IsGone (R.seen.cells rows.old) cell.now start)) }
    ensures left { IfOk result (λ stood. OnFalse stood (OnlyReads R.seen rows.old rows.new)) }
    ensures err { OnErr result (OnlyReads R.seen rows.old rows.new) }
    ensures refusal { IfErr result (IsRowRefusal (R.seen.readable rows.old cell.now.row)) }
    ensures full { IsErrOf result Refusal.MemtableFull
        → HasNoRoom R.seen.overfills rows.old
        (RecordsCell (R.seen.holds rows.old) (R.seen.cells rows.old) cell.now start commit kind) }
    ensures reason { HasReason (R.faults rows.old) (R.faults rows.new) result }
{
    let stamp = start.stamp();
    let stands = rows.has_version(&cell.row, &cell.family, Qualifier::Lock, stamp, stamp)?;
    if !stands {
        return Ok(false);
    }
    let edits = record_lock(alloc, &cell.row, &cell.family, start, commit, kind)?;
    rows.apply(&cell.row, edits)?;
    Ok(true)
}
