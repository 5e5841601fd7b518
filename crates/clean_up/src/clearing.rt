//! Removal of a lock from a cell, by a write record that replaces it or by an erasure.

ghost use Rattle.std.specs.Prelude.{◌≡◌, IfErr, IfOk, IsErrOf, OnErr};
ghost use Rattle.std.specs.Bool.{OnFalse, OnTrue};
ghost use Rattle.std.specs.List.{AllByRecursion};
ghost use Rattle.cell_key.specs.Cells.{IsEditOf};
ghost use Rattle.cell_key.specs.Faults.{HasReason};
ghost use Rattle.rows.specs.Calls.{AppliesSuch, OnlyReads};
ghost use Rattle.rows.specs.Room.{HasNoRoom};
ghost use Rattle.si_model.specs.Reads.{IsGone};
ghost use Rattle.clean_up.specs.Refusals.{IsRowRefusal};
ghost use Rattle.clean_up.specs.Room.{ClearsCell, IsClearing};

use cell_key::{Edit, Lock, Moment, Qualifier, Refusal, WriteKind, erase_lock, record_lock};
use rows::Rows;
use si_model::Cell;
use std::alloc::Global;

/// The edits that replace a lock by the record of a commit, with the kind of its write, or erase the lock if there is
/// no commit.
fn clearing(
    alloc: Global,
    cell: &Cell,
    start: Moment,
    commit: Option<Moment>,
    kind: WriteKind,
) -> Result<Vec<Edit>, Refusal>
    ensures clearing { IfOk result (λ edits. IsClearing cell.now start commit kind edits.items) }
    ensures under { IfOk result (λ edits. AllByRecursion (IsEditOf cell.now.row) edits.items) }
    ensures refusal { IfErr result (λ refusal. refusal ≡ Refusal.NoMemory) }
{
    match commit {
        Some(commit) => record_lock(alloc, &cell.row, &cell.family, start, commit, kind),
        None => erase_lock(alloc, &cell.row, &cell.family, start),
    }
}

/// Removes the lock of a start from a cell, and returns whether it was there. The record of a commit replaces it, with
/// the lock's kind; if there is no commit, it is erased.
pub(crate) fn clear<R: Rows>(
    alloc: Global,
    rows: &mut R,
    cell: &Cell,
    start: Moment,
    commit: Option<Moment>,
) -> Result<bool, Refusal>
    ensures made { IfOk result (λ stood.
        OnTrue stood (AppliesSuch R.seen (ClearsCell
        (R.seen.holds rows.old) (R.seen.cells rows.old) cell.now start commit) rows.old rows.new)) }
    ensures gone { R.seen.readable rows.old cell.now.row
        → IfOk result (λ stood. OnFalse stood (IsGone (R.seen.cells rows.old) cell.now start)) }
    ensures left { IfOk result (λ stood. OnFalse stood (OnlyReads R.seen rows.old rows.new)) }
    ensures err { OnErr result (OnlyReads R.seen rows.old rows.new) }
    ensures refusal { IfErr result (IsRowRefusal (R.seen.readable rows.old cell.now.row)) }
    ensures full { IsErrOf result Refusal.MemtableFull
        → HasNoRoom R.seen.overfills rows.old
        (ClearsCell (R.seen.holds rows.old) (R.seen.cells rows.old) cell.now start commit) }
    ensures reason { HasReason (R.faults rows.old) (R.faults rows.new) result }
{
    let stamp = start.stamp();
    let lock = rows.newest(&cell.row, &cell.family, Qualifier::Lock, stamp, stamp)?;
    let Some((_, text)) = lock else {
        return Ok(false);
    };
    let kind = Lock::kind_of(&text);
    let edits = clearing(alloc, cell, start, commit, kind)?;
    rows.apply(&cell.row, edits)?;
    Ok(true)
}
