//! The lock of a cell.

ghost use Rattle.std.specs.Prelude.{◌≡◌, IfErr, IfOk};
ghost use Rattle.cell_key.specs.Faults.{HasReason};
ghost use Rattle.rows.specs.Calls.{OnlyReads};
ghost use Rattle.rows.specs.Refusals.{IsReadRefusal};
ghost use Rattle.clean_up.specs.Locks.{IsStanding, LacksPlace};

use cell_key::{Moment, Qualifier, Refusal};
use rows::Rows;
use si_model::Cell;
use std::alloc::Global;

/// A lock: its start, and the first cell that its session writes.
#[derive(Drop)]
pub(crate) struct Lock {
    pub(crate) start: Moment,
    pub(crate) first: Cell,
}

/// The lock of a cell, if it has one. `Damaged` if the lock names no cell.
pub(crate) fn standing<R: Rows>(
    alloc: Global,
    rows: &mut R,
    cell: &Cell,
) -> Result<Option<Lock>, Refusal>
    ensures found { R.seen.readable rows.old cell.now.row
        → IfOk result (IsStanding (R.seen.cells rows.old) cell.now) }
    ensures reads { OnlyReads R.seen rows.old rows.new }
    ensures refusal { IfErr result IsReadRefusal }
    ensures damaged { R.seen.readable rows.old cell.now.row → IfErr result (λ refusal.
        refusal ≡ Refusal.Damaged → LacksPlace (R.seen.cells rows.old) cell.now) }
    ensures reason { HasReason (R.faults rows.old) (R.faults rows.new) result }
{
    let lock = rows.newest(&cell.row, &cell.family, Qualifier::Lock, 0, u64::MAX)?;
    let Some((start, text)) = lock else {
        return Ok(None);
    };
    let Some(held) = cell_key::Lock::decode(alloc, &text)? else {
        return Err(Refusal::Damaged);
    };
    let cell_key::Lock { row, family, .. } = held;
    Ok(Some(Lock {
        start: Moment::new(start),
        first: Cell { row, family },
    }))
}
