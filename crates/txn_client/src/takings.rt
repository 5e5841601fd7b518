//! The writes of a transaction: taken together, and tested before they are put.

ghost use Rattle.std.specs.Prelude.{◌≡◌, ◌≤◌, length, map, option_map, IfErr, IfNone, IfOk, IfSome, IsErrOf, None, OnErr, OnOk};
ghost use Rattle.cell_key.specs.Faults.{HasReason};
ghost use Rattle.rows.specs.Calls.{AreReadableFrom, OnlyReads};
ghost use Rattle.rows.specs.Refusals.{IsReadRefusal};
ghost use Rattle.si_model.specs.Answers.{write_named};
ghost use Rattle.txn_client.specs.Takings.{AreFree, AreReadable, IsFirstTaken};
ghost use Rattle.si_model.specs.Takings.{HasShortValue, IsRefusedWrite, IsValueRefusal, IsWriteRefusal, TakesAll, TakesWrite};
ghost use Rattle.txn_client.specs.Writes.{write_of};

use crate::cells;
use crate::value::Value;
use crate::writes::{Write, Writes};
use cell_key::{Refusal, Stamp};
use rows::Rows;
use si_model::{Cell, CellWrite};
use std::alloc::Global;

/// The value of a write. Refusals: BadValue, NoMemory.
fn value_of(alloc: Global, bytes: Option<&[u8]>) -> Result<Option<Value>, Refusal>
    ensures value { IfOk result (λ value. value ≡ option_map (λ bytes. bytes.now) bytes.entry) }
    ensures short { OnOk result
        (HasShortValue (option_map (λ bytes. bytes.now) bytes.entry)) }
    ensures refusal { IfErr result
        (IsValueRefusal (option_map (λ bytes. bytes.now) bytes.entry)) }
{
    match bytes {
        Some(bytes) => {
            let value = Value::new(alloc, bytes)?;
            Ok(Some(value))
        }
        None => Ok(None),
    }
}

/// Takes a write by its names. Refusals: BadRow, BadColumn, BadValue, TooManyWrites, NoMemory.
fn take_write(alloc: Global, taken: &mut Writes, write: CellWrite<'_>) -> Result<(), Refusal>
    ensures takes { OnOk result (TakesWrite
        (map write_of taken.old) (write_named write.entry) (map write_of taken.new)) }
    ensures err { OnErr result (taken.new ≡ taken.old) }
    ensures refusal { IfErr result
        (IsWriteRefusal (map write_of taken.old) (write_named write.entry)) }
{
    let cell = Cell::new(alloc, write.cell.row, write.cell.family)?;
    let value = value_of(alloc, write.value)?;
    taken.set(Write { cell, value }, u64::MAX)
}

/// Takes writes, one after the other.
pub(crate) fn take_all(
    alloc: Global,
    taken: Writes,
    asked: &[CellWrite<'_>],
) -> Result<Writes, Refusal>
    ensures takes { IfOk result (λ all. TakesAll
        (map write_of taken) (map write_named asked.now) (map write_of all)) }
    ensures refusal { IfErr result
        (IsRefusedWrite (map write_of taken) (map write_named asked.now)) }
{
    let mut taken = taken;
    for write in asked.iter() {
        take_write(alloc, &mut taken, *write)?;
    }
    Ok(taken)
}

/// The place of the first write, counted from 1, whose cell isn't free for a session that began at `start`.
pub(crate) fn first_taken<R: Rows>(
    rows: &mut R,
    writes: &[Write],
    start: Stamp,
) -> Result<Option<u16>, Refusal>
    requires { length writes.now ≤ 256 }
    ensures taken { AreReadable R.seen rows.old writes.now → IfOk result (λ place. IfSome place
        (IsFirstTaken (R.seen.cells rows.old) start writes.now)) }
    ensures free { AreReadable R.seen rows.old writes.now → IfOk result (λ place. IfNone place
        (AreFree (R.seen.cells rows.old) start writes.now (length writes.now))) }
    ensures reads { OnlyReads R.seen rows.old rows.new }
    ensures refusal { IfErr result IsReadRefusal }
    ensures undamaged { AreReadableFrom R.seen rows.old None
        → ¬ (IsErrOf result Refusal.Damaged) }
    ensures reason { HasReason (R.faults rows.old) (R.faults rows.new) result }
{
    for (index, write) in writes.iter().enumerate() {
        if cells::is_taken(rows, &write.cell, start)? {
            return Ok(Some(index as u16 + 1));
        }
    }
    Ok(None)
}
