//! The writes that a session takes one after the other.

ghost use Rattle.std.specs.Prelude.{◌≡◌, map, option_map, IfErr, IfOk, OnErr, OnOk};
ghost use Rattle.si_model.specs.Answers.{write_named};
ghost use Rattle.audit.specs.Audits.{change_of, write_of};
ghost use Rattle.si_model.specs.Takings.{HasShortValue, IsRefusedWrite, IsValueRefusal, IsWriteRefusal, TakesAll, TakesWrite};

use crate::audit::parts::Write;
use crate::audit::session_refusals::{MOST_VALUE, MOST_WRITES};
use crate::audit::{lists, writes};
use cell_key::Refusal;
use si_model::{Cell, CellWrite};
use std::alloc::Global;

/// The change of a write. Refusals: BadValue, NoMemory.
fn change_by(alloc: Global, value: Option<&[u8]>) -> Result<Option<Vec<u8>>, Refusal>
    ensures change { IfOk result (λ change.
        change_of change ≡ option_map (λ value. value.now) value.entry) }
    ensures short { OnOk result (HasShortValue (option_map (λ value. value.now) value.entry)) }
    ensures refusal { IfErr result
        (IsValueRefusal (option_map (λ value. value.now) value.entry)) }
{
    let Some(value) = value else {
        return Ok(None);
    };
    if value.len() > MOST_VALUE {
        return Err(Refusal::BadValue);
    }
    let value = Vec::from_slice(alloc, value)?;
    Ok(Some(value))
}

/// Takes a write. Refusals: BadRow, BadColumn, BadValue, TooManyWrites, NoMemory; the writes are unchanged.
fn take_write(alloc: Global, taken: &mut Vec<Write>, asked: CellWrite<'_>) -> Result<(), Refusal>
    ensures takes { OnOk result (TakesWrite (map write_of taken.old.items)
        (write_named asked.entry) (map write_of taken.new.items)) }
    ensures err { OnErr result (taken.new.items ≡ taken.old.items) }
    ensures refusal { IfErr result
        (IsWriteRefusal (map write_of taken.old.items) (write_named asked.entry)) }
{
    let (row, family) = (asked.cell.row, asked.cell.family);
    let cell = Cell::new(alloc, row, family)?;
    let change = change_by(alloc, asked.value)?;
    if taken.len() >= MOST_WRITES && !lists::is_written(taken, row, family) {
        return Err(Refusal::TooManyWrites);
    }
    writes::put(taken, Write { cell, change })
}

/// Takes the writes, one after the other, behind those that the session has taken before.
///
/// # Errors
///
/// `NoMemory`, or the refusal of the first write that isn't taken.
pub(crate) fn take_all(
    alloc: Global,
    before: Vec<Write>,
    asked: &[CellWrite<'_>],
) -> Result<Vec<Write>, Refusal>
    ensures takes { IfOk result (λ all. TakesAll (map write_of before.items)
        (map write_named asked.now) (map write_of all.items)) }
    ensures refusal { IfErr result
        (IsRefusedWrite (map write_of before.items) (map write_named asked.now)) }
{
    let mut taken = before;
    for write in asked.iter() {
        take_write(alloc, &mut taken, *write)?;
    }
    Ok(taken)
}
