//! The edits that remove a lock, with or without a write record.

ghost use Rattle.std.specs.Prelude.{◌≡◌, IfErr, IfOk};
ghost use Rattle.std.specs.List.{AllByRecursion};
ghost use Rattle.cell_key.specs.Cells.{IsEditOf};
ghost use Rattle.cell_key.specs.LockEdits.{IsErasing, IsRecording};

use crate::columns::{Record, WriteKind};
use crate::edits::Edit;
use crate::keys::{CellKey, Qualifier};
use crate::moments::Moment;
use crate::names::{Family, Row};
use crate::refusals::Refusal;
use std::alloc::Global;

/// The two edits that replace the lock of a start by a write record of this kind at the commit stamp. Answers
/// `NoMemory` if there is no memory for them.
pub fn record_lock(
    alloc: Global,
    row: &Row,
    family: &Family,
    start: Moment,
    commit: Moment,
    kind: WriteKind,
) -> Result<Vec<Edit>, Refusal>
    ensures recording { IfOk result (λ edits.
        IsRecording row.now family.now start commit kind edits.items) }
    ensures under { IfOk result (λ edits. AllByRecursion (IsEditOf row.now) edits.items) }
    ensures refusal { IfErr result (λ refusal. refusal ≡ Refusal.NoMemory) }
{
    let start = start.stamp();
    let commit = commit.stamp();
    let mut edits = Vec::with_capacity(alloc, 2)?;
    let record = CellKey::new(row, family, Qualifier::Write, commit)?;
    let lock = CellKey::new(row, family, Qualifier::Lock, start)?;
    let text = Record { start, kind }.encode(alloc)?;
    edits.push(Edit::Put(record, text))?;
    edits.push(Edit::Erase(lock))?;
    Ok(edits)
}

/// The edit that erases the lock of a start without a write record. Answers `NoMemory` if there is no memory for it.
pub fn erase_lock(
    alloc: Global,
    row: &Row,
    family: &Family,
    start: Moment,
) -> Result<Vec<Edit>, Refusal>
    ensures erasing { IfOk result (λ edits. IsErasing row.now family.now start edits.items) }
    ensures under { IfOk result (λ edits. AllByRecursion (IsEditOf row.now) edits.items) }
    ensures refusal { IfErr result (λ refusal. refusal ≡ Refusal.NoMemory) }
{
    let start = start.stamp();
    let mut edits = Vec::with_capacity(alloc, 1)?;
    let lock = CellKey::new(row, family, Qualifier::Lock, start)?;
    edits.push(Edit::Erase(lock))?;
    Ok(edits)
}
