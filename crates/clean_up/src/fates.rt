//! The fate of a start, from its first cell.

ghost use Rattle.std.specs.Prelude.{◌≡◌, IfErr, IfOk, IsErrOf, OnErr};
ghost use Rattle.cell_key.specs.Faults.{HasReason};
ghost use Rattle.rows.specs.Calls.{OnlyReads};
ghost use Rattle.rows.specs.Refusals.{IsReadRefusal};
ghost use Rattle.rows.specs.Room.{HasNoRoom};
ghost use Rattle.si_model.specs.Edits.{ErasesCell};
ghost use Rattle.clean_up.specs.Fates.{Decides, HasBadRecord, IsToldBy};
ghost use Rattle.clean_up.specs.Refusals.{IsAdvanceRefusal};

use crate::clearing;
use crate::locks::Lock;
use cell_key::{Moment, Qualifier, Record, Refusal};
use rows::{Rows, oldest};
use si_model::Cell;
use std::alloc::Global;

/// The fate of a lock's start, as far as its cleaner knows it.
#[derive(Clone, Copy, Drop)]
pub(crate) enum Fate {
    /// Unknown: the cleaner's first step is still to come.
    Open,
    /// The start was committed at this stamp.
    Forward(Moment),
    /// The start was rolled back.
    Back,
}

/// The fate of a start whose lock is gone from its first cell, from the cell's write records: committed if the first
/// record above the start names it, otherwise rolled back. `Damaged` if that record names no start.
fn recorded<R: Rows>(rows: &mut R, first: &Cell, start: Moment) -> Result<Fate, Refusal>
    ensures found { R.seen.readable rows.old first.now.row
        → IfOk result (IsToldBy (R.seen.cells rows.old) first.now start) }
    ensures reads { OnlyReads R.seen rows.old rows.new }
    ensures refusal { IfErr result IsReadRefusal }
    ensures damaged { R.seen.readable rows.old first.now.row → IfErr result (λ refusal.
        refusal ≡ Refusal.Damaged → HasBadRecord (R.seen.cells rows.old) first.now) }
    ensures reason { HasReason (R.faults rows.old) (R.faults rows.new) result }
{
    let start = start.stamp();
    let next = oldest(
        rows,
        &first.row,
        &first.family,
        Qualifier::Write,
        start + 1,
        u64::MAX,
    )?;
    let Some((commit, text)) = next else {
        return Ok(Fate::Back);
    };
    let Some(record) = Record::decode(&text) else {
        return Err(Refusal::Damaged);
    };
    if record.start == start {
        Ok(Fate::Forward(Moment::new(commit)))
    } else {
        Ok(Fate::Back)
    }
}

/// Decides the fate of a lock's start at its first cell. If the start's lock is there, it is erased, and the start is
/// rolled back. Otherwise the cell's records tell its fate.
pub(crate) fn decide<R: Rows>(alloc: Global, rows: &mut R, lock: &Lock) -> Result<Fate, Refusal>
    ensures decided { IfOk result (λ fate. Decides R.seen lock.now fate rows.old rows.new) }
    ensures err { OnErr result (OnlyReads R.seen rows.old rows.new) }
    ensures refusal { IfErr result IsAdvanceRefusal }
    ensures damaged { R.seen.readable rows.old lock.now.first.row → IfErr result (λ refusal.
        refusal ≡ Refusal.Damaged → HasBadRecord (R.seen.cells rows.old) lock.now.first) }
    ensures full { IsErrOf result Refusal.MemtableFull
        → HasNoRoom R.seen.overfills rows.old
        (ErasesCell (R.seen.holds rows.old) (R.seen.cells rows.old) lock.now.first lock.now.start) }
    ensures reason { HasReason (R.faults rows.old) (R.faults rows.new) result }
{
    if clearing::clear(alloc, rows, &lock.first, lock.start, None)? {
        return Ok(Fate::Back);
    }
    recorded(rows, &lock.first, lock.start)
}
