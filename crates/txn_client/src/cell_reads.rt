//! Reads of several cells in one session.

ghost use Rattle.std.specs.Prelude.{◌≡◌, ◌+◌, ◌*◌, ◌<◌, ◌≤◌, ◌^◌, ◌⊎◌, [], length, None, IfOk, IfErr, OnOk, IsErrOf};
ghost use Rattle.cell_key.specs.Faults.{HasReason};
ghost use Rattle.rows.specs.Calls.{AreReadableFrom, OnlyReads};
ghost use Rattle.si_model.specs.AnswerLimits.{IsInReadLimits};
ghost use Rattle.si_model.specs.Answers.{cell_named, cells_named, told_item, told_items};
ghost use Rattle.si_model.specs.Machine.{State};
ghost use Rattle.si_model.specs.Replies.{found_reply};
ghost use Rattle.si_model.specs.Servers.{IsReachedByServers};
ghost use Rattle.si_model.specs.ShowsCells.{ShowsCells};
ghost use Rattle.si_model.specs.Transactions.{IsTold, told_length, told_lengths};
ghost use Rattle.txn_client.specs.CellReads.{AreRead, IsReadingRefusal, IsReadsRefusal, IsRefusedAmong, IsShortOf, ReadsNext};
ghost use Rattle.txn_client.specs.Reads.{IsShort};
ghost use Rattle.si_model.specs.Takings.{IsNamed};

use crate::cells;
use cell_key::{Refusal, Stamp};
use rows::Rows;
use si_model::{Cell, CellName, Found, ScanFound, told_bytes};
use std::alloc::Global;

/// The most bytes of what is said of the cells of one request.
const MOST_TOLD: usize = 1_046_268;

/// What has been said of the cells so far, and its bytes.
#[derive(Drop)]
pub(crate) struct Told {
    pub(crate) found: Vec<Option<ScanFound>>,
    bytes: usize,
}

/// What is said for the result of a read, after this many bytes. A value that doesn't fit is left out.
fn said_after(bytes: usize, found: Found) -> Option<ScanFound>
    requires few { bytes < 2 ^ 32 }
    requires short { IsShort found }
    ensures told { IsTold bytes (found_reply found) (told_item result) }
    ensures few { (bytes + told_length (told_item result) ≤ 1046268)
        ⊎ (told_length (told_item result) ≤ 9) }
{
    match found {
        Found::Nothing => None,
        Found::Pending(start) => Some(ScanFound::Pending(start)),
        Found::Value(value) => {
            if bytes + 5 + value.len() > MOST_TOLD {
                return Some(ScanFound::Unsent);
            }
            Some(ScanFound::Value(value))
        }
    }
}

impl Told {
    /// Reads the next cell for a session that began at `start`.
    fn read_next<R: Rows>(
        &mut self,
        alloc: Global,
        rows: &mut R,
        start: Stamp,
        name: CellName<'_>,
    ) -> Result<(), Refusal>
        requires few { self.old.bytes ≤ 1046268 + 9 * length self.old.found.items }
        requires count { length self.old.found.items < 256 }
        requires sum { self.old.bytes ≡ told_lengths (told_items self.old.found.items) }
        requires short { IsShortOf (length self.old.found.items) self.old.bytes }
        ensures few { OnOk result (self.new.bytes ≤ 1046268 + 9 * length self.new.found.items) }
        ensures count { OnOk result (length self.new.found.items
            ≡ length self.old.found.items + 1) }
        ensures sum { OnOk result (self.new.bytes
            ≡ told_lengths (told_items self.new.found.items)) }
        ensures short { OnOk result (IsShortOf (length self.new.found.items) self.new.bytes) }
        ensures named { OnOk result (IsNamed (cell_named name.entry)) }
        ensures next { R.seen.readable rows.old name.entry.row.now → OnOk result
            (ReadsNext (R.seen.cells rows.old) start (cell_named name.entry) self.old self.new) }
        ensures reads { OnlyReads R.seen rows.old rows.new }
        ensures refusal { IfErr result (IsReadingRefusal (cell_named name.entry)) }
        ensures undamaged { R.seen.readable rows.old name.entry.row.now → (st : State)
            → IsReachedByServers st → ShowsCells (R.seen.cells rows.old) st
            → ¬ (IsErrOf result Refusal.Damaged) }
        ensures reason { HasReason (R.faults rows.old) (R.faults rows.new) result }
    {
        let cell = Cell::new(alloc, name.row, name.family)?;
        let found = cells::read_cell(rows, &cell, start)?;
        let said = said_after(self.bytes, found);
        let bytes = self.bytes + told_bytes(&said);
        self.found.push(said)?;
        self.bytes = bytes;
        Ok(())
    }
}

/// Reads cells one after the other for a session that began at `start`. Answers `BadRow` or `BadColumn` if a name is
/// outside its limits, `Device`, `NoMemory`, or `Damaged` if bytes that were read are malformed.
pub(crate) fn read_all<R: Rows>(
    alloc: Global,
    rows: &mut R,
    start: Stamp,
    names: &[CellName<'_>],
) -> Result<Vec<Option<ScanFound>>, Refusal>
    requires { length names.now ≤ 256 }
    ensures read { AreReadableFrom R.seen rows.old None → IfOk result (λ found. AreRead
        (R.seen.cells rows.old) start 0 (cells_named names.now) (told_items found.items)) }
    ensures short { IfOk result (λ found. IsInReadLimits (told_items found.items)) }
    ensures reads { OnlyReads R.seen rows.old rows.new }
    ensures refused { AreReadableFrom R.seen rows.old None → IfErr result
        (IsRefusedAmong (R.seen.cells rows.old) start (cells_named names.now)) }
    ensures refusal { IfErr result IsReadsRefusal }
    ensures undamaged { AreReadableFrom R.seen rows.old None → (st : State) → IsReachedByServers st
        → ShowsCells (R.seen.cells rows.old) st → ¬ (IsErrOf result Refusal.Damaged) }
    ensures reason { HasReason (R.faults rows.old) (R.faults rows.new) result }
{
    let mut told = Told {
        found: Vec::new(alloc),
        bytes: 0,
    };
    for name in names.iter() {
        told.read_next(alloc, rows, start, *name)?;
    }
    Ok(told.found)
}
