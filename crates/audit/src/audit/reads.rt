//! The audit of Reads.

ghost use Rattle.std.specs.Prelude.{◌≡◌, ◌↔◌, ◌+◌, ◌*◌, ◌<◌, ◌≤◌, Bool, Ok, Some, map, length, IfErr, IfOk, IsTrue, option_map};
ghost use Rattle.si_model.specs.Answers.{cell_named, cells_named, read_answer, told_item, told_items};
ghost use Rattle.si_model.specs.Machine.{IsSnapshot, Refused, Value, Valued};
ghost use Rattle.si_model.specs.Reads.{cell_of};
ghost use Rattle.si_model.specs.Scans.{IsFreeAt};
ghost use Rattle.si_model.specs.Transactions.{IsReadCount, Read, Said, most_told, told_length};
ghost use Rattle.audit.specs.AuditOperations.{HasUnsent, MayTell, MayTellAll, RefusesFirstName, RefusesOnly};
ghost use Rattle.audit.specs.AuditScans.{seen};
ghost use Rattle.audit.specs.Audits.{JudgesOperation, commit_of};
ghost use Rattle.si_model.specs.Takings.{IsNamed};

use crate::audit::refusals::{is_same, is_storage};
use crate::audit::{Audit, names, scans, snapshots};
use cell_key::{Refusal, Stamp};
use si_model::{Cell, CellName, ReadReply, ScanFound, told_bytes};

/// The most cells of a Read.
const MOST_READ: usize = 256;

/// Behind this many bytes of what a Read says of its cells it sends no value.
const MOST_TOLD: usize = 1_046_268;

/// The bytes of what a Read says of a value besides the value: its kind and its length.
const VALUE_BYTES: usize = 5;

/// Whether a Read may have this many cells.
fn is_read_count(count: usize) -> bool
    ensures { IsTrue result ↔ IsReadCount count }
{
    count >= 1 && count <= MOST_READ
}

/// The least length of a value that isn't sent behind this many bytes.
fn least_unsent(used: usize) -> usize
    requires { used < 2_000_000 }
    ensures { (v : Value) → (result ≤ length v)
        ↔ (most_told < used + told_length (Some (Valued v))) }
{
    (MOST_TOLD + 1).saturating_sub(used + VALUE_BYTES)
}

/// Whether a Read sends the value, behind this many bytes.
fn may_send(used: usize, value: &[u8]) -> bool
    requires { used < 2_000_000 }
    ensures { IsTrue result ↔ (used + told_length (Some (Valued value.now)) ≤ most_told) }
{
    used + VALUE_BYTES <= MOST_TOLD && value.len() <= MOST_TOLD - used - VALUE_BYTES
}

/// The refusal of the first cell whose names aren't valid; `None` if all are.
fn first_name_refusal(cells: &[CellName<'_>]) -> Option<Refusal>
    ensures { RefusesFirstName (cells_named cells.now) result }
{
    for cell in cells {
        if let Some(refusal) = names::name_refusal(cell.row, cell.family) {
            return Some(refusal);
        }
    }
    None
}

impl Audit {
    /// Whether a Read may be answered so.
    pub(crate) fn tell_together(
        &mut self,
        start: Stamp,
        cells: &[CellName<'_>],
        stays_open: bool,
        reply: &ReadReply,
    ) -> Result<bool, Refusal>
        ensures { JudgesOperation self.old self.new
            (Read start (cells_named cells.now) stays_open) (read_answer reply.now) result }
    {
        if !is_read_count(cells.len()) {
            return Ok(false);
        }
        if !self.may_tell_all(reply.start, cells, &reply.found)? {
            return Ok(false);
        }
        if !self.open_session(start, reply.start)? {
            return Ok(false);
        }
        if !stays_open {
            self.active.remove(&reply.start);
        }
        Ok(true)
    }

    /// Whether a Read may get this refusal.
    pub(crate) fn refuses_read(
        &self,
        start: Stamp,
        cells: &[CellName<'_>],
        refusal: Refusal,
    ) -> bool
        ensures { (stays_open : Bool) → JudgesOperation self.now self.now
            (Read start (cells_named cells.now) stays_open) (Said (Refused refusal)) (Ok result) }
    {
        if is_storage(refusal) {
            return true;
        }
        match self.read_refusal(start, cells) {
            Some(only) => is_same(only, refusal),
            None => false,
        }
    }

    /// The one refusal that a Read may get besides the storage's, if there is one.
    fn read_refusal(&self, start: Stamp, cells: &[CellName<'_>]) -> Option<Refusal>
        ensures { (stays_open : Bool) → RefusesOnly self.now
            (Read start (cells_named cells.now) stays_open) result }
    {
        if !is_read_count(cells.len()) {
            return Some(Refusal::BadCount);
        }
        if self.session(start).is_none() {
            return self.session_refusal(start);
        }
        first_name_refusal(cells)
    }

    /// Whether a session that began at the start may say this of the cells.
    ///
    /// # Errors
    ///
    /// `NoMemory`.
    fn may_tell_all(
        &self,
        start: Stamp,
        cells: &[CellName<'_>],
        found: &[Option<ScanFound>],
    ) -> Result<bool, Refusal>
        requires { length cells.now ≤ 256 }
        ensures told { IfOk result (λ yes. IsTrue yes
            ↔ MayTellAll self.now start 0 (cells_named cells.now) (told_items found.now)) }
        ensures refusal { IfErr result (λ refusal. refusal ≡ Refusal.NoMemory) }
    {
        if cells.len() != found.len() {
            return Ok(false);
        }
        let mut used = 0;
        for (index, cell) in cells.iter().enumerate() {
            let said = &found[index];
            if !self.may_tell(start, used, cell, said)? {
                return Ok(false);
            }
            used += told_bytes(said);
        }
        Ok(true)
    }

    /// Whether a session that began at the start may say this of the cell, after this many bytes.
    ///
    /// # Errors
    ///
    /// `NoMemory`.
    fn may_tell(
        &self,
        start: Stamp,
        used: usize,
        cell: &CellName<'_>,
        said: &Option<ScanFound>,
    ) -> Result<bool, Refusal>
        requires { used < 2_000_000 }
        ensures told { IfOk result (λ yes. IsTrue yes
            ↔ MayTell self.now start used (cell_named cell.now) (told_item said.now)) }
        ensures refusal { IfErr result (λ refusal. refusal ≡ Refusal.NoMemory) }
    {
        let (row, family) = (cell.row, cell.family);
        if names::name_refusal(row, family).is_some() {
            return Ok(false);
        }
        match said {
            None => Ok(self.may_find(start, row, family, None)),
            Some(ScanFound::Value(value)) => Ok(
                may_send(used, value) && self.may_find(start, row, family, Some(value.as_slice())),
            ),
            Some(ScanFound::Pending(lock)) => {
                Ok(*lock <= start && self.marks.is_marked(row, family, *lock))
            }
            Some(ScanFound::Unsent) => self.may_leave_out(start, used, row, family),
        }
    }

    /// Whether a session that began at the start may find this value, or nothing, in the cell.
    fn may_find(&self, start: Stamp, row: &[u8], family: &[u8], answer: Option<&[u8]>) -> bool
        ensures { IsTrue result
            ↔ (IsFreeAt (seen self.now) start (cell_of row.now family.now)
            × IsSnapshot (map commit_of self.now.commits) start (cell_of row.now family.now)
            (option_map (λ value. value.now) answer.entry)) }
    {
        !self.marks.is_held_back(row, family, start)
            && snapshots::is_snapshot(&self.commits, start, row, family, answer)
    }

    /// Whether a session that began at the start finds a value in the cell that isn't sent behind this many bytes.
    ///
    /// # Errors
    ///
    /// `NoMemory`.
    fn may_leave_out(
        &self,
        start: Stamp,
        used: usize,
        row: &[u8],
        family: &[u8],
    ) -> Result<bool, Refusal>
        requires few { used < 2_000_000 }
        requires named { IsNamed (cell_of row.now family.now) }
        ensures told { IfOk result (λ yes. IsTrue yes
            ↔ (IsFreeAt (seen self.now) start (cell_of row.now family.now)
            × HasUnsent self.now start used (cell_of row.now family.now))) }
        ensures refusal { IfErr result (λ refusal. refusal ≡ Refusal.NoMemory) }
    {
        if self.marks.is_held_back(row, family, start) {
            return Ok(false);
        }
        let cell = Cell::new(self.alloc, row, family)?;
        Ok(scans::has_value(&self.commits, start, &cell, least_unsent(used)))
    }
}
