//! The table of active sessions. Its type is named for those who run them: clients (Percolator).

ghost use Rattle.std.specs.Prelude.{◌≡◌, ◌+◌, ◌-◌, ◌<◌, ◌^◌, ◌⊎◌, ℕ, IfErr, IfOk, IfSome, IsErrOf, IsSome, OnErr, OnOk};
ghost use Rattle.std.specs.Prelude.{◌≤◌, Some, is_some, if◌then◌else◌, map};
ghost use Rattle.std.specs.BTreeMap as btree;
ghost use Rattle.std.specs.BTreeMap.{Updates, btree_map_len};
ghost use Rattle.std.specs.FinMap.{empty, get, len};
ghost use Rattle.std.specs.Ordering.{nat_cmp};
ghost use Rattle.cell_key.specs.Cells.{Cells};
ghost use Rattle.cell_key.specs.Names.{IsFamily, IsRow};
ghost use Rattle.cell_key.specs.Faults.{HasReason};
ghost use Rattle.si_model.specs.Machine as machine;
ghost use Rattle.si_model.specs.Machine.{State};
ghost use Rattle.si_model.specs.Replies.{found_reply, item_of, progress_reply, range_of, reach_of, result_reply, scan_reply};
ghost use Rattle.si_model.specs.Scans.{HasFamilies, HasRows};
ghost use Rattle.si_model.specs.Servers.{IsBelowAll, IsReachedByServers};
ghost use Rattle.si_model.specs.ShowsCells.{ShowsCells};
ghost use Rattle.si_model.specs.Reads.{cell_of};
ghost use Rattle.txn_client.specs.Reads.{IsDamaged, IsFound, IsShort};
ghost use Rattle.txn_client.specs.Ranges.{range_named};
ghost use Rattle.si_model.specs.AnswerLimits.{IsInScanLimits};
ghost use Rattle.txn_client.specs.Scans.{IsScanCount, IsScanDamaged, IsScanFound, IsScanReadable};
ghost use Rattle.txn_client.specs.Refusals.{HasNoStamp, HasOneReason, IsBeginRefusal, IsStartRefusal, IsDeleteRefusal, IsGetRefusal, IsNextReadable, IsScanRefusal, IsSetRefusal, IsStepRefusal, StepCauses, StepLeaves};
ghost use Rattle.txn_client.specs.Buffers.{BeginsEmpty, Buffers, BuffersNone};
ghost use Rattle.rows.specs.Calls.{KeepsBelow, OnlyReads};
ghost use Rattle.rows.specs.Sources.{DrawsStamp, IsLeft};
ghost use Rattle.txn_client.specs.Room.{LacksStepRoom, StepMakes};
ghost use Rattle.txn_client.specs.Shows.{DrawsIn, IsAboutToDraw, IsCellRefusal, IsCrowded, IsInactive, IsOpenSession, IsScanCause, KnowsTop, SameClients, Shows, ShowsClients, Steps, TouchesFor, open_session, session_count, top_after};

use crate::cells;
use crate::range::Range;
use crate::scan::Scan;
use crate::session::{Phase, Session};
use crate::value::Value;
use crate::writes::{Write, Writes};
use cell_key::{MOST_STAMP, Moment, Refusal, Stamp};
use rows::{Rows, Stamps};
use si_model::{Cell, Found, Progress, ScanRange, ScanReply};
use std::alloc::Global;
use std::collections::BTreeMap;

/// The most sessions that are active at once.
pub(crate) const MOST_SESSIONS: usize = 1024;

/// The most cells that a scan may look at.
const MOST_SCANNED: u32 = 1000;

/// The active sessions by their starts, and the greatest stamp answered.
///
/// Each call is a step of the snapshot machine: if cells, sessions and last stamp show one of its states, the machine
/// may give the same answer there, and they show its next state afterwards. A refusal changes no cell and no session,
/// and the call may be repeated.
#[derive(Drop)]
pub struct Clients {
    pub(crate) alloc: Global,
    pub(crate) top: Stamp,
    pub(crate) sessions: BTreeMap<Stamp, Session>,
    /// The bytes of the writes that all sessions buffer.
    pub(crate) buffered: u64,
    /// The most of these bytes: `u64::MAX` without a limit.
    pub(crate) most_buffered: u64,
}

/// The greatest stamp answered, after a step.
fn top_after_step(top: Stamp, progress: Progress) -> Stamp
    ensures { result ≡ top_after top progress }
{
    match progress {
        Progress::Stamped(commit) => commit,
        _ => top,
    }
}

impl Clients {
    /// No sessions. The top is the greatest stamp answered, or 0. If other servers draw stamps, it may be any lower
    /// one.
    pub fn new(alloc: Global, top: Stamp) -> Clients
        requires { top < 2 ^ 63 }
        ensures top { result.top ≡ top }
        ensures shown { (st : State) → top ≤ st.top → st.active ≡ empty → ShowsClients result st }
        ensures buffered { result.buffered ≡ 0 }
        ensures limit { result.most_buffered ≡ 2 ^ 64 - 1 }
    {
        Clients {
            alloc,
            top,
            sessions: BTreeMap::new(alloc),
            buffered: 0,
            most_buffered: u64::MAX,
        }
    }

    /// Sets the most bytes that the writes of all sessions may have: at first there is no limit. Only `set` and
    /// `delete` keep to it. A write counts its row, its family and its value in bytes.
    pub fn limit_buffer(&mut self, most: u64)
        ensures { self.new ≡ record self.old { most_buffered = most } }
    {
        self.most_buffered = most;
    }

    /// The greatest stamp answered, or 0 before the first. If other servers draw stamps, this server may not know a
    /// greater one.
    pub fn top(&self) -> Stamp
        ensures top { result ≡ self.now.top }
        ensures shown { (st : State) → ShowsClients self.now st → result ≤ st.top }
        ensures known { (st : State) → KnowsTop self.now st → result ≡ st.top }
    {
        self.top
    }

    /// How many sessions are active.
    pub fn len(&self) -> usize
        ensures count { result ≡ session_count self.now }
        ensures shown { (st : State) → ShowsClients self.now st → result ≡ len st.active }
    {
        self.sessions.len()
    }

    /// The bytes of the writes that all sessions buffer: their rows, families and values.
    pub fn buffered(&self) -> u64
        ensures { result ≡ self.now.buffered }
    {
        self.buffered
    }

    /// The smallest start of an active session, or the top plus one. No session has a lower start, and none will get
    /// one. If other servers draw stamps, this holds of this server's sessions.
    pub fn floor(&self) -> Stamp
        ensures below { (st : State) → IsReachedByServers st → ShowsClients self.now st
            → IsBelowAll st result }
        ensures floor { (st : State) → IsReachedByServers st → ShowsClients self.now st
            → KnowsTop self.now st → machine.IsFloor st result }
    {
        match self.sessions.first_key_value() {
            Some((start, _)) => *start,
            None => self.top.saturating_add(1),
        }
    }

    /// Begins a session (Percolator, the start of a transaction). Returns its start, which is drawn from the source of
    /// stamps and names the session.
    ///
    /// # Errors
    ///
    /// `TooManySessions` if 1,024 are active, `Exhausted` after the greatest stamp, `Device` if a draw failed,
    /// `NoMemory`. If the source knows its last stamp, the session is allocated before its start is drawn. Otherwise it
    /// is put after its start is drawn: that stamp is told to nobody if there is no memory.
    pub fn begin<S: Stamps>(&mut self, stamps: &mut S) -> Result<Stamp, Refusal>
        ensures step { (cells : Cells) → Steps cells self.old (S.source.last stamps.old)
            machine.Begin (result_reply machine.Begun result) cells self.new
            (S.source.last stamps.new) }
        ensures drawn { IfOk result (λ start.
            DrawsStamp S.source stamps.old start stamps.new) }
        ensures rises { S.source.last stamps.old ≤ S.source.last stamps.new }
        // A refusal leaves a source that knows its last stamp unchanged, or as a refused draw leaves it.
        ensures left { OnErr result (IfSome (S.source.known stamps.old) (λ last.
            IsLeft S.source stamps.old stamps.new)) }
        ensures refusal { IfErr result IsBeginRefusal }
        ensures crowded { (st : State) → ShowsClients self.old st → IsCrowded st
            → IsErrOf result Refusal.TooManySessions }
        ensures same { OnErr result (SameClients self.old self.new) }
        ensures undrawn { IsErrOf result Refusal.TooManySessions
            ⊎ IsErrOf result Refusal.Exhausted → stamps.new ≡ stamps.old }
        ensures allocated { IfSome (S.source.known stamps.old) (λ last.
            IsErrOf result Refusal.NoMemory → stamps.new ≡ stamps.old) }
        ensures exhausted { IfSome (S.source.known stamps.old) (λ last.
            IsErrOf result Refusal.Exhausted → last ≡ MOST_STAMP) }
        ensures reason { HasReason (S.faults stamps.old) (S.faults stamps.new) result }
        ensures buffered { IfOk result (BeginsEmpty self.old self.new) }
    {
        if self.sessions.len() >= MOST_SESSIONS {
            return Err(Refusal::TooManySessions);
        }
        match stamps.known() {
            Some(last) => self.begin_next(stamps, last),
            None => self.begin_drawn(stamps),
        }
    }

    /// Begins a session with the next stamp. It is put before its start is drawn, so that no stamp is lost for want of
    /// memory. Refusals: Exhausted, Device, NoMemory.
    fn begin_next<S: Stamps>(&mut self, stamps: &mut S, last: Stamp) -> Result<Stamp, Refusal>
        requires room { btree_map_len self.old.sessions < 1024 }
        requires known { S.source.known stamps.old ≡ Some last }
        requires last { last ≡ S.source.last stamps.old }
        requires limit { last < 2 ^ 63 }
        ensures step { (cells : Cells) → Steps cells self.old (S.source.last stamps.old)
            machine.Begin (result_reply machine.Begun result) cells self.new
            (S.source.last stamps.new) }
        ensures drawn { IfOk result (λ start.
            DrawsStamp S.source stamps.old start stamps.new) }
        ensures rises { S.source.last stamps.old ≤ S.source.last stamps.new }
        ensures left { OnErr result (IsLeft S.source stamps.old stamps.new) }
        ensures refusal { IfErr result IsStartRefusal }
        ensures same { OnErr result (SameClients self.old self.new) }
        ensures undrawn { IsErrOf result Refusal.Exhausted ⊎ IsErrOf result Refusal.NoMemory
            → stamps.new ≡ stamps.old }
        ensures exhausted { IsErrOf result Refusal.Exhausted → last ≡ MOST_STAMP }
        ensures reason { HasReason (S.faults stamps.old) (S.faults stamps.new) result }
        ensures buffered { IfOk result (BeginsEmpty self.old self.new) }
    {
        let start = Moment::after(last)?;
        let replaced = self.make_session(start)?;
        match stamps.draw() {
            Ok(start) => {
                self.top = start;
                Ok(start)
            }
            Err(refusal) => {
                self.undo_session(start, replaced);
                Err(refusal)
            }
        }
    }

    /// Draws a start, and puts its session. Refusals: Exhausted, Device, NoMemory.
    fn begin_drawn<S: Stamps>(&mut self, stamps: &mut S) -> Result<Stamp, Refusal>
        requires room { btree_map_len self.old.sessions < 1024 }
        ensures step { (cells : Cells) → Steps cells self.old (S.source.last stamps.old)
            machine.Begin (result_reply machine.Begun result) cells self.new
            (S.source.last stamps.new) }
        ensures drawn { IfOk result (λ start.
            DrawsStamp S.source stamps.old start stamps.new) }
        ensures rises { S.source.last stamps.old ≤ S.source.last stamps.new }
        ensures refusal { IfErr result IsStartRefusal }
        ensures same { OnErr result (SameClients self.old self.new) }
        ensures undrawn { IsErrOf result Refusal.Exhausted → stamps.new ≡ stamps.old }
        ensures reason { HasReason (S.faults stamps.old) (S.faults stamps.new) result }
        ensures buffered { IfOk result (BeginsEmpty self.old self.new) }
    {
        let start = stamps.draw()?;
        let begun = Moment::new(start);
        let _replaced = self.make_session(begun)?;
        self.top = start;
        Ok(start)
    }

    /// Puts an open session without writes at its start, and answers what stood there.
    fn make_session(&mut self, start: Moment) -> Result<Option<Session>, Refusal>
        ensures replaced { IfOk result (λ replaced.
            replaced ≡ btree.get nat_cmp self.old.sessions start) }
        ensures made { OnOk result (Updates
            nat_cmp self.old.sessions self.new.sessions start (Some (open_session start))) }
        ensures len { OnOk result (btree_map_len self.new.sessions ≡ btree_map_len self.old.sessions
            + (if is_some (btree.get nat_cmp self.old.sessions start) then 0 else 1)) }
        ensures err { OnErr result (self.new.sessions.entries ≡ self.old.sessions.entries) }
        ensures others { self.new ≡ record self.old { sessions = self.new.sessions } }
        ensures refusal { IfErr result (λ refusal. refusal ≡ Refusal.NoMemory) }
    {
        let session = Session {
            start,
            commit: start,
            phase: Phase::Open,
            writes: Writes::new(self.alloc),
        };
        let replaced = self.sessions.insert(start.stamp(), session)?;
        Ok(replaced)
    }

    /// Puts back what stood at the start of a session that was made. No memory is taken.
    fn undo_session(&mut self, start: Moment, replaced: Option<Session>)
        requires { IsSome (btree.get nat_cmp self.old.sessions start) }
        ensures undone { Updates nat_cmp self.old.sessions self.new.sessions start replaced }
        ensures len { btree_map_len self.new.sessions + (if is_some replaced then 0 else 1)
            ≡ btree_map_len self.old.sessions }
        ensures others { self.new ≡ record self.old { sessions = self.new.sessions } }
    {
        match replaced {
            Some(session) => {
                let _ = self.sessions.insert(start.stamp(), session);
            }
            None => {
                self.sessions.remove(&start.stamp());
            }
        }
    }

    /// Ends a session. Allocates nothing.
    ///
    /// # Errors
    ///
    /// `UnknownSession` if none is active with this start.
    pub fn stop(&mut self, start: Stamp) -> Result<(), Refusal>
        ensures step { (cells : Cells) (last : ℕ) → Steps cells self.old last
            (machine.Stop start) (result_reply (λ _. machine.StopDone) result) cells self.new last }
        ensures refusal { IfErr result (λ refusal. refusal ≡ Refusal.UnknownSession) }
        ensures err { OnErr result (SameClients self.old self.new) }
        ensures unknown { (st : State) → ShowsClients self.old st → IsInactive st start
            → IsErrOf result Refusal.UnknownSession }
        ensures buffered { BuffersNone self.old self.new start }
    {
        let Some(session) = self.sessions.remove(&start) else {
            return Err(Refusal::UnknownSession);
        };
        self.buffered = self.buffered.saturating_sub(session.writes.bytes());
        Ok(())
    }

    /// Whether a session is active.
    pub fn is_active(&self, start: Stamp) -> bool
        ensures { (st : State) → ShowsClients self.now st
            → result ≡ is_some (get st.active start) }
    {
        self.sessions.contains_key(&start)
    }

    /// The cell of a request to an open session. Refusals: UnknownSession, WrongPhase, BadRow, BadColumn, NoMemory.
    fn open_cell(&self, start: Stamp, row: &[u8], family: &[u8]) -> Result<Cell, Refusal>
        ensures ok { IfOk result (λ cell. cell ≡ cell_of row.now family.now) }
        ensures open { OnOk result (IsOpenSession self.now start) }
        ensures row { OnOk result (IsRow row.now) }
        ensures family { OnOk result (IsFamily family.now) }
        ensures refusal { IfErr result (IsCellRefusal self.now start (cell_of row.now family.now)) }
    {
        let Some(session) = self.sessions.get(&start) else {
            return Err(Refusal::UnknownSession);
        };
        match session.phase {
            Phase::Open => Cell::new(self.alloc, row, family),
            _ => Err(Refusal::WrongPhase),
        }
    }

    /// Reads a cell as of the session's start (Percolator, Get). Returns the value that was committed last by then,
    /// nothing, or the stamp of a lock that blocks the read.
    ///
    /// # Errors
    ///
    /// In this order: `UnknownSession`, `WrongPhase` after the session's first step, `BadRow`, `BadColumn`; then
    /// `Device`, `NoMemory`, or `Damaged` if bytes that were read are malformed.
    pub fn get<R: Rows>(
        &self,
        rows: &mut R,
        start: Stamp,
        row: &[u8],
        family: &[u8],
    ) -> Result<Found, Refusal>
        ensures step { R.seen.holds rows.old → (last : ℕ) → Steps
            (R.seen.cells rows.old) self.now last (machine.Get start (cell_of row.now family.now))
            (result_reply found_reply result) (R.seen.cells rows.new) self.now last }
        // The answer is right for the cells, whatever they contain.
        ensures found { R.seen.readable rows.old row.now → IfOk result
            (IsFound (R.seen.cells rows.old) (cell_of row.now family.now) start) }
        ensures reads { OnlyReads R.seen rows.old rows.new }
        // Cells that show a reached state never give Damaged.
        ensures undamaged { R.seen.readable rows.old row.now → (st : State) → IsReachedByServers st
            → ShowsCells (R.seen.cells rows.old) st → ¬ (IsErrOf result Refusal.Damaged) }
        ensures damaged { R.seen.readable rows.old row.now → IfErr result (λ refusal.
            refusal ≡ Refusal.Damaged
            → IsDamaged (R.seen.cells rows.old) (cell_of row.now family.now) start) }
        ensures short { IfOk result IsShort }
        ensures refusal { IfErr result IsGetRefusal }
        ensures unknown { (st : State) → ShowsClients self.now st → IsInactive st start
            → IsErrOf result Refusal.UnknownSession }
        ensures reason { HasReason (R.faults rows.old) (R.faults rows.new) result }
    {
        let cell = self.open_cell(start, row, family)?;
        cells::read_cell(rows, &cell, start)
    }

    /// Checks a scan's request to an open session. Refusals: UnknownSession, WrongPhase, BadRow, BadColumn, BadCount,
    /// NoMemory.
    fn open_scan(
        &self,
        start: Stamp,
        range: ScanRange<'_>,
        keys_only: bool,
        cells: u32,
    ) -> Result<Scan, Refusal>
        ensures start { IfOk result (λ scan. scan.start ≡ start) }
        ensures range { IfOk result (λ scan. range_named scan.range ≡ range_of range.entry) }
        ensures keys { IfOk result (λ scan. scan.keys_only ≡ keys_only) }
        ensures open { OnOk result (IsOpenSession self.now start) }
        ensures rows { OnOk result (HasRows (range_of range.entry)) }
        ensures families { OnOk result (HasFamilies (range_of range.entry)) }
        ensures count { OnOk result (IsScanCount cells) }
        ensures refusal { IfErr result
            (IsScanCause self.now start (range_of range.entry) cells) }
    {
        let Some(session) = self.sessions.get(&start) else {
            return Err(Refusal::UnknownSession);
        };
        let range = match session.phase {
            Phase::Open => Range::new(self.alloc, range)?,
            _ => return Err(Refusal::WrongPhase),
        };
        if cells < 1 || cells > MOST_SCANNED {
            return Err(Refusal::BadCount);
        }
        Ok(Scan {
            start,
            range,
            keys_only,
        })
    }

    /// Reads the cells of a range as of the session's start, by row and then by family. It names each cell that has a
    /// value, with the value, and each cell that a lock blocks, with the lock's stamp. A cell that it passes without
    /// naming has nothing. A value is left out if only keys are asked for, or if its item alone would take more than
    /// 61,440 bytes of a reply.
    ///
    /// It covers the whole range (`End`), or stops after a cell (`More`): when it has looked at `cells` cells, cells of
    /// other families included, or before a cell whose item would make the items take more than 61,440 bytes. It
    /// advances by at least one cell.
    ///
    /// # Errors
    ///
    /// In this order: `UnknownSession`, `WrongPhase` after the session's first step, `BadRow`, `BadColumn`, `BadCount`
    /// if `cells` is 0 or above 1,000; then `Device`, `NoMemory`, or `Damaged` if bytes that were read are malformed.
    pub fn scan<R: Rows>(
        &self,
        rows: &mut R,
        start: Stamp,
        range: ScanRange<'_>,
        keys_only: bool,
        cells: u32,
    ) -> Result<ScanReply, Refusal>
        ensures step { R.seen.holds rows.old → (last : ℕ) → Steps
            (R.seen.cells rows.old) self.now last
            (machine.ScanFrom start (range_of range.entry) keys_only cells)
            (result_reply scan_reply result) (R.seen.cells rows.new) self.now last }
        // The answer is right for the cells, whatever they contain.
        ensures found { IsScanReadable R.seen rows.old (range_of range.entry)
            → IfOk result (λ reply. IsScanFound (R.seen.cells rows.old) start
            (range_of range.entry) keys_only cells
            (map item_of reply.items.items) (reach_of reply.reach)) }
        ensures reads { OnlyReads R.seen rows.old rows.new }
        // Cells that show a reached state never give Damaged.
        ensures undamaged { IsScanReadable R.seen rows.old (range_of range.entry)
            → (st : State) → IsReachedByServers st → ShowsCells (R.seen.cells rows.old) st
            → ¬ (IsErrOf result Refusal.Damaged) }
        ensures damaged { IsScanReadable R.seen rows.old (range_of range.entry)
            → IfErr result (λ refusal. refusal ≡ Refusal.Damaged
            → IsScanDamaged (R.seen.cells rows.old) (range_of range.entry) start) }
        ensures limits { IfOk result (λ reply. IsInScanLimits
            (map item_of reply.items.items) (reach_of reply.reach)) }
        ensures refusal { IfErr result IsScanRefusal }
        ensures unknown { (st : State) → ShowsClients self.now st → IsInactive st start
            → IsErrOf result Refusal.UnknownSession }
        ensures count { OnOk result (IsScanCount cells) }
        ensures reason { HasReason (R.faults rows.old) (R.faults rows.new) result }
    {
        let scan = self.open_scan(start, range, keys_only, cells)?;
        scan.run(self.alloc, rows, cells)
    }

    /// Buffers a write of a cell (Percolator, Set). If the cell already has a write, that write keeps its place and
    /// gets the new value; otherwise the new write comes last. The first write is the primary.
    ///
    /// # Errors
    ///
    /// In this order: `UnknownSession`, `WrongPhase` after the session's first step, `BadRow`,
    /// `BadColumn`, `BadValue` above 65,536 bytes, `TooManyWrites` at a 257th cell; `NoMemory`, also if the writes that
    /// all sessions buffer would have more bytes than the limit, and more than they have now.
    pub fn set(
        &mut self,
        start: Stamp,
        row: &[u8],
        family: &[u8],
        value: &[u8],
    ) -> Result<(), Refusal>
        ensures step { (cells : Cells) (last : ℕ)
            → Steps cells self.old last (machine.Set start (cell_of row.now family.now) value.now)
            (result_reply (λ _. machine.SetDone) result) cells self.new last }
        ensures refusal { IfErr result IsSetRefusal }
        ensures err { OnErr result (SameClients self.old self.new) }
        ensures unknown { (st : State) → ShowsClients self.old st → IsInactive st start
            → IsErrOf result Refusal.UnknownSession }
        ensures buffered { Buffers self.old self.new start }
        ensures limit { OnOk result ((self.new.buffered ≤ self.old.buffered)
            ⊎ (self.new.buffered ≤ self.old.most_buffered)) }
    {
        let cell = self.open_cell(start, row, family)?;
        let value = Value::new(self.alloc, value)?;
        let session = self.sessions.get_mut(&start).unwrap();
        let write = Write {
            cell,
            value: Some(value),
        };
        let bytes = session
            .writes
            .buffer(write, self.buffered, self.most_buffered)?;
        self.buffered = bytes;
        Ok(())
    }

    /// Buffers the deletion of a cell, in the same way as `set`: an earlier write of the cell keeps its place and
    /// becomes the deletion.
    ///
    /// # Errors
    ///
    /// In this order: `UnknownSession`, `WrongPhase` after the session's first step, `BadRow`,
    /// `BadColumn`, `TooManyWrites` at a 257th cell; `NoMemory`, in the same way as `set`.
    pub fn delete(&mut self, start: Stamp, row: &[u8], family: &[u8]) -> Result<(), Refusal>
        ensures step { (cells : Cells) (last : ℕ)
            → Steps cells self.old last (machine.Delete start (cell_of row.now family.now))
            (result_reply (λ _. machine.DeleteDone) result) cells self.new last }
        ensures refusal { IfErr result IsDeleteRefusal }
        ensures err { OnErr result (SameClients self.old self.new) }
        ensures unknown { (st : State) → ShowsClients self.old st → IsInactive st start
            → IsErrOf result Refusal.UnknownSession }
        ensures buffered { Buffers self.old self.new start }
        ensures limit { OnOk result ((self.new.buffered ≤ self.old.buffered)
            ⊎ (self.new.buffered ≤ self.old.most_buffered)) }
    {
        let cell = self.open_cell(start, row, family)?;
        let session = self.sessions.get_mut(&start).unwrap();
        let write = Write { cell, value: None };
        let bytes = session
            .writes
            .buffer(write, self.buffered, self.most_buffered)?;
        self.buffered = bytes;
        Ok(())
    }

    /// Takes the next step of a session's commit (Percolator, Prewrite and Commit): holds the next cell, draws the
    /// commit stamp, commits at the first cell, or finishes the next cell. It changes one row at most. A step that
    /// draws allocates nothing.
    ///
    /// # Errors
    ///
    /// In this order: `UnknownSession`, `EmptyCommit` if the session has no writes; then `MemtableFull` if the step has
    /// edits to make and the rows have no room for them (a conflict, a loss or a missing lock is answered even when the
    /// rows are full), `Exhausted`, `Device`, `NoMemory`, or `Damaged` if bytes that were read are malformed.
    pub fn step<R: Rows, S: Stamps>(
        &mut self,
        rows: &mut R,
        stamps: &mut S,
        start: Stamp,
    ) -> Result<Progress, Refusal>
        ensures step { R.seen.holds rows.old
            → Steps (R.seen.cells rows.old) self.old (S.source.last stamps.old)
            (machine.Advance start) (result_reply progress_reply result)
            (R.seen.cells rows.new) self.new (S.source.last stamps.new) }
        ensures accepted { IfOk result (λ progress. StepMakes R.seen self.old start progress
            rows.old rows.new) }
        // A stamp that it draws becomes the last one; any other step leaves the source.
        ensures draws { IfOk result (DrawsIn S.source stamps.old stamps.new) }
        ensures refused { OnErr result (StepLeaves R.seen S.source
            rows.old rows.new stamps.old stamps.new) }
        ensures err { OnErr result (SameClients self.old self.new) }
        ensures buffered { Buffers self.old self.new start }
        ensures below { KeepsBelow R.seen rows.old rows.new }
        // At most one row changes, and each added key has the session's start or its commit stamp.
        ensures touched { R.seen.holds rows.old → (st : State) → ShowsClients self.old st
            → TouchesFor st start (R.seen.cells rows.old) (R.seen.cells rows.new) }
        // A step that doesn't draw leaves the source unchanged.
        ensures aside { (st : State) → ShowsClients self.old st → ¬ IsAboutToDraw st start
            → stamps.new ≡ stamps.old }
        // A step that draws doesn't touch the rows.
        ensures drawn { (st : State) → ShowsClients self.old st → IsAboutToDraw st start
            → rows.new ≡ rows.old }
        ensures refusal { IfErr result IsStepRefusal }
        // Damage is answered only for the row of the next cell.
        ensures undamaged { IsNextReadable R.seen rows.old self.old start
            → ¬ (IsErrOf result Refusal.Damaged) }
        ensures causes { (st : State) → ShowsClients self.old st → StepCauses st start result }
        // Exhausted is answered only by a step that draws, after the greatest stamp if the last one is known.
        ensures no_stamp { IsErrOf result Refusal.Exhausted
            → HasNoStamp ((st : State) → ShowsClients self.old st → IsAboutToDraw st start)
            S.source stamps.old stamps.new }
        // MemtableFull comes only if the rows have no room for the edits of the session's next step.
        ensures full { IsErrOf result Refusal.MemtableFull
            → LacksStepRoom R.seen self.old start rows.old }
        ensures reason { HasOneReason (R.faults rows.old) (R.faults rows.new)
            (S.faults stamps.old) (S.faults stamps.new) result }
    {
        let Some(session) = self.sessions.get_mut(&start) else {
            return Err(Refusal::UnknownSession);
        };
        let bytes = session.writes.bytes();
        let outcome = session.advance(self.alloc, rows, stamps)?;
        self.top = top_after_step(self.top, outcome.progress);
        if outcome.ended {
            self.sessions.remove(&start);
            self.buffered = self.buffered.saturating_sub(bytes);
        }
        Ok(outcome.progress)
    }
}
