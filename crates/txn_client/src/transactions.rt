//! Requests that stand for several of a session, in one call each.

ghost use Rattle.std.specs.Prelude.{◌≡◌, ◌≢◌, ◌+◌, ◌<◌, ◌≤◌, ◌^◌, length, None, IfErr, IfOk, IsErrOf, OnErr};
ghost use Rattle.cell_key.specs.Faults.{HasReason};
ghost use Rattle.oracle.specs.Marks.{MayHold};
ghost use Rattle.oracle.specs.Ranges.{IsDrawRefusal, next_range_end};
ghost use Rattle.rows.specs.Calls.{AreReadableFrom, KeepsBelow, OnlyReads};
ghost use Rattle.si_model.specs.AnswerLimits.{IsInReadLimits};
ghost use Rattle.si_model.specs.Answers.{cells_named, commit_answer, read_answer, result_answer, writes_named, told_items};
ghost use Rattle.si_model.specs.Machine.{State};
ghost use Rattle.si_model.specs.Servers.{IsReachedByServers};
ghost use Rattle.si_model.specs.ShowsCells.{ShowsCells};
ghost use Rattle.si_model.specs.Transactions.{Commit, IsReadCount, Read};
ghost use Rattle.txn_client.specs.Buffers.{BuffersNamed};
ghost use Rattle.txn_client.specs.CellReads.{AreRead};
ghost use Rattle.txn_client.specs.Commits.{BeganAt, CommitDoes, CommitDraws, CommitLeaves, CommitsIn, EndsAt, HasNoRoomToCommit, IsCopyRefusal, LacksStamps};
ghost use Rattle.txn_client.specs.Refusals.{HasOneReason, ReadLeaves};
ghost use Rattle.txn_client.specs.Shows.{SameClients, ShowsClients};
ghost use Rattle.txn_client.specs.Transactions.{DrawsSession, GoesAs, HasSession, IsCommitRefusal, IsReadRequestRefusal, IsSessionRefusal, SessionCauses};

use crate::session::Phase;
use crate::sessions::{Clients, MOST_SESSIONS};
use crate::writes::{Write, Writes};
use crate::{cell_reads, puts, takings};
use cell_key::{MOST_STAMP, Moment, Refusal, Stamp};
use oracle::{MarkStore, Oracle};
use rows::Rows;
use si_model::{CellName, CellWrite, CommitReply, ReadReply};

/// The most cells of a read.
const MOST_READ: usize = 256;

/// The bytes of a put in a log besides its row, its family and its value: the byte of its column, the lengths of these
/// three, and the stamp.
const EDIT_BYTES: usize = 16;

/// The bytes of the value of a write record.
const RECORD_BYTES: usize = 9;

/// At most the bytes that a write's data and record take in a log.
fn write_bytes(row: usize, family: usize, value: usize) -> usize {
    let edit = row.saturating_add(family).saturating_add(EDIT_BYTES);
    edit.saturating_mul(2)
        .saturating_add(value)
        .saturating_add(RECORD_BYTES)
}

/// At most the bytes that the writes of a session take in a log when they are put.
fn buffered_bytes(writes: &[Write]) -> usize {
    let mut bytes: usize = 0;
    for write in writes.iter() {
        let value = match &write.value {
            Some(value) => value.len(),
            None => 0,
        };
        let row = write.cell.row.as_bytes().len();
        let family = write.cell.family.as_bytes().len();
        bytes = bytes.saturating_add(write_bytes(row, family, value));
    }
    bytes
}

/// At most the bytes that writes that are asked for take in a log when they are put.
fn asked_bytes(asked: &[CellWrite<'_>]) -> usize {
    let mut bytes: usize = 0;
    for write in asked.iter() {
        let value = match write.value {
            Some(value) => value.len(),
            None => 0,
        };
        let row = write.cell.row.len();
        let family = write.cell.family.len();
        bytes = bytes.saturating_add(write_bytes(row, family, value));
    }
    bytes
}

/// A session whose transaction is about to be committed: its start, and a copy of its writes so far.
#[derive(Drop)]
struct Committing {
    start: Moment,
    writes: Writes,
}

/// How many stamps a transaction draws: its commit stamp, and before that the start of a new session.
fn stamps_drawn(start: Stamp) -> Stamp
    ensures new { start ≡ 0 → result ≡ 2 }
    ensures named { start ≢ 0 → result ≡ 1 }
{
    if start == 0 { 2 } else { 1 }
}

/// The top after a conflict: the start of a new session, which is drawn, or the top as it was. Refusals: Exhausted,
/// Device.
fn top_after_conflict<M: MarkStore>(
    oracle: &mut Oracle<M>,
    start: Stamp,
    top: Stamp,
) -> Result<Stamp, Refusal>
    ensures new { start ≡ 0 → IfOk result (λ now.
        (now ≡ oracle.old.last + 1) × (oracle.new.last ≡ now)) }
    ensures named { start ≢ 0 → IfOk result (λ now. now ≡ top) }
    ensures aside { start ≢ 0 → oracle.new ≡ oracle.old }
    ensures stays { OnErr result (oracle.new.last ≡ oracle.old.last) }
    ensures range { OnErr result (oracle.new.range_end ≡ oracle.old.range_end) }
    ensures mark { OnErr result (MayHold (next_range_end oracle.old.range_end)
        (M.mark oracle.old.marks) (M.mark oracle.new.marks)) }
    ensures refusal { IfErr result IsDrawRefusal }
    ensures drawing { OnErr result (start ≡ 0) }
    ensures exhausted { IsErrOf result Refusal.Exhausted → oracle.old.last ≡ MOST_STAMP }
    ensures reason { HasReason (M.faults oracle.old.marks) (M.faults oracle.new.marks) result }
{
    if start == 0 {
        return oracle.draw();
    }
    Ok(top)
}

impl Clients {
    /// The start of a request's session: the one that is named, if its session is open, or the stamp after `last` if it
    /// is 0 and one more session may begin. Refusals: UnknownSession, WrongPhase; TooManySessions, Exhausted.
    fn session_start(&self, last: Stamp, start: Stamp) -> Result<Stamp, Refusal>
        requires { last < 2 ^ 63 }
        ensures session { IfOk result (HasSession self.now last start) }
        ensures refusal { IfErr result (IsSessionRefusal self.now last start) }
    {
        if start == 0 {
            if self.sessions.len() >= MOST_SESSIONS {
                return Err(Refusal::TooManySessions);
            }
            let next = Moment::after(last)?;
            return Ok(next.stamp());
        }
        let Some(session) = self.sessions.get(&start) else {
            return Err(Refusal::UnknownSession);
        };
        match session.phase {
            Phase::Open => Ok(start),
            _ => Err(Refusal::WrongPhase),
        }
    }

    /// Reads cells in one session, with nothing between: that of the start, or a new one if the start is 0. The session
    /// then stays open or ends. Returns its start, and for each cell what a Get of the session would find. A value is
    /// left out (`Unsent`) if with it the answers take more than 1,046,268 bytes: a byte for each, a value with its
    /// length in four, and the stamp of a lock in eight.
    ///
    /// # Errors
    ///
    /// In this order: `BadCount` without a cell or above 256; `UnknownSession`, `WrongPhase` after the first step of
    /// the session that is named; for a new one `TooManySessions` if 1,024 are active, `Exhausted` after the greatest
    /// stamp; for each cell in turn `BadRow`, `BadColumn`, and as long as cells are read `Device`, `NoMemory`, or
    /// `Damaged` if bytes that were read are malformed; then, for a new session, `Device` if the oracle's mark could
    /// not be stored, `NoMemory`. All cells are read before a start is drawn: no session has begun then, and none has
    /// ended.
    pub fn read<R: Rows, M: MarkStore>(
        &mut self,
        rows: &mut R,
        oracle: &mut Oracle<M>,
        start: Stamp,
        names: &[CellName<'_>],
        stays_open: bool,
    ) -> Result<ReadReply, Refusal>
        ensures step { R.seen.holds rows.old → GoesAs
            (R.seen.cells rows.old) self.old oracle.old.last
            (Read start (cells_named names.now) stays_open) (result_answer read_answer result)
            (R.seen.cells rows.new) self.new oracle.new.last }
        // The answer is right for the cells, whatever they contain.
        ensures found { AreReadableFrom R.seen rows.old None → IfOk result (λ reply. AreRead
            (R.seen.cells rows.old) reply.start 0 (cells_named names.now)
            (told_items reply.found.items)) }
        ensures short { IfOk result (λ reply. IsInReadLimits (told_items reply.found.items)) }
        ensures session { IfOk result (λ reply.
            DrawsSession self.old oracle.old.last oracle.new.last start reply.start) }
        // The oracle has no part in a session that is named.
        ensures aside { start ≢ 0 → oracle.new ≡ oracle.old }
        ensures reads { OnlyReads R.seen rows.old rows.new }
        // Cells that show a reached state never give Damaged.
        ensures undamaged { AreReadableFrom R.seen rows.old None
            → (st : State) → IsReachedByServers st
            → ShowsCells (R.seen.cells rows.old) st → ¬ (IsErrOf result Refusal.Damaged) }
        ensures refused { OnErr result (ReadLeaves R.seen M.mark
            rows.old rows.new oracle.old oracle.new) }
        ensures same { OnErr result (SameClients self.old self.new) }
        ensures buffered { BuffersNamed self.old self.new start }
        ensures refusal { IfErr result IsReadRequestRefusal }
        ensures count { ¬ IsReadCount (length names.now) → IsErrOf result Refusal.BadCount }
        ensures causes { IsReadCount (length names.now) → (st : State) → ShowsClients self.old st
            → SessionCauses st start result }
        ensures exhausted { IsErrOf result Refusal.Exhausted → oracle.old.last ≡ MOST_STAMP }
        ensures reason { HasOneReason (R.faults rows.old) (R.faults rows.new)
            (M.faults oracle.old.marks) (M.faults oracle.new.marks) result }
    {
        if names.is_empty() || names.len() > MOST_READ {
            return Err(Refusal::BadCount);
        }
        let session = self.session_start(oracle.last(), start)?;
        let found = cell_reads::read_all(self.alloc, rows, session, names)?;
        if start == 0 {
            self.begin(oracle)?;
        }
        let reply = ReadReply {
            start: session,
            found,
        };
        if stays_open {
            return Ok(reply);
        }
        // The session is active, so this isn't refused.
        let _ = self.stop(session);
        Ok(reply)
    }

    /// The session of a transaction, with a copy of its writes. Refusals: as of `session_start`, and NoMemory.
    fn committing(&self, last: Stamp, start: Stamp) -> Result<Committing, Refusal>
        requires { last < 2 ^ 63 }
        ensures session { IfOk result (λ found.
            CommitsIn self.now last start found.start found.writes) }
        ensures refusal { IfErr result (IsCopyRefusal self.now last start) }
    {
        if start == 0 {
            let next = self.session_start(last, start)?;
            return Ok(Committing {
                start: Moment::new(next),
                writes: Writes::new(self.alloc),
            });
        }
        let Some(session) = self.sessions.get(&start) else {
            return Err(Refusal::UnknownSession);
        };
        match session.phase {
            Phase::Open => {
                let writes = session.writes.copy(self.alloc)?;
                Ok(Committing {
                    start: session.start,
                    writes,
                })
            }
            _ => Err(Refusal::WrongPhase),
        }
    }

    /// At most how many bytes the edits of `commit` take in a log: those of the session that is named, if one is active,
    /// and those that are asked for. It is `usize::MAX` if they are more.
    pub fn commit_bytes(&self, start: Stamp, asked: &[CellWrite<'_>]) -> usize {
        let buffered = match self.sessions.get(&start) {
            Some(session) => buffered_bytes(session.writes.as_slice()),
            None => 0,
        };
        buffered.saturating_add(asked_bytes(asked))
    }

    /// Ends the session that is named, if the start isn't 0, and sets the top.
    fn end(&mut self, start: Stamp, top: Stamp)
        ensures { EndsAt self.old self.new start top }
    {
        self.top = top;
        if start == 0 {
            return;
        }
        let Some(session) = self.sessions.remove(&start) else {
            return;
        };
        self.buffered = self.buffered.saturating_sub(session.writes.bytes());
    }

    /// Commits writes in one session, with nothing between: that of the start, whose own writes come first, or a new
    /// one if the start is 0. Data and record of each write are put at once, in any rows, and no lock. Returns the start
    /// of the session, and its commit stamp, or the place of the first cell that is locked or was written at the start
    /// or later; nothing is put or held then. Either way the session has ended.
    ///
    /// # Errors
    ///
    /// In this order: `UnknownSession`, `WrongPhase` after the first step of the session that is named; for a new one
    /// `TooManySessions` if 1,024 are active, `Exhausted` after the greatest stamp; for each write in turn `BadRow`,
    /// `BadColumn`, `BadValue` above 65,536 bytes, `TooManyWrites` at a 257th cell, `NoMemory`; `EmptyCommit` without a
    /// write; `Device`, `NoMemory`, or `Damaged` if bytes that were read are malformed; `Exhausted`, `NoMemory`,
    /// `Device` if the oracle's mark could not be stored; `MemtableFull` if the rows have no room for the edits. Nothing
    /// is committed or held then, no stamp is drawn, and the session that is named has the writes that it had.
    pub fn commit<R: Rows, M: MarkStore>(
        &mut self,
        rows: &mut R,
        oracle: &mut Oracle<M>,
        start: Stamp,
        asked: &[CellWrite<'_>],
    ) -> Result<CommitReply, Refusal>
        ensures step { R.seen.holds rows.old → GoesAs
            (R.seen.cells rows.old) self.old oracle.old.last
            (Commit start (writes_named asked.now)) (result_answer commit_answer result)
            (R.seen.cells rows.new) self.new oracle.new.last }
        // It puts all writes and takes the room of their edits and no more, or it only reads.
        ensures does { IfOk result (CommitDoes R.seen
            self.old oracle.old.last start (writes_named asked.now) rows.old rows.new) }
        ensures draws { IfOk result (CommitDraws oracle.old.last oracle.new.last start) }
        ensures named { start ≢ 0 → (st : State) → ShowsClients self.old st
            → IfOk result (BeganAt start) }
        ensures same { OnErr result (SameClients self.old self.new) }
        ensures buffered { BuffersNamed self.old self.new start }
        ensures refused { OnErr result (CommitLeaves R.seen M.mark
            rows.old rows.new oracle.old oracle.new) }
        ensures below { KeepsBelow R.seen rows.old rows.new }
        ensures refusal { IfErr result IsCommitRefusal }
        ensures causes { (st : State) → ShowsClients self.old st → SessionCauses st start result }
        // Exhausted is answered only if the stamps that it would draw aren't there.
        ensures exhausted { IsErrOf result Refusal.Exhausted → LacksStamps oracle.old.last start }
        // MemtableFull comes only if the rows have no room for the edits of all writes.
        ensures full { IsErrOf result Refusal.MemtableFull → HasNoRoomToCommit R.seen
            self.old oracle.old.last start (writes_named asked.now) rows.old }
        // Rows that can be read never give Damaged.
        ensures undamaged { AreReadableFrom R.seen rows.old None
            → ¬ (IsErrOf result Refusal.Damaged) }
        ensures reason { HasOneReason (R.faults rows.old) (R.faults rows.new)
            (M.faults oracle.old.marks) (M.faults oracle.new.marks) result }
    {
        let found = self.committing(oracle.last(), start)?;
        let began = found.start;
        let session = began.stamp();
        let writes = takings::take_all(self.alloc, found.writes, asked)?;
        if writes.len() == 0 {
            return Err(Refusal::EmptyCommit);
        }
        if let Some(place) = takings::first_taken(rows, writes.as_slice(), session)? {
            let top = top_after_conflict(oracle, start, self.top)?;
            self.end(start, top);
            return Ok(CommitReply::Conflict(session, place));
        }
        let count = stamps_drawn(start);
        let commit = puts::put_at_once(self.alloc, rows, oracle, began, count, writes.into_vec())?;
        self.end(start, commit);
        Ok(CommitReply::Committed(session, commit))
    }
}
