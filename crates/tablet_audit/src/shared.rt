//! The judgement of what a client sent, and of its answer.

ghost use Rattle.std.specs.Prelude.{◌≡◌, ◌↔◌, ◌<◌, ◌&&◌, not, ℕ, true, false, IfErr, IfOk, IsTrue, Some};
ghost use Rattle.cell_key.specs.declared.refusals.Refusal.TheVariants.{BadRequest, NoMemory as LacksMemory};
ghost use Rattle.si_model.specs.Machine.{State, Refused, Stop as StopOf, StopDone};
ghost use Rattle.si_model.specs.Transactions.{One, Said};
ghost use Rattle.request_codec.specs.Answers.{answer_of};
ghost use Rattle.request_codec.specs.Operations.{HasCells, operation_of};
ghost use Rattle.audit.specs.Audits.{Keeps as KeepsState};
ghost use Rattle.ownership.specs.Frames.{frame_of};
ghost use Rattle.ownership.specs.Names as names;
ghost use Rattle.ownership.specs.Names.{name_of};
ghost use Rattle.ownership.specs.Tables.{held_in, owns, table_of};
ghost use Rattle.ownership.specs.Turns.{Asks, Leaves, TakesMemory};
ghost use Rattle.ownership.specs.declared.names.Name.{Name as NameOf};
ghost use Rattle.tablet_audit.specs.Judges.{JudgesFrame, JudgesStops, JudgesTurn};

use crate::judges::Judge;
use audit::Audit;
use cell_key::{Refusal, Stamp};
use ownership::{Frame, Name, given_kind, may_close, may_end, named};
use request_codec::{Answer, Operation, Reply, Request};

/// Whether this is open.
fn is_open(audit: &Audit, name: Name) -> bool
    ensures { (st : State) → KeepsState audit.now st → result ≡ names.is_open st name }
{
    match name {
        Name::Session(start) => audit.has_session(start),
        Name::Cleaner(number) => audit.has_cleaner(number),
        Name::Collector(number) => audit.has_collector(number),
    }
}

/// What was named, if it may have been closed and is open no more.
fn closed(audit: &Audit, closes: bool, name: Option<Name>) -> Option<Name>
    ensures { (st : State) → KeepsState audit.now st → (n : NameOf)
        → names.is_name result n
        ≡ (closes && (names.is_name name n && not (names.is_open st n))) }
{
    let name = name?;
    if !closes || is_open(audit, name) {
        return None;
    }
    Some(name)
}

/// Whether the answer is this refusal.
fn is_refused(answer: &Answer, refusal: Refusal) -> bool
    ensures { IsTrue result ↔ (answer_of answer.now ≡ Said (Refused refusal)) }
{
    match answer {
        Answer::Said(Reply::Refused(given)) => *given == refusal,
        _ => false,
    }
}

/// Whether the answer says that a session was stopped.
fn is_stopped(answer: &Answer) -> bool
    ensures { IsTrue result ↔ (answer_of answer.now ≡ Said StopDone) }
{
    matches!(answer, Answer::Said(Reply::Stop))
}

/// Whether the operation lists cells.
fn has_cells(operation: &Operation<'_>) -> bool
    ensures { IsTrue result ↔ HasCells (operation_of operation.now) }
{
    match operation {
        Operation::One(_) => false,
        Operation::Commit { writes, .. } => !writes.is_empty(),
        Operation::Read { cells, .. } => !cells.is_empty(),
    }
}

/// Whether memory is taken for an operation before the machine is asked.
fn takes_memory(operation: &Operation<'_>) -> bool
    ensures { IsTrue result ↔ TakesMemory (operation_of operation.now) }
{
    has_cells(operation) || given_kind(operation).is_some()
}

/// Whether an operation is refused for want of memory, before the machine is asked.
fn lacks_memory(operation: &Operation<'_>, answer: &Answer) -> bool
    ensures { IsTrue result ↔ (TakesMemory (operation_of operation.now)
        × (answer_of answer.now ≡ Said (Refused LacksMemory))) }
{
    takes_memory(operation) && is_refused(answer, Refusal::NoMemory)
}

impl Judge {
    /// Whether the machine may give this answer to an operation of a client, which names nothing that isn't the
    /// client's. If so, what was given and closed is noted.
    ///
    /// # Errors
    ///
    /// `NoMemory`.
    fn turn(
        &mut self,
        client: u32,
        operation: &Operation<'_>,
        answer: &Answer,
    ) -> Result<bool, Refusal>
        requires own { (name : NameOf) → name_of (operation_of operation.now) ≡ Some name
            → owns (table_of self.old.owners) client name ≡ true }
        ensures judged { IfOk result (JudgesTurn self.old self.new client
            (operation_of operation.now) (answer_of answer.now)) }
        ensures refusal { IfErr result (λ refusal. refusal ≡ Refusal.NoMemory) }
    {
        let kind = given_kind(operation);
        self.owners.reserve(kind)?;
        if !self.audit.take_operation(operation, answer)? {
            return Ok(false);
        }
        let closes = may_close(may_end(operation), answer);
        let closed = closed(&self.audit, closes, named(operation));
        self.owners.note(client, closed, kind, answer);
        Ok(true)
    }

    /// Whether this may be the answer to an operation of a client. If so, the judge goes on from there.
    ///
    /// # Errors
    ///
    /// `NoMemory`.
    fn ask(
        &mut self,
        admin: Option<u32>,
        client: u32,
        operation: &Operation<'_>,
        answer: &Answer,
    ) -> Result<bool, Refusal>
        ensures judged { IfOk result (JudgesFrame admin self.old self.new
            (Asks client (operation_of operation.now)) client (answer_of answer.now)) }
        ensures refusal { IfErr result (λ refusal. refusal ≡ Refusal.NoMemory) }
    {
        if lacks_memory(operation, answer) {
            return Ok(true);
        }
        if let Some(refusal) = self.owners.refusal_for(admin, client, operation) {
            return Ok(is_refused(answer, refusal));
        }
        self.turn(client, operation, answer)
    }

    /// Whether a session of a client can be stopped. If so, it is nobody's.
    ///
    /// # Errors
    ///
    /// `NoMemory`.
    fn stop(&mut self, client: u32, start: Stamp) -> Result<bool, Refusal>
        requires own { owns (table_of self.old.owners) client (NameOf.Session start) ≡ true }
        ensures judged { IfOk result (JudgesTurn self.old self.new client
            (One (StopOf start)) (Said StopDone)) }
        ensures fewer { IfOk result (λ yes. yes ≡ true
            → held_in (table_of self.new.owners) client
            < held_in (table_of self.old.owners) client) }
        ensures refusal { IfErr result (λ refusal. refusal ≡ Refusal.NoMemory) }
    {
        if !self.audit.take(&Request::Stop { start }, &Reply::Stop)? {
            return Ok(false);
        }
        self.owners.remove(client, Name::Session(start));
        Ok(true)
    }

    /// Whether all sessions of a client can be stopped. If so, it has none.
    ///
    /// # Errors
    ///
    /// `NoMemory`.
    fn stop_all(&mut self, client: u32) -> Result<bool, Refusal>
        ensures judged { IfOk result (JudgesStops self.old self.new client) }
        ensures none { IfOk result (λ yes. yes ≡ true → (start : ℕ)
            → owns (table_of self.new.owners) client (NameOf.Session start) ≡ false) }
        ensures refusal { IfErr result (λ refusal. refusal ≡ Refusal.NoMemory) }
    {
        'sessions: while let Some(start) = self.owners.session_of(client) {
            if !self.stop(client, start)? {
                return Ok(false);
            }
        }
        Ok(true)
    }

    /// Whether a client can go. If so, its sessions are stopped, and its cleaners and collectors are the heir's.
    ///
    /// # Errors
    ///
    /// `NoMemory`.
    fn leave(&mut self, admin: Option<u32>, client: u32) -> Result<bool, Refusal>
        ensures judged { IfOk result (JudgesFrame admin self.old self.new
            (Leaves client) client (Said StopDone)) }
        ensures refusal { IfErr result (λ refusal. refusal ≡ Refusal.NoMemory) }
    {
        if !self.stop_all(client)? {
            return Ok(false);
        }
        self.owners.pass(client, admin.unwrap_or(0));
        Ok(true)
    }

    /// Whether what was sent may be answered so, to this client. If so, the judge goes on from there.
    ///
    /// # Errors
    ///
    /// `NoMemory`.
    pub fn take_frame(
        &mut self,
        admin: Option<u32>,
        frame: &Frame<'_>,
        to: u32,
        answer: &Answer,
    ) -> Result<bool, Refusal>
        ensures judged { IfOk result (JudgesFrame admin self.old self.new
            (frame_of frame.now) to (answer_of answer.now)) }
        ensures refusal { IfErr result (λ refusal. refusal ≡ Refusal.NoMemory) }
    {
        match frame {
            Frame::Asks(client, operation) => {
                if *client != to {
                    return Ok(false);
                }
                self.ask(admin, to, operation, answer)
            }
            Frame::Leaves(client) => {
                if *client != to || !is_stopped(answer) {
                    return Ok(false);
                }
                self.leave(admin, to)
            }
            Frame::Malformed(client) => {
                Ok(*client == to && is_refused(answer, Refusal::BadRequest))
            }
            Frame::NoClient => Ok(to == 0 && is_refused(answer, Refusal::BadRequest)),
        }
    }
}
