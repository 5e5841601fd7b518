//! The audit of requests that may stand for several: a request, a Commit or a Read.

ghost use Rattle.std.specs.Prelude.{◌≡◌, ◌≢◌, ◌↔◌, ℕ, IfNone, IfSome, IsTrue};
ghost use Rattle.request_codec.specs.Answers.{answer_of};
ghost use Rattle.request_codec.specs.Operations.{operation_of};
ghost use Rattle.si_model.specs.Machine.{Begin};
ghost use Rattle.si_model.specs.Answers.{cells_named, writes_named};
ghost use Rattle.si_model.specs.Transactions.{Commit, Read};
ghost use Rattle.audit.specs.AuditOperations.{MayOpen};
ghost use Rattle.audit.specs.AuditRefusals.{RefusesFirst, RefusesUnlessOpen};
ghost use Rattle.audit.specs.Audits.{JudgesOpening, JudgesOperation};

use crate::audit::Audit;
use crate::audit::session_refusals::MOST_SESSIONS;
use cell_key::{MOST_STAMP, Refusal, Stamp};
use request_codec::{Answer, Operation, Reply};
use si_model::{CellName, CellWrite, CommitReply};

impl Audit {
    /// Whether the machine may give this answer to the request, which may stand for several, from a state that its runs
    /// have reached. If so, the audit takes the steps; otherwise it is unchanged.
    ///
    /// # Errors
    ///
    /// `NoMemory`. The audit is unchanged, and the call may be repeated.
    pub fn take_operation(
        &mut self,
        operation: &Operation<'_>,
        answer: &Answer,
    ) -> Result<bool, Refusal>
        ensures { JudgesOperation self.old self.new
            (operation_of operation.now) (answer_of answer.now) result }
    {
        match operation {
            Operation::One(request) => match answer {
                Answer::Said(reply) => self.take(request, reply),
                _ => Ok(false),
            },
            Operation::Commit { start, writes } => self.transact(*start, writes, answer),
            Operation::Read {
                start,
                cells,
                stays_open,
            } => self.read_together(*start, cells, *stays_open, answer),
        }
    }

    /// Whether the machine may give this answer to a Commit.
    fn transact(
        &mut self,
        start: Stamp,
        asked: &[CellWrite<'_>],
        answer: &Answer,
    ) -> Result<bool, Refusal>
        ensures { JudgesOperation self.old self.new
            (Commit start (writes_named asked.now)) (answer_of answer.now) result }
    {
        match answer {
            Answer::Said(reply) => match reply {
                Reply::Refused(refusal) => self.refuses_commit(start, asked, *refusal),
                _ => Ok(false),
            },
            Answer::Commit(reply) => match reply {
                CommitReply::Committed(session, stamp) => {
                    self.commit_together(start, asked, *session, *stamp)
                }
                CommitReply::Conflict(session, place) => {
                    self.conflict_together(start, asked, *session, *place)
                }
            },
            Answer::Read(_) => Ok(false),
        }
    }

    /// Whether the machine may give this answer to a Read.
    fn read_together(
        &mut self,
        start: Stamp,
        cells: &[CellName<'_>],
        stays_open: bool,
        answer: &Answer,
    ) -> Result<bool, Refusal>
        ensures { JudgesOperation self.old self.new
            (Read start (cells_named cells.now) stays_open) (answer_of answer.now) result }
    {
        match answer {
            Answer::Said(reply) => match reply {
                Reply::Refused(refusal) => Ok(self.refuses_read(start, cells, *refusal)),
                _ => Ok(false),
            },
            Answer::Commit(_) => Ok(false),
            Answer::Read(reply) => self.tell_together(start, cells, stays_open, reply),
        }
    }

    /// Whether a request may open this session: the one that it names, or a new one if its start is 0.
    pub(crate) fn may_open(&self, start: Stamp, session: Stamp) -> bool
        ensures { IsTrue result ↔ MayOpen self.now start session }
    {
        if start != 0 {
            return session == start && self.is_open(start);
        }
        session > self.top && session <= MOST_STAMP && self.active.len() < MOST_SESSIONS
    }

    /// Whether a request opens this session: the one that it names, or a new one if its start is 0.
    ///
    /// # Errors
    ///
    /// `NoMemory`; the audit is unchanged.
    pub(crate) fn open_session(&mut self, start: Stamp, session: Stamp) -> Result<bool, Refusal>
        ensures { JudgesOpening self.old self.new start session result }
    {
        if !self.may_open(start, session) {
            return Ok(false);
        }
        if start != 0 {
            return Ok(true);
        }
        self.begin(session)
    }

    /// Why a request opens no session, unless no stamp is left for a new one.
    pub(crate) fn session_refusal(&self, start: Stamp) -> Option<Refusal>
        ensures named { start ≢ 0 → RefusesUnlessOpen self.now start result }
        ensures new { start ≡ 0 → RefusesFirst self.now Begin result }
    {
        if start == 0 {
            return self.begin_refusal();
        }
        self.open_refusal(start)
    }

    /// A session that a request may open: the one that it names, or a new one if its start is 0.
    pub(crate) fn session(&self, start: Stamp) -> Option<Stamp>
        ensures some { IfSome result (MayOpen self.now start) }
        ensures none { IfNone result ((session : ℕ) → ¬ MayOpen self.now start session) }
    {
        let session = match start {
            0 => self.top.saturating_add(1),
            _ => start,
        };
        if !self.may_open(start, session) {
            return None;
        }
        Some(session)
    }
}
