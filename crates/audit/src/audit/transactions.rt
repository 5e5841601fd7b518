//! The audit of Commits.

ghost use Rattle.std.specs.Prelude.{◌≡◌, ◌≢◌, ◌↔◌, ◌⊎◌, ◌+◌, ℕ, Ok, Err, Some, IsTrue, map, length, IfErr, IfNone, IfOk, IfSome, IsSome, OnErr, OnOk};
ghost use Rattle.std.specs.BTreeMap as btree;
ghost use Rattle.std.specs.Ordering.{nat_cmp};
ghost use Rattle.si_model.specs.Answers.{writes_named};
ghost use Rattle.si_model.specs.Machine.{Refused, Writes};
ghost use Rattle.si_model.specs.Transactions.{Commit, CommitConflict, CommitDone, Said};
ghost use Rattle.audit.specs.AuditOperations.{AreFree, ClashesAt, HasBefore, HasCommitted, IsRewritten, RefusesOnly};
ghost use Rattle.audit.specs.Audits.{JudgesOperation, Stays, write_of};
ghost use Rattle.si_model.specs.Takings.{IsRefusedWrite, TakesAll};

use crate::audit::parts::Write;
use crate::audit::refusals::{is_same, is_storage};
use crate::audit::sessions::unnamed;
use crate::audit::{Audit, takings, writes};
use cell_key::{MOST_STAMP, Refusal, Stamp};
use si_model::CellWrite;
use std::alloc::AllocError;

/// The one refusal of a Commit, by that of one of its writes: `NoMemory` is the audit's own.
fn alone(refusal: Refusal) -> Result<Option<Refusal>, Refusal>
    ensures memory { refusal ≡ Refusal.NoMemory → result ≡ Err Refusal.NoMemory }
    ensures others { refusal ≢ Refusal.NoMemory → result ≡ Ok (Some refusal) }
{
    match refusal {
        Refusal::NoMemory => Err(Refusal::NoMemory),
        _ => Ok(Some(refusal)),
    }
}

/// Whether the place, counted from 1, is this one, counted from 0.
fn is_place(place: u16, index: usize) -> bool
    ensures { IsTrue result ↔ (place ≡ index + 1) }
{
    place > 0 && usize::from(place) - 1 == index
}

impl Audit {
    /// Whether a Commit may be answered so: it began at this session's start, and is committed at the stamp.
    pub(crate) fn commit_together(
        &mut self,
        start: Stamp,
        asked: &[CellWrite<'_>],
        session: Stamp,
        stamp: Stamp,
    ) -> Result<bool, Refusal>
        ensures { JudgesOperation self.old self.new
            (Commit start (writes_named asked.now)) (CommitDone session stamp) result }
    {
        if !self.may_open(start, session) {
            return Ok(false);
        }
        let all = match self.taken(start, asked) {
            Ok(all) => all,
            Err(refusal) => return unnamed(refusal),
        };
        if stamp <= session || stamp <= self.top || stamp > MOST_STAMP {
            return Ok(false);
        }
        if all.is_empty() || self.first_clash(&all, session).is_some() {
            return Ok(false);
        }
        self.commit_writes(session, stamp, all)?;
        self.top = stamp;
        Ok(true)
    }

    /// Whether a Commit may be answered so: it began at this session's start, and found a conflict at the cell at this
    /// place, counted from 1.
    pub(crate) fn conflict_together(
        &mut self,
        start: Stamp,
        asked: &[CellWrite<'_>],
        session: Stamp,
        place: u16,
    ) -> Result<bool, Refusal>
        ensures { JudgesOperation self.old self.new
            (Commit start (writes_named asked.now)) (CommitConflict session place) result }
    {
        if !self.may_open(start, session) {
            return Ok(false);
        }
        let all = match self.taken(start, asked) {
            Ok(all) => all,
            Err(refusal) => return unnamed(refusal),
        };
        let Some(index) = self.first_clash(&all, session) else {
            return Ok(false);
        };
        if !is_place(place, index) {
            return Ok(false);
        }
        self.begun.insert(session, all)?;
        self.active.remove(&session);
        self.top = self.top.max(session);
        Ok(true)
    }

    /// Whether a Commit may get this refusal.
    pub(crate) fn refuses_commit(
        &self,
        start: Stamp,
        asked: &[CellWrite<'_>],
        refusal: Refusal,
    ) -> Result<bool, Refusal>
        ensures { JudgesOperation self.now self.now
            (Commit start (writes_named asked.now)) (Said (Refused refusal)) result }
    {
        if is_storage(refusal) {
            return Ok(true);
        }
        match self.commit_refusal(start, asked)? {
            Some(only) => Ok(is_same(only, refusal)),
            None => Ok(false),
        }
    }

    /// The one refusal that a Commit may get besides the storage's, if there is one.
    fn commit_refusal(
        &self,
        start: Stamp,
        asked: &[CellWrite<'_>],
    ) -> Result<Option<Refusal>, Refusal>
        ensures only { IfOk result (RefusesOnly self.now (Commit start (writes_named asked.now))) }
        ensures refusal { IfErr result (λ refusal. refusal ≡ Refusal.NoMemory) }
    {
        if self.session(start).is_none() {
            return Ok(self.session_refusal(start));
        }
        match self.taken(start, asked) {
            Ok(all) => {
                if all.is_empty() {
                    return Ok(Some(Refusal::EmptyCommit));
                }
                Ok(None)
            }
            Err(refusal) => alone(refusal),
        }
    }

    /// Copies of the session's writes before the request: none, if it is new. Fails if an allocation does.
    fn writes_before(&self, start: Stamp) -> Result<Vec<Write>, AllocError>
        ensures { IfOk result (λ copies. (before : Writes) → HasBefore self.now start before
            → map write_of copies.items ≡ before) }
    {
        if start == 0 {
            return Ok(Vec::new(self.alloc));
        }
        match self.begun.get(&start) {
            Some(writes) => writes::copies(self.alloc, writes),
            None => Ok(Vec::new(self.alloc)),
        }
    }

    /// All writes of the session: those before the request, and the ones asked for.
    ///
    /// # Errors
    ///
    /// `NoMemory`, or the refusal of the first write that isn't taken.
    fn taken(&self, start: Stamp, asked: &[CellWrite<'_>]) -> Result<Vec<Write>, Refusal>
        ensures takes { IfOk result (λ all. (before : Writes) → HasBefore self.now start before
            → TakesAll before (writes_named asked.now) (map write_of all.items)) }
        ensures refusal { IfErr result (λ refusal. (before : Writes)
            → HasBefore self.now start before → (refusal ≡ Refusal.NoMemory)
            ⊎ IsRefusedWrite before (writes_named asked.now) refusal) }
    {
        let before = self.writes_before(start)?;
        takings::take_all(self.alloc, before, asked)
    }

    /// The place of the first write, counted from 0, whose cell clashes for a session that began at the start.
    fn first_clash(&self, writes: &[Write], start: Stamp) -> Option<usize>
        ensures some { IfSome result (ClashesAt self.now start writes.now) }
        ensures none { IfNone result (AreFree self.now start writes.now (length writes.now)) }
    {
        for (index, write) in writes.iter().enumerate() {
            if self.clashes(&write.cell, start) {
                return Some(index);
            }
        }
        None
    }

    /// Gives a start that was drawn these writes, or forgets it.
    fn set_writes(&mut self, start: Stamp, writes: Option<Vec<Write>>)
        requires { IsSome (btree.get nat_cmp self.old.begun start) }
        ensures others { self.new ≡ record self.old { begun = self.new.begun } }
        ensures at { IsRewritten self.old self.new start writes }
    {
        match writes {
            None => {
                self.begun.remove(&start);
            }
            Some(writes) => {
                if let Some(now) = self.begun.get_mut(&start) {
                    *now = writes;
                }
            }
        }
    }

    /// Commits the writes of the session, and ends it.
    ///
    /// # Errors
    ///
    /// `NoMemory`; the audit is unchanged.
    fn commit_writes(
        &mut self,
        session: Stamp,
        stamp: Stamp,
        writes: Vec<Write>,
    ) -> Result<(), Refusal>
        ensures ok { OnOk result (HasCommitted self.old self.new session stamp writes) }
        ensures err { OnErr result (Stays self.old self.new) }
        ensures refusal { IfErr result (λ refusal. refusal ≡ Refusal.NoMemory) }
    {
        let copies = writes::copies(self.alloc, &writes)?;
        let was = self.begun.insert(session, writes)?;
        if self.commits.push(session, stamp, copies).is_err() {
            self.set_writes(session, was);
            return Err(Refusal::NoMemory);
        }
        self.active.remove(&session);
        Ok(())
    }
}
