//! The steps of one session.

ghost use Rattle.std.specs.Prelude.{◌≡◌, ◌≢◌, ◌≤◌, ℕ, length, IfOk, IfSome, OnErr, IfErr, IsErrOf};
ghost use Rattle.cell_key.specs.Cells.{Cells};
ghost use Rattle.cell_key.specs.Faults.{HasReason};
ghost use Rattle.rows.specs.Calls.{OnlyReads};
ghost use Rattle.rows.specs.Room.{HasNoRoom};
ghost use Rattle.rows.specs.Sources.{IsDrawRefusal};
ghost use Rattle.txn_client.specs.Shows.{Advances, DrawsIn, DrawsNone, HasHeldSo, HasNoNext};
ghost use Rattle.txn_client.specs.Room.{Does, EditsOf, HoldsAt, IfConflict, IsStamped, MeetsAt, MeetsIn, RecordsAt};
ghost use Rattle.txn_client.specs.Refusals.{HasNoStamp, HasOneReason, IsAdvanceRefusal, IsCellStepRefusal, IsReadableAt, StepLeaves, next_cell};
ghost use Rattle.txn_client.specs.declared.session.Phase.TheVariants as phase;

use crate::cells;
use crate::session::{Outcome, Phase, Session};
use cell_key::{MOST_STAMP, Moment, Refusal};
use rows::{Rows, Stamps};
use si_model::Progress;
use std::alloc::Global;

impl Session {
    /// Holds cell `k`, if it has no lock and was not written since this session began.
    fn hold_next<R: Rows>(
        &mut self,
        alloc: Global,
        rows: &mut R,
        k: u16,
    ) -> Result<Outcome, Refusal>
        requires { HasHeldSo self.old.phase k }
        ensures step { R.seen.holds rows.old
            → IfOk result (λ outcome. (last : ℕ)
            → Advances (R.seen.cells rows.old) self.old last outcome (R.seen.cells rows.new)
            self.new last) }
        ensures draws { IfOk result (λ outcome. DrawsNone outcome.progress) }
        ensures start { self.new.start ≡ self.old.start }
        ensures writes { self.new.writes ≡ self.old.writes }
        ensures err { OnErr result (self.new ≡ self.old) }
        ensures does { IfOk result (λ outcome. Does R.seen (HoldsAt
            (R.seen.holds rows.old) (R.seen.cells rows.old) self.old k)
            outcome.progress rows.old rows.new) }
        ensures met { IfOk result (λ outcome. IfConflict (MeetsAt
            (R.seen.holds rows.old) (R.seen.cells rows.old) self.old k) outcome.progress) }
        ensures same { OnErr result (OnlyReads R.seen rows.old rows.new) }
        ensures refusal { IfErr result (IsCellStepRefusal
            (IsReadableAt R.seen rows.old self.old k) (length self.old.writes ≤ k)) }
        ensures empty { length self.old.writes ≤ k → IsErrOf result Refusal.EmptyCommit }
        ensures full { IsErrOf result Refusal.MemtableFull → HasNoRoom
            R.seen.overfills rows.old
            (HoldsAt (R.seen.holds rows.old) (R.seen.cells rows.old) self.old k) }
        ensures reason { HasReason (R.faults rows.old) (R.faults rows.new) result }
    {
        let Some(write) = self.writes.get(k) else {
            return Err(Refusal::EmptyCommit);
        };
        let Some(first) = self.writes.get(0) else {
            return Err(Refusal::EmptyCommit);
        };
        let start = self.start.stamp();
        if cells::is_taken(rows, &write.cell, start)? {
            return Ok(Outcome {
                progress: Progress::Conflict(k + 1),
                ended: true,
            });
        }
        cells::hold(alloc, rows, write, self.start, first)?;
        self.phase = Phase::Holding(k + 1);
        Ok(Outcome {
            progress: Progress::Held(k + 1, self.writes.len()),
            ended: false,
        })
    }

    /// Draws the commit stamp.
    fn draw_commit<S: Stamps>(&mut self, stamps: &mut S) -> Result<Outcome, Refusal>
        requires { self.old.phase ≡ phase.Holding (length self.old.writes) }
        ensures step { IfOk result (λ outcome. (cells : Cells)
            → Advances cells self.old (S.source.last stamps.old) outcome cells self.new
            (S.source.last stamps.new)) }
        ensures draws { IfOk result (λ outcome.
            DrawsIn S.source stamps.old stamps.new outcome.progress) }
        ensures stamped { IfOk result (λ outcome. IsStamped outcome.progress) }
        ensures start { self.new.start ≡ self.old.start }
        ensures writes { self.new.writes ≡ self.old.writes }
        ensures err { OnErr result (self.new ≡ self.old) }
        ensures rises { S.source.last stamps.old ≤ S.source.last stamps.new }
        ensures left { OnErr result (S.source.leaves stamps.old stamps.new) }
        ensures refusal { IfErr result IsDrawRefusal }
        ensures reason { HasReason (S.faults stamps.old) (S.faults stamps.new) result }
        ensures exhausted { IfSome (S.source.known stamps.old) (λ last.
            IsErrOf result Refusal.Exhausted → last ≡ MOST_STAMP) }
        ensures undrawn { IsErrOf result Refusal.Exhausted → stamps.new ≡ stamps.old }
    {
        let commit = stamps.draw()?;
        self.commit = Moment::new(commit);
        self.phase = Phase::Stamped;
        Ok(Outcome {
            progress: Progress::Stamped(commit),
            ended: false,
        })
    }

    /// Commits: replaces the lock of the first cell by its write record.
    fn commit_first<R: Rows>(&mut self, alloc: Global, rows: &mut R) -> Result<Outcome, Refusal>
        requires { self.old.phase ≡ phase.Stamped }
        ensures step { R.seen.holds rows.old
            → IfOk result (λ outcome. (last : ℕ)
            → Advances (R.seen.cells rows.old) self.old last outcome (R.seen.cells rows.new)
            self.new last) }
        ensures draws { IfOk result (λ outcome. DrawsNone outcome.progress) }
        ensures start { self.new.start ≡ self.old.start }
        ensures writes { self.new.writes ≡ self.old.writes }
        ensures err { OnErr result (self.new ≡ self.old) }
        ensures does { IfOk result (λ outcome. Does R.seen (RecordsAt
            (R.seen.holds rows.old) (R.seen.cells rows.old) self.old 0)
            outcome.progress rows.old rows.new) }
        ensures met { IfOk result (λ outcome. IfConflict (λ _. ⊥) outcome.progress) }
        ensures same { OnErr result (OnlyReads R.seen rows.old rows.new) }
        ensures refusal { IfErr result (IsCellStepRefusal
            (IsReadableAt R.seen rows.old self.old 0) (length self.old.writes ≤ 0)) }
        ensures full { IsErrOf result Refusal.MemtableFull → HasNoRoom
            R.seen.overfills rows.old
            (RecordsAt (R.seen.holds rows.old) (R.seen.cells rows.old) self.old 0) }
        ensures reason { HasReason (R.faults rows.old) (R.faults rows.new) result }
    {
        let Some(first) = self.writes.get(0) else {
            return Err(Refusal::EmptyCommit);
        };
        let kind = first.kind();
        if !cells::record(alloc, rows, &first.cell, self.start, self.commit, kind)? {
            return Ok(Outcome {
                progress: Progress::Lost,
                ended: true,
            });
        }
        self.phase = Phase::Finishing(1);
        Ok(Outcome {
            progress: Progress::Committed(self.commit.stamp()),
            ended: 1 == self.writes.len(),
        })
    }

    /// Replaces the lock of cell `k` by its write record, if the lock is still there.
    fn finish_next<R: Rows>(
        &mut self,
        alloc: Global,
        rows: &mut R,
        k: u16,
    ) -> Result<Outcome, Refusal>
        requires { self.old.phase ≡ phase.Finishing k }
        ensures step { R.seen.holds rows.old
            → IfOk result (λ outcome. (last : ℕ)
            → Advances (R.seen.cells rows.old) self.old last outcome (R.seen.cells rows.new)
            self.new last) }
        ensures draws { IfOk result (λ outcome. DrawsNone outcome.progress) }
        ensures start { self.new.start ≡ self.old.start }
        ensures writes { self.new.writes ≡ self.old.writes }
        ensures err { OnErr result (self.new ≡ self.old) }
        ensures does { IfOk result (λ outcome. Does R.seen (RecordsAt
            (R.seen.holds rows.old) (R.seen.cells rows.old) self.old k)
            outcome.progress rows.old rows.new) }
        ensures met { IfOk result (λ outcome. IfConflict (λ _. ⊥) outcome.progress) }
        ensures same { OnErr result (OnlyReads R.seen rows.old rows.new) }
        ensures refusal { IfErr result (IsCellStepRefusal
            (IsReadableAt R.seen rows.old self.old k) (length self.old.writes ≤ k)) }
        ensures full { IsErrOf result Refusal.MemtableFull → HasNoRoom
            R.seen.overfills rows.old
            (RecordsAt (R.seen.holds rows.old) (R.seen.cells rows.old) self.old k) }
        ensures reason { HasReason (R.faults rows.old) (R.faults rows.new) result }
    {
        let Some(write) = self.writes.get(k) else {
            return Err(Refusal::EmptyCommit);
        };
        let kind = write.kind();
        let _stood = cells::record(alloc, rows, &write.cell, self.start, self.commit, kind)?;
        self.phase = Phase::Finishing(k + 1);
        Ok(Outcome {
            progress: Progress::Finished(k + 1, self.writes.len()),
            ended: k + 1 == self.writes.len(),
        })
    }

    /// Takes the next step.
    pub(crate) fn advance<R: Rows, S: Stamps>(
        &mut self,
        alloc: Global,
        rows: &mut R,
        stamps: &mut S,
    ) -> Result<Outcome, Refusal>
        ensures step { R.seen.holds rows.old
            → IfOk result (λ outcome. Advances (R.seen.cells rows.old)
            self.old (S.source.last stamps.old) outcome (R.seen.cells rows.new) self.new
            (S.source.last stamps.new)) }
        ensures draws { IfOk result (λ outcome.
            DrawsIn S.source stamps.old stamps.new outcome.progress) }
        ensures start { self.new.start ≡ self.old.start }
        ensures writes { self.new.writes ≡ self.old.writes }
        ensures err { OnErr result (self.new ≡ self.old) }
        ensures refused { OnErr result (StepLeaves R.seen S.source
            rows.old rows.new stamps.old stamps.new) }
        ensures does { IfOk result (λ outcome. Does R.seen (EditsOf
            (R.seen.holds rows.old) (R.seen.cells rows.old) self.old)
            outcome.progress rows.old rows.new) }
        ensures met { IfOk result (λ outcome. IfConflict (MeetsIn self.old.phase
            (R.seen.holds rows.old) (R.seen.cells rows.old) self.old) outcome.progress) }
        ensures refusal { IfErr result (IsAdvanceRefusal
            (IsReadableAt R.seen rows.old self.old (next_cell self.old.phase))
            (HasNoNext self.old.phase (length self.old.writes))) }
        ensures empty { self.old.phase ≡ phase.Open → length self.old.writes ≤ 0
            → IsErrOf result Refusal.EmptyCommit }
        ensures drawing { self.old.phase ≡ phase.Holding (length self.old.writes)
            → IfErr result IsDrawRefusal }
        ensures drawn { self.old.phase ≡ phase.Holding (length self.old.writes)
            → rows.new ≡ rows.old }
        ensures full { IsErrOf result Refusal.MemtableFull → HasNoRoom
            R.seen.overfills rows.old
            (EditsOf (R.seen.holds rows.old) (R.seen.cells rows.old) self.old) }
        ensures no_stamp { IsErrOf result Refusal.Exhausted
            → HasNoStamp (self.old.phase ≡ phase.Holding (length self.old.writes))
            S.source stamps.old stamps.new }
        ensures aside { self.old.phase ≢ phase.Holding (length self.old.writes)
            → stamps.new ≡ stamps.old }
        ensures reason { HasOneReason (R.faults rows.old) (R.faults rows.new)
            (S.faults stamps.old) (S.faults stamps.new) result }
    {
        match self.phase {
            Phase::Open => self.hold_next(alloc, rows, 0),
            Phase::Holding(k) => {
                if k == self.writes.len() {
                    self.draw_commit(stamps)
                } else {
                    self.hold_next(alloc, rows, k)
                }
            }
            Phase::Stamped => self.commit_first(alloc, rows),
            Phase::Finishing(k) => self.finish_next(alloc, rows, k),
        }
    }
}
