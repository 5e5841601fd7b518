//! One cleaner, and its two steps.

ghost use Rattle.std.specs.Prelude.{◌≡◌, IfErr, IfOk, IsErrOf, OnErr};
ghost use Rattle.cell_key.specs.Faults.{HasReason};
ghost use Rattle.rows.specs.Calls.{OnlyReads};
ghost use Rattle.rows.specs.Room.{HasNoRoom};
ghost use Rattle.clean_up.specs.Fates.{HasBadRecord};
ghost use Rattle.clean_up.specs.Refusals.{IsAdvanceRefusal};
ghost use Rattle.clean_up.specs.Room.{Does, EditsOf};
ghost use Rattle.clean_up.specs.Shows.{Advances};
ghost use Rattle.clean_up.specs.Told.{IsTold, cell_read};

use crate::clearing;
use crate::fates::{self, Fate};
use crate::locks::Lock;
use cell_key::{Moment, Refusal};
use rows::Rows;
use si_model::{Cell, CleanReply};
use std::alloc::Global;

/// A cleaner: the cell that it clears, the lock that it found there, and the fate of that lock's start.
#[derive(Drop)]
pub(crate) struct Cleaner {
    pub(crate) cell: Cell,
    pub(crate) lock: Lock,
    pub(crate) fate: Fate,
}

impl Cleaner {
    /// Takes the next step.
    pub(crate) fn advance<R: Rows>(
        &mut self,
        alloc: Global,
        rows: &mut R,
    ) -> Result<CleanReply, Refusal>
        ensures step { R.seen.holds rows.old → IfOk result (λ reply.
            Advances (R.seen.cells rows.old) self.old reply (R.seen.cells rows.new) self.new) }
        ensures does { IfOk result (λ reply. Does R.seen
            (EditsOf (R.seen.holds rows.old) (R.seen.cells rows.old) self.old)
            reply rows.old rows.new) }
        ensures told { IfOk result (λ reply.
            IsTold R.seen self.old reply self.new rows.old rows.new) }
        ensures err { OnErr result (self.new ≡ self.old) }
        ensures same { OnErr result (OnlyReads R.seen rows.old rows.new) }
        ensures refusal { IfErr result IsAdvanceRefusal }
        ensures damaged { R.seen.readable rows.old (cell_read self.old).row → IfErr result
            (λ refusal. refusal ≡ Refusal.Damaged
            → HasBadRecord (R.seen.cells rows.old) self.old.lock.first) }
        ensures full { IsErrOf result Refusal.MemtableFull → HasNoRoom
            R.seen.overfills rows.old
            (EditsOf (R.seen.holds rows.old) (R.seen.cells rows.old) self.old) }
        ensures reason { HasReason (R.faults rows.old) (R.faults rows.new) result }
    {
        let fate = self.fate;
        match fate {
            Fate::Open => {
                self.fate = fates::decide(alloc, rows, &self.lock)?;
                Ok(CleanReply::Decided)
            }
            Fate::Forward(commit) => {
                if clearing::clear(alloc, rows, &self.cell, self.lock.start, Some(commit))? {
                    Ok(CleanReply::RolledForward(commit.stamp()))
                } else {
                    Ok(CleanReply::Gone)
                }
            }
            Fate::Back => {
                if clearing::clear(alloc, rows, &self.cell, self.lock.start, None)? {
                    Ok(CleanReply::RolledBack)
                } else {
                    Ok(CleanReply::Gone)
                }
            }
        }
    }
}
