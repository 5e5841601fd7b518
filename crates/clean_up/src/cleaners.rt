//! The open cleaners.

ghost use Rattle.std.specs.Prelude.{◌≡◌, ◌+◌, ◌<◌, ◌≤◌, ◌^◌, ◌⊎◌, IfErr, IfOk, IsErrOf, OnErr, is_some};
ghost use Rattle.std.specs.FinMap.{empty, get, len};
ghost use Rattle.cell_key.specs.Faults.{HasReason};
ghost use Rattle.rows.specs.Calls.{KeepsBelow, OnlyReads};
ghost use Rattle.rows.specs.Room.{HasNoRoom};
ghost use Rattle.si_model.specs.Machine as machine;
ghost use Rattle.si_model.specs.Machine.{State};
ghost use Rattle.si_model.specs.Reads.{cell_of};
ghost use Rattle.si_model.specs.Replies.{clean_reply, clean_start_reply, result_reply};
ghost use Rattle.clean_up.specs.Locks.{LacksPlace};
ghost use Rattle.clean_up.specs.Refusals.{IsBeginRefusal, IsStepRefusal};
ghost use Rattle.clean_up.specs.Room.{ChangesNext, EditsOfStep, Makes, TakesRoom};
ghost use Rattle.clean_up.specs.Shows.{ChangesOne, InEachShown, IsUnopened, IsUsedUp, Opens, SameCleaners, ShowsCleaners, Steps, TouchesFor, cleaner_count, is_last};
ghost use Rattle.clean_up.specs.Told.{BeginsWith, IsNextReadable, MeetsBadRecord, StepMakes};

use crate::cleaner::Cleaner;
use crate::fates::Fate;
use crate::locks;
use cell_key::Refusal;
use rows::Rows;
use si_model::{Cell, CleanReply, CleanStart};
use std::alloc::Global;
use std::collections::BTreeMap;

/// The most cleaners that are open at once.
const MOST_CLEANERS: usize = 1024;

/// The greatest number of a cleaner.
const MOST_NUMBER: u64 = 9_223_372_036_854_775_807;

/// The open cleaners by their numbers, and the number of the next one (Percolator, clean-up of
/// locks).
///
/// Each call is a step of the snapshot machine: if cells and cleaners show one of its states, the machine may give the
/// same answer there, and they show its next state afterwards. A refusal changes nothing, and the call may be repeated.
#[derive(Drop)]
pub struct Cleaners {
    alloc: Global,
    next: u64,
    cleaners: BTreeMap<u64, Cleaner>,
}

/// Whether a step with this reply was the cleaner's last.
fn closes(reply: CleanReply) -> bool
    ensures { result ≡ is_last reply }
{
    !matches!(reply, CleanReply::Decided)
}

impl Cleaners {
    /// No cleaners. The first one gets the number 1.
    pub fn new(alloc: Global) -> Cleaners
        ensures shown { (st : State) → st.next_cleaner ≡ 1 → st.cleaners ≡ empty
            → ShowsCleaners result st }
    {
        Cleaners {
            alloc,
            next: 1,
            cleaners: BTreeMap::new(alloc),
        }
    }

    /// How many cleaners are open.
    pub fn len(&self) -> usize
        ensures count { result ≡ cleaner_count self.now }
        ensures shown { (st : State) → ShowsCleaners self.now st → result ≡ len st.cleaners }
    {
        self.cleaners.len()
    }

    /// Whether a cleaner is open.
    pub fn is_open(&self, number: u64) -> bool
        ensures { (st : State) → ShowsCleaners self.now st
            → result ≡ is_some (get st.cleaners number) }
    {
        self.cleaners.contains_key(&number)
    }

    /// Opens a cleaner for the lock of a cell, whoever holds it. Returns the cleaner's number, from 1 on, and the start
    /// of the lock's session; `NoLock` if the cell has no lock.
    ///
    /// # Errors
    ///
    /// In this order: `BadRow`, `BadColumn`, and, if the cell has a lock, `TooManySessions` when 1,024 cleaners are
    /// open; then `Exhausted` after the greatest number, `Device`, `NoMemory`, or `Damaged` if bytes that were read are
    /// malformed. The cleaner is allocated before its number is drawn.
    pub fn begin<R: Rows>(
        &mut self,
        rows: &mut R,
        row: &[u8],
        family: &[u8],
    ) -> Result<CleanStart, Refusal>
        ensures step { R.seen.holds rows.old
            → Steps (R.seen.cells rows.old) self.old
            (machine.CleanBegin (cell_of row.now family.now))
            (result_reply clean_start_reply result) (R.seen.cells rows.new) self.new }
        // The stored cleaner has the lock of the cell, or the cell has none.
        ensures found { R.seen.holds rows.old → IfOk result (BeginsWith
            (R.seen.cells rows.old) (cell_of row.now family.now) self.new) }
        // One cleaner opens, or none, and all others are unchanged, whatever the cells hold.
        ensures opens { IfOk result (λ found.
            Opens (cell_of row.now family.now) found self.old self.new) }
        ensures reads { OnlyReads R.seen rows.old rows.new }
        // Cells that show a reached state never give Damaged.
        ensures undamaged { R.seen.readable rows.old row.now
            → InEachShown (R.seen.cells rows.old) self.old (λ st.
            ¬ IsErrOf result Refusal.Damaged) }
        ensures damaged { R.seen.readable rows.old row.now → IfErr result (λ refusal.
            refusal ≡ Refusal.Damaged
            → LacksPlace (R.seen.cells rows.old) (cell_of row.now family.now)) }
        ensures refusal { IfErr result IsBeginRefusal }
        ensures err { OnErr result (SameCleaners self.old self.new) }
        ensures exhausted { IsErrOf result Refusal.Exhausted
            → (st : State) → ShowsCleaners self.old st → IsUsedUp st }
        ensures reason { HasReason (R.faults rows.old) (R.faults rows.new) result }
    {
        let cell = Cell::new(self.alloc, row, family)?;
        let Some(lock) = locks::standing(self.alloc, rows, &cell)? else {
            return Ok(CleanStart::NoLock);
        };
        if self.cleaners.len() >= MOST_CLEANERS {
            return Err(Refusal::TooManySessions);
        }
        let number = self.next;
        if number > MOST_NUMBER {
            return Err(Refusal::Exhausted);
        }
        let start = lock.start.stamp();
        let fate = Fate::Open;
        self.cleaners.insert(number, Cleaner { cell, lock, fate })?;
        self.next = number + 1;
        Ok(CleanStart::Cleaner(number, start))
    }

    /// Takes the next step of a cleaner. The first step decides at the first cell of the lock's session: if that
    /// session's lock is still there, it is erased, and the session is rolled back; otherwise the session was committed
    /// if a write record there names it, and rolled back if none does. The second step goes to the cleaner's cell: the
    /// lock is replaced by the record of the commit, or erased, or is gone already. Then the cleaner closes. Each step
    /// changes one row at most.
    ///
    /// # Errors
    ///
    /// `UnknownCleaner` if none is open with this number; then `MemtableFull` if the step has edits to make and the
    /// rows have no room for them, `Device`, `NoMemory`, or `Damaged` if bytes that were read are malformed.
    pub fn step<R: Rows>(&mut self, rows: &mut R, number: u64) -> Result<CleanReply, Refusal>
        ensures step { R.seen.holds rows.old
            → Steps (R.seen.cells rows.old) self.old (machine.CleanStep number)
            (result_reply clean_reply result) (R.seen.cells rows.new) self.new }
        // The edits of the cleaner's step are made, or nothing is changed, and the answer is true.
        ensures accepted { IfOk result (λ reply.
            StepMakes R.seen number reply self.old self.new rows.old rows.new) }
        // All other cleaners are unchanged, whatever the cells hold.
        ensures one { ChangesOne number self.old self.new }
        ensures same { OnErr result (OnlyReads R.seen rows.old rows.new) }
        ensures below { KeepsBelow R.seen rows.old rows.new }
        // At most one row changes, and an added key has the stamp of the lock's start or of its commit.
        ensures touched { R.seen.holds rows.old
            → InEachShown (R.seen.cells rows.old) self.old (λ st.
            TouchesFor st number (R.seen.cells rows.old) (R.seen.cells rows.new)) }
        // Only the edits of the cleaner's next step are made.
        ensures made { R.seen.holds rows.old
            → IfOk result (λ reply. InEachShown (R.seen.cells rows.old) self.old (λ st.
            Makes (ChangesNext st number) reply (R.seen.cells rows.old) (R.seen.cells rows.new))) }
        // Cells that show a reached state never give Damaged.
        ensures undamaged { IsNextReadable R.seen rows.old self.old number
            → InEachShown (R.seen.cells rows.old) self.old (λ st.
            ¬ IsErrOf result Refusal.Damaged) }
        ensures damaged { IsNextReadable R.seen rows.old self.old number
            → IfErr result (λ refusal. refusal ≡ Refusal.Damaged
            → MeetsBadRecord (R.seen.cells rows.old) self.old number) }
        // The refusal is a step's, and a device's has risen its count.
        ensures refusal { IfErr result IsStepRefusal
            × HasReason (R.faults rows.old) (R.faults rows.new) result }
        ensures err { OnErr result (SameCleaners self.old self.new) }
        ensures unknown { (st : State) → ShowsCleaners self.old st → IsUnopened st number
            → IsErrOf result Refusal.UnknownCleaner }
        // A step is refused MemtableFull only if the rows have no room for the edits of its cleaner's step.
        ensures full { IsErrOf result Refusal.MemtableFull → HasNoRoom R.seen.overfills
            rows.old (EditsOfStep (R.seen.holds rows.old) (R.seen.cells rows.old) self.old number) }
        ensures full_shown { R.seen.holds rows.old → IsErrOf result Refusal.MemtableFull
            → InEachShown (R.seen.cells rows.old) self.old (λ st.
            HasNoRoom R.seen.overfills rows.old (ChangesNext st number)) }
        // A step that makes edits takes their room; no other step takes any.
        ensures room { R.seen.holds rows.old
            → IfOk result (λ reply. InEachShown (R.seen.cells rows.old) self.old (λ st.
            TakesRoom R.seen.overfills (ChangesNext st number) reply rows.old rows.new)) }
    {
        let Some(cleaner) = self.cleaners.get_mut(&number) else {
            return Err(Refusal::UnknownCleaner);
        };
        let reply = cleaner.advance(self.alloc, rows)?;
        if closes(reply) {
            self.cleaners.remove(&number);
        }
        Ok(reply)
    }
}
