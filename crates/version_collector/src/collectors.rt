//! The open collectors.

ghost use Rattle.std.specs.Prelude.{◌≡◌, ◌≤◌, ◌⊎◌, IfErr, IfOk, IsErrOf, OnErr, is_some};
ghost use Rattle.std.specs.FinMap.{empty, get, len};
ghost use Rattle.cell_key.specs.Cells.{Cells};
ghost use Rattle.cell_key.specs.Faults.{HasReason};
ghost use Rattle.rows.specs.Calls.{KeepsBelow};
ghost use Rattle.rows.specs.Room.{HasNoRoom};
ghost use Rattle.si_model.specs.Machine as machine;
ghost use Rattle.si_model.specs.Machine.{IsFloor, State};
ghost use Rattle.si_model.specs.Replies.{collect_reply, result_reply};
ghost use Rattle.si_model.specs.Servers.{IsReachedByServers};
ghost use Rattle.si_model.specs.ShowsCells.{ShowsCells};
ghost use Rattle.version_collector.specs.Refusals.{IsBeginRefusal, IsStepRefusal};
ghost use Rattle.version_collector.specs.Room.{AreOfVisitsIn, TakesRoomOfVisits};
ghost use Rattle.version_collector.specs.Shows.{Begins, BeginsWith, ChangesOne, InEachShown, IsCount, IsEarlyRefusal, IsStepReadable, IsUnopened, IsUsedUp, KnowsFloor, Opens, SameCollectors, ShowsCollectors, StepLeaves, Steps, TellsAt, VisitsAt, collector_count, is_last};
ghost use Rattle.version_collector.specs.Visits.{Thins};
ghost use Rattle.si_model.specs.Collection.{Collects};

use crate::collector::{Collector, Pass};
use cell_key::{Refusal, Stamp};
use rows::Rows;
use si_model::CollectReply;
use std::alloc::Global;
use std::collections::BTreeMap;

/// The most collectors that are open at once.
const MOST_COLLECTORS: usize = 64;

/// The greatest number of a collector.
const MOST_NUMBER: u64 = 9_223_372_036_854_775_807;

/// The most visits of a request.
const MOST_VISITS: u32 = 1000;

/// The open collectors by their numbers, the number of the next one, and the greatest floor that a collector began
/// with.
///
/// Each call is a step of the snapshot machine: if cells and collectors show one of its states, the machine may give
/// the same answer there, and they show its next state afterwards. A refused step leaves that state unchanged, and
/// keeps the visits made before the refusal.
#[derive(Drop)]
pub struct Collectors {
    alloc: Global,
    next: u64,
    greatest_floor: Stamp,
    collectors: BTreeMap<u64, Collector>,
}

/// Whether a step with this reply was the collector's last.
fn closes(reply: &CollectReply) -> bool
    ensures { result ≡ is_last reply.now }
{
    matches!(reply, CollectReply::Collected)
}

impl Collectors {
    /// No collectors. The first one gets the number 1. `floor` is the greatest floor that a collector began with, or 0.
    /// If other servers begin collectors, it may be any lower one.
    pub fn new(alloc: Global, floor: Stamp) -> Collectors
        ensures shown { (cells : Cells) (st : State)
            → st.next_collector ≡ 1 → st.collectors ≡ empty → floor ≤ st.floor
            → ShowsCollectors cells result st }
        ensures floor { result.greatest_floor ≡ floor }
    {
        Collectors {
            alloc,
            next: 1,
            greatest_floor: floor,
            collectors: BTreeMap::new(alloc),
        }
    }

    /// How many collectors are open.
    pub fn len(&self) -> usize
        ensures count { result ≡ collector_count self.now }
        ensures shown { (cells : Cells) (st : State) → ShowsCollectors cells self.now st
            → result ≡ len st.collectors }
    {
        self.collectors.len()
    }

    /// Whether a collector is open.
    pub fn is_open(&self, number: u64) -> bool
        ensures { (cells : Cells) (st : State) → ShowsCollectors cells self.now st
            → result ≡ is_some (get st.collectors number) }
    {
        self.collectors.contains_key(&number)
    }

    /// The greatest floor that a collector began with, or 0 if none did.
    pub fn greatest_floor(&self) -> Stamp
        ensures floor { result ≡ self.now.greatest_floor }
        ensures shown { (cells : Cells) (st : State) → ShowsCollectors cells self.now st
            → result ≤ st.floor }
        ensures known { (st : State) → KnowsFloor self.now st → result ≡ st.floor }
    {
        self.greatest_floor
    }

    /// Opens a collector with this floor, which is the smallest start of an active session, or the greatest stamp
    /// answered plus one if none is active. Returns its number, from 1 on.
    ///
    /// # Errors
    ///
    /// `TooManySessions` when 64 collectors are open; then `Exhausted` after the greatest number, or `NoMemory`. The
    /// collector is allocated before its number is drawn.
    pub fn begin(&mut self, floor: Stamp) -> Result<u64, Refusal>
        ensures step { (cells : Cells) (st : State)
            → IsReachedByServers st → ShowsCells cells st → ShowsCollectors cells self.old st
            → IsFloor st floor
            → Begins cells self.old self.new
            (result_reply (λ number. machine.Collecting number floor) result) st }
        // The same whatever the floor: it must not be above a session of any server.
        ensures begins { (cells : Cells) (st : State)
            → IsReachedByServers st → ShowsCells cells st → ShowsCollectors cells self.old st
            → BeginsWith cells self.new floor result st }
        // One collector opens, and all others are unchanged, whatever the cells hold.
        ensures opens { IfOk result (λ number. Opens floor number self.old self.new) }
        ensures refusal { IfErr result IsBeginRefusal }
        ensures err { OnErr result (SameCollectors self.old self.new) }
        ensures exhausted { IsErrOf result Refusal.Exhausted
            → (cells : Cells) (st : State) → ShowsCollectors cells self.old st → IsUsedUp st }
    {
        if self.collectors.len() >= MOST_COLLECTORS {
            return Err(Refusal::TooManySessions);
        }
        let number = self.next;
        if number > MOST_NUMBER {
            return Err(Refusal::Exhausted);
        }
        let collector = Collector {
            floor,
            pass: Pass::First,
            after: None,
            within: None,
        };
        self.collectors.insert(number, collector)?;
        self.next = number + 1;
        self.greatest_floor = self.greatest_floor.max(floor);
        Ok(number)
    }

    /// Makes visits until a lock below the floor is met (`Blocked`), all is collected (`Collected`; the
    /// collector is then closed), a visit is refused, or this many visits are made (`More`).
    ///
    /// # Errors
    ///
    /// `UnknownCollector` if none is open with this number, then `BadCount` for a number of visits outside 1 to 1,000;
    /// then `MemtableFull` if the rows have no room for the edits of a visit, `Device`, `NoMemory`, or `Damaged` if
    /// bytes that were read are malformed. The visits before the refused one are kept: cells and position are as after
    /// them.
    pub fn step<R: Rows>(
        &mut self,
        rows: &mut R,
        number: u64,
        visits: u32,
    ) -> Result<CollectReply, Refusal>
        ensures step { R.seen.holds rows.old
            → Steps (R.seen.cells rows.old) self.old (machine.CollectStep number visits)
            (result_reply collect_reply result) (R.seen.cells rows.new) self.new }
        // Only visits are made, by the rules of collection.
        ensures visited { R.seen.holds rows.old
            → IsCount visits
            → InEachShown (R.seen.cells rows.old) self.old (λ st.
            VisitsAt number visits result (R.seen.cells rows.old) self.old (R.seen.cells rows.new)
            self.new) }
        // Every read of a session, each lock and each fate are unchanged.
        ensures leaves { R.seen.holds rows.old
            → InEachShown (R.seen.cells rows.old) self.old (λ st.
            Collects (R.seen.cells rows.old) (R.seen.cells rows.new) st) }
        // Keys of at most this many rows are erased, none of them a lock, and none is added, whatever the cells hold.
        ensures thins { R.seen.holds rows.old
            → Thins visits (R.seen.cells rows.old) (R.seen.cells rows.new) }
        // Collected: each cell is tidy. More: at least this much less is left. Blocked: the cell has a lock below the
        // floor.
        ensures told { R.seen.holds rows.old
            → IfOk result (λ reply. InEachShown (R.seen.cells rows.old) self.old (λ st.
            TellsAt number visits reply (R.seen.cells rows.old) self.old (R.seen.cells rows.new)
            self.new
            st)) }
        ensures one { ChangesOne number self.old self.new }
        // Nothing is read or changed if no collector has this number, or the number of visits is bad.
        ensures early { IfErr result (λ refusal. IsEarlyRefusal refusal
            → SameCollectors self.old self.new × (rows.new ≡ rows.old)) }
        // A refused step leaves its collector open, with its floor. If it asked for one visit, it changes nothing.
        ensures refused { OnErr result (StepLeaves R.seen number visits
            self.old self.new rows.old rows.new) }
        ensures below { KeepsBelow R.seen rows.old rows.new }
        ensures room { TakesRoomOfVisits R.seen.overfills visits rows.old rows.new }
        // Cells that show a reached state never give Damaged.
        ensures undamaged { IsStepReadable R.seen rows.old self.old self.new number
            → InEachShown (R.seen.cells rows.old) self.old (λ st.
            ¬ IsErrOf result Refusal.Damaged) }
        // The refusal is a step's, and a device's has risen its count.
        ensures refusal { IfErr result IsStepRefusal
            × HasReason (R.faults rows.old) (R.faults rows.new) result }
        ensures unknown { (cells : Cells) (st : State)
            → ShowsCollectors cells self.old st → IsUnopened st number
            → IsErrOf result Refusal.UnknownCollector }
        ensures count { ¬ IsCount visits
            → IsErrOf result Refusal.UnknownCollector ⊎ IsErrOf result Refusal.BadCount }
        // A step is refused MemtableFull only if the rows have no room for edits of this many visits.
        ensures full { IsErrOf result Refusal.MemtableFull
            → HasNoRoom R.seen.overfills rows.old (AreOfVisitsIn visits) }
    {
        let Some(collector) = self.collectors.get_mut(&number) else {
            return Err(Refusal::UnknownCollector);
        };
        if visits == 0 {
            return Err(Refusal::BadCount);
        }
        if visits > MOST_VISITS {
            return Err(Refusal::BadCount);
        }
        let reply = collector.advance(self.alloc, rows, visits)?;
        if closes(&reply) {
            self.collectors.remove(&number);
            return Ok(reply);
        }
        Ok(reply)
    }
}
