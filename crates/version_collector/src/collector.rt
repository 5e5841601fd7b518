//! One collector, and its visits of cells.

ghost use Rattle.std.specs.Prelude.{◌≡◌, ◌≤◌, IfErr, IfOk, IsErrOf, None, OnErr, OnOk, Some};
ghost use Rattle.std.specs.Vec.Iter.{into_iter_items};
ghost use Rattle.cell_key.specs.Cells.{Cells};
ghost use Rattle.cell_key.specs.Faults.{HasReason};
ghost use Rattle.cell_key.specs.Places.{IsNextCell};
ghost use Rattle.rows.specs.Calls.{AreReadableFrom, KeepsBelow, OnlyReads};
ghost use Rattle.rows.specs.Refusals.{IsRefusalOfRead};
ghost use Rattle.rows.specs.Room.{HasNoRoom};
ghost use Rattle.si_model.specs.Collection.{place_at};
ghost use Rattle.si_model.specs.Machine.{State};
ghost use Rattle.version_collector.specs.Ahead.{Follow, IsAhead};
ghost use Rattle.version_collector.specs.Locks.{IsLowLock};
ghost use Rattle.version_collector.specs.Refusals.{IsVisitRefusal};
ghost use Rattle.version_collector.specs.Room.{AreOfVisitsIn, TakesRoomOfVisits};
ghost use Rattle.version_collector.specs.Versions.{AreShown, IsTidyFrom};
ghost use Rattle.version_collector.specs.Visits.{GoesOn, HasProgress, HasVisited, Thins, Visits, WhereCome, position_of, read_from};

use crate::ahead::{Ahead, is_same};
use crate::erasing::{CellProgress, erase_old};
use crate::versions::TidyFrom;
use cell_key::{Qualifier, Refusal, Stamp};
use rows::Rows;
use si_model::{Cell, CollectReply};
use std::alloc::Global;

/// The aim of a collector's visits: locks first, and then versions to erase.
#[derive(Clone, Copy, Drop)]
pub(crate) enum Pass {
    First,
    Second,
}

/// A collector: its floor, its pass, and its position: the last cell that it passed, or none before the first cell.
#[derive(Drop)]
pub(crate) struct Collector {
    pub(crate) floor: Stamp,
    pub(crate) pass: Pass,
    pub(crate) after: Option<Cell>,
    /// The progress in the cell of which the last visit erased versions; `None` once the position has moved.
    pub(crate) within: Option<CellProgress>,
}

/// The start of a lock of the cell below the floor, if there is one.
fn low_lock<R: Rows>(rows: &mut R, cell: &Cell, floor: Stamp) -> Result<Option<Stamp>, Refusal>
    ensures found { R.seen.readable rows.old cell.now.row
        → IfOk result (IsLowLock (R.seen.cells rows.old) cell.now floor) }
    ensures reads { OnlyReads R.seen rows.old rows.new }
    ensures refusal { IfErr result (IsRefusalOfRead (R.seen.readable rows.old cell.now.row)) }
    ensures reason { HasReason (R.faults rows.old) (R.faults rows.new) result }
{
    if floor == 0 {
        return Ok(None);
    }
    let lock = rows.newest(&cell.row, &cell.family, Qualifier::Lock, 0, floor - 1)?;
    Ok(lock.map(|(start, _)| start))
}

impl Collector {
    /// The stamps from which on nothing of a cell is left to erase.
    fn tidy_from(&self, cell: &Cell) -> TidyFrom
        ensures { (cells : Cells) → HasProgress cells self.now
            → IsTidyFrom cells cell.now self.now.floor result }
    {
        match &self.within {
            Some(progress) if is_same(&progress.cell, cell) => progress.tidy,
            _ => TidyFrom::new(self.floor),
        }
    }

    /// Handles the end of the cells: the second pass begins before all cells, or all is collected.
    fn turn(&mut self) -> CollectReply
        ensures turned { (cells : Cells)
            → IsNextCell cells (position_of self.old.after) None → HasProgress cells self.old
            → Visits cells self.old result cells self.new }
        ensures pass { GoesOn self.old self.new }
        ensures floor { self.new.floor ≡ self.old.floor }
    {
        match self.pass {
            Pass::First => {
                self.pass = Pass::Second;
                self.after = None;
                self.within = None;
                CollectReply::More
            }
            Pass::Second => CollectReply::Collected,
        }
    }

    /// Visits the next cell in the first pass: looks for a lock below the floor.
    fn look<R: Rows>(&mut self, rows: &mut R, cell: Cell) -> Result<CollectReply, Refusal>
        ensures visit { R.seen.readable rows.old cell.row
            → self.old.pass ≡ Pass.First → HasProgress (R.seen.cells rows.old) self.old
            → IsNextCell (R.seen.cells rows.old) (position_of self.old.after) (Some (place_at cell))
            → IfOk result (λ reply.
            Visits (R.seen.cells rows.old) self.old reply (R.seen.cells rows.old) self.new) }
        ensures moves { IfOk result (λ reply. reply ≡ CollectReply.More
            → self.new.after ≡ Some cell) }
        ensures pass { self.new.pass ≡ self.old.pass }
        ensures floor { self.new.floor ≡ self.old.floor }
        ensures reads { OnlyReads R.seen rows.old rows.new }
        ensures err { OnErr result (self.new ≡ self.old) }
        ensures refusal { IfErr result (IsRefusalOfRead (R.seen.readable rows.old cell.row)) }
        ensures reason { HasReason (R.faults rows.old) (R.faults rows.new) result }
    {
        if let Some(start) = low_lock(rows, &cell, self.floor)? {
            return Ok(CollectReply::Blocked(cell, start));
        }
        self.after = Some(cell);
        Ok(CollectReply::More)
    }

    /// Visits the next cell in the second pass: erases old versions of it, possibly all its keys, or moves past it.
    fn collect<R: Rows>(
        &mut self,
        alloc: Global,
        rows: &mut R,
        cell: Cell,
        ahead: &mut Ahead,
    ) -> Result<CollectReply, Refusal>
        ensures visit { R.seen.readable rows.old cell.row
            → AreShown (R.seen.cells rows.old) → self.old.pass ≡ Pass.Second
            → HasProgress (R.seen.cells rows.old) self.old
            → IsNextCell (R.seen.cells rows.old) (position_of self.old.after) (Some (place_at cell))
            → IfOk result (λ reply.
            Visits (R.seen.cells rows.old) self.old reply (R.seen.cells rows.new) self.new) }
        ensures ahead { R.seen.readable rows.old cell.row
            → IsNextCell (R.seen.cells rows.old) (position_of self.old.after) (Some (place_at cell))
            → Follow (R.seen.cells rows.old) (Some (place_at cell))
            (into_iter_items ahead.old.places) ahead.old.is_end
            → ahead.old.doubted ≡ None
            → OnOk result (IsAhead (R.seen.cells rows.new) (position_of self.new.after) ahead.new) }
        ensures pass { self.new.pass ≡ self.old.pass }
        ensures floor { self.new.floor ≡ self.old.floor }
        ensures thins { R.seen.holds rows.old
            → Thins 1 (R.seen.cells rows.old) (R.seen.cells rows.new) }
        ensures below { KeepsBelow R.seen rows.old rows.new }
        ensures room { TakesRoomOfVisits R.seen.overfills 1 rows.old rows.new }
        ensures err { OnErr result (self.new ≡ self.old) }
        ensures same { OnErr result (OnlyReads R.seen rows.old rows.new) }
        ensures refusal { IfErr result IsVisitRefusal }
        ensures undamaged { R.seen.readable rows.old cell.row
            → AreShown (R.seen.cells rows.old) → ¬ IsErrOf result Refusal.Damaged }
        ensures full { IsErrOf result Refusal.MemtableFull
            → HasNoRoom R.seen.overfills rows.old (AreOfVisitsIn 1) }
        ensures reason { HasReason (R.faults rows.old) (R.faults rows.new) result }
    {
        let erased = erase_old(alloc, rows, &cell, self.floor, self.tidy_from(&cell))?;
        if let Some(progress) = erased {
            self.within = Some(progress);
            ahead.doubted = Some(cell);
            return Ok(CollectReply::More);
        }
        self.after = Some(cell);
        self.within = None;
        Ok(CollectReply::More)
    }

    /// Makes one visit; `visits` are still to be made, this one included. `More` says that the next visit may follow.
    ///
    /// # Errors
    ///
    /// `MemtableFull` if the rows have no room for its edits, `Device`, `NoMemory`, or `Damaged` if bytes that were
    /// read are malformed. The collector and all cells are then unchanged.
    pub(crate) fn visit<R: Rows>(
        &mut self,
        alloc: Global,
        rows: &mut R,
        ahead: &mut Ahead,
        visits: usize,
    ) -> Result<CollectReply, Refusal>
        requires { 1 ≤ visits }
        ensures visit { AreReadableFrom R.seen rows.old (position_of self.old.after)
            → AreShown (R.seen.cells rows.old) → HasProgress (R.seen.cells rows.old) self.old
            → IsAhead (R.seen.cells rows.old) (position_of self.old.after) ahead.old
            → IfOk result (λ reply.
            Visits (R.seen.cells rows.old) self.old reply (R.seen.cells rows.new) self.new) }
        // The cells found ahead are still ahead.
        ensures ahead { AreReadableFrom R.seen rows.old (position_of self.old.after)
            → IsAhead (R.seen.cells rows.old) (position_of self.old.after) ahead.old
            → IfOk result (λ reply. reply ≡ CollectReply.More
            → IsAhead (R.seen.cells rows.new) (position_of self.new.after) ahead.new) }
        ensures floor { self.new.floor ≡ self.old.floor }
        ensures pass { GoesOn self.old self.new }
        ensures thins { R.seen.holds rows.old
            → Thins 1 (R.seen.cells rows.old) (R.seen.cells rows.new) }
        ensures below { KeepsBelow R.seen rows.old rows.new }
        ensures room { TakesRoomOfVisits R.seen.overfills 1 rows.old rows.new }
        ensures err { OnErr result (self.new ≡ self.old) }
        ensures same { OnErr result (OnlyReads R.seen rows.old rows.new) }
        ensures refusal { IfErr result IsVisitRefusal }
        // Cells that show a reached state never give Damaged.
        ensures undamaged { AreReadableFrom R.seen rows.old (position_of self.old.after)
            → AreShown (R.seen.cells rows.old)
            → IsAhead (R.seen.cells rows.old) (position_of self.old.after) ahead.old
            → ¬ IsErrOf result Refusal.Damaged }
        ensures full { IsErrOf result Refusal.MemtableFull
            → HasNoRoom R.seen.overfills rows.old (AreOfVisitsIn 1) }
        ensures reason { HasReason (R.faults rows.old) (R.faults rows.new) result }
    {
        let Some(cell) = ahead.next(rows, &self.after, visits)? else {
            *ahead = Ahead::new(alloc);
            return Ok(self.turn());
        };
        match self.pass {
            Pass::First => self.look(rows, cell),
            Pass::Second => self.collect(alloc, rows, cell, ahead),
        }
    }

    /// Makes visits until one gives another reply than `More`, or is refused, or this many are made. Their cells are
    /// found in batches.
    ///
    /// # Errors
    ///
    /// The same as for one visit. The visits before the refused one are kept.
    pub(crate) fn advance<R: Rows>(
        &mut self,
        alloc: Global,
        rows: &mut R,
        visits: u32,
    ) -> Result<CollectReply, Refusal>
        ensures visited { R.seen.holds rows.old
            → (st : State) → WhereCome st (R.seen.cells rows.old) self.old
            (HasVisited visits result (R.seen.cells rows.old) self.old (R.seen.cells rows.new)
            self.new) }
        ensures floor { self.new.floor ≡ self.old.floor }
        // A refused first visit changes nothing.
        ensures first { visits ≡ 1
            → OnErr result ((self.new ≡ self.old) × OnlyReads R.seen rows.old rows.new) }
        ensures thins { R.seen.holds rows.old
            → Thins visits (R.seen.cells rows.old) (R.seen.cells rows.new) }
        ensures below { KeepsBelow R.seen rows.old rows.new }
        ensures room { TakesRoomOfVisits R.seen.overfills visits rows.old rows.new }
        ensures refusal { IfErr result IsVisitRefusal }
        ensures undamaged { AreReadableFrom R.seen rows.old (read_from self.old self.new)
            → (st : State) → WhereCome st (R.seen.cells rows.old) self.old
            (¬ IsErrOf result Refusal.Damaged) }
        ensures full { IsErrOf result Refusal.MemtableFull
            → HasNoRoom R.seen.overfills rows.old (AreOfVisitsIn visits) }
        ensures reason { HasReason (R.faults rows.old) (R.faults rows.new) result }
    {
        let mut ahead = Ahead::new(alloc);
        for made in 0..visits {
            match self.visit(alloc, rows, &mut ahead, (visits - made) as usize)? {
                CollectReply::More => {}
                CollectReply::Blocked(cell, start) => {
                    return Ok(CollectReply::Blocked(cell, start));
                }
                CollectReply::Collected => return Ok(CollectReply::Collected),
            }
        }
        Ok(CollectReply::More)
    }
}
