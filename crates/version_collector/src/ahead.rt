//! The cells ahead of a collector, which are found in batches.

ghost use Rattle.std.specs.Prelude.{◌≡◌, ◌≤◌, ◌↔◌, [], None, Option, Some, true, option_map, IfErr, IfOk, IfSome, IsTrue, OnOk};
ghost use Rattle.std.specs.Vec.Iter.{into_iter_items};
ghost use Rattle.cell_key.specs.Cells.{Cells};
ghost use Rattle.cell_key.specs.Faults.{HasReason};
ghost use Rattle.cell_key.specs.Places.{HasCell, IsAfter, IsNextCell, Place, place_named};
ghost use Rattle.rows.specs.Calls.{AreReadableFrom, OnlyReads};
ghost use Rattle.rows.specs.Refusals.{IsRefusalOfRead};
ghost use Rattle.si_model.specs.Collection.{place_at};
ghost use Rattle.version_collector.specs.Ahead.{Follow, IsAhead, IsFirst, IsStill};
ghost use Rattle.version_collector.specs.Visits.{position_of};

use cell_key::{Family, Qualifier, Refusal, Row, Stamp};
use rows::{Rows, one_next_cell};
use si_model::Cell;
use std::alloc::Global;
use std::vec::IntoIter;

/// The most places of a batch.
const MOST_AHEAD: usize = 64;

/// The cells found ahead of a position: they follow the position, or the cell there that lost a version. They are not
/// kept from one request to the next.
#[derive(Drop)]
pub(crate) struct Ahead {
    /// A cell that lost a version: it is the next cell if it still has a key.
    pub(crate) doubted: Option<Cell>,
    places: IntoIter<(Row, Family)>,
    /// No cell comes after the last of the places.
    is_end: bool,
    /// The number of places of the last batch.
    found: usize,
}

/// Whether two cells are the same.
pub(crate) fn is_same(cell: &Cell, other: &Cell) -> bool
    ensures { IsTrue result ↔ (cell.now ≡ other.now) }
{
    cell == other
}

/// The cell of a row and a family, if there is one.
fn cell_at(place: Option<(Row, Family)>) -> Option<Cell>
    ensures { position_of result ≡ place }
{
    match place {
        Some((row, family)) => Some(Cell { row, family }),
        None => None,
    }
}

/// The row and the family of a cell, if there is one.
fn place_after(after: &Option<Cell>) -> Option<(&Row, &Family)>
    ensures { option_map place_named result ≡ position_of after.now }
{
    match after {
        Some(cell) => Some((&cell.row, &cell.family)),
        None => None,
    }
}

/// Whether a cell has a key. It is the first place after a position that may have one. One lookup tells whether it has
/// a record; only if it has none is the next cell searched for.
fn has_key<R: Rows>(rows: &mut R, after: &Option<Cell>, cell: &Cell) -> Result<bool, Refusal>
    ensures has { AreReadableFrom R.seen rows.old (position_of after.now)
        → IsFirst (R.seen.cells rows.old) (position_of after.now) (place_at cell.now)
        → IfOk result (λ has. IsTrue has ↔ HasCell (R.seen.cells rows.old) (place_at cell.now)) }
    ensures reads { OnlyReads R.seen rows.old rows.new }
    ensures refusal { IfErr result (IsRefusalOfRead
        (AreReadableFrom R.seen rows.old (position_of after.now)
        × IsAfter (position_of after.now) (place_at cell.now))) }
    ensures reason { HasReason (R.faults rows.old) (R.faults rows.new) result }
{
    one_next_cell();
    let has_record = rows.has_version(&cell.row, &cell.family, Qualifier::Write, 0, Stamp::MAX)?;
    if has_record {
        return Ok(true);
    }
    match cell_at(rows.next_cell(place_after(after))?) {
        Some(next) => Ok(is_same(&next, cell)),
        None => Ok(false),
    }
}

/// The most places of a batch after one of this many.
fn batch_after(found: usize) -> usize
    ensures { 1 ≤ result }
{
    found.saturating_mul(4).saturating_add(1).min(MOST_AHEAD)
}

impl Ahead {
    /// Nothing found yet.
    pub(crate) fn new(alloc: Global) -> Ahead
        ensures { (cells : Cells) (after : Option Place) → IsAhead cells after result }
    {
        Ahead {
            doubted: None,
            places: Vec::new(alloc).into_iter(),
            is_end: false,
            found: 0,
        }
    }

    /// Removes the doubted cell, and returns it if it still has a key.
    fn still_there<R: Rows>(
        &mut self,
        rows: &mut R,
        after: &Option<Cell>,
    ) -> Result<Option<Cell>, Refusal>
        ensures found { AreReadableFrom R.seen rows.old (position_of after.now)
            → IsAhead (R.seen.cells rows.old) (position_of after.now) self.old
            → IfOk result (IsStill (R.seen.cells rows.old) (position_of after.now)
            (into_iter_items self.new.places) self.new.is_end) }
        ensures doubted { OnOk result (self.new.doubted ≡ None) }
        ensures reads { OnlyReads R.seen rows.old rows.new }
        ensures refusal { IfErr result (IsRefusalOfRead
            (AreReadableFrom R.seen rows.old (position_of after.now)
            × IsAhead (R.seen.cells rows.old) (position_of after.now) self.old)) }
        ensures reason { HasReason (R.faults rows.old) (R.faults rows.new) result }
    {
        let Some(cell) = self.doubted.take() else {
            return Ok(None);
        };
        if has_key(rows, after, &cell)? {
            return Ok(Some(cell));
        }
        Ok(None)
    }

    /// Finds places for this number of visits. A search passes all versions of each cell before the last one found, and
    /// the first cell may take all visits. So the first batch is one place, and batches grow.
    fn find<R: Rows>(
        &mut self,
        rows: &mut R,
        after: &Option<Cell>,
        visits: usize,
    ) -> Result<(), Refusal>
        requires { 1 ≤ visits }
        ensures found { AreReadableFrom R.seen rows.old (position_of after.now)
            → OnOk result (Follow (R.seen.cells rows.old)
            (position_of after.now) (into_iter_items self.new.places) self.new.is_end) }
        ensures some { OnOk result (into_iter_items self.new.places ≡ [] → self.new.is_end ≡ true) }
        ensures doubted { self.new.doubted ≡ self.old.doubted }
        ensures reads { OnlyReads R.seen rows.old rows.new }
        ensures refusal { IfErr result (IsRefusalOfRead
            (AreReadableFrom R.seen rows.old (position_of after.now))) }
        ensures reason { HasReason (R.faults rows.old) (R.faults rows.new) result }
    {
        let most = visits.min(batch_after(self.found));
        let found = rows.next_cells(place_after(after), most)?;
        self.is_end = found.len() < most;
        self.found = found.len();
        self.places = found.into_iter();
        Ok(())
    }

    /// Finds places if none are at hand, unless no cell is left.
    fn fill<R: Rows>(
        &mut self,
        rows: &mut R,
        after: &Option<Cell>,
        visits: usize,
    ) -> Result<(), Refusal>
        requires { 1 ≤ visits }
        ensures found { AreReadableFrom R.seen rows.old (position_of after.now)
            → Follow (R.seen.cells rows.old) (position_of after.now)
            (into_iter_items self.old.places) self.old.is_end
            → OnOk result (Follow (R.seen.cells rows.old) (position_of after.now)
            (into_iter_items self.new.places) self.new.is_end) }
        ensures some { OnOk result (into_iter_items self.new.places ≡ [] → self.new.is_end ≡ true) }
        ensures doubted { self.new.doubted ≡ self.old.doubted }
        ensures reads { OnlyReads R.seen rows.old rows.new }
        ensures refusal { IfErr result (IsRefusalOfRead
            (AreReadableFrom R.seen rows.old (position_of after.now))) }
        ensures reason { HasReason (R.faults rows.old) (R.faults rows.new) result }
    {
        if self.is_end {
            return Ok(());
        }
        if self.places.len() > 0 {
            return Ok(());
        }
        self.find(rows, after, visits)
    }

    /// Takes the first of the places, and finds more if none are at hand.
    fn first<R: Rows>(
        &mut self,
        rows: &mut R,
        after: &Option<Cell>,
        visits: usize,
    ) -> Result<Option<Cell>, Refusal>
        requires { 1 ≤ visits }
        ensures found { AreReadableFrom R.seen rows.old (position_of after.now)
            → Follow (R.seen.cells rows.old) (position_of after.now)
            (into_iter_items self.old.places) self.old.is_end
            → IfOk result (λ found.
            IsNextCell (R.seen.cells rows.old) (position_of after.now) (position_of found)) }
        ensures left { AreReadableFrom R.seen rows.old (position_of after.now)
            → Follow (R.seen.cells rows.old) (position_of after.now)
            (into_iter_items self.old.places) self.old.is_end
            → IfOk result (λ found. IfSome found (λ cell. Follow (R.seen.cells rows.old)
            (Some (place_at cell)) (into_iter_items self.new.places) self.new.is_end)) }
        ensures doubted { self.new.doubted ≡ self.old.doubted }
        ensures reads { OnlyReads R.seen rows.old rows.new }
        ensures refusal { IfErr result (IsRefusalOfRead
            (AreReadableFrom R.seen rows.old (position_of after.now))) }
        ensures reason { HasReason (R.faults rows.old) (R.faults rows.new) result }
    {
        self.fill(rows, after, visits)?;
        Ok(cell_at(self.places.next()))
    }

    /// Takes the next cell after a position. If none is at hand, finds those for this number of visits.
    pub(crate) fn next<R: Rows>(
        &mut self,
        rows: &mut R,
        after: &Option<Cell>,
        visits: usize,
    ) -> Result<Option<Cell>, Refusal>
        requires { 1 ≤ visits }
        ensures found { AreReadableFrom R.seen rows.old (position_of after.now)
            → IsAhead (R.seen.cells rows.old) (position_of after.now) self.old
            → IfOk result (λ found.
            IsNextCell (R.seen.cells rows.old) (position_of after.now) (position_of found)) }
        ensures left { AreReadableFrom R.seen rows.old (position_of after.now)
            → IsAhead (R.seen.cells rows.old) (position_of after.now) self.old
            → IfOk result (λ found. IfSome found (λ cell. Follow (R.seen.cells rows.old)
            (Some (place_at cell)) (into_iter_items self.new.places) self.new.is_end)) }
        ensures doubted { OnOk result (self.new.doubted ≡ None) }
        ensures reads { OnlyReads R.seen rows.old rows.new }
        ensures refusal { IfErr result (IsRefusalOfRead
            (AreReadableFrom R.seen rows.old (position_of after.now)
            × IsAhead (R.seen.cells rows.old) (position_of after.now) self.old)) }
        ensures reason { HasReason (R.faults rows.old) (R.faults rows.new) result }
    {
        match self.still_there(rows, after)? {
            Some(cell) => Ok(Some(cell)),
            None => self.first(rows, after, visits),
        }
    }
}
