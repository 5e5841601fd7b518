//! Rows that another program keeps.

ghost use Rattle.std.specs.Prelude.{◌≡◌, ◌≤◌, None, IfOk, IfErr, IfSome, IsErrOf, OnOk, OnErr, length, option_map};
ghost use Rattle.std.specs.Bool.{OnFalse};
ghost use Rattle.cell_key.specs.Cells.{Cells};
ghost use Rattle.cell_key.specs.Faults.{HasReason, HasRisen};
ghost use Rattle.cell_key.specs.Places.{AreNextCells, place_named};
ghost use Rattle.rows.specs.Batches.{AreNextVersions, IsFull};
ghost use Rattle.rows.specs.Storage.{no_storage};
ghost use Rattle.remote_rows.specs.Pages.{IsSpanOf};
ghost use Rattle.remote_rows.specs.Shown.{IsHeldOf, IsShown, Shows, shown_cells};
ghost use Rattle.remote_rows.specs.Wires.{IsWireRefusal, KeepsRows};

use crate::faults::{count, in_memory};
use crate::held_row::HeldRow;
use crate::shared::SharedRows;
use crate::span::Span;
use crate::wire::{FetchedRow, RowWire, Swap};
use cell_key::{Edit, Family, Qualifier, Refusal, Row, Stamp};
use rows::{BatchLimits, PlainRows, RowEdits, Rows, VersionBatch};
use std::alloc::Global;

/// How many keys a page is asked for: the least number first, then the next ones as long as a page has too few cells.
const PAGE_KEYS: [u32; 7] = [256, 1024, 4096, 16384, 65536, 262_144, 1_048_576];

/// Rows that another program keeps, which others may change between two calls. The row that a request reads is kept in
/// memory until it is changed, until another row is read, or until `forget`. A read of cells in order is answered from
/// one page of keys, so that it is of one moment.
#[derive(Drop)]
pub struct RemoteRows<W: RowWire> {
    alloc: Global,
    wire: W,
    held: Option<HeldRow>,
    faults: u64,
    is_raced: bool,
}

impl<W: RowWire> RemoteRows<W> {
    /// The rows behind a wire. Asks nothing.
    pub fn new(alloc: Global, wire: W) -> RemoteRows<W>
        ensures shown { IfSome (W.seen.cells wire) (Shows W.seen result.wire result.held) }
        ensures faults { result.faults ≡ 0 }
    {
        RemoteRows {
            alloc,
            wire,
            held: None,
            faults: 0,
            is_raced: false,
        }
    }

    /// Reads a row.
    fn fetch(&mut self, row: &Row) -> Result<HeldRow, Refusal>
        ensures row { IfOk result (λ held. held.row ≡ row.now) }
        ensures held { IfSome (W.seen.cells self.old.wire) (λ cells. IfOk result
            (IsHeldOf cells (W.seen.guard self.old.wire))) }
        ensures wire { KeepsRows W.seen self.old.wire self.new.wire }
        ensures kept { self.new.held ≡ self.old.held }
        ensures refusal { IfErr result IsWireRefusal }
        ensures reason { HasReason self.old.faults self.new.faults result }
    {
        let answer = self.wire.fetch(row);
        let FetchedRow { guard, edits } = count(&mut self.faults, answer)?;
        let mut rows = PlainRows::new(self.alloc);
        in_memory(rows.apply(row, edits))?;
        Ok(HeldRow {
            row: row.clone()?,
            guard,
            rows,
        })
    }

    /// Takes the row that is in memory, or reads it. There is none in memory then.
    fn take(&mut self, row: &Row) -> Result<HeldRow, Refusal>
        ensures row { IfOk result (λ held. held.row ≡ row.now) }
        ensures held { (cells : Cells) → Shows W.seen self.old.wire self.old.held cells
            → IfOk result (IsHeldOf cells (W.seen.guard self.old.wire)) }
        ensures wire { KeepsRows W.seen self.old.wire self.new.wire }
        ensures none { self.new.held ≡ None }
        ensures refusal { IfErr result IsWireRefusal }
        ensures reason { HasReason self.old.faults self.new.faults result }
    {
        match self.held.take() {
            Some(held) if held.row == *row => Ok(held),
            _ => self.fetch(row),
        }
    }

    /// Counts a fault of the other end.
    fn fail(&mut self) -> Result<(), Refusal>
        ensures device { IsErrOf result Refusal.Device }
        ensures counted { HasRisen self.old.faults self.new.faults }
        ensures later { self.old.faults ≤ self.new.faults }
        ensures wire { self.new.wire ≡ self.old.wire }
        ensures kept { self.new.held ≡ self.old.held }
    {
        self.faults = self.faults.saturating_add(1);
        Err(Refusal::Device)
    }

    /// The cells after a place that one page of keys tells.
    fn span(&mut self, after: Option<(&Row, &Family)>, keys: u32) -> Result<Span, Refusal>
        ensures found { IfSome (W.seen.cells self.old.wire) (λ cells. IfOk result
            (IsSpanOf cells (option_map place_named after.entry))) }
        ensures wire { KeepsRows W.seen self.old.wire self.new.wire }
        ensures kept { self.new.held ≡ self.old.held }
        ensures refusal { IfErr result IsWireRefusal }
        ensures reason { HasReason self.old.faults self.new.faults result }
    {
        let answer = self.wire.page(after, keys);
        let page = count(&mut self.faults, answer)?;
        Span::new(self.alloc, page)
    }

    /// The next cells after a place, if a page of this many keys tells enough of them.
    fn cells_in_page(
        &mut self,
        after: Option<(&Row, &Family)>,
        most: usize,
        keys: u32,
    ) -> Result<Option<Vec<(Row, Family)>>, Refusal>
        ensures found { IfSome (W.seen.cells self.old.wire) (λ cells. IfOk result (λ found.
            IfSome found (λ found. AreNextCells cells
            (option_map place_named after.entry) most found.items))) }
        ensures few { IfOk result (λ found. IfSome found (λ found. length found.items ≤ most)) }
        ensures wire { KeepsRows W.seen self.old.wire self.new.wire }
        ensures kept { self.new.held ≡ self.old.held }
        ensures refusal { IfErr result IsWireRefusal }
        ensures reason { HasReason self.old.faults self.new.faults result }
    {
        let span = self.span(after, keys)?;
        span.next_cells(after, most)
    }

    /// The next cells after a place with their newest versions, if a page of this many keys tells enough of them.
    fn versions_in_page(
        &mut self,
        after: Option<(&Row, &Family)>,
        limits: BatchLimits,
        hi: Stamp,
        keys: u32,
    ) -> Result<Option<VersionBatch>, Refusal>
        ensures found { IfSome (W.seen.cells self.old.wire) (λ cells. IfOk result (λ found.
            IfSome found (AreNextVersions cells (option_map place_named after.entry) hi))) }
        ensures full { IfOk result (λ found. IfSome found (λ batch.
            OnFalse batch.is_last (IsFull limits batch.cells.items))) }
        ensures few { IfOk result (λ found. IfSome found (λ batch.
            length batch.cells.items ≤ limits.cells)) }
        ensures wire { KeepsRows W.seen self.old.wire self.new.wire }
        ensures kept { self.new.held ≡ self.old.held }
        ensures refusal { IfErr result IsWireRefusal }
        ensures reason { HasReason self.old.faults self.new.faults result }
    {
        let span = self.span(after, keys)?;
        span.next_versions(after, limits, hi)
    }
}

impl<W: RowWire> Rows for RemoteRows<W> {
    ghost seen = { record {
      holds = λ rows. IsShown W.seen rows.wire rows.held;
      readable = λ rows _. IsShown W.seen rows.wire rows.held;
      each_readable = λ _ shown _. shown;
      cells = λ rows. shown_cells W.seen rows.wire;
      overfills = λ _ _ _. ⊥;
      storage = λ _. no_storage;
    } };

    ghost faults = { λ rows. rows.faults };

    fn newest(
        &mut self,
        row: &Row,
        family: &Family,
        qualifier: Qualifier,
        lo: Stamp,
        hi: Stamp,
    ) -> Result<Option<(Stamp, Vec<u8>)>, Refusal> {
        let mut held = self.take(row)?;
        let found = held.rows.newest(row, family, qualifier, lo, hi);
        self.held = Some(held);
        in_memory(found)
    }

    fn versions(
        &mut self,
        row: &Row,
        family: &Family,
        qualifier: Qualifier,
        hi: Stamp,
        most: usize,
    ) -> Result<Vec<(Stamp, Vec<u8>)>, Refusal> {
        let mut held = self.take(row)?;
        let found = held.rows.versions(row, family, qualifier, hi, most);
        self.held = Some(held);
        in_memory(found)
    }

    fn has_version(
        &mut self,
        row: &Row,
        family: &Family,
        qualifier: Qualifier,
        lo: Stamp,
        hi: Stamp,
    ) -> Result<bool, Refusal> {
        let mut held = self.take(row)?;
        let found = held.rows.has_version(row, family, qualifier, lo, hi);
        self.held = Some(held);
        in_memory(found)
    }

    fn next_cell(
        &mut self,
        after: Option<(&Row, &Family)>,
    ) -> Result<Option<(Row, Family)>, Refusal> {
        let mut found = self.next_cells(after, 1)?;
        Ok(found.pop())
    }

    fn next_cells(
        &mut self,
        after: Option<(&Row, &Family)>,
        most: usize,
    ) -> Result<Vec<(Row, Family)>, Refusal> {
        for keys in PAGE_KEYS {
            if let Some(found) = self.cells_in_page(after, most, keys)? {
                return Ok(found);
            }
        }
        Err(Refusal::NoMemory)
    }

    fn next_versions(
        &mut self,
        after: Option<(&Row, &Family)>,
        limits: BatchLimits,
        hi: Stamp,
    ) -> Result<VersionBatch, Refusal> {
        for keys in PAGE_KEYS {
            if let Some(batch) = self.versions_in_page(after, limits, hi, keys)? {
                return Ok(batch);
            }
        }
        Err(Refusal::NoMemory)
    }

    /// Refused with `Device` too if the row has changed since it was read.
    fn apply(&mut self, row: &Row, edits: Vec<Edit>) -> Result<(), Refusal> {
        let held = self.take(row)?;
        let answer = self.wire.swap(row, held.guard, edits);
        match count(&mut self.faults, answer)? {
            Swap::Done => Ok(()),
            Swap::Raced => {
                self.is_raced = true;
                self.fail()
            }
        }
    }

    /// The other end makes edits of one row at once, and not of several: any changes are refused with `Device`.
    fn apply_all(&mut self, changes: Vec<RowEdits>) -> Result<(), Refusal> {
        if changes.is_empty() {
            return Ok(());
        }
        self.fail()
    }

    fn faults(&self) -> u64 {
        self.faults
    }
}

impl<W: RowWire> SharedRows for RemoteRows<W> {
    ghost forgot = { λ rows. (rows.held ≡ None) × W.begun rows.wire };

    ghost raced = { λ rows. rows.is_raced };

    ghost lost = { λ rows. W.failed rows.wire };

    fn forget(&mut self) {
        self.wire.begin();
        self.held = None;
        self.is_raced = false;
    }

    fn is_raced(&self) -> bool {
        self.is_raced
    }

    fn is_lost(&self) -> bool {
        self.wire.is_failed()
    }
}
