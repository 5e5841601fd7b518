//! Scans: batches of cells with their newest versions; each cell is read, or skipped if it is of another family.

ghost use Rattle.std.specs.Prelude.{◌≡◌, ◌+◌, ◌-◌, ◌<◌, ◌≤◌, ◌++◌, [], ◌∷◌, ℕ, Option, Some, IsSome, length, map, option_copied, option_map, IfErr, IfOk, IfSome, OnOk};
ghost use Rattle.std.specs.Bool.{OnFalse, OnTrue};
ghost use Rattle.cell_key.specs.Cells.{Cells};
ghost use Rattle.cell_key.specs.Faults.{HasReason};
ghost use Rattle.cell_key.specs.Places.{Place};
ghost use Rattle.rows.specs.Calls.{AreReadableFrom, OnlyReads};
ghost use Rattle.rows.specs.Refusals.{IsReadRefusal, IsRefusalOfRead};
ghost use Rattle.si_model.specs.Machine as machine;
ghost use Rattle.si_model.specs.declared.replies.Cell.{Cell as CellOf};
ghost use Rattle.si_model.specs.Replies.{found_item, item_of, reach_of};
ghost use Rattle.si_model.specs.Scans.{HasFamilies, HasRows, item_length, items_length, most_items, place_at};
ghost use Rattle.rows.specs.Batches.{AreNextVersions, IsFull};
ghost use Rattle.txn_client.specs.Gathering.{Gathers, HasCome, IsInLimits, IsNextIn, items_in, last_of};
ghost use Rattle.txn_client.specs.Ranges.{range_named};
ghost use Rattle.txn_client.specs.Reads.{AreNewest, IsFound, ReadsValue};
ghost use Rattle.si_model.specs.AnswerLimits.{IsInScanLimits};
ghost use Rattle.txn_client.specs.Scans.{DoesNotFit, IsReadAs, IsScanDamaged, IsScanFound, IsScanReadable};
ghost use Rattle.si_model.specs.Takings.{IsNamed};

use crate::newest_read::{Newest, read_newest};
use crate::range::Range;
use cell_key::{Refusal, Stamp};
use rows::{BatchLimits, CellVersions, Rows, VersionBatch};
use si_model::{Cell, Found, ScanFound, ScanItem, ScanReach, ScanReply};
use std::alloc::Global;

/// The size of the first batch in cells: few, since the range may be short.
const LEAST_CELLS: usize = 16;

/// The most cells of a batch.
const MOST_CELLS: usize = 256;

/// The most bytes that the items of a reply take.
const MOST_BYTES: usize = 61_440;

/// A scan's start, its range, and whether it answers keys without values.
#[derive(Drop)]
pub(crate) struct Scan {
    pub(crate) start: Stamp,
    pub(crate) range: Range,
    pub(crate) keys_only: bool,
}

/// The state of a scan: its items, and their bytes in a reply; the number of cells it may look at, and the number it
/// has looked at; and the cell skipped last since the last item, if any. At first that is the cell after which the
/// range begins.
#[derive(Drop)]
struct Gathered {
    items: Vec<ScanItem>,
    bytes: usize,
    cells: usize,
    looked: usize,
    passed: Option<Cell>,
}

/// The outcome of a batch of cells.
#[derive(Clone, Copy, Drop)]
enum Batch {
    /// All of its cells were looked at.
    Done,
    /// No cell of the range is left.
    End,
    /// The next item doesn't fit.
    Full,
}

/// A copy of a cell. Answers `NoMemory` if allocation fails.
fn copy_of(cell: &Cell) -> Result<Cell, Refusal>
    ensures copy { IfOk result (λ copy. copy ≡ cell.now) }
    ensures refusal { IfErr result (λ refusal. refusal ≡ Refusal.NoMemory) }
{
    Ok(Cell {
        row: cell.row.clone()?,
        family: cell.family.clone()?,
    })
}

/// The bytes of an item in a reply: its names and its value with their lengths, or a stamp instead of the value, and a
/// byte for its kind.
fn item_bytes(cell: &Cell, found: &ScanFound) -> usize
    ensures bytes { result ≡ item_length (cell.now, found_item found.now) }
    ensures named { IsNamed cell.now }
{
    let names = 9 + cell.row.as_bytes().len() + cell.family.as_bytes().len();
    match found {
        ScanFound::Value(value) => names + 4 + value.len(),
        ScanFound::Pending(_) => names + 8,
        ScanFound::Unsent => names,
    }
}

/// The answer for a cell that has a value. The value is left out if only keys are asked for, or if its item alone would
/// be too long.
fn value_said(cell: &Cell, value: Vec<u8>, keys_only: bool) -> ScanFound
    requires { IsNamed cell.now }
    ensures said { (cells : Cells) (s : ℕ) → ReadsValue cells cell.now s value.items
        → IsReadAs cells s keys_only cell.now (Some (found_item result)) }
    ensures short { item_length (cell.now, found_item result) ≤ most_items }
{
    let found = ScanFound::Value(value);
    if keys_only || item_bytes(cell, &found) > MOST_BYTES {
        return ScanFound::Unsent;
    }
    found
}

/// The answer for a cell, from the result of its read; `None` if the cell has nothing.
fn said(cell: &Cell, found: Found, keys_only: bool) -> Option<ScanFound>
    requires { IsNamed cell.now }
    ensures said { (cells : Cells) (s : ℕ) → IsFound cells cell.now s found
        → IsReadAs cells s keys_only cell.now (option_map found_item result) }
    ensures short { IfSome result (λ found. item_length (cell.now, found_item found) ≤ most_items) }
{
    match found {
        Found::Nothing => None,
        Found::Pending(start) => Some(ScanFound::Pending(start)),
        Found::Value(value) => Some(value_said(cell, value, keys_only)),
    }
}

/// The same batch, but as the last one only if it has fewer cells than were asked for.
fn last_if_fewer(batch: VersionBatch, limits: BatchLimits) -> VersionBatch
    ensures next { (map : Cells) (after : Option Place) (s : ℕ) → AreNextVersions map after s batch
        → AreNextVersions map after s result }
    ensures full { OnFalse batch.is_last (IsFull limits batch.cells.items)
        → OnFalse result.is_last (IsFull limits result.cells.items) }
    ensures cells { result.cells ≡ batch.cells }
{
    let VersionBatch { cells, is_last } = batch;
    if cells.len() < limits.cells {
        return VersionBatch { cells, is_last };
    }
    VersionBatch {
        cells,
        is_last: false,
    }
}

impl Gathered {
    /// An empty state before the first cell of the range, with room for one item per cell that may be looked at, up to
    /// 256.
    fn new(alloc: Global, scan: &Scan, cells: u32) -> Result<Gathered, Refusal>
        requires rows { HasRows (range_named scan.now.range) }
        requires families { HasFamilies (range_named scan.now.range) }
        ensures none { IfOk result (λ gathered. (map : Cells) → Gathers map scan.now gathered) }
        ensures limits { IfOk result IsInLimits }
        ensures looked { IfOk result (λ gathered. gathered.looked ≡ 0) }
        ensures cells { IfOk result (λ gathered. gathered.cells ≡ cells) }
        ensures refusal { IfErr result (λ refusal. refusal ≡ Refusal.NoMemory) }
    {
        let passed = match &scan.range.after {
            Some(cell) => Some(copy_of(cell)?),
            None => None,
        };
        let items = Vec::with_capacity(alloc, (cells as usize).min(MOST_CELLS))?;
        Ok(Gathered {
            items,
            bytes: 0,
            cells: cells as usize,
            looked: 0,
            passed,
        })
    }

    /// The last cell: the one skipped since the last item, or else the last item's.
    fn last(&self) -> Option<&Cell>
        ensures { option_copied result ≡ last_of self.now }
    {
        if let Some(cell) = &self.passed {
            return Some(cell);
        }
        match self.items.last() {
            Some(item) => Some(&item.cell),
            None => None,
        }
    }

    /// The limits of the next batch. Cells: the number looked at so far, but at least 16, at most 256, and no more than
    /// may still be looked at. Bytes of values: the bytes left in the reply, and one more.
    fn limits(&self) -> BatchLimits
        requires limits { IsInLimits self.now }
        requires room { self.now.looked < self.now.cells }
        ensures cells { 1 ≤ result.cells }
        ensures few { result.cells ≤ self.now.cells - self.now.looked }
        ensures bytes { 1 ≤ result.bytes }
    {
        BatchLimits {
            cells: self
                .looked
                .clamp(LEAST_CELLS, MOST_CELLS)
                .min(self.cells - self.looked),
            bytes: MOST_BYTES - self.bytes + 1,
        }
    }

    /// The next cells after the last one, with their newest versions at or below the start of the scan.
    fn next_versions<R: Rows>(
        &self,
        rows: &mut R,
        start: Stamp,
        limits: BatchLimits,
    ) -> Result<VersionBatch, Refusal>
        ensures found { AreReadableFrom R.seen rows.old (option_map place_at (last_of self.now))
            → IfOk result (AreNextVersions (R.seen.cells rows.old)
            (option_map place_at (last_of self.now)) start) }
        ensures full { IfOk result (λ batch. OnFalse batch.is_last
            (IsFull limits batch.cells.items)) }
        ensures few { IfOk result (λ batch. length batch.cells.items ≤ limits.cells) }
        ensures reads { OnlyReads R.seen rows.old rows.new }
        ensures refusal { IfErr result (IsRefusalOfRead
            (AreReadableFrom R.seen rows.old (option_map place_at (last_of self.now)))) }
        ensures reason { HasReason (R.faults rows.old) (R.faults rows.new) result }
    {
        let after = match self.last() {
            Some(cell) => Some((&cell.row, &cell.family)),
            None => None,
        };
        let batch = rows.next_versions(after, limits, start)?;
        Ok(last_if_fewer(batch, limits))
    }

    /// Skips a cell that gives no item.
    fn pass(&mut self, cell: Cell)
        requires limits { IsInLimits self.old }
        requires room { self.old.looked < self.old.cells }
        requires named { IsNamed cell }
        ensures limits { IsInLimits self.new }
        ensures items { self.new.items ≡ self.old.items }
        ensures looked { self.new.looked ≡ self.old.looked + 1 }
        ensures cells { self.new.cells ≡ self.old.cells }
        ensures last { last_of self.new ≡ Some cell }
    {
        self.looked += 1;
        self.passed = Some(cell);
    }

    /// Adds the item of a cell, if it fits.
    fn name(&mut self, cell: Cell, found: ScanFound) -> Result<bool, Refusal>
        requires limits { IsInLimits self.old }
        requires room { self.old.looked < self.old.cells }
        requires short { item_length (cell, found_item found) ≤ most_items }
        ensures limits { OnOk result (IsInLimits self.new) }
        ensures named { IfOk result (λ fits. OnTrue fits
            ((items_in self.new ≡ items_in self.old ++ ((cell, found_item found) ∷ []))
            × (self.new.looked ≡ self.old.looked + 1) × (last_of self.new ≡ Some cell))) }
        ensures full { IfOk result (λ fits. OnFalse fits ((self.new ≡ self.old)
            × (1 ≤ self.old.looked) × (most_items
            < items_length (items_in self.old) + item_length (cell, found_item found)))) }
        ensures cells { self.new.cells ≡ self.old.cells }
        ensures refusal { IfErr result (λ refusal. refusal ≡ Refusal.NoMemory) }
    {
        let bytes = self.bytes + item_bytes(&cell, &found);
        if bytes > MOST_BYTES {
            return Ok(false);
        }
        self.items.push(ScanItem { cell, found })?;
        self.bytes = bytes;
        self.looked += 1;
        self.passed = None;
        Ok(true)
    }

    /// Looks at the next cell, whose newest versions are given. Returns false if it has an item that does not fit.
    fn look<R: Rows>(
        &mut self,
        rows: &mut R,
        scan: &Scan,
        cell: Cell,
        newest: Newest,
    ) -> Result<bool, Refusal>
        requires limits { IsInLimits self.old }
        requires room { self.old.looked < self.old.cells }
        requires named { IsNamed cell }
        ensures looked { R.seen.readable rows.old cell.row
            → AreNewest (R.seen.cells rows.old) cell scan.now.start newest
            → Gathers (R.seen.cells rows.old) scan.now self.old
            → IsNextIn (R.seen.cells rows.old) scan.now self.old cell → IfOk result (λ fits.
            OnTrue fits (Gathers (R.seen.cells rows.old) scan.now self.new)) }
        ensures full { R.seen.readable rows.old cell.row
            → AreNewest (R.seen.cells rows.old) cell scan.now.start newest
            → IsNextIn (R.seen.cells rows.old) scan.now self.old cell
            → IfOk result (λ fits. OnFalse fits (DoesNotFit (R.seen.cells rows.old)
            scan.now.start (range_named scan.now.range) scan.now.keys_only (items_in self.old)
            (last_of self.old))) }
        ensures same { IfOk result (λ fits. OnFalse fits
            ((self.new ≡ self.old) × (1 ≤ self.old.looked))) }
        ensures more { IfOk result (λ fits. OnTrue fits ((self.new.looked ≡ self.old.looked + 1)
            × (last_of self.new ≡ Some cell))) }
        ensures limits { OnOk result (IsInLimits self.new) }
        ensures cells { self.new.cells ≡ self.old.cells }
        ensures reads { OnlyReads R.seen rows.old rows.new }
        ensures refusal { IfErr result IsReadRefusal }
        ensures damaged { R.seen.readable rows.old cell.row
            → AreNewest (R.seen.cells rows.old) cell scan.now.start newest
            → Gathers (R.seen.cells rows.old) scan.now self.old
            → IsNextIn (R.seen.cells rows.old) scan.now self.old cell
            → IfErr result (λ refusal. refusal ≡ Refusal.Damaged → IsScanDamaged
            (R.seen.cells rows.old) (range_named scan.now.range) scan.now.start) }
        ensures reason { HasReason (R.faults rows.old) (R.faults rows.new) result }
    {
        if !scan.range.is_of_family(&cell.family) {
            self.pass(cell);
            return Ok(true);
        }
        let found = read_newest(rows, &cell, newest, scan.start)?;
        match said(&cell, found, scan.keys_only) {
            Some(found) => self.name(cell, found),
            None => {
                self.pass(cell);
                Ok(true)
            }
        }
    }

    /// Looks at the cells of the next batch: at most 256, and no more than may still be looked at.
    fn take_batch<R: Rows>(&mut self, rows: &mut R, scan: &Scan) -> Result<Batch, Refusal>
        requires limits { IsInLimits self.old }
        requires room { self.old.looked < self.old.cells }
        ensures come { IsScanReadable R.seen rows.old (range_named scan.now.range)
            → Gathers (R.seen.cells rows.old) scan.now self.old
            → IfOk result (HasCome (R.seen.cells rows.old) scan.now self.new) }
        ensures more { IfOk result (λ batch. batch ≡ Batch.Done
            → self.old.looked < self.new.looked) }
        ensures full { IfOk result (λ batch. batch ≡ Batch.Full → 1 ≤ self.new.looked) }
        ensures limits { OnOk result (IsInLimits self.new) }
        ensures cells { self.new.cells ≡ self.old.cells }
        ensures reads { OnlyReads R.seen rows.old rows.new }
        ensures refusal { IfErr result IsReadRefusal }
        ensures damaged { IsScanReadable R.seen rows.old (range_named scan.now.range)
            → Gathers (R.seen.cells rows.old) scan.now self.old
            → IfErr result (λ refusal. refusal ≡ Refusal.Damaged → IsScanDamaged
            (R.seen.cells rows.old) (range_named scan.now.range) scan.now.start) }
        ensures reason { HasReason (R.faults rows.old) (R.faults rows.new) result }
    {
        let limits = self.limits();
        let batch = self.next_versions(rows, scan.start, limits)?;
        let VersionBatch { cells, is_last } = batch;
        for versions in cells {
            let CellVersions {
                row,
                family,
                data,
                lock,
                write,
            } = versions;
            if !scan.range.is_up_to(&row) {
                return Ok(Batch::End);
            }
            let newest = Newest { data, lock, write };
            if !self.look(rows, scan, Cell { row, family }, newest)? {
                return Ok(Batch::Full);
            }
        }
        Ok(if is_last { Batch::End } else { Batch::Done })
    }

    /// The reply of a scan that covered all of its range.
    fn ended(self) -> ScanReply
        requires { IsInLimits self }
        ensures items { map item_of result.items.items ≡ items_in self }
        ensures reach { reach_of result.reach ≡ machine.ToEnd }
        ensures limits { IsInScanLimits (map item_of result.items.items) (reach_of result.reach) }
    {
        let Gathered { items, .. } = self;
        ScanReply {
            items,
            reach: ScanReach::End,
        }
    }

    /// The reply of a scan that stopped after the last cell. Answers `NoMemory` if there is no memory for a copy of it.
    fn stopped(self) -> Result<ScanReply, Refusal>
        requires limits { IsInLimits self }
        requires some { IsSome (last_of self) }
        ensures items { IfOk result (λ reply. map item_of reply.items.items ≡ items_in self) }
        ensures reach { IfOk result (λ reply. (x : CellOf) → last_of self ≡ Some x
            → reach_of reply.reach ≡ machine.UpTo x) }
        ensures limits { IfOk result (λ reply. IsInScanLimits
            (map item_of reply.items.items) (reach_of reply.reach)) }
        ensures refusal { IfErr result (λ refusal. refusal ≡ Refusal.NoMemory) }
    {
        let last = copy_of(self.last().unwrap())?;
        let Gathered { items, .. } = self;
        Ok(ScanReply {
            items,
            reach: ScanReach::More(last),
        })
    }
}

impl Scan {
    /// Looks at the cells of the range in order, at most `cells` of them.
    ///
    /// # Errors
    ///
    /// `Device`, `NoMemory`, or `Damaged` if bytes that were read are malformed.
    pub(crate) fn run<R: Rows>(
        &self,
        alloc: Global,
        rows: &mut R,
        cells: u32,
    ) -> Result<ScanReply, Refusal>
        requires rows { HasRows (range_named self.now.range) }
        requires families { HasFamilies (range_named self.now.range) }
        requires some { 1 ≤ cells }
        ensures found { IsScanReadable R.seen rows.old (range_named self.now.range)
            → IfOk result (λ reply. IsScanFound (R.seen.cells rows.old) self.now.start
            (range_named self.now.range) self.now.keys_only cells
            (map item_of reply.items.items) (reach_of reply.reach)) }
        ensures limits { IfOk result (λ reply. IsInScanLimits
            (map item_of reply.items.items) (reach_of reply.reach)) }
        ensures reads { OnlyReads R.seen rows.old rows.new }
        ensures refusal { IfErr result IsReadRefusal }
        ensures damaged { IsScanReadable R.seen rows.old (range_named self.now.range)
            → IfErr result (λ refusal. refusal ≡ Refusal.Damaged → IsScanDamaged
            (R.seen.cells rows.old) (range_named self.now.range) self.now.start) }
        ensures reason { HasReason (R.faults rows.old) (R.faults rows.new) result }
    {
        let mut gathered = Gathered::new(alloc, self, cells)?;
        while gathered.looked < gathered.cells {
            match gathered.take_batch(rows, self)? {
                Batch::Done => {}
                Batch::End => return Ok(gathered.ended()),
                Batch::Full => return gathered.stopped(),
            }
        }
        gathered.stopped()
    }
}
