//! Reads and edits of a cluster's rows: its `Rows`.

ghost use Rattle.std.specs.Prelude.{◌≡◌, ◌≤◌, ◌↔◌, ◌++◌, IfErr, IfOk, IfSome, IsErrOf, IsTrue, None, OnErr, OnOk, Some, length, map, option_map, IsOkUnless};
ghost use Rattle.cell_key.specs.Cells.{IsEditOf, IsNewest, version};
ghost use Rattle.cell_key.specs.Places.{AreNextCells, IsNextCell, place_named};
ghost use Rattle.cell_key.specs.Versions.{IsVersion, IsVersionIn, stamped};
ghost use Rattle.file_store.specs.Store.{Contents};
ghost use Rattle.metadata_table.specs.Places.{view_of, views};
ghost use Rattle.metadata_table.specs.Table.{IsTable};
ghost use Rattle.sorted_file.specs.Source.{ReadsFiles};
ghost use Rattle.std.specs.Bool.{OnFalse};
ghost use Rattle.std.specs.List.{AllByRecursion};
ghost use Rattle.cell_key.specs.Faults.{HasReason};
ghost use Rattle.rows.specs.Batches.{AreNextVersions, IsFull};
ghost use Rattle.rows.specs.Reads.{AreNewestFirst, HasVersion};
ghost use Rattle.rows.specs.Calls.{Applies, AppliesAll, AreReadableFrom, OnlyReads};
ghost use Rattle.rows.specs.Room.{OverfillsOne};
ghost use Rattle.rows.specs.RowEdits.{AreOfTheirRow};
ghost use Rattle.row_atomic.specs.Seen.{seen_of};
ghost use Rattle.row_atomic.specs.Changes.{IsOutOfOrder, MeetsDamage, OfHolder};
ghost use Rattle.row_atomic.specs.Commands.{OverfillsCluster, cells_shown};
ghost use Rattle.rows.specs.Refusals.{IsApplyRefusal, IsRefusalOfRead};
ghost use Rattle.row_atomic.specs.Clusters.{ArePlaced, AreOpenFrom, IsReadable, PrecedesCell, cells_in};

use crate::cluster::Cluster;
use crate::cluster::many_rows::apply_to;
use crate::fill::Fill;
use crate::place_cache::index_of;
use cell_key::{Edit, Family, Qualifier, Refusal, Row, Stamp};
use file_store::Files;
use metadata_table::Place;
use rows::{RowEdits, Rows};
use std::alloc::Global;
use tablet::{BatchLimits, CellVersions, Tablet, VersionBatch, edits_show};

/// Whether all rows of a place come before the row of a cell.
fn precedes(place: &Place, after: Option<(&Row, &Family)>) -> bool
    ensures { IsTrue result
        ↔ PrecedesCell (view_of place.now) (option_map place_named after.entry) }
{
    match (after, &place.end) {
        (Some((row, _)), Some(end)) => end.cmp(row).is_lt(),
        _ => false,
    }
}

/// The next cells that have any version in these tablets, in the order of their rows, `most` of them or all if there
/// are fewer. A tablet is asked only for as many cells as are still missing.
fn next_cells_in<F: Files>(
    alloc: Global,
    places: &[Place],
    tablets: &[Tablet],
    after: Option<(&Row, &Family)>,
    most: usize,
    files: &mut F,
) -> Result<Vec<(Row, Family)>, Refusal>
    requires table { IsTable (views places.now) }
    requires placed { ArePlaced tablets.now None (views places.now) }
    requires as_many { length tablets.now ≡ length (views places.now) }
    ensures found { IfOk result (λ found. (m : Contents) → F.contents files.old ≡ Some m
        → AreOpenFrom m tablets.now (option_map place_named after.entry) (views places.now)
        → AreNextCells (cells_in (Some m) tablets.now) (option_map place_named after.entry) most
        found.items) }
    ensures few { IfOk result (λ found. length found.items ≤ most) }
    ensures meets { IsErrOf result Refusal.Damaged → MeetsDamage (F.contents files.old)
        (option_map place_named after.entry) most (views places.now) tablets.now }
    ensures reads { ReadsFiles F.contents F.faults files.old files.new result }
{
    let mut found = Vec::new(alloc);
    for place in places {
        if found.len() < most && !precedes(place, after) {
            let tablet = &tablets[place.tablet as usize - 1];
            let mut more = tablet.next_cells(after, most - found.len(), files)?;
            found.append(&mut more)?;
        }
    }
    Ok(found)
}

/// Two lists of cells, one after the other. Answers `NoMemory` if there is no memory. If the first is empty nothing is
/// allocated.
fn joined(
    mut found: Vec<CellVersions>,
    mut more: Vec<CellVersions>,
) -> Result<Vec<CellVersions>, Refusal>
    ensures ok { IfOk result (λ all. all.items ≡ found.items ++ more.items) }
    ensures refusal { IsOkUnless result Refusal.NoMemory }
{
    if found.is_empty() {
        return Ok(more);
    }
    found.append(&mut more)?;
    Ok(found)
}

/// The next cells that have any version in these tablets, in the order of their rows, each with the newest versions of
/// its columns at or below `hi`, until the batch is full or no cell is left. A tablet is asked only once those before
/// it have no more.
fn next_versions_in<F: Files>(
    alloc: Global,
    places: &[Place],
    tablets: &[Tablet],
    after: Option<(&Row, &Family)>,
    limits: BatchLimits,
    hi: Stamp,
    files: &mut F,
) -> Result<VersionBatch, Refusal>
    requires table { IsTable (views places.now) }
    requires placed { ArePlaced tablets.now None (views places.now) }
    requires as_many { length tablets.now ≡ length (views places.now) }
    ensures found { IfOk result (λ batch. (m : Contents) → F.contents files.old ≡ Some m
        → AreOpenFrom m tablets.now (option_map place_named after.entry) (views places.now)
        → AreNextVersions (cells_in (Some m) tablets.now) (option_map place_named after.entry) hi
        batch) }
    ensures full { IfOk result (λ batch. OnFalse batch.is_last (IsFull limits batch.cells.items)) }
    ensures few { IfOk result (λ batch. length batch.cells.items ≤ limits.cells) }
    ensures damaged { IsErrOf result Refusal.Damaged → (m : Contents)
        → F.contents files.old ≡ Some m
        → ¬ AreOpenFrom m tablets.now (option_map place_named after.entry) (views places.now) }
    ensures reads { ReadsFiles F.contents F.faults files.old files.new result }
{
    let mut found = Vec::new(alloc);
    let mut is_last = true;
    for place in places {
        if is_last && !precedes(place, after) {
            let tablet = &tablets[place.tablet as usize - 1];
            let left = limits.after(&found);
            let more = tablet.next_versions(after, left, hi, files)?;
            let VersionBatch {
                cells,
                is_last: none_left,
            } = more;
            found = joined(found, cells)?;
            is_last = none_left;
        }
    }
    Ok(VersionBatch {
        cells: found,
        is_last,
    })
}

impl<F: Files> Rows for Cluster<F> {
    ghost seen = { seen_of F.contents };

    ghost faults = { λ cluster. F.faults cluster.files };

    fn newest(
        &mut self,
        row: &Row,
        family: &Family,
        qualifier: Qualifier,
        lo: Stamp,
        hi: Stamp,
    ) -> Result<Option<(Stamp, Vec<u8>)>, Refusal>
        ensures found { IsReadable (F.contents self.old.files) self.old.places self.old.tablets
            row.now → IfOk result (λ found. IsNewest (cells_shown F.contents self.old)
            (version row.now family.now qualifier) lo hi (option_map stamped found)) }
        ensures reads { OnlyReads (seen_of F.contents) self.old self.new }
        ensures limits { IfOk result (λ found.
            IfSome (option_map stamped found) (IsVersionIn lo hi)) }
        ensures damaged { IsErrOf result Refusal.Damaged → OfHolder
            (IsOutOfOrder (F.contents self.old.files)) row.now self.old.places self.old.tablets }
        ensures refusal { IfErr result (IsRefusalOfRead (IsReadable
            (F.contents self.old.files) self.old.places self.old.tablets row.now)) }
        ensures reason { HasReason (F.faults self.old.files) (F.faults self.new.files) result }
    {
        let index = index_of(&self.table, &mut self.place_cache, row);
        self.tablets[index].newest(row, family, qualifier, lo, hi, &mut self.files)
    }

    fn versions(
        &mut self,
        row: &Row,
        family: &Family,
        qualifier: Qualifier,
        hi: Stamp,
        most: usize,
    ) -> Result<Vec<(Stamp, Vec<u8>)>, Refusal>
        ensures found { IsReadable (F.contents self.old.files) self.old.places self.old.tablets
            row.now → IfOk result (λ found. AreNewestFirst (cells_shown F.contents self.old)
            (version row.now family.now qualifier) hi most (map stamped found.items)) }
        ensures few { IfOk result (λ found. length found.items ≤ most) }
        ensures reads { OnlyReads (seen_of F.contents) self.old self.new }
        ensures limits { IfOk result (λ found.
            AllByRecursion (λ version. IsVersion version.0 version.1.items) found.items) }
        ensures damaged { IsErrOf result Refusal.Damaged → OfHolder
            (IsOutOfOrder (F.contents self.old.files)) row.now self.old.places self.old.tablets }
        ensures refusal { IfErr result (IsRefusalOfRead (IsReadable
            (F.contents self.old.files) self.old.places self.old.tablets row.now)) }
        ensures reason { HasReason (F.faults self.old.files) (F.faults self.new.files) result }
    {
        let index = index_of(&self.table, &mut self.place_cache, row);
        self.tablets[index].versions(row, family, qualifier, hi, most, &mut self.files)
    }

    fn has_version(
        &mut self,
        row: &Row,
        family: &Family,
        qualifier: Qualifier,
        lo: Stamp,
        hi: Stamp,
    ) -> Result<bool, Refusal>
        ensures found { IsReadable (F.contents self.old.files) self.old.places self.old.tablets
            row.now → IfOk result (HasVersion (cells_shown F.contents self.old)
            (version row.now family.now qualifier) lo hi) }
        ensures reads { OnlyReads (seen_of F.contents) self.old self.new }
        ensures damaged { IsErrOf result Refusal.Damaged → OfHolder
            (IsOutOfOrder (F.contents self.old.files)) row.now self.old.places self.old.tablets }
        ensures refusal { IfErr result (IsRefusalOfRead (IsReadable
            (F.contents self.old.files) self.old.places self.old.tablets row.now)) }
        ensures reason { HasReason (F.faults self.old.files) (F.faults self.new.files) result }
    {
        let index = index_of(&self.table, &mut self.place_cache, row);
        self.tablets[index].has_version(row, family, qualifier, lo, hi, &mut self.files)
    }

    fn next_cell(
        &mut self,
        after: Option<(&Row, &Family)>,
    ) -> Result<Option<(Row, Family)>, Refusal>
        ensures found { AreReadableFrom (seen_of F.contents) self.old
            (option_map place_named after.entry) → IfOk result (IsNextCell
            (cells_shown F.contents self.old) (option_map place_named after.entry)) }
        ensures reads { OnlyReads (seen_of F.contents) self.old self.new }
        ensures damaged { IsErrOf result Refusal.Damaged → MeetsDamage
            (F.contents self.old.files) (option_map place_named after.entry) 1
            self.old.places self.old.tablets }
        ensures refusal { IfErr result (IsRefusalOfRead (AreReadableFrom
            (seen_of F.contents) self.old (option_map place_named after.entry))) }
        ensures reason { HasReason (F.faults self.old.files) (F.faults self.new.files) result }
    {
        let mut found = self.next_cells(after, 1)?;
        Ok(found.pop())
    }

    fn next_cells(
        &mut self,
        after: Option<(&Row, &Family)>,
        most: usize,
    ) -> Result<Vec<(Row, Family)>, Refusal>
        ensures found { AreReadableFrom (seen_of F.contents) self.old
            (option_map place_named after.entry) → IfOk result (λ found. AreNextCells
            (cells_shown F.contents self.old) (option_map place_named after.entry) most
            found.items) }
        ensures few { IfOk result (λ found. length found.items ≤ most) }
        ensures reads { OnlyReads (seen_of F.contents) self.old self.new }
        ensures damaged { IsErrOf result Refusal.Damaged → MeetsDamage
            (F.contents self.old.files) (option_map place_named after.entry) most
            self.old.places self.old.tablets }
        ensures refusal { IfErr result (IsRefusalOfRead (AreReadableFrom
            (seen_of F.contents) self.old (option_map place_named after.entry))) }
        ensures reason { HasReason (F.faults self.old.files) (F.faults self.new.files) result }
    {
        let places = self.table.places();
        next_cells_in(
            self.alloc,
            places,
            &self.tablets,
            after,
            most,
            &mut self.files,
        )
    }

    fn next_versions(
        &mut self,
        after: Option<(&Row, &Family)>,
        limits: BatchLimits,
        hi: Stamp,
    ) -> Result<VersionBatch, Refusal> {
        let places = self.table.places();
        next_versions_in(
            self.alloc,
            places,
            &self.tablets,
            after,
            limits,
            hi,
            &mut self.files,
        )
    }

    /// It is never refused for a device.
    fn apply(&mut self, row: &Row, edits: Vec<Edit>) -> Result<(), Refusal>
        requires { AllByRecursion (IsEditOf row.now) edits.items }
        ensures ok { OnOk result (Applies (seen_of F.contents)
            row.now edits.items self.old self.new) }
        ensures err { OnErr result (OnlyReads (seen_of F.contents) self.old self.new) }
        ensures refusal { IfErr result IsApplyRefusal }
        ensures full { IsErrOf result Refusal.MemtableFull
            → OverfillsCluster self.old row.now edits.items }
        ensures within { OnOk result (¬ OverfillsCluster self.old row.now edits.items) }
        ensures untouched { F.faults self.new.files ≡ F.faults self.old.files }
    {
        let index = index_of(&self.table, &mut self.place_cache, row);
        let done = self.tablets[index].apply(row, edits);
        self.most = self.most.joined(Fill::of(&self.tablets[index]));
        done
    }

    /// It is never refused for a device.
    fn apply_all(&mut self, changes: Vec<RowEdits>) -> Result<(), Refusal>
        requires { AllByRecursion AreOfTheirRow changes.items }
        ensures ok { OnOk result (AppliesAll (seen_of F.contents)
            changes.items self.old self.new) }
        ensures err { OnErr result (OnlyReads (seen_of F.contents) self.old self.new) }
        ensures refusal { IfErr result IsApplyRefusal }
        ensures full { IsErrOf result Refusal.MemtableFull
            → OverfillsOne OverfillsCluster changes.items self.old }
        ensures within { OnOk result (¬ OverfillsOne OverfillsCluster changes.items self.old) }
        ensures untouched { F.faults self.new.files ≡ F.faults self.old.files }
    {
        edits_show();
        apply_to(
            self.alloc,
            &self.table,
            &mut self.place_cache,
            &mut self.tablets,
            &mut self.most,
            changes,
        )
    }

    fn faults(&self) -> u64 {
        self.files.faults()
    }
}
