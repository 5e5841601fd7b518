//! Rows of cells: the trait of their calls, and the contract of each.

ghost use Rattle.std.specs.Prelude.{◌≡◌, ◌≤◌, ℕ, length, map, IfOk, OnOk, OnErr, IfErr, IsErrOf, IfSome, option_map};
ghost use Rattle.std.specs.Bool.{OnFalse};
ghost use Rattle.std.specs.List.{AllByRecursion};
ghost use Rattle.cell_key.specs.Cells.{IsNewest, IsEditOf, version};
ghost use Rattle.cell_key.specs.Faults.{HasReason};
ghost use Rattle.cell_key.specs.Places.{AreNextCells, IsNextCell, place_named};
ghost use Rattle.cell_key.specs.Versions.{IsVersion, IsVersionIn, stamped};
ghost use Rattle.rows.specs.Batches.{AreNextVersions, IsFull};
ghost use Rattle.rows.specs.Reads.{AreNewestFirst, HasVersion};
ghost use Rattle.rows.specs.Calls.{Applies, AppliesAll, AreReadableFrom, OnlyReads, View};
ghost use Rattle.rows.specs.Refusals.{IsEditRefusal, IsRefusalOfRead};
ghost use Rattle.rows.specs.Room.{OverfillsOne};
ghost use Rattle.rows.specs.RowEdits.{AreOfTheirRow};

use crate::batches::{BatchLimits, VersionBatch};
use crate::row_edits::RowEdits;
use cell_key::{Edit, Family, Qualifier, Refusal, Row, Stamp};

/// Rows of cells. Reads and writes of a single row are atomic (Bigtable: reads and writes under a single row are
/// atomic).
///
/// A read changes no cell, even if it is refused. Its refusals are `Device` if a device failed during the call,
/// `NoMemory` if an allocation failed, and `Damaged` if bytes that were read are malformed. Damage elsewhere does not
/// block a read, and its answer is then right.
pub trait Rows {
    /// The view of the rows. Each call keeps the premise under which answers have a meaning. A read changes neither the
    /// cells nor the room for edits, and no call changes the state below the rows in memory.
    ghost seen: { View Self };

    /// How often a device has failed. The count saturates at 2^64 - 1.
    ghost faults: { Self → ℕ };

    /// The version of a cell's column with the greatest stamp in `lo..=hi`: its stamp, from 1 to 2^63 - 1, and its
    /// value of at most 65,536 bytes. `None` without one.
    ///
    /// # Errors
    ///
    /// `Device`, `NoMemory` or `Damaged`, as for every read.
    fn newest(
        &mut self,
        row: &Row,
        family: &Family,
        qualifier: Qualifier,
        lo: Stamp,
        hi: Stamp,
    ) -> Result<Option<(Stamp, Vec<u8>)>, Refusal>
        ensures found { seen.readable self.old row.now → IfOk result (λ found. IsNewest
            (seen.cells self.old) (version row.now family.now qualifier) lo hi
            (option_map stamped found)) }
        ensures reads { OnlyReads seen self.old self.new }
        ensures limits { IfOk result (λ found.
            IfSome (option_map stamped found) (IsVersionIn lo hi)) }
        ensures refusal { IfErr result (IsRefusalOfRead (seen.readable self.old row.now)) }
        ensures reason { HasReason (faults self.old) (faults self.new) result };

    /// The versions of a cell's column with stamps at or below `hi`, the newest first, as repeated calls of `newest`
    /// would find them, `most` of them or all if there are fewer. They cost one pass up to the last of them.
    ///
    /// # Errors
    ///
    /// `Device`, `NoMemory` or `Damaged`, as for every read.
    fn versions(
        &mut self,
        row: &Row,
        family: &Family,
        qualifier: Qualifier,
        hi: Stamp,
        most: usize,
    ) -> Result<Vec<(Stamp, Vec<u8>)>, Refusal>
        ensures found { seen.readable self.old row.now → IfOk result (λ found. AreNewestFirst
            (seen.cells self.old) (version row.now family.now qualifier) hi most
            (map stamped found.items)) }
        ensures few { IfOk result (λ found. length found.items ≤ most) }
        ensures reads { OnlyReads seen self.old self.new }
        ensures limits { IfOk result (λ found.
            AllByRecursion (λ version. IsVersion version.0 version.1.items) found.items) }
        ensures refusal { IfErr result (IsRefusalOfRead (seen.readable self.old row.now)) }
        ensures reason { HasReason (faults self.old) (faults self.new) result };

    /// Whether a cell's column has a version with a stamp in `lo..=hi`, that is, whether `newest` would find one. No
    /// value in memory is copied.
    ///
    /// # Errors
    ///
    /// `Device`, `NoMemory` or `Damaged`, as for every read.
    fn has_version(
        &mut self,
        row: &Row,
        family: &Family,
        qualifier: Qualifier,
        lo: Stamp,
        hi: Stamp,
    ) -> Result<bool, Refusal>
        ensures found { seen.readable self.old row.now → IfOk result (HasVersion
            (seen.cells self.old) (version row.now family.now qualifier) lo hi) }
        ensures reads { OnlyReads seen self.old self.new }
        ensures refusal { IfErr result (IsRefusalOfRead (seen.readable self.old row.now)) }
        ensures reason { HasReason (faults self.old) (faults self.new) result };

    /// The next cell that has any version, in the order of rows and then of families, after the cell `after`, or from
    /// the start without one. `None` if no cell is left.
    ///
    /// # Errors
    ///
    /// `Device`, `NoMemory` or `Damaged`, as for every read.
    fn next_cell(
        &mut self,
        after: Option<(&Row, &Family)>,
    ) -> Result<Option<(Row, Family)>, Refusal>
        ensures found { AreReadableFrom seen self.old (option_map place_named after.entry)
            → IfOk result (IsNextCell (seen.cells self.old) (option_map place_named after.entry)) }
        ensures reads { OnlyReads seen self.old self.new }
        ensures refusal { IfErr result (IsRefusalOfRead
            (AreReadableFrom seen self.old (option_map place_named after.entry))) }
        ensures reason { HasReason (faults self.old) (faults self.new) result };

    /// The next cells that have any version, in the order of rows and then of families, after the cell `after`, or from
    /// the start without one, `most` of them or all if there are fewer. They cost one pass up to the last of them.
    ///
    /// # Errors
    ///
    /// `Device`, `NoMemory` or `Damaged`, as for every read.
    fn next_cells(
        &mut self,
        after: Option<(&Row, &Family)>,
        most: usize,
    ) -> Result<Vec<(Row, Family)>, Refusal>
        ensures found { AreReadableFrom seen self.old (option_map place_named after.entry)
            → IfOk result (λ found. AreNextCells (seen.cells self.old)
            (option_map place_named after.entry) most found.items) }
        ensures few { IfOk result (λ found. length found.items ≤ most) }
        ensures reads { OnlyReads seen self.old self.new }
        ensures refusal { IfErr result (IsRefusalOfRead
            (AreReadableFrom seen self.old (option_map place_named after.entry))) }
        ensures reason { HasReason (faults self.old) (faults self.new) result };

    /// The next cells that have any version, as from `next_cells`, each with the newest versions of its columns at or
    /// below `hi`. It stops when the cells reach the number or their values the bytes of `limits`, or no cell is left.
    /// They cost one pass up to the last of them, in which no other version is copied.
    ///
    /// # Errors
    ///
    /// `Device`, `NoMemory` or `Damaged`, as for every read.
    fn next_versions(
        &mut self,
        after: Option<(&Row, &Family)>,
        limits: BatchLimits,
        hi: Stamp,
    ) -> Result<VersionBatch, Refusal>
        ensures found { AreReadableFrom seen self.old (option_map place_named after.entry)
            → IfOk result (AreNextVersions (seen.cells self.old)
            (option_map place_named after.entry) hi) }
        ensures full { IfOk result (λ batch. OnFalse batch.is_last
            (IsFull limits batch.cells.items)) }
        ensures few { IfOk result (λ batch. length batch.cells.items ≤ limits.cells) }
        ensures reads { OnlyReads seen self.old self.new }
        ensures refusal { IfErr result (IsRefusalOfRead
            (AreReadableFrom seen self.old (option_map place_named after.entry))) }
        ensures reason { HasReason (faults self.old) (faults self.new) result };

    /// Applies edits to one row in order, all of them or none. Nothing below the rows in memory changes.
    ///
    /// # Errors
    ///
    /// `MemtableFull` if a limit of the memory would be exceeded, `NoMemory` if an allocation failed, and `Device` if
    /// a device failed during the call: rows that others change too refuse edits so if the row has changed since it was
    /// read. The cells are then unchanged, and edits would exceed a limit only if they would have before.
    fn apply(&mut self, row: &Row, edits: Vec<Edit>) -> Result<(), Refusal>
        requires { AllByRecursion (IsEditOf row.now) edits.items }
        ensures ok { OnOk result (Applies seen row.now edits.items self.old self.new) }
        ensures err { OnErr result (OnlyReads seen self.old self.new) }
        ensures refusal { IfErr result IsEditRefusal }
        ensures full { IsErrOf result Refusal.MemtableFull
            → seen.overfills self.old row.now edits.items }
        ensures within { OnOk result (¬ seen.overfills self.old row.now edits.items) }
        ensures reason { HasReason (faults self.old) (faults self.new) result };

    /// Applies edits to several rows in order, one row after the other, all of them or none. The rows may repeat.
    /// Nothing below the rows in memory changes.
    ///
    /// # Errors
    ///
    /// `MemtableFull` if all the edits together would exceed a limit of the memory, and `NoMemory` or `Device` as for
    /// `apply`. If several are so, the answer is any of them. The cells are then unchanged, and edits would exceed a
    /// limit only if they would have before.
    fn apply_all(&mut self, changes: Vec<RowEdits>) -> Result<(), Refusal>
        requires { AllByRecursion AreOfTheirRow changes.items }
        ensures ok { OnOk result (AppliesAll seen changes.items self.old self.new) }
        ensures err { OnErr result (OnlyReads seen self.old self.new) }
        ensures refusal { IfErr result IsEditRefusal }
        ensures full { IsErrOf result Refusal.MemtableFull
            → OverfillsOne seen.overfills changes.items self.old }
        ensures within { OnOk result (¬ OverfillsOne seen.overfills changes.items self.old) }
        ensures reason { HasReason (faults self.old) (faults self.new) result };

    /// How often a device has failed. The count saturates at 2^64 - 1.
    fn faults(&self) -> u64
        ensures { result ≡ faults self.now };
}
