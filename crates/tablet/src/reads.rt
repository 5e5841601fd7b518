//! A tablet's reads: the newest versions of a column, and the next cells, alone or with their newest versions.

ghost use Rattle.std.specs.Prelude.{◌≡◌, ℕ, ◌≤◌, ◌<◌, ◌^◌, length, [], false, IsTrue, option_map, map, IfOk, IfSome, IsOkUnless};
ghost use Rattle.cell_key.specs.Cells.{IsNewest, version};
ghost use Rattle.cell_key.specs.Entries.{cells_of};
ghost use Rattle.cell_key.specs.Places.{AreNextCells, IsNextCell, place_named};
ghost use Rattle.cell_key.specs.Versions.{IsVersion, IsVersionIn, stamped};
ghost use Rattle.memtable.specs.Slots.{lent_version};
ghost use Rattle.sorted_file.specs.Newest.{at_stamp, found_bytes, IsShortValue};
ghost use Rattle.std.specs.Bool.{OnFalse};
ghost use Rattle.std.specs.List.{AllByRecursion};
ghost use Rattle.rows.specs.Batches.{AreNextVersions, IsFull};
ghost use Rattle.tablet.specs.Ranges.{has_row};
ghost use Rattle.rows.specs.Reads.{AreNewestFirst, HasVersion};
ghost use Rattle.tablet.specs.Reads.{HaveNoValue, IsLater, IsNextVersion, ReadsTablet};

use crate::lookup::lookup;
use crate::scan::{later, merged_places, merged_values, merged_versions, past_place, version_text};
use crate::sources::fences;
use crate::tablet::Tablet;
use cell_key::{CellKey, Family, MOST_STAMP, Qualifier, Refusal, Row, Stamp};
use file_store::Files;
use rows::{BatchLimits, VersionBatch};
use sorted_file::LookupKey;
use std::alloc::Global;

/// How many hidden versions a read skips one at a time.
const FEW_HIDDEN: usize = 8;

/// A copy of a borrowed version, if there is one. Answers `NoMemory` if there is no memory.
fn copy_version(
    alloc: Global,
    found: Option<(Stamp, &[u8])>,
) -> Result<Option<(Stamp, Vec<u8>)>, Refusal>
    ensures copy { IfOk result (λ copy.
        option_map stamped copy ≡ option_map lent_version found.entry) }
    ensures refusal { IsOkUnless result Refusal.NoMemory }
{
    match found {
        Some((stamp, value)) => {
            let copy = Vec::from_slice(alloc, value)?;
            Ok(Some((stamp, copy)))
        }
        None => Ok(None),
    }
}

/// The first stamp after the version's, or `lo` without a version.
fn stamp_after(found: Option<(Stamp, &[u8])>, lo: Stamp) -> Stamp
    requires { IfSome found (λ found. IsVersion found.0 found.1.now) }
    ensures after { IsLater result lo (option_map lent_version found.entry) }
    ensures first { (s : ℕ) → IsLater s lo (option_map lent_version found.entry) → result ≤ s }
{
    match found {
        Some((stamp, _)) => stamp + 1,
        None => lo,
    }
}

impl Tablet {
    ghost use Rattle.file_store.specs.Store.{Contents};
    ghost use Rattle.tablet.specs.Views.{range_of, memory_of, files_of, cells_at, Holds, IsSameTablet};

    /// Whether the files' merged list may have a value of a column of this kind in the row, at a stamp in `lo..=hi`.
    /// For a lock the index of the files' locks is also checked for the row. Allocates nothing and reads no file.
    fn may_be_in_files(&self, row: &Row, qualifier: Qualifier, lo: Stamp, hi: Stamp) -> bool
        ensures { result ≡ false → lo ≤ hi
            → HaveNoValue row.now qualifier lo hi (files_of self.now) }
    {
        lo <= hi && self.files.may_have(row, qualifier, lo, hi)
    }

    /// The version at the key's stamp, if the tablet has it, by lookups. No file is asked if the memtable names the
    /// version, or the filter of the files' keys rules it out.
    fn version_at<F: Files>(
        &mut self,
        key: &LookupKey,
        files: &mut F,
    ) -> Result<Option<(Stamp, Vec<u8>)>, Refusal>
        requires from { 1 ≤ key.now.stamp }
        requires to { key.now.stamp < 2 ^ 63 }
        ensures found { IfOk result (λ found.
            IfSome (F.contents files.old) (λ m. Holds m self.old
            → IsTrue (has_row (range_of self.old) key.now.row)
            → IsNewest (cells_at m self.old) (at_stamp key.now) key.now.stamp key.now.stamp
            (option_map stamped found))) }
        ensures limits { IfOk result (λ found.
            IfSome (option_map stamped found) (IsVersionIn key.now.stamp key.now.stamp)) }
        ensures stays { IsSameTablet (F.contents files.old) self.old self.new }
        ensures reads { ReadsTablet F.contents F.faults self.old files.old files.new result }
    {
        let stamp = key.key().stamp;
        match lookup(self.alloc, &self.memtable, &mut self.files, key, files)? {
            Some(value) => Ok(Some((stamp, value))),
            None => Ok(None),
        }
    }

    /// The newest version in `lo..=hi`, given that the memtable has none there. A single stamp is looked up; otherwise the
    /// files are asked for their newest entry. A version that a newer erasure hides is skipped; after eight of them one
    /// pass over the rest of the column decides.
    fn newest_in_files<F: Files>(
        &mut self,
        row: &Row,
        family: &Family,
        qualifier: Qualifier,
        lo: Stamp,
        hi: Stamp,
        files: &mut F,
    ) -> Result<Option<(Stamp, Vec<u8>)>, Refusal>
        requires from { 1 ≤ lo }
        requires to { hi < 2 ^ 63 }
        ensures found { IfOk result (λ found. IfSome (F.contents files.old) (λ m. Holds m self.old
            → IsTrue (has_row (range_of self.old) row.now)
            → IsNewest (cells_of (memory_of self.old)) (version row.now family.now qualifier) lo hi
            None
            → IsNewest (cells_at m self.old) (version row.now family.now qualifier) lo hi
            (option_map stamped found))) }
        ensures limits { IfOk result (λ found.
            IfSome (option_map stamped found) (IsVersionIn lo hi)) }
        ensures stays { IsSameTablet (F.contents files.old) self.old self.new }
        ensures reads { ReadsTablet F.contents F.faults self.old files.old files.new result }
    {
        let last = CellKey::new(row, family, qualifier, hi)?;
        let mut key = LookupKey::new(self.alloc, last)?;
        if lo == hi {
            return self.version_at(&key, files);
        }
        let mut passed = 0;
        'hidden: while passed < FEW_HIDDEN {
            let Some((stamp, value)) = self.next_version(&mut key, lo, files)? else {
                return Ok(None);
            };
            if let Some(value) = value {
                return Ok(Some((stamp, value)));
            }
            key.set_stamp(stamp - 1);
            passed += 1;
        }
        let below = key.key().stamp;
        self.newest_by_pass(row, family, qualifier, lo, below, files)
    }

    /// The newest version in `lo..=hi`, by one pass over the column from `hi` down.
    fn newest_by_pass<F: Files>(
        &self,
        row: &Row,
        family: &Family,
        qualifier: Qualifier,
        lo: Stamp,
        hi: Stamp,
        files: &mut F,
    ) -> Result<Option<(Stamp, Vec<u8>)>, Refusal>
        ensures found { IfOk result (λ found. IfSome (F.contents files.old) (λ m. Holds m self.now
            → IsTrue (has_row (range_of self.now) row.now)
            → IsNewest (cells_at m self.now) (version row.now family.now qualifier) lo hi
            (option_map stamped found))) }
        ensures limits { IfOk result (λ found.
            IfSome (option_map stamped found) (IsVersionIn lo hi)) }
        ensures reads { ReadsTablet F.contents F.faults self.now files.old files.new result }
    {
        let mut found = self.versions(row, family, qualifier, hi, 1, files)?;
        match found.pop() {
            Some((stamp, value)) if lo <= stamp && stamp <= hi => Ok(Some((stamp, value))),
            _ => Ok(None),
        }
    }

    /// The stamp of the newest entry in files that may be the newest version from `lo` to the key's stamp, and its value,
    /// or `None` if the version is hidden or erased: then the search goes on below it. The key gets its stamp. For a lock
    /// the index tells the stamp.
    fn next_version<F: Files>(
        &mut self,
        key: &mut LookupKey,
        lo: Stamp,
        files: &mut F,
    ) -> Result<Option<(Stamp, Option<Vec<u8>>)>, Refusal>
        requires from { 1 ≤ lo }
        requires to { key.old.stamp < 2 ^ 63 }
        ensures found { IfOk result (λ found. IfSome (F.contents files.old) (λ m. Holds m self.old
            → IsNextVersion m self.old key.old lo (option_map found_bytes found))) }
        ensures within { IfOk result (λ found.
            IfSome found (λ next. (lo ≤ next.0) × (next.0 ≤ key.old.stamp))) }
        ensures short { IfOk result (λ found. IfSome found (λ next. IsShortValue next.1)) }
        ensures key { IfOk result (λ found.
            IfSome found (λ next. key.new ≡ at_stamp key.old next.0)) }
        ensures stays { IsSameTablet (F.contents files.old) self.old self.new }
        ensures reads { ReadsTablet F.contents F.faults self.old files.old files.new result }
    {
        if key.key().qualifier == Qualifier::Lock {
            let Some(stamp) = self.files.latest_lock(key, lo) else {
                return Ok(None);
            };
            key.set_stamp(stamp);
            let value = lookup(self.alloc, &self.memtable, &mut self.files, key, files)?;
            return Ok(Some((stamp, value)));
        }
        let Some((stamp, value)) = self.files.newest(key, lo, files)? else {
            return Ok(None);
        };
        key.set_stamp(stamp);
        if self.memtable.lookup(key.key()).is_some() {
            return Ok(Some((stamp, None)));
        }
        Ok(Some((stamp, value)))
    }

    /// The version of a cell's column with the greatest stamp in `lo..=hi` (Bigtable, timestamps), or `None`. The
    /// memtable is searched first. If no file can have a later version, it decides: no file is asked, and only the copy
    /// of the value allocates. Otherwise each file is asked for its newest entry later than the memtable's version, and
    /// the one with the greatest stamp decides, of several the newest file's. If it is an erasure or the memtable erases
    /// it, the read goes on below it; after eight hidden versions one pass reads the rest of the column. The tablet is
    /// unchanged, also after an `Err`.
    ///
    /// # Errors
    ///
    /// `Damaged` only if a file has changed since it was opened, `Device` and `NoMemory`.
    pub fn newest<F: Files>(
        &mut self,
        row: &Row,
        family: &Family,
        qualifier: Qualifier,
        lo: Stamp,
        hi: Stamp,
        files: &mut F,
    ) -> Result<Option<(Stamp, Vec<u8>)>, Refusal>
        ensures found { IfOk result (λ found.
            IfSome (F.contents files.old) (λ m. Holds m self.old
            → IsTrue (has_row (range_of self.old) row.now)
            → IsNewest (cells_at m self.old) (version row.now family.now qualifier) lo hi
            (option_map stamped found))) }
        ensures limits { IfOk result (λ found.
            IfSome (option_map stamped found) (IsVersionIn lo hi)) }
        ensures stays { IsSameTablet (F.contents files.old) self.old self.new }
        ensures reads { ReadsTablet F.contents F.faults self.old files.old files.new result }
    {
        let found = self.memtable.newest(row, family, qualifier, lo, hi);
        let from = stamp_after(found, lo).max(1);
        let to = hi.min(MOST_STAMP);
        let in_memory = copy_version(self.alloc, found)?;
        if !self.may_be_in_files(row, qualifier, from, to) {
            return Ok(in_memory);
        }
        let later = self.newest_in_files(row, family, qualifier, from, to, files)?;
        Ok(later.or(in_memory))
    }

    /// Whether a cell's column has a version with a stamp in `lo..=hi`, that is, whether `newest` would find one. If
    /// the memtable has one, nothing hides it, as every file is older: no file is asked, and nothing is allocated.
    /// Otherwise the files are asked as by `newest`. The tablet is unchanged, also after an `Err`.
    ///
    /// # Errors
    ///
    /// `Damaged` only if a file has changed since it was opened, `Device` and `NoMemory`.
    pub fn has_version<F: Files>(
        &mut self,
        row: &Row,
        family: &Family,
        qualifier: Qualifier,
        lo: Stamp,
        hi: Stamp,
        files: &mut F,
    ) -> Result<bool, Refusal>
        ensures found { IfOk result (λ has.
            IfSome (F.contents files.old) (λ m. Holds m self.old
            → IsTrue (has_row (range_of self.old) row.now)
            → HasVersion (cells_at m self.old) (version row.now family.now qualifier) lo hi has)) }
        ensures stays { IsSameTablet (F.contents files.old) self.old self.new }
        ensures reads { ReadsTablet F.contents F.faults self.old files.old files.new result }
    {
        let in_memory = self.memtable.newest(row, family, qualifier, lo, hi);
        if in_memory.is_some() {
            return Ok(true);
        }
        let from = lo.max(1);
        let to = hi.min(MOST_STAMP);
        if !self.may_be_in_files(row, qualifier, from, to) {
            return Ok(false);
        }
        let found = self.newest_in_files(row, family, qualifier, from, to, files)?;
        Ok(found.is_some())
    }

    /// The versions of a cell's column with stamps at or below `hi` (Bigtable, timestamps), the newest first, `most` of
    /// them or all if there are fewer. The memtable and the files are read once, up to the last version answered.
    ///
    /// # Errors
    ///
    /// `Damaged` only if a file has changed since it was opened, `Device` and `NoMemory`.
    pub fn versions<F: Files>(
        &self,
        row: &Row,
        family: &Family,
        qualifier: Qualifier,
        hi: Stamp,
        most: usize,
        files: &mut F,
    ) -> Result<Vec<(Stamp, Vec<u8>)>, Refusal>
        ensures found { IfOk result (λ found.
            IfSome (F.contents files.old) (λ m. Holds m self.now
            → IsTrue (has_row (range_of self.now) row.now)
            → AreNewestFirst (cells_at m self.now) (version row.now family.now qualifier) hi most
            (map stamped found.items))) }
        ensures few { IfOk result (λ found. length found.items ≤ most) }
        ensures limits { IfOk result (λ found.
            AllByRecursion (λ version. IsVersion version.0 version.1.items) found.items) }
        ensures reads { ReadsTablet F.contents F.faults self.now files.old files.new result }
    {
        let newest = hi.min(MOST_STAMP);
        let from = version_text(self.alloc, row, family, qualifier, newest)?;
        let end = version_text(self.alloc, row, family, qualifier, 0)?;
        merged_values(
            self.alloc,
            &self.memtable,
            self.files.as_slice(),
            &from,
            Some(&end),
            most,
            files,
        )
    }

    /// The first cell of the tablet that has any version, after the cell `after` (which may lie outside the tablet's
    /// range), or from the tablet's start.
    ///
    /// # Errors
    ///
    /// `Damaged` only if a file has changed since it was opened, `Device` and `NoMemory`.
    pub fn next_cell<F: Files>(
        &self,
        after: Option<(&Row, &Family)>,
        files: &mut F,
    ) -> Result<Option<(Row, Family)>, Refusal>
        ensures found { IfOk result (λ found.
            IfSome (F.contents files.old) (λ m. Holds m self.now
            → IsNextCell (cells_at m self.now) (option_map place_named after.entry) found)) }
        ensures reads { ReadsTablet F.contents F.faults self.now files.old files.new result }
    {
        let mut found = self.next_cells(after, 1, files)?;
        Ok(found.pop())
    }

    /// The first cells of the tablet that have any version, `most` of them or all if there are fewer, after the cell
    /// `after` (which may lie outside the tablet's range), or from the tablet's start. The memtable and the files are
    /// read once, up to the last cell answered.
    ///
    /// # Errors
    ///
    /// `Damaged` only if a file has changed since it was opened, `Device` and `NoMemory`.
    pub fn next_cells<F: Files>(
        &self,
        after: Option<(&Row, &Family)>,
        most: usize,
        files: &mut F,
    ) -> Result<Vec<(Row, Family)>, Refusal>
        ensures found { IfOk result (λ found. IfSome (F.contents files.old) (λ m. Holds m self.now
            → AreNextCells (cells_at m self.now) (option_map place_named after.entry) most
            found.items)) }
        ensures few { IfOk result (λ found. length found.items ≤ most) }
        ensures reads { ReadsTablet F.contents F.faults self.now files.old files.new result }
    {
        let (fence, end) = fences(self.alloc, &self.range)?;
        let past = past_place(self.alloc, after)?;
        let from = later(&fence, &past);
        merged_places(
            self.alloc,
            &self.memtable,
            self.files.as_slice(),
            from,
            end.as_deref(),
            most,
            files,
        )
    }
    /// The first cells of the tablet that have any version, after the cell `after` (which may lie outside the tablet's
    /// range), or from the tablet's start, each with the newest versions of its columns at or below `hi`. It stops when
    /// the cells reach the number or their values the bytes of `limits`, or no cell is left. The memtable and the files
    /// are read once, up to the first value after the last of these cells. Older versions, and versions above `hi`, are
    /// not copied.
    ///
    /// # Errors
    ///
    /// `Damaged` only if a file has changed since it was opened, `Device` and `NoMemory`.
    pub fn next_versions<F: Files>(
        &self,
        after: Option<(&Row, &Family)>,
        limits: BatchLimits,
        hi: Stamp,
        files: &mut F,
    ) -> Result<VersionBatch, Refusal>
        ensures found { IfOk result (λ batch. IfSome (F.contents files.old) (λ m. Holds m self.now
            → AreNextVersions (cells_at m self.now) (option_map place_named after.entry) hi
            batch)) }
        ensures full { IfOk result (λ batch. OnFalse batch.is_last
            (IsFull limits batch.cells.items)) }
        ensures few { IfOk result (λ batch. length batch.cells.items ≤ limits.cells) }
        ensures reads { ReadsTablet F.contents F.faults self.now files.old files.new result }
    {
        let (fence, end) = fences(self.alloc, &self.range)?;
        let past = past_place(self.alloc, after)?;
        let from = later(&fence, &past);
        merged_versions(
            self.alloc,
            &self.memtable,
            self.files.as_slice(),
            from,
            end.as_deref(),
            limits,
            hi,
            files,
        )
    }
}
