//! Checkpoints: every memtable is written to a file, and then a root file that has the lengths of the others.

ghost use Rattle.std.specs.Prelude.{◌≡◌, ◌-◌, ◌^◌, ℕ, min, IfErr, IfOk, IfSome, IsErrOf, OnErr, OnOk, length, replicate, IsOkUnless};
ghost use Rattle.std.specs.FinMap.{get};
ghost use Rattle.sorted_file.specs.Source.{IsFaultRefusal};
ghost use Rattle.cell_key.specs.Faults.{HasReason};
ghost use Rattle.metadata_table.specs.Places.{view_of};
ghost use Rattle.metadata_table.specs.Roots.{file_names};
ghost use Rattle.row_atomic.specs.Changes.{Holds, IsRefusalOf};
ghost use Rattle.row_atomic.specs.Commands.{TellsFaults, done_of};
ghost use Rattle.row_atomic.specs.Compactions.{minor as minor_compaction};
ghost use Rattle.row_atomic.specs.Flushes.{KeepsShown, numbers_of};
ghost use Rattle.row_atomic.specs.RootLengths.{IsRoomBehind, end_length, place_length};
ghost use Rattle.row_atomic.specs.Roots.{AreFlushed, AreMeasured, Checkpoints, FlushesEach, PutsRoot, PutsRootOrNone, Rests, StaysOrRests, root_at, root_sum};

use crate::cluster::Cluster;
use crate::cluster::laws::{root_is_stored, root_outlasts_flushes};
use cell_key::{Refusal, Row, Stamp};
use commit_log::crc32;
use file_store::Files;
use metadata_table::{MetadataTable, Place};
use sorted_file::{refusal_of, stays_open};
use std::alloc::Global;
use tablet::{Tablet, unnamed_may_go};

/// The name of the root file.
pub const ROOT_NAME: u64 = 0;

/// The bytes of a root in format 2 without those of its tablets.
const ROOT_BYTES: usize = 48;

/// The bytes of a tablet in a root without those of its end and of its files.
const PLACE_BYTES: usize = 10;

/// The bytes of an end's length.
const END_BYTES: usize = 4;

/// The bytes of a file in a root: its name and its length.
const FILE_BYTES: usize = 16;

/// The most bytes of a tablet in a root.
const MOST_PLACE_BYTES: usize = PLACE_BYTES
    + END_BYTES
    + Row::MOST_BYTES
    + Tablet::MOST_FILES * FILE_BYTES;

/// The length of a file in bytes; 0 if it doesn't exist.
fn length_of<F: Files>(name: u64, files: &mut F) -> Result<u64, Refusal>
    ensures length { IfOk result (λ n. IfSome (F.contents files.old) (λ m.
        IfSome (get m name) (λ image. length image ≡ n))) }
    ensures refusal { IfErr result IsFaultRefusal }
    ensures same { F.contents files.new ≡ F.contents files.old }
    ensures reason { HasReason (F.faults files.old) (F.faults files.new) result }
{
    let size = files.size(name).map_err(|fault| refusal_of(fault))?;
    Ok(size.unwrap_or(0))
}

/// The lengths of these files in bytes.
fn lengths_of<F: Files>(alloc: Global, names: &[u64], files: &mut F) -> Result<Vec<u64>, Refusal>
    ensures count { IfOk result (λ lengths. length lengths.items ≡ length names.now) }
    ensures measured { IfOk result (λ lengths. IfSome (F.contents files.old) (λ m.
        AreMeasured m names.now lengths.items)) }
    ensures refusal { IfErr result IsFaultRefusal }
    ensures same { F.contents files.new ≡ F.contents files.old }
    ensures reason { HasReason (F.faults files.old) (F.faults files.new) result }
{
    let mut lengths = Vec::new(alloc);
    let mut rest = names;
    'names: while let Some((name, after)) = rest.split_first() {
        let len = length_of(*name, files)?;
        lengths.push(len)?;
        rest = after;
    }
    Ok(lengths)
}

/// The lengths in bytes of a table's files, in the table's order.
pub(crate) fn file_lengths<F: Files>(
    alloc: Global,
    table: &MetadataTable,
    files: &mut F,
) -> Result<Vec<u64>, Refusal>
    ensures count { IfOk result (λ lengths. length lengths.items ≡ length (file_names table.now)) }
    ensures measured { IfOk result (λ lengths. IfSome (F.contents files.old) (λ m.
        AreMeasured m (file_names table.now) lengths.items)) }
    ensures refusal { IfErr result IsFaultRefusal }
    ensures same { F.contents files.new ≡ F.contents files.old }
    ensures reason { HasReason (F.faults files.old) (F.faults files.new) result }
{
    let mut lengths = Vec::new(alloc);
    let mut rest = table.places();
    'places: while let Some((place, after)) = rest.split_first() {
        let own = lengths_of(alloc, &place.files, files)?;
        lengths.extend_from_slice(&own)?;
        rest = after;
    }
    Ok(lengths)
}

/// A length of 0 for each file of a table.
fn zero_lengths(alloc: Global, table: &MetadataTable) -> Result<Vec<u64>, Refusal>
    ensures zeros { IfOk result (λ lengths.
        lengths.items ≡ replicate (length (file_names table.now)) 0) }
    ensures refusal { IsOkUnless result Refusal.NoMemory }
{
    let mut lengths = Vec::new(alloc);
    let mut rest = table.places();
    'places: while let Some((place, after)) = rest.split_first() {
        let own = vec![in alloc; 0; place.files.len()]?;
        lengths.extend_from_slice(&own)?;
        rest = after;
    }
    Ok(lengths)
}

/// The bytes of a tablet's end in a root, without the first one, which tells whether there is one.
fn end_len(end: &Option<Row>) -> usize
    ensures { result ≡ end_length end.now }
{
    match end {
        Some(row) => row.as_bytes().len() + END_BYTES,
        None => 0,
    }
}

/// The bytes of a tablet's place in a root, or the greatest number.
fn place_len(place: &Place) -> usize
    ensures { result ≡ min (place_length (view_of place.now)) (2 ^ 64 - 1) }
{
    let files = place.files.len().saturating_mul(FILE_BYTES);
    end_len(&place.end)
        .saturating_add(files)
        .saturating_add(PLACE_BYTES)
}

impl<F: Files> Cluster<F> {
    /// The checksum of the root with these stamps and the cluster's places and next name: the CRC-32 of its bytes in
    /// format 2, with each file's length written as 0.
    ///
    /// # Errors
    ///
    /// `NoMemory` if an allocation failed.
    pub fn root_sum(&self, top: Stamp, floor: Stamp) -> Result<u32, Refusal>
        ensures sum { IfOk result (λ sum. sum ≡ root_sum (root_at top floor self.now)) }
        ensures refusal { IsOkUnless result Refusal.NoMemory }
    {
        let lengths = zero_lengths(self.alloc, &self.table)?;
        let mut image = Vec::new(self.alloc);
        self.table
            .write_root(top, floor, self.next_name, &lengths, &mut image)?;
        Ok(crc32(&image, &[]))
    }

    /// The bytes of a root that is put now, and those of the greatest tablet, or the greatest number. If no memtable has
    /// cells, a root that is put after a split or a move has no more.
    pub fn next_root_bytes(&self) -> usize
        ensures { (top floor : ℕ) → IsRoomBehind (root_at top floor self.now) result }
    {
        let mut bytes = ROOT_BYTES + MOST_PLACE_BYTES;
        let mut rest = self.table.places();
        'places: while let Some((place, after)) = rest.split_first() {
            bytes = bytes.saturating_add(place_len(place));
            rest = after;
        }
        bytes
    }

    /// Compacts every tablet as `minor` does, in the order of their ends, until one is refused. No root is put.
    ///
    /// # Errors
    ///
    /// The errors of `minor` for a known tablet. Some minor compactions may still have been done.
    pub fn flush_each(&mut self) -> Result<(), Refusal>
        ensures flushes { FlushesEach F.contents F.faults
            self.old (numbers_of self.old.places) (done_of result) self.new }
        ensures refusal { IfErr result (IsRefusalOf minor_compaction) }
        // Done or refused, tablets that were in order still are, with the same cells.
        ensures keeps { KeepsShown F.contents F.faults self.old self.new }
    {
        for index in 0..self.table.len() {
            let tablet = self.number_at(index);
            self.minor(tablet)?;
        }
        Ok(())
    }

    /// Puts the root file, with these stamps, the cluster's places and next name, and the lengths of its files. After
    /// `flush_each` that is a checkpoint.
    ///
    /// # Errors
    ///
    /// `Device` or `NoMemory`. If the put of the root file failed, the root's bytes are unspecified; if the store replaces
    /// files atomically, they are the old or the new ones.
    pub fn put_root(&mut self, top: Stamp, floor: Stamp) -> Result<(), Refusal>
        ensures puts { PutsRoot F.contents top floor self.old (done_of result) self.new.files }
        ensures rest { self.new ≡ record self.old { files = self.new.files } }
        ensures rests { OnOk result (AreFlushed self.old
            → Rests F.contents top floor self.old self.new) }
        ensures whole { F.replaces → OnErr result
            (PutsRootOrNone F.contents top floor self.old self.new) }
        ensures keeps { KeepsShown F.contents F.faults self.old self.new }
        ensures faults { TellsFaults F.faults (done_of result) self.old self.new }
        ensures refusal { IfErr result (IsRefusalOf minor_compaction) }
    {
        unnamed_may_go();
        stays_open();
        let lengths = file_lengths(self.alloc, &self.table, &mut self.files)?;
        let mut image = Vec::new(self.alloc);
        self.table
            .write_root(top, floor, self.next_name, &lengths, &mut image)?;
        match self.files.put(ROOT_NAME, &image) {
            Ok(()) => Ok(()),
            Err(fault) => Err(refusal_of(fault)),
        }
    }

    /// Writes the memtable of every tablet as `minor` does, and then the root file in format 2, with these two stamps,
    /// the next file's name, the tablets' places and the length of each of their files. After that the cells can be
    /// recovered from the files alone.
    ///
    /// # Errors
    ///
    /// The errors of `minor` for a known tablet. Some minor compactions may still have been done. If the put of the
    /// root file failed, the root's bytes are unspecified; if the store replaces files atomically, they are the old or
    /// the new ones.
    pub fn checkpoint(&mut self, top: Stamp, floor: Stamp) -> Result<(), Refusal>
        ensures steps { Checkpoints
            F.contents F.faults top floor self.old (done_of result) self.new }
        ensures flushed { OnOk result (AreFlushed self.new) }
        ensures rests { OnOk result (Rests F.contents top floor self.old self.new) }
        // If puts are atomic, a refusal leaves the old root with its cells in the files, or all cells that the cluster
        // showed.
        ensures whole { F.replaces → OnErr result
            (StaysOrRests F.contents top floor self.old self.new) }
        // Done or refused, tablets that were in order still are, with the same cells.
        ensures keeps { KeepsShown F.contents F.faults self.old self.new }
        ensures refusal { IfErr result (IsRefusalOf minor_compaction) }
        ensures undamaged { Holds F.contents self.old → ¬ IsErrOf result Refusal.Damaged }
        ensures faults { TellsFaults F.faults (done_of result) self.old self.new }
    {
        root_is_stored::<F>();
        root_outlasts_flushes::<F>();
        self.flush_each()?;
        self.put_root(top, floor)
    }
}
