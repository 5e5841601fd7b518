//! Compactions of a cluster's tablets. Room for the new list of names is reserved before the tablet changes.

ghost use Rattle.std.specs.Prelude.{◌≡◌, ◌≤◌, ◌+◌, ◌^◌, [], length, vec_capacity, IfErr, IfOk, IsOk, OnErr, OnOk, IsOkUnless};
ghost use Rattle.cell_key.specs.Faults.{HasReason};
ghost use Rattle.metadata_table.specs.Table.{HasTablet, IsTable, with_files};
ghost use Rattle.sorted_file.specs.Limits.{IsFileLimit};
ghost use Rattle.tablet.specs.Views.{IsUnchanged, Keeps, UsesName, names_of, range_of};
ghost use Rattle.row_atomic.specs.Changes.{HasCompacted, HasRefused, IsBadCount, IsRefusalOf, MeetsBadCount, Numbered, Remakes, StaysInOrder, WritesNone};
ghost use Rattle.row_atomic.specs.Commands.{IsOutcome, compacting, done_of};

use crate::cluster::Cluster;
use crate::commands::Command;
use cell_key::Refusal;
use file_store::Files;
use metadata_table::MetadataTable;
use sorted_file::stays_open;
use std::alloc::Global;
use tablet::{Compaction, Tablet, others_stay};

/// Compacts a tablet.
fn compact<F: Files>(
    tablet: &mut Tablet,
    compaction: Compaction,
    file_limit: u64,
    next_name: &mut u64,
    files: &mut F,
) -> Result<(), Refusal>
    requires limit { IsFileLimit file_limit }
    ensures done { OnOk result (HasCompacted compaction file_limit (F.contents files.old)
        next_name.old (F.contents files.new) next_name.new tablet.old tablet.new) }
    ensures few { OnOk result (length (names_of tablet.new) ≤ length (names_of tablet.old) + 1) }
    ensures refused { IfErr result (HasRefused compaction file_limit (F.contents files.old)
        next_name.old (F.contents files.new) next_name.new tablet.old) }
    ensures err { OnErr result (IsUnchanged tablet.old tablet.new) }
    ensures keeps { Keeps (F.contents files.old)
        next_name.old tablet.old (F.contents files.new) next_name.new tablet.new }
    ensures range { range_of tablet.new ≡ range_of tablet.old }
    ensures name { UsesName
        (F.contents files.old) next_name.old (F.contents files.new) next_name.new }
    ensures named_to { next_name.old ≤ 2 ^ 63 → next_name.new ≤ 2 ^ 63 }
    ensures empty { WritesNone compaction tablet.old → IsOk result
        × ((next_name.new ≡ next_name.old) × (F.contents files.new ≡ F.contents files.old)) }
    ensures refusal { IfErr result (IsRefusalOf compaction) }
    ensures reason { HasReason (F.faults files.old) (F.faults files.new) result }
{
    match compaction {
        Compaction::Minor => tablet.minor(file_limit, next_name, files),
        Compaction::Merge(count) => tablet.merge(count, file_limit, next_name, files),
        Compaction::Major => tablet.major(file_limit, next_name, files),
    }
}

/// An empty list with room for the names of a tablet's files and one more. Answers `NoMemory` if there is no memory.
pub(crate) fn room_for_names(alloc: Global, tablet: &Tablet) -> Result<Vec<u64>, Refusal>
    ensures empty { IfOk result (λ names. names.items ≡ []) }
    ensures room { IfOk result (λ names. length (names_of tablet.now) + 1 ≤ vec_capacity names) }
    ensures refusal { IsOkUnless result Refusal.NoMemory }
{
    let mut names = Vec::new(alloc);
    tablet.push_names(&mut names)?;
    names.reserve(1)?;
    names.clear();
    Ok(names)
}

/// Records a tablet's files at its place in the table. `names` has room for their names.
pub(crate) fn list_files(
    table: &mut MetadataTable,
    number: u32,
    tablet: &Tablet,
    mut names: Vec<u64>,
)
    requires known { HasTablet number table.old }
    requires empty { names.items ≡ [] }
    requires room { length (names_of tablet.now) ≤ vec_capacity names }
    ensures { table.new ≡ with_files number (names_of tablet.now) table.old }
{
    tablet.push_names(&mut names).unwrap();
    table.set_files(number, names).unwrap();
}

impl<F: Files> Cluster<F> {
    /// Answers `UnknownTablet` if no tablet has the number.
    pub(crate) fn check_tablet(&self, tablet: u32) -> Result<(), Refusal>
        ensures known { OnOk result (HasTablet tablet self.now.places) }
        ensures unknown { OnErr result (¬ HasTablet tablet self.now.places) }
        ensures table { IsTable self.now.places }
        ensures refusal { IfErr result (λ refusal. refusal ≡ Refusal.UnknownTablet) }
    {
        self.table.place(tablet)?;
        Ok(())
    }

    /// Answers `BadCount` if `count` of a tablet's files can't be merged.
    fn check_count(&self, tablet: u32, count: u32) -> Result<(), Refusal>
        requires known { HasTablet tablet self.now.places }
        ensures within { OnOk result (¬ Numbered (IsBadCount count) tablet self.now.tablets) }
        ensures bad { OnErr result (Numbered (IsBadCount count) tablet self.now.tablets) }
        ensures refusal { IfErr result (λ refusal. refusal ≡ Refusal.BadCount) }
    {
        let index = self.position(tablet);
        if count < 2 || count as usize > self.tablets[index].file_count() {
            return Err(Refusal::BadCount);
        }
        Ok(())
    }

    /// Compacts the tablet with a number, and records its files in the table.
    pub(crate) fn compact_tablet(
        &mut self,
        tablet: u32,
        compaction: Compaction,
    ) -> Result<(), Refusal>
        requires known { HasTablet tablet self.old.places }
        requires counted { ¬ Numbered (MeetsBadCount compaction) tablet self.old.tablets }
        ensures outcome { IsOutcome
            F.contents F.faults (compacting compaction tablet) (done_of result) self.old self.new }
        ensures listed { OnOk result (Numbered (λ t. self.new.places
            ≡ with_files tablet (names_of t) self.old.places) tablet self.new.tablets) }
        ensures ranges { OnOk result (Remakes
            (λ t u. range_of u ≡ range_of t) tablet self.old.tablets self.new.tablets) }
        ensures order { OnOk result (Remakes (StaysInOrder (F.contents self.old.files)
            (F.contents self.new.files)) tablet self.old.tablets self.new.tablets) }
    {
        others_stay();
        stays_open();
        let index = self.position(tablet);
        let names = room_for_names(self.alloc, &self.tablets[index])?;
        compact(
            &mut self.tablets[index],
            compaction,
            self.file_limit,
            &mut self.next_name,
            &mut self.files,
        )?;
        list_files(&mut self.table, tablet, &self.tablets[index], names);
        Ok(())
    }

    /// Writes the memtable of a tablet as a new file (Bigtable, minor compaction). If it is empty, nothing is
    /// written.
    ///
    /// # Errors
    ///
    /// `UnknownTablet` if no tablet has the number; then `TooManyFiles` if the tablet already has 64 files,
    /// `FileTooLarge`, `Exhausted` if no name is left, `Device` and `NoMemory`; `Damaged` comes only from a store that
    /// does not keep the bytes it is given. The tablets are then unchanged.
    pub fn minor(&mut self, tablet: u32) -> Result<(), Refusal>
        ensures { IsOutcome
            F.contents F.faults (Command.Minor tablet) (done_of result) self.old self.new }
    {
        self.check_tablet(tablet)?;
        self.compact_tablet(tablet, Compaction::Minor)
    }

    /// Merges the newest `count` files of a tablet into one that replaces them (Bigtable, merging compaction). Erasures
    /// are kept unless `count` is all files.
    ///
    /// # Errors
    ///
    /// `UnknownTablet` if no tablet has the number; then `BadCount` if `count` is below 2 or above the tablet's number
    /// of files; then `FileTooLarge`, `Exhausted` if no name is left, `Device`, `NoMemory`, and `Damaged` only if one
    /// of these files has changed since it was opened. The tablets are then unchanged.
    pub fn merge(&mut self, tablet: u32, count: u32) -> Result<(), Refusal>
        ensures { IsOutcome
            F.contents F.faults (Command.Merge tablet count) (done_of result) self.old self.new }
    {
        self.check_tablet(tablet)?;
        self.check_count(tablet, count)?;
        self.compact_tablet(tablet, Compaction::Merge(count))
    }

    /// Writes the memtable and all files of a tablet as exactly one file without erasures (Bigtable, major compaction),
    /// even if there is nothing to write.
    ///
    /// # Errors
    ///
    /// `UnknownTablet` if no tablet has the number; then `FileTooLarge`, `Exhausted` if no name is left, `Device`,
    /// `NoMemory`, and `Damaged` only if a file has changed since it was opened. The tablets are then unchanged.
    pub fn major(&mut self, tablet: u32) -> Result<(), Refusal>
        ensures { IsOutcome
            F.contents F.faults (Command.Major tablet) (done_of result) self.old self.new }
    {
        self.check_tablet(tablet)?;
        self.compact_tablet(tablet, Compaction::Major)
    }
}
