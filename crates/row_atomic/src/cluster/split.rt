//! Splits of tablets, and moves to other servers. Their room is reserved first; then comes a minor compaction.

ghost use Rattle.std.specs.Prelude.{◌≡◌, ◌≤◌, ◌<◌, ◌+◌, ◌↔◌, ◌⊎◌, [], length, IfErr, IfOk, IfSome, IsErrOf, IsTrue, OnErr, OnOk, IsOkUnless};
ghost use Rattle.metadata_table.specs.Places.{PlaceView};
ghost use Rattle.metadata_table.specs.Table.{BarsSplit, Cuts, HasTablet, IsHolder, IsTable, most_servers, moved};
ghost use Rattle.sorted_file.specs.Source.{ReadsFiles};
ghost use Rattle.tablet.specs.Views.{Holds as HoldsAt, IsUnchanged, memory_of, names_of, range_of};
ghost use Rattle.row_atomic.specs.Changes.{IsEmptied, IsHalved, IsOn, IsOutOfOrder, IsReopened, KeepsMap, Numbered, OfHolder, Remakes};
ghost use Rattle.row_atomic.specs.Commands.{IsOutcome, done_of, split_of};
ghost use Rattle.row_atomic.specs.ListRoom.{HasNameRoom, HasOpenRoom, IsEmptyFor, IsRoomToCut};

use crate::cluster::Cluster;
use crate::cluster::compact::{list_files, room_for_names};
use crate::commands::Command;
use cell_key::{Refusal, Row};
use file_store::Files;
use metadata_table::MetadataTable;
use std::alloc::Global;
use tablet::{
    Compaction, RowRange, Tablet, files_are_there, others_stay, same_cells, stays_in_range,
};

/// The room reserved for a cut: the table after the cut except for the files of the two parts, the number of the left
/// part, and empty lists with room for the names of both parts' files and for all tablets.
#[derive(Drop)]
struct CutRoom {
    table: MetadataTable,
    left: u32,
    left_names: Vec<u64>,
    right_names: Vec<u64>,
    tablets: Vec<Tablet>,
}

/// The room reserved to reopen a tablet: its range, and an empty list with room for its files' names.
#[derive(Drop)]
struct OpenRoom {
    range: RowRange,
    names: Vec<u64>,
}

/// The room to reopen a tablet with its files and one more. Answers `NoMemory` if there is no memory.
fn room_to_open(alloc: Global, tablet: &Tablet) -> Result<OpenRoom, Refusal>
    ensures room { IfOk result (λ room. HasOpenRoom room 1 tablet.now) }
    ensures refusal { IsOkUnless result Refusal.NoMemory }
{
    let range = tablet.range().clone()?;
    let names = room_for_names(alloc, tablet)?;
    Ok(OpenRoom { range, names })
}

/// A tablet of the same range, with the same files opened again and an empty memtable.
fn open_again<F: Files>(
    alloc: Global,
    tablet: &Tablet,
    room: OpenRoom,
    files: &mut F,
) -> Result<Tablet, Refusal>
    requires room { HasOpenRoom room 0 tablet.now }
    ensures range { IfOk result (λ opened. range_of opened ≡ range_of tablet.now) }
    ensures memory { IfOk result (λ opened. memory_of opened ≡ []) }
    ensures names { IfOk result (λ opened. names_of opened ≡ names_of tablet.now) }
    ensures holds { IfOk result (λ opened. IfSome (F.contents files.old) (λ m. HoldsAt m opened)) }
    ensures damaged { IsErrOf result Refusal.Damaged
        → IsOutOfOrder (F.contents files.old) tablet.now }
    ensures reads { ReadsFiles F.contents F.faults files.old files.new result }
{
    files_are_there();
    let mut names = room.names;
    tablet.push_names(&mut names).unwrap();
    Tablet::load(alloc, room.range, &names, tablet.most_blocks(), files)
}

impl<F: Files> Cluster<F> {
    /// Reserves the room for a cut of a tablet at a row, with names for one file more. Afterwards the cut allocates
    /// only for the files that it opens. Answers `NoMemory` if there is no memory.
    fn room_for_cut(&self, holder: u32, row: &Row) -> Result<CutRoom, Refusal>
        requires known { HasTablet holder self.now.places }
        requires free { ¬ BarsSplit row.now self.now.places }
        ensures number { IfOk result (λ room. room.left ≡ length self.now.places + 1) }
        ensures cut { IfOk result (λ room. Cuts row.now room.left self.now.places room.table) }
        ensures names { IfOk result (λ room.
            Numbered (HasNameRoom room 1) holder self.now.tablets) }
        ensures tablets { IfOk result (λ room.
            IsEmptyFor (length self.now.places + 1) room.tablets) }
        ensures table { IsTable self.now.places }
        ensures refusal { IsOkUnless result Refusal.NoMemory }
    {
        let count = self.table.len();
        let index = self.position(holder);
        let mut table = self.table.clone()?;
        let left = table.cut_at(row)?;
        let left_names = room_for_names(self.alloc, &self.tablets[index])?;
        let right_names = room_for_names(self.alloc, &self.tablets[index])?;
        let tablets = Vec::with_capacity(self.alloc, count + 1)?;
        Ok(CutRoom {
            table,
            left,
            left_names,
            right_names,
            tablets,
        })
    }

    /// Cuts the tablet that holds a row in two there. Its memtable is empty. No file changes, and nothing is allocated
    /// once the tablet is cut.
    fn cut(&mut self, row: &Row, room: CutRoom) -> Result<u32, Refusal>
        requires flushed { OfHolder IsEmptied row.now self.old.places self.old.tablets }
        requires room { IsRoomToCut row.now room self.old.places self.old.tablets }
        ensures kept { KeepsMap F.contents self.old self.new }
        ensures limit { self.new.file_limit ≡ self.old.file_limit }
        ensures name { self.new.next_name ≡ self.old.next_name }
        ensures reads { ReadsFiles F.contents F.faults self.old.files self.new.files result }
        ensures number { IfOk result (λ left. left ≡ length self.old.places + 1) }
        ensures cut { IfOk result (λ left. Cuts row.now left self.old.places self.new.places) }
        ensures halved { IfOk result (λ left. IsHalved
            self.old.next_name row.now left self.old.places self.old.tablets self.new.tablets) }
        ensures err { OnErr result (self.new.places ≡ self.old.places) }
        ensures unchanged { OnErr result ((place : PlaceView)
            → IsHolder row.now self.old.places place
            → Remakes IsUnchanged place.tablet self.old.tablets self.new.tablets) }
        ensures damaged { IsErrOf result Refusal.Damaged → OfHolder
            (IsOutOfOrder (F.contents self.old.files)) row.now self.old.places self.old.tablets }
    {
        others_stay();
        stays_in_range();
        files_are_there();
        let tablet = self.table.locate(row).tablet;
        let index = self.position(tablet);
        let part = self.tablets[index].cut(row, &mut self.files)?;
        let left = room.left;
        let mut table = room.table;
        list_files(&mut table, tablet, &part, room.right_names);
        list_files(&mut table, left, &part, room.left_names);
        let mut tablets = room.tablets;
        tablets.append(&mut self.tablets).unwrap();
        tablets.push_reserved(part);
        self.table = table;
        self.tablets = tablets;
        self.place_cache.clear();
        Ok(left)
    }

    /// Cuts the tablet that holds a row in two there, and answers the number of the left part, which ends with the row
    /// and takes the next number. The right part keeps the old number. Both keep the server and the files (Bigtable,
    /// tablet splits). A minor compaction of the tablet comes first, so that both memtables are empty.
    ///
    /// # Errors
    ///
    /// `BadSplit` if the row is already the end of its tablet, or there are 1,024 tablets; then the errors of `minor`,
    /// and `Damaged` only if a file of the tablet is missing or malformed. The tablets' places are then unchanged, but
    /// the minor compaction may have been done.
    pub fn split(&mut self, row: &Row) -> Result<u32, Refusal>
        ensures { IsOutcome
            F.contents F.faults (Command.Split row.now) (split_of result) self.old self.new }
    {
        let holder = self.table.locate(row).tablet;
        self.table.check_split(row)?;
        let room = self.room_for_cut(holder, row)?;
        self.compact_tablet(holder, Compaction::Minor)?;
        self.cut(row, room)
    }

    /// Whether a tablet is already on a server. Answers `UnknownTablet` if there is no such tablet, otherwise
    /// `UnknownServer` if there is no such server.
    fn is_on(&self, tablet: u32, server: u8) -> Result<bool, Refusal>
        ensures known { OnOk result (HasTablet tablet self.now.places) }
        ensures below { OnOk result (server < most_servers) }
        ensures on { IfOk result (λ on. IsTrue on ↔ IsOn tablet server self.now.places) }
        ensures table { IsTable self.now.places }
        ensures unknown { IsErrOf result Refusal.UnknownTablet
            ↔ ¬ HasTablet tablet self.now.places }
        ensures server { IsErrOf result Refusal.UnknownServer
            ↔ (HasTablet tablet self.now.places × (most_servers ≤ server)) }
        ensures refusal { IfErr result (λ refusal. (refusal ≡ Refusal.UnknownTablet)
            ⊎ (refusal ≡ Refusal.UnknownServer)) }
    {
        let from = self.table.place(tablet)?.server;
        if server >= MetadataTable::SERVERS {
            return Err(Refusal::UnknownServer);
        }
        Ok(server == from)
    }

    /// The room to reopen a tablet with its files and one more. Answers `NoMemory` if there is no memory.
    fn room_for_move(&self, tablet: u32) -> Result<OpenRoom, Refusal>
        requires known { HasTablet tablet self.now.places }
        ensures room { IfOk result (λ room. Numbered (HasOpenRoom room 1) tablet self.now.tablets) }
        ensures refusal { IsOkUnless result Refusal.NoMemory }
    {
        let index = self.position(tablet);
        room_to_open(self.alloc, &self.tablets[index])
    }

    /// Reopens a tablet whose memtable is empty, and records its new server.
    fn put(&mut self, tablet: u32, server: u8, room: OpenRoom) -> Result<(), Refusal>
        requires known { HasTablet tablet self.old.places }
        requires below { server < most_servers }
        requires flushed { Numbered IsEmptied tablet self.old.tablets }
        requires room { Numbered (HasOpenRoom room 0) tablet self.old.tablets }
        ensures kept { KeepsMap F.contents self.old self.new }
        ensures limit { self.new.file_limit ≡ self.old.file_limit }
        ensures reads { ReadsFiles F.contents F.faults self.old.files self.new.files result }
        ensures name { self.new.next_name ≡ self.old.next_name }
        ensures places { OnOk result (self.new.places ≡ moved tablet server self.old.places) }
        ensures stay { OnErr result (self.new.places ≡ self.old.places) }
        ensures opened { OnOk result (Remakes IsReopened tablet self.old.tablets self.new.tablets) }
        ensures err { OnErr result (self.new.tablets ≡ self.old.tablets) }
        ensures damaged { IsErrOf result Refusal.Damaged → Numbered
            (IsOutOfOrder (F.contents self.old.files)) tablet self.old.tablets }
    {
        same_cells();
        let index = self.position(tablet);
        let opened = open_again(self.alloc, &self.tablets[index], room, &mut self.files)?;
        self.tablets[index] = opened;
        self.table.assign(tablet, server).unwrap();
        self.place_cache.clear();
        Ok(())
    }

    /// Moves a tablet to a server: after a minor compaction its files are opened there with an empty memtable, and the
    /// new place is recorded. If the tablet is already there, nothing is done but emptying the cache of places.
    ///
    /// # Errors
    ///
    /// `UnknownTablet` if no tablet has the number; then `UnknownServer` if the server's number is above 15; then the
    /// errors of `minor`, and `Damaged` only if a file of the tablet is missing or malformed. The tablets' places are
    /// then unchanged, but the minor compaction may have been done.
    pub fn move_to(&mut self, tablet: u32, server: u8) -> Result<(), Refusal>
        ensures outcome { IsOutcome
            F.contents F.faults (Command.Move tablet server) (done_of result) self.old self.new }
        ensures table { IsTable self.old.places }
    {
        if self.is_on(tablet, server)? {
            self.place_cache.clear();
            return Ok(());
        }
        let room = self.room_for_move(tablet)?;
        self.compact_tablet(tablet, Compaction::Minor)?;
        self.put(tablet, server, room)
    }
}
