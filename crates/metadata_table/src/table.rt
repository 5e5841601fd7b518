//! The metadata table: the places of all tablets.

ghost use Rattle.std.specs.Prelude.{◌≡◌, ◌+◌, ◌<◌, ◌≤◌, ◌↔◌, ◌∷◌, [], IsTrue, OnOk, IfOk, OnErr, IfErr, IsErrOf, MatchResult, ◌⊎◌, length};
ghost use Rattle.std.specs.List.{Contains};
ghost use Rattle.metadata_table.specs.Places.{view_of, views};
ghost use Rattle.metadata_table.specs.Table.{IsTable, IsHolder, HasTablet, IsListed, BarsSplit, Cuts, moved, with_files, first_place, most_servers};
ghost use Rattle.metadata_table.specs.Search.{IsTabletAt};

use crate::places::Place;
use crate::search;
use cell_key::{Refusal, Row};
use std::alloc::{AllocError, Global};
use std::marker::Model;

/// The places of all tablets, in the order of their ends (Bigtable, tablet location). A tablet holds the rows after the
/// end of the one before it, up to and including its own end.
#[derive(Debug, Drop)]
pub struct MetadataTable {
    places: Vec<Place>,
}

impl Model for MetadataTable {
    ghost use Rattle.std.specs.Prelude.{List};
    ghost use Rattle.metadata_table.specs.Places.{PlaceView, views};
    ghost use Rattle.metadata_table.specs.Table.{IsTable};

    ghost Value = { List PlaceView };

    ghost view = { λ table. views table.places.items };

    ghost invariant = { λ table. IsTable (views table.places.items) };
}

impl MetadataTable {
    /// The most tablets.
    pub const MOST_TABLETS: usize = 1024;

    /// The number of servers. They are numbered from 0.
    pub const SERVERS: u8 = 16;

    /// The table of a new store: tablet 1 on server 0, with all rows and no files.
    ///
    /// # Errors
    ///
    /// `NoMemory` if an allocation failed.
    pub fn new(alloc: Global) -> Result<MetadataTable, Refusal>
        ensures ok { IfOk result (λ table. table ≡ first_place ∷ []) }
        ensures refusal { IfErr result (λ refusal. refusal ≡ Refusal.NoMemory) }
    {
        let mut places = Vec::new(alloc);
        places.push(Place {
            tablet: 1,
            end: None,
            server: 0,
            files: Vec::new(alloc),
        })?;
        Ok(MetadataTable { places })
    }

    /// The table of these places.
    pub(crate) fn from_places(places: Vec<Place>) -> MetadataTable
        requires { IsTable (views places.items) }
        ensures { result ≡ views places.items }
    {
        MetadataTable { places }
    }

    /// How many tablets there are: 1 to 1,024. Allocates nothing.
    pub fn len(&self) -> usize
        ensures len { result ≡ length self.now }
        ensures table { IsTable self.now }
    {
        self.places.len()
    }

    /// The places of all tablets, in the order of their ends. Allocates nothing.
    pub fn places(&self) -> &[Place]
        ensures places { views result.now ≡ self.now }
        ensures table { IsTable self.now }
    {
        self.places.as_slice()
    }

    /// The place of the tablet that holds a row: the first one whose end is not below the row. Allocates nothing.
    pub fn locate(&self, row: &Row) -> &Place
        ensures holder { IsHolder row.now self.now (view_of result.now) }
        ensures table { IsTable self.now }
    {
        let position = search::by_row(&self.places, row);
        &self.places[position]
    }

    /// The place of a tablet. Allocates nothing.
    ///
    /// # Errors
    ///
    /// `UnknownTablet` if no tablet has the number.
    pub fn place(&self, tablet: u32) -> Result<&Place, Refusal>
        ensures found { IfOk result (λ place. Contains self.now (view_of place.now)) }
        ensures named { IfOk result (λ place. place.now.tablet ≡ tablet) }
        ensures unknown { IfErr result (λ refusal. (refusal ≡ Refusal.UnknownTablet)
            × ¬ (HasTablet tablet self.now)) }
        ensures table { IsTable self.now }
    {
        let position = search::by_tablet(&self.places, tablet)?;
        Ok(&self.places[position])
    }

    /// The index of a tablet's place in the order of the ends, from 0. Allocates nothing.
    pub fn position(&self, tablet: u32) -> usize
        requires { HasTablet tablet self.now }
        ensures bound { result < length self.now }
        ensures there { IsTabletAt tablet self.now result }
    {
        search::by_tablet(&self.places, tablet).unwrap()
    }

    /// Whether the tablet that holds a row can be cut there. Allocates nothing.
    ///
    /// # Errors
    ///
    /// `BadSplit` if the row is already the end of its tablet, or there are 1,024 tablets.
    pub fn check_split(&self, row: &Row) -> Result<(), Refusal>
        ensures split { MatchResult result (λ _. ¬ (BarsSplit row.now self.now)) (λ refusal.
            (refusal ≡ Refusal.BadSplit) × BarsSplit row.now self.now) }
    {
        if self.len() >= MetadataTable::MOST_TABLETS || self.locate(row).ends_with(row) {
            return Err(Refusal::BadSplit);
        }
        Ok(())
    }

    /// Cuts the tablet that holds a row in two there, and answers the number of the left part. The left part ends with
    /// the row, takes the next number and comes before the right part, which keeps the number and the end. Both have
    /// the server and the files of the tablet that was cut (Bigtable, tablet splits).
    ///
    /// # Errors
    ///
    /// `BadSplit` if the row is already the end of its tablet, or there are 1,024 tablets; then `NoMemory` if an
    /// allocation failed. The table is then unchanged.
    pub fn split_at(&mut self, row: &Row) -> Result<u32, Refusal>
        ensures number { IfOk result (λ left. left ≡ length self.old + 1) }
        ensures cut { IfOk result (λ left. Cuts row.now left self.old self.new) }
        ensures room { OnOk result (¬ (BarsSplit row.now self.old)) }
        ensures bad { IsErrOf result Refusal.BadSplit ↔ BarsSplit row.now self.old }
        ensures refusal { IfErr result (λ refusal. (refusal ≡ Refusal.BadSplit)
            ⊎ (refusal ≡ Refusal.NoMemory)) }
        ensures err { OnErr result (self.new ≡ self.old) }
    {
        self.check_split(row)?;
        Ok(self.cut_at(row)?)
    }

    /// Cuts as `split_at`, without its check: `check_split` must have accepted the row.
    ///
    /// # Errors
    ///
    /// An allocation failed. The table is then unchanged.
    pub fn cut_at(&mut self, row: &Row) -> Result<u32, AllocError>
        requires free { ¬ BarsSplit row.now self.old }
        ensures number { IfOk result (λ left. left ≡ length self.old + 1) }
        ensures cut { IfOk result (λ left. Cuts row.now left self.old self.new) }
        ensures err { OnErr result (self.new ≡ self.old) }
    {
        let left = self.len() as u32 + 1;
        let position = search::by_row(&self.places, row);
        let part = self.places[position].left_part(row, left)?;
        self.places.insert(position, part)?;
        Ok(left)
    }

    /// Records a tablet's server. All else is unchanged. Allocates nothing.
    ///
    /// # Errors
    ///
    /// `UnknownTablet` if no tablet has the number; then `UnknownServer` if the server's number is above 15. The table
    /// is then unchanged.
    pub fn assign(&mut self, tablet: u32, server: u8) -> Result<(), Refusal>
        ensures ok { OnOk result (self.new ≡ moved tablet server self.old) }
        ensures known { OnOk result (HasTablet tablet self.old × (server < most_servers)) }
        ensures unknown { IsErrOf result Refusal.UnknownTablet ↔ ¬ (HasTablet tablet self.old) }
        ensures server { IsErrOf result Refusal.UnknownServer
            ↔ (HasTablet tablet self.old × (most_servers ≤ server)) }
        ensures refusal { IfErr result (λ refusal. (refusal ≡ Refusal.UnknownTablet)
            ⊎ (refusal ≡ Refusal.UnknownServer)) }
        ensures err { OnErr result (self.new ≡ self.old) }
    {
        let position = search::by_tablet(&self.places, tablet)?;
        if server >= MetadataTable::SERVERS {
            return Err(Refusal::UnknownServer);
        }
        self.places[position].server = server;
        Ok(())
    }

    /// Records a tablet's files, the newest first. All else is unchanged. Allocates nothing.
    ///
    /// # Errors
    ///
    /// `UnknownTablet` if no tablet has the number. The table is then unchanged.
    pub fn set_files(&mut self, tablet: u32, names: Vec<u64>) -> Result<(), Refusal>
        ensures ok { OnOk result (self.new ≡ with_files tablet names.items self.old) }
        ensures known { OnOk result (HasTablet tablet self.old) }
        ensures unknown { IfErr result (λ refusal. (refusal ≡ Refusal.UnknownTablet)
            × ¬ (HasTablet tablet self.old)) }
        ensures err { OnErr result (self.new ≡ self.old) }
    {
        let position = search::by_tablet(&self.places, tablet)?;
        self.places[position].files = names;
        Ok(())
    }

    /// Whether some tablet has a file of this name. Allocates nothing.
    pub fn listed(&self, name: u64) -> bool
        ensures { IsTrue result ↔ IsListed name self.now }
    {
        search::has_file(&self.places, name)
    }
}

impl Clone for MetadataTable {
    ghost is_clone = { λ old new. new ≡ old };

    fn clone(&self) -> Result<MetadataTable, AllocError> {
        let places = self.places.clone()?;
        Ok(MetadataTable { places })
    }
}
