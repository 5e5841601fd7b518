//! Clusters of tablets over one store of files: the type. Its calls are in the files of `cluster/`.

ghost use Rattle.std.specs.Prelude.{◌≡◌, ◌≤◌, ◌∷◌, [], Contains, None, Some, IfErr, IfNone, IfOk, IfSome, IsSome, IsOkUnless, length};
ghost use Rattle.std.specs.FinMap.{empty};
ghost use Rattle.metadata_table.specs.Places.{view_of};
ghost use Rattle.metadata_table.specs.Table.{HasTablet, first_place};
ghost use Rattle.sorted_file.specs.Limits.{IsFileLimit};
ghost use Rattle.row_atomic.specs.Changes.{Holds, IsAt};
ghost use Rattle.row_atomic.specs.Clusters.{IsFirstTablet, cells_in, tablet_numbered};

mod caches;
mod checkpoint;
mod compact;
pub(crate) mod laws;
mod many_rows;
mod merge_steps;
mod open;
mod row_calls;
mod split;
mod sweep;
mod upkeep;

use crate::fill::Fill;
use crate::place_cache::PlaceCache;
use crate::tablet_merge::TabletMerge;
use cell_key::Refusal;
pub use checkpoint::ROOT_NAME;
use file_store::Files;
use metadata_table::{MetadataTable, Place};
use std::alloc::Global;
use std::marker::Model;
use tablet::Tablet;

/// Tablets that together have all rows, over one store of files (Bigtable: a table is a set of tablets, each of which
/// has the data of a range of rows).
///
/// A compaction changes a tablet's file list, its memtable and its place in the table last and together. Room for them
/// is reserved before its file is put, and none of them grows after the first change. A split and a move begin with a
/// minor compaction. They reserve the room for their own changes before it, except for the files that they open.
#[derive(Drop)]
pub struct Cluster<F: Files> {
    pub(crate) alloc: Global,
    pub(crate) files: F,
    pub(crate) file_limit: u64,
    pub(crate) next_name: u64,
    pub(crate) table: MetadataTable,
    pub(crate) tablets: Vec<Tablet>,
    /// An upper bound of the entries and of the bytes of every memtable. While it is below the limits, no tablet has to
    /// be asked.
    pub(crate) most: Fill,
    pub(crate) place_cache: PlaceCache,
    /// The merge that is under way, of one of the tablets.
    pub(crate) merge: Option<TabletMerge<F>>,
    /// The index, in the order of the tablets' ends, of the tablet that is looked at first for the next merge.
    pub(crate) merge_from: usize,
}

impl<F: Files> Model for Cluster<F> {
    ghost use Rattle.row_atomic.specs.Clusters.{ClusterState, IsMatched};
    ghost use Rattle.row_atomic.specs.Memtables.{HaveAtMost};
    ghost use Rattle.row_atomic.specs.PlaceCaches.{AreHeld};

    ghost Value = { ClusterState F };

    ghost view = { λ cluster.
        record {
          files = cluster.files;
          file_limit = cluster.file_limit;
          next_name = cluster.next_name;
          places = cluster.table;
          tablets = cluster.tablets.items;
          merge = cluster.merge;
        } };

    ghost invariant = { λ cluster.
        IsMatched cluster.file_limit cluster.next_name cluster.table cluster.tablets.items
        × AreHeld cluster.table cluster.place_cache.numbers.entries
        × HaveAtMost cluster.most cluster.tablets.items };
}

/// The table of a new store, and its one tablet.
fn first_tablet(alloc: Global) -> Result<(MetadataTable, Vec<Tablet>), Refusal>
    ensures table { IfOk result (λ first. first.0 ≡ first_place ∷ []) }
    ensures tablet { IfOk result (λ first. IsFirstTablet first.1.items) }
    ensures refusal { IsOkUnless result Refusal.NoMemory }
{
    let table = MetadataTable::new(alloc)?;
    let mut tablets = Vec::new(alloc);
    let tablet = Tablet::new(alloc);
    tablets.push(tablet)?;
    Ok((table, tablets))
}

impl<F: Files> Cluster<F> {
    /// A new store over these files: tablet 1 on server 0, with all rows and no files of its own. A sorted file has at
    /// most `file_limit` bytes, which is 48 to 68,719,476,736.
    ///
    /// # Errors
    ///
    /// `NoMemory` if an allocation failed. The files are handed back.
    pub fn new(alloc: Global, files: F, file_limit: u64) -> Result<Cluster<F>, (Refusal, F)>
        requires limit { IsFileLimit file_limit }
        ensures files { IfOk result (λ cluster. cluster.files ≡ files) }
        ensures limit { IfOk result (λ cluster. cluster.file_limit ≡ file_limit) }
        ensures name { IfOk result (λ cluster. cluster.next_name ≡ 1) }
        ensures places { IfOk result (λ cluster. cluster.places ≡ first_place ∷ []) }
        ensures tablet { IfOk result (λ cluster. IsFirstTablet cluster.tablets) }
        ensures merge { IfOk result (λ cluster. cluster.merge ≡ None) }
        ensures cells { IfOk result (λ cluster.
            cells_in (F.contents files) cluster.tablets ≡ empty) }
        ensures holds { IfOk result (λ cluster. IsSome (F.contents files)
            → Holds F.contents cluster) }
        ensures refusal { IfErr result (λ refused. refused.0 ≡ Refusal.NoMemory) }
        ensures returned { IfErr result (λ refused. refused.1 ≡ files) }
    {
        let place_cache = match PlaceCache::new(alloc) {
            Ok(place_cache) => place_cache,
            Err(refusal) => return Err((refusal, files)),
        };
        match first_tablet(alloc) {
            Ok((table, tablets)) => Ok(Cluster {
                alloc,
                files,
                file_limit,
                next_name: 1,
                table,
                tablets,
                most: Fill::NONE,
                place_cache,
                merge: None,
                merge_from: 0,
            }),
            Err(refusal) => Err((refusal, files)),
        }
    }

    /// The next file's name: it grows whenever a tablet writes a file. Allocates nothing.
    pub fn next_name(&self) -> u64
        ensures { result ≡ self.now.next_name }
    {
        self.next_name
    }

    /// How many tablets there are: 1 to 1,024. Allocates nothing.
    pub fn tablet_count(&self) -> usize
        ensures { result ≡ length self.now.places }
    {
        self.table.len()
    }

    /// The tablet with this number and its place, or `None` if there is no such tablet. Allocates nothing.
    pub fn tablet(&self, number: u32) -> Option<(&Place, &Tablet)>
        ensures place { IfSome result (λ found. Contains self.now.places (view_of found.0.now)) }
        ensures named { IfSome result (λ found. found.0.now.tablet ≡ number) }
        ensures tablet { IfSome result (λ found.
            tablet_numbered number self.now.tablets ≡ Some found.1.now) }
        ensures none { IfNone result (¬ HasTablet number self.now.places) }
    {
        match self.table.place(number) {
            Ok(place) => Some((place, &self.tablets[self.position(number)])),
            Err(_) => None,
        }
    }

    /// The index of the tablet with a number.
    pub(crate) fn position(&self, tablet: u32) -> usize
        requires known { HasTablet tablet self.now.places }
        ensures { IsAt tablet self.now.tablets result }
    {
        let _ = &self.tablets;
        tablet as usize - 1
    }

    /// The files, as they are.
    pub fn into_files(self) -> F
        ensures { result ≡ self.files }
    {
        let Cluster {
            alloc: _,
            files,
            file_limit: _,
            next_name: _,
            table: _,
            tablets: _,
            most: _,
            place_cache: _,
            merge: _,
            merge_from: _,
        } = self;
        files
    }
}
