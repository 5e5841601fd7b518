//! Opening a store from the files of a checkpoint.

ghost use Rattle.std.specs.Prelude.{◌≡◌, ◌≢◌, ◌<◌, ◌≤◌, ◌⊎◌, IfErr, IfOk, IfSome, IsErrOf, MatchResult, Some, None, length, option_map};
ghost use Rattle.std.specs.FinMap.{get};
ghost use Rattle.std.specs.List.{AllByRecursion};
ghost use Rattle.cell_key.specs.Cells.{Cells};
ghost use Rattle.cell_key.specs.Faults.{HasReason};
ghost use Rattle.file_store.specs.Store.{Contents};
ghost use Rattle.metadata_table.specs.Roots.{IsSoundRoot, RootView, file_names, lengths_of, root_of};
ghost use Rattle.sorted_file.specs.Limits.{IsFileLimit};
ghost use Rattle.sorted_file.specs.Source.{IsReadRefusal, ReadsFiles};
ghost use Rattle.tablet.specs.Views.{Holds as HoldsAt};
ghost use Rattle.row_atomic.specs.Changes.{Holds, IsEmptied};
ghost use Rattle.row_atomic.specs.Roots.{AreMeasured, KeepsCells, root_name};
ghost use Rattle.row_atomic.specs.Open.{AreCounted, AreLoaded, FindsRoot, FitsAt, HasBadRoot, IsDamaged, IsStore, LacksFile, Reopens, refused_by, told_of};

use crate::cluster::Cluster;
use crate::cluster::checkpoint::{ROOT_NAME, file_lengths};
use crate::fill::Fill;
use crate::place_cache::PlaceCache;
use cell_key::{Refusal, Row, Stamp};
use file_store::{Files, read_whole};
use metadata_table::{MetadataTable, Place, Root, one_measure, one_root};
use sorted_file::{few_blocks, refusal_of};
use std::alloc::{AllocError, Global};
use tablet::{RowRange, Tablet, files_are_there, same_cells};

/// The root in the root file, if that exists.
pub(crate) fn read_root<F: Files>(alloc: Global, files: &mut F) -> Result<Option<Root>, Refusal>
    ensures finds { IfOk result (λ found. IfSome (F.contents files.old) (λ m.
        FindsRoot (get m root_name) (option_map told_of found))) }
    ensures counted { IfOk result (λ found.
        IfSome found (λ root. AreCounted root.table (lengths_of root))) }
    ensures sound { IfOk result (λ found. IfSome found (λ root. IsSoundRoot (root_of root))) }
    ensures damaged { IsErrOf result Refusal.Damaged
        → IfSome (F.contents files.old) HasBadRoot }
    ensures reads { ReadsFiles F.contents F.faults files.old files.new result }
{
    match read_whole(alloc, files, ROOT_NAME) {
        Ok(None) => Ok(None),
        Ok(Some(image)) => match MetadataTable::read_root(alloc, &image)? {
            Some(root) => Ok(Some(root)),
            None => Err(Refusal::Damaged),
        },
        Err(fault) => Err(refusal_of(fault)),
    }
}

/// The end of a place.
fn end_of(place: &Place) -> Result<Option<Row>, AllocError>
    ensures { IfOk result (λ end. end ≡ place.now.end) }
{
    place.end.clone()
}

/// Opens the files of the place at an index as a tablet of its rows.
fn load_at<F: Files>(
    alloc: Global,
    table: &MetadataTable,
    index: usize,
    files: &mut F,
) -> Result<Tablet, Refusal>
    requires within { index < length table.now }
    ensures fits { IfOk result (λ t. FitsAt None table.now index t) }
    ensures emptied { IfOk result IsEmptied }
    ensures holds { IfOk result (λ t. IfSome (F.contents files.old) (λ m. HoldsAt m t)) }
    ensures damaged { IsErrOf result Refusal.Damaged
        → IfSome (F.contents files.old) (λ m. LacksFile m table.now) }
    ensures reads { ReadsFiles F.contents F.faults files.old files.new result }
{
    let places = table.places();
    let after = if index == 0 {
        None
    } else {
        end_of(&places[index - 1])?
    };
    let end = end_of(&places[index])?;
    Tablet::load(
        alloc,
        RowRange { after, end },
        &places[index].files,
        few_blocks(),
        files,
    )
}

/// Opens the files of every tablet, each at its number less 1.
fn load_each<F: Files>(
    alloc: Global,
    table: &MetadataTable,
    files: &mut F,
) -> Result<Vec<Tablet>, Refusal>
    ensures loaded { IfOk result (λ tablets. AreLoaded table.now tablets.items) }
    ensures holds { IfOk result (λ tablets. IfSome (F.contents files.old) (λ m.
        AllByRecursion (HoldsAt m) tablets.items)) }
    ensures damaged { IsErrOf result Refusal.Damaged
        → IfSome (F.contents files.old) (λ m. LacksFile m table.now) }
    ensures reads { ReadsFiles F.contents F.faults files.old files.new result }
{
    let mut tablets = Vec::new(alloc);
    for number in 0..table.len() {
        let index = table.position(number as u32 + 1);
        let tablet = load_at(alloc, table, index, files)?;
        tablets.push(tablet)?;
    }
    Ok(tablets)
}

/// Opens the files of every tablet of a root, and compares their lengths with those in the root.
fn load_root<F: Files>(alloc: Global, root: &Root, files: &mut F) -> Result<Vec<Tablet>, Refusal>
    requires { AreCounted root.now.table (lengths_of root.now) }
    ensures loaded { IfOk result (λ tablets. AreLoaded root.now.table tablets.items) }
    ensures holds { IfOk result (λ tablets. IfSome (F.contents files.old) (λ m.
        AllByRecursion (HoldsAt m) tablets.items)) }
    ensures measured { IfOk result (λ _. IfSome (F.contents files.old) (λ m.
        AreMeasured m (file_names root.now.table) (lengths_of root.now))) }
    ensures damaged { IsErrOf result Refusal.Damaged
        → IfSome (F.contents files.old) (λ m. LacksFile m root.now.table
        ⊎ (¬ AreMeasured m (file_names root.now.table) (lengths_of root.now))) }
    ensures reads { ReadsFiles F.contents F.faults files.old files.new result }
{
    files_are_there();
    let tablets = load_each(alloc, &root.table, files)?;
    if root.lengths.is_empty() {
        return Ok(tablets);
    }
    let lengths = file_lengths(alloc, &root.table, files)?;
    if lengths.as_slice() != root.lengths.as_slice() {
        return Err(Refusal::Damaged);
    }
    Ok(tablets)
}

impl<F: Files> Cluster<F> {
    /// Opens the store in the files, and answers it with its root's two stamps. Without a root file it is a new store,
    /// and both stamps are 0. A sorted file has at most `file_limit` bytes, which is 48 to 68,719,476,736.
    ///
    /// # Errors
    ///
    /// `Damaged` if the root file is malformed, or a file that it names is missing, malformed or not of the length
    /// recorded in the root; `Device` and `NoMemory`. The files are handed back.
    pub fn open(
        alloc: Global,
        files: F,
        file_limit: u64,
    ) -> Result<(Cluster<F>, Stamp, Stamp), (Refusal, F)>
        requires limit { IsFileLimit file_limit }
        ensures files { IfOk result (λ opened. F.contents opened.0.files ≡ F.contents files) }
        ensures limit { IfOk result (λ opened. opened.0.file_limit ≡ file_limit) }
        ensures store { IfOk result (λ opened. IfSome (F.contents files) (λ m.
            IsStore m (get m root_name) opened.1 opened.2 opened.0)) }
        ensures holds { IfOk result (λ opened. IfSome (F.contents files) (λ _.
            Holds F.contents opened.0)) }
        ensures whole { IfOk result (λ _. IfSome (F.contents files) (λ m. ¬ IsDamaged m)) }
        ensures damaged { IfErr result (λ refused. refused.0 ≡ Refusal.Damaged
            → IfSome (F.contents files) (λ m. IsDamaged m)) }
        ensures kept { (m : Contents) (root : RootView) (cells : Cells)
            → F.contents files ≡ Some m → KeepsCells m root cells
            → MatchResult result
            (λ opened. Reopens F.contents root cells opened.1 opened.2 opened.0)
            (λ refused. refused.0 ≢ Refusal.Damaged) }
        ensures refusal { IfErr result (λ refused. IsReadRefusal refused.0) }
        ensures returned { IfErr result (λ refused. F.contents refused.1 ≡ F.contents files) }
        ensures reason { MatchResult result
            (λ opened. F.faults opened.0.files ≡ F.faults files)
            (λ refused. HasReason
            (F.faults files) (F.faults refused.1) (refused_by refused.0)) }
    {
        one_root();
        one_measure();
        files_are_there();
        same_cells();
        let mut files = files;
        let root = match read_root(alloc, &mut files) {
            Ok(Some(root)) => root,
            Ok(None) => {
                return match Cluster::new(alloc, files, file_limit) {
                    Ok(cluster) => Ok((cluster, 0, 0)),
                    Err(refused) => Err(refused),
                };
            }
            Err(refusal) => return Err((refusal, files)),
        };
        let place_cache = match PlaceCache::new(alloc) {
            Ok(place_cache) => place_cache,
            Err(refusal) => return Err((refusal, files)),
        };
        match load_root(alloc, &root, &mut files) {
            Ok(tablets) => Ok((
                Cluster {
                    alloc,
                    files,
                    file_limit,
                    next_name: root.next_name,
                    table: root.table,
                    tablets,
                    most: Fill::NONE,
                    place_cache,
                    merge: None,
                    merge_from: 0,
                },
                root.top,
                root.floor,
            )),
            Err(refusal) => Err((refusal, files)),
        }
    }
}
