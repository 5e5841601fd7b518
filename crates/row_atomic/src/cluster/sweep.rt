//! Removal of files that no tablet has.

ghost use Rattle.std.specs.Prelude.{◌≡◌, IfErr, IfOk, IfSome, OnErr, OnOk, length, option_map};
ghost use Rattle.std.specs.FinMap.{keys};
ghost use Rattle.cell_key.specs.Faults.{HasReason};
ghost use Rattle.file_store.specs.Store.{MayLack, without_file};
ghost use Rattle.sorted_file.specs.Source.{IsFaultRefusal};
ghost use Rattle.row_atomic.specs.Sweeps.{MayLackUnkept, is_kept, is_kept_beside, unkept, without_files};
ghost use Rattle.row_atomic.specs.RootSweeps.{SweepsBesideRoot};
ghost use Rattle.row_atomic.specs.Commands.{IsOutcome, swept_of};

use crate::cluster::Cluster;
use crate::cluster::open::read_root;
use crate::commands::Command;
use cell_key::Refusal;
use file_store::Files;
use metadata_table::{MetadataTable, Root, one_root};
use sorted_file::{refusal_of, stays_open};
use std::alloc::Global;
use tablet::unnamed_may_go;

/// Whether a file must stay: it is the root, 0, or belongs to some tablet.
fn is_kept(table: &MetadataTable, name: u64) -> bool
    ensures { result ≡ is_kept table.now name }
{
    name == 0 || table.listed(name)
}

/// Whether a file must stay beside the places of a root, if there are any.
fn is_kept_beside(root: Option<&MetadataTable>, table: &MetadataTable, name: u64) -> bool
    ensures { result ≡ is_kept_beside (option_map (λ places. places.now) root.entry) table.now
        name }
{
    match root {
        None => is_kept(table, name),
        Some(places) => is_kept(places, name) || is_kept(table, name),
    }
}

/// The places of a root, if there is one.
fn places_of(root: &Option<Root>) -> Option<&MetadataTable>
    ensures { option_map (λ places. places.now) result
        ≡ option_map (λ root. root.table) root.now }
{
    match root {
        None => None,
        Some(root) => Some(&root.table),
    }
}

/// Removes one file.
fn remove<F: Files>(files: &mut F, name: u64) -> Result<(), Refusal>
    ensures ok { OnOk result (F.contents files.new ≡ without_file name (F.contents files.old)) }
    ensures err { OnErr result (MayLack name (F.contents files.old) (F.contents files.new)) }
    ensures refusal { IfErr result IsFaultRefusal }
    ensures reason { HasReason (F.faults files.old) (F.faults files.new) result }
{
    files.remove(name).map_err(|fault| refusal_of(fault))
}

/// Removes the named files that need not stay beside the places of a root, and answers how many they are.
fn remove_unkept<F: Files>(
    root: Option<&MetadataTable>,
    table: &MetadataTable,
    names: Vec<u64>,
    files: &mut F,
) -> Result<u64, Refusal>
    ensures removed { OnOk result (F.contents files.new ≡ without_files (unkept
        (is_kept_beside (option_map (λ places. places.now) root.entry) table.now) names.items)
        (F.contents files.old)) }
    ensures count { IfOk result (λ count. count ≡ length (unkept
        (is_kept_beside (option_map (λ places. places.now) root.entry) table.now) names.items)) }
    ensures lacks { MayLackUnkept
        (is_kept_beside (option_map (λ places. places.now) root.entry) table.now)
        (F.contents files.old) (F.contents files.new) }
    ensures refusal { IfErr result IsFaultRefusal }
    ensures reason { HasReason (F.faults files.old) (F.faults files.new) result }
{
    let mut count = 0;
    for name in names {
        if !is_kept_beside(root, table, name) {
            remove(files, name)?;
            count += 1;
        }
    }
    Ok(count)
}

/// The names of all files.
fn names_of<F: Files>(alloc: Global, files: &mut F) -> Result<Vec<u64>, Refusal>
    ensures names { IfOk result (λ names.
        IfSome (F.contents files.old) (λ m. names.items ≡ keys m)) }
    ensures same { F.contents files.new ≡ F.contents files.old }
    ensures refusal { IfErr result IsFaultRefusal }
    ensures reason { HasReason (F.faults files.old) (F.faults files.new) result }
{
    let mut names = Vec::new(alloc);
    files.list(&mut names).map_err(|fault| refusal_of(fault))?;
    Ok(names)
}

impl<F: Files> Cluster<F> {
    /// Removes the files that no tablet has, and answers how many they were. The root, 0, stays. No cell changes
    /// (Bigtable: files that no tablet has are removed by mark and sweep). A merge that reads such a file is given up.
    ///
    /// # Errors
    ///
    /// `Device` if a device failed during the call, and `NoMemory` if an allocation failed. Some of the files may
    /// already be removed.
    pub fn sweep(&mut self) -> Result<u64, Refusal>
        ensures { IsOutcome F.contents F.faults Command.Sweep (swept_of result) self.old self.new }
    {
        unnamed_may_go();
        stays_open();
        self.give_up_unlisted();
        let _ = self.table.len();
        let names = names_of(self.alloc, &mut self.files)?;
        remove_unkept(None, &self.table, names, &mut self.files)
    }

    /// Removes the files that neither a tablet nor the root file has, and answers how many they were. So the store of
    /// the root file stays whole, whatever was merged away since it was put. No cell changes. A merge that reads a file
    /// that no tablet has is given up.
    ///
    /// # Errors
    ///
    /// `Damaged` if the root file is malformed, `Device` if a device failed during the call, and `NoMemory` if an
    /// allocation failed. Some of the files may already be removed.
    pub fn sweep_beside_root(&mut self) -> Result<u64, Refusal>
        ensures { SweepsBesideRoot F.contents F.faults result self.old self.new }
    {
        unnamed_may_go();
        one_root();
        stays_open();
        self.give_up_unlisted();
        let _ = self.table.len();
        let root = read_root(self.alloc, &mut self.files)?;
        let names = names_of(self.alloc, &mut self.files)?;
        remove_unkept(places_of(&root), &self.table, names, &mut self.files)
    }
}
