//! Files in memory with two contents.

ghost use Rattle.std.specs.Prelude.{◌≡◌, ◌≤◌, ◌++◌, ℕ, Bool, cond, false, true, IfOk, IfSome, IsErrOf, OnErr, OnOk, length, option_map, Some, IsTrue, ⊤};
ghost use Rattle.std.specs.FinMap as map;
ghost use Rattle.std.specs.BTreeSet.{contains};
ghost use Rattle.std.specs.Ordering.{nat_cmp};
ghost use Rattle.file_store.specs.Store.{HasFaultCause, KeepsOthers, MayHaveFile, MayLack, Reads, bytes_of, with_file, without_file};
ghost use Rattle.power_tests.specs.Meant.{all_last, mixed, set_to, with_root_read};
ghost use Rattle.power_tests.specs.Views.{AgreeBut, meant_files};

use crate::fates::{Choice, Fates};
use durable::{AtomicPut, ROOT_NAME};
use file_store::{FileFault, Files, MemFiles, read_whole};
use std::alloc::Global;
use std::collections::BTreeSet;
use std::marker::{Model, PhantomData};

/// Files that are read, and files that last over a loss of power. A call that changes a file changes both; after a
/// failure each of the two is by itself as before or changed. From then on the name is in doubt, and is not read until
/// it is put or removed well.
#[derive(Drop)]
pub struct CachedFiles<V: Choice> {
    alloc: Global,
    read: MemFiles,
    lasting: MemFiles,
    doubts: BTreeSet<u64>,
    fates: Fates,
    faults: u64,
    meant: PhantomData<V>,
}

impl<V: Choice> Model for CachedFiles<V> {
    ghost use Rattle.std.specs.BTreeSet.{contains};
    ghost use Rattle.std.specs.Ordering.{nat_cmp};
    ghost use Rattle.power_tests.specs.Views.{AgreeBut, FilesView, files_code};

    ghost Value = { FilesView };

    ghost coded = { files_code };

    ghost view = { λ files. record {
      read = files.read;
      lasting = files.lasting;
      faults = files.faults;
    } };

    ghost invariant = { λ files.
        AgreeBut (contains nat_cmp files.doubts) files.read files.lasting };
}

/// Puts a file if `goes`; answers whether it was put.
fn put_if(files: &mut MemFiles, goes: bool, name: u64, bytes: &[u8]) -> bool
    ensures put { files.new ≡ cond result (map.insert files.old name bytes.now) files.old }
    ensures goes { IsTrue result → IsTrue goes }
{
    goes && files.put(name, bytes).is_ok()
}

/// Removes a file if `goes`; answers whether it was removed.
fn remove_if(files: &mut MemFiles, goes: bool, name: u64) -> bool
    ensures removed { files.new ≡ cond result (map.remove files.old name) files.old }
    ensures goes { result ≡ goes }
{
    goes && files.remove(name).is_ok()
}

/// Copies a file, or its absence, if `goes`; answers whether that was done.
fn copy_if(alloc: Global, from: &mut MemFiles, to: &mut MemFiles, goes: bool, name: u64) -> bool
    ensures copied { to.new ≡ cond result (set_to (map.get from.old name) name to.old) to.old }
    ensures same { from.new ≡ from.old }
{
    if !goes {
        return false;
    }
    match read_whole(alloc, from, name) {
        Ok(Some(bytes)) => to.put(name, &bytes).is_ok(),
        Ok(None) => to.remove(name).is_ok(),
        Err(_) => false,
    }
}

/// Copies the files of these names. Answers whether that was done.
fn copy_all(alloc: Global, from: &mut MemFiles, to: &mut MemFiles, names: BTreeSet<u64>) -> bool
    requires { AgreeBut (contains nat_cmp names) to.old from.old }
    ensures copied { IsTrue result → to.new ≡ from.old }
    ensures same { from.new ≡ from.old }
{
    let mut left = names;
    while let Some(name) = left.pop_first() {
        if !copy_if(alloc, from, to, true, name) {
            return false;
        }
    }
    true
}

impl<V: Choice> CachedFiles<V> {
    /// No files.
    pub fn new(alloc: Global, fates: Fates) -> CachedFiles<V>
        ensures read { result.read ≡ map.empty }
        ensures lasting { result.lasting ≡ map.empty }
        ensures faults { result.faults ≡ 0 }
    {
        CachedFiles {
            alloc,
            read: MemFiles::new(alloc),
            lasting: MemFiles::new(alloc),
            doubts: BTreeSet::new(alloc),
            fates,
            faults: 0,
            meant: PhantomData,
        }
    }

    /// From now on the calls have these fates.
    pub fn set_fates(&mut self, fates: Fates)
        ensures { self.new ≡ self.old }
    {
        self.fates = fates;
    }

    /// An opening after a kill puts the root again as it is read. A root that isn't read doesn't last: a new file is
    /// read before it lasts.
    ///
    /// # Errors
    ///
    /// `Device`, by the call's fate: the root that lasts may be replaced. `Memory`: nothing is changed.
    pub fn reopen(&mut self) -> Result<(), FileFault>
        ensures ok { OnOk result ((lasts : ℕ → Bool)
            → meant_files lasts self.new ≡ meant_files (with_root_read lasts) self.old) }
        ensures err { OnErr result ((lasts : ℕ → Bool) → (before : ℕ → Bool)
            × (meant_files lasts self.new ≡ meant_files before self.old)) }
    {
        let _ = self.doubts.insert(ROOT_NAME)?;
        let fate = self.fates.next();
        let lasts = copy_if(
            self.alloc,
            &mut self.read,
            &mut self.lasting,
            fate.lasts(),
            ROOT_NAME,
        );
        if fate.is_done(true, lasts) {
            let _ = self.doubts.remove(&ROOT_NAME);
            return Ok(());
        }
        self.faults = self.faults.saturating_add(1);
        Err(FileFault::Device)
    }

    /// Makes or replaces a file, by the call's fate.
    fn place(&mut self, name: u64, bytes: &[u8]) -> Result<(), FileFault>
        ensures ok { OnOk result (meant_files V.meant.of_file self.new
            ≡ with_file name bytes.now (meant_files V.meant.of_file self.old)) }
        ensures others { KeepsOthers name
            (meant_files V.meant.of_file self.old) (meant_files V.meant.of_file self.new) }
        ensures whole { OnErr result (MayHaveFile name bytes.now
            (meant_files V.meant.of_file self.old) (meant_files V.meant.of_file self.new)) }
        ensures memory { IsErrOf result FileFault.Memory → self.new ≡ self.old }
        ensures cause { HasFaultCause self.old.faults self.new.faults result }
    {
        let _ = self.doubts.insert(name)?;
        let fate = self.fates.next();
        let is_read = put_if(&mut self.read, fate.is_read(), name, bytes);
        let lasts = put_if(&mut self.lasting, fate.lasts(), name, bytes);
        if fate.is_done(is_read, lasts) {
            let _ = self.doubts.remove(&name);
            return Ok(());
        }
        self.faults = self.faults.saturating_add(1);
        Err(FileFault::Device)
    }

    /// The files after a loss of power: what lasts is read. `None` without memory.
    pub fn without_power(self) -> Option<CachedFiles<V>>
        ensures { IfSome result (λ files. (lasts : ℕ → Bool)
            → meant_files lasts files ≡ meant_files all_last self) }
    {
        let CachedFiles {
            alloc,
            mut read,
            mut lasting,
            doubts,
            fates,
            faults,
            meant,
        } = self;
        if !copy_all(alloc, &mut lasting, &mut read, doubts) {
            return None;
        }
        Some(CachedFiles {
            alloc,
            read,
            lasting,
            doubts: BTreeSet::new(alloc),
            fates,
            faults,
            meant,
        })
    }
}

/// A file that is being written: its name, and its bytes so far.
#[derive(Drop)]
pub struct CachedWriting {
    name: u64,
    bytes: Vec<u8>,
}

impl<V: Choice> Files for CachedFiles<V> {
    type Writing = CachedWriting;

    ghost writes_to = { λ writing. writing.name };

    ghost has = { λ writing bytes. writing.bytes.items ≡ bytes };

    ghost contents = { λ files. meant_files V.meant.of_file files };

    ghost faults = { λ files. files.faults };

    ghost replaces = { ⊤ };

    fn begin(&mut self, name: u64) -> Result<CachedWriting, FileFault> {
        Ok(CachedWriting {
            name,
            bytes: Vec::new(self.alloc),
        })
    }

    fn push(&mut self, writing: &mut CachedWriting, bytes: &[u8]) -> Result<(), FileFault> {
        writing.bytes.extend_from_slice(bytes)?;
        Ok(())
    }

    fn finish(&mut self, writing: CachedWriting) -> Result<(), FileFault> {
        self.place(writing.name, &writing.bytes)
    }

    fn give_up(&mut self, _writing: CachedWriting) {}

    fn size(&mut self, name: u64) -> Result<Option<u64>, FileFault> {
        if !self.fates.next().is_good() || self.doubts.contains(&name) {
            self.faults = self.faults.saturating_add(1);
            return Err(FileFault::Device);
        }
        self.read.size(name)
    }

    fn read_at(&mut self, name: u64, offset: u64, out: &mut [u8]) -> Result<usize, FileFault> {
        if !self.fates.next().is_good() || self.doubts.contains(&name) {
            self.faults = self.faults.saturating_add(1);
            return Err(FileFault::Device);
        }
        self.read.read_at(name, offset, out)
    }

    fn list(&mut self, names: &mut Vec<u64>) -> Result<(), FileFault> {
        if !self.fates.next().is_good() || !self.doubts.is_empty() {
            self.faults = self.faults.saturating_add(1);
            return Err(FileFault::Device);
        }
        self.read.list(names)
    }

    fn remove(&mut self, name: u64) -> Result<(), FileFault> {
        let _ = self.doubts.insert(name)?;
        let fate = self.fates.next();
        let is_read = remove_if(&mut self.read, fate.is_read(), name);
        let lasts = remove_if(&mut self.lasting, fate.lasts(), name);
        if fate.is_done(is_read, lasts) {
            let _ = self.doubts.remove(&name);
            return Ok(());
        }
        self.faults = self.faults.saturating_add(1);
        Err(FileFault::Device)
    }

    fn faults(&self) -> u64 {
        self.faults
    }
}

impl<V: Choice> AtomicPut for CachedFiles<V> {
    ghost whole = { tt };
}
