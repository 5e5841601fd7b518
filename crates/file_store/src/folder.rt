//! Files in a folder.

ghost use Rattle.std.specs.Prelude.{⊤, ◌≡◌, ◌≢◌, ◌≤◌, ◌<◌, ◌+◌, ◌-◌, ◌^◌, Err, IfOk, IfErr, IfSome, IsOk, None, Ok, OnOk, length, min, nat_eq};
ghost use Rattle.std.specs.Io.KnownBytes.{Appends, IsAtEnd};
ghost use Rattle.std.specs.Map.{lookup};
ghost use Rattle.std.specs.IoError.{error_kind};
ghost use Rattle.file_store.specs.Store.{HasFaultCause};

use crate::files::{FileFault, Files};
use crate::open_files::{OpenFiles, read_part};
use disk::{OWNER_ALONE, create_beside, if_there, look_at, open_regular, place_file, sync_folder};
use std::alloc::{Allocator, Global};
use std::collections::BTreeSet;
use std::fs::{DirEntry, File, Metadata, OpenFile, OpenOptions, ReadDir};
use std::io::{ErrorKind, Read, Seek, Write};
use std::os::unix::fs::OpenOptionsExt;
use std::rt::Files as Folders;
use std::{fs, io};

/// The number of hexadecimal digits in a file's name.
const DIGITS: usize = 16;

/// Files in a folder, named `t`, 16 lower-case hexadecimal digits and `.tab`. Other names in the folder aren't listed.
/// Contracts know nothing of the bytes. The folder's file `lock` is locked while the folder is open, so that only one
/// program uses it; the system unlocks it when the program ends, in whatever way. The 128 files that were read last are
/// kept open.
///
/// A file is written under a temporary name (the same digits and `.new`), forced to the disk and renamed, and then the
/// folder is forced to the disk: after a crash in between there are the old bytes or the new ones. If that fails, the
/// temporary file is removed. Of one name at most one file is written at a time.
///
/// After a failed `finish` the system may show bytes that won't last over a loss of power. So the name is in doubt:
/// reads of it fail until it is put well or removed, or the folder is opened again.
///
/// Only the owner may read and write the files. What has a file's name and is no regular file isn't opened.
#[derive(Drop)]
pub struct DirFiles<R> {
    rt: R,
    alloc: Global,
    folder: String,
    _lock: File,
    open_files: OpenFiles<File>,
    /// The names in doubt.
    doubts: BTreeSet<u64>,
    faults: u64,
}

/// The path of a file in a folder, with this ending.
fn path_of(alloc: Global, folder: &str, name: u64, ending: &str) -> io::Result<String> {
    Ok(format!(in alloc; "{folder}/t{name:016x}.{ending}")?)
}

/// The number in a file's name with this ending, if the name is of this form.
fn name_of(file: &str, ending: &str) -> Option<u64> {
    let digits = file
        .strip_prefix('t')?
        .strip_suffix(ending)?
        .strip_suffix('.')?;
    if digits.len() != DIGITS {
        return None;
    }
    if !digits
        .bytes()
        .all(|byte| matches!(byte, b'0'..=b'9' | b'a'..=b'f'))
    {
        return None;
    }
    u64::from_str_radix(digits, 16).ok()
}

/// Locks a folder's file `lock`, and makes it if it is missing. Fails if it is already locked.
fn lock_folder<R: Folders<File = File>>(rt: &R, alloc: Global, folder: &str) -> io::Result<File> {
    let path = format!(in alloc; "{folder}/lock")?;
    let is_new = if_there(look_at(rt, path.as_str()))?.is_none();
    let mut how = OpenOptions::new();
    how.write(true).create_new(is_new).mode(OWNER_ALONE);
    let file = how.open(rt, path.as_str())?;
    file.try_lock()?;
    Ok(file)
}

/// After how many bytes a file that is being written is forced to the disk, so that little is left for its end.
const SYNC_LEN: usize = 4_194_304;

/// A file of a folder that is being written under its temporary name.
#[derive(Drop)]
pub struct DirWriting {
    name: u64,
    file: File,
    beside: String,
    path: String,
    /// How many bytes were written since the file was forced to the disk.
    unsynced: usize,
}

/// Begins a file of a folder.
fn begin_file<R: Folders<File = File>>(
    rt: &R,
    alloc: Global,
    folder: &str,
    name: u64,
) -> io::Result<DirWriting>
    ensures { IfOk result (λ writing. writing.name ≡ name) }
{
    let path = path_of(alloc, folder, name, "tab")?;
    let beside = path_of(alloc, folder, name, "new")?;
    let file = create_beside(rt, beside.as_str())?;
    Ok(DirWriting {
        name,
        file,
        beside,
        path,
        unsynced: 0,
    })
}

/// Appends bytes to a file, of which so many bytes aren't forced to the disk; if these are many, they are forced first.
/// Answers how many aren't forced then.
fn append<W: Write + OpenFile>(file: &mut W, unsynced: usize, bytes: &[u8]) -> io::Result<usize>
    ensures written { OnOk result (Appends (W.contents file.old) (W.contents file.new) bytes.now) }
    ensures few { unsynced < 4194304 → IfOk result (λ n.
        n ≡ min (unsynced + length bytes.now) (2 ^ 64 - 1)) }
    ensures many { 4194304 ≤ unsynced → IfOk result (λ n. n ≡ length bytes.now) }
{
    let mut unsynced = unsynced;
    if unsynced >= SYNC_LEN {
        file.sync_all()?;
        unsynced = 0;
    }
    file.write_all(bytes)?;
    Ok(unsynced.saturating_add(bytes.len()))
}

/// Appends bytes to a file that was begun.
fn push_bytes(writing: &mut DirWriting, bytes: &[u8]) -> io::Result<()>
    ensures { writing.new.name ≡ writing.old.name }
{
    writing.unsynced = append(&mut writing.file, writing.unsynced, bytes)?;
    Ok(())
}

/// Forces a file that was begun to the disk, and puts it in its place. If that fails, the temporary file is removed.
fn finish_file<R: Folders>(rt: &R, folder: &str, writing: DirWriting) -> io::Result<()> {
    let DirWriting {
        file,
        beside,
        path,
        ..
    } = writing;
    place_file(rt, folder, beside.as_str(), path.as_str(), file.sync_all())
}

/// Reads from an offset of a file that was opened into a buffer, and answers how many bytes were read: fewer than its
/// length only at the file's end. Answers the file too, if it exists.
fn read_opened<S: Read + Seek + Drop>(
    opened: io::Result<S>,
    offset: u64,
    out: &mut [u8],
) -> io::Result<(usize, Option<S>)>
    ensures within { IfOk result (λ found. found.0 ≤ length out.old) }
    ensures end { offset < 2 ^ 63 → IfOk result (λ found.
        found.0 < length out.old → IfSome found.1 (λ file. IsAtEnd (S.remaining file))) }
    ensures failed { IfErr opened (λ error.
        error_kind error ≢ ErrorKind.NotFound → result ≡ Err error) }
{
    let Some(mut file) = if_there(opened)? else {
        return Ok((0, None));
    };
    let count = read_part(&mut file, offset, out)?;
    Ok((count, Some(file)))
}

/// Reads in the same way from a file by its name, also if it is kept open; nothing if it is missing. The file is kept
/// open.
fn read_from<S: Read + Seek + Drop, R: Folders<File = S>>(
    rt: &R,
    alloc: Global,
    folder: &str,
    open_files: &mut OpenFiles<S>,
    name: u64,
    offset: u64,
    out: &mut [u8],
) -> io::Result<usize>
    ensures within { IfOk result (λ n. n ≤ length out.old) }
    ensures end { offset < 2 ^ 63 → IfOk result (λ n. n < length out.old →
        IfSome (lookup (nat_eq name) open_files.new.files.entries) (λ file.
        IsAtEnd (S.remaining file))) }
{
    if let Some(read) = open_files.read(name, offset, out) {
        return read;
    }
    let path = path_of(alloc, folder, name, "tab")?;
    let (count, file) = read_opened(open_regular(rt, path.as_str()), offset, out)?;
    if let Some(file) = file {
        open_files.keep(name, file);
    }
    Ok(count)
}

/// The size in a file's metadata; `None` if the file is missing. Any other failure is passed on.
fn size_in(found: io::Result<Metadata>) -> io::Result<Option<u64>>
    ensures missing { IfErr found (λ error.
        error_kind error ≡ ErrorKind.NotFound → result ≡ Ok None) }
    ensures failed { IfErr found (λ error.
        error_kind error ≢ ErrorKind.NotFound → result ≡ Err error) }
{
    let metadata = if_there(found)?;
    Ok(metadata.map(|metadata| metadata.len()))
}

/// The size of a file in bytes, if it exists.
fn size_of<R: Folders>(rt: &R, alloc: Global, folder: &str, name: u64) -> io::Result<Option<u64>> {
    let path = path_of(alloc, folder, name, "tab")?;
    size_in(look_at(rt, path.as_str()))
}

/// Forces a folder to the disk after a file was removed; does nothing if the file was missing. Any other failure is
/// passed on.
fn sync_removed<R: Folders>(rt: &R, folder: &str, removed: io::Result<()>) -> io::Result<()>
    ensures missing { IfErr removed (λ error.
        error_kind error ≡ ErrorKind.NotFound → IsOk result) }
    ensures failed { IfErr removed (λ error.
        error_kind error ≢ ErrorKind.NotFound → result ≡ Err error) }
{
    match if_there(removed)? {
        Some(()) => sync_folder(rt, folder),
        None => Ok(()),
    }
}

/// Removes a file, if it exists.
fn remove_file<R: Folders>(rt: &R, alloc: Global, folder: &str, name: u64) -> io::Result<()> {
    let path = path_of(alloc, folder, name, "tab")?;
    sync_removed(rt, folder, fs::remove_file(rt, path.as_str()))
}

/// The number in the name of a listed file with this ending, if its name is of this form. `None` for a name that isn't
/// valid text.
fn name_listed<R: Folders + Drop, A: Allocator + Drop>(
    entry: io::Result<DirEntry<R, A>>,
    ending: &str,
) -> io::Result<Option<u64>>
    ensures failed { IfErr entry (λ error.
        error_kind error ≢ ErrorKind.InvalidFilename → result ≡ Err error) }
{
    match entry {
        Ok(entry) => Ok(name_of(entry.file_name(), ending)),
        Err(error) if error.kind() == ErrorKind::InvalidFilename => Ok(None),
        Err(error) => Err(error),
    }
}

/// The numbers of listed files with this ending, in ascending order. A failure to list them is passed on.
fn numbers_in<R: Folders + Clone + Drop, A: Allocator + Clone + Drop>(
    alloc: Global,
    listed: io::Result<ReadDir<R, A>>,
    ending: &str,
) -> io::Result<Vec<u64>>
    ensures failed { IfErr listed (λ error. result ≡ Err error) }
{
    let mut names = Vec::new(alloc);
    for entry in listed? {
        if let Some(name) = name_listed(entry, ending)? {
            names.push(name)?;
        }
    }
    names.sort_unstable();
    Ok(names)
}

/// The numbers of a folder's files with this ending, in ascending order.
fn names_in<R: Folders + AllocGlobal + Clone + Drop>(
    rt: &R,
    folder: &str,
    ending: &str,
) -> io::Result<Vec<u64>> {
    numbers_in(rt.alloc(), fs::read_dir(rt, folder), ending)
}

/// Removes all temporary files, which a stopped program left.
fn remove_unplaced<R: Folders + AllocGlobal + Clone + Drop>(
    rt: &R,
    folder: &str,
) -> io::Result<()> {
    for name in names_in(rt, folder, "new")? {
        let path = path_of(rt.alloc(), folder, name, "new")?;
        let _ = if_there(fs::remove_file(rt, path.as_str()))?;
    }
    Ok(())
}

/// The fault for a failure of the system.
fn fault_of(error: io::Error) -> FileFault
    ensures memory { error_kind error ≡ ErrorKind.OutOfMemory → result ≡ FileFault.Memory }
    ensures device { error_kind error ≢ ErrorKind.OutOfMemory → result ≡ FileFault.Device }
{
    if error.kind() == ErrorKind::OutOfMemory {
        FileFault::Memory
    } else {
        FileFault::Device
    }
}

impl<R: Folders<File = File> + AllocGlobal + Clone + Drop> DirFiles<R> {
    /// Opens the files of a folder, which no other program can open until these are dropped. Temporary files that a
    /// stopped program left are removed.
    ///
    /// # Errors
    ///
    /// `Device` if there is no such folder, another program has it open, or it can't be read; `Memory` if there is no
    /// memory.
    pub fn open(rt: R, folder: &str) -> Result<DirFiles<R>, FileFault>
        ensures { IfOk result (λ files. files.faults ≡ 0) }
    {
        open_folder(rt, folder).map_err(fault_of)
    }
}

impl<R: Folders<File = File> + AllocGlobal + Clone + Drop> DirFiles<R> {
    /// The result of a call, or its fault, which is counted if it is a device's.
    fn count_fault<T: Drop>(&mut self, called: io::Result<T>) -> Result<T, FileFault>
        ensures cause { HasFaultCause self.old.faults self.new.faults result }
        ensures same { IfOk result (λ value. called ≡ Ok value) }
        ensures memory { IfErr called (λ error.
            error_kind error ≡ ErrorKind.OutOfMemory → result ≡ Err FileFault.Memory) }
        ensures device { IfErr called (λ error.
            error_kind error ≢ ErrorKind.OutOfMemory → result ≡ Err FileFault.Device) }
    {
        let fault = match called {
            Ok(value) => return Ok(value),
            Err(error) => fault_of(error),
        };
        if fault == FileFault::Device {
            self.faults = self.faults.saturating_add(1);
        }
        Err(fault)
    }
}

/// The files of a folder, after it is locked and its temporary files are removed.
fn open_folder<R: Folders<File = File> + AllocGlobal + Clone + Drop>(
    rt: R,
    folder: &str,
) -> io::Result<DirFiles<R>>
    ensures { IfOk result (λ files. files.faults ≡ 0) }
{
    let alloc = rt.alloc();
    let lock = lock_folder(&rt, alloc, folder)?;
    remove_unplaced(&rt, folder)?;
    let folder = String::from_str(alloc, folder)?;
    let open_files = OpenFiles::new(alloc)?;
    Ok(DirFiles {
        rt,
        alloc,
        folder,
        _lock: lock,
        open_files,
        doubts: BTreeSet::new(alloc),
        faults: 0,
    })
}

impl<R: Folders<File = File> + AllocGlobal + Clone + Drop> Files for DirFiles<R> {
    type Writing = DirWriting;

    ghost writes_to = { λ writing. writing.name };

    ghost has = { λ _ _. ⊤ };

    ghost contents = { λ _. None };

    ghost faults = { λ files. files.faults };

    ghost replaces = { ⊤ };

    fn begin(&mut self, name: u64) -> Result<DirWriting, FileFault> {
        let called = begin_file(&self.rt, self.alloc, self.folder.as_str(), name);
        self.count_fault(called)
    }

    fn push(&mut self, writing: &mut DirWriting, bytes: &[u8]) -> Result<(), FileFault> {
        let called = push_bytes(writing, bytes);
        self.count_fault(called)
    }

    fn finish(&mut self, writing: DirWriting) -> Result<(), FileFault> {
        let name = writing.name;
        if self.doubts.insert(name).is_err() {
            self.give_up(writing);
            return Err(FileFault::Memory);
        }
        self.open_files.close(name);
        let called = finish_file(&self.rt, self.folder.as_str(), writing);
        self.count_fault(called)?;
        let _ = self.doubts.remove(&name);
        Ok(())
    }

    fn give_up(&mut self, writing: DirWriting) {
        let _ = fs::remove_file(&self.rt, writing.beside.as_str());
    }

    fn size(&mut self, name: u64) -> Result<Option<u64>, FileFault> {
        if self.doubts.contains(&name) {
            return self.count_fault(Err(io::Error::from(ErrorKind::Other)));
        }
        let called = size_of(&self.rt, self.alloc, self.folder.as_str(), name);
        self.count_fault(called)
    }

    fn read_at(&mut self, name: u64, offset: u64, out: &mut [u8]) -> Result<usize, FileFault> {
        if self.doubts.contains(&name) {
            return self.count_fault(Err(io::Error::from(ErrorKind::Other)));
        }
        let called = read_from(
            &self.rt,
            self.alloc,
            self.folder.as_str(),
            &mut self.open_files,
            name,
            offset,
            out,
        );
        self.count_fault(called)
    }

    fn list(&mut self, names: &mut Vec<u64>) -> Result<(), FileFault> {
        let called = names_in(&self.rt, self.folder.as_str(), "tab");
        let found = self.count_fault(called)?;
        names.extend_from_slice(&found)?;
        Ok(())
    }

    fn remove(&mut self, name: u64) -> Result<(), FileFault> {
        self.open_files.close(name);
        let called = remove_file(&self.rt, self.alloc, self.folder.as_str(), name);
        self.count_fault(called)?;
        let _ = self.doubts.remove(&name);
        Ok(())
    }

    fn faults(&self) -> u64 {
        self.faults
    }
}
