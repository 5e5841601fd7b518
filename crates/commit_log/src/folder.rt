//! A log in a folder: its file, the sign of its store, and the bytes that were cut.

ghost use Rattle.std.specs.Prelude.{◌≡◌, ◌≢◌, ◌<◌, ◌^◌, Err, IfErr, IfOk, IfSome, IsErr, IsErrOf, IsOk, IsSomeAnd, None, Ok, OnErr, OnOk, Some, length, true};
ghost use Rattle.std.specs.Io.KnownBytes.{Consumes};
ghost use Rattle.std.specs.IoError.{error_kind};
ghost use Rattle.commit_log.specs.Faults.{HasFaultCause};
ghost use Rattle.commit_log.specs.Files.{IsWithoutRoom};
ghost use Rattle.commit_log.specs.Numbered.{store_sign};

use crate::checksums::crc32;
use crate::faults::LogFault;
use crate::file_log::FileLog;
use crate::files::LogFile;
use crate::frames::{HEAD, read_log};
use crate::numbers::number_bytes;
use crate::store_log::{new_log, read_store_log, upgrade_log};
use cell_key::Stamp;
use disk::{
    create_beside, if_there, look_at, open_regular, replace_file, sync_folder, write_synced,
};
use std::alloc::{AllocError, Global};
use std::fs::{File, OpenFile, OpenOptions, remove_file};
use std::io;
use std::io::{ErrorKind, Read, Seek, SeekFrom, Write};
use std::rt::Files as Folders;

/// The name of the log's file.
const LOG: &str = "commit.log";

/// The name of the sign's file: it says that the folder has a log, and of which store.
const SIGN: &str = "commit.id";

/// The name of the file with the bytes that were cut from the log.
const CUT: &str = "commit.cut";

/// The temporary name under which each of them is written before the rename.
const BESIDE: &str = "commit.new";

/// The name of the file that is room for another file of the folder.
const ROOM: &str = "room.new";

/// The bytes with which the sign of a store begins.
const SIGN_HEAD: [u8; 8] = *b"TABSTORE";

/// The length of a piece of room, in bytes.
const PIECE: usize = 131_072;

/// The length of the room for a renewal, in bytes. A log that has only the name of a root is shorter.
const RENEWAL_ROOM: usize = 4_096;

/// A log in the file `commit.log` of a folder. Its contract doesn't know the bytes.
pub type DirLog<R> = FileLog<DirFile<R>>;

/// The file of a folder's log. Written bytes are forced to the disk before the call returns. Behind them it has room:
/// zeros, over which the next bytes are written, so that the file's length stays.
/// After a failed write or renewal it takes no more bytes and isn't read: the system may have dropped bytes that it could
/// not write.
#[derive(Drop)]
pub struct DirFile<R> {
    rt: R,
    folder: String,
    file: File,
    /// The offset of the end of the bytes that were written.
    end: usize,
    /// The offset of the end of the room.
    len: usize,
    /// The temporary file is there, and has room for a renewal.
    has_renewal_room: bool,
    is_stopped: bool,
    faults: u64,
}

/// The log of a folder that was opened.
#[derive(Drop)]
pub struct OpenLog<R> {
    /// The log.
    pub log: DirLog<R>,
    /// The number of bytes behind its last whole frame, up to the last that isn't zero. They were cut; if there were
    /// any, the folder's file `commit.cut` has them.
    pub cut: usize,
}

/// The path of a file in a folder.
fn path_of(alloc: Global, folder: &str, name: &str) -> io::Result<String> {
    Ok(format!(in alloc; "{folder}/{name}")?)
}

/// Opens the file of a folder's log, to read it and to write it.
fn open_file<R: Folders<File = File> + AllocGlobal>(rt: &R, folder: &str) -> io::Result<File> {
    let path = path_of(rt.alloc(), folder, LOG)?;
    look_at(rt, path.as_str())?;
    let mut how = OpenOptions::new();
    how.read(true).write(true);
    how.open(rt, path.as_str())
}

/// Writes bytes to a file from an offset on, and forces them to the disk.
fn write_from<W: Write + Seek + OpenFile>(file: &mut W, at: usize, bytes: &[u8]) -> io::Result<()> {
    file.seek(SeekFrom::Start(at as u64))?;
    file.write_all(bytes)?;
    file.sync_data()
}

/// Writes so many pieces of zeros to a file from an offset on, and forces them to the disk.
fn write_zeros<W: Write + Seek + OpenFile>(
    alloc: Global,
    file: &mut W,
    at: usize,
    pieces: usize,
    len: usize,
) -> io::Result<()> {
    let zeros = vec![in alloc; 0u8; len]?;
    file.seek(SeekFrom::Start(at as u64))?;
    for _ in 0..pieces {
        file.write_all(&zeros)?;
    }
    file.sync_data()
}

/// So many bytes of a file, from where it was moved to. A failure to move it or to read one of them is passed on.
fn read_front<S: Read>(
    alloc: Global,
    file: &mut S,
    moved: io::Result<u64>,
    len: usize,
) -> io::Result<Vec<u8>>
    ensures length { IfOk result (λ bytes. length bytes.items ≡ len) }
    ensures read { IfOk result (λ bytes.
        Consumes (S.remaining file.old) (S.remaining file.new) bytes.items) }
    ensures failed { IfErr moved (λ error. result ≡ Err error) }
{
    moved?;
    let mut bytes = vec![in alloc; 0u8; len]?;
    file.read_exact(&mut bytes)?;
    Ok(bytes)
}

/// All bytes of an opened file; `None` if it was not found. Any other failure is passed on, also that of a later read:
/// the bytes before it aren't taken for all.
///
/// # Errors
///
/// The failure to open the file, or to read it.
pub fn read_opened<S: Read + Drop>(
    alloc: Global,
    opened: io::Result<S>,
) -> io::Result<Option<Vec<u8>>>
    ensures all { IfOk opened (λ file. IfSome (S.remaining file) (λ rest.
        IfOk result (λ found. IsSomeAnd found (λ bytes. bytes.items ≡ rest)))) }
    ensures missing { IfErr opened (λ error.
        error_kind error ≡ ErrorKind.NotFound → result ≡ Ok None) }
    ensures failed { IfErr opened (λ error.
        error_kind error ≢ ErrorKind.NotFound → result ≡ Err error) }
{
    let Some(mut file) = if_there(opened)? else {
        return Ok(None);
    };
    let mut bytes = Vec::new(alloc);
    file.read_to_end(&mut bytes)?;
    Ok(Some(bytes))
}

/// The bytes of a file of a folder; `None` if it doesn't exist.
fn read_file<R: Folders + AllocGlobal>(
    rt: &R,
    folder: &str,
    name: &str,
) -> Result<Option<Vec<u8>>, LogFault> {
    let path = path_of(rt.alloc(), folder, name).map_err(fault_of)?;
    read_opened(rt.alloc(), open_regular(rt, path.as_str())).map_err(fault_of)
}

/// Makes or replaces a file of a folder by way of a temporary one.
fn place_file<R: Folders + AllocGlobal>(
    rt: &R,
    folder: &str,
    name: &str,
    bytes: &[u8],
) -> io::Result<()> {
    let path = path_of(rt.alloc(), folder, name)?;
    let beside = path_of(rt.alloc(), folder, BESIDE)?;
    replace_file(rt, folder, beside.as_str(), path.as_str(), bytes)
}

/// Makes a file of a folder with so many zeros, as room. If they can't be written, it is removed.
fn put_zeros<R: Folders + AllocGlobal>(
    rt: &R,
    folder: &str,
    name: &str,
    len: usize,
) -> io::Result<()> {
    let path = path_of(rt.alloc(), folder, name)?;
    let zeros = vec![in rt.alloc(); 0u8; len]?;
    let mut file = create_beside(rt, path.as_str())?;
    let written = write_synced(&mut file, &zeros);
    if written.is_err() {
        let _ = remove_file(rt, path.as_str());
    }
    written
}

/// Removes the file that is room for another file, if there is one.
fn remove_room<R: Folders + AllocGlobal>(rt: &R, folder: &str) -> io::Result<()> {
    let room = path_of(rt.alloc(), folder, ROOM)?;
    remove_file(rt, room.as_str())
}

/// Writes bytes to a file in the place of all that it has, in its room, and forces them to the disk.
fn write_over<R: Folders<File = File>>(rt: &R, path: &str, bytes: &[u8]) -> io::Result<()> {
    look_at(rt, path)?;
    let mut how = OpenOptions::new();
    how.write(true);
    let mut file = how.open(rt, path)?;
    file.write_all(bytes)?;
    file.set_len(bytes.len() as u64)?;
    file.sync_all()
}

/// Replaces the log of a folder by way of the temporary file that is there.
fn replace_log<R: Folders<File = File> + AllocGlobal>(
    rt: &R,
    folder: &str,
    bytes: &[u8],
) -> io::Result<()> {
    let path = path_of(rt.alloc(), folder, LOG)?;
    let beside = path_of(rt.alloc(), folder, BESIDE)?;
    let written = write_over(rt, beside.as_str(), bytes);
    disk::place_file(rt, folder, beside.as_str(), path.as_str(), written)
}

/// The fault for an error of the system.
fn fault_of(error: io::Error) -> LogFault
    ensures memory { error_kind error ≡ ErrorKind.OutOfMemory → result ≡ LogFault.Memory }
    ensures device { error_kind error ≢ ErrorKind.OutOfMemory → result ≡ LogFault.Device }
{
    if error.kind() == ErrorKind::OutOfMemory {
        LogFault::Memory
    } else {
        LogFault::Device
    }
}

/// Random numbers for a store and for the first record of its log, from `/dev/urandom`.
fn draw_numbers<R: Folders>(rt: &R) -> io::Result<(u64, u64)>
    ensures { IfOk result (λ drawn. drawn.1 < 2 ^ 62) }
{
    let mut source = File::open(rt, "/dev/urandom")?;
    let mut store = [0u8; 8];
    source.read_exact(&mut store)?;
    let mut first = [0u8; 8];
    source.read_exact(&mut first)?;
    Ok((u64::from_be_bytes(store), u64::from_be_bytes(first) / 4))
}

/// The sign of a store.
fn sign_of(alloc: Global, store: u64) -> Result<Vec<u8>, AllocError>
    ensures { IfOk result (λ bytes. bytes.items ≡ store_sign store) }
{
    let number = number_bytes(store);
    let mut bytes = Vec::from_slice(alloc, &SIGN_HEAD)?;
    bytes.extend_from_slice(&number)?;
    bytes.extend_from_slice(&crc32(&SIGN_HEAD, &number).to_be_bytes())?;
    Ok(bytes)
}

/// Compares a folder's sign with the sign of its log's store. A folder without a sign gets this one.
///
/// # Errors
///
/// `Damaged` if the signs differ; `Device`; `Memory`.
fn keep_sign<R: Folders + AllocGlobal>(
    rt: &R,
    folder: &str,
    store: u64,
    found: Option<Vec<u8>>,
) -> Result<(), LogFault> {
    let sign = sign_of(rt.alloc(), store)?;
    match found {
        Some(found) if found.as_slice() == sign.as_slice() => Ok(()),
        Some(_) => Err(LogFault::Damaged),
        None => place_file(rt, folder, SIGN, &sign).map_err(fault_of),
    }
}

/// The bytes behind a log's last whole frame without the zeros at their end, which are room.
fn torn(tail: &[u8]) -> &[u8]
    ensures { IsWithoutRoom tail.now result.now }
{
    let mut rest = tail;
    while let Some((last, before)) = rest.split_last() {
        if *last != 0 {
            return rest;
        }
        rest = before;
    }
    rest
}

/// Saves the bytes that are to be cut from a log, if there are any.
fn keep_cut<R: Folders + AllocGlobal>(rt: &R, folder: &str, cut: &[u8]) -> Result<(), LogFault> {
    if cut.is_empty() {
        return Ok(());
    }
    place_file(rt, folder, CUT, cut).map_err(fault_of)
}

/// Replaces a log of format 1 by one of format 2 with the same records, if no edit has a stamp above the stored mark.
/// Answers the length of its records, and how many bytes were cut.
fn upgrade_file<R: Folders + AllocGlobal>(
    rt: &R,
    folder: &str,
    bytes: &[u8],
    mark: Stamp,
) -> Result<(usize, usize), LogFault> {
    let (store, first) = draw_numbers(rt).map_err(fault_of)?;
    let cut = torn(&bytes[read_log(rt.alloc(), bytes)?.end..]);
    let upgraded = upgrade_log(rt.alloc(), bytes, mark, store, first)?;
    keep_cut(rt, folder, cut)?;
    place_file(rt, folder, LOG, &upgraded).map_err(fault_of)?;
    keep_sign(rt, folder, store, None)?;
    Ok((upgraded.len(), cut.len()))
}

/// Rewrites the records of a log. A program that was killed, or whose write failed, may have left records only in the
/// system's page cache; afterwards they are on the disk. The first record was forced to the disk with the file. Answers
/// the length of the records, and how many bytes were cut.
fn force_records<R: Folders + AllocGlobal>(
    rt: &R,
    folder: &str,
    bytes: &[u8],
    sign: Option<Vec<u8>>,
) -> Result<(usize, usize), LogFault> {
    let found = read_store_log(rt.alloc(), bytes)?;
    let (whole, tail) = bytes.split_at(found.end);
    let cut = torn(tail);
    keep_sign(rt, folder, found.store, sign)?;
    keep_cut(rt, folder, cut)?;
    if cut.is_empty() && found.records.len() == 1 {
        sync_folder(rt, folder).map_err(fault_of)?;
    } else {
        place_file(rt, folder, LOG, whole).map_err(fault_of)?;
    }
    Ok((whole.len(), cut.len()))
}

/// Opens the log of a folder, if there is one, with all its records on the disk. A log of format 1 is upgraded to
/// format 2, if its edits have stamps up to the stored mark. No other program may use the folder.
///
/// # Errors
///
/// `Damaged` if its file is not a log, a later whole frame follows a broken one, the folder's sign is not this log's,
/// the folder has a sign but no log, or a record of format 1 isn't edits within the limits or has one with a stamp
/// above the mark; `Refused` if a record of format 1 is too long; `Device`; `Memory`.
pub fn open_log<R: Folders<File = File> + AllocGlobal + Drop>(
    rt: R,
    folder: &str,
    mark: Stamp,
) -> Result<Option<OpenLog<R>>, LogFault> {
    let sign = read_file(&rt, folder, SIGN)?;
    let Some(bytes) = read_file(&rt, folder, LOG)? else {
        return match sign {
            Some(_) => Err(LogFault::Damaged),
            None => Ok(None),
        };
    };
    // A killed program may have left room. If it can't be removed, nothing is lost but the room.
    let _ = remove_room(&rt, folder);
    let (end, cut) = if !bytes.starts_with(&HEAD) {
        force_records(&rt, folder, &bytes, sign)?
    } else if sign.is_none() {
        upgrade_file(&rt, folder, &bytes, mark)?
    } else {
        return Err(LogFault::Damaged);
    };
    let file = DirFile::open(rt, folder, end).map_err(fault_of)?;
    let alloc = file.rt.alloc();
    match FileLog::open(alloc, file) {
        Ok(log) => Ok(Some(OpenLog { log, cut })),
        Err((fault, _file)) => Err(fault),
    }
}

/// Creates a log over any root in a folder that has none, then the folder's sign.
///
/// # Errors
///
/// `Device`; `Memory`.
pub fn make_log<R: Folders + AllocGlobal>(rt: &R, folder: &str) -> Result<(), LogFault> {
    let (store, first) = draw_numbers(rt).map_err(fault_of)?;
    let log = new_log(rt.alloc(), store, first)?;
    place_file(rt, folder, LOG, &log).map_err(fault_of)?;
    keep_sign(rt, folder, store, None)
}

impl<R: Folders<File = File> + AllocGlobal + Drop> DirFile<R> {
    /// Opens the file of a folder's log, which must exist and has so many bytes of records. Room that it has behind
    /// them is written again before it is used.
    fn open(rt: R, folder: &str, end: usize) -> io::Result<DirFile<R>>
        ensures { IfOk result (λ file. file.faults ≡ 0) }
    {
        let file = open_file(&rt, folder)?;
        let folder = String::from_str(rt.alloc(), folder)?;
        Ok(DirFile {
            rt,
            folder,
            file,
            end,
            len: end,
            has_renewal_room: false,
            is_stopped: false,
            faults: 0,
        })
    }

    /// Replaces this file by one of these bytes, and opens that.
    fn replace(&mut self, bytes: &[u8]) -> io::Result<()>
        ensures stopped { self.new.is_stopped ≡ self.old.is_stopped }
        ensures faults { self.new.faults ≡ self.old.faults }
    {
        let has_room = self.has_renewal_room;
        self.has_renewal_room = false;
        if has_room && bytes.len() <= RENEWAL_ROOM {
            replace_log(&self.rt, self.folder.as_str(), bytes)?;
        } else {
            place_file(&self.rt, self.folder.as_str(), LOG, bytes)?;
        }
        self.file = open_file(&self.rt, self.folder.as_str())?;
        self.end = bytes.len();
        self.len = bytes.len();
        Ok(())
    }

    /// Writes bytes at the end, over the room if there is enough.
    fn append(&mut self, more: &[u8]) -> io::Result<()>
        ensures stopped { self.new.is_stopped ≡ self.old.is_stopped }
        ensures faults { self.new.faults ≡ self.old.faults }
    {
        write_from(&mut self.file, self.end, more)?;
        self.end = self.end.saturating_add(more.len());
        self.len = self.len.max(self.end);
        Ok(())
    }

    /// Makes room behind the end for so many bytes. If that fails, the file is cut back to its length before, and
    /// stopped if it can't be cut.
    fn make_room(&mut self, more: usize) -> io::Result<()>
        ensures stays { self.old.is_stopped ≡ true → self.new.is_stopped ≡ true }
        ensures faults { self.new.faults ≡ self.old.faults }
    {
        let wanted = self.end.saturating_add(more);
        if wanted <= self.len {
            return Ok(());
        }
        let pieces = (wanted - self.len - 1) / PIECE + 1;
        let called = write_zeros(self.rt.alloc(), &mut self.file, self.len, pieces, PIECE);
        if called.is_ok() {
            self.len = self.len.saturating_add(pieces.saturating_mul(PIECE));
        } else {
            self.is_stopped = self.is_stopped || self.file.set_len(self.len as u64).is_err();
        }
        called
    }

    /// Makes room for a renewal, unless there is some.
    fn make_renewal_room(&mut self) -> io::Result<()>
        ensures stopped { self.new.is_stopped ≡ self.old.is_stopped }
        ensures faults { self.new.faults ≡ self.old.faults }
    {
        if !self.has_renewal_room {
            put_zeros(&self.rt, self.folder.as_str(), BESIDE, RENEWAL_ROOM)?;
            self.has_renewal_room = true;
        }
        Ok(())
    }

    /// The value of a read, or its fault. A fault of the device is counted.
    fn count_fault<T: Drop>(&mut self, called: io::Result<T>) -> Result<T, LogFault>
        ensures cause { HasFaultCause self.old.faults self.new.faults result }
        ensures stays { self.new.is_stopped ≡ self.old.is_stopped }
        ensures intact { ¬ IsErrOf result LogFault.Damaged }
        ensures taken { ¬ IsErrOf result LogFault.Refused }
        ensures same { IfOk result (λ value. called ≡ Ok value) }
        ensures memory { IfErr called (λ error.
            error_kind error ≡ ErrorKind.OutOfMemory → result ≡ Err LogFault.Memory) }
        ensures device { IfErr called (λ error.
            error_kind error ≢ ErrorKind.OutOfMemory → result ≡ Err LogFault.Device) }
    {
        let fault = match called {
            Ok(value) => return Ok(value),
            Err(error) => fault_of(error),
        };
        if fault == LogFault::Device {
            self.faults = self.faults.saturating_add(1);
        }
        Err(fault)
    }

    /// The result of a write or a renewal. If it failed, the fault is counted and the file is stopped.
    fn stop_if_failed(&mut self, called: io::Result<()>) -> Result<(), LogFault>
        ensures cause { HasFaultCause self.old.faults self.new.faults result }
        ensures stops { OnErr result (self.new.is_stopped ≡ true) }
        ensures stays { OnOk result (self.new.is_stopped ≡ self.old.is_stopped) }
        ensures failed { OnErr called (IsErr result) }
        ensures done { OnOk called (IsOk result) }
        ensures fault { IfErr result (λ fault. fault ≡ LogFault.Device) }
    {
        if called.is_ok() {
            return Ok(());
        }
        self.is_stopped = true;
        self.faults = self.faults.saturating_add(1);
        Err(LogFault::Device)
    }
}

impl<R: Folders<File = File> + AllocGlobal + Drop> LogFile for DirFile<R> {
    ghost use Rattle.std.specs.Prelude.{◌≡◌, true};

    ghost bytes = { λ _. None };

    ghost is_stopped = { λ file. file.is_stopped ≡ true };

    ghost faults = { λ file. file.faults };

    fn read(&mut self, alloc: Global) -> Result<Vec<u8>, LogFault> {
        let called = if self.is_stopped {
            Err(io::Error::from(ErrorKind::Other))
        } else {
            let moved = self.file.seek(SeekFrom::Start(0));
            read_front(alloc, &mut self.file, moved, self.end)
        };
        self.count_fault(called)
    }

    fn reserve(&mut self, more: usize) -> Result<(), LogFault> {
        let called = if self.is_stopped {
            Err(io::Error::from(ErrorKind::Other))
        } else {
            self.make_room(more)
        };
        self.count_fault(called)
    }

    fn reserve_renewal(&mut self) -> Result<(), LogFault> {
        let called = if self.is_stopped {
            Err(io::Error::from(ErrorKind::Other))
        } else {
            self.make_renewal_room()
        };
        self.count_fault(called)
    }

    fn reserve_beside(&mut self, len: usize) -> Result<(), LogFault> {
        let called = if self.is_stopped {
            Err(io::Error::from(ErrorKind::Other))
        } else {
            put_zeros(&self.rt, self.folder.as_str(), ROOM, len)
        };
        self.count_fault(called)
    }

    fn release_beside(&mut self) {
        let _ = remove_room(&self.rt, self.folder.as_str());
    }

    fn write(&mut self, more: &[u8]) -> Result<(), LogFault> {
        let called = if self.is_stopped {
            Err(io::Error::from(ErrorKind::Other))
        } else {
            self.append(more)
        };
        self.stop_if_failed(called)
    }

    fn renew(&mut self, all: &[u8]) -> Result<(), LogFault> {
        let called = if self.is_stopped {
            Err(io::Error::from(ErrorKind::Other))
        } else {
            self.replace(all)
        };
        self.stop_if_failed(called)
    }

    fn faults(&self) -> u64 {
        self.faults
    }
}
