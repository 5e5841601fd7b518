//! The oracle's mark in a folder.

ghost use Rattle.std.specs.Prelude.{◌≡◌, ◌≢◌, ◌≤◌, ◌<◌, ◌^◌, ℕ, Err, IfErr, IfNone, IfOk, IfSome, IsErr, None, Ok, OnErr, OnOk};
ghost use Rattle.std.specs.Io.KnownBytes.{Appends};
ghost use Rattle.std.specs.IoError.{error_kind};
ghost use Rattle.cell_key.specs.Faults.{HasRisen};
ghost use Rattle.oracle.specs.Marks.{IsMark, mark_bytes};

use crate::marks::{MarkFault, MarkStore};
use cell_key::{MOST_STAMP, Stamp};
use disk::{create_beside, fill, if_there, look_at, open_regular, sync_folder, write_synced};
use std::fs::{OpenFile, OpenOptions};
use std::io::{ErrorKind, Read, Write};
use std::rt::Files as Folders;
use std::{fs, io};

/// The length of the mark's file in bytes.
const MARK_BYTES: usize = 8;

/// A mark in the file `oracle.mark` of a folder, as 8 bytes, big-endian. Contracts know nothing of the file's bytes.
///
/// A new mark is written to a second file, `oracle.new`, and synced; that file is renamed over the old one, and the
/// folder is synced. If the machine stops in between, the file has the old mark or the new one. If the write or the
/// rename fails, `oracle.new` is removed.
///
/// The file of the mark before stays as `oracle.old`. The next mark is written to it, so that storing a mark takes no
/// more room on the disk.
///
/// Only the owner may read and write the file. What has its name and is no regular file isn't opened.
#[derive(Drop)]
pub struct DirMark<R> {
    rt: R,
    paths: MarkPaths,
    /// `oracle.old` has the mark before, and isn't the file of the mark.
    has_spare: bool,
    faults: u64,
}

/// The paths of a mark's folder and files.
#[derive(Drop)]
struct MarkPaths {
    folder: String,
    mark: String,
    beside: String,
    spare: String,
}

/// The number of a mark's bytes, if there are eight and the number is at most the greatest stamp.
fn number_of(bytes: &[u8]) -> Option<Stamp>
    ensures some { IfSome result (IsMark bytes.now) }
    ensures none { IfNone result ((number : ℕ) → ¬ IsMark bytes.now number) }
{
    let bytes: [u8; MARK_BYTES] = bytes.try_into().ok()?;
    let number = u64::from_be_bytes(bytes);
    if number > MOST_STAMP {
        return None;
    }
    Some(number)
}

/// Reads a mark; the rest of the file must be the mark.
fn read_number<F: Read>(file: &mut F) -> io::Result<Stamp>
    ensures within { IfOk result (λ number. number < 2 ^ 63) }
    ensures whole { IfOk result (λ number.
        IfSome (F.remaining file.old) (λ bytes. IsMark bytes number)) }
{
    let mut bytes = [0u8; MARK_BYTES + 1];
    let count = fill(file, &mut bytes)?;
    number_of(&bytes[..count]).ok_or(io::Error::from(ErrorKind::InvalidData))
}

/// Reads the mark from a file just opened: 0 if the file doesn't exist. Other errors are passed on.
fn read_mark<F: Read + Drop>(opened: io::Result<F>) -> io::Result<Stamp>
    ensures within { IfOk result (λ number. number < 2 ^ 63) }
    ensures missing { IfErr opened (λ error.
        error_kind error ≡ ErrorKind.NotFound → result ≡ Ok 0) }
    ensures failed { IfErr opened (λ error.
        error_kind error ≢ ErrorKind.NotFound → result ≡ Err error) }
    ensures whole { IfOk opened (λ file. IfSome (F.remaining file) (λ bytes.
        IfOk result (IsMark bytes))) }
{
    match if_there(opened)? {
        Some(mut file) => read_number(&mut file),
        None => Ok(0),
    }
}

/// Appends a mark's bytes to a file and syncs it.
fn write_number<W: Write + OpenFile>(file: &mut W, number: Stamp) -> io::Result<()>
    ensures { OnOk result
        (Appends (W.contents file.old) (W.contents file.new) (mark_bytes number)) }
{
    write_synced(file, &number.to_be_bytes())
}

/// The second file: the spare one, if there is one, else a new one. A spare file that an earlier program left is removed
/// first.
fn second_file<R: Folders>(rt: &R, paths: &MarkPaths, has_spare: bool) -> io::Result<R::File> {
    if !has_spare {
        let _ = if_there(fs::remove_file(rt, paths.spare.as_str()))?;
        return create_beside(rt, paths.beside.as_str());
    }
    fs::rename(rt, paths.spare.as_str(), paths.beside.as_str())?;
    look_at(rt, paths.beside.as_str())?;
    let mut how = OpenOptions::new();
    how.write(true);
    how.open(rt, paths.beside.as_str())
}

/// Makes a spare file, and syncs it.
fn make_spare<R: Folders>(rt: &R, spare: &str) -> io::Result<()> {
    let mut file = create_beside(rt, spare)?;
    write_number(&mut file, 0)
}

/// Renames the second file over the mark's file. If the second file was the spare one, the file of the mark before
/// becomes the spare file, else one is made: so that each is this program's. Answers whether there is one. An error of
/// the write before is passed on instead.
fn put_there<R: Folders>(
    rt: &R,
    paths: &MarkPaths,
    has_spare: bool,
    written: io::Result<()>,
) -> io::Result<bool>
    ensures failed { IfErr written (λ error. result ≡ Err error) }
{
    written?;
    let (mark, spare) = (paths.mark.as_str(), paths.spare.as_str());
    let is_kept = has_spare && fs::hard_link(rt, mark, spare).is_ok();
    fs::rename(rt, paths.beside.as_str(), mark)?;
    Ok(is_kept || make_spare(rt, spare).is_ok())
}

/// Writes a mark to the second file, and renames that over the mark's file. Answers whether there is a spare file.
fn place_mark<R: Folders>(
    rt: &R,
    paths: &MarkPaths,
    has_spare: bool,
    number: Stamp,
) -> io::Result<bool> {
    let mut file = second_file(rt, paths, has_spare)?;
    let written = write_number(&mut file, number);
    put_there(rt, paths, has_spare, written)
}

/// Syncs the folder after the rename. If the write or the rename failed, the second file is removed, and the error is
/// passed on.
fn finish<R: Folders>(rt: &R, paths: &MarkPaths, placed: io::Result<bool>) -> io::Result<bool>
    ensures failed { IfErr placed (λ error. result ≡ Err error) }
{
    if placed.is_err() {
        let _ = fs::remove_file(rt, paths.beside.as_str());
    }
    let has_spare = placed?;
    sync_folder(rt, paths.folder.as_str())?;
    Ok(has_spare)
}

/// Replaces the mark's file by a new mark. Answers whether there is a spare file for the next one. If the write or the
/// rename fails, the second file is removed.
fn write_mark<R: Folders>(
    rt: &R,
    paths: &MarkPaths,
    has_spare: bool,
    number: Stamp,
) -> io::Result<bool> {
    let placed = place_mark(rt, paths, has_spare, number);
    finish(rt, paths, placed)
}

impl<R: Folders + AllocGlobal + Drop> DirMark<R> {
    /// The mark of a folder.
    ///
    /// # Errors
    ///
    /// A device's fault if there is no such folder, or an allocation failed.
    pub fn open(rt: R, folder: &str) -> Result<DirMark<R>, MarkFault>
        ensures { IfOk result (λ mark. mark.faults ≡ 0) }
    {
        open_folder(rt, folder).map_err(|_| MarkFault)
    }

    /// Passes on a call's result; an error becomes a fault and is counted.
    fn count_fault<T: Drop>(&mut self, called: io::Result<T>) -> Result<T, MarkFault>
        ensures later { self.old.faults ≤ self.new.faults }
        ensures device { OnErr result (HasRisen self.old.faults self.new.faults) }
        ensures told { OnOk result (self.new.faults ≡ self.old.faults) }
        ensures same { IfOk result (λ value. called ≡ Ok value) }
        ensures failed { OnErr called (IsErr result) }
    {
        match called {
            Ok(value) => Ok(value),
            Err(_) => {
                self.faults = self.faults.saturating_add(1);
                Err(MarkFault)
            }
        }
    }
}

/// The mark of a folder, if the folder exists.
fn open_folder<R: Folders + AllocGlobal + Drop>(rt: R, folder: &str) -> io::Result<DirMark<R>>
    ensures { IfOk result (λ mark. mark.faults ≡ 0) }
{
    let alloc = rt.alloc();
    if !fs::metadata(&rt, folder)?.is_dir() {
        return Err(io::Error::from(ErrorKind::NotADirectory));
    }
    let paths = MarkPaths {
        mark: format!(in alloc; "{folder}/oracle.mark")?,
        beside: format!(in alloc; "{folder}/oracle.new")?,
        spare: format!(in alloc; "{folder}/oracle.old")?,
        folder: String::from_str(alloc, folder)?,
    };
    Ok(DirMark {
        rt,
        paths,
        has_spare: false,
        faults: 0,
    })
}

impl<R: Folders + AllocGlobal + Drop> MarkStore for DirMark<R> {
    ghost mark = { λ _. None };

    ghost faults = { λ mark. mark.faults };

    fn load(&mut self) -> Result<Stamp, MarkFault> {
        let called = read_mark(open_regular(&self.rt, self.paths.mark.as_str()));
        self.count_fault(called)
    }

    fn store(&mut self, number: Stamp) -> Result<(), MarkFault> {
        let has_spare = self.has_spare;
        self.has_spare = false;
        let called = write_mark(&self.rt, &self.paths, has_spare, number);
        self.has_spare = self.count_fault(called)?;
        Ok(())
    }

    fn faults(&self) -> u64 {
        self.faults
    }
}
