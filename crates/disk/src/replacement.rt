//! Replacement of files: a temporary file is written, forced to the disk and renamed, and then the folder is forced to
//! the disk.

ghost use Rattle.std.specs.Prelude.{◌≡◌, Err, IfErr, OnOk};
ghost use Rattle.std.specs.Io.KnownBytes.{Appends};

use std::fs::{File, OpenFile, OpenOptions};
use std::io::{ErrorKind, Write};
use std::os::unix::fs::OpenOptionsExt;
use std::rt::Files;
use std::{fs, io};

/// The mode of a file that is made: only the owner may read and write it.
pub const OWNER_ALONE: u32 = 0o600;

/// Makes a temporary file. If something has its name, that is removed first.
pub fn create_beside<R: Files>(rt: &R, beside: &str) -> io::Result<R::File> {
    let mut how = OpenOptions::new();
    how.write(true).create_new(true).mode(OWNER_ALONE);
    match how.open(rt, beside) {
        Err(error) if error.kind() == ErrorKind::AlreadyExists => {
            fs::remove_file(rt, beside)?;
            how.open(rt, beside)
        }
        opened => opened,
    }
}

/// Appends bytes to a file, and forces it to the disk.
pub fn write_synced<W: Write + OpenFile>(file: &mut W, bytes: &[u8]) -> io::Result<()>
    ensures { OnOk result (Appends (W.contents file.old) (W.contents file.new) bytes.now) }
{
    file.write_all(bytes)?;
    file.sync_all()
}

/// Forces an opened folder to the disk. A failure to open it is passed on.
fn sync_opened<F: OpenFile + Drop>(opened: io::Result<F>) -> io::Result<()>
    ensures failed { IfErr opened (λ error. result ≡ Err error) }
{
    let folder = opened?;
    folder.sync_all()
}

/// Forces a folder's list of names to the disk.
pub fn sync_folder<R: Files>(rt: &R, folder: &str) -> io::Result<()> {
    sync_opened(File::open(rt, folder))
}

/// Renames a written temporary file to its path. A failure to write it is passed on.
fn put_there<R: Files>(rt: &R, beside: &str, path: &str, written: io::Result<()>) -> io::Result<()>
    ensures failed { IfErr written (λ error. result ≡ Err error) }
{
    written?;
    fs::rename(rt, beside, path)
}

/// Writes a temporary file, and forces it to the disk.
fn write_beside<R: Files>(rt: &R, beside: &str, bytes: &[u8]) -> io::Result<()> {
    let mut file = create_beside(rt, beside)?;
    write_synced(&mut file, bytes)
}

/// Forces a folder to the disk after a temporary file was renamed. If a step before failed, the temporary file is
/// removed and the failure passed on.
fn finish<R: Files>(rt: &R, folder: &str, beside: &str, placed: io::Result<()>) -> io::Result<()>
    ensures failed { IfErr placed (λ error. result ≡ Err error) }
{
    if placed.is_err() {
        let _ = fs::remove_file(rt, beside);
    }
    placed?;
    sync_folder(rt, folder)
}

/// Renames a temporary file to its path, and then forces the folder to the disk. If the temporary file failed to be
/// written, or the rename fails, it is removed and the failure passed on.
pub fn place_file<R: Files>(
    rt: &R,
    folder: &str,
    beside: &str,
    path: &str,
    written: io::Result<()>,
) -> io::Result<()>
    ensures failed { IfErr written (λ error. result ≡ Err error) }
{
    let placed = put_there(rt, beside, path, written);
    finish(rt, folder, beside, placed)
}

/// Makes or replaces a file of a folder, by way of a temporary file beside it. A crash leaves the old bytes or the new
/// ones. If a step before the folder's sync fails, the old bytes are there, and the temporary file is removed.
pub fn replace_file<R: Files>(
    rt: &R,
    folder: &str,
    beside: &str,
    path: &str,
    bytes: &[u8],
) -> io::Result<()> {
    let written = write_beside(rt, beside, bytes);
    place_file(rt, folder, beside, path, written)
}
