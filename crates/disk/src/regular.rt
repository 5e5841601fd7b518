//! Regular files: what has a file's name and is something else, such as a symbolic link, isn't opened.

ghost use Rattle.std.specs.Prelude.{◌≡◌, ◌↔◌, Err, IfErr, IfOk, IsOk, Ok};
ghost use Rattle.std.specs.Fs.{IsFile, file_type};

use std::fs::{File, Metadata};
use std::io::ErrorKind;
use std::rt::Files;
use std::{fs, io};

/// The metadata of a path if it is a regular file. A failure is passed on.
fn regular(found: io::Result<Metadata>) -> io::Result<Metadata>
    ensures regular { IfOk found (λ metadata. IsOk result ↔ IsFile (file_type metadata)) }
    ensures same { IfOk result (λ metadata. found ≡ Ok metadata) }
    ensures failed { IfErr found (λ error. result ≡ Err error) }
{
    let metadata = found?;
    if !metadata.is_file() {
        return Err(io::Error::from(ErrorKind::InvalidInput));
    }
    Ok(metadata)
}

/// The metadata of a regular file.
///
/// # Errors
///
/// `InvalidInput` for anything else, also for a symbolic link; the system's errors.
pub fn look_at<R: Files>(rt: &R, path: &str) -> io::Result<Metadata> {
    regular(fs::symlink_metadata(rt, path))
}

/// Opens a regular file to read it.
///
/// # Errors
///
/// `InvalidInput` for anything else, also for a symbolic link; the system's errors.
pub fn open_regular<R: Files>(rt: &R, path: &str) -> io::Result<R::File> {
    look_at(rt, path)?;
    File::open(rt, path)
}
