//! The format of a folder's files, which its file `format` names.

ghost use Rattle.std.specs.Prelude.{◌≡◌, ◌≢◌, Err, IfErr, IfOk, IfSome, Ok, codes, false, true};
ghost use Rattle.std.specs.IoError.{error_kind};

use disk::{fill, if_there, open_regular, replace_file};
use std::alloc::Global;
use std::fs::File;
use std::io;
use std::io::{ErrorKind, Read};
use std::rt::Files as Folders;

/// The text of the file of a folder whose files are of format 3.
const TEXT: [u8; 2] = *b"3\n";

/// Whether a folder has the file that was opened, which must have the text of format 3. Other errors are passed on.
fn names_sums<S: Read + Drop>(opened: io::Result<S>) -> io::Result<bool>
    ensures missing { IfErr opened (λ error.
        error_kind error ≡ ErrorKind.NotFound → result ≡ Ok false) }
    ensures failed { IfErr opened (λ error.
        error_kind error ≢ ErrorKind.NotFound → result ≡ Err error) }
    ensures there { IfOk opened (λ _. IfOk result (λ has. has ≡ true)) }
    ensures text { IfOk opened (λ file. IfSome (S.remaining file) (λ bytes.
        IfOk result (λ _. bytes ≡ codes "3\n"))) }
{
    let Some(mut file) = if_there(opened)? else {
        return Ok(false);
    };
    let mut bytes = [0; TEXT.len() + 1];
    let len = fill(&mut file, &mut bytes)?;
    if &bytes[..len] != &TEXT[..] {
        return Err(io::Error::from(ErrorKind::InvalidData));
    }
    Ok(true)
}

/// Whether the files of a folder are of format 3.
///
/// # Errors
///
/// `InvalidData` if its file `format` names another format; the system's errors.
pub fn has_sums<R: Folders<File = File>>(rt: &R, alloc: Global, folder: &str) -> io::Result<bool> {
    let path = format!(in alloc; "{folder}/format")?;
    names_sums(open_regular(rt, path.as_str()))
}

/// Notes in a folder that its files are of format 3 from now on. A crash leaves the note or none.
///
/// # Errors
///
/// The system's errors.
pub fn give_sums<R: Folders<File = File>>(rt: &R, alloc: Global, folder: &str) -> io::Result<()> {
    let path = format!(in alloc; "{folder}/format")?;
    let beside = format!(in alloc; "{folder}/format.new")?;
    replace_file(rt, folder, beside.as_str(), path.as_str(), &TEXT)
}
