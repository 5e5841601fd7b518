//! Reads of files that may be missing or short.

ghost use Rattle.std.specs.Prelude.{◌≡◌, ◌≢◌, ◌≤◌, ◌<◌, Err, IfErr, IfOk, None, Ok, Some, length, take};
ghost use Rattle.std.specs.Io.KnownBytes.{Consumes, IsAtEnd};
ghost use Rattle.std.specs.IoError.{error_kind};

use std::io;
use std::io::{ErrorKind, Read};

/// The result of a call on a file that may be missing: `None` if it is missing. Any other failure is passed on.
pub fn if_there<T: Drop>(called: io::Result<T>) -> io::Result<Option<T>>
    ensures there { IfOk called (λ value. result ≡ Ok (Some value)) }
    ensures missing { IfErr called (λ error.
        error_kind error ≡ ErrorKind.NotFound → result ≡ Ok None) }
    ensures failed { IfErr called (λ error.
        error_kind error ≢ ErrorKind.NotFound → result ≡ Err error) }
{
    match called {
        Ok(value) => Ok(Some(value)),
        Err(error) if error.kind() == ErrorKind::NotFound => Ok(None),
        Err(error) => Err(error),
    }
}

/// Fills a buffer from a file, and answers how many bytes were read: fewer than its length only at the file's end. A
/// failure is passed on.
pub fn fill<S: Read>(file: &mut S, out: &mut [u8]) -> io::Result<usize>
    ensures within { IfOk result (λ n. n ≤ length out.old) }
    ensures end { IfOk result (λ n. n < length out.old → IsAtEnd (S.remaining file.new)) }
    ensures read { IfOk result (λ n.
        Consumes (S.remaining file.old) (S.remaining file.new) (take n out.new)) }
{
    let mut at = 0;
    while at < out.len() {
        let count = file.read(&mut out[at..])?;
        if count == 0 {
            return Ok(at);
        }
        at += count;
    }
    Ok(at)
}
