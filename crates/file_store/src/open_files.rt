//! Files of a folder that are kept open, so that reading one again need not open it again.

ghost use Rattle.std.specs.Prelude.{◌≡◌, ◌≤◌, ◌<◌, ◌^◌, IfOk, IfSome, IsNone, None, length, nat_eq};
ghost use Rattle.std.specs.Map.{lookup};
ghost use Rattle.std.specs.Io.KnownBytes.{IsAtEnd};

use disk::fill;
use lru::LruCache;
use std::alloc::{AllocError, Global};
use std::io;
use std::io::{Read, Seek, SeekFrom};
use std::num::NonZeroUsize;

/// The most files that are kept open.
const MOST_FILES: usize = 128;

/// The files that were read last, by their names: at most 128.
#[derive(Drop)]
pub(crate) struct OpenFiles<S> {
    files: LruCache<u64, S>,
}

/// Reads from an offset of an open file into a buffer, and answers how many bytes were read: fewer than its length only
/// at the file's end. A failure is passed on.
pub(crate) fn read_part<S: Read + Seek>(
    file: &mut S,
    offset: u64,
    out: &mut [u8],
) -> io::Result<usize>
    ensures within { IfOk result (λ n. n ≤ length out.old) }
    ensures end { offset < 2 ^ 63 → IfOk result (λ n.
        n < length out.old → IsAtEnd (S.remaining file.new)) }
{
    if offset > i64::MAX as u64 {
        return Ok(0);
    }
    file.seek(SeekFrom::Start(offset))?;
    fill(file, out)
}

impl<S: Read + Seek + Drop> OpenFiles<S> {
    /// No files yet.
    pub(crate) fn new(alloc: Global) -> Result<OpenFiles<S>, AllocError> {
        let most = NonZeroUsize::new(MOST_FILES).unwrap();
        let files = LruCache::sparse(alloc, most)?;
        Ok(OpenFiles { files })
    }

    /// Reads in the same way from the file of this name, if it is kept open.
    pub(crate) fn read(
        &mut self,
        name: u64,
        offset: u64,
        out: &mut [u8],
    ) -> Option<io::Result<usize>>
        ensures within { IfSome result (λ read. IfOk read (λ n. n ≤ length out.old)) }
        ensures end { offset < 2 ^ 63 → IfSome result (λ read. IfOk read (λ n. n < length out.old →
            IfSome (lookup (nat_eq name) self.new.files.entries) (λ file.
            IsAtEnd (S.remaining file)))) }
        ensures missing { IsNone result → lookup (nat_eq name) self.new.files.entries ≡ None }
    {
        let Some(file) = self.files.get_mut(&name) else {
            return None;
        };
        Some(read_part(file, offset, out))
    }

    /// Keeps a file open, and closes the least recently read one if there are 128 already. Without memory for it, it is
    /// closed.
    pub(crate) fn keep(&mut self, name: u64, file: S)
        ensures { IfSome (lookup (nat_eq name) self.new.files.entries) (λ kept. kept ≡ file) }
    {
        let _kept: Result<_, _> = self.files.put(name, file);
    }

    /// Closes a file, if it is kept open.
    pub(crate) fn close(&mut self, name: u64) {
        let _ = self.files.pop(&name);
    }
}
