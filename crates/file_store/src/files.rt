//! Stores of files under numbers: their contracts, and the faults of their calls.

ghost use Rattle.std.specs.Prelude.{◌≡◌, ◌≤◌, ℕ, List, [], ◌++◌, length, Option, Some, option_map, OnOk, OnErr, IfOk, IfSome, IsErrOf};
ghost use Rattle.std.specs.FinMap as map;
ghost use Rattle.file_store.specs.Store.{Contents, HasFaultCause, KeepsOthers, MayHaveFile, MayLack, Reads, bytes_of, with_file, without_file};
ghost use Rattle.file_store.specs.Faults.{fault_text};
ghost use Rattle.file_store.specs.declared.files.FileFault.TheVariants.{Memory};

use std::alloc::{AllocError, AllocFailed};
use std::error::Error;
use std::fmt;

/// Why a call on files failed.
#[derive(Clone, Copy, Debug, PartialEq, Eq)]
pub enum FileFault {
    /// A device failed. The count of faults has increased.
    Device,
    /// There was no memory.
    Memory,
}

impl fmt::Display for FileFault {
    ghost output = { λ fault. Some (fault_text fault) };

    fn fmt<W: fmt::Write>(&self, f: &mut fmt::Formatter<W>) -> fmt::Result {
        match self {
            FileFault::Device => f.write_str("device failed"),
            FileFault::Memory => f.write_str("no memory"),
        }
    }
}

impl Error for FileFault {}

impl From<AllocError> for FileFault {
    ghost from_gives = { λ _ fault. fault ≡ Memory };

    fn from(_error: AllocError) -> FileFault {
        FileFault::Memory
    }
}

impl<T: Drop> From<AllocFailed<T>> for FileFault {
    ghost from_gives = { λ _ fault. fault ≡ Memory };

    fn from(_error: AllocFailed<T>) -> FileFault {
        FileFault::Memory
    }
}

/// Files under numbers, which are their names. Nobody else writes to them.
pub trait Files {
    /// The bytes of each file, or `None` if they are unknown, as on a real disk.
    ghost contents: { Self → Option Contents };

    /// How often a device has failed; it stops at the greatest number.
    ghost faults: { Self → ℕ };

    /// Whether a `put` or `finish` that fails leaves the old file or the new one, and nothing in between.
    ghost replaces: { Type 0 };

    /// A file that is written in pieces. Until it is finished nothing lists it, reads it or has its size.
    type Writing: Drop;

    /// The name that it will have.
    ghost writes_to: { Self.Writing → ℕ };

    /// It has these bytes so far. One that doesn't say what it has, as on a real disk, has any.
    ghost has: { Self.Writing → List ℕ → Type 0 };

    /// Begins a file without bytes. One that isn't finished is to be given up.
    fn begin(&mut self, name: u64) -> Result<Self::Writing, FileFault>
        ensures named { IfOk result (λ writing. writes_to writing ≡ name) }
        ensures empty { IfOk result (λ writing. has writing []) }
        ensures same { contents self.new ≡ contents self.old }
        ensures cause { HasFaultCause (faults self.old) (faults self.new) result };

    /// Appends bytes to a file that was begun. After an `Err` it may have any bytes, and is to be given up.
    fn push(&mut self, writing: &mut Self::Writing, bytes: &[u8]) -> Result<(), FileFault>
        ensures pushed { OnOk result ((before : List ℕ)
            → has writing.old before → has writing.new (before ++ bytes.now)) }
        ensures named { writes_to writing.new ≡ writes_to writing.old }
        ensures same { contents self.new ≡ contents self.old }
        ensures cause { HasFaultCause (faults self.old) (faults self.new) result };

    /// Makes or replaces a file: it has the bytes of the one that was begun. After `Device` any bytes may be under its
    /// name. After `Memory` all files are unchanged. All other files are unchanged, whatever the result.
    fn finish(&mut self, writing: Self::Writing) -> Result<(), FileFault>
        ensures ok { OnOk result ((image : List ℕ) → has writing image
            → contents self.new ≡ with_file (writes_to writing) image (contents self.old)) }
        ensures others { KeepsOthers (writes_to writing) (contents self.old) (contents self.new) }
        ensures whole { replaces → OnErr result ((image : List ℕ) → has writing image
            → MayHaveFile (writes_to writing) image (contents self.old) (contents self.new)) }
        ensures memory { IsErrOf result Memory → contents self.new ≡ contents self.old }
        ensures cause { HasFaultCause (faults self.old) (faults self.new) result };

    /// Gives up a file that was begun.
    fn give_up(&mut self, writing: Self::Writing)
        ensures same { contents self.new ≡ contents self.old }
        ensures told { faults self.new ≡ faults self.old };

    /// Makes or replaces a file. After `Device` any bytes may be under this name, and all other files are unchanged.
    /// After `Memory` all files are unchanged.
    fn put(&mut self, name: u64, bytes: &[u8]) -> Result<(), FileFault>
        ensures ok { OnOk result (contents self.new
            ≡ with_file name bytes.now (contents self.old)) }
        ensures err { OnErr result (KeepsOthers name (contents self.old) (contents self.new)) }
        ensures whole { replaces → OnErr result
            (MayHaveFile name bytes.now (contents self.old) (contents self.new)) }
        ensures memory { IsErrOf result Memory → contents self.new ≡ contents self.old }
        ensures cause { HasFaultCause (faults self.old) (faults self.new) result }
    {
        let mut writing = self.begin(name)?;
        if let Err(fault) = self.push(&mut writing, bytes) {
            self.give_up(writing);
            return Err(fault);
        }
        self.finish(writing)
    }

    /// The size of a file in bytes, if it exists.
    fn size(&mut self, name: u64) -> Result<Option<u64>, FileFault>
        ensures ok { IfOk result (λ size.
            IfSome (contents self.old) (λ m. size ≡ option_map length (map.get m name))) }
        ensures same { contents self.new ≡ contents self.old }
        ensures cause { HasFaultCause (faults self.old) (faults self.new) result };

    /// Reads from an offset into a buffer, and answers how many bytes were read: fewer than the buffer's length only at
    /// the file's end, and 0 for a missing file. After an `Err` the buffer may have any bytes.
    fn read_at(&mut self, name: u64, offset: u64, out: &mut [u8]) -> Result<usize, FileFault>
        ensures within { IfOk result (λ n. n ≤ length out.old) }
        ensures ok { IfOk result (λ n.
            IfSome (contents self.old) (λ m. Reads (bytes_of m name) offset out.old out.new n)) }
        ensures same { contents self.new ≡ contents self.old }
        ensures cause { HasFaultCause (faults self.old) (faults self.new) result };

    /// Appends the names of all files in ascending order. After an `Err` the list is unchanged.
    fn list(&mut self, names: &mut Vec<u64>) -> Result<(), FileFault>
        ensures ok { OnOk result (IfSome (contents self.old) (λ m.
            names.new.items ≡ names.old.items ++ map.keys m)) }
        ensures err { OnErr result (names.new.items ≡ names.old.items) }
        ensures same { contents self.new ≡ contents self.old }
        ensures cause { HasFaultCause (faults self.old) (faults self.new) result };

    /// Removes a file, if it exists. After an `Err` it may be removed or not.
    fn remove(&mut self, name: u64) -> Result<(), FileFault>
        ensures ok { OnOk result (contents self.new ≡ without_file name (contents self.old)) }
        ensures err { OnErr result (MayLack name (contents self.old) (contents self.new)) }
        ensures cause { HasFaultCause (faults self.old) (faults self.new) result };

    /// How often a device has failed; it stops at the greatest number.
    fn faults(&self) -> u64
        ensures { result ≡ faults self.now };
}
