//! Files that a put replaces as a whole.

use file_store::{DirFiles, Files, MemFiles};
use std::fs::File;
use std::rt::Files as Folders;

/// Files of which a failed put leaves the old file or the new one. State that must survive a kill is kept in such
/// files.
pub trait AtomicPut: Files {
    ghost whole: { Self.replaces };
}

impl AtomicPut for MemFiles {
    ghost whole = { tt };
}

impl<R: Folders<File = File> + AllocGlobal + Clone + Drop> AtomicPut for DirFiles<R> {
    ghost whole = { tt };
}
