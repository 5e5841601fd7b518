//! Files in memory.

ghost use Rattle.std.specs.Prelude.{None, ⊤};

use file_store::{FileFault, Files, MemFiles, MemWriting, read_whole};
use std::alloc::Global;
use std::test::Fail;

/// Files that record their reads.
#[derive(Drop)]
pub(super) struct Recorder {
    files: MemFiles,
    /// For each read the file's name, the offset and the length of the buffer.
    pub(super) reads: Vec<(u64, u64, usize)>,
}

impl Recorder {
    pub(super) fn new(alloc: Global) -> Recorder {
        Recorder {
            files: MemFiles::new(alloc),
            reads: Vec::new(alloc),
        }
    }
}

impl Files for Recorder {
    ghost contents = { λ _. None };

    ghost faults = { λ _. 0 };

    ghost replaces = { ⊥ };

    type Writing = MemWriting;

    ghost writes_to = { λ writing. writing.name };

    ghost has = { λ _ _. ⊤ };

    fn begin(&mut self, name: u64) -> Result<MemWriting, FileFault> {
        self.files.begin(name)
    }

    fn push(&mut self, writing: &mut MemWriting, bytes: &[u8]) -> Result<(), FileFault> {
        self.files.push(writing, bytes)
    }

    fn finish(&mut self, writing: MemWriting) -> Result<(), FileFault> {
        self.files.finish(writing)
    }

    fn give_up(&mut self, writing: MemWriting) {
        self.files.give_up(writing);
    }

    fn size(&mut self, name: u64) -> Result<Option<u64>, FileFault> {
        self.files.size(name)
    }

    fn read_at(&mut self, name: u64, offset: u64, out: &mut [u8]) -> Result<usize, FileFault> {
        self.reads.push((name, offset, out.len()))?;
        self.files.read_at(name, offset, out)
    }

    fn list(&mut self, names: &mut Vec<u64>) -> Result<(), FileFault> {
        self.files.list(names)
    }

    fn remove(&mut self, name: u64) -> Result<(), FileFault> {
        self.files.remove(name)
    }

    fn faults(&self) -> u64 {
        0
    }
}

/// The file 7 is read in one call, and the file 3 doesn't exist.
#[test]
fn reads_a_file_once(rt: HostRuntime) -> Result<(), Fail> {
    let mut files = Recorder::new(rt.alloc());
    files.put(7, b"seven")?;
    assert!(rt; read_whole(rt.alloc(), &mut files, 7)?.is_some());
    assert!(rt; read_whole(rt.alloc(), &mut files, 3)?.is_none());
    assert!(rt; files.reads.as_slice() == [(7, 0, 5)].as_slice());
    Ok(())
}
