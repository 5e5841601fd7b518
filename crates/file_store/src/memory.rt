//! Files in memory.

ghost use Rattle.std.specs.Prelude.{⊤, ◌≡◌, ◌≤◌, Some, Ok, length, option_map, IfErr, OnErr, OnOk, IsOk, IfOk};
ghost use Rattle.std.specs.FinMap as map;
ghost use Rattle.file_store.specs.Store.{KeepsOthers, Reads, bytes_of, part, with_front};

use crate::files::{FileFault, Files};
use std::alloc::Global;
use std::collections::BTreeMap;
use std::marker::Model;

/// Files in memory. Contracts know their bytes, and they have no device that could fail.
#[derive(Drop)]
pub struct MemFiles {
    alloc: Global,
    files: BTreeMap<u64, Vec<u8>>,
}

impl Model for MemFiles {
    ghost use Rattle.std.specs.Prelude.{List, ℕ};
    ghost use Rattle.std.specs.Ordering.{nat_cmp};
    ghost use Rattle.std.specs.FinMap as map;
    ghost use Rattle.std.specs.Coded.{coded_ℕ, coded_list};
    ghost use Rattle.file_store.specs.View.{contents_of};

    ghost Value = { map.FinMap nat_cmp (List ℕ) };

    ghost coded = { map.code coded_ℕ (coded_list coded_ℕ) };

    ghost view = { λ a. contents_of a.files.entries };
}

impl MemFiles {
    /// No files.
    pub fn new(alloc: Global) -> MemFiles
        ensures { result ≡ map.empty }
    {
        MemFiles {
            alloc,
            files: BTreeMap::new(alloc),
        }
    }
}

/// A file in memory that is being written.
#[derive(Drop)]
pub struct MemWriting {
    name: u64,
    bytes: Vec<u8>,
}

impl Files for MemFiles {
    type Writing = MemWriting;

    ghost writes_to = { λ writing. writing.name };

    ghost has = { λ writing bytes. writing.bytes.items ≡ bytes };

    ghost contents = { λ files. Some files };

    ghost faults = { λ _. 0 };

    ghost replaces = { ⊤ };

    fn put(&mut self, name: u64, bytes: &[u8]) -> Result<(), FileFault>
        ensures ok { OnOk result (self.new ≡ map.insert self.old name bytes.now) }
        ensures err { OnErr result (self.new ≡ self.old) }
        ensures memory { IfErr result (λ fault. fault ≡ FileFault.Memory) }
    {
        let copy = Vec::from_slice(self.alloc, bytes)?;
        self.finish(MemWriting { name, bytes: copy })
    }

    fn begin(&mut self, name: u64) -> Result<MemWriting, FileFault> {
        Ok(MemWriting {
            name,
            bytes: Vec::new(self.alloc),
        })
    }

    fn push(&mut self, writing: &mut MemWriting, bytes: &[u8]) -> Result<(), FileFault> {
        writing.bytes.extend_from_slice(bytes)?;
        Ok(())
    }

    fn finish(&mut self, writing: MemWriting) -> Result<(), FileFault>
        ensures ok { OnOk result
            (self.new ≡ map.insert self.old writing.name writing.bytes.items) }
        ensures err { OnErr result (self.new ≡ self.old) }
        ensures others { KeepsOthers writing.name (Some self.old) (Some self.new) }
        ensures memory { IfErr result (λ fault. fault ≡ FileFault.Memory) }
    {
        let MemWriting { name, mut bytes } = writing;
        bytes.shrink_to_fit();
        let _ = self.files.insert(name, bytes)?;
        Ok(())
    }

    fn give_up(&mut self, _writing: MemWriting) {}

    fn size(&mut self, name: u64) -> Result<Option<u64>, FileFault>
        ensures size { result ≡ Ok (option_map length (map.get self.old name)) }
        ensures same { self.new ≡ self.old }
    {
        match self.files.get(&name) {
            Some(bytes) => Ok(Some(bytes.len() as u64)),
            None => Ok(None),
        }
    }

    fn read_at(&mut self, name: u64, offset: u64, out: &mut [u8]) -> Result<usize, FileFault>
        ensures ok { IsOk result }
        ensures within { IfOk result (λ n. n ≤ length out.old) }
        ensures read { IfOk result (Reads (bytes_of self.old name) offset out.old out.new) }
        ensures same { self.new ≡ self.old }
    {
        let Some(bytes) = self.files.get(&name) else {
            return Ok(0);
        };
        Ok(read_into(bytes.as_slice(), offset, out))
    }

    fn list(&mut self, names: &mut Vec<u64>) -> Result<(), FileFault> {
        names.reserve(self.files.len())?;
        for name in self.files.keys() {
            names.push_reserved(*name);
        }
        Ok(())
    }

    fn remove(&mut self, name: u64) -> Result<(), FileFault>
        ensures ok { IsOk result }
        ensures removed { self.new ≡ map.remove self.old name }
    {
        let _ = self.files.remove(&name);
        Ok(())
    }

    fn faults(&self) -> u64 {
        0
    }
}

/// Copies a file's bytes from an offset on into a buffer, and answers how many were copied.
fn read_into(file: &[u8], offset: u64, out: &mut [u8]) -> usize
    ensures count { result ≡ length (part file.now offset (length out.old)) }
    ensures read { out.new ≡ with_front (part file.now offset (length out.old)) out.old }
{
    let start = if offset < file.len() as u64 {
        offset as usize
    } else {
        file.len()
    };
    let rest = &file[start..];
    let len = rest.len().min(out.len());
    out[..len].copy_from_slice(&rest[..len]);
    len
}
