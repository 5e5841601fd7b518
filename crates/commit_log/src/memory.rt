//! A log in memory.

ghost use Rattle.std.specs.Prelude.{◌≡◌, ◌++◌, ◌∷◌, [], IfErr, IfOk, IsOk, OnErr, OnOk};
ghost use Rattle.commit_log.specs.Frames.{IsBody, bytes_of};
ghost use Rattle.commit_log.specs.Memory.{recorded};
ghost use Rattle.commit_log.specs.Records.{any_root, spelled_record};

use crate::faults::LogFault;
use crate::logs::Log;
use crate::records::{RecordKind, record_of};
use cell_key::Stamp;
use std::alloc::{AllocError, Global};

/// A log in memory. Its records are known, and it has no device that could fail.
#[derive(Drop)]
pub struct MemLog {
    alloc: Global,
    records: Vec<Vec<u8>>,
}

impl MemLog {
    /// A log over any root.
    pub fn new(alloc: Global) -> Result<MemLog, AllocError>
        ensures { IfOk result (λ log. recorded log ≡ any_root ∷ []) }
    {
        let records = alone(alloc, RecordKind::AnyRoot, 0, &[])?;
        Ok(MemLog { alloc, records })
    }
}

/// A list of this record alone.
fn alone(
    alloc: Global,
    kind: RecordKind,
    stamp: Stamp,
    body: &[u8],
) -> Result<Vec<Vec<u8>>, AllocError>
    ensures { IfOk result (λ records.
        bytes_of records.items ≡ spelled_record kind stamp body.now ∷ []) }
{
    let mut records = Vec::with_capacity(alloc, 1)?;
    records.push(record_of(alloc, kind, stamp, body)?)?;
    Ok(records)
}

impl Log for MemLog {
    ghost use Rattle.std.specs.Prelude.{◌≡◌};
    ghost use Rattle.commit_log.specs.Memory.{recorded};

    ghost holds = { λ log records. recorded log ≡ records };

    ghost refuses = { λ _ _. ⊥ };

    ghost faults = { λ _. 0 };

    fn reserve(&mut self, _more: usize) -> Result<(), LogFault>
        ensures done { IsOk result }
        ensures same { self.new ≡ self.old }
    {
        Ok(())
    }

    fn reserve_renewal(&mut self) -> Result<(), LogFault>
        ensures done { IsOk result }
        ensures same { self.new ≡ self.old }
    {
        Ok(())
    }

    fn reserve_beside(&mut self, _len: usize) -> Result<(), LogFault>
        ensures done { IsOk result }
        ensures same { self.new ≡ self.old }
    {
        Ok(())
    }

    fn release_beside(&mut self)
        ensures { self.new ≡ self.old }
    {}

    fn append(&mut self, kind: RecordKind, stamp: Stamp, body: &[u8]) -> Result<(), LogFault>
        requires { IsBody body.now }
        ensures ok { OnOk result (recorded self.new
            ≡ recorded self.old ++ spelled_record kind stamp body.now ∷ []) }
        ensures err { OnErr result (recorded self.new ≡ recorded self.old) }
        ensures memory { IfErr result (λ fault. fault ≡ LogFault.Memory) }
    {
        let bytes = record_of(self.alloc, kind, stamp, body)?;
        self.records.push(bytes)?;
        Ok(())
    }

    fn records(&mut self) -> Result<Vec<Vec<u8>>, LogFault>
        ensures ok { IfOk result (λ found. bytes_of found.items ≡ recorded self.old) }
        ensures same { recorded self.new ≡ recorded self.old }
        ensures memory { IfErr result (λ fault. fault ≡ LogFault.Memory) }
    {
        copy_of(self.alloc, &self.records)
    }

    fn renew(&mut self, kind: RecordKind, stamp: Stamp, body: &[u8]) -> Result<(), LogFault>
        requires { IsBody body.now }
        ensures ok { OnOk result (recorded self.new ≡ spelled_record kind stamp body.now ∷ []) }
        ensures err { OnErr result (recorded self.new ≡ recorded self.old) }
        ensures memory { IfErr result (λ fault. fault ≡ LogFault.Memory) }
    {
        self.records = alone(self.alloc, kind, stamp, body)?;
        Ok(())
    }

    fn faults(&self) -> u64 {
        0
    }
}

/// A copy of records.
fn copy_of(alloc: Global, records: &[Vec<u8>]) -> Result<Vec<Vec<u8>>, LogFault>
    ensures ok { IfOk result (λ found. bytes_of found.items ≡ bytes_of records.now) }
    ensures memory { IfErr result (λ fault. fault ≡ LogFault.Memory) }
{
    let mut found = Vec::with_capacity(alloc, records.len())?;
    for payload in records {
        found.push(Vec::from_slice(alloc, payload)?)?;
    }
    Ok(found)
}
