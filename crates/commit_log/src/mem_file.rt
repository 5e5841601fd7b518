//! A log's file in memory.

ghost use Rattle.std.specs.Prelude.{◌≡◌, ◌≤◌, [], Some, false, true};
ghost use Rattle.commit_log.specs.Faults.{HasRisen};

use crate::faults::LogFault;
use crate::files::LogFile;
use std::alloc::Global;

/// A file in memory. Its bytes are known. A write or renewal fails if its allocation does; then the file takes no more
/// bytes.
#[derive(Drop)]
pub struct MemFile {
    bytes: Vec<u8>,
    is_stopped: bool,
    faults: u64,
}

impl MemFile {
    /// A file of these bytes.
    pub fn new(bytes: Vec<u8>) -> MemFile
        ensures bytes { result.bytes ≡ bytes }
        ensures goes { result.is_stopped ≡ false }
        ensures faults { result.faults ≡ 0 }
    {
        MemFile {
            bytes,
            is_stopped: false,
            faults: 0,
        }
    }

    /// Stops the file and counts a fault of the device.
    fn fail(&mut self) -> LogFault
        ensures fault { result ≡ LogFault.Device }
        ensures same { self.new.bytes ≡ self.old.bytes }
        ensures stops { self.new.is_stopped ≡ true }
        ensures risen { HasRisen self.old.faults self.new.faults }
        ensures later { self.old.faults ≤ self.new.faults }
    {
        self.is_stopped = true;
        self.faults = self.faults.saturating_add(1);
        LogFault::Device
    }
}

impl LogFile for MemFile {
    ghost use Rattle.std.specs.Prelude.{◌≡◌, Some, true};

    ghost bytes = { λ file. Some file.bytes.items };

    ghost is_stopped = { λ file. file.is_stopped ≡ true };

    ghost faults = { λ file. file.faults };

    fn read(&mut self, alloc: Global) -> Result<Vec<u8>, LogFault> {
        Ok(Vec::from_slice(alloc, &self.bytes)?)
    }

    fn reserve(&mut self, _more: usize) -> Result<(), LogFault> {
        Ok(())
    }

    fn reserve_renewal(&mut self) -> Result<(), LogFault> {
        Ok(())
    }

    fn reserve_beside(&mut self, _len: usize) -> Result<(), LogFault> {
        Ok(())
    }

    fn release_beside(&mut self) {}

    fn write(&mut self, more: &[u8]) -> Result<(), LogFault> {
        if self.is_stopped || self.bytes.extend_from_slice(more).is_err() {
            return Err(self.fail());
        }
        Ok(())
    }

    fn renew(&mut self, all: &[u8]) -> Result<(), LogFault> {
        if self.is_stopped {
            return Err(self.fail());
        }
        let Ok(bytes) = Vec::from_slice(*self.bytes.allocator(), all) else {
            return Err(self.fail());
        };
        self.bytes = bytes;
        Ok(())
    }

    fn faults(&self) -> u64 {
        self.faults
    }
}
