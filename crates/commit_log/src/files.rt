//! The file under a log: its contract.

ghost use Rattle.std.specs.Prelude.{◌≡◌, ℕ, List, Option, IfErr, IfOk, IfSome, IsErr, IsErrOf, OnErr, OnOk};
ghost use Rattle.commit_log.specs.Faults.{HasFaultCause};
ghost use Rattle.commit_log.specs.Files.{GrowsInPart, MayBeAll, with_all, with_more};

use crate::faults::LogFault;
use std::alloc::Global;

/// A file that is appended to, or replaced as a whole. Nobody else writes it. After a failed write or renewal it takes
/// no more bytes until it is reopened, since the bytes on the device are unknown.
pub trait LogFile {
    /// Its bytes; `None` if they are unknown, as on a real disk.
    ghost bytes: { Self → Option (List ℕ) };

    /// An earlier write or renewal failed.
    ghost is_stopped: { Self → Type 0 };

    /// How often a device has failed, up to the greatest number.
    ghost faults: { Self → ℕ };

    /// All bytes.
    fn read(&mut self, alloc: Global) -> Result<Vec<u8>, LogFault>
        ensures ok { IfOk result (λ found.
            IfSome (bytes self.old) (λ held. found.items ≡ held)) }
        ensures same { bytes self.new ≡ bytes self.old }
        ensures stays { is_stopped self.old → is_stopped self.new }
        ensures intact { ¬ IsErrOf result LogFault.Damaged }
        ensures taken { ¬ IsErrOf result LogFault.Refused }
        ensures cause { HasFaultCause (faults self.old) (faults self.new) result };

    /// Makes room behind its bytes for so many more, if it is a file that has room. The bytes are unchanged.
    fn reserve(&mut self, more: usize) -> Result<(), LogFault>
        ensures same { bytes self.new ≡ bytes self.old }
        ensures stays { is_stopped self.old → is_stopped self.new }
        ensures intact { ¬ IsErrOf result LogFault.Damaged }
        ensures taken { ¬ IsErrOf result LogFault.Refused }
        ensures cause { HasFaultCause (faults self.old) (faults self.new) result };

    /// Makes room for a renewal by at most 4,096 bytes, if it is a file that has room. The bytes are unchanged.
    fn reserve_renewal(&mut self) -> Result<(), LogFault>
        ensures same { bytes self.new ≡ bytes self.old }
        ensures stays { is_stopped self.old → is_stopped self.new }
        ensures intact { ¬ IsErrOf result LogFault.Damaged }
        ensures taken { ¬ IsErrOf result LogFault.Refused }
        ensures cause { HasFaultCause (faults self.old) (faults self.new) result };

    /// Makes room for so many bytes on its device beside its own, if it is a file that has room. Nothing else is written
    /// there until `release_beside`. The bytes are unchanged.
    fn reserve_beside(&mut self, len: usize) -> Result<(), LogFault>
        ensures same { bytes self.new ≡ bytes self.old }
        ensures stays { is_stopped self.old → is_stopped self.new }
        ensures intact { ¬ IsErrOf result LogFault.Damaged }
        ensures taken { ¬ IsErrOf result LogFault.Refused }
        ensures cause { HasFaultCause (faults self.old) (faults self.new) result };

    /// Gives back the room beside its own. If the device fails, the room stays taken. The bytes are unchanged.
    fn release_beside(&mut self)
        ensures same { bytes self.new ≡ bytes self.old }
        ensures stays { is_stopped self.old → is_stopped self.new }
        ensures told { faults self.new ≡ faults self.old };

    /// Appends bytes, and forces them to the disk. After an `Err` a prefix of them may have been appended.
    fn write(&mut self, more: &[u8]) -> Result<(), LogFault>
        ensures ok { OnOk result (bytes self.new ≡ with_more more.now (bytes self.old)) }
        ensures err { OnErr result (GrowsInPart more.now (bytes self.old) (bytes self.new)) }
        ensures stops { OnErr result (is_stopped self.new) }
        ensures refused { is_stopped self.old → IsErr result }
        ensures still { is_stopped self.old → bytes self.new ≡ bytes self.old }
        ensures fault { IfErr result (λ fault. fault ≡ LogFault.Device) }
        ensures cause { HasFaultCause (faults self.old) (faults self.new) result };

    /// Replaces all bytes by these, and forces them to the disk. After an `Err` the file has the old bytes or the new
    /// ones.
    fn renew(&mut self, all: &[u8]) -> Result<(), LogFault>
        ensures ok { OnOk result (bytes self.new ≡ with_all all.now (bytes self.old)) }
        ensures err { OnErr result (MayBeAll all.now (bytes self.old) (bytes self.new)) }
        ensures stops { OnErr result (is_stopped self.new) }
        ensures refused { is_stopped self.old → IsErr result }
        ensures still { is_stopped self.old → bytes self.new ≡ bytes self.old }
        ensures fault { IfErr result (λ fault. fault ≡ LogFault.Device) }
        ensures cause { HasFaultCause (faults self.old) (faults self.new) result };

    /// How often a device has failed, up to the greatest number.
    fn faults(&self) -> u64
        ensures { result ≡ faults self.now };
}
