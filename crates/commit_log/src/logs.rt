//! Logs: their contract.

ghost use Rattle.std.specs.Prelude.{◌≡◌, ◌⊎◌, ℕ, List, IfOk, IsErrOf, OnErr, OnOk};
ghost use Rattle.commit_log.specs.Faults.{HasFaultCause};
ghost use Rattle.commit_log.specs.Frames.{IsBody, bytes_of};
ghost use Rattle.commit_log.specs.Held.{Gains, Keeps, MayGain, MayRenew, Renews};
ghost use Rattle.commit_log.specs.Records.{spelled_record};

use crate::faults::LogFault;
use crate::records::RecordKind;
use cell_key::Stamp;

/// Records of bytes, in the order in which they were appended. They survive a kill.
pub trait Log {
    /// It holds these records. Never true of a log whose records are unknown, as on a real disk.
    ghost holds: { Self → List (List ℕ) → Type 0 };

    /// No record of these bytes can be appended: the numbers are used up, or its frame would contain a later frame.
    ghost refuses: { Self → List ℕ → Type 0 };

    /// How often a device has failed, up to the greatest number.
    ghost faults: { Self → ℕ };

    /// Makes room for so many more bytes: of each record its body and `BEFORE_BODY`. The records are unchanged.
    fn reserve(&mut self, more: usize) -> Result<(), LogFault>
        ensures same { Keeps (holds self.old) (holds self.new) }
        ensures intact { ¬ IsErrOf result LogFault.Damaged }
        ensures taken { ¬ IsErrOf result LogFault.Refused }
        ensures cause { HasFaultCause (faults self.old) (faults self.new) result };

    /// Makes room for a renewal by the name of a root, which then takes no more of it. The records are unchanged.
    fn reserve_renewal(&mut self) -> Result<(), LogFault>
        ensures same { Keeps (holds self.old) (holds self.new) }
        ensures intact { ¬ IsErrOf result LogFault.Damaged }
        ensures taken { ¬ IsErrOf result LogFault.Refused }
        ensures cause { HasFaultCause (faults self.old) (faults self.new) result };

    /// Makes room for so many bytes on its device, for a file beside it that is written after `release_beside`. The
    /// records are unchanged.
    fn reserve_beside(&mut self, len: usize) -> Result<(), LogFault>
        ensures same { Keeps (holds self.old) (holds self.new) }
        ensures intact { ¬ IsErrOf result LogFault.Damaged }
        ensures taken { ¬ IsErrOf result LogFault.Refused }
        ensures cause { HasFaultCause (faults self.old) (faults self.new) result };

    /// Gives back the room that `reserve_beside` made. If the device fails, the room stays taken. The records are
    /// unchanged.
    fn release_beside(&mut self)
        ensures same { Keeps (holds self.old) (holds self.new) }
        ensures told { faults self.new ≡ faults self.old };

    /// Appends a record, and forces it to the disk. After an `Err` the log is unchanged or has the whole record, never
    /// a part of it. After `Memory` or `Refused` it is unchanged.
    fn append(&mut self, kind: RecordKind, stamp: Stamp, body: &[u8]) -> Result<(), LogFault>
        requires { IsBody body.now }
        ensures ok { OnOk result (Gains (holds self.old) (holds self.new)
            (spelled_record kind stamp body.now)) }
        ensures err { OnErr result (MayGain (holds self.old) (holds self.new)
            (spelled_record kind stamp body.now)) }
        ensures unchanged { IsErrOf result LogFault.Memory ⊎ IsErrOf result LogFault.Refused
            → Keeps (holds self.old) (holds self.new) }
        ensures refused { IsErrOf result LogFault.Refused
            → refuses self.old (spelled_record kind stamp body.now) }
        ensures intact { ¬ IsErrOf result LogFault.Damaged }
        ensures cause { HasFaultCause (faults self.old) (faults self.new) result };

    /// The records. `Damaged` only if the log doesn't hold any list of records.
    fn records(&mut self) -> Result<Vec<Vec<u8>>, LogFault>
        ensures ok { IfOk result (λ found. (records : List (List ℕ))
            → holds self.old records → bytes_of found.items ≡ records) }
        ensures same { Keeps (holds self.old) (holds self.new) }
        ensures damaged { IsErrOf result LogFault.Damaged
            → (records : List (List ℕ)) → ¬ holds self.old records }
        ensures taken { ¬ IsErrOf result LogFault.Refused }
        ensures cause { HasFaultCause (faults self.old) (faults self.new) result };

    /// Replaces all records by this one. After an `Err` the log is unchanged or has this record alone. After `Memory`
    /// or `Refused` it is unchanged.
    fn renew(&mut self, kind: RecordKind, stamp: Stamp, body: &[u8]) -> Result<(), LogFault>
        requires { IsBody body.now }
        ensures ok { OnOk result (Renews (holds self.old) (holds self.new)
            (spelled_record kind stamp body.now)) }
        ensures err { OnErr result (MayRenew (holds self.old) (holds self.new)
            (spelled_record kind stamp body.now)) }
        ensures unchanged { IsErrOf result LogFault.Memory ⊎ IsErrOf result LogFault.Refused
            → Keeps (holds self.old) (holds self.new) }
        ensures refused { IsErrOf result LogFault.Refused
            → refuses self.old (spelled_record kind stamp body.now) }
        ensures intact { ¬ IsErrOf result LogFault.Damaged }
        ensures cause { HasFaultCause (faults self.old) (faults self.new) result };

    /// How often a device has failed, up to the greatest number.
    fn faults(&self) -> u64
        ensures { result ≡ faults self.now };
}
