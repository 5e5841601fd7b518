//! Stores of the oracle's mark: their contract.

ghost use Rattle.std.specs.Prelude.{◌≡◌, ◌≤◌, ◌<◌, ◌^◌, ℕ, Option, Some, codes, OnOk, OnErr, IfOk, IfSome};
ghost use Rattle.cell_key.specs.Faults.{HasRisen};
ghost use Rattle.oracle.specs.Marks.{MayHold, mark_after};

use cell_key::{Refusal, Stamp};
use std::error::Error;
use std::fmt;

/// A device failed.
#[derive(Clone, Copy, Debug, PartialEq, Eq)]
pub struct MarkFault;

impl fmt::Display for MarkFault {
    ghost output = { λ _. Some (codes "device failed") };

    fn fmt<W: fmt::Write>(&self, f: &mut fmt::Formatter<W>) -> fmt::Result {
        f.write_str("device failed")
    }
}

impl Error for MarkFault {}

impl From<MarkFault> for Refusal {
    ghost use Rattle.std.specs.Prelude.{◌≡◌};
    ghost use Rattle.cell_key.specs.declared.refusals.Refusal.TheVariants.{Device};

    ghost from_gives = { λ _ refusal. refusal ≡ Device };

    fn from(_fault: MarkFault) -> Refusal {
        Refusal::Device
    }
}

/// A store that keeps one number, the mark, while an oracle is closed.
pub trait MarkStore {
    /// The stored number, if the store reveals it to contracts.
    ghost mark: { Self → Option ℕ };

    /// How often a device has failed. The count saturates at 2^64 - 1.
    ghost faults: { Self → ℕ };

    /// The stored number, or 0 if none was stored. It is never above the greatest stamp.
    fn load(&mut self) -> Result<Stamp, MarkFault>
        ensures limit { IfOk result (λ number. number < 2 ^ 63) }
        ensures stored { IfOk result (λ number.
            IfSome (mark self.old) (λ stored. number ≡ stored)) }
        ensures kept { mark self.new ≡ mark self.old }
        ensures later { faults self.old ≤ faults self.new }
        ensures device { OnErr result (HasRisen (faults self.old) (faults self.new)) }
        ensures told { OnOk result (faults self.new ≡ faults self.old) };

    /// Stores a number. After an `Err` the mark is either the old or the new number.
    fn store(&mut self, number: Stamp) -> Result<(), MarkFault>
        requires { number < 2 ^ 63 }
        ensures ok { OnOk result (mark self.new ≡ mark_after number (mark self.old)) }
        ensures err { OnErr result (MayHold number (mark self.old) (mark self.new)) }
        ensures later { faults self.old ≤ faults self.new }
        ensures device { OnErr result (HasRisen (faults self.old) (faults self.new)) }
        ensures told { OnOk result (faults self.new ≡ faults self.old) };

    /// How often a device has failed. The count saturates at 2^64 - 1.
    fn faults(&self) -> u64
        ensures { result ≡ faults self.now };
}
