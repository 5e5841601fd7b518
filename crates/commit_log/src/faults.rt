//! Faults: the reasons why a call on a log failed.

ghost use Rattle.std.specs.Prelude.{◌≡◌, Some};
ghost use Rattle.commit_log.specs.Faults.{fault_text};
ghost use Rattle.commit_log.specs.declared.faults.LogFault.TheVariants.{Memory};

use std::alloc::{AllocError, AllocFailed};
use std::error::Error;
use std::fmt;

/// Why a call on a log failed.
#[derive(Clone, Copy, Debug, PartialEq, Eq)]
pub enum LogFault {
    /// A device failed. The count of faults has risen.
    Device,
    /// An allocation failed.
    Memory,
    /// The bytes are not a log.
    Damaged,
    /// The log can't take the record: its bytes contain a later frame, or the numbers are used up.
    Refused,
}

impl fmt::Display for LogFault {
    ghost output = { λ fault. Some (fault_text fault) };

    fn fmt<W: fmt::Write>(&self, f: &mut fmt::Formatter<W>) -> fmt::Result {
        match self {
            LogFault::Device => f.write_str("device failed"),
            LogFault::Memory => f.write_str("no memory"),
            LogFault::Damaged => f.write_str("no log"),
            LogFault::Refused => f.write_str("record refused"),
        }
    }
}

impl Error for LogFault {}

impl From<AllocError> for LogFault {
    ghost from_gives = { λ _ fault. fault ≡ Memory };

    fn from(_error: AllocError) -> LogFault {
        LogFault::Memory
    }
}

impl<T: Drop> From<AllocFailed<T>> for LogFault {
    ghost from_gives = { λ _ fault. fault ≡ Memory };

    fn from(_error: AllocFailed<T>) -> LogFault {
        LogFault::Memory
    }
}
