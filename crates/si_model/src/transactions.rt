//! Requests for several cells, and their answers.

ghost use Rattle.std.specs.Prelude.{◌≡◌, ◌<◌, ◌^◌};
ghost use Rattle.si_model.specs.Answers.{told_item};
ghost use Rattle.si_model.specs.Transactions.{told_length};

use crate::scans::ScanFound;
use cell_key::Stamp;

/// A cell by its names, which may be outside their limits.
#[derive(Clone, Copy, Debug)]
pub struct CellName<'a> {
    pub row: &'a [u8],
    pub family: &'a [u8],
}

/// A write of a cell. Its names and its value may be outside their limits.
#[derive(Clone, Copy, Debug)]
pub struct CellWrite<'a> {
    pub cell: CellName<'a>,
    /// The value, or `None` for a deletion.
    pub value: Option<&'a [u8]>,
}

/// The answer of reads of several cells.
#[derive(Debug, PartialEq, Eq, Drop)]
pub struct ReadReply {
    /// The start of the session.
    pub start: Stamp,
    /// The result for each cell, in the order of the request. `None`: the cell has nothing.
    pub found: Vec<Option<ScanFound>>,
}

/// The bytes of what a Read says of a cell: one for nothing, else those of the result.
pub fn told_bytes(said: &Option<ScanFound>) -> usize
    requires { told_length (told_item said.now) < 2 ^ 32 }
    ensures { result ≡ told_length (told_item said.now) }
{
    match said {
        None => 1,
        Some(found) => found.said_bytes(),
    }
}

/// The answer of a transaction.
#[derive(Clone, Copy, Debug, PartialEq, Eq)]
pub enum CommitReply {
    /// It began at the first stamp, and is committed at the second.
    Committed(Stamp, Stamp),
    /// It began at this stamp, and the cell at this place of the session's writes is locked, or was written since. Places
    /// count from 1. The session has ended and holds nothing.
    Conflict(Stamp, u16),
}
