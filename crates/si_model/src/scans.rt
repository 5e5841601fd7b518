//! The range of a scan, and its answer.

ghost use Rattle.std.specs.Prelude.{◌≡◌, ◌+◌, ◌<◌, ◌^◌};
ghost use Rattle.si_model.specs.Replies.{found_item};
ghost use Rattle.si_model.specs.Scans.{found_length};

use crate::replies::Cell;
use cell_key::Stamp;

/// The cells of a scan. Names may be outside their limits.
#[derive(Clone, Copy, Debug)]
pub struct ScanRange<'a> {
    /// The scan starts after the cell of this row and family. None: at the first cell.
    pub after: Option<(&'a [u8], &'a [u8])>,
    /// The last row. None: to the last cell.
    pub end: Option<&'a [u8]>,
    /// The one family. None: all families.
    pub family: Option<&'a [u8]>,
}

/// The result of a scan for a cell that it names.
#[derive(Debug, PartialEq, Eq, Drop)]
pub enum ScanFound {
    /// The value that was committed last by the session's start.
    Value(Vec<u8>),
    /// A lock at this stamp, at or below the session's start, blocks the read.
    Pending(Stamp),
    /// The cell has a value that isn't sent: only keys were asked for, or it is too long.
    Unsent,
}

impl ScanFound {
    /// The bytes of the result in a reply: one for its kind, a value with its length in four, and a stamp in eight.
    pub fn said_bytes(&self) -> usize
        requires { found_length (found_item self.now) < 2 ^ 32 }
        ensures { result ≡ 1 + found_length (found_item self.now) }
    {
        match self {
            ScanFound::Value(value) => 5 + value.len(),
            ScanFound::Pending(_) => 9,
            ScanFound::Unsent => 1,
        }
    }
}

/// A cell that a scan names.
#[derive(Debug, PartialEq, Eq, Drop)]
pub struct ScanItem {
    pub cell: Cell,
    pub found: ScanFound,
}

/// How far a scan went.
#[derive(Debug, PartialEq, Eq, Drop)]
pub enum ScanReach {
    /// It covered all cells of its range.
    End,
    /// It covered the cells of its range up to and including this one.
    More(Cell),
}

/// The answer of a scan.
#[derive(Debug, PartialEq, Eq, Drop)]
pub struct ScanReply {
    /// The cells that have a value or are locked, by row and then by family.
    pub items: Vec<ScanItem>,
    pub reach: ScanReach,
}
