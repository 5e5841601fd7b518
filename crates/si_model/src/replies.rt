//! Cells, and the answers to requests of sessions, cleaners and collectors.

ghost use Rattle.std.specs.Prelude.{◌≡◌, IfErr, IfOk, OnOk};
ghost use Rattle.cell_key.specs.Names.{IsFamily, IsRow};
ghost use Rattle.si_model.specs.Reads.{IsNameRefusal, cell_of};

use cell_key::{Family, Refusal, Row, Stamp};
use std::alloc::Global;

/// A cell: a row and a family of columns.
#[derive(Debug, PartialEq, Eq, Drop)]
pub struct Cell {
    pub row: Row,
    pub family: Family,
}

impl Cell {
    /// The cell of a row and a family. Answers `BadRow` or `BadColumn` if a name is outside its limits, and `NoMemory`
    /// if allocation fails.
    pub fn new(alloc: Global, row: &[u8], family: &[u8]) -> Result<Cell, Refusal>
        ensures ok { IfOk result (λ cell. cell ≡ cell_of row.now family.now) }
        ensures row { OnOk result (IsRow row.now) }
        ensures family { OnOk result (IsFamily family.now) }
        ensures refusal { IfErr result (IsNameRefusal (cell_of row.now family.now)) }
    {
        let row = Row::new(alloc, row)?;
        let family = Family::new(alloc, family)?;
        Ok(Cell { row, family })
    }
}

/// The result of a read of a cell (Percolator, Get).
#[derive(Debug, PartialEq, Eq, Drop)]
pub enum Found {
    /// The value that was committed last by the session's start.
    Value(Vec<u8>),
    /// No value was committed by then.
    Nothing,
    /// A lock at this stamp, at or below the session's start, blocks the read.
    Pending(Stamp),
}

/// The outcome of a session's step (Percolator, Prewrite and Commit). Cells are counted from 1.
#[derive(Clone, Copy, Debug, PartialEq, Eq)]
pub enum Progress {
    /// The session holds this cell, out of this many.
    Held(u16, u16),
    /// This cell is locked, or was written since the session began. The session has ended.
    Conflict(u16),
    /// The commit stamp was drawn.
    Stamped(Stamp),
    /// The session is committed at this stamp.
    Committed(Stamp),
    /// A cleaner has rolled the session back. It has ended.
    Lost,
    /// This cell, out of this many, is finished. With the last one the session has ended.
    Finished(u16, u16),
}

/// The outcome of a cleaner's beginning (Percolator, clean-up of locks).
#[derive(Clone, Copy, Debug, PartialEq, Eq)]
pub enum CleanStart {
    /// The cell has no lock.
    NoLock,
    /// A cleaner was opened: its number, and the start of the lock's session.
    Cleaner(u64, Stamp),
}

/// The outcome of a cleaner's step.
#[derive(Clone, Copy, Debug, PartialEq, Eq)]
pub enum CleanReply {
    /// The fate of the session is decided.
    Decided,
    /// The lock was replaced by a write record at this commit stamp.
    RolledForward(Stamp),
    /// The lock was erased.
    RolledBack,
    /// The lock was gone already.
    Gone,
}

/// The outcome of a collector's step.
#[derive(Debug, PartialEq, Eq, Drop)]
pub enum CollectReply {
    /// There is more to do.
    More,
    /// The cell has a lock below the floor, with this stamp.
    Blocked(Cell, Stamp),
    /// All cells are tidy, and the collector is closed.
    Collected,
}
