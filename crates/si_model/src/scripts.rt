//! Scripts that the machine can follow, which show that its rules can be met. Each is a function that does nothing: its
//! contract is the script.

ghost use Rattle.si_model.specs.Scripts.{CommitPoint, DeletedCell, FirstCell, FirstHolder, LostTransfer, MarkStays, RolledBackTransfer, ScannedCells, SplitTablet, StrandedMark, Transfer, WriteSkew, YoungerFirst};

/// One cell is set, held, committed and read.
pub fn first_cell()
    ensures { FirstCell }
{}

/// A cell is deleted: sessions that began before the commit read its value, and later ones nothing.
pub fn deleted_cell()
    ensures { DeletedCell }
{}

/// A scan names a locked cell, but not a cell that is committed after the session's start.
pub fn scanned_cells()
    ensures { ScannedCells }
{}

/// A session moves 7 from Bob to Joe, and the next one reads both balances.
pub fn transfer()
    ensures { Transfer }
{}

/// Two concurrent sessions that write different cells both commit.
pub fn write_skew()
    ensures { WriteSkew }
{}

/// Of two sessions that write one cell, the second to hold it meets the mark of the first.
pub fn first_holder()
    ensures { FirstHolder }
{}

/// Of two sessions that write one cell, the older meets the commit of the younger.
pub fn younger_first()
    ensures { YoungerFirst }
{}

/// A session that stops before its commit is rolled back, and the old balances are read.
pub fn rolled_back()
    ensures { RolledBackTransfer }
{}

/// A reader waits for a session that began before it, and sees its commit at once.
pub fn commit_point()
    ensures { CommitPoint }
{}

/// A session that a cleaner has rolled back is told so at its next step.
pub fn lost()
    ensures { LostTransfer }
{}

/// An abandoned mark stops a collector until a cleaner rolls it forward.
pub fn stranded_mark()
    ensures { StrandedMark }
{}

/// A tablet is split, and both parts move.
pub fn split_tablet()
    ensures { SplitTablet }
{}

/// A mark outlives a clean restart, until a cleaner clears it.
pub fn mark_stays()
    ensures { MarkStays }
{}
