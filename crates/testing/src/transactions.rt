//! Rows of exchanges with transactions in one request, and reads of several cells.

use crate::rows::{Exchange, Row};

/// A transaction of cells of two rows in a session of its own: data at its start, records at its stamp, and no lock.
const BLIND: [Exchange; 7] = [
    // Commit 0: r c v, s c w: Done 1 2
    (
        b"\x32\0\0\0\0\0\0\0\0\0\0\0\x02\0\0\0\x01r\0\0\0\x01c\x01\0\0\0\x01v\0\0\0\x01s\0\0\0\x01c\x01\0\0\0\x01w",
        b"\xB2\x01\0\0\0\0\0\0\0\x01\0\0\0\0\0\0\0\x02",
    ),
    // Raw r c data 0..9: stamp 1, v
    (
        b"\x11\0\0\0\x01r\0\0\0\x01c\x01\0\0\0\0\0\0\0\0\0\0\0\0\0\0\0\x09",
        b"\x91\x01\0\0\0\0\0\0\0\x01\0\0\0\x01v",
    ),
    // Raw r c lock 0..9: nothing
    (
        b"\x11\0\0\0\x01r\0\0\0\x01c\x02\0\0\0\0\0\0\0\0\0\0\0\0\0\0\0\x09",
        b"\x91\0",
    ),
    // Raw r c write 0..9: stamp 2, start 1, set
    (
        b"\x11\0\0\0\x01r\0\0\0\x01c\x03\0\0\0\0\0\0\0\0\0\0\0\0\0\0\0\x09",
        b"\x91\x01\0\0\0\0\0\0\0\x02\0\0\0\x09\0\0\0\0\0\0\0\x01S",
    ),
    // Raw s c write 0..9: stamp 2, start 1, set
    (
        b"\x11\0\0\0\x01s\0\0\0\x01c\x03\0\0\0\0\0\0\0\0\0\0\0\0\0\0\0\x09",
        b"\x91\x01\0\0\0\0\0\0\0\x02\0\0\0\x09\0\0\0\0\0\0\0\x01S",
    ),
    // Read 0: r c, s c, t c; ends: 3; v, w, nothing
    (
        b"\x33\0\0\0\0\0\0\0\0\0\0\0\0\x03\0\0\0\x01r\0\0\0\x01c\0\0\0\x01s\0\0\0\x01c\0\0\0\x01t\0\0\0\x01c",
        b"\xB3\0\0\0\0\0\0\0\x03\0\0\0\x03\x01\0\0\0\x01v\x01\0\0\0\x01w\0",
    ),
    // Stop 3: UnknownSession
    (b"\x05\0\0\0\0\0\0\0\x03", b"\xFF\x01"),
];

/// A session reads, and commits what it had set before, in its order, and more; a deletion has no data.
const MODIFIED: [Exchange; 7] = [
    // Read 0: r c; stays open: 4; v
    (
        b"\x33\0\0\0\0\0\0\0\0\x01\0\0\0\x01\0\0\0\x01r\0\0\0\x01c",
        b"\xB3\0\0\0\0\0\0\0\x04\0\0\0\x01\x01\0\0\0\x01v",
    ),
    // Set 4 t c x: done
    (
        b"\x03\0\0\0\0\0\0\0\x04\0\0\0\x01t\0\0\0\x01c\0\0\0\x01x",
        b"\x83",
    ),
    // Commit 4: r c deleted: Done 4 5
    (
        b"\x32\0\0\0\0\0\0\0\x04\0\0\0\x01\0\0\0\x01r\0\0\0\x01c\0",
        b"\xB2\x01\0\0\0\0\0\0\0\x04\0\0\0\0\0\0\0\x05",
    ),
    // Raw r c data 4..9: nothing
    (
        b"\x11\0\0\0\x01r\0\0\0\x01c\x01\0\0\0\0\0\0\0\x04\0\0\0\0\0\0\0\x09",
        b"\x91\0",
    ),
    // Raw r c write 5..9: stamp 5, start 4, deletion
    (
        b"\x11\0\0\0\x01r\0\0\0\x01c\x03\0\0\0\0\0\0\0\x05\0\0\0\0\0\0\0\x09",
        b"\x91\x01\0\0\0\0\0\0\0\x05\0\0\0\x09\0\0\0\0\0\0\0\x04D",
    ),
    // Read 0: t c, r c; ends: 6; x, nothing
    (
        b"\x33\0\0\0\0\0\0\0\0\0\0\0\0\x02\0\0\0\x01t\0\0\0\x01c\0\0\0\x01r\0\0\0\x01c",
        b"\xB3\0\0\0\0\0\0\0\x06\0\0\0\x02\x01\0\0\0\x01x\0",
    ),
    // Commit 4: UnknownSession
    (
        b"\x32\0\0\0\0\0\0\0\x04\0\0\0\x01\0\0\0\x01r\0\0\0\x01c\x01\0\0\0\x01v",
        b"\xFF\x01",
    ),
];

/// A later record or a lock at any cell is a conflict, which holds nothing, and ends the session.
const CLASHES: [Exchange; 15] = [
    // Begin: 7
    (b"\x01", b"\x81\0\0\0\0\0\0\0\x07"),
    // Commit 0: s c y: Done 8 9
    (
        b"\x32\0\0\0\0\0\0\0\0\0\0\0\x01\0\0\0\x01s\0\0\0\x01c\x01\0\0\0\x01y",
        b"\xB2\x01\0\0\0\0\0\0\0\x08\0\0\0\0\0\0\0\x09",
    ),
    // Commit 7: q c y, s c z: Conflict 7 2
    (
        b"\x32\0\0\0\0\0\0\0\x07\0\0\0\x02\0\0\0\x01q\0\0\0\x01c\x01\0\0\0\x01y\0\0\0\x01s\0\0\0\x01c\x01\0\0\0\x01z",
        b"\xB2\x02\0\0\0\0\0\0\0\x07\0\x02",
    ),
    // Raw q c data 0..99: nothing
    (
        b"\x11\0\0\0\x01q\0\0\0\x01c\x01\0\0\0\0\0\0\0\0\0\0\0\0\0\0\0c",
        b"\x91\0",
    ),
    // Raw q c lock 0..99: nothing
    (
        b"\x11\0\0\0\x01q\0\0\0\x01c\x02\0\0\0\0\0\0\0\0\0\0\0\0\0\0\0c",
        b"\x91\0",
    ),
    // Step 7: UnknownSession
    (b"\x04\0\0\0\0\0\0\0\x07", b"\xFF\x01"),
    // Begin: 10
    (b"\x01", b"\x81\0\0\0\0\0\0\0\x0A"),
    // Set 10 l c v: done
    (
        b"\x03\0\0\0\0\0\0\0\x0A\0\0\0\x01l\0\0\0\x01c\0\0\0\x01v",
        b"\x83",
    ),
    // Step 10: Held 1 1
    (b"\x04\0\0\0\0\0\0\0\x0A", b"\x84\x01\0\x01\0\x01"),
    // Commit 0: l c w: Conflict 11 1
    (
        b"\x32\0\0\0\0\0\0\0\0\0\0\0\x01\0\0\0\x01l\0\0\0\x01c\x01\0\0\0\x01w",
        b"\xB2\x02\0\0\0\0\0\0\0\x0B\0\x01",
    ),
    // Read 0: l c, s c; ends: 12; Pending 10, y
    (
        b"\x33\0\0\0\0\0\0\0\0\0\0\0\0\x02\0\0\0\x01l\0\0\0\x01c\0\0\0\x01s\0\0\0\x01c",
        b"\xB3\0\0\0\0\0\0\0\x0C\0\0\0\x02\x02\0\0\0\0\0\0\0\x0A\x01\0\0\0\x01y",
    ),
    // Commit 10: WrongPhase
    (
        b"\x32\0\0\0\0\0\0\0\x0A\0\0\0\x01\0\0\0\x01k\0\0\0\x01c\x01\0\0\0\x01m",
        b"\xFF\x02",
    ),
    // Read 10: WrongPhase
    (
        b"\x33\0\0\0\0\0\0\0\x0A\x01\0\0\0\x01\0\0\0\x01l\0\0\0\x01c",
        b"\xFF\x02",
    ),
    // Step 10: Stamped 13
    (b"\x04\0\0\0\0\0\0\0\x0A", b"\x84\x03\0\0\0\0\0\0\0\x0D"),
    // Step 10: Committed 13
    (b"\x04\0\0\0\0\0\0\0\x0A", b"\x84\x04\0\0\0\0\0\0\0\x0D"),
];

/// A refusal leaves the session, its writes and the oracle as before.
const REFUSED: [Exchange; 13] = [
    // Commit 0 without a write: EmptyCommit
    (b"\x32\0\0\0\0\0\0\0\0\0\0\0\0", b"\xFF\x08"),
    // Begin: 1
    (b"\x01", b"\x81\0\0\0\0\0\0\0\x01"),
    // Set 1 r c v: done
    (
        b"\x03\0\0\0\0\0\0\0\x01\0\0\0\x01r\0\0\0\x01c\0\0\0\x01v",
        b"\x83",
    ),
    // Commit 1: s c w, with an empty row: BadRow
    (
        b"\x32\0\0\0\0\0\0\0\x01\0\0\0\x02\0\0\0\x01s\0\0\0\x01c\x01\0\0\0\x01w\0\0\0\0\0\0\0\x01c\x01\0\0\0\x01x",
        b"\xFF\x03",
    ),
    // Commit 1: a family with a zero: BadColumn
    (
        b"\x32\0\0\0\0\0\0\0\x01\0\0\0\x01\0\0\0\x01s\0\0\0\x01\0\x01\0\0\0\x01w",
        b"\xFF\x04",
    ),
    // Read 1 without a cell: BadCount
    (b"\x33\0\0\0\0\0\0\0\x01\x01\0\0\0\0", b"\xFF\x0E"),
    // Read 1: r c, with an empty row: BadRow
    (
        b"\x33\0\0\0\0\0\0\0\x01\0\0\0\0\x02\0\0\0\x01r\0\0\0\x01c\0\0\0\0\0\0\0\x01c",
        b"\xFF\x03",
    ),
    // Commit 9: UnknownSession, before BadRow
    (
        b"\x32\0\0\0\0\0\0\0\x09\0\0\0\x01\0\0\0\0\0\0\0\x01c\x01\0\0\0\x01x",
        b"\xFF\x01",
    ),
    // Read 9: UnknownSession, before BadRow
    (
        b"\x33\0\0\0\0\0\0\0\x09\0\0\0\0\x01\0\0\0\0\0\0\0\x01c",
        b"\xFF\x01",
    ),
    // Commit 1 without a write: Done 1 2
    (
        b"\x32\0\0\0\0\0\0\0\x01\0\0\0\0",
        b"\xB2\x01\0\0\0\0\0\0\0\x01\0\0\0\0\0\0\0\x02",
    ),
    // Raw s c write 0..9: nothing
    (
        b"\x11\0\0\0\x01s\0\0\0\x01c\x03\0\0\0\0\0\0\0\0\0\0\0\0\0\0\0\x09",
        b"\x91\0",
    ),
    // Raw r c write 0..9: stamp 2, start 1, set
    (
        b"\x11\0\0\0\x01r\0\0\0\x01c\x03\0\0\0\0\0\0\0\0\0\0\0\0\0\0\0\x09",
        b"\x91\x01\0\0\0\0\0\0\0\x02\0\0\0\x09\0\0\0\0\0\0\0\x01S",
    ),
    // Begin: 3
    (b"\x01", b"\x81\0\0\0\0\0\0\0\x03"),
];

/// All rows.
pub const ROWS: [Row; 2] = [(0, &[&BLIND, &MODIFIED, &CLASHES]), (0, &[&REFUSED])];
