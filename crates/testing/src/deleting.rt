//! Rows of exchanges with deletions.

use crate::rows::{CELL_COMMITTED, CELL_HELD, CELL_STAMPED, Exchange, Row};

/// A second session deletes the cell. A session that began before its commit reads the value, a later one nothing.
const DELETED: [Exchange; 13] = [
    // Begin: 3
    (b"\x01", b"\x81\0\0\0\0\0\0\0\x03"),
    // Delete 3 r c: done
    (b"\x13\0\0\0\0\0\0\0\x03\0\0\0\x01r\0\0\0\x01c", b"\x93"),
    // Step 3: Held 1 1
    (b"\x04\0\0\0\0\0\0\0\x03", b"\x84\x01\0\x01\0\x01"),
    // Raw r c lock 0..9: stamp 3, 72 00 00 63 00 00 44
    (
        b"\x11\0\0\0\x01r\0\0\0\x01c\x02\0\0\0\0\0\0\0\0\0\0\0\0\0\0\0\x09",
        b"\x91\x01\0\0\0\0\0\0\0\x03\0\0\0\x07r\0\0c\0\0D",
    ),
    // Raw r c data 3..3: nothing
    (
        b"\x11\0\0\0\x01r\0\0\0\x01c\x01\0\0\0\0\0\0\0\x03\0\0\0\0\0\0\0\x03",
        b"\x91\0",
    ),
    // Begin: 4
    (b"\x01", b"\x81\0\0\0\0\0\0\0\x04"),
    // Get 4 r c: Pending 3
    (
        b"\x02\0\0\0\0\0\0\0\x04\0\0\0\x01r\0\0\0\x01c",
        b"\x82\x02\0\0\0\0\0\0\0\x03",
    ),
    // Step 3: Stamped 5
    (b"\x04\0\0\0\0\0\0\0\x03", b"\x84\x03\0\0\0\0\0\0\0\x05"),
    // Step 3: Committed 5
    (b"\x04\0\0\0\0\0\0\0\x03", b"\x84\x04\0\0\0\0\0\0\0\x05"),
    // Get 4 r c: v
    (
        b"\x02\0\0\0\0\0\0\0\x04\0\0\0\x01r\0\0\0\x01c",
        b"\x82\x01\0\0\0\x01v",
    ),
    // Begin: 6
    (b"\x01", b"\x81\0\0\0\0\0\0\0\x06"),
    // Get 6 r c: Nothing
    (b"\x02\0\0\0\0\0\0\0\x06\0\0\0\x01r\0\0\0\x01c", b"\x82\0"),
    // Raw r c write 0..9: stamp 5, 00 00 00 00 00 00 00 03 44
    (
        b"\x11\0\0\0\x01r\0\0\0\x01c\x03\0\0\0\0\0\0\0\0\0\0\0\0\0\0\0\x09",
        b"\x91\x01\0\0\0\0\0\0\0\x05\0\0\0\x09\0\0\0\0\0\0\0\x03D",
    ),
];

/// The older record is collected first, and then the deletion.
const COLLECTED: [Exchange; 10] = [
    // Stop 4: stopped
    (b"\x05\0\0\0\0\0\0\0\x04", b"\x85"),
    // CollectBegin: 1, floor 6
    (b"\x08", b"\x88\0\0\0\0\0\0\0\x01\0\0\0\0\0\0\0\x06"),
    // CollectStep 1 3: More
    (b"\x09\0\0\0\0\0\0\0\x01\0\0\0\x03", b"\x89\x01"),
    // Raw r c write 0..4: nothing
    (
        b"\x11\0\0\0\x01r\0\0\0\x01c\x03\0\0\0\0\0\0\0\0\0\0\0\0\0\0\0\x04",
        b"\x91\0",
    ),
    // Raw r c data 0..4: nothing
    (
        b"\x11\0\0\0\x01r\0\0\0\x01c\x01\0\0\0\0\0\0\0\0\0\0\0\0\0\0\0\x04",
        b"\x91\0",
    ),
    // Raw r c write 0..9: stamp 5, 00 00 00 00 00 00 00 03 44
    (
        b"\x11\0\0\0\x01r\0\0\0\x01c\x03\0\0\0\0\0\0\0\0\0\0\0\0\0\0\0\x09",
        b"\x91\x01\0\0\0\0\0\0\0\x05\0\0\0\x09\0\0\0\0\0\0\0\x03D",
    ),
    // CollectStep 1 1: More
    (b"\x09\0\0\0\0\0\0\0\x01\0\0\0\x01", b"\x89\x01"),
    // Raw r c write 0..9: nothing
    (
        b"\x11\0\0\0\x01r\0\0\0\x01c\x03\0\0\0\0\0\0\0\0\0\0\0\0\0\0\0\x09",
        b"\x91\0",
    ),
    // CollectStep 1 1: Collected
    (b"\x09\0\0\0\0\0\0\0\x01\0\0\0\x01", b"\x89\x03"),
    // Get 6 r c: Nothing
    (b"\x02\0\0\0\0\0\0\0\x06\0\0\0\x01r\0\0\0\x01c", b"\x82\0"),
];

/// While an older session runs, neither the deletion nor the value that the session reads is collected.
const KEPT: [Exchange; 11] = [
    // CollectBegin: 1, floor 4
    (b"\x08", b"\x88\0\0\0\0\0\0\0\x01\0\0\0\0\0\0\0\x04"),
    // CollectStep 1 100: Collected
    (b"\x09\0\0\0\0\0\0\0\x01\0\0\0d", b"\x89\x03"),
    // Get 4 r c: v
    (
        b"\x02\0\0\0\0\0\0\0\x04\0\0\0\x01r\0\0\0\x01c",
        b"\x82\x01\0\0\0\x01v",
    ),
    // Get 6 r c: Nothing
    (b"\x02\0\0\0\0\0\0\0\x06\0\0\0\x01r\0\0\0\x01c", b"\x82\0"),
    // Raw r c write 0..9: stamp 5, 00 00 00 00 00 00 00 03 44
    (
        b"\x11\0\0\0\x01r\0\0\0\x01c\x03\0\0\0\0\0\0\0\0\0\0\0\0\0\0\0\x09",
        b"\x91\x01\0\0\0\0\0\0\0\x05\0\0\0\x09\0\0\0\0\0\0\0\x03D",
    ),
    // Raw r c write 0..4: stamp 2, 00 00 00 00 00 00 00 01 53
    (
        b"\x11\0\0\0\x01r\0\0\0\x01c\x03\0\0\0\0\0\0\0\0\0\0\0\0\0\0\0\x04",
        b"\x91\x01\0\0\0\0\0\0\0\x02\0\0\0\x09\0\0\0\0\0\0\0\x01S",
    ),
    // Stop 4: stopped
    (b"\x05\0\0\0\0\0\0\0\x04", b"\x85"),
    // CollectBegin: 2, floor 6
    (b"\x08", b"\x88\0\0\0\0\0\0\0\x02\0\0\0\0\0\0\0\x06"),
    // CollectStep 2 100: Collected
    (b"\x09\0\0\0\0\0\0\0\x02\0\0\0d", b"\x89\x03"),
    // Raw r c write 0..9: nothing
    (
        b"\x11\0\0\0\x01r\0\0\0\x01c\x03\0\0\0\0\0\0\0\0\0\0\0\0\0\0\0\x09",
        b"\x91\0",
    ),
    // Get 6 r c: Nothing
    (b"\x02\0\0\0\0\0\0\0\x06\0\0\0\x01r\0\0\0\x01c", b"\x82\0"),
];

/// The cell is set again, and the deletion below it is an older record.
const SET_AGAIN: [Exchange; 16] = [
    // Stop 4: stopped
    (b"\x05\0\0\0\0\0\0\0\x04", b"\x85"),
    // Begin: 7
    (b"\x01", b"\x81\0\0\0\0\0\0\0\x07"),
    // Set 7 r c w: done
    (
        b"\x03\0\0\0\0\0\0\0\x07\0\0\0\x01r\0\0\0\x01c\0\0\0\x01w",
        b"\x83",
    ),
    // Step 7: Held 1 1
    (b"\x04\0\0\0\0\0\0\0\x07", b"\x84\x01\0\x01\0\x01"),
    // Step 7: Stamped 8
    (b"\x04\0\0\0\0\0\0\0\x07", b"\x84\x03\0\0\0\0\0\0\0\x08"),
    // Step 7: Committed 8
    (b"\x04\0\0\0\0\0\0\0\x07", b"\x84\x04\0\0\0\0\0\0\0\x08"),
    // Begin: 9
    (b"\x01", b"\x81\0\0\0\0\0\0\0\x09"),
    // Get 9 r c: w
    (
        b"\x02\0\0\0\0\0\0\0\x09\0\0\0\x01r\0\0\0\x01c",
        b"\x82\x01\0\0\0\x01w",
    ),
    // Get 6 r c: Nothing
    (b"\x02\0\0\0\0\0\0\0\x06\0\0\0\x01r\0\0\0\x01c", b"\x82\0"),
    // Stop 6: stopped
    (b"\x05\0\0\0\0\0\0\0\x06", b"\x85"),
    // CollectBegin: 1, floor 9
    (b"\x08", b"\x88\0\0\0\0\0\0\0\x01\0\0\0\0\0\0\0\x09"),
    // CollectStep 1 100: Collected
    (b"\x09\0\0\0\0\0\0\0\x01\0\0\0d", b"\x89\x03"),
    // Raw r c write 0..7: nothing
    (
        b"\x11\0\0\0\x01r\0\0\0\x01c\x03\0\0\0\0\0\0\0\0\0\0\0\0\0\0\0\x07",
        b"\x91\0",
    ),
    // Raw r c data 0..6: nothing
    (
        b"\x11\0\0\0\x01r\0\0\0\x01c\x01\0\0\0\0\0\0\0\0\0\0\0\0\0\0\0\x06",
        b"\x91\0",
    ),
    // Raw r c write 0..9: stamp 8, 00 00 00 00 00 00 00 07 53
    (
        b"\x11\0\0\0\x01r\0\0\0\x01c\x03\0\0\0\0\0\0\0\0\0\0\0\0\0\0\0\x09",
        b"\x91\x01\0\0\0\0\0\0\0\x08\0\0\0\x09\0\0\0\0\0\0\0\x07S",
    ),
    // Get 9 r c: w
    (
        b"\x02\0\0\0\0\0\0\0\x09\0\0\0\x01r\0\0\0\x01c",
        b"\x82\x01\0\0\0\x01w",
    ),
];

/// If a session writes a cell more than once, the last write counts, at the first one's position. A cell that was never
/// set is deleted.
const REPLACED: [Exchange; 29] = [
    // Begin: 1
    (b"\x01", b"\x81\0\0\0\0\0\0\0\x01"),
    // Delete 1 a c: done
    (b"\x13\0\0\0\0\0\0\0\x01\0\0\0\x01a\0\0\0\x01c", b"\x93"),
    // Set 1 b c v: done
    (
        b"\x03\0\0\0\0\0\0\0\x01\0\0\0\x01b\0\0\0\x01c\0\0\0\x01v",
        b"\x83",
    ),
    // Set 1 d c v: done
    (
        b"\x03\0\0\0\0\0\0\0\x01\0\0\0\x01d\0\0\0\x01c\0\0\0\x01v",
        b"\x83",
    ),
    // Delete 1 b c: done
    (b"\x13\0\0\0\0\0\0\0\x01\0\0\0\x01b\0\0\0\x01c", b"\x93"),
    // Delete 1 d c: done
    (b"\x13\0\0\0\0\0\0\0\x01\0\0\0\x01d\0\0\0\x01c", b"\x93"),
    // Set 1 d c w: done
    (
        b"\x03\0\0\0\0\0\0\0\x01\0\0\0\x01d\0\0\0\x01c\0\0\0\x01w",
        b"\x83",
    ),
    // Step 1: Held 1 3
    (b"\x04\0\0\0\0\0\0\0\x01", b"\x84\x01\0\x01\0\x03"),
    // Step 1: Held 2 3
    (b"\x04\0\0\0\0\0\0\0\x01", b"\x84\x01\0\x02\0\x03"),
    // Step 1: Held 3 3
    (b"\x04\0\0\0\0\0\0\0\x01", b"\x84\x01\0\x03\0\x03"),
    // Raw b c lock 0..9: stamp 1, 61 00 00 63 00 00 44
    (
        b"\x11\0\0\0\x01b\0\0\0\x01c\x02\0\0\0\0\0\0\0\0\0\0\0\0\0\0\0\x09",
        b"\x91\x01\0\0\0\0\0\0\0\x01\0\0\0\x07a\0\0c\0\0D",
    ),
    // Raw d c lock 0..9: stamp 1, 61 00 00 63 00 00 53
    (
        b"\x11\0\0\0\x01d\0\0\0\x01c\x02\0\0\0\0\0\0\0\0\0\0\0\0\0\0\0\x09",
        b"\x91\x01\0\0\0\0\0\0\0\x01\0\0\0\x07a\0\0c\0\0S",
    ),
    // Raw b c data 0..9: nothing
    (
        b"\x11\0\0\0\x01b\0\0\0\x01c\x01\0\0\0\0\0\0\0\0\0\0\0\0\0\0\0\x09",
        b"\x91\0",
    ),
    // Step 1: Stamped 2
    (b"\x04\0\0\0\0\0\0\0\x01", b"\x84\x03\0\0\0\0\0\0\0\x02"),
    // Step 1: Committed 2
    (b"\x04\0\0\0\0\0\0\0\x01", b"\x84\x04\0\0\0\0\0\0\0\x02"),
    // Step 1: Finished 2 3
    (b"\x04\0\0\0\0\0\0\0\x01", b"\x84\x06\0\x02\0\x03"),
    // Step 1: Finished 3 3
    (b"\x04\0\0\0\0\0\0\0\x01", b"\x84\x06\0\x03\0\x03"),
    // Begin: 3
    (b"\x01", b"\x81\0\0\0\0\0\0\0\x03"),
    // Get 3 a c: Nothing
    (b"\x02\0\0\0\0\0\0\0\x03\0\0\0\x01a\0\0\0\x01c", b"\x82\0"),
    // Get 3 b c: Nothing
    (b"\x02\0\0\0\0\0\0\0\x03\0\0\0\x01b\0\0\0\x01c", b"\x82\0"),
    // Get 3 d c: w
    (
        b"\x02\0\0\0\0\0\0\0\x03\0\0\0\x01d\0\0\0\x01c",
        b"\x82\x01\0\0\0\x01w",
    ),
    // Raw a c write 0..9: stamp 2, 00 00 00 00 00 00 00 01 44
    (
        b"\x11\0\0\0\x01a\0\0\0\x01c\x03\0\0\0\0\0\0\0\0\0\0\0\0\0\0\0\x09",
        b"\x91\x01\0\0\0\0\0\0\0\x02\0\0\0\x09\0\0\0\0\0\0\0\x01D",
    ),
    // Raw d c write 0..9: stamp 2, 00 00 00 00 00 00 00 01 53
    (
        b"\x11\0\0\0\x01d\0\0\0\x01c\x03\0\0\0\0\0\0\0\0\0\0\0\0\0\0\0\x09",
        b"\x91\x01\0\0\0\0\0\0\0\x02\0\0\0\x09\0\0\0\0\0\0\0\x01S",
    ),
    // CollectBegin: 1, floor 3
    (b"\x08", b"\x88\0\0\0\0\0\0\0\x01\0\0\0\0\0\0\0\x03"),
    // CollectStep 1 100: Collected
    (b"\x09\0\0\0\0\0\0\0\x01\0\0\0d", b"\x89\x03"),
    // Raw a c write 0..9: nothing
    (
        b"\x11\0\0\0\x01a\0\0\0\x01c\x03\0\0\0\0\0\0\0\0\0\0\0\0\0\0\0\x09",
        b"\x91\0",
    ),
    // Raw b c write 0..9: nothing
    (
        b"\x11\0\0\0\x01b\0\0\0\x01c\x03\0\0\0\0\0\0\0\0\0\0\0\0\0\0\0\x09",
        b"\x91\0",
    ),
    // Get 3 b c: Nothing
    (b"\x02\0\0\0\0\0\0\0\x03\0\0\0\x01b\0\0\0\x01c", b"\x82\0"),
    // Get 3 d c: w
    (
        b"\x02\0\0\0\0\0\0\0\x03\0\0\0\x01d\0\0\0\x01c",
        b"\x82\x01\0\0\0\x01w",
    ),
];

/// A deletion is a write: a concurrent write of the cell is a conflict.
const CLASHES: [Exchange; 19] = [
    // Begin: 1
    (b"\x01", b"\x81\0\0\0\0\0\0\0\x01"),
    // Begin: 2
    (b"\x01", b"\x81\0\0\0\0\0\0\0\x02"),
    // Begin: 3
    (b"\x01", b"\x81\0\0\0\0\0\0\0\x03"),
    // Delete 1 r c: done
    (b"\x13\0\0\0\0\0\0\0\x01\0\0\0\x01r\0\0\0\x01c", b"\x93"),
    // Set 2 r c v: done
    (
        b"\x03\0\0\0\0\0\0\0\x02\0\0\0\x01r\0\0\0\x01c\0\0\0\x01v",
        b"\x83",
    ),
    // Delete 3 r c: done
    (b"\x13\0\0\0\0\0\0\0\x03\0\0\0\x01r\0\0\0\x01c", b"\x93"),
    // Step 2: Held 1 1
    (b"\x04\0\0\0\0\0\0\0\x02", b"\x84\x01\0\x01\0\x01"),
    // Step 1: Conflict 1
    (b"\x04\0\0\0\0\0\0\0\x01", b"\x84\x02\0\x01"),
    // Step 2: Stamped 4
    (b"\x04\0\0\0\0\0\0\0\x02", b"\x84\x03\0\0\0\0\0\0\0\x04"),
    // Step 2: Committed 4
    (b"\x04\0\0\0\0\0\0\0\x02", b"\x84\x04\0\0\0\0\0\0\0\x04"),
    // Step 3: Conflict 1
    (b"\x04\0\0\0\0\0\0\0\x03", b"\x84\x02\0\x01"),
    // Begin: 5
    (b"\x01", b"\x81\0\0\0\0\0\0\0\x05"),
    // Delete 5 r c: done
    (b"\x13\0\0\0\0\0\0\0\x05\0\0\0\x01r\0\0\0\x01c", b"\x93"),
    // Begin: 6
    (b"\x01", b"\x81\0\0\0\0\0\0\0\x06"),
    // Set 6 r c w: done
    (
        b"\x03\0\0\0\0\0\0\0\x06\0\0\0\x01r\0\0\0\x01c\0\0\0\x01w",
        b"\x83",
    ),
    // Step 5: Held 1 1
    (b"\x04\0\0\0\0\0\0\0\x05", b"\x84\x01\0\x01\0\x01"),
    // Step 5: Stamped 7
    (b"\x04\0\0\0\0\0\0\0\x05", b"\x84\x03\0\0\0\0\0\0\0\x07"),
    // Step 5: Committed 7
    (b"\x04\0\0\0\0\0\0\0\x05", b"\x84\x04\0\0\0\0\0\0\0\x07"),
    // Step 6: Conflict 1
    (b"\x04\0\0\0\0\0\0\0\x06", b"\x84\x02\0\x01"),
];

/// A session sets one cell and deletes the other.
const SECOND_DELETED: [Exchange; 7] = [
    // Begin: 3
    (b"\x01", b"\x81\0\0\0\0\0\0\0\x03"),
    // Set 3 a c w: done
    (
        b"\x03\0\0\0\0\0\0\0\x03\0\0\0\x01a\0\0\0\x01c\0\0\0\x01w",
        b"\x83",
    ),
    // Delete 3 r c: done
    (b"\x13\0\0\0\0\0\0\0\x03\0\0\0\x01r\0\0\0\x01c", b"\x93"),
    // Step 3: Held 1 2
    (b"\x04\0\0\0\0\0\0\0\x03", b"\x84\x01\0\x01\0\x02"),
    // Step 3: Held 2 2
    (b"\x04\0\0\0\0\0\0\0\x03", b"\x84\x01\0\x02\0\x02"),
    // Raw r c lock 0..9: stamp 3, 61 00 00 63 00 00 44
    (
        b"\x11\0\0\0\x01r\0\0\0\x01c\x02\0\0\0\0\0\0\0\0\0\0\0\0\0\0\0\x09",
        b"\x91\x01\0\0\0\0\0\0\0\x03\0\0\0\x07a\0\0c\0\0D",
    ),
    // Step 3: Stamped 4
    (b"\x04\0\0\0\0\0\0\0\x03", b"\x84\x03\0\0\0\0\0\0\0\x04"),
];

/// It stops after its commit, and a cleaner rolls the deletion forward.
const ROLLED_FORWARD: [Exchange; 11] = [
    // Step 3: Committed 4
    (b"\x04\0\0\0\0\0\0\0\x03", b"\x84\x04\0\0\0\0\0\0\0\x04"),
    // Stop 3: stopped
    (b"\x05\0\0\0\0\0\0\0\x03", b"\x85"),
    // Begin: 5
    (b"\x01", b"\x81\0\0\0\0\0\0\0\x05"),
    // Get 5 r c: Pending 3
    (
        b"\x02\0\0\0\0\0\0\0\x05\0\0\0\x01r\0\0\0\x01c",
        b"\x82\x02\0\0\0\0\0\0\0\x03",
    ),
    // CleanBegin r c: Cleaner 1 3
    (
        b"\x06\0\0\0\x01r\0\0\0\x01c",
        b"\x86\x01\0\0\0\0\0\0\0\x01\0\0\0\0\0\0\0\x03",
    ),
    // CleanStep 1: Decided
    (b"\x07\0\0\0\0\0\0\0\x01", b"\x87\x01"),
    // CleanStep 1: RolledForward 4
    (b"\x07\0\0\0\0\0\0\0\x01", b"\x87\x02\0\0\0\0\0\0\0\x04"),
    // Get 5 r c: Nothing
    (b"\x02\0\0\0\0\0\0\0\x05\0\0\0\x01r\0\0\0\x01c", b"\x82\0"),
    // Get 5 a c: w
    (
        b"\x02\0\0\0\0\0\0\0\x05\0\0\0\x01a\0\0\0\x01c",
        b"\x82\x01\0\0\0\x01w",
    ),
    // Raw r c write 0..9: stamp 4, 00 00 00 00 00 00 00 03 44
    (
        b"\x11\0\0\0\x01r\0\0\0\x01c\x03\0\0\0\0\0\0\0\0\0\0\0\0\0\0\0\x09",
        b"\x91\x01\0\0\0\0\0\0\0\x04\0\0\0\x09\0\0\0\0\0\0\0\x03D",
    ),
    // Raw r c data 2..9: nothing
    (
        b"\x11\0\0\0\x01r\0\0\0\x01c\x01\0\0\0\0\0\0\0\x02\0\0\0\0\0\0\0\x09",
        b"\x91\0",
    ),
];

/// A cleaner runs before the commit, and the commit is lost.
const ROLLED_BACK: [Exchange; 9] = [
    // Begin: 5
    (b"\x01", b"\x81\0\0\0\0\0\0\0\x05"),
    // CleanBegin r c: Cleaner 1 3
    (
        b"\x06\0\0\0\x01r\0\0\0\x01c",
        b"\x86\x01\0\0\0\0\0\0\0\x01\0\0\0\0\0\0\0\x03",
    ),
    // CleanStep 1: Decided
    (b"\x07\0\0\0\0\0\0\0\x01", b"\x87\x01"),
    // CleanStep 1: RolledBack
    (b"\x07\0\0\0\0\0\0\0\x01", b"\x87\x03"),
    // Get 5 r c: v
    (
        b"\x02\0\0\0\0\0\0\0\x05\0\0\0\x01r\0\0\0\x01c",
        b"\x82\x01\0\0\0\x01v",
    ),
    // Get 5 a c: Nothing
    (b"\x02\0\0\0\0\0\0\0\x05\0\0\0\x01a\0\0\0\x01c", b"\x82\0"),
    // Step 3: Lost
    (b"\x04\0\0\0\0\0\0\0\x03", b"\x84\x05"),
    // Step 3: refused 1
    (b"\x04\0\0\0\0\0\0\0\x03", b"\xFF\x01"),
    // Raw r c write 0..9: stamp 2, 00 00 00 00 00 00 00 01 53
    (
        b"\x11\0\0\0\x01r\0\0\0\x01c\x03\0\0\0\0\0\0\0\0\0\0\0\0\0\0\0\x09",
        b"\x91\x01\0\0\0\0\0\0\0\x02\0\0\0\x09\0\0\0\0\0\0\0\x01S",
    ),
];

/// A cleaner erases the lock of a deletion that is a session's first write.
const LOST: [Exchange; 13] = [
    // Begin: 3
    (b"\x01", b"\x81\0\0\0\0\0\0\0\x03"),
    // Delete 3 r c: done
    (b"\x13\0\0\0\0\0\0\0\x03\0\0\0\x01r\0\0\0\x01c", b"\x93"),
    // Step 3: Held 1 1
    (b"\x04\0\0\0\0\0\0\0\x03", b"\x84\x01\0\x01\0\x01"),
    // CleanBegin r c: Cleaner 1 3
    (
        b"\x06\0\0\0\x01r\0\0\0\x01c",
        b"\x86\x01\0\0\0\0\0\0\0\x01\0\0\0\0\0\0\0\x03",
    ),
    // CleanStep 1: Decided
    (b"\x07\0\0\0\0\0\0\0\x01", b"\x87\x01"),
    // CleanStep 1: Gone
    (b"\x07\0\0\0\0\0\0\0\x01", b"\x87\x04"),
    // Step 3: Stamped 4
    (b"\x04\0\0\0\0\0\0\0\x03", b"\x84\x03\0\0\0\0\0\0\0\x04"),
    // Step 3: Lost
    (b"\x04\0\0\0\0\0\0\0\x03", b"\x84\x05"),
    // Begin: 5
    (b"\x01", b"\x81\0\0\0\0\0\0\0\x05"),
    // Get 5 r c: v
    (
        b"\x02\0\0\0\0\0\0\0\x05\0\0\0\x01r\0\0\0\x01c",
        b"\x82\x01\0\0\0\x01v",
    ),
    // CollectBegin: 1, floor 5
    (b"\x08", b"\x88\0\0\0\0\0\0\0\x01\0\0\0\0\0\0\0\x05"),
    // CollectStep 1 100: Collected
    (b"\x09\0\0\0\0\0\0\0\x01\0\0\0d", b"\x89\x03"),
    // Get 5 r c: v
    (
        b"\x02\0\0\0\0\0\0\0\x05\0\0\0\x01r\0\0\0\x01c",
        b"\x82\x01\0\0\0\x01v",
    ),
];

/// Each refusal. If several apply, the first is answered.
const REFUSED: [Exchange; 12] = [
    // Delete 1 "" :: refused 1
    (b"\x13\0\0\0\0\0\0\0\x01\0\0\0\0\0\0\0\x01:", b"\xFF\x01"),
    // Begin: 1
    (b"\x01", b"\x81\0\0\0\0\0\0\0\x01"),
    // Delete 1 "" :: refused 3
    (b"\x13\0\0\0\0\0\0\0\x01\0\0\0\0\0\0\0\x01:", b"\xFF\x03"),
    // Delete 1 r :: refused 4
    (b"\x13\0\0\0\0\0\0\0\x01\0\0\0\x01r\0\0\0\x01:", b"\xFF\x04"),
    // Delete 1 r "": refused 4
    (b"\x13\0\0\0\0\0\0\0\x01\0\0\0\x01r\0\0\0\0", b"\xFF\x04"),
    // Step 1: refused 8
    (b"\x04\0\0\0\0\0\0\0\x01", b"\xFF\x08"),
    // Delete 1 r c: done
    (b"\x13\0\0\0\0\0\0\0\x01\0\0\0\x01r\0\0\0\x01c", b"\x93"),
    // Step 1: Held 1 1
    (b"\x04\0\0\0\0\0\0\0\x01", b"\x84\x01\0\x01\0\x01"),
    // Delete 1 "" :: refused 2
    (b"\x13\0\0\0\0\0\0\0\x01\0\0\0\0\0\0\0\x01:", b"\xFF\x02"),
    // Step 1: Stamped 2
    (b"\x04\0\0\0\0\0\0\0\x01", b"\x84\x03\0\0\0\0\0\0\0\x02"),
    // Step 1: Committed 2
    (b"\x04\0\0\0\0\0\0\0\x01", b"\x84\x04\0\0\0\0\0\0\0\x02"),
    // Delete 1 r c: refused 1
    (b"\x13\0\0\0\0\0\0\0\x01\0\0\0\x01r\0\0\0\x01c", b"\xFF\x01"),
];

/// Rows of deletions.
pub const ROWS: [Row; 9] = [
    // a deletion is read and collected
    (
        0,
        &[
            &CELL_HELD,
            &CELL_STAMPED,
            &CELL_COMMITTED,
            &DELETED,
            &COLLECTED,
        ],
    ),
    (
        0,
        &[&CELL_HELD, &CELL_STAMPED, &CELL_COMMITTED, &DELETED, &KEPT],
    ),
    (
        0,
        &[
            &CELL_HELD,
            &CELL_STAMPED,
            &CELL_COMMITTED,
            &DELETED,
            &SET_AGAIN,
        ],
    ),
    (0, &[&REPLACED]),
    (0, &[&CLASHES]),
    (
        0,
        &[
            &CELL_HELD,
            &CELL_STAMPED,
            &CELL_COMMITTED,
            &SECOND_DELETED,
            &ROLLED_FORWARD,
        ],
    ),
    (
        0,
        &[
            &CELL_HELD,
            &CELL_STAMPED,
            &CELL_COMMITTED,
            &SECOND_DELETED,
            &ROLLED_BACK,
        ],
    ),
    (0, &[&CELL_HELD, &CELL_STAMPED, &CELL_COMMITTED, &LOST]),
    (0, &[&REFUSED]),
];
