//! Rows of exchanges with collectors.

use crate::cleaning::{ROLLED_FORWARD, SESSION_STOPPED};
use crate::rows::{COMMITTED, Exchange, Row};

/// A collector is blocked by the lock of the transfer.
const BLOCKED: [Exchange; 2] = [
    // CollectBegin: 1, floor 5
    (b"\x08", b"\x88\0\0\0\0\0\0\0\x01\0\0\0\0\0\0\0\x05"),
    // CollectStep 1 10: Blocked Joe bal 3
    (
        b"\x09\0\0\0\0\0\0\0\x01\0\0\0\x0A",
        b"\x89\x02\0\0\0\x03Joe\0\0\0\x03bal\0\0\0\0\0\0\0\x03",
    ),
];

/// It continues after the lock was cleaned.
const COLLECTED: [Exchange; 2] = [
    // CollectStep 1 6: More
    (b"\x09\0\0\0\0\0\0\0\x01\0\0\0\x06", b"\x89\x01"),
    // CollectStep 1 1: Collected
    (b"\x09\0\0\0\0\0\0\0\x01\0\0\0\x01", b"\x89\x03"),
];

/// The old versions are gone.
const OLD_GONE: [Exchange; 3] = [
    // Raw Joe bal write 0..9: stamp 4, start 3, set
    (
        b"\x11\0\0\0\x03Joe\0\0\0\x03bal\x03\0\0\0\0\0\0\0\0\0\0\0\0\0\0\0\x09",
        b"\x91\x01\0\0\0\0\0\0\0\x04\0\0\0\x09\0\0\0\0\0\0\0\x03S",
    ),
    // Raw Joe bal write 0..3: nothing
    (
        b"\x11\0\0\0\x03Joe\0\0\0\x03bal\x03\0\0\0\0\0\0\0\0\0\0\0\0\0\0\0\x03",
        b"\x91\0",
    ),
    // Raw Joe bal data 0..2: nothing
    (
        b"\x11\0\0\0\x03Joe\0\0\0\x03bal\x01\0\0\0\0\0\0\0\0\0\0\0\0\0\0\0\x02",
        b"\x91\0",
    ),
];

/// The transfer's first cell is written once more, and a collector is blocked. The lock is still seen.
const OVERWRITTEN: [Exchange; 9] = [
    // Begin: 5
    (b"\x01", b"\x81\0\0\0\0\0\0\0\x05"),
    // Set 5 Bob bal 1: done
    (
        b"\x03\0\0\0\0\0\0\0\x05\0\0\0\x03Bob\0\0\0\x03bal\0\0\0\x011",
        b"\x83",
    ),
    // Step 5: Held 1 1
    (b"\x04\0\0\0\0\0\0\0\x05", b"\x84\x01\0\x01\0\x01"),
    // Step 5: Stamped 6
    (b"\x04\0\0\0\0\0\0\0\x05", b"\x84\x03\0\0\0\0\0\0\0\x06"),
    // Step 5: Committed 6
    (b"\x04\0\0\0\0\0\0\0\x05", b"\x84\x04\0\0\0\0\0\0\0\x06"),
    // CollectBegin: 1, floor 7
    (b"\x08", b"\x88\0\0\0\0\0\0\0\x01\0\0\0\0\0\0\0\x07"),
    // CollectStep 1 10: Blocked Joe bal 3
    (
        b"\x09\0\0\0\0\0\0\0\x01\0\0\0\x0A",
        b"\x89\x02\0\0\0\x03Joe\0\0\0\x03bal\0\0\0\0\0\0\0\x03",
    ),
    // Begin: 7
    (b"\x01", b"\x81\0\0\0\0\0\0\0\x07"),
    // Get 7 Joe bal: Pending 3
    (
        b"\x02\0\0\0\0\0\0\0\x07\0\0\0\x03Joe\0\0\0\x03bal",
        b"\x82\x02\0\0\0\0\0\0\0\x03",
    ),
];

/// The other cell is read.
const OTHER_READ: [Exchange; 1] = [
    // Get 7 Joe bal: 9
    (
        b"\x02\0\0\0\0\0\0\0\x07\0\0\0\x03Joe\0\0\0\x03bal",
        b"\x82\x01\0\0\0\x019",
    ),
];

/// The record of the first cell is gone.
const PRIMARY_GONE: [Exchange; 2] = [
    // Get 7 Bob bal: 1
    (
        b"\x02\0\0\0\0\0\0\0\x07\0\0\0\x03Bob\0\0\0\x03bal",
        b"\x82\x01\0\0\0\x011",
    ),
    // Raw Bob bal write 0..5: nothing
    (
        b"\x11\0\0\0\x03Bob\0\0\0\x03bal\x03\0\0\0\0\0\0\0\0\0\0\0\0\0\0\0\x05",
        b"\x91\0",
    ),
];

/// Old versions are kept until an old session stops.
const OLD_READER: [Exchange; 22] = [
    // Begin: 1
    (b"\x01", b"\x81\0\0\0\0\0\0\0\x01"),
    // Begin: 2
    (b"\x01", b"\x81\0\0\0\0\0\0\0\x02"),
    // Set 2 x c 1: done
    (
        b"\x03\0\0\0\0\0\0\0\x02\0\0\0\x01x\0\0\0\x01c\0\0\0\x011",
        b"\x83",
    ),
    // Step 2: Held 1 1
    (b"\x04\0\0\0\0\0\0\0\x02", b"\x84\x01\0\x01\0\x01"),
    // Step 2: Stamped 3
    (b"\x04\0\0\0\0\0\0\0\x02", b"\x84\x03\0\0\0\0\0\0\0\x03"),
    // Step 2: Committed 3
    (b"\x04\0\0\0\0\0\0\0\x02", b"\x84\x04\0\0\0\0\0\0\0\x03"),
    // Begin: 4
    (b"\x01", b"\x81\0\0\0\0\0\0\0\x04"),
    // Set 4 x c 2: done
    (
        b"\x03\0\0\0\0\0\0\0\x04\0\0\0\x01x\0\0\0\x01c\0\0\0\x012",
        b"\x83",
    ),
    // Step 4: Held 1 1
    (b"\x04\0\0\0\0\0\0\0\x04", b"\x84\x01\0\x01\0\x01"),
    // Step 4: Stamped 5
    (b"\x04\0\0\0\0\0\0\0\x04", b"\x84\x03\0\0\0\0\0\0\0\x05"),
    // Step 4: Committed 5
    (b"\x04\0\0\0\0\0\0\0\x04", b"\x84\x04\0\0\0\0\0\0\0\x05"),
    // CollectBegin: 1, floor 1
    (b"\x08", b"\x88\0\0\0\0\0\0\0\x01\0\0\0\0\0\0\0\x01"),
    // CollectStep 1 100: Collected
    (b"\x09\0\0\0\0\0\0\0\x01\0\0\0d", b"\x89\x03"),
    // Get 1 x c: Nothing
    (b"\x02\0\0\0\0\0\0\0\x01\0\0\0\x01x\0\0\0\x01c", b"\x82\0"),
    // Begin: 6
    (b"\x01", b"\x81\0\0\0\0\0\0\0\x06"),
    // Get 6 x c: 2
    (
        b"\x02\0\0\0\0\0\0\0\x06\0\0\0\x01x\0\0\0\x01c",
        b"\x82\x01\0\0\0\x012",
    ),
    // Raw x c write 0..4: stamp 3, start 2, set
    (
        b"\x11\0\0\0\x01x\0\0\0\x01c\x03\0\0\0\0\0\0\0\0\0\0\0\0\0\0\0\x04",
        b"\x91\x01\0\0\0\0\0\0\0\x03\0\0\0\x09\0\0\0\0\0\0\0\x02S",
    ),
    // Stop 1: done
    (b"\x05\0\0\0\0\0\0\0\x01", b"\x85"),
    // CollectBegin: 2, floor 6
    (b"\x08", b"\x88\0\0\0\0\0\0\0\x02\0\0\0\0\0\0\0\x06"),
    // CollectStep 2 100: Collected
    (b"\x09\0\0\0\0\0\0\0\x02\0\0\0d", b"\x89\x03"),
    // Raw x c write 0..4: nothing
    (
        b"\x11\0\0\0\x01x\0\0\0\x01c\x03\0\0\0\0\0\0\0\0\0\0\0\0\0\0\0\x04",
        b"\x91\0",
    ),
    // Get 6 x c: 2
    (
        b"\x02\0\0\0\0\0\0\0\x06\0\0\0\x01x\0\0\0\x01c",
        b"\x82\x01\0\0\0\x012",
    ),
];

/// There is nothing to collect.
const EMPTY: [Exchange; 5] = [
    // CollectBegin: 1, floor 1
    (b"\x08", b"\x88\0\0\0\0\0\0\0\x01\0\0\0\0\0\0\0\x01"),
    // CollectStep 1 0: refused 14
    (b"\x09\0\0\0\0\0\0\0\x01\0\0\0\0", b"\xFF\x0E"),
    // CollectStep 1 1: More
    (b"\x09\0\0\0\0\0\0\0\x01\0\0\0\x01", b"\x89\x01"),
    // CollectStep 1 1: Collected
    (b"\x09\0\0\0\0\0\0\0\x01\0\0\0\x01", b"\x89\x03"),
    // CollectStep 1 1: refused 10
    (b"\x09\0\0\0\0\0\0\0\x01\0\0\0\x01", b"\xFF\x0A"),
];

/// Rows of collectors.
pub const ROWS: [Row; 4] = [
    // a collector is blocked by a lock that a stopped session left, and continues after it was cleaned
    (
        COMMITTED,
        &[
            &SESSION_STOPPED,
            &BLOCKED,
            &ROLLED_FORWARD,
            &COLLECTED,
            &OLD_GONE,
        ],
    ),
    // the first cell's commit record is kept while a lock of its transaction remains, and is collected afterwards
    (
        COMMITTED,
        &[
            &SESSION_STOPPED,
            &OVERWRITTEN,
            &ROLLED_FORWARD,
            &OTHER_READ,
            &COLLECTED,
            &PRIMARY_GONE,
        ],
    ),
    (0, &[&OLD_READER]),
    (0, &[&EMPTY]),
];
