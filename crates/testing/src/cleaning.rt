//! Rows of exchanges with cleaners.

use crate::rows::{COMMITTED, Exchange, Row, STAMPED};

/// The transfer stops.
pub const SESSION_STOPPED: [Exchange; 1] = [
    // Stop 3: done
    (b"\x05\0\0\0\0\0\0\0\x03", b"\x85"),
];

/// A later session reads the transfer's first cell, and finds the other pending.
const READ_PENDING: [Exchange; 3] = [
    // Begin: 5
    (b"\x01", b"\x81\0\0\0\0\0\0\0\x05"),
    // Get 5 Bob bal: 3
    (
        b"\x02\0\0\0\0\0\0\0\x05\0\0\0\x03Bob\0\0\0\x03bal",
        b"\x82\x01\0\0\0\x013",
    ),
    // Get 5 Joe bal: Pending 3
    (
        b"\x02\0\0\0\0\0\0\0\x05\0\0\0\x03Joe\0\0\0\x03bal",
        b"\x82\x02\0\0\0\0\0\0\0\x03",
    ),
];

/// A cleaner rolls the other cell forward.
pub const ROLLED_FORWARD: [Exchange; 3] = [
    // CleanBegin Joe bal: Cleaner 1 3
    (
        b"\x06\0\0\0\x03Joe\0\0\0\x03bal",
        b"\x86\x01\0\0\0\0\0\0\0\x01\0\0\0\0\0\0\0\x03",
    ),
    // CleanStep 1: Decided
    (b"\x07\0\0\0\0\0\0\0\x01", b"\x87\x01"),
    // CleanStep 1: RolledForward 4
    (b"\x07\0\0\0\0\0\0\0\x01", b"\x87\x02\0\0\0\0\0\0\0\x04"),
];

/// It is done, and the cell is read.
const READ_NEW: [Exchange; 2] = [
    // CleanStep 1: refused 9
    (b"\x07\0\0\0\0\0\0\0\x01", b"\xFF\x09"),
    // Get 5 Joe bal: 9
    (
        b"\x02\0\0\0\0\0\0\0\x05\0\0\0\x03Joe\0\0\0\x03bal",
        b"\x82\x01\0\0\0\x019",
    ),
];

/// A cleaner rolls a stamped transfer back, and both cells are read.
const ROLLED_BACK: [Exchange; 6] = [
    // Begin: 5
    (b"\x01", b"\x81\0\0\0\0\0\0\0\x05"),
    // CleanBegin Joe bal: Cleaner 1 3
    (
        b"\x06\0\0\0\x03Joe\0\0\0\x03bal",
        b"\x86\x01\0\0\0\0\0\0\0\x01\0\0\0\0\0\0\0\x03",
    ),
    // CleanStep 1: Decided
    (b"\x07\0\0\0\0\0\0\0\x01", b"\x87\x01"),
    // CleanStep 1: RolledBack
    (b"\x07\0\0\0\0\0\0\0\x01", b"\x87\x03"),
    // Get 5 Bob bal: 10
    (
        b"\x02\0\0\0\0\0\0\0\x05\0\0\0\x03Bob\0\0\0\x03bal",
        b"\x82\x01\0\0\0\x0210",
    ),
    // Get 5 Joe bal: 2
    (
        b"\x02\0\0\0\0\0\0\0\x05\0\0\0\x03Joe\0\0\0\x03bal",
        b"\x82\x01\0\0\0\x012",
    ),
];

/// Its commit is lost.
const LOST: [Exchange; 2] = [
    // Step 3: Lost
    (b"\x04\0\0\0\0\0\0\0\x03", b"\x84\x05"),
    // Step 3: refused 1
    (b"\x04\0\0\0\0\0\0\0\x03", b"\xFF\x01"),
];

/// A session is cleaned while it holds its cells.
const CLEANED_WHILE_HOLDING: [Exchange; 16] = [
    // Begin: 1
    (b"\x01", b"\x81\0\0\0\0\0\0\0\x01"),
    // Set 1 a c v: done
    (
        b"\x03\0\0\0\0\0\0\0\x01\0\0\0\x01a\0\0\0\x01c\0\0\0\x01v",
        b"\x83",
    ),
    // Set 1 b c v: done
    (
        b"\x03\0\0\0\0\0\0\0\x01\0\0\0\x01b\0\0\0\x01c\0\0\0\x01v",
        b"\x83",
    ),
    // Step 1: Held 1 2
    (b"\x04\0\0\0\0\0\0\0\x01", b"\x84\x01\0\x01\0\x02"),
    // CleanBegin a c: Cleaner 1 1
    (
        b"\x06\0\0\0\x01a\0\0\0\x01c",
        b"\x86\x01\0\0\0\0\0\0\0\x01\0\0\0\0\0\0\0\x01",
    ),
    // CleanStep 1: Decided
    (b"\x07\0\0\0\0\0\0\0\x01", b"\x87\x01"),
    // CleanStep 1: Gone
    (b"\x07\0\0\0\0\0\0\0\x01", b"\x87\x04"),
    // Step 1: Held 2 2
    (b"\x04\0\0\0\0\0\0\0\x01", b"\x84\x01\0\x02\0\x02"),
    // Step 1: Stamped 2
    (b"\x04\0\0\0\0\0\0\0\x01", b"\x84\x03\0\0\0\0\0\0\0\x02"),
    // Step 1: Lost
    (b"\x04\0\0\0\0\0\0\0\x01", b"\x84\x05"),
    // Begin: 3
    (b"\x01", b"\x81\0\0\0\0\0\0\0\x03"),
    // Get 3 b c: Pending 1
    (
        b"\x02\0\0\0\0\0\0\0\x03\0\0\0\x01b\0\0\0\x01c",
        b"\x82\x02\0\0\0\0\0\0\0\x01",
    ),
    // CleanBegin b c: Cleaner 2 1
    (
        b"\x06\0\0\0\x01b\0\0\0\x01c",
        b"\x86\x01\0\0\0\0\0\0\0\x02\0\0\0\0\0\0\0\x01",
    ),
    // CleanStep 2: Decided
    (b"\x07\0\0\0\0\0\0\0\x02", b"\x87\x01"),
    // CleanStep 2: RolledBack
    (b"\x07\0\0\0\0\0\0\0\x02", b"\x87\x03"),
    // Get 3 b c: Nothing
    (b"\x02\0\0\0\0\0\0\0\x03\0\0\0\x01b\0\0\0\x01c", b"\x82\0"),
];

/// No cleaner begins if there is no lock.
const NO_LOCK: [Exchange; 1] = [
    // CleanBegin Bob bal: NoLock
    (b"\x06\0\0\0\x03Bob\0\0\0\x03bal", b"\x86\0"),
];

/// Two cleaners of one lock begin, and the second takes its first step.
const TWO_CLEANERS: [Exchange; 3] = [
    // CleanBegin Joe bal: Cleaner 1 3
    (
        b"\x06\0\0\0\x03Joe\0\0\0\x03bal",
        b"\x86\x01\0\0\0\0\0\0\0\x01\0\0\0\0\0\0\0\x03",
    ),
    // CleanBegin Joe bal: Cleaner 2 3
    (
        b"\x06\0\0\0\x03Joe\0\0\0\x03bal",
        b"\x86\x01\0\0\0\0\0\0\0\x02\0\0\0\0\0\0\0\x03",
    ),
    // CleanStep 2: Decided
    (b"\x07\0\0\0\0\0\0\0\x02", b"\x87\x01"),
];

/// The second finds the lock gone.
const STALE: [Exchange; 4] = [
    // CleanStep 1: Decided
    (b"\x07\0\0\0\0\0\0\0\x01", b"\x87\x01"),
    // CleanStep 1: RolledForward 4
    (b"\x07\0\0\0\0\0\0\0\x01", b"\x87\x02\0\0\0\0\0\0\0\x04"),
    // CleanStep 2: Gone
    (b"\x07\0\0\0\0\0\0\0\x02", b"\x87\x04"),
    // CleanStep 2: refused 9
    (b"\x07\0\0\0\0\0\0\0\x02", b"\xFF\x09"),
];

/// Cleaners stop before their first step, between the two, and after the second.
const STOPPED: [Exchange; 12] = [
    // Begin: 5
    (b"\x01", b"\x81\0\0\0\0\0\0\0\x05"),
    // Get 5 Joe bal: Pending 3
    (
        b"\x02\0\0\0\0\0\0\0\x05\0\0\0\x03Joe\0\0\0\x03bal",
        b"\x82\x02\0\0\0\0\0\0\0\x03",
    ),
    // Get 5 Bob bal: 10
    (
        b"\x02\0\0\0\0\0\0\0\x05\0\0\0\x03Bob\0\0\0\x03bal",
        b"\x82\x01\0\0\0\x0210",
    ),
    // CleanBegin Joe bal: Cleaner 3 3
    (
        b"\x06\0\0\0\x03Joe\0\0\0\x03bal",
        b"\x86\x01\0\0\0\0\0\0\0\x03\0\0\0\0\0\0\0\x03",
    ),
    // CleanStep 3: Decided
    (b"\x07\0\0\0\0\0\0\0\x03", b"\x87\x01"),
    // CleanStep 3: RolledBack
    (b"\x07\0\0\0\0\0\0\0\x03", b"\x87\x03"),
    // CleanBegin Joe bal: NoLock
    (b"\x06\0\0\0\x03Joe\0\0\0\x03bal", b"\x86\0"),
    // Step 3: Lost
    (b"\x04\0\0\0\0\0\0\0\x03", b"\x84\x05"),
    // CleanStep 2: Gone
    (b"\x07\0\0\0\0\0\0\0\x02", b"\x87\x04"),
    // CleanStep 1: Decided
    (b"\x07\0\0\0\0\0\0\0\x01", b"\x87\x01"),
    // CleanStep 1: Gone
    (b"\x07\0\0\0\0\0\0\0\x01", b"\x87\x04"),
    // Get 5 Joe bal: 2
    (
        b"\x02\0\0\0\0\0\0\0\x05\0\0\0\x03Joe\0\0\0\x03bal",
        b"\x82\x01\0\0\0\x012",
    ),
];

/// Rows of cleaners.
pub const ROWS: [Row; 6] = [
    // a committed transfer is rolled forward
    (
        COMMITTED,
        &[&SESSION_STOPPED, &READ_PENDING, &ROLLED_FORWARD, &READ_NEW],
    ),
    // a stamped transfer is rolled back
    (STAMPED, &[&SESSION_STOPPED, &ROLLED_BACK]),
    // a stamped transfer whose session still runs is rolled back too
    (STAMPED, &[&ROLLED_BACK, &LOST]),
    (0, &[&CLEANED_WHILE_HOLDING]),
    (
        COMMITTED,
        &[&SESSION_STOPPED, &NO_LOCK, &TWO_CLEANERS, &STALE],
    ),
    (STAMPED, &[&TWO_CLEANERS, &STOPPED]),
];
