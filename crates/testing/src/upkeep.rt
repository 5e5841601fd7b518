//! Rows of exchanges with compactions, splits, moves, sweeps and raw reads.

use crate::rows::{
    BALANCES, CELL_COMMITTED, CELL_HELD, CELL_STAMPED, COMMITTED, Exchange, HELD, Row,
};

/// Splits, moves and a raw read of a lock.
const TABLETS: [Exchange; 16] = [
    // Split m: 2
    (b"\x0D\0\0\0\x01m", b"\x8D\0\0\0\x02"),
    // Split m: refused 12
    (b"\x0D\0\0\0\x01m", b"\xFF\x0C"),
    // Move 3 16: refused 11
    (b"\x0E\0\0\0\x03\x10", b"\xFF\x0B"),
    // Move 2 16: refused 13
    (b"\x0E\0\0\0\x02\x10", b"\xFF\x0D"),
    // Move 2 3: done
    (b"\x0E\0\0\0\x02\x03", b"\x8E"),
    // Begin: 1
    (b"\x01", b"\x81\0\0\0\0\0\0\0\x01"),
    // Set 1 m c v: done
    (
        b"\x03\0\0\0\0\0\0\0\x01\0\0\0\x01m\0\0\0\x01c\0\0\0\x01v",
        b"\x83",
    ),
    // Step 1: Held 1 1
    (b"\x04\0\0\0\0\0\0\0\x01", b"\x84\x01\0\x01\0\x01"),
    // Raw m c lock 0..9: stamp 1, 6D 00 00 63 00 00 53
    (
        b"\x11\0\0\0\x01m\0\0\0\x01c\x02\0\0\0\0\0\0\0\0\0\0\0\0\0\0\0\x09",
        b"\x91\x01\0\0\0\0\0\0\0\x01\0\0\0\x07m\0\0c\0\0S",
    ),
    // Raw m c lock 9..0: nothing
    (
        b"\x11\0\0\0\x01m\0\0\0\x01c\x02\0\0\0\0\0\0\0\x09\0\0\0\0\0\0\0\0",
        b"\x91\0",
    ),
    // Raw m c 04 0..9: refused 22
    (
        b"\x11\0\0\0\x01m\0\0\0\x01c\x04\0\0\0\0\0\0\0\0\0\0\0\0\0\0\0\x09",
        b"\xFF\x16",
    ),
    // Major 2: done
    (b"\x0C\0\0\0\x02", b"\x8C"),
    // Raw m c lock 0..9: stamp 1, 6D 00 00 63 00 00 53
    (
        b"\x11\0\0\0\x01m\0\0\0\x01c\x02\0\0\0\0\0\0\0\0\0\0\0\0\0\0\0\x09",
        b"\x91\x01\0\0\0\0\0\0\0\x01\0\0\0\x07m\0\0c\0\0S",
    ),
    // Merge 2 2: refused 14
    (b"\x0B\0\0\0\x02\0\0\0\x02", b"\xFF\x0E"),
    // Split n: 3
    (b"\x0D\0\0\0\x01n", b"\x8D\0\0\0\x03"),
    // Sweep: 0
    (b"\x0F", b"\x8F\0\0\0\0\0\0\0\0"),
];

/// After one cell is held: a merge of the newest files keeps the erasure of a lock in an older file.
const ERASURES: [Exchange; 24] = [
    // Minor 1: done
    (b"\x0A\0\0\0\x01", b"\x8A"),
    // Step 1: Stamped 2
    (b"\x04\0\0\0\0\0\0\0\x01", b"\x84\x03\0\0\0\0\0\0\0\x02"),
    // Begin: 3
    (b"\x01", b"\x81\0\0\0\0\0\0\0\x03"),
    // Set 3 q c w: done
    (
        b"\x03\0\0\0\0\0\0\0\x03\0\0\0\x01q\0\0\0\x01c\0\0\0\x01w",
        b"\x83",
    ),
    // Step 3: Held 1 1
    (b"\x04\0\0\0\0\0\0\0\x03", b"\x84\x01\0\x01\0\x01"),
    // Minor 1: done
    (b"\x0A\0\0\0\x01", b"\x8A"),
    // Step 1: Committed 2
    (b"\x04\0\0\0\0\0\0\0\x01", b"\x84\x04\0\0\0\0\0\0\0\x02"),
    // Minor 1: done
    (b"\x0A\0\0\0\x01", b"\x8A"),
    // Merge 1 2: done
    (b"\x0B\0\0\0\x01\0\0\0\x02", b"\x8B"),
    // Begin: 4
    (b"\x01", b"\x81\0\0\0\0\0\0\0\x04"),
    // Get 4 r c: v
    (
        b"\x02\0\0\0\0\0\0\0\x04\0\0\0\x01r\0\0\0\x01c",
        b"\x82\x01\0\0\0\x01v",
    ),
    // Merge 1 3: refused 14
    (b"\x0B\0\0\0\x01\0\0\0\x03", b"\xFF\x0E"),
    // Sweep: 2
    (b"\x0F", b"\x8F\0\0\0\0\0\0\0\x02"),
    // Raw r c lock 0..9: nothing
    (
        b"\x11\0\0\0\x01r\0\0\0\x01c\x02\0\0\0\0\0\0\0\0\0\0\0\0\0\0\0\x09",
        b"\x91\0",
    ),
    // Get 4 q c: Pending 3
    (
        b"\x02\0\0\0\0\0\0\0\x04\0\0\0\x01q\0\0\0\x01c",
        b"\x82\x02\0\0\0\0\0\0\0\x03",
    ),
    // Merge 1 2: done
    (b"\x0B\0\0\0\x01\0\0\0\x02", b"\x8B"),
    // Raw r c lock 0..9: nothing
    (
        b"\x11\0\0\0\x01r\0\0\0\x01c\x02\0\0\0\0\0\0\0\0\0\0\0\0\0\0\0\x09",
        b"\x91\0",
    ),
    // Get 4 r c: v
    (
        b"\x02\0\0\0\0\0\0\0\x04\0\0\0\x01r\0\0\0\x01c",
        b"\x82\x01\0\0\0\x01v",
    ),
    // Major 1: done
    (b"\x0C\0\0\0\x01", b"\x8C"),
    // Raw r c lock 0..9: nothing
    (
        b"\x11\0\0\0\x01r\0\0\0\x01c\x02\0\0\0\0\0\0\0\0\0\0\0\0\0\0\0\x09",
        b"\x91\0",
    ),
    // Raw q c lock 0..9: stamp 3, 71 00 00 63 00 00 53
    (
        b"\x11\0\0\0\x01q\0\0\0\x01c\x02\0\0\0\0\0\0\0\0\0\0\0\0\0\0\0\x09",
        b"\x91\x01\0\0\0\0\0\0\0\x03\0\0\0\x07q\0\0c\0\0S",
    ),
    // Raw r c write 0..9: stamp 2, 00 00 00 00 00 00 00 01 53
    (
        b"\x11\0\0\0\x01r\0\0\0\x01c\x03\0\0\0\0\0\0\0\0\0\0\0\0\0\0\0\x09",
        b"\x91\x01\0\0\0\0\0\0\0\x02\0\0\0\x09\0\0\0\0\0\0\0\x01S",
    ),
    // Sweep: 3
    (b"\x0F", b"\x8F\0\0\0\0\0\0\0\x03"),
    // Get 4 r c: v
    (
        b"\x02\0\0\0\0\0\0\0\x04\0\0\0\x01r\0\0\0\x01c",
        b"\x82\x01\0\0\0\x01v",
    ),
];

/// A session that holds cells continues across a split and two moves.
const SPLIT_UNDER_A_SESSION: [Exchange; 11] = [
    // Split Bob: 2
    (b"\x0D\0\0\0\x03Bob", b"\x8D\0\0\0\x02"),
    // Split Bob: refused 12
    (b"\x0D\0\0\0\x03Bob", b"\xFF\x0C"),
    // Move 2 3: done
    (b"\x0E\0\0\0\x02\x03", b"\x8E"),
    // Move 1 4: done
    (b"\x0E\0\0\0\x01\x04", b"\x8E"),
    // Begin: 4
    (b"\x01", b"\x81\0\0\0\0\0\0\0\x04"),
    // Get 4 Bob bal: Pending 3
    (
        b"\x02\0\0\0\0\0\0\0\x04\0\0\0\x03Bob\0\0\0\x03bal",
        b"\x82\x02\0\0\0\0\0\0\0\x03",
    ),
    // Step 3: Stamped 5
    (b"\x04\0\0\0\0\0\0\0\x03", b"\x84\x03\0\0\0\0\0\0\0\x05"),
    // Step 3: Committed 5
    (b"\x04\0\0\0\0\0\0\0\x03", b"\x84\x04\0\0\0\0\0\0\0\x05"),
    // Step 3: Finished 2 2
    (b"\x04\0\0\0\0\0\0\0\x03", b"\x84\x06\0\x02\0\x02"),
    // Get 4 Bob bal: 10
    (
        b"\x02\0\0\0\0\0\0\0\x04\0\0\0\x03Bob\0\0\0\x03bal",
        b"\x82\x01\0\0\0\x0210",
    ),
    // Get 4 Joe bal: 2
    (
        b"\x02\0\0\0\0\0\0\0\x04\0\0\0\x03Joe\0\0\0\x03bal",
        b"\x82\x01\0\0\0\x012",
    ),
];

/// The tablets of a split share the parent's files: each reads and writes its own rows, and a file is removed when
/// neither has it any more.
const SHARED_FILES: [Exchange; 36] = [
    // Stop 3: stopped
    (b"\x05\0\0\0\0\0\0\0\x03", b"\x85"),
    // Minor 1: done
    (b"\x0A\0\0\0\x01", b"\x8A"),
    // Split Bob: 2
    (b"\x0D\0\0\0\x03Bob", b"\x8D\0\0\0\x02"),
    // Move 2 3: done
    (b"\x0E\0\0\0\x02\x03", b"\x8E"),
    // Sweep: 0
    (b"\x0F", b"\x8F\0\0\0\0\0\0\0\0"),
    // Begin: 5
    (b"\x01", b"\x81\0\0\0\0\0\0\0\x05"),
    // Get 5 Bob bal: 3
    (
        b"\x02\0\0\0\0\0\0\0\x05\0\0\0\x03Bob\0\0\0\x03bal",
        b"\x82\x01\0\0\0\x013",
    ),
    // Get 5 Joe bal: Pending 3
    (
        b"\x02\0\0\0\0\0\0\0\x05\0\0\0\x03Joe\0\0\0\x03bal",
        b"\x82\x02\0\0\0\0\0\0\0\x03",
    ),
    // Set 5 Zoe bal 7: done
    (
        b"\x03\0\0\0\0\0\0\0\x05\0\0\0\x03Zoe\0\0\0\x03bal\0\0\0\x017",
        b"\x83",
    ),
    // Step 5: Held 1 1
    (b"\x04\0\0\0\0\0\0\0\x05", b"\x84\x01\0\x01\0\x01"),
    // Minor 1: done
    (b"\x0A\0\0\0\x01", b"\x8A"),
    // Merge 2 2: refused 14
    (b"\x0B\0\0\0\x02\0\0\0\x02", b"\xFF\x0E"),
    // Merge 1 2: done
    (b"\x0B\0\0\0\x01\0\0\0\x02", b"\x8B"),
    // Sweep: 1
    (b"\x0F", b"\x8F\0\0\0\0\0\0\0\x01"),
    // Raw Joe bal lock 0..9: stamp 3, 42 6F 62 00 00 62 61 6C 00 00 53
    (
        b"\x11\0\0\0\x03Joe\0\0\0\x03bal\x02\0\0\0\0\0\0\0\0\0\0\0\0\0\0\0\x09",
        b"\x91\x01\0\0\0\0\0\0\0\x03\0\0\0\x0BBob\0\0bal\0\0S",
    ),
    // Raw Bob bal lock 0..9: nothing
    (
        b"\x11\0\0\0\x03Bob\0\0\0\x03bal\x02\0\0\0\0\0\0\0\0\0\0\0\0\0\0\0\x09",
        b"\x91\0",
    ),
    // Raw Bob bal write 0..9: stamp 4, 00 00 00 00 00 00 00 03 53
    (
        b"\x11\0\0\0\x03Bob\0\0\0\x03bal\x03\0\0\0\0\0\0\0\0\0\0\0\0\0\0\0\x09",
        b"\x91\x01\0\0\0\0\0\0\0\x04\0\0\0\x09\0\0\0\0\0\0\0\x03S",
    ),
    // Raw Bob bal write 0..3: stamp 2, 00 00 00 00 00 00 00 01 53
    (
        b"\x11\0\0\0\x03Bob\0\0\0\x03bal\x03\0\0\0\0\0\0\0\0\0\0\0\0\0\0\0\x03",
        b"\x91\x01\0\0\0\0\0\0\0\x02\0\0\0\x09\0\0\0\0\0\0\0\x01S",
    ),
    // Raw Bob bal data 2..2: nothing
    (
        b"\x11\0\0\0\x03Bob\0\0\0\x03bal\x01\0\0\0\0\0\0\0\x02\0\0\0\0\0\0\0\x02",
        b"\x91\0",
    ),
    // Raw Bob bal data 1..2: stamp 1, 10
    (
        b"\x11\0\0\0\x03Bob\0\0\0\x03bal\x01\0\0\0\0\0\0\0\x01\0\0\0\0\0\0\0\x02",
        b"\x91\x01\0\0\0\0\0\0\0\x01\0\0\0\x0210",
    ),
    // Major 2: done
    (b"\x0C\0\0\0\x02", b"\x8C"),
    // Sweep: 1
    (b"\x0F", b"\x8F\0\0\0\0\0\0\0\x01"),
    // Split Joe: 3
    (b"\x0D\0\0\0\x03Joe", b"\x8D\0\0\0\x03"),
    // Major 3: done
    (b"\x0C\0\0\0\x03", b"\x8C"),
    // Sweep: 0
    (b"\x0F", b"\x8F\0\0\0\0\0\0\0\0"),
    // Step 5: Stamped 6
    (b"\x04\0\0\0\0\0\0\0\x05", b"\x84\x03\0\0\0\0\0\0\0\x06"),
    // Step 5: Committed 6
    (b"\x04\0\0\0\0\0\0\0\x05", b"\x84\x04\0\0\0\0\0\0\0\x06"),
    // Major 1: done
    (b"\x0C\0\0\0\x01", b"\x8C"),
    // Sweep: 1
    (b"\x0F", b"\x8F\0\0\0\0\0\0\0\x01"),
    // Begin: 7
    (b"\x01", b"\x81\0\0\0\0\0\0\0\x07"),
    // Get 7 Bob bal: 3
    (
        b"\x02\0\0\0\0\0\0\0\x07\0\0\0\x03Bob\0\0\0\x03bal",
        b"\x82\x01\0\0\0\x013",
    ),
    // Get 7 Joe bal: Pending 3
    (
        b"\x02\0\0\0\0\0\0\0\x07\0\0\0\x03Joe\0\0\0\x03bal",
        b"\x82\x02\0\0\0\0\0\0\0\x03",
    ),
    // Get 7 Zoe bal: 7
    (
        b"\x02\0\0\0\0\0\0\0\x07\0\0\0\x03Zoe\0\0\0\x03bal",
        b"\x82\x01\0\0\0\x017",
    ),
    // Raw Joe bal data 0..18446744073709551615: stamp 3, 9
    (
        b"\x11\0\0\0\x03Joe\0\0\0\x03bal\x01\0\0\0\0\0\0\0\0\xFF\xFF\xFF\xFF\xFF\xFF\xFF\xFF",
        b"\x91\x01\0\0\0\0\0\0\0\x03\0\0\0\x019",
    ),
    // Raw Zoe bal data 5..5: stamp 5, 7
    (
        b"\x11\0\0\0\x03Zoe\0\0\0\x03bal\x01\0\0\0\0\0\0\0\x05\0\0\0\0\0\0\0\x05",
        b"\x91\x01\0\0\0\0\0\0\0\x05\0\0\0\x017",
    ),
    // Raw Zoe bal lock 0..9: nothing
    (
        b"\x11\0\0\0\x03Zoe\0\0\0\x03bal\x02\0\0\0\0\0\0\0\0\0\0\0\0\0\0\0\x09",
        b"\x91\0",
    ),
];

/// Each operation is refused in each possible way, and accepted.
const REFUSALS: [Exchange; 50] = [
    // Get 1 r c: refused 1
    (b"\x02\0\0\0\0\0\0\0\x01\0\0\0\x01r\0\0\0\x01c", b"\xFF\x01"),
    // Set 1 r c v: refused 1
    (
        b"\x03\0\0\0\0\0\0\0\x01\0\0\0\x01r\0\0\0\x01c\0\0\0\x01v",
        b"\xFF\x01",
    ),
    // Step 1: refused 1
    (b"\x04\0\0\0\0\0\0\0\x01", b"\xFF\x01"),
    // Stop 1: refused 1
    (b"\x05\0\0\0\0\0\0\0\x01", b"\xFF\x01"),
    // Begin: 1
    (b"\x01", b"\x81\0\0\0\0\0\0\0\x01"),
    // Step 1: refused 8
    (b"\x04\0\0\0\0\0\0\0\x01", b"\xFF\x08"),
    // Get 1 "" :: refused 3
    (b"\x02\0\0\0\0\0\0\0\x01\0\0\0\0\0\0\0\x01:", b"\xFF\x03"),
    // Get 1 r "": refused 4
    (b"\x02\0\0\0\0\0\0\0\x01\0\0\0\x01r\0\0\0\0", b"\xFF\x04"),
    // Get 1 r c: Nothing
    (b"\x02\0\0\0\0\0\0\0\x01\0\0\0\x01r\0\0\0\x01c", b"\x82\0"),
    // Set 1 "" : v: refused 3
    (
        b"\x03\0\0\0\0\0\0\0\x01\0\0\0\0\0\0\0\x01:\0\0\0\x01v",
        b"\xFF\x03",
    ),
    // Set 1 r : v: refused 4
    (
        b"\x03\0\0\0\0\0\0\0\x01\0\0\0\x01r\0\0\0\x01:\0\0\0\x01v",
        b"\xFF\x04",
    ),
    // Set 1 r c v: done
    (
        b"\x03\0\0\0\0\0\0\0\x01\0\0\0\x01r\0\0\0\x01c\0\0\0\x01v",
        b"\x83",
    ),
    // Step 1: Held 1 1
    (b"\x04\0\0\0\0\0\0\0\x01", b"\x84\x01\0\x01\0\x01"),
    // Get 1 "" c: refused 2
    (b"\x02\0\0\0\0\0\0\0\x01\0\0\0\0\0\0\0\x01c", b"\xFF\x02"),
    // Set 1 "" c v: refused 2
    (
        b"\x03\0\0\0\0\0\0\0\x01\0\0\0\0\0\0\0\x01c\0\0\0\x01v",
        b"\xFF\x02",
    ),
    // Minor 0: refused 11
    (b"\x0A\0\0\0\0", b"\xFF\x0B"),
    // Minor 2: refused 11
    (b"\x0A\0\0\0\x02", b"\xFF\x0B"),
    // Minor 1: done
    (b"\x0A\0\0\0\x01", b"\x8A"),
    // Merge 2 1: refused 11
    (b"\x0B\0\0\0\x02\0\0\0\x01", b"\xFF\x0B"),
    // Merge 1 0: refused 14
    (b"\x0B\0\0\0\x01\0\0\0\0", b"\xFF\x0E"),
    // Merge 1 1: refused 14
    (b"\x0B\0\0\0\x01\0\0\0\x01", b"\xFF\x0E"),
    // Merge 1 2: refused 14
    (b"\x0B\0\0\0\x01\0\0\0\x02", b"\xFF\x0E"),
    // Step 1: Stamped 2
    (b"\x04\0\0\0\0\0\0\0\x01", b"\x84\x03\0\0\0\0\0\0\0\x02"),
    // Step 1: Committed 2
    (b"\x04\0\0\0\0\0\0\0\x01", b"\x84\x04\0\0\0\0\0\0\0\x02"),
    // Minor 1: done
    (b"\x0A\0\0\0\x01", b"\x8A"),
    // Minor 1: done
    (b"\x0A\0\0\0\x01", b"\x8A"),
    // Merge 1 4294967295: refused 14
    (b"\x0B\0\0\0\x01\xFF\xFF\xFF\xFF", b"\xFF\x0E"),
    // Merge 1 3: refused 14
    (b"\x0B\0\0\0\x01\0\0\0\x03", b"\xFF\x0E"),
    // Merge 1 2: done
    (b"\x0B\0\0\0\x01\0\0\0\x02", b"\x8B"),
    // Major 0: refused 11
    (b"\x0C\0\0\0\0", b"\xFF\x0B"),
    // Major 1: done
    (b"\x0C\0\0\0\x01", b"\x8C"),
    // Split "": refused 3
    (b"\x0D\0\0\0\0", b"\xFF\x03"),
    // Split m: 2
    (b"\x0D\0\0\0\x01m", b"\x8D\0\0\0\x02"),
    // Split m: refused 12
    (b"\x0D\0\0\0\x01m", b"\xFF\x0C"),
    // Major 3: refused 11
    (b"\x0C\0\0\0\x03", b"\xFF\x0B"),
    // Move 3 255: refused 11
    (b"\x0E\0\0\0\x03\xFF", b"\xFF\x0B"),
    // Move 2 16: refused 13
    (b"\x0E\0\0\0\x02\x10", b"\xFF\x0D"),
    // Move 2 15: done
    (b"\x0E\0\0\0\x02\x0F", b"\x8E"),
    // Move 2 15: done
    (b"\x0E\0\0\0\x02\x0F", b"\x8E"),
    // Raw "" : data 0..9: refused 3
    (
        b"\x11\0\0\0\0\0\0\0\x01:\x01\0\0\0\0\0\0\0\0\0\0\0\0\0\0\0\x09",
        b"\xFF\x03",
    ),
    // Raw r : data 0..9: refused 4
    (
        b"\x11\0\0\0\x01r\0\0\0\x01:\x01\0\0\0\0\0\0\0\0\0\0\0\0\0\0\0\x09",
        b"\xFF\x04",
    ),
    // Raw r c data 0..9: stamp 1, v
    (
        b"\x11\0\0\0\x01r\0\0\0\x01c\x01\0\0\0\0\0\0\0\0\0\0\0\0\0\0\0\x09",
        b"\x91\x01\0\0\0\0\0\0\0\x01\0\0\0\x01v",
    ),
    // Raw r c lock 0..9: nothing
    (
        b"\x11\0\0\0\x01r\0\0\0\x01c\x02\0\0\0\0\0\0\0\0\0\0\0\0\0\0\0\x09",
        b"\x91\0",
    ),
    // Raw r c write 0..9: stamp 2, 00 00 00 00 00 00 00 01 53
    (
        b"\x11\0\0\0\x01r\0\0\0\x01c\x03\0\0\0\0\0\0\0\0\0\0\0\0\0\0\0\x09",
        b"\x91\x01\0\0\0\0\0\0\0\x02\0\0\0\x09\0\0\0\0\0\0\0\x01S",
    ),
    // Sweep: 3
    (b"\x0F", b"\x8F\0\0\0\0\0\0\0\x03"),
    // Sweep: 0
    (b"\x0F", b"\x8F\0\0\0\0\0\0\0\0"),
    // OracleRestart: restarted
    (b"\x10", b"\x90"),
    // Begin: 1001
    (b"\x01", b"\x81\0\0\0\0\0\0\x03\xE9"),
    // Stop 1001: stopped
    (b"\x05\0\0\0\0\0\0\x03\xE9", b"\x85"),
    // Stop 1001: refused 1
    (b"\x05\0\0\0\0\0\0\x03\xE9", b"\xFF\x01"),
];

/// Malformed bodies are answered, and the server goes on.
const OUTSIDE_THE_FORM: [Exchange; 17] = [
    // Minor without its field: refused 22
    (b"\x0A", b"\xFF\x16"),
    // Minor with a byte more: refused 22
    (b"\x0A\0\0\0\x01\0", b"\xFF\x16"),
    // Merge without a count: refused 22
    (b"\x0B\0\0\0\x01", b"\xFF\x16"),
    // Major with three bytes: refused 22
    (b"\x0C\0\0\0", b"\xFF\x16"),
    // Split with a row cut short: refused 22
    (b"\x0D\0\0\0\x02m", b"\xFF\x16"),
    // Split with a byte more: refused 22
    (b"\x0D\0\0\0\x01mm", b"\xFF\x16"),
    // Move without a server: refused 22
    (b"\x0E\0\0\0\x01", b"\xFF\x16"),
    // Move to a server of two bytes: refused 22
    (b"\x0E\0\0\0\x01\0\x03", b"\xFF\x16"),
    // Sweep with a byte: refused 22
    (b"\x0F\0", b"\xFF\x16"),
    // OracleRestart with a byte: refused 22
    (b"\x10\0", b"\xFF\x16"),
    // Raw of qualifier 00: refused 22
    (
        b"\x11\0\0\0\x01m\0\0\0\x01c\0\0\0\0\0\0\0\0\0\0\0\0\0\0\0\0\x09",
        b"\xFF\x16",
    ),
    // Raw of qualifier 04: refused 22
    (
        b"\x11\0\0\0\x01m\0\0\0\x01c\x04\0\0\0\0\0\0\0\0\0\0\0\0\0\0\0\x09",
        b"\xFF\x16",
    ),
    // Raw without its last field: refused 22
    (
        b"\x11\0\0\0\x01m\0\0\0\x01c\x02\0\0\0\0\0\0\0\0",
        b"\xFF\x16",
    ),
    // Raw with a byte more: refused 22
    (
        b"\x11\0\0\0\x01m\0\0\0\x01c\x02\0\0\0\0\0\0\0\0\0\0\0\0\0\0\0\x09\0",
        b"\xFF\x16",
    ),
    // Minor's reply: refused 22
    (b"\x8A", b"\xFF\x16"),
    // Minor 1: done
    (b"\x0A\0\0\0\x01", b"\x8A"),
    // Split m: 2
    (b"\x0D\0\0\0\x01m", b"\x8D\0\0\0\x02"),
];

/// Two committed cells are read after their tablet was split and both parts were compacted.
const SPLIT_AND_COMPACT: [Exchange; 8] = [
    // Split Bob: 2
    (b"\x0D\0\0\0\x03Bob", b"\x8D\0\0\0\x02"),
    // Major 2: done
    (b"\x0C\0\0\0\x02", b"\x8C"),
    // Major 1: done
    (b"\x0C\0\0\0\x01", b"\x8C"),
    // Sweep: 1
    (b"\x0F", b"\x8F\0\0\0\0\0\0\0\x01"),
    // Raw Bob bal lock 0..9: nothing
    (
        b"\x11\0\0\0\x03Bob\0\0\0\x03bal\x02\0\0\0\0\0\0\0\0\0\0\0\0\0\0\0\x09",
        b"\x91\0",
    ),
    // Raw Joe bal write 0..9: stamp 2, 00 00 00 00 00 00 00 01 53
    (
        b"\x11\0\0\0\x03Joe\0\0\0\x03bal\x03\0\0\0\0\0\0\0\0\0\0\0\0\0\0\0\x09",
        b"\x91\x01\0\0\0\0\0\0\0\x02\0\0\0\x09\0\0\0\0\0\0\0\x01S",
    ),
    // Begin: 3
    (b"\x01", b"\x81\0\0\0\0\0\0\0\x03"),
    // Get 3 Joe bal: 2
    (
        b"\x02\0\0\0\0\0\0\0\x03\0\0\0\x03Joe\0\0\0\x03bal",
        b"\x82\x01\0\0\0\x012",
    ),
];

/// Rows of upkeep.
pub const ROWS: [Row; 7] = [
    (0, &[&TABLETS]),
    (0, &[&CELL_HELD, &ERASURES]),
    (HELD, &[&SPLIT_UNDER_A_SESSION]),
    (COMMITTED, &[&SHARED_FILES]),
    (0, &[&REFUSALS]),
    (0, &[&OUTSIDE_THE_FORM]),
    (BALANCES, &[&SPLIT_AND_COMPACT]),
];

/// The tablet has fewer than two files.
const NOT_MERGED: [Exchange; 1] = [
    // Merge 1 2: refused 14
    (b"\x0B\0\0\0\x01\0\0\0\x02", b"\xFF\x0E"),
];

/// The tablet has two files, and they are merged.
const MERGED: [Exchange; 1] = [
    // Merge 1 2: done
    (b"\x0B\0\0\0\x01\0\0\0\x02", b"\x8B"),
];

/// No file is swept.
const NONE_SWEPT: [Exchange; 1] = [
    // Sweep: 0
    (b"\x0F", b"\x8F\0\0\0\0\0\0\0\0"),
];

/// Two files are swept.
const TWO_SWEPT: [Exchange; 1] = [
    // Sweep: 2
    (b"\x0F", b"\x8F\0\0\0\0\0\0\0\x02"),
];

/// A commit of one cell: a memtable of two entries is compacted after the reply.
pub const COMPACTED: Row = (
    0,
    &[
        &CELL_HELD,
        &NOT_MERGED,
        &CELL_STAMPED,
        &CELL_COMMITTED,
        &MERGED,
        &TWO_SWEPT,
    ],
);

/// The same, and two files are then merged.
pub const MERGED_AT_TWO: Row = (
    0,
    &[
        &CELL_HELD,
        &CELL_STAMPED,
        &NONE_SWEPT,
        &CELL_COMMITTED,
        &NOT_MERGED,
        &TWO_SWEPT,
    ],
);

/// The same with a higher limit, so that nothing is compacted.
pub const NOT_COMPACTED: Row = (
    0,
    &[
        &CELL_HELD,
        &NOT_MERGED,
        &CELL_STAMPED,
        &CELL_COMMITTED,
        &NOT_MERGED,
        &NONE_SWEPT,
    ],
);

/// The memtable and the root are written.
const CHECKPOINT: [Exchange; 1] = [
    // Checkpoint: done
    (b"\x12", b"\x92"),
];

/// A commit of one cell, with a checkpoint before and after it.
pub const CHECKPOINTED: Row = (
    0,
    &[
        &CELL_HELD,
        &CHECKPOINT,
        &CELL_STAMPED,
        &CELL_COMMITTED,
        &CHECKPOINT,
        &MERGED,
        &TWO_SWEPT,
    ],
);

/// The same, and two files are merged after the second checkpoint.
pub const CHECKPOINTED_AND_MERGED: Row = (
    0,
    &[
        &CELL_HELD,
        &CHECKPOINT,
        &CELL_STAMPED,
        &CELL_COMMITTED,
        &CHECKPOINT,
        &NOT_MERGED,
        &TWO_SWEPT,
    ],
);

/// A tablet is split, and a session commits a cell on each side.
const BOTH_HALVES: [Exchange; 9] = [
    // Split m: 2
    (b"\x0D\0\0\0\x01m", b"\x8D\0\0\0\x02"),
    // Begin: 1
    (b"\x01", b"\x81\0\0\0\0\0\0\0\x01"),
    // Set 1 a c v: done
    (
        b"\x03\0\0\0\0\0\0\0\x01\0\0\0\x01a\0\0\0\x01c\0\0\0\x01v",
        b"\x83",
    ),
    // Set 1 r c v: done
    (
        b"\x03\0\0\0\0\0\0\0\x01\0\0\0\x01r\0\0\0\x01c\0\0\0\x01v",
        b"\x83",
    ),
    // Step 1: Held 1 2
    (b"\x04\0\0\0\0\0\0\0\x01", b"\x84\x01\0\x01\0\x02"),
    // Step 1: Held 2 2
    (b"\x04\0\0\0\0\0\0\0\x01", b"\x84\x01\0\x02\0\x02"),
    // Step 1: Stamped 2
    (b"\x04\0\0\0\0\0\0\0\x01", b"\x84\x03\0\0\0\0\0\0\0\x02"),
    // Step 1: Committed 2
    (b"\x04\0\0\0\0\0\0\0\x01", b"\x84\x04\0\0\0\0\0\0\0\x02"),
    // Step 1: Finished 2 2
    (b"\x04\0\0\0\0\0\0\0\x01", b"\x84\x06\0\x02\0\x02"),
];

/// Each of the two tablets has two files.
const BOTH_MERGED: [Exchange; 3] = [
    // Merge 2 2: done
    (b"\x0B\0\0\0\x02\0\0\0\x02", b"\x8B"),
    // Merge 1 2: done
    (b"\x0B\0\0\0\x01\0\0\0\x02", b"\x8B"),
    // Sweep: 4
    (b"\x0F", b"\x8F\0\0\0\0\0\0\0\x04"),
];

/// Neither tablet has two files any more.
const NEITHER_MERGED: [Exchange; 3] = [
    // Merge 2 2: refused 14
    (b"\x0B\0\0\0\x02\0\0\0\x02", b"\xFF\x0E"),
    // Merge 1 2: refused 14
    (b"\x0B\0\0\0\x01\0\0\0\x02", b"\xFF\x0E"),
    // Sweep: 4
    (b"\x0F", b"\x8F\0\0\0\0\0\0\0\x04"),
];

/// A commit of a cell in each of two tablets, whose memtables of two entries are compacted after the replies.
pub const BOTH_COMPACTED: Row = (0, &[&BOTH_HALVES, &BOTH_MERGED]);

/// The same, and two files are then merged.
pub const BOTH_MERGED_AT_TWO: Row = (0, &[&BOTH_HALVES, &NEITHER_MERGED]);
