//! Parts of the scripts that go through all of the store.

use crate::rows::Exchange;

/// The memtable is written to a file.
pub const FLUSHED: [Exchange; 1] = [
    // Minor 1: done
    (b"\x0A\0\0\0\x01", b"\x8A"),
];

/// The two cells get a tablet each, and a session begins.
pub const SPLIT: [Exchange; 3] = [
    // Split Bob: 2
    (b"\x0D\0\0\0\x03Bob", b"\x8D\0\0\0\x02"),
    // Move 2 3: done
    (b"\x0E\0\0\0\x02\x03", b"\x8E"),
    // Begin: 5
    (b"\x01", b"\x81\0\0\0\0\0\0\0\x05"),
];

/// Files are merged.
pub const MERGED: [Exchange; 2] = [
    // Minor 1: done
    (b"\x0A\0\0\0\x01", b"\x8A"),
    // Merge 1 2: done
    (b"\x0B\0\0\0\x01\0\0\0\x02", b"\x8B"),
];

/// Old versions are collected, both cells read, alone and by a scan, and the oracle restarts.
pub const COLLECTED: [Exchange; 7] = [
    // CollectBegin: 1, floor 5
    (b"\x08", b"\x88\0\0\0\0\0\0\0\x01\0\0\0\0\0\0\0\x05"),
    // CollectStep 1 1000: Collected
    (b"\x09\0\0\0\0\0\0\0\x01\0\0\x03\xE8", b"\x89\x03"),
    // Major 2: done
    (b"\x0C\0\0\0\x02", b"\x8C"),
    // Get 5 Bob bal: 3
    (
        b"\x02\0\0\0\0\0\0\0\x05\0\0\0\x03Bob\0\0\0\x03bal",
        b"\x82\x01\0\0\0\x013",
    ),
    // Get 5 Joe bal: 9
    (
        b"\x02\0\0\0\0\0\0\0\x05\0\0\0\x03Joe\0\0\0\x03bal",
        b"\x82\x01\0\0\0\x019",
    ),
    // Scan 5 1000: Bob bal 3; Joe bal 9; End
    (
        b"\x31\0\0\0\0\0\0\0\x05\0\0\0\0\0\0\x03\xE8",
        b"\
        \xB1\x01\0\0\0\x02\
        \0\0\0\x03Bob\0\0\0\x03bal\x01\0\0\0\x013\
        \0\0\0\x03Joe\0\0\0\x03bal\x01\0\0\0\x019",
    ),
    // OracleRestart: restarted
    (b"\x10", b"\x90"),
];

/// The three columns of both cells.
pub const COLUMNS: [Exchange; 6] = [
    // Raw Bob bal data 0..9: stamp 3, 3
    (
        b"\x11\0\0\0\x03Bob\0\0\0\x03bal\x01\0\0\0\0\0\0\0\0\0\0\0\0\0\0\0\x09",
        b"\x91\x01\0\0\0\0\0\0\0\x03\0\0\0\x013",
    ),
    // Raw Bob bal lock 0..9: nothing
    (
        b"\x11\0\0\0\x03Bob\0\0\0\x03bal\x02\0\0\0\0\0\0\0\0\0\0\0\0\0\0\0\x09",
        b"\x91\0",
    ),
    // Raw Bob bal write 0..9: stamp 4, start 3, set
    (
        b"\x11\0\0\0\x03Bob\0\0\0\x03bal\x03\0\0\0\0\0\0\0\0\0\0\0\0\0\0\0\x09",
        b"\x91\x01\0\0\0\0\0\0\0\x04\0\0\0\x09\0\0\0\0\0\0\0\x03S",
    ),
    // Raw Joe bal data 0..9: stamp 3, 9
    (
        b"\x11\0\0\0\x03Joe\0\0\0\x03bal\x01\0\0\0\0\0\0\0\0\0\0\0\0\0\0\0\x09",
        b"\x91\x01\0\0\0\0\0\0\0\x03\0\0\0\x019",
    ),
    // Raw Joe bal lock 0..9: nothing
    (
        b"\x11\0\0\0\x03Joe\0\0\0\x03bal\x02\0\0\0\0\0\0\0\0\0\0\0\0\0\0\0\x09",
        b"\x91\0",
    ),
    // Raw Joe bal write 0..9: stamp 4, start 3, set
    (
        b"\x11\0\0\0\x03Joe\0\0\0\x03bal\x03\0\0\0\0\0\0\0\0\0\0\0\0\0\0\0\x09",
        b"\x91\x01\0\0\0\0\0\0\0\x04\0\0\0\x09\0\0\0\0\0\0\0\x03S",
    ),
];

/// A checkpoint.
pub const WRITTEN: [Exchange; 1] = [(b"\x12", b"\x92")];
