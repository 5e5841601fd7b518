//! Tests of logs, and the log that they share.

mod edits;
mod files;
mod folders;
mod formats;

/// The numbers of the store and of the first record of `LOG`.
const STORE: u64 = 0x0102_0304_0506_0708;

const FIRST: u64 = 0x1112_1314_1516_1718;

/// A log over any root, of the edits `a` by stamp 7, and of a root of stamp 9.
const LOG: [u8; 96] = *b"TABLOG02\x01\x02\x03\x04\x05\x06\x07\x08\
\x00\x00\x00\x11\x8C\xCB\x45\xF7\x11\x12\x13\x14\x15\x16\x17\x18\x02\0\0\0\0\0\0\0\0\
\x00\x00\x00\x12\x09\xB9\xB6\x29\x11\x12\x13\x14\x15\x16\x17\x19\x03\0\0\0\0\0\0\0\x07a\
\x00\x00\x00\x15\x1A\xC9\x02\x64\x11\x12\x13\x14\x15\x16\x17\x1A\x01\0\0\0\0\0\0\0\x09\x01\x02\x03\x04";

/// The offsets where its header and its frames end.
const ENDS: [usize; 4] = [16, 41, 67, 96];

/// The bytes of its records.
const RECORDS: [&[u8]; 3] = [
    b"\x02\0\0\0\0\0\0\0\0",
    b"\x03\0\0\0\0\0\0\0\x07a",
    b"\x01\0\0\0\0\0\0\0\x09\x01\x02\x03\x04",
];

/// A log of format 1, whose record puts data of stamp 3.
const PUT: [u8; 48] = *b"TABLOG01\
\x00\x00\x00\x20\x09\xF1\x71\xFE\
\0\0\0\x16a\0\0bal\0\0data\0\0\xFF\xFF\xFF\xFF\xFF\xFF\xFF\xFC\x01\0\0\0\x01v";

/// A log of format 1, of the records `a` and `ab`, which are no edits.
const TWO: [u8; 27] = *b"TABLOG01\
\x00\x00\x00\x01\xE5\x8C\x97\x92a\
\x00\x00\x00\x02\x6D\x1C\x2F\x5Fab";

/// Whether records are the first ones of `LOG`.
fn are_first(records: &[Vec<u8>], count: usize) -> bool {
    records.len() == count
        && records
            .iter()
            .zip(RECORDS)
            .all(|(found, wanted)| found.as_slice() == wanted)
}
