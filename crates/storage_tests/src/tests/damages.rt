//! Files and roots with one byte changed, one byte more, or cut short: the store reads exactly those that the formats
//! allow.

use crate::tests::places::{OLD_ROOT, is_no_root};
use crate::tests::sorted_files::{ONE, ONE_NEW, is_damaged, put_at};
use cell_key::Refusal;
use std::alloc::{AllocError, Global};
use std::test::Fail;
use testing::NEW_ROOT;

/// Offsets from the first up to the one before the second, and the lowest and the highest byte that may stand at each of
/// them. At all other offsets the byte of the whole may stand, and no other.
type Free = (usize, usize, u8, u8);

/// The value of the one entry.
const VALUE: [Free; 1] = [(39, 41, 0, 255)];

/// The root of a new store: the number of the format, the top and the floor, the next name from 1 to 2^63, and the
/// server up to 15.
const OF_NEW_ROOT: [Free; 6] = [
    (7, 8, b'1', b'2'),
    (8, 24, 0, 255),
    (24, 25, 0, 127),
    (25, 31, 0, 255),
    (31, 32, 1, 255),
    (45, 46, 0, 15),
];

/// The root of three tablets, two of which share a file, in format 1.
const ROOT_OF_THREE: &[u8] =
    b"TABROOT1\0\0\0\0\0\0\x03\xE9\0\0\0\0\0\0\0\x07\0\0\0\0\0\0\0\x04\0\0\0\x04\0\0\0\x03\
    \0\0\0\x02\0\0\0\0\x02a\0\x03\0\0\0\x02\0\0\0\0\0\0\0\x03\0\0\0\0\0\0\0\x01\
    \0\0\0\x03\0\0\0\0\x02b\0\0\0\0\0\x01\0\0\0\0\0\0\0\x01\
    \0\0\0\x01\x01\x0F\0\0\0\x01\0\0\0\0\0\0\0\x02TABROOTZ";

/// Names are below the next name and stand once in a tablet, and ends rise.
const OF_ROOT_OF_THREE: [Free; 15] = [
    (8, 24, 0, 255),
    (24, 25, 0, 127),
    (25, 31, 0, 255),
    (31, 32, 4, 255),
    // the first end, its server, and its two files
    (49, 50, 0, b'a'),
    (50, 51, 0, 255),
    (51, 52, 0, 15),
    (63, 64, 2, 3),
    (71, 72, 1, 2),
    // the second end, its server, and its file
    (81, 82, b'b', 255),
    (82, 83, 0, 255),
    (83, 84, 0, 15),
    (95, 96, 1, 3),
    // the last server and its file
    (101, 102, 0, 15),
    (113, 114, 1, 3),
];

/// The same root in format 2, with the lengths of the files.
const NEW_ROOT_OF_THREE: &[u8] =
    b"TABROOT2\0\0\0\0\0\0\x03\xE9\0\0\0\0\0\0\0\x07\0\0\0\0\0\0\0\x04\0\0\0\x04\0\0\0\x03\
    \0\0\0\x02\0\0\0\0\x02a\0\x03\0\0\0\x02\
    \0\0\0\0\0\0\0\x03\0\0\0\0\0\0\x01\x8E\0\0\0\0\0\0\0\x01\0\0\0\0\0\0\0\x7B\
    \0\0\0\x03\0\0\0\0\x02b\0\0\0\0\0\x01\0\0\0\0\0\0\0\x01\0\0\0\0\0\0\0\x7B\
    \0\0\0\x01\x01\x0F\0\0\0\x01\0\0\0\0\0\0\0\x02\0\0\0\0\0\0\x01\x8ETABROOTZ";

/// A file may have any length.
const OF_NEW_ROOT_OF_THREE: [Free; 19] = [
    (8, 24, 0, 255),
    (24, 25, 0, 127),
    (25, 31, 0, 255),
    (31, 32, 4, 255),
    (49, 50, 0, b'a'),
    (50, 51, 0, 255),
    (51, 52, 0, 15),
    (63, 64, 2, 3),
    (64, 72, 0, 255),
    (79, 80, 1, 2),
    (80, 88, 0, 255),
    (97, 98, b'b', 255),
    (98, 99, 0, 255),
    (99, 100, 0, 15),
    (111, 112, 1, 3),
    (112, 120, 0, 255),
    (125, 126, 0, 15),
    (137, 138, 1, 3),
    (138, 146, 0, 255),
];

/// The bytes, whether they are a root or a file, and what may stand in them.
const WHOLES: [(&[u8], bool, &[Free]); 6] = [
    (ONE, false, &VALUE),
    (ONE_NEW, false, &VALUE),
    (OLD_ROOT, true, &OF_NEW_ROOT),
    (NEW_ROOT, true, &OF_NEW_ROOT),
    (ROOT_OF_THREE, true, &OF_ROOT_OF_THREE),
    (NEW_ROOT_OF_THREE, true, &OF_NEW_ROOT_OF_THREE),
];

/// Whether a byte may stand at an offset.
fn may_stand(whole: &[u8], free: &[Free], at: usize, byte: u8) -> bool {
    for (from, end, lowest, highest) in free {
        if *from <= at && at < *end && *lowest <= byte && byte <= *highest {
            return true;
        }
    }
    whole.get(at) == Some(&byte)
}

/// Whether the store reads the bytes.
fn is_read(alloc: Global, bytes: &[u8], is_root: bool) -> Result<bool, Refusal> {
    if is_root {
        return Ok(!is_no_root(alloc, bytes)?);
    }
    Ok(!is_damaged(alloc, bytes))
}

/// Some bytes with this byte at an offset, or behind all of them.
fn changed(alloc: Global, whole: &[u8], at: usize, byte: u8) -> Result<Vec<u8>, AllocError> {
    let mut bytes = Vec::from_slice(alloc, whole)?;
    if at == whole.len() {
        bytes.push(byte)?;
    }
    put_at(&mut bytes, at, byte);
    Ok(bytes)
}

/// Whether the bytes are read with each byte at an offset that may stand there, and with no other.
fn are_read_with(
    alloc: Global,
    whole: &[u8],
    is_root: bool,
    free: &[Free],
    at: usize,
) -> Result<bool, Refusal> {
    for byte in 0..=255 {
        let bytes = changed(alloc, whole, at, byte)?;
        if is_read(alloc, &bytes, is_root)? != may_stand(whole, free, at, byte) {
            return Ok(false);
        }
    }
    Ok(true)
}

/// The first offset at which a change is judged wrong, or a cut is not refused.
fn first_wrong(
    alloc: Global,
    whole: &[u8],
    is_root: bool,
    free: &[Free],
) -> Result<Option<usize>, Refusal> {
    for at in 0..=whole.len() {
        let (beginning, rest) = whole.split_at(at);
        if is_read(alloc, beginning, is_root)? != rest.is_empty()
            || !are_read_with(alloc, whole, is_root, free, at)?
        {
            return Ok(Some(at));
        }
    }
    Ok(None)
}

#[test]
fn damages(rt: HostRuntime) -> Result<(), Fail> {
    for (whole, is_root, free) in WHOLES {
        let wrong = first_wrong(rt.alloc(), whole, is_root, free)?;
        assert!(rt; wrong.is_none(), "{whole:?} {wrong:?}");
    }
    Ok(())
}
