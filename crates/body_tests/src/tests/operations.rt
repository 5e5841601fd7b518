//! The bodies of operations and of their answers.

use cell_key::Refusal;
use request_codec::{Operation, decode_answer, decode_operation};
use std::alloc::Global;
use std::test::Fail;

/// Bob's balance is written, and Joe's is deleted.
const COMMIT: &[u8] = b"\x32\0\0\0\0\0\0\0\x07\0\0\0\x02\
    \0\0\0\x03Bob\0\0\0\x03bal\x01\0\0\0\x0210\
    \0\0\0\x03Joe\0\0\0\x03bal\0";

/// Both balances are read, and the session stays open.
const READ: &[u8] = b"\x33\0\0\0\0\0\0\0\x07\x01\0\0\0\x02\
    \0\0\0\x03Bob\0\0\0\x03bal\
    \0\0\0\x03Joe\0\0\0\x03bal";

const OPERATIONS: [&[u8]; 10] = [
    b"\x01",
    b"\x02\0\0\0\0\0\0\0\x01\0\0\0\x01a\0\0\0\x03bal",
    b"\x12",
    COMMIT,
    b"\x32\0\0\0\0\0\0\0\0\0\0\0\0",
    b"\x32\xFF\xFF\xFF\xFF\xFF\xFF\xFF\xFF\0\0\0\x01\0\0\0\0\0\0\0\x01:\x01\0\0\0\0",
    READ,
    b"\x33\0\0\0\0\0\0\0\0\0\0\0\0\0",
    b"\x33\0\0\0\0\0\0\0\0\0\0\0\0\x01\0\0\0\0\0\0\0\0",
    b"\x34\xFF\xFF\xFF\xFF",
];

/// Bodies outside the grammar of operations.
const NO_OPERATIONS: [&[u8]; 22] = [
    b"",
    b"\x01\0",
    b"\x14",
    b"\x34",
    b"\x32",
    b"\x32\0\0\0\0\0\0\0\x07",
    // too few writes, and a byte too many
    b"\x32\0\0\0\0\0\0\0\x07\0\0\0\x01",
    b"\x32\0\0\0\0\0\0\0\x07\xFF\xFF\xFF\xFF\0\0\0\x01r\0\0\0\x01c\0",
    b"\x32\0\0\0\0\0\0\0\x07\0\0\0\0\0",
    b"\x32\0\0\0\0\0\0\0\x07\0\0\0\x01\0\0\0\x01r\0\0\0\x01c\0\0",
    b"\x32\0\0\0\0\0\0\0\x07\0\0\0\x02\0\0\0\x01r\0\0\0\x01c\0",
    // neither a value nor a deletion, and a value that is cut off
    b"\x32\0\0\0\0\0\0\0\x07\0\0\0\x01\0\0\0\x01r\0\0\0\x01c",
    b"\x32\0\0\0\0\0\0\0\x07\0\0\0\x01\0\0\0\x01r\0\0\0\x01c\x02\0\0\0\x01v",
    b"\x32\0\0\0\0\0\0\0\x07\0\0\0\x01\0\0\0\x01r\0\0\0\x01c\x01\0\0\0\x02v",
    b"\x33",
    b"\x33\0\0\0\0\0\0\0\x07\x01",
    // a flag that is neither 0 nor 1
    b"\x33\0\0\0\0\0\0\0\x07\x02\0\0\0\x01\0\0\0\x01r\0\0\0\x01c",
    // too few cells, and a byte too many
    b"\x33\0\0\0\0\0\0\0\x07\0\0\0\0\x01",
    b"\x33\0\0\0\0\0\0\0\x07\0\xFF\xFF\xFF\xFF\0\0\0\x01r\0\0\0\x01c",
    b"\x33\0\0\0\0\0\0\0\x07\0\0\0\0\x01\0\0\0\x01r\0\0\0\x01c\0",
    b"\x33\0\0\0\0\0\0\0\x07\0\0\0\0\x02\0\0\0\x01r\0\0\0\x01c",
    b"\x33\0\0\0\0\0\0\0\x07\0\0\0\0\x01\0\0\0\x02r\0\0\0\x01c",
];

/// Whether a body decodes as an operation.
fn is_operation(alloc: Global, body: &[u8]) -> Result<bool, Refusal> {
    Ok(decode_operation(alloc, body)?.is_some())
}

#[test]
fn bodies_of_operations(rt: HostRuntime) -> Result<(), Fail> {
    for body in OPERATIONS {
        assert!(rt; is_operation(rt.alloc(), body)?);
    }
    for body in NO_OPERATIONS {
        assert!(rt; !is_operation(rt.alloc(), body)?);
    }
    Ok(())
}

/// Whether a body is a Commit's with these numbers of writes and of deletions among them.
fn commits(alloc: Global, body: &[u8], writes: usize, deletions: usize) -> Result<bool, Refusal> {
    match decode_operation(alloc, body)? {
        Some(
            Operation::Commit {
                start: 7,
                writes: found,
            },
        ) => {
            let deleted = found.iter().filter(|write| write.value.is_none()).count();
            Ok(found.len() == writes && deleted == deletions)
        }
        _ => Ok(false),
    }
}

/// Whether a body is a Read's of this number of cells, whose session stays open.
fn reads(alloc: Global, body: &[u8], cells: usize) -> Result<bool, Refusal> {
    match decode_operation(alloc, body)? {
        Some(
            Operation::Read {
                start: 7,
                cells: found,
                stays_open: true,
            },
        ) => Ok(found.len() == cells),
        _ => Ok(false),
    }
}

#[test]
fn parts_of_operations(rt: HostRuntime) -> Result<(), Fail> {
    assert!(rt; commits(rt.alloc(), COMMIT, 2, 1)?);
    assert!(rt; reads(rt.alloc(), READ, 2)?);
    assert!(rt; !reads(rt.alloc(), COMMIT, 2)?);
    Ok(())
}

/// A Read's answer: nothing, a value, a lock, and a value that isn't sent.
const TOLD: &[u8] = b"\xB3\0\0\0\0\0\0\0\x07\0\0\0\x04\
    \0\
    \x01\0\0\0\x0210\
    \x02\0\0\0\0\0\0\0\x03\
    \x03";

const ANSWERS: [&[u8]; 9] = [
    b"\x83",
    b"\x82\x01\0\0\0\x0210",
    b"\xFF\x16",
    b"\xB2\x01\0\0\0\0\0\0\0\x07\0\0\0\0\0\0\0\x08",
    b"\xB2\x02\0\0\0\0\0\0\0\x07\0\x03",
    b"\xB2\x02\xFF\xFF\xFF\xFF\xFF\xFF\xFF\xFF\xFF\xFF",
    b"\xB3\0\0\0\0\0\0\0\x07\0\0\0\0",
    TOLD,
    b"\xB4ok",
];

/// Bodies outside the grammar of answers.
const NO_ANSWERS: [&[u8]; 19] = [
    b"",
    b"\x83\0",
    b"\xB2",
    b"\xB2\0",
    b"\xB2\x03\0\0\0\0\0\0\0\x07\0\x01",
    b"\xB2\x01\0\0\0\0\0\0\0\x07",
    b"\xB2\x01\0\0\0\0\0\0\0\x07\0\0\0\0\0\0\0\x08\0",
    b"\xB2\x02\0\x03",
    b"\xB2\x02\0\0\0\0\0\0\0\x07\x03",
    b"\xB2\x02\0\0\0\0\0\0\0\x07\0\x03\0",
    b"\xB3",
    b"\xB3\0\0\0\0\0\0\0\x07",
    b"\xB3\0\0\0\0\0\0\0\x07\0\0\0\0\0",
    b"\xB3\0\0\0\0\0\0\0\x07\0\0\0\x01",
    b"\xB3\0\0\0\0\0\0\0\x07\0\0\0\x01\0\0",
    b"\xB3\0\0\0\0\0\0\0\x07\0\0\0\x02\0",
    b"\xB3\0\0\0\0\0\0\0\x07\0\0\0\x01\x04",
    b"\xB3\0\0\0\0\0\0\0\x07\0\0\0\x01\x01\0\0\0\x021",
    b"\xB3\0\0\0\0\0\0\0\x07\0\0\0\x01\x02\0\0\0\0\0\0\x03",
];

/// Whether a body decodes as an answer.
fn is_answer(alloc: Global, body: &[u8]) -> Result<bool, Refusal> {
    Ok(decode_answer(alloc, body)?.is_some())
}

#[test]
fn bodies_of_answers(rt: HostRuntime) -> Result<(), Fail> {
    for body in ANSWERS {
        assert!(rt; is_answer(rt.alloc(), body)?);
    }
    for body in NO_ANSWERS {
        assert!(rt; !is_answer(rt.alloc(), body)?);
    }
    Ok(())
}

/// Whether the body of a Read's answer that tells nothing of this many cells decodes.
fn tells_nothing(alloc: Global, cells: u16) -> Result<bool, Refusal> {
    let mut body = Vec::from_slice(alloc, b"\xB3\0\0\0\0\0\0\0\x07\0\0")?;
    body.extend_from_slice(&cells.to_be_bytes())?;
    for _ in 0..cells {
        body.push(0)?;
    }
    is_answer(alloc, &body)
}

/// A Read's answer is of at most 256 cells.
#[test]
fn counts_of_answers(rt: HostRuntime) -> Result<(), Fail> {
    assert!(rt; tells_nothing(rt.alloc(), 256)?);
    assert!(rt; !tells_nothing(rt.alloc(), 257)?);
    Ok(())
}
