//! Rows with a journal.

use crate::tests::memory::clusters::{new_cluster, newest, write_all};
use cell_key::{Refusal, Row, Stamp};
use file_store::MemFiles;
use row_atomic::{Recorded, Rows};
use std::alloc::Global;
use std::test::Fail;
use testing::edits::edits_of;

/// The bytes of a put of `1` at the stamp 1 of `a`, `bal`, data, and of an erasure at 9.
const WRITTEN: &[u8] = b"\x00\0\x01a\x03bal\0\0\0\0\0\0\0\x01\0\0\0\x011\
       \x10\0\x01a\x03bal\0\0\0\0\0\0\0\x09";

/// The bytes of the same with `2` at the stamp 2.
const WRITTEN_LATER: &[u8] = b"\x00\0\x01a\x03bal\0\0\0\0\0\0\0\x02\0\0\0\x012\
       \x10\0\x01a\x03bal\0\0\0\0\0\0\0\x09";

/// The bytes of puts of 7 and 9 into `n` and of 8 into `a`.
const WRITTEN_TOGETHER: &[u8] = b"\x00\0\x01n\x03bal\0\0\0\0\0\0\0\x04\0\0\0\x017\
       \x00\0\x01a\x03bal\0\0\0\0\0\0\0\x04\0\0\0\x018\
       \x00\0\x01n\x03bal\0\0\0\0\0\0\0\x05\0\0\0\x019";

/// A step of rows with a journal.
#[derive(Clone, Copy)]
enum Step {
    Record,
    /// One byte is put at a stamp of `a`, and the stamp 9 is erased, so many times.
    Write(Stamp, u8, u32),
    /// Such a write is refused, since the journal is full.
    Full(Stamp, u8),
    /// Edits of several rows.
    WriteAll,
    Settle,
    Empty,
    /// The newest data of a row has this byte.
    Newest(u8, u8),
}

/// The edits written since the journal was emptied, their bytes, and the bytes of those that wait.
type Written = (usize, usize, &'static [u8]);

/// Nothing is kept of edits that aren't recorded.
const NOT_RECORDED: [(Step, Written); 1] = [(Step::Write(1, b'1', 1), (0, 0, b""))];

/// Edits wait until they are settled.
const SETTLED: [(Step, Written); 5] = [
    (Step::Record, (0, 0, b"")),
    (Step::Write(1, b'1', 1), (2, 37, WRITTEN)),
    (Step::Settle, (2, 37, b"")),
    (Step::Write(1, b'1', 1), (4, 74, WRITTEN)),
    (Step::Empty, (0, 0, b"")),
];

/// The memtable has only two entries, but a replay might need one for each edit.
const FULL: [(Step, Written); 7] = [
    (Step::Record, (0, 0, b"")),
    (Step::Write(1, b'1', 50_000), (100_000, 1_850_000, b"")),
    (Step::Full(2, b'2'), (100_000, 1_850_000, b"")),
    (Step::Newest(b'a', b'1'), (100_000, 1_850_000, b"")),
    (Step::Empty, (0, 0, b"")),
    (Step::Write(2, b'2', 1), (2, 37, WRITTEN_LATER)),
    (Step::Newest(b'a', b'2'), (2, 37, WRITTEN_LATER)),
];

/// Edits of several rows wait together.
const TOGETHER: [(Step, Written); 4] = [
    (Step::Record, (0, 0, b"")),
    (Step::WriteAll, (3, 63, WRITTEN_TOGETHER)),
    (Step::Newest(b'a', b'8'), (3, 63, WRITTEN_TOGETHER)),
    (Step::Newest(b'n', b'9'), (3, 63, WRITTEN_TOGETHER)),
];

/// Puts one byte at a stamp of `a`, and erases the stamp 9.
fn write(
    alloc: Global,
    rows: &mut Recorded<MemFiles>,
    stamp: Stamp,
    value: u8,
) -> Result<(), Refusal> {
    let row = Row::new(alloc, b"a")?;
    let edits = edits_of(alloc, &row, stamp, Some(&[value]), Some(9))?;
    rows.apply(&row, edits)
}

/// Makes a write so many times. If it is made more than once, the edits are settled.
fn write_often(
    alloc: Global,
    rows: &mut Recorded<MemFiles>,
    stamp: Stamp,
    value: u8,
    times: u32,
) -> Result<(), Refusal> {
    for _ in 0..times {
        write(alloc, rows, stamp, value)?;
    }
    if times > 1 {
        rows.settled();
    }
    Ok(())
}

/// Makes a step; answers whether its answer is right.
fn goes(alloc: Global, rows: &mut Recorded<MemFiles>, step: Step) -> Result<bool, Refusal> {
    match step {
        Step::Record => rows.record(),
        Step::Write(stamp, value, times) => write_often(alloc, rows, stamp, value, times)?,
        Step::Full(stamp, value) => {
            return Ok(write(alloc, rows, stamp, value) == Err(Refusal::MemtableFull));
        }
        Step::WriteAll => write_all(alloc, rows)?,
        Step::Settle => rows.settled(),
        Step::Empty => rows.emptied(),
        Step::Newest(row, value) => return Ok(newest(alloc, rows, row)? == value),
    }
    Ok(true)
}

/// Whether all steps go as they should, and what is written is right after each.
fn are_right(alloc: Global, steps: &[(Step, Written)], records: bool) -> Result<bool, Refusal> {
    let mut rows = Recorded::new(new_cluster(alloc)?);
    for (step, (edits, bytes, waiting)) in steps {
        let is_right = goes(alloc, &mut rows, *step)?;
        let is_count = rows.written_edits() == *edits && rows.written_bytes() == *bytes;
        if !is_right || !is_count || rows.waiting() != *waiting {
            return Ok(false);
        }
    }
    Ok(rows.is_recording() == records)
}

#[test]
fn journals(rt: HostRuntime) -> Result<(), Fail> {
    assert!(rt; are_right(rt.alloc(), &NOT_RECORDED, false)?);
    assert!(rt; are_right(rt.alloc(), &SETTLED, true)?);
    assert!(rt; are_right(rt.alloc(), &FULL, true)?);
    assert!(rt; are_right(rt.alloc(), &TOGETHER, true)?);
    Ok(())
}
