//! A cluster of tablets: the cells that it shows after a list of commands.

use crate::tests::asks::{Ask, run};
use crate::tests::memory::clusters::{new_cluster, newest, next};
use cell_key::Refusal;
use file_store::MemFiles;
use row_atomic::{Cluster, Outcome, Rows, one_newest, one_next_cell};
use std::alloc::Global;
use std::test::Fail;

/// Splits at the middle, the first and the last row of a tablet, writes on both sides of an end, a merge of a file that
/// two tablets share, moves, and a major compaction.
const STEPS: [Ask; 25] = [
    Ask::Write(b'a', 1, Some(b"1")),
    Ask::Write(b'b', 1, Some(b"1")),
    Ask::Write(b'c', 1, Some(b"1")),
    Ask::Write(b'd', 1, Some(b"1")),
    Ask::Write(b'e', 1, Some(b"1")),
    Ask::Minor(1),
    Ask::Write(b'c', 2, Some(b"2")),
    Ask::Write(b'b', 1, None),
    Ask::Split(b'c'),
    Ask::Write(b'c', 3, Some(b"3")),
    Ask::Write(b'd', 3, Some(b"3")),
    Ask::Minor(2),
    Ask::Merge(2, 3),
    Ask::Split(b'a'),
    Ask::Split(b'e'),
    Ask::Write(b'b', 2, Some(b"2")),
    Ask::Write(b'f', 2, Some(b"2")),
    Ask::Move(2, 3),
    Ask::Move(1, 15),
    Ask::Move(1, 15),
    Ask::Write(b'd', 1, None),
    Ask::Major(4),
    Ask::Write(b'd', 4, Some(b"4")),
    Ask::Minor(4),
    Ask::Merge(4, 2),
];

/// Runs a step, and then a sweep; answers how many files were swept.
fn take(alloc: Global, cluster: &mut Cluster<MemFiles>, step: Ask) -> Result<u64, Refusal> {
    match run(alloc, cluster, step)?.get(0) {
        Some(Outcome::Refused(refusal)) => Err(*refusal),
        Some(_) => cluster.sweep(),
        None => Err(Refusal::BadRequest),
    }
}

/// Rows, their newest values and the rows of the next cells. Each value is its own stamp.
const SHOWN: [(u8, u8, u8); 6] = [
    (b'a', b'1', b'b'),
    (b'b', b'2', b'c'),
    (b'c', b'3', b'd'),
    (b'd', b'4', b'e'),
    (b'e', b'1', b'f'),
    (b'f', b'2', b'-'),
];

/// Runs all steps; answers how many files were swept.
fn take_all(alloc: Global, cluster: &mut Cluster<MemFiles>) -> Result<u64, Refusal> {
    let mut swept: u64 = 0;
    for step in STEPS {
        swept = swept.saturating_add(take(alloc, cluster, step)?);
    }
    Ok(swept)
}

/// Whether all values and next cells are right.
fn are_shown(alloc: Global, cluster: &mut Cluster<MemFiles>) -> Result<bool, Refusal> {
    for (row, value, after) in SHOWN {
        if newest(alloc, cluster, row)? != value || next(alloc, cluster, row)? != after {
            return Ok(false);
        }
    }
    Ok(true)
}

#[test]
fn tablets_keep_the_cells(rt: HostRuntime) -> Result<(), Fail> {
    let mut cluster = new_cluster(rt.alloc())?;
    let swept = take_all(rt.alloc(), &mut cluster)?;
    assert!(rt; are_shown(rt.alloc(), &mut cluster)?);
    assert!(rt; swept == 3 && cluster.faults() == 0);
    one_newest();
    one_next_cell();
    let _files = cluster.into_files();
    Ok(())
}
