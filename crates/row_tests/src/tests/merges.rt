//! Merges in steps, with other calls between two of them.

use crate::tests::asks::{Ask, run};
use crate::tests::memory::clusters::{new_cluster, newest};
use cell_key::Refusal;
use file_store::MemFiles;
use row_atomic::{Cluster, MergePolicy, Outcome};
use std::alloc::Global;
use std::test::Fail;

/// Four files of one entry each.
const FILES: [Ask; 8] = [
    Ask::Write(b'a', 1, Some(b"1")),
    Ask::Minor(1),
    Ask::Write(b'b', 1, Some(b"2")),
    Ask::Minor(1),
    Ask::Write(b'c', 1, Some(b"3")),
    Ask::Minor(1),
    Ask::Write(b'd', 1, Some(b"4")),
    Ask::Minor(1),
];

/// What comes between the second step of the files' merge and the third, how many files a sweep then removes, how many
/// steps then answer that there may be more, and how many files tablet 1 has in the end.
const BETWEEN: [(&[Ask], [u64; 3]); 6] = [
    // Three entries, and the end.
    (&[], [0, 4, 1]),
    // A newer file stays before the merged one.
    (&[Ask::Write(b'a', 2, Some(b"1")), Ask::Minor(1)], [0, 4, 2]),
    // It is given up, since its files aren't its tablet's any more, and a merge of the three files is begun.
    (&[Ask::Merge(1, 2)], [2, 6, 1]),
    (&[Ask::Major(1)], [4, 0, 1]),
    // It is given up, since its tablet has fewer rows.
    (&[Ask::Split(b'b')], [0, 0, 4]),
    // The same files, opened again.
    (&[Ask::Move(1, 3)], [0, 4, 1]),
];

/// Rows and their values.
const VALUES: [(u8, u8); 4] = [(b'a', b'1'), (b'b', b'2'), (b'c', b'3'), (b'd', b'4')];

/// Makes these requests.
fn ask_all(alloc: Global, cluster: &mut Cluster<MemFiles>, asks: &[Ask]) -> Result<(), Refusal> {
    for ask in asks {
        if let Some(Outcome::Refused(refusal)) = run(alloc, cluster, *ask)?.get(0) {
            return Err(*refusal);
        }
    }
    Ok(())
}

/// Makes a step that passes one entry; answers whether there may be more.
fn step(cluster: &mut Cluster<MemFiles>) -> bool {
    cluster.merge_some(MergePolicy::Levels, 1)
}

/// Makes steps as long as there may be more, at most 20; answers how many there were.
fn steps(cluster: &mut Cluster<MemFiles>) -> u64 {
    for count in 0..20 {
        if !step(cluster) {
            return count;
        }
    }
    20
}

/// How many files tablet 1 has.
fn file_count(cluster: &Cluster<MemFiles>) -> u64 {
    match cluster.tablet(1) {
        Some((place, _)) => place.files.len() as u64,
        None => 0,
    }
}

/// Begins the merge of the four files, makes a step and these requests, and ends it.
fn merge_around(
    alloc: Global,
    cluster: &mut Cluster<MemFiles>,
    between: &[Ask],
) -> Result<[u64; 3], Refusal> {
    ask_all(alloc, cluster, &FILES)?;
    if !step(cluster) || !step(cluster) {
        return Err(Refusal::BadCount);
    }
    ask_all(alloc, cluster, between)?;
    let swept = cluster.sweep()?;
    let more = steps(cluster);
    Ok([swept, more, file_count(cluster)])
}

/// Whether all values are there.
fn has_values(alloc: Global, cluster: &mut Cluster<MemFiles>) -> Result<bool, Refusal> {
    for (row, value) in VALUES {
        if newest(alloc, cluster, row)? != value {
            return Ok(false);
        }
    }
    Ok(true)
}

/// Whether a merge with these requests between goes as it is to go, and all values stay.
fn goes(alloc: Global, between: &[Ask], wanted: [u64; 3]) -> Result<bool, Refusal> {
    let mut cluster = Box::new(alloc, new_cluster(alloc)?)?;
    let found = merge_around(alloc, &mut cluster, between)?;
    Ok(found == wanted && !cluster.is_merging() && has_values(alloc, &mut cluster)?)
}

#[test]
fn a_merge_goes_on_between_other_calls(rt: HostRuntime) -> Result<(), Fail> {
    for (between, wanted) in BETWEEN {
        assert!(rt; goes(rt.alloc(), between, wanted)?);
    }
    Ok(())
}
