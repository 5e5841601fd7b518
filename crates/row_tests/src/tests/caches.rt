//! The cache of places of a cluster, and the emptying of its caches.

use crate::tests::asks::{Ask, run};
use crate::tests::memory::clusters::{new_cluster, newest};
use cell_key::Refusal;
use file_store::MemFiles;
use row_atomic::{Cluster, Outcome};
use std::alloc::Global;
use std::test::Fail;

/// Whether an outcome is this: the left part's number, the number of files swept, the value found, or the refusal's
/// number after a byte FF.
fn is_outcome(outcome: Option<&Outcome>, wanted: &[u8]) -> bool {
    match outcome {
        Some(Outcome::Done) | Some(Outcome::Newest(None)) => wanted.is_empty(),
        Some(Outcome::Newest(Some((_, value)))) => value.as_slice() == wanted,
        Some(Outcome::Split(left)) => wanted.len() == 1 && u32::from(wanted[0]) == *left,
        Some(Outcome::Swept(count)) => wanted.len() == 1 && u64::from(wanted[0]) == *count,
        Some(Outcome::Refused(refusal)) => wanted == [0xFF, refusal.number()].as_slice(),
        _ => false,
    }
}

/// Splits, moves and raw reads, with the answer of each.
const ASKED: [(Ask, &[u8]); 13] = [
    (Ask::Split(b'm'), b"\x02"),
    (Ask::Split(b'm'), b"\xFF\x0C"),
    (Ask::Move(3, 16), b"\xFF\x0B"),
    (Ask::Move(2, 16), b"\xFF\x0D"),
    (Ask::Move(2, 3), b""),
    (Ask::Lock(b'm', b"m\0\0c\0\0"), b""),
    (Ask::Read(b'm', 0, 9), b"m\0\0c\0\0"),
    (Ask::Read(b'm', 9, 0), b""),
    (Ask::Major(2), b""),
    (Ask::Read(b'm', 0, 9), b"m\0\0c\0\0"),
    (Ask::Merge(2, 2), b"\xFF\x0E"),
    (Ask::Split(b'n'), b"\x03"),
    (Ask::Sweep, b"\0"),
];

/// Whether a cluster gives the wanted answer.
fn is_answered(
    alloc: Global,
    cluster: &mut Cluster<MemFiles>,
    ask: Ask,
    wanted: &[u8],
) -> Result<bool, Refusal> {
    Ok(is_outcome(run(alloc, cluster, ask)?.get(0), wanted))
}

/// Whether a cluster gives all wanted answers, with its caches emptied before each request, or never.
fn answers(alloc: Global, drops: bool) -> Result<bool, Refusal> {
    let mut cluster = Box::new(alloc, new_cluster(alloc)?)?;
    for (ask, wanted) in ASKED {
        if drops {
            cluster.drop_caches();
        }
        if !is_answered(alloc, &mut cluster, ask, wanted)? {
            return Ok(false);
        }
    }
    Ok(true)
}

#[test]
fn answers_need_no_cache(rt: HostRuntime) -> Result<(), Fail> {
    assert!(rt; answers(rt.alloc(), false)?);
    assert!(rt; answers(rt.alloc(), true)?);
    Ok(())
}

/// A request to a cluster, the rows read after it, in order, and the hits of the cache of places since the cluster was
/// made.
const HITS: [(Option<Ask>, &[u8], u64); 12] = [
    // one tablet: the cache isn't asked
    (None, b"aaba", 0),
    (Some(Ask::Split(b'm')), b"a", 0),
    (None, b"a", 1),
    (Some(Ask::DropCaches), b"a", 1),
    // refused
    (Some(Ask::Split(b'm')), b"a", 2),
    (Some(Ask::Move(1, 16)), b"a", 3),
    // to another server, and to the server that it is already on
    (Some(Ask::Move(1, 3)), b"a", 3),
    (Some(Ask::Move(1, 3)), b"a", 3),
    // a write looks the row up once, and caches it
    (Some(Ask::Lock(b'z', b"1")), b"z", 4),
    // compactions and sweeps keep the cache
    (Some(Ask::Minor(1)), b"az", 6),
    (Some(Ask::Major(1)), b"az", 8),
    (Some(Ask::Sweep), b"az", 10),
];

/// Sends a request and reads rows; answers the hits of the cache of places.
fn hits_after(
    alloc: Global,
    cluster: &mut Cluster<MemFiles>,
    ask: Option<Ask>,
    rows: &[u8],
) -> Result<u64, Refusal> {
    if let Some(ask) = ask {
        let _outcomes = run(alloc, cluster, ask)?;
    }
    for row in rows {
        newest(alloc, cluster, *row)?;
    }
    Ok(cluster.place_hits())
}

#[test]
fn rows_are_found_again(rt: HostRuntime) -> Result<(), Fail> {
    let mut cluster = Box::new(rt.alloc(), new_cluster(rt.alloc())?)?;
    for (ask, rows, hits) in HITS {
        assert!(rt; hits_after(rt.alloc(), &mut cluster, ask, rows)? == hits);
    }
    Ok(())
}

/// Of 129 rows read in order the first is evicted, and the last is still cached.
#[test]
fn rows_are_kept_for_a_while(rt: HostRuntime) -> Result<(), Fail> {
    let mut cluster = Box::new(rt.alloc(), new_cluster(rt.alloc())?)?;
    assert!(rt; hits_after(rt.alloc(), &mut cluster, Some(Ask::Split(b'm')), &[])? == 0);
    for row in 0..129 {
        newest(rt.alloc(), &mut *cluster, row)?;
    }
    assert!(rt; hits_after(rt.alloc(), &mut cluster, None, &[0])? == 0);
    assert!(rt; hits_after(rt.alloc(), &mut cluster, None, &[128, 2])? == 2);
    Ok(())
}
