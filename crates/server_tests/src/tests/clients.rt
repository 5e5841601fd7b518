//! Rows of several clients over one stream: requests with their replies, as bodies of frames, which begin with the
//! client's number.

use crate::tests::new_server;
use cell_key::Refusal;
use server_loop::{ClientServer, End};
use std::alloc::Global;
use std::test::Fail;
use testing::FILE_LIMIT;
use testing::frames::push_frame;
use testing::rows::Exchange;
use testing::streams::{Holding, Pieces};

/// Client 2 can't use the session of client 1.
const OTHERS_SESSION: [Exchange; 17] = [
    // 1: Begin: 1
    (b"\0\0\0\x01\x01", b"\0\0\0\x01\x81\0\0\0\0\0\0\0\x01"),
    // 2: Begin: 2
    (b"\0\0\0\x02\x01", b"\0\0\0\x02\x81\0\0\0\0\0\0\0\x02"),
    // 2: Get 1 r c: UnknownSession
    (
        b"\0\0\0\x02\x02\0\0\0\0\0\0\0\x01\0\0\0\x01r\0\0\0\x01c",
        b"\0\0\0\x02\xFF\x01",
    ),
    // 2: Set 1 r c v
    (
        b"\0\0\0\x02\x03\0\0\0\0\0\0\0\x01\0\0\0\x01r\0\0\0\x01c\0\0\0\x01v",
        b"\0\0\0\x02\xFF\x01",
    ),
    // 2: Delete 1 r c
    (
        b"\0\0\0\x02\x13\0\0\0\0\0\0\0\x01\0\0\0\x01r\0\0\0\x01c",
        b"\0\0\0\x02\xFF\x01",
    ),
    // 2: Step 1
    (b"\0\0\0\x02\x04\0\0\0\0\0\0\0\x01", b"\0\0\0\x02\xFF\x01"),
    // 2: Stop 1
    (b"\0\0\0\x02\x05\0\0\0\0\0\0\0\x01", b"\0\0\0\x02\xFF\x01"),
    // 2: Commit 1, without writes
    (
        b"\0\0\0\x02\x32\0\0\0\0\0\0\0\x01\0\0\0\0",
        b"\0\0\0\x02\xFF\x01",
    ),
    // 2: Read 1 r c, which stays open
    (
        b"\0\0\0\x02\x33\0\0\0\0\0\0\0\x01\x01\0\0\0\x01\0\0\0\x01r\0\0\0\x01c",
        b"\0\0\0\x02\xFF\x01",
    ),
    // 1: Set 1 r c v: done
    (
        b"\0\0\0\x01\x03\0\0\0\0\0\0\0\x01\0\0\0\x01r\0\0\0\x01c\0\0\0\x01v",
        b"\0\0\0\x01\x83",
    ),
    // 1: Step 1: Held 1 1
    (
        b"\0\0\0\x01\x04\0\0\0\0\0\0\0\x01",
        b"\0\0\0\x01\x84\x01\0\x01\0\x01",
    ),
    // 1: Step 1: Stamped 3
    (
        b"\0\0\0\x01\x04\0\0\0\0\0\0\0\x01",
        b"\0\0\0\x01\x84\x03\0\0\0\0\0\0\0\x03",
    ),
    // 1: Step 1: Committed 3
    (
        b"\0\0\0\x01\x04\0\0\0\0\0\0\0\x01",
        b"\0\0\0\x01\x84\x04\0\0\0\0\0\0\0\x03",
    ),
    // 1: Stop 1: UnknownSession
    (b"\0\0\0\x01\x05\0\0\0\0\0\0\0\x01", b"\0\0\0\x01\xFF\x01"),
    // 2: Get 2 r c: Nothing
    (
        b"\0\0\0\x02\x02\0\0\0\0\0\0\0\x02\0\0\0\x01r\0\0\0\x01c",
        b"\0\0\0\x02\x82\0",
    ),
    // 1: Stop 2: UnknownSession
    (b"\0\0\0\x01\x05\0\0\0\0\0\0\0\x02", b"\0\0\0\x01\xFF\x01"),
    // 2: Stop 2: done
    (b"\0\0\0\x02\x05\0\0\0\0\0\0\0\x02", b"\0\0\0\x02\x85"),
];

/// Three clients and the administrator 7: client 2 rolls back the session of client 1, and leaves a cleaner. Client 3
/// leaves a collector. Both are the administrator's then.
const THREE_CLIENTS: [Exchange; 17] = [
    // 1: Begin: 1
    (b"\0\0\0\x01\x01", b"\0\0\0\x01\x81\0\0\0\0\0\0\0\x01"),
    // 1: Set 1 r c v: done
    (
        b"\0\0\0\x01\x03\0\0\0\0\0\0\0\x01\0\0\0\x01r\0\0\0\x01c\0\0\0\x01v",
        b"\0\0\0\x01\x83",
    ),
    // 1: Step 1: Held 1 1
    (
        b"\0\0\0\x01\x04\0\0\0\0\0\0\0\x01",
        b"\0\0\0\x01\x84\x01\0\x01\0\x01",
    ),
    // 2: CleanBegin r c: cleaner 1, of session 1
    (
        b"\0\0\0\x02\x06\0\0\0\x01r\0\0\0\x01c",
        b"\0\0\0\x02\x86\x01\0\0\0\0\0\0\0\x01\0\0\0\0\0\0\0\x01",
    ),
    // 3: CleanStep 1: UnknownCleaner
    (b"\0\0\0\x03\x07\0\0\0\0\0\0\0\x01", b"\0\0\0\x03\xFF\x09"),
    // 2: CleanStep 1: Decided
    (b"\0\0\0\x02\x07\0\0\0\0\0\0\0\x01", b"\0\0\0\x02\x87\x01"),
    // 1: Step 1: Stamped 2
    (
        b"\0\0\0\x01\x04\0\0\0\0\0\0\0\x01",
        b"\0\0\0\x01\x84\x03\0\0\0\0\0\0\0\x02",
    ),
    // 1: Step 1: Lost
    (b"\0\0\0\x01\x04\0\0\0\0\0\0\0\x01", b"\0\0\0\x01\x84\x05"),
    // 3: CollectBegin: collector 1, floor 3
    (
        b"\0\0\0\x03\x08",
        b"\0\0\0\x03\x88\0\0\0\0\0\0\0\x01\0\0\0\0\0\0\0\x03",
    ),
    // 2: CollectStep 1, 1 visit: UnknownCollector
    (
        b"\0\0\0\x02\x09\0\0\0\0\0\0\0\x01\0\0\0\x01",
        b"\0\0\0\x02\xFF\x0A",
    ),
    // 2: gone
    (b"\0\0\0\x02", b"\0\0\0\x02\x85"),
    // 2: CleanStep 1: UnknownCleaner
    (b"\0\0\0\x02\x07\0\0\0\0\0\0\0\x01", b"\0\0\0\x02\xFF\x09"),
    // 7: CleanStep 1: Gone
    (b"\0\0\0\x07\x07\0\0\0\0\0\0\0\x01", b"\0\0\0\x07\x87\x04"),
    // 3: gone
    (b"\0\0\0\x03", b"\0\0\0\x03\x85"),
    // 7: CollectStep 1, 1,000 visits: Collected
    (
        b"\0\0\0\x07\x09\0\0\0\0\0\0\0\x01\0\0\x03\xE8",
        b"\0\0\0\x07\x89\x03",
    ),
    // 1: Minor 1: BadRequest
    (b"\0\0\0\x01\x0A\0\0\0\x01", b"\0\0\0\x01\xFF\x16"),
    // 7: Minor 1: done
    (b"\0\0\0\x07\x0A\0\0\0\x01", b"\0\0\0\x07\x8A"),
];

/// Without an administrator the collector of a client that is gone is client 0's. Its sessions are stopped, also one
/// that a Read began.
const AN_END: [Exchange; 8] = [
    // 1: CollectBegin: collector 1, floor 1
    (
        b"\0\0\0\x01\x08",
        b"\0\0\0\x01\x88\0\0\0\0\0\0\0\x01\0\0\0\0\0\0\0\x01",
    ),
    // 1: Read r c in a new session that stays open: 1, Nothing
    (
        b"\0\0\0\x01\x33\0\0\0\0\0\0\0\0\x01\0\0\0\x01\0\0\0\x01r\0\0\0\x01c",
        b"\0\0\0\x01\xB3\0\0\0\0\0\0\0\x01\0\0\0\x01\0",
    ),
    // 1: Begin: 2
    (b"\0\0\0\x01\x01", b"\0\0\0\x01\x81\0\0\0\0\0\0\0\x02"),
    // 1: gone
    (b"\0\0\0\x01", b"\0\0\0\x01\x85"),
    // 1: Stop 1: UnknownSession
    (b"\0\0\0\x01\x05\0\0\0\0\0\0\0\x01", b"\0\0\0\x01\xFF\x01"),
    // 1: Stop 2: UnknownSession
    (b"\0\0\0\x01\x05\0\0\0\0\0\0\0\x02", b"\0\0\0\x01\xFF\x01"),
    // 1: CollectStep 1, 1 visit: UnknownCollector
    (
        b"\0\0\0\x01\x09\0\0\0\0\0\0\0\x01\0\0\0\x01",
        b"\0\0\0\x01\xFF\x0A",
    ),
    // 0: CollectStep 1, 1,000 visits: Collected
    (
        b"\0\0\0\0\x09\0\0\0\0\0\0\0\x01\0\0\x03\xE8",
        b"\0\0\0\0\x89\x03",
    ),
];

/// What is no operation is refused to its client, and what has no client's number to client 0.
const MALFORMED: [Exchange; 4] = [
    // 2: an operation that there isn't
    (b"\0\0\0\x02\xFE", b"\0\0\0\x02\xFF\x16"),
    // 2: a Begin and one byte more
    (b"\0\0\0\x02\x01\0", b"\0\0\0\x02\xFF\x16"),
    // three bytes
    (b"\0\0\x02", b"\0\0\0\0\xFF\x16"),
    // none
    (b"", b"\0\0\0\0\xFF\x16"),
];

/// The administrator, if there is one, and the exchanges.
const ROWS: [(Option<u32>, &[Exchange]); 4] = [
    (None, &OTHERS_SESSION),
    (Some(7), &THREE_CLIENTS),
    (None, &AN_END),
    (None, &MALFORMED),
];

/// The streams of requests and of replies.
fn streams_of_clients(
    alloc: Global,
    exchanges: &[Exchange],
) -> Result<(Vec<u8>, Vec<u8>), Refusal> {
    let mut requests = Vec::new(alloc);
    let mut replies = Vec::new(alloc);
    for (request, reply) in exchanges {
        push_frame(&mut requests, request)?;
        push_frame(&mut replies, reply)?;
    }
    Ok((requests, replies))
}

/// How a new server for clients ends, which reads at most so many bytes at once, and the bytes that it writes.
fn served_clients(
    alloc: Global,
    admin: Option<u32>,
    requests: &[u8],
    most: usize,
) -> Result<(Option<End>, Vec<u8>), Refusal> {
    let server = new_server(alloc, FILE_LIMIT)?;
    let mut server = ClientServer::new(alloc, Box::into_inner(server), admin);
    let mut reader = Pieces::new(alloc, requests)?;
    reader.most = most;
    let mut writer = Holding::new(alloc);
    let ended = server.serve(&mut reader, &mut writer, 1, u64::MAX);
    Ok((ended.ok(), writer.out))
}

/// Whether the exchanges are met, if each read gives so many bytes.
fn are_answered(
    alloc: Global,
    admin: Option<u32>,
    exchanges: &[Exchange],
    most: usize,
) -> Result<bool, Refusal> {
    let (requests, replies) = streams_of_clients(alloc, exchanges)?;
    let (ended, written) = served_clients(alloc, admin, &requests, most)?;
    Ok(matches!(ended, Some(End::Clean)) && written == replies)
}

#[test]
fn clients(rt: HostRuntime) -> Result<(), Fail> {
    for (admin, exchanges) in ROWS {
        assert!(rt; are_answered(rt.alloc(), admin, exchanges, usize::MAX)?);
        assert!(rt; are_answered(rt.alloc(), admin, exchanges, 1)?);
    }
    Ok(())
}

#[test]
fn too_large_a_frame_is_nobodys(rt: HostRuntime) -> Result<(), Fail> {
    let (ended, written) = served_clients(rt.alloc(), None, b"\0\x10\0\x01", usize::MAX)?;
    assert!(rt; matches!(ended, Some(End::TooLarge)));
    assert!(rt; written.as_slice() == b"\0\0\0\x06\0\0\0\0\xFF\x17".as_slice());
    Ok(())
}
