//! The store as its users meet it: streams of requests with their replies.

mod checkpoint_faults;
mod clients;
mod faults;
mod filling;
mod memory;
mod script;
mod statuses;

ghost use Rattle.std.specs.Prelude.{◌≤◌, IfSome, IsTrue};

use crate::tests::memory::servers::serve;
use cell_key::Refusal;
use file_store::MemFiles;
use oracle::MemMark;
use request_codec::{Reply, Request};
use server_loop::{Config, End, FlushLimits, MergePolicy, ServeFault, Server, end_status};
use std::alloc::Global;
use std::cell::Cell;
use std::io::{Read, Write};
use std::test::Fail;
use testing::frames::streams_of;
use testing::rows::Row;
use testing::streams::{Asking, Holding, Narrow, Pieces, Telling};
use testing::{FILE_LIMIT, cleaning, collecting, deleting, rows, scanning, transactions, upkeep};

type MemServer = Server<MemFiles, MemMark>;

/// How a server ended.
type Ended = Result<End, ServeFault>;

/// The limits at which memtables are compacted, unless a test sets others.
const FLUSH: FlushLimits = FlushLimits {
    entries: 10_000,
    bytes: None,
};

/// A server over files in memory, each of `file_limit` bytes at most. In its box it is dropped by one call.
fn new_server(alloc: Global, file_limit: u64) -> Result<Box<MemServer>, Refusal> {
    flushing_server(alloc, FLUSH, file_limit)
}

/// Whether a size in bytes at which memtables are compacted, if there is one, is within its limits.
fn are_flush_bytes(bytes: Option<u32>) -> bool
    ensures { IsTrue result → IfSome bytes (λ bytes. (1048576 ≤ bytes) × (bytes ≤ 67108864)) }
{
    match bytes {
        Some(bytes) => 1_048_576 <= bytes && bytes <= 67_108_864,
        None => true,
    }
}

/// The same, with memtables compacted at these limits.
fn flushing_server(
    alloc: Global,
    flush: FlushLimits,
    file_limit: u64,
) -> Result<Box<MemServer>, Refusal> {
    if flush.entries == 0 || flush.entries > 100_000 || !are_flush_bytes(flush.bytes) {
        return Err(Refusal::FileTooLarge);
    }
    if file_limit < 48 || file_limit > FILE_LIMIT {
        return Err(Refusal::FileTooLarge);
    }
    let config = Config { flush, file_limit };
    match Server::new(alloc, MemFiles::new(alloc), MemMark::new(), config) {
        Ok(server) => Ok(Box::new(alloc, server)?),
        Err((refusal, _, _)) => Err(refusal),
    }
}

/// How a new server ends after at most this many reads.
fn served<I: Read, O: Write>(
    alloc: Global,
    reader: &mut I,
    writer: &mut O,
    most_reads: u64,
) -> Result<Ended, Refusal> {
    let mut server = new_server(alloc, FILE_LIMIT)?;
    Ok(serve(&mut server, reader, writer, most_reads))
}

/// How a new server ends after at most this many reads, and the bytes that it has written and flushed.
fn outcome(alloc: Global, reader: Pieces, most_reads: u64) -> Result<(Ended, Vec<u8>), Refusal> {
    let mut reader = reader;
    let mut writer = Holding::new(alloc);
    let ended = served(alloc, &mut reader, &mut writer, most_reads)?;
    Ok((ended, writer.out))
}

/// Whether a new server ends cleanly and writes the row's replies, both if each read gives one byte and if the stream
/// is cut in two at any offset.
fn is_met(alloc: Global, row: &Row) -> Result<bool, Refusal> {
    let (requests, replies) = streams_of(alloc, row)?;
    for cut in 0..=requests.len() {
        let mut reader = Pieces::new(alloc, &requests)?;
        reader.most = if cut == 0 { 1 } else { usize::MAX };
        reader.cut = cut;
        let (ended, written) = outcome(alloc, reader, u64::MAX)?;
        if !matches!(ended, Ok(End::Clean)) || written != replies {
            return Ok(false);
        }
    }
    Ok(true)
}

/// Whether each of some rows is met.
fn are_met(alloc: Global, rows: &[Row]) -> Result<bool, Refusal> {
    for row in rows {
        if !is_met(alloc, row)? {
            return Ok(false);
        }
    }
    Ok(true)
}

#[test]
fn transactions(rt: HostRuntime) -> Result<(), Fail> {
    assert!(rt; are_met(rt.alloc(), &rows::ROWS)?);
    Ok(())
}

#[test]
fn upkeep_of_tablets(rt: HostRuntime) -> Result<(), Fail> {
    assert!(rt; are_met(rt.alloc(), &upkeep::ROWS)?);
    Ok(())
}

#[test]
fn cleaners(rt: HostRuntime) -> Result<(), Fail> {
    assert!(rt; are_met(rt.alloc(), &cleaning::ROWS)?);
    Ok(())
}

#[test]
fn collectors(rt: HostRuntime) -> Result<(), Fail> {
    assert!(rt; are_met(rt.alloc(), &collecting::ROWS)?);
    Ok(())
}

/// Input, output and the exit status.
const ENDS: [(&[u8], &[u8], u8); 10] = [
    // empty input
    (b"", b"", 0),
    // one begin
    (b"\0\0\0\x01\x01", b"\0\0\0\x09\x81\0\0\0\0\0\0\0\x01", 0),
    // a bad body, a begin, and then too large a frame
    (
        b"\0\0\0\x02\x01\0\0\0\0\x01\x01\0\x10\0\x01",
        b"\0\0\0\x02\xFF\x16\0\0\0\x09\x81\0\0\0\0\0\0\0\x01\0\0\0\x02\xFF\x17",
        3,
    ),
    // cut inside a length
    (b"\0\0\0", b"", 2),
    (b"\xFF\xFF\xFF", b"", 2),
    // cut inside a body
    (b"\0\0\0\x09\x04\0", b"", 2),
    // an empty body
    (b"\0\0\0\0", b"\0\0\0\x02\xFF\x16", 0),
    // too large a frame alone
    (b"\xFF\xFF\xFF\xFF", b"\0\0\0\x02\xFF\x17", 3),
    // a field that would go far past its body
    (
        b"\0\0\0\x0D\x02\0\0\0\0\0\0\0\x01\xFF\xFF\xFF\xFF",
        b"\0\0\0\x02\xFF\x16",
        0,
    ),
    // a begin, and empty rows in its session and in an unknown one
    (
        b"\0\0\0\x01\x01\
        \0\0\0\x12\x02\0\0\0\0\0\0\0\x01\0\0\0\0\0\0\0\x01c\
        \0\0\0\x12\x02\0\0\0\0\0\0\0\x02\0\0\0\0\0\0\0\x01c",
        b"\0\0\0\x09\x81\0\0\0\0\0\0\0\x01\0\0\0\x02\xFF\x03\0\0\0\x02\xFF\x01",
        0,
    ),
];

#[test]
fn ends_of_streams(rt: HostRuntime) -> Result<(), Fail> {
    for (input, output, status) in ENDS {
        let (ended, written) = outcome(rt.alloc(), Pieces::new(rt.alloc(), input)?, u64::MAX)?;
        assert!(rt; written.as_slice() == output);
        assert!(rt; end_status(&ended).0 == status);
    }
    Ok(())
}

const BEGIN: &[u8] = b"\0\0\0\x01\x01";

/// Two requests.
const TWO_BEGINS: &[u8] = b"\0\0\0\x01\x01\0\0\0\x01\x01";

/// The first reply, and both.
const ONE_REPLY: &[u8] = b"\0\0\0\x09\x81\0\0\0\0\0\0\0\x01";

const TWO_REPLIES: &[u8] = b"\0\0\0\x09\x81\0\0\0\0\0\0\0\x01\0\0\0\x09\x81\0\0\0\0\0\0\0\x02";

/// Whether a new server ends with a read fault if the reader of these bytes, at most `most` of them a read, fails at
/// offset `place`; and whether it has then written these replies.
fn is_read_to(
    alloc: Global,
    bytes: &[u8],
    most: usize,
    place: usize,
    replies: &[u8],
) -> Result<bool, Refusal> {
    let mut reader = Pieces::new(alloc, bytes)?;
    reader.most = most;
    reader.fails_at = place;
    let (ended, written) = outcome(alloc, reader, u64::MAX)?;
    Ok(matches!(ended, Err(ServeFault::Read)) && written.as_slice() == replies)
}

/// Whether a new server that reads two requests byte by byte ends after this many reads, and has written these replies.
fn is_used_up(alloc: Global, most_reads: u64, replies: &[u8]) -> Result<bool, Refusal> {
    let mut reader = Pieces::new(alloc, TWO_BEGINS)?;
    reader.most = 1;
    let (ended, written) = outcome(alloc, reader, most_reads)?;
    Ok(matches!(ended, Ok(End::ReadsUsedUp)) && written.as_slice() == replies)
}

/// A reader of two requests fails at each offset, after bytes that it gave one by one or all at once: the requests
/// before the offset are answered. The same holds if the reads are used up there.
#[test]
fn a_read_fails_at_each_place(rt: HostRuntime) -> Result<(), Fail> {
    for place in 0..10 {
        let replies = if place < 5 { b"" } else { ONE_REPLY };
        let given = &TWO_BEGINS[..place];
        assert!(rt; is_read_to(rt.alloc(), TWO_BEGINS, 1, place, replies)?);
        assert!(rt; is_read_to(rt.alloc(), given, usize::MAX, place, replies)?);
        assert!(rt; is_used_up(rt.alloc(), place as u64, replies)?);
    }
    Ok(())
}

/// Whether a writer that gives up after this many calls got exactly this many bytes of the first cell's replies.
fn is_cut_short(alloc: Global, calls_left: usize, stalls: bool) -> Result<bool, Refusal> {
    let (requests, replies) = streams_of(alloc, &rows::FIRST_CELL)?;
    let mut reader = Pieces::new(alloc, &requests)?;
    let mut writer = Narrow {
        written: Vec::new(alloc),
        calls_left,
        stalls,
    };
    let ended = served(alloc, &mut reader, &mut writer, u64::MAX)?;
    let is_told = match ended {
        Err(ServeFault::Write) => calls_left < replies.len(),
        Ok(End::Clean) => calls_left >= replies.len(),
        _ => false,
    };
    let most = calls_left.min(replies.len());
    Ok(is_told && writer.written.as_slice() == &replies[..most])
}

#[test]
fn a_write_fails_at_each_call(rt: HostRuntime) -> Result<(), Fail> {
    for calls_left in 0..=80 {
        assert!(rt; is_cut_short(rt.alloc(), calls_left, false)?);
        assert!(rt; is_cut_short(rt.alloc(), calls_left, true)?);
    }
    Ok(())
}

/// The number of flushes before one that fails, the bytes flushed by then, and the next session's start.
const FLUSHES: [(usize, &[u8], u64); 4] = [
    // before the first read
    (0, b"", 1),
    // before the second one
    (1, b"", 2),
    // before the read at the end
    (2, ONE_REPLY, 3),
    // after the last read
    (3, TWO_REPLIES, 3),
];

/// Whether a server ends with a write fault after this many flushes, has then flushed these replies, and next begins a
/// session at this start.
fn is_flushed(
    alloc: Global,
    flushes_left: usize,
    replies: &[u8],
    start: u64,
) -> Result<bool, Refusal> {
    let mut server = new_server(alloc, FILE_LIMIT)?;
    let mut reader = Pieces::new(alloc, TWO_BEGINS)?;
    reader.most = BEGIN.len();
    let mut writer = Holding::new(alloc);
    writer.flushes_left = flushes_left;
    let ended = serve(&mut server, &mut reader, &mut writer, u64::MAX);
    let is_told = matches!(ended, Err(ServeFault::Write)) && writer.out.as_slice() == replies;
    Ok(is_told && matches!(server.answer(Request::Begin), Reply::Begin(next) if next == start))
}

#[test]
fn a_flush_fails(rt: HostRuntime) -> Result<(), Fail> {
    for (flushes_left, replies, start) in FLUSHES {
        assert!(rt; is_flushed(rt.alloc(), flushes_left, replies, start)?);
    }
    Ok(())
}

/// Whether a server that compacts memtables at this many entries, and merges at this many files, writes a row's
/// replies.
fn flushing(alloc: Global, flush: u32, merge: Option<u32>, row: &Row) -> Result<bool, Refusal> {
    let (requests, replies) = streams_of(alloc, row)?;
    let limits = FlushLimits {
        entries: flush,
        bytes: None,
    };
    let mut server = flushing_server(alloc, limits, FILE_LIMIT)?;
    if let Some(most) = merge {
        server.merge_by(MergePolicy::AtCount(most));
    }
    let mut reader = requests.as_slice();
    let mut writer = Holding::new(alloc);
    let ended = serve(&mut server, &mut reader, &mut writer, u64::MAX);
    Ok(matches!(ended, Ok(End::Clean)) && writer.out == replies)
}

/// The number of entries at which memtables are compacted, the number of files at which these are merged, and the row.
const COMPACTIONS: [(u32, Option<u32>, Row); 9] = [
    (2, None, upkeep::COMPACTED),
    (2, Some(3), upkeep::COMPACTED),
    (2, Some(2), upkeep::MERGED_AT_TWO),
    (2, None, upkeep::BOTH_COMPACTED),
    (2, Some(2), upkeep::BOTH_MERGED_AT_TWO),
    (3, Some(2), upkeep::NOT_COMPACTED),
    (10_000, None, upkeep::NOT_COMPACTED),
    (10_000, None, upkeep::CHECKPOINTED),
    (10_000, Some(2), upkeep::CHECKPOINTED_AND_MERGED),
];

/// Whether rows are met without automatic compactions, and with memtables compacted after each reply and files merged at
/// two.
fn are_flushing(alloc: Global, rows: &[Row]) -> Result<bool, Refusal> {
    for row in rows {
        if !flushing(alloc, 10_000, None, row)? || !flushing(alloc, 1, Some(2), row)? {
            return Ok(false);
        }
    }
    Ok(true)
}

#[test]
fn rows_with_compactions(rt: HostRuntime) -> Result<(), Fail> {
    assert!(rt; are_flushing(rt.alloc(), &deleting::ROWS)?);
    assert!(rt; are_flushing(rt.alloc(), &scanning::ROWS)?);
    assert!(rt; are_flushing(rt.alloc(), &transactions::ROWS)?);
    for (flush, merge, row) in COMPACTIONS {
        assert!(rt; flushing(rt.alloc(), flush, merge, &row)?);
    }
    Ok(())
}

#[test]
fn a_reply_leaves_before_the_next_read(rt: HostRuntime) -> Result<(), Fail> {
    let left = Cell::new(false);
    let mut reader = Asking {
        first: BEGIN,
        second: BEGIN,
        left: &left,
    };
    let mut writer = Telling {
        written: Vec::new(rt.alloc()),
        left: &left,
    };
    let ended = served(rt.alloc(), &mut reader, &mut writer, u64::MAX)?;
    assert!(rt; matches!(ended, Ok(End::Clean)));
    assert!(rt; writer.written.as_slice() == TWO_REPLIES);
    Ok(())
}
