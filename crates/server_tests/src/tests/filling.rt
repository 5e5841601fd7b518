//! Memtables that are compacted by the bytes of their entries.

use crate::tests::flushing_server;
use crate::tests::memory::servers::serve;
use cell_key::Refusal;
use server_loop::FlushLimits;
use std::alloc::{AllocError, Global};
use std::test::Fail;
use testing::FILE_LIMIT;
use testing::frames::push_frame;
use testing::streams::Holding;

/// Step 1.
const STEP: &[u8] = b"\x04\0\0\0\0\0\0\0\x01";

/// Merge 1 2: done, if the tablet has two files.
const MERGE: &[u8] = b"\x0B\0\0\0\x01\0\0\0\x02";

/// The size in bytes at which memtables are compacted, the number of cells held with values of 65,536 bytes, and the
/// last reply, to a merge of two files. Sixteen such values have 1,048,576 bytes, so there are two files after the
/// 32nd.
const FILLED: [(Option<u32>, u8, &[u8]); 4] = [
    (Some(1_048_576), 31, b"\0\0\0\x02\xFF\x0E"),
    (Some(1_048_576), 32, b"\0\0\0\x01\x8B"),
    (Some(2_097_152), 32, b"\0\0\0\x02\xFF\x0E"),
    (None, 32, b"\0\0\0\x02\xFF\x0E"),
];

/// The stream that begins the session 1, sets this many cells in it, holds each of them, and merges two files.
fn stream_of_cells(alloc: Global, count: u8) -> Result<Vec<u8>, AllocError> {
    let value = vec![in alloc; b'v'; 65_536]?;
    let mut stream = Vec::new(alloc);
    push_frame(&mut stream, b"\x01")?;
    for row in 0..count {
        let mut set = Vec::from_slice(alloc, b"\x03\0\0\0\0\0\0\0\x01\0\0\0\x01")?;
        set.push(row)?;
        push_frame(&mut set, b"c")?;
        push_frame(&mut set, &value)?;
        push_frame(&mut stream, &set)?;
    }
    for _ in 0..count {
        push_frame(&mut stream, STEP)?;
    }
    push_frame(&mut stream, MERGE)?;
    Ok(stream)
}

/// Whether a server that compacts memtables of this number of bytes writes `last` at the end.
fn ends_with(alloc: Global, bytes: Option<u32>, count: u8, last: &[u8]) -> Result<bool, Refusal> {
    let limits = FlushLimits {
        entries: 10_000,
        bytes,
    };
    let mut server = flushing_server(alloc, limits, FILE_LIMIT)?;
    let stream = stream_of_cells(alloc, count)?;
    let mut reader = stream.as_slice();
    let mut writer = Holding::new(alloc);
    let ended = serve(&mut server, &mut reader, &mut writer, u64::MAX);
    Ok(ended.is_ok() && writer.out.ends_with(last))
}

#[test]
fn memtables_fill_by_bytes(rt: HostRuntime) -> Result<(), Fail> {
    for (bytes, count, last) in FILLED {
        assert!(rt; ends_with(rt.alloc(), bytes, count, last)?);
    }
    Ok(())
}
