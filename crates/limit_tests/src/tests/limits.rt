//! Files that are too large, and input that is read in pieces. The other limits are tested on the program.

use crate::tests::{MemServer, new_server};
use cell_key::Refusal;
use request_codec::{Reply, Request};
use server_loop::End;
use std::alloc::{AllocError, Global};
use std::test::Fail;
use testing::FILE_LIMIT;
use testing::frames::{push_frame, stream_of};
use testing::streams::{Holding, Recording};

/// The number of a request's refusal, or 0 if it is done.
fn refused(server: &mut MemServer, request: Request<'_>) -> u8 {
    match server.answer(request) {
        Reply::Refused(refusal) => refusal.number(),
        _ => 0,
    }
}

/// Whether a server answers each request of a table with its number.
fn are_answered(server: &mut MemServer, table: &[(Request<'_>, u8)]) -> bool {
    for (request, number) in table {
        if refused(server, *request) != *number {
            return false;
        }
    }
    true
}

/// The first step of one cell with an empty value gives a file of 153 bytes.
#[test]
fn files_that_are_too_large(rt: HostRuntime) -> Result<(), Fail> {
    let values: [(&[u8], u8); 2] = [(b"v", 17), (b"", 0)];
    for (value, number) in values {
        let set = Request::Set {
            start: 1,
            row: b"r",
            family: b"c",
            value,
        };
        let table = [
            (Request::Begin, 0),
            (set, 0),
            (Request::Step { start: 1 }, 0),
            (Request::Minor { tablet: 1 }, number),
            (Request::Major { tablet: 1 }, number),
            (Request::Split { row: b"r" }, number),
        ];
        let mut server = new_server(rt.alloc(), 153)?;
        assert!(rt; are_answered(&mut server, &table));
    }
    Ok(())
}

/// A Set of `r` `c`, before the length of its value.
const SET: &[u8] = b"\x03\0\0\0\0\0\0\0\x01\0\0\0\x01r\0\0\0\x01c";

/// A Step, and a raw read of the cell's data.
const STEP: &[u8] = b"\x04\0\0\0\0\0\0\0\x01";

const RAW: &[u8] = b"\x11\0\0\0\x01r\0\0\0\x01c\x01\0\0\0\0\0\0\0\x01\0\0\0\0\0\0\0\x01";

/// The stream that sets a value of 65,536 bytes, holds its cell and reads it.
fn stream_of_set(alloc: Global) -> Result<Vec<u8>, AllocError> {
    let value = vec![in alloc; b'v'; 65_536]?;
    let mut set = Vec::from_slice(alloc, SET)?;
    push_frame(&mut set, &value)?;
    stream_of(alloc, &[b"\x01", &set, STEP, RAW])
}

/// The sizes of a server's reads of a stream, which it ends cleanly.
fn reads_of(alloc: Global, stream: &[u8]) -> Result<Vec<usize>, Refusal> {
    let mut server = new_server(alloc, FILE_LIMIT)?;
    let mut reader = Recording {
        rest: stream,
        asked: Vec::new(alloc),
    };
    let mut writer = Holding::new(alloc);
    match server.serve(&mut reader, &mut writer, u64::MAX) {
        Ok(End::Clean) => Ok(reader.asked),
        _ => Err(Refusal::Device),
    }
}

/// Each read asks for 65,536 bytes: the first gets all of them, the second the rest of the stream, and the third
/// nothing.
#[test]
fn input_is_read_in_pieces(rt: HostRuntime) -> Result<(), Fail> {
    let asked = reads_of(rt.alloc(), &stream_of_set(rt.alloc())?)?;
    assert!(rt; asked.as_slice() == [65_536, 65_536, 65_536].as_slice());
    Ok(())
}
