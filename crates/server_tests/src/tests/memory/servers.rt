//! Servers: asked by requests, and over streams of frames.

use crate::tests::{MemServer, new_server};
use cell_key::Refusal;
use request_codec::{Reply, decode_request};
use server_loop::{End, ServeFault};
use std::alloc::Global;
use std::io::{Read, Write};
use testing::FILE_LIMIT;
use testing::frames::stream_of;
use testing::memory::{Call, Subject, Table};

/// The requests that set a server up. After them there are sessions in each phase, a cleaner before its first step and
/// another before its second, an open collector, two files and a memtable.
const SET_UP: [&[u8]; 42] = [
    // Begin: 1
    b"\x01",
    // Set 1 a c 1
    b"\x03\0\0\0\0\0\0\0\x01\0\0\0\x01a\0\0\0\x01c\0\0\0\x011",
    // Set 1 n c 2
    b"\x03\0\0\0\0\0\0\0\x01\0\0\0\x01n\0\0\0\x01c\0\0\0\x012",
    // Step 1: Held
    b"\x04\0\0\0\0\0\0\0\x01",
    // Step 1: Held
    b"\x04\0\0\0\0\0\0\0\x01",
    // Step 1: Stamped 2
    b"\x04\0\0\0\0\0\0\0\x01",
    // Step 1: Committed 2
    b"\x04\0\0\0\0\0\0\0\x01",
    // Step 1: Finished
    b"\x04\0\0\0\0\0\0\0\x01",
    // Minor 1
    b"\x0A\0\0\0\x01",
    // Begin: 3
    b"\x01",
    // Set 3 a c 3
    b"\x03\0\0\0\0\0\0\0\x03\0\0\0\x01a\0\0\0\x01c\0\0\0\x013",
    // Step 3: Held
    b"\x04\0\0\0\0\0\0\0\x03",
    // Step 3: Stamped 4
    b"\x04\0\0\0\0\0\0\0\x03",
    // Step 3: Committed 4
    b"\x04\0\0\0\0\0\0\0\x03",
    // Minor 1
    b"\x0A\0\0\0\x01",
    // Merge 1 2
    b"\x0B\0\0\0\x01\0\0\0\x02",
    // Begin: 5
    b"\x01",
    // Set 5 p c 5
    b"\x03\0\0\0\0\0\0\0\x05\0\0\0\x01p\0\0\0\x01c\0\0\0\x015",
    // Set 5 q c 6
    b"\x03\0\0\0\0\0\0\0\x05\0\0\0\x01q\0\0\0\x01c\0\0\0\x016",
    // Step 5: Held
    b"\x04\0\0\0\0\0\0\0\x05",
    // Step 5: Held
    b"\x04\0\0\0\0\0\0\0\x05",
    // Step 5: Stamped 6
    b"\x04\0\0\0\0\0\0\0\x05",
    // Begin: 7
    b"\x01",
    // Set 7 r c 7
    b"\x03\0\0\0\0\0\0\0\x07\0\0\0\x01r\0\0\0\x01c\0\0\0\x017",
    // Set 7 s c 8
    b"\x03\0\0\0\0\0\0\0\x07\0\0\0\x01s\0\0\0\x01c\0\0\0\x018",
    // Step 7: Held
    b"\x04\0\0\0\0\0\0\0\x07",
    // Step 7: Held
    b"\x04\0\0\0\0\0\0\0\x07",
    // Step 7: Stamped 8
    b"\x04\0\0\0\0\0\0\0\x07",
    // Step 7: Committed 8
    b"\x04\0\0\0\0\0\0\0\x07",
    // Minor 1
    b"\x0A\0\0\0\x01",
    // Begin: 9
    b"\x01",
    // Set 9 b c 9
    b"\x03\0\0\0\0\0\0\0\x09\0\0\0\x01b\0\0\0\x01c\0\0\0\x019",
    // Step 9: Held
    b"\x04\0\0\0\0\0\0\0\x09",
    // Begin: 10
    b"\x01",
    // Set 10 n c 0
    b"\x03\0\0\0\0\0\0\0\x0A\0\0\0\x01n\0\0\0\x01c\0\0\0\x010",
    // Begin: 11
    b"\x01",
    // Set 11 b c 1
    b"\x03\0\0\0\0\0\0\0\x0B\0\0\0\x01b\0\0\0\x01c\0\0\0\x011",
    // Begin: 12
    b"\x01",
    // CleanBegin p c: Cleaner 1 5
    b"\x06\0\0\0\x01p\0\0\0\x01c",
    // CleanBegin s c: Cleaner 2 7
    b"\x06\0\0\0\x01s\0\0\0\x01c",
    // CleanStep 2: Decided
    b"\x07\0\0\0\0\0\0\0\x02",
    // CollectBegin: 1, floor 5
    b"\x08",
];

/// The reads: cells in each phase, and whether there is a second tablet.
const READS: [&[u8]; 8] = [
    // Get 12 a c
    b"\x02\0\0\0\0\0\0\0\x0C\0\0\0\x01a\0\0\0\x01c",
    // Get 12 b c
    b"\x02\0\0\0\0\0\0\0\x0C\0\0\0\x01b\0\0\0\x01c",
    // Get 12 p c
    b"\x02\0\0\0\0\0\0\0\x0C\0\0\0\x01p\0\0\0\x01c",
    // Raw n c data
    b"\x11\0\0\0\x01n\0\0\0\x01c\x01\0\0\0\0\0\0\0\0\0\0\0\0\0\0\0c",
    // Raw p c lock
    b"\x11\0\0\0\x01p\0\0\0\x01c\x02\0\0\0\0\0\0\0\0\0\0\0\0\0\0\0c",
    // Raw s c write
    b"\x11\0\0\0\x01s\0\0\0\x01c\x03\0\0\0\0\0\0\0\0\0\0\0\0\0\0\0c",
    // Merge 1 9
    b"\x0B\0\0\0\x01\0\0\0\x09",
    // Merge 2 9
    b"\x0B\0\0\0\x02\0\0\0\x09",
];

/// The requests that are made with allocations refused.
const REQUESTS: [&[u8]; 30] = [
    // Begin: 13
    b"\x01",
    // Get 12 a c: 3
    b"\x02\0\0\0\0\0\0\0\x0C\0\0\0\x01a\0\0\0\x01c",
    // Get 12 b c: pending
    b"\x02\0\0\0\0\0\0\0\x0C\0\0\0\x01b\0\0\0\x01c",
    // Get 12 z c: nothing
    b"\x02\0\0\0\0\0\0\0\x0C\0\0\0\x01z\0\0\0\x01c",
    // Set 12 a c 7
    b"\x03\0\0\0\0\0\0\0\x0C\0\0\0\x01a\0\0\0\x01c\0\0\0\x017",
    // Set 10 n c 8
    b"\x03\0\0\0\0\0\0\0\x0A\0\0\0\x01n\0\0\0\x01c\0\0\0\x018",
    // Delete 12 a c
    b"\x13\0\0\0\0\0\0\0\x0C\0\0\0\x01a\0\0\0\x01c",
    // Step 10: Held
    b"\x04\0\0\0\0\0\0\0\x0A",
    // Step 11: Conflict
    b"\x04\0\0\0\0\0\0\0\x0B",
    // Step 9: Stamped 13
    b"\x04\0\0\0\0\0\0\0\x09",
    // Step 5: Committed 6
    b"\x04\0\0\0\0\0\0\0\x05",
    // Step 7: Finished
    b"\x04\0\0\0\0\0\0\0\x07",
    // Stop 10
    b"\x05\0\0\0\0\0\0\0\x0A",
    // CleanBegin b c: Cleaner 3 9
    b"\x06\0\0\0\x01b\0\0\0\x01c",
    // CleanStep 1: Decided
    b"\x07\0\0\0\0\0\0\0\x01",
    // CleanStep 2: RolledForward 8
    b"\x07\0\0\0\0\0\0\0\x02",
    // CollectBegin: 2, floor 5
    b"\x08",
    // CollectStep 1 1000: Collected
    b"\x09\0\0\0\0\0\0\0\x01\0\0\x03\xE8",
    // Minor 1
    b"\x0A\0\0\0\x01",
    // Merge 1 2
    b"\x0B\0\0\0\x01\0\0\0\x02",
    // Major 1
    b"\x0C\0\0\0\x01",
    // Split m
    b"\x0D\0\0\0\x01m",
    // Move 1 3
    b"\x0E\0\0\0\x01\x03",
    // Sweep: 2
    b"\x0F",
    // Restart
    b"\x10",
    // Raw n c data
    b"\x11\0\0\0\x01n\0\0\0\x01c\x01\0\0\0\0\0\0\0\0\0\0\0\0\0\0\0c",
    // Raw p c lock
    b"\x11\0\0\0\x01p\0\0\0\x01c\x02\0\0\0\0\0\0\0\0\0\0\0\0\0\0\0c",
    // Checkpoint
    b"\x12",
    // Scan 12 after a c 3: b c Pending 9; n c 2; p c Pending 5; More p c
    b"\x31\0\0\0\0\0\0\0\x0C\0\x01\0\0\0\x01a\0\0\0\x01c\0\0\0\0\0\x03",
    // Scan 12 keys end a family c 2: a c Unsent; End
    b"\x31\0\0\0\0\0\0\0\x0C\x01\0\x01\0\0\0\x01a\x01\0\0\0\x01c\0\0\0\x02",
];

/// The state before a call.
const STILL: &[u8] = b"\
    \0\0\0\x07\x82\x01\0\0\0\x013\
    \0\0\0\x0A\x82\x02\0\0\0\0\0\0\0\x09\
    \0\0\0\x0A\x82\x02\0\0\0\0\0\0\0\x05\
    \0\0\0\x0F\x91\x01\0\0\0\0\0\0\0\x01\0\0\0\x012\
    \0\0\0\x15\x91\x01\0\0\0\0\0\0\0\x05\0\0\0\x07p\0\0c\0\0S\
    \0\0\0\x02\x91\0\
    \0\0\0\x02\xFF\x0E\
    \0\0\0\x02\xFF\x0B";

/// The state after Step 10.
const HELD: &[u8] = b"\
    \0\0\0\x07\x82\x01\0\0\0\x013\
    \0\0\0\x0A\x82\x02\0\0\0\0\0\0\0\x09\
    \0\0\0\x0A\x82\x02\0\0\0\0\0\0\0\x05\
    \0\0\0\x0F\x91\x01\0\0\0\0\0\0\0\x0A\0\0\0\x010\
    \0\0\0\x15\x91\x01\0\0\0\0\0\0\0\x05\0\0\0\x07p\0\0c\0\0S\
    \0\0\0\x02\x91\0\
    \0\0\0\x02\xFF\x0E\
    \0\0\0\x02\xFF\x0B";

/// The state after Step 5.
const COMMITTED: &[u8] = b"\
    \0\0\0\x07\x82\x01\0\0\0\x013\
    \0\0\0\x0A\x82\x02\0\0\0\0\0\0\0\x09\
    \0\0\0\x07\x82\x01\0\0\0\x015\
    \0\0\0\x0F\x91\x01\0\0\0\0\0\0\0\x01\0\0\0\x012\
    \0\0\0\x02\x91\0\
    \0\0\0\x02\x91\0\
    \0\0\0\x02\xFF\x0E\
    \0\0\0\x02\xFF\x0B";

/// The state after Step 7, and after CleanStep 2.
const FINISHED: &[u8] = b"\
    \0\0\0\x07\x82\x01\0\0\0\x013\
    \0\0\0\x0A\x82\x02\0\0\0\0\0\0\0\x09\
    \0\0\0\x0A\x82\x02\0\0\0\0\0\0\0\x05\
    \0\0\0\x0F\x91\x01\0\0\0\0\0\0\0\x01\0\0\0\x012\
    \0\0\0\x15\x91\x01\0\0\0\0\0\0\0\x05\0\0\0\x07p\0\0c\0\0S\
    \0\0\0\x17\x91\x01\0\0\0\0\0\0\0\x08\0\0\0\x09\0\0\0\0\0\0\0\x07S\
    \0\0\0\x02\xFF\x0E\
    \0\0\0\x02\xFF\x0B";

/// The state after CleanStep 1.
const ROLLED_BACK: &[u8] = b"\
    \0\0\0\x07\x82\x01\0\0\0\x013\
    \0\0\0\x0A\x82\x02\0\0\0\0\0\0\0\x09\
    \0\0\0\x02\x82\0\
    \0\0\0\x0F\x91\x01\0\0\0\0\0\0\0\x01\0\0\0\x012\
    \0\0\0\x02\x91\0\
    \0\0\0\x02\x91\0\
    \0\0\0\x02\xFF\x0E\
    \0\0\0\x02\xFF\x0B";

/// The state after a split.
const SPLIT: &[u8] = b"\
    \0\0\0\x07\x82\x01\0\0\0\x013\
    \0\0\0\x0A\x82\x02\0\0\0\0\0\0\0\x09\
    \0\0\0\x0A\x82\x02\0\0\0\0\0\0\0\x05\
    \0\0\0\x0F\x91\x01\0\0\0\0\0\0\0\x01\0\0\0\x012\
    \0\0\0\x15\x91\x01\0\0\0\0\0\0\0\x05\0\0\0\x07p\0\0c\0\0S\
    \0\0\0\x02\x91\0\
    \0\0\0\x02\xFF\x0E\
    \0\0\0\x02\xFF\x0E";

/// The frame of the refusal NoMemory.
const NO_MEMORY: &[u8] = b"\0\0\0\x02\xFF\x14";

/// The calls: each request by itself, with the number of its refusal or 0, a new server, and then each request as a
/// frame, with the frame of its reply.
const CALLS: [Call; 61] = [
    // Begin: 13
    (b"\0", STILL),
    // Get 12 a c: 3
    (b"\0", STILL),
    // Get 12 b c: pending at 9
    (b"\0", STILL),
    // Get 12 z c: nothing
    (b"\0", STILL),
    // Set 12 a c 7: done
    (b"\0", STILL),
    // Set 10 n c 8: done
    (b"\0", STILL),
    // Delete 12 a c: done
    (b"\0", STILL),
    // Step 10: Held 1 1
    (b"\0", HELD),
    // Step 11: Conflict 1
    (b"\0", STILL),
    // Step 9: Stamped 13
    (b"\0", STILL),
    // Step 5: Committed 6
    (b"\0", COMMITTED),
    // Step 7: Finished 2 2
    (b"\0", FINISHED),
    // Stop 10: stopped
    (b"\0", STILL),
    // CleanBegin b c: Cleaner 3 9
    (b"\0", STILL),
    // CleanStep 1: Decided
    (b"\0", ROLLED_BACK),
    // CleanStep 2: RolledForward 8
    (b"\0", FINISHED),
    // CollectBegin: 2, floor 5
    (b"\0", STILL),
    // CollectStep 1 1000: Collected
    (b"\0", STILL),
    // Minor 1: done
    (b"\0", STILL),
    // Merge 1 2: done
    (b"\0", STILL),
    // Major 1: done
    (b"\0", STILL),
    // Split m: 2
    (b"\0", SPLIT),
    // Move 1 3: done
    (b"\0", STILL),
    // Sweep: 2
    (b"\0", STILL),
    // Restart: done
    (b"\0", STILL),
    // Raw n c data: stamp 1, 2
    (b"\0", STILL),
    // Raw p c lock: stamp 5, 70 00 00 63 00 00 53
    (b"\0", STILL),
    // Checkpoint: done
    (b"\0", STILL),
    // Scan 12 after a c 3: b c Pending 9; n c 2; p c Pending 5; More p c
    (b"\0", STILL),
    // Scan 12 keys end a family c 2: a c Unsent; End
    (b"\0", STILL),
    // Server::new
    (b"\0", STILL),
    // Begin: 13
    (b"\0\0\0\x09\x81\0\0\0\0\0\0\0\x0D", STILL),
    // Get 12 a c: 3
    (b"\0\0\0\x07\x82\x01\0\0\0\x013", STILL),
    // Get 12 b c: pending at 9
    (b"\0\0\0\x0A\x82\x02\0\0\0\0\0\0\0\x09", STILL),
    // Get 12 z c: nothing
    (b"\0\0\0\x02\x82\0", STILL),
    // Set 12 a c 7: done
    (b"\0\0\0\x01\x83", STILL),
    // Set 10 n c 8: done
    (b"\0\0\0\x01\x83", STILL),
    // Delete 12 a c: done
    (b"\0\0\0\x01\x93", STILL),
    // Step 10: Held 1 1
    (b"\0\0\0\x06\x84\x01\0\x01\0\x01", HELD),
    // Step 11: Conflict 1
    (b"\0\0\0\x04\x84\x02\0\x01", STILL),
    // Step 9: Stamped 13
    (b"\0\0\0\x0A\x84\x03\0\0\0\0\0\0\0\x0D", STILL),
    // Step 5: Committed 6
    (b"\0\0\0\x0A\x84\x04\0\0\0\0\0\0\0\x06", COMMITTED),
    // Step 7: Finished 2 2
    (b"\0\0\0\x06\x84\x06\0\x02\0\x02", FINISHED),
    // Stop 10: stopped
    (b"\0\0\0\x01\x85", STILL),
    // CleanBegin b c: Cleaner 3 9
    (
        b"\0\0\0\x12\x86\x01\0\0\0\0\0\0\0\x03\0\0\0\0\0\0\0\x09",
        STILL,
    ),
    // CleanStep 1: Decided
    (b"\0\0\0\x02\x87\x01", ROLLED_BACK),
    // CleanStep 2: RolledForward 8
    (b"\0\0\0\x0A\x87\x02\0\0\0\0\0\0\0\x08", FINISHED),
    // CollectBegin: 2, floor 5
    (b"\0\0\0\x11\x88\0\0\0\0\0\0\0\x02\0\0\0\0\0\0\0\x05", STILL),
    // CollectStep 1 1000: Collected
    (b"\0\0\0\x02\x89\x03", STILL),
    // Minor 1: done
    (b"\0\0\0\x01\x8A", STILL),
    // Merge 1 2: done
    (b"\0\0\0\x01\x8B", STILL),
    // Major 1: done
    (b"\0\0\0\x01\x8C", STILL),
    // Split m: 2
    (b"\0\0\0\x05\x8D\0\0\0\x02", SPLIT),
    // Move 1 3: done
    (b"\0\0\0\x01\x8E", STILL),
    // Sweep: 2
    (b"\0\0\0\x09\x8F\0\0\0\0\0\0\0\x02", STILL),
    // Restart: done
    (b"\0\0\0\x01\x90", STILL),
    // Raw n c data: stamp 1, 2
    (b"\0\0\0\x0F\x91\x01\0\0\0\0\0\0\0\x01\0\0\0\x012", STILL),
    // Raw p c lock: stamp 5, 70 00 00 63 00 00 53
    (
        b"\0\0\0\x15\x91\x01\0\0\0\0\0\0\0\x05\0\0\0\x07p\0\0c\0\0S",
        STILL,
    ),
    // Checkpoint: done
    (b"\0\0\0\x01\x92", STILL),
    // Scan 12 after a c 3: b c Pending 9; n c 2; p c Pending 5; More p c
    (
        b"\
        \0\0\0F\xB1\x02\0\0\0\x01p\0\0\0\x01c\0\0\0\x03\
        \0\0\0\x01b\0\0\0\x01c\x02\0\0\0\0\0\0\0\x09\
        \0\0\0\x01n\0\0\0\x01c\x01\0\0\0\x012\
        \0\0\0\x01p\0\0\0\x01c\x02\0\0\0\0\0\0\0\x05",
        STILL,
    ),
    // Scan 12 keys end a family c 2: a c Unsent; End
    (
        b"\0\0\0\x11\xB1\x01\0\0\0\x01\0\0\0\x01a\0\0\0\x01c\x03",
        STILL,
    ),
];

/// The number of a request's refusal, or 0 if it isn't refused. The refusal NoMemory is an error.
fn number_of(server: &mut MemServer, body: &[u8]) -> Result<u8, Refusal> {
    let Some(request) = decode_request(body) else {
        return Err(Refusal::BadRequest);
    };
    match server.answer(request) {
        Reply::Refused(Refusal::NoMemory) => Err(Refusal::NoMemory),
        Reply::Refused(refusal) => Ok(refusal.number()),
        _ => Ok(0),
    }
}

/// Serves a stream to its end, or until so many reads were made.
pub fn serve<I: Read, O: Write>(
    server: &mut MemServer,
    reader: &mut I,
    writer: &mut O,
    most_reads: u64,
) -> Result<End, ServeFault> {
    server.serve(reader, writer, most_reads)
}

/// Serves a stream, and appends the replies to `out`.
fn written(server: &mut MemServer, stream: &[u8], out: Vec<u8>) -> Result<Vec<u8>, Refusal> {
    let mut stream = stream;
    let mut out = out;
    match serve(server, &mut stream, &mut out, u64::MAX) {
        Ok(End::Clean) => Ok(out),
        Err(ServeFault::NoMemory) => Err(Refusal::NoMemory),
        _ => Err(Refusal::BadRequest),
    }
}

/// A server that is asked by requests and by frames.
#[derive(Drop)]
pub struct Asked {
    server: Box<MemServer>,
}

pub const ASKED: Table = (STILL, &CALLS);

impl Subject for Asked {
    fn set_up(alloc: Global) -> Result<Asked, Refusal> {
        let mut server = new_server(alloc, FILE_LIMIT)?;
        for body in SET_UP {
            number_of(&mut server, body)?;
        }
        Ok(Asked { server })
    }

    fn answers(&mut self, alloc: Global, number: usize, wanted: &[u8]) -> Result<bool, Refusal> {
        if number == REQUESTS.len() {
            let mut server = new_server(alloc, FILE_LIMIT)?;
            return Ok(wanted == [number_of(&mut server, b"\x01")?].as_slice());
        }
        if let Some(body) = REQUESTS.get(number) {
            return Ok(wanted == [number_of(&mut self.server, body)?].as_slice());
        }
        let Some(body) = REQUESTS.get(number.saturating_sub(REQUESTS.len() + 1)) else {
            return Ok(false);
        };
        let out = Vec::with_capacity(alloc, 128)?;
        let stream = stream_of(alloc, &[*body])?;
        let reply = written(&mut self.server, &stream, out)?;
        if reply.as_slice() == NO_MEMORY {
            return Err(Refusal::NoMemory);
        }
        Ok(reply.as_slice() == wanted)
    }

    fn read(&mut self, alloc: Global) -> Result<Vec<u8>, Refusal> {
        let stream = stream_of(alloc, &READS)?;
        written(&mut self.server, &stream, Vec::new(alloc))
    }
}
