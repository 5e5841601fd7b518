//! Stores with a log: opens of the devices that a server has left.

use crate::tests::FLUSH;
use cell_key::Refusal;
use commit_log::MemLog;
use durable::DurableServer;
use file_store::MemFiles;
use oracle::MemMark;
use server_loop::{Config, End, ServeFault, Server};
use std::alloc::Global;
use testing::FILE_LIMIT;
use testing::frames::stream_of;
use testing::memory::{Call, Subject, Table};

/// A server with a log over devices in memory.
type LogServer = DurableServer<Server<MemFiles, MemMark>, MemMark, MemLog>;

/// The requests served before: a commit that the root has, a commit that only the log has, and a lock.
const SET_UP: [&[u8]; 14] = [
    // Begin: 1
    b"\x01",
    // Set 1 a c 1
    b"\x03\0\0\0\0\0\0\0\x01\0\0\0\x01a\0\0\0\x01c\0\0\0\x011",
    // Step 1: Held
    b"\x04\0\0\0\0\0\0\0\x01",
    // Step 1: Stamped 2
    b"\x04\0\0\0\0\0\0\0\x01",
    // Step 1: Committed 2
    b"\x04\0\0\0\0\0\0\0\x01",
    // Checkpoint
    b"\x12",
    // Begin: 3
    b"\x01",
    // Set 3 a c 3
    b"\x03\0\0\0\0\0\0\0\x03\0\0\0\x01a\0\0\0\x01c\0\0\0\x013",
    // Step 3: Held
    b"\x04\0\0\0\0\0\0\0\x03",
    // Step 3: Stamped 4
    b"\x04\0\0\0\0\0\0\0\x03",
    // Step 3: Committed 4
    b"\x04\0\0\0\0\0\0\0\x03",
    // Begin: 5
    b"\x01",
    // Set 5 b c 5
    b"\x03\0\0\0\0\0\0\0\x05\0\0\0\x01b\0\0\0\x01c\0\0\0\x015",
    // Step 5: Held
    b"\x04\0\0\0\0\0\0\0\x05",
];

/// The reads.
const READS: [&[u8]; 4] = [
    // Raw a c data 0..3
    b"\x11\0\0\0\x01a\0\0\0\x01c\x01\0\0\0\0\0\0\0\0\0\0\0\0\0\0\0\x02",
    // Raw a c data
    b"\x11\0\0\0\x01a\0\0\0\x01c\x01\0\0\0\0\0\0\0\0\0\0\0\0\0\0\0c",
    // Raw a c write
    b"\x11\0\0\0\x01a\0\0\0\x01c\x03\0\0\0\0\0\0\0\0\0\0\0\0\0\0\0c",
    // Raw b c lock
    b"\x11\0\0\0\x01b\0\0\0\x01c\x02\0\0\0\0\0\0\0\0\0\0\0\0\0\0\0c",
];

/// The state before a call and after it: stamp 1 with 1, stamp 3 with 3, stamp 4 with the commit record of start 3, and
/// stamp 5 with the lock of b c.
const STILL: &[u8] = b"\
    \0\0\0\x0F\x91\x01\0\0\0\0\0\0\0\x01\0\0\0\x011\
    \0\0\0\x0F\x91\x01\0\0\0\0\0\0\0\x03\0\0\0\x013\
    \0\0\0\x17\x91\x01\0\0\0\0\0\0\0\x04\0\0\0\x09\0\0\0\0\0\0\0\x03S\
    \0\0\0\x15\x91\x01\0\0\0\0\0\0\0\x05\0\0\0\x07b\0\0c\0\0S";

/// The calls: an open of the store, and of a new one.
const CALLS: [Call; 2] = [(b"", STILL), (b"", STILL)];

pub const LOGGED: Table = (STILL, &CALLS);

/// The devices of a server that has ended, which are taken for each call.
#[derive(Drop)]
pub struct Logged {
    devices: Option<(MemFiles, MemMark, MemLog)>,
}

impl Logged {
    /// The devices of a new store.
    pub fn new(alloc: Global) -> Result<Logged, Refusal> {
        let log = MemLog::new(alloc)?;
        Ok(Logged {
            devices: Some((MemFiles::new(alloc), MemMark::new(), log)),
        })
    }

    /// A server over the devices. They are kept if it is refused.
    fn open(&mut self, alloc: Global) -> Result<LogServer, Refusal> {
        let Some((files, marks, log)) = self.devices.take() else {
            return Err(Refusal::Device);
        };
        let config = Config {
            flush: FLUSH,
            file_limit: FILE_LIMIT,
        };
        match DurableServer::open(alloc, files, marks, log, config) {
            Ok(server) => Ok(server),
            Err((refusal, files, marks, log)) => {
                self.devices = Some((files, marks, log));
                Err(refusal)
            }
        }
    }

    /// The replies to a stream of a server over the devices.
    pub fn written(&mut self, alloc: Global, stream: &[u8]) -> Result<Vec<u8>, Refusal> {
        let mut server = self.open(alloc)?;
        let mut stream = stream;
        let mut out = Vec::new(alloc);
        let ended = server.serve(&mut stream, &mut out, u64::MAX);
        self.devices = Some(server.into_devices());
        match ended {
            Ok(End::Clean) => Ok(out),
            Err(ServeFault::NoMemory) => Err(Refusal::NoMemory),
            _ => Err(Refusal::BadRequest),
        }
    }
}

impl Subject for Logged {
    fn set_up(alloc: Global) -> Result<Logged, Refusal> {
        let mut logged = Logged::new(alloc)?;
        let stream = stream_of(alloc, &SET_UP)?;
        logged.written(alloc, &stream)?;
        Ok(logged)
    }

    fn answers(&mut self, alloc: Global, number: usize, wanted: &[u8]) -> Result<bool, Refusal> {
        if number == 0 {
            let server = self.open(alloc)?;
            self.devices = Some(server.into_devices());
        } else {
            Logged::new(alloc)?.open(alloc)?;
        }
        Ok(wanted.is_empty())
    }

    fn read(&mut self, alloc: Global) -> Result<Vec<u8>, Refusal> {
        let stream = stream_of(alloc, &READS)?;
        self.written(alloc, &stream)
    }
}
