//! A server with a log over devices in memory that can be cut off, and reads of its state.

use crate::tests::FLUSH;
use crate::tests::stopping::{Life, Stopping};
use cell_key::Refusal;
use commit_log::{FileLog, LogFault, LogFile, MemFile, new_log};
use durable::{DurableServer, ROOT_NAME};
use file_store::{Files, MemFiles};
use oracle::{MarkStore, MemMark};
use server_loop::{Config, End, FlushLimits, MergePolicy, ServeFault, Server};
use std::alloc::{AllocError, Global};
use std::cell::Cell;
use std::io::{Read, Write};
use testing::FILE_LIMIT;
use testing::frames::push_frame;

/// A server over devices that can be cut off.
pub type StoppingServer<'a> = DurableServer<
    Server<Stopping<'a, MemFiles>, MemMark>,
    Stopping<'a, MemMark>,
    Stopping<'a, FileLog<MemFile>>,
>;

/// When a server compacts and checkpoints by itself: the numbers of entries of a memtable, of files of a tablet, and of
/// bytes of the journal.
#[derive(Clone, Copy, Debug)]
pub struct Upkeep {
    pub flush: u32,
    pub merge: Option<u32>,
    pub checkpoint: Option<usize>,
}

/// It does none of them by itself.
pub const ON_REQUEST: Upkeep = Upkeep {
    flush: 10_000,
    merge: None,
    checkpoint: None,
};

/// Serves a stream to its end.
pub fn serve<I: Read, O: Write>(
    server: &mut StoppingServer<'_>,
    reader: &mut I,
    writer: &mut O,
) -> Result<End, ServeFault> {
    server.serve(reader, writer, u64::MAX)
}

/// The number of a store, and the number of the first record of its log.
const STORE: u64 = 0x0102_0304_0506_0708;

const FIRST: u64 = 1;

/// The most bytes of a root file in these tests.
const MOST_ROOT: usize = 256;

/// Files, a mark and a log in memory, which outlive the server that uses them.
#[derive(Drop)]
pub struct Devices {
    alloc: Global,
    pub files: Cell<Option<MemFiles>>,
    pub marks: Cell<Option<MemMark>>,
    pub log: Cell<Option<FileLog<MemFile>>>,
    pub life: Life,
}

impl Devices {
    /// The devices of a new store. In their box they are dropped by one call.
    pub fn new(alloc: Global) -> Result<Box<Devices>, Refusal> {
        let devices = Devices {
            alloc,
            files: Cell::new(Some(MemFiles::new(alloc))),
            marks: Cell::new(Some(MemMark::new())),
            log: Cell::new(None),
            life: Life::new(),
        };
        let devices = Box::new(alloc, devices)?;
        devices.set_new_log()?;
        Ok(devices)
    }

    /// Replaces the log with a new log.
    pub fn set_new_log(&self) -> Result<(), Refusal> {
        self.set_log(&new_log(self.alloc, STORE, FIRST)?)
    }

    /// Replaces the log with one of these bytes, opened as after a kill.
    pub fn set_log(&self, bytes: &[u8]) -> Result<(), Refusal> {
        let file = MemFile::new(Vec::from_slice(self.alloc, bytes)?);
        match FileLog::open(self.alloc, file) {
            Ok(log) => {
                self.log.set(Some(log));
                Ok(())
            }
            Err((LogFault::Damaged, _)) => Err(Refusal::Damaged),
            Err(_) => Err(Refusal::NoMemory),
        }
    }

    /// The bytes of the log.
    pub fn log_bytes(&self) -> Result<Vec<u8>, Refusal> {
        let Some(log) = self.log.take() else {
            return Err(Refusal::Device);
        };
        let Ok(bytes) = log.into_file().read(self.alloc) else {
            return Err(Refusal::NoMemory);
        };
        self.set_log(&bytes)?;
        Ok(bytes)
    }

    /// The bytes of the root file, which is shorter than `MOST_ROOT`.
    pub fn root_bytes(&self) -> Result<Vec<u8>, Refusal> {
        let Some(mut files) = self.files.take() else {
            return Err(Refusal::Device);
        };
        let mut bytes = [0; MOST_ROOT];
        let read = files.read_at(ROOT_NAME, 0, &mut bytes);
        self.files.set(Some(files));
        let Ok(length) = read else {
            return Err(Refusal::Device);
        };
        Ok(Vec::from_slice(self.alloc, bytes.get(..length).unwrap_or_default())?)
    }

    /// Replaces the root file with these bytes.
    pub fn set_root(&self, bytes: &[u8]) -> Result<(), Refusal> {
        let Some(mut files) = self.files.take() else {
            return Err(Refusal::Device);
        };
        let put = files.put(ROOT_NAME, bytes);
        self.files.set(Some(files));
        put.map_err(|_| Refusal::Device)
    }

    /// Replaces the mark store with one that has this number.
    pub fn set_mark(&self, number: u32) -> Result<(), Refusal> {
        let mut marks = MemMark::new();
        marks.store(u64::from(number))?;
        self.marks.set(Some(marks));
        Ok(())
    }

    /// A server opened over the devices. In its box it is dropped by one call.
    pub fn open(&self, upkeep: Upkeep) -> Result<Box<StoppingServer<'_>>, Refusal> {
        if upkeep.flush == 0 || upkeep.flush > 100_000 {
            return Err(Refusal::FileTooLarge);
        }
        let files = Stopping::new(&self.files, &self.life);
        let marks = Stopping::new(&self.marks, &self.life);
        let log = Stopping::new(&self.log, &self.life);
        let config = Config {
            flush: FlushLimits {
                entries: upkeep.flush,
                bytes: None,
            },
            file_limit: FILE_LIMIT,
        };
        let mut server = match DurableServer::open(self.alloc, files, marks, log, config) {
            Ok(server) => Box::new(self.alloc, server)?,
            Err((refusal, _, _, _)) => return Err(refusal),
        };
        if let Some(most) = upkeep.merge {
            server.merge_by(MergePolicy::AtCount(most));
        }
        if let Some(bytes) = upkeep.checkpoint {
            server.checkpoint_at(bytes);
        }
        Ok(server)
    }

    /// The replies to a stream of a server opened over the devices.
    pub fn replies(&self, upkeep: Upkeep, stream: &[u8]) -> Result<Vec<u8>, Refusal> {
        let mut server = self.open(upkeep)?;
        let mut reader = stream;
        let mut written = Vec::new(self.alloc);
        match serve(&mut server, &mut reader, &mut written) {
            Ok(_) => Ok(written),
            Err(ServeFault::NoMemory) => Err(Refusal::NoMemory),
            Err(_) => Err(Refusal::Device),
        }
    }
}

/// The rows, the columns by their numbers, and the ranges of stamps that are read.
const ROWS: [&[u8]; 3] = [b"Amy", b"Bob", b"Joe"];

const COLUMNS: [u8; 3] = [1, 2, 3];

const RANGES: [(u64, u64); 3] = [(0, 2), (3, 1000), (1001, 3000)];

/// How many reads there are.
const READ_COUNT: usize = 28;

/// Whether there is a second tablet: a Merge of one of its files is refused 14 if there is one, and 11 if not.
const SECOND_TABLET: &[u8] = b"\x0B\0\0\0\x02\0\0\0\x01";

/// The raw read of a column between two stamps.
fn raw(alloc: Global, row: &[u8], column: u8, range: (u64, u64)) -> Result<Vec<u8>, AllocError> {
    let mut body = Vec::new(alloc);
    body.extend_from_slice(b"\x11\0\0\0\x03")?;
    body.extend_from_slice(row)?;
    body.extend_from_slice(b"\0\0\0\x03bal")?;
    body.push(column)?;
    body.extend_from_slice(&range.0.to_be_bytes())?;
    body.extend_from_slice(&range.1.to_be_bytes())?;
    Ok(body)
}

/// The frames that read all columns of all rows, and whether there is a second tablet.
pub fn reads(alloc: Global) -> Result<Vec<u8>, AllocError> {
    let mut stream = Vec::new(alloc);
    for row in ROWS {
        for column in COLUMNS {
            for range in RANGES {
                push_frame(&mut stream, &raw(alloc, row, column, range)?)?;
            }
        }
    }
    push_frame(&mut stream, SECOND_TABLET)?;
    Ok(stream)
}

/// The length in bytes of the first `count` of these frames.
fn length_of(frames: &[u8], count: usize) -> usize {
    let mut rest = frames;
    for _ in 0..count {
        let Some((length, after)) = rest.split_first_chunk::<4>() else {
            return frames.len();
        };
        let length = u32::from_be_bytes(*length) as usize;
        rest = after.get(length..).unwrap_or_default();
    }
    frames.len().saturating_sub(rest.len())
}

/// The reads before each of some requests and after the last, as one stream.
fn reads_between(alloc: Global, requests: &[&[u8]]) -> Result<Vec<u8>, AllocError> {
    let reads = reads(alloc)?;
    let mut stream = reads.to_vec(alloc)?;
    for request in requests {
        push_frame(&mut stream, request)?;
        stream.extend_from_slice(&reads)?;
    }
    Ok(stream)
}

/// The replies to a stream of a store without a log.
fn written(alloc: Global, stream: &[u8]) -> Result<Vec<u8>, Refusal> {
    let config = Config {
        flush: FLUSH,
        file_limit: FILE_LIMIT,
    };
    let made = Server::new(alloc, MemFiles::new(alloc), MemMark::new(), config);
    let Ok(mut server) = made else {
        return Err(Refusal::NoMemory);
    };
    let mut reader = stream;
    let mut written = Vec::new(alloc);
    let _ = server.serve(&mut reader, &mut written, u64::MAX);
    Ok(written)
}

/// The replies to the reads after each prefix of some requests, in a store without a log.
pub fn states(alloc: Global, requests: &[&[u8]]) -> Result<Vec<Vec<u8>>, Refusal> {
    let stream = reads_between(alloc, requests)?;
    let written = written(alloc, &stream)?;
    let mut states = Vec::new(alloc);
    let mut rest = written.as_slice();
    for _ in 0..=requests.len() {
        let Some((state, after)) = rest.split_at_checked(length_of(rest, READ_COUNT)) else {
            return Err(Refusal::Device);
        };
        states.push(state.to_vec(alloc)?)?;
        rest = after.get(length_of(after, 1)..).unwrap_or_default();
    }
    Ok(states)
}
