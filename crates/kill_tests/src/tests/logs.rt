//! Logs by their bytes: the logs that a server writes, and opens of logs that are cut short, garbled or have records
//! that aren't edits.

use crate::tests::memory::logs::Logged as HandedOn;
use crate::tests::servers::{Devices, ON_REQUEST, StoppingServer, Upkeep, reads, serve, states};
use crate::tests::stopping::Written;
use cell_key::Refusal;
use server_loop::{End, ServeFault, end_status};
use std::alloc::Global;
use std::num::NonZeroUsize;
use std::test::Fail;
use testing::frames::{push_frame, streams_of};
use testing::rows::{Exchange, FIRST_CELL, Row, TRANSFER};
use testing::streams::Pieces;

/// A new log, for any root.
const NEW_LOG: &[u8] = b"TABLOG02\x01\x02\x03\x04\x05\x06\x07\x08\
    \0\0\0\x11\x41\xC1\x6C\xCA\0\0\0\0\0\0\0\x01\x02\0\0\0\0\0\0\0\0";

/// The log after a cell was held and committed, one record for each batch that needs one: the mark of the first stamps;
/// a value and a lock; and a commit record and the lock's erasure.
const THREE_RECORDS: &[u8] = b"TABLOG02\x01\x02\x03\x04\x05\x06\x07\x08\
    \0\0\0\x11\x41\xC1\x6C\xCA\0\0\0\0\0\0\0\x01\x02\0\0\0\0\0\0\0\0\
    \0\0\0\x11\x38\x71\xFA\x03\0\0\0\0\0\0\0\x02\x03\0\0\0\0\0\0\x03\xE8\
    \0\0\0\x3D\x6C\x2A\x88\xAB\0\0\0\0\0\0\0\x03\x03\0\0\0\0\0\0\x03\xE8\
    \x00\0\x01r\x01c\0\0\0\0\0\0\0\x01\0\0\0\x01v\
    \x01\0\x01r\x01c\0\0\0\0\0\0\0\x01\0\0\0\x07r\0\0c\0\0S\
    \0\0\0\x3A\x00\x8C\xBC\xF7\0\0\0\0\0\0\0\x04\x03\0\0\0\0\0\0\x03\xE8\
    \x02\0\x01r\x01c\0\0\0\0\0\0\0\x02\0\0\0\x09\0\0\0\0\0\0\0\x01S\
    \x11\0\x01r\x01c\0\0\0\0\0\0\0\x01";

/// The same edits and the same mark in one record.
const ONE_RECORD: &[u8] = b"TABLOG02\x01\x02\x03\x04\x05\x06\x07\x08\
    \0\0\0\x11\x41\xC1\x6C\xCA\0\0\0\0\0\0\0\x01\x02\0\0\0\0\0\0\0\0\
    \0\0\0\x66\x5B\x06\x53\x51\0\0\0\0\0\0\0\x02\x03\0\0\0\0\0\0\x03\xE8\
    \x00\0\x01r\x01c\0\0\0\0\0\0\0\x01\0\0\0\x01v\
    \x01\0\x01r\x01c\0\0\0\0\0\0\0\x01\0\0\0\x07r\0\0c\0\0S\
    \x02\0\x01r\x01c\0\0\0\0\0\0\0\x02\0\0\0\x09\0\0\0\0\0\0\0\x01S\
    \x11\0\x01r\x01c\0\0\0\0\0\0\0\x01";

/// The same record as an earlier program wrote it, of entries.
const ONE_RECORD_OF_ENTRIES: &[u8] = b"TABLOG02\x01\x02\x03\x04\x05\x06\x07\x08\
    \0\0\0\x11\x41\xC1\x6C\xCA\0\0\0\0\0\0\0\x01\x02\0\0\0\0\0\0\0\0\
    \0\0\0\x93\x1B\x90\xF8\x9D\0\0\0\0\0\0\0\x02\0\0\0\0\0\0\0\x03\xE8\
    \0\0\0\x14r\0\0c\0\0data\0\0\xFF\xFF\xFF\xFF\xFF\xFF\xFF\xFE\x01\0\0\0\x01v\
    \0\0\0\x14r\0\0c\0\0lock\0\0\xFF\xFF\xFF\xFF\xFF\xFF\xFF\xFE\x01\0\0\0\x07r\0\0c\0\0S\
    \0\0\0\x15r\0\0c\0\0write\0\0\xFF\xFF\xFF\xFF\xFF\xFF\xFF\xFD\x01\0\0\0\x09\0\0\0\0\0\0\0\x01S\
    \0\0\0\x14r\0\0c\0\0lock\0\0\xFF\xFF\xFF\xFF\xFF\xFF\xFF\xFE\0";

/// The same edits in one record whose mark is that of the third range of stamps.
const THREE_RANGES: &[u8] = b"TABLOG02\x01\x02\x03\x04\x05\x06\x07\x08\
    \0\0\0\x11\x41\xC1\x6C\xCA\0\0\0\0\0\0\0\x01\x02\0\0\0\0\0\0\0\0\
    \0\0\0\x66\x5D\x8B\x98\x2A\0\0\0\0\0\0\0\x02\x03\0\0\0\0\0\0\x0B\xB8\
    \x00\0\x01r\x01c\0\0\0\0\0\0\0\x01\0\0\0\x01v\
    \x01\0\x01r\x01c\0\0\0\0\0\0\0\x01\0\0\0\x07r\0\0c\0\0S\
    \x02\0\x01r\x01c\0\0\0\0\0\0\0\x02\0\0\0\x09\0\0\0\0\0\0\0\x01S\
    \x11\0\x01r\x01c\0\0\0\0\0\0\0\x01";

/// The log after those three records and a Checkpoint: the root has the greatest stamp 3.
const ROOT_AFTER_THREE: &[u8] = b"TABLOG02\x01\x02\x03\x04\x05\x06\x07\x08\
    \0\0\0\x15\xEF\xE7\xCD\x42\0\0\0\0\0\0\0\x06\x01\0\0\0\0\0\0\0\x03\xD1\x15\xF1\x49";

/// The log after those three records with a checkpoint after each that has edits: the root has the greatest stamp 2.
const ROOT_AFTER_EACH: &[u8] = b"TABLOG02\x01\x02\x03\x04\x05\x06\x07\x08\
    \0\0\0\x15\xB7\x6D\x95\x64\0\0\0\0\0\0\0\x08\x01\0\0\0\0\0\0\0\x02\x25\x7C\x54\x24";

/// The log of a server after the first cell's requests and then `more`, with at most `most` bytes a read. All of the
/// server's settings are set.
fn log_after(alloc: Global, upkeep: Upkeep, most: usize, more: &[u8]) -> Result<Vec<u8>, Refusal> {
    let (mut requests, _) = streams_of(alloc, &FIRST_CELL)?;
    requests.extend_from_slice(more)?;
    let devices = Devices::new(alloc)?;
    let mut server = devices.open(upkeep)?;
    server.cache_blocks(NonZeroUsize::MIN);
    let mut reader = Pieces::new(alloc, &requests)?;
    reader.most = most;
    let mut writer: Vec<u8> = Vec::new(alloc);
    match serve(&mut server, &mut reader, &mut writer) {
        Ok(End::Clean) => devices.log_bytes(),
        _ => Err(Refusal::Device),
    }
}

/// A server that makes a checkpoint whenever the journal isn't empty, and merges files.
const CHECKPOINTS: Upkeep = Upkeep {
    flush: 1,
    merge: Some(2),
    checkpoint: Some(1),
};

/// Twice an OracleRestart and a Begin: sessions 1001 and 2001.
const TWO_RESTARTS: &[u8] = b"\
    \0\0\0\x01\x10\0\0\0\x01\x01\
    \0\0\0\x01\x10\0\0\0\x01\x01";

/// How a server compacts and checkpoints, the most bytes a read gives, the requests at the end, and the log then.
const LOGS: [(Upkeep, usize, &[u8], &[u8]); 5] = [
    (ON_REQUEST, 1, b"", THREE_RECORDS),
    (ON_REQUEST, usize::MAX, b"", ONE_RECORD),
    (ON_REQUEST, usize::MAX, TWO_RESTARTS, THREE_RANGES),
    // Checkpoint
    (ON_REQUEST, 1, b"\0\0\0\x01\x12", ROOT_AFTER_THREE),
    (CHECKPOINTS, 1, b"", ROOT_AFTER_EACH),
];

#[test]
fn what_the_log_has(rt: HostRuntime) -> Result<(), Fail> {
    for (upkeep, most, more, log) in LOGS {
        assert!(rt; log_after(rt.alloc(), upkeep, most, more)?.as_slice() == log);
    }
    Ok(())
}

/// A committed cell is read from another server over the same devices. Its session is gone.
const READ_LATER: [Exchange; 3] = [
    // Begin: 1001
    (b"\x01", b"\x81\0\0\0\0\0\0\x03\xE9"),
    // Get 1001 r c: v
    (
        b"\x02\0\0\0\0\0\0\x03\xE9\0\0\0\x01r\0\0\0\x01c",
        b"\x82\x01\0\0\0\x01v",
    ),
    // Step 3: refused 1
    (b"\x04\0\0\0\0\0\0\0\x03", b"\xFF\x01"),
];

const HANDED_ON: Row = (0, &[&READ_LATER]);

#[test]
fn devices_are_handed_on(rt: HostRuntime) -> Result<(), Fail> {
    let mut handed = HandedOn::new(rt.alloc())?;
    for row in [&FIRST_CELL, &HANDED_ON] {
        let (requests, replies) = streams_of(rt.alloc(), row)?;
        assert!(rt; handed.written(rt.alloc(), &requests)? == replies);
    }
    Ok(())
}

#[test]
fn a_log_of_entries(rt: HostRuntime) -> Result<(), Fail> {
    let devices = Devices::new(rt.alloc())?;
    devices.replies(ON_REQUEST, b"")?;
    devices.set_log(ONE_RECORD_OF_ENTRIES)?;
    let (requests, replies) = streams_of(rt.alloc(), &HANDED_ON)?;
    assert!(rt; devices.replies(ON_REQUEST, &requests)? == replies);
    Ok(())
}

/// An upper bound of the number of a log's frames.
const MOST_FRAMES: usize = 100;

/// The offsets at which a log's frames end, from the first frame on.
fn ends_of(alloc: Global, log: &[u8]) -> Result<Vec<usize>, Refusal> {
    let mut ends = Vec::new(alloc);
    let mut end = NEW_LOG.len();
    for _ in 0..MOST_FRAMES {
        ends.push(end)?;
        let frame = log.get(end..).unwrap_or_default();
        let Some((length, _)) = frame.split_first_chunk::<4>() else {
            break;
        };
        let length = u32::from_be_bytes(*length) as usize;
        end = end.saturating_add(8).saturating_add(length);
    }
    Ok(ends)
}

/// The devices after the transfer with one record for each request that made edits, the log, the offsets at which its
/// frames end, and the state after each frame.
#[derive(Drop)]
struct Logged {
    devices: Box<Devices>,
    log: Vec<u8>,
    ends: Vec<usize>,
    states: Vec<Vec<u8>>,
    reads: Vec<u8>,
}

/// The bodies of the transfer's requests.
fn bodies(alloc: Global) -> Result<Vec<&'static [u8]>, Refusal> {
    let mut bodies = Vec::new(alloc);
    for (request, _) in TRANSFER {
        bodies.push(request)?;
    }
    Ok(bodies)
}

impl Logged {
    fn new(alloc: Global) -> Result<Logged, Refusal> {
        let devices = Devices::new(alloc)?;
        let states = logged_states(alloc, &devices, &bodies(alloc)?)?;
        let log = devices.log_bytes()?;
        Ok(Logged {
            ends: ends_of(alloc, &log)?,
            devices,
            log,
            states,
            reads: reads(alloc)?,
        })
    }

    /// How many frames after the log's first one end at a place or before it. `None` if the first one doesn't.
    fn frames_to(&self, place: usize) -> Option<usize> {
        let ended = self.ends.iter().filter(|end| **end <= place);
        ended.count().checked_sub(1)
    }

    /// Whether the devices with this log open with the state after this many frames or, if `frames` is `None`, whether
    /// the log is refused as damaged.
    fn opens_to(&self, log: &[u8], frames: Option<usize>) -> Result<bool, Refusal> {
        let Some(frames) = frames else {
            return Ok(self.devices.set_log(log) == Err(Refusal::Damaged));
        };
        self.devices.set_log(log)?;
        let read = self.devices.replies(ON_REQUEST, &self.reads)?;
        Ok(self.states.get(frames) == Some(&read))
    }
}

/// Serves a request.
fn serve_one(alloc: Global, server: &mut StoppingServer<'_>, body: &[u8]) -> Result<(), Refusal> {
    let mut frame = Vec::new(alloc);
    push_frame(&mut frame, body)?;
    let mut reader = frame.as_slice();
    let mut writer: Vec<u8> = Vec::new(alloc);
    let _ = serve(server, &mut reader, &mut writer);
    Ok(())
}

/// The log's size in bytes before each of the requests, served one by one over these devices, and after the last.
fn log_lengths(alloc: Global, devices: &Devices, bodies: &[&[u8]]) -> Result<Vec<usize>, Refusal> {
    let mut server = devices.open(ON_REQUEST)?;
    let mut lengths = Vec::new(alloc);
    lengths.push(devices.log_bytes()?.len())?;
    for body in bodies {
        serve_one(alloc, &mut server, body)?;
        lengths.push(devices.log_bytes()?.len())?;
    }
    Ok(lengths)
}

/// The state before the first request, and after each request that adds a frame to the log, served one by one over
/// these devices.
fn logged_states(
    alloc: Global,
    devices: &Devices,
    bodies: &[&[u8]],
) -> Result<Vec<Vec<u8>>, Refusal> {
    let all = states(alloc, bodies)?;
    let lengths = log_lengths(alloc, devices, bodies)?;
    let mut logged = Vec::new(alloc);
    let mut last = 0;
    for (state, length) in all.iter().zip(lengths.iter()) {
        if *length > last {
            logged.push(state.clone()?)?;
            last = *length;
        }
    }
    Ok(logged)
}

/// The number of frames of the transfer's log after its first: the mark of all stamps, and each of two sessions holds two
/// cells and writes two commit records.
const FRAMES: usize = 9;

/// The offsets of the store's number and of the first frame in a log. A log in memory may be of any store.
const STORE_AT: usize = 8;

const FRAMES_AT: usize = 16;

/// How many frames are left of a log whose byte at a place is garbled. `None`, damage, if the place is before the last
/// frame.
fn frames_without(logged: &Logged, at: usize) -> Option<usize> {
    if STORE_AT <= at && at < FRAMES_AT {
        return Some(FRAMES);
    }
    match logged.frames_to(at) {
        Some(count) if count == FRAMES - 1 => Some(count),
        _ => None,
    }
}

impl Logged {
    /// Whether the log cut at a place is opened to the right state.
    fn is_right_to(&self, at: usize) -> Result<bool, Refusal> {
        let (beginning, _) = self.log.split_at(at.min(self.log.len()));
        self.opens_to(beginning, self.frames_to(at))
    }

    /// Whether the log whose byte at a place is garbled is opened to the right state.
    fn is_right_garbled(&self, at: usize) -> Result<bool, Refusal> {
        let mut log = self.log.clone()?;
        if let Some(byte) = log.get_mut(at) {
            *byte ^= 0x20;
        }
        self.opens_to(&log, frames_without(self, at))
    }
}

#[test]
fn a_log_is_cut_at_each_byte(rt: HostRuntime) -> Result<(), Fail> {
    let logged = Logged::new(rt.alloc())?;
    assert!(rt; logged.ends.len() == FRAMES + 1 && logged.states.len() == FRAMES + 1);
    for at in 0..=logged.log.len() {
        assert!(rt; logged.is_right_to(at)?, "{at}");
    }
    Ok(())
}

#[test]
fn a_byte_of_a_log_is_garbled(rt: HostRuntime) -> Result<(), Fail> {
    let logged = Logged::new(rt.alloc())?;
    for at in 0..logged.log.len() {
        assert!(rt; logged.is_right_garbled(at)?, "{at}");
    }
    Ok(())
}

/// Logs with a record that isn't edits.
const NO_EDITS: [&[u8]; 9] = [
    // x
    b"TABLOG02\x01\x02\x03\x04\x05\x06\x07\x08\
        \0\0\0\x11\x41\xC1\x6C\xCA\0\0\0\0\0\0\0\x01\x02\0\0\0\0\0\0\0\0\
        \0\0\0\x12\xD0\x76\xFD\x95\0\0\0\0\0\0\0\x02\0\0\0\0\0\0\0\0\x01\
        x",
    // a put that is cut short
    b"TABLOG02\x01\x02\x03\x04\x05\x06\x07\x08\
        \0\0\0\x11\x41\xC1\x6C\xCA\0\0\0\0\0\0\0\x01\x02\0\0\0\0\0\0\0\0\
        \0\0\0\x2E\xF7\x40\x31\x45\0\0\0\0\0\0\0\x02\0\0\0\0\0\0\0\0\x01\
        \0\0\0\x14r\0\0c\0\0data\0\0\xFF\xFF\xFF\xFF\xFF\xFF\xFF\xFE\x01\0\0\0\x01",
    // a put, and then x in a record of its own
    b"TABLOG02\x01\x02\x03\x04\x05\x06\x07\x08\
        \0\0\0\x11\x41\xC1\x6C\xCA\0\0\0\0\0\0\0\x01\x02\0\0\0\0\0\0\0\0\
        \0\0\0\x2F\x50\x94\x22\x76\0\0\0\0\0\0\0\x02\0\0\0\0\0\0\0\0\x01\
        \0\0\0\x14r\0\0c\0\0data\0\0\xFF\xFF\xFF\xFF\xFF\xFF\xFF\xFE\x01\0\0\0\x01v\
        \0\0\0\x12\x11\xF8\x22\x55\0\0\0\0\0\0\0\x03\0\0\0\0\0\0\0\0\x01\
        x",
    // neither a put nor an erasure
    b"TABLOG02\x01\x02\x03\x04\x05\x06\x07\x08\
        \0\0\0\x11\x41\xC1\x6C\xCA\0\0\0\0\0\0\0\x01\x02\0\0\0\0\0\0\0\0\
        \0\0\0\x2A\x07\x41\x59\xD2\0\0\0\0\0\0\0\x02\0\0\0\0\0\0\0\0\x01\
        \0\0\0\x14r\0\0c\0\0data\0\0\xFF\xFF\xFF\xFF\xFF\xFF\xFF\xFE\x02",
    // an erasure of a malformed key
    b"TABLOG02\x01\x02\x03\x04\x05\x06\x07\x08\
        \0\0\0\x11\x41\xC1\x6C\xCA\0\0\0\0\0\0\0\x01\x02\0\0\0\0\0\0\0\0\
        \0\0\0\x18\x11\x86\x27\xDC\0\0\0\0\0\0\0\x02\0\0\0\0\0\0\0\0\x01\
        \0\0\0\x02r\0\0",
    // the fields of a put that is cut short
    b"TABLOG02\x01\x02\x03\x04\x05\x06\x07\x08\
        \0\0\0\x11\x41\xC1\x6C\xCA\0\0\0\0\0\0\0\x01\x02\0\0\0\0\0\0\0\0\
        \0\0\0\x23\xFE\x1F\xAE\xEA\0\0\0\0\0\0\0\x02\x03\0\0\0\0\0\0\0\x01\
        \x00\0\x01r\x01c\0\0\0\0\0\0\0\x01\0\0\0\x01",
    // fields of no column
    b"TABLOG02\x01\x02\x03\x04\x05\x06\x07\x08\
        \0\0\0\x11\x41\xC1\x6C\xCA\0\0\0\0\0\0\0\x01\x02\0\0\0\0\0\0\0\0\
        \0\0\0\x24\xBC\x21\xC0\x3A\0\0\0\0\0\0\0\x02\x03\0\0\0\0\0\0\0\x01\
        \x03\0\x01r\x01c\0\0\0\0\0\0\0\x01\0\0\0\x01v",
    // fields of a malformed key
    b"TABLOG02\x01\x02\x03\x04\x05\x06\x07\x08\
        \0\0\0\x11\x41\xC1\x6C\xCA\0\0\0\0\0\0\0\x01\x02\0\0\0\0\0\0\0\0\
        \0\0\0\x24\x96\x2A\x72\x4E\0\0\0\0\0\0\0\x02\x03\0\0\0\0\0\0\0\x01\
        \x00\0\x01r\x01:\0\0\0\0\0\0\0\x01\0\0\0\x01v",
    // an unknown kind of record
    b"TABLOG02\x01\x02\x03\x04\x05\x06\x07\x08\
        \0\0\0\x11\x41\xC1\x6C\xCA\0\0\0\0\0\0\0\x01\x02\0\0\0\0\0\0\0\0\
        \0\0\0\x11\xAE\xEB\x9E\xD5\0\0\0\0\0\0\0\x02\x04\0\0\0\0\0\0\0\x01",
];

/// Whether an open of a store, new or opened before, is refused as damaged with this log, and succeeds with a log
/// without records.
fn is_refused(alloc: Global, log: &[u8], is_new: bool) -> Result<bool, Refusal> {
    let devices = Devices::new(alloc)?;
    if !is_new {
        devices.replies(ON_REQUEST, b"")?;
    }
    devices.set_log(log)?;
    let refused = devices.replies(ON_REQUEST, b"");
    devices.set_new_log()?;
    Ok(refused == Err(Refusal::Damaged) && devices.replies(ON_REQUEST, b"")?.is_empty())
}

/// Whether the devices open. `false` if they are refused as damaged.
fn opens(devices: &Devices) -> Result<bool, Refusal> {
    match devices.replies(ON_REQUEST, b"") {
        Ok(_) => Ok(true),
        Err(Refusal::Damaged) => Ok(false),
        Err(refusal) => Err(refusal),
    }
}

/// A log with three marks, of which the second is the greatest.
const THREE_MARKS: &[u8] = b"TABLOG02\x01\x02\x03\x04\x05\x06\x07\x08\
    \0\0\0\x11\x41\xC1\x6C\xCA\0\0\0\0\0\0\0\x01\x02\0\0\0\0\0\0\0\0\
    \0\0\0\x11\xF4\x6A\x0B\xC0\0\0\0\0\0\0\0\x02\0\0\0\0\0\0\0\0\x05\
    \0\0\0\x11\xA2\x50\xD0\x62\0\0\0\0\0\0\0\x03\0\0\0\0\0\0\0\x07\xD0\
    \0\0\0\x11\x17\x7A\x1A\xAB\0\0\0\0\0\0\0\x04\0\0\0\0\0\0\0\0\x07";

/// The frame of a Begin.
const BEGIN: &[u8] = b"\0\0\0\x01\x01";

/// The reply to a Begin of a store, new or opened before, with this log and this number in its mark's store.
fn begun(alloc: Global, log: &[u8], mark: u32, is_new: bool) -> Result<Vec<u8>, Refusal> {
    let devices = Devices::new(alloc)?;
    if !is_new {
        devices.replies(ON_REQUEST, b"")?;
    }
    devices.set_log(log)?;
    devices.set_mark(mark)?;
    devices.replies(ON_REQUEST, BEGIN)
}

/// Logs with a mark that is the greatest stamp, and one more than it.
const GREATEST_MARK: &[u8] = b"TABLOG02\x01\x02\x03\x04\x05\x06\x07\x08\
    \0\0\0\x11\x41\xC1\x6C\xCA\0\0\0\0\0\0\0\x01\x02\0\0\0\0\0\0\0\0\
    \0\0\0\x11\x93\x5D\x7A\xE0\0\0\0\0\0\0\0\x02\0\x7F\xFF\xFF\xFF\xFF\xFF\xFF\xFF";

const TOO_GREAT_MARK: &[u8] = b"TABLOG02\x01\x02\x03\x04\x05\x06\x07\x08\
    \0\0\0\x11\x41\xC1\x6C\xCA\0\0\0\0\0\0\0\x01\x02\0\0\0\0\0\0\0\0\
    \0\0\0\x11\xD7\x3B\x7A\x95\0\0\0\0\0\0\0\x02\0\x80\0\0\0\0\0\0\0";

/// The reply to a Begin without stamps: refused 18.
const EXHAUSTED: &[u8] = b"\0\0\0\x02\xFF\x12";

/// A log, the number in its mark's store, and the reply to a Begin of a store, opened before: the first start above all
/// marks of the log and this number.
const STARTS: [(&[u8], u32, &[u8]); 5] = [
    (THREE_MARKS, 0, b"\0\0\0\x09\x81\0\0\0\0\0\0\x07\xD1"),
    (THREE_MARKS, 1999, b"\0\0\0\x09\x81\0\0\0\0\0\0\x07\xD1"),
    (THREE_MARKS, 2000, b"\0\0\0\x09\x81\0\0\0\0\0\0\x07\xD1"),
    (THREE_MARKS, 2500, b"\0\0\0\x09\x81\0\0\0\0\0\0\x09\xC5"),
    (GREATEST_MARK, 0, EXHAUSTED),
];

/// Whether a store, new or opened before, answers so to a Begin.
fn starts(alloc: Global, start: &(&[u8], u32, &[u8]), is_new: bool) -> Result<bool, Refusal> {
    Ok(begun(alloc, start.0, start.1, is_new)?.as_slice() == start.2)
}

#[test]
fn the_greatest_mark_counts(rt: HostRuntime) -> Result<(), Fail> {
    for start in &STARTS {
        assert!(rt; starts(rt.alloc(), start, false)?, "{start:?}");
        if start.0 == THREE_MARKS {
            assert!(rt; starts(rt.alloc(), start, true)?, "{start:?}");
        }
    }
    Ok(())
}

#[test]
fn logs_that_are_refused(rt: HostRuntime) -> Result<(), Fail> {
    for log in NO_EDITS {
        assert!(rt; is_refused(rt.alloc(), log, false)?, "{log:?}");
    }
    // edits without a root, and a mark above all stamps
    for (log, is_new) in [(THREE_RECORDS, true), (TOO_GREAT_MARK, false)] {
        assert!(rt; is_refused(rt.alloc(), log, is_new)?, "{log:?}");
    }
    Ok(())
}

/// Numbers in the mark's store, and whether a store opens whose root has the greatest stamp 2.
const MARKS: [(u32, bool); 4] = [(0, false), (1, false), (2, true), (1000, true)];

#[test]
fn a_mark_below_the_root(rt: HostRuntime) -> Result<(), Fail> {
    let devices = Devices::new(rt.alloc())?;
    two_roots(rt.alloc(), &devices)?;
    for (mark, is_opened) in MARKS {
        devices.set_mark(mark)?;
        assert!(rt; opens(&devices)? == is_opened, "{mark}");
    }
    Ok(())
}

/// A Begin and a Checkpoint, whose root has the Begin's stamp.
const BEGIN_AND_CHECKPOINT: [&[u8]; 2] = [b"\x01", b"\x12"];

/// The root file and the log after each of two checkpoints of these devices.
fn two_roots(alloc: Global, devices: &Devices) -> Result<[(Vec<u8>, Vec<u8>); 2], Refusal> {
    let mut server = devices.open(ON_REQUEST)?;
    for body in BEGIN_AND_CHECKPOINT {
        serve_one(alloc, &mut server, body)?;
    }
    let old = (devices.root_bytes()?, devices.log_bytes()?);
    for body in BEGIN_AND_CHECKPOINT {
        serve_one(alloc, &mut server, body)?;
    }
    Ok([old, (devices.root_bytes()?, devices.log_bytes()?)])
}

#[test]
fn a_log_over_another_root(rt: HostRuntime) -> Result<(), Fail> {
    let devices = Devices::new(rt.alloc())?;
    let pairs = two_roots(rt.alloc(), &devices)?;
    for (root_at, (root, _)) in pairs.iter().enumerate() {
        devices.set_root(root)?;
        for (log_at, (_, log)) in pairs.iter().enumerate() {
            devices.set_log(log)?;
            assert!(rt;
                opens(&devices)? == (root_at == log_at),
                "{root_at} {log_at}"
            );
        }
        devices.set_new_log()?;
        assert!(rt; opens(&devices)?, "{root_at}");
    }
    Ok(())
}

/// The log of a new store after `name_root`: it names the root that was put then.
const NAMED_LOG: &[u8] = b"TABLOG02\x01\x02\x03\x04\x05\x06\x07\x08\
    \0\0\0\x15\x76\x4A\x44\x3B\0\0\0\0\0\0\0\x03\x01\0\0\0\0\0\0\0\0\x14\xA7\x75\x1F";

#[test]
fn a_root_is_named(rt: HostRuntime) -> Result<(), Fail> {
    let devices = Devices::new(rt.alloc())?;
    let mut server = devices.open(ON_REQUEST)?;
    server.name_root()?;
    assert!(rt; devices.log_bytes()?.as_slice() == NAMED_LOG);
    server.name_root()?;
    assert!(rt; devices.log_bytes()?.as_slice() == NAMED_LOG);
    Ok(())
}

/// Whether new devices open after a kill at this call of the naming of their root, and the naming fails only if the
/// kill has come; and whether there is such a call.
fn naming_survives(alloc: Global, at: u64, makes_last: bool) -> Result<(bool, bool), Refusal> {
    let devices = Devices::new(alloc)?;
    let mut server = devices.open(ON_REQUEST)?;
    devices.life.begin(at, makes_last);
    let is_named = server.name_root().is_ok();
    let is_over = devices.life.is_over();
    devices.life.begin(u64::MAX, false);
    Ok((opens(&devices)? && (is_named || is_over), is_over))
}

/// The number of calls of a naming, if the devices open after a kill at each of them; otherwise, as `Err`, the first
/// call after which they don't.
fn naming_calls(alloc: Global, makes_last: bool) -> Result<Result<u64, u64>, Refusal> {
    for at in 1..=MOST_CALLS {
        match naming_survives(alloc, at, makes_last)? {
            (false, _) => return Ok(Err(at)),
            (true, true) => {}
            (true, false) => return Ok(Ok(at.saturating_sub(1))),
        }
    }
    Ok(Err(MOST_CALLS))
}

#[test]
fn naming_a_root_is_killed(rt: HostRuntime) -> Result<(), Fail> {
    for makes_last in [false, true] {
        let calls = naming_calls(rt.alloc(), makes_last)?;
        assert!(rt; calls == Ok(4), "{calls:?}");
    }
    Ok(())
}

/// An upper bound of the number of calls that the devices get.
const MOST_CALLS: u64 = 100;

/// Whether a server whose log failed fails in the same way again, and writes nothing more.
fn is_silent(server: &mut StoppingServer<'_>, writer: &mut Written<'_>) -> bool {
    let count = writer.bytes.len();
    // Begin
    let mut reader: &[u8] = b"\0\0\0\x01\x01";
    let again = serve(server, &mut reader, writer);
    matches!(again, Err(ServeFault::Log)) && writer.bytes.len() == count
}

/// Serves the first cell's requests, with at most `most` bytes a read, and all calls from this one on failing. Returns
/// how many bytes were written, if the log failed. Then it fails again, and nothing more is written.
fn lost_at(alloc: Global, most: usize, at: u64) -> Result<Option<usize>, Refusal> {
    let (requests, replies) = streams_of(alloc, &FIRST_CELL)?;
    let devices = Devices::new(alloc)?;
    devices.life.begin(at, false);
    let Ok(mut server) = devices.open(ON_REQUEST) else {
        return Ok(None);
    };
    let mut reader = Pieces::new(alloc, &requests)?;
    reader.most = most;
    let mut writer = Written {
        bytes: Vec::new(alloc),
        life: &devices.life,
        is_cut: false,
    };
    let ended = serve(&mut server, &mut reader, &mut writer);
    if !matches!(ended, Err(ServeFault::Log)) {
        return Ok(None);
    }
    let count = writer.bytes.len();
    let is_silent = is_silent(&mut server, &mut writer);
    let is_told = end_status(&ended) == (4, "tabletd: log failed");
    if is_silent && is_told && replies.starts_with(&writer.bytes) {
        return Ok(Some(count));
    }
    Err(Refusal::Device)
}

/// How many bytes were written when an append failed: before the session begins, before the cell is held, and before it
/// is committed.
const LOST: [(usize, &[usize]); 2] = [(1, &[0, 18, 42]), (usize::MAX, &[0])];

#[test]
fn an_append_fails(rt: HostRuntime) -> Result<(), Fail> {
    for (most, wanted) in LOST {
        let mut lost = Vec::new(rt.alloc());
        for at in 1..=MOST_CALLS {
            if let Some(count) = lost_at(rt.alloc(), most, at)? {
                lost.push(count)?;
            }
        }
        assert!(rt; lost.as_slice() == wanted, "{lost:?}");
    }
    Ok(())
}
