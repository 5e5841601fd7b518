//! A script of requests that goes through every part of the store: sessions, a cleaner, a collector, compactions, a split, a move
//! and a restart. `scripts/refuse_allocations` runs it with one allocation refused at a time.

use cell_key::Refusal;
use file_store::{Files, MemFiles};
use oracle::{MarkStore, MemMark};
use server_loop::{Config, FlushLimits, MergePolicy, ServeFault, Server};
use std::alloc::{AllocError, Global};
use std::cell::Cell;
use std::io;
use std::io::{Read, Write};
use std::test::Fail;
use testing::FILE_LIMIT;
use testing::cleaning::{ROLLED_FORWARD, SESSION_STOPPED};
use testing::frames::push_frame;
use testing::rows::{COMMITTED, Exchange, TRANSFER};
use testing::script::{COLLECTED, COLUMNS, FLUSHED, MERGED, SPLIT};

/// A session begins after the restart, and files that no tablet has are removed.
const SWEPT: [Exchange; 2] = [
    // Begin: 1001
    (b"\x01", b"\x81\0\0\0\0\0\0\x03\xE9"),
    // Sweep: 2
    (b"\x0F", b"\x8F\0\0\0\0\0\0\0\x02"),
];

/// The same for a server that compacts by itself. Of 20 files each of the two tablets keeps one. The transfer and its
/// cleaner put two entries into a memtable eight times: eight files, and seven merges of a new file with the one
/// before. The collector puts two entries into each memtable: two files, and two merged ones. The Major writes the
/// last.
const MORE_SWEPT: [Exchange; 2] = [
    // Begin: 1001
    (b"\x01", b"\x81\0\0\0\0\0\0\x03\xE9"),
    // Sweep: 18
    (b"\x0F", b"\x8F\0\0\0\0\0\0\0\x12"),
];

/// The script, after the first exchanges of the transfer.
const SCRIPT: [&[Exchange]; 7] = [
    &FLUSHED,
    &SESSION_STOPPED,
    &SPLIT,
    &ROLLED_FORWARD,
    &MERGED,
    &COLLECTED,
    &SWEPT,
];

/// The same for a server that compacts by itself. It has no Merge: the number of files would depend on which
/// compactions were refused.
const SHORTER_SCRIPT: [&[Exchange]; 6] = [
    &FLUSHED,
    &SESSION_STOPPED,
    &SPLIT,
    &ROLLED_FORWARD,
    &COLLECTED,
    &MORE_SWEPT,
];

/// When the server compacts by itself: the numbers of entries of a memtable, and of files of a tablet.
#[derive(Clone, Copy)]
struct Upkeep {
    flush: u32,
    merge: Option<u32>,
}

/// The length of a refusal's frame in bytes.
const REFUSAL_LENGTH: usize = 6;

/// The frame of a refusal.
fn frame_of(refusal: Refusal) -> [u8; REFUSAL_LENGTH] {
    [0, 0, 0, 2, 0xFF, refusal.number()]
}

/// The length of the number of removed files, at the end of a Sweep's reply. A refused request may have left more
/// files.
const COUNT_LENGTH: usize = 8;

/// The outcome of the script.
#[derive(Clone, Copy, Debug)]
pub enum Came {
    /// Each request got the right reply at once.
    Answered,
    /// The same, but one request, a serve or the new server was first refused, with the one refusal that may come.
    AnsweredLater,
    /// A reply was wrong.
    WrongAnswer,
}

/// A record of whether one of the server's file calls failed.
#[derive(Drop)]
pub struct Watch {
    has_failed: Cell<bool>,
}

impl Watch {
    pub fn new() -> Watch {
        Watch {
            has_failed: Cell::new(false),
        }
    }

    /// Records whether a call failed.
    pub fn note(&self, has_failed: bool) {
        if has_failed {
            self.has_failed.set(true);
        }
    }

    /// Whether a call failed.
    pub fn has_failed(&self) -> bool {
        self.has_failed.get()
    }
}

/// The refusal that may come once, and the watch on the files.
#[derive(Clone, Copy)]
pub struct Run<'a> {
    pub refusal: Refusal,
    pub watch: &'a Watch,
}

/// A reader of frames of fewer than 256 bytes that gives one frame a read. It ends after a frame that was refused.
#[derive(Drop)]
struct Frames<'a> {
    last: &'a [u8],
    rest: &'a [u8],
    is_refused: &'a Cell<bool>,
}

impl Read for Frames<'_> {
    fn read(&mut self, buf: &mut [u8]) -> io::Result<usize> {
        let Some(length) = self.rest.get(3) else {
            return Ok(0);
        };
        if self.is_refused.get() {
            return Ok(0);
        }
        let count = (4 + usize::from(*length))
            .min(buf.len())
            .min(self.rest.len());
        buf[..count].copy_from_slice(&self.rest[..count]);
        self.last = self.rest;
        self.rest = &self.rest[count..];
        Ok(count)
    }
}

/// A writer with capacity for all replies, which notes whether the last one is the refusal that may come.
#[derive(Drop)]
struct Replies<'a> {
    written: Vec<u8>,
    refusal: Refusal,
    is_refused: &'a Cell<bool>,
}

impl Write for Replies<'_> {
    fn write(&mut self, buf: &[u8]) -> io::Result<usize> {
        self.written.extend_from_slice(buf)?;
        let refused = frame_of(self.refusal);
        self.is_refused.set(self.written.ends_with(&refused));
        Ok(buf.len())
    }

    fn flush(&mut self) -> io::Result<()> {
        Ok(())
    }
}

/// Serves frames, and appends the replies to `written`. The number returned is 0 if no frame was refused in the way
/// that may come; otherwise the number of bytes of the frames from the refused one on, whose reply is dropped.
pub fn served<F: Files + Drop, M: MarkStore + Drop>(
    server: &mut Server<F, M>,
    run: Run<'_>,
    frames: &[u8],
    written: Vec<u8>,
) -> (Vec<u8>, usize) {
    let is_refused = Cell::new(false);
    let mut reader = Frames {
        last: frames,
        rest: frames,
        is_refused: &is_refused,
    };
    let mut writer = Replies {
        written,
        refusal: run.refusal,
        is_refused: &is_refused,
    };
    let ended = server.serve(&mut reader, &mut writer, u64::MAX);
    let left = reader.last.len();
    let mut written = writer.written;
    if matches!(ended, Err(ServeFault::NoMemory)) {
        return (written, frames.len());
    }
    if !is_refused.get() {
        return (written, 0);
    }
    written.truncate(written.len().saturating_sub(REFUSAL_LENGTH));
    (written, left)
}

/// The frames of requests and of their replies, and how many bytes at the end of the replies may differ if something
/// was refused.
#[derive(Drop)]
struct Streams {
    requests: Vec<u8>,
    replies: Vec<u8>,
    free: usize,
}

impl Streams {
    fn new(alloc: Global, free: usize) -> Streams {
        Streams {
            requests: Vec::new(alloc),
            replies: Vec::new(alloc),
            free,
        }
    }

    fn push_all(&mut self, exchanges: &[Exchange]) -> Result<(), AllocError> {
        for (request, reply) in exchanges {
            push_frame(&mut self.requests, request)?;
            push_frame(&mut self.replies, reply)?;
        }
        Ok(())
    }

    /// Whether these are the replies.
    fn are_met(&self, written: &[u8], is_disturbed: bool) -> bool {
        let free = if is_disturbed { self.free } else { 0 };
        let count = self.replies.len().saturating_sub(free);
        written.len() == self.replies.len() && written.get(..count) == self.replies.get(..count)
    }
}

/// The script, the reads of both cells after it, and capacity for the replies. All of it is allocated before the script
/// is run.
#[derive(Drop)]
pub struct Room {
    upkeep: Upkeep,
    script: Streams,
    columns: Streams,
    written: Vec<u8>,
}

impl Room {
    /// The script of a server that compacts on request.
    pub fn new(alloc: Global) -> Result<Room, Refusal> {
        let upkeep = Upkeep {
            flush: 10_000,
            merge: None,
        };
        Room::of(alloc, upkeep, &SCRIPT)
    }

    /// The script of a server that also compacts by itself: memtables of two entries, and tablets of two files.
    pub fn by_itself(alloc: Global) -> Result<Room, Refusal> {
        let upkeep = Upkeep {
            flush: 2,
            merge: Some(2),
        };
        Room::of(alloc, upkeep, &SHORTER_SCRIPT)
    }

    fn of(alloc: Global, upkeep: Upkeep, parts: &[&[Exchange]]) -> Result<Room, Refusal> {
        let mut script = Streams::new(alloc, COUNT_LENGTH);
        script.push_all(&TRANSFER[..COMMITTED])?;
        for part in parts {
            script.push_all(part)?;
        }
        let mut columns = Streams::new(alloc, 0);
        columns.push_all(&COLUMNS)?;
        Ok(Room {
            upkeep,
            script,
            columns,
            written: Vec::with_capacity(alloc, 1024)?,
        })
    }
}

/// A new server that compacts by itself at these limits.
fn made<F: Files + Drop, M: MarkStore + Drop>(
    alloc: Global,
    files: F,
    marks: M,
    upkeep: Upkeep,
) -> Result<Server<F, M>, (Refusal, F, M)> {
    if upkeep.flush == 0 || upkeep.flush > 100_000 {
        return Err((Refusal::FileTooLarge, files, marks));
    }
    let config = Config {
        flush: FlushLimits {
            entries: upkeep.flush,
            bytes: None,
        },
        file_limit: FILE_LIMIT,
    };
    let mut server = match Server::new(alloc, files, marks, config) {
        Ok(server) => server,
        Err(refused) => return Err(refused),
    };
    if let Some(most) = upkeep.merge {
        server.merge_by(MergePolicy::AtCount(most));
    }
    Ok(server)
}

/// A server, the refusal that may come once, and the outcome of the script.
#[derive(Drop)]
struct Play<'a, F: Files, M: MarkStore> {
    server: Server<F, M>,
    run: Run<'a>,
    came: Came,
}

impl<'a, F: Files + Drop, M: MarkStore + Drop> Play<'a, F, M> {
    /// A new server. If it is refused in the way that may come, it is made once more from the devices that it gave
    /// back.
    fn new(
        alloc: Global,
        files: F,
        marks: M,
        upkeep: Upkeep,
        run: Run<'a>,
    ) -> Result<Play<'a, F, M>, Refusal> {
        let (files, marks) = match made(alloc, files, marks, upkeep) {
            Ok(server) => {
                let came = Came::Answered;
                return Ok(Play { server, run, came });
            }
            Err((told, files, marks)) if told == run.refusal => (files, marks),
            Err((told, _, _)) => return Err(told),
        };
        match made(alloc, files, marks, upkeep) {
            Ok(server) => {
                let came = Came::AnsweredLater;
                Ok(Play { server, run, came })
            }
            Err((told, _, _)) => Err(told),
        }
    }

    /// Serves a stream. After the first refusal of the kind that may come it serves the rest once more. Returns the
    /// emptied buffer of the replies.
    fn ask(&mut self, streams: &Streams, room: Vec<u8>) -> Vec<u8> {
        let frames = streams.requests.as_slice();
        let (mut written, mut left) = served(&mut self.server, self.run, frames, room);
        if left > 0 && matches!(self.came, Came::Answered) {
            self.came = Came::AnsweredLater;
            let (_, rest) = frames.split_at(frames.len().saturating_sub(left));
            (written, left) = served(&mut self.server, self.run, rest, written);
        }
        let is_disturbed = !matches!(self.came, Came::Answered) || self.run.watch.has_failed();
        if left > 0 || !streams.are_met(&written, is_disturbed) {
            self.came = Came::WrongAnswer;
        }
        written.clear();
        written
    }
}

/// The outcome of the script in memory, with an allocation that may be refused.
pub fn played(alloc: Global, room: Room) -> Result<Came, Refusal> {
    let watch = Watch::new();
    let run = Run {
        refusal: Refusal::NoMemory,
        watch: &watch,
    };
    played_over(alloc, MemFiles::new(alloc), MemMark::new(), run, room)
}

/// The outcome of the script over these files and this mark store, if this refusal may come once.
pub fn played_over<F: Files + Drop, M: MarkStore + Drop>(
    alloc: Global,
    files: F,
    marks: M,
    run: Run<'_>,
    room: Room,
) -> Result<Came, Refusal> {
    let Room {
        upkeep,
        script,
        columns,
        written,
    } = room;
    let mut play = Play::new(alloc, files, marks, upkeep, run)?;
    let written = play.ask(&script, written);
    if !matches!(play.came, Came::WrongAnswer) {
        play.ask(&columns, written);
    }
    Ok(play.came)
}

#[test]
fn script(rt: HostRuntime) -> Result<(), Fail> {
    let came = played(rt.alloc(), Room::new(rt.alloc())?)?;
    assert!(rt; matches!(came, Came::Answered), "{came:?}");
    Ok(())
}
