//! A script with two checkpoints and one failing call of the folder's files: the folder then opens at the last answered
//! checkpoint, or at the refused one.

use crate::tests::FLUSH;
use crate::tests::script::{Run, Watch, served};
use cell_key::Refusal;
use file_store::{DirFiles, Fail as How, FailAt};
use oracle::DirMark;
use server_loop::{Config, Server};
use std::test::Fail;
use std::{fs, io, process};
use testing::FILE_LIMIT;
use testing::cleaning::{ROLLED_FORWARD, SESSION_STOPPED};
use testing::frames::{push_frame, stream_of, streams_of};
use testing::rows::{COMMITTED, Row};
use testing::script::{COLLECTED, COLUMNS, MERGED, SPLIT, WRITTEN};

type FailingServer = Server<FailAt<DirFiles<HostRuntime>>, DirMark<HostRuntime>>;

/// The first checkpoint, after the transfer has committed its first cell.
const HALF: Row = (COMMITTED, &[&WRITTEN]);

/// The requests after the first checkpoint, made in the middle of a transfer, up to the second.
const SECOND: Row = (
    0,
    &[
        &SESSION_STOPPED,
        &SPLIT,
        &ROLLED_FORWARD,
        &MERGED,
        &COLLECTED,
        &WRITTEN,
    ],
);

/// Whether there is a second tablet: a Merge of one of its files is refused 14 if there is one, and 11 if not.
const SECOND_TABLET: &[u8] = b"\x0B\0\0\0\x02\0\0\0\x01";

/// The three columns of both cells, and whether there is a second tablet: after no checkpoint, the first and the
/// second.
const KEPT: [[&[u8]; 7]; 3] = [
    [
        b"\x91\0",
        b"\x91\0",
        b"\x91\0",
        b"\x91\0",
        b"\x91\0",
        b"\x91\0",
        b"\xFF\x0B",
    ],
    // the second cell is still locked
    [
        b"\x91\x01\0\0\0\0\0\0\0\x03\0\0\0\x013",
        b"\x91\0",
        b"\x91\x01\0\0\0\0\0\0\0\x04\0\0\0\x09\0\0\0\0\0\0\0\x03S",
        b"\x91\x01\0\0\0\0\0\0\0\x03\0\0\0\x019",
        b"\x91\x01\0\0\0\0\0\0\0\x03\0\0\0\x0BBob\0\0bal\0\0S",
        b"\x91\x01\0\0\0\0\0\0\0\x02\0\0\0\x09\0\0\0\0\0\0\0\x01S",
        b"\xFF\x0B",
    ],
    // the second cell was rolled forward, and there is a second tablet
    [
        b"\x91\x01\0\0\0\0\0\0\0\x03\0\0\0\x013",
        b"\x91\0",
        b"\x91\x01\0\0\0\0\0\0\0\x04\0\0\0\x09\0\0\0\0\0\0\0\x03S",
        b"\x91\x01\0\0\0\0\0\0\0\x03\0\0\0\x019",
        b"\x91\0",
        b"\x91\x01\0\0\0\0\0\0\0\x04\0\0\0\x09\0\0\0\0\0\0\0\x03S",
        b"\xFF\x0E",
    ],
];

/// A new folder of this name in the machine's temporary folder.
fn new_folder(rt: &HostRuntime, name: &str) -> io::Result<String> {
    testing::folders::new_folder(rt, process::id(rt.process()), name)
}

/// A server of a folder, whose files fail at this call, or never if it is 0. It opens them as the program does when it
/// is started. In its box it is dropped by one call.
fn failing_server(
    rt: &HostRuntime,
    path: &str,
    at: u64,
    how: How,
) -> Result<Box<FailingServer>, Refusal> {
    let files = match DirFiles::open(*rt, path) {
        Ok(files) => FailAt::new(files, at, how),
        Err(_) => return Err(Refusal::Device),
    };
    let marks = match DirMark::open(*rt, path) {
        Ok(marks) => marks,
        Err(_) => return Err(Refusal::Device),
    };
    let config = Config {
        flush: FLUSH,
        file_limit: FILE_LIMIT,
    };
    match Server::open(rt.alloc(), files, marks, config) {
        Ok(server) => Ok(Box::new(rt.alloc(), server)?),
        Err((refusal, _, _)) => Err(refusal),
    }
}

/// Opens a folder with one failing call of its files, and serves frames up to the first that is refused Device. Returns
/// the replies, and the number of bytes of the frames from the refused one on.
fn asked(
    rt: &HostRuntime,
    path: &str,
    at: u64,
    how: How,
    frames: &[u8],
) -> Result<(Vec<u8>, usize), Refusal> {
    let watch = Watch::new();
    let run = Run {
        refusal: Refusal::Device,
        watch: &watch,
    };
    let mut server = failing_server(rt, path, at, how)?;
    Ok(served(&mut *server, run, frames, Vec::new(rt.alloc())))
}

/// That number.
fn left_of(
    rt: &HostRuntime,
    path: &str,
    at: u64,
    how: How,
    frames: &[u8],
) -> Result<usize, Refusal> {
    let (_, left) = asked(rt, path, at, how, frames)?;
    Ok(left)
}

/// How many checkpoints are answered in a new folder if this call fails in this way.
fn answered(rt: &HostRuntime, path: &str, at: u64, how: How) -> Result<usize, Refusal> {
    let (mut requests, _) = streams_of(rt.alloc(), &HALF)?;
    let (second, _) = streams_of(rt.alloc(), &SECOND)?;
    requests.extend_from_slice(&second)?;
    match left_of(rt, path, at, how, &requests) {
        Ok(0) => Ok(2),
        Ok(left) if left <= second.len() => Ok(1),
        Ok(_) | Err(Refusal::Device) => Ok(0),
        Err(refusal) => Err(refusal),
    }
}

/// The replies to the reads of a folder, without a fault.
fn read_of(rt: &HostRuntime, path: &str) -> Result<Vec<u8>, Refusal> {
    let mut requests = Vec::new(rt.alloc());
    for (request, _) in COLUMNS {
        push_frame(&mut requests, request)?;
    }
    push_frame(&mut requests, SECOND_TABLET)?;
    let (written, _) = asked(rt, path, 0, How::Before, &requests)?;
    Ok(written)
}

/// The number of checkpoints whose state a folder has. `None` if the folder is refused as damaged.
fn kept(rt: &HostRuntime, path: &str) -> Result<Option<usize>, Refusal> {
    let read = match read_of(rt, path) {
        Ok(read) => read,
        Err(Refusal::Damaged) => return Ok(None),
        Err(refusal) => return Err(refusal),
    };
    for (count, replies) in KEPT.iter().enumerate() {
        if read == stream_of(rt.alloc(), replies)? {
            return Ok(Some(count));
        }
    }
    Ok(Some(KEPT.len()))
}

/// How many checkpoints are answered in a new folder if this call fails in this way, and which of them then opens.
fn came(rt: &HostRuntime, path: &str, at: u64, how: How) -> Result<(usize, Option<usize>), Fail> {
    fs::remove_dir_all(rt, path)?;
    fs::create_dir(rt, path)?;
    let answered = answered(rt, path, at, how)?;
    Ok((answered, kept(rt, path)?))
}

/// The numbers of the file calls that put a root. The second is the last call.
const ROOTS: [u64; 2] = [4, 37];

/// The checkpoint that must open if this call fails in this way: the last answered one, or the refused one if its whole
/// root was put. Half a root is damage, `None`.
fn opens_after(at: u64, how: How, answered: usize) -> Option<usize> {
    match how {
        How::Half if ROOTS.contains(&at) => None,
        How::After if ROOTS.contains(&at) => Some(answered.saturating_add(1)),
        _ => Some(answered),
    }
}

/// The first call after whose failure a wrong checkpoint opens, if there is one. `Some(0)` if only the run without a
/// failing call goes wrong.
fn fails_at(rt: &HostRuntime, name: &str, how: How) -> Result<Option<u64>, Fail> {
    let folder = new_folder(rt, name)?;
    for at in 1..=ROOTS[1] {
        let (answered, opens) = came(rt, folder.as_str(), at, how)?;
        if answered > 1 || opens != opens_after(at, how, answered) {
            return Ok(Some(at));
        }
    }
    let (answered, opens) = came(rt, folder.as_str(), ROOTS[1].saturating_add(1), how)?;
    fs::remove_dir_all(rt, folder.as_str())?;
    Ok((answered != 2 || opens != Some(2)).then_some(0))
}

/// One test for each way of failing: a folder's files are synced to disk, which takes time.
#[test]
fn a_call_of_a_checkpoint_does_nothing(rt: HostRuntime) -> Result<(), Fail> {
    let at = fails_at(&rt, "nothing", How::Before)?;
    assert!(rt; at.is_none(), "{at:?}");
    Ok(())
}

#[test]
fn a_call_of_a_checkpoint_is_half_done(rt: HostRuntime) -> Result<(), Fail> {
    let at = fails_at(&rt, "half", How::Half)?;
    assert!(rt; at.is_none(), "{at:?}");
    Ok(())
}

#[test]
fn a_call_of_a_checkpoint_is_done(rt: HostRuntime) -> Result<(), Fail> {
    let at = fails_at(&rt, "done", How::After)?;
    assert!(rt; at.is_none(), "{at:?}");
    Ok(())
}

/// The number of file calls of an open of a folder with a root and two files.
const OPEN_CALLS: u64 = 20;

/// An open with a failing call is refused, and the next one opens the same state.
#[test]
fn a_call_of_an_open_fails(rt: HostRuntime) -> Result<(), Fail> {
    let folder = new_folder(&rt, "open-faults")?;
    let path = folder.as_str();
    assert!(rt; came(&rt, path, 0, How::Before)? == (2, Some(2)));
    for at in 1..=OPEN_CALLS {
        for how in [How::Before, How::Half, How::After] {
            assert!(rt;
                left_of(&rt, path, at, how, b"") == Err(Refusal::Device),
                "{at} {how:?}"
            );
            assert!(rt; kept(&rt, path)? == Some(2), "{at} {how:?}");
        }
    }
    let next = OPEN_CALLS.saturating_add(1);
    assert!(rt; left_of(&rt, path, next, How::Before, b"") == Ok(0));
    fs::remove_dir_all(&rt, path)?;
    Ok(())
}
