//! The script with a log, over devices that a kill cuts off at each of their calls: whole replies were written, and an
//! open recovers the state after a prefix of the requests that contains each request replied to.

use crate::tests::servers::{Devices, ON_REQUEST, Upkeep, reads, serve, states};
use crate::tests::stopping::Written;
use cell_key::Refusal;
use std::alloc::{AllocError, Global};
use std::test::Fail;
use testing::cleaning::{ROLLED_FORWARD, SESSION_STOPPED};
use testing::frames::push_frame;
use testing::rows::{COMMITTED, Exchange, TRANSFER};
use testing::script::{COLLECTED, FLUSHED, MERGED, SPLIT, WRITTEN};
use testing::streams::Pieces;

/// A session after the restart sets two cells and deletes one.
const THREE_CELLS: [Exchange; 12] = [
    // Begin: 1001
    (b"\x01", b"\x81\0\0\0\0\0\0\x03\xE9"),
    // Set 1001 Amy bal 1: done
    (
        b"\x03\0\0\0\0\0\0\x03\xE9\0\0\0\x03Amy\0\0\0\x03bal\0\0\0\x011",
        b"\x83",
    ),
    // Set 1001 Bob bal 5: done
    (
        b"\x03\0\0\0\0\0\0\x03\xE9\0\0\0\x03Bob\0\0\0\x03bal\0\0\0\x015",
        b"\x83",
    ),
    // Delete 1001 Joe bal: done
    (
        b"\x13\0\0\0\0\0\0\x03\xE9\0\0\0\x03Joe\0\0\0\x03bal",
        b"\x93",
    ),
    // Step 1001: Held 1 3
    (b"\x04\0\0\0\0\0\0\x03\xE9", b"\x84\x01\0\x01\0\x03"),
    // Step 1001: Held 2 3
    (b"\x04\0\0\0\0\0\0\x03\xE9", b"\x84\x01\0\x02\0\x03"),
    // Step 1001: Held 3 3
    (b"\x04\0\0\0\0\0\0\x03\xE9", b"\x84\x01\0\x03\0\x03"),
    // Step 1001: Stamped 1002
    (b"\x04\0\0\0\0\0\0\x03\xE9", b"\x84\x03\0\0\0\0\0\0\x03\xEA"),
    // Step 1001: Committed 1002
    (b"\x04\0\0\0\0\0\0\x03\xE9", b"\x84\x04\0\0\0\0\0\0\x03\xEA"),
    // Step 1001: Finished 2 3
    (b"\x04\0\0\0\0\0\0\x03\xE9", b"\x84\x06\0\x02\0\x03"),
    // Step 1001: Finished 3 3
    (b"\x04\0\0\0\0\0\0\x03\xE9", b"\x84\x06\0\x03\0\x03"),
    // Get 5 Bob bal: 3
    (
        b"\x02\0\0\0\0\0\0\0\x05\0\0\0\x03Bob\0\0\0\x03bal",
        b"\x82\x01\0\0\0\x013",
    ),
];

/// Files that no tablet has are removed. Their number is ignored.
const SWEPT: [Exchange; 1] = [(b"\x0F", b"\x8F\0\0\0\0\0\0\0\0")];

/// Another session holds a cell, and doesn't commit.
const HELD: [Exchange; 3] = [
    // Begin: 1003
    (b"\x01", b"\x81\0\0\0\0\0\0\x03\xEB"),
    // Set 1003 Amy bal 7: done
    (
        b"\x03\0\0\0\0\0\0\x03\xEB\0\0\0\x03Amy\0\0\0\x03bal\0\0\0\x017",
        b"\x83",
    ),
    // Step 1003: Held 1 1
    (b"\x04\0\0\0\0\0\0\x03\xEB", b"\x84\x01\0\x01\0\x01"),
];

/// The requests after the first ones of the transfer, up to a checkpoint.
const FIRST_PART: [&[Exchange]; 5] = [
    &FLUSHED,
    &SESSION_STOPPED,
    &SPLIT,
    &ROLLED_FORWARD,
    &WRITTEN,
];

/// A collector's steps of as many visits as it makes for a request with a log.
const VISITED: [Exchange; 2] = [
    // CollectStep 1 4: More
    (b"\x09\0\0\0\0\0\0\0\x01\0\0\0\x04", b"\x89\x01"),
    // CollectStep 1 4: Collected
    (b"\x09\0\0\0\0\0\0\0\x01\0\0\0\x04", b"\x89\x03"),
];

/// Sessions begin in three ranges of stamps, with a checkpoint in the second one.
const FIRST_BEGINS: [Exchange; 3] = [
    // Begin: 1
    (b"\x01", b"\x81\0\0\0\0\0\0\0\x01"),
    // Begin: 2
    (b"\x01", b"\x81\0\0\0\0\0\0\0\x02"),
    // OracleRestart: restarted
    (b"\x10", b"\x90"),
];

const SECOND_BEGINS: [Exchange; 4] = [
    // Begin: 1001
    (b"\x01", b"\x81\0\0\0\0\0\0\x03\xE9"),
    // Checkpoint: done
    (b"\x12", b"\x92"),
    // Begin: 1002
    (b"\x01", b"\x81\0\0\0\0\0\0\x03\xEA"),
    // OracleRestart: restarted
    (b"\x10", b"\x90"),
];

const THIRD_BEGINS: [Exchange; 2] = [
    // Begin: 2001
    (b"\x01", b"\x81\0\0\0\0\0\0\x07\xD1"),
    // Begin: 2002
    (b"\x01", b"\x81\0\0\0\0\0\0\x07\xD2"),
];

/// How many stamps a range has.
const RANGE: u64 = 1000;

/// The mark once a stamp of the first, the second or the third range was answered.
const FIRST_MARK: u64 = 1000;

const SECOND_MARK: u64 = 2000;

const THIRD_MARK: u64 = 3000;

/// A server that compacts and checkpoints on request.
const ASKED: Upkeep = ON_REQUEST;

/// A server that makes a checkpoint whenever the journal isn't empty.
const CHECKPOINTS: Upkeep = Upkeep {
    flush: 10_000,
    merge: None,
    checkpoint: Some(1),
};

/// A server that compacts memtables of two entries and merges two files, and makes checkpoints now and then.
const BY_ITSELF: Upkeep = Upkeep {
    flush: 2,
    merge: Some(2),
    checkpoint: Some(3_000),
};

/// How the script is cut off: the most bytes a read gives, whether the call at which the kill comes is made, and
/// whether the writer is cut off too, as by a real kill, or only the devices.
#[derive(Clone, Copy, Debug)]
struct Cut {
    most: usize,
    makes_last: bool,
    cuts_writer: bool,
}

/// The bodies of the requests, their frames, the frames of their replies, the end of each reply, the mark before the
/// first request and after each, and the offset of the last eight bytes of the Sweep's reply: how many files it removes
/// depends on when others were written.
#[derive(Drop)]
struct Script {
    bodies: Vec<&'static [u8]>,
    requests: Vec<u8>,
    replies: Vec<u8>,
    ends: Vec<usize>,
    marks: Vec<u64>,
    removed_at: usize,
}

impl Script {
    /// A script without requests.
    fn empty(alloc: Global) -> Result<Script, AllocError> {
        let mut marks = Vec::new(alloc);
        marks.push(0)?;
        Ok(Script {
            bodies: Vec::new(alloc),
            requests: Vec::new(alloc),
            replies: Vec::new(alloc),
            ends: Vec::new(alloc),
            marks,
            removed_at: usize::MAX,
        })
    }

    /// The script of requests of all kinds. A server that merges by itself is asked for no Merge.
    fn new(alloc: Global, merges: bool) -> Result<Script, AllocError> {
        let mut script = Script::empty(alloc)?;
        script.push_all(&TRANSFER[..COMMITTED], FIRST_MARK)?;
        for part in FIRST_PART {
            script.push_all(part, FIRST_MARK)?;
        }
        if !merges {
            script.push_all(&MERGED, FIRST_MARK)?;
        }
        script.push_all(&COLLECTED[..1], FIRST_MARK)?;
        script.push_all(&VISITED, FIRST_MARK)?;
        script.push_all(&COLLECTED[2..], FIRST_MARK)?;
        script.push_all(&THREE_CELLS, SECOND_MARK)?;
        script.push_all(&SWEPT, SECOND_MARK)?;
        script.removed_at = script.replies.len().saturating_sub(8);
        script.push_all(&HELD, SECOND_MARK)?;
        Ok(script)
    }

    /// The script of sessions that begin.
    fn of_begins(alloc: Global) -> Result<Script, AllocError> {
        let mut script = Script::empty(alloc)?;
        script.push_all(&FIRST_BEGINS, FIRST_MARK)?;
        script.push_all(&SECOND_BEGINS, SECOND_MARK)?;
        script.push_all(&THIRD_BEGINS, THIRD_MARK)?;
        Ok(script)
    }

    /// Adds requests with their replies. After each the mark is this one.
    fn push_all(&mut self, exchanges: &[Exchange], mark: u64) -> Result<(), AllocError> {
        for (request, reply) in exchanges {
            self.bodies.push(*request)?;
            push_frame(&mut self.requests, request)?;
            push_frame(&mut self.replies, reply)?;
            self.ends.push(self.replies.len())?;
            self.marks.push(mark)?;
        }
        Ok(())
    }

    /// Zeroes the number of files that the Sweep removed, if its reply was written.
    fn forget_removed(&self, written: &mut [u8]) {
        for byte in written.iter_mut().skip(self.removed_at).take(8) {
            *byte = 0;
        }
    }

    /// How many whole replies the written bytes begin with.
    fn count(&self, written: &[u8]) -> usize {
        self.ends
            .iter()
            .filter(|end| written.get(..**end) == self.replies.get(..**end))
            .count()
    }

    /// Whether the written bytes are whole replies and nothing else.
    fn are_whole(&self, written: &[u8]) -> bool {
        let count = self.count(written);
        let end = match count.checked_sub(1) {
            Some(last) => self.ends.get(last).copied().unwrap_or(0),
            None => 0,
        };
        end == written.len()
    }
}

/// An upper bound of the number of calls.
const MOST_CALLS: u64 = 2000;

/// Steps of sessions that are all gone, and a Begin.
const SESSIONS: &[u8] = b"\
    \0\0\0\x09\x04\0\0\0\0\0\0\0\x03\
    \0\0\0\x09\x04\0\0\0\0\0\0\0\x05\
    \0\0\0\x09\x04\0\0\0\0\0\0\x03\xE9\
    \0\0\0\x09\x04\0\0\0\0\0\0\x03\xEB\
    \0\0\0\x01\x01";

/// The replies: each Step is refused 1, and the Begin's reply follows, up to its start.
const GONE: &[u8] = b"\
    \0\0\0\x02\xFF\x01\
    \0\0\0\x02\xFF\x01\
    \0\0\0\x02\xFF\x01\
    \0\0\0\x02\xFF\x01\
    \0\0\0\x09\x81";

/// Whether what was read is a state without sessions, and then the first start above a mark.
fn is_left(read: &[u8], state: &[u8], mark: u64) -> bool {
    let Some(rest) = read.strip_prefix(state) else {
        return false;
    };
    let start = mark.saturating_add(1);
    rest.strip_prefix(GONE) == Some(start.to_be_bytes().as_slice())
}

/// The script, the requests after it, and the state after each prefix of its requests.
#[derive(Drop)]
struct Trial {
    alloc: Global,
    upkeep: Upkeep,
    script: Script,
    asks: Vec<u8>,
    states: Vec<Vec<u8>>,
}

impl Trial {
    fn new(alloc: Global, upkeep: Upkeep, script: Script) -> Result<Trial, Refusal> {
        let states = states(alloc, &script.bodies)?;
        let mut asks = reads(alloc)?;
        asks.extend_from_slice(SESSIONS)?;
        Ok(Trial {
            alloc,
            upkeep,
            script,
            asks,
            states,
        })
    }

    /// The replies that a server over these devices writes.
    fn written(&self, devices: &Devices, cut: Cut) -> Result<Vec<u8>, Refusal> {
        let mut writer = Written {
            bytes: Vec::new(self.alloc),
            life: &devices.life,
            is_cut: cut.cuts_writer,
        };
        let mut reader = Pieces::new(self.alloc, &self.script.requests)?;
        reader.most = cut.most;
        match devices.open(self.upkeep) {
            Ok(mut server) => {
                let _ = serve(&mut server, &mut reader, &mut writer);
            }
            Err(Refusal::Device) if devices.life.is_over() => {}
            Err(refusal) => return Err(refusal),
        }
        let mut written = writer.bytes;
        self.script.forget_removed(&mut written);
        Ok(written)
    }

    /// Whether the devices open with the state after a prefix of at least this many requests, without sessions, and the
    /// next start is the first above the mark after it. Since the script the mark was raised by `raised`.
    fn opens(&self, devices: &Devices, count: usize, raised: u64) -> Result<bool, Refusal> {
        let read = devices.replies(self.upkeep, &self.asks)?;
        for (state, mark) in self.states.iter().zip(self.script.marks.iter()).skip(count) {
            if is_left(&read, state, mark.saturating_add(raised)) {
                return Ok(true);
            }
        }
        Ok(false)
    }

    /// Whether all is right after a kill at this call. `None` if there are fewer calls.
    fn survives(&self, cut: Cut, at: u64) -> Result<Option<bool>, Refusal> {
        let devices = Devices::new(self.alloc)?;
        devices.life.begin(at, cut.makes_last);
        let written = self.written(&devices, cut)?;
        let is_over = devices.life.is_over();
        let count = self.script.count(&written);
        devices.life.begin(u64::MAX, false);
        if !self.opens(&devices, count, 0)? {
            return Ok(Some(false));
        }
        if !is_over {
            return Ok((written != self.script.replies).then_some(false));
        }
        Ok(Some(!cut.cuts_writer || self.script.are_whole(&written)))
    }

    /// The number of calls that the devices get, if all is right after a kill at each of them; otherwise, as `Err`, the
    /// first call at which it isn't.
    fn calls(&self, cut: Cut) -> Result<Result<u64, u64>, Refusal> {
        for at in 1..=MOST_CALLS {
            match self.survives(cut, at)? {
                Some(true) => {}
                Some(false) => return Ok(Err(at)),
                None => return Ok(Ok(at.saturating_sub(1))),
            }
        }
        Ok(Err(MOST_CALLS))
    }

    /// The same for an open after the whole script. Each is followed by another one, and a Begin, which raises the mark.
    fn open_calls(&self, makes_last: bool) -> Result<Result<u64, u64>, Refusal> {
        let devices = Devices::new(self.alloc)?;
        let cut = Cut {
            most: usize::MAX,
            makes_last,
            cuts_writer: false,
        };
        self.written(&devices, cut)?;
        let count = self.script.bodies.len();
        for at in 1..=MOST_CALLS {
            devices.life.begin(at, makes_last);
            let is_opened = devices.open(self.upkeep).is_ok();
            let is_over = devices.life.is_over();
            devices.life.begin(u64::MAX, false);
            let raised = RANGE.saturating_mul(at.saturating_sub(1));
            if is_opened == is_over || !self.opens(&devices, count, raised)? {
                return Ok(Err(at));
            }
            if is_opened {
                return Ok(Ok(at.saturating_sub(1)));
            }
        }
        Ok(Err(MOST_CALLS))
    }
}

/// The bytes of a read that gives one or two requests.
const FEW: usize = 30;

/// The bytes of the requests before the transfer commits its first cell. The commit is in a batch with the Split: then
/// the log has the cell's lock, and the root that the split puts does not.
const STAMPED_BYTES: usize = 297;

/// How the script is cut off: all in one batch, in a few batches, and in batches of one or two requests.
const CUTS: [Cut; 5] = [
    Cut {
        most: STAMPED_BYTES,
        makes_last: false,
        cuts_writer: true,
    },
    Cut {
        most: usize::MAX,
        makes_last: false,
        cuts_writer: true,
    },
    Cut {
        most: FEW,
        makes_last: false,
        cuts_writer: true,
    },
    Cut {
        most: FEW,
        makes_last: true,
        cuts_writer: true,
    },
    Cut {
        most: FEW,
        makes_last: true,
        cuts_writer: false,
    },
];

/// How the sessions that begin are cut off: each request in a batch of its own, and all in one batch.
const BEGIN_CUTS: [Cut; 4] = [
    Cut {
        most: 1,
        makes_last: false,
        cuts_writer: true,
    },
    Cut {
        most: 1,
        makes_last: true,
        cuts_writer: true,
    },
    Cut {
        most: usize::MAX,
        makes_last: false,
        cuts_writer: true,
    },
    Cut {
        most: usize::MAX,
        makes_last: true,
        cuts_writer: true,
    },
];

/// A script, its server, how it is cut off, whether opens after the script are cut off too, with the last call not made
/// and made, and the numbers of calls that the devices get.
#[derive(Clone, Copy)]
struct Plan {
    begins: bool,
    upkeep: Upkeep,
    cuts: &'static [Cut],
    opens: bool,
    calls: &'static [Result<u64, u64>],
}

/// While sessions begin the opening makes five calls: it reads the log, looks for a root twice, puts one and loads the
/// mark. The checkpoint makes four: an append, a store of the mark, a put and a renewal. There is an append for each range
/// of stamps or, in one batch, one before the checkpoint and one behind it.
const PLANS: [Plan; 4] = [
    Plan {
        begins: false,
        upkeep: ASKED,
        cuts: &CUTS,
        opens: true,
        calls: &[Ok(69), Ok(67), Ok(77), Ok(77), Ok(77), Ok(23), Ok(23)],
    },
    Plan {
        begins: false,
        upkeep: CHECKPOINTS,
        cuts: &CUTS,
        opens: true,
        calls: &[
            Ok(501),
            Ok(500),
            Ok(502),
            Ok(502),
            Ok(502),
            Ok(101),
            Ok(101),
        ],
    },
    Plan {
        begins: false,
        upkeep: BY_ITSELF,
        cuts: &CUTS,
        opens: true,
        calls: &[Ok(193), Ok(192), Ok(202), Ok(202), Ok(202), Ok(17), Ok(17)],
    },
    Plan {
        begins: true,
        upkeep: ASKED,
        cuts: &BEGIN_CUTS,
        opens: false,
        calls: &[Ok(12), Ok(12), Ok(11), Ok(11)],
    },
];

/// The script of a plan, and what comes with it.
fn trial_of(alloc: Global, plan: &Plan) -> Result<Trial, Refusal> {
    let script = if plan.begins {
        Script::of_begins(alloc)?
    } else {
        Script::new(alloc, plan.upkeep.merge.is_some())?
    };
    Trial::new(alloc, plan.upkeep, script)
}

/// The numbers of calls of a plan; or, as `Err`, the first call after which something is wrong.
fn calls_of(alloc: Global, plan: &Plan) -> Result<Vec<Result<u64, u64>>, Refusal> {
    let trial = trial_of(alloc, plan)?;
    let mut calls = Vec::new(alloc);
    for cut in plan.cuts {
        calls.push(trial.calls(*cut)?)?;
    }
    if plan.opens {
        calls.push(trial.open_calls(false)?)?;
        calls.push(trial.open_calls(true)?)?;
    }
    Ok(calls)
}

/// The numbers of calls of a plan, if they are not the right ones.
fn wrong_calls(alloc: Global, plan: &Plan) -> Result<Option<Vec<Result<u64, u64>>>, Refusal> {
    let calls = calls_of(alloc, plan)?;
    Ok((calls.as_slice() != plan.calls).then_some(calls))
}

#[test]
fn a_server_is_killed(rt: HostRuntime) -> Result<(), Fail> {
    let calls = wrong_calls(rt.alloc(), &PLANS[0])?;
    assert!(rt; calls.is_none(), "{calls:?}");
    Ok(())
}

#[test]
fn a_server_that_makes_checkpoints_is_killed(rt: HostRuntime) -> Result<(), Fail> {
    let calls = wrong_calls(rt.alloc(), &PLANS[1])?;
    assert!(rt; calls.is_none(), "{calls:?}");
    Ok(())
}

#[test]
fn a_server_that_merges_is_killed(rt: HostRuntime) -> Result<(), Fail> {
    let calls = wrong_calls(rt.alloc(), &PLANS[2])?;
    assert!(rt; calls.is_none(), "{calls:?}");
    Ok(())
}

#[test]
fn a_server_is_killed_while_sessions_begin(rt: HostRuntime) -> Result<(), Fail> {
    let calls = wrong_calls(rt.alloc(), &PLANS[3])?;
    assert!(rt; calls.is_none(), "{calls:?}");
    Ok(())
}
