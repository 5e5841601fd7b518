//! Sessions over rows in memory.

use crate::tests::memory::clusters::newest;
use cell_key::{Refusal, Stamp};
use oracle::{MemMark, Oracle};
use row_atomic::PlainRows;
use si_model::{
    CellName, CellWrite, CommitReply, Found, Progress, ScanFound, ScanRange, ScanReach,
};
use std::alloc::Global;
use testing::memory::{Call, Subject, Table};
use txn_client::Clients;

/// Sessions: session 1 has committed `a` and `n` at 2, 3 holds the lock of `b`, 4 has a write of `n`, 5 has a write of
/// `b`, and 6 reads.
#[derive(Drop)]
pub struct Sessions {
    clients: Clients,
    rows: PlainRows,
    oracle: Oracle<MemMark>,
}

/// The state read after a call: `a` and `b` by session 6, the newest data of `a`, `b` and `n`, and the top.
const CALLS: [Call; 16] = [
    // begin
    (b"\x07", b"1L162\x07"),
    // get of a value
    (b"1", b"1L162\x06"),
    // get of a lock
    (b"L", b"1L162\x06"),
    // set of another cell
    (b"", b"1L162\x06"),
    // set of the same cell
    (b"", b"1L162\x06"),
    // step that draws
    (b"\x03\x07", b"1L162\x07"),
    // step that locks
    (b"\x01\x01", b"1L168\x06"),
    // step that meets a lock
    (b"\x02\x01", b"1L162\x06"),
    // stop
    (b"", b"1L162\x06"),
    // delete of another cell
    (b"", b"1L162\x06"),
    // delete of the same cell
    (b"", b"1L162\x06"),
    // scan of all cells
    (b"1L2.", b"1L162\x06"),
    // scan of two cells
    (b"1L+", b"1L162\x06"),
    // commit of a session with a write
    (b"\x04\x07", b"1L768\x07"),
    // commit of a session that meets a lock
    (b"\x05\x01", b"1L162\x06"),
    // commit in a new session
    (b"\x07\x08", b"1L762\x08"),
];

/// An oracle with its mark in memory, and nothing drawn.
pub fn new_oracle(mark: MemMark) -> Result<Oracle<MemMark>, Refusal> {
    match Oracle::open(mark) {
        Ok(oracle) => Ok(oracle),
        Err((refusal, _)) => Err(refusal),
    }
}

/// The result of a step, and the lowest byte of its cell or stamp.
fn told(progress: Progress) -> [u8; 2] {
    let (kind, number) = match progress {
        Progress::Held(cell, _) => (1, u64::from(cell)),
        Progress::Conflict(cell) => (2, u64::from(cell)),
        Progress::Stamped(stamp) => (3, stamp),
        Progress::Committed(stamp) => (4, stamp),
        Progress::Lost => (5, 0),
        Progress::Finished(cell, _) => (6, u64::from(cell)),
    };
    [kind, (number % 256) as u8]
}

/// The value that session 6 finds at a row.
fn get(clients: &mut Clients, rows: &mut PlainRows, row: &[u8]) -> Result<u8, Refusal> {
    match clients.get(rows, 6, row, b"bal")? {
        Found::Value(value) => Ok(value.first().copied().unwrap_or(b' ')),
        Found::Nothing => Ok(b'-'),
        Found::Pending(_) => Ok(b'L'),
    }
}

/// The cells in a scan of session 6: the first byte of a value, L for a lock, then a point at the end of all cells, or
/// a plus.
fn scan(
    alloc: Global,
    clients: &mut Clients,
    rows: &mut PlainRows,
    cells: u32,
) -> Result<Vec<u8>, Refusal> {
    let range = ScanRange {
        after: None,
        end: None,
        family: None,
    };
    let reply = clients.scan(rows, 6, range, false, cells)?;
    let mut out = Vec::new(alloc);
    for item in &reply.items {
        out.push(match &item.found {
            ScanFound::Value(value) => value.first().copied().unwrap_or(b' '),
            ScanFound::Pending(_) => b'L',
            ScanFound::Unsent => b'U',
        })?;
    }
    out.push(match reply.reach {
        ScanReach::End => b'.',
        ScanReach::More(_) => b'+',
    })?;
    Ok(out)
}

/// The sets of the sessions.
const SETS: [(Stamp, &[u8], &[u8]); 5] = [
    (1, b"a", b"1"),
    (1, b"n", b"2"),
    (3, b"b", b"6"),
    (4, b"n", b"8"),
    (5, b"b", b"9"),
];

impl Sessions {
    /// Begins this many sessions, makes their sets, and runs the steps of one.
    fn begin(&mut self, count: u8, starts: (Stamp, Stamp), steps: u8) -> Result<(), Refusal> {
        for _ in 0..count {
            self.start()?;
        }
        for (start, row, value) in SETS {
            if start >= starts.0 && start <= starts.1 {
                self.set(start, row, value)?;
            }
        }
        for _ in 0..steps {
            self.step(starts.0)?;
        }
        Ok(())
    }

    /// Begins a session; answers the lowest byte of its start.
    fn start(&mut self) -> Result<u8, Refusal> {
        Ok((self.clients.begin(&mut self.oracle)? % 256) as u8)
    }

    /// Sets a cell of a session.
    fn set(&mut self, start: Stamp, row: &[u8], value: &[u8]) -> Result<(), Refusal> {
        self.clients.set(start, row, b"bal", value)
    }

    /// Deletes a cell of session 4.
    fn delete(&mut self, row: &[u8]) -> Result<(), Refusal> {
        self.clients.delete(4, row, b"bal")
    }

    /// The result of a step of a session.
    fn step(&mut self, start: Stamp) -> Result<[u8; 2], Refusal> {
        let progress = self.clients.step(&mut self.rows, &mut self.oracle, start)?;
        Ok(told(progress))
    }

    /// The result of a commit that sets `a` too: the lowest bytes of its start, and of its stamp or of the place of a lock.
    fn commit(&mut self, start: Stamp) -> Result<[u8; 2], Refusal> {
        let cell = CellName {
            row: b"a",
            family: b"bal",
        };
        let write = CellWrite {
            cell,
            value: Some(b"7"),
        };
        let oracle = &mut self.oracle;
        match self
            .clients
            .commit(&mut self.rows, oracle, start, &[write])?
        {
            CommitReply::Committed(start, stamp) => Ok([(start % 256) as u8, (stamp % 256) as u8]),
            CommitReply::Conflict(start, place) => Ok([(start % 256) as u8, (place % 256) as u8]),
        }
    }

    /// The calls without an answer.
    fn call(&mut self, number: usize) -> Result<(), Refusal> {
        match number {
            3 => self.set(4, b"a", b"7"),
            4 => self.set(4, b"n", b"7"),
            8 => self.clients.stop(3),
            9 => self.delete(b"a"),
            _ => self.delete(b"n"),
        }
    }
}

pub const SESSIONS: Table = (b"1L162\x06", &CALLS);

impl Subject for Sessions {
    fn set_up(alloc: Global) -> Result<Sessions, Refusal> {
        let mut sessions = Sessions {
            clients: Clients::new(alloc, 0),
            rows: PlainRows::new(alloc),
            oracle: new_oracle(MemMark::new())?,
        };
        sessions.begin(1, (1, 2), 5)?;
        sessions.begin(4, (3, 6), 1)?;
        Ok(sessions)
    }

    fn answers(&mut self, alloc: Global, number: usize, wanted: &[u8]) -> Result<bool, Refusal> {
        match number {
            0 => Ok(wanted == [self.start()?].as_slice()),
            1 => Ok(wanted == [get(&mut self.clients, &mut self.rows, b"a")?].as_slice()),
            2 => Ok(wanted == [get(&mut self.clients, &mut self.rows, b"b")?].as_slice()),
            5 => Ok(wanted == self.step(3)?.as_slice()),
            6 => Ok(wanted == self.step(4)?.as_slice()),
            7 => Ok(wanted == self.step(5)?.as_slice()),
            11 => Ok(wanted == scan(alloc, &mut self.clients, &mut self.rows, 10)?.as_slice()),
            12 => Ok(wanted == scan(alloc, &mut self.clients, &mut self.rows, 2)?.as_slice()),
            13 => Ok(wanted == self.commit(4)?.as_slice()),
            14 => Ok(wanted == self.commit(5)?.as_slice()),
            15 => Ok(wanted == self.commit(0)?.as_slice()),
            _ => {
                self.call(number)?;
                Ok(wanted.is_empty())
            }
        }
    }

    fn read(&mut self, alloc: Global) -> Result<Vec<u8>, Refusal> {
        let first = get(&mut self.clients, &mut self.rows, b"a")?;
        let second = get(&mut self.clients, &mut self.rows, b"b")?;
        let mut out = vec![in alloc; first, second]?;
        for row in [b'a', b'b', b'n'] {
            out.push(newest(alloc, &mut self.rows, row)?)?;
        }
        out.push((self.clients.top() % 256) as u8)?;
        Ok(out)
    }
}
