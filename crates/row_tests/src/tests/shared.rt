//! Sessions of two servers over one source of stamps that neither of them knows.

use cell_key::{MOST_STAMP, Refusal, Stamp};
use row_atomic::PlainRows;
use rows::Stamps;
use si_model::{Found, Progress};
use std::alloc::{AllocError, Global};
use std::marker::Model;
use std::test::Fail;
use txn_client::Clients;

/// A source of stamps from which others draw nine between any two draws.
#[derive(Drop)]
struct Shared {
    last: Stamp,
}

impl Model for Shared {
    ghost use Rattle.std.specs.Prelude.{◌<◌, ◌^◌, ℕ};

    ghost Value = { ℕ };

    ghost view = { λ shared. shared.last };

    ghost invariant = { λ shared. shared.last < 2 ^ 63 };
}

impl Stamps for Shared {
    ghost use Rattle.std.specs.Prelude.{None, ⊤};

    ghost source = { record { last = λ last. last; known = λ _. None; leaves = λ _ _. ⊤ } };

    ghost faults = { λ _. 0 };

    fn known(&self) -> Option<Stamp> {
        None
    }

    fn draw(&mut self) -> Result<Stamp, Refusal> {
        if self.last > MOST_STAMP - 10 {
            return Err(Refusal::Exhausted);
        }
        self.last += 10;
        Ok(self.last)
    }
}

/// The sessions of two servers, the rows and the stamps that they share.
#[derive(Drop)]
struct Servers {
    first: Clients,
    second: Clients,
    rows: PlainRows,
    stamps: Shared,
}

/// Two servers without sessions, over no rows. In their box they are dropped by one call.
fn new_servers(alloc: Global) -> Result<Box<Servers>, AllocError> {
    let servers = Servers {
        first: Clients::new(alloc, 0),
        second: Clients::new(alloc, 0),
        rows: PlainRows::new(alloc),
        stamps: Shared { last: 0 },
    };
    Ok(Box::new(alloc, servers)?)
}

impl Servers {
    /// A step of a session of the first server: the stamp in its answer, or 0.
    fn step(&mut self, start: Stamp) -> Result<Stamp, Refusal> {
        match self.first.step(&mut self.rows, &mut self.stamps, start)? {
            Progress::Stamped(stamp) => Ok(stamp),
            Progress::Committed(stamp) => Ok(stamp),
            _ => Ok(0),
        }
    }

    /// A session of the first server sets a cell and commits. Its commit stamp.
    fn commit(&mut self) -> Result<Stamp, Refusal> {
        let start = self.first.begin(&mut self.stamps)?;
        self.first.set(start, b"bob", b"bal", b"7")?;
        self.step(start)?;
        self.step(start)?;
        self.step(start)
    }

    /// Begins a session of the second server.
    fn begin(&mut self) -> Result<Stamp, Refusal> {
        self.second.begin(&mut self.stamps)
    }

    /// The first byte that a session of the second server finds in that cell, or `-`.
    fn read(&mut self, start: Stamp) -> Result<u8, Refusal> {
        match self.second.get(&mut self.rows, start, b"bob", b"bal")? {
            Found::Value(value) => Ok(value.first().copied().unwrap_or(b' ')),
            Found::Nothing => Ok(b'-'),
            Found::Pending(_) => Ok(b'L'),
        }
    }
}

#[test]
fn reads_at_starts_that_were_drawn(rt: HostRuntime) -> Result<(), Fail> {
    let mut servers = new_servers(rt.alloc())?;
    let early = servers.begin()?;
    let commit = servers.commit()?;
    let late = servers.begin()?;
    assert!(rt; early == 10 && commit == 30 && late == 40);
    assert!(rt; servers.read(early)? == b'-');
    assert!(rt; servers.read(late)? == b'7');
    Ok(())
}
