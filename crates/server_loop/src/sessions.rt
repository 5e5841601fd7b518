//! The server's requests for sessions and the oracle, one step of the snapshot machine each.

use crate::server::Server;
use cell_key::{MOST_STAMP, Refusal, Stamp};
use file_store::Files;
use oracle::MarkStore;
use request_codec::{Reply, Request};

impl<F: Files + Drop, M: MarkStore + Drop> Server<F, M> {
    ghost use Rattle.server_loop.specs.Answer.{IsPlainAnswer};

    pub(crate) fn begin(&mut self) -> Reply
        ensures { IsPlainAnswer F.Files M.MarkStore self.old Request.Begin result self.new }
    {
        match self.clients.begin(&mut self.oracle) {
            Ok(start) => Reply::Begin(start),
            Err(refusal) => Reply::Refused(refusal),
        }
    }

    pub(crate) fn get(&mut self, start: Stamp, row: &[u8], family: &[u8]) -> Reply
        ensures { IsPlainAnswer F.Files M.MarkStore self.old
            (Request.Get start row.entry family.entry) result self.new }
    {
        match self.clients.get(&mut self.rows, start, row, family) {
            Ok(found) => Reply::Get(found),
            Err(refusal) => Reply::Refused(refusal),
        }
    }

    pub(crate) fn set(&mut self, start: Stamp, row: &[u8], family: &[u8], value: &[u8]) -> Reply
        ensures { IsPlainAnswer F.Files M.MarkStore self.old
            (Request.Set start row.entry family.entry value.entry) result self.new }
    {
        match self.clients.set(start, row, family, value) {
            Ok(()) => Reply::Set,
            Err(refusal) => Reply::Refused(refusal),
        }
    }

    pub(crate) fn delete(&mut self, start: Stamp, row: &[u8], family: &[u8]) -> Reply
        ensures { IsPlainAnswer F.Files M.MarkStore self.old
            (Request.Delete start row.entry family.entry) result self.new }
    {
        match self.clients.delete(start, row, family) {
            Ok(()) => Reply::Delete,
            Err(refusal) => Reply::Refused(refusal),
        }
    }

    pub(crate) fn step(&mut self, start: Stamp) -> Reply
        ensures { IsPlainAnswer F.Files M.MarkStore self.old (Request.Step start) result self.new }
    {
        match self.clients.step(&mut self.rows, &mut self.oracle, start) {
            Ok(progress) => Reply::Step(progress),
            Err(refusal) => Reply::Refused(refusal),
        }
    }

    pub(crate) fn stop(&mut self, start: Stamp) -> Reply
        ensures { IsPlainAnswer F.Files M.MarkStore self.old (Request.Stop start) result self.new }
    {
        match self.clients.stop(start) {
            Ok(()) => Reply::Stop,
            Err(refusal) => Reply::Refused(refusal),
        }
    }

    pub(crate) fn restart(&mut self) -> Reply
        ensures { IsPlainAnswer F.Files M.MarkStore self.old Request.OracleRestart result self.new }
    {
        match self.oracle.restart() {
            Ok(()) => Reply::OracleRestart,
            Err(refusal) => Reply::Refused(refusal),
        }
    }
}
