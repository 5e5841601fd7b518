//! The server's requests for cleaners, one step of the snapshot machine each.

use crate::server::Server;
use cell_key::Refusal;
use file_store::Files;
use oracle::MarkStore;
use request_codec::{Reply, Request};

impl<F: Files + Drop, M: MarkStore + Drop> Server<F, M> {
    ghost use Rattle.server_loop.specs.Answer.{IsPlainAnswer};

    pub(crate) fn clean_begin(&mut self, row: &[u8], family: &[u8]) -> Reply
        ensures { IsPlainAnswer F.Files M.MarkStore self.old
            (Request.CleanBegin row.entry family.entry) result self.new }
    {
        match self.cleaners.begin(&mut self.rows, row, family) {
            Ok(found) => Reply::CleanBegin(found),
            Err(refusal) => Reply::Refused(refusal),
        }
    }

    pub(crate) fn clean_step(&mut self, cleaner: u64) -> Reply
        ensures { IsPlainAnswer F.Files M.MarkStore self.old
            (Request.CleanStep cleaner) result self.new }
    {
        match self.cleaners.step(&mut self.rows, cleaner) {
            Ok(done) => Reply::CleanStep(done),
            Err(refusal) => Reply::Refused(refusal),
        }
    }
}
