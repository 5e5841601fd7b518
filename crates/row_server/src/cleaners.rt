//! The requests of cleaners, made once.

use crate::server::RowServer;
use remote_rows::{SharedRows, SharedStamps};
use request_codec::{Reply, Request};

impl<R: SharedRows, S: SharedStamps> RowServer<R, S> {
    ghost use Rattle.row_server.specs.Answers.{IsMadeOnce};

    pub(crate) fn clean_begin(&mut self, row: &[u8], family: &[u8]) -> Reply
        ensures { IsMadeOnce R.Rows R.forgot R.raced S.Stamps S.allows self.old
            (Request.CleanBegin row.entry family.entry) result
            self.new }
    {
        match self.cleaners.begin(&mut self.rows, row, family) {
            Ok(found) => Reply::CleanBegin(found),
            Err(refusal) => Reply::Refused(refusal),
        }
    }

    pub(crate) fn clean_step(&mut self, cleaner: u64) -> Reply
        ensures { IsMadeOnce R.Rows R.forgot R.raced S.Stamps S.allows self.old
            (Request.CleanStep cleaner) result self.new }
    {
        match self.cleaners.step(&mut self.rows, cleaner) {
            Ok(done) => Reply::CleanStep(done),
            Err(refusal) => Reply::Refused(refusal),
        }
    }
}
