//! The requests of sessions, made once.

use crate::server::RowServer;
use cell_key::Stamp;
use remote_rows::{SharedRows, SharedStamps};
use request_codec::{Reply, Request};
use si_model::ScanRange;

impl<R: SharedRows, S: SharedStamps> RowServer<R, S> {
    ghost use Rattle.row_server.specs.Answers.{IsMadeOnce};

    pub(crate) fn begin(&mut self) -> Reply
        ensures { IsMadeOnce R.Rows R.forgot R.raced S.Stamps S.allows self.old Request.Begin result
            self.new }
    {
        match self.clients.begin(&mut self.stamps) {
            Ok(start) => Reply::Begin(start),
            Err(refusal) => Reply::Refused(refusal),
        }
    }

    pub(crate) fn get(&mut self, start: Stamp, row: &[u8], family: &[u8]) -> Reply
        ensures { IsMadeOnce R.Rows R.forgot R.raced S.Stamps S.allows self.old
            (Request.Get start row.entry family.entry) result
            self.new }
    {
        match self.clients.get(&mut self.rows, start, row, family) {
            Ok(found) => Reply::Get(found),
            Err(refusal) => Reply::Refused(refusal),
        }
    }

    pub(crate) fn scan(
        &mut self,
        start: Stamp,
        range: ScanRange<'_>,
        keys_only: bool,
        cells: u32,
    ) -> Reply
        ensures { IsMadeOnce R.Rows R.forgot R.raced S.Stamps S.allows self.old
            (Request.Scan start range.entry keys_only cells)
            result self.new }
    {
        match self
            .clients
            .scan(&mut self.rows, start, range, keys_only, cells)
        {
            Ok(reply) => Reply::Scan(reply),
            Err(refusal) => Reply::Refused(refusal),
        }
    }

    pub(crate) fn set(&mut self, start: Stamp, row: &[u8], family: &[u8], value: &[u8]) -> Reply
        ensures { IsMadeOnce R.Rows R.forgot R.raced S.Stamps S.allows self.old
            (Request.Set start row.entry family.entry value.entry) result self.new }
    {
        match self.clients.set(start, row, family, value) {
            Ok(()) => Reply::Set,
            Err(refusal) => Reply::Refused(refusal),
        }
    }

    pub(crate) fn delete(&mut self, start: Stamp, row: &[u8], family: &[u8]) -> Reply
        ensures { IsMadeOnce R.Rows R.forgot R.raced S.Stamps S.allows self.old
            (Request.Delete start row.entry family.entry)
            result self.new }
    {
        match self.clients.delete(start, row, family) {
            Ok(()) => Reply::Delete,
            Err(refusal) => Reply::Refused(refusal),
        }
    }

    pub(crate) fn step(&mut self, start: Stamp) -> Reply
        ensures { IsMadeOnce R.Rows R.forgot R.raced S.Stamps S.allows self.old (Request.Step start)
            result self.new }
    {
        match self.clients.step(&mut self.rows, &mut self.stamps, start) {
            Ok(progress) => Reply::Step(progress),
            Err(refusal) => Reply::Refused(refusal),
        }
    }

    pub(crate) fn stop(&mut self, start: Stamp) -> Reply
        ensures { IsMadeOnce R.Rows R.forgot R.raced S.Stamps S.allows self.old (Request.Stop start)
            result self.new }
    {
        match self.clients.stop(start) {
            Ok(()) => Reply::Stop,
            Err(refusal) => Reply::Refused(refusal),
        }
    }
}
