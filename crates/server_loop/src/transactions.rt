//! The server's requests for several cells: a transaction, and reads, with nothing between.

ghost use Rattle.si_model.specs.Answers.{cells_named, writes_named};

use crate::server::Server;
use cell_key::{Refusal, Stamp};
use file_store::Files;
use oracle::MarkStore;
use request_codec::{Answer, Reply};
use row_atomic::root_is_stored;
use si_model::{CellName, CellWrite};

impl<F: Files + Drop, M: MarkStore + Drop> Server<F, M> {
    ghost use Rattle.server_loop.specs.Operations.{IsCommitAnswer, IsPlainCommit, IsPlainRead, IsReadAnswer};

    fn take_commit(&mut self, start: Stamp, writes: &[CellWrite<'_>]) -> Answer
        ensures { IsPlainCommit F.Files M.MarkStore self.old start (writes_named writes.now)
            result self.new }
    {
        match self
            .clients
            .commit(&mut self.rows, &mut self.oracle, start, writes)
        {
            Ok(reply) => Answer::Commit(reply),
            Err(refusal) => Answer::Said(Reply::Refused(refusal)),
        }
    }

    fn take_read(&mut self, start: Stamp, cells: &[CellName<'_>], stays_open: bool) -> Answer
        ensures { IsPlainRead F.Files M.MarkStore self.old start (cells_named cells.now) stays_open
            result self.new }
    {
        match self
            .clients
            .read(&mut self.rows, &mut self.oracle, start, cells, stays_open)
        {
            Ok(reply) => Answer::Read(reply),
            Err(refusal) => Answer::Said(Reply::Refused(refusal)),
        }
    }

    /// Commits writes in the session of a start, behind those that it has, or in a new one if the start is 0.
    pub(crate) fn commit(&mut self, start: Stamp, writes: &[CellWrite<'_>]) -> Answer
        ensures { IsCommitAnswer F.Files M.MarkStore self.old start (writes_named writes.now)
            result self.new }
    {
        root_is_stored::<F>();
        let answer = self.take_commit(start, writes);
        // This call shows that the last stamp is within the mark.
        let _last = self.oracle.last();
        answer
    }

    /// Reads cells in such a session, which then stays open or ends.
    pub(crate) fn read(&mut self, start: Stamp, cells: &[CellName<'_>], stays_open: bool) -> Answer
        ensures { IsReadAnswer F.Files M.MarkStore self.old start (cells_named cells.now) stays_open
            result self.new }
    {
        root_is_stored::<F>();
        let answer = self.take_read(start, cells, stays_open);
        // This call shows that the last stamp is within the mark.
        let _last = self.oracle.last();
        answer
    }

    /// An upper bound of the bytes that the edits of such a transaction take in the journal.
    pub fn commit_bytes(&self, start: Stamp, writes: &[CellWrite<'_>]) -> usize {
        self.clients.commit_bytes(start, writes)
    }
}
