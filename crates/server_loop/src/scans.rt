//! The server's scans: one step of the snapshot machine each.

use crate::server::Server;
use cell_key::Stamp;
use file_store::Files;
use oracle::MarkStore;
use request_codec::{Reply, Request};
use si_model::ScanRange;

impl<F: Files + Drop, M: MarkStore + Drop> Server<F, M> {
    ghost use Rattle.server_loop.specs.Answer.{IsPlainAnswer};

    pub(crate) fn scan(
        &mut self,
        start: Stamp,
        range: ScanRange<'_>,
        keys_only: bool,
        cells: u32,
    ) -> Reply
        ensures { IsPlainAnswer F.Files M.MarkStore self.old
            (Request.Scan start range.entry keys_only cells) result self.new }
    {
        match self
            .clients
            .scan(&mut self.rows, start, range, keys_only, cells)
        {
            Ok(reply) => Reply::Scan(reply),
            Err(refusal) => Reply::Refused(refusal),
        }
    }
}
