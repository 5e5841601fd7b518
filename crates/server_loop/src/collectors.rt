//! The server's requests for collectors, one step of the snapshot machine each.

ghost use Rattle.std.specs.Prelude.{◌≡◌};
ghost use Rattle.request_codec.specs.Replies.{replied, HoldsWithinLimits};

use crate::server::Server;
use cell_key::Refusal;
use file_store::Files;
use oracle::MarkStore;
use request_codec::{Reply, Request};
use si_model::CollectReply;

/// The reply to a collector's accepted step. A cell that it names is within its limits.
fn collected(done: CollectReply) -> Reply
    ensures reply { result ≡ Reply.CollectStep done }
    ensures limits { HoldsWithinLimits (replied result) }
{
    if let CollectReply::Blocked(cell, _) = &done {
        // These calls show that row and family are within their limits.
        let _row = cell.row.as_bytes();
        let _family = cell.family.as_bytes();
    }
    Reply::CollectStep(done)
}

impl<F: Files + Drop, M: MarkStore + Drop> Server<F, M> {
    ghost use Rattle.server_loop.specs.Answer.{IsPlainAnswer};

    pub(crate) fn collect_begin(&mut self) -> Reply
        ensures { IsPlainAnswer F.Files M.MarkStore self.old Request.CollectBegin result self.new }
    {
        let floor = self.clients.floor();
        match self.collectors.begin(floor) {
            Ok(collector) => Reply::CollectBegin(collector, floor),
            Err(refusal) => Reply::Refused(refusal),
        }
    }

    pub(crate) fn collect_step(&mut self, collector: u64, visits: u32) -> Reply
        ensures { IsPlainAnswer F.Files M.MarkStore
            self.old (Request.CollectStep collector visits) result self.new }
    {
        match self.collectors.step(&mut self.rows, collector, visits) {
            Ok(done) => collected(done),
            Err(refusal) => Reply::Refused(refusal),
        }
    }
}
