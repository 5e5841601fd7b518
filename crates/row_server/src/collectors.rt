//! The requests of collectors, made once.

ghost use Rattle.std.specs.Prelude.{◌≡◌};
ghost use Rattle.request_codec.specs.Replies.{replied, HoldsWithinLimits};
ghost use Rattle.row_server.specs.Visits.{visits_of};

use crate::server::{RowServer, publish_floor};
use remote_rows::{SharedRows, SharedStamps};
use request_codec::{Reply, Request};
use si_model::CollectReply;

/// The most visits that may be asked for.
const MOST_VISITS: u32 = 1000;

/// The number of visits that are made for a request of so many: one, or a number that is refused. A visit is a step of
/// its own, on one row.
fn one_visit(visits: u32) -> u32
    ensures { result ≡ visits_of visits }
{
    if visits == 0 || visits > MOST_VISITS {
        return visits;
    }
    1
}

/// The reply to a collector's accepted step. A cell that it names is within its limits.
fn collected(done: CollectReply) -> Reply
    ensures reply { result ≡ Reply.CollectStep done }
    ensures limits { HoldsWithinLimits (replied result) }
{
    if let CollectReply::Blocked(cell, _) = &done {
        // These calls show that row and family are within their limits.
        let _row = cell.row.as_bytes();
        let _family = cell.family.as_bytes();
    }
    Reply::CollectStep(done)
}

impl<R: SharedRows, S: SharedStamps> RowServer<R, S> {
    ghost use Rattle.row_server.specs.Answers.{IsMadeOnce};

    pub(crate) fn collect_begin(&mut self) -> Reply
        ensures { IsMadeOnce R.Rows R.forgot R.raced S.Stamps S.allows self.old Request.CollectBegin
            result self.new }
    {
        let floor = match publish_floor(&mut self.stamps, &self.clients) {
            Ok(floor) => floor,
            Err(refusal) => return Reply::Refused(refusal),
        };
        match self.collectors.begin(floor) {
            Ok(collector) => Reply::CollectBegin(collector, floor),
            Err(refusal) => Reply::Refused(refusal),
        }
    }

    pub(crate) fn collect_step(&mut self, collector: u64, visits: u32) -> Reply
        ensures { IsMadeOnce R.Rows R.forgot R.raced S.Stamps S.allows self.old
            (Request.CollectStep collector visits) result
            self.new }
    {
        match self
            .collectors
            .step(&mut self.rows, collector, one_visit(visits))
        {
            Ok(done) => collected(done),
            Err(refusal) => Reply::Refused(refusal),
        }
    }
}
