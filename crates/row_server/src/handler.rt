//! The server as a `Handler`, so that the loop of `server_loop` serves it, to one client or to several.

ghost use Rattle.std.specs.Prelude.{◌≡◌};
ghost use Rattle.row_server.specs.Server.{MayLeave, MayNotLeave};

use crate::server::{RowServer, publish_floor};
use ownership::Name;
use remote_rows::{SharedRows, SharedStamps};
use request_codec::{Answer, Operation, Reply, Request};
use server_loop::{FrameHandler, Handler, Incoming, Lookup, ServeFault, answer_incoming};

/// How often a request is made at most.
const MOST_ATTEMPTS: u32 = 1_000;

/// How many answers are given between two floors that are published.
const BETWEEN_FLOORS: u32 = 4_096;

impl<R: SharedRows, S: SharedStamps> Handler for RowServer<R, S> {
    ghost use Rattle.row_server.specs.Answers.{IsAnswerTo, IsTended};
    ghost use Rattle.row_server.specs.Server.{Shows};

    ghost shows = { Shows R.seen S.source };

    ghost says = { IsAnswerTo R.Rows R.forgot R.raced S.Stamps S.allows };

    ghost between = { IsTended S.source };

    /// Makes the request, and makes it again as long as it is refused because others changed its row, at most 1,000
    /// times.
    fn reply_to(&mut self, request: Request<'_>) -> Reply {
        let mut left = MOST_ATTEMPTS;
        loop {
            let reply = self.attempt(request);
            if !self.is_raced(&reply) {
                return reply;
            }
            left -= 1;
            if left == 0 {
                return reply;
            }
        }
    }

    fn answer_to(&mut self, operation: Operation<'_>) -> Answer {
        let Operation::One(request) = operation else {
            return Answer::Said(Reply::Refused(self.unoffered()));
        };
        Answer::Said(self.reply_to(request))
    }

    /// Publishes the floor of this server's sessions after each 4,096 answers. A failure isn't reported.
    fn tend(&mut self) {
        self.answered = self.answered.wrapping_add(1);
        if self.answered % BETWEEN_FLOORS == 0 {
            let _least = publish_floor(&mut self.stamps, &self.clients);
        }
    }
}

impl<R: SharedRows, S: SharedStamps> FrameHandler for RowServer<R, S> {
    ghost use Rattle.std.proofs.Common.{◌≡◌, inl, inr, subst, sym};
    ghost use Rattle.server_loop.specs.Batches.{IsAnswered};
    ghost use Rattle.row_server.specs.Answers.{IsAnswerTo, IsTended};
    ghost use Rattle.row_server.specs.Server.{Shows};

    ghost answers = { IsAnswered (Shows R.seen S.source)
        (IsAnswerTo R.Rows R.forgot R.raced S.Stamps S.allows) (IsTended S.source) };

    ghost settles = { MayLeave R.lost S.lost };

    ghost fails = { MayNotLeave R.lost S.lost };

    ghost joins = { λ first mid new taken body is after. elim after [
      | inl kept ↦ subst (λ server. IsAnswered (Shows R.seen S.source)
          (IsAnswerTo R.Rows R.forgot R.raced S.Stamps S.allows) (IsTended S.source)
          first taken body server)
          (sym kept.0) is
      | inr lost ↦ subst (λ server. IsAnswered (Shows R.seen S.source)
          (IsAnswerTo R.Rows R.forgot R.raced S.Stamps S.allows) (IsTended S.source)
          first taken body server)
          (sym lost.0) is
    ] };

    fn answer(&mut self, incoming: Incoming<'_>, waiting: &mut Vec<u8>) {
        answer_incoming(self.alloc, self, incoming, waiting);
    }

    /// No answer leaves once the rows or the stamps are lost.
    fn settle(&mut self) -> Result<(), ServeFault> {
        if self.is_lost() {
            return Err(ServeFault::Log);
        }
        Ok(())
    }
}

impl<R: SharedRows, S: SharedStamps> Lookup for RowServer<R, S> {
    ghost use Rattle.std.proofs.Common.{◌≡◌, inl, inr, subst, sym};
    ghost use Rattle.row_server.specs.Answers.{IsTended};
    ghost use Rattle.row_server.specs.Server.{Shows};

    ghost stops = { λ old new start reply said. said.last.made.served.refusal };

    ghost belongs = { λ first mid new tended after. elim after [
      | inl kept ↦ subst (λ server. IsTended S.source first server) (sym kept.0) tended
      | inr lost ↦ subst (λ server. IsTended S.source first server) (sym lost.0) tended
    ] };

    ghost stays = { λ old new after. elim after [
      | inl kept ↦ λ st shown. subst (λ server. Shows R.seen S.source server st) (sym kept.0) shown
      | inr lost ↦ λ st shown. subst (λ server. Shows R.seen S.source server st) (sym lost.0) shown
    ] };

    fn is_open(&self, name: Name) -> bool {
        match name {
            Name::Session(start) => self.clients.is_active(start),
            Name::Cleaner(number) => self.cleaners.is_open(number),
            Name::Collector(number) => self.collectors.is_open(number),
        }
    }
}
