//! The server, and one attempt of a request.

ghost use Rattle.std.specs.Prelude.{◌≡◌, ◌≤◌, ℕ, true, false, IfErr, IfOk, IsSome};
ghost use Rattle.cell_key.specs.Faults.{HasReason};
ghost use Rattle.request_codec.specs.Replies.{replied};
ghost use Rattle.rows.specs.Sources.{IsDrawRefusal};
ghost use Rattle.server_loop.specs.Runs.{IfRefused};
ghost use Rattle.row_server.specs.Server.{IsOwnFloor};
ghost use Rattle.servers_model.specs.Servers.{IsNew};
ghost use Rattle.servers_model.specs.Serves.{MayPublish};
ghost use Rattle.si_model.specs.Machine.{State, new_machine};
ghost use Rattle.std.specs.FinMap.{empty};

use cell_key::{Refusal, Stamp};
use clean_up::Cleaners;
use remote_rows::{SharedRows, SharedStamps};
use request_codec::{Reply, Request};
use servers_model::start;
use std::alloc::Global;
use txn_client::Clients;
use version_collector::Collectors;

/// A server over rows and stamps that other servers use too: its own sessions, cleaners and collectors.
///
/// Each request is one step, on one row at most or on one stamp; only a scan reads more. A request whose row others
/// changed while it was answered is made again.
#[derive(Drop)]
pub struct RowServer<R, S> {
    pub(crate) alloc: Global,
    pub(crate) rows: R,
    pub(crate) stamps: S,
    pub(crate) clients: Clients,
    pub(crate) cleaners: Cleaners,
    pub(crate) collectors: Collectors,
    /// How many answers were given, modulo 2^32.
    pub(crate) answered: u32,
}

/// Publishes a floor of these sessions, and returns the least of the floors of all servers.
///
/// # Errors
///
/// `Device` or `Exhausted`, as for `SharedStamps::publish`.
pub(crate) fn publish_floor<S: SharedStamps>(
    stamps: &mut S,
    clients: &Clients,
) -> Result<Stamp, Refusal>
    ensures low { IfOk result (λ least. (floor : ℕ) × MayPublish clients.now floor
        × (least ≤ floor)) }
    ensures allowed { IfOk result (S.allows stamps.new) }
    // If nobody else draws, it is the floor of these sessions.
    ensures alone { IsSome (S.source.known stamps.old) → IfOk result (IsOwnFloor clients.now) }
    ensures last { S.source.last stamps.new ≡ S.source.last stamps.old }
    ensures known { S.source.known stamps.new ≡ S.source.known stamps.old }
    ensures refusal { IfErr result IsDrawRefusal }
    ensures reason { HasReason (S.faults stamps.old) (S.faults stamps.new) result }
{
    let floor = clients.floor();
    stamps.publish(floor)
}

impl<R: SharedRows, S: SharedStamps> RowServer<R, S> {
    ghost use Rattle.row_server.specs.Server.{Shows, StaysKnown, is_lost, memory_of};
    ghost use Rattle.row_server.specs.Answers.{IsAttempt, IsMadeOnce, IsUnoffered};

    /// A server without sessions, cleaners and collectors.
    pub fn new(alloc: Global, rows: R, stamps: S) -> RowServer<R, S>
        ensures new { IsNew (memory_of result) }
        ensures rows { result.rows ≡ rows }
        ensures stamps { result.stamps ≡ stamps }
        // Over an empty store that nobody else uses it shows the machine's first state.
        ensures shown { R.seen.holds rows → R.seen.cells rows ≡ empty → StaysKnown S.source stamps
            → Shows R.seen S.source result new_machine }
    {
        let (clients, cleaners, collectors) = start(alloc);
        RowServer {
            alloc,
            rows,
            stamps,
            clients,
            cleaners,
            collectors,
            answered: 0,
        }
    }

    /// Limits the bytes of the writes that all sessions buffer: their rows, families and values. A Set or a Delete that
    /// makes them more than they are, and more than `most`, is refused `NoMemory`. Without this call there is no limit.
    pub fn limit_buffer(&mut self, most: u64)
        ensures { self.new ≡ record self.old {
          clients = record self.old.clients { most_buffered = most };
        } }
    {
        self.clients.limit_buffer(most);
    }

    /// Whether the rows or the stamps are lost for good.
    pub(crate) fn is_lost(&self) -> bool
        ensures { result ≡ is_lost R.lost S.lost self.now }
    {
        self.rows.is_lost() || self.stamps.is_lost()
    }

    /// The refusal of what isn't offered: BadRequest, or Device if nobody else draws stamps, since the machine refuses
    /// no well-formed request with BadRequest.
    pub(crate) fn unoffered(&self) -> Refusal
        ensures { IsUnoffered (S.source.known self.now.stamps) result }
    {
        match self.stamps.known() {
            Some(_) => Refusal::Device,
            None => Refusal::BadRequest,
        }
    }

    /// Makes a request once, over the rows as they are read during it.
    fn take(&mut self, request: Request<'_>) -> Reply
        ensures { IsMadeOnce R.Rows R.forgot R.raced S.Stamps S.allows self.old request.entry result
            self.new }
    {
        match request {
            Request::Begin => self.begin(),
            Request::Get { start, row, family } => self.get(start, row, family),
            Request::Set {
                start,
                row,
                family,
                value,
            } => self.set(start, row, family, value),
            Request::Delete { start, row, family } => self.delete(start, row, family),
            Request::Scan {
                start,
                range,
                keys_only,
                cells,
            } => self.scan(start, range, keys_only, cells),
            Request::Step { start } => self.step(start),
            Request::Stop { start } => self.stop(start),
            Request::CleanBegin { row, family } => self.clean_begin(row, family),
            Request::CleanStep { cleaner } => self.clean_step(cleaner),
            Request::CollectBegin => self.collect_begin(),
            Request::CollectStep { collector, visits } => self.collect_step(collector, visits),
            _ => Reply::Refused(self.unoffered()),
        }
    }

    /// Makes a request once. What was read before is forgotten.
    pub(crate) fn attempt(&mut self, request: Request<'_>) -> Reply
        ensures { IsAttempt R.Rows R.forgot R.raced S.Stamps S.allows self.old request.entry result
            self.new }
    {
        self.rows.forget();
        self.take(request)
    }

    /// Whether a request is to be made again: it was refused, and a row of it had changed since it was read.
    pub(crate) fn is_raced(&self, reply: &Reply) -> bool
        ensures refused { result ≡ true
            → (refusal : Refusal) × (reply.now ≡ Reply.Refused refusal) }
        ensures raced { result ≡ true → R.raced self.now.rows ≡ true }
        ensures calm { result ≡ false
            → IfRefused (λ _. R.raced self.now.rows ≡ false) (replied reply.now) }
    {
        matches!(reply, Reply::Refused(_)) && self.rows.is_raced()
    }
}
