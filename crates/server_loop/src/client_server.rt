//! A server for several clients over one stream: each has its own sessions, cleaners and collectors.

ghost use Rattle.std.specs.Prelude.{◌≡◌, ◌≤◌, ◌<◌, ◌+◌, ◌++◌, ◌&&◌, ◌⊎◌, List, ℕ, true, false, not, length, vec_capacity};
ghost use Rattle.cell_key.specs.declared.refusals.Refusal.TheVariants.{UnknownSession};
ghost use Rattle.si_model.specs.Machine.{State};
ghost use Rattle.request_codec.specs.Operations.{operation_of};
ghost use Rattle.request_codec.specs.Replies.{replied};
ghost use Rattle.request_codec.specs.Stream.{frame};
ghost use Rattle.request_codec.specs.declared.answers.Answer.TheVariants as told;
ghost use Rattle.request_codec.specs.declared.operations.Operation.TheVariants as lent;
ghost use Rattle.request_codec.specs.declared.replies.Reply.{Reply as CodecReply};
ghost use Rattle.request_codec.specs.declared.requests.Request.TheVariants as sent;
ghost use Rattle.ownership.specs.Frames.{IsBodyOf};
ghost use Rattle.ownership.specs.Names.{is_name, is_open};
ghost use Rattle.ownership.specs.Tables.{held_in, owns, table_of};
ghost use Rattle.ownership.specs.Turns.{Frame as FrameOf, Asks};
ghost use Rattle.ownership.specs.declared.names.Name.{Name as NameOf};
ghost use Rattle.server_loop.specs.Batches.{taken_by};
ghost use Rattle.server_loop.specs.Clients.{EndsClient, IsAnsweredTo, IsFrameOf, RepliesTo, ServesClients, SettlesOwned, ShowsOwned, StopsEach, StopsOne};
ghost use Rattle.server_loop.specs.Runs.{IfRefused};

use crate::frame_loop::{FrameHandler, Handler, Incoming, LONGEST_FRAME, serve_all};
use crate::frames::{push_client_frame, push_refusal};
use crate::statuses::{End, ServeFault};
use cell_key::Refusal;
use ownership::{Name, Owners, given_kind, may_close, may_end, named, split_client};
use request_codec::{Answer, Operation, Reply, Request, decode_operation};
use std::alloc::Global;
use std::io::{Read, Write};

/// An answering server that says what is open.
pub trait Lookup: Handler + FrameHandler {
    /// Whether this is open.
    fn is_open(&self, name: Name) -> bool
        ensures { (st : State) → Self.shows self.now st → result ≡ is_open st name };

    /// Only a Stop of a session that isn't there is refused.
    ghost stops: { (old new : Self) (start : ℕ) (reply : CodecReply)
        → Self.says old (lent.One (sent.Stop start)) (told.Said reply) new
        → IfRefused (λ refusal. refusal ≡ UnknownSession) (replied reply) };

    /// Settling belongs to the upkeep before it.
    ghost belongs: { (first mid new : Self) → Self.between first mid
        → Self.settles mid new ⊎ Self.fails mid new → Self.between first new };

    /// It keeps showing each state that it shows.
    ghost stays: { (old new : Self) → Self.settles old new ⊎ Self.fails old new
        → (st : State) → Self.shows old st → Self.shows new st };
}

/// A server, and which client's is what is open there.
#[derive(Drop)]
pub struct ClientServer<A> {
    pub(crate) alloc: Global,
    pub(crate) server: A,
    pub(crate) owners: Owners,
    /// The client that may ask for upkeep, if no other may.
    pub(crate) admin: Option<u32>,
}

impl<A: Lookup> ClientServer<A> {
    /// A server where nothing is open. With an administrator, only that client may ask for upkeep and raw reads.
    pub fn new(alloc: Global, server: A, admin: Option<u32>) -> ClientServer<A>
        ensures shown { (st : State) → A.shows server st
            → ((name : NameOf) → is_open st name ≡ false) → ShowsOwned A.shows result st }
        ensures server { result.server ≡ server }
        ensures admin { result.admin ≡ admin }
    {
        ClientServer {
            alloc,
            server,
            owners: Owners::new(alloc),
            admin,
        }
    }

    /// What was named, if it may have been closed and is open no more.
    fn closed(&self, closes: bool, name: Option<Name>) -> Option<Name>
        ensures named { (n : NameOf) → is_name result n ≡ true → (closes && is_name name n) ≡ true }
        ensures ended { (st : State) → A.shows self.now.server st → (n : NameOf)
            → is_name result n ≡ (closes && (is_name name n && not (is_open st n))) }
    {
        let name = name?;
        if !closes || self.server.is_open(name) {
            return None;
        }
        Some(name)
    }

    /// Answers an operation of a client, and appends the frame of the reply to those that wait.
    fn ask(&mut self, client: u32, operation: Operation<'_>, waiting: &mut Vec<u8>)
        requires room { length waiting.old.items + LONGEST_FRAME ≤ vec_capacity waiting.old }
        ensures replies { RepliesTo A.shows A.says (Asks client (operation_of operation.entry))
            self.old self.new waiting.old.items waiting.new.items }
        ensures capacity { vec_capacity waiting.old ≤ vec_capacity waiting.new }
    {
        if let Some(refusal) = self.owners.refusal_for(self.admin, client, &operation) {
            return push_refusal(client, refusal, waiting);
        }
        let kind = given_kind(&operation);
        if self.owners.reserve(kind).is_err() {
            return push_refusal(client, Refusal::NoMemory, waiting);
        }
        let name = named(&operation);
        let ends = may_end(&operation);
        let answer = self.server.answer_to(operation);
        let closes = may_close(ends, &answer);
        let closed = self.closed(closes, name);
        self.owners.note(client, closed, kind, &answer);
        push_client_frame(client, &answer, waiting);
    }

    /// Stops a session of a client, and says whether there was one.
    fn stop_one(&mut self, client: u32) -> bool
        ensures stopped { result ≡ true → (start : ℕ)
            × StopsOne A.shows A.says client self.old start self.new }
        ensures none { result ≡ false → (start : ℕ)
            → owns (table_of self.new.owners) client (NameOf.Session start) ≡ false }
        ensures same { result ≡ false → self.new ≡ self.old }
        ensures fewer { result ≡ true → held_in (table_of self.new.owners) client
            < held_in (table_of self.old.owners) client }
        ensures admin { self.new.admin ≡ self.old.admin }
    {
        let Some(start) = self.owners.session_of(client) else {
            return false;
        };
        let _reply = self.server.reply_to(Request::Stop { start });
        self.owners.remove(client, Name::Session(start));
        true
    }

    /// Stops all sessions of a client.
    fn stop_all(&mut self, client: u32)
        ensures stopped { (starts : List ℕ)
            × StopsEach A.shows A.says client self.old starts self.new }
        ensures none { (start : ℕ)
            → owns (table_of self.new.owners) client (NameOf.Session start) ≡ false }
        ensures admin { self.new.admin ≡ self.old.admin }
    {
        while self.stop_one(client) {}
    }

    /// A client is gone.
    fn leave(&mut self, client: u32)
        ensures ends { EndsClient A.shows A.says client self.old self.new }
        ensures admin { self.new.admin ≡ self.old.admin }
    {
        self.stop_all(client);
        self.owners.pass(client, self.admin.unwrap_or(0));
    }

    /// Answers a body, whatever is in it, and appends the frame of the reply to those that wait.
    fn answer_body(&mut self, body: &[u8], waiting: &mut Vec<u8>)
        requires room { length waiting.old.items + LONGEST_FRAME ≤ vec_capacity waiting.old }
        ensures replies { (said : FrameOf) × IsBodyOf said body.now
            × RepliesTo A.shows A.says said self.old self.new waiting.old.items waiting.new.items }
        ensures capacity { vec_capacity waiting.old ≤ vec_capacity waiting.new }
    {
        let Some((client, rest)) = split_client(body) else {
            return push_refusal(0, Refusal::BadRequest, waiting);
        };
        if rest.is_empty() {
            self.leave(client);
            return push_client_frame(client, &Answer::Said(Reply::Stop), waiting);
        }
        match decode_operation(self.alloc, rest) {
            Ok(Some(operation)) => self.ask(client, operation, waiting),
            Ok(None) => push_refusal(client, Refusal::BadRequest, waiting),
            Err(_) => push_refusal(client, Refusal::NoMemory, waiting),
        }
    }

    /// Answers what is incoming, and appends the frame of the reply to those that wait.
    fn answer_to(&mut self, incoming: Incoming<'_>, waiting: &mut Vec<u8>)
        requires room { length waiting.old.items + LONGEST_FRAME ≤ vec_capacity waiting.old }
        ensures replies { (said : FrameOf) × IsFrameOf said (taken_by incoming.entry)
            × RepliesTo A.shows A.says said self.old self.new waiting.old.items waiting.new.items }
        ensures capacity { vec_capacity waiting.old ≤ vec_capacity waiting.new }
    {
        match incoming {
            Incoming::Body(body) => self.answer_body(body, waiting),
            Incoming::TooLarge => push_refusal(0, Refusal::FrameTooLarge, waiting),
        }
    }

    /// Appends the frame of the answer to what is incoming to those that wait, and lets the server do its upkeep.
    pub fn answer_incoming(&mut self, incoming: Incoming<'_>, waiting: &mut Vec<u8>)
        requires room { length waiting.old.items + LONGEST_FRAME ≤ vec_capacity waiting.old }
        ensures answers { (body : List ℕ) × IsAnsweredTo A.shows A.says A.between self.old
            (taken_by incoming.entry) body self.new
            × (waiting.new.items ≡ waiting.old.items ++ frame body) }
        ensures capacity { vec_capacity waiting.old ≤ vec_capacity waiting.new }
    {
        self.answer_to(incoming, waiting);
        self.server.tend();
    }

    /// Serves framed requests of several clients until the input ends, with at most `most_reads` reads: the body of each
    /// frame begins with a client's number, and so does that of each reply. Frames are answered until `most` bytes of
    /// replies wait, or all that was read is answered; then the answers are settled, and the replies written.
    ///
    /// Each frame is answered to its client: by one step of the machine, by none, or by the Stops of a client that is
    /// gone. From each reached state that is shown, the machine handled all of them so, and what each client has is what
    /// the definitions of `ownership` say.
    pub fn serve<I: Read, O: Write>(
        &mut self,
        reader: &mut I,
        writer: &mut O,
        most: usize,
        most_reads: u64,
    ) -> Result<End, ServeFault>
        requires some { 0 < most }
        requires few { most ≤ 1048576 }
        ensures { ServesClients A.shows A.says A.between most self.old self.new
            (I.remaining reader.old) (I.remaining reader.new)
            (O.contents writer.old) (O.contents writer.new) most_reads result }
    {
        serve_all(self.alloc, self, reader, writer, most, most_reads)
    }
}

impl<A: Lookup> FrameHandler for ClientServer<A> {
    ghost use Rattle.std.proofs.Common.{◌∙◌, inl, inr};

    ghost answers = { IsAnsweredTo A.shows A.says A.between };

    ghost settles = { SettlesOwned A.settles };

    ghost fails = { SettlesOwned A.fails };

    ghost joins = { λ first mid new taken body is after. record {
      to = is.to;
      answer = is.answer;
      is_body = is.is_body;
      mid = is.mid;
      answered = is.answered;
      tended = A.belongs is.mid.server mid.server new.server is.tended (elim after [
        | inl done ↦ inl done.settled
        | inr failed ↦ inr failed.settled
      ]);
      shown = λ st shows. A.stays mid.server new.server (elim after [
        | inl done ↦ inl done.settled
        | inr failed ↦ inr failed.settled
      ]) st (is.shown st shows);
      owners = elim after [
        | inl done ↦ done.owners ∙ is.owners
        | inr failed ↦ failed.owners ∙ is.owners
      ];
      admin = elim after [
        | inl done ↦ done.admin ∙ is.admin
        | inr failed ↦ failed.admin ∙ is.admin
      ];
    } };

    fn answer(&mut self, incoming: Incoming<'_>, waiting: &mut Vec<u8>) {
        self.answer_incoming(incoming, waiting);
    }

    fn settle(&mut self) -> Result<(), ServeFault> {
        self.server.settle()
    }
}
