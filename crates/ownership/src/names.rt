//! The names of sessions, cleaners and collectors.

ghost use Rattle.std.specs.Prelude.{◌≡◌, ◌&&◌, not, IfSome, Some};
ghost use Rattle.request_codec.specs.Answers.{answer_of};
ghost use Rattle.request_codec.specs.Operations.{operation_of};
ghost use Rattle.request_codec.specs.Replies.{replied};
ghost use Rattle.request_codec.specs.Requests.{asked};
ghost use Rattle.ownership.specs.Effects as effects;
ghost use Rattle.ownership.specs.Names as names;

use cell_key::Stamp;
use request_codec::{Answer, Operation, Reply, Request};
use si_model::{CleanStart, Progress};

/// The name that an operation may have and an answer may give: a session by its start, a cleaner or a collector by its
/// number.
#[derive(Clone, Copy, Debug, PartialEq, Eq)]
pub enum Name {
    Session(Stamp),
    Cleaner(u64),
    Collector(u64),
}

/// The kinds of what has a name.
#[derive(Clone, Copy, Debug, PartialEq, Eq)]
pub enum Kind {
    Session,
    Cleaner,
    Collector,
}

/// Whether a name is of this kind.
#[inline(always)]
fn is_of(kind: Kind, name: Name) -> bool
    ensures { result ≡ names.same_kind kind (names.kind_of name) }
{
    match (kind, name) {
        (Kind::Session, Name::Session(_)) => true,
        (Kind::Cleaner, Name::Cleaner(_)) => true,
        (Kind::Collector, Name::Collector(_)) => true,
        _ => false,
    }
}

/// What a request names.
#[inline(always)]
fn named_by_request(request: &Request<'_>) -> Option<Name>
    ensures { result ≡ names.request_name (asked request.now) }
{
    match *request {
        Request::Get { start, .. }
        | Request::Scan { start, .. }
        | Request::Set { start, .. }
        | Request::Delete { start, .. }
        | Request::Step { start }
        | Request::Stop { start } => Some(Name::Session(start)),
        Request::CleanStep { cleaner } => Some(Name::Cleaner(cleaner)),
        Request::CollectStep { collector, .. } => Some(Name::Collector(collector)),
        _ => None,
    }
}

/// The session of a start, unless it is 0.
#[inline(always)]
fn named_by_start(start: Stamp) -> Option<Name>
    ensures { result ≡ names.start_name start }
{
    if start == 0 {
        return None;
    }
    Some(Name::Session(start))
}

/// What an operation names, if anything.
#[inline(always)]
pub fn named(operation: &Operation<'_>) -> Option<Name>
    ensures { result ≡ names.name_of (operation_of operation.now) }
{
    match operation {
        Operation::One(request) => named_by_request(request),
        Operation::Commit { start, .. } | Operation::Read { start, .. } => named_by_start(*start),
    }
}

/// The kind of name that the reply to a request may give.
#[inline(always)]
fn kind_of_request(request: &Request<'_>) -> Option<Kind>
    ensures { result ≡ names.request_kind (asked request.now) }
{
    match request {
        Request::Begin => Some(Kind::Session),
        Request::CleanBegin { .. } => Some(Kind::Cleaner),
        Request::CollectBegin => Some(Kind::Collector),
        _ => None,
    }
}

/// A session, if a Read begins one and leaves it open.
#[inline(always)]
fn kind_of_read(start: Stamp, stays_open: bool) -> Option<Kind>
    ensures { result ≡ names.read_kind start stays_open }
{
    if start == 0 && stays_open {
        return Some(Kind::Session);
    }
    None
}

/// The kind of name that the answer to an operation may give, if any.
#[inline(always)]
pub fn given_kind(operation: &Operation<'_>) -> Option<Kind>
    ensures { result ≡ names.given_kind (operation_of operation.now) }
{
    match operation {
        Operation::One(request) => kind_of_request(request),
        Operation::Commit { .. } => None,
        Operation::Read {
            start,
            stays_open,
            ..
        } => kind_of_read(*start, *stays_open),
    }
}

/// Whether an operation may end what it names. One that reads or writes in a session doesn't.
#[inline(always)]
pub fn may_end(operation: &Operation<'_>) -> bool
    ensures { result ≡ effects.may_end (operation_of operation.now) }
{
    match operation {
        Operation::One(
            Request::Get { .. }
            | Request::Scan { .. }
            | Request::Set { .. }
            | Request::Delete { .. },
        ) => false,
        _ => true,
    }
}

/// Whether an operation with this answer may have ended what it names, if the operation may end it: not if a step held a
/// cell or drew its commit stamp.
#[inline(always)]
pub fn may_close(ends: bool, answer: &Answer) -> bool
    ensures { result ≡ (ends && not (effects.goes_further (answer_of answer.now))) }
{
    match answer {
        Answer::Said(Reply::Step(Progress::Held(..) | Progress::Stamped(_))) => false,
        _ => ends,
    }
}

/// The name that a reply tells.
#[inline(always)]
fn told_by_reply(reply: &Reply) -> Option<Name>
    ensures { result ≡ names.reply_name (replied reply.now) }
{
    match reply {
        Reply::Begin(start) => Some(Name::Session(*start)),
        Reply::CleanBegin(CleanStart::Cleaner(cleaner, _)) => Some(Name::Cleaner(*cleaner)),
        Reply::CollectBegin(collector, _) => Some(Name::Collector(*collector)),
        _ => None,
    }
}

/// The name that an answer tells: the session of a Read, or the name in a reply.
#[inline(always)]
fn told(answer: &Answer) -> Option<Name>
    ensures { result ≡ names.told_name (answer_of answer.now) }
{
    match answer {
        Answer::Said(reply) => told_by_reply(reply),
        Answer::Read(reply) => Some(Name::Session(reply.start)),
        Answer::Commit(_) => None,
    }
}

/// The name that an answer gives, if any: one of the kind that its operation may give.
#[inline(always)]
pub(crate) fn given(kind: Option<Kind>, answer: &Answer) -> Option<Name>
    ensures name { result ≡ names.answer_name kind (answer_of answer.now) }
    ensures kind { IfSome result (λ name. kind ≡ Some (names.kind_of name)) }
{
    let kind = kind?;
    let name = told(answer)?;
    if !is_of(kind, name) {
        return None;
    }
    Some(name)
}
