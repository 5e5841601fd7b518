//! The serving loop: answers wait until they are settled, and are written then.

ghost use Rattle.std.specs.Prelude.{◌≡◌, ◌≤◌, ◌<◌, ◌+◌, ◌++◌, ◌∷◌, ◌⊎◌, List, ℕ, [], length, Err, IfErr, IfNone, IfOk, OnErr, OnOk, Some, vec_capacity};
ghost use Rattle.std.specs.Io.KnownBytes.{Appends};
ghost use Rattle.si_model.specs.Machine.{State};
ghost use Rattle.request_codec.specs.Answers.{answer_of, HoldsAnswerWithinLimits};
ghost use Rattle.request_codec.specs.Operations.{operation_of};
ghost use Rattle.request_codec.specs.Replies.{replied, HoldsWithinLimits};
ghost use Rattle.request_codec.specs.Requests.{asked};
ghost use Rattle.request_codec.specs.Stream.{frame, frames, IsPartial};
ghost use Rattle.request_codec.specs.declared.answers.Answer.{Answer as CodecAnswer};
ghost use Rattle.request_codec.specs.declared.operations.Operation.{Operation as Lent};
ghost use Rattle.server_loop.specs.Batches.{Answered, Cuts, Delivers, IsAnswered, IsBatch, IsCutBy, LeavesRest, ReadsOn, ServesOn, over_of, taken_by};
ghost use Rattle.server_loop.specs.Runs.{Body, GoesFrom, RunsAs, SaysOf, StepsAs, Taken};

use crate::frames::{finish, flush, push_frame, write_whole};
use crate::statuses::{End, ServeFault};
use cell_key::Refusal;
use request_codec::{
    Answer, Framer, Next, Operation, Reply, Request, decode_operation, split_frame,
};
use std::alloc::{AllocError, Global};
use std::io::{Read, Write};

/// The most bytes that one read requests.
const LONGEST_PIECE: usize = 65_536;

/// The most bytes of the frame of a reply: those of an answer, and four of a client's number.
pub const LONGEST_FRAME: usize = 1_048_584;

/// What is to be answered.
#[derive(Clone, Copy)]
pub enum Incoming<'a> {
    /// The body of a frame.
    Body(&'a [u8]),
    /// A length past the limit.
    TooLarge,
}

/// The remainder of bytes whose whole frames were answered.
#[derive(Clone, Copy)]
pub enum Rest {
    /// Less than a frame.
    Partial,
    /// A length past the limit, which was refused.
    TooLarge,
}

/// Answers requests as the snapshot machine does.
pub trait Handler {
    /// It shows this state of the machine.
    ghost shows: { Self → State → Type 0 };

    /// The contract of an answer, from the state before to the state after.
    ghost says: { Self → Lent → CodecAnswer → Self → Type 0 };

    /// The changes between one answer and the next, from the state before to the state after.
    ghost between: { Self → Self → Type 0 };

    /// One step of the machine, from each reached state that is shown.
    fn reply_to(&mut self, request: Request<'_>) -> Reply
        ensures step { StepsAs shows self.old self.new (asked request.entry) (replied result) }
        ensures says { says self.old (Operation.One request.entry) (Answer.Said result) self.new }
        ensures limits { HoldsWithinLimits (replied result) };

    /// Answers as the machine goes, from each reached state that is shown.
    fn answer_to(&mut self, operation: Operation<'_>) -> Answer
        ensures goes { GoesFrom shows self.old self.new (operation_of operation.entry)
            (answer_of result) }
        ensures says { says self.old operation.entry result self.new }
        ensures limits { HoldsAnswerWithinLimits (answer_of result) };

    /// Does the upkeep between one answer and the next. It keeps showing each state that it shows.
    fn tend(&mut self)
        ensures between { between self.old self.new }
        ensures shown { (st : State) → shows self.old st → shows self.new st };
}

/// Answers bodies. The replies are written once the answers are settled.
pub trait FrameHandler {
    /// What was taken, and the body of the reply, from the state before to the state after.
    ghost answers: { Self → Taken → List ℕ → Self → Type 0 };

    /// The answers were settled.
    ghost settles: { Self → Self → Type 0 };

    /// They could not be settled.
    ghost fails: { Self → Self → Type 0 };

    /// Appends the frame of the reply to what is incoming to the replies that wait.
    fn answer(&mut self, incoming: Incoming<'_>, waiting: &mut Vec<u8>)
        requires room { length waiting.old.items + LONGEST_FRAME ≤ vec_capacity waiting.old }
        ensures answers { (body : List ℕ) × answers self.old (taken_by incoming.entry) body self.new
            × (waiting.new.items ≡ waiting.old.items ++ frame body) }
        ensures capacity { vec_capacity waiting.old ≤ vec_capacity waiting.new };

    /// Settles the answers since the last call.
    fn settle(&mut self) -> Result<(), ServeFault>
        ensures ok { OnOk result (settles self.old self.new) }
        ensures err { OnErr result (fails self.old self.new) }
        ensures fault { IfErr result (λ fault. fault ≡ ServeFault.Log) };

    /// Settling belongs to the answer before it.
    ghost joins: { (first mid new : Self) (taken : Taken) (body : List ℕ)
        → answers first taken body mid → settles mid new ⊎ fails mid new
        → answers first taken body new };
}

/// A vector of zeros. The size is a parameter, so that no proof computes a list of a million.
fn zeros(alloc: Global, size: usize) -> Result<Vec<u8>, AllocError>
    ensures { IfOk result (λ v. length v.items ≡ size) }
{
    vec![in alloc; 0u8; size]
}

/// The answer to a body, well-formed or not.
fn answer_to_body<A: Handler>(alloc: Global, server: &mut A, body: &[u8]) -> Answer
    ensures run { RunsAs A.shows server.old server.new (Body body.now ∷ [])
        (answer_of result ∷ []) }
    ensures says { SaysOf A.says server.old (Body body.now) (answer_of result) server.new }
    ensures limits { HoldsAnswerWithinLimits (answer_of result) }
{
    match decode_operation(alloc, body) {
        Ok(Some(operation)) => server.answer_to(operation),
        Ok(None) => Answer::Said(Reply::Refused(Refusal::BadRequest)),
        Err(refusal) => Answer::Said(Reply::Refused(refusal)),
    }
}

/// The answer to what is incoming.
fn answer_to_incoming<A: Handler>(alloc: Global, server: &mut A, incoming: Incoming<'_>) -> Answer
    ensures run { RunsAs A.shows server.old server.new (taken_by incoming.entry ∷ [])
        (answer_of result ∷ []) }
    ensures says { SaysOf A.says server.old (taken_by incoming.entry) (answer_of result)
        server.new }
    ensures limits { HoldsAnswerWithinLimits (answer_of result) }
{
    match incoming {
        Incoming::Body(body) => answer_to_body(alloc, server, body),
        Incoming::TooLarge => Answer::Said(Reply::Refused(Refusal::FrameTooLarge)),
    }
}

/// Appends the frame of the machine's answer to those that wait, and lets the server do its upkeep.
pub fn answer_incoming<A: Handler>(
    alloc: Global,
    server: &mut A,
    incoming: Incoming<'_>,
    waiting: &mut Vec<u8>,
)
    requires room { length waiting.old.items + LONGEST_FRAME ≤ vec_capacity waiting.old }
    ensures answers { (body : List ℕ) × IsAnswered A.shows A.says A.between server.old
        (taken_by incoming.entry) body server.new
        × (waiting.new.items ≡ waiting.old.items ++ frame body) }
    ensures capacity { vec_capacity waiting.old ≤ vec_capacity waiting.new }
{
    let answer = answer_to_incoming(alloc, server, incoming);
    push_frame(&answer, waiting);
    server.tend();
}

/// Takes bytes of a piece, as far as the first frame needs them, and answers that frame if it is whole. Returns the
/// bytes of the piece that were not taken. `None` if there may be more frames.
fn answer_held<'p, H: FrameHandler>(
    server: &mut H,
    framer: &mut Framer,
    piece: &'p [u8],
    waiting: &mut Vec<u8>,
) -> (Option<Rest>, &'p [u8])
    requires room { length waiting.old.items + LONGEST_FRAME ≤ vec_capacity waiting.old }
    ensures answered { (replies : List (List ℕ)) × (length replies ≤ 1)
        × (waiting.new.items ≡ waiting.old.items ++ frames replies)
        × Answered H.answers server.old server.new (framer.old ++ piece.now)
        (framer.new ++ result.1.now) (over_of result.0) replies }
    ensures rest { LeavesRest result.0 (framer.new ++ result.1.now) result.1.now }
    ensures fewer { IfNone result.0 (length framer.new + (length result.1.now + length result.1.now)
        < length framer.old + (length piece.now + length piece.now)) }
    ensures capacity { vec_capacity waiting.old ≤ vec_capacity waiting.new }
{
    let wanted = framer.wanted().min(piece.len());
    let (front, _) = piece.split_at(wanted);
    let taken = framer.feed(front);
    let (_, behind) = piece.split_at(taken);
    match framer.next() {
        Next::More => {
            if behind.is_empty() {
                return (Some(Rest::Partial), behind);
            }
            (None, behind)
        }
        Next::Frame(body) => {
            server.answer(Incoming::Body(body), waiting);
            (None, behind)
        }
        Next::TooLarge => {
            server.answer(Incoming::TooLarge, waiting);
            (Some(Rest::TooLarge), behind)
        }
    }
}

/// Answers the first frame of the bytes at hand, those of the framer and then those of the piece. A frame that is whole
/// in the piece is answered where it stands. Returns the bytes of the piece that were not taken. `None` if there may be
/// more frames.
fn answer_next<'p, H: FrameHandler>(
    server: &mut H,
    framer: &mut Framer,
    piece: &'p [u8],
    waiting: &mut Vec<u8>,
) -> (Option<Rest>, &'p [u8])
    requires room { length waiting.old.items + LONGEST_FRAME ≤ vec_capacity waiting.old }
    ensures answered { (replies : List (List ℕ)) × (length replies ≤ 1)
        × (waiting.new.items ≡ waiting.old.items ++ frames replies)
        × Answered H.answers server.old server.new (framer.old ++ piece.now)
        (framer.new ++ result.1.now) (over_of result.0) replies }
    ensures rest { LeavesRest result.0 (framer.new ++ result.1.now) result.1.now }
    ensures fewer { IfNone result.0 (length framer.new + (length result.1.now + length result.1.now)
        < length framer.old + (length piece.now + length piece.now)) }
    ensures capacity { vec_capacity waiting.old ≤ vec_capacity waiting.new }
{
    if framer.is_empty() {
        if let Some((body, behind)) = split_frame(piece) {
            server.answer(Incoming::Body(body), waiting);
            return (None, behind);
        }
    }
    answer_held(server, framer, piece, waiting)
}

/// Answers whole frames in order until so many bytes of replies wait. Returns the bytes of the piece that were not
/// taken. `None` if there may be more frames.
fn fill<'p, H: FrameHandler>(
    server: &mut H,
    framer: &mut Framer,
    piece: &'p [u8],
    waiting: &mut Vec<u8>,
    most: usize,
) -> (Option<Rest>, &'p [u8])
    requires none { waiting.old.items ≡ [] }
    requires most { 0 < most }
    requires room { most + LONGEST_FRAME ≤ vec_capacity waiting.old }
    ensures answered { (replies : List (List ℕ)) × IsBatch most replies
        × (waiting.new.items ≡ frames replies)
        × Answered H.answers server.old server.new (framer.old ++ piece.now)
        (framer.new ++ result.1.now) (over_of result.0) replies }
    ensures rest { LeavesRest result.0 (framer.new ++ result.1.now) result.1.now }
    ensures fewer { IfNone result.0 (length framer.new + (length result.1.now + length result.1.now)
        < length framer.old + (length piece.now + length piece.now)) }
    ensures capacity { vec_capacity waiting.old ≤ vec_capacity waiting.new }
{
    let mut rest = piece;
    loop {
        let (ended, behind) = answer_next(server, framer, rest, waiting);
        rest = behind;
        if ended.is_some() || waiting.len() >= most {
            return (ended, rest);
        }
    }
}

/// Settles the answers, then writes the waiting replies.
fn release<H: FrameHandler, W: Write>(
    server: &mut H,
    writer: &mut W,
    waiting: &mut Vec<u8>,
) -> Result<(), ServeFault>
    ensures ok { OnOk result (H.settles server.old server.new
        × Appends (W.contents writer.old) (W.contents writer.new) waiting.old.items) }
    ensures none { OnOk result (waiting.new.items ≡ []) }
    ensures err { IfErr result (λ fault. (written : List ℕ) × (more : List ℕ)
        × (waiting.old.items ≡ written ++ more)
        × Appends (W.contents writer.old) (W.contents writer.new) written
        × IsCutBy H.answers H.settles H.fails fault server.old server.new written more) }
    ensures capacity { vec_capacity waiting.old ≤ vec_capacity waiting.new }
{
    server.settle()?;
    match write_whole(writer, waiting) {
        Ok(()) => {
            waiting.clear();
            Ok(())
        }
        Err(_) => Err(ServeFault::Write),
    }
}

/// Answers a batch of whole frames, settles it and writes its replies. Returns the bytes of the piece that were not
/// taken. `None` if there may be more frames.
fn answer_batch<'p, H: FrameHandler, W: Write>(
    server: &mut H,
    framer: &mut Framer,
    piece: &'p [u8],
    writer: &mut W,
    waiting: &mut Vec<u8>,
    most: usize,
) -> Result<(Option<Rest>, &'p [u8]), ServeFault>
    requires none { waiting.old.items ≡ [] }
    requires most { 0 < most }
    requires room { most + LONGEST_FRAME ≤ vec_capacity waiting.old }
    ensures delivers { IfOk result (λ ended. Delivers H.answers H.settles H.fails server.old
        server.new (framer.old ++ piece.now) (framer.new ++ ended.1.now) (over_of ended.0)
        (W.contents writer.old) (W.contents writer.new)) }
    ensures rest { IfOk result (λ ended. LeavesRest ended.0 (framer.new ++ ended.1.now)
        ended.1.now) }
    ensures fewer { IfOk result (λ ended. IfNone ended.0
        (length framer.new + (length ended.1.now + length ended.1.now)
        < length framer.old + (length piece.now + length piece.now))) }
    ensures none { OnOk result (waiting.new.items ≡ []) }
    ensures cuts { IfErr result (λ fault. (rest : List ℕ) × Cuts H.answers H.settles H.fails most
        fault server.old server.new (framer.old ++ piece.now) rest (W.contents writer.old)
        (W.contents writer.new)) }
    ensures capacity { vec_capacity waiting.old ≤ vec_capacity waiting.new }
{
    let filled = fill(server, framer, piece, waiting, most);
    if waiting.is_empty() {
        return Ok(filled);
    }
    release(server, writer, waiting)?;
    Ok(filled)
}

/// Takes a piece of the input, and answers each whole frame in batches. The framer may hold part of a frame before.
fn serve_piece<H: FrameHandler, W: Write>(
    server: &mut H,
    framer: &mut Framer,
    piece: &[u8],
    writer: &mut W,
    waiting: &mut Vec<u8>,
    most: usize,
) -> Result<Rest, ServeFault>
    requires none { waiting.old.items ≡ [] }
    requires most { 0 < most }
    requires room { most + LONGEST_FRAME ≤ vec_capacity waiting.old }
    ensures delivers { IfOk result (λ ended. (behind : List ℕ)
        × LeavesRest (Some ended) (framer.new ++ behind) behind
        × Delivers H.answers H.settles H.fails server.old server.new (framer.old ++ piece.now)
        (framer.new ++ behind) (over_of (Some ended)) (W.contents writer.old)
        (W.contents writer.new)) }
    ensures none { OnOk result (waiting.new.items ≡ []) }
    ensures cuts { IfErr result (λ fault. (rest : List ℕ) × Cuts H.answers H.settles H.fails most
        fault server.old server.new (framer.old ++ piece.now) rest (W.contents writer.old)
        (W.contents writer.new)) }
    ensures capacity { vec_capacity waiting.old ≤ vec_capacity waiting.new }
{
    let mut rest = piece;
    loop {
        let (ended, behind) = answer_batch(server, framer, rest, writer, waiting, most)?;
        match ended {
            None => rest = behind,
            Some(ended) => return Ok(ended),
        }
    }
}

/// Flushes the writer, reads once, and answers each whole frame in batches. `None` if the input goes on.
fn serve_read<H: FrameHandler, R: Read, W: Write>(
    server: &mut H,
    framer: &mut Framer,
    reader: &mut R,
    writer: &mut W,
    piece: &mut [u8],
    waiting: &mut Vec<u8>,
    most: usize,
) -> Result<Option<End>, ServeFault>
    requires none { waiting.old.items ≡ [] }
    requires most { 0 < most }
    requires room { most + LONGEST_FRAME ≤ vec_capacity waiting.old }
    requires piece { 0 < length piece.old }
    requires within { length piece.old ≤ LONGEST_PIECE }
    requires partial { IsPartial framer.old }
    ensures reads { ReadsOn H.answers H.settles H.fails most result framer.old framer.new
        server.old server.new (R.remaining reader.old) (R.remaining reader.new)
        (W.contents writer.old) (W.contents writer.new) }
    ensures piece { length piece.new ≡ length piece.old }
    ensures none { OnOk result (waiting.new.items ≡ []) }
    ensures capacity { vec_capacity waiting.old ≤ vec_capacity waiting.new }
{
    flush(writer)?;
    match reader.read(piece) {
        Ok(0) if framer.is_empty() => Ok(Some(End::Clean)),
        Ok(0) => Ok(Some(End::Truncated)),
        Ok(count) => match serve_piece(server, framer, &piece[..count], writer, waiting, most)? {
            Rest::Partial => Ok(None),
            Rest::TooLarge => Ok(Some(End::TooLarge)),
        },
        Err(_) => Err(ServeFault::Read),
    }
}

/// Serves framed requests until the input ends, with at most `most_reads` reads. Frames are answered until `most` bytes
/// of replies wait, or all that was read is answered; then the answers are settled, and the replies written. The
/// buffers are allocated first.
pub fn serve_all<H: FrameHandler, R: Read, W: Write>(
    alloc: Global,
    server: &mut H,
    reader: &mut R,
    writer: &mut W,
    most: usize,
    most_reads: u64,
) -> Result<End, ServeFault>
    requires some { 0 < most }
    requires few { most ≤ 1048576 }
    ensures { ServesOn H.answers H.settles H.fails most [] server.old server.new
        (R.remaining reader.old) (R.remaining reader.new)
        (W.contents writer.old) (W.contents writer.new) most_reads result }
{
    let Ok(mut framer) = Framer::new(alloc) else {
        return Err(ServeFault::NoMemory);
    };
    let Ok(mut piece) = zeros(alloc, LONGEST_PIECE) else {
        return Err(ServeFault::NoMemory);
    };
    let Ok(mut waiting) = Vec::with_capacity(alloc, most + LONGEST_FRAME) else {
        return Err(ServeFault::NoMemory);
    };
    let mut reads_left = most_reads;
    while reads_left > 0 {
        reads_left -= 1;
        let ended = serve_read(
            server,
            &mut framer,
            reader,
            writer,
            &mut piece,
            &mut waiting,
            most,
        )?;
        match ended {
            None => {}
            Some(end) => return finish(writer, end),
        }
    }
    finish(writer, End::ReadsUsedUp)
}
