//! The answers to operations, and their bodies.

ghost use Rattle.std.specs.Prelude.{◌≡◌, ◌≤◌, ◌++◌, ◌∷◌, length, vec_capacity, IfSome, IfNone, IfOk, OnOk, OnErr, IsOk, IsOkUnless};
ghost use Rattle.si_model.specs.Answers.{commit_answer, read_answer};
ghost use Rattle.request_codec.specs.Answers.{answer_of, answer_body, AnswerBytesFit, AnswerNeedsMemory, IsAnswerBody, IsNoAnswer};
ghost use Rattle.request_codec.specs.Buffers.{HasRoomFor, AppendsBytes};

use crate::decode_replies::decode_reply;
use crate::encode_replies::{push_reply, reply_length};
use crate::read_bodies::{whole_conflict, whole_u64_pair};
use crate::read_told::{own_told, whole_told};
use crate::replies::Reply;
use crate::write_fields::{push_byte, push_u16, push_u64};
use crate::write_told::{push_read, read_length};
use cell_key::Refusal;
use si_model::{CommitReply, ReadReply};
use std::alloc::Global;

/// The most bytes of an answer's frame: the four bytes of a length, and 1,048,576.
pub const LONGEST_ANSWER: usize = 1_048_580;

/// The answer of the store to an operation.
#[derive(Debug, Drop)]
pub enum Answer {
    /// The reply to one request, or a refusal.
    Said(Reply),
    /// The outcome of a transaction.
    Commit(CommitReply),
    /// The results of reads of several cells.
    Read(ReadReply),
}

const COMMIT: u8 = 0xB2;

const COMMITTED: u8 = 0x01;

const CONFLICT: u8 = 0x02;

pub(crate) const READ: u8 = 0xB3;

/// The length of an answer's body in bytes.
pub fn answer_length(answer: &Answer) -> usize
    requires { AnswerBytesFit (answer_of answer.now) }
    ensures { result ≡ length (answer_body (answer_of answer.now)) }
{
    match answer {
        Answer::Said(reply) => reply_length(reply),
        Answer::Commit(reply) => commit_length(*reply),
        Answer::Read(reply) => read_length(reply),
    }
}

/// The length of the body of a Commit's answer in bytes.
#[tactic(auto, using(crate::proofs::Fields::lengths))]
fn commit_length(reply: CommitReply) -> usize
    ensures { result ≡ length (answer_body (commit_answer reply)) }
{
    match reply {
        CommitReply::Committed(..) => 18,
        CommitReply::Conflict(..) => 12,
    }
}

/// Appends the body of a Commit's answer.
#[tactic(auto, using(crate::proofs::Fields::lengths))]
fn push_commit(reply: CommitReply, out: &mut Vec<u8>)
    requires { HasRoomFor out.old (length (answer_body (commit_answer reply))) }
    ensures { AppendsBytes out.old out.new (answer_body (commit_answer reply)) }
{
    push_byte(out, COMMIT);
    match reply {
        CommitReply::Committed(start, stamp) => {
            push_byte(out, COMMITTED);
            push_u64(out, start);
            push_u64(out, stamp);
        }
        CommitReply::Conflict(start, place) => {
            push_byte(out, CONFLICT);
            push_u64(out, start);
            push_u16(out, place);
        }
    }
}

/// Appends the body of an answer, for which there must be room. Allocates nothing.
pub fn push_answer(answer: &Answer, out: &mut Vec<u8>)
    requires fits { AnswerBytesFit (answer_of answer.now) }
    requires room { HasRoomFor out.old (length (answer_body (answer_of answer.now))) }
    ensures { AppendsBytes out.old out.new (answer_body (answer_of answer.now)) }
{
    match answer {
        Answer::Said(reply) => push_reply(reply, out),
        Answer::Commit(reply) => push_commit(*reply, out),
        Answer::Read(reply) => push_read(out, reply),
    }
}

/// Appends the body of an answer.
///
/// # Errors
///
/// `NoMemory` if the buffer cannot grow. Then `out` is unchanged.
pub fn encode_answer(answer: &Answer, out: &mut Vec<u8>) -> Result<(), Refusal>
    requires { AnswerBytesFit (answer_of answer.now) }
    ensures ok { OnOk result (out.new.items ≡ out.old.items ++ answer_body (answer_of answer.now)) }
    ensures err { OnErr result (out.new.items ≡ out.old.items) }
    ensures refusal { IsOkUnless result Refusal.NoMemory }
    // It succeeds if the buffer already has room.
    ensures room { HasRoomFor out.old (length (answer_body (answer_of answer.now))) → IsOk result }
    ensures capacity { vec_capacity out.old ≤ vec_capacity out.new }
{
    out.reserve(answer_length(answer))?;
    push_answer(answer, out);
    Ok(())
}

/// The outcome of a transaction, from the fields of its answer.
fn decode_commit(fields: &[u8]) -> Option<CommitReply>
    ensures found { IfSome result (λ reply.
        IsAnswerBody (commit_answer reply) (0xB2 ∷ fields.now)) }
    ensures none { IfNone result (IsNoAnswer (0xB2 ∷ fields.now)) }
{
    let (tag, rest) = fields.split_first()?;
    match *tag {
        COMMITTED => {
            let (start, stamp) = whole_u64_pair(rest)?;
            Some(CommitReply::Committed(start, stamp))
        }
        CONFLICT => {
            let (start, place) = whole_conflict(rest)?;
            Some(CommitReply::Conflict(start, place))
        }
        _ => None,
    }
}

/// The results of reads of several cells, from the fields of their answer; `None` if they are malformed.
fn decode_read(alloc: Global, fields: &[u8]) -> Result<Option<ReadReply>, Refusal>
    ensures found { IfOk result (λ found. IfSome found (λ reply.
        IsAnswerBody (read_answer reply) (0xB3 ∷ fields.now))) }
    ensures none { IfOk result (λ found. IfNone found (IsNoAnswer (0xB3 ∷ fields.now))) }
    ensures refusal { IsOkUnless result Refusal.NoMemory }
    ensures needed { OnErr result (AnswerNeedsMemory (0xB3 ∷ fields.now)) }
{
    let Some((start, count, rest)) = whole_told(fields) else {
        return Ok(None);
    };
    let found = own_told(alloc, rest, count)?;
    Ok(Some(ReadReply { start, found }))
}

/// The answer with this body; `None` if the body is no answer's.
///
/// # Errors
///
/// `NoMemory` if a part of the answer cannot be allocated, as the list of a Read's results.
pub fn decode_answer(alloc: Global, body: &[u8]) -> Result<Option<Answer>, Refusal>
    ensures found { IfOk result (λ found.
        IfSome found (λ answer. IsAnswerBody (answer_of answer) body.now)) }
    ensures none { IfOk result (λ found. IfNone found (IsNoAnswer body.now)) }
    ensures refusal { IsOkUnless result Refusal.NoMemory }
    // An answer with nothing to allocate is never refused.
    ensures needed { OnErr result (AnswerNeedsMemory body.now) }
{
    let Some((operation, fields)) = body.split_first() else {
        return Ok(None);
    };
    match *operation {
        COMMIT => {
            let Some(reply) = decode_commit(fields) else {
                return Ok(None);
            };
            Ok(Some(Answer::Commit(reply)))
        }
        READ => {
            let Some(reply) = decode_read(alloc, fields)? else {
                return Ok(None);
            };
            Ok(Some(Answer::Read(reply)))
        }
        _ => {
            let Some(reply) = decode_reply(alloc, body)? else {
                return Ok(None);
            };
            Ok(Some(Answer::Said(reply)))
        }
    }
}
