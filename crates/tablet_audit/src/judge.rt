//! The judgement of a recorded run.

ghost use Rattle.std.specs.Prelude.{◌≡◌, ◌↔◌, IfErr, IfOk, IfNone, IfSome, IsTrue};
ghost use Rattle.cell_key.specs.declared.refusals.Refusal.TheVariants.{BadRequest};
ghost use Rattle.request_codec.specs.Answers.{answer_of};
ghost use Rattle.si_model.specs.Machine.{Refused};
ghost use Rattle.si_model.specs.Transactions.{Said};
ghost use Rattle.tablet_audit.specs.Pairs.{GoesOn, IsAtEnd, JudgesAlone, JudgesBodies, JudgesShared, StopsAt};
ghost use Rattle.tablet_audit.specs.Runs.{IsAnswerTo};
ghost use Rattle.tablet_audit.specs.Verdicts.{IsNoAnswerTo, IsVerdict};

use crate::frames::{Flaw, first_frame};
use crate::judges::Judge;
use crate::reopenings::{Reopening, reopen};
use crate::sharing::Sharing;
use crate::verdicts::Verdict;
use audit::Audit;
use cell_key::Refusal;
use ownership::{decode_frame, split_client};
use request_codec::{Answer, LONGEST_BODY, Reply, decode_answer, decode_operation};
use std::alloc::Global;

/// Whether the answer says that a body is outside the grammar.
fn is_bad_request(answer: &Answer) -> bool
    ensures { IsTrue result ↔ (answer_of answer.now ≡ Said (Refused BadRequest)) }
{
    matches!(answer, Answer::Said(Reply::Refused(Refusal::BadRequest)))
}

/// The verdict on the body of a request and the body of its answer, of one client. `None` if the machine may give the
/// answer, or if it is the right one to a body outside the grammar.
///
/// # Errors
///
/// `NoMemory`.
fn judge_alone<'a>(
    alloc: Global,
    audit: &mut Audit,
    number: u64,
    request: &'a [u8],
    reply: &[u8],
) -> Result<Option<Verdict<'a>>, Refusal>
    ensures judged { IfOk result (λ found.
        JudgesAlone audit.old audit.new number request.now reply.now found) }
    ensures refusal { IfErr result (λ refusal. refusal ≡ Refusal.NoMemory) }
{
    let Some(answer) = decode_answer(alloc, reply)? else {
        return Ok(Some(Verdict::BadReply(number, Flaw::OutsideGrammar)));
    };
    let Some(operation) = decode_operation(alloc, request)? else {
        if is_bad_request(&answer) {
            return Ok(None);
        }
        return Ok(Some(Verdict::BadRequest(number, Flaw::OutsideGrammar)));
    };
    if audit.take_operation(&operation, &answer)? {
        return Ok(None);
    }
    Ok(Some(Verdict::NoStep(number, operation, answer)))
}

/// The answer of a body, and the client that it is to. `None` if there is none.
///
/// # Errors
///
/// `NoMemory`.
fn decode_answer_to(alloc: Global, reply: &[u8]) -> Result<Option<(u32, Answer)>, Refusal>
    ensures some { IfOk result (λ found. IfSome found (λ p.
        IsAnswerTo p.0 (answer_of p.1) reply.now)) }
    ensures none { IfOk result (λ found. IfNone found (IsNoAnswerTo reply.now)) }
    ensures refusal { IfErr result (λ refusal. refusal ≡ Refusal.NoMemory) }
{
    let Some((to, rest)) = split_client(reply) else {
        return Ok(None);
    };
    let Some(answer) = decode_answer(alloc, rest)? else {
        return Ok(None);
    };
    Ok(Some((to, answer)))
}

/// The verdict on the body of a client's request and the body of its answer. `None` if that client may be answered so.
///
/// # Errors
///
/// `NoMemory`.
fn judge_shared<'a>(
    alloc: Global,
    admin: Option<u32>,
    judge: &mut Judge,
    number: u64,
    request: &'a [u8],
    reply: &[u8],
) -> Result<Option<Verdict<'a>>, Refusal>
    ensures judged { IfOk result (λ found.
        JudgesShared admin judge.old judge.new number request.now reply.now found) }
    ensures refusal { IfErr result (λ refusal. refusal ≡ Refusal.NoMemory) }
{
    let Some((to, answer)) = decode_answer_to(alloc, reply)? else {
        return Ok(Some(Verdict::BadReply(number, Flaw::OutsideGrammar)));
    };
    let Ok(frame) = decode_frame(alloc, request) else {
        return Err(Refusal::NoMemory);
    };
    if judge.take_frame(admin, &frame, to, &answer)? {
        return Ok(None);
    }
    Ok(Some(Verdict::NotAllowed(number, frame, to, answer)))
}

/// The verdict on the body of a request and the body of its answer, if there is one yet.
///
/// # Errors
///
/// `NoMemory`.
fn judge_bodies<'a>(
    alloc: Global,
    sharing: Sharing,
    judge: &mut Judge,
    number: u64,
    request: &'a [u8],
    reply: &[u8],
) -> Result<Option<Verdict<'a>>, Refusal>
    ensures judged { IfOk result (λ found.
        JudgesBodies sharing judge.old judge.new number request.now reply.now found) }
    ensures refusal { IfErr result (λ refusal. refusal ≡ Refusal.NoMemory) }
{
    match sharing {
        Sharing::Alone => judge_alone(alloc, &mut judge.audit, number, request, reply),
        Sharing::Shared(admin) => judge_shared(alloc, admin, judge, number, request, reply),
    }
}

/// The remaining frames of a recording.
#[derive(Drop)]
struct Recording<'a> {
    requests: &'a [u8],
    replies: &'a [u8],
}

impl<'a> Recording<'a> {
    /// Whether both files are at their end.
    fn is_at_end(&self) -> bool
        ensures { IsTrue result ↔ IsAtEnd self.now.requests.now self.now.replies.now }
    {
        self.requests.is_empty() && self.replies.is_empty()
    }

    /// Judges the first request and reply, and moves past them. Returns the verdict, or `None` if there is none yet.
    ///
    /// # Errors
    ///
    /// `NoMemory`.
    fn judge_next(
        &mut self,
        alloc: Global,
        sharing: Sharing,
        judge: &mut Judge,
        number: u64,
    ) -> Result<Option<Verdict<'a>>, Refusal>
        requires { ¬ IsAtEnd self.old.requests.now self.old.replies.now }
        ensures passed { IfOk result (λ found. IfNone found (GoesOn sharing judge.old judge.new
            self.old.requests.now self.old.replies.now
            self.new.requests.now self.new.replies.now)) }
        ensures ended { IfOk result (λ found. IfSome found (λ verdict.
            StopsAt sharing judge.old number self.old.requests.now self.old.replies.now verdict)) }
        ensures refusal { IfErr result (λ refusal. refusal ≡ Refusal.NoMemory) }
    {
        let (request, requests) = match first_frame(self.requests, LONGEST_BODY) {
            Ok(frame) => frame,
            Err(flaw) => return Ok(Some(Verdict::BadRequest(number, flaw))),
        };
        let (reply, replies) = match first_frame(self.replies, sharing.longest_reply()) {
            Ok(frame) => frame,
            Err(flaw) => return Ok(Some(Verdict::BadReply(number, flaw))),
        };
        self.requests = requests;
        self.replies = replies;
        judge_bodies(alloc, sharing, judge, number, request, reply)
    }
}

/// Judges the frames of a recording, each reply with its request, starting from a new store. The store was reopened
/// after some of the replies.
///
/// # Errors
///
/// `NoMemory`.
pub fn judge<'a>(
    alloc: Global,
    requests: &'a [u8],
    replies: &'a [u8],
    sharing: Sharing,
    reopenings: &[Reopening],
) -> Result<Verdict<'a>, Refusal>
    ensures verdict { IfOk result (λ verdict.
        IsVerdict sharing reopenings.now requests.now replies.now verdict) }
    ensures refusal { IfErr result (λ refusal. refusal ≡ Refusal.NoMemory) }
{
    let mut judge = Judge::new(alloc)?;
    let mut recording = Recording { requests, replies };
    let mut count = 0;
    'pairs: while !recording.is_at_end() {
        let number = count + 1;
        if let Some(verdict) = recording.judge_next(alloc, sharing, &mut judge, number)? {
            return Ok(verdict);
        }
        if !reopen(alloc, &mut judge, number, reopenings)? {
            return Ok(Verdict::BadMark(number));
        }
        count = number;
    }
    Ok(Verdict::Correct(sharing, count))
}
