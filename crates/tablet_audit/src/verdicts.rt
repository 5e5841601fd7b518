//! The verdicts on a recording.

ghost use Rattle.std.specs.Prelude.{◌≡◌};
ghost use Rattle.tablet_audit.specs.Statuses.{status_of, verdict_text};

use crate::frames::Flaw;
use crate::sharing::Sharing;
use crate::words::{AnswerWords, FrameWords, OperationWords};
use ownership::Frame;
use request_codec::{Answer, Operation};
use std::fmt;

/// The verdict of an audit. Requests and replies are numbered from 1.
#[derive(Drop)]
pub enum Verdict<'a> {
    /// Each of this many replies is a step of the machine, or what its client may be answered if several clients made
    /// the recording.
    Correct(Sharing, u64),
    /// The reply with this number is no step.
    NoStep(u64, Operation<'a>, Answer),
    /// The reply with this number isn't what the client that sent the request may be answered.
    NotAllowed(u64, Frame<'a>, u32, Answer),
    /// The frame of the request with this number is flawed.
    BadRequest(u64, Flaw),
    /// The frame of the reply with this number is flawed.
    BadReply(u64, Flaw),
    /// The mark over which the store was reopened after the reply with this number is bad: below a stamp that was
    /// answered, or above the greatest stamp.
    BadMark(u64),
}

impl Verdict<'_> {
    /// The exit status of the program.
    pub fn status(&self) -> u8
        ensures { result ≡ status_of self.now }
    {
        match self {
            Verdict::Correct(..) => 0,
            Verdict::NoStep(..) | Verdict::NotAllowed(..) | Verdict::BadMark(_) => 1,
            Verdict::BadRequest(..) | Verdict::BadReply(..) => 2,
        }
    }
}

impl fmt::Display for Verdict<'_> {
    ghost output = { λ verdict. verdict_text verdict };

    fn fmt<W: fmt::Write>(&self, f: &mut fmt::Formatter<W>) -> fmt::Result {
        match self {
            Verdict::Correct(Sharing::Alone, count) => {
                write!(f, "{count} replies, each a step of the machine")
            }
            Verdict::Correct(Sharing::Shared(_), count) => {
                write!(f, "{count} replies, each allowed")
            }
            Verdict::NoStep(number, operation, answer) => {
                let operation = OperationWords(operation);
                let answer = AnswerWords(answer);
                write!(
                    f,
                    "reply {number} is no step of the machine: {operation} -> {answer}"
                )
            }
            Verdict::NotAllowed(number, frame, to, answer) => {
                let frame = FrameWords(frame);
                let answer = AnswerWords(answer);
                write!(
                    f,
                    "reply {number} is not allowed: {frame} -> client {to}: {answer}"
                )
            }
            Verdict::BadRequest(number, flaw) => write!(f, "request {number} {flaw}"),
            Verdict::BadReply(number, flaw) => write!(f, "reply {number} {flaw}"),
            Verdict::BadMark(number) => write!(
                f,
                "the mark behind reply {number} is below a stamp that was answered"
            ),
        }
    }
}
