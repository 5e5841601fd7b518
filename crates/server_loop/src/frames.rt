//! Frames over a writer.

ghost use Rattle.std.specs.Prelude.{◌≡◌, ℕ, ◌+◌, ◌++◌, ◌<◌, ◌≤◌, length, take, IfErr, IfOk, OnOk, OnErr, vec_capacity};
ghost use Rattle.std.specs.Io.KnownBytes.{Appends, Keeps};
ghost use Rattle.si_model.specs.Machine.{Refused};
ghost use Rattle.si_model.specs.Transactions.{Said};
ghost use Rattle.request_codec.specs.Answers.{answer_body, answer_of, HoldsAnswerWithinLimits};
ghost use Rattle.request_codec.specs.Stream.{frame};
ghost use Rattle.ownership.specs.Frames.{client_body};

use crate::frame_loop::LONGEST_FRAME;
use crate::statuses::{End, ServeFault};
use cell_key::Refusal;
use request_codec::{Answer, LONGEST_ANSWER, Reply, answer_length, answers_fit, push_answer};
use std::io::Write;

/// A write failed or accepted no byte.
#[derive(Clone, Copy)]
pub(crate) struct WriteFailed;

/// Writes all of the bytes, in several writes if needed. After an `Err` some of them were not written.
pub(crate) fn write_whole<W: Write>(writer: &mut W, bytes: &[u8]) -> Result<(), WriteFailed>
    ensures ok { OnOk result (Appends (W.contents writer.old) (W.contents writer.new) bytes.now) }
    ensures err { OnErr result ((n : ℕ) × (n < length bytes.now)
        × Appends (W.contents writer.old) (W.contents writer.new) (take n bytes.now)) }
{
    let mut at = 0;
    while at < bytes.len() {
        match writer.write(&bytes[at..]) {
            Ok(0) => return Err(WriteFailed),
            Ok(count) => at += count,
            Err(_) => return Err(WriteFailed),
        }
    }
    Ok(())
}

/// Appends the frame of an answer to the buffer.
#[tactic(auto, using(crate::proofs::FittingFrames::fits_frame), unfolding(request_codec::specs::Stream::frame))]
pub(crate) fn push_frame(answer: &Answer, out: &mut Vec<u8>)
    requires room { length out.old.items + LONGEST_ANSWER ≤ vec_capacity out.old }
    requires limits { HoldsAnswerWithinLimits (answer_of answer.now) }
    ensures items { out.new.items ≡ out.old.items ++ frame (answer_body (answer_of answer.now)) }
    ensures capacity { vec_capacity out.old ≤ vec_capacity out.new }
{
    answers_fit();
    let length = answer_length(answer) as u32;
    out.extend_from_slice(&length.to_be_bytes()).unwrap();
    push_answer(answer, out);
}

/// Appends the frame of an answer to a client to the buffer.
#[tactic(auto, using(crate::proofs::FittingFrames::fits_frame), unfolding(request_codec::specs::Stream::frame, request_codec::specs::Fields::number))]
#[inline(always)]
pub(crate) fn push_client_frame(client: u32, answer: &Answer, out: &mut Vec<u8>)
    requires room { length out.old.items + LONGEST_FRAME ≤ vec_capacity out.old }
    requires limits { HoldsAnswerWithinLimits (answer_of answer.now) }
    ensures items { out.new.items
        ≡ out.old.items ++ frame (client_body client (answer_of answer.now)) }
    ensures capacity { vec_capacity out.old ≤ vec_capacity out.new }
{
    answers_fit();
    // Both numbers in one piece.
    let [a, b, c, d] = (answer_length(answer) as u32 + 4).to_be_bytes();
    let [e, f, g, h] = client.to_be_bytes();
    out.extend_from_slice(&[a, b, c, d, e, f, g, h]).unwrap();
    push_answer(answer, out);
}

/// Appends the frame of a refusal to a client to the buffer.
#[inline(never)]
pub(crate) fn push_refusal(client: u32, refusal: Refusal, out: &mut Vec<u8>)
    requires room { length out.old.items + LONGEST_FRAME ≤ vec_capacity out.old }
    ensures items { out.new.items
        ≡ out.old.items ++ frame (client_body client (Said (Refused refusal))) }
    ensures capacity { vec_capacity out.old ≤ vec_capacity out.new }
{
    push_client_frame(client, &Answer::Said(Reply::Refused(refusal)), out);
}

/// Flushes the writer.
pub(crate) fn flush<W: Write>(writer: &mut W) -> Result<(), ServeFault>
    ensures kept { Keeps (W.contents writer.old) (W.contents writer.new) }
    ensures fault { IfErr result (λ fault. fault ≡ ServeFault.Write) }
{
    match writer.flush() {
        Ok(()) => Ok(()),
        Err(_) => Err(ServeFault::Write),
    }
}

/// Flushes the writer, and returns the end.
pub(crate) fn finish<W: Write>(writer: &mut W, end: End) -> Result<End, ServeFault>
    ensures kept { Keeps (W.contents writer.old) (W.contents writer.new) }
    ensures end { IfOk result (λ is. is ≡ end) }
    ensures fault { IfErr result (λ fault. fault ≡ ServeFault.Write) }
{
    flush(writer)?;
    Ok(end)
}
