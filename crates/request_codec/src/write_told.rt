//! Encoding of a Read's answer at the end of a buffer that has room.

ghost use Rattle.std.specs.Prelude.{◌≡◌, ◌+◌, ◌*◌, ◌≤◌, ◌<◌, ◌^◌, length};
ghost use Rattle.std.specs.List.{flat_map};
ghost use Rattle.si_model.specs.Answers.{read_answer, told_item, told_items};
ghost use Rattle.si_model.specs.Transactions.{most_told, told_length as one_told, told_lengths};
ghost use Rattle.request_codec.specs.Answers.{answer_body, told_fields, AnswerBytesFit};
ghost use Rattle.request_codec.specs.Buffers.{HasRoomFor, AppendsBytes};

use crate::answers::READ;
use crate::replies::NOTHING;
use crate::write_fields::{push_byte, push_u32, push_u64};
use crate::write_scans::push_said;
use si_model::{ReadReply, ScanFound, told_bytes};

/// The length of what is told of cells in bytes.
fn told_length(found: &[Option<ScanFound>]) -> usize
    requires { told_lengths (told_items found.now) ≤ most_told + 255 * 9 }
    ensures { result ≡ told_lengths (told_items found.now) }
{
    let mut rest = found;
    let mut sum = 0;
    'cells: while let Some((told, after)) = rest.split_first() {
        sum += told_bytes(told);
        rest = after;
    }
    sum
}

/// The length of the body of a Read's answer in bytes.
pub(crate) fn read_length(reply: &ReadReply) -> usize
    requires { AnswerBytesFit (read_answer reply.now) }
    ensures { result ≡ length (answer_body (read_answer reply.now)) }
{
    13 + told_length(&reply.found)
}

/// Appends what is told of a cell.
#[tactic(auto, using(crate::proofs::Fields::lengths))]
fn push_one(out: &mut Vec<u8>, told: &Option<ScanFound>)
    requires few { one_told (told_item told.now) < 2 ^ 32 }
    requires room { HasRoomFor out.old (length (told_fields (told_item told.now))) }
    ensures { AppendsBytes out.old out.new (told_fields (told_item told.now)) }
{
    match told {
        None => push_byte(out, NOTHING),
        Some(found) => push_said(out, found),
    }
}

/// Appends what is told of cells.
fn push_told(out: &mut Vec<u8>, found: &[Option<ScanFound>])
    requires short { told_lengths (told_items found.now) ≤ most_told + 255 * 9 }
    requires room { HasRoomFor out.old (length (flat_map told_fields (told_items found.now))) }
    ensures { AppendsBytes out.old out.new (flat_map told_fields (told_items found.now)) }
{
    let mut rest = found;
    'cells: while let Some((told, after)) = rest.split_first() {
        push_one(out, told);
        rest = after;
    }
}

/// Appends the body of a Read's answer.
#[tactic(auto, using(crate::proofs::Fields::lengths))]
pub(crate) fn push_read(out: &mut Vec<u8>, reply: &ReadReply)
    requires fits { AnswerBytesFit (read_answer reply.now) }
    requires room { HasRoomFor out.old (length (answer_body (read_answer reply.now))) }
    ensures { AppendsBytes out.old out.new (answer_body (read_answer reply.now)) }
{
    push_byte(out, READ);
    push_u64(out, reply.start);
    push_u32(out, reply.found.len() as u32);
    push_told(out, &reply.found);
}
