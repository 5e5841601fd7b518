//! Writing the bodies of replies.

ghost use Rattle.std.specs.Prelude.{◌≡◌, ℕ, ◌≤◌, ◌+◌, ◌∷◌, ◌++◌, length, vec_capacity, OnOk, OnErr, IsOk, IsOkUnless, option_map};
ghost use Rattle.cell_key.specs.Versions.{stamped};
ghost use Rattle.request_codec.specs.Buffers.{HasRoomFor, AppendsBytes};
ghost use Rattle.request_codec.specs.Fields.{number};
ghost use Rattle.request_codec.specs.Replies.{replied, reply_body, ReplyBytesFit};
ghost use Rattle.si_model.specs.Messages.{Blocked, RawFound, Reported};
ghost use Rattle.si_model.specs.Replies.{found_reply, progress_reply, clean_start_reply, clean_reply, collect_reply};

use crate::replies::{
    BEGIN, BLOCKED, CHECKPOINT, CLEAN_BEGIN, CLEAN_STEP, CLEANER, COLLECT_BEGIN, COLLECT_STEP,
    COLLECTED, COMMITTED, CONFLICT, DECIDED, DELETE, FINISHED, GET, GONE, HELD, LOST, MAJOR, MERGE,
    MINOR, MORE, MOVE, NO_LOCK, NOTHING, ORACLE_RESTART, PENDING, RAW, REFUSED, ROLLED_BACK,
    ROLLED_FORWARD, Reply, SET, SPLIT, STAMPED, STATUS, STEP, STOP, SWEEP, VALUE, VERSION,
};
use crate::write_fields::{
    push_byte, push_bytes, push_cell, push_field, push_u16, push_u32, push_u64,
};
use crate::write_scans::{push_scanned, scan_length};
use cell_key::{Refusal, Stamp};
use si_model::{Cell, CleanReply, CleanStart, CollectReply, Found, Progress};

/// The length of a reply's body in bytes.
#[tactic(auto, using(crate::proofs::Fields::lengths))]
pub fn reply_length(reply: &Reply) -> usize
    requires { ReplyBytesFit (replied reply.now) }
    ensures { result ≡ length (reply_body (replied reply.now)) }
{
    match reply {
        Reply::Begin(_) | Reply::Sweep(_) => 9,
        Reply::Get(Found::Nothing) | Reply::Raw(None) | Reply::Refused(_) => 2,
        Reply::Get(Found::Value(value)) => 6 + value.len(),
        Reply::Get(Found::Pending(_)) => 10,
        Reply::Scan(reply) => scan_length(reply),
        Reply::Set | Reply::Delete | Reply::Stop => 1,
        Reply::OracleRestart | Reply::Checkpoint => 1,
        Reply::Minor | Reply::Merge | Reply::Major | Reply::Move => 1,
        Reply::Step(progress) => progress_length(*progress),
        Reply::CleanBegin(CleanStart::Cleaner(..)) => 18,
        Reply::CleanStep(CleanReply::RolledForward(_)) => 10,
        Reply::CleanBegin(CleanStart::NoLock) | Reply::CleanStep(_) => 2,
        Reply::CollectBegin(..) => 17,
        Reply::CollectStep(CollectReply::Blocked(cell, _)) => blocked_length(cell),
        Reply::CollectStep(_) => 2,
        Reply::Split(_) => 5,
        Reply::Raw(Some((_, value))) => 14 + value.len(),
        Reply::Status(report) => 1 + report.len(),
    }
}

/// The length of the body of a blocked collector's reply in bytes.
#[tactic(auto, using(crate::proofs::Fields::lengths))]
fn blocked_length(cell: &Cell) -> usize
    ensures { (start : ℕ) → result ≡ length (reply_body (Blocked cell.now start)) }
{
    18 + cell.row.as_bytes().len() + cell.family.as_bytes().len()
}

/// The length of the body of a step's reply in bytes.
#[tactic(auto, using(crate::proofs::Fields::lengths))]
fn progress_length(progress: Progress) -> usize
    ensures { result ≡ length (reply_body (progress_reply progress)) }
{
    match progress {
        Progress::Held(..) | Progress::Finished(..) => 6,
        Progress::Conflict(_) => 4,
        Progress::Stamped(_) | Progress::Committed(_) => 10,
        Progress::Lost => 2,
    }
}

/// Appends the body of a read's reply.
#[tactic(auto, using(crate::proofs::Fields::lengths))]
fn push_found(found: &Found, out: &mut Vec<u8>)
    requires fits { ReplyBytesFit (found_reply found.now) }
    requires room { HasRoomFor out.old (length (reply_body (found_reply found.now))) }
    ensures { AppendsBytes out.old out.new (reply_body (found_reply found.now)) }
{
    push_byte(out, GET);
    match found {
        Found::Nothing => push_byte(out, NOTHING),
        Found::Value(value) => {
            push_byte(out, VALUE);
            push_field(out, value);
        }
        Found::Pending(start) => {
            push_byte(out, PENDING);
            push_u64(out, *start);
        }
    }
}

/// Appends the body of a raw read's reply.
#[tactic(auto, using(crate::proofs::Fields::lengths))]
fn push_raw(found: &Option<(Stamp, Vec<u8>)>, out: &mut Vec<u8>)
    requires fits { ReplyBytesFit (RawFound (option_map stamped found.now)) }
    requires room { HasRoomFor out.old
        (length (reply_body (RawFound (option_map stamped found.now)))) }
    ensures { AppendsBytes out.old out.new (reply_body (RawFound (option_map stamped found.now))) }
{
    push_byte(out, RAW);
    match found {
        None => push_byte(out, NOTHING),
        Some((stamp, value)) => {
            push_byte(out, VERSION);
            push_u64(out, *stamp);
            push_field(out, value);
        }
    }
}

/// Appends the body of a step's reply.
#[tactic(auto, using(crate::proofs::Fields::lengths))]
fn push_progress(progress: Progress, out: &mut Vec<u8>)
    requires { HasRoomFor out.old (length (reply_body (progress_reply progress))) }
    ensures { AppendsBytes out.old out.new (reply_body (progress_reply progress)) }
{
    push_byte(out, STEP);
    match progress {
        Progress::Held(place, count) => {
            push_byte(out, HELD);
            push_u16(out, place);
            push_u16(out, count);
        }
        Progress::Conflict(place) => {
            push_byte(out, CONFLICT);
            push_u16(out, place);
        }
        Progress::Stamped(stamp) => {
            push_byte(out, STAMPED);
            push_u64(out, stamp);
        }
        Progress::Committed(stamp) => {
            push_byte(out, COMMITTED);
            push_u64(out, stamp);
        }
        Progress::Lost => push_byte(out, LOST),
        Progress::Finished(place, count) => {
            push_byte(out, FINISHED);
            push_u16(out, place);
            push_u16(out, count);
        }
    }
}

/// Appends the body of the reply to a cleaner's beginning.
#[tactic(auto, using(crate::proofs::Fields::lengths))]
fn push_clean_start(found: CleanStart, out: &mut Vec<u8>)
    requires { HasRoomFor out.old (length (reply_body (clean_start_reply found))) }
    ensures { AppendsBytes out.old out.new (reply_body (clean_start_reply found)) }
{
    push_byte(out, CLEAN_BEGIN);
    match found {
        CleanStart::NoLock => push_byte(out, NO_LOCK),
        CleanStart::Cleaner(cleaner, start) => {
            push_byte(out, CLEANER);
            push_u64(out, cleaner);
            push_u64(out, start);
        }
    }
}

/// Appends the body of the reply to a cleaner's step.
#[tactic(auto, using(crate::proofs::Fields::lengths))]
fn push_clean_reply(done: CleanReply, out: &mut Vec<u8>)
    requires { HasRoomFor out.old (length (reply_body (clean_reply done))) }
    ensures { AppendsBytes out.old out.new (reply_body (clean_reply done)) }
{
    push_byte(out, CLEAN_STEP);
    match done {
        CleanReply::Decided => push_byte(out, DECIDED),
        CleanReply::RolledForward(stamp) => {
            push_byte(out, ROLLED_FORWARD);
            push_u64(out, stamp);
        }
        CleanReply::RolledBack => push_byte(out, ROLLED_BACK),
        CleanReply::Gone => push_byte(out, GONE),
    }
}

/// Appends the body of the reply to a collector's step.
#[tactic(auto, using(crate::proofs::Fields::lengths))]
fn push_collect_reply(done: &CollectReply, out: &mut Vec<u8>)
    requires { HasRoomFor out.old (length (reply_body (collect_reply done.now))) }
    ensures { AppendsBytes out.old out.new (reply_body (collect_reply done.now)) }
{
    push_byte(out, COLLECT_STEP);
    match done {
        CollectReply::More => push_byte(out, MORE),
        CollectReply::Blocked(cell, start) => {
            push_byte(out, BLOCKED);
            push_cell(out, cell.row.as_bytes(), cell.family.as_bytes());
            push_u64(out, *start);
        }
        CollectReply::Collected => push_byte(out, COLLECTED),
    }
}

/// Appends the number of an operation and an eight-byte number: a start or a count.
#[tactic(auto, using(crate::proofs::Fields::lengths))]
fn push_numbered(out: &mut Vec<u8>, operation: u8, n: u64)
    requires { HasRoomFor out.old 9 }
    ensures { AppendsBytes out.old out.new (operation ∷ number 8 n) }
{
    push_byte(out, operation);
    push_u64(out, n);
}

/// Appends the body of a report.
fn push_status(report: &[u8], out: &mut Vec<u8>)
    requires { HasRoomFor out.old (length report.now + 1) }
    ensures { AppendsBytes out.old out.new (reply_body (Reported report.now)) }
{
    push_byte(out, STATUS);
    push_bytes(out, report);
}

/// Appends the body of a reply, for which there must be room. Allocates nothing.
#[tactic(auto, using(crate::proofs::Fields::lengths))]
pub fn push_reply(reply: &Reply, out: &mut Vec<u8>)
    requires fits { ReplyBytesFit (replied reply.now) }
    requires room { HasRoomFor out.old (length (reply_body (replied reply.now))) }
    ensures { AppendsBytes out.old out.new (reply_body (replied reply.now)) }
{
    match reply {
        Reply::Begin(start) => push_numbered(out, BEGIN, *start),
        Reply::Get(found) => push_found(found, out),
        Reply::Scan(reply) => push_scanned(out, reply),
        Reply::Set => push_byte(out, SET),
        Reply::Delete => push_byte(out, DELETE),
        Reply::Step(progress) => push_progress(*progress, out),
        Reply::Stop => push_byte(out, STOP),
        Reply::CleanBegin(found) => push_clean_start(*found, out),
        Reply::CleanStep(done) => push_clean_reply(*done, out),
        Reply::CollectBegin(collector, floor) => {
            push_byte(out, COLLECT_BEGIN);
            push_u64(out, *collector);
            push_u64(out, *floor);
        }
        Reply::CollectStep(done) => push_collect_reply(done, out),
        Reply::Minor => push_byte(out, MINOR),
        Reply::Merge => push_byte(out, MERGE),
        Reply::Major => push_byte(out, MAJOR),
        Reply::Split(tablet) => {
            push_byte(out, SPLIT);
            push_u32(out, *tablet);
        }
        Reply::Move => push_byte(out, MOVE),
        Reply::Sweep(count) => push_numbered(out, SWEEP, *count),
        Reply::OracleRestart => push_byte(out, ORACLE_RESTART),
        Reply::Raw(found) => push_raw(found, out),
        Reply::Checkpoint => push_byte(out, CHECKPOINT),
        Reply::Status(report) => push_status(report, out),
        Reply::Refused(refusal) => {
            push_byte(out, REFUSED);
            push_byte(out, refusal.number());
        }
    }
}

/// Appends the body of a reply, whose value has at most 4,294,967,295 bytes. Answers `NoMemory` if the buffer cannot
/// grow, and then leaves `out` unchanged.
pub fn encode_reply(reply: &Reply, out: &mut Vec<u8>) -> Result<(), Refusal>
    requires { ReplyBytesFit (replied reply.now) }
    ensures ok { OnOk result (out.new.items ≡ out.old.items ++ reply_body (replied reply.now)) }
    ensures err { OnErr result (out.new.items ≡ out.old.items) }
    ensures refusal { IsOkUnless result Refusal.NoMemory }
    // It succeeds if the buffer already has room.
    ensures room { HasRoomFor out.old (length (reply_body (replied reply.now))) → IsOk result }
    ensures capacity { vec_capacity out.old ≤ vec_capacity out.new }
{
    out.reserve(reply_length(reply))?;
    push_reply(reply, out);
    Ok(())
}
