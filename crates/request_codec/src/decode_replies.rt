//! Reading the bodies of replies.

ghost use Rattle.std.specs.Prelude.{◌≡◌, ◌≢◌, ◌∷◌, [], IfOk, IfSome, IfNone, IsOkUnless, OnErr};
ghost use Rattle.cell_key.specs.Names.{IsRow, IsFamily};
ghost use Rattle.cell_key.specs.Refusals.{refusal_number};
ghost use Rattle.cell_key.specs.declared.refusals.Refusal.{Refusal as Refusals};
ghost use Rattle.request_codec.specs.Replies.{replied, IsReply, IsNoReply, NeedsMemory};
ghost use Rattle.si_model.specs.Replies.{found_reply, progress_reply, clean_start_reply, clean_reply, collect_reply, scan_reply};

use crate::read_bodies::{
    whole_bytes, whole_lock, whole_u16, whole_u16_pair, whole_u32, whole_u64, whole_u64_pair,
    whole_version,
};
use crate::read_items::{own_items, own_reach, whole_scanned};
use crate::replies::{
    BEGIN, BLOCKED, CHECKPOINT, CLEAN_BEGIN, CLEAN_STEP, CLEANER, COLLECT_BEGIN, COLLECT_STEP,
    COLLECTED, COMMITTED, CONFLICT, DECIDED, DELETE, FINISHED, GET, GONE, HELD, LOST, MAJOR, MERGE,
    MINOR, MORE, MOVE, NO_LOCK, NOTHING, ORACLE_RESTART, PENDING, RAW, REFUSED, ROLLED_BACK,
    ROLLED_FORWARD, Reply, SCAN, SET, SPLIT, STAMPED, STATUS, STEP, STOP, SWEEP, VALUE, VERSION,
};
use cell_key::{Family, Refusal, Row};
use si_model::{Cell, CleanReply, CleanStart, CollectReply, Found, Progress, ScanReply};
use std::alloc::{AllocError, Global};

/// The refusal with a number.
fn refusal_of(number: u8) -> Option<Refusal>
    ensures found { IfSome result (λ refusal. refusal_number refusal ≡ number) }
    ensures none { IfNone result ((refusal : Refusals) → refusal_number refusal ≢ number) }
{
    Some(match number {
        1 => Refusal::UnknownSession,
        2 => Refusal::WrongPhase,
        3 => Refusal::BadRow,
        4 => Refusal::BadColumn,
        5 => Refusal::BadValue,
        6 => Refusal::TooManyWrites,
        7 => Refusal::TooManySessions,
        8 => Refusal::EmptyCommit,
        9 => Refusal::UnknownCleaner,
        10 => Refusal::UnknownCollector,
        11 => Refusal::UnknownTablet,
        12 => Refusal::BadSplit,
        13 => Refusal::UnknownServer,
        14 => Refusal::BadCount,
        15 => Refusal::MemtableFull,
        16 => Refusal::TooManyFiles,
        17 => Refusal::FileTooLarge,
        18 => Refusal::Exhausted,
        19 => Refusal::Device,
        20 => Refusal::NoMemory,
        21 => Refusal::Damaged,
        22 => Refusal::BadRequest,
        23 => Refusal::FrameTooLarge,
        _ => return None,
    })
}

/// The result of a read, from the fields of its reply.
fn decode_found(alloc: Global, fields: &[u8]) -> Result<Option<Found>, AllocError>
    ensures found { IfOk result (λ found.
        IfSome found (λ found. IsReply (found_reply found) (0x82 ∷ fields.now))) }
    ensures none { IfOk result (λ found. IfNone found (IsNoReply (0x82 ∷ fields.now))) }
    ensures needed { OnErr result (NeedsMemory (0x82 ∷ fields.now)) }
{
    let Some((tag, rest)) = fields.split_first() else {
        return Ok(None);
    };
    match *tag {
        NOTHING => Ok(rest.is_empty().then_some(Found::Nothing)),
        VALUE => {
            let Some(value) = whole_bytes(rest) else {
                return Ok(None);
            };
            Ok(Some(Found::Value(Vec::from_slice(alloc, value)?)))
        }
        PENDING => {
            let Some(start) = whole_u64(rest) else {
                return Ok(None);
            };
            Ok(Some(Found::Pending(start)))
        }
        _ => Ok(None),
    }
}

/// The reply of a raw read, from its fields; `None` if they are malformed.
fn decode_raw(alloc: Global, fields: &[u8]) -> Result<Option<Reply>, AllocError>
    ensures found { IfOk result (λ found.
        IfSome found (λ reply. IsReply (replied reply) (0x91 ∷ fields.now))) }
    ensures none { IfOk result (λ found. IfNone found (IsNoReply (0x91 ∷ fields.now))) }
    ensures needed { OnErr result (NeedsMemory (0x91 ∷ fields.now)) }
{
    let Some((tag, rest)) = fields.split_first() else {
        return Ok(None);
    };
    match *tag {
        NOTHING => Ok(rest.is_empty().then_some(Reply::Raw(None))),
        VERSION => {
            let Some((stamp, value)) = whole_version(rest) else {
                return Ok(None);
            };
            let value = Vec::from_slice(alloc, value)?;
            Ok(Some(Reply::Raw(Some((stamp, value)))))
        }
        _ => Ok(None),
    }
}

/// The result of a scan, from the fields of its reply; `None` if they are malformed.
fn decode_scan(alloc: Global, fields: &[u8]) -> Result<Option<ScanReply>, Refusal>
    ensures found { IfOk result (λ found.
        IfSome found (λ reply. IsReply (scan_reply reply) (0xB1 ∷ fields.now))) }
    ensures none { IfOk result (λ found. IfNone found (IsNoReply (0xB1 ∷ fields.now))) }
    ensures refusal { IsOkUnless result Refusal.NoMemory }
    ensures needed { OnErr result (NeedsMemory (0xB1 ∷ fields.now)) }
{
    let Some((reach, count, rest)) = whole_scanned(fields) else {
        return Ok(None);
    };
    let reach = own_reach(alloc, reach)?;
    let items = own_items(alloc, rest, count)?;
    Ok(Some(ScanReply { items, reach }))
}

/// The reply with a report: all bytes behind the number are the report.
fn decode_status(alloc: Global, fields: &[u8]) -> Result<Reply, AllocError>
    ensures found { IfOk result (λ reply. IsReply (replied reply) (0xB4 ∷ fields.now)) }
    ensures needed { OnErr result (NeedsMemory (0xB4 ∷ fields.now)) }
{
    Ok(Reply::Status(Vec::from_slice(alloc, fields)?))
}

/// The result of a session's step, from the fields of its reply.
fn decode_progress(fields: &[u8]) -> Option<Progress>
    ensures found { IfSome result (λ progress.
        IsReply (progress_reply progress) (0x84 ∷ fields.now)) }
    ensures none { IfNone result (IsNoReply (0x84 ∷ fields.now)) }
{
    let (tag, rest) = fields.split_first()?;
    match *tag {
        HELD => {
            let (place, count) = whole_u16_pair(rest)?;
            Some(Progress::Held(place, count))
        }
        CONFLICT => {
            let place = whole_u16(rest)?;
            Some(Progress::Conflict(place))
        }
        STAMPED => {
            let stamp = whole_u64(rest)?;
            Some(Progress::Stamped(stamp))
        }
        COMMITTED => {
            let stamp = whole_u64(rest)?;
            Some(Progress::Committed(stamp))
        }
        LOST => rest.is_empty().then_some(Progress::Lost),
        FINISHED => {
            let (place, count) = whole_u16_pair(rest)?;
            Some(Progress::Finished(place, count))
        }
        _ => None,
    }
}

/// The result of a cleaner's beginning, from the fields of its reply.
fn decode_clean_start(fields: &[u8]) -> Option<CleanStart>
    ensures found { IfSome result (λ found. IsReply (clean_start_reply found) (0x86 ∷ fields.now)) }
    ensures none { IfNone result (IsNoReply (0x86 ∷ fields.now)) }
{
    let (tag, rest) = fields.split_first()?;
    match *tag {
        NO_LOCK => rest.is_empty().then_some(CleanStart::NoLock),
        CLEANER => {
            let (cleaner, start) = whole_u64_pair(rest)?;
            Some(CleanStart::Cleaner(cleaner, start))
        }
        _ => None,
    }
}

/// The result of a cleaner's step, from the fields of its reply.
fn decode_clean_reply(fields: &[u8]) -> Option<CleanReply>
    ensures found { IfSome result (λ done. IsReply (clean_reply done) (0x87 ∷ fields.now)) }
    ensures none { IfNone result (IsNoReply (0x87 ∷ fields.now)) }
{
    let (tag, rest) = fields.split_first()?;
    match *tag {
        DECIDED => rest.is_empty().then_some(CleanReply::Decided),
        ROLLED_FORWARD => {
            let stamp = whole_u64(rest)?;
            Some(CleanReply::RolledForward(stamp))
        }
        ROLLED_BACK => rest.is_empty().then_some(CleanReply::RolledBack),
        GONE => rest.is_empty().then_some(CleanReply::Gone),
        _ => None,
    }
}

/// The cell of a row and a family; `None` if one of them is outside its limits.
#[tactic(auto, using(crate::proofs::Names::row_stable, crate::proofs::Names::family_stable))]
fn cell_of(alloc: Global, row: &[u8], family: &[u8]) -> Result<Option<Cell>, Refusal>
    ensures found { IfOk result (λ found.
        IfSome found (λ cell. (cell.row ≡ row.now) × (cell.family ≡ family.now))) }
    ensures valid { IfOk result (λ found.
        IfSome found (λ cell. IsRow cell.row × IsFamily cell.family)) }
    ensures none { IfOk result (λ found.
        IfNone found (¬ (IsRow row.now × IsFamily family.now))) }
    ensures refusal { IsOkUnless result Refusal.NoMemory }
    ensures needed { OnErr result (IsRow row.now × IsFamily family.now) }
{
    let row = match Row::new(alloc, row) {
        Err(Refusal::BadRow) => return Ok(None),
        row => row,
    };
    let family = match Family::new(alloc, family) {
        Err(Refusal::BadColumn) => return Ok(None),
        family => family,
    };
    Ok(Some(Cell {
        row: row?,
        family: family?,
    }))
}

/// The result of a collector's step, from the fields of its reply.
fn decode_collect_reply(alloc: Global, fields: &[u8]) -> Result<Option<CollectReply>, Refusal>
    ensures found { IfOk result (λ found.
        IfSome found (λ done. IsReply (collect_reply done) (0x89 ∷ fields.now))) }
    ensures none { IfOk result (λ found. IfNone found (IsNoReply (0x89 ∷ fields.now))) }
    ensures refusal { IsOkUnless result Refusal.NoMemory }
    ensures needed { OnErr result (NeedsMemory (0x89 ∷ fields.now)) }
{
    let Some((tag, rest)) = fields.split_first() else {
        return Ok(None);
    };
    match *tag {
        MORE => Ok(rest.is_empty().then_some(CollectReply::More)),
        BLOCKED => decode_blocked(alloc, rest),
        COLLECTED => Ok(rest.is_empty().then_some(CollectReply::Collected)),
        _ => Ok(None),
    }
}

/// The answer of a blocked collector, from the fields after the tag.
fn decode_blocked(alloc: Global, rest: &[u8]) -> Result<Option<CollectReply>, Refusal>
    ensures found { IfOk result (λ found.
        IfSome found (λ done. IsReply (collect_reply done) (0x89 ∷ 0x02 ∷ rest.now))) }
    ensures none { IfOk result (λ found. IfNone found (IsNoReply (0x89 ∷ 0x02 ∷ rest.now))) }
    ensures refusal { IsOkUnless result Refusal.NoMemory }
    ensures needed { OnErr result (NeedsMemory (0x89 ∷ 0x02 ∷ rest.now)) }
{
    let Some((row, family, start)) = whole_lock(rest) else {
        return Ok(None);
    };
    let Some(cell) = cell_of(alloc, row, family)? else {
        return Ok(None);
    };
    Ok(Some(CollectReply::Blocked(cell, start)))
}

/// The refusal in the fields of a refusal's body.
fn decode_refusal(fields: &[u8]) -> Option<Refusal>
    ensures found { IfSome result (λ refusal. fields.now ≡ refusal_number refusal ∷ []) }
    ensures none { IfNone result ((refusal : Refusals) → fields.now ≢ refusal_number refusal ∷ []) }
{
    let (number, rest) = fields.split_first()?;
    if !rest.is_empty() {
        return None;
    }
    refusal_of(*number)
}

/// The reply whose body begins with this operation's number; `None` if the body is no reply's. The operation is not a
/// read, a scan, a collector's step or a report.
fn decode_other(operation: u8, fields: &[u8]) -> Option<Reply>
    requires get { operation ≢ 0x82 }
    requires collect { operation ≢ 0x89 }
    requires raw { operation ≢ 0x91 }
    requires scan { operation ≢ 0xB1 }
    requires status { operation ≢ 0xB4 }
    ensures found { IfSome result (λ reply. IsReply (replied reply) (operation ∷ fields.now)) }
    ensures none { IfNone result (IsNoReply (operation ∷ fields.now)) }
{
    match operation {
        BEGIN => {
            let start = whole_u64(fields)?;
            Some(Reply::Begin(start))
        }
        SET => fields.is_empty().then_some(Reply::Set),
        DELETE => fields.is_empty().then_some(Reply::Delete),
        STEP => {
            let progress = decode_progress(fields)?;
            Some(Reply::Step(progress))
        }
        STOP => fields.is_empty().then_some(Reply::Stop),
        CLEAN_BEGIN => {
            let found = decode_clean_start(fields)?;
            Some(Reply::CleanBegin(found))
        }
        CLEAN_STEP => {
            let done = decode_clean_reply(fields)?;
            Some(Reply::CleanStep(done))
        }
        COLLECT_BEGIN => {
            let (collector, floor) = whole_u64_pair(fields)?;
            Some(Reply::CollectBegin(collector, floor))
        }
        MINOR => fields.is_empty().then_some(Reply::Minor),
        MERGE => fields.is_empty().then_some(Reply::Merge),
        MAJOR => fields.is_empty().then_some(Reply::Major),
        SPLIT => {
            let tablet = whole_u32(fields)?;
            Some(Reply::Split(tablet))
        }
        MOVE => fields.is_empty().then_some(Reply::Move),
        SWEEP => {
            let count = whole_u64(fields)?;
            Some(Reply::Sweep(count))
        }
        ORACLE_RESTART => fields.is_empty().then_some(Reply::OracleRestart),
        CHECKPOINT => fields.is_empty().then_some(Reply::Checkpoint),
        REFUSED => {
            let refusal = decode_refusal(fields)?;
            Some(Reply::Refused(refusal))
        }
        _ => None,
    }
}

/// The reply with this body; `None` if the body is no reply's. Answers `NoMemory` if a value, a report, the cell that
/// blocks a collector, or the items or names of a scan cannot be allocated.
pub fn decode_reply(alloc: Global, body: &[u8]) -> Result<Option<Reply>, Refusal>
    ensures found { IfOk result (λ found.
        IfSome found (λ reply. IsReply (replied reply) body.now)) }
    ensures none { IfOk result (λ found. IfNone found (IsNoReply body.now)) }
    ensures refusal { IsOkUnless result Refusal.NoMemory }
    // A reply without bytes is never refused.
    ensures needed { OnErr result (NeedsMemory body.now) }
{
    let Some((operation, fields)) = body.split_first() else {
        return Ok(None);
    };
    match *operation {
        GET => {
            let Some(found) = decode_found(alloc, fields)? else {
                return Ok(None);
            };
            Ok(Some(Reply::Get(found)))
        }
        RAW => Ok(decode_raw(alloc, fields)?),
        STATUS => Ok(Some(decode_status(alloc, fields)?)),
        SCAN => {
            let Some(reply) = decode_scan(alloc, fields)? else {
                return Ok(None);
            };
            Ok(Some(Reply::Scan(reply)))
        }
        COLLECT_STEP => {
            let Some(done) = decode_collect_reply(alloc, fields)? else {
                return Ok(None);
            };
            Ok(Some(Reply::CollectStep(done)))
        }
        _ => Ok(decode_other(*operation, fields)),
    }
}
