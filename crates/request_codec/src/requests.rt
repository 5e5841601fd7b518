//! The bodies of requests.
ghost use Rattle.std.specs.Prelude.{◌≡◌, ◌≢◌, ◌+◌, ◌≤◌, ◌<◌, ◌⊎◌, ◌++◌, ◌∷◌, length, vec_capacity, IfSome, IfNone, OnOk, OnErr, IsOk, IsOkUnless};
ghost use Rattle.request_codec.specs.Buffers.{HasRoomFor, AppendsBytes};
ghost use Rattle.request_codec.specs.Requests.{asked, request_body, BytesFit, IsOfClient, IsRequest, IsMalformed};
ghost use Rattle.request_codec.specs.Fields.{number, cell_fields, FitsField};
ghost use Rattle.si_model.specs.Messages.{CleanBegin, Set, Split, Raw};
ghost use Rattle.si_model.specs.Reads.{cell_of};

use crate::read_bodies::{
    whole_bytes, whole_cell, whole_move, whole_raw, whole_read, whole_u32, whole_u32_pair,
    whole_u64, whole_visits, whole_write,
};
use crate::read_scans::whole_scan;
use crate::write_fields::{
    push_byte, push_cell, push_field, push_qualifier, push_u8, push_u32, push_u64,
};
use crate::write_scans::{push_scan, range_length};
use cell_key::{Qualifier, Refusal, Stamp};
use si_model::ScanRange;

/// A request to the store. Rows, families and values are borrowed from the body that was read, and may be outside their
/// limits.
#[derive(Clone, Copy, Debug)]
pub enum Request<'a> {
    /// Begins a session.
    Begin,
    /// Reads a cell as of the session's start.
    Get {
        start: Stamp,
        row: &'a [u8],
        family: &'a [u8],
    },
    /// Reads the cells of a range as of the session's start: their values, or only whether they have one. At most
    /// `cells` of them are looked at.
    Scan {
        start: Stamp,
        range: ScanRange<'a>,
        keys_only: bool,
        cells: u32,
    },
    /// Buffers a write.
    Set {
        start: Stamp,
        row: &'a [u8],
        family: &'a [u8],
        value: &'a [u8],
    },
    /// Buffers a deletion.
    Delete {
        start: Stamp,
        row: &'a [u8],
        family: &'a [u8],
    },
    /// Takes the next step of the session's commit.
    Step {
        start: Stamp,
    },
    /// Ends the session at once.
    Stop {
        start: Stamp,
    },
    /// Opens a cleaner at the lock of a cell.
    CleanBegin {
        row: &'a [u8],
        family: &'a [u8],
    },
    /// Takes the cleaner's next step.
    CleanStep {
        cleaner: u64,
    },
    /// Opens a collector of old versions.
    CollectBegin,
    /// Lets the collector visit at most this many cells.
    CollectStep {
        collector: u64,
        visits: u32,
    },
    /// Writes the memtable of a tablet as a file.
    Minor {
        tablet: u32,
    },
    /// Merges this many of a tablet's newest files.
    Merge {
        tablet: u32,
        count: u32,
    },
    /// Merges the tablet's memtable and all its files into one file.
    Major {
        tablet: u32,
    },
    /// Splits the tablet that holds a row, after the row.
    Split {
        row: &'a [u8],
    },
    /// Moves a tablet to a server.
    Move {
        tablet: u32,
        server: u8,
    },
    /// Removes the files that no tablet has.
    Sweep,
    /// Starts the oracle again from its stored mark.
    OracleRestart,
    /// Reads the newest version of a cell's column in a range of stamps, both bounds included.
    Raw {
        row: &'a [u8],
        family: &'a [u8],
        qualifier: Qualifier,
        lo: Stamp,
        hi: Stamp,
    },
    /// Writes everything in memory to files, from which the store can be opened again.
    Checkpoint,
    /// Tells how the store is, and how a tablet is.
    Status {
        tablet: u32,
    },
}

const BEGIN: u8 = 0x01;

const GET: u8 = 0x02;

const SET: u8 = 0x03;

const STEP: u8 = 0x04;

const STOP: u8 = 0x05;

const CLEAN_BEGIN: u8 = 0x06;

const CLEAN_STEP: u8 = 0x07;

const COLLECT_BEGIN: u8 = 0x08;

const COLLECT_STEP: u8 = 0x09;

const MINOR: u8 = 0x0A;

const MERGE: u8 = 0x0B;

const MAJOR: u8 = 0x0C;

const SPLIT: u8 = 0x0D;

const MOVE: u8 = 0x0E;

const SWEEP: u8 = 0x0F;

const ORACLE_RESTART: u8 = 0x10;

const RAW: u8 = 0x11;

const CHECKPOINT: u8 = 0x12;

const DELETE: u8 = 0x13;

pub(crate) const SCAN: u8 = 0x31;

const STATUS: u8 = 0x34;

/// The request of a session, a cleaner or a collector whose body begins with this operation's number; `None` if the
/// body is no request's.
fn decode_client(operation: u8, fields: &[u8]) -> Option<Request<'_>>
    requires { (operation < 0x0A) ⊎ (operation ≡ 0x13) }
    ensures found { IfSome result (λ request. IsRequest (asked request) (operation ∷ fields.now)) }
    ensures malformed { IfNone result (IsMalformed (operation ∷ fields.now)) }
{
    match operation {
        BEGIN => fields.is_empty().then_some(Request::Begin),
        GET => {
            let (start, row, family) = whole_read(fields)?;
            Some(Request::Get { start, row, family })
        }
        SET => {
            let (start, row, family, value) = whole_write(fields)?;
            Some(Request::Set {
                start,
                row,
                family,
                value,
            })
        }
        STEP => {
            let start = whole_u64(fields)?;
            Some(Request::Step { start })
        }
        STOP => {
            let start = whole_u64(fields)?;
            Some(Request::Stop { start })
        }
        CLEAN_BEGIN => {
            let (row, family) = whole_cell(fields)?;
            Some(Request::CleanBegin { row, family })
        }
        CLEAN_STEP => {
            let cleaner = whole_u64(fields)?;
            Some(Request::CleanStep { cleaner })
        }
        COLLECT_BEGIN => fields.is_empty().then_some(Request::CollectBegin),
        COLLECT_STEP => {
            let (collector, visits) = whole_visits(fields)?;
            Some(Request::CollectStep { collector, visits })
        }
        DELETE => {
            let (start, row, family) = whole_read(fields)?;
            Some(Request::Delete { start, row, family })
        }
        _ => None,
    }
}

/// The request of no client whose body begins with this operation's number; `None` if the body is no request's.
fn decode_upkeep(operation: u8, fields: &[u8]) -> Option<Request<'_>>
    requires later { 0x0A ≤ operation }
    requires other { operation ≢ 0x13 }
    requires scan { operation ≢ 0x31 }
    ensures found { IfSome result (λ request. IsRequest (asked request) (operation ∷ fields.now)) }
    ensures malformed { IfNone result (IsMalformed (operation ∷ fields.now)) }
{
    match operation {
        MINOR => {
            let tablet = whole_u32(fields)?;
            Some(Request::Minor { tablet })
        }
        MERGE => {
            let (tablet, count) = whole_u32_pair(fields)?;
            Some(Request::Merge { tablet, count })
        }
        MAJOR => {
            let tablet = whole_u32(fields)?;
            Some(Request::Major { tablet })
        }
        SPLIT => {
            let row = whole_bytes(fields)?;
            Some(Request::Split { row })
        }
        MOVE => {
            let (tablet, server) = whole_move(fields)?;
            Some(Request::Move { tablet, server })
        }
        SWEEP => fields.is_empty().then_some(Request::Sweep),
        ORACLE_RESTART => fields.is_empty().then_some(Request::OracleRestart),
        RAW => decode_raw(fields),
        CHECKPOINT => fields.is_empty().then_some(Request::Checkpoint),
        STATUS => {
            let tablet = whole_u32(fields)?;
            Some(Request::Status { tablet })
        }
        _ => None,
    }
}

/// A raw read, from its fields; `None` if they are malformed.
fn decode_raw(fields: &[u8]) -> Option<Request<'_>>
    ensures found { IfSome result (λ request. IsRequest (asked request) (0x11 ∷ fields.now)) }
    ensures malformed { IfNone result (IsMalformed (0x11 ∷ fields.now)) }
{
    let (row, family, qualifier, lo, hi) = whole_raw(fields)?;
    Some(Request::Raw {
        row,
        family,
        qualifier,
        lo,
        hi,
    })
}

/// A scan, from its fields; `None` if they are malformed.
fn decode_scan(fields: &[u8]) -> Option<Request<'_>>
    ensures found { IfSome result (λ request. IsRequest (asked request) (0x31 ∷ fields.now)) }
    ensures malformed { IfNone result (IsMalformed (0x31 ∷ fields.now)) }
{
    let (start, keys_only, range, cells) = whole_scan(fields)?;
    Some(Request::Scan {
        start,
        range,
        keys_only,
        cells,
    })
}

/// The request with this body; `None` if the body is no request's. Its fields are borrowed from the body.
pub fn decode_request(body: &[u8]) -> Option<Request<'_>>
    ensures found { IfSome result (λ request. IsRequest (asked request) body.now) }
    ensures malformed { IfNone result (IsMalformed body.now) }
{
    let (operation, fields) = body.split_first()?;
    if *operation == SCAN {
        decode_scan(fields)
    } else if *operation < MINOR || *operation == DELETE {
        decode_client(*operation, fields)
    } else {
        decode_upkeep(*operation, fields)
    }
}

/// The length of a request's body in bytes.
#[tactic(auto, using(crate::proofs::Fields::lengths))]
pub(crate) fn request_length(request: &Request<'_>) -> usize
    requires { BytesFit (asked request.now) }
    ensures { result ≡ length (request_body (asked request.now)) }
{
    match *request {
        Request::Begin | Request::CollectBegin => 1,
        Request::Sweep | Request::OracleRestart | Request::Checkpoint => 1,
        Request::Get { row, family, .. } | Request::Delete { row, family, .. } => {
            17 + row.len() + family.len()
        }
        Request::Scan { range, .. } => 14 + range_length(range),
        Request::Set {
            row,
            family,
            value,
            ..
        } => 21 + row.len() + family.len() + value.len(),
        Request::CleanBegin { row, family } => 9 + row.len() + family.len(),
        Request::Step { .. }
        | Request::Stop { .. }
        | Request::CleanStep { .. }
        | Request::Merge { .. } => 9,
        Request::CollectStep { .. } => 13,
        Request::Minor { .. } | Request::Major { .. } | Request::Status { .. } => 5,
        Request::Split { row } => 5 + row.len(),
        Request::Move { .. } => 6,
        Request::Raw { row, family, .. } => 26 + row.len() + family.len(),
    }
}

/// Appends the number of an operation and an eight-byte number: a start, a cleaner or a collector.
#[tactic(auto, using(crate::proofs::Fields::lengths))]
fn push_numbered(out: &mut Vec<u8>, operation: u8, n: u64)
    requires { HasRoomFor out.old 9 }
    ensures { AppendsBytes out.old out.new (operation ∷ number 8 n) }
{
    push_byte(out, operation);
    push_u64(out, n);
}

/// Appends the number of an operation and the number of a tablet.
#[tactic(auto, using(crate::proofs::Fields::lengths))]
fn push_tablet(out: &mut Vec<u8>, operation: u8, tablet: u32)
    requires { HasRoomFor out.old 5 }
    ensures { AppendsBytes out.old out.new (operation ∷ number 4 tablet) }
{
    push_byte(out, operation);
    push_u32(out, tablet);
}

/// Appends the number of an operation, a start and a cell: the body of a read or of a deletion.
#[tactic(auto, using(crate::proofs::Fields::lengths))]
fn push_of_cell(out: &mut Vec<u8>, operation: u8, start: Stamp, row: &[u8], family: &[u8])
    requires row { FitsField row.now }
    requires family { FitsField family.now }
    requires room { HasRoomFor out.old (length row.now + length family.now + 17) }
    ensures { AppendsBytes out.old out.new
        (operation ∷ (number 8 start ++ cell_fields (cell_of row.now family.now))) }
{
    push_numbered(out, operation, start);
    push_cell(out, row, family);
}

/// Appends the body of a write.
#[tactic(auto, using(crate::proofs::Fields::lengths))]
fn push_set(out: &mut Vec<u8>, start: Stamp, row: &[u8], family: &[u8], value: &[u8])
    requires row { FitsField row.now }
    requires family { FitsField family.now }
    requires value { FitsField value.now }
    requires room { HasRoomFor out.old
        (length row.now + length family.now + length value.now + 21) }
    ensures { AppendsBytes out.old out.new
        (request_body (Set start (cell_of row.now family.now) value.now)) }
{
    push_numbered(out, SET, start);
    push_cell(out, row, family);
    push_field(out, value);
}

/// Appends the body of a cleaner's beginning.
#[tactic(auto, using(crate::proofs::Fields::lengths))]
fn push_clean_begin(out: &mut Vec<u8>, row: &[u8], family: &[u8])
    requires row { FitsField row.now }
    requires family { FitsField family.now }
    requires room { HasRoomFor out.old (length row.now + length family.now + 9) }
    ensures { AppendsBytes out.old out.new
        (request_body (CleanBegin (cell_of row.now family.now))) }
{
    push_byte(out, CLEAN_BEGIN);
    push_cell(out, row, family);
}

/// Appends the body of a split.
#[tactic(auto, using(crate::proofs::Fields::lengths))]
fn push_split(out: &mut Vec<u8>, row: &[u8])
    requires row { FitsField row.now }
    requires room { HasRoomFor out.old (length row.now + 5) }
    ensures { AppendsBytes out.old out.new (request_body (Split row.now)) }
{
    push_byte(out, SPLIT);
    push_field(out, row);
}

/// Appends the body of a raw read.
#[tactic(auto, using(crate::proofs::Fields::lengths))]
fn push_raw(
    out: &mut Vec<u8>,
    row: &[u8],
    family: &[u8],
    qualifier: Qualifier,
    lo: Stamp,
    hi: Stamp,
)
    requires row { FitsField row.now }
    requires family { FitsField family.now }
    requires room { HasRoomFor out.old (length row.now + length family.now + 26) }
    ensures { AppendsBytes out.old out.new
        (request_body (Raw (cell_of row.now family.now) qualifier lo hi)) }
{
    push_byte(out, RAW);
    push_cell(out, row, family);
    push_qualifier(out, qualifier);
    push_u64(out, lo);
    push_u64(out, hi);
}

/// Appends the body of a session's, a cleaner's or a collector's request.
#[tactic(auto, using(crate::proofs::Fields::lengths))]
fn push_client(request: &Request<'_>, out: &mut Vec<u8>)
    requires client { IsOfClient (asked request.now) }
    requires fits { BytesFit (asked request.now) }
    requires room { HasRoomFor out.old (length (request_body (asked request.now))) }
    ensures { AppendsBytes out.old out.new (request_body (asked request.now)) }
{
    match *request {
        Request::Begin => push_byte(out, BEGIN),
        Request::Get { start, row, family } => push_of_cell(out, GET, start, row, family),
        Request::Scan {
            start,
            range,
            keys_only,
            cells,
        } => push_scan(out, start, range, keys_only, cells),
        Request::Set {
            start,
            row,
            family,
            value,
        } => push_set(out, start, row, family, value),
        Request::Delete { start, row, family } => push_of_cell(out, DELETE, start, row, family),
        Request::Step { start } => push_numbered(out, STEP, start),
        Request::Stop { start } => push_numbered(out, STOP, start),
        Request::CleanBegin { row, family } => push_clean_begin(out, row, family),
        Request::CleanStep { cleaner } => push_numbered(out, CLEAN_STEP, cleaner),
        Request::CollectBegin => push_byte(out, COLLECT_BEGIN),
        Request::CollectStep { collector, visits } => {
            push_numbered(out, COLLECT_STEP, collector);
            push_u32(out, visits);
        }
        _ => unreachable!(),
    }
}

/// Appends the body of a request of no client.
#[tactic(auto, using(crate::proofs::Fields::lengths))]
fn push_upkeep(request: &Request<'_>, out: &mut Vec<u8>)
    requires upkeep { ¬ (IsOfClient (asked request.now)) }
    requires fits { BytesFit (asked request.now) }
    requires room { HasRoomFor out.old (length (request_body (asked request.now))) }
    ensures { AppendsBytes out.old out.new (request_body (asked request.now)) }
{
    match *request {
        Request::Minor { tablet } => push_tablet(out, MINOR, tablet),
        Request::Merge { tablet, count } => {
            push_tablet(out, MERGE, tablet);
            push_u32(out, count);
        }
        Request::Major { tablet } => push_tablet(out, MAJOR, tablet),
        Request::Split { row } => push_split(out, row),
        Request::Move { tablet, server } => {
            push_tablet(out, MOVE, tablet);
            push_u8(out, server);
        }
        Request::Sweep => push_byte(out, SWEEP),
        Request::OracleRestart => push_byte(out, ORACLE_RESTART),
        Request::Raw {
            row,
            family,
            qualifier,
            lo,
            hi,
        } => push_raw(out, row, family, qualifier, lo, hi),
        Request::Checkpoint => push_byte(out, CHECKPOINT),
        Request::Status { tablet } => push_tablet(out, STATUS, tablet),
        _ => unreachable!(),
    }
}

/// Appends the body of a request.
pub(crate) fn push_request(request: &Request<'_>, out: &mut Vec<u8>)
    requires fits { BytesFit (asked request.now) }
    requires room { HasRoomFor out.old (length (request_body (asked request.now))) }
    ensures { AppendsBytes out.old out.new (request_body (asked request.now)) }
{
    match *request {
        Request::Begin
        | Request::Get { .. }
        | Request::Scan { .. }
        | Request::Set { .. }
        | Request::Delete { .. }
        | Request::Step { .. }
        | Request::Stop { .. }
        | Request::CleanBegin { .. }
        | Request::CleanStep { .. }
        | Request::CollectBegin
        | Request::CollectStep { .. } => push_client(request, out),
        _ => push_upkeep(request, out),
    }
}

/// Appends the body of a request. Its rows, families and values have at most 4,294,967,295 bytes each. Answers
/// `NoMemory` if the buffer cannot grow, and then leaves `out` unchanged.
pub fn encode_request(request: &Request<'_>, out: &mut Vec<u8>) -> Result<(), Refusal>
    requires { BytesFit (asked request.now) }
    ensures ok { OnOk result (out.new.items ≡ out.old.items ++ request_body (asked request.now)) }
    ensures err { OnErr result (out.new.items ≡ out.old.items) }
    ensures refusal { IsOkUnless result Refusal.NoMemory }
    // It succeeds if the buffer already has room.
    ensures room { HasRoomFor out.old (length (request_body (asked request.now))) → IsOk result }
    ensures capacity { vec_capacity out.old ≤ vec_capacity out.new }
{
    out.reserve(request_length(request))?;
    push_request(request, out);
    Ok(())
}
