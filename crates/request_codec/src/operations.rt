//! Operations: requests, and requests that stand for several; their bodies.

ghost use Rattle.std.specs.Prelude.{◌≡◌, ◌≤◌, ◌++◌, ◌∷◌, length, vec_capacity, IfSome, IfNone, IfOk, OnOk, OnErr, IsOk, IsOkUnless};
ghost use Rattle.request_codec.specs.Buffers.{HasRoomFor, AppendsBytes};
ghost use Rattle.request_codec.specs.Operations.{operation_of, operation_body, IsOperation, IsNoOperation, NamesCells, OperationBytesFit};
ghost use Rattle.request_codec.specs.Stream.{IsBody};

use crate::read_lists::{own_cells, own_writes, whole_cells, whole_writes};
use crate::requests::{Request, decode_request, push_request, request_length};
use crate::write_lists::{cells_length, push_commit, push_read, writes_length};
use cell_key::{Refusal, Stamp};
use si_model::{CellName, CellWrite};
use std::alloc::Global;

/// What one body asks of the store: a request, or one that stands for several. Names and values are borrowed from the
/// body that was read, and may be outside their limits. So may the numbers of writes and cells.
#[derive(Debug, Drop)]
pub enum Operation<'a> {
    /// One request.
    One(Request<'a>),
    /// A transaction: these writes and a commit, in the session of the start, or in a new one if the start is 0.
    Commit {
        start: Stamp,
        writes: Vec<CellWrite<'a>>,
    },
    /// Reads of these cells in such a session, which then stays open or ends.
    Read {
        start: Stamp,
        cells: Vec<CellName<'a>>,
        stays_open: bool,
    },
}

pub(crate) const COMMIT: u8 = 0x32;

pub(crate) const READ: u8 = 0x33;

/// A Commit, from its fields; `None` if they are malformed.
fn decode_commit(alloc: Global, fields: &[u8]) -> Result<Option<Operation<'_>>, Refusal>
    ensures found { IfOk result (λ found. IfSome found (λ operation.
        IsOperation (operation_of operation) (0x32 ∷ fields.now))) }
    ensures none { IfOk result (λ found. IfNone found (IsNoOperation (0x32 ∷ fields.now))) }
    ensures refusal { IsOkUnless result Refusal.NoMemory }
    ensures needed { OnErr result (NamesCells (0x32 ∷ fields.now)) }
{
    let Some((start, count, rest)) = whole_writes(fields) else {
        return Ok(None);
    };
    let writes = own_writes(alloc, rest, count)?;
    Ok(Some(Operation::Commit { start, writes }))
}

/// A Read, from its fields; `None` if they are malformed.
fn decode_read(alloc: Global, fields: &[u8]) -> Result<Option<Operation<'_>>, Refusal>
    ensures found { IfOk result (λ found. IfSome found (λ operation.
        IsOperation (operation_of operation) (0x33 ∷ fields.now))) }
    ensures none { IfOk result (λ found. IfNone found (IsNoOperation (0x33 ∷ fields.now))) }
    ensures refusal { IsOkUnless result Refusal.NoMemory }
    ensures needed { OnErr result (NamesCells (0x33 ∷ fields.now)) }
{
    let Some((start, stays_open, count, rest)) = whole_cells(fields) else {
        return Ok(None);
    };
    let cells = own_cells(alloc, rest, count)?;
    Ok(Some(Operation::Read {
        start,
        cells,
        stays_open,
    }))
}

/// The operation with this body; `None` if the body is no operation's. Its names and values are borrowed from the body.
///
/// # Errors
///
/// `NoMemory` if the list of a Commit's writes or of a Read's cells cannot be allocated.
pub fn decode_operation(alloc: Global, body: &[u8]) -> Result<Option<Operation<'_>>, Refusal>
    ensures found { IfOk result (λ found. IfSome found (λ operation.
        IsOperation (operation_of operation) body.now)) }
    ensures none { IfOk result (λ found. IfNone found (IsNoOperation body.now)) }
    ensures refusal { IsOkUnless result Refusal.NoMemory }
    // An operation without a list of cells is never refused.
    ensures needed { OnErr result (NamesCells body.now) }
{
    let Some((operation, fields)) = body.split_first() else {
        return Ok(None);
    };
    match *operation {
        COMMIT => decode_commit(alloc, fields),
        READ => decode_read(alloc, fields),
        _ => {
            let Some(request) = decode_request(body) else {
                return Ok(None);
            };
            Ok(Some(Operation::One(request)))
        }
    }
}

/// The length of an operation's body in bytes.
#[tactic(auto, using(crate::proofs::Fields::lengths))]
fn operation_length(operation: &Operation<'_>) -> usize
    requires fits { OperationBytesFit (operation_of operation.now) }
    requires short { IsBody (operation_body (operation_of operation.now)) }
    ensures { result ≡ length (operation_body (operation_of operation.now)) }
{
    match operation {
        Operation::One(request) => request_length(request),
        Operation::Commit { writes, .. } => 13 + writes_length(writes),
        Operation::Read { cells, .. } => 14 + cells_length(cells),
    }
}

/// Appends the body of an operation.
fn push_operation(operation: &Operation<'_>, out: &mut Vec<u8>)
    requires fits { OperationBytesFit (operation_of operation.now) }
    requires short { IsBody (operation_body (operation_of operation.now)) }
    requires room { HasRoomFor out.old (length (operation_body (operation_of operation.now))) }
    ensures { AppendsBytes out.old out.new (operation_body (operation_of operation.now)) }
{
    match operation {
        Operation::One(request) => push_request(request, out),
        Operation::Commit { start, writes } => push_commit(out, *start, writes),
        Operation::Read {
            start,
            cells,
            stays_open,
        } => push_read(out, *start, cells, *stays_open),
    }
}

/// Appends the body of an operation, which has at most 1,048,576 bytes.
///
/// # Errors
///
/// `NoMemory` if the buffer cannot grow. Then `out` is unchanged.
pub fn encode_operation(operation: &Operation<'_>, out: &mut Vec<u8>) -> Result<(), Refusal>
    requires fits { OperationBytesFit (operation_of operation.now) }
    requires short { IsBody (operation_body (operation_of operation.now)) }
    ensures ok { OnOk result
        (out.new.items ≡ out.old.items ++ operation_body (operation_of operation.now)) }
    ensures err { OnErr result (out.new.items ≡ out.old.items) }
    ensures refusal { IsOkUnless result Refusal.NoMemory }
    // It succeeds if the buffer already has room.
    ensures room { HasRoomFor out.old (length (operation_body (operation_of operation.now)))
        → IsOk result }
    ensures capacity { vec_capacity out.old ≤ vec_capacity out.new }
{
    out.reserve(operation_length(operation))?;
    push_operation(operation, out);
    Ok(())
}
