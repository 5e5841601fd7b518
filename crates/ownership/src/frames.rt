//! The bodies of frames that have a client.

ghost use Rattle.std.specs.Prelude.{◌≡◌, ◌<◌, ◌^◌, ◌++◌, IfErr, IfNone, IfOk, IfSome, OnErr, length};
ghost use Rattle.request_codec.specs.Fields.{number};
ghost use Rattle.request_codec.specs.Operations.{IsOperation, NamesCells, operation_of};
ghost use Rattle.ownership.specs.Frames.{IsOfClient, IsRead, IsUnread};

use byteorder::{BigEndian, ByteOrder};
use request_codec::{Operation, decode_operation};
use std::alloc::Global;

/// What the body of a frame says.
#[derive(Debug, Drop)]
pub enum Frame<'a> {
    /// A client asks for an operation.
    Asks(u32, Operation<'a>),
    /// A client is gone.
    Leaves(u32),
    /// A client sends what is no operation.
    Malformed(u32),
    /// There is no client's number.
    NoClient,
}

/// The number in four bytes.
fn u32_of(bytes: &[u8]) -> u32
    requires { length bytes.now ≡ 4 }
    ensures bytes { bytes.now ≡ number 4 result }
    ensures fits { result < 2 ^ 32 }
{
    BigEndian::read_u32(bytes)
}

/// The client's number that a body begins with, and what follows it. `None` for fewer than four bytes.
pub fn split_client(body: &[u8]) -> Option<(u32, &[u8])>
    ensures some { IfSome result (λ p. IsOfClient p.0 p.1.now body.now) }
    ensures none { IfNone result (length body.now < 4) }
{
    let (front, rest) = body.split_at_checked(4)?;
    let client = u32_of(front);
    Some((client, rest))
}

/// What a body says. Names and values of an operation are borrowed from it.
///
/// # Errors
///
/// `NoMemory`, with the client's number, if the list of a Commit's writes or of a Read's cells cannot be allocated.
pub fn decode_frame(alloc: Global, body: &[u8]) -> Result<Frame<'_>, u32>
    ensures ok { IfOk result (IsRead body.now) }
    ensures err { IfErr result (IsUnread body.now) }
{
    let Some((client, rest)) = split_client(body) else {
        return Ok(Frame::NoClient);
    };
    if rest.is_empty() {
        return Ok(Frame::Leaves(client));
    }
    match decode_operation(alloc, rest) {
        Ok(Some(operation)) => Ok(Frame::Asks(client, operation)),
        Ok(None) => Ok(Frame::Malformed(client)),
        Err(_) => Err(client),
    }
}
