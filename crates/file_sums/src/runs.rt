//! Several pieces of a file, one after another.

ghost use Rattle.std.specs.Prelude.{◌≡◌, ◌≢◌, ◌+◌, ◌*◌, ◌/◌, ◌%◌, ◌≤◌, ◌<◌, ◌^◌, ◌++◌, ℕ, List, drop, length, IfOk, IsErrOf, OnOk, true, false};
ghost use Rattle.file_sums.specs.Pieces.{IsNoRun, pieces};
ghost use Rattle.file_store.specs.Store.{Reads, part, with_front};
ghost use Rattle.file_sums.specs.Shown.{IsCut, payload_of};

use crate::pieces::{MOST_PAYLOAD, MOST_PIECE, payload_in, push_piece};
use file_store::FileFault;
use std::alloc::{AllocError, Global};

/// The whole pieces of a payload, the first of which has this number, and the rest of the payload.
pub(crate) fn whole_pieces<'a>(
    alloc: Global,
    name: u64,
    first: u64,
    payload: &'a [u8],
) -> Result<(Vec<u8>, &'a [u8]), AllocError>
    requires { first ≤ 2 ^ 62 }
    ensures pieces { IfOk result (λ cut.
        cut.0.items ≡ pieces name first payload.now (length payload.now / 1024)) }
    ensures rest { IfOk result (λ cut.
        cut.1.now ≡ drop (length payload.now / 1024 * 1024) payload.now) }
{
    let mut out = Vec::with_capacity(alloc, payload.len() / MOST_PAYLOAD * MOST_PIECE)?;
    let mut index = first;
    let mut rest = payload;
    while rest.len() >= MOST_PAYLOAD {
        let (front, behind) = rest.split_at(MOST_PAYLOAD);
        push_piece(&mut out, name, index, front)?;
        index += 1;
        rest = behind;
    }
    Ok((out, rest))
}

/// The pieces of a payload up to the last piece of its file, the first of which has this number.
pub(crate) fn last_pieces(
    alloc: Global,
    name: u64,
    first: u64,
    payload: &[u8],
) -> Result<Vec<u8>, AllocError>
    requires { first ≤ 2 ^ 62 }
    ensures { IfOk result (λ out.
        out.items ≡ pieces name first payload.now (length payload.now / 1024 + 1)) }
{
    let (mut out, rest) = whole_pieces(alloc, name, first, payload)?;
    let count = (payload.len() / MOST_PAYLOAD) as u64;
    push_piece(&mut out, name, first + count, rest)?;
    Ok(out)
}

/// The payload of the whole pieces at the front of bytes, the first of which has this number, and the bytes behind them.
///
/// # Errors
///
/// `Device` if there are bytes that are no such piece, though they have the length of a whole one; `Memory`.
fn whole_payloads<'a>(
    alloc: Global,
    name: u64,
    first: u64,
    bytes: &'a [u8],
) -> Result<(Vec<u8>, &'a [u8]), FileFault>
    requires { first ≤ 2 ^ 62 }
    ensures whole { IfOk result (λ cut. length cut.0.items % 1024 ≡ 0) }
    ensures pieces { IfOk result (λ cut. bytes.now
        ≡ pieces name first cut.0.items (length cut.0.items / 1024) ++ cut.1.now) }
    ensures rest { IfOk result (λ cut. length cut.1.now < 1030) }
    ensures damaged { IsErrOf result FileFault.Device → IsNoRun name first bytes.now }
{
    let mut payload = Vec::with_capacity(alloc, bytes.len())?;
    let mut index = first;
    let mut rest = bytes;
    while rest.len() >= MOST_PIECE {
        let (front, behind) = rest.split_at(MOST_PIECE);
        let Some(found) = payload_in(name, index, front) else {
            return Err(FileFault::Device);
        };
        payload.extend_from_slice(found)?;
        index += 1;
        rest = behind;
    }
    Ok((payload, rest))
}

/// The payload of pieces, the first of which has this number. If the file ends with them, the last of them is the last
/// piece of the file; else all are whole.
///
/// # Errors
///
/// `Device` if the bytes are no such pieces; `Memory`.
fn payload_of(
    alloc: Global,
    name: u64,
    first: u64,
    bytes: &[u8],
    ends: bool,
) -> Result<Vec<u8>, FileFault>
    requires { first ≤ 2 ^ 62 }
    ensures whole { ends ≡ false → IfOk result (λ payload. (length payload.items % 1024 ≡ 0)
        × (bytes.now ≡ pieces name first payload.items (length payload.items / 1024))) }
    ensures last { ends ≡ true → IfOk result (λ payload. bytes.now
        ≡ pieces name first payload.items (length payload.items / 1024 + 1)) }
    ensures not_whole { ends ≡ false → IsErrOf result FileFault.Device → (payload : List ℕ)
        → length payload % 1024 ≡ 0
        → bytes.now ≢ pieces name first payload (length payload / 1024) }
    ensures not_last { ends ≡ true → IsErrOf result FileFault.Device → (payload : List ℕ)
        → bytes.now ≢ pieces name first payload (length payload / 1024 + 1) }
{
    let (mut payload, rest) = whole_payloads(alloc, name, first, bytes)?;
    if !ends {
        if !rest.is_empty() {
            return Err(FileFault::Device);
        }
        return Ok(payload);
    }
    let count = (payload.len() / MOST_PAYLOAD) as u64;
    let Some(last) = payload_in(name, first + count, rest) else {
        return Err(FileFault::Device);
    };
    payload.extend_from_slice(last)?;
    Ok(payload)
}

/// Copies a payload from an offset on into a buffer, and answers how many bytes were copied.
fn copy_part(payload: &[u8], offset: usize, out: &mut [u8]) -> usize
    ensures count { result ≡ length (part payload.now offset (length out.old)) }
    ensures within { result ≤ length out.old }
    ensures copied { out.new ≡ with_front (part payload.now offset (length out.old)) out.old }
{
    let rest = &payload[offset.min(payload.len())..];
    let len = rest.len().min(out.len());
    out[..len].copy_from_slice(&rest[..len]);
    len
}

/// Copies the payload of pieces from an offset in it on into a buffer, and answers how many bytes were copied.
///
/// # Errors
///
/// `Device` if the bytes are no such pieces; `Memory`.
pub(crate) fn copy_payload(
    alloc: Global,
    name: u64,
    first: u64,
    bytes: &[u8],
    ends: bool,
    offset: usize,
    out: &mut [u8],
) -> Result<usize, FileFault>
    requires { first ≤ 2 ^ 62 }
    ensures within { IfOk result (λ n. n ≤ length out.old) }
    ensures intact { OnOk result ((payload : List ℕ) × (count : ℕ)
        × (bytes.now ≡ pieces name first payload count)) }
    ensures not_whole { ends ≡ false → IsErrOf result FileFault.Device → (payload : List ℕ)
        → length payload % 1024 ≡ 0
        → bytes.now ≢ pieces name first payload (length payload / 1024) }
    ensures not_last { ends ≡ true → IsErrOf result FileFault.Device → (payload : List ℕ)
        → bytes.now ≢ pieces name first payload (length payload / 1024 + 1) }
    ensures read { IfOk result (λ n. (file : List ℕ) (count : ℕ)
        → bytes.now ≡ part file (first * 1030) (count * 1030)
        → IsCut ends (length bytes.now) (count * 1030) → first * 1030 ≤ length file
        → offset + length out.old ≤ count * 1024
        → Reads (payload_of file) (first * 1024 + offset) out.old out.new n) }
{
    let payload = payload_of(alloc, name, first, bytes, ends)?;
    Ok(copy_part(&payload, offset, out))
}
