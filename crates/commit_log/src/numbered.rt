//! Format 2 of a log's frames: each record has a number, and no whole later frame may follow a broken one.

ghost use Rattle.std.specs.Prelude.{◌≡◌, ◌≢◌, ◌+◌, ◌*◌, ◌≤◌, ◌<◌, ◌^◌, ◌⊎◌, ◌++◌, ◌↔◌, ℕ, List, drop, length, take, IfErr, IfNone, IfOk, IfSome, IsErrOf, IsTrue, OnOk};
ghost use Rattle.commit_log.specs.Frames.{IsBody, IsRecord, bytes_of, frame};
ghost use Rattle.commit_log.specs.Numbered.{HasLater, Hides, IsBroken, IsNumbered, IsNumberedLog, IsShort, StandsFrom, numbered};
ghost use Rattle.commit_log.specs.Records.{spelled_number, spelled_record};

use crate::faults::LogFault;
use crate::frames::{PREFIX, Reading, first_record, frame_of};
use crate::numbers::{NUMBER, number_bytes, number_in, split_number};
use crate::records::{RecordKind, push_record};
use cell_key::Stamp;
use memchr::memchr2;
use std::alloc::{AllocError, Global};

/// The bytes of a frame before its payload: a length, a checksum and a number.
const BEFORE: usize = PREFIX + NUMBER;

/// The bytes that a record has before its body in a log's file: those of its frame, its kind and its stamp.
pub const BEFORE_BODY: usize = BEFORE + 1 + NUMBER;

/// How many numbers, from the next one on, count as this log's. A log has fewer records.
const WINDOW: u64 = 131_072;

/// The upper bound of the numbers: each frame's number is below it.
pub(crate) const NO_NUMBER: u64 = 9_223_372_036_854_775_808;

/// The frame of a record with its number.
pub(crate) fn numbered_frame(
    alloc: Global,
    number: u64,
    kind: RecordKind,
    stamp: Stamp,
    body: &[u8],
) -> Result<Vec<u8>, AllocError>
    requires { IsBody body.now }
    ensures { IfOk result (λ bytes.
        bytes.items ≡ frame (numbered number (spelled_record kind stamp body.now))) }
{
    let mut bytes = Vec::new(alloc);
    bytes.extend_from_slice(&number_bytes(number))?;
    push_record(&mut bytes, kind, stamp, body)?;
    frame_of(alloc, &bytes)
}

/// The number and the payload of the whole frame at the front of bytes, if there is one.
pub(crate) fn first_numbered(bytes: &[u8]) -> Option<(u64, &[u8])>
    ensures found { IfSome result (λ p. IsShort p.1.now) }
    ensures front { IfSome result (λ p. bytes.now
        ≡ frame (numbered p.0 p.1.now) ++ drop (16 + length p.1.now) bytes.now) }
    ensures within { IfSome result (λ p. 16 + length p.1.now ≤ length bytes.now) }
    ensures none { IfNone result ((number : ℕ) (payload behind : List ℕ) → IsShort payload
        → bytes.now ≢ frame (numbered number payload) ++ behind) }
{
    let Some(record) = first_record(bytes) else {
        return None;
    };
    split_number(record)
}

/// The number of a frame at the front, if the bytes are long enough. They may not be a frame.
fn number_at(bytes: &[u8]) -> Option<u64>
    ensures found { IfSome result (λ number. spelled_number number ≡ take 8 (drop 8 bytes.now)) }
    ensures none { IfNone result (length bytes.now < 16) }
{
    let (_, rest) = bytes.split_first_chunk::<8>()?;
    let (number, _) = rest.split_first_chunk::<8>()?;
    Some(number_in(*number))
}

/// Whether a number is in the window that begins at the next one.
fn is_next(number: u64, next: u64) -> bool
    ensures { IsTrue result ↔ IsNumbered next number }
{
    number >= next && number - next < WINDOW
}

/// Whether a whole frame with one of the next numbers stands at the front. The number is compared first, and then the
/// checksum.
fn stands_from(bytes: &[u8], next: u64) -> bool
    requires { next + 131072 ≤ 2 ^ 64 }
    ensures { IsTrue result ↔ StandsFrom next bytes.now }
{
    let Some(number) = number_at(bytes) else {
        return false;
    };
    if !is_next(number, next) {
        return false;
    }
    match first_numbered(bytes) {
        Some(_) => true,
        None => false,
    }
}

/// The bytes behind the first `len`.
fn behind(bytes: &[u8], len: usize) -> &[u8]
    requires { len ≤ length bytes.now }
    ensures { result.now ≡ drop len bytes.now }
{
    &bytes[len..]
}

/// The bytes from the first place where a frame with one of the next numbers may stand: the first byte of its number is
/// that of the least or of the greatest of them. `None` if there is no such place.
fn next_place(bytes: &[u8], next: u64) -> Option<&[u8]>
    requires { next + 131072 ≤ 2 ^ 64 }
    ensures found { IfSome result (λ rest.
        HasLater next bytes.now ↔ HasLater next rest.now) }
    ensures within { IfSome result (λ rest.
        (1 ≤ length rest.now) × (length rest.now ≤ length bytes.now)) }
    ensures none { IfNone result (¬ HasLater next bytes.now) }
{
    if bytes.len() < PREFIX {
        return None;
    }
    let numbers = behind(bytes, PREFIX);
    let least = number_bytes(next)[0];
    let greatest = number_bytes(next + (WINDOW - 1))[0];
    let place = memchr2(least, greatest, numbers)?;
    Some(behind(bytes, place))
}

/// Whether a whole frame with one of the next numbers stands anywhere in bytes.
fn has_later(bytes: &[u8], next: u64) -> bool
    requires { next + 131072 ≤ 2 ^ 64 }
    ensures { IsTrue result ↔ HasLater next bytes.now }
{
    let mut rest = bytes;
    while let Some(place) = next_place(rest, next) {
        if stands_from(place, next) {
            return true;
        }
        rest = behind(place, 1);
    }
    false
}

/// The payload of the whole frame with this number at the front, if there is one.
fn next_payload(bytes: &[u8], next: u64) -> Option<&[u8]>
    ensures found { IfSome result (λ payload. IsShort payload.now) }
    ensures front { IfSome result (λ payload. bytes.now
        ≡ frame (numbered next payload.now) ++ drop (16 + length payload.now) bytes.now) }
    ensures within { IfSome result (λ payload. 16 + length payload.now ≤ length bytes.now) }
    ensures none { IfNone result ((payload behind : List ℕ) → next < 2 ^ 64 → IsShort payload
        → bytes.now ≢ frame (numbered next payload) ++ behind) }
{
    let Some((number, payload)) = first_numbered(bytes) else {
        return None;
    };
    if number != next {
        return None;
    }
    Some(payload)
}

/// Whether this frame contains, behind its first byte, a whole frame with one of the numbers from its own on.
pub(crate) fn hides(bytes: &[u8], number: u64) -> bool
    requires { number < 2 ^ 63 }
    ensures { (payload : List ℕ) → bytes.now ≡ frame (numbered number payload)
        → (IsTrue result ↔ Hides number payload) }
{
    match bytes.split_first() {
        Some((_, rest)) => has_later(rest, number),
        None => false,
    }
}

/// Reads the bytes behind the header of a log whose first record has this number.
///
/// # Errors
///
/// `Damaged` if a later whole frame follows a broken one; `Memory`.
pub(crate) fn read_numbered(alloc: Global, bytes: &[u8], first: u64) -> Result<Reading, LogFault>
    requires { first < 2 ^ 63 }
    ensures ok { IfOk result (λ found. IsNumberedLog first bytes.now
        (bytes_of found.records.items) (drop found.end bytes.now)) }
    ensures end { IfOk result (λ found. found.end ≤ length bytes.now) }
    ensures few { IfOk result (λ found. 16 * length found.records.items ≤ length bytes.now) }
    ensures whole { OnOk result (¬ IsBroken first bytes.now) }
    ensures damaged { IsErrOf result LogFault.Damaged → IsBroken first bytes.now }
    ensures fault { IfErr result (λ fault. (fault ≡ LogFault.Damaged)
        ⊎ (fault ≡ LogFault.Memory)) }
{
    let mut rest = bytes;
    let mut next = first;
    let mut records = Vec::new(alloc);
    while let Some(payload) = next_payload(rest, next) {
        records.push(Vec::from_slice(alloc, payload)?)?;
        rest = behind(rest, BEFORE + payload.len());
        next += 1;
    }
    if has_later(rest, next) {
        return Err(LogFault::Damaged);
    }
    let end = bytes.len() - rest.len();
    Ok(Reading { records, end })
}
