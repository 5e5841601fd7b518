//! Frames: the records of a log encoded as bytes, and decoded; and the log of format 1.

ghost use Rattle.std.specs.Prelude.{◌≡◌, ◌≢◌, ◌+◌, ◌≤◌, ◌++◌, ◌↔◌, take, drop, length, IfOk, IfSome, IfNone, IsErrOf, IsTrue};
ghost use Rattle.std.specs.Int.{from_be_bytes, to_be_bytes, w32};
ghost use Rattle.commit_log.specs.Frames.{IsLog, IsRecord, IsTail, bytes_of, checksum, frame, head};

use crate::checksums::crc32;
use crate::faults::LogFault;
use std::alloc::{AllocError, Global};

/// The upper bound of a record's length, in bytes.
pub const LONGEST_RECORD: usize = 134_217_728;

/// The bytes with which a log of format 1 begins.
pub const HEAD: [u8; 8] = *b"TABLOG01";

/// The bytes of a frame before its record: a length and a checksum.
pub(crate) const PREFIX: usize = 8;

/// The frame of a record.
pub fn frame_of(alloc: Global, payload: &[u8]) -> Result<Vec<u8>, AllocError>
    requires { IsRecord payload.now }
    ensures { IfOk result (λ bytes. bytes.items ≡ frame payload.now) }
{
    let mut bytes = Vec::with_capacity(alloc, PREFIX + payload.len())?;
    let length = payload.len() as u32;
    bytes.extend_from_slice(&length.to_be_bytes())?;
    bytes.extend_from_slice(&checksum_of(payload))?;
    bytes.extend_from_slice(payload)?;
    Ok(bytes)
}

/// The checksum of a record's length and bytes.
fn checksum_of(payload: &[u8]) -> [u8; 4]
    requires { IsRecord payload.now }
    ensures { result ≡ checksum payload.now }
{
    let length = payload.len() as u32;
    crc32(&length.to_be_bytes(), payload).to_be_bytes()
}

/// Whether bytes are the checksum of a record.
fn is_checksum(payload: &[u8], found: [u8; 4]) -> bool
    requires { IsRecord payload.now }
    ensures { IsTrue result ↔ (checksum payload.now ≡ found) }
{
    checksum_of(payload) == found
}

/// The length encoded in four bytes, the highest first.
pub(crate) fn length_in(bytes: [u8; 4]) -> u32
    ensures value { result ≡ from_be_bytes w32 bytes }
    ensures spells { to_be_bytes w32 result ≡ bytes }
{
    u32::from_be_bytes(bytes)
}

/// The record of the whole frame at the front of bytes, if there is one.
pub fn first_record(bytes: &[u8]) -> Option<&[u8]>
    ensures found { IfSome result (λ payload. IsRecord payload.now) }
    ensures front { IfSome result (λ payload. bytes.now
        ≡ frame payload.now ++ drop (8 + length payload.now) bytes.now) }
    ensures within { IfSome result (λ payload. 8 + length payload.now ≤ length bytes.now) }
    ensures none { IfNone result (IsTail bytes.now) }
{
    let Some((length, after)) = bytes.split_first_chunk::<4>() else {
        return None;
    };
    let Some((checksum, rest)) = after.split_first_chunk::<4>() else {
        return None;
    };
    let len = length_in(*length) as usize;
    if len > LONGEST_RECORD {
        return None;
    }
    if rest.len() < len {
        return None;
    }
    let payload = &rest[..len];
    if !is_checksum(payload, *checksum) {
        return None;
    }
    Some(payload)
}

/// The contents of a log's bytes.
#[derive(Drop)]
pub struct Reading {
    /// The records of the whole frames at the front.
    pub records: Vec<Vec<u8>>,
    /// The offset of their end.
    pub end: usize,
}

/// Reads a log of format 1. The bytes behind its last whole frame are ignored.
///
/// # Errors
///
/// `Damaged` if the bytes don't begin with the header of format 1; `Memory`.
pub fn read_log(alloc: Global, bytes: &[u8]) -> Result<Reading, LogFault>
    ensures ok { IfOk result (λ found.
        IsLog bytes.now (bytes_of found.records.items) (drop found.end bytes.now)) }
    ensures end { IfOk result (λ found. found.end ≤ length bytes.now) }
    ensures damaged { IsErrOf result LogFault.Damaged ↔ (take 8 bytes.now ≢ head) }
    ensures device { ¬ IsErrOf result LogFault.Device }
    ensures taken { ¬ IsErrOf result LogFault.Refused }
{
    let Some(mut rest) = bytes.strip_prefix(&HEAD) else {
        return Err(LogFault::Damaged);
    };
    let mut records = Vec::new(alloc);
    while let Some(payload) = first_record(rest) {
        records.push(Vec::from_slice(alloc, payload)?)?;
        rest = &rest[PREFIX + payload.len()..];
    }
    let end = bytes.len() - rest.len();
    Ok(Reading { records, end })
}
