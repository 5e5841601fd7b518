//! A piece of a file: its length, its checksum and its payload.

ghost use Rattle.std.specs.Prelude.{◌≡◌, ◌≢◌, ◌+◌, ◌≤◌, ◌<◌, ◌^◌, ◌++◌, ◌↔◌, ℕ, List, length, IfSome, IfNone, IsTrue, OnOk};
ghost use Rattle.std.specs.Int.{from_be_bytes, to_be_bytes, w16};
ghost use Rattle.file_sums.specs.Pieces.{checksum, piece, place};

use commit_log::crc32;
use std::alloc::AllocError;

/// The most bytes of payload in a piece. A piece with fewer is the last one of its file.
pub(crate) const MOST_PAYLOAD: usize = 1024;

/// The most bytes of a piece: a length in two, a checksum in four, and the payload.
pub(crate) const MOST_PIECE: usize = 1030;

/// What a checksum covers before the payload: the file's name, the number of the piece, and its length.
fn place_of(name: u64, index: u64, len: u16) -> [u8; 18]
    ensures { result ≡ place name index len }
{
    let mut bytes = [0; 18];
    bytes[..8].copy_from_slice(&name.to_be_bytes());
    bytes[8..16].copy_from_slice(&index.to_be_bytes());
    bytes[16..].copy_from_slice(&len.to_be_bytes());
    bytes
}

/// The checksum of a piece.
fn checksum_of(name: u64, index: u64, payload: &[u8]) -> [u8; 4]
    requires { length payload.now ≤ 1024 }
    ensures { result ≡ checksum name index payload.now }
{
    crc32(&place_of(name, index, payload.len() as u16), payload).to_be_bytes()
}

/// Whether bytes are the checksum of a piece.
fn is_checksum(name: u64, index: u64, payload: &[u8], found: [u8; 4]) -> bool
    requires { length payload.now ≤ 1024 }
    ensures { IsTrue result ↔ (checksum name index payload.now ≡ found) }
{
    checksum_of(name, index, payload) == found
}

/// The length encoded in two bytes, the highest first.
fn length_in(bytes: [u8; 2]) -> u16
    ensures value { result ≡ from_be_bytes w16 bytes }
    ensures spells { to_be_bytes w16 result ≡ bytes }
{
    u16::from_be_bytes(bytes)
}

/// Appends a piece with this payload.
pub(crate) fn push_piece(
    out: &mut Vec<u8>,
    name: u64,
    index: u64,
    payload: &[u8],
) -> Result<(), AllocError>
    requires { length payload.now ≤ 1024 }
    ensures { OnOk result (out.new.items ≡ out.old.items ++ piece name index payload.now) }
{
    let len = payload.len() as u16;
    out.extend_from_slice(&len.to_be_bytes())?;
    out.extend_from_slice(&checksum_of(name, index, payload))?;
    out.extend_from_slice(payload)?;
    Ok(())
}

/// The payload of a piece with this number in the file of this name; `None` if the bytes are no such piece.
pub(crate) fn payload_in(name: u64, index: u64, bytes: &[u8]) -> Option<&[u8]>
    ensures found { IfSome result (λ payload. bytes.now ≡ piece name index payload.now) }
    ensures size { IfSome result (λ payload. length bytes.now ≡ 6 + length payload.now) }
    ensures most { IfSome result (λ payload. length payload.now ≤ 1024) }
    ensures none { IfNone result ((payload : List ℕ) → length payload ≤ 1024
        → bytes.now ≢ piece name index payload) }
{
    let Some((length, after)) = bytes.split_first_chunk::<2>() else {
        return None;
    };
    let Some((checksum, payload)) = after.split_first_chunk::<4>() else {
        return None;
    };
    if payload.len() > MOST_PAYLOAD {
        return None;
    }
    if payload.len() != length_in(*length) as usize {
        return None;
    }
    if !is_checksum(name, index, payload, *checksum) {
        return None;
    }
    Some(payload)
}
