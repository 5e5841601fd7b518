//! Decoding of fields from the front of borrowed bytes.
ghost use Rattle.std.specs.Prelude.{◌≡◌, ◌≢◌, ◌≤◌, ◌<◌, ◌^◌, ◌++◌, ◌∷◌, [], List, ℕ, length, IfSome, IfNone};
ghost use Rattle.si_model.specs.declared.replies.Cell.{Cell as CellOf};
ghost use Rattle.cell_key.specs.declared.keys.Qualifier.{Qualifier as Qualifiers};
ghost use Rattle.request_codec.specs.Fields.{number, field, cell_fields, qualifier_number, FitsField, FitsCell};

use crate::qualifiers::qualifier_of;
use byteorder::{BigEndian, ByteOrder};
use bytes::Buf;
use cell_key::Qualifier;

/// The first `len` bytes.
fn take_front<'a>(rest: &mut &'a [u8], len: usize) -> Option<&'a [u8]>
    ensures found { IfSome result (λ front. rest.old.now ≡ front.now ++ rest.new.now) }
    ensures len { IfSome result (λ front. length front.now ≡ len) }
    ensures none { IfNone result (length rest.old.now < len) }
{
    if rest.remaining() < len {
        return None;
    }
    let all: &'a [u8] = *rest;
    let front = &all[..len];
    rest.advance(len);
    Some(front)
}

/// The first byte.
pub(crate) fn take_byte(rest: &mut &[u8]) -> Option<u8>
    ensures found { IfSome result (λ byte. rest.old.now ≡ byte ∷ rest.new.now) }
    ensures none { IfNone result (rest.old.now ≡ []) }
{
    let (byte, after) = rest.split_first()?;
    *rest = after;
    Some(*byte)
}

/// A number of one byte.
#[tactic(auto, unfolding(crate::specs::Fields::number))]
pub(crate) fn take_u8(rest: &mut &[u8]) -> Option<u8>
    ensures found { IfSome result (λ n. rest.old.now ≡ number 1 n ++ rest.new.now) }
    ensures fits { IfSome result (λ n. n < 2 ^ 8) }
    ensures none { IfNone result ((n : ℕ) (after : List ℕ) → rest.old.now ≢ number 1 n ++ after) }
{
    let (byte, after) = rest.split_first()?;
    *rest = after;
    Some(*byte)
}

/// The number in two bytes.
fn u16_of(bytes: &[u8]) -> u16
    requires { length bytes.now ≡ 2 }
    ensures { bytes.now ≡ number 2 result }
{
    BigEndian::read_u16(bytes)
}

/// A number of two bytes.
pub(crate) fn take_u16(rest: &mut &[u8]) -> Option<u16>
    ensures found { IfSome result (λ n. rest.old.now ≡ number 2 n ++ rest.new.now) }
    ensures fits { IfSome result (λ n. n < 2 ^ 16) }
    ensures none { IfNone result ((n : ℕ) (after : List ℕ) → rest.old.now ≢ number 2 n ++ after) }
{
    let front = take_front(rest, 2)?;
    Some(u16_of(front))
}

/// The number in four bytes.
fn u32_of(bytes: &[u8]) -> u32
    requires { length bytes.now ≡ 4 }
    ensures { bytes.now ≡ number 4 result }
{
    BigEndian::read_u32(bytes)
}

/// A number of four bytes.
pub(crate) fn take_u32(rest: &mut &[u8]) -> Option<u32>
    ensures found { IfSome result (λ n. rest.old.now ≡ number 4 n ++ rest.new.now) }
    ensures fits { IfSome result (λ n. n < 2 ^ 32) }
    ensures none { IfNone result ((n : ℕ) (after : List ℕ) → rest.old.now ≢ number 4 n ++ after) }
{
    let front = take_front(rest, 4)?;
    Some(u32_of(front))
}

/// The number in eight bytes.
fn u64_of(bytes: &[u8]) -> u64
    requires { length bytes.now ≡ 8 }
    ensures { bytes.now ≡ number 8 result }
{
    BigEndian::read_u64(bytes)
}

/// A number of eight bytes.
pub(crate) fn take_u64(rest: &mut &[u8]) -> Option<u64>
    ensures found { IfSome result (λ n. rest.old.now ≡ number 8 n ++ rest.new.now) }
    ensures fits { IfSome result (λ n. n < 2 ^ 64) }
    ensures none { IfNone result ((n : ℕ) (after : List ℕ) → rest.old.now ≢ number 8 n ++ after) }
{
    let front = take_front(rest, 8)?;
    Some(u64_of(front))
}

/// A length and that many bytes.
pub(crate) fn take_bytes<'a>(rest: &mut &'a [u8]) -> Option<&'a [u8]>
    ensures found { IfSome result (λ bytes. rest.old.now ≡ field bytes.now ++ rest.new.now) }
    ensures fits { IfSome result (λ bytes. FitsField bytes.now) }
    ensures none { IfNone result ((bytes after : List ℕ) → FitsField bytes
        → rest.old.now ≢ field bytes ++ after) }
{
    let len = take_u32(rest)?;
    take_front(rest, len as usize)
}

/// The row and the family of a cell.
pub(crate) fn take_cell<'a>(rest: &mut &'a [u8]) -> Option<(&'a [u8], &'a [u8])>
    ensures found { IfSome result (λ p.
        rest.old.now ≡ cell_fields (record { row = p.0.now; family = p.1.now }) ++ rest.new.now) }
    ensures fits { IfSome result (λ p. FitsCell (record { row = p.0.now; family = p.1.now })) }
    ensures none { IfNone result ((cell : CellOf) (after : List ℕ) → FitsCell cell
        → rest.old.now ≢ cell_fields cell ++ after) }
{
    let row = take_bytes(rest)?;
    let family = take_bytes(rest)?;
    Some((row, family))
}

/// The number of a qualifier.
pub(crate) fn take_qualifier(rest: &mut &[u8]) -> Option<Qualifier>
    ensures found { IfSome result (λ qualifier.
        rest.old.now ≡ number 1 (qualifier_number qualifier) ++ rest.new.now) }
    ensures none { IfNone result ((qualifier : Qualifiers) (after : List ℕ)
        → rest.old.now ≢ number 1 (qualifier_number qualifier) ++ after) }
{
    let byte = take_u8(rest)?;
    qualifier_of(byte)
}
