//! Decoding of whole bodies: the fields take all of the borrowed bytes.
ghost use Rattle.std.specs.Prelude.{◌≡◌, ◌≢◌, ◌<◌, ◌^◌, ◌++◌, List, ℕ, IfSome, IfNone};
ghost use Rattle.si_model.specs.declared.replies.Cell.{Cell as CellOf};
ghost use Rattle.cell_key.specs.declared.keys.Qualifier.{Qualifier as Qualifiers};
ghost use Rattle.request_codec.specs.Fields.{number, field, cell_fields, qualifier_number, FitsField, FitsCell};

use crate::read_fields::{
    take_bytes, take_cell, take_qualifier, take_u8, take_u16, take_u32, take_u64,
};
use cell_key::Qualifier;

/// A number of two bytes.
pub(crate) fn whole_u16(bytes: &[u8]) -> Option<u16>
    ensures found { IfSome result (λ n. bytes.now ≡ number 2 n) }
    ensures fits { IfSome result (λ n. n < 2 ^ 16) }
    ensures none { IfNone result ((n : ℕ) → bytes.now ≢ number 2 n) }
{
    let mut rest = bytes;
    let n = take_u16(&mut rest)?;
    if rest.is_empty() { Some(n) } else { None }
}

/// Two numbers of two bytes each.
pub(crate) fn whole_u16_pair(bytes: &[u8]) -> Option<(u16, u16)>
    ensures found { IfSome result (λ p. bytes.now ≡ number 2 p.0 ++ number 2 p.1) }
    ensures fits { IfSome result (λ p. (p.0 < 2 ^ 16) × (p.1 < 2 ^ 16)) }
    ensures none { IfNone result ((m n : ℕ) → bytes.now ≢ number 2 m ++ number 2 n) }
{
    let mut rest = bytes;
    let first = take_u16(&mut rest)?;
    let second = whole_u16(rest)?;
    Some((first, second))
}

/// A number of one byte.
fn whole_u8(bytes: &[u8]) -> Option<u8>
    ensures found { IfSome result (λ n. bytes.now ≡ number 1 n) }
    ensures fits { IfSome result (λ n. n < 2 ^ 8) }
    ensures none { IfNone result ((n : ℕ) → bytes.now ≢ number 1 n) }
{
    let mut rest = bytes;
    let n = take_u8(&mut rest)?;
    if rest.is_empty() { Some(n) } else { None }
}

/// A number of four bytes.
pub(crate) fn whole_u32(bytes: &[u8]) -> Option<u32>
    ensures found { IfSome result (λ n. bytes.now ≡ number 4 n) }
    ensures fits { IfSome result (λ n. n < 2 ^ 32) }
    ensures none { IfNone result ((n : ℕ) → bytes.now ≢ number 4 n) }
{
    let mut rest = bytes;
    let n = take_u32(&mut rest)?;
    if rest.is_empty() { Some(n) } else { None }
}

/// Two numbers of four bytes each.
pub(crate) fn whole_u32_pair(bytes: &[u8]) -> Option<(u32, u32)>
    ensures found { IfSome result (λ p. bytes.now ≡ number 4 p.0 ++ number 4 p.1) }
    ensures fits { IfSome result (λ p. (p.0 < 2 ^ 32) × (p.1 < 2 ^ 32)) }
    ensures none { IfNone result ((m n : ℕ) → bytes.now ≢ number 4 m ++ number 4 n) }
{
    let mut rest = bytes;
    let first = take_u32(&mut rest)?;
    let second = whole_u32(rest)?;
    Some((first, second))
}

/// A number of four bytes and one of one byte.
pub(crate) fn whole_move(bytes: &[u8]) -> Option<(u32, u8)>
    ensures found { IfSome result (λ p. bytes.now ≡ number 4 p.0 ++ number 1 p.1) }
    ensures fits { IfSome result (λ p. (p.0 < 2 ^ 32) × (p.1 < 2 ^ 8)) }
    ensures none { IfNone result ((m n : ℕ) → bytes.now ≢ number 4 m ++ number 1 n) }
{
    let mut rest = bytes;
    let tablet = take_u32(&mut rest)?;
    let server = whole_u8(rest)?;
    Some((tablet, server))
}

/// A number of eight bytes.
pub(crate) fn whole_u64(bytes: &[u8]) -> Option<u64>
    ensures found { IfSome result (λ n. bytes.now ≡ number 8 n) }
    ensures fits { IfSome result (λ n. n < 2 ^ 64) }
    ensures none { IfNone result ((n : ℕ) → bytes.now ≢ number 8 n) }
{
    let mut rest = bytes;
    let n = take_u64(&mut rest)?;
    if rest.is_empty() { Some(n) } else { None }
}

/// A length and that many bytes.
pub(crate) fn whole_bytes(bytes: &[u8]) -> Option<&[u8]>
    ensures found { IfSome result (λ value. bytes.now ≡ field value.now) }
    ensures fits { IfSome result (λ value. FitsField value.now) }
    ensures none { IfNone result ((value : List ℕ) → FitsField value → bytes.now ≢ field value) }
{
    let mut rest = bytes;
    let value = take_bytes(&mut rest)?;
    if rest.is_empty() { Some(value) } else { None }
}

/// The row and the family of a cell.
pub(crate) fn whole_cell(bytes: &[u8]) -> Option<(&[u8], &[u8])>
    ensures found { IfSome result (λ p.
        bytes.now ≡ cell_fields (record { row = p.0.now; family = p.1.now })) }
    ensures fits { IfSome result (λ p. FitsCell (record { row = p.0.now; family = p.1.now })) }
    ensures none { IfNone result ((cell : CellOf) → FitsCell cell → bytes.now ≢ cell_fields cell) }
{
    let mut rest = bytes;
    let (row, family) = take_cell(&mut rest)?;
    if rest.is_empty() {
        Some((row, family))
    } else {
        None
    }
}

/// A start, and the row and the family of a cell.
pub(crate) fn whole_read(bytes: &[u8]) -> Option<(u64, &[u8], &[u8])>
    ensures found { IfSome result (λ p.
        bytes.now ≡ number 8 p.0 ++ cell_fields (record { row = p.1.now; family = p.2.now })) }
    ensures number { IfSome result (λ p. p.0 < 2 ^ 64) }
    ensures cell { IfSome result (λ p. FitsCell (record { row = p.1.now; family = p.2.now })) }
    ensures none { IfNone result ((start : ℕ) (cell : CellOf) → FitsCell cell
        → bytes.now ≢ number 8 start ++ cell_fields cell) }
{
    let mut rest = bytes;
    let start = take_u64(&mut rest)?;
    let (row, family) = take_cell(&mut rest)?;
    if rest.is_empty() {
        Some((start, row, family))
    } else {
        None
    }
}

/// A start, the row and the family of a cell, and a value.
pub(crate) fn whole_write(bytes: &[u8]) -> Option<(u64, &[u8], &[u8], &[u8])>
    ensures found { IfSome result (λ p. bytes.now ≡ number 8 p.0
        ++ (cell_fields (record { row = p.1.now; family = p.2.now }) ++ field p.3.now)) }
    ensures number { IfSome result (λ p. p.0 < 2 ^ 64) }
    ensures cell { IfSome result (λ p. FitsCell (record { row = p.1.now; family = p.2.now })) }
    ensures value { IfSome result (λ p. FitsField p.3.now) }
    ensures none { IfNone result ((start : ℕ) (cell : CellOf) (value : List ℕ) → FitsCell cell
        → FitsField value → bytes.now ≢ number 8 start ++ (cell_fields cell ++ field value)) }
{
    let mut rest = bytes;
    let start = take_u64(&mut rest)?;
    let (row, family) = take_cell(&mut rest)?;
    let value = whole_bytes(rest)?;
    Some((start, row, family, value))
}

/// Two numbers of eight bytes each.
pub(crate) fn whole_u64_pair(bytes: &[u8]) -> Option<(u64, u64)>
    ensures found { IfSome result (λ p. bytes.now ≡ number 8 p.0 ++ number 8 p.1) }
    ensures fits { IfSome result (λ p. (p.0 < 2 ^ 64) × (p.1 < 2 ^ 64)) }
    ensures none { IfNone result ((m n : ℕ) → bytes.now ≢ number 8 m ++ number 8 n) }
{
    let mut rest = bytes;
    let first = take_u64(&mut rest)?;
    let second = whole_u64(rest)?;
    Some((first, second))
}

/// A number of eight bytes and one of four bytes.
pub(crate) fn whole_visits(bytes: &[u8]) -> Option<(u64, u32)>
    ensures found { IfSome result (λ p. bytes.now ≡ number 8 p.0 ++ number 4 p.1) }
    ensures fits { IfSome result (λ p. (p.0 < 2 ^ 64) × (p.1 < 2 ^ 32)) }
    ensures none { IfNone result ((m n : ℕ) → bytes.now ≢ number 8 m ++ number 4 n) }
{
    let mut rest = bytes;
    let collector = take_u64(&mut rest)?;
    let visits = whole_u32(rest)?;
    Some((collector, visits))
}

/// A number of eight bytes and one of two bytes.
pub(crate) fn whole_conflict(bytes: &[u8]) -> Option<(u64, u16)>
    ensures found { IfSome result (λ p. bytes.now ≡ number 8 p.0 ++ number 2 p.1) }
    ensures fits { IfSome result (λ p. (p.0 < 2 ^ 64) × (p.1 < 2 ^ 16)) }
    ensures none { IfNone result ((m n : ℕ) → bytes.now ≢ number 8 m ++ number 2 n) }
{
    let mut rest = bytes;
    let start = take_u64(&mut rest)?;
    let place = whole_u16(rest)?;
    Some((start, place))
}

/// The row and the family of a cell, and a start.
pub(crate) fn whole_lock(bytes: &[u8]) -> Option<(&[u8], &[u8], u64)>
    ensures found { IfSome result (λ p.
        bytes.now ≡ cell_fields (record { row = p.0.now; family = p.1.now }) ++ number 8 p.2) }
    ensures cell { IfSome result (λ p. FitsCell (record { row = p.0.now; family = p.1.now })) }
    ensures number { IfSome result (λ p. p.2 < 2 ^ 64) }
    ensures none { IfNone result ((cell : CellOf) (start : ℕ) → FitsCell cell
        → bytes.now ≢ cell_fields cell ++ number 8 start) }
{
    let mut rest = bytes;
    let (row, family) = take_cell(&mut rest)?;
    let start = whole_u64(rest)?;
    Some((row, family, start))
}

/// The row and the family of a cell, a qualifier, and two bounds.
pub(crate) fn whole_raw(bytes: &[u8]) -> Option<(&[u8], &[u8], Qualifier, u64, u64)>
    ensures found { IfSome result (λ p.
        bytes.now ≡ cell_fields (record { row = p.0.now; family = p.1.now })
        ++ (number 1 (qualifier_number p.2) ++ (number 8 p.3 ++ number 8 p.4))) }
    ensures cell { IfSome result (λ p. FitsCell (record { row = p.0.now; family = p.1.now })) }
    ensures bounds { IfSome result (λ p. (p.3 < 2 ^ 64) × (p.4 < 2 ^ 64)) }
    ensures none { IfNone result ((cell : CellOf) (qualifier : Qualifiers) (low high : ℕ)
        → FitsCell cell → bytes.now ≢ cell_fields cell
        ++ (number 1 (qualifier_number qualifier) ++ (number 8 low ++ number 8 high))) }
{
    let mut rest = bytes;
    let (row, family) = take_cell(&mut rest)?;
    let qualifier = take_qualifier(&mut rest)?;
    let (lo, hi) = whole_u64_pair(rest)?;
    Some((row, family, qualifier, lo, hi))
}

/// A stamp and a value.
pub(crate) fn whole_version(bytes: &[u8]) -> Option<(u64, &[u8])>
    ensures found { IfSome result (λ p. bytes.now ≡ number 8 p.0 ++ field p.1.now) }
    ensures number { IfSome result (λ p. p.0 < 2 ^ 64) }
    ensures value { IfSome result (λ p. FitsField p.1.now) }
    ensures none { IfNone result ((stamp : ℕ) (value : List ℕ) → FitsField value
        → bytes.now ≢ number 8 stamp ++ field value) }
{
    let mut rest = bytes;
    let stamp = take_u64(&mut rest)?;
    let value = whole_bytes(rest)?;
    Some((stamp, value))
}
