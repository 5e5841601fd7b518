//! Decoding of the fields of a scan's request.

ghost use Rattle.std.specs.Prelude.{◌≡◌, ◌≢◌, ◌<◌, ◌^◌, ◌++◌, ◌∷◌, List, ℕ, Bool, Option, IfSome, IfNone, option_map};
ghost use Rattle.si_model.specs.Messages.{Range};
ghost use Rattle.si_model.specs.Reads.{cell_of};
ghost use Rattle.si_model.specs.Replies.{range_of};
ghost use Rattle.si_model.specs.declared.replies.Cell.{Cell as CellOf};
ghost use Rattle.request_codec.specs.Fields.{number, field, optional, cell_fields, FitsField, FitsCell};
ghost use Rattle.request_codec.specs.Scans.{flag_number, range_fields, FitsRange};

use crate::read_bodies::whole_u32;
use crate::read_fields::{take_byte, take_bytes, take_cell, take_u64};
use si_model::ScanRange;

pub(crate) const LEFT_OUT: u8 = 0x00;

pub(crate) const KEPT: u8 = 0x01;

/// Whether only keys are asked for.
pub(crate) fn take_flag(rest: &mut &[u8]) -> Option<bool>
    ensures found { IfSome result (λ flag. rest.old.now ≡ flag_number flag ∷ rest.new.now) }
    ensures none { IfNone result ((flag : Bool) (after : List ℕ)
        → rest.old.now ≢ flag_number flag ∷ after) }
{
    let byte = take_byte(rest)?;
    match byte {
        0 => Some(false),
        1 => Some(true),
        _ => None,
    }
}

/// The row and the family of a cell, if they are present.
fn take_optional_cell<'a>(rest: &mut &'a [u8]) -> Option<Option<(&'a [u8], &'a [u8])>>
    ensures found { IfSome result (λ cell. rest.old.now
        ≡ optional cell_fields (option_map (λ p. cell_of p.0.now p.1.now) cell) ++ rest.new.now) }
    ensures fits { IfSome result (λ cell.
        IfSome cell (λ p. FitsCell (cell_of p.0.now p.1.now))) }
    ensures none { IfNone result ((cell : Option CellOf) (after : List ℕ)
        → IfSome cell (λ cell. FitsCell cell) → rest.old.now ≢ optional cell_fields cell ++ after) }
{
    let byte = take_byte(rest)?;
    match byte {
        LEFT_OUT => Some(None),
        KEPT => {
            let cell = take_cell(rest)?;
            Some(Some(cell))
        }
        _ => None,
    }
}

/// A length and that many bytes, if they are present.
pub(crate) fn take_optional_bytes<'a>(rest: &mut &'a [u8]) -> Option<Option<&'a [u8]>>
    ensures found { IfSome result (λ bytes. rest.old.now
        ≡ optional field (option_map (λ bytes. bytes.now) bytes) ++ rest.new.now) }
    ensures fits { IfSome result (λ bytes. IfSome bytes (λ bytes. FitsField bytes.now)) }
    ensures none { IfNone result ((bytes : Option (List ℕ)) (after : List ℕ)
        → IfSome bytes (λ bytes. FitsField bytes) → rest.old.now ≢ optional field bytes ++ after) }
{
    let byte = take_byte(rest)?;
    match byte {
        LEFT_OUT => Some(None),
        KEPT => {
            let bytes = take_bytes(rest)?;
            Some(Some(bytes))
        }
        _ => None,
    }
}

/// The range of a scan.
fn take_range<'a>(rest: &mut &'a [u8]) -> Option<ScanRange<'a>>
    ensures found { IfSome result (λ range.
        rest.old.now ≡ range_fields (range_of range) ++ rest.new.now) }
    ensures fits { IfSome result (λ range. FitsRange (range_of range)) }
    ensures none { IfNone result ((range : Range) (after : List ℕ) → FitsRange range
        → rest.old.now ≢ range_fields range ++ after) }
{
    let after = take_optional_cell(rest)?;
    let end = take_optional_bytes(rest)?;
    let family = take_optional_bytes(rest)?;
    Some(ScanRange { after, end, family })
}

/// A start, whether only keys are asked for, a range, and a count of cells.
pub(crate) fn whole_scan(bytes: &[u8]) -> Option<(u64, bool, ScanRange<'_>, u32)>
    ensures found { IfSome result (λ p. bytes.now ≡ number 8 p.0
        ++ (flag_number p.1 ∷ (range_fields (range_of p.2) ++ number 4 p.3))) }
    ensures numbers { IfSome result (λ p. (p.0 < 2 ^ 64) × (p.3 < 2 ^ 32)) }
    ensures range { IfSome result (λ p. FitsRange (range_of p.2)) }
    ensures none { IfNone result ((start : ℕ) (keys_only : Bool) (range : Range) (cells : ℕ)
        → FitsRange range → bytes.now ≢ number 8 start
        ++ (flag_number keys_only ∷ (range_fields range ++ number 4 cells))) }
{
    let mut rest = bytes;
    let start = take_u64(&mut rest)?;
    let keys_only = take_flag(&mut rest)?;
    let range = take_range(&mut rest)?;
    let cells = whole_u32(rest)?;
    Some((start, keys_only, range, cells))
}
