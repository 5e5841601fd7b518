//! The fields of an edit in a record: those of its key, with whether it is put or erased, and the value of a put.

ghost use Rattle.std.specs.Prelude.{◌≡◌, ◌≢◌, ◌<◌, ◌^◌, ◌++◌, ℕ, Bool, List, Option, is_some, length, take, IfErr, IfNone, IfSome, OnOk};
ghost use Rattle.std.specs.Int.{from_be_bytes, to_be_bytes, w16};
ghost use Rattle.std.specs.Option.{option_copied};
ghost use Rattle.cell_key.specs.Entries.{field};
ghost use Rattle.cell_key.specs.declared.keys.CellKey.{CellKey as KeyOf};
ghost use Rattle.cell_key.specs.declared.keys.Qualifier.{Qualifier as Column};
ghost use Rattle.commit_log.specs.Edits.{FitsFields, IsShortValue, column_byte, family_field, key_fields, lent_key, row_field, value_field};

use crate::frames::length_in;
use crate::numbers::{number_bytes, split_number};
use cell_key::{CellKey, Qualifier, Refusal, Stamp};

/// The fields of a key, borrowed. They may be outside the limits.
#[derive(Clone, Copy)]
pub(crate) struct KeyFields<'a> {
    /// The column.
    pub(crate) column: Qualifier,
    /// The bytes of the row.
    pub(crate) row: &'a [u8],
    /// The bytes of the family.
    pub(crate) family: &'a [u8],
    /// The stamp.
    pub(crate) stamp: Stamp,
}

/// The byte of a column, and of whether an edit puts it or erases it.
fn column_byte(column: Qualifier, puts: bool) -> u8
    ensures { result ≡ column_byte column puts }
{
    match column {
        Qualifier::Data => if puts { 0x00 } else { 0x10 },
        Qualifier::Lock => if puts { 0x01 } else { 0x11 },
        Qualifier::Write => if puts { 0x02 } else { 0x12 },
    }
}

/// The column of a byte, and whether the edit puts it or erases it.
fn column_of(byte: u8) -> Option<(Qualifier, bool)>
    ensures found { IfSome result (λ p. byte ≡ column_byte p.0 p.1) }
    ensures none { IfNone result ((column : Column) (puts : Bool)
        → byte ≢ column_byte column puts) }
{
    match byte {
        0x00 => Some((Qualifier::Data, true)),
        0x01 => Some((Qualifier::Lock, true)),
        0x02 => Some((Qualifier::Write, true)),
        0x10 => Some((Qualifier::Data, false)),
        0x11 => Some((Qualifier::Lock, false)),
        0x12 => Some((Qualifier::Write, false)),
        _ => None,
    }
}

/// Appends the length of the bytes, then the bytes. After an `Err` a part may have been appended.
pub(crate) fn push_field(out: &mut Vec<u8>, bytes: &[u8]) -> Result<(), Refusal>
    requires { length bytes.now < 2 ^ 32 }
    ensures ok { OnOk result (out.new.items ≡ out.old.items ++ field bytes.now) }
    ensures front { take (length out.old.items) out.new.items ≡ out.old.items }
    ensures refusal { IfErr result (λ refusal. refusal ≡ Refusal.NoMemory) }
{
    let length = bytes.len() as u32;
    out.extend_from_slice(&length.to_be_bytes())?;
    out.extend_from_slice(bytes)?;
    Ok(())
}

/// Splits the field at the front, a length and its bytes, from the rest. Answers the field's bytes and the rest.
pub(crate) fn split_field(bytes: &[u8]) -> Option<(&[u8], &[u8])>
    ensures found { IfSome result (λ p. bytes.now ≡ field p.0.now ++ p.1.now) }
    ensures short { IfSome result (λ p. length p.0.now < 2 ^ 32) }
    ensures none { IfNone result ((part rest : List ℕ) → length part < 2 ^ 32
        → bytes.now ≢ field part ++ rest) }
{
    let (length, rest) = bytes.split_first_chunk::<4>()?;
    let length = length_in(*length) as usize;
    if rest.len() < length {
        return None;
    }
    Some(rest.split_at(length))
}

/// Appends a row behind its length. After an `Err` a part may have been appended.
fn push_row(out: &mut Vec<u8>, row: &[u8]) -> Result<(), Refusal>
    requires { length row.now < 2 ^ 16 }
    ensures ok { OnOk result (out.new.items ≡ out.old.items ++ row_field row.now) }
    ensures front { take (length out.old.items) out.new.items ≡ out.old.items }
    ensures refusal { IfErr result (λ refusal. refusal ≡ Refusal.NoMemory) }
{
    let length = row.len() as u16;
    out.extend_from_slice(&length.to_be_bytes())?;
    out.extend_from_slice(row)?;
    Ok(())
}

/// The length encoded in two bytes, the highest first.
fn row_length_in(bytes: [u8; 2]) -> u16
    ensures value { result ≡ from_be_bytes w16 bytes }
    ensures spells { to_be_bytes w16 result ≡ bytes }
{
    u16::from_be_bytes(bytes)
}

/// The row at the front, behind its length, and the bytes after it.
fn split_row(bytes: &[u8]) -> Option<(&[u8], &[u8])>
    ensures found { IfSome result (λ p. bytes.now ≡ row_field p.0.now ++ p.1.now) }
    ensures short { IfSome result (λ p. length p.0.now < 2 ^ 16) }
    ensures none { IfNone result ((row rest : List ℕ) → length row < 2 ^ 16
        → bytes.now ≢ row_field row ++ rest) }
{
    let (length, rest) = bytes.split_first_chunk::<2>()?;
    let length = row_length_in(*length) as usize;
    if rest.len() < length {
        return None;
    }
    Some(rest.split_at(length))
}

/// Appends a family behind its length. After an `Err` a part may have been appended.
fn push_family(out: &mut Vec<u8>, family: &[u8]) -> Result<(), Refusal>
    requires { length family.now < 2 ^ 8 }
    ensures ok { OnOk result (out.new.items ≡ out.old.items ++ family_field family.now) }
    ensures front { take (length out.old.items) out.new.items ≡ out.old.items }
    ensures refusal { IfErr result (λ refusal. refusal ≡ Refusal.NoMemory) }
{
    out.push(family.len() as u8)?;
    out.extend_from_slice(family)?;
    Ok(())
}

/// The family at the front, behind its length, and the bytes after it.
fn split_family(bytes: &[u8]) -> Option<(&[u8], &[u8])>
    ensures found { IfSome result (λ p. bytes.now ≡ family_field p.0.now ++ p.1.now) }
    ensures short { IfSome result (λ p. length p.0.now < 2 ^ 8) }
    ensures none { IfNone result ((family rest : List ℕ) → length family < 2 ^ 8
        → bytes.now ≢ family_field family ++ rest) }
{
    let (length, rest) = bytes.split_first()?;
    let length = *length as usize;
    if rest.len() < length {
        return None;
    }
    Some(rest.split_at(length))
}

/// Appends the fields of a key, of an edit that puts it or erases it. After an `Err` a part may have been appended.
pub(crate) fn push_key(out: &mut Vec<u8>, key: &CellKey, puts: bool) -> Result<(), Refusal>
    ensures ok { OnOk result (out.new.items ≡ out.old.items ++ key_fields key.now puts) }
    ensures front { take (length out.old.items) out.new.items ≡ out.old.items }
    ensures refusal { IfErr result (λ refusal. refusal ≡ Refusal.NoMemory) }
{
    let row = key.row.as_bytes();
    let family = key.family.as_bytes();
    out.push(column_byte(key.qualifier, puts))?;
    push_row(out, row)?;
    push_family(out, family)?;
    out.extend_from_slice(&number_bytes(key.stamp))?;
    Ok(())
}

/// The fields of the key at the front, whether the edit puts it or erases it, and the bytes after them.
pub(crate) fn split_key(bytes: &[u8]) -> Option<(KeyFields<'_>, bool, &[u8])>
    ensures found { IfSome result (λ p. bytes.now ≡ key_fields (lent_key p.0) p.1 ++ p.2.now) }
    ensures short { IfSome result (λ p. FitsFields (lent_key p.0)) }
    ensures none { IfNone result ((key : KeyOf) (puts : Bool) (rest : List ℕ) → FitsFields key
        → bytes.now ≢ key_fields key puts ++ rest) }
{
    let (byte, after_column) = bytes.split_first()?;
    let (column, puts) = column_of(*byte)?;
    let (row, after_row) = split_row(after_column)?;
    let (family, after_family) = split_family(after_row)?;
    let (stamp, rest) = split_number(after_family)?;
    let fields = KeyFields {
        column,
        row,
        family,
        stamp,
    };
    Some((fields, puts, rest))
}

/// The value at the front, if the edit is a put, and the bytes after it.
pub(crate) fn split_value(bytes: &[u8], puts: bool) -> Option<(Option<&[u8]>, &[u8])>
    ensures found { IfSome result (λ p.
        bytes.now ≡ value_field (option_copied p.0) ++ p.1.now) }
    ensures puts { IfSome result (λ p. is_some (option_copied p.0) ≡ puts) }
    ensures short { IfSome result (λ p. IsShortValue (option_copied p.0)) }
    ensures none { IfNone result ((value : Option (List ℕ)) (rest : List ℕ)
        → is_some value ≡ puts → IsShortValue value → bytes.now ≢ value_field value ++ rest) }
{
    if !puts {
        return Some((None, bytes));
    }
    let (value, rest) = split_field(bytes)?;
    Some((Some(value), rest))
}
