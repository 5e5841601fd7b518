//! The messages that are sent through a pipe.

ghost use Rattle.std.specs.Prelude.{◌≡◌, ◌++◌, ℕ, List, Option, option_map, IfOk, OnOk, IsOkUnless};
ghost use Rattle.std.specs.List.{flat_map};
ghost use Rattle.byteorder.specs.Endian.{big_bytes};
ghost use Rattle.cell_key.specs.Keys.{text};
ghost use Rattle.cell_key.specs.Places.{place_named, Place};
ghost use Rattle.remote_rows.specs.Messages.{begin_body, draw_body, edit_fields, fetch_body, field, page_body, publish_body, row_prefix, swap_body, text_after};

use byteorder::{BigEndian, ByteOrder};
use cell_key::{CellKey, Edit, Family, Qualifier, Refusal, Row, Stamp};
use std::alloc::Global;

/// Appends a number of four bytes.
fn push_u32(out: &mut Vec<u8>, number: u32) -> Result<(), Refusal>
    ensures ok { OnOk result (out.new.items ≡ out.old.items ++ big_bytes 4 number) }
    ensures refusal { IsOkUnless result Refusal.NoMemory }
{
    let mut bytes = [0; 4];
    BigEndian::write_u32(&mut bytes, number);
    out.extend_from_slice(&bytes)?;
    Ok(())
}

/// Appends a number of eight bytes.
fn push_u64(out: &mut Vec<u8>, number: u64) -> Result<(), Refusal>
    ensures ok { OnOk result (out.new.items ≡ out.old.items ++ big_bytes 8 number) }
    ensures refusal { IsOkUnless result Refusal.NoMemory }
{
    let mut bytes = [0; 8];
    BigEndian::write_u64(&mut bytes, number);
    out.extend_from_slice(&bytes)?;
    Ok(())
}

/// Appends the length of a list as four bytes. A length that is longer is refused with `NoMemory`.
fn push_len(out: &mut Vec<u8>, len: usize) -> Result<(), Refusal>
    ensures ok { OnOk result (out.new.items ≡ out.old.items ++ big_bytes 4 len) }
    ensures refusal { IsOkUnless result Refusal.NoMemory }
{
    match u32::try_from(len) {
        Ok(number) => push_u32(out, number),
        Err(_) => Err(Refusal::NoMemory),
    }
}

/// Appends a field: its length and its bytes.
#[tactic(auto, unfolding(crate::specs::Messages::field))]
fn push_field(out: &mut Vec<u8>, bytes: &[u8]) -> Result<(), Refusal>
    ensures ok { OnOk result (out.new.items ≡ out.old.items ++ field bytes.now) }
    ensures refusal { IsOkUnless result Refusal.NoMemory }
{
    push_len(out, bytes.len())?;
    out.extend_from_slice(bytes)?;
    Ok(())
}

/// The bytes that begin the key texts of a row, and no others.
pub(crate) fn row_prefix(alloc: Global, row: &Row) -> Result<Vec<u8>, Refusal>
    ensures ok { IfOk result (λ prefix. prefix.items ≡ row_prefix row.now) }
    ensures refusal { IsOkUnless result Refusal.NoMemory }
{
    let mut prefix = row.fence(alloc)?;
    prefix.pop();
    Ok(prefix)
}

/// A text that is above the keys of a cell and below those of later cells; without a cell, below all keys.
pub(crate) fn text_after(alloc: Global, after: Option<(&Row, &Family)>) -> Result<Vec<u8>, Refusal>
    ensures ok { IfOk result (λ text. text.items
        ≡ text_after (option_map place_named after.entry)) }
    ensures refusal { IsOkUnless result Refusal.NoMemory }
{
    let mut text = Vec::new(alloc);
    match after {
        Some((row, family)) => {
            CellKey::new(row, family, Qualifier::Write, 0)?.encode(&mut text)?;
            Ok(text)
        }
        None => Ok(text),
    }
}

/// Appends a key's text as a field.
fn push_key(alloc: Global, out: &mut Vec<u8>, key: &CellKey) -> Result<(), Refusal>
    ensures ok { OnOk result (out.new.items ≡ out.old.items ++ field (text key.now)) }
    ensures refusal { IsOkUnless result Refusal.NoMemory }
{
    let mut text = Vec::new(alloc);
    key.encode(&mut text)?;
    push_field(out, &text)
}

/// Appends an edit.
fn push_edit(alloc: Global, out: &mut Vec<u8>, edit: &Edit) -> Result<(), Refusal>
    ensures ok { OnOk result (out.new.items ≡ out.old.items ++ edit_fields edit.now) }
    ensures refusal { IsOkUnless result Refusal.NoMemory }
{
    match edit {
        Edit::Put(key, value) => {
            out.push(1)?;
            push_key(alloc, out, key)?;
            push_field(out, value)
        }
        Edit::Erase(key) => {
            out.push(0)?;
            push_key(alloc, out, key)
        }
    }
}

/// Appends edits.
fn push_edits(alloc: Global, out: &mut Vec<u8>, edits: &[Edit]) -> Result<(), Refusal>
    ensures ok { OnOk result (out.new.items ≡ out.old.items ++ flat_map edit_fields edits.now) }
    ensures refusal { IsOkUnless result Refusal.NoMemory }
{
    for edit in edits {
        push_edit(alloc, out, edit)?;
    }
    Ok(())
}

/// A message with this body.
fn message(alloc: Global, body: &[u8]) -> Result<Vec<u8>, Refusal>
    ensures ok { IfOk result (λ message. message.items ≡ field body.now) }
    ensures refusal { IsOkUnless result Refusal.NoMemory }
{
    let mut message = Vec::new(alloc);
    push_field(&mut message, body)?;
    Ok(message)
}

/// Asks for the row with a prefix.
pub(crate) fn fetch_message(alloc: Global, prefix: &[u8]) -> Result<Vec<u8>, Refusal>
    ensures ok { IfOk result (λ message. (row : List ℕ) → prefix.now ≡ row_prefix row
        → message.items ≡ field (fetch_body row)) }
    ensures refusal { IsOkUnless result Refusal.NoMemory }
{
    let mut body = Vec::new(alloc);
    body.push(1)?;
    push_field(&mut body, prefix)?;
    message(alloc, &body)
}

/// Gives edits of a row, with its guard.
pub(crate) fn swap_message(
    alloc: Global,
    row: &Row,
    guard: u64,
    edits: &[Edit],
) -> Result<Vec<u8>, Refusal>
    ensures ok { IfOk result (λ message.
        message.items ≡ field (swap_body row.now guard edits.now)) }
    ensures refusal { IsOkUnless result Refusal.NoMemory }
{
    let prefix = row_prefix(alloc, row)?;
    let mut body = Vec::new(alloc);
    body.push(2)?;
    push_field(&mut body, &prefix)?;
    push_u64(&mut body, guard)?;
    push_len(&mut body, edits.len())?;
    push_edits(alloc, &mut body, edits)?;
    message(alloc, &body)
}

/// Asks for a page of keys from a text on.
pub(crate) fn page_message(alloc: Global, from: &[u8], most: u32) -> Result<Vec<u8>, Refusal>
    ensures ok { IfOk result (λ message. (after : Option Place) → from.now ≡ text_after after
        → message.items ≡ field (page_body after most)) }
    ensures refusal { IsOkUnless result Refusal.NoMemory }
{
    let mut body = Vec::new(alloc);
    body.push(3)?;
    push_field(&mut body, from)?;
    push_u32(&mut body, most)?;
    message(alloc, &body)
}

/// Says that a request begins: no reply comes. Allocates nothing.
#[tactic(auto, unfolding(crate::specs::Messages::field))]
pub(crate) fn begin_message() -> [u8; 5]
    ensures { result ≡ field begin_body }
{
    [0, 0, 0, 1, 6]
}

/// Asks for a stamp. Allocates nothing.
#[tactic(auto, unfolding(crate::specs::Messages::field))]
pub(crate) fn draw_message() -> [u8; 5]
    ensures { result ≡ field draw_body }
{
    [0, 0, 0, 1, 4]
}

/// Publishes a floor. Allocates nothing.
#[tactic(auto, unfolding(crate::specs::Messages::field))]
pub(crate) fn publish_message(floor: Stamp) -> [u8; 13]
    ensures { result ≡ field (publish_body floor) }
{
    let f = floor.to_be_bytes();
    [
        0, 0, 0, 9, 5, f[0], f[1], f[2], f[3], f[4], f[5], f[6], f[7],
    ]
}
