//! The bodies of the replies that come through a pipe.

ghost use Rattle.std.specs.Prelude.{◌≡◌, ◌↔◌, ◌++◌, length, flat_map, IfOk, IfSome, IsTrue, IsOkUnless};
ghost use Rattle.std.specs.List.{AllByRecursion};
ghost use Rattle.cell_key.specs.Cells.{edited_key, IsEditOf};
ghost use Rattle.byteorder.specs.Endian.{big_bytes};
ghost use Rattle.remote_rows.specs.Messages.{field};
ghost use Rattle.remote_rows.specs.Replies.{AreVersions, IsFetchReply, IsPageReply, IsPut, last_byte, version_fields};
ghost use Rattle.remote_rows.specs.Wires.{IsEdit};

use crate::span::key_of;
use crate::wire::{FetchedRow, Page};
use byteorder::{BigEndian, ByteOrder};
use cell_key::{CellKey, Edit, Refusal, Row, compare_texts};
use std::alloc::Global;

/// The most bytes of a value.
const MOST_VALUE: usize = 65_536;

/// The first number of bytes, and the bytes behind them.
fn split(bytes: &[u8], len: usize) -> Option<(&[u8], &[u8])>
    ensures whole { IfSome result (λ parts. bytes.now ≡ parts.0.now ++ parts.1.now) }
    ensures len { IfSome result (λ parts. length parts.0.now ≡ len) }
{
    if bytes.len() < len {
        return None;
    }
    Some(bytes.split_at(len))
}

/// The number in four bytes.
fn u32_of(bytes: &[u8]) -> u32
    requires { length bytes.now ≡ 4 }
    ensures { bytes.now ≡ big_bytes 4 result }
{
    BigEndian::read_u32(bytes)
}

/// The number in eight bytes.
fn u64_of(bytes: &[u8]) -> u64
    requires { length bytes.now ≡ 8 }
    ensures { bytes.now ≡ big_bytes 8 result }
{
    BigEndian::read_u64(bytes)
}

/// The number of four bytes at the front, and the bytes behind it.
fn split_u32(bytes: &[u8]) -> Option<(u32, &[u8])>
    ensures { IfSome result (λ parts. bytes.now ≡ big_bytes 4 parts.0 ++ parts.1.now) }
{
    let (number, rest) = split(bytes, 4)?;
    Some((u32_of(number), rest))
}

/// The number of eight bytes at the front, and the bytes behind it.
fn split_u64(bytes: &[u8]) -> Option<(u64, &[u8])>
    ensures { IfSome result (λ parts. bytes.now ≡ big_bytes 8 parts.0 ++ parts.1.now) }
{
    let (number, rest) = split(bytes, 8)?;
    Some((u64_of(number), rest))
}

/// The field at the front, and the bytes behind it.
#[tactic(auto, unfolding(crate::specs::Messages::field))]
fn split_field(bytes: &[u8]) -> Option<(&[u8], &[u8])>
    ensures { IfSome result (λ parts. bytes.now ≡ field parts.0.now ++ parts.1.now) }
{
    let (len, rest) = split_u32(bytes)?;
    split(rest, len as usize)
}

/// A number of eight bytes, if these are the bytes.
pub(crate) fn whole_u64(bytes: &[u8]) -> Option<u64>
    ensures { IfSome result (λ number. bytes.now ≡ big_bytes 8 number) }
{
    let (number, rest) = split_u64(bytes)?;
    if rest.is_empty() { Some(number) } else { None }
}

/// The edit that puts a value at the key with this text; `None` if it isn't the text of a key or the value is too long.
fn put(alloc: Global, text: &[u8], value: &[u8]) -> Result<Option<Edit>, Refusal>
    ensures limits { IfOk result (λ found. IfSome found IsEdit) }
    ensures put { IfOk result (λ found. IfSome found IsPut) }
    ensures told { IfOk result (λ found. IfSome found (λ edit.
        version_fields edit ≡ field text.now ++ field value.now)) }
    ensures refusal { IsOkUnless result Refusal.NoMemory }
{
    if value.len() > MOST_VALUE {
        return Ok(None);
    }
    match CellKey::decode(alloc, text)? {
        Some(key) => Ok(Some(Edit::Put(key, value.to_vec(alloc)?))),
        None => Ok(None),
    }
}

/// This many keys with their values, as edits, if these are the bytes and each key is above the one before it. The first
/// one is above `last`.
fn puts(alloc: Global, count: u32, bytes: &[u8], last: &[u8]) -> Result<Option<Vec<Edit>>, Refusal>
    ensures limits { IfOk result (λ found. IfSome found (λ edits.
        AllByRecursion IsEdit edits.items)) }
    ensures puts { IfOk result (λ found. IfSome found (λ edits.
        AllByRecursion IsPut edits.items)) }
    ensures count { IfOk result (λ found. IfSome found (λ edits. length edits.items ≡ count)) }
    ensures told { IfOk result (λ found. IfSome found (λ edits.
        bytes.now ≡ flat_map version_fields edits.items)) }
    ensures refusal { IsOkUnless result Refusal.NoMemory }
{
    let mut edits = Vec::new(alloc);
    let mut left = bytes;
    let mut last = last;
    for _index in 0..count {
        let Some((text, rest)) = split_field(left) else {
            return Ok(None);
        };
        let Some((value, rest)) = split_field(rest) else {
            return Ok(None);
        };
        if !compare_texts(last, text).is_lt() {
            return Ok(None);
        }
        let Some(edit) = put(alloc, text, value)? else {
            return Ok(None);
        };
        edits.push(edit)?;
        last = text;
        left = rest;
    }
    if left.is_empty() {
        Ok(Some(edits))
    } else {
        Ok(None)
    }
}

/// A number of keys with their values, as edits, if these are the bytes and each key is above the one before it. The
/// first one is above `last`.
fn versions(alloc: Global, bytes: &[u8], last: &[u8]) -> Result<Option<Vec<Edit>>, Refusal>
    ensures limits { IfOk result (λ found. IfSome found (λ edits.
        AllByRecursion IsEdit edits.items)) }
    ensures told { IfOk result (λ found. IfSome found (λ edits.
        AreVersions bytes.now edits.items)) }
    ensures refusal { IsOkUnless result Refusal.NoMemory }
{
    match split_u32(bytes) {
        Some((count, rest)) => puts(alloc, count, rest, last),
        None => Ok(None),
    }
}

/// Whether an edit is of a row.
pub(crate) fn is_of(row: &Row, edit: &Edit) -> bool
    ensures { IsTrue result ↔ ((edited_key edit.now).row ≡ row.now) }
{
    key_of(edit).row == *row
}

/// Whether all edits are of a row.
fn are_of(row: &Row, edits: &[Edit]) -> bool
    ensures { IsTrue result
        ↔ AllByRecursion (λ edit. (edited_key edit).row ≡ row.now) edits.now }
{
    edits.iter().all(|edit| is_of(row, edit))
}

/// The row in a reply's fields; `None` if they are malformed. The key texts of the row begin with `prefix`.
pub(crate) fn fetched_row(
    alloc: Global,
    row: &Row,
    prefix: &[u8],
    fields: &[u8],
) -> Result<Option<FetchedRow>, Refusal>
    ensures found { IfOk result (λ found. IfSome found (λ fetched.
        AllByRecursion (IsEditOf row.now) fetched.edits.items)) }
    ensures told { IfOk result (λ found. IfSome found (IsFetchReply fields.now)) }
    ensures refusal { IsOkUnless result Refusal.NoMemory }
{
    let Some((guard, rest)) = split_u64(fields) else {
        return Ok(None);
    };
    let Some(edits) = versions(alloc, rest, prefix)? else {
        return Ok(None);
    };
    if are_of(row, &edits) {
        Ok(Some(FetchedRow { guard, edits }))
    } else {
        Ok(None)
    }
}

/// Whether a page is the last one, by its byte.
fn flag_of(byte: u8) -> Option<bool>
    ensures { IfSome result (λ is_last. byte ≡ last_byte is_last) }
{
    match byte {
        0 => Some(false),
        1 => Some(true),
        _ => None,
    }
}

/// The page in a reply's fields; `None` if they are malformed. Its keys are above `from`.
pub(crate) fn page(alloc: Global, from: &[u8], fields: &[u8]) -> Result<Option<Page>, Refusal>
    ensures found { IfOk result (λ found. IfSome found (λ page.
        AllByRecursion IsEdit page.edits.items)) }
    ensures told { IfOk result (λ found. IfSome found (IsPageReply fields.now)) }
    ensures refusal { IsOkUnless result Refusal.NoMemory }
{
    let Some((byte, rest)) = fields.split_first() else {
        return Ok(None);
    };
    let Some(is_last) = flag_of(*byte) else {
        return Ok(None);
    };
    match versions(alloc, rest, from)? {
        // A page that isn't the last one has a key.
        Some(edits) if is_last || !edits.is_empty() => Ok(Some(Page { edits, is_last })),
        _ => Ok(None),
    }
}
