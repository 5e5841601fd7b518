//! Encoding of the fields of scans at the end of a buffer that has room.

ghost use Rattle.std.specs.Prelude.{◌≡◌, ◌+◌, ◌≤◌, ◌<◌, ◌^◌, ◌∷◌, [], length, map, option_map, IfSome};
ghost use Rattle.std.specs.List.{AllByRecursion};
ghost use Rattle.si_model.specs.Messages.{ScanFrom};
ghost use Rattle.si_model.specs.Reads.{cell_of};
ghost use Rattle.si_model.specs.Replies.{range_of, item_of, found_item, reach_of, scan_reply};
ghost use Rattle.si_model.specs.Scans.{found_length, item_length, items_length, most_items};
ghost use Rattle.request_codec.specs.Buffers.{HasRoomFor, AppendsBytes};
ghost use Rattle.request_codec.specs.Fields.{number, field, optional, cell_fields, FitsField, FitsCell};
ghost use Rattle.request_codec.specs.Replies.{reply_body, ReplyBytesFit};
ghost use Rattle.request_codec.specs.Requests.{request_body};
ghost use Rattle.request_codec.specs.Scans.{flag_number, range_fields, reach_fields, said_fields, item_fields, items_fields, FitsRange};

use crate::read_scans::{KEPT, LEFT_OUT};
use crate::replies::{ITEM_PENDING, ITEM_UNSENT, ITEM_VALUE, REACH_END, REACH_MORE, SCAN};
use crate::requests::SCAN as REQUEST;
use crate::write_fields::{push_byte, push_cell, push_field, push_u32, push_u64};
use cell_key::Stamp;
use si_model::{ScanFound, ScanItem, ScanRange, ScanReach, ScanReply};

/// The length of the row and the family of an optional cell in bytes.
fn optional_cell_length(cell: Option<(&[u8], &[u8])>) -> usize
    requires { IfSome cell (λ p. FitsCell (cell_of p.0.now p.1.now)) }
    ensures length { result
        ≡ length (optional cell_fields (option_map (λ p. cell_of p.0.now p.1.now) cell.entry)) }
    ensures few { result < 2 ^ 36 }
{
    match cell {
        None => 1,
        Some((row, family)) => 9 + row.len() + family.len(),
    }
}

/// The length of an optional field of bytes.
pub(crate) fn optional_length(bytes: Option<&[u8]>) -> usize
    requires { IfSome bytes (λ bytes. FitsField bytes.now) }
    ensures length { result
        ≡ length (optional field (option_map (λ bytes. bytes.now) bytes.entry)) }
    ensures few { result < 2 ^ 36 }
{
    match bytes {
        None => 1,
        Some(bytes) => 5 + bytes.len(),
    }
}

/// The length of a range in bytes.
pub(crate) fn range_length(range: ScanRange<'_>) -> usize
    requires { FitsRange (range_of range) }
    ensures length { result ≡ length (range_fields (range_of range.entry)) }
    ensures few { result < 2 ^ 40 }
{
    optional_cell_length(range.after) + optional_length(range.end) + optional_length(range.family)
}

/// Appends whether only keys are asked for.
pub(crate) fn push_flag(out: &mut Vec<u8>, flag: bool)
    requires { HasRoomFor out.old 1 }
    ensures { AppendsBytes out.old out.new (flag_number flag ∷ []) }
{
    push_byte(out, if flag { 1 } else { 0 });
}

/// Appends the row and the family of a cell, which may be absent.
#[tactic(auto, using(crate::proofs::Fields::lengths))]
fn push_optional_cell(out: &mut Vec<u8>, cell: Option<(&[u8], &[u8])>)
    requires fits { IfSome cell (λ p. FitsCell (cell_of p.0.now p.1.now)) }
    requires room { HasRoomFor out.old
        (length (optional cell_fields (option_map (λ p. cell_of p.0.now p.1.now) cell))) }
    ensures { AppendsBytes out.old out.new
        (optional cell_fields (option_map (λ p. cell_of p.0.now p.1.now) cell.entry)) }
{
    match cell {
        None => push_byte(out, LEFT_OUT),
        Some((row, family)) => {
            push_byte(out, KEPT);
            push_cell(out, row, family);
        }
    }
}

/// Appends a length and that many bytes, which may be absent.
#[tactic(auto, using(crate::proofs::Fields::lengths))]
pub(crate) fn push_optional(out: &mut Vec<u8>, bytes: Option<&[u8]>)
    requires fits { IfSome bytes (λ bytes. FitsField bytes.now) }
    requires room { HasRoomFor out.old
        (length (optional field (option_map (λ bytes. bytes.now) bytes))) }
    ensures { AppendsBytes out.old out.new
        (optional field (option_map (λ bytes. bytes.now) bytes.entry)) }
{
    match bytes {
        None => push_byte(out, LEFT_OUT),
        Some(bytes) => {
            push_byte(out, KEPT);
            push_field(out, bytes);
        }
    }
}

/// Appends the range of a scan.
#[tactic(auto, using(crate::proofs::Fields::lengths), unfolding(crate::specs::Scans::range_fields))]
fn push_range(out: &mut Vec<u8>, range: ScanRange<'_>)
    requires fits { FitsRange (range_of range) }
    requires room { HasRoomFor out.old (length (range_fields (range_of range))) }
    ensures { AppendsBytes out.old out.new (range_fields (range_of range.entry)) }
{
    push_optional_cell(out, range.after);
    push_optional(out, range.end);
    push_optional(out, range.family);
}

/// Appends the fields of a scan's request.
#[tactic(auto, using(crate::proofs::Fields::lengths))]
pub(crate) fn push_scan(
    out: &mut Vec<u8>,
    start: Stamp,
    range: ScanRange<'_>,
    keys_only: bool,
    cells: u32,
)
    requires fits { FitsRange (range_of range) }
    requires room { HasRoomFor out.old
        (length (request_body (ScanFrom start (range_of range) keys_only cells))) }
    ensures { AppendsBytes out.old out.new
        (request_body (ScanFrom start (range_of range.entry) keys_only cells)) }
{
    push_byte(out, REQUEST);
    push_u64(out, start);
    push_flag(out, keys_only);
    push_range(out, range);
    push_u32(out, cells);
}

/// The length of the items in bytes.
fn items_length(items: &[ScanItem]) -> usize
    requires { items_length (map item_of items.now) ≤ most_items }
    ensures { result ≡ items_length (map item_of items.now) }
{
    let mut rest = items;
    let mut sum = 0;
    'items: while let Some((item, after)) = rest.split_first() {
        let cell = &item.cell;
        sum += 8 + cell.row.as_bytes().len() + cell.family.as_bytes().len();
        sum += item.found.said_bytes();
        rest = after;
    }
    sum
}

/// The length of the field for how far a scan went.
#[tactic(auto, using(crate::proofs::Fields::lengths))]
fn reach_length(reach: &ScanReach) -> usize
    ensures length { result ≡ length (reach_fields (reach_of reach.now)) }
    ensures few { result ≤ 4073 }
{
    match reach {
        ScanReach::End => 1,
        ScanReach::More(cell) => 9 + cell.row.as_bytes().len() + cell.family.as_bytes().len(),
    }
}

/// The length of the body of a scan's reply in bytes.
pub(crate) fn scan_length(reply: &ScanReply) -> usize
    requires { ReplyBytesFit (scan_reply reply.now) }
    ensures { result ≡ length (reply_body (scan_reply reply.now)) }
{
    5 + reach_length(&reply.reach) + items_length(&reply.items)
}

/// Appends the result for a cell.
#[tactic(auto, using(crate::proofs::Fields::lengths))]
pub(crate) fn push_said(out: &mut Vec<u8>, found: &ScanFound)
    requires few { found_length (found_item found.now) < 2 ^ 32 }
    requires room { HasRoomFor out.old (length (said_fields (found_item found.now))) }
    ensures { AppendsBytes out.old out.new (said_fields (found_item found.now)) }
{
    match found {
        ScanFound::Value(value) => {
            push_byte(out, ITEM_VALUE);
            push_field(out, value);
        }
        ScanFound::Pending(start) => {
            push_byte(out, ITEM_PENDING);
            push_u64(out, *start);
        }
        ScanFound::Unsent => push_byte(out, ITEM_UNSENT),
    }
}

/// Appends an item.
#[tactic(auto, using(crate::proofs::Fields::lengths), unfolding(crate::specs::Scans::item_fields))]
fn push_item(out: &mut Vec<u8>, item: &ScanItem)
    requires few { item_length (item_of item.now) ≤ most_items }
    requires room { HasRoomFor out.old (length (item_fields (item_of item.now))) }
    ensures { AppendsBytes out.old out.new (item_fields (item_of item.now)) }
{
    push_cell(out, item.cell.row.as_bytes(), item.cell.family.as_bytes());
    push_said(out, &item.found);
}

/// Appends items.
fn push_items(out: &mut Vec<u8>, items: &[ScanItem])
    requires few { items_length (map item_of items.now) ≤ most_items }
    requires room { HasRoomFor out.old (length (items_fields (map item_of items.now))) }
    ensures { AppendsBytes out.old out.new (items_fields (map item_of items.now)) }
{
    let mut rest = items;
    'items: while let Some((item, after)) = rest.split_first() {
        push_item(out, item);
        rest = after;
    }
}

/// Appends how far a scan went.
#[tactic(auto, using(crate::proofs::Fields::lengths))]
fn push_reach(out: &mut Vec<u8>, reach: &ScanReach)
    requires { HasRoomFor out.old (length (reach_fields (reach_of reach.now))) }
    ensures { AppendsBytes out.old out.new (reach_fields (reach_of reach.now)) }
{
    match reach {
        ScanReach::End => push_byte(out, REACH_END),
        ScanReach::More(cell) => {
            push_byte(out, REACH_MORE);
            push_cell(out, cell.row.as_bytes(), cell.family.as_bytes());
        }
    }
}

/// Appends the body of a scan's reply.
#[tactic(auto, using(crate::proofs::Fields::lengths))]
pub(crate) fn push_scanned(out: &mut Vec<u8>, reply: &ScanReply)
    requires fits { ReplyBytesFit (scan_reply reply.now) }
    requires room { HasRoomFor out.old (length (reply_body (scan_reply reply.now))) }
    ensures { AppendsBytes out.old out.new (reply_body (scan_reply reply.now)) }
{
    push_byte(out, SCAN);
    push_reach(out, &reply.reach);
    push_u32(out, reply.items.len() as u32);
    push_items(out, &reply.items);
}
