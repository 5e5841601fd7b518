//! Decoding of the fields of a scan's reply.

ghost use Rattle.std.specs.Prelude.{◌≡◌, ◌≢◌, ◌<◌, ◌≤◌, ◌↔◌, ◌++◌, ◌∷◌, List, ℕ, IsTrue, IfSome, IfNone, IfOk, IsOkUnless, OnErr, length, map};
ghost use Rattle.std.specs.List.{AllByRecursion};
ghost use Rattle.cell_key.specs.Names.{IsRow, IsFamily};
ghost use Rattle.si_model.specs.Messages.{Item, Reach, ToEnd};
ghost use Rattle.si_model.specs.Reads.{cell_of};
ghost use Rattle.si_model.specs.Scans.{most_items};
ghost use Rattle.si_model.specs.Replies.{item_of, found_item, reach_of};
ghost use Rattle.si_model.specs.declared.replies.Cell.{Cell as CellOf};
ghost use Rattle.request_codec.specs.Fields.{number, cell_fields};
ghost use Rattle.si_model.specs.Takings.{IsNamed};
ghost use Rattle.si_model.specs.AnswerLimits.{IsNamedReach, IsInScanLimits};
ghost use Rattle.request_codec.specs.Scans.{reach_fields, said_fields, item_fields, items_fields, lent_said, lent_item, lent_reach, SaidFits, ItemFits, AreItems};

use crate::read_fields::{take_byte, take_bytes, take_cell, take_u32, take_u64};
use crate::replies::{ITEM_PENDING, ITEM_UNSENT, ITEM_VALUE, REACH_END, REACH_MORE};
use cell_key::{Refusal, Row, Stamp, is_family};
use si_model::{Cell, ScanFound, ScanItem, ScanReach};
use std::alloc::{AllocError, Global};

/// The most bytes of a scan's items in a reply.
const MOST_ITEM_BYTES: usize = 61_440;

/// The result of a scan for a cell, borrowed from the body.
#[derive(Clone, Copy)]
pub(crate) enum LentFound<'a> {
    Value(&'a [u8]),
    Pending(Stamp),
    Unsent,
}

/// A cell that a scan names, and the result for it, borrowed from the body.
#[derive(Clone, Copy)]
pub(crate) struct LentItem<'a> {
    row: &'a [u8],
    family: &'a [u8],
    found: LentFound<'a>,
}

/// How far a scan went, borrowed from the body.
#[derive(Clone, Copy)]
pub(crate) enum LentReach<'a> {
    End,
    More(&'a [u8], &'a [u8]),
}

/// Whether the names are within the limits of rows and families.
fn is_named(row: &[u8], family: &[u8]) -> bool
    ensures { IsTrue result ↔ IsNamed (cell_of row.now family.now) }
{
    !row.is_empty() && row.len() <= Row::MOST_BYTES && is_family(family)
}

/// The row and the family of a cell, within their limits.
fn take_named<'a>(rest: &mut &'a [u8]) -> Option<(&'a [u8], &'a [u8])>
    ensures found { IfSome result (λ p.
        rest.old.now ≡ cell_fields (cell_of p.0.now p.1.now) ++ rest.new.now) }
    ensures named { IfSome result (λ p. IsNamed (cell_of p.0.now p.1.now)) }
    ensures none { IfNone result ((cell : CellOf) (after : List ℕ) → IsNamed cell
        → rest.old.now ≢ cell_fields cell ++ after) }
{
    let (row, family) = take_cell(rest)?;
    if is_named(row, family) {
        Some((row, family))
    } else {
        None
    }
}

/// How far a scan went.
pub(crate) fn take_reach<'a>(rest: &mut &'a [u8]) -> Option<LentReach<'a>>
    ensures found { IfSome result (λ reach.
        rest.old.now ≡ reach_fields (lent_reach reach) ++ rest.new.now) }
    ensures named { IfSome result (λ reach. IsNamedReach (lent_reach reach)) }
    ensures none { IfNone result ((reach : Reach) (after : List ℕ) → IsNamedReach reach
        → rest.old.now ≢ reach_fields reach ++ after) }
{
    let tag = take_byte(rest)?;
    match tag {
        REACH_END => Some(LentReach::End),
        REACH_MORE => {
            let (row, family) = take_named(rest)?;
            Some(LentReach::More(row, family))
        }
        _ => None,
    }
}

/// The result of a scan for a cell.
pub(crate) fn take_said<'a>(rest: &mut &'a [u8]) -> Option<LentFound<'a>>
    ensures found { IfSome result (λ said.
        rest.old.now ≡ said_fields (lent_said said) ++ rest.new.now) }
    ensures fits { IfSome result (λ said. SaidFits (lent_said said)) }
    ensures none { IfNone result ((said : Item) (after : List ℕ) → SaidFits said
        → rest.old.now ≢ said_fields said ++ after) }
{
    let tag = take_byte(rest)?;
    match tag {
        ITEM_VALUE => {
            let value = take_bytes(rest)?;
            Some(LentFound::Value(value))
        }
        ITEM_PENDING => {
            let start = take_u64(rest)?;
            Some(LentFound::Pending(start))
        }
        ITEM_UNSENT => Some(LentFound::Unsent),
        _ => None,
    }
}

/// A cell that a scan names, and the result for it.
fn take_item<'a>(rest: &mut &'a [u8]) -> Option<LentItem<'a>>
    ensures found { IfSome result (λ item.
        rest.old.now ≡ item_fields (lent_item item) ++ rest.new.now) }
    ensures fits { IfSome result (λ item. ItemFits (lent_item item)) }
    ensures none { IfNone result ((item : CellOf × Item) (after : List ℕ) → ItemFits item
        → rest.old.now ≢ item_fields item ++ after) }
{
    let (row, family) = take_named(rest)?;
    let found = take_said(rest)?;
    Some(LentItem { row, family, found })
}

/// Whether the bytes are `count` items.
pub(crate) fn are_items(bytes: &[u8], count: u32) -> bool
    ensures { IsTrue result ↔ AreItems count bytes.now }
{
    let mut rest = bytes;
    for _ in 0..count {
        let Some(_) = take_item(&mut rest) else {
            return false;
        };
    }
    rest.is_empty()
}

/// How far a scan went, the number of items that follow, and their bytes.
pub(crate) fn whole_scanned(bytes: &[u8]) -> Option<(LentReach<'_>, u32, &[u8])>
    ensures found { IfSome result (λ p.
        bytes.now ≡ reach_fields (lent_reach p.0) ++ (number 4 p.1 ++ p.2.now)) }
    ensures reach { IfSome result (λ p. IsNamedReach (lent_reach p.0)) }
    ensures items { IfSome result (λ p. AreItems p.1 p.2.now) }
    ensures few { IfSome result (λ p. length p.2.now ≤ most_items) }
    ensures none { IfNone result ((items : List (CellOf × Item)) (reach : Reach)
        → AllByRecursion ItemFits items → IsInScanLimits items reach → bytes.now
        ≢ reach_fields reach ++ (number 4 (length items) ++ items_fields items)) }
{
    let mut rest = bytes;
    let reach = take_reach(&mut rest)?;
    let count = take_u32(&mut rest)?;
    if rest.len() <= MOST_ITEM_BYTES && are_items(rest, count) {
        Some((reach, count, rest))
    } else {
        None
    }
}

/// How far a scan went, as an owned copy.
pub(crate) fn own_reach(alloc: Global, reach: LentReach<'_>) -> Result<ScanReach, Refusal>
    requires { IsNamedReach (lent_reach reach) }
    ensures ok { IfOk result (λ own. reach_of own ≡ lent_reach reach.entry) }
    ensures refusal { IsOkUnless result Refusal.NoMemory }
    // The end needs no allocation.
    ensures needed { OnErr result (lent_reach reach.entry ≢ ToEnd) }
{
    match reach {
        LentReach::End => Ok(ScanReach::End),
        LentReach::More(row, family) => {
            let cell = Cell::new(alloc, row, family)?;
            Ok(ScanReach::More(cell))
        }
    }
}

/// The result for a cell, as an owned copy.
pub(crate) fn own_found(alloc: Global, found: LentFound<'_>) -> Result<ScanFound, AllocError>
    ensures { IfOk result (λ own. found_item own ≡ lent_said found.entry) }
{
    match found {
        LentFound::Value(value) => Ok(ScanFound::Value(Vec::from_slice(alloc, value)?)),
        LentFound::Pending(start) => Ok(ScanFound::Pending(start)),
        LentFound::Unsent => Ok(ScanFound::Unsent),
    }
}

/// An item, as an owned copy.
fn own_item(alloc: Global, item: LentItem<'_>) -> Result<ScanItem, Refusal>
    requires { IsNamed (lent_item item).0 }
    ensures ok { IfOk result (λ own. item_of own ≡ lent_item item.entry) }
    ensures refusal { IsOkUnless result Refusal.NoMemory }
{
    let cell = Cell::new(alloc, item.row, item.family)?;
    let found = own_found(alloc, item.found)?;
    Ok(ScanItem { cell, found })
}

/// The items in the bytes, as owned copies.
pub(crate) fn own_items(alloc: Global, bytes: &[u8], count: u32) -> Result<Vec<ScanItem>, Refusal>
    requires { AreItems count bytes.now }
    ensures ok { IfOk result (λ own. bytes.now ≡ items_fields (map item_of own.items)) }
    ensures count { IfOk result (λ own. length own.items ≡ count) }
    ensures fit { IfOk result (λ own. AllByRecursion ItemFits (map item_of own.items)) }
    ensures refusal { IsOkUnless result Refusal.NoMemory }
    // An empty list needs no allocation.
    ensures needed { OnErr result (0 < count) }
{
    let mut items = Vec::new(alloc);
    let mut rest = bytes;
    for _ in 0..count {
        let Some(item) = take_item(&mut rest) else {
            unreachable!();
        };
        items.push(own_item(alloc, item)?)?;
    }
    Ok(items)
}
