//! The part of a map by cells in which the cells lie that a scan covered.

ghost use Rattle.std.specs.Prelude.{◌≡◌, ◌++◌, ◌∷◌, [], false, true, option_map, IfNone, IfSome, IsTrue};
ghost use Rattle.std.specs.BTreeMap.Range.{IsLeBy, IsLtBy, range_contains};
ghost use Rattle.std.specs.Range.Bound.{IsForward};
ghost use Rattle.si_model.specs.Reads.{cell_of};
ghost use Rattle.si_model.specs.Replies.{range_of, reach_of};
ghost use Rattle.si_model.specs.Scans.{Covers};
ghost use Rattle.si_model.specs.declared.replies.Cell.{Cell};
ghost use Rattle.audit.specs.Histories.{name_cmp};
ghost use Rattle.audit.specs.Spans.{BeginsBefore, EndsBehind, Name as NameOf, Spans, after, up_to};

use cell_key::{Family, Row};
use si_model::{ScanRange, ScanReach};
use std::alloc::Global;
use std::ops::Bound;

/// A row and a family, by which maps of cells are ordered.
pub(crate) type Name = (Row, Family);

/// The two ends of a part of a map by cells.
pub(crate) type Ends = (Bound<Name>, Bound<Name>);

/// The name of a cell. `None` if its row or family isn't valid, or there is no memory for a copy of them.
pub(crate) fn name_of(alloc: Global, row: &[u8], family: &[u8]) -> Option<Name>
    ensures { IfSome result (λ name. name ≡ (row.now, family.now)) }
{
    let row = Row::new(alloc, row).ok()?;
    let family = Family::new(alloc, family).ok()?;
    Some((row, family))
}

/// A name after all cells of the row and before those of later rows. `None` if there is no such name, or no memory.
fn name_after(alloc: Global, row: &[u8]) -> Option<Name>
    ensures { IfSome result (λ name. name.0 ≡ row.now ++ 0 ∷ []) }
{
    let mut bytes = Vec::from_slice(alloc, row).ok()?;
    bytes.push(0).ok()?;
    name_of(alloc, &bytes, b"!")
}

/// The name after which the part begins. `None` if it begins at the map's first cell.
fn first_name(alloc: Global, after: Option<(&[u8], &[u8])>) -> Option<Name>
    ensures { BeginsBefore
        (option_map (λ names. cell_of names.0.now names.1.now) after.entry) result }
{
    match after {
        Some((row, family)) => name_of(alloc, row, family),
        None => None,
    }
}

/// The last name of the part. `None` if it ends at the map's last cell.
fn last_name(alloc: Global, end: Option<&[u8]>, reach: &ScanReach) -> Option<Name>
    ensures { EndsBehind (option_map (λ row. row.now) end.entry) (reach_of reach.now) result }
{
    match (reach, end) {
        (ScanReach::More(last), _) => {
            name_of(alloc, last.row.as_bytes(), last.family.as_bytes())
        }
        (ScanReach::End, Some(row)) => name_after(alloc, row),
        (ScanReach::End, None) => None,
    }
}

/// Whether the part would end before it begins.
fn is_backward(first: &Option<Name>, last: &Option<Name>) -> bool
    ensures forward { result ≡ false
        → IsForward (IsLeBy name_cmp) (IsLtBy name_cmp) (after first.now) (up_to last.now) }
    ensures empty { IsTrue result → (name : NameOf)
        → range_contains name_cmp (after first.now) (up_to last.now) name ≡ false }
{
    match (first, last) {
        (Some(first), Some(last)) => first.cmp(last).is_gt(),
        _ => false,
    }
}

/// The end after this name.
fn bound_after(name: Option<Name>) -> Bound<Name>
    ensures { result ≡ after name }
{
    match name {
        Some(name) => Bound::Excluded(name),
        None => Bound::Unbounded,
    }
}

/// The end at this name.
fn bound_at(name: Option<Name>) -> Bound<Name>
    ensures { result ≡ up_to name }
{
    match name {
        Some(name) => Bound::Included(name),
        None => Bound::Unbounded,
    }
}

/// The ends of the part in which the cells lie that a scan of the range with this reach covered. `None` if it covered
/// none. An end is left open if there is no memory for it.
pub(crate) fn ends_of(alloc: Global, range: &ScanRange<'_>, reach: &ScanReach) -> Option<Ends>
    ensures forward { IfSome result (λ ends.
        IsForward (IsLeBy name_cmp) (IsLtBy name_cmp) ends.0 ends.1) }
    ensures spans { IfSome result (Spans (range_of range.now) (reach_of reach.now)) }
    ensures none { IfNone result
        ((x : Cell) → ¬ Covers (range_of range.now) (reach_of reach.now) x) }
{
    let first = first_name(alloc, range.after);
    let last = last_name(alloc, range.end, reach);
    if is_backward(&first, &last) {
        return None;
    }
    Some((bound_after(first), bound_at(last)))
}
