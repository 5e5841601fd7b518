//! Indices of writes in the order of their cells.

ghost use Rattle.std.specs.Prelude.{◌≡◌, ◌<◌, ◌≤◌, ◌++◌, [], ◌∷◌, IfOk, IfErr, OnOk, OnErr, Some, None, length, vec_len};
ghost use Rattle.txn_client.specs.Writes.{IsIndexOf, NoneBefore};
ghost use Rattle.txn_client.specs.CellOrder.{cell_cmp, order_at, IsOrder, IsPlaceFor};

use crate::writes::Write;
use cell_key::{Refusal, compare_texts};
use si_model::Cell;
use std::cmp::Ordering;

/// The number of first writes that are searched linearly. They are not in the order.
pub(crate) const FEW: usize = 8;

/// Compares two cells by row, then by family.
fn compare_cells(cell: &Cell, other: &Cell) -> Ordering
    ensures { result ≡ cell_cmp cell.now other.now }
{
    let rows = compare_texts(cell.row.as_bytes(), other.row.as_bytes());
    if rows.is_ne() {
        return rows;
    }
    compare_texts(cell.family.as_bytes(), other.family.as_bytes())
}

/// Compares the cell of the write at an index with another cell. An index without a write comes first.
fn compare_at(writes: &[Write], index: u16, cell: &Cell) -> Ordering
    ensures { result ≡ order_at writes.now cell.now index }
{
    match writes.get(usize::from(index)) {
        Some(write) => compare_cells(&write.cell, cell),
        None => Ordering::Less,
    }
}

/// The place of a cell in the order, by binary search: the index of its write, or the place to insert a new write's
/// index.
pub(crate) fn search(writes: &[Write], order: &[u16], cell: &Cell) -> Result<usize, usize>
    requires order { IsOrder writes.now order.now }
    requires few { NoneBefore writes.now cell.now 8 }
    ensures found { IfOk result (λ index. IsIndexOf writes.now cell.now (Some index)) }
    ensures none { OnErr result (IsIndexOf writes.now cell.now None) }
    ensures place { IfErr result (IsPlaceFor writes.now order.now cell.now) }
{
    match order.binary_search_by(|index| compare_at(writes, *index, cell)) {
        Ok(place) => Ok(usize::from(order[place])),
        Err(place) => Err(place),
    }
}

/// Appends a write. Unless it is one of the first few, its index is inserted at its place in the order.
pub(crate) fn push(
    writes: &mut Vec<Write>,
    order: &mut Vec<u16>,
    write: Write,
    place: usize,
) -> Result<(), Refusal>
    requires order { IsOrder writes.old.items order.old.items }
    requires place { IsPlaceFor writes.old.items order.old.items write.cell place }
    requires room { vec_len writes.old < 256 }
    ensures ok { OnOk result (writes.new.items ≡ writes.old.items ++ write ∷ []) }
    ensures order { IsOrder writes.new.items order.new.items }
    ensures err { OnErr result (writes.new.items ≡ writes.old.items) }
    ensures refusal { IfErr result (λ refusal. refusal ≡ Refusal.NoMemory) }
{
    let count = writes.len();
    if count < FEW {
        writes.push(write)?;
        return Ok(());
    }
    order.reserve(1)?;
    writes.push(write)?;
    order.insert(place, count as u16)?;
    Ok(())
}
