//! Edits of several rows: each tablet's are made ready before any are put.

ghost use Rattle.std.specs.Prelude.{◌≡◌, None, length, map, IfErr, IfOk, IsErrOf, IsOkUnless, OnErr, OnOk};
ghost use Rattle.std.specs.List.{AllByRecursion};
ghost use Rattle.memtable.specs.Edits.{HasStoredKey};
ghost use Rattle.metadata_table.specs.Table.{IsTable};
ghost use Rattle.rows.specs.Refusals.{IsApplyRefusal};
ghost use Rattle.rows.specs.RowEdits.{AreOfTheirRow, all_edits};
ghost use Rattle.row_atomic.specs.Clusters.{ArePlaced};
ghost use Rattle.row_atomic.specs.ManyRows.{OverfillsOwner, changes_in, changes_outside, with_changes};
ghost use Rattle.row_atomic.specs.Memtables.{HaveAtMost};
ghost use Rattle.row_atomic.specs.PlaceCaches.{AreHeld};

use crate::fill::Fill;
use crate::place_cache::{PlaceCache, index_of};
use cell_key::{Edit, Refusal};
use metadata_table::MetadataTable;
use rows::RowEdits;
use std::alloc::Global;
use tablet::{RowRange, Tablet};

/// The edits of a range's rows, and the changes of all other rows, both in order. Answers `NoMemory` if there is no
/// memory.
fn cut_changes(
    alloc: Global,
    range: &RowRange,
    changes: Vec<RowEdits>,
) -> Result<(Vec<Edit>, Vec<RowEdits>), Refusal>
    ensures inside { IfOk result (λ cut.
        cut.0.items ≡ all_edits (changes_in range.now changes.items)) }
    ensures others { IfOk result (λ cut.
        cut.1.items ≡ changes_outside range.now changes.items) }
    ensures refusal { IsOkUnless result Refusal.NoMemory }
{
    let mut inside = Vec::new(alloc);
    let mut others = Vec::new(alloc);
    for change in changes {
        if range.has_row(&change.row) {
            let RowEdits {
                row: _,
                edits: mut more,
            } = change;
            inside.append(&mut more)?;
        } else {
            others.push(change)?;
        }
    }
    Ok((inside, others))
}

/// Applies edits to several rows, all of them or none. The edits of the first row's tablet are made ready, then all
/// others are applied, and only if those are well the first are put. So this calls itself once for each tablet.
///
/// # Errors
///
/// `MemtableFull` if a tablet's memtable would exceed a limit with the edits of all its rows, and `NoMemory`: the first
/// of them, in the order of the rows. The tablets are then unchanged.
pub(crate) fn apply_to(
    alloc: Global,
    table: &MetadataTable,
    cache: &mut PlaceCache,
    tablets: &mut [Tablet],
    most: &mut Fill,
    changes: Vec<RowEdits>,
) -> Result<(), Refusal>
    requires placed { ArePlaced tablets.old None table.now }
    requires as_many { length tablets.old ≡ length table.now }
    requires held { AreHeld table.now cache.old.numbers.entries }
    requires most { HaveAtMost most.old tablets.old }
    requires edits { AllByRecursion AreOfTheirRow changes.items }
    ensures ok { OnOk result (tablets.new ≡ map (with_changes changes.items) tablets.old) }
    ensures keys { OnOk result (AllByRecursion HasStoredKey (all_edits changes.items)) }
    ensures err { OnErr result (tablets.new ≡ tablets.old) }
    ensures refusal { IfErr result IsApplyRefusal }
    ensures full { IsErrOf result Refusal.MemtableFull
        → OverfillsOwner changes.items tablets.old }
    ensures within { OnOk result (¬ OverfillsOwner changes.items tablets.old) }
    ensures held { AreHeld table.now cache.new.numbers.entries }
    ensures most { HaveAtMost most.new tablets.new }
    ensures table { IsTable table.now }
{
    let _ = table.len();
    let index = match changes.first() {
        Some(change) => index_of(table, cache, &change.row),
        None => return Ok(()),
    };
    let (inside, others) = cut_changes(alloc, tablets[index].range(), changes)?;
    let ready = tablets[index].prepare(inside)?;
    let done = apply_to(alloc, table, cache, tablets, most, others);
    tablets[index].finish(ready, done.is_ok());
    *most = most.joined(Fill::of(&tablets[index]));
    done
}
