//! Reads of a cell whose newest versions are known.

ghost use Rattle.std.specs.Prelude.{◌≡◌, ℕ, IfErr, IfOk, option_map};
ghost use Rattle.cell_key.specs.Cells.{IsNewest};
ghost use Rattle.cell_key.specs.Faults.{HasReason};
ghost use Rattle.cell_key.specs.declared.keys.Qualifier.TheVariants.{Data};
ghost use Rattle.rows.specs.Calls.{OnlyReads};
ghost use Rattle.rows.specs.Refusals.{IsReadRefusal, IsRefusalOfRead};
ghost use Rattle.si_model.specs.ShowsCells.{at, key_of};
ghost use Rattle.txn_client.specs.Reads.{AreNewest, IsDamaged, IsFound};

use cell_key::{Qualifier, Record, Refusal, Stamp, WriteKind};
use rows::{CellVersion, Rows};
use si_model::{Cell, Found};

/// The newest versions of a cell's columns at or below a stamp.
#[derive(Drop)]
pub(crate) struct Newest {
    pub(crate) data: Option<CellVersion>,
    pub(crate) lock: Option<CellVersion>,
    pub(crate) write: Option<CellVersion>,
}

/// The data of a cell at a stamp. It is looked up only if `newest`, the newest data up to some stamp, has another
/// stamp.
fn data_at<R: Rows>(
    rows: &mut R,
    cell: &Cell,
    newest: Option<CellVersion>,
    stamp: Stamp,
) -> Result<Option<Vec<u8>>, Refusal>
    ensures found { R.seen.readable rows.old cell.now.row → (hi : ℕ)
        → IsNewest (R.seen.cells rows.old) (key_of cell.now Data) 0 hi newest
        → IfOk result (λ found. option_map (λ value. value.items) found
        ≡ at (R.seen.cells rows.old) cell.now Data stamp) }
    ensures reads { OnlyReads R.seen rows.old rows.new }
    ensures refusal { IfErr result (IsRefusalOfRead (R.seen.readable rows.old cell.now.row)) }
    ensures reason { HasReason (R.faults rows.old) (R.faults rows.new) result }
{
    if let Some(version) = newest {
        if version.stamp() == stamp {
            return Ok(Some(version.into_value()?));
        }
    }
    match rows.newest(&cell.row, &cell.family, Qualifier::Data, stamp, stamp)? {
        Some((_, value)) => Ok(Some(value)),
        None => Ok(None),
    }
}

/// Reads a cell for a session that began at `start`, given the cell's newest versions at or below `start` (Percolator,
/// Get). Data is looked up only if the record names a version that is not the newest.
pub(crate) fn read_newest<R: Rows>(
    rows: &mut R,
    cell: &Cell,
    newest: Newest,
    start: Stamp,
) -> Result<Found, Refusal>
    ensures found { R.seen.readable rows.old cell.now.row
        → AreNewest (R.seen.cells rows.old) cell.now start newest
        → IfOk result (IsFound (R.seen.cells rows.old) cell.now start) }
    ensures reads { OnlyReads R.seen rows.old rows.new }
    ensures refusal { IfErr result IsReadRefusal }
    ensures damaged { R.seen.readable rows.old cell.now.row
        → AreNewest (R.seen.cells rows.old) cell.now start newest → IfErr result (λ refusal.
        refusal ≡ Refusal.Damaged → IsDamaged (R.seen.cells rows.old) cell.now start) }
    ensures reason { HasReason (R.faults rows.old) (R.faults rows.new) result }
{
    let Newest { data, lock, write } = newest;
    if let Some(pending) = lock {
        return Ok(Found::Pending(pending.stamp()));
    }
    let Some(last) = write else {
        return Ok(Found::Nothing);
    };
    let Some(record) = Record::decode(last.value()) else {
        return Err(Refusal::Damaged);
    };
    match record.kind {
        WriteKind::Delete => Ok(Found::Nothing),
        WriteKind::Set => match data_at(rows, cell, data, record.start)? {
            Some(value) => Ok(Found::Value(value)),
            None => Err(Refusal::Damaged),
        },
    }
}
