//! The oldest version in a range of stamps, found by binary search.

ghost use Rattle.std.specs.Prelude.{◌≡◌, IfErr, IfOk, IfSome, option_map};
ghost use Rattle.cell_key.specs.Cells.{version};
ghost use Rattle.cell_key.specs.Faults.{HasReason};
ghost use Rattle.cell_key.specs.Versions.{IsVersionIn, stamped};
ghost use Rattle.rows.specs.Calls.{OnlyReads};
ghost use Rattle.rows.specs.Oldest.{IsOldest};
ghost use Rattle.rows.specs.Refusals.{IsRefusalOfRead};

use crate::rows::Rows;
use cell_key::{Family, Qualifier, Refusal, Row, Stamp};

/// The version of a cell's column with the least stamp in `lo..=hi`: its stamp and its value; `None` without one. Each
/// read halves the range left, so it takes at most 65 reads of `Rows::newest`, however many versions there are, and one
/// if there is none.
///
/// # Errors
///
/// `Device`, `NoMemory` or `Damaged`, as for every read.
pub fn oldest<R: Rows>(
    rows: &mut R,
    row: &Row,
    family: &Family,
    qualifier: Qualifier,
    lo: Stamp,
    hi: Stamp,
) -> Result<Option<(Stamp, Vec<u8>)>, Refusal>
    ensures found { R.seen.readable rows.old row.now → IfOk result (λ found. IsOldest
        (R.seen.cells rows.old) (version row.now family.now qualifier) lo hi
        (option_map stamped found)) }
    ensures reads { OnlyReads R.seen rows.old rows.new }
    ensures limits { IfOk result (λ found. IfSome (option_map stamped found) (IsVersionIn lo hi)) }
    ensures refusal { IfErr result (IsRefusalOfRead (R.seen.readable rows.old row.now)) }
    ensures reason { HasReason (R.faults rows.old) (R.faults rows.new) result }
{
    let Some(mut found) = rows.newest(row, family, qualifier, lo, hi)? else {
        return Ok(None);
    };
    let mut low = lo;
    while low < found.0 {
        let middle = low + (found.0 - low) / 2;
        match rows.newest(row, family, qualifier, low, middle)? {
            Some(older) => found = older,
            None => low = middle + 1,
        }
    }
    Ok(Some(found))
}
