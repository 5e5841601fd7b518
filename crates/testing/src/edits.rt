//! Keys and edits of data cells.

ghost use Rattle.std.specs.Prelude.{◌≡◌, IfOk};
ghost use Rattle.std.specs.List.{AllByRecursion};
ghost use Rattle.cell_key.specs.Cells.{IsEditOf};

use cell_key::{CellKey, Edit, Family, Qualifier, Refusal, Row, Stamp};
use std::alloc::Global;

/// The key of a row's `bal`, data.
pub fn data_key(alloc: Global, row: &Row, stamp: Stamp) -> Result<CellKey, Refusal>
    ensures row { IfOk result (λ key. key.row ≡ row.now) }
    ensures stamp { IfOk result (λ key. key.stamp ≡ stamp) }
{
    Ok(CellKey {
        row: row.clone()?,
        family: Family::new(alloc, b"bal")?,
        qualifier: Qualifier::Data,
        stamp,
    })
}

/// The edit of a row's `bal`, data: a put of a value of at most 65,536 bytes, or an erasure. The stamp is from 1 to 9,999.
fn edit(alloc: Global, row: &Row, stamp: Stamp, value: Option<&[u8]>) -> Result<Edit, Refusal>
    ensures { IfOk result (IsEditOf row.now) }
{
    if stamp == 0 || stamp > 9_999 {
        return Err(Refusal::BadRequest);
    }
    let key = data_key(alloc, row, stamp)?;
    match value {
        None => Ok(Edit::Erase(key)),
        Some(value) if value.len() <= 65_536 => Ok(Edit::Put(key, Vec::from_slice(alloc, value)?)),
        Some(_) => Err(Refusal::BadValue),
    }
}

/// One such edit, and an erasure at the stamp `erased` if there is one.
pub fn edits_of(
    alloc: Global,
    row: &Row,
    stamp: Stamp,
    value: Option<&[u8]>,
    erased: Option<Stamp>,
) -> Result<Vec<Edit>, Refusal>
    ensures { IfOk result (λ edits. AllByRecursion (IsEditOf row.now) edits.items) }
{
    let mut edits = Vec::new(alloc);
    edits.push(edit(alloc, row, stamp, value)?)?;
    if let Some(erased) = erased {
        edits.push(edit(alloc, row, erased, None)?)?;
    }
    Ok(edits)
}
