//! Rows over a wire in memory.

ghost use Rattle.std.specs.Prelude.{◌≤◌, ◌<◌, ◌^◌, IfOk};
ghost use Rattle.std.specs.List.{AllByRecursion};
ghost use Rattle.cell_key.specs.Cells.{IsEditOf};

use cell_key::{CellKey, Edit, Family, Qualifier, Refusal, Row, Stamp};
use remote_rows::{MemoryWire, RemoteRows, RowWire, Swap};
use rows::{PlainRows, Rows};
use std::alloc::Global;
use std::test::Fail;

/// Edits: the row, the stamp from 1 to 9, and the value, or none to erase.
const EDITS: [(u8, u8, Option<&[u8]>); 6] = [
    (b'b', 3, Some(b"three")),
    (b'a', 1, Some(b"one")),
    (b'b', 5, Some(b"five")),
    (b'a', 2, Some(b"")),
    (b'b', 3, None),
    (b'c', 9, Some(b"nine")),
];

/// The row, and the only edit.
fn edits_of(
    alloc: Global,
    row: &Row,
    stamp: Stamp,
    value: Option<&[u8]>,
) -> Result<Vec<Edit>, Refusal>
    requires from { 1 ≤ stamp }
    requires to { stamp < 2 ^ 63 }
    ensures { IfOk result (λ edits. AllByRecursion (IsEditOf row.now) edits.items) }
{
    let key = CellKey {
        row: row.clone()?,
        family: Family::new(alloc, b"f")?,
        qualifier: Qualifier::Data,
        stamp,
    };
    let edit = match value {
        Some(value) if value.len() <= 65_536 => Edit::Put(key, Vec::from_slice(alloc, value)?),
        _ => Edit::Erase(key),
    };
    let mut edits = Vec::new(alloc);
    edits.push(edit)?;
    Ok(edits)
}

#[test]
fn is_as_plain_rows(rt: HostRuntime) -> Result<(), Fail> {
    let alloc = rt.alloc();
    let mut plain = PlainRows::new(alloc);
    let mut remote = RemoteRows::new(alloc, MemoryWire::new(alloc));
    let family = Family::new(alloc, b"f")?;
    for (name, stamp, value) in EDITS {
        let row = Row::new(alloc, &[name])?;
        let stamp = Stamp::from(stamp).clamp(1, 9);
        plain.apply(&row, edits_of(alloc, &row, stamp, value)?)?;
        remote.apply(&row, edits_of(alloc, &row, stamp, value)?)?;
        let wanted = plain.versions(&row, &family, Qualifier::Data, 9, 9)?;
        assert!(rt; remote.versions(&row, &family, Qualifier::Data, 9, 9)? == wanted);
        assert!(rt; remote.next_cells(None, 9)? == plain.next_cells(None, 9)?);
    }
    assert!(rt; remote.faults() == 0);
    Ok(())
}

#[test]
fn guards_a_row(rt: HostRuntime) -> Result<(), Fail> {
    let alloc = rt.alloc();
    let mut wire = MemoryWire::new(alloc);
    let row = Row::new(alloc, b"a")?;
    let guard = wire.fetch(&row)?.guard;
    let done = wire.swap(&row, guard, edits_of(alloc, &row, 1, Some(b"x"))?)?;
    assert!(rt; matches!(done, Swap::Done));
    let raced = wire.swap(&row, guard, edits_of(alloc, &row, 2, Some(b"y"))?)?;
    assert!(rt; matches!(raced, Swap::Raced));
    Ok(())
}
