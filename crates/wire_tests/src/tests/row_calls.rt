//! Rows over a wire.

ghost use Rattle.std.specs.Prelude.{◌≡◌, ◌≤◌, ◌<◌, ◌^◌, codes, IfOk};
ghost use Rattle.std.specs.List.{AllByRecursion};
ghost use Rattle.cell_key.specs.Cells.{IsEditOf};

use crate::tests::pipes::new_wire;
use cell_key::{CellKey, Edit, Family, Qualifier, Refusal, Row, Stamp};
use remote_rows::{RemoteRows, RowWire, SharedRows};
use rows::{BatchLimits, Rows};
use std::alloc::Global;
use std::test::Fail;

/// Says that a request begins.
const BEGIN: &[u8] = b"\0\0\0\x01\x06";

/// Asks for the row Bob.
const FETCH: &[u8] = b"\0\0\0\x0A\x01\0\0\0\x05Bob\0\0";

/// Puts the data 8 at the stamp 4 and erases the stamp 3, with the guard 7.
const SWAP: &[u8] = b"\0\0\0\x55\x02\0\0\0\x05Bob\0\0\0\0\0\0\0\0\0\x07\0\0\0\x02\
\x01\0\0\0\x18Bob\0\0bal\0\0data\0\0\xFF\xFF\xFF\xFF\xFF\xFF\xFF\xFB\0\0\0\x018\
\0\0\0\0\x18Bob\0\0bal\0\0data\0\0\xFF\xFF\xFF\xFF\xFF\xFF\xFF\xFC";

fn key(alloc: Global, stamp: Stamp) -> Result<CellKey, Refusal>
    requires from { 1 ≤ stamp }
    requires to { stamp < 2 ^ 63 }
    ensures { IfOk result (λ key. (key.row ≡ codes "Bob") × (key.stamp ≡ stamp)) }
{
    Ok(CellKey {
        row: Row::new(alloc, b"Bob")?,
        family: Family::new(alloc, b"bal")?,
        qualifier: Qualifier::Data,
        stamp,
    })
}

/// The edits of `SWAP`.
fn change(alloc: Global) -> Result<Vec<Edit>, Refusal>
    ensures { IfOk result (λ edits. AllByRecursion (IsEditOf (codes "Bob")) edits.items) }
{
    let mut edits = Vec::new(alloc);
    edits.push(Edit::Put(key(alloc, 4)?, Vec::from_slice(alloc, b"8")?))?;
    edits.push(Edit::Erase(key(alloc, 3)?))?;
    Ok(edits)
}

fn bob(alloc: Global) -> Result<Row, Refusal>
    ensures { IfOk result (λ row. row ≡ codes "Bob") }
{
    Row::new(alloc, b"Bob")
}

fn data<W: RowWire>(
    alloc: Global,
    rows: &mut RemoteRows<W>,
) -> Result<Option<(Stamp, Vec<u8>)>, Refusal> {
    let family = Family::new(alloc, b"bal")?;
    rows.newest(&bob(alloc)?, &family, Qualifier::Data, 0, 9)
}

#[test]
fn reads_a_row_once_and_changes_it(rt: HostRuntime) -> Result<(), Fail> {
    let alloc = rt.alloc();
    let wire = new_wire(
        alloc,
        &[FETCH, SWAP, FETCH],
        b"\0\0\0\x2E\x81\0\0\0\0\0\0\0\x07\0\0\0\x01\
\0\0\0\x18Bob\0\0bal\0\0data\0\0\xFF\xFF\xFF\xFF\xFF\xFF\xFF\xFC\0\0\0\x017\
\0\0\0\x02\x82\0\
\0\0\0\x0D\x81\0\0\0\0\0\0\0\x08\0\0\0\0",
    );
    let mut rows = RemoteRows::new(alloc, wire);
    for _ in 0..2 {
        let found = data(alloc, &mut rows)?;
        assert!(rt;
            found.is_some_and(|found| found.0 == 3 && found.1.as_slice() == b"7".as_slice())
        );
    }
    rows.apply(&bob(alloc)?, change(alloc)?)?;
    assert!(rt; data(alloc, &mut rows)?.is_none());
    assert!(rt; rows.faults() == 0 && !rows.is_raced());
    Ok(())
}

#[test]
fn is_raced(rt: HostRuntime) -> Result<(), Fail> {
    let alloc = rt.alloc();
    let wire = new_wire(
        alloc,
        &[FETCH, SWAP, BEGIN, FETCH, FETCH],
        b"\0\0\0\x2E\x81\0\0\0\0\0\0\0\x07\0\0\0\x01\
\0\0\0\x18Bob\0\0bal\0\0data\0\0\xFF\xFF\xFF\xFF\xFF\xFF\xFF\xFC\0\0\0\x017\
\0\0\0\x02\x82\x01\
\0\0\0\x01\xFF\
\0\0\0\x0D\x81\0\0\0\0\0\0\0\x08\0\0\0\0",
    );
    let mut rows = RemoteRows::new(alloc, wire);
    assert!(rt; rows.apply(&bob(alloc)?, change(alloc)?) == Err(Refusal::Device));
    assert!(rt; rows.faults() == 1 && rows.is_raced());
    rows.forget();
    rows.forget();
    assert!(rt; !rows.is_raced());
    // The other end is told once that a request begins, before its first message.
    assert!(rt; data(alloc, &mut rows) == Err(Refusal::Device));
    assert!(rt; data(alloc, &mut rows)?.is_none() && rows.faults() == 2);
    Ok(())
}

/// Replies to a fetch that are refused, some with a right one behind them, and whether a second fetch is answered.
const REFUSED: [(&[u8], bool); 9] = [
    // the engine failed
    (
        b"\0\0\0\x01\xFF\0\0\0\x0D\x81\0\0\0\0\0\0\0\x08\0\0\0\0",
        true,
    ),
    // no reply, half a length, half a body
    (b"", false),
    (b"\0\0", false),
    (b"\0\0\0\x0D\x81\0\0", false),
    // an empty body, one of 268,435,457 bytes, another reply
    (b"\0\0\0\0\0\0\0\x0D\x81\0\0\0\0\0\0\0\x08\0\0\0\0", false),
    (b"\x10\0\0\x01\x81", false),
    (
        b"\0\0\0\x02\x82\0\0\0\0\x0D\x81\0\0\0\0\0\0\0\x08\0\0\0\0",
        false,
    ),
    // a byte too many, another row
    (
        b"\0\0\0\x0E\x81\0\0\0\0\0\0\0\x08\0\0\0\0\0\0\0\0\x0D\x81\0\0\0\0\0\0\0\x08\0\0\0\0",
        false,
    ),
    (
        b"\0\0\0\x2E\x81\0\0\0\0\0\0\0\x07\0\0\0\x01\
\0\0\0\x18Joe\0\0bal\0\0data\0\0\xFF\xFF\xFF\xFF\xFF\xFF\xFF\xFC\0\0\0\x017\
\0\0\0\x0D\x81\0\0\0\0\0\0\0\x08\0\0\0\0",
        false,
    ),
];

#[test]
fn refuses_replies(rt: HostRuntime) -> Result<(), Fail> {
    let alloc = rt.alloc();
    for (reply, goes_on) in REFUSED {
        let wire = new_wire(alloc, &[FETCH, FETCH], reply);
        let mut rows = RemoteRows::new(alloc, wire);
        assert!(rt; data(alloc, &mut rows).is_err() && rows.faults() == 1);
        assert!(rt; data(alloc, &mut rows).is_ok() == goes_on);
    }
    Ok(())
}

/// Asks for 256 keys, for 1,024, and for 256 after the cell Bob, bal.
const PAGE: &[u8] = b"\0\0\0\x09\x03\0\0\0\0\0\0\x01\0";

const LONG_PAGE: &[u8] = b"\0\0\0\x09\x03\0\0\0\0\0\0\x04\0";

const NEXT_PAGE: &[u8] = b"\0\0\0\x22\x03\0\0\0\x19Bob\0\0bal\0\0write\0\0\
\xFF\xFF\xFF\xFF\xFF\xFF\xFF\xFF\0\0\x01\0";

#[test]
fn reads_whole_cells_of_a_page(rt: HostRuntime) -> Result<(), Fail> {
    let alloc = rt.alloc();
    // The first page ends in Joe, so that only Bob is whole. The second one is the last.
    let wire = new_wire(
        alloc,
        &[PAGE, PAGE, LONG_PAGE, NEXT_PAGE],
        b"\0\0\0\x47\x83\0\0\0\0\x02\
\0\0\0\x18Bob\0\0bal\0\0data\0\0\xFF\xFF\xFF\xFF\xFF\xFF\xFF\xFC\0\0\0\x017\
\0\0\0\x18Joe\0\0bal\0\0data\0\0\xFF\xFF\xFF\xFF\xFF\xFF\xFF\xFC\0\0\0\0\
\0\0\0\x47\x83\0\0\0\0\x02\
\0\0\0\x18Bob\0\0bal\0\0data\0\0\xFF\xFF\xFF\xFF\xFF\xFF\xFF\xFC\0\0\0\x017\
\0\0\0\x18Joe\0\0bal\0\0data\0\0\xFF\xFF\xFF\xFF\xFF\xFF\xFF\xFC\0\0\0\0\
\0\0\0\x47\x83\x01\0\0\0\x02\
\0\0\0\x18Bob\0\0bal\0\0data\0\0\xFF\xFF\xFF\xFF\xFF\xFF\xFF\xFC\0\0\0\x017\
\0\0\0\x18Joe\0\0bal\0\0data\0\0\xFF\xFF\xFF\xFF\xFF\xFF\xFF\xFC\0\0\0\0\
\0\0\0\x06\x83\x01\0\0\0\0",
    );
    let mut rows = RemoteRows::new(alloc, wire);
    assert!(rt; rows.next_cells(None, 1)?.len() == 1);
    assert!(rt; rows.next_cells(None, 2)?.len() == 2);
    let row = bob(alloc)?;
    let family = Family::new(alloc, b"bal")?;
    let limits = BatchLimits { cells: 9, bytes: 9 };
    let batch = rows.next_versions(Some((&row, &family)), limits, 9)?;
    assert!(rt; batch.is_last && batch.cells.is_empty());
    assert!(rt; rows.faults() == 0);
    Ok(())
}
