//! The metadata table: the places of rows, and roots.

use crate::tests::memory::tablets::split_at;
use cell_key::{Refusal, Row};
use metadata_table::MetadataTable;
use std::alloc::Global;
use std::test::Fail;
use testing::NEW_ROOT;

/// Rows, and the tablets that hold them when the ends are a, m and z.
const HOLDERS: [(&[u8], u32); 6] = [
    (b"a", 3),
    (b"a\0", 2),
    (b"m", 2),
    (b"mm", 4),
    (b"z", 4),
    (b"\xFF", 1),
];

/// Tablets and servers, and why the tablet can't be moved to the server.
const MOVES: [(u32, u8, Refusal); 3] = [
    (5, 16, Refusal::UnknownTablet),
    (0, 0, Refusal::UnknownTablet),
    (1, 16, Refusal::UnknownServer),
];

/// A table of tablets with the ends a, m and z.
fn three_splits(alloc: Global) -> Result<MetadataTable, Refusal> {
    let mut table = MetadataTable::new(alloc)?;
    for row in [b"m", b"a", b"z"] {
        split_at(alloc, &mut table, row)?;
    }
    Ok(table)
}

/// The tablet that holds a row.
fn holder(alloc: Global, table: &MetadataTable, row: &[u8]) -> Result<u32, Refusal> {
    Ok(table.locate(&Row::new(alloc, row)?).tablet)
}

/// Whether no tablet may be split at a row.
fn is_no_split(alloc: Global, table: &MetadataTable, row: &[u8]) -> Result<bool, Refusal> {
    let row = Row::new(alloc, row)?;
    Ok(table.check_split(&row) == Err(Refusal::BadSplit))
}

/// A row is in the first tablet whose end is not below it.
#[test]
fn places_of_rows(rt: HostRuntime) -> Result<(), Fail> {
    let table = three_splits(rt.alloc())?;
    for (row, tablet) in HOLDERS {
        assert!(rt; holder(rt.alloc(), &table, row)? == tablet);
    }
    assert!(rt; is_no_split(rt.alloc(), &table, b"m")?);
    assert!(rt; table.place(5).is_err() && !table.listed(9));
    Ok(())
}

/// An unknown tablet is refused before an unknown server.
#[test]
fn tablets_that_are_not_moved(rt: HostRuntime) -> Result<(), Fail> {
    let mut table = three_splits(rt.alloc())?;
    for (tablet, server, refusal) in MOVES {
        assert!(rt; table.assign(tablet, server) == Err(refusal));
    }
    Ok(())
}

/// The root of a new store in format 1.
pub const OLD_ROOT: &[u8] =
    b"TABROOT1\0\0\0\0\0\0\0\0\0\0\0\0\0\0\0\0\0\0\0\0\0\0\0\x01\0\0\0\x02\0\0\0\x01\0\0\0\x01\x01\0\0\0\0\0TABROOTZ";

/// Whether the bytes are the root of a new store.
fn is_root(alloc: Global, bytes: &[u8]) -> Result<bool, Refusal> {
    let Some(root) = MetadataTable::read_root(alloc, bytes)? else {
        return Ok(false);
    };
    let place = root.table.place(1)?;
    Ok(
        (root.top, root.floor, root.next_name) == (0, 0, 1)
            && root.table.len() == 1
            && place.end.is_none()
            && place.server == 0
            && place.files.is_empty(),
    )
}

/// Whether the bytes are not a root.
pub fn is_no_root(alloc: Global, bytes: &[u8]) -> Result<bool, Refusal> {
    Ok(MetadataTable::read_root(alloc, bytes)?.is_none())
}

/// The root written for a new store can be read again. With one byte more or less at the end it is not a root.
#[test]
fn root_of_a_new_store(rt: HostRuntime) -> Result<(), Fail> {
    let mut out = Vec::new(rt.alloc());
    MetadataTable::new(rt.alloc())?.write_root(0, 0, 1, &[], &mut out)?;
    assert!(rt; out.len() == 58 && out.as_slice() == NEW_ROOT);
    assert!(rt; is_root(rt.alloc(), &out)? && is_root(rt.alloc(), OLD_ROOT)?);
    out.push(0)?;
    assert!(rt; is_no_root(rt.alloc(), &out)?);
    assert!(rt; is_no_root(rt.alloc(), &out[..57])?);
    Ok(())
}

/// Roots of a store with the file 2, of 398 bytes, and the lengths read from them: in format 2, in format 1, which has
/// none, and each with the other's head.
const ROOTS_OF_A_FILE: [(&[u8], Option<&[u64]>); 4] = [
    (
        b"TABROOT2\0\0\0\0\0\0\x03\xE9\0\0\0\0\0\0\0\0\0\0\0\0\0\0\0\x03\
        \0\0\0\x02\0\0\0\x01\0\0\0\x01\x01\0\0\0\0\x01\0\0\0\0\0\0\0\x02\0\0\0\0\0\0\x01\x8ETABROOTZ",
        Some(&[398]),
    ),
    (
        b"TABROOT1\0\0\0\0\0\0\x03\xE9\0\0\0\0\0\0\0\0\0\0\0\0\0\0\0\x03\
        \0\0\0\x02\0\0\0\x01\0\0\0\x01\x01\0\0\0\0\x01\0\0\0\0\0\0\0\x02TABROOTZ",
        Some(&[]),
    ),
    (
        b"TABROOT1\0\0\0\0\0\0\x03\xE9\0\0\0\0\0\0\0\0\0\0\0\0\0\0\0\x03\
        \0\0\0\x02\0\0\0\x01\0\0\0\x01\x01\0\0\0\0\x01\0\0\0\0\0\0\0\x02\0\0\0\0\0\0\x01\x8ETABROOTZ",
        None,
    ),
    (
        b"TABROOT2\0\0\0\0\0\0\x03\xE9\0\0\0\0\0\0\0\0\0\0\0\0\0\0\0\x03\
        \0\0\0\x02\0\0\0\x01\0\0\0\x01\x01\0\0\0\0\x01\0\0\0\0\0\0\0\x02TABROOTZ",
        None,
    ),
];

/// Whether these lengths are read from a root, or, without lengths, the bytes are not a root.
fn has_lengths(alloc: Global, bytes: &[u8], lengths: Option<&[u64]>) -> Result<bool, Refusal> {
    match MetadataTable::read_root(alloc, bytes)? {
        Some(root) => Ok(lengths == Some(root.lengths.as_slice())),
        None => Ok(lengths.is_none()),
    }
}

#[test]
fn roots_of_a_file(rt: HostRuntime) -> Result<(), Fail> {
    for (bytes, lengths) in ROOTS_OF_A_FILE {
        assert!(rt; has_lengths(rt.alloc(), bytes, lengths)?);
    }
    Ok(())
}
