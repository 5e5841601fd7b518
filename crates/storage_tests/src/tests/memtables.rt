//! A full memtable.

use crate::tests::memory::files::write;
use cell_key::{Refusal, Row, Stamp};
use memtable::Memtable;
use std::alloc::Global;
use std::test::Fail;
use testing::edits::data_key;

/// Puts this many zeros at a stamp of `a`.
fn put(alloc: Global, table: &mut Memtable, stamp: Stamp, len: usize) -> Result<(), Refusal> {
    let value = vec![in alloc; 0; len]?;
    write(alloc, table, b"a", stamp, Some(&value), None)
}

/// Whether a memtable has a value at a stamp of `a`.
fn has(alloc: Global, table: &Memtable, stamp: Stamp) -> Result<bool, Refusal> {
    let row = Row::new(alloc, b"a")?;
    Ok(table.lookup(&data_key(alloc, &row, stamp)?).is_some())
}

/// Further puts: the stamp, the number of bytes, and the result.
const PUTS: [(Stamp, usize, Result<(), Refusal>); 4] = [
    (1_024, 65_536, Err(Refusal::MemtableFull)),
    (1_024, 33_792, Ok(())),
    (1_025, 0, Err(Refusal::MemtableFull)),
    (1_023, 65_536, Ok(())),
];

/// 1,023 entries of 65,567 bytes and one of 33,823 have 67,108,864 bytes.
#[test]
fn full_at_its_most_bytes(rt: HostRuntime) -> Result<(), Fail> {
    let mut table = Memtable::new(rt.alloc());
    assert!(rt; table.is_empty());
    for stamp in 1..1_024u64 {
        put(rt.alloc(), &mut table, stamp, 65_536)?;
    }
    for (stamp, len, came) in PUTS {
        assert!(rt; put(rt.alloc(), &mut table, stamp, len) == came);
    }
    assert!(rt; table.entry_bytes() == Memtable::MOST_BYTES && table.len() == 1_024);
    assert!(rt; has(rt.alloc(), &table, 1_024)? && !has(rt.alloc(), &table, 1_025)?);
    Ok(())
}
