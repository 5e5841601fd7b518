//! The texts of keys.

use cell_key::{Lock, Record, Refusal, Row, WriteKind};
use std::alloc::Global;
use std::test::Fail;
use testing::edits::data_key;

/// The text of a row's key (`bal`, data, 1).
fn text_of(alloc: Global, row: &[u8]) -> Result<Vec<u8>, Refusal> {
    let row = Row::new(alloc, row)?;
    let mut text = Vec::new(alloc);
    data_key(alloc, &row, 1)?.encode(&mut text)?;
    Ok(text)
}

/// Rows, and the prefixes of their keys' texts.
const ROWS: [(&[u8], &[u8]); 3] = [
    (b"\x61", b"\x61\x00\x00"),
    (b"\x61\x00", b"\x61\x00\xFF\x00\x00"),
    (b"\x61\x01", b"\x61\x01\x00\x00"),
];

#[test]
fn texts_of_keys(rt: HostRuntime) -> Result<(), Fail> {
    let first = text_of(rt.alloc(), b"a")?;
    let expected = b"a\0\0bal\0\0data\0\0\xFF\xFF\xFF\xFF\xFF\xFF\xFF\xFE";
    assert!(rt; first.as_slice() == expected.as_slice());
    let mut last = Vec::new(rt.alloc());
    for (row, begin) in ROWS {
        let text = text_of(rt.alloc(), row)?;
        assert!(rt; text.starts_with(begin));
        assert!(rt; last < text);
        last = text;
    }
    Ok(())
}

/// Values of locks, and the row, the family and the kind in them.
const LOCKS: [(&[u8], Option<(&[u8], &[u8], WriteKind)>); 7] = [
    (b"Bob\0\0bal\0\0S", Some((b"Bob", b"bal", WriteKind::Set))),
    (
        b"a\0\xFF\0\0b\0\0D",
        Some((b"a\0", b"b", WriteKind::Delete)),
    ),
    (b"Bob\0\0bal\0\0", Some((b"Bob", b"bal", WriteKind::Set))),
    (b"Bob\0\0bal\0", None),
    (b"Bob\0\0bal\0\0\0", None),
    (b"Bob\0\0bal\0S", None),
    (b"Bob\0\0bal\0\0X", None),
];

#[test]
fn values_of_locks(rt: HostRuntime) -> Result<(), Fail> {
    for (text, held) in LOCKS {
        match Lock::decode(rt.alloc(), text)? {
            Some(lock) => {
                assert!(rt; held == Some((lock.row.as_bytes(), lock.family.as_bytes(), lock.kind)));
            }
            None => assert!(rt; held.is_none()),
        }
    }
    Ok(())
}

/// Values of write records, and the start and the kind in them.
const RECORDS: [(&[u8], Option<(u64, WriteKind)>); 5] = [
    (b"\0\0\0\0\0\0\x01\x02S", Some((258, WriteKind::Set))),
    (b"\0\0\0\0\0\0\x01\x02D", Some((258, WriteKind::Delete))),
    (b"\0\0\0\0\0\0\x01\x02", Some((258, WriteKind::Set))),
    (b"\0\0\0\0\0\0\x01\x02X", None),
    (b"\0\0\0\0\0\x01\x02", None),
];

#[test]
fn values_of_records(rt: HostRuntime) -> Result<(), Fail> {
    for (text, held) in RECORDS {
        match Record::decode(text) {
            Some(record) => assert!(rt; held == Some((record.start, record.kind))),
            None => assert!(rt; held.is_none()),
        }
    }
    Ok(())
}
