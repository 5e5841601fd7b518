//! The edits and the roots in the records of logs.

ghost use Rattle.std.specs.Prelude.{◌≡◌, length, IfOk};
ghost use Rattle.std.specs.List.{AllByRecursion};
ghost use Rattle.cell_key.specs.Cells.{IsEditOf};

use super::RECORDS;
use cell_key::{CellKey, Edit, Family, MOST_STAMP, Qualifier, Refusal, Row};
use commit_log::{
    edited_key, edits_in, entries_len, greatest_stamp, names_root, push_edits, root_sum_bytes,
};
use std::alloc::{AllocError, Global};
use std::test::Fail;

/// The fields of a put and an erasure.
const FIELDS: [u8; 35] = *b"\
\x00\x00\x02a\0\x01f\0\0\0\0\0\0\0\x01\x00\x00\x00\x01v\
\x11\x00\x02a\0\x01f\x7F\xFF\xFF\xFF\xFF\xFF\xFF\xFF";

/// The same as entries.
const ENTRIES: [u8; 59] = *b"\
\x00\x00\x00\x16a\0\xFF\0\0f\0\0data\0\0\xFF\xFF\xFF\xFF\xFF\xFF\xFF\xFE\x01\x00\x00\x00\x01v\
\x00\x00\x00\x16a\0\xFF\0\0f\0\0lock\0\0\x80\0\0\0\0\0\0\0\x00";

/// These edits, and their row.
fn two_edits(alloc: Global) -> Result<(Row, Vec<Edit>), Refusal>
    ensures edits { IfOk result (λ made. AllByRecursion (IsEditOf made.0) made.1.items) }
    ensures two { IfOk result (λ made. length made.1.items ≡ 2) }
{
    let row = Row::new(alloc, b"a\0")?;
    let family = Family::new(alloc, b"f")?;
    let put = CellKey::new(&row, &family, Qualifier::Data, 1)?;
    let erased = CellKey::new(&row, &family, Qualifier::Lock, MOST_STAMP)?;
    let mut edits = Vec::new(alloc);
    edits.push(Edit::Put(put, Vec::from_slice(alloc, b"v")?))?;
    edits.push(Edit::Erase(erased))?;
    Ok((row, edits))
}

#[test]
fn a_record_of_a_put_and_an_erasure(rt: HostRuntime) -> Result<(), Fail> {
    let mut bytes = Vec::new(rt.alloc());
    let (row, edits) = two_edits(rt.alloc())?;
    push_edits(&mut bytes, &row, &edits)?;
    assert!(rt; bytes.as_slice() == FIELDS.as_slice());
    assert!(rt; entries_len(&row, &edits) == ENTRIES.len());
    Ok(())
}

/// Appends a record of a kind with these bytes.
fn push_record(records: &mut Vec<Vec<u8>>, kind: u8, edits: &[u8]) -> Result<(), AllocError> {
    let mut record = Vec::from_slice(*records.allocator(), &[kind, 0, 0, 0, 0, 0, 0, 0, 1])?;
    record.extend_from_slice(edits)?;
    records.push(record)?;
    Ok(())
}

/// Copies of records.
fn copies_of(alloc: Global, records: &[&[u8]]) -> Result<Vec<Vec<u8>>, AllocError> {
    let mut copies = Vec::new(alloc);
    for record in records {
        copies.push(Vec::from_slice(alloc, record)?)?;
    }
    Ok(copies)
}

/// Records of a root, a put as fields, another root and an erasure as an entry.
fn four_records(alloc: Global) -> Result<Vec<Vec<u8>>, AllocError> {
    let mut records = copies_of(alloc, &RECORDS[..1])?;
    push_record(&mut records, 3, &FIELDS[..20])?;
    records.push(Vec::from_slice(alloc, RECORDS[2])?)?;
    push_record(&mut records, 0, &ENTRIES[32..])?;
    Ok(records)
}

/// Whether edits are of these keys, in this order.
fn have_keys(edits: &[Edit], wanted: &[Edit]) -> bool {
    for (found, wanted) in edits.iter().zip(wanted.iter()) {
        if edited_key(found) != edited_key(wanted) {
            return false;
        }
    }
    edits.len() == wanted.len()
}

#[test]
fn edits_of_records(rt: HostRuntime) -> Result<(), Fail> {
    let (_, written) = two_edits(rt.alloc())?;
    let read = edits_in(rt.alloc(), &four_records(rt.alloc())?)?;
    assert!(rt; have_keys(&read, &written));
    Ok(())
}

/// Whether a record of a kind and these bytes can be read.
fn is_read(alloc: Global, kind: u8, edits: &[u8]) -> Result<bool, AllocError> {
    let mut records = Vec::new(alloc);
    push_record(&mut records, kind, edits)?;
    Ok(edits_in(alloc, &records).is_ok())
}

#[test]
fn edits_of_torn_records(rt: HostRuntime) -> Result<(), Fail> {
    for (kind, edits, first) in [(3, FIELDS.as_slice(), 20), (0, ENTRIES.as_slice(), 32)] {
        for len in 0..=edits.len() {
            let is_whole = len == 0 || len == first || len == edits.len();
            assert!(rt;
                is_read(rt.alloc(), kind, &edits[..len])? == is_whole,
                "{kind} at {len}"
            );
        }
    }
    let records = copies_of(rt.alloc(), &[b"\x01\0\0\0\0\0\0\0\x09\x01"])?;
    assert!(rt; matches!(edits_in(rt.alloc(), &records), Err(Refusal::Damaged)));
    Ok(())
}

/// Whether the fields of the put can be read once the byte at an offset is this one.
fn is_read_with(alloc: Global, at: usize, byte: u8) -> Result<bool, AllocError> {
    let mut edits = FIELDS;
    if let Some(changed) = edits.get_mut(at) {
        *changed = byte;
    }
    is_read(alloc, 3, &edits[..20])
}

#[test]
fn fields_outside_the_limits(rt: HostRuntime) -> Result<(), Fail> {
    // The column, the lengths of row and family, a colon in the family, the stamp 0, one above the greatest
    for (at, byte) in [
        (0, 0x03),
        (0, 0x20),
        (2, 0),
        (5, 0),
        (6, b':'),
        (14, 0),
        (7, 0x80),
    ] {
        assert!(rt; !is_read_with(rt.alloc(), at, byte)?, "{byte} at {at}");
    }
    assert!(rt; is_read_with(rt.alloc(), 0, 0x02)?);
    Ok(())
}

/// Whether these records name the root of a stamp and a sum.
fn is_named(alloc: Global, records: &[&[u8]], top: u64, sum: u32) -> Result<bool, AllocError> {
    Ok(names_root(&copies_of(alloc, records)?, top, sum))
}

#[test]
fn roots_of_records(rt: HostRuntime) -> Result<(), Fail> {
    assert!(rt; root_sum_bytes(0x0102_0304) == [1, 2, 3, 4]);
    for (records, top, sum, wanted) in [
        (&RECORDS[..], 8, 5, true),
        (&RECORDS[1..2], 8, 5, false),
        (&RECORDS[2..], 9, 0x0102_0304, true),
        (&RECORDS[2..], 9, 0x0102_0305, false),
        (&RECORDS[2..], 8, 0x0102_0304, false),
    ] {
        assert!(rt;
            is_named(rt.alloc(), records, top, sum)? == wanted,
            "{top} {sum}"
        );
    }
    Ok(())
}

/// The greatest of a stamp and those of these records.
fn greatest(alloc: Global, stamp: u64, records: &[&[u8]]) -> Result<u64, AllocError> {
    Ok(greatest_stamp(stamp, &copies_of(alloc, records)?))
}

#[test]
fn stamps_of_records(rt: HostRuntime) -> Result<(), Fail> {
    assert!(rt; greatest(rt.alloc(), 0, &RECORDS)? == 9);
    assert!(rt; greatest(rt.alloc(), 10, &RECORDS)? == 10);
    assert!(rt; greatest(rt.alloc(), 0, &RECORDS[1..2])? == 7);
    Ok(())
}
