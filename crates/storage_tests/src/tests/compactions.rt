//! Merges of memtables and sorted files, checked by the bytes written.

use crate::tests::memory::files::{merge, write};
use cell_key::{Refusal, Stamp};
use file_store::{MemFiles, read_whole};
use memtable::Memtable;
use sorted_file::SortedFile;
use std::alloc::Global;
use std::test::Fail;

/// The file with 3 at the stamp 3, an erasure at 2, and 7 at 1.
const ERASURE_KEPT: &[u8] = b"TABLET02\
    \0\0\0\x16a\0\0bal\0\0data\0\0\xFF\xFF\xFF\xFF\xFF\xFF\xFF\xFC\x01\0\0\0\x013\
    \0\0\0\x16a\0\0bal\0\0data\0\0\xFF\xFF\xFF\xFF\xFF\xFF\xFF\xFD\0\
    \0\0\0\x16a\0\0bal\0\0data\0\0\xFF\xFF\xFF\xFF\xFF\xFF\xFF\xFE\x01\0\0\0\x017\
    \0\0\0\0\0\0\0\x08\0\0\0\0\0\0\0\x5B\0\0\0\x16a\0\0bal\0\0data\0\0\xFF\xFF\xFF\xFF\xFF\xFF\xFF\xFC\
    \0\0\0\0\0\0\0\x63\0\0\0\0\0\0\0\x01\0\0\0\0\0\0\0\x03\0\0\0\0\0\0\0\xB5TABLETZZ";

/// The same without the erasure.
const ERASURE_DROPPED: &[u8] = b"TABLET02\
    \0\0\0\x16a\0\0bal\0\0data\0\0\xFF\xFF\xFF\xFF\xFF\xFF\xFF\xFC\x01\0\0\0\x013\
    \0\0\0\x16a\0\0bal\0\0data\0\0\xFF\xFF\xFF\xFF\xFF\xFF\xFF\xFE\x01\0\0\0\x017\
    \0\0\0\0\0\0\0\x08\0\0\0\0\0\0\0\x40\0\0\0\x16a\0\0bal\0\0data\0\0\xFF\xFF\xFF\xFF\xFF\xFF\xFF\xFC\
    \0\0\0\0\0\0\0\x48\0\0\0\0\0\0\0\x01\0\0\0\0\0\0\0\x02\0\0\0\0\0\0\0\x9ATABLETZZ";

/// The entries of an older file at stamps of (`a`, `bal`, data), and of a newer memtable.
const OLDER: [(Stamp, Option<&[u8]>); 3] = [(3, Some(b"3")), (2, Some(b"2")), (1, Some(b"1"))];

const NEWER: [(Stamp, Option<&[u8]>); 2] = [(2, None), (1, Some(b"7"))];

/// A memtable with these entries.
fn table_of(alloc: Global, writes: &[(Stamp, Option<&[u8]>)]) -> Result<Memtable, Refusal> {
    let mut table = Memtable::new(alloc);
    for (stamp, value) in writes {
        write(alloc, &mut table, b"a", *stamp, *value, None)?;
    }
    Ok(table)
}

/// The older file, written as the file 1.
fn older_file(alloc: Global, files: &mut MemFiles) -> Result<SortedFile, Refusal> {
    let older = table_of(alloc, &OLDER)?;
    merge(alloc, &older, None, true, 1, files)?;
    SortedFile::open(alloc, 1, files)
}

/// Whether merging the newer memtable and this file gives these bytes.
fn is_merged(
    alloc: Global,
    file: &SortedFile,
    keep_erasures: bool,
    bytes: &[u8],
    files: &mut MemFiles,
) -> Result<bool, Refusal> {
    let newer = table_of(alloc, &NEWER)?;
    merge(alloc, &newer, Some(file), keep_erasures, 2, files)?;
    match read_whole(alloc, files, 2) {
        Ok(Some(written)) => Ok(written.as_slice() == bytes),
        _ => Ok(false),
    }
}

/// Whether merging the newer memtable and the older file gives these bytes.
fn are_merged(alloc: Global, keep_erasures: bool, bytes: &[u8]) -> Result<bool, Refusal> {
    let mut files = MemFiles::new(alloc);
    let file = older_file(alloc, &mut files)?;
    is_merged(alloc, &file, keep_erasures, bytes, &mut files)
}

#[test]
fn newest_wins(rt: HostRuntime) -> Result<(), Fail> {
    for (keep_erasures, bytes) in [(true, ERASURE_KEPT), (false, ERASURE_DROPPED)] {
        assert!(rt; are_merged(rt.alloc(), keep_erasures, bytes)?);
    }
    Ok(())
}
