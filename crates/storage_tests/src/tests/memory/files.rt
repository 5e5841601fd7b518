//! Memtables, files in memory, and sorted files.

use cell_key::{CellKey, EntryRef, Refusal, Row, Stamp};
use compaction::{Input, merge_into};
use file_store::{FileFault, Files, MemFiles, read_whole};
use memtable::Memtable;
use sorted_file::{LockIndex, LookupKey, SortedFile, refusal_of, write_file};
use std::alloc::Global;
use testing::FILE_LIMIT;
use testing::edits::{data_key, edits_of};
use testing::memory::{Call, Subject, Table};

/// The result of a call of files, as a refusal.
pub fn refused<T>(call: Result<T, FileFault>) -> Result<T, Refusal> {
    call.map_err(|fault| refusal_of(fault))
}

/// Makes or replaces a file that is written in two pieces.
fn put_in_two(files: &mut MemFiles, name: u64, one: &[u8], two: &[u8]) -> Result<(), FileFault> {
    let mut writing = files.begin(name)?;
    files.push(&mut writing, one)?;
    files.push(&mut writing, two)?;
    files.finish(writing)
}

/// Files in memory, and a list of names that others are appended to.
#[derive(Drop)]
pub struct Stored {
    files: MemFiles,
    names: Vec<u64>,
}

/// The state read after a call: the number of names, and the first four bytes of the files 1 to 3.
const FILE_CALLS: [Call; 6] = [
    // put of a new file
    (b"", b"\x01one-two-6789"),
    // put over a file
    (b"", b"\x01six-two-----"),
    // list
    (b"", b"\x03one-two-----"),
    // read_whole
    (b"two", b"\x01one-two-----"),
    // remove
    (b"", b"\x01----two-----"),
    // a file in two pieces, over a file
    (b"", b"\x01six-two-----"),
];

pub const STORED: Table = (b"\x01one-two-----", &FILE_CALLS);

impl Subject for Stored {
    fn set_up(alloc: Global) -> Result<Stored, Refusal> {
        let names = vec![in alloc; 9]?;
        let mut files = MemFiles::new(alloc);
        refused(files.put(1, b"one"))?;
        refused(files.put(2, b"two"))?;
        Ok(Stored { files, names })
    }

    fn answers(&mut self, alloc: Global, number: usize, wanted: &[u8]) -> Result<bool, Refusal> {
        match number {
            0 => refused(self.files.put(3, b"6789"))?,
            1 => refused(self.files.put(1, b"six"))?,
            2 => refused(self.files.list(&mut self.names))?,
            3 => {
                return match refused(read_whole(alloc, &mut self.files, 2))? {
                    Some(bytes) => Ok(bytes.as_slice() == wanted),
                    None => Ok(false),
                };
            }
            4 => refused(self.files.remove(1))?,
            _ => refused(put_in_two(&mut self.files, 1, b"s", b"ix"))?,
        }
        Ok(wanted.is_empty())
    }

    fn read(&mut self, alloc: Global) -> Result<Vec<u8>, Refusal> {
        let mut out = vec![in alloc; (self.names.len() % 256) as u8]?;
        for name in 1..=3 {
            let mut bytes = *b"----";
            refused(self.files.read_at(name, 0, &mut bytes))?;
            out.extend_from_slice(&bytes)?;
        }
        Ok(out)
    }
}

/// A sorted file with a write of `a` at 1, and a memtable with a write of `a` at 2.
#[derive(Drop)]
pub struct Sorted {
    files: MemFiles,
    file: SortedFile,
    table: Memtable,
}

/// The state read after a call: the sizes of the files 1 to 3, the values of the memtable in the order of their keys,
/// with x for an erasure, and the values of the sorted file at 9 and 1.
const SORTED_CALLS: [Call; 7] = [
    // write_file
    (b"", b"\x95\x95-x2x1"),
    // SortedFile::open
    (b"x", b"\x95--x2x1"),
    // SortedFile::newest
    (b"1", b"\x95--x2x1"),
    // merge_into
    (b"", b"\x95\xB5-x2x1"),
    // Memtable::apply to other cells of the row
    (b"", b"\x95--x32x1"),
    // Memtable::apply to the same cell
    (b"", b"\x95--x3x1"),
    // Memtable::apply to another row
    (b"", b"\x95--x2x3x1"),
];

/// Writes a value into a row at a stamp, or an erasure, and another erasure at the stamp `erased` if there is one.
pub fn write(
    alloc: Global,
    table: &mut Memtable,
    row: &[u8],
    stamp: Stamp,
    value: Option<&[u8]>,
    erased: Option<Stamp>,
) -> Result<(), Refusal> {
    let row = Row::new(alloc, row)?;
    let edits = edits_of(alloc, &row, stamp, value, erased)?;
    table.apply(&row, edits)
}

/// The first byte of an entry's value, x for an erasure, or a dash.
fn first_byte(entry: Option<EntryRef<'_>>) -> u8 {
    match entry {
        Some(entry) => entry.value.unwrap_or(b"x").first().copied().unwrap_or(b' '),
        None => b'-',
    }
}

/// The key of the data of `a` at a stamp.
pub fn key_of_a(alloc: Global, stamp: Stamp) -> Result<CellKey, Refusal> {
    data_key(alloc, &Row::new(alloc, b"a")?, stamp)
}

/// The entry of a sorted file at a stamp of `a`.
fn found(
    alloc: Global,
    file: &mut SortedFile,
    files: &mut MemFiles,
    stamp: Stamp,
) -> Result<u8, Refusal> {
    let key = LookupKey::new(alloc, key_of_a(alloc, stamp)?)?;
    match file.newest(&key, stamp, files)? {
        Some((_, Some(value))) => Ok(value.first().copied().unwrap_or(b' ')),
        Some((_, None)) => Ok(b'x'),
        None => Ok(b'-'),
    }
}

/// The lowest byte of a file's size, or a dash.
fn size_of(files: &mut MemFiles, name: u64) -> Result<u8, Refusal> {
    match refused(files.size(name))? {
        Some(size) => Ok((size % 256) as u8),
        None => Ok(b'-'),
    }
}

/// Writes a memtable and perhaps a file, the newer first, as a file with a name. It may have at most `limit` bytes, or
/// the maximum if that is no limit.
pub fn merge_within<F: Files>(
    alloc: Global,
    table: &Memtable,
    file: Option<&SortedFile>,
    keep_erasures: bool,
    name: u64,
    limit: u64,
    files: &mut F,
) -> Result<(), Refusal> {
    let mut sources = Vec::new(alloc);
    sources.push(Input::Memtable(table.cursor(b"")))?;
    if let Some(file) = file {
        sources.push(Input::File(file.cursor(b"")))?;
    }
    let none = LockIndex::new(alloc);
    let limit = if 48 <= limit && limit <= FILE_LIMIT {
        limit
    } else {
        FILE_LIMIT
    };
    let _file = merge_into(alloc, sources, keep_erasures, name, limit, &none, files)?;
    Ok(())
}

/// The same within the maximum, of files in memory.
pub fn merge(
    alloc: Global,
    table: &Memtable,
    file: Option<&SortedFile>,
    keep_erasures: bool,
    name: u64,
    files: &mut MemFiles,
) -> Result<(), Refusal> {
    merge_within(alloc, table, file, keep_erasures, name, FILE_LIMIT, files)
}

/// Writes a sorted file again as the file 2; answers the name of the file written.
pub fn write_again(alloc: Global, file: &SortedFile, files: &mut MemFiles) -> Result<u64, Refusal> {
    let mut cursor = file.cursor(b"");
    let none = LockIndex::new(alloc);
    let again = write_file(alloc, &mut cursor, 2, FILE_LIMIT, &none, files)?;
    Ok(again.name())
}

pub const SORTED: Table = (b"\x95--x2x1", &SORTED_CALLS);

/// A memtable with a write of `a` at a stamp, and an erasure at 9.
fn table_of(alloc: Global, stamp: Stamp, value: &[u8]) -> Result<Memtable, Refusal> {
    let mut table = Memtable::new(alloc);
    write(alloc, &mut table, b"a", stamp, Some(value), Some(9))?;
    Ok(table)
}

/// Writes the sorted file, and opens it.
fn file_of(alloc: Global, files: &mut MemFiles) -> Result<SortedFile, Refusal> {
    let older = table_of(alloc, 1, b"1")?;
    merge(alloc, &older, None, true, 1, files)?;
    SortedFile::open(alloc, 1, files)
}

/// Opens the sorted file again; answers its entry at the stamp 9.
fn found_again(alloc: Global, files: &mut MemFiles) -> Result<u8, Refusal> {
    let mut file = SortedFile::open(alloc, 1, files)?;
    found(alloc, &mut file, files, 9)
}

impl Subject for Sorted {
    fn set_up(alloc: Global) -> Result<Sorted, Refusal> {
        let table = table_of(alloc, 2, b"2")?;
        let mut files = MemFiles::new(alloc);
        let file = file_of(alloc, &mut files)?;
        Ok(Sorted { files, file, table })
    }

    fn answers(&mut self, alloc: Global, number: usize, wanted: &[u8]) -> Result<bool, Refusal> {
        let files = &mut self.files;
        match number {
            0 => {
                let _name = write_again(alloc, &self.file, files)?;
            }
            1 => return Ok(wanted == [found_again(alloc, files)?].as_slice()),
            2 => return Ok(wanted == [found(alloc, &mut self.file, files, 1)?].as_slice()),
            3 => merge(alloc, &self.table, Some(&self.file), true, 2, files)?,
            4 => write(alloc, &mut self.table, b"a", 3, Some(b"3"), Some(9))?,
            5 => write(alloc, &mut self.table, b"a", 2, Some(b"3"), Some(9))?,
            _ => write(alloc, &mut self.table, b"b", 1, Some(b"3"), Some(9))?,
        }
        Ok(wanted.is_empty())
    }

    fn read(&mut self, alloc: Global) -> Result<Vec<u8>, Refusal> {
        let mut out = Vec::new(alloc);
        for name in 1..=3 {
            out.push(size_of(&mut self.files, name)?)?;
        }
        let mut cursor = self.table.cursor(b"");
        for _ in 0..self.table.len() {
            if cursor.advance() {
                out.push(first_byte(cursor.current()))?;
            }
        }
        out.push(found(alloc, &mut self.file, &mut self.files, 9)?)?;
        out.push(found(alloc, &mut self.file, &mut self.files, 1)?)?;
        Ok(out)
    }
}
