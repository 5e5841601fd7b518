//! Tablets, and the metadata table.

use cell_key::{Family, Qualifier, Refusal, Row, Stamp};
use file_store::MemFiles;
use metadata_table::MetadataTable;
use sorted_file::few_blocks;
use std::alloc::Global;
use tablet::{RowRange, Tablet};
use testing::FILE_LIMIT;
use testing::edits::edits_of;
use testing::memory::{Call, Subject, Table};

/// A tablet over its files, and a list of names that others are appended to.
#[derive(Drop)]
pub struct Served {
    tablet: Tablet,
    files: MemFiles,
    next_name: u64,
    names: Vec<u64>,
}

/// The state read after a call: the row of the first cell, the values of `a`, `b` and `c`, the number of lists (files,
/// and the memtable if it has entries) and the number of names. So it is the same if a refused split or unload has
/// written the memtable.
const CALLS: [Call; 14] = [
    // newest
    (b"3", b"a345\x03\x01"),
    // next_cell from the start
    (b"a", b"a345\x03\x01"),
    // next_cell after `a`
    (b"b", b"a345\x03\x01"),
    // apply
    (b"", b"a365\x03\x01"),
    // minor: the number of files, like the next two
    (b"\x03", b"a345\x03\x01"),
    // merge
    (b"\x01", b"a345\x02\x01"),
    // major
    (b"\x01", b"a345\x01\x01"),
    // split: the number of files of the left part
    (b"\x03", b"c5\x03\x01"),
    // unload
    (b"\x03", b"a345\x03\x01"),
    // load
    (b"\x02", b"a345\x03\x01"),
    // push_names
    (b"", b"a345\x03\x03"),
    // next_cells from the start
    (b"abc", b"a345\x03\x01"),
    // has_version: of a value in a file, one in the memtable, and none
    (b"ab", b"a345\x03\x01"),
    // versions
    (b"31", b"a345\x03\x01"),
];

/// A row of one byte forty times, so that the row and the texts of its keys allocate.
fn row_of(alloc: Global, byte: u8) -> Result<Row, Refusal> {
    Row::new(alloc, &[byte; 40])
}

/// Writes a value of one byte into a row, and an erasure at the stamp 9.
fn write(
    alloc: Global,
    tablet: &mut Tablet,
    row: u8,
    stamp: Stamp,
    value: u8,
) -> Result<(), Refusal> {
    let row = row_of(alloc, row)?;
    let edits = edits_of(alloc, &row, stamp, Some(&[value]), Some(9))?;
    tablet.apply(&row, edits)
}

/// The writes into a new tablet, and whether a minor compaction follows.
const WRITES: [(u8, Stamp, u8, bool); 5] = [
    (b'a', 1, b'1', false),
    (b'b', 1, b'2', true),
    (b'a', 2, b'3', true),
    (b'b', 2, b'4', false),
    (b'c', 1, b'5', false),
];

/// The first byte of the newest data of a row, or a dash.
fn newest(
    alloc: Global,
    tablet: &mut Tablet,
    files: &mut MemFiles,
    row: u8,
) -> Result<u8, Refusal> {
    let row = row_of(alloc, row)?;
    let family = Family::new(alloc, b"bal")?;
    match tablet.newest(&row, &family, Qualifier::Data, 0, 9, files)? {
        Some((_, value)) => Ok(value.first().copied().unwrap_or(b' ')),
        None => Ok(b'-'),
    }
}

/// The first byte of the row of the first cell, or a dash.
fn first(tablet: &Tablet, files: &mut MemFiles) -> Result<u8, Refusal> {
    match tablet.next_cell(None, files)? {
        Some((row, _)) => Ok(row.as_bytes().first().copied().unwrap_or(b' ')),
        None => Ok(b'-'),
    }
}

/// The first byte of the row of the cell after the cell of `a`, or a dash.
fn next(alloc: Global, tablet: &Tablet, files: &mut MemFiles) -> Result<u8, Refusal> {
    let row = row_of(alloc, b'a')?;
    let family = Family::new(alloc, b"bal")?;
    match tablet.next_cell(Some((&row, &family)), files)? {
        Some((row, _)) => Ok(row.as_bytes().first().copied().unwrap_or(b' ')),
        None => Ok(b'-'),
    }
}

/// The rows among `a`, `b` and `d` that have data.
fn rows_with_data(
    alloc: Global,
    tablet: &mut Tablet,
    files: &mut MemFiles,
) -> Result<Vec<u8>, Refusal> {
    let family = Family::new(alloc, b"bal")?;
    let mut found = Vec::new(alloc);
    for byte in [b'a', b'b', b'd'] {
        let row = row_of(alloc, byte)?;
        if tablet.has_version(&row, &family, Qualifier::Data, 0, 9, files)? {
            found.push(byte)?;
        }
    }
    Ok(found)
}

/// The first bytes of the data of the row `a`, the newest first.
fn all_data(alloc: Global, tablet: &Tablet, files: &mut MemFiles) -> Result<Vec<u8>, Refusal> {
    let row = row_of(alloc, b'a')?;
    let family = Family::new(alloc, b"bal")?;
    let mut found = Vec::new(alloc);
    for (_, value) in tablet.versions(&row, &family, Qualifier::Data, 9, 9, files)? {
        found.push(value.first().copied().unwrap_or(b' '))?;
    }
    Ok(found)
}

/// The first bytes of the rows of all cells.
fn all_rows(alloc: Global, tablet: &Tablet, files: &mut MemFiles) -> Result<Vec<u8>, Refusal> {
    let mut found = Vec::new(alloc);
    for (row, _) in tablet.next_cells(None, 9, files)? {
        found.push(row.as_bytes().first().copied().unwrap_or(b' '))?;
    }
    Ok(found)
}

impl Served {
    /// Calls that may write files.
    fn compact(&mut self, alloc: Global, number: usize, wanted: &[u8]) -> Result<bool, Refusal> {
        let name = &mut self.next_name;
        let files = &mut self.files;
        match number {
            4 => self.tablet.minor(FILE_LIMIT, name, files)?,
            5 => self.tablet.merge(2, FILE_LIMIT, name, files)?,
            6 => self.tablet.major(FILE_LIMIT, name, files)?,
            7 => {
                let row = row_of(alloc, b'b')?;
                let left = self.tablet.split(&row, FILE_LIMIT, name, files)?;
                return Ok(wanted == [(left.file_count() % 256) as u8].as_slice());
            }
            _ => {
                let names = self.tablet.unload(FILE_LIMIT, name, files)?;
                return Ok(wanted == [(names.len() % 256) as u8].as_slice());
            }
        }
        Ok(wanted == [(self.tablet.file_count() % 256) as u8].as_slice())
    }
}

/// Loads a tablet of all rows; answers how many files it has.
fn load(alloc: Global, files: &mut MemFiles) -> Result<u8, Refusal> {
    let range = RowRange {
        after: None,
        end: None,
    };
    let tablet = Tablet::load(alloc, range, &[2, 1], few_blocks(), files)?;
    Ok((tablet.file_count() % 256) as u8)
}

pub const SERVED: Table = (b"a345\x03\x01", &CALLS);

impl Served {
    /// Writes into a new tablet.
    fn write_all(&mut self, alloc: Global) -> Result<(), Refusal> {
        for (row, stamp, value, is_followed) in WRITES {
            write(alloc, &mut self.tablet, row, stamp, value)?;
            if is_followed {
                let name = &mut self.next_name;
                self.tablet.minor(FILE_LIMIT, name, &mut self.files)?;
            }
        }
        Ok(())
    }
}

impl Subject for Served {
    fn set_up(alloc: Global) -> Result<Served, Refusal> {
        let names = vec![in alloc; 9]?;
        let mut served = Served {
            tablet: Tablet::new(alloc),
            files: MemFiles::new(alloc),
            next_name: 1,
            names,
        };
        served.write_all(alloc)?;
        Ok(served)
    }

    fn answers(&mut self, alloc: Global, number: usize, wanted: &[u8]) -> Result<bool, Refusal> {
        let files = &mut self.files;
        let answer = match number {
            0 => newest(alloc, &mut self.tablet, files, b'a')?,
            1 => first(&self.tablet, files)?,
            2 => next(alloc, &self.tablet, files)?,
            3 => {
                write(alloc, &mut self.tablet, b'b', 3, b'6')?;
                return Ok(wanted.is_empty());
            }
            9 => load(alloc, files)?,
            11 => return Ok(wanted == all_rows(alloc, &self.tablet, files)?.as_slice()),
            12 => {
                let found = rows_with_data(alloc, &mut self.tablet, files)?;
                return Ok(wanted == found.as_slice());
            }
            13 => return Ok(wanted == all_data(alloc, &self.tablet, files)?.as_slice()),
            10 => {
                self.tablet.push_names(&mut self.names)?;
                return Ok(wanted.is_empty());
            }
            _ => return self.compact(alloc, number, wanted),
        };
        Ok(wanted == [answer].as_slice())
    }

    fn read(&mut self, alloc: Global) -> Result<Vec<u8>, Refusal> {
        let files = &mut self.files;
        let mut out = vec![in alloc; first(&self.tablet, files)?]?;
        if self.tablet.range().after.is_none() {
            out.push(newest(alloc, &mut self.tablet, files, b'a')?)?;
            out.push(newest(alloc, &mut self.tablet, files, b'b')?)?;
        }
        out.push(newest(alloc, &mut self.tablet, files, b'c')?)?;
        let lists = self.tablet.file_count() % 64 + usize::from(!self.tablet.is_empty());
        out.push(lists as u8)?;
        out.push((self.names.len() % 256) as u8)?;
        Ok(out)
    }
}

/// The places of two tablets.
#[derive(Drop)]
pub struct Placed {
    table: MetadataTable,
}

/// The state read after a call: of each place the tablet, the server, the number of files, and the first byte of its
/// end.
const PLACE_CALLS: [Call; 4] = [
    // MetadataTable::new
    (b"\x01", b"\x02\x03\x01m\x01\x03\x01-"),
    // split_at
    (b"\x03", b"\x03\x03\x01a\x02\x03\x01m\x01\x03\x01-"),
    // set_files
    (b"", b"\x02\x03\x02m\x01\x03\x01-"),
    // clone
    (b"\x02", b"\x02\x03\x01m\x01\x03\x01-"),
];

pub const PLACED: Table = (b"\x02\x03\x01m\x01\x03\x01-", &PLACE_CALLS);

/// Splits a metadata table at a row; answers the number of the left part.
pub fn split_at(alloc: Global, table: &mut MetadataTable, row: &[u8]) -> Result<u8, Refusal> {
    let row = Row::new(alloc, row)?;
    Ok((table.split_at(&row)? % 256) as u8)
}

/// The first byte of the end of a place, or a dash.
fn end_of(end: Option<&Row>) -> u8 {
    match end {
        Some(end) => end.as_bytes().first().copied().unwrap_or(b' '),
        None => b'-',
    }
}

impl Subject for Placed {
    fn set_up(alloc: Global) -> Result<Placed, Refusal> {
        let names = vec![in alloc; 7]?;
        let mut table = MetadataTable::new(alloc)?;
        table.assign(1, 3)?;
        table.set_files(1, names)?;
        split_at(alloc, &mut table, b"m")?;
        Ok(Placed { table })
    }

    fn answers(&mut self, alloc: Global, number: usize, wanted: &[u8]) -> Result<bool, Refusal> {
        let answer = match number {
            0 => (MetadataTable::new(alloc)?.len() % 256) as u8,
            1 => split_at(alloc, &mut self.table, b"a")?,
            2 => {
                self.table.set_files(2, vec![in alloc; 8, 9]?)?;
                return Ok(wanted.is_empty());
            }
            _ => (self.table.clone()?.len() % 256) as u8,
        };
        Ok(wanted == [answer].as_slice())
    }

    fn read(&mut self, alloc: Global) -> Result<Vec<u8>, Refusal> {
        let mut out = Vec::new(alloc);
        for place in self.table.places() {
            let tablet = (place.tablet % 256) as u8;
            let files = (place.files.len() % 256) as u8;
            out.extend_from_slice(&[tablet, place.server, files, end_of(place.end.as_ref())])?;
        }
        Ok(out)
    }
}
