//! Rows: in memory, and in a cluster of tablets.

ghost use Rattle.std.specs.Prelude.{IfOk};
ghost use Rattle.rows.specs.RowEdits.{AreOfTheirRow};

use cell_key::{Family, Qualifier, Refusal, Row, Stamp};
use file_store::MemFiles;
use row_atomic::{Cluster, Command, Outcome, PlainRows, RowEdits, Rows};
use std::alloc::Global;
use testing::FILE_LIMIT;
use testing::edits::edits_of;
use testing::memory::{Call, Subject, Table};

/// Writes a value of one byte into a row, and an erasure at the stamp 9.
fn write<R: Rows>(
    alloc: Global,
    rows: &mut R,
    row: u8,
    stamp: Stamp,
    value: u8,
) -> Result<(), Refusal> {
    let row = Row::new(alloc, &[row])?;
    let edits = edits_of(alloc, &row, stamp, Some(&[value]), Some(9))?;
    rows.apply(&row, edits)
}

/// A change of a row: a value of one byte at a stamp.
fn change_of(alloc: Global, row: u8, stamp: Stamp, value: u8) -> Result<RowEdits, Refusal>
    ensures { IfOk result AreOfTheirRow }
{
    let row = Row::new(alloc, &[row])?;
    let edits = edits_of(alloc, &row, stamp, Some(&[value]), None)?;
    Ok(RowEdits { row, edits })
}

/// Writes values into the rows `n`, `a` and again `n`, in one call.
pub fn write_all<R: Rows>(alloc: Global, rows: &mut R) -> Result<(), Refusal> {
    let first = change_of(alloc, b'n', 4, b'7')?;
    let second = change_of(alloc, b'a', 4, b'8')?;
    let third = change_of(alloc, b'n', 5, b'9')?;
    rows.apply_all(vec![in alloc; first, second, third]?)
}

/// The first byte of the newest data of a row in the family `bal`, or a dash.
pub fn newest<R: Rows>(alloc: Global, rows: &mut R, row: u8) -> Result<u8, Refusal> {
    let row = Row::new(alloc, &[row])?;
    let family = Family::new(alloc, b"bal")?;
    match rows.newest(&row, &family, Qualifier::Data, 0, 9)? {
        Some((_, value)) => Ok(value.first().copied().unwrap_or(b' ')),
        None => Ok(b'-'),
    }
}

/// The first byte of the row of the next cell after a row's cell, or a dash.
pub fn next<R: Rows>(alloc: Global, rows: &mut R, row: u8) -> Result<u8, Refusal> {
    let row = Row::new(alloc, &[row])?;
    let family = Family::new(alloc, b"bal")?;
    match rows.next_cell(Some((&row, &family)))? {
        Some((row, _)) => Ok(row.as_bytes().first().copied().unwrap_or(b' ')),
        None => Ok(b'-'),
    }
}

/// The first bytes of the rows of the next cells from the start, at most `most` of them.
fn next_rows<R: Rows>(alloc: Global, rows: &mut R, most: usize) -> Result<Vec<u8>, Refusal> {
    let mut found = Vec::new(alloc);
    for (row, _) in rows.next_cells(None, most)? {
        found.push(row.as_bytes().first().copied().unwrap_or(b' '))?;
    }
    Ok(found)
}

/// The rows among `a`, `n` and `z` that have data.
fn rows_with_data<R: Rows>(alloc: Global, rows: &mut R) -> Result<Vec<u8>, Refusal> {
    let family = Family::new(alloc, b"bal")?;
    let mut found = Vec::new(alloc);
    for byte in [b'a', b'n', b'z'] {
        let row = Row::new(alloc, &[byte])?;
        if rows.has_version(&row, &family, Qualifier::Data, 0, 9)? {
            found.push(byte)?;
        }
    }
    Ok(found)
}

/// The first bytes of the data of the row `a`, the newest first.
fn all_data<R: Rows>(alloc: Global, rows: &mut R) -> Result<Vec<u8>, Refusal> {
    let row = Row::new(alloc, b"a")?;
    let family = Family::new(alloc, b"bal")?;
    let mut found = Vec::new(alloc);
    for (_, value) in rows.versions(&row, &family, Qualifier::Data, 9, 9)? {
        found.push(value.first().copied().unwrap_or(b' '))?;
    }
    Ok(found)
}

/// The calls of any rows, with `a` and `n`.
fn rows_answer<R: Rows>(
    alloc: Global,
    rows: &mut R,
    number: usize,
    wanted: &[u8],
) -> Result<bool, Refusal> {
    match number {
        0 => Ok(wanted == [newest(alloc, rows, b'a')?].as_slice()),
        1 => Ok(wanted == [next(alloc, rows, b'a')?].as_slice()),
        2 => {
            write(alloc, rows, b'n', 3, b'6')?;
            Ok(wanted.is_empty())
        }
        3 => Ok(wanted == next_rows(alloc, rows, 9)?.as_slice()),
        4 => Ok(wanted == all_data(alloc, rows)?.as_slice()),
        6 => {
            write_all(alloc, rows)?;
            Ok(wanted.is_empty())
        }
        _ => Ok(wanted == rows_with_data(alloc, rows)?.as_slice()),
    }
}

/// Rows in memory.
#[derive(Drop)]
pub struct Plain {
    rows: PlainRows,
}

const PLAIN_CALLS: [Call; 7] = [
    // newest
    (b"1", b"12"),
    // next_cell
    (b"n", b"12"),
    // apply
    (b"", b"16"),
    // next_cells
    (b"an", b"12"),
    // versions
    (b"1", b"12"),
    // has_version
    (b"an", b"12"),
    // apply_all
    (b"", b"89"),
];

pub const PLAIN: Table = (b"12", &PLAIN_CALLS);

impl Subject for Plain {
    fn set_up(alloc: Global) -> Result<Plain, Refusal> {
        let mut rows = PlainRows::new(alloc);
        write(alloc, &mut rows, b'a', 1, b'1')?;
        write(alloc, &mut rows, b'n', 1, b'2')?;
        Ok(Plain { rows })
    }

    fn answers(&mut self, alloc: Global, number: usize, wanted: &[u8]) -> Result<bool, Refusal> {
        rows_answer(alloc, &mut self.rows, number, wanted)
    }

    fn read(&mut self, alloc: Global) -> Result<Vec<u8>, Refusal> {
        let first = newest(alloc, &mut self.rows, b'a')?;
        let second = newest(alloc, &mut self.rows, b'n')?;
        Ok(vec![in alloc; first, second]?)
    }
}

/// A cluster of one tablet with two files and a write in its memtable. Two more files belong to no tablet.
#[derive(Drop)]
pub struct Clustered {
    cluster: Cluster<MemFiles>,
}

/// The refusals show whether there is a second tablet.
const CLUSTER_CALLS: [Call; 13] = [
    // newest
    (b"5", b"54\x0E\x0B"),
    // next_cell
    (b"n", b"54\x0E\x0B"),
    // apply
    (b"", b"56\x0E\x0B"),
    // minor
    (b"", b"54\x0E\x0B"),
    // merge
    (b"", b"54\x0E\x0B"),
    // major
    (b"", b"54\x0E\x0B"),
    // split
    (b"\x02", b"54\x0E\x0E"),
    // move_to
    (b"", b"54\x0E\x0B"),
    // sweep
    (b"\x02", b"54\x0E\x0B"),
    // run
    (b"a", b"54\x0E\x0B"),
    // next_cells
    (b"an", b"54\x0E\x0B"),
    // versions
    (b"531", b"54\x0E\x0B"),
    // has_version: of a value in a file, one in the memtable, and none
    (b"an", b"54\x0E\x0B"),
];

/// A cluster over files in memory.
pub fn new_cluster(alloc: Global) -> Result<Cluster<MemFiles>, Refusal> {
    match Cluster::new(alloc, MemFiles::new(alloc), FILE_LIMIT) {
        Ok(cluster) => Ok(cluster),
        Err((refusal, _)) => Err(refusal),
    }
}

/// The number of the refusal of a merge of more files than a tablet has.
fn refused_merge(cluster: &mut Cluster<MemFiles>, tablet: u32) -> u8 {
    match cluster.merge(tablet, 9) {
        Err(refusal) => refusal.number(),
        Ok(()) => 0,
    }
}

/// Runs a command that looks for the first cell; answers whether its row is this one.
fn is_first(
    alloc: Global,
    cluster: &mut Cluster<MemFiles>,
    wanted: &[u8],
) -> Result<bool, Refusal> {
    let commands = vec![in alloc; Command::NextCell { after: None }]?;
    match cluster.run(commands)?.get(0) {
        Some(Outcome::NextCell(Some((row, _)))) => Ok(row.as_bytes() == wanted),
        Some(Outcome::Refused(refusal)) => Err(*refusal),
        _ => Ok(false),
    }
}

/// The writes into a new cluster, each followed by this many minor compactions, and by a merge of two files once there
/// are two.
const WRITES: [(u8, Stamp, u8, u8); 5] = [
    (b'a', 1, b'1', 0),
    (b'n', 1, b'2', 1),
    (b'a', 2, b'3', 2),
    (b'a', 3, b'5', 1),
    (b'n', 2, b'4', 0),
];

/// Makes these writes and compactions.
fn fill(alloc: Global, cluster: &mut Cluster<MemFiles>) -> Result<(), Refusal> {
    for (row, stamp, value, compactions) in WRITES {
        write(alloc, cluster, row, stamp, value)?;
        if compactions > 0 {
            cluster.minor(1)?;
        }
        if compactions > 1 {
            cluster.merge(1, 2)?;
        }
    }
    Ok(())
}

pub const CLUSTERED: Table = (b"54\x0E\x0B", &CLUSTER_CALLS);

impl Subject for Clustered {
    fn set_up(alloc: Global) -> Result<Clustered, Refusal> {
        let mut cluster = new_cluster(alloc)?;
        fill(alloc, &mut cluster)?;
        Ok(Clustered { cluster })
    }

    fn answers(&mut self, alloc: Global, number: usize, wanted: &[u8]) -> Result<bool, Refusal> {
        match number {
            3 => self.cluster.minor(1)?,
            4 => self.cluster.merge(1, 2)?,
            5 => self.cluster.major(1)?,
            6 => {
                let row = Row::new(alloc, b"m")?;
                return Ok(wanted == [(self.cluster.split(&row)? % 256) as u8].as_slice());
            }
            7 => self.cluster.move_to(1, 3)?,
            8 => return Ok(wanted == [(self.cluster.sweep()? % 256) as u8].as_slice()),
            9 => return is_first(alloc, &mut self.cluster, wanted),
            10 => return rows_answer(alloc, &mut self.cluster, 3, wanted),
            11 => return rows_answer(alloc, &mut self.cluster, 4, wanted),
            12 => return rows_answer(alloc, &mut self.cluster, 5, wanted),
            _ => return rows_answer(alloc, &mut self.cluster, number, wanted),
        }
        Ok(wanted.is_empty())
    }

    fn read(&mut self, alloc: Global) -> Result<Vec<u8>, Refusal> {
        let first = newest(alloc, &mut self.cluster, b'a')?;
        let second = newest(alloc, &mut self.cluster, b'n')?;
        let one = refused_merge(&mut self.cluster, 1);
        let two = refused_merge(&mut self.cluster, 2);
        Ok(vec![in alloc; first, second, one, two]?)
    }
}

/// A cluster of two tablets, with a value in each of their files, and one in the first tablet's memtable.
#[derive(Drop)]
pub struct Parted {
    cluster: Cluster<MemFiles>,
}

const PARTED_CALLS: [Call; 1] = [
    // apply_all: edits of both tablets
    (b"", b"89"),
];

/// Makes the two tablets.
fn part(alloc: Global, cluster: &mut Cluster<MemFiles>) -> Result<(), Refusal> {
    write(alloc, cluster, b'a', 1, b'1')?;
    write(alloc, cluster, b'n', 1, b'2')?;
    cluster.split(&Row::new(alloc, b"m")?)?;
    write(alloc, cluster, b'a', 2, b'3')
}

pub const PARTED: Table = (b"32", &PARTED_CALLS);

impl Subject for Parted {
    fn set_up(alloc: Global) -> Result<Parted, Refusal> {
        let mut cluster = new_cluster(alloc)?;
        part(alloc, &mut cluster)?;
        Ok(Parted { cluster })
    }

    fn answers(&mut self, alloc: Global, _number: usize, wanted: &[u8]) -> Result<bool, Refusal> {
        rows_answer(alloc, &mut self.cluster, 6, wanted)
    }

    fn read(&mut self, alloc: Global) -> Result<Vec<u8>, Refusal> {
        let first = newest(alloc, &mut self.cluster, b'a')?;
        let second = newest(alloc, &mut self.cluster, b'n')?;
        Ok(vec![in alloc; first, second]?)
    }
}
