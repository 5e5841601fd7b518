//! The reader of a root's bytes.

ghost use Rattle.std.specs.Prelude.{◌≡◌, IfOk, IfErr};
ghost use Rattle.std.specs.Int.{w32, w64};
ghost use Rattle.metadata_table.specs.Places.{view_of, views};
ghost use Rattle.metadata_table.specs.RootReader.{GivesRead, drafted, every_second, files_at, number_at, byte_at, field_at, row_at, end_at, numbers_at, place_at, places_at, root_at};
ghost use Rattle.metadata_table.specs.declared.root.reader.ReadFault.TheVariants.{Memory};

use crate::places::Place;
use crate::root::format::RootFormat;
use cell_key::{Refusal, Row};
use std::alloc::{AllocError, AllocFailed, Global};

/// Why bytes could not be read.
#[derive(Clone, Copy, Debug)]
pub(crate) enum ReadFault {
    /// An allocation failed.
    Memory,
    /// They are not a root.
    Malformed,
}

impl From<AllocError> for ReadFault {
    ghost from_gives = { λ _ e. e ≡ Memory };

    fn from(_e: AllocError) -> ReadFault {
        ReadFault::Memory
    }
}

impl<T: Drop> From<AllocFailed<T>> for ReadFault {
    ghost from_gives = { λ _ e. e ≡ Memory };

    fn from(_e: AllocFailed<T>) -> ReadFault {
        ReadFault::Memory
    }
}

/// The content of a root's bytes before they are checked.
#[derive(Drop)]
pub(crate) struct Draft {
    pub(crate) top: u64,
    pub(crate) floor: u64,
    pub(crate) next_name: u64,
    pub(crate) format: RootFormat,
    pub(crate) places: Vec<Place>,
    pub(crate) lengths: Vec<u64>,
}

/// The four-byte number at the front, and the bytes after it.
fn read_u32(bytes: &[u8]) -> Result<(u32, &[u8]), ReadFault>
    ensures { GivesRead (λ x. (x.0, x.1.now)) result (number_at w32 bytes.now) }
{
    if bytes.len() < 4 {
        return Err(ReadFault::Malformed);
    }
    let (front, rest) = bytes.split_at(4);
    let number = u32::from_be_bytes([front[0], front[1], front[2], front[3]]);
    Ok((number, rest))
}

/// The eight-byte number at the front, and the bytes after it.
fn read_u64(bytes: &[u8]) -> Result<(u64, &[u8]), ReadFault>
    ensures { GivesRead (λ x. (x.0, x.1.now)) result (number_at w64 bytes.now) }
{
    if bytes.len() < 8 {
        return Err(ReadFault::Malformed);
    }
    let (front, rest) = bytes.split_at(8);
    let number = u64::from_be_bytes([
        front[0], front[1], front[2], front[3], front[4], front[5], front[6], front[7],
    ]);
    Ok((number, rest))
}

/// The byte at the front, and the bytes after it.
fn read_byte(bytes: &[u8]) -> Result<(u8, &[u8]), ReadFault>
    ensures { GivesRead (λ x. (x.0, x.1.now)) result (byte_at bytes.now) }
{
    match bytes {
        [] => Err(ReadFault::Malformed),
        [byte, rest @ ..] => Ok((*byte, rest)),
    }
}

/// The length-prefixed field at the front, and the bytes after it.
#[tactic(auto, unfolding(crate::specs::RootReader::field_at))]
fn read_field(bytes: &[u8]) -> Result<(&[u8], &[u8]), ReadFault>
    ensures { GivesRead (λ x. (x.0.now, x.1.now)) result (field_at bytes.now) }
{
    let (len, rest) = read_u32(bytes)?;
    let len = len as usize;
    if rest.len() < len {
        return Err(ReadFault::Malformed);
    }
    Ok(rest.split_at(len))
}

/// The row at the front, and the bytes after it.
#[tactic(auto, unfolding(crate::specs::RootReader::row_at))]
fn read_row(alloc: Global, bytes: &[u8]) -> Result<(Row, &[u8]), ReadFault>
    ensures { GivesRead (λ x. (x.0, x.1.now)) result (row_at bytes.now) }
{
    let (text, rest) = read_field(bytes)?;
    if text.len() < 1 {
        return Err(ReadFault::Malformed);
    }
    if text.len() > Row::MOST_BYTES {
        return Err(ReadFault::Malformed);
    }
    match Row::new(alloc, text) {
        Ok(row) => Ok((row, rest)),
        Err(_) => Err(ReadFault::Memory),
    }
}

/// The end at the front, and the bytes after it.
#[tactic(auto, unfolding(crate::specs::RootReader::end_at))]
fn read_end(alloc: Global, bytes: &[u8]) -> Result<(Option<Row>, &[u8]), ReadFault>
    ensures { GivesRead (λ x. (x.0, x.1.now)) result (end_at bytes.now) }
{
    match bytes {
        [] => Err(ReadFault::Malformed),
        [0, rest @ ..] => {
            let (row, rest) = read_row(alloc, rest)?;
            Ok((Some(row), rest))
        }
        [1, rest @ ..] => Ok((None, rest)),
        [_, ..] => Err(ReadFault::Malformed),
    }
}

/// `count` eight-byte numbers at the front, and the bytes after them.
fn read_numbers(alloc: Global, count: u64, bytes: &[u8]) -> Result<(Vec<u64>, &[u8]), ReadFault>
    ensures { GivesRead (λ x. (x.0.items, x.1.now)) result (numbers_at count bytes.now) }
{
    let mut numbers = Vec::new(alloc);
    let mut rest = bytes;
    for _ in 0..count {
        let (number, after) = read_u64(rest)?;
        numbers.push(number)?;
        rest = after;
    }
    Ok((numbers, rest))
}

/// Every second number, from the first on.
fn every_second(alloc: Global, numbers: &[u64]) -> Result<Vec<u64>, ReadFault>
    ensures half { IfOk result (λ half. half.items ≡ every_second numbers.now) }
    ensures memory { IfErr result (λ e. e ≡ Memory) }
{
    let mut half = Vec::new(alloc);
    let mut rest = numbers;
    'numbers: while let Some((number, after)) = rest.split_first() {
        half.push(*number)?;
        rest = match after.split_first() {
            Some((_, behind)) => behind,
            None => after,
        };
    }
    Ok(half)
}

/// `count` files at the front, and the bytes after them: their names, and their lengths if the format has them.
#[tactic(auto, unfolding(crate::specs::RootReader::files_at))]
fn read_files(
    alloc: Global,
    format: RootFormat,
    count: u32,
    bytes: &[u8],
) -> Result<(Vec<u64>, Vec<u64>, &[u8]), ReadFault>
    ensures { GivesRead (λ x. ((x.0.items, x.1.items), x.2.now)) result
        (files_at format count bytes.now) }
{
    match format {
        RootFormat::One => {
            let (names, rest) = read_numbers(alloc, count as u64, bytes)?;
            Ok((names, Vec::new(alloc), rest))
        }
        RootFormat::Two => {
            let (numbers, rest) = read_numbers(alloc, count as u64 * 2, bytes)?;
            let names = every_second(alloc, &numbers)?;
            let lengths = match numbers.split_first() {
                Some((_, behind)) => every_second(alloc, behind)?,
                None => Vec::new(alloc),
            };
            Ok((names, lengths, rest))
        }
    }
}

/// The place at the front, with the lengths of its files, and the bytes after it.
#[tactic(auto, unfolding(crate::specs::RootReader::place_at))]
fn read_place(
    alloc: Global,
    format: RootFormat,
    bytes: &[u8],
) -> Result<(Place, Vec<u64>, &[u8]), ReadFault>
    ensures { GivesRead (λ x. ((view_of x.0, x.1.items), x.2.now)) result
        (place_at format bytes.now) }
{
    let (tablet, rest) = read_u32(bytes)?;
    let (end, rest) = read_end(alloc, rest)?;
    let (server, rest) = read_byte(rest)?;
    let (count, rest) = read_u32(rest)?;
    let (files, lengths, rest) = read_files(alloc, format, count, rest)?;
    let place = Place {
        tablet,
        end,
        server,
        files,
    };
    Ok((place, lengths, rest))
}

/// `count` places at the front, with the lengths of all their files, and the bytes after them.
#[tactic(auto, unfolding(crate::specs::RootReader::places_at))]
fn read_places(
    alloc: Global,
    format: RootFormat,
    count: u32,
    bytes: &[u8],
) -> Result<(Vec<Place>, Vec<u64>, &[u8]), ReadFault>
    ensures { GivesRead (λ x. ((views x.0.items, x.1.items), x.2.now)) result
        (places_at format count bytes.now) }
{
    let mut places = Vec::new(alloc);
    let mut lengths = Vec::new(alloc);
    let mut rest = bytes;
    for _ in 0..count {
        let (place, own, after) = read_place(alloc, format, rest)?;
        places.push(place)?;
        lengths.extend_from_slice(&own)?;
        rest = after;
    }
    Ok((places, lengths, rest))
}

/// The content of the bytes, if they are a root. Head and foot are skipped without a check.
#[tactic(auto, unfolding(crate::specs::RootReader::root_at))]
pub(crate) fn read_draft(alloc: Global, bytes: &[u8]) -> Result<Draft, ReadFault>
    ensures { GivesRead drafted result (root_at bytes.now) }
{
    let (head, rest) = read_u64(bytes)?;
    let format = RootFormat::of(head);
    let (top, rest) = read_u64(rest)?;
    let (floor, rest) = read_u64(rest)?;
    let (next_name, rest) = read_u64(rest)?;
    let (_, rest) = read_u32(rest)?;
    let (count, rest) = read_u32(rest)?;
    let (places, lengths, _) = read_places(alloc, format, count, rest)?;
    Ok(Draft {
        top,
        floor,
        next_name,
        format,
        places,
        lengths,
    })
}
