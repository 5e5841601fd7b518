//! Files of format 3 that changed by themselves: each answer is the right one or `Device`.

use super::SEVEN;
use file_store::{FileFault, Files, MemFiles, read_whole};
use file_sums::SumFiles;
use std::alloc::Global;
use std::test::Fail;

/// The length of the file: two whole pieces, and 52 bytes in the last one.
const LEN: usize = 2100;

/// The length of its pieces: 1,030, 1,030 and 58.
const STORED: usize = 2118;

/// The byte of the file at an offset.
fn byte_at(offset: usize) -> u8 {
    (offset % 251) as u8
}

/// The bytes below of the file 7.
fn stored(alloc: Global) -> Result<Vec<u8>, FileFault> {
    let mut bytes = Vec::with_capacity(alloc, LEN)?;
    for offset in 0..LEN {
        bytes.push(byte_at(offset))?;
    }
    let mut files = opened(alloc, MemFiles::new(alloc))?;
    files.put(7, &bytes)?;
    let mut inner = files.into_inner();
    read_whole(alloc, &mut inner, SEVEN)?.ok_or(FileFault::Memory)
}

/// Files over these.
fn opened(alloc: Global, inner: MemFiles) -> Result<SumFiles<MemFiles>, FileFault> {
    SumFiles::open(alloc, inner).map_err(|refused| refused.0)
}

/// Files with one file of format 3 that has these bytes below.
fn files_of(alloc: Global, name: u64, bytes: &[u8]) -> Result<SumFiles<MemFiles>, FileFault> {
    let mut inner = MemFiles::new(alloc);
    inner.put(name, bytes)?;
    opened(alloc, inner)
}

/// How many of the bytes at this offset are read right; none if that is answered `Device`.
fn right_at(files: &mut SumFiles<MemFiles>, offset: usize) -> Result<usize, FileFault> {
    let mut bytes = [0u8; 16];
    let len = match files.read_at(7, offset as u64, &mut bytes) {
        Ok(len) => len,
        Err(FileFault::Device) => return Ok(0),
        Err(FileFault::Memory) => return Err(FileFault::Memory),
    };
    let is_right = bytes
        .iter()
        .enumerate()
        .all(|(at, byte)| *byte == byte_at(offset.wrapping_add(at)));
    if len == 16 && is_right {
        Ok(16)
    } else {
        Ok(99)
    }
}

/// Whether the whole file is answered `Device`, and three parts of it are right or `Device`.
fn is_found(alloc: Global, bytes: &[u8]) -> Result<bool, FileFault> {
    let mut files = files_of(alloc, SEVEN, bytes)?;
    let mut whole = vec![in alloc; 0u8; LEN]?;
    let is_device = files.read_at(7, 0, &mut whole) == Err(FileFault::Device);
    let mut is_right = true;
    for offset in [0, 1020, 2084] {
        is_right = is_right && right_at(&mut files, offset)? <= 16;
    }
    Ok(is_device && is_right && files.faults() > 0)
}

/// Changes one bit of the byte at an offset: another one at each.
fn flip(bytes: &mut [u8], at: usize) {
    if let Some(byte) = bytes.get_mut(at) {
        *byte = *byte ^ (1 << (at % 8) as u32);
    }
}

#[test]
fn each_byte_changed(rt: HostRuntime) -> Result<(), Fail> {
    let mut bytes = stored(rt.alloc())?;
    assert!(rt; bytes.len() == STORED);
    for at in 0..STORED {
        flip(&mut bytes, at);
        assert!(rt; is_found(rt.alloc(), &bytes)?, "at {at}");
        flip(&mut bytes, at);
    }
    Ok(())
}

/// Whether a file is answered `Device` where it is read from the front, and where its size is asked for.
fn is_no_file(alloc: Global, bytes: &[u8]) -> Result<bool, FileFault> {
    let mut files = files_of(alloc, SEVEN, bytes)?;
    let size = files.size(7);
    let mut whole = vec![in alloc; 0u8; LEN + 1]?;
    let read = files.read_at(7, 0, &mut whole);
    Ok(size == Err(FileFault::Device) && read == Err(FileFault::Device))
}

#[test]
fn files_that_were_cut(rt: HostRuntime) -> Result<(), Fail> {
    let mut bytes = stored(rt.alloc())?;
    for at in 0..STORED {
        let _ = bytes.pop();
        assert!(rt; is_no_file(rt.alloc(), &bytes)?, "at {at}");
    }
    Ok(())
}

/// The pieces in another order, and one of them left out.
fn rearranged(
    alloc: Global,
    pieces: &[u8],
    ranges: [(usize, usize); 3],
) -> Result<Vec<u8>, FileFault> {
    let mut bytes = Vec::new(alloc);
    for (start, end) in ranges {
        let piece = pieces.get(start..end).unwrap_or(&[]);
        bytes.extend_from_slice(piece)?;
    }
    Ok(bytes)
}

#[test]
fn pieces_that_took_another_place(rt: HostRuntime) -> Result<(), Fail> {
    let bytes = stored(rt.alloc())?;
    for ranges in [
        [(1030, 2060), (0, 1030), (2060, 2118)],
        [(0, 1030), (0, 1030), (2060, 2118)],
        [(0, 1030), (2060, 2118), (0, 0)],
        [(1030, 2060), (2060, 2118), (0, 0)],
    ] {
        let other = rearranged(rt.alloc(), &bytes, ranges)?;
        assert!(rt; is_found(rt.alloc(), &other)?);
    }
    Ok(())
}

/// Whether the bytes of the file 7 are answered `Device` as those of the file 8.
fn is_another_file(alloc: Global, bytes: &[u8]) -> Result<bool, FileFault> {
    let mut files = files_of(alloc, SEVEN + 1, bytes)?;
    let mut part = [0u8; 8];
    Ok(files.read_at(8, 0, &mut part) == Err(FileFault::Device))
}

#[test]
fn a_file_under_another_name(rt: HostRuntime) -> Result<(), Fail> {
    let bytes = stored(rt.alloc())?;
    assert!(rt; is_another_file(rt.alloc(), &bytes)?);
    Ok(())
}
