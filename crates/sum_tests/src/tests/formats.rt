//! The bytes of files of format 3, and files of both formats.

use super::SEVEN;
use file_store::{FileFault, Files, MemFiles, read_whole};
use file_sums::SumFiles;
use std::alloc::Global;
use std::test::Fail;

/// An empty file 7: its one piece has no payload.
const EMPTY: [u8; 6] = *b"\0\0\xE0\x4B\x3C\x4F";

/// The file 7 with `abc`.
const ABC: [u8; 9] = *b"\0\x03\xCE\xAA\xC5\xD6abc";

/// The head of the first piece of the file 7 with 1,024 bytes `A`, and its second and last piece.
const WHOLE_HEAD: [u8; 6] = *b"\x04\0\x31\x97\x7F\x58";

const WHOLE_END: [u8; 6] = *b"\0\0\xE1\x89\x56\x78";

/// The second and last piece of the file 7 with 1,024 bytes `A` and a `B`.
const MORE_END: [u8; 7] = *b"\0\x01\x0D\xF4\x8E\x28B";

/// The bytes below of the file 7, to which these bytes were pushed one after another.
fn stored(alloc: Global, parts: &[&[u8]]) -> Result<Vec<u8>, FileFault> {
    let mut files = opened(alloc, MemFiles::new(alloc))?;
    let mut writing = files.begin(7)?;
    for part in parts {
        files.push(&mut writing, part)?;
    }
    files.finish(writing)?;
    let mut inner = files.into_inner();
    read_whole(alloc, &mut inner, SEVEN)?.ok_or(FileFault::Memory)
}

/// Files over these.
fn opened(alloc: Global, inner: MemFiles) -> Result<SumFiles<MemFiles>, FileFault> {
    SumFiles::open(alloc, inner).map_err(|refused| refused.0)
}

#[test]
fn short_files(rt: HostRuntime) -> Result<(), Fail> {
    assert!(rt; stored(rt.alloc(), &[])?.as_slice() == EMPTY.as_slice());
    assert!(rt; stored(rt.alloc(), &[b"abc"])?.as_slice() == ABC.as_slice());
    assert!(rt; stored(rt.alloc(), &[b"a", b"", b"bc"])?.as_slice() == ABC.as_slice());
    Ok(())
}

/// Whether the bytes are a first piece of 1,024 bytes `A`, and then this end.
fn are_pieces(bytes: &[u8], end: &[u8]) -> bool {
    bytes.len() == 1030 + end.len()
        && bytes.starts_with(&WHOLE_HEAD)
        && bytes[6..1030].iter().all(|byte| *byte == b'A')
        && bytes.ends_with(end)
}

#[test]
fn files_of_several_pieces(rt: HostRuntime) -> Result<(), Fail> {
    let part = [b'A'; 512];
    assert!(rt; are_pieces(&stored(rt.alloc(), &[&part, &part])?, &WHOLE_END));
    assert!(rt; are_pieces(&stored(rt.alloc(), &[&part, &part, b"B"])?, &MORE_END));
    Ok(())
}

/// Files of both formats: 5 and 7 as they were before, 7 and 9 in format 3.
fn both(alloc: Global) -> Result<SumFiles<MemFiles>, FileFault> {
    let mut inner = MemFiles::new(alloc);
    inner.put(5, b"five")?;
    inner.put(7, b"old")?;
    inner.put(SEVEN, &ABC)?;
    let mut files = opened(alloc, inner)?;
    files.put(9, b"nine")?;
    Ok(files)
}

/// Whether the files have these names.
fn has_names(
    alloc: Global,
    files: &mut SumFiles<MemFiles>,
    wanted: &[u64],
) -> Result<bool, FileFault> {
    let mut names = Vec::new(alloc);
    files.list(&mut names)?;
    Ok(names.as_slice() == wanted)
}

/// Whether a file has these bytes.
fn has_bytes(
    alloc: Global,
    files: &mut SumFiles<MemFiles>,
    name: u64,
    wanted: &[u8],
) -> Result<bool, FileFault> {
    match read_whole(alloc, files, name)? {
        Some(bytes) => Ok(bytes.as_slice() == wanted),
        None => Ok(false),
    }
}

/// Whether both formats are read side by side, and the file of format 3 counts where both are there.
fn are_read(alloc: Global) -> Result<bool, FileFault> {
    let mut files = both(alloc)?;
    Ok(
        has_names(alloc, &mut files, &[5, 7, 9])?
            && has_bytes(alloc, &mut files, 5, b"five")?
            && has_bytes(alloc, &mut files, 7, b"abc")?
            && has_bytes(alloc, &mut files, 9, b"nine")?,
    )
}

/// Whether a file that is put is of format 3 alone, and one that is removed doesn't come back.
fn are_changed(alloc: Global) -> Result<bool, FileFault> {
    let mut files = both(alloc)?;
    files.put(5, b"new")?;
    files.remove(7)?;
    let mut inner = files.into_inner();
    let mut names = Vec::new(alloc);
    inner.list(&mut names)?;
    Ok(names.as_slice() == [SEVEN - 2, SEVEN + 2].as_slice())
}

#[test]
fn files_of_both_formats(rt: HostRuntime) -> Result<(), Fail> {
    assert!(rt; are_read(rt.alloc())?);
    assert!(rt; are_changed(rt.alloc())?);
    Ok(())
}

/// Whether no file has a number from 2^63 on, and none is begun.
fn has_no_high_files(alloc: Global) -> Result<bool, FileFault> {
    let mut files = both(alloc)?;
    let begun = files.put(SEVEN, b"seven").err();
    let mut bytes = [0u8; 4];
    Ok(
        begun == Some(FileFault::Device)
            && files.size(SEVEN)?.is_none()
            && files.read_at(SEVEN, 0, &mut bytes)? == 0
            && files.faults() == 1,
    )
}

#[test]
fn numbers_of_files_end(rt: HostRuntime) -> Result<(), Fail> {
    assert!(rt; has_no_high_files(rt.alloc())?);
    Ok(())
}
