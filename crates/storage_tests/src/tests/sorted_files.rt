//! Sorted files, by their bytes.

use crate::tests::files::Recorder;
use crate::tests::memory::files::{merge, refused, write, write_again};
use cell_key::{CellKey, Family, Qualifier, Refusal, Row, Stamp};
use file_store::{Files, MemFiles, read_whole};
use memtable::Memtable;
use sorted_file::{KeyFilter, LockIndex, LookupKey, SortedFile, few_blocks};
use std::alloc::{AllocError, Global};
use std::num::NonZeroUsize;
use std::test::Fail;

/// A file of no entries.
pub const EMPTY: &[u8] = b"TABLET01\0\0\0\x08\0\0\0\0\0\0\0\0\0\0\0\x20TABLETZZ";

/// A file of one entry, the key (`a`, `bal`, data, 1) with the value `10`.
pub const ONE: &[u8] = b"TABLET01\
    \0\0\0\x16a\0\0bal\0\0data\0\0\xFF\xFF\xFF\xFF\xFF\xFF\xFF\xFE\x01\0\0\0\x0210\
    \0\0\0\x08\0\0\0\x21\0\0\0\x16a\0\0bal\0\0data\0\0\xFF\xFF\xFF\xFF\xFF\xFF\xFF\xFE\
    \0\0\0\x29\0\0\0\x01\0\0\0\x01\0\0\0\x63TABLETZZ";

/// A file of two entries, at the stamps 2 and 1.
pub const TWO: &[u8] = b"TABLET01\
    \0\0\0\x16a\0\0bal\0\0data\0\0\xFF\xFF\xFF\xFF\xFF\xFF\xFF\xFD\x01\0\0\0\x0210\
    \0\0\0\x16a\0\0bal\0\0data\0\0\xFF\xFF\xFF\xFF\xFF\xFF\xFF\xFE\x01\0\0\0\x0210\
    \0\0\0\x08\0\0\0\x42\0\0\0\x16a\0\0bal\0\0data\0\0\xFF\xFF\xFF\xFF\xFF\xFF\xFF\xFD\
    \0\0\0\x4A\0\0\0\x01\0\0\0\x02\0\0\0\x84TABLETZZ";

/// The same in format 2, the format that is written: a file of no entries.
pub const EMPTY_NEW: &[u8] = b"TABLET02\
    \0\0\0\0\0\0\0\x08\0\0\0\0\0\0\0\0\
    \0\0\0\0\0\0\0\0\0\0\0\0\0\0\0\x30TABLETZZ";

/// The one entry in format 2.
pub const ONE_NEW: &[u8] = b"TABLET02\
    \0\0\0\x16a\0\0bal\0\0data\0\0\xFF\xFF\xFF\xFF\xFF\xFF\xFF\xFE\x01\0\0\0\x0210\
    \0\0\0\0\0\0\0\x08\0\0\0\0\0\0\0\x21\0\0\0\x16a\0\0bal\0\0data\0\0\xFF\xFF\xFF\xFF\xFF\xFF\xFF\xFE\
    \0\0\0\0\0\0\0\x29\0\0\0\0\0\0\0\x01\
    \0\0\0\0\0\0\0\x01\0\0\0\0\0\0\0\x7BTABLETZZ";

/// The two entries in format 2.
pub const TWO_NEW: &[u8] = b"TABLET02\
    \0\0\0\x16a\0\0bal\0\0data\0\0\xFF\xFF\xFF\xFF\xFF\xFF\xFF\xFD\x01\0\0\0\x0210\
    \0\0\0\x16a\0\0bal\0\0data\0\0\xFF\xFF\xFF\xFF\xFF\xFF\xFF\xFE\x01\0\0\0\x0210\
    \0\0\0\0\0\0\0\x08\0\0\0\0\0\0\0\x42\0\0\0\x16a\0\0bal\0\0data\0\0\xFF\xFF\xFF\xFF\xFF\xFF\xFF\xFD\
    \0\0\0\0\0\0\0\x4A\0\0\0\0\0\0\0\x01\
    \0\0\0\0\0\0\0\x02\0\0\0\0\0\0\0\x9CTABLETZZ";

/// The two entries in format 1, in two blocks although one would do.
const SPLIT_EARLY: &[u8] = b"TABLET01\
    \0\0\0\x16a\0\0bal\0\0data\0\0\xFF\xFF\xFF\xFF\xFF\xFF\xFF\xFD\x01\0\0\0\x0210\
    \0\0\0\x16a\0\0bal\0\0data\0\0\xFF\xFF\xFF\xFF\xFF\xFF\xFF\xFE\x01\0\0\0\x0210\
    \0\0\0\x08\0\0\0\x21\0\0\0\x16a\0\0bal\0\0data\0\0\xFF\xFF\xFF\xFF\xFF\xFF\xFF\xFD\
    \0\0\0\x29\0\0\0\x21\0\0\0\x16a\0\0bal\0\0data\0\0\xFF\xFF\xFF\xFF\xFF\xFF\xFF\xFE\
    \0\0\0\x4A\0\0\0\x02\0\0\0\x02\0\0\0\xA6TABLETZZ";

/// The same in format 2.
const SPLIT_EARLY_NEW: &[u8] = b"TABLET02\
    \0\0\0\x16a\0\0bal\0\0data\0\0\xFF\xFF\xFF\xFF\xFF\xFF\xFF\xFD\x01\0\0\0\x0210\
    \0\0\0\x16a\0\0bal\0\0data\0\0\xFF\xFF\xFF\xFF\xFF\xFF\xFF\xFE\x01\0\0\0\x0210\
    \0\0\0\0\0\0\0\x08\0\0\0\0\0\0\0\x21\0\0\0\x16a\0\0bal\0\0data\0\0\xFF\xFF\xFF\xFF\xFF\xFF\xFF\xFD\
    \0\0\0\0\0\0\0\x29\0\0\0\0\0\0\0\x21\0\0\0\x16a\0\0bal\0\0data\0\0\xFF\xFF\xFF\xFF\xFF\xFF\xFF\xFE\
    \0\0\0\0\0\0\0\x4A\0\0\0\0\0\0\0\x02\
    \0\0\0\0\0\0\0\x02\0\0\0\0\0\0\0\xC6TABLETZZ";

/// The one entry with the head of format 2 and the index and foot of format 1, and vice versa.
const ONE_MIXED: [&[u8]; 2] = [
    b"TABLET02\
    \0\0\0\x16a\0\0bal\0\0data\0\0\xFF\xFF\xFF\xFF\xFF\xFF\xFF\xFE\x01\0\0\0\x0210\
    \0\0\0\x08\0\0\0\x21\0\0\0\x16a\0\0bal\0\0data\0\0\xFF\xFF\xFF\xFF\xFF\xFF\xFF\xFE\
    \0\0\0\x29\0\0\0\x01\0\0\0\x01\0\0\0\x63TABLETZZ",
    b"TABLET01\
    \0\0\0\x16a\0\0bal\0\0data\0\0\xFF\xFF\xFF\xFF\xFF\xFF\xFF\xFE\x01\0\0\0\x0210\
    \0\0\0\0\0\0\0\x08\0\0\0\0\0\0\0\x21\0\0\0\x16a\0\0bal\0\0data\0\0\xFF\xFF\xFF\xFF\xFF\xFF\xFF\xFE\
    \0\0\0\0\0\0\0\x29\0\0\0\0\0\0\0\x01\
    \0\0\0\0\0\0\0\x01\0\0\0\0\0\0\0\x7BTABLETZZ",
];

/// Opens a file of these bytes under the name 1.
fn opened(alloc: Global, files: &mut MemFiles, bytes: &[u8]) -> Result<SortedFile, Refusal> {
    refused(files.put(1, bytes))?;
    SortedFile::open(alloc, 1, files)
}

/// A file, and the files that it is read from, which record their reads.
#[derive(Drop)]
struct Recorded {
    files: Recorder,
    file: SortedFile,
}

/// Opens a file of these bytes under the name 1. In its box it is dropped by one call.
fn recorded_file(alloc: Global, bytes: &[u8]) -> Result<Box<Recorded>, Refusal> {
    let mut files = Recorder::new(alloc);
    refused(files.put(1, bytes))?;
    let file = SortedFile::open(alloc, 1, &mut files)?;
    Ok(Box::new(alloc, Recorded { files, file })?)
}

/// Whether the file with a name has these bytes.
fn has_bytes(
    alloc: Global,
    files: &mut MemFiles,
    name: u64,
    bytes: &[u8],
) -> Result<bool, Refusal> {
    match refused(read_whole(alloc, files, name))? {
        Some(written) => Ok(written.as_slice() == bytes),
        None => Ok(false),
    }
}

/// Opens a file of these bytes, and writes it again; answers the name of the file written.
fn written_again(alloc: Global, files: &mut MemFiles, bytes: &[u8]) -> Result<u64, Refusal> {
    let file = opened(alloc, files, bytes)?;
    write_again(alloc, &file, files)
}

/// Whether a file of these bytes can be opened, and is written again as these other bytes.
fn is_written_as(alloc: Global, bytes: &[u8], again: &[u8]) -> Result<bool, Refusal> {
    let mut files = MemFiles::new(alloc);
    let name = written_again(alloc, &mut files, bytes)?;
    has_bytes(alloc, &mut files, name, again)
}

/// Whether a file of these bytes is refused as damaged.
pub fn is_damaged(alloc: Global, bytes: &[u8]) -> bool {
    let mut files = MemFiles::new(alloc);
    matches!(opened(alloc, &mut files, bytes), Err(Refusal::Damaged))
}

/// The bytes before each value of 2,017 bytes in a file of three entries, at the stamps 3, 2 and 1.
const BEFORE_VALUES: [&[u8]; 3] = [
    b"TABLET01\0\0\0\x16a\0\0bal\0\0data\0\0\xFF\xFF\xFF\xFF\xFF\xFF\xFF\xFC\x01\0\0\x07\xE1",
    b"\0\0\0\x16a\0\0bal\0\0data\0\0\xFF\xFF\xFF\xFF\xFF\xFF\xFF\xFD\x01\0\0\x07\xE1",
    b"\0\0\0\x16a\0\0bal\0\0data\0\0\xFF\xFF\xFF\xFF\xFF\xFF\xFF\xFE\x01\0\0\x07\xE1",
];

/// The bytes after the entries: the index of two blocks, and the foot.
const AFTER_VALUES: &[u8] = b"\
    \0\0\0\x08\0\0\x10\0\0\0\0\x16a\0\0bal\0\0data\0\0\xFF\xFF\xFF\xFF\xFF\xFF\xFF\xFC\
    \0\0\x10\x08\0\0\x08\0\0\0\0\x16a\0\0bal\0\0data\0\0\xFF\xFF\xFF\xFF\xFF\xFF\xFF\xFE\
    \0\0\x18\x08\0\0\0\x02\0\0\0\x03\0\0\x18\x64TABLETZZ";

/// The bytes after the entries in format 2.
const AFTER_VALUES_NEW: &[u8] = b"\
    \0\0\0\0\0\0\0\x08\0\0\0\0\0\0\x10\0\0\0\0\x16a\0\0bal\0\0data\0\0\xFF\xFF\xFF\xFF\xFF\xFF\xFF\xFC\
    \0\0\0\0\0\0\x10\x08\0\0\0\0\0\0\x08\0\0\0\0\x16a\0\0bal\0\0data\0\0\xFF\xFF\xFF\xFF\xFF\xFF\xFF\xFE\
    \0\0\0\0\0\0\x18\x08\0\0\0\0\0\0\0\x02\
    \0\0\0\0\0\0\0\x03\0\0\0\0\0\0\x18\x84TABLETZZ";

/// The file of three entries in format 2.
fn three_new(alloc: Global) -> Result<Vec<u8>, AllocError> {
    let mut bytes = three(alloc)?;
    bytes.truncate(6152);
    put_at(&mut bytes, 7, b'2');
    bytes.extend_from_slice(AFTER_VALUES_NEW)?;
    Ok(bytes)
}

/// A file of three entries at the stamps 3, 2 and 1, with values of 2,017 bytes: two blocks.
fn three(alloc: Global) -> Result<Vec<u8>, AllocError> {
    let value = vec![in alloc; b'v'; 2017]?;
    let mut bytes = Vec::new(alloc);
    for before in BEFORE_VALUES {
        bytes.extend_from_slice(before)?;
        bytes.extend_from_slice(&value)?;
    }
    bytes.extend_from_slice(AFTER_VALUES)?;
    Ok(bytes)
}

/// Files of either format can be read, and are written in format 2.
#[test]
fn files_of_literal_bytes(rt: HostRuntime) -> Result<(), Fail> {
    let three = three(rt.alloc())?;
    let three_new = three_new(rt.alloc())?;
    let pairs = [
        (EMPTY, 32, EMPTY_NEW, 48),
        (ONE, 99, ONE_NEW, 123),
        (TWO, 132, TWO_NEW, 156),
        (&three, 6244, &three_new, 6276),
    ];
    for (old, old_len, new, new_len) in pairs {
        assert!(rt; old.len() == old_len && new.len() == new_len);
        assert!(rt; is_written_as(rt.alloc(), old, new)?);
        assert!(rt; is_written_as(rt.alloc(), new, new)?);
    }
    Ok(())
}

/// Sets a byte at an offset.
pub fn put_at(bytes: &mut [u8], at: usize, byte: u8) {
    if let Some(place) = bytes.get_mut(at) {
        *place = byte;
    }
}

/// Whether the file of one entry is damaged with this byte at an offset.
fn is_damaged_by(alloc: Global, at: usize, byte: u8) -> Result<bool, AllocError> {
    let mut bytes = Vec::from_slice(alloc, ONE)?;
    put_at(&mut bytes, at, byte);
    Ok(is_damaged(alloc, &bytes))
}

/// Offsets in the file of one entry, the bytes set there, and whether the file is then damaged.
const CHANGES: [(usize, u8, bool); 4] = [
    (34, 2, true),
    (34, 0, true),
    (7, 0x32, true),
    (39, 0x32, false),
];

#[test]
fn damaged_files(rt: HostRuntime) -> Result<(), Fail> {
    assert!(rt; SPLIT_EARLY.len() == 166 && SPLIT_EARLY_NEW.len() == 198);
    for bytes in [SPLIT_EARLY, SPLIT_EARLY_NEW, ONE_MIXED[0], ONE_MIXED[1]] {
        assert!(rt; is_damaged(rt.alloc(), bytes));
    }
    for len in 0..99 {
        assert!(rt; is_damaged(rt.alloc(), &ONE[..len]));
    }
    for len in 0..123 {
        assert!(rt; is_damaged(rt.alloc(), &ONE_NEW[..len]));
    }
    for (at, byte, damaged) in CHANGES {
        assert!(rt; is_damaged_by(rt.alloc(), at, byte)? == damaged);
    }
    Ok(())
}

/// The read of a file: its name, the offset, and the number of bytes.
type Read = (u64, u64, usize);

/// A step in an open file.
#[derive(Clone, Copy)]
enum Step {
    /// The cache is emptied, or gets this number of blocks.
    Forget,
    Resize(usize),
    /// The file is written anew: the file of three entries, with this byte at an offset.
    Change(usize, u8),
    /// The data of `a` at a stamp: the reads, and the length of its value.
    Data(Stamp, &'static [Read], Option<usize>),
    /// It is refused as damaged.
    Damaged(Stamp),
    /// The newest lock of a row up to 9: the reads, and its stamp.
    Lock(&'static [u8], &'static [Read], Option<Stamp>),
    /// The data of `a` at several stamps has 4,000 bytes each, and each of them is read, or none is.
    Each(&'static [Stamp], bool),
}

/// A look-up reads one block, or none if that block was read before.
const ONE_BLOCK: [Step; 11] = [
    Step::Forget,
    Step::Data(3, &[(1, 8, 4096)], Some(2017)),
    Step::Forget,
    Step::Data(2, &[(1, 8, 4096)], Some(2017)),
    Step::Forget,
    Step::Data(1, &[(1, 4104, 2048)], Some(2017)),
    Step::Data(4, &[], None),
    Step::Forget,
    Step::Data(3, &[(1, 8, 4096)], Some(2017)),
    Step::Data(3, &[], Some(2017)),
    Step::Data(2, &[], Some(2017)),
];

/// The eight blocks used last are cached.
const EIGHT: [Step; 4] = [
    Step::Each(&[1, 2, 3, 4, 5, 6, 7, 8], true),
    Step::Each(&[1, 2, 3, 4, 5, 6, 7, 8], false),
    Step::Each(&[9, 1, 2], true),
    Step::Each(&[4, 5, 6, 7, 8, 9, 1, 2], false),
];

/// As many are cached as the cache has room for.
const RESIZED: [Step; 8] = [
    Step::Each(&[1, 2, 4, 5, 6, 7, 8, 9], true),
    Step::Resize(9),
    Step::Each(&[3], true),
    Step::Each(&[1, 2, 3, 4, 5, 6, 7, 8, 9], false),
    Step::Resize(1),
    Step::Each(&[9], false),
    Step::Resize(1),
    Step::Each(&[8, 7], true),
];

/// Locks. A row that has only an erasure of a lock here is read too; in a tablet the index of the files' locks prevents
/// that.
const LOCKED: [Step; 8] = [
    Step::Forget,
    Step::Lock(b"a", &[(1, 8, 93)], Some(1)),
    Step::Forget,
    Step::Lock(b"b", &[(1, 8, 93)], None),
    Step::Forget,
    Step::Lock(b"bb", &[], None),
    Step::Forget,
    Step::Lock(b"c", &[(1, 8, 93)], Some(1)),
];

/// A cached block is still used when its bytes have changed, in the length of the second key or in the row of the first
/// one, and is refused once it is read again.
const GARBLED: [Step; 11] = [
    Step::Data(3, &[(1, 8, 4096)], Some(2017)),
    Step::Change(2059, 0x17),
    Step::Data(3, &[], Some(2017)),
    Step::Forget,
    Step::Damaged(3),
    Step::Change(2059, 0x16),
    Step::Data(3, &[(1, 8, 4096)], Some(2017)),
    Step::Change(12, b'`'),
    Step::Data(3, &[], Some(2017)),
    Step::Forget,
    Step::Damaged(3),
];

/// A block whose bytes have changed is refused, however often it is read.
const GARBLED_BEFORE: [Step; 6] = [
    Step::Change(2059, 0x17),
    Step::Damaged(3),
    Step::Damaged(3),
    Step::Change(12, b'`'),
    Step::Damaged(3),
    Step::Damaged(3),
];

/// A file of known bytes.
#[derive(Clone, Copy)]
enum Known {
    Three,
    Nine,
    Locks,
}

/// The files, and the steps in each.
const OPENED: [(Known, &[Step]); 6] = [
    (Known::Three, &ONE_BLOCK),
    (Known::Nine, &EIGHT),
    (Known::Nine, &RESIZED),
    (Known::Locks, &LOCKED),
    (Known::Three, &GARBLED),
    (Known::Three, &GARBLED_BEFORE),
];

/// A file of `a` at the stamps 1 to 9, with values of 4,000 bytes: a block each.
fn nine(alloc: Global) -> Result<Vec<u8>, Refusal> {
    let value = vec![in alloc; b'v'; 4000]?;
    let mut table = Memtable::new(alloc);
    for stamp in 1..10 {
        write(alloc, &mut table, b"a", stamp, Some(&value), None)?;
    }
    let mut files = MemFiles::new(alloc);
    merge(alloc, &table, None, true, 1, &mut files)?;
    refused(read_whole(alloc, &mut files, 1))?.ok_or(Refusal::Device)
}

/// A file of locks of `a` and `c`, and of an erasure of the lock of `b`, at the stamp 1.
const LOCKS: &[u8] = b"TABLET01\
    \0\0\0\x16a\0\0bal\0\0lock\0\0\xFF\xFF\xFF\xFF\xFF\xFF\xFF\xFE\x01\0\0\0\x0210\
    \0\0\0\x16b\0\0bal\0\0lock\0\0\xFF\xFF\xFF\xFF\xFF\xFF\xFF\xFE\0\
    \0\0\0\x16c\0\0bal\0\0lock\0\0\xFF\xFF\xFF\xFF\xFF\xFF\xFF\xFE\x01\0\0\0\x0210\
    \0\0\0\x08\0\0\0\x5D\0\0\0\x16a\0\0bal\0\0lock\0\0\xFF\xFF\xFF\xFF\xFF\xFF\xFF\xFE\
    \0\0\0\x65\0\0\0\x01\0\0\0\x03\0\0\0\x9FTABLETZZ";

/// The bytes of a file.
fn bytes_of(alloc: Global, known: Known) -> Result<Vec<u8>, Refusal> {
    match known {
        Known::Three => Ok(three(alloc)?),
        Known::Nine => nine(alloc),
        Known::Locks => Ok(Vec::from_slice(alloc, LOCKS)?),
    }
}

/// The key of a row's cell of the family `bal` at a stamp.
fn key_of(
    alloc: Global,
    row: &[u8],
    qualifier: Qualifier,
    stamp: Stamp,
) -> Result<LookupKey, Refusal> {
    let key = CellKey {
        row: Row::new(alloc, row)?,
        family: Family::new(alloc, b"bal")?,
        qualifier,
        stamp,
    };
    Ok(LookupKey::new(alloc, key)?)
}

impl Recorded {
    /// The stamp of the newest value of a row's cell at stamps from the first to the second, and its length.
    fn newest(
        &mut self,
        alloc: Global,
        row: &[u8],
        qualifier: Qualifier,
        stamps: (Stamp, Stamp),
    ) -> Result<Option<(Stamp, usize)>, Refusal> {
        self.files.reads.clear();
        let key = key_of(alloc, row, qualifier, stamps.1)?;
        match self.file.newest(&key, stamps.0, &mut self.files)? {
            Some((stamp, Some(value))) => Ok(Some((stamp, value.len()))),
            _ => Ok(None),
        }
    }

    /// The length of the value of `a` at a stamp.
    fn value_len(&mut self, alloc: Global, stamp: Stamp) -> Result<Option<usize>, Refusal> {
        let found = self.newest(alloc, b"a", Qualifier::Data, (stamp, stamp))?;
        Ok(found.map(|(_, length)| length))
    }

    /// Whether values at these stamps have 4,000 bytes, and all of them are read, or none is.
    fn are_read(
        &mut self,
        alloc: Global,
        stamps: &[Stamp],
        is_read: bool,
    ) -> Result<bool, Refusal> {
        for stamp in stamps {
            let length = self.value_len(alloc, *stamp)?;
            if length != Some(4000) || self.files.reads.is_empty() == is_read {
                return Ok(false);
            }
        }
        Ok(true)
    }

    /// Writes the file of three entries, with this byte at an offset.
    fn change(&mut self, alloc: Global, at: usize, byte: u8) -> Result<(), Refusal> {
        let mut bytes = three(alloc)?;
        put_at(&mut bytes, at, byte);
        refused(self.files.put(1, &bytes))
    }

    /// Whether a step goes as it should.
    fn goes(&mut self, alloc: Global, step: Step) -> Result<bool, Refusal> {
        match step {
            Step::Forget => self.file.drop_cache(),
            Step::Resize(most) => match NonZeroUsize::new(most) {
                Some(most) => self.file.resize_cache(most),
                None => return Ok(false),
            },
            Step::Change(at, byte) => self.change(alloc, at, byte)?,
            Step::Data(stamp, reads, length) => {
                let found = self.value_len(alloc, stamp)?;
                return Ok(found == length && self.files.reads.as_slice() == reads);
            }
            Step::Damaged(stamp) => {
                return Ok(self.value_len(alloc, stamp) == Err(Refusal::Damaged));
            }
            Step::Lock(row, reads, stamp) => {
                let found = self.newest(alloc, row, Qualifier::Lock, (0, 9))?;
                let is_found = found.map(|(found, _)| found) == stamp;
                return Ok(is_found && self.files.reads.as_slice() == reads);
            }
            Step::Each(stamps, is_read) => return self.are_read(alloc, stamps, is_read),
        }
        Ok(true)
    }
}

/// The first step in a file that doesn't go as it should.
fn first_wrong(alloc: Global, known: Known, steps: &[Step]) -> Result<Option<usize>, Refusal> {
    let mut recorded = recorded_file(alloc, &bytes_of(alloc, known)?)?;
    for (at, step) in steps.iter().enumerate() {
        if !recorded.goes(alloc, *step)? {
            return Ok(Some(at));
        }
    }
    Ok(None)
}

#[test]
fn blocks_that_are_read(rt: HostRuntime) -> Result<(), Fail> {
    for (file, (known, steps)) in OPENED.iter().enumerate() {
        let wrong = first_wrong(rt.alloc(), *known, *steps)?;
        assert!(rt; wrong.is_none(), "{file} {wrong:?}");
    }
    Ok(())
}

/// The file of the locks, as a list.
fn files_of_locks(alloc: Global) -> Result<Vec<SortedFile>, Refusal> {
    let mut files = MemFiles::new(alloc);
    let file = opened(alloc, &mut files, LOCKS)?;
    Ok(vec![in alloc; file]?)
}

/// Whether the filter of the file of the locks admits locks at stamps from `from` up to 9.
fn may_have_locks(alloc: Global, from: Stamp) -> Result<bool, Refusal> {
    let files = files_of_locks(alloc)?;
    let filter = KeyFilter::new(alloc, &files, 0)?;
    Ok(filter.may_have(Qualifier::Lock, from, 9))
}

/// The index of the file of the locks.
fn index_of_locks(alloc: Global) -> Result<LockIndex, Refusal> {
    LockIndex::of(alloc, &files_of_locks(alloc)?)
}

/// A file of an erasure of the lock of `a`, at the stamp 1.
const ERASED: &[u8] = b"TABLET01\
    \0\0\0\x16a\0\0bal\0\0lock\0\0\xFF\xFF\xFF\xFF\xFF\xFF\xFF\xFE\0\
    \0\0\0\x08\0\0\0\x1B\0\0\0\x16a\0\0bal\0\0lock\0\0\xFF\xFF\xFF\xFF\xFF\xFF\xFF\xFE\
    \0\0\0\x23\0\0\0\x01\0\0\0\x01\0\0\0\x5DTABLETZZ";

/// The file of the erasure, opened over an index.
fn erased_over(alloc: Global, index: &LockIndex) -> Result<SortedFile, Refusal> {
    let mut files = Recorder::new(alloc);
    refused(files.put(2, ERASED))?;
    SortedFile::open_over(alloc, 2, few_blocks(), index, &mut files)
}

/// The index of the locks of both files, the newer one being the file of the erasure.
fn index_of_both(alloc: Global) -> Result<LockIndex, Refusal> {
    let index = index_of_locks(alloc)?;
    let newer = erased_over(alloc, &index)?;
    index.over(&newer)
}

/// The stamp of a row's newest lock up to 9 in an index, which must have none up to 0.
fn latest(alloc: Global, index: &LockIndex, row: &[u8]) -> Result<Option<Stamp>, Refusal> {
    let mut key = key_of(alloc, row, Qualifier::Lock, 9)?;
    let latest = index.latest(&key, 0);
    key.set_stamp(0);
    match index.latest(&key, 0) {
        None => Ok(latest),
        Some(_) => Err(Refusal::Damaged),
    }
}

/// Whether an index has this newest lock of a row up to 9, and says whether the row may have locks.
fn is_indexed(
    alloc: Global,
    index: &LockIndex,
    row: &[u8],
    stamp: Option<Stamp>,
) -> Result<bool, Refusal> {
    let may_have = index.may_have_row(&Row::new(alloc, row)?);
    Ok(may_have == stamp.is_some() && latest(alloc, index, row)? == stamp)
}

/// Rows, the stamp of the newest lock of each in the index of the file of the locks, and in that of both files.
const INDEXED: [(&[u8], Option<Stamp>, Option<Stamp>); 4] = [
    (b"a", Some(1), None),
    (b"b", None, None),
    (b"bb", None, None),
    (b"c", Some(1), Some(1)),
];

/// Erased locks leave the index.
#[test]
fn locks_of_indexes(rt: HostRuntime) -> Result<(), Fail> {
    assert!(rt; may_have_locks(rt.alloc(), 0)? && !may_have_locks(rt.alloc(), 2)?);
    let index = index_of_locks(rt.alloc())?;
    let both = index_of_both(rt.alloc())?;
    for (row, stamp, later) in INDEXED {
        assert!(rt; is_indexed(rt.alloc(), &index, row, stamp)?);
        assert!(rt; latest(rt.alloc(), &both, row)? == later);
    }
    Ok(())
}
