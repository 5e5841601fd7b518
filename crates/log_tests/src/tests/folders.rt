//! Logs in a real folder.

use super::{LOG, PUT, TWO};
use commit_log::{Log, LogFault, RecordKind, make_log, open_log, read_opened};
use std::alloc::{AllocError, Global};
use std::io::{ErrorKind, Read};
use std::test::Fail;
use std::{fs, io, process};
use testing::folders::new_folder;

/// The file of a folder's log, and that of the bytes that were cut.
const FILE: &str = "commit.log";

const CUT: &str = "commit.cut";

/// The name of the file that is room for another file.
const ROOM: &str = "room.new";

/// The bytes of a file of a folder.
fn bytes_of(rt: &HostRuntime, folder: &str, name: &str) -> io::Result<Vec<u8>> {
    let path = format!(in rt.alloc(); "{folder}/{name}")?;
    fs::read(rt, path.as_str())
}

/// Puts a file of these bytes into a folder; removes it if there are none.
fn put_file(rt: &HostRuntime, folder: &str, name: &str, bytes: &[u8]) -> io::Result<()> {
    let path = format!(in rt.alloc(); "{folder}/{name}")?;
    let _ = fs::remove_file(rt, path.as_str());
    if !bytes.is_empty() {
        fs::write(rt, path.as_str(), bytes)?;
    }
    Ok(())
}

/// How many records the log of a folder has beside this mark, and how many bytes were cut. No records if it is damaged.
fn opened_by(rt: &HostRuntime, folder: &str, mark: u64) -> Result<(usize, usize), LogFault> {
    match open_log(rt, folder, mark) {
        Ok(Some(mut found)) => Ok((found.log.records()?.len(), found.cut)),
        Ok(None) => Err(LogFault::Device),
        Err(LogFault::Damaged) => Ok((0, 0)),
        Err(fault) => Err(fault),
    }
}

/// The same beside the mark 0.
fn opened(rt: &HostRuntime, folder: &str) -> Result<(usize, usize), LogFault> {
    opened_by(rt, folder, 0)
}

/// The sign of the store of `LOG`.
const SIGN: [u8; 20] = *b"TABSTORE\x01\x02\x03\x04\x05\x06\x07\x08\x9E\x85\xCC\x0B";

/// `PUT`, and a byte behind its frame.
const TORN_PUT: [u8; 49] = *b"TABLOG01\
\x00\x00\x00\x20\x09\xF1\x71\xFE\
\0\0\0\x16a\0\0bal\0\0data\0\0\xFF\xFF\xFF\xFF\xFF\xFF\xFF\xFC\x01\0\0\0\x01vb";

/// Logs, signs and marks, with the numbers of records read and of bytes cut; no records if they are damaged.
const FOUND: [(&[u8], &[u8], u64, (usize, usize)); 10] = [
    (&LOG, &SIGN, 0, (3, 0)),
    (&LOG, b"", 0, (3, 0)),
    (&LOG, b"TABSTORE", 0, (0, 0)),
    (
        &LOG,
        b"TABSTORE\x01\x02\x03\x04\x05\x06\x07\x09\x9E\x85\xCC\x0B",
        0,
        (0, 0),
    ),
    (b"TABLOG02", &SIGN, 0, (0, 0)),
    (&PUT, b"", 3, (2, 0)),
    (&TORN_PUT, b"", 4, (2, 1)),
    (&PUT, b"", 2, (0, 0)),
    (&TWO, b"", 9, (0, 0)),
    (&PUT, &SIGN, 3, (0, 0)),
];

/// Whether these logs are found in a folder as they are.
fn are_found(rt: &HostRuntime, folder: &str) -> Result<bool, Fail> {
    for (log, sign, mark, wanted) in FOUND {
        put_file(rt, folder, FILE, log)?;
        put_file(rt, folder, "commit.id", sign)?;
        if opened_by(rt, folder, mark)? != wanted {
            return Ok(false);
        }
    }
    Ok(true)
}

/// Writes a root's record and one of edits into a new log, and room behind them. The log is renewed twice, with room for
/// it and without. Meanwhile there is room for another file, and then it is given back.
fn fill_log<L: Log>(log: &mut L) -> Result<(), LogFault> {
    log.append(RecordKind::Edits, 7, b"a")?;
    log.renew(RecordKind::Root, 8, b"\x01\x02\x03\x05")?;
    log.reserve_renewal()?;
    log.reserve_beside(5_000)?;
    log.renew(RecordKind::Root, 9, b"\x01\x02\x03\x04")?;
    log.release_beside();
    log.reserve(100)?;
    log.append(RecordKind::Edits, 9, b"b\0\0")
}

/// Makes such a log in a folder.
fn fill(rt: &HostRuntime, folder: &str) -> Result<(), LogFault> {
    make_log(rt, folder)?;
    match open_log(rt, folder, 0)? {
        Some(mut found) => fill_log(&mut found.log),
        None => Err(LogFault::Damaged),
    }
}

/// Whether a log that is made in a folder has its records, and no bytes were cut.
fn is_made(rt: &HostRuntime, folder: &str) -> Result<bool, Fail> {
    fill(rt, folder)?;
    // The root's record ends at 45, the edits' one at 73, and a piece of room was written behind the first
    let len = bytes_of(rt, folder, FILE)?.len();
    let found = opened(rt, folder)?;
    Ok(len == 45 + 131_072 && found == (2, 0) && bytes_of(rt, folder, CUT).is_err())
}

/// Whether a folder's log makes room for another file, which a kill leaves and the next opening removes.
fn has_room(rt: &HostRuntime, folder: &str) -> Result<bool, Fail> {
    let Some(mut found) = open_log(rt, folder, 0)? else {
        return Ok(false);
    };
    let was_there = bytes_of(rt, folder, ROOM).is_ok();
    found.log.reserve_beside(5_000)?;
    let len = bytes_of(rt, folder, ROOM)?.len();
    let records = opened(rt, folder)?;
    Ok(!was_there && len == 5_000 && records == (2, 0) && bytes_of(rt, folder, ROOM).is_err())
}

/// The first 70 bytes of a log, and zeros up to 200.
fn torn(alloc: Global, log: &[u8]) -> Result<Vec<u8>, AllocError> {
    let mut torn = Vec::from_slice(alloc, log.get(..70).unwrap_or_default())?;
    torn.resize(200, 0)?;
    Ok(torn)
}

/// Whether a torn log has its first record, and its other bytes are kept apart.
fn is_cut(rt: &HostRuntime, folder: &str) -> Result<bool, Fail> {
    let made = bytes_of(rt, folder, FILE)?;
    put_file(rt, folder, FILE, &torn(rt.alloc(), &made)?)?;
    let found = opened(rt, folder)?;
    let cut = bytes_of(rt, folder, CUT)?;
    Ok(found == (1, 25) && made.get(45..70) == Some(cut.as_slice()))
}

/// Whether a log without its file is damaged.
fn is_lost(rt: &HostRuntime, folder: &str) -> Result<bool, Fail> {
    put_file(rt, folder, FILE, b"")?;
    Ok(opened(rt, folder)? == (0, 0))
}

/// A file whose first read gives a byte, and whose second one fails.
#[derive(Drop)]
struct Failing {
    is_read: bool,
}

impl Read for Failing {
    fn read(&mut self, buf: &mut [u8]) -> io::Result<usize> {
        let Some(first) = buf.first_mut() else {
            return Ok(0);
        };
        if self.is_read {
            return Err(io::Error::from(ErrorKind::Other));
        }
        self.is_read = true;
        *first = b'T';
        Ok(1)
    }
}

#[test]
fn a_failed_read_is_passed_on(rt: HostRuntime) -> Result<(), Fail> {
    let read = read_opened(rt.alloc(), Ok(Failing { is_read: false }));
    assert!(rt; matches!(&read, Err(error) if error.kind() == ErrorKind::Other));
    Ok(())
}

#[test]
fn logs_in_a_folder(rt: HostRuntime) -> Result<(), Fail> {
    let folder = new_folder(&rt, process::id(rt.process()), "log")?;
    let path = folder.as_str();
    assert!(rt; open_log(&rt, path, 0)?.is_none());
    assert!(rt; is_made(&rt, path)? && has_room(&rt, path)? && is_cut(&rt, path)?);
    assert!(rt; is_lost(&rt, path)? && are_found(&rt, path)?);
    fs::remove_dir_all(&rt, path)?;
    Ok(())
}
