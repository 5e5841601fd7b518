//! The bytes of logs: checksums, both formats, torn and damaged logs.

use super::files::opened;
use super::{FIRST, LOG, PUT, STORE, TWO, are_first};
use commit_log::{Log, LogFault, crc32, frame_of, read_log, upgrade_log};
use std::alloc::Global;
use std::test::Fail;

/// `PUT` in format 2.
const UPGRADED: [u8; 98] = *b"TABLOG02\x01\x02\x03\x04\x05\x06\x07\x08\
\x00\x00\x00\x11\x8C\xCB\x45\xF7\x11\x12\x13\x14\x15\x16\x17\x18\x02\0\0\0\0\0\0\0\0\
\x00\x00\x00\x31\x9F\x61\xB5\xFE\x11\x12\x13\x14\x15\x16\x17\x19\x00\0\0\0\0\0\0\0\0\
\0\0\0\x16a\0\0bal\0\0data\0\0\xFF\xFF\xFF\xFF\xFF\xFF\xFF\xFC\x01\0\0\0\x01v";

#[test]
fn the_check_value_of_the_checksum(rt: HostRuntime) -> Result<(), Fail> {
    assert!(rt; crc32(b"", b"") == 0);
    assert!(rt; crc32(b"123456789", b"") == 0xCBF4_3926);
    assert!(rt; crc32(b"1234", b"56789") == 0xCBF4_3926);
    Ok(())
}

/// The header of format 1, and the frames of `a` and `ab`.
fn framed(alloc: Global) -> Result<Vec<u8>, LogFault> {
    let mut bytes = Vec::from_slice(alloc, b"TABLOG01")?;
    bytes.extend_from_slice(&frame_of(alloc, b"a")?)?;
    bytes.extend_from_slice(&frame_of(alloc, b"ab")?)?;
    Ok(bytes)
}

#[test]
fn a_log_of_format_1(rt: HostRuntime) -> Result<(), Fail> {
    assert!(rt; framed(rt.alloc())?.as_slice() == TWO.as_slice());
    Ok(())
}

/// Where the whole frames of a log of format 1 end.
fn end_of(alloc: Global, bytes: &[u8]) -> Result<usize, LogFault> {
    Ok(read_log(alloc, bytes)?.end)
}

/// The same of the first `len` bytes of `TWO`, by the offsets where its header and its frames end.
fn torn_end(len: usize) -> Result<usize, LogFault> {
    match len {
        0..=7 => Err(LogFault::Damaged),
        8..=16 => Ok(8),
        17..=26 => Ok(17),
        _ => Ok(27),
    }
}

#[test]
fn torn_logs_of_format_1(rt: HostRuntime) -> Result<(), Fail> {
    for len in 0..=TWO.len() {
        assert!(rt;
            end_of(rt.alloc(), &TWO[..len]) == torn_end(len),
            "at {len}"
        );
    }
    Ok(())
}

/// Whether a log is damaged if it is to be upgraded beside this mark: an edit has a stamp above the mark, a record is no
/// edits, or it isn't a log of format 1.
fn is_refused(alloc: Global, bytes: &[u8], mark: u64) -> bool {
    let upgraded = upgrade_log(alloc, bytes, mark, STORE, FIRST);
    matches!(&upgraded, Err(LogFault::Damaged))
}

#[test]
fn an_upgraded_log(rt: HostRuntime) -> Result<(), Fail> {
    let upgraded = upgrade_log(rt.alloc(), &PUT, 3, STORE, FIRST)?;
    assert!(rt; upgraded.as_slice() == UPGRADED.as_slice());
    assert!(rt; is_refused(rt.alloc(), &PUT, 2) && is_refused(rt.alloc(), &TWO, u64::MAX));
    assert!(rt; is_refused(rt.alloc(), &LOG, u64::MAX));
    Ok(())
}

/// How many records the log of these bytes has, if they are the first ones of `LOG`, and the length of its file.
fn sizes(alloc: Global, bytes: &[u8]) -> Result<(usize, usize), LogFault> {
    let mut log = opened(alloc, bytes, u64::MAX, 0)?;
    let records = log.records()?;
    if !are_first(&records, records.len()) {
        return Err(LogFault::Refused);
    }
    Ok((records.len(), log.into_file().bytes.len()))
}

/// The same of the first `len` bytes of `LOG`, by the offsets where its frames end.
fn torn_sizes(len: usize) -> Result<(usize, usize), LogFault> {
    match len {
        0..=40 => Err(LogFault::Damaged),
        41..=66 => Ok((1, 41)),
        67..=95 => Ok((2, 67)),
        _ => Ok((3, 96)),
    }
}

#[test]
fn torn_logs_of_every_length(rt: HostRuntime) -> Result<(), Fail> {
    for len in 0..=LOG.len() {
        assert!(rt;
            sizes(rt.alloc(), &LOG[..len]) == torn_sizes(len),
            "at {len}"
        );
    }
    Ok(())
}

/// How many records `LOG` has once the byte at an offset has changed.
fn changed_count(alloc: Global, at: usize) -> Result<usize, LogFault> {
    let mut bytes = LOG;
    if let Some(byte) = bytes.get_mut(at) {
        *byte ^= 0x20;
    }
    Ok(sizes(alloc, &bytes)?.0)
}

/// The store's number is no part of a record, and the last record is taken for torn.
fn damaged_count(at: usize) -> Result<usize, LogFault> {
    match at {
        8..=15 => Ok(3),
        0..=66 => Err(LogFault::Damaged),
        _ => Ok(2),
    }
}

#[test]
fn damaged_logs(rt: HostRuntime) -> Result<(), Fail> {
    for at in 0..LOG.len() {
        assert!(rt;
            changed_count(rt.alloc(), at) == damaged_count(at),
            "at {at}"
        );
    }
    Ok(())
}
