//! Logs over a file that fails, and in memory.

ghost use Rattle.std.specs.Prelude.{◌≡◌, ◌<◌, ◌≤◌, ◌^◌, true};
ghost use Rattle.commit_log.specs.Faults.{HasRisen};

use super::{ENDS, FIRST, LOG, STORE, are_first};
use commit_log::{FileLog, Log, LogFault, LogFile, MemFile, MemLog, RecordKind, new_log};
use std::alloc::Global;
use std::test::Fail;

/// A file in memory that fails after `left` calls. The failing write appends a part of the bytes; a failing renewal
/// changes nothing.
#[derive(Drop)]
pub(super) struct FakeFile {
    pub(super) bytes: Vec<u8>,
    left: u64,
    part: usize,
    is_stopped: bool,
    faults: u64,
}

impl FakeFile {
    /// Whether one more call may succeed. It is counted.
    fn goes(&mut self) -> bool
        ensures stopped { self.new.is_stopped ≡ self.old.is_stopped }
        ensures faults { self.new.faults ≡ self.old.faults }
    {
        if self.left == 0 {
            return false;
        }
        self.left -= 1;
        true
    }

    /// Stops the file and counts a fault of the device.
    fn fail(&mut self) -> LogFault
        ensures fault { result ≡ LogFault.Device }
        ensures stopped { self.new.is_stopped ≡ true }
        ensures faults { HasRisen self.old.faults self.new.faults }
        ensures later { self.old.faults ≤ self.new.faults }
    {
        self.is_stopped = true;
        self.faults = self.faults.saturating_add(1);
        LogFault::Device
    }
}

impl LogFile for FakeFile {
    ghost use Rattle.std.specs.Prelude.{◌≡◌, None, true};

    ghost bytes = { λ _. None };

    ghost is_stopped = { λ file. file.is_stopped ≡ true };

    ghost faults = { λ file. file.faults };

    fn read(&mut self, alloc: Global) -> Result<Vec<u8>, LogFault> {
        Ok(Vec::from_slice(alloc, &self.bytes)?)
    }

    fn reserve(&mut self, _more: usize) -> Result<(), LogFault> {
        Ok(())
    }

    fn reserve_renewal(&mut self) -> Result<(), LogFault> {
        Ok(())
    }

    fn reserve_beside(&mut self, _len: usize) -> Result<(), LogFault> {
        Ok(())
    }

    fn release_beside(&mut self) {}

    fn write(&mut self, more: &[u8]) -> Result<(), LogFault> {
        if self.is_stopped {
            return Err(self.fail());
        }
        let goes = self.goes();
        let part = if goes {
            more.len()
        } else {
            self.part.min(more.len())
        };
        let added = self.bytes.extend_from_slice(&more[..part]);
        if !goes || added.is_err() {
            return Err(self.fail());
        }
        Ok(())
    }

    fn renew(&mut self, all: &[u8]) -> Result<(), LogFault> {
        if self.is_stopped || !self.goes() {
            return Err(self.fail());
        }
        let Ok(bytes) = Vec::from_slice(*self.bytes.allocator(), all) else {
            return Err(self.fail());
        };
        self.bytes = bytes;
        Ok(())
    }

    fn faults(&self) -> u64 {
        self.faults
    }
}

/// A file of these bytes that fails after this many calls.
fn fake(alloc: Global, bytes: &[u8], left: u64, part: usize) -> Result<FakeFile, LogFault> {
    Ok(FakeFile {
        bytes: Vec::from_slice(alloc, bytes)?,
        left,
        part,
        is_stopped: false,
        faults: 0,
    })
}

/// The log of these bytes, over a file that fails after this many calls.
pub(super) fn opened(
    alloc: Global,
    bytes: &[u8],
    left: u64,
    part: usize,
) -> Result<FileLog<FakeFile>, LogFault> {
    match FileLog::open(alloc, fake(alloc, bytes, left, part)?) {
        Ok(log) => Ok(log),
        Err((fault, _file)) => Err(fault),
    }
}

/// Appends the second and the third record of `LOG`. Answers how many succeeded.
fn append_both<L: Log>(log: &mut L) -> u64 {
    let edits = log.append(RecordKind::Edits, 7, b"a").is_ok();
    let root = log.append(RecordKind::Root, 9, b"\x01\x02\x03\x04").is_ok();
    u64::from(edits) + u64::from(root)
}

/// A log to which both records were appended over a file that fails: how many succeeded, and the file.
fn both_over(alloc: Global, left: u64, part: usize) -> Result<(u64, FakeFile), LogFault> {
    let mut log = opened(alloc, &LOG[..ENDS[1]], left, part)?;
    let count = append_both(&mut log);
    Ok((count, log.into_file()))
}

/// Whether the log of these bytes has so many records behind the first, or one more.
fn has_about(alloc: Global, bytes: &[u8], count: usize) -> Result<bool, LogFault> {
    let records = opened(alloc, bytes, u64::MAX, 0)?.records()?;
    let found = records.len();
    Ok(are_first(&records, found) && matches!(found.checked_sub(count), Some(1 | 2)))
}

#[test]
fn a_file_that_fails(rt: HostRuntime) -> Result<(), Fail> {
    for left in 0..3 {
        for part in 0..30 {
            let (count, file) = both_over(rt.alloc(), left, part)?;
            assert!(rt; count == left && file.faults == 2 - left, "{left} {part}");
            assert!(rt;
                has_about(rt.alloc(), &file.bytes, left as usize)?,
                "{left} {part}"
            );
        }
    }
    Ok(())
}

/// A log of two records over a file that fails after two calls: it is renewed, and a record is appended.
fn renewed(alloc: Global) -> Result<FileLog<FakeFile>, LogFault> {
    let mut log = opened(alloc, &LOG[..ENDS[2]], 2, 0)?;
    log.renew(RecordKind::Root, 9, b"\x01\x02\x03\x04")?;
    log.append(RecordKind::Edits, 9, b"b")?;
    Ok(log)
}

/// Whether a log answers the next calls with this fault.
fn are_faults<L: Log>(log: &mut L, fault: LogFault) -> bool {
    let renewed = log.renew(RecordKind::Edits, 0, b"a");
    let appended = log.append(RecordKind::Edits, 9, b"c");
    renewed == Err(fault) && appended == Err(fault)
}

/// How many records a log has.
fn count_of<L: Log>(log: &mut L) -> Result<usize, LogFault> {
    Ok(log.records()?.len())
}

#[test]
fn a_log_that_is_renewed(rt: HostRuntime) -> Result<(), Fail> {
    let mut log = renewed(rt.alloc())?;
    assert!(rt; are_faults(&mut log, LogFault::Device));
    assert!(rt; log.faults() == 2 && count_of(&mut log)? == 2);
    let bytes = log.into_file().bytes;
    assert!(rt; bytes.get(..16) == LOG.get(..16) && bytes.get(16..45) == LOG.get(67..));
    Ok(())
}

/// The bytes of a frame whose record has a body of one byte.
const FRAME: usize = 26;

/// The frame of the edits `a` with the number after this one.
fn frame_after(alloc: Global, before: u64) -> Result<Vec<u8>, LogFault>
    requires { before < 2 ^ 63 }
{
    let mut log = opened(alloc, &new_log(alloc, STORE, before)?, u64::MAX, 0)?;
    log.append(RecordKind::Edits, 0, b"a")?;
    let bytes = log.into_file().bytes;
    let frame = bytes.get(ENDS[1]..ENDS[1] + FRAME).unwrap_or_default();
    Ok(Vec::from_slice(alloc, frame)?)
}

/// The result of appending a body to a log whose next number is `FIRST` + 2.
fn append_third(alloc: Global, body: &[u8]) -> Result<(), LogFault> {
    if body.len() > FRAME {
        return Err(LogFault::Damaged);
    }
    opened(alloc, &LOG[..ENDS[2]], u64::MAX, 0)?.append(RecordKind::Edits, 0, body)
}

#[test]
fn records_that_contain_a_frame(rt: HostRuntime) -> Result<(), Fail> {
    for (before, is_later) in [
        (FIRST, false),
        (FIRST + 1, true),
        (FIRST + 2, true),
        (FIRST + 1 + 131_071, true),
        (FIRST + 1 + 131_072, false),
    ] {
        let appended = append_third(rt.alloc(), &frame_after(rt.alloc(), before)?);
        let wanted = if is_later {
            Err(LogFault::Refused)
        } else {
            Ok(())
        };
        assert!(rt; appended == wanted, "{before}");
    }
    Ok(())
}

#[test]
fn a_log_without_numbers(rt: HostRuntime) -> Result<(), Fail> {
    let last = new_log(rt.alloc(), STORE, u64::MAX / 2)?;
    let mut log = opened(rt.alloc(), &last, u64::MAX, 0)?;
    assert!(rt; are_faults(&mut log, LogFault::Refused) && count_of(&mut log)? == 1);
    Ok(())
}

#[test]
fn a_log_in_memory(rt: HostRuntime) -> Result<(), Fail> {
    let mut log = MemLog::new(rt.alloc())?;
    assert!(rt; append_both(&mut log) == 2);
    assert!(rt; are_first(&log.records()?, 3));
    log.renew(RecordKind::AnyRoot, 0, b"")?;
    assert!(rt; are_first(&log.records()?, 1) && log.faults() == 0);
    Ok(())
}

#[test]
fn a_log_over_a_file_in_memory(rt: HostRuntime) -> Result<(), Fail> {
    let file = MemFile::new(Vec::from_slice(rt.alloc(), &LOG[..80])?);
    let Ok(mut log) = FileLog::open(rt.alloc(), file) else {
        return Err(Fail::from(LogFault::Device));
    };
    log.append(RecordKind::Root, 9, b"\x01\x02\x03\x04")?;
    let bytes = log.into_file().read(rt.alloc())?;
    assert!(rt; bytes.as_slice() == LOG.as_slice());
    Ok(())
}
