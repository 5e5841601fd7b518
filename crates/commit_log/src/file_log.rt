//! A log in a file.

ghost use Rattle.std.specs.Prelude.{◌≡◌, ◌≢◌, ◌≤◌, ◌<◌, ◌^◌, ◌⊎◌, ℕ, List, IfErr, IfOk, IfSome, IsErrOf, OnErr, OnOk};
ghost use Rattle.commit_log.specs.Faults.{HasFaultCause, HasRisen};
ghost use Rattle.commit_log.specs.Frames.{IsBody, frame};
ghost use Rattle.commit_log.specs.Held.{HasRecords, IsHeld, IsKept, Keeps, Opens};
ghost use Rattle.commit_log.specs.Numbered.{Hides, IsRefused, numbered};
ghost use Rattle.commit_log.specs.Records.{spelled_record};

use crate::faults::LogFault;
use crate::files::LogFile;
use crate::logs::Log;
use crate::numbered::{NO_NUMBER, hides, numbered_frame};
use crate::records::RecordKind;
use crate::store_log::{log_of_one, read_store_log};
use cell_key::Stamp;
use std::alloc::Global;

/// A log that stores its records as numbered frames in a file.
#[derive(Drop)]
pub struct FileLog<F> {
    alloc: Global,
    file: F,
    /// The number of the store.
    store: u64,
    /// The number of the next record.
    next: u64,
}

/// Cuts the bytes behind the last whole frame of a file. Answers the store's number and the next record's.
fn cut_tail<F: LogFile>(alloc: Global, file: &mut F) -> Result<(u64, u64), LogFault>
    ensures held { IfOk result (λ numbers. Opens (F.bytes file.old) (F.bytes file.new)
        (F.is_stopped file.new) numbers.0 numbers.1) }
    ensures kept { OnErr result (Keeps (IsKept (F.bytes file.old)) (IsKept (F.bytes file.new))) }
    ensures is_log { OnOk result (IfSome (F.bytes file.old) HasRecords) }
    ensures damaged { IsErrOf result LogFault.Damaged → (records : List (List ℕ))
        → ¬ IsKept (F.bytes file.old) records }
    ensures taken { ¬ IsErrOf result LogFault.Refused }
    ensures cause { HasFaultCause (F.faults file.old) (F.faults file.new) result }
{
    let bytes = file.read(alloc)?;
    let found = read_store_log(alloc, &bytes)?;
    let numbers = (found.store, found.first + found.records.len() as u64);
    if found.end == bytes.len() {
        return Ok(numbers);
    }
    file.renew(&bytes[..found.end])?;
    Ok(numbers)
}

/// The frame of a record with this number. It contains no later frame.
///
/// # Errors
///
/// `Refused` if it would contain one, or the numbers are used up; `Memory`.
fn frame_to_append(
    alloc: Global,
    number: u64,
    kind: RecordKind,
    stamp: Stamp,
    body: &[u8],
) -> Result<Vec<u8>, LogFault>
    requires { IsBody body.now }
    ensures ok { IfOk result (λ bytes.
        bytes.items ≡ frame (numbered number (spelled_record kind stamp body.now))) }
    ensures number { OnOk result (number < 2 ^ 63) }
    ensures plain { OnOk result (¬ Hides number (spelled_record kind stamp body.now)) }
    ensures refused { IsErrOf result LogFault.Refused
        → IsRefused number (spelled_record kind stamp body.now) }
    ensures fault { IfErr result (λ fault. (fault ≡ LogFault.Refused)
        ⊎ (fault ≡ LogFault.Memory)) }
{
    if number >= NO_NUMBER {
        return Err(LogFault::Refused);
    }
    let frame = numbered_frame(alloc, number, kind, stamp, body)?;
    if hides(&frame, number) {
        return Err(LogFault::Refused);
    }
    Ok(frame)
}

impl<F: LogFile> FileLog<F> {
    /// Opens the log of a file, also after a kill: the bytes behind its last whole frame are cut. An `Err` gives the
    /// file back.
    ///
    /// # Errors
    ///
    /// `Damaged` if the bytes are not a log, or a later whole frame follows a broken one; `Device`; `Memory`.
    pub fn open(alloc: Global, mut file: F) -> Result<FileLog<F>, (LogFault, F)>
        ensures held { IfOk result (λ log. Opens (F.bytes file) (F.bytes log.file)
            (F.is_stopped log.file) log.store log.next) }
        ensures is_log { OnOk result (IfSome (F.bytes file) HasRecords) }
        ensures kept { IfErr result (λ refused.
            Keeps (IsKept (F.bytes file)) (IsKept (F.bytes refused.1))) }
        ensures damaged { IfErr result (λ refused. refused.0 ≡ LogFault.Damaged
            → (records : List (List ℕ)) → ¬ IsKept (F.bytes file) records) }
        ensures taken { IfErr result (λ refused. refused.0 ≢ LogFault.Refused) }
        ensures opened { IfOk result (λ log. F.faults log.file ≡ F.faults file) }
        ensures later { IfErr result (λ refused. F.faults file ≤ F.faults refused.1) }
        ensures device { IfErr result (λ refused. refused.0 ≡ LogFault.Device
            → HasRisen (F.faults file) (F.faults refused.1)) }
        ensures told { IfErr result (λ refused. refused.0 ≢ LogFault.Device
            → F.faults refused.1 ≡ F.faults file) }
    {
        match cut_tail(alloc, &mut file) {
            Ok((store, next)) => Ok(FileLog {
                alloc,
                file,
                store,
                next,
            }),
            Err(fault) => Err((fault, file)),
        }
    }

    /// The file.
    pub fn into_file(self) -> F
        ensures { result ≡ self.file }
    {
        self.file
    }
}

impl<F: LogFile> Log for FileLog<F> {
    ghost use Rattle.commit_log.specs.Held.{IsHeld};
    ghost use Rattle.commit_log.specs.Numbered.{IsRefused};

    ghost holds = { λ log records.
        IsHeld (F.bytes log.file) (F.is_stopped log.file) log.store log.next records };

    ghost refuses = { λ log one. IsRefused log.next one };

    ghost faults = { λ log. F.faults log.file };

    fn reserve(&mut self, more: usize) -> Result<(), LogFault> {
        self.file.reserve(more)
    }

    fn reserve_renewal(&mut self) -> Result<(), LogFault> {
        self.file.reserve_renewal()
    }

    fn reserve_beside(&mut self, len: usize) -> Result<(), LogFault> {
        self.file.reserve_beside(len)
    }

    fn release_beside(&mut self) {
        self.file.release_beside();
    }

    fn append(&mut self, kind: RecordKind, stamp: Stamp, body: &[u8]) -> Result<(), LogFault> {
        let frame = frame_to_append(self.alloc, self.next, kind, stamp, body)?;
        self.file.write(&frame)?;
        self.next += 1;
        Ok(())
    }

    fn records(&mut self) -> Result<Vec<Vec<u8>>, LogFault> {
        let bytes = self.file.read(self.alloc)?;
        Ok(read_store_log(self.alloc, &bytes)?.records)
    }

    fn renew(&mut self, kind: RecordKind, stamp: Stamp, body: &[u8]) -> Result<(), LogFault> {
        if self.next >= NO_NUMBER {
            return Err(LogFault::Refused);
        }
        let all = log_of_one(self.alloc, self.store, self.next, kind, stamp, body)?;
        self.file.renew(&all)?;
        self.next += 1;
        Ok(())
    }

    fn faults(&self) -> u64 {
        self.file.faults()
    }
}
