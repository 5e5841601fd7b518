//! Devices in memory that a kill cuts off: from one of their calls on, counted over all three, each fails and changes nothing.

ghost use Rattle.std.specs.Prelude.{◌≡◌, ◌≤◌, ◌<◌, ◌^◌, IfOk, IsErrOf, None, OnErr, OnOk, false, ⊤};
ghost use Rattle.cell_key.specs.Faults.{HasRisen};
ghost use Rattle.commit_log.specs.Faults.{HasFaultCause as HasLogCause};
ghost use Rattle.commit_log.specs.Frames.{IsBody};
ghost use Rattle.file_store.specs.Store.{HasFaultCause};

use cell_key::Stamp;
use commit_log::{Log, LogFault, RecordKind};
use durable::AtomicPut;
use file_store::{FileFault, Files};
use oracle::{MarkFault, MarkStore};
use std::cell::Cell;
use std::io;
use std::io::Write;

/// The fate of a call of a device.
#[derive(Clone, Copy)]
enum Next {
    /// It is made.
    Goes,
    /// It is made if it is a write, and the kill comes before its answer.
    IsLast,
    /// It is not made.
    Stopped,
}

/// The number of calls of all devices, and the call at which a kill comes.
#[derive(Drop)]
pub struct Life {
    calls: Cell<u64>,
    ends_at: Cell<u64>,
    makes_last: Cell<bool>,
}

impl Life {
    /// No call was made, and no kill comes.
    pub fn new() -> Life {
        Life {
            calls: Cell::new(0),
            ends_at: Cell::new(u64::MAX),
            makes_last: Cell::new(false),
        }
    }

    /// Counts calls from 1 again, and lets a kill come at the call with this number: before it does anything or, if it
    /// is a write and `makes_last` is set, after it is done.
    pub fn begin(&self, ends_at: u64, makes_last: bool) {
        self.calls.set(0);
        self.ends_at.set(ends_at);
        self.makes_last.set(makes_last);
    }

    /// Whether the kill has come.
    pub fn is_over(&self) -> bool {
        self.calls.get() >= self.ends_at.get()
    }

    /// Counts a call.
    fn count(&self) -> Next {
        let call = self.calls.get().saturating_add(1);
        self.calls.set(call);
        if call < self.ends_at.get() {
            return Next::Goes;
        }
        if call == self.ends_at.get() && self.makes_last.get() {
            return Next::IsLast;
        }
        Next::Stopped
    }
}

/// A device whose calls are counted. It is kept in a cell and taken for each call, so that it outlives the server. Of a
/// file that is written in pieces only the end is counted, which alone changes the files.
#[derive(Drop)]
pub struct Stopping<'a, D> {
    cell: &'a Cell<Option<D>>,
    life: &'a Life,
    faults: u64,
}

impl<'a, D: Drop> Stopping<'a, D> {
    pub fn new(cell: &'a Cell<Option<D>>, life: &'a Life) -> Stopping<'a, D> {
        Stopping {
            cell,
            life,
            faults: 0,
        }
    }

    /// The device for a read, unless the kill has come.
    fn to_read(&mut self) -> Option<D>
        ensures { self.new.faults ≡ self.old.faults }
    {
        match self.life.count() {
            Next::Goes => self.cell.take(),
            Next::IsLast | Next::Stopped => None,
        }
    }

    /// The device for a write, unless the kill has come; and whether the kill comes at this call.
    fn to_write(&mut self) -> Option<(D, bool)>
        ensures { self.new.faults ≡ self.old.faults }
    {
        let next = self.life.count();
        if matches!(next, Next::Stopped) {
            return None;
        }
        let device = self.cell.take()?;
        Some((device, matches!(next, Next::IsLast)))
    }

    /// Counts a fault.
    fn fail(&mut self)
        ensures risen { HasRisen self.old.faults self.new.faults }
        ensures later { self.old.faults ≤ self.new.faults }
    {
        self.faults = self.faults.saturating_add(1);
    }

    /// The answer of a call of files, or a device fault if the kill came.
    fn file_answer<T: Drop>(
        &mut self,
        called: Result<T, FileFault>,
        is_last: bool,
    ) -> Result<T, FileFault>
        ensures same { is_last ≡ false → result ≡ called }
        ensures cause { HasFaultCause self.old.faults self.new.faults result }
    {
        if is_last || matches!(&called, Err(FileFault::Device)) {
            self.fail();
            return Err(FileFault::Device);
        }
        called
    }

    /// The answer of a call of a mark store, or a fault if the kill came.
    fn mark_answer<T: Drop>(
        &mut self,
        called: Result<T, MarkFault>,
        is_last: bool,
    ) -> Result<T, MarkFault>
        ensures same { is_last ≡ false → result ≡ called }
        ensures later { self.old.faults ≤ self.new.faults }
        ensures device { OnErr result (HasRisen self.old.faults self.new.faults) }
        ensures told { OnOk result (self.new.faults ≡ self.old.faults) }
    {
        if is_last || called.is_err() {
            self.fail();
            return Err(MarkFault);
        }
        called
    }

    /// The answer of a call of a log, or a device fault if the kill came.
    fn log_answer<T: Drop>(
        &mut self,
        called: Result<T, LogFault>,
        is_last: bool,
    ) -> Result<T, LogFault>
        ensures intact { ¬ IsErrOf called LogFault.Damaged → ¬ IsErrOf result LogFault.Damaged }
        ensures taken { ¬ IsErrOf called LogFault.Refused → ¬ IsErrOf result LogFault.Refused }
        ensures cause { HasLogCause self.old.faults self.new.faults result }
    {
        if is_last || matches!(&called, Err(LogFault::Device)) {
            self.fail();
            return Err(LogFault::Device);
        }
        called
    }
}

impl<F: Files + Drop> Files for Stopping<'_, F> {
    ghost contents = { λ _. None };

    ghost faults = { λ stopping. stopping.faults };

    ghost replaces = { ⊤ };

    type Writing = F::Writing;

    ghost writes_to = { λ writing. F.writes_to writing };

    ghost has = { λ _ _. ⊤ };

    fn begin(&mut self, name: u64) -> Result<F::Writing, FileFault> {
        let Some(mut files) = self.cell.take() else {
            return self.file_answer(Err(FileFault::Device), false);
        };
        let begun = files.begin(name);
        self.cell.set(Some(files));
        self.file_answer(begun, false)
    }

    fn push(&mut self, writing: &mut F::Writing, bytes: &[u8]) -> Result<(), FileFault> {
        let Some(mut files) = self.cell.take() else {
            return self.file_answer(Err(FileFault::Device), false);
        };
        let called = files.push(writing, bytes);
        self.cell.set(Some(files));
        self.file_answer(called, false)
    }

    fn finish(&mut self, writing: F::Writing) -> Result<(), FileFault> {
        let Some((mut files, is_last)) = self.to_write() else {
            return self.file_answer(Err(FileFault::Device), false);
        };
        let called = files.finish(writing);
        self.cell.set(Some(files));
        self.file_answer(called, is_last)
    }

    fn give_up(&mut self, writing: F::Writing) {
        let Some(mut files) = self.cell.take() else {
            return;
        };
        files.give_up(writing);
        self.cell.set(Some(files));
    }

    fn size(&mut self, name: u64) -> Result<Option<u64>, FileFault> {
        let Some(mut files) = self.to_read() else {
            return self.file_answer(Err(FileFault::Device), false);
        };
        let called = files.size(name);
        self.cell.set(Some(files));
        self.file_answer(called, false)
    }

    fn read_at(&mut self, name: u64, offset: u64, out: &mut [u8]) -> Result<usize, FileFault> {
        let Some(mut files) = self.to_read() else {
            return self.file_answer(Err(FileFault::Device), false);
        };
        let called = files.read_at(name, offset, out);
        self.cell.set(Some(files));
        self.file_answer(called, false)
    }

    fn list(&mut self, names: &mut Vec<u64>) -> Result<(), FileFault> {
        let Some(mut files) = self.to_read() else {
            return self.file_answer(Err(FileFault::Device), false);
        };
        let called = files.list(names);
        self.cell.set(Some(files));
        self.file_answer(called, false)
    }

    fn remove(&mut self, name: u64) -> Result<(), FileFault> {
        let Some((mut files, is_last)) = self.to_write() else {
            return self.file_answer(Err(FileFault::Device), false);
        };
        let called = files.remove(name);
        self.cell.set(Some(files));
        self.file_answer(called, is_last)
    }

    fn faults(&self) -> u64 {
        self.faults
    }
}

impl<F: Files + Drop> AtomicPut for Stopping<'_, F> {
    ghost whole = { tt };
}

impl<M: MarkStore + Drop> MarkStore for Stopping<'_, M> {
    ghost mark = { λ _. None };

    ghost faults = { λ stopping. stopping.faults };

    fn load(&mut self) -> Result<Stamp, MarkFault> {
        let Some(mut marks) = self.to_read() else {
            return self.mark_answer(Err(MarkFault), false);
        };
        let called = marks.load();
        self.cell.set(Some(marks));
        self.mark_answer(called, false)
    }

    fn store(&mut self, number: Stamp) -> Result<(), MarkFault> {
        let Some((mut marks, is_last)) = self.to_write() else {
            return self.mark_answer(Err(MarkFault), false);
        };
        let called = marks.store(number);
        self.cell.set(Some(marks));
        self.mark_answer(called, is_last)
    }

    fn faults(&self) -> u64 {
        self.faults
    }
}

impl<L: Log + Drop> Log for Stopping<'_, L> {
    ghost holds = { λ _ _. ⊥ };

    ghost refuses = { λ _ _. ⊤ };

    ghost faults = { λ stopping. stopping.faults };

    fn reserve(&mut self, _more: usize) -> Result<(), LogFault> {
        // A log in memory has room. After the kill its append fails.
        Ok(())
    }

    fn reserve_renewal(&mut self) -> Result<(), LogFault> {
        // After the kill its renewal fails.
        Ok(())
    }

    fn reserve_beside(&mut self, _len: usize) -> Result<(), LogFault> {
        Ok(())
    }

    fn release_beside(&mut self) {}

    fn append(&mut self, kind: RecordKind, stamp: Stamp, body: &[u8]) -> Result<(), LogFault> {
        let Some((mut log, is_last)) = self.to_write() else {
            return self.log_answer(Err(LogFault::Device), false);
        };
        let called = log.append(kind, stamp, body);
        self.cell.set(Some(log));
        self.log_answer(called, is_last)
    }

    fn records(&mut self) -> Result<Vec<Vec<u8>>, LogFault> {
        let Some(mut log) = self.to_read() else {
            return self.log_answer(Err(LogFault::Device), false);
        };
        let called = log.records();
        self.cell.set(Some(log));
        self.log_answer(called, false)
    }

    fn renew(&mut self, kind: RecordKind, stamp: Stamp, body: &[u8]) -> Result<(), LogFault> {
        let Some((mut log, is_last)) = self.to_write() else {
            return self.log_answer(Err(LogFault::Device), false);
        };
        let called = log.renew(kind, stamp, body);
        self.cell.set(Some(log));
        self.log_answer(called, is_last)
    }

    fn faults(&self) -> u64 {
        self.faults
    }
}

/// A writer that a kill cuts off with the devices if `is_cut` is set.
#[derive(Drop)]
pub struct Written<'a> {
    pub bytes: Vec<u8>,
    pub life: &'a Life,
    pub is_cut: bool,
}

impl Write for Written<'_> {
    fn write(&mut self, buf: &[u8]) -> io::Result<usize> {
        if self.is_cut && self.life.is_over() {
            return Err(io::Error::other("killed"));
        }
        self.bytes.extend_from_slice(buf)?;
        Ok(buf.len())
    }

    fn flush(&mut self) -> io::Result<()> {
        Ok(())
    }
}
