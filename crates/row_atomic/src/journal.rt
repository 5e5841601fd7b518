//! Journals: the edits made since a root was put, as bytes.

ghost use Rattle.std.specs.Prelude.{◌≡◌, ◌≤◌, ◌+◌, ◌-◌, length, take, IfErr, IsErrOf, OnErr, OnOk};
ghost use Rattle.std.specs.List.{AllByRecursion};
ghost use Rattle.cell_key.specs.Cells.{IsEditOf};
ghost use Rattle.commit_log.specs.Edits.{IsStoredEdit};
ghost use Rattle.row_atomic.specs.Journals.{HasRoomFor, IsWithin, all_logged, empty_journal, with_waiting};
ghost use Rattle.rows.specs.Refusals.{IsApplyRefusal};
ghost use Rattle.rows.specs.RowEdits.{AreOfTheirRow, all_edits};

use cell_key::{Edit, Refusal, Row};
use commit_log::{entries_len, push_edits};
use rows::RowEdits;
use std::alloc::Global;
use std::marker::Model;

/// The most edits in a journal.
const MOST_EDITS: usize = 100_000;

/// The most bytes that the edits of a journal take as entries of a memtable.
const MOST_BYTES: usize = 67_108_864;

/// The edits made since a root was put, as the bytes of log records: first those that the log already has, then those
/// still waiting for it. At most 100,000 edits, which take at most 67,108,864 bytes as entries: the limits of a memtable.
/// The logged edits stay in memory, since the contracts speak of all edits.
#[derive(Drop)]
pub struct Journal {
    bytes: Vec<u8>,
    /// How many of the bytes are already in the log.
    settled: usize,
    /// How many edits it has.
    count: usize,
    /// The bytes that they take as entries of a memtable.
    entry_bytes: usize,
}

impl Model for Journal {
    ghost use Rattle.std.specs.Prelude.{◌≤◌, ◌+◌, drop, length, take};
    ghost use Rattle.row_atomic.specs.Journals.{JournalView, journal_code};

    ghost Value = { JournalView };

    ghost coded = { journal_code };

    ghost view = { λ journal.
        record {
          logged = take journal.settled journal.bytes.items;
          waiting = drop journal.settled journal.bytes.items;
          count = journal.count;
          entry_bytes = journal.entry_bytes;
        } };

    ghost invariant = { λ journal. (journal.settled ≤ length journal.bytes.items)
        × (journal.count ≤ 100000) × (journal.entry_bytes ≤ 67108864)
        × (length journal.bytes.items ≤ journal.entry_bytes) };
}

impl Journal {
    /// An empty journal. Allocates nothing.
    pub(crate) fn new(alloc: Global) -> Journal
        ensures { result ≡ empty_journal }
    {
        Journal {
            bytes: Vec::new(alloc),
            settled: 0,
            count: 0,
            entry_bytes: 0,
        }
    }

    /// How many edits it has.
    pub(crate) fn count(&self) -> usize
        ensures { result ≡ self.now.count }
    {
        self.count
    }

    /// The bytes that its edits take as entries of a memtable.
    pub(crate) fn entry_bytes(&self) -> usize
        ensures { result ≡ self.now.entry_bytes }
    {
        self.entry_bytes
    }

    /// How many bytes it has.
    pub(crate) fn len(&self) -> usize
        ensures len { result ≡ length self.now.logged + length self.now.waiting }
        ensures within { IsWithin self.now }
    {
        self.bytes.len()
    }

    /// The bytes of the edits that wait for the log.
    pub(crate) fn waiting(&self) -> &[u8]
        ensures bytes { result.now ≡ self.now.waiting }
        ensures within { IsWithin self.now }
    {
        &self.bytes[self.settled..]
    }

    /// Marks all its edits as logged.
    pub(crate) fn settle(&mut self)
        ensures { self.new ≡ all_logged self.old }
    {
        self.settled = self.bytes.len();
    }

    /// Removes all edits. The memory stays allocated.
    pub(crate) fn clear(&mut self)
        ensures { self.new ≡ empty_journal }
    {
        self.bytes.clear();
        self.settled = 0;
        self.count = 0;
        self.entry_bytes = 0;
    }

    /// Appends edits of a row.
    ///
    /// # Errors
    ///
    /// `MemtableFull` if they would exceed a limit, and `NoMemory`. The journal is then unchanged.
    pub(crate) fn push(&mut self, row: &Row, edits: &[Edit]) -> Result<(), Refusal>
        requires { AllByRecursion (IsEditOf row.now) edits.now }
        ensures ok { OnOk result (self.new ≡ with_waiting edits.now self.old) }
        ensures err { OnErr result (self.new ≡ self.old) }
        ensures refusal { IfErr result IsApplyRefusal }
        ensures full { IsErrOf result Refusal.MemtableFull → ¬ HasRoomFor self.old edits.now }
        ensures within { OnOk result (HasRoomFor self.old edits.now) }
        ensures stored { OnOk result (AllByRecursion IsStoredEdit edits.now) }
    {
        if edits.len() > MOST_EDITS - self.count {
            return Err(Refusal::MemtableFull);
        }
        let entry_bytes = self.entry_bytes + entries_len(row, edits);
        if entry_bytes > MOST_BYTES {
            return Err(Refusal::MemtableFull);
        }
        push_edits(&mut self.bytes, row, edits)?;
        self.count += edits.len();
        self.entry_bytes = entry_bytes;
        Ok(())
    }

    /// Appends edits of several rows, all of them or none.
    ///
    /// # Errors
    ///
    /// `MemtableFull` if they would exceed a limit, and `NoMemory`. The journal is then unchanged.
    pub(crate) fn push_all(&mut self, changes: &[RowEdits]) -> Result<(), Refusal>
        requires { AllByRecursion AreOfTheirRow changes.now }
        ensures ok { OnOk result (self.new ≡ with_waiting (all_edits changes.now) self.old) }
        ensures err { OnErr result (self.new ≡ self.old) }
        ensures refusal { IfErr result IsApplyRefusal }
        ensures full { IsErrOf result Refusal.MemtableFull
            → ¬ HasRoomFor self.old (all_edits changes.now) }
        ensures within { OnOk result (HasRoomFor self.old (all_edits changes.now)) }
        ensures stored { OnOk result (AllByRecursion IsStoredEdit (all_edits changes.now)) }
    {
        let (len, count, entry_bytes) = (self.len(), self.count, self.entry_bytes);
        for change in changes {
            if let Err(refusal) = self.push(&change.row, &change.edits) {
                self.cut(len, count, entry_bytes);
                return Err(refusal);
            }
        }
        Ok(())
    }

    /// Drops the edits after the first `len` bytes, which hold `count` edits that take `entry_bytes` as entries.
    pub(crate) fn cut(&mut self, len: usize, count: usize, entry_bytes: usize)
        requires waiting { length self.old.logged ≤ len }
        requires few { count ≤ self.old.count }
        requires less { entry_bytes ≤ self.old.entry_bytes }
        requires shorter { len ≤ entry_bytes }
        ensures { self.new ≡ record self.old {
          waiting = take (len - length self.old.logged) self.old.waiting;
          count = count;
          entry_bytes = entry_bytes;
        } }
    {
        self.bytes.truncate(len);
        self.count = count;
        self.entry_bytes = entry_bytes;
    }
}
