//! A cluster whose edits are recorded in a journal.

ghost use Rattle.std.specs.Prelude.{◌≡◌, OnErr, OnOk, option_map};

use crate::cluster::Cluster;
use crate::cluster::laws::root_is_stored;
use crate::journal::Journal;
use cell_key::{Edit, Family, Qualifier, Refusal, Row, Stamp, replays};
use file_store::Files;
use rows::{RowEdits, Rows};
use tablet::{BatchLimits, VersionBatch};

/// A cluster and, if edits are recorded, the journal in which each is written before an answer says that it was made.
/// Without a journal an edit costs one extra branch.
///
/// With a journal, its edits lead from the cells in the files to the cells that the cluster shows: an invariant of
/// these rows. Every call of a cluster but `apply` and `apply_all` keeps it (`keeps_following`) and may be made on the
/// cluster itself.
#[derive(Drop)]
pub struct Recorded<F: Files> {
    pub cluster: Cluster<F>,
    pub(crate) journal: Option<Journal>,
}

impl<F: Files> Recorded<F> {
    ghost use Rattle.std.specs.Prelude.{◌≡◌, ◌+◌, ◌≤◌, IfSome, None, Some, is_some, option_map};
    ghost use Rattle.row_atomic.specs.Journals.{IsWithin, all_logged, empty_journal};
    ghost use Rattle.row_atomic.specs.Recorded.{bytes_written, edits_written, waiting_of};

    /// The rows of a cluster, without a journal.
    pub fn new(cluster: Cluster<F>) -> Recorded<F>
        ensures { result ≡ record { cluster = cluster; journal = None } }
    {
        Recorded {
            cluster,
            journal: None,
        }
    }

    /// Records edits from now on, in an empty journal. Allocates nothing.
    pub fn record(&mut self)
        ensures { self.new ≡ record self.old { journal = Some empty_journal } }
    {
        self.journal = Some(Journal::new(self.cluster.alloc));
    }

    /// Stops recording edits, and drops the journal.
    pub fn forget(&mut self)
        ensures { self.new ≡ record self.old { journal = None } }
    {
        self.journal = None;
    }

    /// Whether edits are recorded.
    pub fn is_recording(&self) -> bool
        ensures { result ≡ is_some self.now.journal }
    {
        self.journal.is_some()
    }

    /// The bytes of the edits that wait for the log, as the body of a log record; empty without a journal.
    pub fn waiting(&self) -> &[u8]
        ensures bytes { result.now ≡ waiting_of self.now.journal }
        ensures within { IfSome self.now.journal IsWithin }
    {
        match &self.journal {
            Some(journal) => journal.waiting(),
            None => &[],
        }
    }

    /// Marks the waiting edits as logged.
    pub fn settled(&mut self)
        ensures { self.new ≡ record self.old { journal = option_map all_logged self.old.journal } }
    {
        if let Some(journal) = &mut self.journal {
            journal.settle();
        }
    }

    /// Empties the journal, after a root was put that has all its edits and the log was emptied.
    pub fn emptied(&mut self)
        ensures { self.new ≡ record self.old {
          journal = option_map (λ _. empty_journal) self.old.journal;
        } }
    {
        if let Some(journal) = &mut self.journal {
            journal.clear();
        }
    }

    /// How many edits the journal has, at most 100,000.
    pub fn written_edits(&self) -> usize
        ensures { result ≡ edits_written self.now.journal }
    {
        match &self.journal {
            Some(journal) => journal.count(),
            None => 0,
        }
    }

    /// How many bytes they have in the log, at most 67,108,864.
    pub fn written_bytes(&self) -> usize
        ensures { result ≡ bytes_written self.now.journal }
    {
        match &self.journal {
            Some(journal) => journal.len(),
            None => 0,
        }
    }

    /// The files, as they are.
    pub fn into_files(self) -> F
        ensures { result ≡ self.cluster.files }
    {
        let Recorded {
            cluster,
            journal: _,
        } = self;
        cluster.into_files()
    }
}

impl<F: Files> Rows for Recorded<F> {
    ghost use Rattle.rows.specs.Calls.{Applies, AppliesAll, OnlyReads};
    ghost use Rattle.rows.specs.Room.{OverfillsOne};
    ghost use Rattle.rows.specs.RowEdits.{AreOfTheirRow, all_edits};
    ghost use Rattle.row_atomic.specs.Journals.{with_waiting};
    ghost use Rattle.row_atomic.specs.Recorded.{FitsMemtables, OverfillsRecorded, seen_recorded};
    ghost use Rattle.rows.specs.Refusals.{IsApplyRefusal};
    ghost use Rattle.std.specs.List.{AllByRecursion};
    ghost use Rattle.std.specs.Prelude.{IfErr, IsErrOf};
    ghost use Rattle.cell_key.specs.Cells.{IsEditOf};

    ghost seen = { seen_recorded F.contents };

    ghost faults = { λ rows. F.faults rows.cluster.files };

    fn newest(
        &mut self,
        row: &Row,
        family: &Family,
        qualifier: Qualifier,
        lo: Stamp,
        hi: Stamp,
    ) -> Result<Option<(Stamp, Vec<u8>)>, Refusal> {
        root_is_stored::<F>();
        self.cluster.newest(row, family, qualifier, lo, hi)
    }

    fn versions(
        &mut self,
        row: &Row,
        family: &Family,
        qualifier: Qualifier,
        hi: Stamp,
        most: usize,
    ) -> Result<Vec<(Stamp, Vec<u8>)>, Refusal> {
        root_is_stored::<F>();
        self.cluster.versions(row, family, qualifier, hi, most)
    }

    fn has_version(
        &mut self,
        row: &Row,
        family: &Family,
        qualifier: Qualifier,
        lo: Stamp,
        hi: Stamp,
    ) -> Result<bool, Refusal> {
        root_is_stored::<F>();
        self.cluster.has_version(row, family, qualifier, lo, hi)
    }

    fn next_cell(
        &mut self,
        after: Option<(&Row, &Family)>,
    ) -> Result<Option<(Row, Family)>, Refusal> {
        root_is_stored::<F>();
        self.cluster.next_cell(after)
    }

    fn next_cells(
        &mut self,
        after: Option<(&Row, &Family)>,
        most: usize,
    ) -> Result<Vec<(Row, Family)>, Refusal> {
        root_is_stored::<F>();
        self.cluster.next_cells(after, most)
    }

    fn next_versions(
        &mut self,
        after: Option<(&Row, &Family)>,
        limits: BatchLimits,
        hi: Stamp,
    ) -> Result<VersionBatch, Refusal> {
        root_is_stored::<F>();
        self.cluster.next_versions(after, limits, hi)
    }

    fn apply(&mut self, row: &Row, edits: Vec<Edit>) -> Result<(), Refusal>
        requires { AllByRecursion (IsEditOf row.now) edits.items }
        ensures ok { OnOk result (Applies (seen_recorded F.contents)
            row.now edits.items self.old self.new) }
        ensures err { OnErr result (OnlyReads (seen_recorded F.contents) self.old self.new) }
        ensures refusal { IfErr result IsApplyRefusal }
        ensures full { IsErrOf result Refusal.MemtableFull
            → OverfillsRecorded self.old row.now edits.items }
        ensures within { OnOk result (¬ OverfillsRecorded self.old row.now edits.items) }
        ensures untouched { F.faults self.new.cluster.files ≡ F.faults self.old.cluster.files }
        ensures written { OnOk result (self.new.journal
            ≡ option_map (with_waiting edits.items) self.old.journal) }
        ensures unwritten { OnErr result (self.new.journal ≡ self.old.journal) }
        // If the journal had all entries of the memtables, it still has.
        ensures fits { OnOk result (FitsMemtables self.old → FitsMemtables self.new) }
    {
        root_is_stored::<F>();
        replays();
        match &mut self.journal {
            None => self.cluster.apply(row, edits),
            Some(journal) => {
                let (len, count) = (journal.len(), journal.count());
                let entry_bytes = journal.entry_bytes();
                journal.push(row, &edits)?;
                let done = self.cluster.apply(row, edits);
                if done.is_err() {
                    journal.cut(len, count, entry_bytes);
                }
                done
            }
        }
    }

    fn apply_all(&mut self, changes: Vec<RowEdits>) -> Result<(), Refusal>
        requires { AllByRecursion AreOfTheirRow changes.items }
        ensures ok { OnOk result (AppliesAll (seen_recorded F.contents)
            changes.items self.old self.new) }
        ensures err { OnErr result (OnlyReads (seen_recorded F.contents) self.old self.new) }
        ensures refusal { IfErr result IsApplyRefusal }
        ensures full { IsErrOf result Refusal.MemtableFull
            → OverfillsOne OverfillsRecorded changes.items self.old }
        ensures within { OnOk result (¬ OverfillsOne OverfillsRecorded changes.items self.old) }
        ensures untouched { F.faults self.new.cluster.files ≡ F.faults self.old.cluster.files }
        ensures written { OnOk result (self.new.journal
            ≡ option_map (with_waiting (all_edits changes.items)) self.old.journal) }
        ensures unwritten { OnErr result (self.new.journal ≡ self.old.journal) }
        // If the journal had all entries of the memtables, it still has.
        ensures fits { OnOk result (FitsMemtables self.old → FitsMemtables self.new) }
    {
        root_is_stored::<F>();
        replays();
        match &mut self.journal {
            None => self.cluster.apply_all(changes),
            Some(journal) => {
                let (len, count) = (journal.len(), journal.count());
                let entry_bytes = journal.entry_bytes();
                journal.push_all(&changes)?;
                let done = self.cluster.apply_all(changes);
                if done.is_err() {
                    journal.cut(len, count, entry_bytes);
                }
                done
            }
        }
    }

    fn faults(&self) -> u64 {
        self.cluster.faults()
    }
}
