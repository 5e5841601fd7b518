//! The server's upkeep of its tablets, and raw reads, one step of the snapshot machine each.

ghost use Rattle.std.specs.Prelude.{◌≡◌, [], Err, IfErr, IfOk, OnErr, OnOk};
ghost use Rattle.row_atomic.specs.Changes.{Holds};
ghost use Rattle.row_atomic.specs.Clusters.{spots_of};
ghost use Rattle.row_atomic.specs.Commands.{done_of};
ghost use Rattle.row_atomic.specs.Recorded.{Follows, Tracks};
ghost use Rattle.row_atomic.specs.RootLengths.{IsRoomBehind};
ghost use Rattle.row_atomic.specs.Roots.{root_sum};
ghost use Rattle.row_atomic.specs.declared.commands.Outcome.TheVariants as outcome;
ghost use Rattle.server_loop.specs.Commands.{checkpointed};
ghost use Rattle.si_model.specs.Machine.{IsStorageRefusal, State};

use crate::server::Server;
use cell_key::{Family, Qualifier, Refusal, Row, Stamp};
use file_store::Files;
use oracle::MarkStore;
use request_codec::{Reply, Request};
use row_atomic::{Rows, keeps_following, root_is_stored, root_outlasts_flushes};

/// The name of a root: its greatest stamp, and a checksum of its content without the lengths of files.
#[derive(Clone, Copy, Debug, PartialEq, Eq)]
pub struct RootName {
    /// The root's greatest stamp.
    pub top: Stamp,
    /// The CRC-32 of `Cluster::root_sum`.
    pub sum: u32,
}

impl<F: Files + Drop, M: MarkStore + Drop> Server<F, M> {
    ghost use Rattle.server_loop.specs.Answer.{IsPlainAnswer};
    ghost use Rattle.server_loop.specs.Checkpoints.{ActsAsCheckpoint, FlushesAll};
    ghost use Rattle.row_atomic.specs.RootSweeps.{SweepsBesideRoot};
    ghost use Rattle.server_loop.specs.Server.{Shows, cluster_of, forgets, journal_of, next_root, rows_of};

    pub(crate) fn minor(&mut self, tablet: u32) -> Reply
        ensures { IsPlainAnswer F.Files M.MarkStore self.old
            (Request.Minor tablet) result self.new }
    {
        keeps_following::<F>();
        match self.rows.cluster.minor(tablet) {
            Ok(()) => Reply::Minor,
            Err(refusal) => Reply::Refused(refusal),
        }
    }

    pub(crate) fn merge(&mut self, tablet: u32, count: u32) -> Reply
        ensures { IsPlainAnswer F.Files M.MarkStore self.old
            (Request.Merge tablet count) result self.new }
    {
        keeps_following::<F>();
        match self.rows.cluster.merge(tablet, count) {
            Ok(()) => Reply::Merge,
            Err(refusal) => Reply::Refused(refusal),
        }
    }

    pub(crate) fn major(&mut self, tablet: u32) -> Reply
        ensures { IsPlainAnswer F.Files M.MarkStore self.old
            (Request.Major tablet) result self.new }
    {
        keeps_following::<F>();
        match self.rows.cluster.major(tablet) {
            Ok(()) => Reply::Major,
            Err(refusal) => Reply::Refused(refusal),
        }
    }

    pub(crate) fn split(&mut self, row: &[u8]) -> Reply
        ensures { IsPlainAnswer F.Files M.MarkStore self.old
            (Request.Split row.entry) result self.new }
    {
        keeps_following::<F>();
        let row = match Row::new(self.alloc, row) {
            Ok(row) => row,
            Err(refusal) => return Reply::Refused(refusal),
        };
        match self.rows.cluster.split(&row) {
            Ok(left) => Reply::Split(left),
            Err(refusal) => Reply::Refused(refusal),
        }
    }

    pub(crate) fn move_to(&mut self, tablet: u32, server: u8) -> Reply
        ensures { IsPlainAnswer F.Files M.MarkStore self.old
            (Request.Move tablet server) result self.new }
    {
        keeps_following::<F>();
        match self.rows.cluster.move_to(tablet, server) {
            Ok(()) => Reply::Move,
            Err(refusal) => Reply::Refused(refusal),
        }
    }

    /// Removes the files that no tablet has. The journal is dropped, since it may need the removed files.
    pub(crate) fn sweep(&mut self) -> Reply
        ensures { IsPlainAnswer F.Files M.MarkStore self.old Request.Sweep result self.new }
    {
        keeps_following::<F>();
        let swept = self.rows.cluster.sweep();
        self.rows.forget();
        match swept {
            Ok(count) => Reply::Sweep(count),
            Err(refusal) => Reply::Refused(refusal),
        }
    }

    /// Removes the files that neither a tablet nor the root file has, and answers how many they were. The journal is
    /// kept.
    ///
    /// # Errors
    ///
    /// `Device`, `NoMemory`, or `Damaged` if the root file is malformed. Some of the files may already be removed.
    pub fn sweep_beside_root(&mut self) -> Result<u64, Refusal>
        ensures swept { SweepsBesideRoot F.contents F.faults result
            (cluster_of self.old) (cluster_of self.new) }
        ensures others { self.new ≡ record self.old {
          rows = record (rows_of self.old) { cluster = cluster_of self.new };
        } }
        ensures shown { (st : State) → Shows F.contents self.old st
            → Shows F.contents self.new st }
    {
        keeps_following::<F>();
        self.rows.cluster.sweep_beside_root()
    }

    /// The name of the root that a checkpoint would put if all tablets were flushed. Right after an accepted checkpoint
    /// it is the name of the root on disk.
    ///
    /// # Errors
    ///
    /// `NoMemory`.
    pub fn root_name(&self) -> Result<RootName, Refusal>
        ensures top { IfOk result (λ name. name.top ≡ (next_root self.now).top) }
        ensures sum { IfOk result (λ name. name.sum ≡ root_sum (next_root self.now)) }
        ensures refusal { IfErr result (λ refusal. refusal ≡ Refusal.NoMemory) }
    {
        let top = self.clients.top();
        let floor = self.collectors.greatest_floor();
        let sum = self.rows.cluster.root_sum(top, floor)?;
        Ok(RootName { top, sum })
    }

    /// The bytes of a root that is put now, and those of the greatest tablet, or the greatest number. Right after an
    /// accepted checkpoint, a root that is put after a split or a move has no more.
    pub fn next_root_bytes(&self) -> usize
        ensures { IsRoomBehind (next_root self.now) result }
    {
        self.rows.cluster.next_root_bytes()
    }

    /// Puts a root that keeps the state that is shown. The journal is kept.
    ///
    /// # Errors
    ///
    /// The same as a checkpoint's.
    pub fn put_root(&mut self) -> Result<(), Refusal>
        ensures plain { IsPlainAnswer F.Files M.MarkStore self.old Request.Checkpoint
            (checkpointed result) (forgets self.new) }
        ensures shown { (st : State) → Shows F.contents self.old st
            → Shows F.contents (forgets self.new) st }
        ensures refusal { IfErr result IsStorageRefusal }
        ensures spots { spots_of (cluster_of self.new) ≡ spots_of (cluster_of self.old) }
        ensures clean { OnOk result (Holds F.contents (cluster_of self.old)
            → Tracks F.contents (cluster_of self.new) []) }
        ensures follows { F.replaces → Holds F.contents (cluster_of self.old)
            → Follows F.contents (cluster_of self.old) (journal_of self.old)
            → Follows F.contents (cluster_of self.new) (journal_of self.new) }
        ensures journal { journal_of self.new ≡ journal_of self.old }
    {
        keeps_following::<F>();
        let top = self.clients.top();
        let floor = self.collectors.greatest_floor();
        match self.rows.cluster.checkpoint(top, floor) {
            Ok(()) => Ok(()),
            Err(refusal) => Err(refusal),
        }
    }

    /// Flushes every tablet. No root is put, and the journal is kept.
    ///
    /// # Errors
    ///
    /// The same as a checkpoint's. Some of the tablets may be flushed.
    pub fn flush_all(&mut self) -> Result<(), Refusal>
        ensures flushes { FlushesAll F.contents F.faults self.old (done_of result) self.new }
        ensures refused { OnErr result
            (ActsAsCheckpoint F.Files M.MarkStore self.old result self.new) }
        // Where no root is put behind it, it is a checkpoint that got no memory for its root.
        ensures rootless { OnOk result
            (ActsAsCheckpoint F.Files M.MarkStore self.old (Err Refusal.NoMemory) self.new) }
        ensures shown { (st : State) → Shows F.contents self.old st
            → Shows F.contents self.new st }
    {
        keeps_following::<F>();
        root_outlasts_flushes::<F>();
        match self.rows.cluster.flush_each() {
            Ok(()) => Ok(()),
            Err(refusal) => Err(refusal),
        }
    }

    /// Puts the root of a server whose tablets were flushed: after `flush_all` it is a checkpoint. The journal is kept.
    /// Put or refused, the root has the name that `root_name` gives before it and after it.
    ///
    /// # Errors
    ///
    /// `Device` or `NoMemory`.
    pub fn put_flushed_root(&mut self) -> Result<(), Refusal>
        ensures checkpoints { (first : Server F M F.Writing)
            → FlushesAll F.contents F.faults first outcome.Done self.old
            → ActsAsCheckpoint F.Files M.MarkStore first result self.new }
        ensures shown { (st : State) → Shows F.contents self.old st
            → Shows F.contents (forgets self.new) st }
        ensures refusal { IfErr result IsStorageRefusal }
        ensures spots { spots_of (cluster_of self.new) ≡ spots_of (cluster_of self.old) }
        ensures journal { journal_of self.new ≡ journal_of self.old }
        ensures next { next_root self.new ≡ next_root self.old }
    {
        keeps_following::<F>();
        root_is_stored::<F>();
        root_outlasts_flushes::<F>();
        let top = self.clients.top();
        let floor = self.collectors.greatest_floor();
        match self.rows.cluster.put_root(top, floor) {
            Ok(()) => Ok(()),
            Err(refusal) => Err(refusal),
        }
    }

    /// Answers a Checkpoint. The journal is dropped: after a failed put, the root on disk may be one that the journal
    /// does not continue.
    pub(crate) fn checkpoint(&mut self) -> Reply
        ensures { IsPlainAnswer F.Files M.MarkStore self.old Request.Checkpoint result self.new }
    {
        let put = self.put_root();
        self.rows.forget();
        match put {
            Ok(()) => Reply::Checkpoint,
            Err(refusal) => Reply::Refused(refusal),
        }
    }

    pub(crate) fn raw(
        &mut self,
        row: &[u8],
        family: &[u8],
        qualifier: Qualifier,
        lo: Stamp,
        hi: Stamp,
    ) -> Reply
        ensures { IsPlainAnswer F.Files M.MarkStore self.old
            (Request.Raw row.entry family.entry qualifier lo hi) result self.new }
    {
        keeps_following::<F>();
        let row = match Row::new(self.alloc, row) {
            Ok(row) => row,
            Err(refusal) => return Reply::Refused(refusal),
        };
        let family = match Family::new(self.alloc, family) {
            Ok(family) => family,
            Err(refusal) => return Reply::Refused(refusal),
        };
        root_is_stored::<F>();
        match self.rows.cluster.newest(&row, &family, qualifier, lo, hi) {
            Ok(found) => Reply::Raw(found),
            Err(refusal) => Reply::Refused(refusal),
        }
    }
}
