//! A server whose answers survive a kill: their edits and a mark over their stamps are in a log before a reply is
//! written.

ghost use Rattle.std.specs.Prelude.{◌≡◌, ◌≤◌, ◌<◌, ◌^◌, ◌⊎◌, ◌↔◌, [], true, false, IfErr, IfNone, IfSome, IsErrOf, IsTrue, OnErr, OnOk, ℕ, List};
ghost use Rattle.cell_key.specs.Cells.{Cells};
ghost use Rattle.cell_key.specs.Faults.{HasReason};
ghost use Rattle.commit_log.specs.Edits.{LogsEdits};
ghost use Rattle.commit_log.specs.Held.{Gains, Keeps, MayGain, MayRenew, Renews};
ghost use Rattle.request_codec.specs.Answers.{answer_of, HoldsAnswerWithinLimits};
ghost use Rattle.request_codec.specs.Operations.{operation_of};
ghost use Rattle.request_codec.specs.Replies.{replied, HoldsWithinLimits};
ghost use Rattle.request_codec.specs.Requests.{asked};
ghost use Rattle.request_codec.specs.declared.replies.Reply.{Reply as CodecReply};
ghost use Rattle.durable.specs.Due.{IsDueAlike, IsRootDue, tried_at};
ghost use Rattle.durable.specs.Durability.{GoesOn, IsSettled, Settles};
ghost use Rattle.server_loop.specs.Commands.{checkpointed};
ghost use Rattle.durable.specs.Answers.{AnswersDurably, Checkpoints, HasNewRoot, HoldsLogged, HasFailed, IsDurableAnswer, KeepsJournal, LastsIn, Logs, MovesTablets, NamesItsRoot, NeedsLogRoom, NeedsRoom, ActsOnRoots, PutsRoot, RefusesRooted, StaysRooted, SweepsAfter, SweepsNow, named, shown_by};
ghost use Rattle.durable.specs.Visits.{AsksForFew, visits_of};
ghost use Rattle.metadata_table.specs.Roots.{RootView};
ghost use Rattle.server_loop.specs.Runs.{StepsAs};
ghost use Rattle.server_loop.specs.OperationLaws.{StandsForSeveral};
ghost use Rattle.si_model.specs.Machine.{IsReached, IsStorageRefusal, State, Checkpoint as CheckpointAsked};
ghost use Rattle.si_model.specs.Transactions.{One, Said};

use crate::journaled::Journaled;
use crate::recovery::refused_by;
use crate::stored_mark::StoredMark;
use cell_key::{MOST_STAMP, Refusal, Stamp};
use commit_log::laws::{as_many_edits, logs_edits, names_roots};
use commit_log::{BEFORE_BODY, Log, LogFault, RecordKind, is_over_any, root_sum_bytes};
use oracle::MarkStore;
use request_codec::{Answer, Operation, Reply, Request};
use server_loop::{FrameHandler, Handler, Incoming, ServeFault, answer_incoming};
use std::alloc::Global;

/// The growth of the journal, in bytes, after which a refused root is tried again.
const BETWEEN_TRIES: usize = 8_388_608;

/// The journal's size, in bytes, from which it may have no room to grow so much.
const NEARLY_FULL: usize = 50_331_648;

/// The number of requests that are answered, with such a journal, before a refused root is tried again.
const REQUESTS_BETWEEN: usize = 1_024;

/// The upper bound of the bytes of the edits that wait: that of a journal.
const MOST_WAITING_EDITS: usize = 67_108_864;

/// The upper bound of the bytes of the edits that a step of a session or a cleaner writes. These are the most if it
/// holds a cell: a put of 65,536 bytes of data, and one of a lock. Both have a row of 4,000 bytes, a family of 64 and 16
/// bytes of other fields. The lock's value has at most 8,069 bytes: the first cell's row of 4,000 zeros, which take two
/// each, its family, their ends and a kind.
const STEP_BYTES: usize = 81_765;

/// The upper bound of the bytes of the edits that a collector's visit writes: the erasures of 128 records and their
/// data, with 4,076 bytes each.
const VISIT_BYTES: usize = 1_043_456;

/// The bytes of two records in the log without the edits of the first: one with edits, and one that names a root, with a
/// checksum of 4 bytes.
const RECORD_BYTES: usize = 2 * BEFORE_BODY + 4;

/// A server with a log.
#[derive(Drop)]
pub struct DurableServer<S, M: MarkStore, L> {
    pub(crate) alloc: Global,
    pub(crate) server: S,
    /// No reply shows a stamp that isn't covered.
    pub(crate) marks: StoredMark<M>,
    pub(crate) log: L,
    /// The log failed, or its records are no longer known. No reply is written from then on.
    pub(crate) is_stopped: bool,
    /// The journal's size, in bytes, at which a root is put without a request.
    pub(crate) root_bytes: usize,
    /// The journal's size when such a root was last refused; 0 after one that was put.
    pub(crate) tried_bytes: usize,
    /// How many requests were answered since such a root was tried.
    pub(crate) answered: usize,
    /// Such a root is followed by a sweep.
    pub(crate) upkeep: bool,
}

/// The journal's size if the root was refused; 0 if it was put.
fn tried_after(done: &Result<(), Refusal>, written: usize) -> usize
    ensures { result ≡ tried_at (checkpointed done.now) written }
{
    match done {
        Ok(()) => 0,
        Err(_) => written,
    }
}

/// The most visits that a collector makes for a request.
const FEW_VISITS: u32 = 4;

/// The most visits that may be asked for.
const MOST_VISITS: u32 = 1000;

/// The number of visits for which the server inside is asked, for a request of so many: at most `FEW_VISITS`, or a number
/// that is refused.
fn few_visits(visits: u32) -> u32
    ensures { result ≡ visits_of visits }
{
    if visits <= FEW_VISITS || visits > MOST_VISITS {
        return visits;
    }
    FEW_VISITS
}

/// The bytes of edits for which a request gets room: the most that it writes.
fn most_edit_bytes(request: Request<'_>) -> usize {
    match request {
        Request::Begin => 0,
        Request::CollectStep { visits, .. } => visits.min(FEW_VISITS) as usize * VISIT_BYTES,
        _ => STEP_BYTES,
    }
}

/// Replaces all records of a log by the name of the current root, which has all of their edits.
///
/// # Errors
///
/// `NoMemory`; the log is unchanged. `Device` if the log failed.
fn renew_log<S: Journaled, L: Log>(server: &S, log: &mut L) -> Result<(), Refusal>
    ensures ok { OnOk result (Renews (L.holds log.old) (L.holds log.new) (named (S.view.next_root
        server.now))) }
    ensures err { OnErr result (MayRenew (L.holds log.old) (L.holds log.new) (named
        (S.view.next_root server.now))) }
    ensures unchanged { IsErrOf result Refusal.NoMemory
        → Keeps (L.holds log.old) (L.holds log.new) }
    ensures refusal { IfErr result (λ refusal.
        (refusal ≡ Refusal.Device) ⊎ (refusal ≡ Refusal.NoMemory)) }
    ensures later { L.faults log.old ≤ L.faults log.new }
{
    let name = match server.root_name() {
        Ok(name) => name,
        Err(refusal) => return Err(refusal),
    };
    match log.renew(RecordKind::Root, name.top, &root_sum_bytes(name.sum)) {
        Ok(()) => Ok(()),
        Err(LogFault::Memory) => Err(Refusal::NoMemory),
        Err(_) => Err(Refusal::Device),
    }
}

/// Appends the name of the root that would be put now to a log, which is over this root from then on.
///
/// # Errors
///
/// `NoMemory`; the log is unchanged. `Device` if the log failed.
fn log_root<S: Journaled, L: Log>(server: &S, log: &mut L) -> Result<(), Refusal>
    ensures ok { OnOk result (Gains (L.holds log.old) (L.holds log.new) (named (S.view.next_root
        server.now))) }
    ensures err { OnErr result (MayGain (L.holds log.old) (L.holds log.new) (named
        (S.view.next_root server.now))) }
    ensures unchanged { IsErrOf result Refusal.NoMemory
        → Keeps (L.holds log.old) (L.holds log.new) }
    ensures refusal { IfErr result (λ refusal.
        (refusal ≡ Refusal.Device) ⊎ (refusal ≡ Refusal.NoMemory)) }
    ensures later { L.faults log.old ≤ L.faults log.new }
{
    let name = match server.root_name() {
        Ok(name) => name,
        Err(refusal) => return Err(refusal),
    };
    match log.append(RecordKind::Root, name.top, &root_sum_bytes(name.sum)) {
        Ok(()) => Ok(()),
        Err(_) => Err(Refusal::Device),
    }
}

/// Makes room for a renewal of a log, which is otherwise unchanged.
///
/// # Errors
///
/// `Device` or `NoMemory`.
fn reserve_renewal<L: Log>(log: &mut L) -> Result<(), Refusal>
    ensures same { Keeps (L.holds log.old) (L.holds log.new) }
    ensures refusal { IfErr result (λ refusal.
        (refusal ≡ Refusal.Device) ⊎ (refusal ≡ Refusal.NoMemory)) }
    ensures reason { HasReason (L.faults log.old) (L.faults log.new) result }
{
    match log.reserve_renewal() {
        Ok(()) => Ok(()),
        Err(LogFault::Device) => Err(Refusal::Device),
        Err(_) => Err(Refusal::NoMemory),
    }
}

/// Makes room beside a log for so many bytes. The log is unchanged.
///
/// # Errors
///
/// `Device` or `NoMemory`.
fn reserve_beside<L: Log>(log: &mut L, len: usize) -> Result<(), Refusal>
    ensures same { Keeps (L.holds log.old) (L.holds log.new) }
    ensures refusal { IfErr result (λ refusal.
        (refusal ≡ Refusal.Device) ⊎ (refusal ≡ Refusal.NoMemory)) }
    ensures reason { HasReason (L.faults log.old) (L.faults log.new) result }
{
    match log.reserve_beside(len) {
        Ok(()) => Ok(()),
        Err(LogFault::Device) => Err(Refusal::Device),
        Err(_) => Err(Refusal::NoMemory),
    }
}

/// Makes room for a root of so many bytes, and for the renewal of a log by its name. The log is otherwise unchanged.
///
/// # Errors
///
/// `Device` or `NoMemory`.
fn reserve_root<L: Log>(log: &mut L, len: usize) -> Result<(), Refusal>
    ensures same { Keeps (L.holds log.old) (L.holds log.new) }
    ensures refusal { IfErr result (λ refusal.
        (refusal ≡ Refusal.Device) ⊎ (refusal ≡ Refusal.NoMemory)) }
    ensures reason { HasReason (L.faults log.old) (L.faults log.new) result }
{
    match reserve_renewal(log) {
        Ok(()) => reserve_beside(log, len),
        Err(refusal) => Err(refusal),
    }
}

impl<S: Journaled, M: MarkStore, L: Log> DurableServer<S, M, L> {
    /// Whether the log can take edits and a mark over the last stamp: it hasn't failed, and edits are recorded. The last
    /// stamp is never above the greatest one.
    fn can_log(&self, last: Stamp) -> bool
        ensures { IsTrue result ↔ (self.now.is_stopped ≡ false)
            × (S.view.recording self.now.server ≡ true) × (last < 2 ^ 63) }
    {
        !self.is_stopped && self.server.is_recording() && last <= MOST_STAMP
    }

    /// Whether no edits wait for the log, and this stamp is covered.
    fn is_logged(&self, last: Stamp) -> bool
        ensures { IsTrue result ↔ (S.view.waiting self.now.server ≡ [])
            × (last ≤ self.now.marks.covered) }
    {
        self.server.waiting().is_empty() && last <= self.marks.covered()
    }

    /// Appends the waiting edits to the log, with a mark over the last stamp. Tells whether the log has them; if not,
    /// the server is stopped.
    fn log_waiting(&mut self) -> bool
        ensures shown { (st : State) → S.shows self.old.server st → S.shows self.new.server st }
        ensures same { S.view.same self.old.server self.new.server }
        ensures stays { StaysRooted S.view self.old.server self.new.server }
        ensures recording { result ≡ true → S.view.recording self.new.server ≡ true }
        ensures waiting { result ≡ true → S.view.waiting self.new.server ≡ [] }
        ensures covered { result ≡ true → S.view.last self.new.server ≤ self.new.marks.covered }
        ensures on { result ≡ true → self.new.is_stopped ≡ false }
        ensures still { self.old.is_stopped ≡ true → self.new.is_stopped ≡ true }
        ensures ok { result ≡ true → (now : State) → S.shows self.old.server now
            → Logs S.view L.Log self.old → ((root : RootView)
            × S.view.is_rooted self.new.server root × HoldsLogged S.view L.Log self.new root)
            × ((st : State) → S.shows self.new.server st → LastsIn S.view L.Log self.new st) }
        ensures stopped { result ≡ false → self.new.is_stopped ≡ true }
        ensures err { result ≡ false → (now : State) → S.shows self.old.server now
            → Logs S.view L.Log self.old → (st : State) → LastsIn S.view L.Log self.old st
            → LastsIn S.view L.Log self.new st ⊎ LastsIn S.view L.Log self.new now }
        ensures marks { self.new.marks.marks ≡ self.old.marks.marks }
        ensures later { L.faults self.old.log ≤ L.faults self.new.log }
        ensures due { IsDueAlike self.old self.new }
    {
        as_many_edits();
        logs_edits();
        names_roots();
        S::journal_laws();
        let last = self.server.last();
        if !self.can_log(last) {
            self.is_stopped = true;
            return false;
        }
        if self.is_logged(last) {
            return true;
        }
        let mark = self.marks.mark_over(last);
        match self
            .log
            .append(RecordKind::Edits, mark, self.server.waiting())
        {
            Ok(()) => {
                self.server.settled();
                self.marks.cover(mark);
                true
            }
            Err(_) => {
                self.is_stopped = true;
                false
            }
        }
    }

    /// Replaces the log by the name of a new root, which has all of the log's edits, and empties the journal.
    ///
    /// # Errors
    ///
    /// `NoMemory`; log and journal are unchanged. `Device` if the log failed: the server is stopped.
    fn empty_log(&mut self) -> Result<(), Refusal>
        ensures shown { S.view.is_clean self.old.server → (st : State) → S.shows self.old.server st
            → S.shows self.new.server st }
        ensures same { S.view.same self.old.server self.new.server }
        ensures stays { StaysRooted S.view self.old.server self.new.server }
        ensures clean { S.view.is_clean self.old.server → S.view.is_clean self.new.server }
        ensures recording { S.view.recording self.new.server ≡ S.view.recording self.old.server }
        ensures waiting { S.view.waiting self.old.server ≡ []
            → S.view.waiting self.new.server ≡ [] }
        ensures named { OnOk result (Renews (L.holds self.old.log) (L.holds self.new.log) (named
            (S.view.next_root self.old.server))) }
        ensures stopped { IsErrOf result Refusal.Device → self.new.is_stopped ≡ true }
        ensures refusal { IfErr result (λ refusal.
            (refusal ≡ Refusal.Device) ⊎ (refusal ≡ Refusal.NoMemory)) }
        ensures kept { (st : State) → HasNewRoot S.view (S.view.next_root self.old.server)
            self.old.server st → HoldsLogged S.view L.Log self.old (S.view.next_root
            self.old.server) → S.view.last self.old.server ≤ self.old.marks.stored
            → self.old.marks.covered ≤ self.old.marks.stored → LastsIn S.view L.Log self.old st
            → LastsIn S.view L.Log self.new st × Logs S.view L.Log self.new }
        ensures marks { self.new.marks ≡ self.old.marks }
        ensures last { S.view.last self.new.server ≡ S.view.last self.old.server }
        ensures on { OnOk result (self.new.is_stopped ≡ self.old.is_stopped) }
        ensures later { L.faults self.old.log ≤ L.faults self.new.log }
        ensures due { IsDueAlike self.old self.new }
    {
        logs_edits();
        names_roots();
        S::journal_laws();
        match renew_log(&self.server, &mut self.log) {
            Ok(()) => {
                self.server.emptied();
                Ok(())
            }
            Err(Refusal::NoMemory) => Err(Refusal::NoMemory),
            Err(_) => {
                self.is_stopped = true;
                Err(Refusal::Device)
            }
        }
    }

    /// Flushes every tablet, and appends the name of the root that is put next to the log. From then on the log is over
    /// the old root and over this one.
    ///
    /// # Errors
    ///
    /// Those of a flush, and `NoMemory` if the allocation for the name failed; the log is unchanged. `Device` also if the
    /// log failed: the server is stopped.
    fn name_next_root(&mut self) -> Result<(), Refusal>
        ensures flushed { OnOk result (S.calls.flushes self.old.server self.new.server) }
        ensures ok { OnOk result (Gains (L.holds self.old.log) (L.holds self.new.log) (named
            (S.view.next_root self.new.server))) }
        ensures err { OnErr result (MayGain (L.holds self.old.log) (L.holds self.new.log) (named
            (S.view.next_root self.new.server))) }
        ensures unchanged { OnErr result ((self.new.is_stopped ≡ true)
            ⊎ Keeps (L.holds self.old.log) (L.holds self.new.log)) }
        ensures answered { OnErr result (PutsRoot S.view S.calls (self.new.is_stopped ≡ true) ⊥
            self.old.server (checkpointed result) self.new.server) }
        ensures step { OnErr result (StepsAs S.shows self.old.server self.new.server CheckpointAsked
            (replied (checkpointed result))) }
        ensures refusal { IfErr result IsStorageRefusal }
        ensures shown { (st : State) → S.shows self.old.server st → S.shows self.new.server st }
        ensures keeps { KeepsJournal S.view self.old.server self.new.server }
        ensures stays { StaysRooted S.view self.old.server self.new.server }
        ensures marks { self.new.marks ≡ self.old.marks }
        ensures on { OnOk result (self.new.is_stopped ≡ self.old.is_stopped) }
        ensures later { L.faults self.old.log ≤ L.faults self.new.log }
        ensures due { IsDueAlike self.old self.new }
    {
        match self.server.flush_now() {
            Ok(()) => match log_root(&self.server, &mut self.log) {
                Ok(()) => Ok(()),
                Err(Refusal::NoMemory) => Err(Refusal::NoMemory),
                Err(_) => {
                    self.is_stopped = true;
                    Err(Refusal::Device)
                }
            },
            Err(refusal) => Err(refusal),
        }
    }

    /// Appends the waiting edits to the log, puts a root that keeps the state that is shown, and drops the edits that
    /// the root has from the log. Before the root is put, the log gets room for its renewal, the greatest covered stamp
    /// is stored as the mark, the tablets are flushed, and the root's name is appended to the log.
    ///
    /// # Errors
    ///
    /// Those of a checkpoint; before a tablet is flushed, `Device` or `NoMemory` if the log got no room for its renewal,
    /// and `Device` if the mark wasn't stored; `NoMemory` also if an allocation for the root's name failed: if that is
    /// before the root is put, the log stays over the old root, and else over both. `Device` also if the log failed: the
    /// server is stopped.
    fn root(&mut self) -> Result<(), Refusal>
        ensures step { StepsAs (shown_by S.shows) self.old self.new CheckpointAsked
            (replied (checkpointed result)) }
        ensures refusal { IfErr result IsStorageRefusal }
        ensures settles { Settles (shown_by S.shows) (LastsIn S.view L.Log) (Logs S.view L.Log)
            self.old self.new }
        ensures answered { PutsRoot S.view S.calls (self.new.is_stopped ≡ true) (HasFailed
            M.MarkStore L.Log self.old self.new) self.old.server (checkpointed result)
            self.new.server }
        ensures done { OnOk result (Checkpoints S.view S.calls self.old.server CodecReply.Checkpoint
            self.new.server) }
        ensures named { OnOk result ((now : State) → S.shows self.old.server now
            → Logs S.view L.Log self.old → NamesItsRoot (L.holds self.new.log)) }
        ensures clean { OnOk result ((now : State) → S.shows self.old.server now
            → S.view.is_clean self.new.server) }
        ensures covered { OnOk result (S.view.last self.new.server ≤ self.new.marks.covered) }
        ensures kept { OnOk result ((now : State) → S.shows self.old.server now
            → Logs S.view L.Log self.old → LastsIn S.view L.Log self.new now
            × (S.view.recording self.new.server ≡ true) × (S.view.waiting self.new.server ≡ [])) }
        ensures on { OnOk result (self.new.is_stopped ≡ false) }
        ensures later { L.faults self.old.log ≤ L.faults self.new.log }
        ensures due { IsDueAlike self.old self.new }
    {
        logs_edits();
        names_roots();
        S::journal_laws();
        if !self.log_waiting() {
            return Err(Refusal::Device);
        }
        reserve_renewal(&mut self.log)?;
        if self.marks.store().is_err() {
            return Err(Refusal::Device);
        }
        self.name_next_root()?;
        match self.server.put_root_now() {
            Ok(()) => self.empty_log(),
            Err(refusal) => Err(refusal),
        }
    }

    /// Puts a root, and then makes room for a second one, which is put after a split or a move.
    ///
    /// # Errors
    ///
    /// Those of `root`. After the first root was put, `Device` or `NoMemory` if there is no room for the second.
    fn root_with_room(&mut self) -> Result<(), Refusal>
        ensures step { StepsAs (shown_by S.shows) self.old self.new CheckpointAsked
            (replied (checkpointed result)) }
        ensures refusal { IfErr result IsStorageRefusal }
        ensures settles { Settles (shown_by S.shows) (LastsIn S.view L.Log) (Logs S.view L.Log)
            self.old self.new }
        ensures done { OnOk result (Checkpoints S.view S.calls self.old.server CodecReply.Checkpoint
            self.new.server) }
        ensures refused { IfErr result (λ refusal. RefusesRooted S.view S.calls
            (self.new.is_stopped ≡ true) (HasFailed M.MarkStore L.Log self.old self.new)
            self.old.server refusal self.new.server) }
        ensures covered { OnOk result (S.view.last self.new.server ≤ self.new.marks.covered) }
        ensures kept { OnOk result ((now : State) → S.shows self.old.server now
            → Logs S.view L.Log self.old → LastsIn S.view L.Log self.new now
            × (S.view.recording self.new.server ≡ true) × (S.view.waiting self.new.server ≡ [])) }
    {
        logs_edits();
        names_roots();
        match self.root() {
            Ok(()) => {
                let len = self.server.next_root_bytes();
                reserve_root(&mut self.log, len)
            }
            Err(refusal) => Err(refusal),
        }
    }

    /// Puts a root after tablets were moved, while no edits wait, in the room that was made for it. If it is refused, the
    /// server is stopped; if only the allocation for its name alone in the log fails, the log stays over the old root too.
    fn root_moved(&mut self)
        ensures shown { (st : State) → S.shows self.old.server st → S.shows self.new.server st }
        ensures answered { (reply : CodecReply) × PutsRoot S.view S.calls (self.new.is_stopped ≡
            true) ⊥ self.old.server reply self.new.server }
        ensures kept { (before after : State) (root : RootView) → S.shows self.old.server after
            → HoldsLogged S.view L.Log self.old root → S.view.waiting self.old.server ≡ []
            → S.view.recording self.old.server ≡ true → S.view.last self.old.server ≤
            self.old.marks.covered → LastsIn S.view L.Log self.old before
            → (LastsIn S.view L.Log self.new before ⊎ LastsIn S.view L.Log self.new after)
            × Logs S.view L.Log self.new }
    {
        logs_edits();
        names_roots();
        S::journal_laws();
        if reserve_renewal(&mut self.log).is_err() {
            self.is_stopped = true;
            return;
        }
        if self.marks.store().is_err() {
            self.is_stopped = true;
            return;
        }
        if self.name_next_root().is_err() {
            self.is_stopped = true;
            return;
        }
        self.log.release_beside();
        match self.server.put_root_now() {
            Ok(()) => {
                let _ = self.empty_log();
            }
            Err(_) => self.is_stopped = true,
        }
    }

    /// Puts a root if the log is over any root, so that from then on the log names its root.
    ///
    /// # Errors
    ///
    /// Those of a checkpoint, and `Device` or `NoMemory` if the log can't be read. The log may then still be over any root.
    pub fn name_root(&mut self) -> Result<(), Refusal>
        ensures settles { Settles (shown_by S.shows) (LastsIn S.view L.Log) (Logs S.view L.Log)
            self.old self.new }
        ensures rooted { S.view.same self.old.server self.new.server
            ⊎ PutsRoot S.view S.calls (self.new.is_stopped ≡ true) (HasFailed M.MarkStore L.Log
            self.old self.new) self.old.server (checkpointed result) self.new.server }
        ensures named { OnOk result ((now : State) (root : RootView) → S.shows self.old.server now
            → S.view.is_rooted self.old.server root → HoldsLogged S.view L.Log self.old root
            → NamesItsRoot (L.holds self.new.log)) }
        ensures refusal { IfErr result IsStorageRefusal }
    {
        logs_edits();
        names_roots();
        S::journal_laws();
        let records = match self.log.records() {
            Ok(records) => records,
            Err(fault) => return Err(refused_by(fault)),
        };
        if is_over_any(&records) {
            return self.root();
        }
        Ok(())
    }

    /// Removes the files that neither a tablet nor the root has, and answers how many they were. No root is put, so it
    /// needs no room. Without a journal nothing is done, and the server is stopped.
    ///
    /// # Errors
    ///
    /// `Device` or `NoMemory`; `Device` also without a journal. Some of the files may already be removed.
    fn sweep_files(&mut self) -> Result<u64, Refusal>
        ensures swept { SweepsNow S.calls (self.new.is_stopped ≡ true) self.old.server result
            self.new.server }
        ensures settles { Settles (shown_by S.shows) (LastsIn S.view L.Log) (Logs S.view L.Log)
            self.old self.new }
        ensures refusal { IfErr result IsStorageRefusal }
        ensures whole { (st : State) → S.shows self.old.server st
            → ¬ IsErrOf result Refusal.Damaged }
        ensures marks { self.new.marks ≡ self.old.marks }
        ensures log { self.new.log ≡ self.old.log }
        ensures still { self.old.is_stopped ≡ true → self.new.is_stopped ≡ true }
        ensures due { IsDueAlike self.old self.new }
    {
        logs_edits();
        names_roots();
        if !self.server.is_recording() {
            self.is_stopped = true;
            return Err(Refusal::Device);
        }
        self.server.sweep_now()
    }

    /// With upkeep, sweeps after a root that was put. A refusal is not reported.
    fn sweep_after(&mut self, done: &Result<(), Refusal>)
        ensures swept { SweepsAfter S.calls (self.new.is_stopped ≡ true) self.old.upkeep
            (checkpointed done.now) self.old.server self.new.server }
        ensures settles { Settles (shown_by S.shows) (LastsIn S.view L.Log) (Logs S.view L.Log)
            self.old self.new }
        ensures marks { self.new.marks ≡ self.old.marks }
        ensures log { self.new.log ≡ self.old.log }
        ensures still { self.old.is_stopped ≡ true → self.new.is_stopped ≡ true }
        ensures due { IsDueAlike self.old self.new }
    {
        match done {
            Ok(()) if self.upkeep => {
                let _ = self.sweep_files();
            }
            _ => {}
        }
    }

    /// Answers a sweep.
    fn sweep(&mut self) -> Reply
        ensures limits { HoldsWithinLimits (replied result) }
        ensures says { IsDurableAnswer S.view S.calls S.shows S.says M.MarkStore L.Log self.old
            (Operation.One Request.Sweep) (Answer.Said result) self.new }
    {
        match self.sweep_files() {
            Ok(count) => Reply::Sweep(count),
            Err(refusal) => Reply::Refused(refusal),
        }
    }

    /// Splits or moves a tablet, and puts a root before and after. If there is no room for the second root, the request is
    /// refused after the first, and no tablet is changed.
    fn rearrange(&mut self, request: Request<'_>) -> Reply
        requires { MovesTablets request }
        ensures limits { HoldsWithinLimits (replied result) }
        ensures says { IsDurableAnswer S.view S.calls S.shows S.says M.MarkStore L.Log self.old
            (Operation.One request.entry) (Answer.Said result) self.new }
    {
        logs_edits();
        names_roots();
        S::journal_laws();
        match self.root_with_room() {
            Ok(()) => {
                let reply = self.server.reply_to(request);
                if !self.is_stopped {
                    self.root_moved();
                }
                reply
            }
            Err(refusal) => Reply::Refused(refusal),
        }
    }

    /// Answers a checkpoint.
    fn checkpoint(&mut self) -> Reply
        ensures limits { HoldsWithinLimits (replied result) }
        ensures says { IsDurableAnswer S.view S.calls S.shows S.says M.MarkStore L.Log self.old
            (Operation.One Request.Checkpoint) (Answer.Said result) self.new }
    {
        match self.root() {
            Ok(()) => Reply::Checkpoint,
            Err(refusal) => Reply::Refused(refusal),
        }
    }

    /// Whether a root is due without a request. A refused one is tried again once the journal has grown by 8,388,608
    /// bytes, or has shrunk, since then a root was put meanwhile. From 50,331,648 bytes on, 1,024 requests are enough.
    fn is_root_due(&self, written: usize) -> bool
        ensures { IsTrue result ↔ IsRootDue self.now written }
    {
        written >= self.root_bytes
            && (written < self.tried_bytes
                || self.tried_bytes == 0
                || written - self.tried_bytes >= BETWEEN_TRIES
                || (written >= NEARLY_FULL && self.answered >= REQUESTS_BETWEEN))
    }

    /// Lets the server inside answer a request that needs no root.
    fn answer_inside(&mut self, request: Request<'_>) -> Reply
        requires { ¬ ActsOnRoots request }
        ensures limits { HoldsWithinLimits (replied result) }
        ensures says { S.says self.old.server (Operation.One request.entry) (Answer.Said result)
            self.new.server }
        ensures log { self.new.log ≡ self.old.log }
        ensures goes_on { GoesOn (shown_by S.shows) (LastsIn S.view L.Log) (Logs S.view L.Log) (One
            (asked request.entry)) (Said (replied result)) self.old self.new }
    {
        logs_edits();
        names_roots();
        S::journal_laws();
        self.server.reply_to(request)
    }

    /// The bytes for which the log must have room before a request that needs room is answered: a record of the edits
    /// that wait and those of the request, with a mark, and a record that names a root.
    fn bytes_needed(&self, request: Request<'_>) -> usize {
        let edits = self
            .server
            .waiting()
            .len()
            .saturating_add(most_edit_bytes(request));
        edits.min(MOST_WAITING_EDITS) + RECORD_BYTES
    }

    /// Answers a request that may write edits or draw a stamp, if the log has room for what it records.
    fn answer_with_room(&mut self, request: Request<'_>) -> Reply
        requires needs { NeedsRoom request }
        requires few { AsksForFew request }
        ensures limits { HoldsWithinLimits (replied result) }
        ensures says { IsDurableAnswer S.view S.calls S.shows S.says M.MarkStore L.Log self.old
            (Operation.One request.entry) (Answer.Said result) self.new }
    {
        logs_edits();
        names_roots();
        S::journal_laws();
        let needed = self.bytes_needed(request);
        match self.log.reserve(needed) {
            Ok(()) => self.answer_inside(request),
            Err(LogFault::Device) => Reply::Refused(Refusal::Device),
            Err(_) => Reply::Refused(Refusal::NoMemory),
        }
    }

    /// Answers a collector's step, by so few visits that the log can have room for all that they write.
    fn collect_step(&mut self, collector: u64, visits: u32) -> Reply
        ensures limits { HoldsWithinLimits (replied result) }
        ensures says { IsDurableAnswer S.view S.calls S.shows S.says M.MarkStore L.Log self.old
            (Operation.One (Request.CollectStep collector visits)) (Answer.Said result) self.new }
    {
        self.answer_with_room(Request::CollectStep {
            collector,
            visits: few_visits(visits),
        })
    }

    /// The bytes for which the log must have room before an operation of several cells is answered, if it needs any.
    fn room_for(&self, operation: &Operation<'_>) -> Option<usize>
        requires { StandsForSeveral (operation_of operation.now) }
        ensures needs { IfSome result (λ _. NeedsLogRoom operation.now) }
        ensures none { IfNone result (¬ NeedsLogRoom operation.now) }
    {
        let edits = match operation {
            Operation::Commit { start, writes } => self.server.commit_bytes(*start, writes),
            Operation::Read { start: 0, .. } => 0,
            _ => return None,
        };
        let waiting = self.server.waiting().len().saturating_add(edits);
        Some(waiting.min(MOST_WAITING_EDITS) + RECORD_BYTES)
    }

    /// Lets the server inside answer an operation of several cells.
    fn answer_several(&mut self, operation: Operation<'_>) -> Answer
        requires { StandsForSeveral (operation_of operation) }
        ensures limits { HoldsAnswerWithinLimits (answer_of result) }
        ensures says { S.says self.old.server operation.entry result self.new.server }
        ensures log { self.new.log ≡ self.old.log }
        ensures goes_on { GoesOn (shown_by S.shows) (LastsIn S.view L.Log) (Logs S.view L.Log)
            (operation_of operation.entry) (answer_of result) self.old self.new }
    {
        logs_edits();
        names_roots();
        S::journal_laws();
        self.server.answer_to(operation)
    }

    /// Answers an operation of several cells, if the log has room for what it records.
    fn answer_at_once(&mut self, operation: Operation<'_>) -> Answer
        requires { StandsForSeveral (operation_of operation) }
        ensures limits { HoldsAnswerWithinLimits (answer_of result) }
        ensures says { IsDurableAnswer S.view S.calls S.shows S.says M.MarkStore L.Log self.old
            operation.entry result self.new }
    {
        logs_edits();
        names_roots();
        S::journal_laws();
        let Some(needed) = self.room_for(&operation) else {
            return self.answer_several(operation);
        };
        match self.log.reserve(needed) {
            Ok(()) => self.answer_several(operation),
            Err(LogFault::Device) => Answer::Said(Reply::Refused(Refusal::Device)),
            Err(_) => Answer::Said(Reply::Refused(Refusal::NoMemory)),
        }
    }

    /// Answers a request that needs no root and no room in the log.
    fn answer_plainly(&mut self, request: Request<'_>) -> Reply
        requires rootless { ¬ ActsOnRoots request }
        requires roomless { ¬ NeedsRoom request }
        ensures limits { HoldsWithinLimits (replied result) }
        ensures says { IsDurableAnswer S.view S.calls S.shows S.says M.MarkStore L.Log self.old
            (Operation.One request.entry) (Answer.Said result) self.new }
    {
        self.answer_inside(request)
    }
}

impl<S: Journaled, M: MarkStore, L: Log> Handler for DurableServer<S, M, L> {
    ghost use Rattle.durable.specs.Answers.{IsDurableAnswer, IsDurablyTended, LastsIn, Logs, shown_by};

    ghost shows = { shown_by S.shows };

    ghost says = { IsDurableAnswer S.view S.calls S.shows S.says M.MarkStore L.Log };

    ghost between = { IsDurablyTended S.view S.calls S.shows S.between M.MarkStore L.Log };

    fn reply_to(&mut self, request: Request<'_>) -> Reply {
        match request {
            Request::Checkpoint => self.checkpoint(),
            Request::Sweep => self.sweep(),
            Request::Split { .. } | Request::Move { .. } => self.rearrange(request),
            Request::CollectStep { collector, visits } => self.collect_step(collector, visits),
            Request::Begin | Request::Step { .. } | Request::CleanStep { .. } => {
                self.answer_with_room(request)
            }
            _ => self.answer_plainly(request),
        }
    }

    fn answer_to(&mut self, operation: Operation<'_>) -> Answer {
        match &operation {
            Operation::One(request) => Answer::Said(self.reply_to(*request)),
            Operation::Commit { .. } | Operation::Read { .. } => self.answer_at_once(operation),
        }
    }

    fn tend(&mut self) {
        logs_edits();
        names_roots();
        S::journal_laws();
        self.server.tend();
        let written = self.server.written();
        if self.is_root_due(written) {
            let done = self.root();
            self.tried_bytes = tried_after(&done, written);
            self.answered = 0;
            self.sweep_after(&done);
        } else {
            self.answered = self.answered.saturating_add(1);
        }
    }
}

impl<S: Journaled, M: MarkStore, L: Log> FrameHandler for DurableServer<S, M, L> {
    ghost use Rattle.durable.specs.Durability.{FailsToSettle, SettlesAnswers};
    ghost use Rattle.durable.specs.Answers.{IsDurableAnswer, IsDurablyTended, LastsIn, Logs, shown_by};
    ghost use Rattle.server_loop.specs.Batches.{IsAnswered};
    ghost use Rattle.std.proofs.Common.{inl, inr};

    ghost answers = { IsAnswered (shown_by S.shows)
        (IsDurableAnswer S.view S.calls S.shows S.says M.MarkStore L.Log)
        (IsDurablyTended S.view S.calls S.shows S.between M.MarkStore L.Log) };

    ghost settles = { SettlesAnswers (shown_by S.shows)
        (IsDurablyTended S.view S.calls S.shows S.between M.MarkStore L.Log)
        (LastsIn S.view L.Log) (Logs S.view L.Log) };

    ghost fails = { FailsToSettle (shown_by S.shows)
        (IsDurablyTended S.view S.calls S.shows S.between M.MarkStore L.Log)
        (LastsIn S.view L.Log) (Logs S.view L.Log) };

    ghost joins = { λ first mid new taken body is after. record {
      mid = is.mid;
      reply = is.reply;
      is_body = is.is_body;
      run = is.run;
      said = is.said;
      tended = elim after [
        | inl done ↦ done.joins is.mid is.tended
        | inr failed ↦ failed.joins is.mid is.tended
      ];
      shown = elim after [
        | inl done ↦ λ st shows. done.shown st (is.shown st shows)
        | inr failed ↦ λ st shows. failed.shown st (is.shown st shows)
      ];
    } };

    fn answer(&mut self, incoming: Incoming<'_>, waiting: &mut Vec<u8>) {
        answer_incoming(self.alloc, self, incoming, waiting);
    }

    fn settle(&mut self) -> Result<(), ServeFault> {
        if self.log_waiting() {
            Ok(())
        } else {
            Err(ServeFault::Log)
        }
    }
}
