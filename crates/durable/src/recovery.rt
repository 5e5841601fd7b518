//! Opening a server with a log on the devices that a kill left.

ghost use Rattle.std.specs.Prelude.{◌≡◌, ◌≢◌, ◌<◌, ◌≤◌, ◌⊎◌, ◌↔◌, ◌+◌, ◌^◌, ℕ, Option, List, IfErr, IfOk, IfSome, IsErrOf, IsOk, IsSome, IsTrue, MatchResult, None, OnOk, Some, false, is_some, length, true, []};
ghost use Rattle.std.specs.FinMap.{empty, get};
ghost use Rattle.std.specs.List.{AllByRecursion};
ghost use Rattle.cell_key.specs.Cells.{Cells, after_edits};
ghost use Rattle.cell_key.specs.Faults.{HasReason, HasRisen};
ghost use Rattle.cell_key.specs.declared.edits.Edit.{Edit as CellEdit};
ghost use Rattle.commit_log.specs.Edits.{HoldEdits, IsStoredEdit};
ghost use Rattle.commit_log.specs.Frames.{bytes_of};
ghost use Rattle.commit_log.specs.Held.{Keeps};
ghost use Rattle.commit_log.specs.Records.{AreUpTo, HasRecord, IsGreatest, any_root};
ghost use Rattle.file_store.specs.Store.{Contents};
ghost use Rattle.metadata_table.specs.Roots.{RootView};
ghost use Rattle.row_atomic.specs.Changes.{Holds, IsEmptied};
ghost use Rattle.row_atomic.specs.Clusters.{spots_of};
ghost use Rattle.row_atomic.specs.Commands.{cells_shown};
ghost use Rattle.row_atomic.specs.Journals.{HasRoomFor, empty_journal};
ghost use Rattle.row_atomic.specs.Open.{IsDamaged};
ghost use Rattle.rows.specs.Refusals.{IsApplyRefusal, IsReadRefusal};
ghost use Rattle.row_atomic.specs.Roots.{KeepsCells, root_at, root_name};
ghost use Rattle.si_model.specs.Machine.{IsReached, IsStorageRefusal, State, new_machine, reopened};
ghost use Rattle.sorted_file.specs.Limits.{IsFileLimit};
ghost use Rattle.si_model.specs.ShowsCells.{ShowsCells};
ghost use Rattle.durable.specs.Devices.{Covers, CoversWith, IsOver, KeepsUnder, LastsOn, most_stamp};
ghost use Rattle.durable.specs.Durability.{IsSettled};
ghost use Rattle.durable.specs.Recovery.{AreWhole, HasRootFile, IsLostLog, IsOpeningRefusal, LacksBase, NamesTop, OpensFrom, OpensNew, ServesFrom, log_refusal, refused_with};
ghost use Rattle.durable.specs.Answers.{HoldsLogged, LastsIn, Logs, shown_by};
ghost use Rattle.server_loop.specs.Opening.{IsLost, LacksRoot};
ghost use Rattle.durable.specs.Replay.{FollowsLog, ShowsRoot};
ghost use Rattle.durable.specs.StoredMarks.{IsMarkOf};
ghost use Rattle.server_loop.specs.Server.{IsConfig, cluster_of, last_of, machine_places, rows_of, tending_of};
ghost use Rattle.server_loop.specs.Tending.{no_debt};

use crate::atomic_put::AtomicPut;
use crate::journaled::Journaled;
use crate::replay::replay;
use crate::server::DurableServer;
use crate::stored_mark::StoredMark;
use cell_key::{Edit, MOST_STAMP, Refusal, Stamp};
use commit_log::laws::{as_many_edits, logs_edits, names_roots};
use commit_log::{Log, LogFault, edits_in, greatest_stamp, is_over_any, names_root};
use file_store::Files;
use metadata_table::one_root;
use oracle::{MarkStore, MemMark, Oracle};
use row_atomic::{Cluster, ROOT_NAME, Recorded, keeps_following};
use server_loop::{Config, Server};
use si_model::{recovers, shows_reopened};
use sorted_file::refusal_of;
use std::alloc::Global;

/// The journal's size at which a root is put without a request, by default.
const ROOT_BYTES: usize = 33_554_432;

/// The refusal of a fault of a log.
pub(crate) fn refused_by(fault: LogFault) -> Refusal
    ensures { result ≡ log_refusal fault }
{
    match fault {
        LogFault::Device => Refusal::Device,
        LogFault::Memory => Refusal::NoMemory,
        LogFault::Damaged => Refusal::Damaged,
        LogFault::Refused => Refusal::Device,
    }
}

/// The records that a log holds, and the edits in them.
///
/// # Errors
///
/// `Damaged` if its records are no edits within the limits; `Device` and `NoMemory`.
fn logged_on<L: Log>(alloc: Global, log: &mut L) -> Result<(Vec<Vec<u8>>, Vec<Edit>), Refusal>
    ensures records { IfOk result (λ logged. (records : List (List ℕ)) → L.holds log.old records
        → bytes_of logged.0.items ≡ records) }
    ensures held { IfOk result (λ logged. HoldEdits (bytes_of logged.0.items) logged.1.items) }
    ensures stored { IfOk result (λ logged. AllByRecursion IsStoredEdit logged.1.items) }
    ensures same { Keeps (L.holds log.old) (L.holds log.new) }
    ensures damaged { IsErrOf result Refusal.Damaged → IsLostLog (L.holds log.old) }
    ensures refusal { IfErr result IsReadRefusal }
    ensures reason { HasReason (L.faults log.old) (L.faults log.new) result }
{
    let records = match log.records() {
        Ok(records) => records,
        Err(fault) => return Err(refused_by(fault)),
    };
    let edits = edits_in(alloc, &records)?;
    Ok((records, edits))
}

/// Whether there is a root file.
fn has_root<F: Files>(files: &mut F) -> Result<bool, Refusal>
    ensures ok { IfOk result (λ found. IfSome (F.contents files.old) (λ m.
        found ≡ is_some (get m root_name))) }
    ensures same { F.contents files.new ≡ F.contents files.old }
    ensures refusal { IfErr result (λ refusal.
        (refusal ≡ Refusal.Device) ⊎ (refusal ≡ Refusal.NoMemory)) }
    ensures reason { HasReason (F.faults files.old) (F.faults files.new) result }
{
    match files.size(ROOT_NAME) {
        Ok(size) => Ok(size.is_some()),
        Err(fault) => Err(refusal_of(fault)),
    }
}

/// Replays the edits of a log over a cluster that was just opened. The root of a new store is put first.
fn fill_rows<F: Files>(
    alloc: Global,
    rows: &mut Recorded<F>,
    is_new: bool,
    edits: Vec<Edit>,
) -> Result<(), Refusal>
    requires { AllByRecursion IsStoredEdit edits.items }
    ensures ok { is_new ≡ false → OnOk result ((root : RootView) (base : Cells)
        → ShowsRoot F.contents root base rows.old.cluster
        → FollowsLog F.contents root base edits.items rows.new) }
    ensures full { is_new ≡ false → IsErrOf result Refusal.MemtableFull
        → AllByRecursion IsEmptied rows.old.cluster.tablets
        → ¬ HasRoomFor empty_journal edits.items }
    ensures new { is_new ≡ true → Holds F.contents rows.old.cluster → OnOk result
        (FollowsLog F.contents (root_at 0 0 rows.new.cluster)
        (cells_shown F.contents rows.old.cluster) edits.items rows.new) }
    ensures undamaged { Holds F.contents rows.old.cluster → ¬ IsErrOf result Refusal.Damaged }
    ensures same { is_new ≡ false
        → F.contents rows.new.cluster.files ≡ F.contents rows.old.cluster.files }
    ensures spots { spots_of rows.new.cluster ≡ spots_of rows.old.cluster }
    ensures limit { rows.new.cluster.file_limit ≡ rows.old.cluster.file_limit }
    ensures refusal { IfErr result IsStorageRefusal }
    ensures replayed { is_new ≡ false → IfErr result IsApplyRefusal }
    ensures reason { HasReason (F.faults rows.old.cluster.files)
        (F.faults rows.new.cluster.files) result }
{
    if is_new {
        rows.cluster.checkpoint(0, 0)?;
    }
    replay(alloc, rows, edits)
}

/// Whether these records may belong to a store without a root file: none holds edits, and the log may be over any root.
fn is_of_new_store(records: &[Vec<u8>], edits: &[Edit]) -> bool
    ensures { IsTrue result ↔ (edits.now ≡ []) × HasRecord (bytes_of records.now) any_root }
{
    edits.is_empty() && is_over_any(records)
}

/// Checks that the log of a cluster that was just opened is over its root, with these stamps. A new store has no root.
///
/// # Errors
///
/// `Damaged` if the log is over another root; `NoMemory`.
fn check_root<F: Files>(
    is_new: bool,
    cluster: &Cluster<F>,
    top: Stamp,
    floor: Stamp,
    records: &[Vec<u8>],
) -> Result<(), Refusal>
    ensures ok { OnOk result ((is_new ≡ true)
        ⊎ IsOver (bytes_of records.now) (root_at top floor cluster.now)) }
    ensures damaged { IsErrOf result Refusal.Damaged → (is_new ≡ false)
        × ¬ IsOver (bytes_of records.now) (root_at top floor cluster.now) }
    ensures refusal { IfErr result (λ refusal. (refusal ≡ Refusal.Damaged)
        ⊎ (refusal ≡ Refusal.NoMemory)) }
{
    if is_new {
        return Ok(());
    }
    let sum = cluster.root_sum(top, floor)?;
    if names_root(records, top, sum) {
        Ok(())
    } else {
        Err(Refusal::Damaged)
    }
}

/// The rows that files keep, with the edits of a log, and the greatest stamp that their root names. Without a root file
/// they are those of a new store, whose root is put.
///
/// # Errors
///
/// `Damaged` if `Cluster::open` answers it, if the log's records are over another root, or if they need a root and there is
/// no root file; of a new store the refusals of its first checkpoint. The files are given back.
fn open_rows<F: Files>(
    alloc: Global,
    files: F,
    records: &[Vec<u8>],
    edits: Vec<Edit>,
    file_limit: u64,
) -> Result<(Recorded<F>, Stamp), (Refusal, F)>
    requires limit { IsFileLimit file_limit }
    requires held { HoldEdits (bytes_of records.now) edits.items }
    requires stored { AllByRecursion IsStoredEdit edits.items }
    ensures kept { (m : Contents) (root : RootView) (base : Cells) → F.contents files ≡ Some m
        → KeepsCells m root base → IsOver (bytes_of records.now) root
        → MatchResult result
        (λ opened. FollowsLog F.contents root base edits.items opened.0 × (opened.1 ≡ root.top))
        (λ refused. (refused.0 ≢ Refusal.Damaged)
        × (refused.0 ≡ Refusal.MemtableFull → ¬ HasRoomFor empty_journal edits.items)) }
    ensures new { LacksRoot (F.contents files) → IfOk result (λ opened.
        HasRecord (bytes_of records.now) any_root
        × OpensNew F.contents opened.1 edits.items opened.0) }
    ensures named { IfOk result (λ opened. IfSome (F.contents files) (λ m.
        NamesTop (get m root_name) opened.1)) }
    ensures whole { IfOk result (λ _. IfSome (F.contents files) (λ m.
        ¬ IsDamaged m × ¬ LacksBase m (bytes_of records.now))) }
    ensures damaged { IfErr result (λ refused. refused.0 ≡ Refusal.Damaged
        → IfSome (F.contents files) (λ m. IsDamaged m ⊎ LacksBase m (bytes_of records.now))) }
    ensures rooted { HasRootFile (F.contents files) → MatchResult result
        (λ opened. F.contents opened.0.cluster.files ≡ F.contents files)
        (λ refused. F.contents refused.1 ≡ F.contents files) }
    ensures limit { IfOk result (λ opened. opened.0.cluster.file_limit ≡ file_limit) }
    ensures refusal { IfErr result (λ refused. IsStorageRefusal refused.0) }
    ensures opening { HasRootFile (F.contents files)
        → IfErr result (λ refused. IsOpeningRefusal refused.0) }
    ensures reason { MatchResult result
        (λ opened. F.faults opened.0.cluster.files ≡ F.faults files)
        (λ refused. HasReason
        (F.faults files) (F.faults refused.1) (refused_with refused.0)) }
{
    logs_edits();
    as_many_edits();
    one_root();
    let mut files = files;
    let is_new = match has_root(&mut files) {
        Ok(is_there) => !is_there,
        Err(refusal) => return Err((refusal, files)),
    };
    if is_new && !is_of_new_store(records, &edits) {
        return Err((Refusal::Damaged, files));
    }
    let (cluster, top, floor) = match Cluster::open(alloc, files, file_limit) {
        Ok(opened) => opened,
        Err(refused) => return Err(refused),
    };
    match check_root(is_new, &cluster, top, floor, records) {
        Ok(()) => {}
        Err(refusal) => return Err((refusal, cluster.into_files())),
    }
    let mut rows = Recorded::new(cluster);
    match fill_rows(alloc, &mut rows, is_new, edits) {
        Ok(()) => Ok((rows, top)),
        Err(refusal) => Err((refusal, rows.into_files())),
    }
}

/// The mark that a store keeps beside a log of these records, over a root with this greatest stamp.
///
/// # Errors
///
/// `Damaged` if the mark is below the root's greatest stamp, or if the stamp of a record is above the greatest one;
/// `Device` if the mark can't be read. The store is given back.
fn load_mark<M: MarkStore>(
    marks: M,
    top: Stamp,
    records: &[Vec<u8>],
) -> Result<StoredMark<M>, (Refusal, M)>
    ensures made { IfOk result (λ mark. IsMarkOf (M.mark marks) (bytes_of records.now) mark) }
    ensures low { IfOk result (λ mark. top ≤ mark.stored) }
    ensures limit { IfOk result (λ mark. mark.covered < 2 ^ 63) }
    ensures damaged { IfErr result (λ refused. refused.0 ≡ Refusal.Damaged
        → IfSome (M.mark marks) (λ number.
        (number < top) ⊎ ¬ AreUpTo most_stamp (bytes_of records.now))) }
    ensures kept { MatchResult result (λ mark. M.mark mark.marks ≡ M.mark marks)
        (λ refused. M.mark refused.1 ≡ M.mark marks) }
    ensures refusal { IfErr result (λ refused. (refused.0 ≡ Refusal.Damaged)
        ⊎ (refused.0 ≡ Refusal.Device)) }
    ensures told { MatchResult result (λ mark. M.faults mark.marks ≡ M.faults marks)
        (λ refused. refused.0 ≢ Refusal.Device → M.faults refused.1 ≡ M.faults marks) }
    ensures device { IfErr result (λ refused. refused.0 ≡ Refusal.Device
        → HasRisen (M.faults marks) (M.faults refused.1)) }
{
    names_roots();
    let mut mark = match StoredMark::load(marks) {
        Ok(mark) => mark,
        Err(marks) => return Err((Refusal::Device, marks)),
    };
    if mark.stored() < top {
        return Err((Refusal::Damaged, mark.into_store()));
    }
    let covered = greatest_stamp(mark.stored(), records);
    if covered > MOST_STAMP {
        return Err((Refusal::Damaged, mark.into_store()));
    }
    mark.cover(covered);
    Ok(mark)
}

/// An oracle whose last stamp is this one. Its mark is in memory, so no refusal comes.
fn oracle_from(last: Stamp) -> Result<Oracle<MemMark>, Refusal>
    requires { last < 2 ^ 63 }
    ensures last { IfOk result (λ oracle. oracle.last ≡ last) }
    ensures ok { IsOk result }
{
    let mut mark = MemMark::new();
    mark.store(last)?;
    match Oracle::open(mark) {
        Ok(oracle) => Ok(oracle),
        Err((refusal, _)) => Err(refusal),
    }
}

/// A server over rows and an oracle. All stamps up to the oracle's last one count as answered.
fn server_over<F: AtomicPut + Drop>(
    alloc: Global,
    rows: Recorded<F>,
    oracle: Oracle<MemMark>,
    config: Config,
) -> Server<F, MemMark>
    ensures from { (mark : Option ℕ) (root : RootView) (base : Cells) (edits : List CellEdit)
        (st : State) → FollowsLog F.contents root base edits rows → IsReached st
        → machine_places root.places ≡ st.places → Covers mark root.top
        → ShowsCells (after_edits base edits) (reopened st)
        → st.next_tablet ≡ length st.places + 1 → st.top ≤ oracle.last
        → ServesFrom F.Files mark root base edits st result }
    ensures rows { rows_of result ≡ rows }
    ensures last { last_of result ≡ oracle.last }
    ensures tending { tending_of result
        ≡ record { flush = config.flush; merge = None; merged_to = 0; debt = no_debt } }
{
    recovers();
    shows_reopened();
    let last = oracle.last();
    Server::without_sessions(alloc, rows, oracle, last, last + 1, config)
}

/// A server over files and the edits of a log, and the mark. The oracle goes on from the greatest of the mark and the
/// records' stamps.
fn open_server<F: AtomicPut + Drop, M: MarkStore + Drop>(
    alloc: Global,
    files: F,
    marks: M,
    records: &[Vec<u8>],
    edits: Vec<Edit>,
    config: Config,
) -> Result<(Server<F, MemMark>, StoredMark<M>), (Refusal, F, M)>
    requires config { IsConfig config }
    requires held { HoldEdits (bytes_of records.now) edits.items }
    requires stored { AllByRecursion IsStoredEdit edits.items }
    ensures kept { (root : RootView) (base : Cells) (st : State) → IsReached st
        → KeepsUnder (F.contents files) (M.mark marks) root base st.places
        → IsOver (bytes_of records.now) root
        → AreUpTo most_stamp (bytes_of records.now)
        → ShowsCells (after_edits base edits.items) (reopened st)
        → st.next_tablet ≡ length st.places + 1
        → CoversWith (M.mark marks) (bytes_of records.now) st.top
        → MatchResult result
        (λ opened. ServesFrom F.Files (M.mark opened.1.marks) root base edits.items st opened.0
        × (root.top ≤ opened.1.stored))
        (λ refused. (refused.0 ≢ Refusal.Damaged)
        × (refused.0 ≡ Refusal.MemtableFull → ¬ HasRoomFor empty_journal edits.items)) }
    ensures new { LacksRoot (F.contents files) → IsSome (M.mark marks)
        → IfOk result (λ opened. (edits.items ≡ []) × HasRecord (bytes_of records.now) any_root
        × (root : RootView) × (root.top ≤ opened.1.stored)
        × ServesFrom F.Files (M.mark opened.1.marks) root empty edits.items new_machine opened.0) }
    ensures made { IfOk result (λ opened.
        IsMarkOf (M.mark marks) (bytes_of records.now) opened.1
        × (opened.1.covered ≤ most_stamp)) }
    ensures whole { IfOk result (λ _. IfSome (F.contents files) (λ m.
        IfSome (M.mark marks) (λ mark. AreWhole m mark (bytes_of records.now)))) }
    ensures damaged { IfErr result (λ refused. refused.0 ≡ Refusal.Damaged
        → IfSome (F.contents files) (λ m. IfSome (M.mark marks) (λ mark.
        IsLost m mark ⊎ LacksBase m (bytes_of records.now)
        ⊎ ¬ AreUpTo most_stamp (bytes_of records.now)))) }
    ensures rooted { HasRootFile (F.contents files) → MatchResult result
        (λ opened. F.contents (cluster_of opened.0).files ≡ F.contents files)
        (λ refused. F.contents refused.1 ≡ F.contents files) }
    ensures mark { MatchResult result (λ opened. M.mark opened.1.marks ≡ M.mark marks)
        (λ refused. M.mark refused.2 ≡ M.mark marks) }
    ensures last { IfOk result (λ opened. last_of opened.0 ≡ opened.1.covered) }
    ensures options { IfOk result (λ opened.
        ((cluster_of opened.0).file_limit ≡ config.file_limit)
        × (tending_of opened.0
        ≡ record { flush = config.flush; merge = None; merged_to = 0; debt = no_debt })) }
    ensures refusal { IfErr result (λ refused. IsStorageRefusal refused.0
        × (HasRootFile (F.contents files) → IsOpeningRefusal refused.0)) }
    ensures told { MatchResult result
        (λ opened. (F.faults (cluster_of opened.0).files ≡ F.faults files)
        × (M.faults opened.1.marks ≡ M.faults marks))
        (λ refused. refused.0 ≢ Refusal.Device
        → (F.faults refused.1 ≡ F.faults files) × (M.faults refused.2 ≡ M.faults marks)) }
    ensures device { IfErr result (λ refused. refused.0 ≡ Refusal.Device
        → HasRisen (F.faults files) (F.faults refused.1)
        ⊎ HasRisen (M.faults marks) (M.faults refused.2)) }
{
    one_root();
    names_roots();
    let (rows, top) = match open_rows(alloc, files, records, edits, config.file_limit) {
        Ok(opened) => opened,
        Err((refusal, files)) => return Err((refusal, files, marks)),
    };
    let mark = match load_mark(marks, top, records) {
        Ok(mark) => mark,
        Err((refusal, marks)) => return Err((refusal, rows.into_files(), marks)),
    };
    match oracle_from(mark.covered()) {
        Ok(oracle) => Ok((server_over(alloc, rows, oracle, config), mark)),
        Err(refusal) => Err((refusal, rows.into_files(), mark.into_store())),
    }
}

impl<S: Journaled, M: MarkStore, L: Log> DurableServer<S, M, L> {
    /// A server with a log.
    fn over(alloc: Global, server: S, marks: StoredMark<M>, log: L) -> DurableServer<S, M, L>
        ensures server { result.server ≡ server }
        ensures marks { result.marks ≡ marks }
        ensures log { result.log ≡ log }
        ensures root_bytes { result.root_bytes ≡ 33554432 }
        ensures upkeep { result.upkeep ≡ false }
        ensures settled { (root : RootView) → S.view.recording server ≡ true
            → S.view.is_rooted server root → S.view.waiting server ≡ []
            → S.view.last server ≤ marks.covered → HoldsLogged S.view L.Log result root
            → IsSettled (shown_by S.shows) (LastsIn S.view L.Log) (Logs S.view L.Log) result }
    {
        logs_edits();
        names_roots();
        S::journal_laws();
        DurableServer {
            alloc,
            server,
            marks,
            log,
            is_stopped: false,
            root_bytes: ROOT_BYTES,
            tried_bytes: 0,
            answered: 0,
            upkeep: false,
        }
    }
}

impl<F: AtomicPut + Drop, M: MarkStore + Drop, L: Log + Drop> DurableServer<
    Server<F, MemMark>,
    M,
    L,
> {
    /// A server over the files, the mark store and the log that a kill left. Without a root file it is a new store, whose
    /// root is put. The edits of the log are replayed over the files. Sessions, cleaners and collectors are forgotten, and
    /// stamps up to the greatest of the mark and the records' stamps count as answered.
    ///
    /// # Errors
    ///
    /// `Damaged` if the root file is out of form, if a file that it names is missing or out of form, if the mark is below
    /// the root's greatest stamp, if the log's records are no edits or have a stamp above the greatest one, if the log is
    /// over another root, or if there is no root file and the log names a root or holds edits; `Device` if the files, the
    /// mark or the log can't be read; `NoMemory`; `MemtableFull` if the log has more edits than a journal holds; of a new
    /// store the refusals of its first checkpoint. The files, the mark store and the log are given back.
    pub fn open(
        alloc: Global,
        files: F,
        marks: M,
        log: L,
        config: Config,
    ) -> Result<DurableServer<Server<F, MemMark>, M, L>, (Refusal, F, M, L)>
        requires config { IsConfig config }
        // From a state that they keep. If it is refused, they keep it still.
        ensures kept { (st : State) → IsReached st
            → LastsOn (F.contents files) (M.mark marks) (L.holds log) st
            → MatchResult result (OpensFrom F.Files M.MarkStore L.Log st)
            (λ refused. (refused.0 ≢ Refusal.Damaged) × (refused.0 ≢ Refusal.MemtableFull)
            × LastsOn (F.contents refused.1) (M.mark refused.2) (L.holds refused.3) st) }
        ensures new { LacksRoot (F.contents files) → IsSome (M.mark marks)
            → (records : List (List ℕ)) → L.holds log records
            → IfOk result (OpensFrom F.Files M.MarkStore L.Log new_machine) }
        // `Damaged` is answered if there is damage, as far as files, mark and log are known.
        ensures whole { IfOk result (λ _. (records : List (List ℕ)) → L.holds log records
            → IfSome (F.contents files) (λ m. IfSome (M.mark marks) (λ mark.
            AreWhole m mark records))) }
        // And only then.
        ensures damaged { IfErr result (λ refused. refused.0 ≡ Refusal.Damaged
            → IsLostLog (L.holds log)
            ⊎ IfSome (F.contents files) (λ m. IfSome (M.mark marks) (λ mark.
            IsLost m mark
            ⊎ ((records : List (List ℕ)) → L.holds log records → LacksBase m records)
            ⊎ ((records : List (List ℕ)) → L.holds log records
            → ¬ AreUpTo most_stamp records)))) }
        ensures last { IfOk result (λ opened. (records : List (List ℕ)) → L.holds log records
            → IfSome (M.mark marks) (λ mark. IsGreatest mark records (last_of opened.server))) }
        ensures limit { IfOk result (λ opened.
            (cluster_of opened.server).file_limit ≡ config.file_limit) }
        ensures tending { IfOk result (λ opened. tending_of opened.server
            ≡ record { flush = config.flush; merge = None; merged_to = 0; debt = no_debt }) }
        ensures root_bytes { IfOk result (λ opened. opened.root_bytes ≡ 33554432) }
        ensures upkeep { IfOk result (λ opened. opened.upkeep ≡ false) }
        ensures refusal { IfErr result (λ refused. IsStorageRefusal refused.0) }
        ensures opening { HasRootFile (F.contents files)
            → IfErr result (λ refused. IsOpeningRefusal refused.0) }
        // If it is not refused with Device, the counts of faults are as before.
        ensures told { MatchResult result
            (λ opened. (F.faults (cluster_of opened.server).files ≡ F.faults files)
            × (M.faults opened.marks.marks ≡ M.faults marks)
            × (L.faults opened.log ≡ L.faults log))
            (λ refused. refused.0 ≢ Refusal.Device → (F.faults refused.1 ≡ F.faults files)
            × (M.faults refused.2 ≡ M.faults marks) × (L.faults refused.3 ≡ L.faults log)) }
        ensures device { IfErr result (λ refused. refused.0 ≡ Refusal.Device
            → HasRisen (F.faults files) (F.faults refused.1)
            ⊎ (HasRisen (M.faults marks) (M.faults refused.2)
            ⊎ HasRisen (L.faults log) (L.faults refused.3))) }
    {
        logs_edits();
        as_many_edits();
        names_roots();
        let mut log = log;
        let (records, edits) = match logged_on(alloc, &mut log) {
            Ok(logged) => logged,
            Err(refusal) => return Err((refusal, files, marks, log)),
        };
        match open_server(alloc, files, marks, &records, edits, config) {
            Ok((server, mark)) => Ok(DurableServer::over(alloc, server, mark, log)),
            Err((refusal, files, marks)) => Err((refusal, files, marks, log)),
        }
    }
}
