//! The server: its state, its configuration, its answers and `serve`.

ghost use Rattle.std.specs.Prelude.{◌≡◌, ◌≢◌, ◌≤◌, ◌<◌, ◌^◌, ◌⊎◌, IfErr, IfOk, IfSome, IsSome, Some, true};
ghost use Rattle.cell_key.specs.Faults.{HasRisen};
ghost use Rattle.row_atomic.specs.Clusters.{IsFirstTablet};
ghost use Rattle.server_loop.specs.Serve.{Serves, ServesStream};
ghost use Rattle.si_model.specs.Machine.{State, new_machine};

use crate::client_server::Lookup;
use crate::debt::Debt;
use crate::frame_loop::{FrameHandler, Handler, Incoming, answer_incoming, serve_all};
use crate::statuses::{End, ServeFault};
use cell_key::{MOST_STAMP, Refusal, Stamp};
use clean_up::Cleaners;
use file_store::Files;
use oracle::{MarkStore, Oracle};
use ownership::Name;
use request_codec::{Answer, Operation, Reply, Request};
use row_atomic::{
    Cluster, Command, FlushLimits, MergePolicy, Outcome, Recorded, keeps_following, root_is_stored,
    root_stays,
};
use si_model::shows_reopened;
use std::alloc::Global;
use std::io::{Read, Write};
use std::num::NonZeroUsize;
use txn_client::Clients;
use version_collector::Collectors;

/// The limits of a server's store.
#[derive(Clone, Copy, Debug, PartialEq, Eq)]
pub struct Config {
    /// The size at which `serve` compacts a memtable after a reply: a number of entries, 1 to 100,000, or of bytes,
    /// 1,048,576 to 67,108,864 if bytes are limited.
    pub flush: FlushLimits,
    /// The upper bound of a sorted file in bytes: 48 to 68,719,476,736.
    pub file_limit: u64,
}

/// When a server compacts by itself.
#[derive(Clone, Copy)]
pub(crate) struct Tending {
    /// The size at which a memtable is compacted.
    pub(crate) flush: FlushLimits,
    /// When a tablet's newest files are merged, or `None` for no merges.
    pub(crate) merge: Option<MergePolicy>,
    /// The name of the next file at the last merge: as long as it is the same, no file was written since. 0 at first.
    pub(crate) merged_to: u64,
    /// What merges in levels owe.
    pub(crate) debt: Debt,
}

/// A server: a cluster of tablets, an oracle of stamps, the active sessions, and the open cleaners and collectors.
///
/// Of the snapshot machine's state it stores only the sessions, the cleaners, the collectors and the places of the
/// tablets. Commits, locks and rollbacks are in the cells alone.
#[derive(Drop)]
pub struct Server<F: Files, M: MarkStore> {
    pub(crate) alloc: Global,
    pub(crate) rows: Recorded<F>,
    pub(crate) oracle: Oracle<M>,
    pub(crate) clients: Clients,
    pub(crate) cleaners: Cleaners,
    pub(crate) collectors: Collectors,
    pub(crate) tending: Tending,
}

impl<F: Files + Drop, M: MarkStore + Drop> Server<F, M> {
    ghost use Rattle.server_loop.specs.Answer.{DrawsStamps, IsMachineStep, IsPlainAnswer, MakesEdits, ServesSessions, TellsCauses, TendsTablets};
    ghost use Rattle.server_loop.specs.Server.{IsConfig, Shows, ShowsNoSession, cluster_of, rows_of, tending_of, last_of, marks_of};
    ghost use Rattle.row_atomic.specs.Flushes.{KeepsShown};
    ghost use Rattle.server_loop.specs.Operations.{IsAnswerTo};
    ghost use Rattle.server_loop.specs.Resting.{KeepsResting};
    ghost use Rattle.row_atomic.specs.Commands.{IsOutcome};
    ghost use Rattle.server_loop.specs.Tending.{IsNoted, IsTended, Merges, is_due, no_debt};

    /// A server with no session, cleaner or collector. `top` is the greatest stamp answered, and `floor` the greatest
    /// floor that a collector began with.
    pub fn without_sessions(
        alloc: Global,
        rows: Recorded<F>,
        oracle: Oracle<M>,
        top: Stamp,
        floor: Stamp,
        config: Config,
    ) -> Server<F, M>
        requires top { top < 2 ^ 63 }
        ensures shown { (st : State) → ShowsNoSession F.contents rows oracle.last top floor st
            → Shows F.contents result st }
        ensures rows { rows_of result ≡ rows }
        ensures last { last_of result ≡ oracle.last }
        ensures marks { marks_of result ≡ oracle.marks }
        ensures tending { tending_of result
            ≡ record { flush = config.flush; merge = None; merged_to = 0; debt = no_debt } }
    {
        Server {
            alloc,
            rows,
            oracle,
            clients: Clients::new(alloc, top),
            cleaners: Cleaners::new(alloc),
            collectors: Collectors::new(alloc, floor),
            tending: Tending {
                flush: config.flush,
                merge: None,
                merged_to: 0,
                debt: Debt::NONE,
            },
        }
    }

    /// A server over these files and this mark store, with one tablet without cells. It shows the machine's first
    /// state.
    ///
    /// # Errors
    ///
    /// `NoMemory` if an allocation failed, and `Device` if the mark cannot be read. On failure the files and the mark
    /// store are returned.
    pub fn new(
        alloc: Global,
        files: F,
        marks: M,
        config: Config,
    ) -> Result<Server<F, M>, (Refusal, F, M)>
        requires config { IsConfig config }
        ensures new { IsSome (F.contents files) → IfOk result (λ server.
            Shows F.contents server new_machine) }
        ensures kept { IfOk result (λ server. (cluster_of server).files ≡ files) }
        ensures name { IfOk result (λ server. (cluster_of server).next_name ≡ 1) }
        // One tablet, with an empty memtable.
        ensures tablet { IfOk result (λ server. IsFirstTablet (cluster_of server).tablets) }
        // If the mark is known, the oracle continues from it.
        ensures last { IfOk result (λ server.
            IfSome (M.mark marks) (λ mark. last_of server ≡ mark)) }
        ensures mark { IfOk result (λ server. M.mark (marks_of server) ≡ M.mark marks) }
        ensures limit { IfOk result (λ server. (cluster_of server).file_limit ≡ config.file_limit) }
        ensures tending { IfOk result (λ server.
            tending_of server
            ≡ record { flush = config.flush; merge = None; merged_to = 0; debt = no_debt }) }
        ensures refusal { IfErr result (λ refused.
            (refused.0 ≡ Refusal.NoMemory) ⊎ (refused.0 ≡ Refusal.Device)) }
        ensures device { IfErr result (λ refused.
            refused.0 ≡ Refusal.Device → HasRisen (M.faults marks) (M.faults refused.2)) }
        ensures told { IfOk result (λ server. M.faults (marks_of server) ≡ M.faults marks) }
        ensures files { IfErr result (λ refused. refused.1 ≡ files) }
        ensures marks { IfErr result (λ refused. M.mark refused.2 ≡ M.mark marks) }
        ensures unread { IfErr result (λ refused.
            refused.0 ≡ Refusal.NoMemory → refused.2 ≡ marks) }
    {
        let cluster = match Cluster::new(alloc, files, config.file_limit) {
            Ok(cluster) => cluster,
            Err((refusal, files)) => return Err((refusal, files, marks)),
        };
        match Oracle::open(marks) {
            Ok(oracle) => {
                let rows = Recorded::new(cluster);
                Ok(Server::without_sessions(alloc, rows, oracle, 0, 0, config))
            }
            Err((refusal, marks)) => Err((refusal, cluster.into_files(), marks)),
        }
    }

    /// From now on `serve` merges the newest files of each tablet as the policy says: after its first reply, and then
    /// after each reply if a file was written since the last merge. By levels the tablets are merged one at a time, in
    /// steps of 262,144 to 1,048,576 bytes of entries: one each 64 replies, and more as memtables grow and files are
    /// written, until no merge is due. A refusal is not reported: the merge is tried again once a file was written.
    /// Without this call files are merged only on request.
    pub fn merge_by(&mut self, policy: MergePolicy)
        ensures { self.new ≡ record self.old {
          tending = record (tending_of self.old) { merge = Some policy; merged_to = 0 };
        } }
    {
        self.tending.merge = Some(policy);
        self.tending.merged_to = 0;
    }

    /// Limits the cache of each open file, and of each file opened later, to this many blocks. Without this call it is
    /// 8. The server shows the same state.
    pub fn cache_blocks(&mut self, most_blocks: NonZeroUsize)
        ensures outcome { IsOutcome F.contents F.faults Command.DropCaches Outcome.Done
            (cluster_of self.old) (cluster_of self.new) }
        ensures others { self.new ≡ record self.old {
          rows = record (rows_of self.old) { cluster = cluster_of self.new };
        } }
    {
        self.rows.cluster.resize_caches(most_blocks);
    }

    /// Limits the bytes of the writes that all sessions buffer: their rows, families and values. A Set or a Delete that
    /// makes them more than they are, and more than `most`, is refused `NoMemory`. Without this call there is no limit.
    pub fn limit_buffer(&mut self, most: u64)
        ensures { self.new ≡ record self.old {
          clients = record self.old.clients { most_buffered = most };
        } }
    {
        self.clients.limit_buffer(most);
    }

    /// Whether a merge is due: a memtable is full, so that a file will be written, or a file was written since the last
    /// merge.
    fn is_merge_due(&self) -> bool
        ensures { result ≡ is_due (tending_of self.now) (cluster_of self.now) }
    {
        self.rows.cluster.has_full(self.tending.flush)
            || self.rows.cluster.next_name() != self.tending.merged_to
    }

    /// Notes that nothing is to be merged until the next file is written.
    fn note_merged(&mut self)
        ensures { self.new ≡ record self.old {
          tending = record (tending_of self.old) { merged_to = (cluster_of self.old).next_name };
        } }
    {
        self.tending.merged_to = self.rows.cluster.next_name();
    }

    /// Does a step of a merge in levels, if enough is owed for one.
    fn step_merge(&mut self)
        ensures merges { Merges F.contents F.faults (Some MergePolicy.Levels)
            (cluster_of self.old) (cluster_of self.new) }
        ensures keeps { KeepsShown F.contents F.faults (cluster_of self.old) (cluster_of self.new) }
        ensures others { self.new ≡ record self.old {
          rows = record (rows_of self.old) { cluster = cluster_of self.new };
          tending = tending_of self.new;
        } }
        ensures flush { (tending_of self.new).flush ≡ (tending_of self.old).flush }
        ensures policy { (tending_of self.new).merge ≡ (tending_of self.old).merge }
    {
        let cluster = &mut self.rows.cluster;
        self.tending
            .debt
            .grow(cluster.filled(), cluster.next_name());
        let Some(bytes) = self.tending.debt.pay() else {
            return;
        };
        if !cluster.merge_some(MergePolicy::Levels, bytes) {
            self.note_merged();
        }
    }

    /// Merges the tablets' newest files as the policy says, if there is one; by levels, a step at most.
    fn merge_files(&mut self)
        ensures merges { Merges F.contents F.faults (tending_of self.old).merge
            (cluster_of self.old) (cluster_of self.new) }
        ensures keeps { KeepsShown F.contents F.faults (cluster_of self.old) (cluster_of self.new) }
        ensures others { self.new ≡ record self.old {
          rows = record (rows_of self.old) { cluster = cluster_of self.new };
          tending = tending_of self.new;
        } }
        ensures noted { IsNoted true (cluster_of self.new).next_name
            (tending_of self.old) (tending_of self.new) }
    {
        match self.tending.merge {
            None => self.note_merged(),
            Some(MergePolicy::AtCount(count)) => {
                self.rows.cluster.merge_many(MergePolicy::AtCount(count));
                self.note_merged();
            }
            Some(MergePolicy::Levels) => self.step_merge(),
        }
    }

    /// Dispatches a request to the function that answers it.
    fn take(&mut self, request: Request<'_>) -> Reply
        ensures { IsPlainAnswer F.Files M.MarkStore self.old request.entry result self.new }
    {
        match request {
            Request::Begin => self.begin(),
            Request::Get { start, row, family } => self.get(start, row, family),
            Request::Set {
                start,
                row,
                family,
                value,
            } => self.set(start, row, family, value),
            Request::Delete { start, row, family } => self.delete(start, row, family),
            Request::Scan {
                start,
                range,
                keys_only,
                cells,
            } => self.scan(start, range, keys_only, cells),
            Request::Step { start } => self.step(start),
            Request::Stop { start } => self.stop(start),
            Request::CleanBegin { row, family } => self.clean_begin(row, family),
            Request::CleanStep { cleaner } => self.clean_step(cleaner),
            Request::CollectBegin => self.collect_begin(),
            Request::CollectStep { collector, visits } => self.collect_step(collector, visits),
            Request::Minor { tablet } => self.minor(tablet),
            Request::Merge { tablet, count } => self.merge(tablet, count),
            Request::Major { tablet } => self.major(tablet),
            Request::Split { row } => self.split(row),
            Request::Move { tablet, server } => self.move_to(tablet, server),
            Request::Sweep => self.sweep(),
            Request::OracleRestart => self.restart(),
            Request::Raw {
                row,
                family,
                qualifier,
                lo,
                hi,
            } => self.raw(row, family, qualifier, lo, hi),
            Request::Checkpoint => self.checkpoint(),
            Request::Status { tablet } => self.status(tablet),
        }
    }

    /// Answers a request: one step of the snapshot machine, from each reached state that is shown. It compacts nothing
    /// unless asked to. After an accepted checkpoint the files and the mark keep the state that is shown.
    pub fn answer(&mut self, request: Request<'_>) -> Reply
        ensures step { IsMachineStep F.contents request.entry result self.old self.new }
        ensures stamps { DrawsStamps F.contents M.mark request.entry result self.old self.new }
        ensures edits { MakesEdits F.contents request.entry result self.old self.new }
        ensures sessions { ServesSessions
            F.contents M.mark request.entry result self.old self.new }
        ensures tablets { TendsTablets F.Files request.entry result self.old self.new }
        ensures causes { TellsCauses
            F.contents F.faults M.faults request.entry result self.old self.new }
        ensures tending { tending_of self.new ≡ tending_of self.old }
        ensures resting { KeepsResting F.Files M.mark request.entry result self.old self.new }
    {
        self.reply_to(request)
    }

    /// Serves framed requests until the input ends, with at most `most_reads` reads. It allocates its buffers first. It
    /// reads pieces of at most 65,536 bytes, and answers every whole frame before it reads again. After each
    /// answer, every memtable that has reached a limit of the configuration is compacted, and files are merged as
    /// `merge_by` says. Then the reply is written completely, before the next frame is taken.
    ///
    /// The bytes read are cut into bodies and a rest, and the replies are given by a run of the snapshot machine over
    /// them. Each reply fulfils the contract of `answer`, and between two replies only those compactions and merges
    /// take place. Exactly the frames of these replies are written. After a failed read, the replies to all whole
    /// frames were written. After a failed write, all replies but the last were written, and a prefix of the last; no
    /// further frame was taken. If the buffers could not be allocated, nothing was read or written. The server is then
    /// in the state after the last request taken and the upkeep that follows it.
    ///
    /// The writer is flushed before each read and at every end. Only tests show this: no clause of a writer mentions
    /// it.
    pub fn serve<I: Read, O: Write>(
        &mut self,
        reader: &mut I,
        writer: &mut O,
        most_reads: u64,
    ) -> Result<End, ServeFault>
        ensures served { Serves (Shows F.contents) (IsAnswerTo F.Files M.MarkStore)
            (IsTended F.contents F.faults) self.old self.new (I.remaining reader.old)
            (I.remaining reader.new)
            (O.contents writer.old) (O.contents writer.new) most_reads result }
        // If the reader's bytes are known, the end is the whole stream's.
        ensures whole { IfSome (I.remaining reader.old) (λ stream.
            IfOk result (λ end. end ≢ End.ReadsUsedUp
            → ServesStream (Shows F.contents) (IsAnswerTo F.Files M.MarkStore)
            (IsTended F.contents F.faults) self.old self.new
            stream (O.contents writer.old) (O.contents writer.new) end)) }
    {
        serve_all(self.alloc, self, reader, writer, 1, most_reads)
    }
}

impl<F: Files + Drop, M: MarkStore + Drop> FrameHandler for Server<F, M> {
    ghost use Rattle.std.proofs.Common.{◌≡◌, inl, inr, subst, sym};
    ghost use Rattle.server_loop.specs.Batches.{IsAnswered};
    ghost use Rattle.server_loop.specs.Operations.{IsAnswerTo};
    ghost use Rattle.server_loop.specs.Server.{Shows};
    ghost use Rattle.server_loop.specs.Tending.{IsTended};

    ghost answers = { IsAnswered (Shows F.contents) (IsAnswerTo F.Files M.MarkStore)
        (IsTended F.contents F.faults) };

    ghost settles = { λ old new. new ≡ old };

    ghost fails = { λ old new. ⊥ };

    ghost joins = { λ first mid new taken body is after. elim after [
      | inl same ↦ subst (λ server. IsAnswered (Shows F.contents) (IsAnswerTo F.Files M.MarkStore)
          (IsTended F.contents F.faults) first taken body server) (sym same) is
      | inr none ↦ absurd none
    ] };

    fn answer(&mut self, incoming: Incoming<'_>, waiting: &mut Vec<u8>) {
        answer_incoming(self.alloc, self, incoming, waiting);
    }

    /// The answers need no settling.
    fn settle(&mut self) -> Result<(), ServeFault> {
        Ok(())
    }
}

impl<F: Files + Drop, M: MarkStore + Drop> Lookup for Server<F, M> {
    ghost use Rattle.std.proofs.Common.{◌≡◌, inl, inr, subst, sym};
    ghost use Rattle.server_loop.specs.Server.{Shows};
    ghost use Rattle.server_loop.specs.Tending.{IsTended};

    ghost stops = { λ old new start reply said. said.plain.step.refusal };

    ghost belongs = { λ first mid new tended after. elim after [
      | inl same ↦ subst (λ server. IsTended F.contents F.faults first server) (sym same) tended
      | inr none ↦ absurd none
    ] };

    ghost stays = { λ old new after. elim after [
      | inl same ↦ λ st shown. subst (λ server. Shows F.contents server st) (sym same) shown
      | inr none ↦ absurd none
    ] };

    fn is_open(&self, name: Name) -> bool {
        match name {
            Name::Session(start) => self.clients.is_active(start),
            Name::Cleaner(number) => self.cleaners.is_open(number),
            Name::Collector(number) => self.collectors.is_open(number),
        }
    }
}

impl<F: Files + Drop, M: MarkStore + Drop> Handler for Server<F, M> {
    ghost use Rattle.server_loop.specs.Operations.{IsAnswerTo};
    ghost use Rattle.server_loop.specs.Server.{Shows};
    ghost use Rattle.row_atomic.specs.Flushes.{KeepsShown};
    ghost use Rattle.server_loop.specs.Tending.{IsTended, Merges};

    ghost shows = { Shows F.contents };

    ghost says = { IsAnswerTo F.Files M.MarkStore };

    ghost between = { IsTended F.contents F.faults };

    fn reply_to(&mut self, request: Request<'_>) -> Reply {
        shows_reopened();
        root_is_stored::<F>();
        root_stays::<F>();
        let reply = self.take(request);
        // This call shows that the last stamp is within the mark.
        let _last = self.oracle.last();
        reply
    }

    fn answer_to(&mut self, operation: Operation<'_>) -> Answer {
        match operation {
            Operation::One(request) => Answer::Said(self.reply_to(request)),
            Operation::Commit { start, writes } => self.commit(start, &writes),
            Operation::Read {
                start,
                cells,
                stays_open,
            } => self.read(start, &cells, stays_open),
        }
    }

    fn tend(&mut self) {
        keeps_following::<F>();
        let due = self.is_merge_due();
        self.rows.cluster.compact_full(self.tending.flush);
        if due {
            self.merge_files();
        }
    }
}
