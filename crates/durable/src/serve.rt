//! The calls of a server with a log.

ghost use Rattle.std.specs.Prelude.{◌≡◌, IsSome, Some, true};
ghost use Rattle.durable.specs.Devices.{LastsOn};
ghost use Rattle.durable.specs.OverDevices.{LastsOver, ServesOver};
ghost use Rattle.server_loop.specs.Server.{cluster_of, rows_of, tending_of};
ghost use Rattle.row_atomic.specs.Commands.{IsOutcome};
ghost use Rattle.si_model.specs.Machine.{State};

use crate::atomic_put::AtomicPut;
use crate::server::DurableServer;
use commit_log::Log;
use oracle::{MarkStore, MemMark};
use row_atomic::{Command, Outcome};
use server_loop::{End, MergePolicy, ServeFault, Server, serve_all};
use std::io::{Read, Write};
use std::num::NonZeroUsize;

/// The bytes of waiting replies at which a batch ends: no further request is answered before it is settled.
pub(crate) const MOST_WAITING: usize = 1_048_576;

impl<F: AtomicPut + Drop, M: MarkStore + Drop, L: Log + Drop> DurableServer<
    Server<F, MemMark>,
    M,
    L,
> {
    /// From now on the newest files are merged as by `Server::merge_by`; by levels in steps.
    pub fn merge_by(&mut self, policy: MergePolicy)
        ensures { self.new ≡ record self.old {
          server = record self.old.server {
            tending = record (tending_of self.old.server) { merge = Some policy; merged_to = 0 };
          };
        } }
    {
        self.server.merge_by(policy);
    }

    /// Limits the cache of each file to this many blocks, as `Server::cache_blocks` does.
    pub fn cache_blocks(&mut self, most_blocks: NonZeroUsize)
        ensures outcome { IsOutcome F.contents F.faults Command.DropCaches Outcome.Done
            (cluster_of self.old.server) (cluster_of self.new.server) }
        ensures others { self.new ≡ record self.old {
          server = record self.old.server {
            rows = record (rows_of self.old.server) { cluster = cluster_of self.new.server };
          };
        } }
    {
        self.server.cache_blocks(most_blocks);
    }

    /// Limits the bytes of the writes that all sessions buffer, as `Server::limit_buffer` does.
    pub fn limit_buffer(&mut self, most: u64)
        ensures { self.new ≡ record self.old {
          server = record self.old.server {
            clients = record self.old.server.clients { most_buffered = most };
          };
        } }
    {
        self.server.limit_buffer(most);
    }

    /// From now on, after a reply, a root is put and the log is emptied if the journal's size is at least this many
    /// bytes. Its size is its bytes, or 671 for each edit if that is more. A refusal is not reported. The next try
    /// comes when the size has grown by 8,388,608 bytes, or has fallen; from 50,331,648 bytes on also once 1,024 requests
    /// were answered.
    pub fn checkpoint_at(&mut self, bytes: usize)
        ensures { self.new ≡ record self.old { root_bytes = bytes; tried_bytes = 0 } }
    {
        self.root_bytes = bytes;
        self.tried_bytes = 0;
    }

    /// From now on a root that is put without a request is followed by a sweep of the files that neither a tablet nor
    /// the root has. A refusal is not reported.
    pub fn sweep_after_checkpoints(&mut self)
        ensures { self.new ≡ record self.old { upkeep = true } }
    {
        self.upkeep = true;
    }

    /// Serves requests in frames as `Server::serve` does, but replies wait: the replies to one read's requests are
    /// written once all their edits, and a mark over their stamps, are in the log, which is forced to the disk once for
    /// all of them. That is done earlier if the waiting replies have reached 1,048,576 bytes. A split and a move come
    /// between two checkpoints, and a sweep leaves the files that the root has. If the log fails, no further reply is
    /// written, and `Log` is answered.
    ///
    /// Whatever the result, if the server was settled, the devices keep the machine's state after a prefix of the
    /// requests taken. The prefix contains each request of whose reply a byte was written.
    pub fn serve<I: Read, O: Write>(
        &mut self,
        reader: &mut I,
        writer: &mut O,
        most_reads: u64,
    ) -> Result<End, ServeFault>
        ensures { ServesOver F.Files ⟦<MemMark as MarkStore>⟧ M.MarkStore L.Log self.old self.new
            (I.remaining reader.old) (I.remaining reader.new) (O.contents writer.old)
            (O.contents writer.new) most_reads result }
    {
        serve_all(self.alloc, self, reader, writer, MOST_WAITING, most_reads)
    }

    /// Its files, its mark store and its log, unchanged. If the mark is known, they keep each state that the server's
    /// devices kept.
    pub fn into_devices(self) -> (F, M, L)
        ensures files { result.0 ≡ (cluster_of self.server).files }
        ensures marks { result.1 ≡ self.marks.marks }
        ensures log { result.2 ≡ self.log }
        ensures lasts { (st : State) → LastsOver F.Files L.Log self st
            → IsSome (M.mark self.marks.marks)
            → LastsOn (F.contents result.0) (M.mark result.1) (L.holds result.2) st }
    {
        let DurableServer {
            server,
            marks,
            log,
            ..
        } = self;
        let (files, _) = server.into_devices();
        (files, marks.into_store(), log)
    }
}
