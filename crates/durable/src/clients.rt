//! A server with a log, for several clients.

ghost use Rattle.durable.specs.OverDevices.{ServesClientsOver};

use crate::atomic_put::AtomicPut;
use crate::journaled::Journaled;
use crate::serve::MOST_WAITING;
use crate::server::DurableServer;
use commit_log::Log;
use oracle::{MarkStore, MemMark};
use ownership::Name;
use server_loop::{ClientServer, End, Lookup, ServeFault, Server, serve_all};
use std::alloc::Global;
use std::io::{Read, Write};

impl<S: Journaled + Lookup, M: MarkStore, L: Log> Lookup for DurableServer<S, M, L> {
    ghost use Rattle.std.proofs.Common.{inl, inr};

    ghost stops = { λ old new start reply said.
        S.stops old.server new.server start reply said.answered };

    ghost belongs = { λ first mid new tended after. elim after [
      | inl done ↦ done.joins first tended
      | inr failed ↦ failed.joins first tended
    ] };

    ghost stays = { λ old new after. elim after [
      | inl done ↦ done.shown
      | inr failed ↦ failed.shown
    ] };

    fn is_open(&self, name: Name) -> bool {
        self.server.is_open(name)
    }
}

/// Serves the clients of a server with a log, as `ClientServer::serve` does, in batches of up to 1,048,576 bytes of
/// replies, whose edits are in the log before they are written. Whatever the result, if the server was settled, the
/// devices keep the machine's state after a prefix of the frames taken. The prefix contains each frame of whose reply a
/// byte was written.
pub fn serve_clients<F, M, L, I, O>(
    alloc: Global,
    server: &mut ClientServer<DurableServer<Server<F, MemMark>, M, L>>,
    reader: &mut I,
    writer: &mut O,
    most_reads: u64,
) -> Result<End, ServeFault>
where
    F: AtomicPut + Drop,
    M: MarkStore + Drop,
    L: Log + Drop,
    I: Read,
    O: Write,
    ensures { ServesClientsOver F.Files ⟦<MemMark as MarkStore>⟧ M.MarkStore L.Log server.old
        server.new (I.remaining reader.old) (I.remaining reader.new) (O.contents writer.old)
        (O.contents writer.new) most_reads result }
{
    serve_all(alloc, server, reader, writer, MOST_WAITING, most_reads)
}
