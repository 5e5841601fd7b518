//! The server over a reader and a writer: for one client, and for several.

ghost use Rattle.std.specs.Prelude.{[]};
ghost use Rattle.row_server.specs.Answers.{IsAnswerTo, IsTended};
ghost use Rattle.row_server.specs.Server.{MayLeave, MayNotLeave, Shows};
ghost use Rattle.server_loop.specs.Batches.{IsAnswered, ServesOn};
ghost use Rattle.server_loop.specs.Clients.{ServesClients};

use crate::server::RowServer;
use remote_rows::{SharedRows, SharedStamps};
use server_loop::{ClientServer, End, ServeFault, serve_all};
use std::io::{Read, Write};

impl<R: SharedRows, S: SharedStamps> RowServer<R, S> {
    /// Serves framed requests until the input ends, with at most `most_reads` reads, as `Server::serve` does: each
    /// reply is written before the next frame is taken. If nobody else uses the rows and the stamps, the replies are
    /// given by a run of the snapshot machine. Whoever uses them, each reply is what one server among several promises,
    /// and none leaves once the rows or the stamps are lost: the server then gives up with `ServeFault::Log`.
    pub fn serve<I: Read, O: Write>(
        &mut self,
        reader: &mut I,
        writer: &mut O,
        most_reads: u64,
    ) -> Result<End, ServeFault>
        ensures { ServesOn (IsAnswered (Shows R.seen S.source)
            (IsAnswerTo R.Rows R.forgot R.raced S.Stamps S.allows) (IsTended S.source))
            (MayLeave R.lost S.lost) (MayNotLeave R.lost S.lost) 1 [] self.old self.new
            (I.remaining reader.old) (I.remaining reader.new)
            (O.contents writer.old) (O.contents writer.new) most_reads result }
    {
        serve_all(self.alloc, self, reader, writer, 1, most_reads)
    }
}

/// Serves the clients of a server, as `ClientServer::serve` does: each reply is written before the next frame is taken.
pub fn serve_clients<R: SharedRows, S: SharedStamps, I: Read, O: Write>(
    server: &mut ClientServer<RowServer<R, S>>,
    reader: &mut I,
    writer: &mut O,
    most_reads: u64,
) -> Result<End, ServeFault>
    ensures { ServesClients (Shows R.seen S.source)
        (IsAnswerTo R.Rows R.forgot R.raced S.Stamps S.allows) (IsTended S.source)
        1 server.old server.new (I.remaining reader.old) (I.remaining reader.new)
        (O.contents writer.old) (O.contents writer.new) most_reads result }
{
    server.serve(reader, writer, 1, most_reads)
}
