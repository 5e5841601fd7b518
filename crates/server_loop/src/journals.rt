//! The journal of a server's edits, for a log.

ghost use Rattle.std.specs.Prelude.{◌≡◌, IfSome, is_some, option_map};
ghost use Rattle.row_atomic.specs.Journals.{IsWithin, all_logged, empty_journal};
ghost use Rattle.row_atomic.specs.Recorded.{bytes_written, edits_written, waiting_of};

use crate::server::Server;
use cell_key::Stamp;
use file_store::Files;
use oracle::MarkStore;

impl<F: Files + Drop, M: MarkStore + Drop> Server<F, M> {
    ghost use Rattle.server_loop.specs.Server.{journal_of, last_of, rows_of};

    /// Whether edits are recorded in a journal.
    pub fn is_recording(&self) -> bool
        ensures { result ≡ is_some (journal_of self.now) }
    {
        self.rows.is_recording()
    }

    /// The oracle's last stamp.
    pub fn last_stamp(&self) -> Stamp
        ensures { result ≡ last_of self.now }
    {
        self.oracle.last()
    }

    /// The bytes of the edits that are not in the log yet: the body of the log's next record. Empty if edits aren't
    /// recorded.
    pub fn waiting(&self) -> &[u8]
        ensures bytes { result.now ≡ waiting_of (journal_of self.now) }
        ensures within { IfSome (journal_of self.now) IsWithin }
    {
        self.rows.waiting()
    }

    /// The number of edits in the journal, at most 100,000.
    pub fn written_edits(&self) -> usize
        ensures { result ≡ edits_written (journal_of self.now) }
    {
        self.rows.written_edits()
    }

    /// The size of the journal in bytes, at most 67,108,864.
    pub fn written_bytes(&self) -> usize
        ensures { result ≡ bytes_written (journal_of self.now) }
    {
        self.rows.written_bytes()
    }

    /// Notes that the log has all edits of the journal.
    pub fn settled(&mut self)
        ensures { self.new ≡ record self.old {
          rows = record (rows_of self.old) {
            journal = option_map all_logged (journal_of self.old);
          };
        } }
    {
        self.rows.settled();
    }

    /// Empties the journal, after a root was put that has all of its edits and the log was emptied.
    pub fn emptied(&mut self)
        ensures { self.new ≡ record self.old {
          rows = record (rows_of self.old) {
            journal = option_map (λ _. empty_journal) (journal_of self.old);
          };
        } }
    {
        self.rows.emptied();
    }
}
