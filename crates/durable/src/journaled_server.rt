//! The server with a journal, over files that a put replaces as a whole.

ghost use Rattle.std.specs.Prelude.{◌≡◌, ◌≤◌};
ghost use Rattle.row_atomic.specs.Journals.{IsWithin};

use crate::atomic_put::AtomicPut;
use crate::journaled::Journaled;
use cell_key::{Refusal, Stamp};
use commit_log::laws::logs_edits;
use metadata_table::one_root;
use oracle::MarkStore;
use row_atomic::{
    root_is_stored, root_outlasts_flushes, root_outlasts_merges, root_outlasts_sweeps, root_stays,
};
use server_loop::{RootName, Server};
use si_model::{CellWrite, shows_reopened};

/// The bytes counted for each edit: the journal's upper bound of bytes, 67,108,864, divided by its bound of edits,
/// 100,000.
const BYTES_OF_EDIT: usize = 671;

impl<F: AtomicPut + Drop, M: MarkStore + Drop> Journaled for Server<F, M> {
    ghost use Rattle.durable.specs.Stored.{calls_of, view_of};
    ghost use Rattle.std.proofs.Common.{refl, ◌∙◌};

    ghost view = { view_of F.contents };

    ghost calls = { calls_of F.Files M.MarkStore };

    fn written(&self) -> usize {
        let of_edits = self.written_edits().saturating_mul(BYTES_OF_EDIT);
        self.written_bytes().max(of_edits)
    }

    fn is_recording(&self) -> bool {
        self.is_recording()
    }

    fn waiting(&self) -> &[u8] {
        self.waiting()
    }

    fn commit_bytes(&self, start: Stamp, writes: &[CellWrite<'_>]) -> usize {
        self.commit_bytes(start, writes)
    }

    fn settled(&mut self) {
        logs_edits();
        self.settled();
    }

    fn last(&self) -> Stamp {
        self.last_stamp()
    }

    fn root_name(&self) -> Result<RootName, Refusal> {
        self.root_name()
    }

    fn next_root_bytes(&self) -> usize {
        self.next_root_bytes()
    }

    fn flush_now(&mut self) -> Result<(), Refusal> {
        shows_reopened();
        root_outlasts_flushes::<F>();
        match self.flush_all() {
            Ok(()) => Ok(()),
            Err(refusal) => Err(refusal),
        }
    }

    fn put_root_now(&mut self) -> Result<(), Refusal> {
        shows_reopened();
        self.put_flushed_root()
    }

    fn emptied(&mut self) {
        self.emptied();
    }

    fn sweep_now(&mut self) -> Result<u64, Refusal> {
        root_outlasts_sweeps::<F>();
        self.sweep_beside_root()
    }

    fn journal_laws() {
        one_root();
        shows_reopened();
        root_is_stored::<F>();
        root_stays::<F>();
        root_outlasts_flushes::<F>();
        root_outlasts_merges::<F>();
    }

    ghost same_self = { λ server. refl };

    ghost same_then = { λ first mid last a b. a ∙ b };
}
