//! Opening a server from a checkpoint.

ghost use Rattle.std.specs.Prelude.{◌≡◌, ◌≢◌, ◌≤◌, ◌⊎◌, IfErr, IfOk, IfSome, MatchResult};
ghost use Rattle.cell_key.specs.Faults.{HasRisen};
ghost use Rattle.oracle.specs.Marks.{IsWithinMark};
ghost use Rattle.rows.specs.Refusals.{IsReadRefusal};
ghost use Rattle.si_model.specs.Machine.{State, new_machine, reopened};

use crate::server::{Config, Server};
use cell_key::Refusal;
use file_store::Files;
use metadata_table::one_root;
use oracle::{MarkStore, Oracle};
use row_atomic::{Cluster, Recorded};
use std::alloc::Global;

impl<F: Files + Drop, M: MarkStore + Drop> Server<F, M> {
    ghost use Rattle.server_loop.specs.Opening.{IsLost, LacksRoot};
    ghost use Rattle.server_loop.specs.Resting.{KeepsState, RestsAt};
    ghost use Rattle.server_loop.specs.Server.{IsConfig, Shows, cluster_of, tending_of, last_of, marks_of};
    ghost use Rattle.server_loop.specs.Tending.{no_debt};

    /// Opens the store in these files and this mark store. Without a root file it is a new store. Only sessions,
    /// cleaners and collectors are forgotten.
    ///
    /// # Errors
    ///
    /// `Damaged` if the root file is malformed, if a file that it names is missing or malformed, or if the mark is
    /// below the root's greatest stamp; `NoMemory` if an allocation failed; `Device` if the files or the mark cannot be
    /// read. On failure the files and the mark store are returned.
    pub fn open(
        alloc: Global,
        files: F,
        marks: M,
        config: Config,
    ) -> Result<Server<F, M>, (Refusal, F, M)>
        requires config { IsConfig config }
        // If the files and the mark keep a state, the server shows that state after a clean restart, and rests at it.
        ensures kept { (st : State) → KeepsState F.contents M.mark files marks st
            → MatchResult result (λ server. RestsAt F.contents M.mark server (reopened st))
            (λ refused. refused.0 ≢ Refusal.Damaged) }
        ensures new { LacksRoot (F.contents files) → IfOk result (λ server.
            Shows F.contents server new_machine) }
        // A damaged store is never opened, and `Damaged` means damage, as far as the files and the mark are known.
        ensures whole { IfOk result (λ _. IfSome (F.contents files) (λ m.
            IfSome (M.mark marks) (λ mark. ¬ IsLost m mark))) }
        ensures damaged { IfErr result (λ refused. refused.0 ≡ Refusal.Damaged
            → IfSome (F.contents files) (λ m. IfSome (M.mark marks) (IsLost m))) }
        ensures files { IfOk result (λ server.
            F.contents (cluster_of server).files ≡ F.contents files) }
        ensures limit { IfOk result (λ server. (cluster_of server).file_limit ≡ config.file_limit) }
        // If the mark is known, the oracle continues from it.
        ensures last { IfOk result (λ server.
            IfSome (M.mark marks) (λ mark. last_of server ≡ mark)) }
        ensures mark { IfOk result (λ server. M.mark (marks_of server) ≡ M.mark marks) }
        ensures tending { IfOk result (λ server.
            tending_of server
            ≡ record { flush = config.flush; merge = None; merged_to = 0; debt = no_debt }) }
        // Unless the refusal is Device, both counts of faults are unchanged.
        ensures told { MatchResult result
            (λ server. (F.faults (cluster_of server).files ≡ F.faults files)
            × (M.faults (marks_of server) ≡ M.faults marks))
            (λ refused. refused.0 ≢ Refusal.Device
            → (F.faults refused.1 ≡ F.faults files) × (M.faults refused.2 ≡ M.faults marks)) }
        ensures refusal { IfErr result (λ refused. IsReadRefusal refused.0) }
        ensures device { IfErr result (λ refused. refused.0 ≡ Refusal.Device
            → HasRisen (F.faults files) (F.faults refused.1)
            ⊎ HasRisen (M.faults marks) (M.faults refused.2)) }
        ensures returned { IfErr result (λ refused.
            (F.contents refused.1 ≡ F.contents files) × (M.mark refused.2 ≡ M.mark marks)) }
        ensures unread { IfErr result (λ refused.
            refused.0 ≡ Refusal.NoMemory → refused.2 ≡ marks) }
    {
        one_root();
        let (cluster, top, floor) = match Cluster::open(alloc, files, config.file_limit) {
            Ok(opened) => opened,
            Err((refusal, files)) => return Err((refusal, files, marks)),
        };
        let oracle = match Oracle::open(marks) {
            Ok(oracle) => oracle,
            Err((refusal, marks)) => return Err((refusal, cluster.into_files(), marks)),
        };
        if oracle.last() < top {
            return Err((Refusal::Damaged, cluster.into_files(), oracle.into_mark()));
        }
        let rows = Recorded::new(cluster);
        Ok(Server::without_sessions(alloc, rows, oracle, top, floor, config))
    }

    /// Gives back the files and the mark store, unchanged. No stamp that was drawn is above the mark.
    pub fn into_devices(self) -> (F, M)
        ensures files { result.0 ≡ (cluster_of self).files }
        ensures marks { result.1 ≡ marks_of self }
        ensures within { IsWithinMark (last_of self) (M.mark (marks_of self)) }
    {
        let Server { rows, oracle, .. } = self;
        // This call shows that the last stamp is within the mark.
        let _last = oracle.last();
        (rows.into_files(), oracle.into_mark())
    }
}
