//! Servers with a journal: the contract of the server under a log.

ghost use Rattle.std.specs.Prelude.{◌≡◌, ◌≢◌, ◌≤◌, ◌⊎◌, ◌++◌, ℕ, List, [], Bool, Err, length, true, IfErr, IfOk, IsErrOf, OnErr, OnOk};
ghost use Rattle.cell_key.specs.Cells.{Cells};
ghost use Rattle.row_atomic.specs.Journals.{IsWithin};
ghost use Rattle.row_atomic.specs.RootLengths.{IsRoomBehind};
ghost use Rattle.request_codec.specs.declared.answers.Answer.{Answer as CodecAnswer};
ghost use Rattle.request_codec.specs.declared.answers.Answer.TheVariants.{Said};
ghost use Rattle.request_codec.specs.declared.operations.Operation.{Operation as LentOperation};
ghost use Rattle.request_codec.specs.declared.operations.Operation.TheVariants.{One};
ghost use Rattle.request_codec.specs.declared.replies.Reply.{Reply as CodecReply};
ghost use Rattle.request_codec.specs.declared.requests.Request.{Request as Lent};
ghost use Rattle.metadata_table.specs.Roots.{RootView};
ghost use Rattle.durable.specs.Answers.{ActsAsCheckpoint, Follows, IsNameOf, KeepsJournal, MovesTablets, StaysRooted, StaysStored, TouchesRoots};
ghost use Rattle.durable.specs.View.{RootCalls, View};
ghost use Rattle.si_model.specs.Machine.{IsReached, IsStorageRefusal, Place, State};
ghost use Rattle.cell_key.specs.declared.refusals.Refusal.{Refusal};

use cell_key::{Refusal, Stamp};
use server_loop::{Handler, RootName};
use si_model::CellWrite;

/// A server with a journal of its edits: those that the log has, and those that wait for the log.
pub(crate) trait Journaled: Handler {
    /// What a log and a root know of it.
    ghost view: { View Self };

    /// Its calls that put roots or remove files.
    ghost calls: { RootCalls Self };

    /// The size of the journal in bytes, or 671 for each edit if that is more.
    fn written(&self) -> usize
        ensures { result ≡ view.size self.now };

    /// Whether it has a journal.
    fn is_recording(&self) -> bool
        ensures { result ≡ view.recording self.now };

    /// The bytes of the edits that wait for the log.
    fn waiting(&self) -> &[u8]
        ensures bytes { result.now ≡ view.waiting self.now }
        ensures short { length result.now ≤ 67108864 }
        ensures within { IsWithin (record {
          logged = view.logged self.now;
          waiting = view.waiting self.now;
          count = view.count self.now;
          entry_bytes = view.entry_bytes self.now;
        }) };

    /// An upper bound of the bytes of the edits that a transaction of these writes makes.
    fn commit_bytes(&self, start: Stamp, writes: &[CellWrite<'_>]) -> usize;

    /// Notes that the log has all edits of the journal.
    fn settled(&mut self)
        ensures logged { view.logged self.new ≡ view.logged self.old ++ view.waiting self.old }
        ensures waiting { view.waiting self.new ≡ [] }
        ensures recording { view.recording self.new ≡ view.recording self.old }
        ensures shown { (st : State) → Self.shows self.old st → Self.shows self.new st }
        ensures stays { StaysRooted view self.old self.new }
        ensures stamp { view.last self.new ≡ view.last self.old }
        ensures same { view.same self.old self.new };

    /// The oracle's last stamp.
    fn last(&self) -> Stamp
        ensures { result ≡ view.last self.now };

    /// The name of the root that would be put now: right after a flush the next root, and right after a checkpoint the
    /// root on disk.
    fn root_name(&self) -> Result<RootName, Refusal>
        ensures name { IfOk result (λ name. IsNameOf name (view.next_root self.now)) }
        ensures refusal { IfErr result (λ refusal. refusal ≡ Refusal.NoMemory) };

    /// The bytes of a root that is put now, and those of the greatest tablet, or the greatest number. Right after a
    /// checkpoint, a root that is put after a split or a move has no more.
    fn next_root_bytes(&self) -> usize
        ensures { IsRoomBehind (view.next_root self.now) result };

    /// Flushes every tablet. No root is put.
    fn flush_now(&mut self) -> Result<(), Refusal>
        ensures flushed { OnOk result (calls.flushes self.old self.new) }
        ensures refused { OnErr result
            (ActsAsCheckpoint view calls Self.shows self.old result self.new) }
        ensures rootless { OnOk result
            (ActsAsCheckpoint view calls Self.shows self.old (Err Refusal.NoMemory) self.new) }
        ensures shown { (st : State) → Self.shows self.old st → Self.shows self.new st }
        ensures refusal { IfErr result IsStorageRefusal }
        ensures keeps { KeepsJournal view self.old self.new }
        ensures stays { StaysRooted view self.old self.new };

    /// Puts the root of a server whose tablets were flushed, by the name that `root_name` gives before it and after it.
    fn put_root_now(&mut self) -> Result<(), Refusal>
        ensures checkpoints { (first : Self) → calls.flushes first self.old
            → ActsAsCheckpoint view calls Self.shows first result self.new }
        ensures next { view.next_root self.new ≡ view.next_root self.old }
        ensures refusal { IfErr result IsStorageRefusal };

    /// Empties the journal.
    fn emptied(&mut self)
        ensures logged { view.logged self.new ≡ [] }
        ensures waiting { view.waiting self.new ≡ [] }
        ensures recording { view.recording self.new ≡ view.recording self.old }
        ensures shown { view.is_clean self.old → (st : State) → Self.shows self.old st
            → Self.shows self.new st }
        ensures stays { StaysRooted view self.old self.new }
        ensures stamp { view.last self.new ≡ view.last self.old }
        ensures clean { view.is_clean self.old → view.is_clean self.new }
        ensures same { view.same self.old self.new };

    /// Removes the files that neither a tablet nor the root has, and answers how many they were.
    fn sweep_now(&mut self) -> Result<u64, Refusal>
        ensures shown { (st : State) → Self.shows self.old st → Self.shows self.new st }
        ensures refusal { IfErr result IsStorageRefusal }
        ensures whole { view.recording self.old ≡ true → (st : State) → Self.shows self.old st
            → ¬ IsErrOf result Refusal.Damaged }
        ensures says { calls.sweeps self.old result self.new }
        ensures keeps { KeepsJournal view self.old self.new }
        ensures stays { StaysRooted view self.old self.new };

    /// The journal leads from the root's cells to the state that is shown. There is one root. Answers leave the stored
    /// cells, the root and the logged edits unchanged, except those of Checkpoint, Sweep, Split and Move. A Split or a
    /// Move leaves the stored cells, the journal and the last stamp unchanged. Upkeep between answers leaves the stored
    /// cells, the root, the logged edits and the state that is shown unchanged. No stamp of the next root is above the last
    /// one.
    fn journal_laws()
        ensures follows { (server : Self) (root : RootView) (st : State)
            → view.recording server ≡ true → view.is_rooted server root → Self.shows server st
            → Follows view server root st }
        ensures one { (server : Self) (root other : RootView) (base : Cells) (places : List Place)
            → view.stores server root base places → view.is_rooted server other → root ≡ other }
        ensures leaves { (old new : Self) (operation : LentOperation) (answer : CodecAnswer)
            → ¬ TouchesRoots operation → Self.says old operation answer new → (now : State)
            → IsReached now → Self.shows old now → StaysRooted view old new
            × (view.logged new ≡ view.logged old) }
        ensures moves { (old new : Self) (request : Lent) (reply : CodecReply)
            → MovesTablets request → Self.says old (One request) (Said reply) new
            → StaysStored view old new × KeepsJournal view old new }
        ensures tends { (old new : Self) → Self.between old new → StaysRooted view old new
            × (view.logged new ≡ view.logged old) × ((st : State) → Self.shows old st
            → Self.shows new st) }
        ensures low { (server : Self) (st : State) → Self.shows server st
            → (view.next_root server).top ≤ view.last server };

    ghost same_self: { (server : Self) → view.same server server };

    ghost same_then: { (first mid last : Self) → view.same first mid → view.same mid last
        → view.same first last };
}
