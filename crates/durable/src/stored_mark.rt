//! The oracle's mark beside a log. It is a number in a file, which is written before a root is put, or the stamp of a
//! later record of the log.

ghost use Rattle.std.specs.Prelude.{◌≡◌, ◌≤◌, ◌<◌, ◌^◌, max, IfErr, IfOk, IfSome, OnErr, OnOk};
ghost use Rattle.cell_key.specs.Faults.{HasRisen};
ghost use Rattle.oracle.specs.Marks.{IsWithinMark, MayHold};
ghost use Rattle.durable.specs.StoredMarks.{IsMarkOver};

use cell_key::{MOST_STAMP, Stamp};
use oracle::{MarkFault, MarkStore};
use std::marker::Model;

/// How many stamps a range of the oracle has.
const RANGE: Stamp = 1000;

/// A store of the oracle's mark, and how far its number and the log's records cover the stamps that are answered.
#[derive(Drop)]
pub struct StoredMark<M: MarkStore> {
    marks: M,
    stored: Stamp,
    covered: Stamp,
}

impl<M: MarkStore> Model for StoredMark<M> {
    ghost use Rattle.std.specs.Prelude.{◌≤◌, ◌<◌, ◌^◌};
    ghost use Rattle.oracle.specs.Marks.{IsWithinMark};
    ghost use Rattle.durable.specs.StoredMarks.{MarkView};

    ghost Value = { MarkView M };

    ghost view = { λ mark.
        record { marks = mark.marks; stored = mark.stored; covered = mark.covered } };

    ghost invariant = { λ mark.
        (mark.stored ≤ mark.covered) × (mark.covered < 2 ^ 63)
        × IsWithinMark mark.stored (M.mark mark.marks) };
}

impl<M: MarkStore> StoredMark<M> {
    /// The mark that a store keeps. The stamps up to it are covered. After a device's fault the store is given back.
    pub(crate) fn load(mut marks: M) -> Result<StoredMark<M>, M>
        ensures stored { IfOk result (λ mark. IfSome (M.mark marks) (λ number.
            mark.stored ≡ number)) }
        ensures covered { IfOk result (λ mark. mark.covered ≡ mark.stored) }
        ensures limit { IfOk result (λ mark. mark.stored < 2 ^ 63) }
        ensures kept { IfOk result (λ mark. M.mark mark.marks ≡ M.mark marks) }
        ensures told { IfOk result (λ mark. M.faults mark.marks ≡ M.faults marks) }
        ensures returned { IfErr result (λ back. M.mark back ≡ M.mark marks) }
        ensures device { IfErr result (λ back. HasRisen (M.faults marks) (M.faults back)) }
    {
        match marks.load() {
            Ok(number) => Ok(StoredMark {
                marks,
                stored: number,
                covered: number,
            }),
            Err(_) => Err(marks),
        }
    }

    /// The greatest stamp that is covered.
    pub(crate) fn covered(&self) -> Stamp
        ensures covered { result ≡ self.now.covered }
        ensures limit { result < 2 ^ 63 }
    {
        self.covered
    }

    /// The number up to which the store covers all stamps.
    pub(crate) fn stored(&self) -> Stamp
        ensures stored { result ≡ self.now.stored }
        ensures limit { result < 2 ^ 63 }
    {
        self.stored
    }

    /// The mark of a record after which this stamp is covered too. It ends a range of the oracle, since the oracle's
    /// ranges begin at the mark that was opened.
    pub(crate) fn mark_over(&self, last: Stamp) -> Stamp
        requires { last < 2 ^ 63 }
        ensures mark { IsMarkOver self.now.covered last result }
        ensures limit { result < 2 ^ 63 }
    {
        if last <= self.covered {
            return self.covered;
        }
        let over = (last - self.covered) % RANGE;
        if over == 0 {
            return last;
        }
        (last + (RANGE - over)).min(MOST_STAMP)
    }

    /// From now on the stamps up to this one are covered too, by a record of the log.
    pub(crate) fn cover(&mut self, stamp: Stamp)
        requires { stamp < 2 ^ 63 }
        ensures { self.new ≡ record self.old { covered = max (self.old).covered stamp } }
    {
        self.covered = self.covered.max(stamp);
    }

    /// Stores the greatest covered stamp, if the store doesn't cover it. After an `Err` the mark is the old number or
    /// that stamp.
    pub(crate) fn store(&mut self) -> Result<(), MarkFault>
        ensures ok { OnOk result (self.new.stored ≡ self.old.covered) }
        ensures err { OnErr result (self.new.stored ≡ self.old.stored) }
        ensures rises { self.old.stored ≤ self.new.stored }
        ensures covered { self.new.covered ≡ self.old.covered }
        ensures limit { self.new.covered < 2 ^ 63 }
        ensures mark { MayHold self.old.covered
            (M.mark self.old.marks) (M.mark self.new.marks) }
        ensures device { OnErr result (HasRisen
            (M.faults self.old.marks) (M.faults self.new.marks)) }
        ensures told { OnOk result (M.faults self.new.marks ≡ M.faults self.old.marks) }
    {
        if self.stored < self.covered {
            self.marks.store(self.covered)?;
            self.stored = self.covered;
        }
        Ok(())
    }

    /// The mark store. Its mark is at least the number stored.
    pub(crate) fn into_store(self) -> M
        ensures marks { result ≡ self.marks }
        ensures within { IsWithinMark self.stored (M.mark result) }
    {
        self.marks
    }
}
