//! The oracle of stamps.

ghost use Rattle.std.specs.Prelude.{◌≡◌, ◌↔◌, ◌+◌, ◌-◌, ◌<◌, ◌≤◌, ◌^◌, OnOk, OnErr, IfOk, IfErr, IfSome, IsOk, IsErrOf};
ghost use Rattle.cell_key.specs.Faults.{HasRisen};
ghost use Rattle.oracle.specs.Marks.{MayHold, mark_after, IsWithinMark};
ghost use Rattle.oracle.specs.Ranges.{next_range_end, IsDrawRefusal, SameNumbers};

use crate::marks::MarkStore;
use cell_key::{MOST_STAMP, Refusal, Stamp};
use std::marker::Model;

/// How many stamps a range has.
const RANGE: Stamp = 1000;

/// A source of stamps that ascend by one (Percolator, the timestamp oracle). A range of them is served only after its
/// last number was stored as the mark, so that no stamp is served again after a restart, as long as the mark store
/// returns the number stored.
#[derive(Drop)]
pub struct Oracle<M: MarkStore> {
    marks: M,
    last: Stamp,
    range_end: Stamp,
}

impl<M: MarkStore> Model for Oracle<M> {
    ghost use Rattle.std.specs.Prelude.{◌≤◌, ◌<◌, ◌^◌};
    ghost use Rattle.oracle.specs.Marks.{IsWithinMark};
    ghost use Rattle.oracle.specs.Ranges.{OracleState};

    ghost Value = { OracleState M };

    ghost view = { λ oracle.
        record { marks = oracle.marks; last = oracle.last; range_end = oracle.range_end } };

    ghost invariant = { λ oracle.
        (oracle.last ≤ oracle.range_end) × (oracle.range_end < 2 ^ 63)
        × IsWithinMark oracle.range_end (M.mark oracle.marks) };
}

/// The end of the next range after one with this end.
fn range_end_after(range_end: Stamp) -> Stamp
    requires { range_end < 2 ^ 63 }
    ensures { result ≡ next_range_end range_end }
{
    if range_end < MOST_STAMP - RANGE {
        range_end + RANGE
    } else {
        MOST_STAMP
    }
}

impl<M: MarkStore> Oracle<M> {
    /// An oracle whose last stamp is the mark. With the refusal, `Device`, the mark store is handed back.
    pub fn open(mut marks: M) -> Result<Oracle<M>, (Refusal, M)>
        ensures mark { IfOk result (λ oracle. IfSome (M.mark marks) (λ mark. oracle.last ≡ mark)) }
        ensures range { IfOk result (λ oracle. oracle.range_end ≡ oracle.last) }
        ensures limit { IfOk result (λ oracle. oracle.last < 2 ^ 63) }
        ensures kept { IfOk result (λ oracle. M.mark oracle.marks ≡ M.mark marks) }
        ensures later { IfOk result (λ oracle. M.faults marks ≤ M.faults oracle.marks) }
        ensures told { IfOk result (λ oracle. M.faults oracle.marks ≡ M.faults marks) }
        ensures refusal { IfErr result (λ refused. refused.0 ≡ Refusal.Device) }
        ensures device { IfErr result (λ refused. HasRisen (M.faults marks) (M.faults refused.1)) }
        ensures returned { IfErr result (λ refused. M.mark refused.1 ≡ M.mark marks) }
    {
        match marks.load() {
            Ok(mark) => Ok(Oracle {
                marks,
                last: mark,
                range_end: mark,
            }),
            Err(_) => Err((Refusal::Device, marks)),
        }
    }

    /// Begins the next range, whose end is stored as the mark first. The only refusal is `Device`.
    fn begin_range(&mut self) -> Result<(), Refusal>
        ensures stored { OnOk result
            ((self.new.range_end ≡ next_range_end self.old.range_end) × (M.mark self.new.marks
            ≡ mark_after self.new.range_end (M.mark self.old.marks))) }
        ensures last { self.new.last ≡ self.old.last }
        ensures refusal { IfErr result (λ refusal. refusal ≡ Refusal.Device) }
        ensures device { OnErr result (HasRisen
            (M.faults self.old.marks) (M.faults self.new.marks)) }
        ensures told { OnOk result (M.faults self.new.marks ≡ M.faults self.old.marks) }
        ensures err { OnErr result (SameNumbers self.old self.new) }
        ensures err_mark { OnErr result (MayHold
            (next_range_end self.old.range_end) (M.mark self.old.marks) (M.mark self.new.marks)) }
        ensures later { M.faults self.old.marks ≤ M.faults self.new.marks }
    {
        let range_end = range_end_after(self.range_end);
        self.marks.store(range_end)?;
        self.range_end = range_end;
        Ok(())
    }

    /// The next stamp. Refused with `Exhausted` once the greatest stamp was served, and with `Device` if the next range
    /// was needed and its end could not be stored.
    pub fn draw(&mut self) -> Result<Stamp, Refusal>
        ensures next { IfOk result (λ stamp. stamp ≡ self.old.last + 1) }
        ensures last { IfOk result (λ stamp. self.new.last ≡ stamp) }
        ensures limit { IfOk result (λ stamp. stamp < 2 ^ 63) }

        // Within a range nothing is stored and nothing is refused.
        ensures served { self.old.last < self.old.range_end → IsOk result }
        ensures unstored { self.old.last < self.old.range_end
            → (self.new.marks ≡ self.old.marks) × (self.new.range_end ≡ self.old.range_end) }

        // At its end the next range begins; its end is stored as the mark before its first stamp is served.
        ensures stored { self.old.range_end ≤ self.old.last → OnOk result
            ((self.new.range_end ≡ next_range_end self.old.range_end) × (M.mark self.new.marks
            ≡ mark_after self.new.range_end (M.mark self.old.marks))) }

        ensures refusals { IfErr result IsDrawRefusal }
        ensures exhausted { IsErrOf result Refusal.Exhausted ↔ (self.old.last ≡ MOST_STAMP) }
        ensures unchanged { IsErrOf result Refusal.Exhausted → self.new ≡ self.old }
        ensures device { IsErrOf result Refusal.Device
            → HasRisen (M.faults self.old.marks) (M.faults self.new.marks) }
        ensures told { ¬ IsErrOf result Refusal.Device
            → M.faults self.new.marks ≡ M.faults self.old.marks }
        ensures err { OnErr result (SameNumbers self.old self.new) }
        ensures err_mark { OnErr result (MayHold
            (next_range_end self.old.range_end) (M.mark self.old.marks) (M.mark self.new.marks)) }

        ensures later { M.faults self.old.marks ≤ M.faults self.new.marks }
        ensures below_mark { IsWithinMark self.new.last (M.mark self.new.marks) }
    {
        if self.last == MOST_STAMP {
            return Err(Refusal::Exhausted);
        }
        if self.last == self.range_end {
            self.begin_range()?;
        }
        self.last += 1;
        Ok(self.last)
    }

    /// Makes sure that the next `count` stamps can be served: if the range has fewer left, the next one begins, and its
    /// end is stored as the mark. Refused with `Exhausted` if fewer are left up to the greatest stamp, and with
    /// `Device` if the end could not be stored.
    pub fn ready(&mut self, count: Stamp) -> Result<(), Refusal>
        requires { count ≤ 1000 }
        ensures left { OnOk result (self.old.last + count ≤ self.new.range_end) }
        ensures last { self.new.last ≡ self.old.last }

        // If the range has as many, nothing is stored and nothing is refused.
        ensures enough { self.old.last + count ≤ self.old.range_end → IsOk result }
        ensures unstored { self.old.last + count ≤ self.old.range_end → self.new ≡ self.old }
        ensures stored { self.old.range_end < self.old.last + count → OnOk result
            ((self.new.range_end ≡ next_range_end self.old.range_end) × (M.mark self.new.marks
            ≡ mark_after self.new.range_end (M.mark self.old.marks))) }

        ensures refusals { IfErr result IsDrawRefusal }
        ensures exhausted { IsErrOf result Refusal.Exhausted
            ↔ (MOST_STAMP < self.old.last + count) }
        ensures unchanged { IsErrOf result Refusal.Exhausted → self.new ≡ self.old }
        ensures device { IsErrOf result Refusal.Device
            → HasRisen (M.faults self.old.marks) (M.faults self.new.marks) }
        ensures told { ¬ IsErrOf result Refusal.Device
            → M.faults self.new.marks ≡ M.faults self.old.marks }
        ensures err { OnErr result (SameNumbers self.old self.new) }
        ensures err_mark { OnErr result (MayHold
            (next_range_end self.old.range_end) (M.mark self.old.marks) (M.mark self.new.marks)) }

        ensures later { M.faults self.old.marks ≤ M.faults self.new.marks }
    {
        if count > MOST_STAMP - self.last {
            return Err(Refusal::Exhausted);
        }
        if count > self.range_end - self.last {
            self.begin_range()?;
        }
        Ok(())
    }

    /// Serves the next `count` stamps at once, which are left in the range. Nothing is stored.
    pub fn serve(&mut self, count: Stamp)
        requires { self.old.last + count ≤ self.old.range_end }
        ensures { self.new ≡ record self.old { last = self.old.last + count } }
    {
        self.last += count;
    }

    /// Drops the rest of the range and continues from the mark. The only refusal is `Device`.
    pub fn restart(&mut self) -> Result<(), Refusal>
        ensures mark { OnOk result (IfSome (M.mark self.old.marks) (λ mark. self.new.last ≡ mark)) }
        ensures range { OnOk result (self.new.range_end ≡ self.new.last) }
        ensures rises { self.old.last ≤ self.new.last }
        ensures limit { self.new.last < 2 ^ 63 }
        ensures kept { M.mark self.new.marks ≡ M.mark self.old.marks }
        ensures err { OnErr result (SameNumbers self.old self.new) }
        ensures refusal { IfErr result (λ refusal. refusal ≡ Refusal.Device) }
        ensures device { OnErr result (HasRisen
            (M.faults self.old.marks) (M.faults self.new.marks)) }
        ensures told { OnOk result (M.faults self.new.marks ≡ M.faults self.old.marks) }
        ensures later { M.faults self.old.marks ≤ M.faults self.new.marks }
        ensures below_mark { IsWithinMark self.new.last (M.mark self.new.marks) }
    {
        let mark = self.marks.load()?;
        self.last = self.last.max(mark);
        self.range_end = self.last;
        Ok(())
    }

    /// The last stamp, or the mark if none was drawn since the oracle was opened or restarted.
    pub fn last(&self) -> Stamp
        ensures last { result ≡ self.now.last }
        ensures limit { result < 2 ^ 63 }
        ensures below_mark { IsWithinMark result (M.mark self.now.marks) }
    {
        self.last
    }

    /// How often a device of the mark store has failed. The count saturates at 2^64 - 1.
    pub fn faults(&self) -> u64
        ensures { result ≡ M.faults self.now.marks }
    {
        self.marks.faults()
    }

    /// The mark store.
    pub fn into_mark(self) -> M
        ensures { result ≡ self.marks }
    {
        self.marks
    }
}
