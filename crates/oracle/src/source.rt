//! The oracle as a source of stamps that nobody else draws from.

ghost use Rattle.std.specs.Prelude.{Some};
ghost use Rattle.oracle.specs.Ranges.{LeavesNumbers};

use crate::marks::MarkStore;
use crate::stamps::Oracle;
use cell_key::{Refusal, Stamp};
use rows::Stamps;

impl<M: MarkStore> Stamps for Oracle<M> {
    ghost source = { record {
      last = λ oracle. oracle.last;
      known = λ oracle. Some oracle.last;
      leaves = LeavesNumbers M.mark;
    } };

    ghost faults = { λ oracle. M.faults oracle.marks };

    fn known(&self) -> Option<Stamp> {
        Some(self.last())
    }

    fn draw(&mut self) -> Result<Stamp, Refusal> {
        self.draw()
    }
}
