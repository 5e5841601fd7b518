//! A mark in memory.

ghost use Rattle.std.specs.Prelude.{◌≡◌, ◌<◌, ◌^◌, Some, IsOk};

use crate::marks::{MarkFault, MarkStore};
use cell_key::Stamp;
use std::marker::Model;

/// A mark in memory, which contracts know, and which never fails.
#[derive(Debug, Drop)]
pub struct MemMark {
    number: Stamp,
}

impl Model for MemMark {
    ghost use Rattle.std.specs.Prelude.{◌<◌, ◌^◌, ℕ};

    ghost Value = { ℕ };

    ghost view = { λ store. store.number };

    ghost invariant = { λ store. store.number < 2 ^ 63 };
}

impl MemMark {
    /// A store with no number stored yet.
    pub fn new() -> MemMark
        ensures { result ≡ 0 }
    {
        MemMark { number: 0 }
    }
}

impl MarkStore for MemMark {
    ghost mark = { λ store. Some store };

    ghost faults = { λ _. 0 };

    fn load(&mut self) -> Result<Stamp, MarkFault>
        ensures number { result ≡ Ok self.old }
        ensures limit { self.old < 2 ^ 63 }
        ensures kept { self.new ≡ self.old }
    {
        Ok(self.number)
    }

    fn store(&mut self, number: Stamp) -> Result<(), MarkFault>
        requires { number < 2 ^ 63 }
        ensures ok { IsOk result }
        ensures number { self.new ≡ number }
    {
        self.number = number;
        Ok(())
    }

    fn faults(&self) -> u64 {
        0
    }
}
