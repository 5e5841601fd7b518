//! Tables with edits that are ready to be put.

ghost use Rattle.std.specs.Prelude.{◌≡◌};

use crate::blocks::{self, Blocks};
use crate::entries::Slot;
use crate::size::Size;
use crate::stamp_range::StampRange;
use crate::table::Memtable;
use std::alloc::Global;
use std::marker::Model;

/// A table that was taken out, and edits that are ready to be put into it: the limits allow them, and the memory for
/// them is allocated. A pair of entry lists: the table's entries without the edits, and with them.
#[derive(Drop)]
pub struct Prepared {
    pub(crate) alloc: Global,
    pub(crate) blocks: Blocks,
    pub(crate) len: usize,
    pub(crate) bytes: usize,
    pub(crate) locks: usize,
    pub(crate) stamps: StampRange,
    /// The edits as entries.
    pub(crate) staged: Vec<Box<Slot>>,
    /// A range with the stamps of all keys, those of the edits among them.
    pub(crate) widened: StampRange,
}

impl Model for Prepared {
    ghost use Rattle.std.specs.Prelude.{List};
    ghost use Rattle.cell_key.specs.Entries.{Entry};
    ghost use Rattle.memtable.specs.Blocks.{block_entries};
    ghost use Rattle.memtable.specs.Prepared.{IsPrepared};
    ghost use Rattle.memtable.specs.Slots.{over, slot_entries};

    ghost Value = { List Entry × List Entry };

    ghost view = { λ ready. (
      block_entries ready.blocks.filled.items,
      over (slot_entries ready.staged.items) (block_entries ready.blocks.filled.items),
    ) };

    ghost invariant = { λ ready. IsPrepared ready.blocks ready.len ready.bytes ready.locks
        ready.stamps ready.staged ready.widened };
}

impl Prepared {
    /// The table with the edits. Allocates nothing.
    pub fn put(self) -> Memtable
        ensures { result ≡ self.1 }
    {
        let Prepared {
            alloc,
            mut blocks,
            len,
            bytes,
            locks,
            stamps: _,
            staged,
            widened,
        } = self;
        let before = Size {
            entries: len as u128,
            bytes: bytes as u128,
            locks: locks as u128,
        };
        let size = blocks::put_all(&mut blocks, staged, before);
        Memtable {
            alloc,
            blocks,
            len: size.entries as usize,
            bytes: size.bytes as usize,
            locks: size.locks as usize,
            stamps: widened,
        }
    }

    /// The table as it was, without the edits. Allocates nothing.
    pub fn cancel(self) -> Memtable
        ensures { result ≡ self.0 }
    {
        let Prepared {
            alloc,
            blocks,
            len,
            bytes,
            locks,
            stamps,
            staged: _,
            widened: _,
        } = self;
        Memtable {
            alloc,
            blocks,
            len,
            bytes,
            locks,
            stamps,
        }
    }
}
