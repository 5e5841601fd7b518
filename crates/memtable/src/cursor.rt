//! A cursor over the entries of a memtable.

ghost use Rattle.std.specs.Prelude.{◌≡◌, ◌↔◌, ◌++◌, ◌∷◌, [], IsTrue, IsSome, IfSome, MatchOption, None, option_map};
ghost use Rattle.std.specs.List.{AllByRecursion};
ghost use Rattle.cell_key.specs.Entries.{lent_entry, Takes};
ghost use Rattle.memtable.specs.Slots.{slot_entry, slot_entries};
ghost use Rattle.memtable.specs.Blocks.{block_entries, IsEntryBlock};

use crate::blocks::Block;
use crate::entries::Slot;
use cell_key::EntryRef;
use std::marker::Model;

/// A cursor over the entries of a memtable. In contracts it is its current entry, if it has one, and the remaining
/// ones. Allocates nothing.
#[derive(Drop)]
pub struct Cursor<'a> {
    current: Option<&'a Slot>,
    rest: &'a [Box<Slot>],
    later: &'a [Block],
}

impl<'a> Model for Cursor<'a> {
    ghost use Rattle.std.specs.Prelude.{List, Option, option_map, ◌++◌};
    ghost use Rattle.std.specs.List.{AllByRecursion};
    ghost use Rattle.cell_key.specs.Entries.{Entry};
    ghost use Rattle.memtable.specs.Slots.{slot_entry, slot_entries};
    ghost use Rattle.memtable.specs.Blocks.{block_entries, IsEntryBlock};

    ghost Value = { Option Entry × List Entry };

    ghost view = { λ cursor. (
      option_map (λ slot. slot_entry slot.now) cursor.current,
      slot_entries cursor.rest.now ++ block_entries cursor.later.now,
    ) };

    ghost invariant = { λ cursor. AllByRecursion IsEntryBlock cursor.later.now };
}

/// The first of the entries that are left, with the rest of its block and the later blocks.
fn first<'a>(
    rest: &'a [Box<Slot>],
    later: &'a [Block],
) -> Option<(&'a Slot, &'a [Box<Slot>], &'a [Block])>
    requires { AllByRecursion IsEntryBlock later.now }
    ensures first { MatchOption result (slot_entries rest.now ++ block_entries later.now ≡ []) (λ t.
        slot_entries rest.now ++ block_entries later.now
        ≡ slot_entry t.0.now ∷ (slot_entries t.1.now ++ block_entries t.2.now)) }
    ensures blocks { IfSome result (λ t. AllByRecursion IsEntryBlock t.2.now) }
{
    if let Some((slot, rest)) = rest.split_first() {
        return Some((slot, rest, later));
    }
    let (block, later) = later.split_first()?;
    let (slot, rest) = block.slots.split_first()?;
    Some((slot, rest, later))
}

impl<'a> Cursor<'a> {
    /// A cursor before these entries.
    pub(crate) fn new(rest: &'a [Box<Slot>], later: &'a [Block]) -> Cursor<'a>
        requires { AllByRecursion IsEntryBlock later.now }
        ensures { result ≡ (None, slot_entries rest.now ++ block_entries later.now) }
    {
        Cursor {
            current: None,
            rest,
            later,
        }
    }

    /// Goes to the next entry. Answers whether there is one.
    pub fn advance(&mut self) -> bool
        ensures more { IsTrue result ↔ IsSome self.new.0 }
        ensures takes { Takes self.new.0 self.old.1 self.new.1 }
    {
        let Some((slot, rest, later)) = first(self.rest, self.later) else {
            self.current = None;
            return false;
        };
        self.current = Some(slot);
        self.rest = rest;
        self.later = later;
        true
    }

    /// The current entry. `None` before the first and after the last.
    pub fn current(&self) -> Option<EntryRef<'_>>
        ensures { option_map lent_entry result ≡ self.now.0 }
    {
        let slot = self.current?;
        Some(slot.lend())
    }
}
