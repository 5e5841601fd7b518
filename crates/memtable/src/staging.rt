//! Edits as entries, before any of them is applied.

ghost use Rattle.std.specs.Prelude.{◌≡◌, ◌≤◌, ◌^◌, List, length, IsOk, IfOk, OnOk, IsOkUnless};
ghost use Rattle.std.specs.List.{All, AllByRecursion};
ghost use Rattle.cell_key.specs.Keys.{text};
ghost use Rattle.cell_key.specs.Names.{IsRow, IsFamily};
ghost use Rattle.cell_key.specs.Entries.{Entry, IsRising, IsEntry};
ghost use Rattle.memtable.specs.Slots.{slot_entry, slot_entries, over};
ghost use Rattle.memtable.specs.Sizes.{IsSizeOf};
ghost use Rattle.memtable.specs.Blocks.{block_entries, IsEntryBlock};
ghost use Rattle.memtable.specs.Edits.{edit_entry, with_edits, HasStoredKey, IsLimited};

use crate::blocks::{self, Block};
use crate::entries::{self, Slot};
use crate::key_text::EntryText;
use crate::size::Size;
use crate::sought::version_of;
use crate::stack_text::ShortBytes;
use cell_key::{CellKey, Edit, Refusal};
use smallvec::SmallVec;
use std::alloc::Global;

/// The text of a key.
#[inline(always)]
fn text_of(alloc: Global, key: &CellKey) -> Result<EntryText, Refusal>
    ensures text { IfOk result (λ made. made ≡ text key.now) }
    ensures short { length (text key.now) ≤ 48 → IsOk result }
    ensures row { IsRow key.now.row }
    ensures family { IsFamily key.now.family }
    ensures refusal { IsOkUnless result Refusal.NoMemory }
{
    // These calls show that row and family are within their limits.
    let _row = key.row.as_bytes();
    let _family = key.family.as_bytes();
    let mut short = ShortBytes::new();
    if version_of(key).push_text(&mut short).is_ok() {
        let bytes = SmallVec::from_slice(alloc, short.as_slice())?;
        return Ok(EntryText::new(bytes));
    }
    let mut bytes = Vec::new(alloc);
    key.encode(&mut bytes)?;
    Ok(EntryText::new(SmallVec::from(bytes)))
}

/// An edit as an entry.
pub(crate) fn slot_of(alloc: Global, edit: Edit) -> Result<Box<Slot>, Refusal>
    requires { IsLimited edit }
    ensures entry { IfOk result (λ slot. slot_entry slot.value ≡ edit_entry edit) }
    ensures limits { IfOk result (λ slot. IsEntry (slot_entry slot.value)) }
    ensures key { OnOk result (HasStoredKey edit) }
    ensures refusal { IsOkUnless result Refusal.NoMemory }
{
    let slot = match edit {
        Edit::Put(key, value) => Slot {
            text: text_of(alloc, &key)?,
            value: Some(value),
        },
        Edit::Erase(key) => Slot {
            text: text_of(alloc, &key)?,
            value: None,
        },
    };
    Ok(Box::new(alloc, slot)?)
}

/// Edits as entries, only the last edit of each text.
pub(crate) fn stage(alloc: Global, edits: Vec<Edit>) -> Result<Vec<Box<Slot>>, Refusal>
    requires { AllByRecursion IsLimited edits.items }
    ensures rising { IfOk result (λ staged. IsRising (slot_entries staged.items)) }
    ensures staged { IfOk result (λ staged. (table : List Entry) → IsRising table
        → over (slot_entries staged.items) table ≡ with_edits table edits.items) }
    ensures limits { IfOk result (λ staged. AllByRecursion IsEntry (slot_entries staged.items)) }
    ensures keys { OnOk result (AllByRecursion HasStoredKey edits.items) }
    ensures refusal { IsOkUnless result Refusal.NoMemory }
{
    let mut staged = Vec::with_capacity(alloc, edits.len())?;
    for edit in edits {
        let slot = slot_of(alloc, edit)?;
        drop(entries::put(&mut staged, slot));
    }
    Ok(staged)
}

/// The size of a table after entries are put over it.
pub(crate) fn size_with(table: &[Block], before: Size, staged: &[Box<Slot>]) -> Size
    requires rising { IsRising (block_entries table.now) }
    requires blocks { AllByRecursion IsEntryBlock table.now }
    requires before { IsSizeOf before (block_entries table.now) }
    requires few { before.entries ≤ 2 ^ 64 }
    requires small { before.bytes ≤ 2 ^ 64 }
    requires staged { IsRising (slot_entries staged.now) }
    requires limits { AllByRecursion IsEntry (slot_entries staged.now) }
    ensures { IsSizeOf result (over (slot_entries staged.now) (block_entries table.now)) }
{
    let mut size = before;
    let mut at = staged.len();
    while at > 0 {
        at -= 1;
        let slot = &staged[at];
        size = size.with(slot.size(), blocks::stood_size(table, slot.text.as_slice()));
    }
    size
}
