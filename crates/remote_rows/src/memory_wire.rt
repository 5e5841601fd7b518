//! A wire to rows and stamps in memory.

ghost use Rattle.std.specs.Prelude.{◌≡◌, ◌<◌, ◌^◌, All, Some, false, ⊤, [], IfOk, OnOk, IsOkUnless, length};
ghost use Rattle.std.specs.FinMap.{empty};
ghost use Rattle.std.specs.List.{AllByRecursion};
ghost use Rattle.cell_key.specs.Cells.{after_edits, IsEditOf};
ghost use Rattle.remote_rows.specs.Copies.{Appends, AppendsIfOf, IsCopyOf};
ghost use Rattle.remote_rows.specs.Wires.{IsEdit, IsSameRow};

use crate::replies::is_of;
use crate::wire::{FetchedRow, Page, RowWire, StampWire, Swap};
use cell_key::{Edit, Family, MOST_STAMP, Refusal, Row, Stamp};
use std::alloc::Global;

/// A wire to rows and stamps in memory, which nobody else changes: for tests, and where one server is enough. It keeps
/// all edits that were made, and a row's guard is their number. A page has all keys, in the order of their edits.
#[derive(Drop)]
pub struct MemoryWire {
    alloc: Global,
    edits: Vec<Edit>,
    last: Stamp,
    ghost whole: { All IsEdit edits.items },
    ghost limit: { last < 2 ^ 63 },
}

impl MemoryWire {
    /// No rows, and no stamp drawn. Allocates nothing.
    pub fn new(alloc: Global) -> MemoryWire
        ensures edits { result.edits.items ≡ [] }
        ensures last { result.last ≡ 0 }
    {
        MemoryWire {
            alloc,
            edits: Vec::new(alloc),
            last: 0,
        }
    }
}

/// A copy of an edit.
fn copy(alloc: Global, edit: &Edit) -> Result<Edit, Refusal>
    ensures copy { IfOk result (IsCopyOf edit.now) }
    ensures refusal { IsOkUnless result Refusal.NoMemory }
{
    match edit {
        Edit::Put(key, value) => Ok(Edit::Put(key.clone()?, value.to_vec(alloc)?)),
        Edit::Erase(key) => Ok(Edit::Erase(key.clone()?)),
    }
}

/// Appends a copy of an edit.
fn push_copy(alloc: Global, found: &mut Vec<Edit>, edit: &Edit) -> Result<(), Refusal>
    ensures ok { OnOk result (Appends edit.now found.old.items found.new.items) }
    ensures refusal { IsOkUnless result Refusal.NoMemory }
{
    let copy = copy(alloc, edit)?;
    found.push(copy)?;
    Ok(())
}

/// Appends a copy of an edit, if it is of the row.
fn push_if_of(alloc: Global, found: &mut Vec<Edit>, row: &Row, edit: &Edit) -> Result<(), Refusal>
    ensures ok { OnOk result (AppendsIfOf row.now edit.now found.old.items found.new.items) }
    ensures refusal { IsOkUnless result Refusal.NoMemory }
{
    if is_of(row, edit) {
        push_copy(alloc, found, edit)
    } else {
        Ok(())
    }
}

/// Copies of all edits.
fn copies(alloc: Global, edits: &[Edit]) -> Result<Vec<Edit>, Refusal>
    requires { AllByRecursion IsEdit edits.now }
    ensures same { IfOk result (λ found.
        after_edits empty found.items ≡ after_edits empty edits.now) }
    ensures each { IfOk result (λ found. AllByRecursion IsEdit found.items) }
    ensures refusal { IsOkUnless result Refusal.NoMemory }
{
    let mut found = Vec::new(alloc);
    for edit in edits {
        push_copy(alloc, &mut found, edit)?;
    }
    Ok(found)
}

/// Copies of the edits of a row.
fn copies_of(alloc: Global, row: &Row, edits: &[Edit]) -> Result<Vec<Edit>, Refusal>
    requires { AllByRecursion IsEdit edits.now }
    ensures same { IfOk result (λ found. IsSameRow row.now
        (after_edits empty edits.now) (after_edits empty found.items)) }
    ensures each { IfOk result (λ found. AllByRecursion (IsEditOf row.now) found.items) }
    ensures refusal { IsOkUnless result Refusal.NoMemory }
{
    let mut found = Vec::new(alloc);
    for edit in edits {
        push_if_of(alloc, &mut found, row, edit)?;
    }
    Ok(found)
}

impl RowWire for MemoryWire {
    ghost seen = { record {
      cells = λ wire. Some (after_edits empty wire.edits.items);
      guard = λ wire _. length wire.edits.items;
    } };

    ghost failed = { λ _. false };

    ghost begun = { λ _. ⊤ };

    fn begin(&mut self) {}

    fn fetch(&mut self, row: &Row) -> Result<FetchedRow, Refusal> {
        let edits = copies_of(self.alloc, row, &self.edits)?;
        Ok(FetchedRow {
            guard: self.edits.len() as u64,
            edits,
        })
    }

    fn swap(&mut self, _row: &Row, guard: u64, edits: Vec<Edit>) -> Result<Swap, Refusal> {
        if guard != self.edits.len() as u64 {
            return Ok(Swap::Raced);
        }
        let mut edits = edits;
        self.edits.append(&mut edits)?;
        Ok(Swap::Done)
    }

    fn page(&mut self, _after: Option<(&Row, &Family)>, _most: u32) -> Result<Page, Refusal> {
        let edits = copies(self.alloc, &self.edits)?;
        Ok(Page {
            edits,
            is_last: true,
        })
    }

    fn is_failed(&self) -> bool {
        false
    }
}

impl StampWire for MemoryWire {
    ghost last = { λ wire. Some wire.last };

    ghost told = { λ _ _. ⊤ };

    ghost failed = { λ _. false };

    fn known(&self) -> Option<Stamp> {
        Some(self.last)
    }

    fn draw(&mut self) -> Result<Stamp, Refusal> {
        if self.last == MOST_STAMP {
            return Err(Refusal::Device);
        }
        self.last += 1;
        Ok(self.last)
    }

    fn publish(&mut self, floor: Stamp) -> Result<Stamp, Refusal> {
        Ok(floor)
    }

    fn is_failed(&self) -> bool {
        false
    }
}
