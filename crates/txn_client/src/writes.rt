//! The buffered writes of a session.

ghost use Rattle.std.specs.Prelude.{◌≡◌, ◌≢◌, ◌↔◌, ◌⊎◌, ◌+◌, ◌-◌, ◌^◌, ◌≤◌, ◌<◌, ℕ, [], map, length, slice_get, Some, None, IsTrue, false, IfOk, IfErr, OnOk, OnErr, IsErrOf, IfSome, IfNone, OnSome};
ghost use Rattle.si_model.specs.Machine.{Names, Sets};
ghost use Rattle.si_model.specs.ShowsCells.{kind_of_change};
ghost use Rattle.txn_client.specs.CellOrder.{IsOrder, IsPlaceFor};
ghost use Rattle.txn_client.specs.Writes.{IsIndexOf, NoneBefore, bytes_of, bytes_of_write, write_of};

use crate::cell_order::{self, FEW};
use crate::value::Value;
use cell_key::{Refusal, WriteKind};
use si_model::Cell;
use std::alloc::Global;
use std::marker::Model;

/// A session's write of a cell: a value, or `None` for a deletion.
#[derive(Drop)]
pub(crate) struct Write {
    pub(crate) cell: Cell,
    pub(crate) value: Option<Value>,
}

impl Write {
    /// The kind of the write.
    pub(crate) fn kind(&self) -> WriteKind
        ensures { result ≡ kind_of_change self.now.value }
    {
        match self.value {
            Some(_) => WriteKind::Set,
            None => WriteKind::Delete,
        }
    }

    /// The bytes of the row, the family and the value, which has none for a deletion.
    fn bytes(&self) -> u64
        ensures { result ≡ bytes_of_write self.now }
    {
        let name = self.cell.row.as_bytes().len() + self.cell.family.as_bytes().len();
        let value = match &self.value {
            Some(value) => value.len(),
            None => 0,
        };
        (name + value) as u64
    }

    /// A copy.
    fn copy(&self) -> Result<Write, Refusal>
        ensures copied { IfOk result (λ write. write ≡ self.now) }
        ensures refusal { IfErr result (λ refusal. refusal ≡ Refusal.NoMemory) }
    {
        let row = self.cell.row.clone()?;
        let family = self.cell.family.clone()?;
        let cell = Cell { row, family };
        match &self.value {
            Some(value) => {
                let value = value.copy()?;
                Ok(Write {
                    cell,
                    value: Some(value),
                })
            }
            None => Ok(Write { cell, value: None }),
        }
    }
}

/// The writes of a session, in the order in which their cells were first set or deleted: at most 256.
#[derive(Drop)]
pub(crate) struct Writes {
    entries: Vec<Write>,
    /// The indices of all but the first few entries, sorted by cell.
    order: Vec<u16>,
    /// The bytes of all entries.
    bytes: u64,
}

impl Model for Writes {
    ghost use Rattle.std.specs.Prelude.{List, length, ◌≡◌, ◌≤◌};
    ghost use Rattle.txn_client.specs.CellOrder.{IsOrder};
    ghost use Rattle.txn_client.specs.Writes.{bytes_of};
    ghost use Rattle.txn_client.specs.declared.writes.Write.{Write};

    ghost Value = { List Write };

    ghost view = { λ writes. writes.entries.items };

    ghost invariant = { λ writes. (length writes.entries.items ≤ 256)
        × IsOrder writes.entries.items writes.order.items
        × (writes.bytes ≡ bytes_of writes.entries.items) };
}

/// False only if two nonempty names differ. Most different names differ in their length or their last byte.
#[inline(always)]
fn may_be_same(name: &[u8], other: &[u8]) -> bool
    requires first { 1 ≤ length name.now }
    requires second { 1 ≤ length other.now }
    ensures { result ≡ false → name.now ≢ other.now }
{
    name.len() == other.len() && name[name.len() - 1] == other[other.len() - 1]
}

/// Whether two cells are the same.
#[inline(always)]
fn is_same(cell: &Cell, other: &Cell) -> bool
    ensures { IsTrue result ↔ (cell.now ≡ other.now) }
{
    may_be_same(cell.row.as_bytes(), other.row.as_bytes())
        && may_be_same(cell.family.as_bytes(), other.family.as_bytes())
        && cell == other
}

/// The index of the cell's write, if it is among the first few.
fn index_among_few(writes: &[Write], cell: &Cell) -> Option<usize>
    ensures found { IfSome result (λ index. IsIndexOf writes.now cell.now (Some index)) }
    ensures none { IfNone result (NoneBefore writes.now cell.now 8) }
{
    for (index, write) in writes.iter().enumerate() {
        if index >= FEW {
            return None;
        }
        if is_same(&write.cell, cell) {
            return Some(index);
        }
    }
    None
}

/// The index of the cell's write, or the place to insert a new write's index in the order.
fn find(writes: &[Write], order: &[u16], cell: &Cell) -> Result<usize, usize>
    requires { IsOrder writes.now order.now }
    ensures found { IfOk result (λ index. IsIndexOf writes.now cell.now (Some index)) }
    ensures none { OnErr result (IsIndexOf writes.now cell.now None) }
    ensures place { IfErr result (IsPlaceFor writes.now order.now cell.now) }
{
    match index_among_few(writes, cell) {
        Some(index) => Ok(index),
        None => cell_order::search(writes, order, cell),
    }
}

/// The bytes of some writes and one more. Refusals: NoMemory, if they are more than `most`.
fn bytes_with(bytes: u64, write: &Write, most: u64) -> Result<u64, Refusal>
    ensures sum { IfOk result (λ sum. sum ≡ bytes + bytes_of_write write.now) }
    ensures most { IfOk result (λ sum. sum ≤ most) }
    ensures refusal { IfErr result (λ refusal. refusal ≡ Refusal.NoMemory) }
    ensures full { OnErr result (most < bytes + bytes_of_write write.now) }
{
    let added = write.bytes();
    if most < bytes || most - bytes < added {
        return Err(Refusal::NoMemory);
    }
    Ok(bytes + added)
}

/// The bytes of the writes of all sessions, after those of one session have become `after` from `before`.
fn bytes_after(buffered: u64, before: u64, after: u64) -> u64
    requires { buffered + after - before < 2 ^ 64 }
    ensures { result ≡ buffered + after - before }
{
    if after < before {
        buffered.saturating_sub(before - after)
    } else {
        buffered + (after - before)
    }
}

impl Writes {
    /// The most writes of a session.
    const MOST: usize = 256;

    /// No writes.
    pub(crate) fn new(alloc: Global) -> Writes
        ensures { result ≡ [] }
    {
        Writes {
            entries: Vec::new(alloc),
            order: Vec::new(alloc),
            bytes: 0,
        }
    }

    /// A copy.
    pub(crate) fn copy(&self, alloc: Global) -> Result<Writes, Refusal>
        ensures copied { IfOk result (λ writes. writes ≡ self.now) }
        ensures refusal { IfErr result (λ refusal. refusal ≡ Refusal.NoMemory) }
    {
        let mut entries = Vec::with_capacity(alloc, self.entries.len())?;
        for write in self.entries.iter() {
            let write = write.copy()?;
            entries.push(write)?;
        }
        let order = self.order.clone()?;
        Ok(Writes {
            entries,
            order,
            bytes: self.bytes,
        })
    }

    /// The writes in their order, as a vector.
    pub(crate) fn into_vec(self) -> Vec<Write>
        ensures { result.items ≡ self }
    {
        let Writes { entries, .. } = self;
        entries
    }

    /// The writes in their order.
    pub(crate) fn as_slice(&self) -> &[Write]
        ensures writes { result.now ≡ self.now }
        ensures few { length self.now ≤ 256 }
    {
        self.entries.as_slice()
    }

    /// The number of writes.
    pub(crate) fn len(&self) -> u16
        ensures len { result ≡ length self.now }
        ensures few { result ≤ 256 }
    {
        self.entries.len() as u16
    }

    /// The bytes of the rows, families and values of all writes.
    pub(crate) fn bytes(&self) -> u64
        ensures { result ≡ bytes_of self.now }
    {
        self.bytes
    }

    /// The write at an index, counted from 0.
    pub(crate) fn get(&self, index: u16) -> Option<&Write>
        ensures found { IfSome result (λ write. slice_get self.now index ≡ Some write.now) }
        ensures few { OnSome result (index < 256) }
        ensures some { OnSome result (index < length self.now) }
        ensures none { IfNone result (length self.now ≤ index) }
    {
        self.entries.get(usize::from(index))
    }

    /// Sets the write of a cell. An earlier write of the same cell keeps its place and gets the new value or deletion;
    /// otherwise the write comes last. Refusals: TooManyWrites; NoMemory, also if all writes would have more bytes than
    /// `most`.
    pub(crate) fn set(&mut self, write: Write, most: u64) -> Result<(), Refusal>
        ensures ok { OnOk result (Sets
            write.cell write.value (map write_of self.old) (map write_of self.new)) }
        ensures full { IsErrOf result Refusal.TooManyWrites
            → (256 ≤ length self.old) × ¬ (Names (map write_of self.old) write.cell) }
        ensures room { OnOk result (Names (map write_of self.old) write.cell
            ⊎ (length self.old < 256)) }
        ensures most { OnOk result (bytes_of self.new ≤ most) }
        ensures err { OnErr result (self.new ≡ self.old) }
        ensures refusal { IfErr result (λ refusal. (refusal ≡ Refusal.TooManyWrites)
            ⊎ (refusal ≡ Refusal.NoMemory)) }
    {
        if self.entries.is_empty() {
            let bytes = bytes_with(0, &write, most)?;
            self.entries.push(write)?;
            self.bytes = bytes;
            return Ok(());
        }
        match find(&self.entries, &self.order, &write.cell) {
            Ok(index) => {
                let others = self.bytes - self.entries[index].bytes();
                let bytes = bytes_with(others, &write, most)?;
                self.entries[index] = write;
                self.bytes = bytes;
            }
            Err(place) => {
                if self.entries.len() >= Writes::MOST {
                    return Err(Refusal::TooManyWrites);
                }
                let bytes = bytes_with(self.bytes, &write, most)?;
                cell_order::push(&mut self.entries, &mut self.order, write, place)?;
                self.bytes = bytes;
            }
        }
        Ok(())
    }

    /// Sets the write of a cell, where all sessions' writes have `buffered` bytes, and may have as many and `most`.
    /// Returns their bytes after it. Refusals: TooManyWrites; NoMemory, also if they would have more.
    pub(crate) fn buffer(&mut self, write: Write, buffered: u64, most: u64) -> Result<u64, Refusal>
        ensures ok { OnOk result (Sets
            write.cell write.value (map write_of self.old) (map write_of self.new)) }
        ensures full { IsErrOf result Refusal.TooManyWrites
            → (256 ≤ length self.old) × ¬ (Names (map write_of self.old) write.cell) }
        ensures room { OnOk result (Names (map write_of self.old) write.cell
            ⊎ (length self.old < 256)) }
        ensures bytes { IfOk result (λ bytes.
            bytes ≡ buffered + bytes_of self.new - bytes_of self.old) }
        ensures limit { IfOk result (λ bytes. (bytes ≤ buffered) ⊎ (bytes ≤ most)) }
        ensures err { OnErr result (self.new ≡ self.old) }
        ensures refusal { IfErr result (λ refusal. (refusal ≡ Refusal.TooManyWrites)
            ⊎ (refusal ≡ Refusal.NoMemory)) }
    {
        let before = self.bytes();
        let growth = most.saturating_sub(buffered);
        self.set(write, before.saturating_add(growth))?;
        Ok(bytes_after(buffered, before, self.bytes()))
    }
}
