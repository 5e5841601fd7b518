//! The keys of locks that have a value, in one file or in several together.

ghost use Rattle.std.specs.Prelude.{◌≡◌, ◌⊎◌, ◌++◌, ℕ, true, All, Contains, IfOk, OnOk, map, IsOkUnless};
ghost use Rattle.cell_key.specs.Keys.{text};
ghost use Rattle.cell_key.specs.declared.keys.CellKey.{CellKey as KeyOf};
ghost use Rattle.sorted_file.specs.LockIndexes.{HasRow, stamp_of};
ghost use Rattle.sorted_file.specs.Numbers.{number_of, text_number, IsAmong};

use crate::filter::Filter;
use crate::lock_stamps::LockStamp;
use crate::numbers::text_number;
use cell_key::{CellKey, Refusal};
use std::alloc::Global;
use std::marker::Model;

/// The key of a lock that has a value, with the hash of its column.
#[derive(Drop)]
pub(crate) struct LockValue {
    key: CellKey,
    column: u64,
}

impl Model for LockValue {
    ghost use Rattle.std.specs.Prelude.{◌≡◌};
    ghost use Rattle.cell_key.specs.Keys.{text};
    ghost use Rattle.cell_key.specs.declared.keys.CellKey.{CellKey as KeyOf};
    ghost use Rattle.sorted_file.specs.Numbers.{number_of};

    ghost Value = { KeyOf };

    ghost view = { λ lock. lock.key };

    ghost invariant = { λ lock. lock.column ≡ number_of (text lock.key) };
}

impl LockValue {
    /// The lock with this key.
    pub(crate) fn new(key: CellKey, column: u64) -> LockValue
        requires { column ≡ number_of (text key) }
        ensures { result ≡ key }
    {
        LockValue { key, column }
    }

    /// A copy. Answers `NoMemory` if there is no memory.
    fn copy(&self) -> Result<LockValue, Refusal>
        ensures copy { IfOk result (λ lock. lock ≡ self.now) }
        ensures refusal { IsOkUnless result Refusal.NoMemory }
    {
        Ok(LockValue {
            key: self.key.clone()?,
            column: self.column,
        })
    }

    /// The lock's stamp, with the hash of its column.
    fn stamp(&self) -> LockStamp
        ensures { result ≡ stamp_of self.now }
    {
        LockStamp {
            column: self.column,
            stamp: self.key.stamp,
        }
    }

    /// The hash of the lock's row.
    fn row_number(&self) -> u64
        ensures { result ≡ text_number self.now.row }
    {
        text_number(self.key.row.as_bytes())
    }

    /// Whether the lock's key is among `keys`, which are in ascending order. If they aren't, the answer may be a false
    /// no.
    fn is_among(&self, keys: &[CellKey]) -> bool
        ensures { result ≡ true → Contains keys.now self.now }
    {
        keys.binary_search(&self.key).is_ok()
    }
}

/// Adds a copy of a lock, unless its key is among `named`. Answers `NoMemory` if there is no memory.
fn push_unnamed(
    kept: &mut Vec<LockValue>,
    lock: &LockValue,
    named: &[CellKey],
) -> Result<(), Refusal>
    ensures has { OnOk result (¬ Contains named.now lock.now → Contains kept.new.items lock.now) }
    ensures keeps { OnOk result (IsAmong kept.old.items kept.new.items) }
    ensures only { OnOk result ((key : KeyOf) → Contains kept.new.items key
        → Contains kept.old.items key ⊎ (lock.now ≡ key)) }
    ensures refusal { IsOkUnless result Refusal.NoMemory }
{
    if lock.is_among(named) {
        return Ok(());
    }
    kept.push(lock.copy()?)?;
    Ok(())
}

/// Copies of the locks whose keys aren't among `named`. Answers `NoMemory` if there is no memory.
fn copy_unnamed(
    alloc: Global,
    locks: &[LockValue],
    named: &[CellKey],
) -> Result<Vec<LockValue>, Refusal>
    ensures keeps { IfOk result (λ kept. (key : KeyOf) → Contains locks.now key
        → ¬ Contains named.now key → Contains kept.items key) }
    ensures only { IfOk result (λ kept. IsAmong kept.items locks.now) }
    ensures refusal { IsOkUnless result Refusal.NoMemory }
{
    let mut kept = Vec::new(alloc);
    for lock in locks {
        push_unnamed(&mut kept, lock, named)?;
    }
    Ok(kept)
}

/// Adds copies of locks. Answers `NoMemory` if there is no memory.
fn push_copies(out: &mut Vec<LockValue>, locks: &[LockValue]) -> Result<(), Refusal>
    ensures items { OnOk result (out.new.items ≡ out.old.items ++ locks.now) }
    ensures refusal { IsOkUnless result Refusal.NoMemory }
{
    for lock in locks {
        out.push(lock.copy()?)?;
    }
    Ok(())
}

/// The locks of a file (`values`), and the older ones that it doesn't name (`named`). Answers `NoMemory` if there is no
/// memory.
pub(crate) fn values_over(
    alloc: Global,
    older: &[LockValue],
    values: &[LockValue],
    named: &[CellKey],
) -> Result<Vec<LockValue>, Refusal>
    ensures older { IfOk result (λ locks. (key : KeyOf) → Contains older.now key
        → ¬ Contains named.now key → Contains locks.items key) }
    ensures newer { IfOk result (λ locks. IsAmong values.now locks.items) }
    ensures refusal { IsOkUnless result Refusal.NoMemory }
{
    let mut locks = copy_unnamed(alloc, older, named)?;
    push_copies(&mut locks, values)?;
    Ok(locks)
}

/// The stamps of locks. Answers `NoMemory` if there is no memory.
pub(crate) fn stamps_of(alloc: Global, locks: &[LockValue]) -> Result<Vec<LockStamp>, Refusal>
    ensures stamps { IfOk result (λ stamps. stamps.items ≡ map stamp_of locks.now) }
    ensures refusal { IsOkUnless result Refusal.NoMemory }
{
    let mut stamps = Vec::new(alloc);
    for lock in locks {
        stamps.push(lock.stamp())?;
    }
    Ok(stamps)
}

/// A filter of the rows of locks. Answers `NoMemory` if there is no memory.
pub(crate) fn rows_of(alloc: Global, locks: &[LockValue]) -> Result<Filter, Refusal>
    ensures rows { IfOk result (λ rows. All (HasRow rows.words.items) locks.now) }
    ensures refusal { IsOkUnless result Refusal.NoMemory }
{
    let mut rows = Filter::with_room(alloc, locks.len())?;
    for lock in locks {
        rows.add(lock.row_number());
    }
    Ok(rows)
}
