//! The column data of an open file, gathered as its blocks are read or written.

ghost use Rattle.std.specs.Prelude.{◌≡◌, ◌≢◌, ◌<◌, ◌+◌, ◌^◌, ◌⊎◌, ◌++◌, ◌∷◌, [], ℕ, List, Option, Contains, length, IfOk, IfSome, IfNone, OnOk, IsOkUnless};
ghost use Rattle.sorted_file.specs.Numbers.{number_of, IsAmong, IsLockKept, IsLockKeyNumbered};
ghost use Rattle.cell_key.specs.Entries.{Entry, IsEntryList, entry_len, lent_entry};
ghost use Rattle.cell_key.specs.Keys.{text};
ghost use Rattle.cell_key.specs.LentKeys.{IsLentKey};
ghost use Rattle.cell_key.specs.declared.keys.CellKey.{CellKey as KeyOf};
ghost use Rattle.sorted_file.specs.Block.{IsBlock, IsParsed, entries_of};
ghost use Rattle.sorted_file.specs.Columns.{AreColumnsOf, IsGathered};
ghost use Rattle.sorted_file.specs.Grammar.{block_bytes};

use crate::block::{Block, next_entry, room_for_starts};
use crate::bounds::ColumnBounds;
use crate::format::{BLOCK_LIMIT, push_entry};
use crate::lock_index::LockIndex;
use crate::lock_values::LockValue;
use crate::numbers::{column_number, push_number, text_number};
use cell_key::{CellKey, EntryRef, KeyRef, Qualifier, Refusal};
use std::alloc::Global;

/// How many hashes of each kind are enough for most blocks.
const MOST_NUMBERS: usize = 64;

/// The column data of some entries.
#[derive(Drop)]
pub(crate) struct Columns {
    /// The bounds of the entries.
    pub(crate) bounds: ColumnBounds,
    /// A hash of each column that has an entry.
    pub(crate) numbers: Vec<u64>,
    /// A hash of the text of each lock's key.
    pub(crate) lock_keys: Vec<u64>,
    /// The key of each lock that has a value.
    pub(crate) lock_values: Vec<LockValue>,
    /// The keys of entries, values or erasures, that match a lock in the index of the older files' locks.
    pub(crate) named_locks: Vec<CellKey>,
}

impl Columns {
    ghost use Rattle.sorted_file.specs.Columns.{AreColumnsOf};

    /// The column data of no entries.
    pub(crate) fn new(alloc: Global) -> Columns
        ensures { AreColumnsOf result [] }
    {
        Columns {
            bounds: ColumnBounds::NONE,
            numbers: Vec::new(alloc),
            lock_keys: Vec::new(alloc),
            lock_values: Vec::new(alloc),
            named_locks: Vec::new(alloc),
        }
    }

    /// The column data of no entries, with room for most blocks. Answers `NoMemory` if there is no memory.
    fn with_room(alloc: Global) -> Result<Columns, Refusal>
        ensures none { IfOk result (λ columns. AreColumnsOf columns []) }
        ensures refusal { IsOkUnless result Refusal.NoMemory }
    {
        Ok(Columns {
            bounds: ColumnBounds::NONE,
            numbers: Vec::with_capacity(alloc, MOST_NUMBERS)?,
            lock_keys: Vec::with_capacity(alloc, MOST_NUMBERS)?,
            lock_values: Vec::new(alloc),
            named_locks: Vec::new(alloc),
        })
    }

    /// Adds the data of an entry at this key. `over` is the index of the older files' locks. Answers `NoMemory` if
    /// there is no memory.
    fn add(&mut self, entry: EntryRef<'_>, key: KeyRef<'_>, over: &LockIndex) -> Result<(), Refusal>
        requires key { IsLentKey key }
        requires text { key.text.now ≡ entry.key.now }
        ensures added { OnOk result ((es : List Entry) → AreColumnsOf self.old es
            → AreColumnsOf self.new (es ++ lent_entry entry.entry ∷ [])) }
        ensures refusal { IsOkUnless result Refusal.NoMemory }
    {
        let number = column_number(key.text);
        push_number(&mut self.numbers, number)?;
        push_lock_key(&mut self.lock_keys, key)?;
        push_named(&mut self.named_locks, key, number, over)?;
        self.bounds.widen(key);
        let Some(_) = entry.value else {
            return Ok(());
        };
        push_lock_value(&mut self.lock_values, key, number)
    }

    /// Adds the data of more entries. Answers `NoMemory` if there is no memory.
    pub(crate) fn join(&mut self, more: Columns) -> Result<(), Refusal>
        ensures joined { OnOk result ((es fs : List Entry) → AreColumnsOf self.old es
            → AreColumnsOf more fs → AreColumnsOf self.new (es ++ fs)) }
        ensures refusal { IsOkUnless result Refusal.NoMemory }
    {
        self.numbers.extend_from_slice(&more.numbers)?;
        self.lock_keys.extend_from_slice(&more.lock_keys)?;
        let mut more = more;
        self.lock_values.append(&mut more.lock_values)?;
        self.named_locks.append(&mut more.named_locks)?;
        self.bounds = self.bounds.joined(more.bounds);
        Ok(())
    }
}

/// Adds the hash of a key's text, if it is a lock's. Answers `NoMemory` if there is no memory.
fn push_lock_key(keys: &mut Vec<u64>, key: KeyRef<'_>) -> Result<(), Refusal>
    requires { IsLentKey key }
    ensures has { OnOk result ((value : Option (List ℕ))
        → IsLockKeyNumbered keys.new.items (key.entry.text.now, value)) }
    ensures keeps { OnOk result (IsAmong keys.old.items keys.new.items) }
    ensures refusal { IsOkUnless result Refusal.NoMemory }
{
    if key.qualifier == Qualifier::Lock {
        push_number(keys, text_number(key.text))?;
    }
    Ok(())
}

/// Adds a key, if it is a lock's and it matches a lock in the index. Answers `NoMemory` if there is no memory.
fn push_named(
    named: &mut Vec<CellKey>,
    key: KeyRef<'_>,
    number: u64,
    over: &LockIndex,
) -> Result<(), Refusal>
    ensures named { OnOk result ((one : KeyOf) → Contains named.new.items one
        → Contains named.old.items one ⊎ (key.entry.text.now ≡ text one)) }
    ensures refusal { IsOkUnless result Refusal.NoMemory }
{
    if key.qualifier != Qualifier::Lock || !over.has(number, key.stamp) {
        return Ok(());
    }
    if let Some(lock) = CellKey::decode(*named.allocator(), key.text)? {
        named.push(lock)?;
    }
    Ok(())
}

/// Adds the key of a lock that has a value; does nothing for other keys. Answers `NoMemory` if there is no memory.
#[inline(always)]
fn push_lock_value(values: &mut Vec<LockValue>, key: KeyRef<'_>, number: u64) -> Result<(), Refusal>
    requires key { IsLentKey key }
    requires number { number ≡ number_of key.text.now }
    ensures has { OnOk result ((value : Option (List ℕ))
        → IsLockKept values.new.items (key.entry.text.now, value)) }
    ensures keeps { OnOk result (IsAmong values.old.items values.new.items) }
    ensures refusal { IsOkUnless result Refusal.NoMemory }
{
    match key.qualifier {
        Qualifier::Lock => {
            if let Some(lock) = CellKey::decode(*values.allocator(), key.text)? {
                values.push(LockValue::new(lock, number))?;
            }
            Ok(())
        }
        Qualifier::Data | Qualifier::Write => Ok(()),
    }
}

/// The offsets of the entries in these bytes, and their column data; `None` if the bytes are no entry list. Answers
/// `NoMemory` if there is no memory.
fn gather(
    alloc: Global,
    bytes: &[u8],
    over: &LockIndex,
) -> Result<Option<(Vec<u32>, Columns)>, Refusal>
    requires { length bytes.now < 2 ^ 32 }
    ensures found { IfOk result (λ found.
        IfSome found (λ gathered. IsGathered bytes.now gathered.0.items gathered.1)) }
    ensures none { IfOk result (λ found. IfNone found ((es : List Entry) → IsEntryList es
        → bytes.now ≢ block_bytes es)) }
    ensures refusal { IsOkUnless result Refusal.NoMemory }
{
    let mut starts = room_for_starts(Vec::new(alloc), bytes.len())?;
    let mut columns = Columns::with_room(alloc)?;
    let mut last = None;
    let mut rest = bytes;
    'entries: while !rest.is_empty() {
        let Some((entry, key, after)) = next_entry(last, rest) else {
            return Ok(None);
        };
        starts.push((bytes.len() - rest.len()) as u32)?;
        columns.add(entry, key, over)?;
        last = Some(key);
        rest = after;
    }
    Ok(Some((starts, columns)))
}

/// A block and its column data.
#[derive(Drop)]
pub(crate) struct GatheredBlock {
    pub(crate) block: Block,
    pub(crate) columns: Columns,
}

impl GatheredBlock {
    ghost use Rattle.sorted_file.specs.Columns.{AreColumnsOf};
    ghost use Rattle.sorted_file.specs.Block.{IsParsed, entries_of};
    ghost use Rattle.sorted_file.specs.Grammar.{Fits};

    /// An empty block, with room for most blocks' column data. Answers `NoMemory` if there is no memory.
    pub(crate) fn with_room(alloc: Global) -> Result<GatheredBlock, Refusal>
        ensures none { IfOk result (λ made. entries_of made.block ≡ []) }
        ensures parsed { IfOk result (λ made. IsParsed [] made.block) }
        ensures columns { IfOk result (λ made. AreColumnsOf made.columns []) }
        ensures refusal { IsOkUnless result Refusal.NoMemory }
    {
        let bytes = Vec::with_capacity(alloc, BLOCK_LIMIT as usize)?;
        let starts = room_for_starts(Vec::new(alloc), BLOCK_LIMIT as usize)?;
        let block = Block { bytes, starts };
        let columns = Columns::with_room(alloc)?;
        Ok(GatheredBlock { block, columns })
    }

    /// Appends an entry at this key. `over` is the index of the older files' locks. Answers `NoMemory` if there is no
    /// memory.
    pub(crate) fn push(
        &mut self,
        entry: EntryRef<'_>,
        key: KeyRef<'_>,
        over: &LockIndex,
    ) -> Result<(), Refusal>
        requires key { IsLentKey key }
        requires text { key.text.now ≡ entry.key.now }
        requires parsed { IsParsed (entries_of self.old.block) self.old.block }
        requires list { IsEntryList (entries_of self.old.block ++ lent_entry entry ∷ []) }
        requires fits { Fits (entries_of self.old.block ++ lent_entry entry ∷ []) }
        ensures entries { OnOk result (entries_of self.new.block
            ≡ entries_of self.old.block ++ lent_entry entry.entry ∷ []) }
        ensures parsed { OnOk result (IsParsed (entries_of self.new.block) self.new.block) }
        ensures length { OnOk result (length self.new.block.bytes.items
            ≡ length self.old.block.bytes.items + entry_len (lent_entry entry.entry)) }
        ensures columns { OnOk result (AreColumnsOf self.old.columns (entries_of self.old.block)
            → AreColumnsOf self.new.columns (entries_of self.new.block)) }
        ensures refusal { IsOkUnless result Refusal.NoMemory }
    {
        let start = self.block.bytes.len() as u32;
        push_entry(&mut self.block.bytes, entry)?;
        self.block.starts.push(start)?;
        self.columns.add(entry, key, over)
    }
}

/// The block of these bytes and its column data; `None` if the bytes are no block. Answers `NoMemory` if there is no
/// memory.
pub(crate) fn read_block(
    alloc: Global,
    bytes: Vec<u8>,
    over: &LockIndex,
) -> Result<Option<GatheredBlock>, Refusal>
    requires { length bytes.items < 2 ^ 32 }
    ensures found { IfOk result (λ found.
        IfSome found (λ read. IsBlock (entries_of read.block) bytes.items)) }
    ensures parsed { IfOk result (λ found.
        IfSome found (λ read. IsParsed (entries_of read.block) read.block)) }
    ensures columns { IfOk result (λ found.
        IfSome found (λ read. AreColumnsOf read.columns (entries_of read.block))) }
    ensures none { IfOk result (λ found. IfNone found ((es : List Entry)
        → ¬ IsBlock es bytes.items)) }
    ensures refusal { IsOkUnless result Refusal.NoMemory }
{
    let Some((starts, columns)) = gather(alloc, &bytes, over)? else {
        return Ok(None);
    };
    let block = Block { bytes, starts };
    if !block.fits() {
        return Ok(None);
    }
    Ok(Some(GatheredBlock { block, columns }))
}
