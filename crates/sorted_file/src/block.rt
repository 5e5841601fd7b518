//! Blocks in memory: their bytes, and look-ups in them.

ghost use Rattle.std.specs.Option.{option_copied};
ghost use Rattle.std.specs.Prelude.{◌≡◌, ◌↔◌, IsTrue, ◌≢◌, ◌<◌, ◌+◌, ◌^◌, List, length, IfOk, IfErr, IfSome, IfNone, true, false, drop, slice_get, option_map, IsSomeAnd, ◌≤◌, ◌⊎◌, IsErrOf, map, ◌++◌, ◌∷◌, [], ℕ, IsOkUnless};
ghost use Rattle.std.specs.declared.cmp.Ordering.TheVariants.{Less, Greater};
ghost use Rattle.cell_key.specs.Entries.{IsEntry, lent_entry, Entry, IsEntryList, entries_from, IsRising, spelled};
ghost use Rattle.cell_key.specs.Keys.{byte_cmp, text};
ghost use Rattle.cell_key.specs.LentKeys.{IsLentKey};
ghost use Rattle.sorted_file.specs.Index.{first_of, last_of, IsBlockNumber, IsFirstText, IsRowPosition, blocks_of, AreRows};
ghost use Rattle.sorted_file.specs.Check.{IsFollowed};
ghost use Rattle.sorted_file.specs.Grammar.{block_bytes, Fits};
ghost use Rattle.sorted_file.specs.Block.{last_text, BeginsFrom, IsLastText, IsBehind, IsSpelling, BeginsWith, IsParsed, bytes_at, entry_at, first_from};
ghost use Rattle.sorted_file.specs.File.{MayHaveInBlock};
ghost use Rattle.sorted_file.specs.Newest.{IsOfColumn, IsShortValue, found_bytes};
ghost use Rattle.sorted_file.specs.Source.{IsReadRefusal};

use crate::bounds::ColumnBounds;
use crate::format::{BLOCK_LIMIT, LENGTH, MOST_VALUE, is_short, read_entry, spelled_len};
use crate::lookup_key::LookupKey;
use cell_key::{EntryRef, KeyRef, Refusal, Stamp, are_same, compare_texts, next_key};
use std::alloc::Global;
use std::snapshot::Snapshot;

/// The bytes of a block, whose form was checked.
#[derive(Drop)]
pub(crate) struct Block {
    pub(crate) bytes: Vec<u8>,
    /// The offset of each entry.
    pub(crate) starts: Vec<u32>,
}

/// The key of an entry, if a list whose last key is `last` can go on with the entry.
#[inline(always)]
pub(crate) fn key_behind<'a>(last: Option<KeyRef<'_>>, entry: EntryRef<'a>) -> Option<KeyRef<'a>>
    requires { IfSome last IsLentKey }
    ensures entry { IfSome result (λ _. IsEntry (lent_entry entry.entry)) }
    ensures key { IfSome result IsLentKey }
    ensures text { IfSome result (λ key. key.text.now ≡ entry.entry.key.now) }
    ensures above { IfSome result (λ _.
        byte_cmp (last_text last.entry) entry.entry.key.now ≡ Less) }
    ensures none { IfNone result (IsEntry (lent_entry entry.entry)
        → byte_cmp (last_text last.entry) entry.entry.key.now ≢ Less) }
{
    if !is_short(entry.value) {
        return None;
    }
    next_key(last, entry.key)
}

/// The entry at the front, its key and the bytes behind it, if a list whose last key is `last` can go on with the
/// entry.
#[inline(always)]
pub(crate) fn next_entry<'a>(
    last: Option<KeyRef<'_>>,
    bytes: &'a [u8],
) -> Option<(EntryRef<'a>, KeyRef<'a>, &'a [u8])>
    requires { IfSome last IsLentKey }
    ensures found { IfSome result (λ p. bytes.now ≡ spelled (lent_entry p.0) ++ p.2.now) }
    ensures entry { IfSome result (λ p. IsEntry (lent_entry p.0)) }
    ensures key { IfSome result (λ p. IsLentKey p.1) }
    ensures text { IfSome result (λ p. p.1.text.now ≡ p.0.key.now) }
    ensures above { IfSome result (λ p.
        byte_cmp (last_text last.entry) p.0.key.now ≡ Less) }
    ensures none { IfNone result (length bytes.now < 2 ^ 32 → (e : Entry) (rest : List ℕ)
        → IsEntry e → byte_cmp (last_text last.entry) e.0 ≡ Less → bytes.now ≢ spelled e ++ rest) }
{
    let (entry, rest) = read_entry(bytes)?;
    let key = key_behind(last, entry)?;
    Some((entry, key, rest))
}

/// The offsets of the entries in these bytes; `None` if the bytes are no entry list. They take the memory of `room`.
/// Answers `NoMemory` if there is no memory.
fn starts_of(bytes: &[u8], room: Vec<u32>) -> Result<Option<Vec<u32>>, Refusal>
    requires { length bytes.now < 2 ^ 32 }
    ensures found { IfOk result (λ found.
        IfSome found (λ starts. IsSpelling bytes.now starts.items)) }
    ensures none { IfOk result (λ found. IfNone found ((es : List Entry) → IsEntryList es
        → bytes.now ≢ block_bytes es)) }
    ensures refusal { IsOkUnless result Refusal.NoMemory }
{
    let mut starts = room_for_starts(room, bytes.len())?;
    let mut last = None;
    let mut rest = bytes;
    'entries: while !rest.is_empty() {
        let Some((_, key, after)) = next_entry(last, rest) else {
            return Ok(None);
        };
        starts.push((bytes.len() - rest.len()) as u32)?;
        last = Some(key);
        rest = after;
    }
    Ok(Some(starts))
}

/// An empty list in the memory of `room`, with room for the entries' offsets of a block of `len` bytes, if their values
/// are short.
pub(crate) fn room_for_starts(room: Vec<u32>, len: usize) -> Result<Vec<u32>, Refusal>
    ensures none { IfOk result (λ starts. starts.items ≡ []) }
    ensures refusal { IsOkUnless result Refusal.NoMemory }
{
    let mut starts = room;
    starts.clear();
    starts.reserve((len / 32).min(128))?;
    Ok(starts)
}

impl Block {
    /// A block without entries. Allocates nothing.
    pub(crate) fn new(alloc: Global) -> Block
        ensures bytes { result.bytes.items ≡ [] }
        ensures starts { result.starts.items ≡ [] }
    {
        Block {
            bytes: Vec::new(alloc),
            starts: Vec::new(alloc),
        }
    }

    /// The block of these bytes; `None` if they are no entry list. Its offsets take the memory of `room`. Answers
    /// `NoMemory` if there is no memory.
    pub(crate) fn parse(bytes: Vec<u8>, room: Vec<u32>) -> Result<Option<Block>, Refusal>
        requires { length bytes.items < 2 ^ 32 }
        ensures parsed { IfOk result (λ found. IfSome found (λ block. (es : List Entry)
            × IsParsed es block × (bytes.items ≡ block_bytes es))) }
        ensures none { IfOk result (λ found. IfNone found ((es : List Entry) → IsEntryList es
            → bytes.items ≢ block_bytes es)) }
        ensures refusal { IsOkUnless result Refusal.NoMemory }
    {
        let Some(starts) = starts_of(&bytes, room)? else {
            return Ok(None);
        };
        Ok(Some(Block { bytes, starts }))
    }

    /// How many entries there are.
    pub(crate) fn len(&self) -> usize
        ensures { (es : List Entry) → IsParsed es self.now → result ≡ length es }
    {
        self.starts.len()
    }

    /// Whether there are no entries.
    pub(crate) fn is_empty(&self) -> bool
        ensures { (es : List Entry) → IsParsed es self.now → (IsTrue result ↔ (es ≡ [])) }
    {
        self.starts.is_empty()
    }

    /// Whether the entries fit into a block.
    pub(crate) fn fits(&self) -> bool
        ensures { (es : List Entry) → IsParsed es self.now → (IsTrue result ↔ Fits es) }
    {
        match self.starts.len() {
            0 => false,
            1 => true,
            _ => self.bytes.len() as u128 <= BLOCK_LIMIT,
        }
    }

    /// The entry at an index.
    pub(crate) fn entry(&self, at: usize) -> Option<EntryRef<'_>>
        ensures { (es : List Entry) → IsParsed es self.now
            → option_map lent_entry result ≡ slice_get es at }
    {
        let start = *self.starts.get(at)? as usize;
        let (_, rest) = self.bytes.split_at(start.min(self.bytes.len()));
        let (entry, _) = read_entry(rest)?;
        Some(entry)
    }

    /// The text of the first entry; empty if there is none.
    pub(crate) fn first_text(&self) -> &[u8]
        ensures { (es : List Entry) → IsParsed es self.now → IsFirstText result.now es }
    {
        match self.entry(0) {
            Some(entry) => entry.key,
            None => &[],
        }
    }

    /// Whether the block has room for one more entry.
    pub(crate) fn has_room(&self, entry: EntryRef<'_>) -> bool
        ensures { (es : List Entry) → IsParsed es self.now
            → (IsTrue result ↔ Fits (es ++ lent_entry entry.entry ∷ [])) }
    {
        if self.is_empty() {
            return true;
        }
        self.bytes.len() as u128 + spelled_len(entry) <= BLOCK_LIMIT
    }

    /// The extent of this text in the block, if its entry is added next.
    pub(crate) fn next_text(&self, text: &[u8]) -> Extent
        ensures offset { result.offset ≡ length self.now.bytes.items + 4 }
        ensures length { result.length ≡ length text.now }
    {
        Extent {
            offset: self.bytes.len() + LENGTH,
            length: text.len(),
        }
    }

    /// Whether the first entry has this text.
    pub(crate) fn begins_with(&self, text: &[u8]) -> bool
        ensures { (es : List Entry) → IsParsed es self.now
            → (IsTrue result ↔ BeginsWith text.now es) }
    {
        self.entry(0).is_some_and(|entry| are_same(text, entry.key))
    }

    /// Whether there is an entry at this index and its text is below this one.
    fn is_before(&self, at: usize, text: &[u8]) -> bool
        ensures before { result ≡ true → (es : List Entry) → IsParsed es self.now
            → IsSomeAnd (slice_get es at) (λ e. byte_cmp text.now e.0 ≡ Greater) }
        ensures behind { result ≡ false → (es : List Entry) → IsParsed es self.now
            → IfSome (slice_get es at) (λ e. byte_cmp text.now e.0 ≢ Greater) }
    {
        self.entry(at)
            .is_some_and(|entry| compare_texts(text, entry.key).is_gt())
    }

    /// The index of the first entry at or above this text (the lower bound).
    fn position(&self, text: &[u8]) -> usize
        ensures { (es : List Entry) → IsParsed es self.now
            → entries_from text.now es ≡ drop result es }
    {
        let mut low = 0;
        let mut high = self.starts.len();
        'halves: while low < high {
            let middle = low + (high - low) / 2;
            if self.is_before(middle, text) {
                low = middle + 1;
            } else {
                high = middle;
            }
        }
        low
    }

    /// The first entry at or above this text.
    fn first_from(&self, text: &[u8]) -> Option<EntryRef<'_>>
        ensures { (es : List Entry) → IsParsed es self.now
            → option_map lent_entry result ≡ first_from text.now es }
    {
        self.entry(self.position(text))
    }

    /// The text of the last entry; empty if there is none.
    pub(crate) fn last_text(&self) -> &[u8]
        ensures { (es : List Entry) → IsParsed es self.now → IsLastText es result.now }
    {
        let last = self.starts.len().saturating_sub(1);
        match self.entry(last) {
            Some(entry) => entry.key,
            None => &[],
        }
    }
}

/// A copy of a value, or nothing for an erasure. Answers `Damaged` if it is longer than a value may be, and `NoMemory`
/// if there is no memory for it.
fn copy_value(alloc: Global, value: Option<&[u8]>) -> Result<Option<Vec<u8>>, Refusal>
    ensures copy { IfOk result (λ copy.
        option_map (λ bytes. bytes.items) copy ≡ option_copied value.entry) }
    ensures short { IfOk result (λ copy. IfSome copy (λ bytes. length bytes.items ≤ 65536)) }
    ensures damaged { IsErrOf result Refusal.Damaged
        → ¬ IfSome (option_copied value.entry) (λ bytes. length bytes ≤ 65536) }
    ensures refusal { IfErr result (λ refusal. (refusal ≡ Refusal.NoMemory)
        ⊎ (refusal ≡ Refusal.Damaged)) }
{
    let Some(value) = value else {
        return Ok(None);
    };
    if value.len() > MOST_VALUE {
        return Err(Refusal::Damaged);
    }
    let copy = Vec::from_slice(alloc, value)?;
    Ok(Some(copy))
}

/// The stamp and the value of the block's first entry at or above the key's text, if the entry is of the key's column and
/// its stamp is from `lo` to the key's; an erasure has no value. Answers `Damaged` if the value is too long, and
/// `NoMemory` if there is no memory for it.
pub(crate) fn newest_at(
    alloc: Global,
    block: &Block,
    key: &LookupKey,
    lo: Stamp,
) -> Result<Option<(Stamp, Option<Vec<u8>>)>, Refusal>
    ensures found { IfOk result (λ found. (es : List Entry) → IsParsed es block.now
        → IsOfColumn key.now lo (first_from (text key.now) es) (option_map found_bytes found)) }
    ensures within { IfOk result (λ found.
        IfSome found (λ entry. (lo ≤ entry.0) × (entry.0 ≤ key.now.stamp))) }
    ensures short { IfOk result (λ found. IfSome found (λ entry. IsShortValue entry.1)) }
    ensures damaged { IsErrOf result Refusal.Damaged → (es : List Entry)
        → ¬ IsParsed es block.now }
    ensures refusal { IfErr result IsReadRefusal }
    ensures inside { ¬ IsErrOf result Refusal.Device }
{
    let Some(entry) = block.first_from(key.text()) else {
        return Ok(None);
    };
    let Some(stamp) = key.stamp_from(lo, entry.key) else {
        return Ok(None);
    };
    let value = copy_value(alloc, entry.value)?;
    Ok(Some((stamp, value)))
}

/// An open file's record of a block: its offset, its length in bytes, and its first and its last text.
#[derive(Drop)]
pub(crate) struct BlockRow {
    pub(crate) offset: u64,
    pub(crate) length: u32,
    pub(crate) first: Vec<u8>,
    pub(crate) last: Vec<u8>,
    /// The bounds of its entries.
    pub(crate) bounds: ColumnBounds,
    /// The block when the file was opened. A ghost: it takes no memory.
    pub(crate) was: Snapshot<Block>,
}

impl BlockRow {
    /// Whether the block may have an entry of the key's column, from `lo` to the key's stamp, as its first one at or above
    /// the key's text: no, if its bounds rule it out, or if it begins above the key's text with another column or below
    /// `lo`.
    pub(crate) fn may_have(&self, key: &LookupKey, lo: Stamp) -> bool
        ensures { result ≡ false → (s : ℕ) → lo ≤ s → s ≤ key.now.stamp
            → ¬ MayHaveInBlock self.now key.now lo s }
    {
        if !self.bounds.meet_column(key.key(), lo) {
            return false;
        }
        compare_texts(key.text(), &self.first).is_ge() || key.stamp_from(lo, &self.first).is_some()
    }
}

/// The number of the first row with a last text at or above this one (the lower bound).
pub(crate) fn number_of_block(rows: &[BlockRow], text: &[u8]) -> usize
    ensures number { IsRising (map last_of rows.now) → IsBlockNumber text.now rows.now result }
{
    rows.partition_point(|row| compare_texts(text, &row.last).is_gt())
}

/// How many of the rows have a first text at or below this one (the upper bound).
pub(crate) fn rows_to(rows: &[BlockRow], text: &[u8]) -> usize
    ensures bound { result ≤ length rows.now }
    ensures position { IsRising (map first_of rows.now) → IsRowPosition text.now rows.now result }
{
    rows.partition_point(|row| compare_texts(text, &row.first).is_ge())
}

/// Whether a block with this first entry can follow the last block of these rows.
pub(crate) fn is_followed(rows: &[BlockRow], first: EntryRef<'_>) -> bool
    ensures { AreRows 8 rows.now → (es : List Entry)
        → (IsTrue result ↔ IsFollowed (blocks_of rows.now) (lent_entry first.entry ∷ es)) }
{
    let Some((row, _)) = rows.split_last() else {
        return true;
    };
    row.length as u128 + spelled_len(first) > BLOCK_LIMIT
}

/// The bytes of a block from its first entry at or above this text on; `None` if the bytes up to there are no entries.
pub(crate) fn bytes_from<'a>(bytes: &'a [u8], text: &[u8]) -> Option<&'a [u8]>
    requires { length bytes.now < 2 ^ 32 }
    ensures found { IfSome result (λ rest. (es : List Entry) → IsRising es
        → bytes.now ≡ block_bytes es → rest.now ≡ block_bytes (entries_from text.now es)) }
    ensures behind { IfSome result (λ rest. IsBehind text.now bytes.now rest.now) }
    ensures begins { IfSome result (λ rest. BeginsFrom text.now rest.now) }
    ensures shorter { IfSome result (λ rest. length rest.now ≤ length bytes.now) }
    ensures none { IfNone result ((es : List Entry) → IsRising es → bytes.now ≢ block_bytes es) }
{
    let mut rest = bytes;
    'below: while !rest.is_empty() {
        let (entry, after) = read_entry(rest)?;
        if compare_texts(text, entry.key).is_le() {
            return Some(rest);
        }
        rest = after;
    }
    Some(rest)
}

/// A range of bytes: its offset and its length.
#[derive(Clone, Copy, Drop)]
pub(crate) struct Extent {
    pub(crate) offset: usize,
    pub(crate) length: usize,
}

impl Extent {
    /// The bytes of the range, cut off at the end of `bytes`.
    pub(crate) fn lend(self, bytes: &[u8]) -> &[u8]
        ensures { result.now ≡ bytes_at bytes.now self }
    {
        let (_, behind) = bytes.split_at(self.offset.min(bytes.len()));
        behind.split_at(self.length.min(behind.len())).0
    }
}

/// The extents of the text and the value of an entry; an erasure has no value.
#[derive(Clone, Copy)]
pub(crate) struct EntryExtent {
    key: Extent,
    value: Option<Extent>,
}

impl EntryExtent {
    /// The entry at these extents.
    pub(crate) fn lend(self, bytes: &[u8]) -> EntryRef<'_>
        ensures { lent_entry result ≡ entry_at bytes.now self }
    {
        EntryRef {
            key: self.key.lend(bytes),
            value: self.value.map(|value| value.lend(bytes)),
        }
    }
}

/// The extents of the entry at this offset, and the offset of its end; `None` if there is no entry at this offset.
pub(crate) fn entry_extent(bytes: &[u8], at: usize) -> Option<(EntryExtent, usize)>
    requires { at ≤ length bytes.now }
    ensures found { IfSome result (λ p.
        drop at bytes.now ≡ spelled (entry_at bytes.now p.0) ++ drop p.1 bytes.now) }
    ensures past { IfSome result (λ p. at < p.1) }
    ensures within { IfSome result (λ p. p.1 ≤ length bytes.now) }
    ensures none { IfNone result (length (drop at bytes.now) < 2 ^ 32 → (entry : Entry)
        (rest : List ℕ) → drop at bytes.now ≢ spelled entry ++ rest) }
{
    let (entry, after) = read_entry(bytes.split_at(at).1)?;
    let end = bytes.len() - after.len();
    let key = Extent {
        offset: at + LENGTH,
        length: entry.key.len(),
    };
    let value = match entry.value {
        Some(value) => Some(Extent {
            offset: end - value.len(),
            length: value.len(),
        }),
        None => None,
    };
    Some((EntryExtent { key, value }, end))
}
