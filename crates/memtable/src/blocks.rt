//! Entries in blocks, in the byte order of their texts. Making room moves pointers to some entries of one block, and at
//! times the block list's elements.

ghost use Rattle.std.specs.Prelude.{◌≡◌, ◌≢◌, ℕ, ◌+◌, ◌≤◌, ◌<◌, ◌^◌, [], ◌∷◌, ◌++◌, IfSome, OnOk, option_map, length, get_or, vec_len, vec_capacity};
ghost use Rattle.std.specs.List.{AllByRecursion};
ghost use Rattle.std.specs.FinMap.Entries.{put as put_entry};
ghost use Rattle.cell_key.specs.Keys.{byte_cmp};
ghost use Rattle.cell_key.specs.Entries.{IsEntry, IsPlace, IsRising, entries_from, entry_of_key};
ghost use Rattle.memtable.specs.Slots.{slot_entry, slot_entries, first_value, over, GrowsBy};
ghost use Rattle.memtable.specs.Sizes.{IsSizeOf, stood_size};
ghost use Rattle.memtable.specs.declared.blocks.Block.{Block as BlockOf};
ghost use Rattle.memtable.specs.Blocks.{block_entries, lists_of, list_of, ends_below, IsBlockIndex, IsCounted, IsEntryBlock, IsSpare, IsEndOf, IsFullAt, IsPlaceAmong, AreEntryBlocks, HasRoom};

use crate::entries::{self, Slot};
use crate::size::{EntrySize, Size};
use crate::sought::Sought;
use std::alloc::{AllocError, Global};

/// The capacity of a block. It has at least one entry, and fewer than this many.
const BLOCK_ROOM: usize = 128;

/// A block of entries.
#[derive(Drop)]
pub(crate) struct Block {
    pub(crate) slots: Vec<Box<Slot>>,
    /// How many of the entries have a value. If none has, a search for values skips the block.
    pub(crate) values: usize,
}

/// Blocks of entries, and spare memory for more.
#[derive(Drop)]
pub(crate) struct Blocks {
    pub(crate) filled: Vec<Block>,
    pub(crate) spare: Vec<Vec<Box<Slot>>>,
    /// Hints where a search looks first: places of entries that were found or put last, or any other places.
    pub(crate) recent: RecentPlaces,
}

impl Blocks {
    /// No blocks. Allocates nothing.
    pub(crate) fn new(alloc: Global) -> Blocks
        ensures filled { result.filled.items ≡ [] }
        ensures spare { result.spare.items ≡ [] }
    {
        Blocks {
            filled: Vec::new(alloc),
            spare: Vec::new(alloc),
            recent: RecentPlaces::START,
        }
    }
}

/// A place among the entries of blocks: the index of a block, and the index of an entry in it.
#[derive(Clone, Copy, Drop)]
pub(crate) struct Place {
    pub(crate) block: usize,
    pub(crate) slot: usize,
}

impl Place {
    /// The place of the first entry.
    pub(crate) const START: Place = Place { block: 0, slot: 0 };
}

/// Two places, as requests mostly stay in one row or alternate between two. They are hints: a place may have become
/// another entry's, or no entry's, since it was recorded. A search then gains nothing from it, but its answer is right.
#[derive(Clone, Copy, Drop)]
pub(crate) struct RecentPlaces {
    /// The place recorded last.
    pub(crate) last: Place,
    /// The last recorded place in another block.
    pub(crate) before: Place,
}

impl RecentPlaces {
    /// Both are the place of the first entry.
    pub(crate) const START: RecentPlaces = RecentPlaces {
        last: Place::START,
        before: Place::START,
    };

    /// The places after this one is recorded too.
    fn with(self, place: Place) -> RecentPlaces
        ensures last { result.last ≡ place }
        ensures stays { place.block ≡ self.last.block → result.before ≡ self.before }
        ensures other { place.block ≢ self.last.block → result.before ≡ self.last }
    {
        if place.block == self.last.block {
            return RecentPlaces {
                last: place,
                before: self.before,
            };
        }
        RecentPlaces {
            last: place,
            before: self.last,
        }
    }
}

/// Whether all texts of a block are below the sought text.
fn ends_below<S: Sought>(block: &Block, sought: S) -> bool
    ensures { result ≡ ends_below (S.name sought) (list_of block.now) }
{
    match block.slots.last() {
        Some(slot) => sought.compare(&slot.text).is_gt(),
        None => false,
    }
}

/// The index of the first block that doesn't end below the sought text.
pub(crate) fn index_of<S: Sought>(blocks: &[Block], sought: S) -> usize
    requires rising { IsRising (block_entries blocks.now) }
    requires blocks { AllByRecursion IsEntryBlock blocks.now }
    ensures bound { result ≤ length blocks.now }
    ensures index { IsBlockIndex (S.name sought) (lists_of blocks.now) result }
{
    blocks.partition_point(|block| ends_below(block, sought))
}

/// The place of the first entry at or above the sought text (the lower bound), by binary search.
fn place_of<S: Sought>(blocks: &[Block], sought: S) -> Place
    requires rising { IsRising (block_entries blocks.now) }
    requires blocks { AllByRecursion IsEntryBlock blocks.now }
    ensures { IsPlaceAmong (S.name sought) blocks.now result }
{
    let at = index_of(blocks, sought);
    let slot = match blocks.get(at) {
        Some(block) => entries::first_from(&block.slots, sought),
        None => 0,
    };
    Place { block: at, slot }
}

/// The start of the block at an index, which has no entry below the sought text, if that is the place of the lower
/// bound.
fn place_from<S: Sought>(blocks: &[Block], sought: S, at: usize) -> Option<Place>
    requires rising { IsRising (block_entries blocks.now) }
    requires blocks { AllByRecursion IsEntryBlock blocks.now }
    requires within { at < length blocks.now }
    requires above { (d : BlockOf) → IsPlace (S.name sought) (list_of (get_or blocks.now at d)) 0 }
    ensures { IfSome result (IsPlaceAmong (S.name sought) blocks.now) }
{
    if at == 0 {
        return Some(Place::START);
    }
    if !ends_below(&blocks[at - 1], sought) {
        return None;
    }
    Some(Place { block: at, slot: 0 })
}

/// The place of the lower bound, if it is in the block of `near`, or behind that block and the block is the last one.
/// The search starts at `near`.
#[inline(always)]
fn place_beside<S: Sought>(blocks: &[Block], sought: S, near: Place) -> Option<Place>
    requires rising { IsRising (block_entries blocks.now) }
    requires blocks { AllByRecursion IsEntryBlock blocks.now }
    ensures { IfSome result (IsPlaceAmong (S.name sought) blocks.now) }
{
    let block = blocks.get(near.block)?;
    let slot = entries::first_near(&block.slots, sought, near.slot);
    if slot == block.slots.len() {
        if near.block + 1 < blocks.len() {
            return None;
        }
        return Some(Place {
            block: near.block + 1,
            slot: 0,
        });
    }
    if slot == 0 {
        return place_from(blocks, sought, near.block);
    }
    Some(Place {
        block: near.block,
        slot,
    })
}

/// The place of the lower bound. The search starts at the recent places, and then takes all blocks.
fn place_near<S: Sought>(blocks: &[Block], sought: S, recent: &RecentPlaces) -> Place
    requires rising { IsRising (block_entries blocks.now) }
    requires blocks { AllByRecursion IsEntryBlock blocks.now }
    ensures { IsPlaceAmong (S.name sought) blocks.now result }
{
    if let Some(place) = place_beside(blocks, sought, recent.last) {
        return place;
    }
    if let Some(place) = place_beside(blocks, sought, recent.before) {
        return place;
    }
    place_of(blocks, sought)
}

/// The place of the lower bound. The search starts at the recent places. If there is an entry at the place, it is
/// recorded.
fn record_place<S: Sought>(blocks: &[Block], sought: S, recent: &mut RecentPlaces) -> Place
    requires rising { IsRising (block_entries blocks.now) }
    requires blocks { AllByRecursion IsEntryBlock blocks.now }
    ensures { IsPlaceAmong (S.name sought) blocks.now result }
{
    let place = place_near(blocks, sought, recent);
    if place.block < blocks.len() {
        *recent = recent.with(place);
    }
    place
}

/// Where to put an entry whose place this is: behind the last entry, if the place is past the last block.
fn room_at(blocks: &[Block], place: Place) -> Place
    requires some { 1 ≤ length blocks.now }
    ensures inside { place.block < length blocks.now → result ≡ place }
    ensures end { length blocks.now ≤ place.block → IsEndOf blocks.now result }
{
    if place.block < blocks.len() {
        return place;
    }
    let block = blocks.len() - 1;
    Place {
        block,
        slot: blocks[block].slots.len(),
    }
}

/// The entry with the sought text. The search starts at the recent places.
pub(crate) fn find<'a, S: Sought>(
    blocks: &'a [Block],
    sought: S,
    recent: &RecentPlaces,
) -> Option<&'a Slot>
    requires rising { IsRising (block_entries blocks.now) }
    requires blocks { AllByRecursion IsEntryBlock blocks.now }
    ensures found { option_map (λ slot. (slot_entry slot.now).1) result
        ≡ entry_of_key (block_entries blocks.now) (S.name sought) }
    ensures named { IfSome result (λ slot. slot.now.text ≡ S.name sought) }
{
    let place = place_near(blocks, sought, recent);
    let block = blocks.get(place.block)?;
    entries::find_at(&block.slots, place.slot, sought)
}

/// The size of the entry with this text, if there is one.
pub(crate) fn stood_size(blocks: &[Block], text: &[u8]) -> Option<EntrySize>
    requires rising { IsRising (block_entries blocks.now) }
    requires blocks { AllByRecursion IsEntryBlock blocks.now }
    ensures { result ≡ stood_size text.now (entry_of_key (block_entries blocks.now) text.now) }
{
    match find(blocks, text, &RecentPlaces::START) {
        Some(slot) => Some(slot.size()),
        None => None,
    }
}

/// The entries at or above the sought text: the rest of one block, and the blocks after it. The search starts at the
/// recent places, and its place is recorded.
pub(crate) fn rest_from<'a, S: Sought>(
    blocks: &'a [Block],
    sought: S,
    recent: &mut RecentPlaces,
) -> (&'a [Box<Slot>], &'a [Block])
    requires rising { IsRising (block_entries blocks.now) }
    requires blocks { AllByRecursion IsEntryBlock blocks.now }
    ensures entries { slot_entries result.0.now ++ block_entries result.1.now
        ≡ entries_from (S.name sought) (block_entries blocks.now) }
    ensures blocks { AllByRecursion IsEntryBlock result.1.now }
{
    let place = record_place(blocks, sought, recent);
    match blocks.split_at(place.block).1.split_first() {
        Some((block, later)) => (block.slots.split_at(place.slot).1, later),
        None => (&[], &[]),
    }
}

/// The first entry of a block that has a value.
fn first_value_in(block: &Block) -> Option<&Slot>
    requires { IsCounted block.now }
    ensures { option_map (λ slot. slot_entry slot.now) result ≡ first_value (list_of block.now) }
{
    if block.values == 0 {
        return None;
    }
    entries::first_value(&block.slots)
}

/// The first entry of some blocks that has a value.
fn first_value(blocks: &[Block]) -> Option<&Slot>
    requires { AllByRecursion IsEntryBlock blocks.now }
    ensures { option_map (λ slot. slot_entry slot.now) result
        ≡ first_value (block_entries blocks.now) }
{
    let mut rest = blocks;
    'each: while let Some((block, later)) = rest.split_first() {
        if let Some(slot) = first_value_in(block) {
            return Some(slot);
        }
        rest = later;
    }
    None
}

/// The first entry with a value at or above the sought text. The search for the lower bound starts at the recent
/// places, and its place is recorded.
pub(crate) fn first_value_from<'a, S: Sought>(
    blocks: &'a [Block],
    sought: S,
    recent: &mut RecentPlaces,
) -> Option<&'a Slot>
    requires rising { IsRising (block_entries blocks.now) }
    requires blocks { AllByRecursion IsEntryBlock blocks.now }
    ensures { option_map (λ slot. slot_entry slot.now) result
        ≡ first_value (entries_from (S.name sought) (block_entries blocks.now)) }
{
    let (rest, later) = rest_from(blocks, sought, recent);
    match entries::first_value(rest) {
        Some(slot) => Some(slot),
        None => first_value(later),
    }
}

/// Makes room for this many more entries.
pub(crate) fn make_room(alloc: Global, blocks: &mut Blocks, count: usize) -> Result<(), AllocError>
    requires { AreEntryBlocks blocks.old }
    ensures same { blocks.new.filled.items ≡ blocks.old.filled.items }
    ensures blocks { AreEntryBlocks blocks.new }
    ensures room { OnOk result (HasRoom count blocks.new) }
{
    blocks.filled.reserve(count)?;
    while blocks.spare.len() < count {
        let block = Vec::with_capacity(alloc, BLOCK_ROOM)?;
        blocks.spare.push(block)?;
    }
    Ok(())
}

/// Moves the upper half of the entries to an empty list.
fn halve(slots: &mut Vec<Box<Slot>>, upper: &mut Vec<Box<Slot>>)
    requires full { vec_len slots.old ≡ 128 }
    requires empty { upper.old.items ≡ [] }
    requires room { 128 ≤ vec_capacity upper.old }
    ensures halves { slots.old.items ≡ slots.new.items ++ upper.new.items }
    ensures lower { vec_len slots.new ≡ 64 }
    ensures upper { vec_len upper.new ≡ 64 }
    ensures capacity { vec_capacity slots.new ≡ vec_capacity slots.old }
    ensures room { 128 ≤ vec_capacity upper.new }
{
    while slots.len() > BLOCK_ROOM / 2 {
        if let Some(slot) = slots.pop() {
            upper.push(slot).unwrap();
        }
    }
    upper.reverse();
}

/// Cuts a full block in two. The upper one uses the memory of `spare`.
fn cut(block: &mut Block, spare: Vec<Box<Slot>>) -> Block
    requires full { vec_len block.old.slots ≡ 128 }
    requires counted { IsCounted block.old }
    requires spare { IsSpare spare }
    ensures entries { list_of block.old ≡ list_of block.new ++ list_of result }
    ensures lower { IsEntryBlock block.new }
    ensures upper { IsEntryBlock result }
{
    let mut upper = spare;
    halve(&mut block.slots, &mut upper);
    let values = entries::value_count(&upper);
    block.values -= values;
    Block {
        slots: upper,
        values,
    }
}

/// Cuts the full block at an index in two.
fn split(blocks: &mut Blocks, at: usize)
    requires room { HasRoom 1 blocks.old }
    requires spare { AllByRecursion IsSpare blocks.old.spare.items }
    requires full { IsFullAt blocks.old.filled.items at }
    ensures same { block_entries blocks.new.filled.items ≡ block_entries blocks.old.filled.items }
    ensures blocks { AreEntryBlocks blocks.new }
    ensures room { (n : ℕ) → HasRoom (n + 1) blocks.old → HasRoom n blocks.new }
{
    let spare = blocks.spare.pop().unwrap();
    let upper = cut(&mut blocks.filled[at], spare);
    blocks.filled.insert(at + 1, upper).unwrap();
}

/// Makes an entry the first block, when there is no block yet.
fn open(blocks: &mut Blocks, slot: Box<Slot>)
    requires empty { blocks.old.filled.items ≡ [] }
    requires blocks { AreEntryBlocks blocks.old }
    requires room { HasRoom 1 blocks.old }
    ensures entries { block_entries blocks.new.filled.items ≡ slot_entry slot.value ∷ [] }
    ensures blocks { AreEntryBlocks blocks.new }
    ensures room { (n : ℕ) → HasRoom (n + 1) blocks.old → HasRoom n blocks.new }
{
    let values = slot.value_count();
    let mut slots = blocks.spare.pop().unwrap();
    slots.push(slot).unwrap();
    blocks.filled.push(Block { slots, values }).unwrap();
}

/// Puts an entry at its place in a block that has room for it, which is `at`. Returns the size of the entry with the
/// same text that it replaces, if there is one.
fn put_in(block: &mut Block, at: usize, slot: Box<Slot>) -> Option<EntrySize>
    requires rising { IsRising (list_of block.old) }
    requires bound { at ≤ vec_len block.old.slots }
    requires place { IsPlace slot.value.text (list_of block.old) at }
    requires room { vec_len block.old.slots < vec_capacity block.old.slots }
    requires few { vec_len block.old.slots < 128 }
    requires counted { IsCounted block.old }
    ensures entries { list_of block.new
        ≡ put_entry byte_cmp (slot_entry slot.value).0 (slot_entry slot.value).1
        (list_of block.old) }
    ensures replaced { result ≡ stood_size (slot_entry slot.value).0
        (entry_of_key (list_of block.old) (slot_entry slot.value).0) }
    ensures some { 1 ≤ vec_len block.new.slots }
    ensures grows { GrowsBy 1 block.old.slots block.new.slots }
    ensures counted { IsCounted block.new }
{
    block.values += slot.value_count();
    match entries::put_at(&mut block.slots, at, slot) {
        Some(old) => {
            block.values -= old.value_count();
            Some(old.size())
        }
        None => None,
    }
}

/// Puts an entry at its place. There must be room for it. Returns the size of the entry with the same text that it
/// replaces, if there is one.
pub(crate) fn put(blocks: &mut Blocks, slot: Box<Slot>) -> Option<EntrySize>
    requires rising { IsRising (block_entries blocks.old.filled.items) }
    requires blocks { AreEntryBlocks blocks.old }
    requires room { HasRoom 1 blocks.old }
    ensures entries { block_entries blocks.new.filled.items
        ≡ put_entry byte_cmp (slot_entry slot.value).0 (slot_entry slot.value).1
        (block_entries blocks.old.filled.items) }
    ensures replaced { result ≡ stood_size (slot_entry slot.value).0
        (entry_of_key (block_entries blocks.old.filled.items) (slot_entry slot.value).0) }
    ensures blocks { AreEntryBlocks blocks.new }
    ensures room { (n : ℕ) → HasRoom (n + 1) blocks.old → HasRoom n blocks.new }
{
    let count = blocks.filled.len();
    if count == 0 {
        open(blocks, slot);
        return None;
    }
    let place = place_near(&blocks.filled, &slot.text, &blocks.recent);
    let at = room_at(&blocks.filled, place);
    blocks.recent = blocks.recent.with(at);
    let replaced = put_in(&mut blocks.filled[at.block], at.slot, slot);
    if blocks.filled[at.block].slots.len() == BLOCK_ROOM {
        split(blocks, at.block);
    }
    replaced
}

/// Puts an entry at its place. There must be room for it. Returns the new size of all entries.
pub(crate) fn put_counted(blocks: &mut Blocks, slot: Box<Slot>, before: Size) -> Size
    requires rising { IsRising (block_entries blocks.old.filled.items) }
    requires blocks { AreEntryBlocks blocks.old }
    requires room { HasRoom 1 blocks.old }
    requires limits { IsEntry (slot_entry slot.value) }
    requires before { IsSizeOf before (block_entries blocks.old.filled.items) }
    requires few { before.entries ≤ 2 ^ 65 }
    requires small { before.bytes ≤ 2 ^ 83 }
    ensures size { IsSizeOf result (put_entry byte_cmp (slot_entry slot.value).0
        (slot_entry slot.value).1 (block_entries blocks.old.filled.items)) }
    ensures entries { block_entries blocks.new.filled.items
        ≡ put_entry byte_cmp (slot_entry slot.value).0 (slot_entry slot.value).1
        (block_entries blocks.old.filled.items) }
    ensures blocks { AreEntryBlocks blocks.new }
    ensures room { (n : ℕ) → HasRoom (n + 1) blocks.old → HasRoom n blocks.new }
{
    let added = slot.size();
    before.with(added, put(blocks, slot))
}

/// Puts entries over the others. There must be room for all of them. Returns the new size of all entries.
pub(crate) fn put_all(blocks: &mut Blocks, mut staged: Vec<Box<Slot>>, before: Size) -> Size
    requires rising { IsRising (block_entries blocks.old.filled.items) }
    requires blocks { AreEntryBlocks blocks.old }
    requires room { HasRoom (vec_len staged) blocks.old }
    requires limits { AllByRecursion IsEntry (slot_entries staged.items) }
    requires before { IsSizeOf before (block_entries blocks.old.filled.items) }
    requires few { before.entries ≤ 2 ^ 64 }
    requires small { before.bytes ≤ 2 ^ 64 }
    ensures size { IsSizeOf result
        (over (slot_entries staged.items) (block_entries blocks.old.filled.items)) }
    ensures entries { block_entries blocks.new.filled.items
        ≡ over (slot_entries staged.items) (block_entries blocks.old.filled.items) }
    ensures blocks { AreEntryBlocks blocks.new }
{
    let mut size = before;
    while let Some(slot) = staged.pop() {
        let added = slot.size();
        size = size.with(added, put(blocks, slot));
    }
    size
}
