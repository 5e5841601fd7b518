//! The entries of a block, in the byte order of their texts. Making room moves one pointer for each entry.

ghost use Rattle.std.specs.Prelude.{◌≡◌, ◌+◌, ◌≤◌, ◌<◌, IfSome, option_map, length, vec_len, vec_capacity};
ghost use Rattle.std.specs.FinMap.Entries.{put as put_entry};
ghost use Rattle.cell_key.specs.Keys.{byte_cmp};
ghost use Rattle.cell_key.specs.Entries.{IsPlace, IsRising, entry_of_key, lent_entry, entry_len};
ghost use Rattle.memtable.specs.Slots.{slot_entry, slot_entries, is_named, first_value, one_lock, one_value, value_count, AreBelow, AreNotBelow, GrowsBy, IsPartOf};
ghost use Rattle.memtable.specs.Sizes.{entry_size};

use crate::key_text::EntryText;
use crate::size::EntrySize;
use crate::sought::Sought;
use cell_key::EntryRef;
use std::cmp::Ordering;
use std::mem;

/// An entry: the text of a key, and its value or an erasure.
#[derive(Drop)]
pub(crate) struct Slot {
    pub(crate) text: EntryText,
    pub(crate) value: Option<Vec<u8>>,
}

impl Slot {
    /// The entry, borrowed.
    pub(crate) fn lend(&self) -> EntryRef<'_>
        ensures { lent_entry result ≡ slot_entry self.now }
    {
        EntryRef {
            key: self.text.as_slice(),
            value: self.value.as_deref(),
        }
    }

    /// The length of the entry in a file, in bytes.
    fn len(&self) -> u128
        ensures { result ≡ entry_len (slot_entry self.now) }
    {
        let text = 4 + self.text.as_slice().len() as u128;
        match &self.value {
            Some(value) => text + 5 + value.len() as u128,
            None => text + 1,
        }
    }

    /// 1 for a value, and 0 for an erasure.
    pub(crate) fn value_count(&self) -> usize
        ensures { result ≡ one_value (slot_entry self.now).1 }
    {
        match &self.value {
            Some(_) => 1,
            None => 0,
        }
    }

    /// 1 for a value of a lock, and 0 for any other entry.
    fn lock_count(&self) -> u128
        ensures { result ≡ one_lock (slot_entry self.now) }
    {
        if self.value.is_some() && self.text.is_lock() {
            1
        } else {
            0
        }
    }

    /// The entry's share of a size.
    pub(crate) fn size(&self) -> EntrySize
        ensures { result ≡ entry_size (slot_entry self.now) }
    {
        EntrySize {
            bytes: self.len(),
            locks: self.lock_count(),
        }
    }
}

/// The index of the first entry at or above the sought text (the lower bound).
pub(crate) fn first_from<S: Sought>(slots: &[Box<Slot>], sought: S) -> usize
    requires { IsRising (slot_entries slots.now) }
    ensures bound { result ≤ length slots.now }
    ensures place { IsPlace (S.name sought) (slot_entries slots.now) result }
{
    slots.partition_point(|slot| sought.compare(&slot.text).is_gt())
}

/// A range with the lower bound, in which a search goes on: the entries before it are below the sought text, and the
/// entries from its end on are not. All entries before `from` are below. The steps from there grow.
fn steps_after<S: Sought>(slots: &[Box<Slot>], sought: S, from: usize) -> (usize, usize)
    requires rising { IsRising (slot_entries slots.now) }
    requires from { from ≤ length slots.now }
    requires below { AreBelow (S.name sought) slots.now from }
    ensures { IsPartOf (S.name sought) slots.now result.0 result.1 }
{
    let mut from = from;
    let mut step: usize = 1;
    'steps: while from < slots.len() {
        let at = from.saturating_add(step).min(slots.len() - 1);
        if !sought.compare(&slots[at].text).is_gt() {
            return (from, at);
        }
        from = at + 1;
        step = step.saturating_mul(4).saturating_add(1);
    }
    (from, from)
}

/// The same. The entry at `from` is compared first. If its first eight bytes differ from the sought text's, the last
/// entry is compared next, so that a text above all entries takes two comparisons.
fn part_after<S: Sought>(slots: &[Box<Slot>], sought: S, from: usize) -> (usize, usize)
    requires rising { IsRising (slot_entries slots.now) }
    requires from { from ≤ length slots.now }
    requires below { AreBelow (S.name sought) slots.now from }
    ensures { IsPartOf (S.name sought) slots.now result.0 result.1 }
{
    if from == slots.len() {
        return (from, from);
    }
    if !sought.compare(&slots[from].text).is_gt() {
        return (from, from);
    }
    let last = slots.len() - 1;
    if from < last && !sought.has_front(&slots[from].text) {
        if sought.compare(&slots[last].text).is_gt() {
            return (slots.len(), slots.len());
        }
    }
    steps_after(slots, sought, from + 1)
}

/// A range with the lower bound: the entries before it are below the sought text, and the entries from its end on are
/// not. No entry from `to` on is below. The steps down from there grow.
fn steps_before<S: Sought>(slots: &[Box<Slot>], sought: S, to: usize) -> (usize, usize)
    requires rising { IsRising (slot_entries slots.now) }
    requires to { to ≤ length slots.now }
    requires above { AreNotBelow (S.name sought) slots.now to }
    ensures { IsPartOf (S.name sought) slots.now result.0 result.1 }
{
    let mut to = to;
    let mut step: usize = 1;
    'steps: while to > 0 {
        let at = (to - 1).saturating_sub(step);
        if sought.compare(&slots[at].text).is_gt() {
            return (at + 1, to);
        }
        to = at;
        step = step.saturating_mul(4).saturating_add(1);
    }
    (0, 0)
}

/// The same. The entry before `to` is compared first. If its first eight bytes differ from the sought text's, the first
/// entry is compared next, so that a text below all entries takes two comparisons.
fn part_before<S: Sought>(slots: &[Box<Slot>], sought: S, to: usize) -> (usize, usize)
    requires rising { IsRising (slot_entries slots.now) }
    requires to { to ≤ length slots.now }
    requires above { AreNotBelow (S.name sought) slots.now to }
    ensures { IsPartOf (S.name sought) slots.now result.0 result.1 }
{
    if to == 0 {
        return (to, to);
    }
    if sought.compare(&slots[to - 1].text).is_gt() {
        return (to, to);
    }
    if to > 1 && !sought.has_front(&slots[to - 1].text) {
        if !sought.compare(&slots[0].text).is_gt() {
            return (0, 0);
        }
    }
    steps_before(slots, sought, to - 1)
}

/// A range with the lower bound: the entries before it are below the sought text, and the entries from its end on are
/// not. The search starts at the entry at `near`.
fn part_near<S: Sought>(slots: &[Box<Slot>], sought: S, near: usize) -> (usize, usize)
    requires { IsRising (slot_entries slots.now) }
    ensures { IsPartOf (S.name sought) slots.now result.0 result.1 }
{
    let Some(slot) = slots.get(near) else {
        return (0, slots.len());
    };
    match sought.compare(&slot.text) {
        Ordering::Less => part_before(slots, sought, near),
        Ordering::Equal => (near, near),
        Ordering::Greater => part_after(slots, sought, near + 1),
    }
}

/// The index of the first entry at or above the sought text. The search starts at the entry at `near`.
pub(crate) fn first_near<S: Sought>(slots: &[Box<Slot>], sought: S, near: usize) -> usize
    requires { IsRising (slot_entries slots.now) }
    ensures bound { result ≤ length slots.now }
    ensures place { IsPlace (S.name sought) (slot_entries slots.now) result }
{
    let (mut from, mut to) = part_near(slots, sought, near);
    'halves: while from < to {
        let middle = from + (to - from) / 2;
        if sought.compare(&slots[middle].text).is_gt() {
            from = middle + 1;
        } else {
            to = middle;
        }
    }
    from
}

/// Whether the entry at an index has the sought text.
fn is_named<S: Sought>(slots: &[Box<Slot>], at: usize, sought: S) -> bool
    ensures { result ≡ is_named (S.name sought) (slot_entries slots.now) at }
{
    match slots.get(at) {
        Some(slot) => sought.is(&slot.text),
        None => false,
    }
}

/// The entry with the sought text, if there is one; `at` is the index of the lower bound.
pub(crate) fn find_at<S: Sought>(slots: &[Box<Slot>], at: usize, sought: S) -> Option<&Slot>
    requires rising { IsRising (slot_entries slots.now) }
    requires place { IsPlace (S.name sought) (slot_entries slots.now) at }
    ensures found { option_map (λ slot. (slot_entry slot.now).1) result
        ≡ entry_of_key (slot_entries slots.now) (S.name sought) }
    ensures named { IfSome result (λ slot. slot.now.text ≡ S.name sought) }
{
    let slot = slots.get(at)?;
    if sought.is(&slot.text) {
        Some(slot)
    } else {
        None
    }
}

/// The first entry that has a value.
pub(crate) fn first_value(slots: &[Box<Slot>]) -> Option<&Slot>
    ensures { option_map (λ slot. slot_entry slot.now) result
        ≡ first_value (slot_entries slots.now) }
{
    let mut rest = slots;
    'slots: while let Some((slot, after)) = rest.split_first() {
        if slot.value.is_some() {
            return Some(slot);
        }
        rest = after;
    }
    None
}

/// How many entries have a value.
pub(crate) fn value_count(slots: &[Box<Slot>]) -> usize
    requires { length slots.now ≤ 128 }
    ensures { result ≡ value_count (slot_entries slots.now) }
{
    let mut count = 0;
    let mut rest = slots;
    'slots: while let Some((slot, after)) = rest.split_first() {
        count += slot.value_count();
        rest = after;
    }
    count
}

/// Puts an entry at its place, which is `at`. There must be room for it. Returns the entry with the same text that it
/// replaces, if there is one.
pub(crate) fn put_at(slots: &mut Vec<Box<Slot>>, at: usize, slot: Box<Slot>) -> Option<Box<Slot>>
    requires rising { IsRising (slot_entries slots.old.items) }
    requires bound { at ≤ vec_len slots.old }
    requires place { IsPlace slot.value.text (slot_entries slots.old.items) at }
    requires room { vec_len slots.old < vec_capacity slots.old }
    ensures entries { slot_entries slots.new.items
        ≡ put_entry byte_cmp (slot_entry slot.value).0 (slot_entry slot.value).1
        (slot_entries slots.old.items) }
    ensures replaced { option_map (λ old. (slot_entry old.value).1) result
        ≡ entry_of_key (slot_entries slots.old.items) slot.value.text }
    ensures named { IfSome result (λ old. old.value.text ≡ slot.value.text) }
    ensures some { 1 ≤ vec_len slots.new }
    ensures grows { GrowsBy 1 slots.old slots.new }
{
    if is_named(slots, at, &slot.text) {
        return Some(mem::replace(&mut slots[at], slot));
    }
    slots.insert(at, slot).unwrap();
    None
}

/// Puts an entry at its place. There must be room for it. Returns the entry with the same text that it replaces, if
/// there is one.
pub(crate) fn put(slots: &mut Vec<Box<Slot>>, slot: Box<Slot>) -> Option<Box<Slot>>
    requires rising { IsRising (slot_entries slots.old.items) }
    requires room { vec_len slots.old < vec_capacity slots.old }
    ensures entries { slot_entries slots.new.items
        ≡ put_entry byte_cmp (slot_entry slot.value).0 (slot_entry slot.value).1
        (slot_entries slots.old.items) }
    ensures grows { GrowsBy 1 slots.old slots.new }
{
    let at = first_from(slots, &slot.text);
    put_at(slots, at, slot)
}
