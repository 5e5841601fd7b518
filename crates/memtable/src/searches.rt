//! Searches of blocks for a key, and for the newest version of a column. They allocate nothing.

ghost use Rattle.std.specs.Prelude.{◌≡◌, IfSome, option_map};
ghost use Rattle.std.specs.List.{AllByRecursion};
ghost use Rattle.cell_key.specs.Cells.{IsNewest};
ghost use Rattle.cell_key.specs.Entries.{IsEntryList, cells_of, lent_entry, entry_of_key};
ghost use Rattle.cell_key.specs.Keys.{text};
ghost use Rattle.cell_key.specs.Versions.{IsVersion};
ghost use Rattle.memtable.specs.Blocks.{block_entries, IsEntryBlock};
ghost use Rattle.memtable.specs.Order.{at_stamp, key_of};
ghost use Rattle.memtable.specs.Slots.{lent_version};

use crate::blocks::{self, Block, RecentPlaces};
use crate::key_text::KeyText;
use crate::sought::Version;
use crate::stack_text::{LongBytes, ShortBytes};
use cell_key::{EntryRef, Stamp};

/// The entry with this text. The search starts at the recent places.
fn find<'a>(blocks: &'a [Block], recent: &RecentPlaces, name: &KeyText<'_>) -> Option<EntryRef<'a>>
    requires list { IsEntryList (block_entries blocks.now) }
    requires blocks { AllByRecursion IsEntryBlock blocks.now }
    ensures found { option_map (λ lent. (lent_entry lent).1) result
        ≡ entry_of_key (block_entries blocks.now) name.now }
    ensures named { IfSome result (λ lent. lent.key.now ≡ name.now) }
{
    let slot = blocks::find(blocks, name, recent)?;
    Some(slot.lend())
}

/// The entry of a version whose text is longer than 96 bytes.
fn find_long<'a>(
    blocks: &'a [Block],
    recent: &RecentPlaces,
    sought: Version<'_>,
) -> Option<EntryRef<'a>>
    requires list { IsEntryList (block_entries blocks.now) }
    requires blocks { AllByRecursion IsEntryBlock blocks.now }
    ensures found { option_map (λ lent. (lent_entry lent).1) result
        ≡ entry_of_key (block_entries blocks.now) (text (key_of sought.entry)) }
    ensures named { IfSome result (λ lent. lent.key.now ≡ text (key_of sought.entry)) }
{
    let mut long = LongBytes::new();
    sought.push_long_text(&mut long);
    find(blocks, recent, &KeyText::of(long.as_slice()))
}

/// The entry of a version. The search starts at the recent places.
pub(crate) fn find_version<'a>(
    blocks: &'a [Block],
    recent: &RecentPlaces,
    sought: Version<'_>,
) -> Option<EntryRef<'a>>
    requires list { IsEntryList (block_entries blocks.now) }
    requires blocks { AllByRecursion IsEntryBlock blocks.now }
    ensures found { option_map (λ lent. (lent_entry lent).1) result
        ≡ entry_of_key (block_entries blocks.now) (text (key_of sought.entry)) }
    ensures named { IfSome result (λ lent. lent.key.now ≡ text (key_of sought.entry)) }
{
    let mut short = ShortBytes::new();
    if sought.push_text(&mut short).is_ok() {
        return find(blocks, recent, &KeyText::of(short.as_slice()));
    }
    find_long(blocks, recent, sought)
}

/// The version of the sought version's column with the greatest stamp from `lo` to the sought one's, whose text is
/// `own`. The search starts at the recent places, and its place is recorded.
fn newest_of<'a>(
    blocks: &'a [Block],
    recent: &mut RecentPlaces,
    sought: Version<'_>,
    own: &KeyText<'_>,
    lo: Stamp,
) -> Option<(Stamp, &'a [u8])>
    requires list { IsEntryList (block_entries blocks.now) }
    requires blocks { AllByRecursion IsEntryBlock blocks.now }
    requires own { own.now ≡ text (key_of sought) }
    ensures found { IsNewest (cells_of (block_entries blocks.now)) (at_stamp sought.entry)
        lo sought.entry.stamp (option_map lent_version result) }
    ensures limits { IfSome result (λ found. IsVersion found.0 found.1.now) }
{
    // These calls show that row and family are within their limits.
    let _row = sought.row.as_bytes();
    let _family = sought.family.as_bytes();
    let slot = blocks::first_value_from(blocks, own, recent)?;
    let stamp = sought.stamp_in(own, slot.text.as_slice())?;
    if stamp < lo {
        return None;
    }
    match &slot.value {
        Some(value) => Some((stamp, value.as_slice())),
        None => None,
    }
}

/// The same if the text is longer than 96 bytes.
fn newest_of_long<'a>(
    blocks: &'a [Block],
    recent: &mut RecentPlaces,
    sought: Version<'_>,
    lo: Stamp,
) -> Option<(Stamp, &'a [u8])>
    requires list { IsEntryList (block_entries blocks.now) }
    requires blocks { AllByRecursion IsEntryBlock blocks.now }
    ensures found { IsNewest (cells_of (block_entries blocks.now)) (at_stamp sought.entry)
        lo sought.entry.stamp (option_map lent_version result) }
    ensures limits { IfSome result (λ found. IsVersion found.0 found.1.now) }
{
    let mut long = LongBytes::new();
    sought.push_long_text(&mut long);
    newest_of(blocks, recent, sought, &KeyText::of(long.as_slice()), lo)
}

/// The version of the sought version's column with the greatest stamp from `lo` to the sought one's. The search starts
/// at the recent places, and its place is recorded.
pub(crate) fn newest<'a>(
    blocks: &'a [Block],
    recent: &mut RecentPlaces,
    sought: Version<'_>,
    lo: Stamp,
) -> Option<(Stamp, &'a [u8])>
    requires list { IsEntryList (block_entries blocks.now) }
    requires blocks { AllByRecursion IsEntryBlock blocks.now }
    ensures found { IsNewest (cells_of (block_entries blocks.now)) (at_stamp sought.entry)
        lo sought.entry.stamp (option_map lent_version result) }
    ensures limits { IfSome result (λ found. IsVersion found.0 found.1.now) }
{
    let mut short = ShortBytes::new();
    if sought.push_text(&mut short).is_ok() {
        return newest_of(blocks, recent, sought, &KeyText::of(short.as_slice()), lo);
    }
    newest_of_long(blocks, recent, sought, lo)
}
