//! Laws of merged lists, and of the entries written of them. Each is the contract of a function that does nothing.

ghost use Rattle.compaction.specs.Ends.{MergesRanges};
ghost use Rattle.compaction.specs.Writing.{WritesEntryLists, KeepsOneList, NamesFirst};

use cell_key::merges_lists;

/// The entries written of entry lists are an entry list.
pub fn writes_entry_lists()
    ensures { WritesEntryLists }
{}

/// A single entry list is written unchanged, if erasures are kept.
pub fn keeps_one_list()
    ensures { KeepsOneList }
{
    merges_lists();
}

/// For each text, the first list with an entry of it decides: its value is written, and its erasure too if erasures are
/// kept.
pub fn names_first()
    ensures { NamesFirst }
{
    merges_lists();
}

/// A range of the merged lists, from one text on and below another, is the merge of the same range of each list.
pub fn merges_ranges()
    ensures { MergesRanges }
{
    merges_lists();
}
