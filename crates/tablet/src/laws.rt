//! Laws of tablets. Each is the contract of a function that does nothing.

ghost use Rattle.tablet.specs.MergePolicies.{FewLevels, StayInLevels};
ghost use Rattle.tablet.specs.RunMerges.{RunsAlike};
ghost use Rattle.tablet.specs.Laws.{StaysInRange, ShowsItsLists, OthersStay, UnnamedMayGo, SameCells, FilesAreThere, EditsShow};

use sorted_file::{one_listing, open_is_there, stays_open};

/// A tablet shows an entry list, and no cell outside its range.
pub fn stays_in_range()
    ensures { StaysInRange }
{}

/// In its range a tablet shows a key's value in the first of its lists that names the key, or no value if that list has
/// an erasure or no list names the key. The memtable is the first list, the newest file the next.
pub fn shows_its_lists()
    ensures { ShowsItsLists }
{}

/// Writing or removing a file under a name that none of a tablet's files has changes nothing for the tablet.
pub fn others_stay()
    ensures { OthersStay }
{
    stays_open();
}

/// As long as the files under its names are unchanged, nothing changes for a tablet.
pub fn unnamed_may_go()
    ensures { UnnamedMayGo }
{
    stays_open();
}

/// Tablets with the same range, the same memtable and the same file names have the same cells.
pub fn same_cells()
    ensures { SameCells }
{
    one_listing();
}

/// Open files with the same names mean the same entries together.
pub fn runs_alike()
    ensures { RunsAlike }
{
    one_listing();
}

/// Every file of a tablet exists.
pub fn files_are_there()
    ensures { FilesAreThere }
{
    open_is_there();
}

/// Edits of rows in its range, put into the memtable of a tablet, are edits of its cells.
pub fn edits_show()
    ensures { EditsShow }
{}

/// Files in levels are few: at most one for each doubling of the size.
pub fn few_levels()
    ensures { FewLevels }
{}

/// A merge of the files up to the oldest small one leaves all files in levels.
pub fn stay_in_levels()
    ensures { StayInLevels }
{}
