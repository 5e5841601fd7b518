//! Laws of the table and of its tablets' rows. Each is the contract of a function that does nothing.

ghost use Rattle.metadata_table.specs.Ranges.{OneHolder, HolderRange, OneRange, CutRanges, CutRows, SameRanges};
ghost use Rattle.metadata_table.specs.Roots.{OneMeasure, OneRoot};

/// Each row is in the range of exactly one tablet.
pub fn one_holder()
    ensures { OneHolder }
{}

/// The place that holds a row belongs to the tablet in whose range the row is.
pub fn holder_range()
    ensures { HolderRange }
{}

/// A tablet has only one range.
pub fn one_range()
    ensures { OneRange }
{}

/// When a tablet is cut at a row, its range, which has the row, is replaced by the two parts. All other ranges are
/// unchanged.
pub fn cut_ranges()
    ensures { CutRanges }
{}

/// The left part of a range cut at a row has the range's rows up to and including that row, and the right part the rows
/// after it.
pub fn cut_rows()
    ensures { CutRows }
{}

/// Neither a move nor a new list of files changes a range.
pub fn same_ranges()
    ensures { SameRanges }
{}

/// Bytes are the root of at most one table and one set of numbers.
pub fn one_root()
    ensures { OneRoot }
{}

/// Bytes are a root with at most one list of lengths.
pub fn one_measure()
    ensures { OneMeasure }
{}
