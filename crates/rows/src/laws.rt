//! Laws of the answers of rows. Each is the contract of a function that does nothing.

ghost use Rattle.rows.specs.Laws.{OneNewest, OneNextCell};

/// A cell map has only one newest version in a range of stamps.
pub fn one_newest()
    ensures { OneNewest }
{}

/// A cell map has only one next cell after a place.
pub fn one_next_cell()
    ensures { OneNextCell }
{}
