//! Ranges of rows.

ghost use Rattle.std.specs.Prelude.{◌≡◌};
ghost use Rattle.tablet.specs.Ranges.{has_row};

use cell_key::Row;

/// The rows after the row `after`, up to and including the row `end`. Without `after` it begins at the first row,
/// without `end` it has no last row (Bigtable, tablets: a tablet is a range of rows).
#[derive(Debug, Clone, Drop)]
pub struct RowRange {
    pub after: Option<Row>,
    pub end: Option<Row>,
}

impl RowRange {
    /// Whether the range has the row. Allocates nothing.
    pub fn has_row(&self, row: &Row) -> bool
        ensures { result ≡ has_row self.now row.now }
    {
        if let Some(after) = &self.after {
            if after.cmp(row).is_ge() {
                return false;
            }
        }
        match &self.end {
            Some(end) => row.cmp(end).is_le(),
            None => true,
        }
    }
}
