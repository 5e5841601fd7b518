//! Places of tablets.

ghost use Rattle.std.specs.Prelude.{◌≡◌, ◌↔◌, IsTrue, IfOk, Some};
ghost use Rattle.metadata_table.specs.Places.{view_of, IsLower};
ghost use Rattle.metadata_table.specs.Table.{left_part};
ghost use Rattle.metadata_table.specs.Search.{ends_before};

use cell_key::Row;
use std::alloc::AllocError;

/// The place of a tablet: its number, the last row that it may hold (`None` is the infinite end), the number of its
/// server, and the names of its files, the newest first.
#[derive(Debug, Drop)]
pub struct Place {
    pub tablet: u32,
    pub end: Option<Row>,
    pub server: u8,
    pub files: Vec<u64>,
}

impl Place {
    /// Whether the end is below a row. The infinite end is below no row.
    pub(crate) fn ends_before(&self, row: &Row) -> bool
        ensures { result ≡ ends_before self.now.end row.now }
    {
        match &self.end {
            Some(end) => end.cmp(row).is_lt(),
            None => false,
        }
    }

    /// Whether the end is below another place's end. The infinite end is above all others.
    pub(crate) fn ends_below(&self, other: &Place) -> bool
        ensures { IsTrue result ↔ IsLower self.now.end other.now.end }
    {
        match (&self.end, &other.end) {
            (None, _) => false,
            (Some(_), None) => true,
            (Some(end), Some(other)) => end.cmp(other).is_lt(),
        }
    }

    /// Whether the row is the end.
    pub(crate) fn ends_with(&self, row: &Row) -> bool
        ensures { IsTrue result ↔ (self.now.end ≡ Some row.now) }
    {
        match &self.end {
            Some(end) => end == row,
            None => false,
        }
    }

    /// The left part of the place, cut at a row: it ends with the row and has the new number.
    pub(crate) fn left_part(&self, row: &Row, tablet: u32) -> Result<Place, AllocError>
        ensures { IfOk result (λ part. view_of part ≡ left_part row.now tablet (view_of self.now)) }
    {
        let end = row.clone()?;
        let files = self.files.clone()?;
        Ok(Place {
            tablet,
            end: Some(end),
            server: self.server,
            files,
        })
    }
}

impl Clone for Place {
    ghost is_clone = { λ old new. view_of new ≡ view_of old };

    fn clone(&self) -> Result<Place, AllocError> {
        let end = self.end.clone()?;
        let files = self.files.clone()?;
        Ok(Place {
            tablet: self.tablet,
            end,
            server: self.server,
            files,
        })
    }
}
