//! The range of the stamps of keys: a search outside of it finds nothing.

ghost use Rattle.std.specs.Prelude.{◌≡◌, ◌≤◌, ◌<◌, ◌⊎◌, ◌↔◌, All, IsTrue};
ghost use Rattle.cell_key.specs.Cells.{edited_key};
ghost use Rattle.memtable.specs.StampRanges.{IsEditWithin, IsOutside};

use cell_key::{Edit, Stamp};

/// A range of stamps, empty if the least is above the greatest.
#[derive(Clone, Copy, Drop)]
pub(crate) struct StampRange {
    pub(crate) least: Stamp,
    pub(crate) greatest: Stamp,
}

/// The stamp of an edit's key.
fn stamp_of_edit(edit: &Edit) -> Stamp
    ensures { result ≡ (edited_key edit.now).stamp }
{
    match edit {
        Edit::Put(key, _) => key.stamp,
        Edit::Erase(key) => key.stamp,
    }
}

impl StampRange {
    /// No stamps.
    pub(crate) const EMPTY: StampRange = StampRange {
        least: u64::MAX,
        greatest: 0,
    };

    /// Whether no stamp in `lo..=hi` is in the range.
    pub(crate) fn misses(self, lo: Stamp, hi: Stamp) -> bool
        ensures { IsTrue result ↔ IsOutside self lo hi }
    {
        hi < self.least || self.greatest < lo
    }

    /// The smallest range with this one and the stamps of edits.
    pub(crate) fn with_edits(self, edits: &[Edit]) -> StampRange
        ensures least { result.least ≤ self.least }
        ensures greatest { self.greatest ≤ result.greatest }
        ensures edits { All (IsEditWithin result) edits.now }
    {
        let StampRange {
            mut least,
            mut greatest,
        } = self;
        for edit in edits {
            let stamp = stamp_of_edit(edit);
            least = least.min(stamp);
            greatest = greatest.max(stamp);
        }
        StampRange { least, greatest }
    }
}
