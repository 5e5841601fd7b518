//! How full memtables are, and the limits at which one is compacted.

ghost use Rattle.std.specs.Prelude.{◌≡◌, length, max};
ghost use Rattle.memtable.specs.Edits.{bytes_of};
ghost use Rattle.tablet.specs.Views.{memory_of};
ghost use Rattle.row_atomic.specs.Memtables.{has_bytes, reaches};

use tablet::Tablet;

/// The limits of a memtable: it is compacted once it has this many entries or this many bytes.
#[derive(Clone, Copy, Debug, PartialEq, Eq)]
pub struct FlushLimits {
    /// Entries, erasures among them.
    pub entries: u32,
    /// Bytes of all entries together, as `Memtable::entry_bytes` counts them. `None` sets no limit of bytes.
    pub bytes: Option<u32>,
}

/// A memtable's number of entries, and their bytes.
#[derive(Clone, Copy)]
pub(crate) struct Fill {
    pub(crate) entries: usize,
    pub(crate) bytes: usize,
}

impl Fill {
    /// No entries.
    pub(crate) const NONE: Fill = Fill {
        entries: 0,
        bytes: 0,
    };

    /// How full a tablet's memtable is.
    pub(crate) fn of(tablet: &Tablet) -> Fill
        ensures entries { result.entries ≡ length (memory_of tablet.now) }
        ensures bytes { result.bytes ≡ bytes_of (memory_of tablet.now) }
    {
        Fill {
            entries: tablet.len(),
            bytes: tablet.entry_bytes(),
        }
    }

    /// The greater number of entries and the greater number of bytes of the two.
    pub(crate) fn joined(self, other: Fill) -> Fill
        ensures entries { result.entries ≡ max self.entries other.entries }
        ensures bytes { result.bytes ≡ max self.bytes other.bytes }
    {
        Fill {
            entries: self.entries.max(other.entries),
            bytes: self.bytes.max(other.bytes),
        }
    }

    /// Whether a memtable this full has reached the limits.
    pub(crate) fn reaches(self, limits: FlushLimits) -> bool
        ensures { result ≡ reaches limits self.entries self.bytes }
    {
        self.entries >= limits.entries as usize || self.has_bytes(limits.bytes)
    }

    /// Whether the limit of bytes, if there is one, is reached.
    fn has_bytes(self, bytes: Option<u32>) -> bool
        ensures { result ≡ has_bytes bytes self.bytes }
    {
        match bytes {
            Some(most) => self.bytes >= most as usize,
            None => false,
        }
    }
}
