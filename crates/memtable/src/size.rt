//! The size of a memtable: how many entries, bytes, and values of locks it has.

ghost use Rattle.std.specs.Prelude.{◌≡◌, ◌+◌, ◌*◌, ◌≤◌, ◌<◌, ◌^◌, IsTrue, is_some, if◌then◌else◌};
ghost use Rattle.memtable.specs.Sizes.{or_nothing};

/// The most entries of a memtable.
pub(crate) const MOST_ENTRIES: usize = 100_000;

/// The most bytes of all entries of a memtable together.
pub(crate) const MOST_BYTES: usize = 67_108_864;

/// An upper bound of an entry's bytes.
const ENTRY_BYTES: u128 = 262_144;

/// The share of one entry in a size.
#[derive(Clone, Copy)]
pub(crate) struct EntrySize {
    /// The length of the entry in a file.
    pub(crate) bytes: u128,
    /// 1 for a value of a lock, and 0 for any other entry.
    pub(crate) locks: u128,
}

/// How many entries, bytes, and values of locks there are. Wide enough for any list of edits.
#[derive(Clone, Copy)]
pub(crate) struct Size {
    pub(crate) entries: u128,
    pub(crate) bytes: u128,
    pub(crate) locks: u128,
}

impl Size {
    /// The size with one entry more, or with an entry replaced by another.
    pub(crate) fn with(self, added: EntrySize, replaced: Option<EntrySize>) -> Size
        requires replaced_bytes { (or_nothing replaced).bytes ≤ self.bytes }
        requires replaced_locks { (or_nothing replaced).locks ≤ self.locks }
        requires few { self.entries + 1 < 2 ^ 128 }
        requires small { self.bytes + added.bytes < 2 ^ 128 }
        requires few_locks { self.locks + added.locks < 2 ^ 128 }
        ensures entries { result.entries
            ≡ (if is_some replaced then self.entries else self.entries + 1) }
        ensures bytes { result.bytes + (or_nothing replaced).bytes ≡ self.bytes + added.bytes }
        ensures locks { result.locks + (or_nothing replaced).locks ≡ self.locks + added.locks }
    {
        match replaced {
            Some(old) => Size {
                entries: self.entries,
                bytes: self.bytes - old.bytes + added.bytes,
                locks: self.locks - old.locks + added.locks,
            },
            None => Size {
                entries: self.entries + 1,
                bytes: self.bytes + added.bytes,
                locks: self.locks + added.locks,
            },
        }
    }

    /// Whether the size with any `count` more entries is within the limits.
    pub(crate) fn has_room(self, count: usize) -> bool
        requires few { self.entries ≤ 2 ^ 64 }
        requires small { self.bytes ≤ 2 ^ 64 }
        ensures entries { IsTrue result → self.entries + count ≤ 100000 }
        ensures bytes { IsTrue result → self.bytes + 2 ^ 18 * count ≤ 67108864 }
    {
        let count = count as u128;
        self.entries + count <= MOST_ENTRIES as u128
            && self.bytes + ENTRY_BYTES * count <= MOST_BYTES as u128
    }
}
