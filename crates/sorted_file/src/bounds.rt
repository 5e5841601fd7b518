//! Bounds of the entries of a file and of its blocks, by which a read skips those without the entry that it seeks.

ghost use Rattle.std.specs.Prelude.{◌≡◌, get_or, ◌≤◌, ℕ, List, false, ◌≢◌, IfSome, IfNone, ◌++◌, Option};
ghost use Rattle.cell_key.specs.Keys.{text};
ghost use Rattle.cell_key.specs.Texts.{escaped_byte};
ghost use Rattle.cell_key.specs.LentKeys.{IsLentKey};
ghost use Rattle.cell_key.specs.declared.keys.CellKey.{CellKey as KeyOf};
ghost use Rattle.sorted_file.specs.Bounds.{front, IsWithin, column_bounds, AreWithin, IsBounded};

use cell_key::{CellKey, KeyRef, Qualifier, Stamp};

/// The byte of a row at an index; 0 past its end.
fn byte_at(row: &[u8], at: usize) -> u8
    ensures { result ≡ get_or row.now at 0 }
{
    row.get(at).copied().unwrap_or(0)
}

/// The first eight bytes of a row as a number, padded with zeros if the row is shorter.
fn front_of(row: &[u8]) -> u64
    ensures { result ≡ front row.now }
{
    u64::from_be_bytes([
        byte_at(row, 0),
        byte_at(row, 1),
        byte_at(row, 2),
        byte_at(row, 3),
        byte_at(row, 4),
        byte_at(row, 5),
        byte_at(row, 6),
        byte_at(row, 7),
    ])
}

/// The first byte of the row at the front of a text, and the text behind it; `None` if the row ends there.
fn split_byte(text: &[u8]) -> Option<(u8, &[u8])>
    ensures found { IfSome result (λ p. text.now ≡ escaped_byte p.0 ++ p.1.now) }
    ensures none { IfNone result ((byte : ℕ) (rest : List ℕ)
        → text.now ≢ escaped_byte byte ++ rest) }
{
    let (byte, after) = text.split_first()?;
    if *byte != 0 {
        return Some((*byte, after));
    }
    let rest = after.strip_prefix(b"\xFF")?;
    Some((0, rest))
}

/// The first eight bytes as a number, if there are eight and none is 0: then they are the first eight bytes of the row
/// of the key with this text.
fn plain_front_in(bytes: &[u8]) -> Option<u64>
    ensures { IfSome result (λ number. (key : KeyOf) → bytes.now ≡ text key
        → number ≡ front key.row) }
{
    if bytes.len() < 8 {
        return None;
    }
    let (eight, _) = bytes.split_at(8);
    if eight.contains(&0) {
        return None;
    }
    Some(u64::from_be_bytes([
        eight[0], eight[1], eight[2], eight[3], eight[4], eight[5], eight[6], eight[7],
    ]))
}

/// The first eight bytes, as a number, of the row of the key with this text, decoded byte by byte and padded with
/// zeros.
fn short_front_in(bytes: &[u8]) -> u64
    ensures { (key : KeyOf) → bytes.now ≡ text key → result ≡ front key.row }
{
    let mut front = [0u8; 8];
    let mut left = bytes;
    for at in 0..8 {
        let Some((byte, after)) = split_byte(left) else {
            return u64::from_be_bytes(front);
        };
        front[at] = byte;
        left = after;
    }
    u64::from_be_bytes(front)
}

/// The first eight bytes, as a number, of the row of the key with this text, padded with zeros.
fn front_in(bytes: &[u8]) -> u64
    ensures { (key : KeyOf) → bytes.now ≡ text key → result ≡ front key.row }
{
    match plain_front_in(bytes) {
        Some(front) => front,
        None => short_front_in(bytes),
    }
}

/// Bounds of entries: their least and greatest stamps, and the least and greatest first eight bytes of their rows. Empty
/// if a least is above its greatest.
#[derive(Clone, Copy)]
pub(crate) struct Bounds {
    pub(crate) least: Stamp,
    pub(crate) greatest: Stamp,
    pub(crate) first: u64,
    pub(crate) last: u64,
}

impl Bounds {
    /// The bounds of no entries.
    const NONE: Bounds = Bounds {
        least: u64::MAX,
        greatest: 0,
        first: u64::MAX,
        last: 0,
    };

    /// Widens the bounds to an entry at this stamp in a row whose first eight bytes are this number.
    fn widen(&mut self, number: u64, stamp: Stamp)
        ensures has { (row : List ℕ) → number ≡ front row → IsWithin self.new row stamp }
        ensures keeps { (row : List ℕ) (s : ℕ) → IsWithin self.old row s → IsWithin self.new row s }
    {
        self.least = self.least.min(stamp);
        self.greatest = self.greatest.max(stamp);
        self.first = self.first.min(number);
        self.last = self.last.max(number);
    }

    /// Bounds of the entries of both (their union).
    fn joined(self, other: Bounds) -> Bounds
        ensures first { (row : List ℕ) (s : ℕ) → IsWithin self row s → IsWithin result row s }
        ensures second { (row : List ℕ) (s : ℕ) → IsWithin other row s → IsWithin result row s }
    {
        Bounds {
            least: self.least.min(other.least),
            greatest: self.greatest.max(other.greatest),
            first: self.first.min(other.first),
            last: self.last.max(other.last),
        }
    }

    /// Whether one of the stamps may be in `lo..=hi`.
    fn meets(self, lo: Stamp, hi: Stamp) -> bool
        ensures { result ≡ false → (row : List ℕ) (s : ℕ) → lo ≤ s → s ≤ hi
            → ¬ (IsWithin self row s) }
    {
        self.least <= hi && lo <= self.greatest
    }

    /// Whether one of the rows may have these first eight bytes.
    fn has_front(self, number: u64) -> bool
        ensures { result ≡ false → (row : List ℕ) (s : ℕ) → number ≡ front row
            → ¬ (IsWithin self row s) }
    {
        self.first <= number && number <= self.last
    }
}

/// The bounds of entries, values and erasures, for each kind of column.
#[derive(Clone, Copy)]
pub(crate) struct ColumnBounds {
    pub(crate) data: Bounds,
    pub(crate) lock: Bounds,
    pub(crate) write: Bounds,
}

impl ColumnBounds {
    /// The bounds of no entries.
    pub(crate) const NONE: ColumnBounds = ColumnBounds {
        data: Bounds::NONE,
        lock: Bounds::NONE,
        write: Bounds::NONE,
    };

    /// The bounds of one kind of column.
    fn of(&self, qualifier: Qualifier) -> Bounds
        ensures { result ≡ column_bounds self.now qualifier }
    {
        match qualifier {
            Qualifier::Data => self.data,
            Qualifier::Lock => self.lock,
            Qualifier::Write => self.write,
        }
    }

    /// Widens the bounds to an entry at this key.
    #[inline(always)]
    pub(crate) fn widen(&mut self, key: KeyRef<'_>)
        requires { IsLentKey key }
        ensures has { (value : Option (List ℕ)) → IsBounded self.new (key.entry.text.now, value) }
        ensures keeps { AreWithin self.old self.new }
    {
        let number = front_in(key.text);
        match key.qualifier {
            Qualifier::Data => self.data.widen(number, key.stamp),
            Qualifier::Lock => self.lock.widen(number, key.stamp),
            Qualifier::Write => self.write.widen(number, key.stamp),
        }
    }

    /// Bounds of the entries of both (their union).
    pub(crate) fn joined(self, other: ColumnBounds) -> ColumnBounds
        ensures first { AreWithin self result }
        ensures second { AreWithin other result }
    {
        ColumnBounds {
            data: self.data.joined(other.data),
            lock: self.lock.joined(other.lock),
            write: self.write.joined(other.write),
        }
    }

    /// Whether there may be an entry in a column of this kind at a stamp in `lo..=hi`.
    pub(crate) fn meet(&self, qualifier: Qualifier, lo: Stamp, hi: Stamp) -> bool
        ensures { result ≡ false → (row : List ℕ) (s : ℕ) → lo ≤ s → s ≤ hi
            → ¬ (IsWithin (column_bounds self.now qualifier) row s) }
    {
        self.of(qualifier).meets(lo, hi)
    }

    /// Whether there may be an entry in the key's column at a stamp from `lo` to the key's.
    pub(crate) fn meet_column(&self, key: &CellKey, lo: Stamp) -> bool
        ensures { result ≡ false → (s : ℕ) → lo ≤ s → s ≤ key.now.stamp
            → ¬ (IsWithin (column_bounds self.now key.now.qualifier) key.now.row s) }
    {
        let bounds = self.of(key.qualifier);
        bounds.meets(lo, key.stamp) && bounds.has_front(front_of(key.row.as_bytes()))
    }
}
