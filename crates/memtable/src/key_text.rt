//! Texts of keys, owned by an entry or borrowed, each with its first eight bytes as a number, which mostly decides a
//! comparison.

ghost use Rattle.std.specs.Prelude.{◌≡◌, ◌≤◌, List, ℕ, length};
ghost use Rattle.std.specs.Ordering.{is_eq};
ghost use Rattle.cell_key.specs.Keys.{byte_cmp};
ghost use Rattle.memtable.specs.Order.{IsFront};
ghost use Rattle.memtable.specs.Slots.{is_lock_text};

use crate::sought::Sought;
use byteorder::{BigEndian, ByteOrder};
use cell_key::compare_texts;
use smallvec::SmallVec;
use std::cmp::Ordering;
use std::marker::Model;

/// The first eight bytes as a number.
fn front_of(bytes: &[u8]) -> u64
    requires { 8 ≤ length bytes.now }
    ensures { IsFront result bytes.now }
{
    BigEndian::read_u64(bytes)
}

/// The text of an entry's key. One of at most 48 bytes is stored inline, without an allocation.
pub(crate) struct EntryText {
    front: u64,
    bytes: SmallVec<u8, 48>,
}

impl Model for EntryText {
    ghost use Rattle.std.specs.Prelude.{List, ℕ};
    ghost use Rattle.memtable.specs.Order.{IsFront};

    ghost Value = { List ℕ };

    ghost view = { λ text. text.bytes.items };

    ghost invariant = { λ text. IsFront text.front text.bytes.items };
}

impl Drop for EntryText {
    /// A function of its own, so that code that drops a text doesn't branch on where its bytes are.
    fn drop(self) {
        let EntryText { front: _, bytes } = self;
        drop(bytes);
    }
}

impl EntryText {
    /// The text of these bytes.
    pub(crate) fn new(bytes: SmallVec<u8, 48>) -> EntryText
        requires { 8 ≤ length bytes.items }
        ensures { result ≡ bytes.items }
    {
        let front = front_of(bytes.as_slice());
        EntryText { front, bytes }
    }

    /// The bytes.
    pub(crate) fn as_slice(&self) -> &[u8]
        ensures { result.now ≡ self.now }
    {
        self.bytes.as_slice()
    }

    /// Whether the text is that of a lock's key.
    pub(crate) fn is_lock(&self) -> bool
        ensures { result ≡ is_lock_text self.now }
    {
        let bytes = self.bytes.as_slice();
        let (column, _) = bytes.split_at(bytes.len() - 8);
        column.ends_with(b"lock\0\0")
    }

    /// Whether the text is these bytes.
    #[inline(always)]
    pub(crate) fn is(&self, bytes: &[u8]) -> bool
        ensures { result ≡ is_eq (byte_cmp bytes.now self.now) }
    {
        bytes == self.as_slice()
    }

    /// Compares some bytes, whose front is given, with this text in byte order.
    #[inline(always)]
    fn compare_with(&self, front: u64, bytes: &[u8]) -> Ordering
        requires { IsFront front bytes.now }
        ensures { result ≡ byte_cmp bytes.now self.now }
    {
        if front != self.front {
            return front.cmp(&self.front);
        }
        let (_, rest) = bytes.split_at(8);
        let (_, other) = self.as_slice().split_at(8);
        compare_texts(rest, other)
    }
}

impl Sought for &EntryText {
    ghost name = { λ sought. sought.now };

    #[inline(always)]
    fn compare(&self, text: &EntryText) -> Ordering {
        text.compare_with(self.front, self.as_slice())
    }

    #[inline(always)]
    fn is(&self, text: &EntryText) -> bool {
        text.is(self.as_slice())
    }

    #[inline(always)]
    fn has_front(&self, text: &EntryText) -> bool {
        self.front == text.front
    }
}

/// The text of a key, borrowed.
#[derive(Drop)]
pub(crate) struct KeyText<'a> {
    front: u64,
    bytes: &'a [u8],
}

impl<'a> Model for KeyText<'a> {
    ghost use Rattle.std.specs.Prelude.{List, ℕ};
    ghost use Rattle.memtable.specs.Order.{IsFront};

    ghost Value = { List ℕ };

    ghost view = { λ text. text.bytes.now };

    ghost invariant = { λ text. IsFront text.front text.bytes.now };
}

impl<'a> KeyText<'a> {
    /// The text of these bytes.
    pub(crate) fn of(bytes: &'a [u8]) -> KeyText<'a>
        requires { 8 ≤ length bytes.now }
        ensures { result ≡ bytes.now }
    {
        let front = front_of(bytes);
        KeyText { front, bytes }
    }

    /// The bytes.
    pub(crate) fn as_slice(&self) -> &[u8]
        ensures { result.now ≡ self.now }
    {
        self.bytes
    }
}

impl Sought for &KeyText<'_> {
    ghost name = { λ sought. sought.now };

    #[inline(always)]
    fn compare(&self, text: &EntryText) -> Ordering {
        text.compare_with(self.front, self.as_slice())
    }

    #[inline(always)]
    fn is(&self, text: &EntryText) -> bool {
        text.is(self.as_slice())
    }

    #[inline(always)]
    fn has_front(&self, text: &EntryText) -> bool {
        self.front == text.front
    }
}
