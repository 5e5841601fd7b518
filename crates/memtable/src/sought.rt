//! The sought text of a search in a memtable, and how it compares with the entries' texts. Allocates nothing.

ghost use Rattle.std.specs.Prelude.{◌≡◌, ◌≢◌, ◌<◌, ◌≤◌, ◌^◌, ℕ, List, ◌++◌, take, drop, length, IfSome, IfNone};
ghost use Rattle.std.specs.Ordering.{is_eq};
ghost use Rattle.cell_key.specs.Keys.{byte_cmp, text};
ghost use Rattle.cell_key.specs.Texts.{stamp_text};
ghost use Rattle.memtable.specs.Order.{at_stamp, key_of};

use crate::key_text::{EntryText, KeyText};
use cell_key::{CellKey, Family, Qualifier, Row, Stamp, are_same, compare_texts, stamp_of};
use std::cmp::Ordering;

/// The stamp of a text that differs from another one at most in its last eight bytes.
fn stamp_beside(text: &[u8], bytes: &[u8]) -> Option<Stamp>
    ensures some { IfSome result (λ stamp. (front : List ℕ) (other : ℕ)
        → text.now ≡ front ++ stamp_text other → bytes.now ≡ front ++ stamp_text stamp) }
    ensures small { IfSome result (λ stamp. stamp < 2 ^ 64) }
    ensures none { IfNone result ((front : List ℕ) (other stamp : ℕ)
        → text.now ≡ front ++ stamp_text other → bytes.now ≢ front ++ stamp_text stamp) }
{
    if text.len() < 8 || bytes.len() != text.len() {
        return None;
    }
    let (front, _) = text.split_at(text.len() - 8);
    let (other, falling) = bytes.split_at(text.len() - 8);
    if are_same(front, other) {
        stamp_of(falling)
    } else {
        None
    }
}

/// A version of a cell's column, with borrowed names.
#[derive(Clone, Copy)]
pub(crate) struct Version<'a> {
    pub(crate) row: &'a Row,
    pub(crate) family: &'a Family,
    pub(crate) qualifier: Qualifier,
    pub(crate) stamp: Stamp,
}

impl Version<'_> {
    /// The stamp of the version in the same column that has these bytes as its text, if there is one. `own` is the text
    /// of this version.
    pub(crate) fn stamp_in(self, own: &KeyText<'_>, bytes: &[u8]) -> Option<Stamp>
        requires { own.now ≡ text (key_of self) }
        ensures some { IfSome result (λ stamp. bytes.now ≡ text (at_stamp self.entry stamp)) }
        ensures small { IfSome result (λ stamp. stamp < 2 ^ 64) }
        ensures none { IfNone result ((stamp : ℕ) → stamp < 2 ^ 64
            → bytes.now ≢ text (at_stamp self.entry stamp)) }
    {
        stamp_beside(own.as_slice(), bytes)
    }
}

/// A text that is sought among texts.
pub(crate) trait Sought: Copy {
    /// The text.
    ghost name: { Self → List ℕ };

    /// The byte order of the sought text and an entry's text.
    fn compare(&self, text: &EntryText) -> Ordering
        ensures { result ≡ byte_cmp (name self.now) text.now };

    /// Whether an entry's text is the sought one.
    fn is(&self, text: &EntryText) -> bool
        ensures { result ≡ is_eq (byte_cmp (name self.now) text.now) };

    /// Whether an entry's text seems to begin with the same eight bytes. This is only a hint where to look next.
    fn has_front(&self, text: &EntryText) -> bool;
}

impl Sought for &[u8] {
    ghost name = { λ sought. sought.now };

    fn compare(&self, text: &EntryText) -> Ordering {
        compare_texts(self, text.as_slice())
    }

    fn is(&self, text: &EntryText) -> bool {
        text.is(self)
    }

    fn has_front(&self, text: &EntryText) -> bool {
        match text.as_slice().first_chunk::<8>() {
            Some(front) => self.starts_with(front),
            None => false,
        }
    }
}

/// The version of a key.
pub(crate) fn version_of(key: &CellKey) -> Version<'_>
    ensures { key_of result ≡ key.now }
{
    Version {
        row: &key.row,
        family: &key.family,
        qualifier: key.qualifier,
        stamp: key.stamp,
    }
}
