//! Keys borrowed as their texts, read one after another.

ghost use Rattle.std.specs.Prelude.{◌≡◌, ◌≢◌, ◌≤◌, ◌<◌, ◌^◌, ◌++◌, ◌↔◌, List, ℕ, length, take, drop, IsTrue, IfSome, IfNone};
ghost use Rattle.std.specs.Ordering.{nat_cmp, ordering_then};
ghost use Rattle.std.specs.declared.cmp.Ordering.TheVariants.{Less};
ghost use Rattle.cell_key.specs.Keys.{byte_cmp, qualifier_name, IsKeyText};
ghost use Rattle.cell_key.specs.Texts.{ended, stamp_text};
ghost use Rattle.cell_key.specs.LentKeys.{IsLentKey};
ghost use Rattle.cell_key.specs.declared.keys.Qualifier.{Qualifier as Names};

use crate::decoding::{split_place, stored_stamp_of};
use crate::keys::{Qualifier, Stamp};
use crate::text_order::{are_same, compare_texts};

/// The length in bytes of the stamp in a key's text.
const STAMP: usize = 8;

/// A key borrowed as its text, with the decoded parts behind the row and the family.
#[derive(Clone, Copy, Debug)]
pub struct KeyRef<'a> {
    /// The text of the key.
    pub text: &'a [u8],
    /// The length in bytes of the text's row and family.
    pub place_len: usize,
    pub qualifier: Qualifier,
    pub stamp: Stamp,
}

/// The qualifier whose name is at the front, and the bytes behind the name's end.
fn split_name(bytes: &[u8]) -> Option<(Qualifier, &[u8])>
    ensures found { IfSome result (λ p. bytes.now ≡ ended (qualifier_name p.0) ++ p.1.now) }
    ensures none { IfNone result ((qualifier : Names) (rest : List ℕ)
        → bytes.now ≢ ended (qualifier_name qualifier) ++ rest) }
{
    if let Some(rest) = bytes.strip_prefix(b"data\0\0") {
        return Some((Qualifier::Data, rest));
    }
    if let Some(rest) = bytes.strip_prefix(b"lock\0\0") {
        return Some((Qualifier::Lock, rest));
    }
    let rest = bytes.strip_prefix(b"write\0\0")?;
    Some((Qualifier::Write, rest))
}

/// The qualifier and the stamp behind the place in a key's text.
#[inline(always)]
fn split_version(bytes: &[u8]) -> Option<(Qualifier, Stamp)>
    ensures found { IfSome result (λ p.
        bytes.now ≡ ended (qualifier_name p.0) ++ stamp_text p.1) }
    ensures from { IfSome result (λ p. 1 ≤ p.1) }
    ensures to { IfSome result (λ p. p.1 < 2 ^ 63) }
    ensures none { IfNone result ((qualifier : Names) (stamp : ℕ) → 1 ≤ stamp → stamp < 2 ^ 63
        → bytes.now ≢ ended (qualifier_name qualifier) ++ stamp_text stamp) }
{
    let (qualifier, falling) = split_name(bytes)?;
    let stamp = stored_stamp_of(falling)?;
    Some((qualifier, stamp))
}

/// The key with this text.
fn lend_key(bytes: &[u8]) -> Option<KeyRef<'_>>
    ensures found { IfSome result IsLentKey }
    ensures text { IfSome result (λ key. key.text.now ≡ bytes.now) }
    ensures none { IfNone result (¬ IsKeyText bytes.now) }
{
    let (_, _, tail) = split_place(bytes)?;
    let (qualifier, stamp) = split_version(tail)?;
    Some(KeyRef {
        text: bytes,
        place_len: bytes.len() - tail.len(),
        qualifier,
        stamp,
    })
}

/// Whether, within one place, a version of the first qualifier and stamp comes before a version of the second.
fn is_before(first: (Qualifier, Stamp), second: (Qualifier, Stamp)) -> bool
    ensures { IsTrue result ↔ (ordering_then
        (byte_cmp (qualifier_name first.0) (qualifier_name second.0))
        (nat_cmp second.1 first.1) ≡ Less) }
{
    match (first.0, second.0) {
        (Qualifier::Data, Qualifier::Data)
        | (Qualifier::Lock, Qualifier::Lock)
        | (Qualifier::Write, Qualifier::Write) => second.1 < first.1,
        (Qualifier::Data, _) | (Qualifier::Lock, Qualifier::Write) => true,
        (Qualifier::Lock, Qualifier::Data) | (Qualifier::Write, _) => false,
    }
}

/// The key with this text, if it is an older version in the last key's column, so that it comes after the last key.
#[inline(always)]
fn in_column<'a>(last: KeyRef<'_>, bytes: &'a [u8]) -> Option<KeyRef<'a>>
    requires { IsLentKey last }
    ensures found { IfSome result IsLentKey }
    ensures text { IfSome result (λ key. key.text.now ≡ bytes.now) }
    ensures above { IfSome result (λ key. byte_cmp last.entry.text.now bytes.now ≡ Less) }
{
    if bytes.len() != last.text.len() {
        return None;
    }
    let at = bytes.len().saturating_sub(STAMP);
    let (column, falling) = bytes.split_at(at);
    if !are_same(column, last.text.split_at(at).0) {
        return None;
    }
    let stamp = stored_stamp_of(falling)?;
    if stamp >= last.stamp {
        return None;
    }
    Some(KeyRef {
        text: bytes,
        place_len: last.place_len,
        qualifier: last.qualifier,
        stamp,
    })
}

/// The key of this text, whose place is the last key's and whose rest is `tail`, if it comes after the last key.
#[inline(always)]
fn in_place<'a>(last: KeyRef<'_>, bytes: &'a [u8], tail: &[u8]) -> Option<KeyRef<'a>>
    requires last { IsLentKey last }
    requires place { bytes.now ≡ take last.place_len last.text.now ++ tail.now }
    ensures found { IfSome result IsLentKey }
    ensures text { IfSome result (λ key. key.text.now ≡ bytes.now) }
    ensures above { IfSome result (λ key. byte_cmp last.entry.text.now bytes.now ≡ Less) }
    ensures none { IfNone result (IsKeyText bytes.now
        → byte_cmp last.entry.text.now bytes.now ≢ Less) }
{
    let (qualifier, stamp) = split_version(tail)?;
    if !is_before((last.qualifier, last.stamp), (qualifier, stamp)) {
        return None;
    }
    Some(KeyRef {
        text: bytes,
        place_len: last.place_len,
        qualifier,
        stamp,
    })
}

/// The key with this text, if it is within all limits and comes after the last one; else `None`. If the text begins
/// with the last key's place, only the rest is decoded, and if it begins with the last key's column, only the stamp.
/// Allocates nothing.
#[inline(always)]
pub fn next_key<'a>(last: Option<KeyRef<'_>>, bytes: &'a [u8]) -> Option<KeyRef<'a>>
    requires { IfSome last IsLentKey }
    ensures found { IfSome result IsLentKey }
    ensures text { IfSome result (λ key. key.text.now ≡ bytes.now) }
    ensures above { IfSome result (λ key. IfSome last.entry (λ before.
        byte_cmp before.text.now bytes.now ≡ Less)) }
    ensures none { IfNone result (IsKeyText bytes.now
        → ¬ IfSome last.entry (λ before. byte_cmp before.text.now bytes.now ≡ Less)) }
{
    let Some(last) = last else {
        return lend_key(bytes);
    };
    if let Some(key) = in_column(last, bytes) {
        return Some(key);
    }
    let (place, _) = last.text.split_at(last.place_len);
    if let Some(tail) = bytes.strip_prefix(place) {
        return in_place(last, bytes, tail);
    }
    let key = lend_key(bytes)?;
    if compare_texts(last.text, bytes).is_lt() {
        Some(key)
    } else {
        None
    }
}
