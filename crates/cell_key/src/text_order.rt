//! Comparing texts eight bytes at a time: equality and byte order.

ghost use Rattle.std.specs.Prelude.{◌≡◌, ◌↔◌, ◌≤◌, ◌<◌, ◌++◌, ℕ, List, take, drop, length, IsTrue};
ghost use Rattle.std.specs.Ordering.{ordering_then};
ghost use Rattle.std.specs.declared.cmp.Ordering.TheVariants.{Equal};
ghost use Rattle.cell_key.specs.Keys.{byte_cmp};

use byteorder::{BigEndian, ByteOrder};
use std::cmp::Ordering;

/// Compares the first eight bytes of two texts.
fn compare_fronts(a: &[u8], b: &[u8]) -> Ordering
    requires first { 8 ≤ length a.now }
    requires second { 8 ≤ length b.now }
    ensures order { byte_cmp a.now b.now
        ≡ ordering_then result (byte_cmp (drop 8 a.now) (drop 8 b.now)) }
    ensures same { result ≡ Equal → take 8 a.now ≡ take 8 b.now }
{
    let front = BigEndian::read_u64(a);
    let other = BigEndian::read_u64(b);
    front.cmp(&other)
}

/// Compares two texts in byte order as slices. A function of its own, since it needs the addresses of the slices, which
/// `compare_texts` then keeps in registers.
#[inline(never)]
fn compare_slices(a: &[u8], b: &[u8]) -> Ordering
    ensures { result ≡ byte_cmp a.now b.now }
{
    a.cmp(&b)
}

/// The length from which texts are compared as slices, which takes longer steps.
const LONG: usize = 64;

/// Compares two texts in byte order. Short ones are compared eight bytes at a time while both have eight left, and
/// then, if their lengths are equal, by their last eight bytes. Allocates nothing.
#[inline(never)]
pub fn compare_texts(a: &[u8], b: &[u8]) -> Ordering
    ensures { result ≡ byte_cmp a.now b.now }
{
    if a.len() >= LONG && b.len() >= LONG {
        return compare_slices(a, b);
    }
    let mut left = a;
    let mut right = b;
    'fronts: while left.len() >= 8 && right.len() >= 8 {
        let order = compare_fronts(left, right);
        if order.is_ne() {
            return order;
        }
        left = left.split_at(8).1;
        right = right.split_at(8).1;
    }
    if a.len() == b.len() && a.len() >= 8 {
        let at = a.len() - 8;
        return compare_fronts(a.split_at(at).1, b.split_at(at).1);
    }
    compare_slices(left, right)
}

/// Whether two texts of the same length are equal, if they are equal up to their ends `left` and `right` of fewer than
/// eight bytes: compares their last eight bytes, or, if they are shorter, the ends.
#[inline(always)]
fn are_ends_same(first: &[u8], second: &[u8], left: &[u8], right: &[u8]) -> bool
    requires long { length first.now ≡ length second.now }
    requires few { length left.now < 8 }
    requires both { (both : List ℕ)
        × (first.now ≡ both ++ left.now) × (second.now ≡ both ++ right.now) }
    ensures { IsTrue result ↔ (first.now ≡ second.now) }
{
    if let Some((_, end)) = first.split_last_chunk::<8>() {
        if let Some((_, other)) = second.split_last_chunk::<8>() {
            return end == other;
        }
    }
    left == right
}

/// Whether two texts are equal. Short ones are compared eight bytes at a time while eight are left, and then by their
/// last eight bytes. Allocates nothing.
#[inline(always)]
pub fn are_same(first: &[u8], second: &[u8]) -> bool
    ensures { IsTrue result ↔ (first.now ≡ second.now) }
{
    if first.len() != second.len() || first.len() >= LONG {
        return first == second;
    }
    let mut left = first;
    let mut right = second;
    'words: while let Some((word, rest)) = left.split_first_chunk::<8>() {
        let Some((other, other_rest)) = right.split_first_chunk::<8>() else {
            return false;
        };
        if word != other {
            return false;
        }
        left = rest;
        right = other_rest;
    }
    are_ends_same(first, second, left, right)
}
