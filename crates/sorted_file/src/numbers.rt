//! Hashes of columns, by which a read skips a file without an entry in its column, or without a lock.

ghost use Rattle.std.specs.List.Sorted.{IsNonDecreasing};
ghost use Rattle.std.specs.Prelude.{◌≡◌, ◌↔◌, ℕ, All, Contains, IfOk, IsTrue, OnOk, length, IsOkUnless};
ghost use Rattle.sorted_file.specs.Filters.{HasBits};
ghost use Rattle.sorted_file.specs.Numbers.{number_of, text_number, IsAmong};

use crate::filter::Filter;
use cell_key::Refusal;
use std::alloc::Global;
use std::hash::{FoldHasher, Hasher};
use std::marker::Model;

/// The length in bytes of the stamp in a key's text.
const STAMP: usize = 8;

/// The hash of a text.
pub(crate) fn text_number(text: &[u8]) -> u64
    ensures { result ≡ text_number text.now }
{
    let mut hasher = FoldHasher::default();
    hasher.write(text);
    hasher.finish()
}

/// The hash of the column of the key with this text. Keys of one column have the same hash.
pub(crate) fn column_number(text: &[u8]) -> u64
    ensures { result ≡ number_of text.now }
{
    let (column, _) = text.split_at(text.len().saturating_sub(STAMP));
    text_number(column)
}

/// Adds a number, if it isn't the last one. Answers `NoMemory` if there is no memory.
pub(crate) fn push_number(numbers: &mut Vec<u64>, number: u64) -> Result<(), Refusal>
    ensures has { OnOk result (Contains numbers.new.items number) }
    ensures keeps { IsAmong numbers.old.items numbers.new.items }
    ensures refusal { IsOkUnless result Refusal.NoMemory }
{
    if let Some(last) = numbers.last() {
        if *last == number {
            return Ok(());
        }
    }
    numbers.push(number)?;
    Ok(())
}

/// Whether a number is among numbers in ascending order.
fn is_among(sorted: &[u64], number: u64) -> bool
    requires { IsNonDecreasing sorted.now }
    ensures { IsTrue result ↔ Contains sorted.now number }
{
    sorted.binary_search(&number).is_ok()
}

/// A set of hashes.
#[derive(Drop)]
pub(crate) struct Numbers {
    /// In ascending order.
    sorted: Vec<u64>,
    /// A filter of all of them.
    filter: Filter,
}

impl Model for Numbers {
    ghost use Rattle.std.specs.List.Sorted.{IsNonDecreasing};
    ghost use Rattle.std.specs.Prelude.{ℕ, List, All};
    ghost use Rattle.sorted_file.specs.Filters.{HasBits};

    ghost Value = { List ℕ };

    ghost view = { λ numbers. numbers.sorted.items };

    ghost invariant = { λ numbers. IsNonDecreasing numbers.sorted.items
        × All (HasBits numbers.filter.words.items) numbers.sorted.items };
}

impl Numbers {
    /// The set of these numbers. Answers `NoMemory` if there is no memory.
    pub(crate) fn new(alloc: Global, numbers: Vec<u64>) -> Result<Numbers, Refusal>
        ensures keeps { IfOk result (λ made. IsAmong numbers.items made) }
        ensures only { IfOk result (λ made. IsAmong made numbers.items) }
        ensures refusal { IsOkUnless result Refusal.NoMemory }
    {
        let mut sorted = numbers;
        sorted.sort_unstable();
        let mut filter = Filter::with_room(alloc, sorted.len())?;
        filter.add_all(&sorted);
        Ok(Numbers { sorted, filter })
    }

    /// Whether a number is in the set. For most that aren't, one word of the filter is enough to say no.
    pub(crate) fn has(&self, number: u64) -> bool
        ensures { IsTrue result ↔ Contains self.now number }
    {
        self.filter.has(number) && is_among(&self.sorted, number)
    }

    /// How many there are.
    pub(crate) fn len(&self) -> usize
        ensures { result ≡ length self.now }
    {
        self.sorted.len()
    }

    /// Adds all of them to a filter.
    pub(crate) fn add_to(&self, filter: &mut Filter)
        ensures each { All (HasBits filter.new.words.items) self.now }
        ensures keeps { (other : ℕ) → HasBits filter.old.words.items other
            → HasBits filter.new.words.items other }
    {
        filter.add_all(&self.sorted);
    }
}
