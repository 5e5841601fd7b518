//! A filter of numbers (a Bloom filter of two probes in one word): if one of a number's two bits isn't set, the number
//! was not added.

ghost use Rattle.std.specs.Int.{bit_at, IsPowerOfTwo};
ghost use Rattle.std.specs.Prelude.{◌≡◌, ◌↔◌, ◌+◌, ◌*◌, ◌<◌, ◌≤◌, ℕ, [], All, IsTrue, length, IsOkUnless};
ghost use Rattle.sorted_file.specs.Filters.{first_bit, second_bit, word_place, HasBits};

use cell_key::Refusal;
use std::alloc::Global;

/// The most numbers for each word of a filter.
const NUMBERS_A_WORD: usize = 8;

/// The shift that leaves a number's top six bits, the index of its first bit within a word.
const FIRST_SHIFT: u64 = 58;

/// The shift behind which the next six bits are the index of its second bit within a word.
const SECOND_SHIFT: u64 = 52;

/// How many words a filter of `count` numbers has: a power of two, with at least 8 bits for each number, and at most 16
/// bits for each number and 64 more.
fn words_for(count: usize) -> usize
    ensures power { IsPowerOfTwo result }
    ensures enough { count ≤ 8 * result }
    ensures few { 4 * result ≤ count + 4 }
{
    count.div_ceil(NUMBERS_A_WORD).next_power_of_two()
}

/// The index of the word with a number's bits, in a filter of `count` words.
#[inline(always)]
fn place_of(count: usize, number: u64) -> usize
    ensures { result ≡ word_place count number }
{
    number as usize & count.saturating_sub(1)
}

/// The index of a number's first bit within its word.
#[inline(always)]
fn first_bit(number: u64) -> u64
    ensures value { result ≡ first_bit number }
    ensures within { result < 64 }
{
    number >> FIRST_SHIFT
}

/// The index of a number's second bit within its word; it may equal the first.
#[inline(always)]
fn second_bit(number: u64) -> u64
    ensures value { result ≡ second_bit number }
    ensures within { result < 64 }
{
    (number >> SECOND_SHIFT) % 64
}

/// Whether a bit of a word is set.
#[inline(always)]
fn is_set(word: u64, bit: u64) -> bool
    requires { bit < 64 }
    ensures { IsTrue result ↔ (bit_at word bit ≡ 1) }
{
    word & (1 << bit) != 0
}

/// A word with one more bit set.
#[inline(always)]
fn with_bit(word: u64, bit: u64) -> u64
    requires { bit < 64 }
    ensures has { bit_at result bit ≡ 1 }
    ensures keeps { (other : ℕ) → bit_at word other ≡ 1 → bit_at result other ≡ 1 }
{
    word | (1 << bit)
}

/// Whether both bits of a number are set, or the filter has no words.
#[inline(always)]
fn has_bits(words: &[u64], number: u64) -> bool
    ensures { IsTrue result ↔ HasBits words.now number }
{
    match words.get(place_of(words.len(), number)) {
        Some(word) => is_set(*word, first_bit(number)) && is_set(*word, second_bit(number)),
        None => true,
    }
}

/// Sets both bits of a number, if the filter has words.
fn set_bits(words: &mut [u64], number: u64)
    ensures has { HasBits words.new number }
    ensures keeps { (other : ℕ) → HasBits words.old other → HasBits words.new other }
    ensures length { length words.new ≡ length words.old }
{
    let place = place_of(words.len(), number);
    if place < words.len() {
        let first = with_bit(words[place], first_bit(number));
        words[place] = with_bit(first, second_bit(number));
    }
}

/// Sets both bits of each number, if the filter has words.
fn set_each(words: &mut [u64], numbers: &[u64])
    ensures each { All (HasBits words.new) numbers.now }
    ensures keeps { (other : ℕ) → HasBits words.old other → HasBits words.new other }
    ensures length { length words.new ≡ length words.old }
{
    for number in numbers {
        set_bits(words, *number);
    }
}

/// A filter of the numbers that were added to it.
#[derive(Drop)]
pub(crate) struct Filter {
    words: Vec<u64>,
    /// How many numbers were added.
    count: usize,
}

impl Filter {
    /// A filter without words, to which every number may have been added. Allocates nothing.
    pub(crate) fn all(alloc: Global) -> Filter
        ensures { result.words.items ≡ [] }
    {
        Filter {
            words: Vec::new(alloc),
            count: 0,
        }
    }

    /// An empty filter, with words for `count` numbers. Answers `NoMemory` if there is no memory.
    pub(crate) fn with_room(alloc: Global, count: usize) -> Result<Filter, Refusal>
        ensures refusal { IsOkUnless result Refusal.NoMemory }
    {
        let words = vec![in alloc; 0; words_for(count)]?;
        Ok(Filter { words, count: 0 })
    }

    /// Whether it has room for `more` numbers beside those that were added.
    pub(crate) fn has_room(&self, more: usize) -> bool {
        self.count.saturating_add(more) <= self.words.len().saturating_mul(NUMBERS_A_WORD)
    }

    /// Adds a number.
    pub(crate) fn add(&mut self, number: u64)
        ensures has { HasBits self.new.words.items number }
        ensures keeps { (other : ℕ) → HasBits self.old.words.items other
            → HasBits self.new.words.items other }
    {
        set_bits(&mut self.words, number);
        self.count = self.count.saturating_add(1);
    }

    /// Adds numbers.
    pub(crate) fn add_all(&mut self, numbers: &[u64])
        ensures each { All (HasBits self.new.words.items) numbers.now }
        ensures keeps { (other : ℕ) → HasBits self.old.words.items other
            → HasBits self.new.words.items other }
    {
        set_each(&mut self.words, numbers);
        self.count = self.count.saturating_add(numbers.len());
    }

    /// Whether a number may have been added.
    #[inline(always)]
    pub(crate) fn has(&self, number: u64) -> bool
        ensures { IsTrue result ↔ HasBits self.now.words.items number }
    {
        has_bits(&self.words, number)
    }
}
