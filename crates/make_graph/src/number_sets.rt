//! Sets of numbers as bits.

ghost use Rattle.std.specs.Prelude.{◌≡◌, ◌≤◌, ◌<◌, ◌/◌, ◌↔◌, ◌==◌, ◌||◌, ◌≢◌, ℕ, length, slice_index_or, false, IfOk, IsTrue};
ghost use Rattle.std.specs.Int.{bit_at};
ghost use Rattle.make_graph.specs.NumberSets.{has_number, room_below};
ghost use Rattle.make_graph.specs.Waits.{is_marked};

use cc_names::memory::NoMemory;
use std::alloc::Global;
use std::marker::Model;

/// A set of numbers, with room for those below a multiple of 64. Contracts see it as a mark for each number that it has room for.
#[derive(Drop)]
pub(crate) struct NumberSet {
    words: Vec<u64>,
}

impl Model for NumberSet {
    ghost use Rattle.std.specs.Prelude.{List, Bool};
    ghost use Rattle.make_graph.specs.NumberSets.{bits_of};

    ghost Value = { List Bool };

    ghost view = { λ set. bits_of set.words.items };
}

/// A word with a bit set.
fn with_bit(word: u64, place: u32) -> u64
    requires { place < 64 }
    ensures set { bit_at result place ≡ 1 }
    ensures others { (i : ℕ) → i ≢ place → bit_at result i ≡ bit_at word i }
{
    word | (1 << place)
}

/// Whether a word has a bit.
fn has_bit(word: u64, place: u32) -> bool
    requires { place < 64 }
    ensures { IsTrue result ↔ (bit_at word place ≡ 1) }
{
    word & (1 << place) != 0
}

/// Puts a number into words that have room for it.
fn put_number(words: &mut Vec<u64>, number: u32)
    requires { number / 64 < length words.old.items }
    ensures length { length words.new.items ≡ length words.old.items }
    ensures numbers { (n : ℕ)
        → has_number words.new.items n ≡ (has_number words.old.items n || (n == number)) }
{
    let index = number as usize / 64;
    words[index] = with_bit(words[index], number % 64);
}

/// The word at an index, 0 where there is none.
fn word_at(words: &[u64], index: usize) -> u64
    ensures { result ≡ slice_index_or words.now index 0 }
{
    words.get(index).copied().unwrap_or(0)
}

/// Whether words have a number.
fn has_number(words: &[u64], number: u32) -> bool
    ensures { result ≡ has_number words.now number }
{
    has_bit(word_at(words, number as usize / 64), number % 64)
}

/// Puts the numbers of other words into words.
fn put_numbers(words: &mut Vec<u64>, other: &[u64])
    requires { length other.now ≤ length words.old.items }
    ensures length { length words.new.items ≡ length words.old.items }
    ensures numbers { (n : ℕ)
        → has_number words.new.items n
        ≡ (has_number words.old.items n || has_number other.now n) }
{
    for (index, word) in other.iter().enumerate() {
        words[index] |= *word;
    }
}

impl NumberSet {
    /// No numbers, with room for those below an end.
    pub(crate) fn below(alloc: Global, end: usize) -> Result<NumberSet, NoMemory>
        ensures none { IfOk result (λ set. (n : ℕ) → is_marked set n ≡ false) }
        ensures room { IfOk result (λ set. length set ≡ room_below end) }
    {
        let words = end / 64 + 1;
        Ok(NumberSet {
            words: vec![in alloc; 0; words]?,
        })
    }

    /// Whether it has a number, in constant time.
    pub(crate) fn has(&self, number: u32) -> bool
        ensures { result ≡ is_marked self.now number }
    {
        has_number(self.words.as_slice(), number)
    }

    /// Puts a number into it, in constant time.
    pub(crate) fn add(&mut self, number: u32)
        requires { number < length self.old }
        ensures room { length self.new ≡ length self.old }
        ensures marks { (n : ℕ) → is_marked self.new n ≡ (is_marked self.old n || (n == number)) }
    {
        put_number(&mut self.words, number);
    }

    /// Puts all that another set has into it. Takes time linear in the words of the other.
    pub(crate) fn add_all(&mut self, other: &NumberSet)
        requires { length other.now ≤ length self.old }
        ensures room { length self.new ≡ length self.old }
        ensures marks { (n : ℕ)
            → is_marked self.new n ≡ (is_marked self.old n || is_marked other.now n) }
    {
        put_numbers(&mut self.words, other.words.as_slice());
    }

    /// A copy. Takes time and memory linear in its words.
    pub(crate) fn copy(&self, alloc: Global) -> Result<NumberSet, NoMemory>
        ensures { IfOk result (λ copy. copy ≡ self.now) }
    {
        Ok(NumberSet {
            words: self.words.to_vec(alloc)?,
        })
    }
}
