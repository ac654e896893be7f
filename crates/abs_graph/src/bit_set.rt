//! A bit set: numbers below a bound. Only this file knows that the bits are kept in words.
ghost use Rattle.std.specs.Prelude.{◌≡◌, ℕ, ◌+◌, ◌*◌, ◌<◌, ◌≤◌, ◌||◌, nat_eq, length, IfOk, OnOk};
ghost use Rattle.abs_graph.specs.BitSets.{word_bit, AreNewBits, has as bits_have, word_has};
ghost use Rattle.abs_graph.specs.Graphs.{is_listed};

use std::alloc::{AllocError, Global};
use std::marker::Model;

/// A set of numbers below a bound, which a contract sees as a list: for each number whether the set has it.
#[derive(Drop)]
pub struct BitSet {
    words: Vec<u64>,
}

impl Model for BitSet {
    ghost use Rattle.std.specs.Prelude.{List, Bool};
    ghost use Rattle.abs_graph.specs.BitSets.{bits_of};

    ghost Value = { List Bool };

    ghost view = { λ bits. bits_of bits.words.items };
}

/// Whether words have a number as a bit.
fn has_bit(words: &[u64], number: usize) -> bool
    ensures { result ≡ word_has words.now number }
{
    match words.get(number / 64) {
        Some(word) => (*word >> (number % 64)) & 1 == 1,
        None => false,
    }
}

/// Sets the bit of a number.
fn set_bit(words: &mut [u64], number: usize)
    requires { number < 64 * length words.old }
    ensures { (other : ℕ) → word_has words.new other ≡ (nat_eq number other || word_has words.old other) }
{
    words[number / 64] |= 1u64 << (number % 64);
}

/// Adds the bits of other words to words.
fn join(words: &mut [u64], others: &[u64])
    requires { length others.now ≤ length words.old }
    ensures { (number : ℕ) → word_has words.new number ≡ (word_has words.old number || word_has others.now number) }
{
    for (index, other) in others.iter().enumerate() {
        words[index] |= *other;
    }
}

/// The number that is a bit of the word with an index.
///
/// # Errors
/// [`AllocError`] if it takes more than 64 bits.
fn number_at(index: usize, bit: usize) -> Result<usize, AllocError>
    ensures { IfOk result (λ number. number ≡ 64 * index + bit) }
{
    let Some(first) = index.checked_mul(64) else {
        return Err(AllocError);
    };
    let Some(number) = first.checked_add(bit) else {
        return Err(AllocError);
    };
    Ok(number)
}

/// Adds to a list the numbers that words have as bits of the word with an index.
///
/// # Errors
/// [`AllocError`] if an allocation fails, or if a number takes more than 64 bits.
fn add_numbers(words: &[u64], index: usize, found: &mut Vec<usize>) -> Result<(), AllocError>
    ensures { OnOk result ((number : ℕ) → is_listed found.new.items number
        ≡ (is_listed found.old.items number || word_bit words.now index 64 number)) }
{
    for bit in 0..64 {
        let number = number_at(index, bit)?;
        if has_bit(words, number) {
            found.push(number)?;
        }
    }
    Ok(())
}

/// The numbers that words have as bits.
///
/// # Errors
/// [`AllocError`] if an allocation fails, or if a number takes more than 64 bits.
fn numbers_of(alloc: Global, words: &[u64]) -> Result<Vec<usize>, AllocError>
    ensures { IfOk result (λ found. (number : ℕ) → is_listed found.items number ≡ word_has words.now number) }
{
    let mut found = Vec::new(alloc);
    for (index, word) in words.iter().enumerate() {
        if *word != 0 {
            add_numbers(words, index, &mut found)?;
        }
    }
    Ok(found)
}

impl BitSet {
    /// No number, with room for the numbers below a bound.
    ///
    /// # Errors
    /// [`AllocError`] if an allocation fails.
    pub fn new(alloc: Global, bound: usize) -> Result<BitSet, AllocError>
        ensures { IfOk result (λ bits. AreNewBits bound bits) }
    {
        let words = vec![in alloc; 0; bound.div_ceil(64)]?;
        Ok(BitSet { words })
    }

    /// Whether the set has a number.
    pub fn has(&self, number: usize) -> bool
        ensures { result ≡ bits_have self.now number }
    {
        has_bit(self.words.as_slice(), number)
    }

    /// Adds a number.
    pub fn add(&mut self, number: usize)
        requires { number < length self.old }
        ensures room { length self.new ≡ length self.old }
        ensures added { (other : ℕ) → bits_have self.new other ≡ (nat_eq number other || bits_have self.old other) }
    {
        set_bit(self.words.as_mut_slice(), number);
    }

    /// Adds the numbers of another set.
    pub fn add_all(&mut self, others: &BitSet)
        requires { length others.now ≤ length self.old }
        ensures room { length self.new ≡ length self.old }
        ensures added { (number : ℕ)
            → bits_have self.new number ≡ (bits_have self.old number || bits_have others.now number) }
    {
        join(self.words.as_mut_slice(), others.words.as_slice());
    }

    /// The numbers of the set. It takes a step for each word, and 64 for a word with a number.
    ///
    /// # Errors
    /// [`AllocError`] if an allocation fails, or if there is room for 2^64 numbers.
    pub fn numbers(&self, alloc: Global) -> Result<Vec<usize>, AllocError>
        ensures { IfOk result (λ found. (number : ℕ) → is_listed found.items number ≡ bits_have self.now number) }
    {
        numbers_of(alloc, self.words.as_slice())
    }
}
