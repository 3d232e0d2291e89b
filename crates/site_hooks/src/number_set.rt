//! Sets of numbers, kept as words of 64 bits.
ghost use Rattle.std.specs.Prelude.{◌≡◌, ◌⊎◌, ◌↔◌, ◌*◌, ◌<◌, ◌≤◌, ℕ, length, true, OnOk, IfOk};
ghost use Rattle.site_hooks.specs.Sets.{Has, IsOfWord, IsOfWords, IsIn, AddsSome};

use page_tree::NoMemory;
use std::alloc::Global;

/// A set of few numbers, or of numbers that lie close together: words without a number are left out.
#[derive(Drop)]
pub(crate) struct NumberSet {
    words: Vec<Word>,
}

/// The numbers from 64 times its index on.
#[derive(Clone, Copy)]
pub(crate) struct Word {
    pub(crate) index: usize,
    pub(crate) bits: u64,
}

impl NumberSet {
    /// It takes no memory.
    pub(crate) fn new(alloc: Global) -> NumberSet
        ensures { (k : ℕ) → ¬ (IsIn result k) }
    {
        NumberSet {
            words: Vec::new(alloc),
        }
    }

    /// A word for each 64 numbers, where they come in ascending order.
    pub(crate) fn insert(&mut self, number: usize) -> Result<(), NoMemory>
        ensures { OnOk result ((k : ℕ) → IsIn self.new k ↔ (IsIn self.old k ⊎ (k ≡ number))) }
    {
        let index = number / 64;
        let bits = 1u64 << (number % 64) as u32;
        match self.words.last_mut() {
            Some(last) if last.index == index => last.bits |= bits,
            _ => self.words.push(Word { index, bits })?,
        }
        Ok(())
    }

    /// Its words.
    pub(crate) fn words(&self) -> &[Word]
        ensures { (k : ℕ) → IsIn self.now k ↔ IsOfWords result.now k }
    {
        &self.words
    }

    /// Adds those of the others that are in this set.
    pub(crate) fn add_common(&self, others: &[u64], into: &mut [u64])
        requires len { length into.old ≡ length others.now }
        ensures len { length into.new ≡ length others.now }
        ensures adds { AddsSome (IsIn self.now) others.now into.old into.new }
    {
        for word in &self.words {
            word.add_common(others, into);
        }
    }
}

impl Word {
    // Likewise of one word.
    fn add_common(&self, others: &[u64], into: &mut [u64])
        requires len { length into.old ≡ length others.now }
        ensures len { length into.new ≡ length others.now }
        ensures adds { AddsSome (λ k. IsOfWord k self.now) others.now into.old into.new }
    {
        if self.index < into.len() {
            into[self.index] |= others[self.index] & self.bits;
        }
    }
}

/// So many words without a number.
pub(crate) fn no_numbers(alloc: Global, words: usize) -> Result<Vec<u64>, NoMemory>
    ensures len { IfOk result (λ set. length set.items ≡ words) }
    ensures none { IfOk result (λ set. (k : ℕ) → ¬ (Has set.items k)) }
{
    vec![in alloc; 0u64; words]
}

/// The set of all numbers below 64 times so many words.
pub(crate) fn all_numbers(alloc: Global, words: usize) -> Result<Vec<u64>, NoMemory>
    ensures len { IfOk result (λ set. length set.items ≡ words) }
    ensures all { IfOk result (λ set. (k : ℕ) → k < 64 * words → Has set.items k) }
{
    vec![in alloc; u64::MAX; words]
}

/// How many words so many numbers take.
pub(crate) fn word_count(numbers: usize) -> usize
    ensures { numbers ≤ 64 * result }
{
    numbers / 64 + 1
}

/// Takes all numbers out.
pub(crate) fn clear(set: &mut [u64])
    ensures len { length set.new ≡ length set.old }
    ensures none { (k : ℕ) → ¬ (Has set.new k) }
{
    for i in 0..set.len() {
        set[i] = 0;
    }
}

/// Whether no number is in the set.
pub(crate) fn has_none(set: &[u64]) -> bool
    ensures { result ≡ true → (k : ℕ) → ¬ (Has set.now k) }
{
    for i in 0..set.len() {
        if set[i] != 0 {
            return false;
        }
    }
    true
}
