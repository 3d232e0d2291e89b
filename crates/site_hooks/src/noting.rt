//! What paths find on a page, noted node by node.
ghost use Rattle.std.specs.Prelude.{◌≡◌, ◌==◌, ◌&&◌, ◌<◌, ◌⊎◌, ◌+◌, ◌*◌, nat_lt, ℕ, length, get_or, IfOk, if◌then◌else◌};
ghost use Rattle.site_hooks.specs.Sets.{Has, IsOfBits};
ghost use Rattle.site_hooks.specs.Findings.{found_by, noted, AreFound};

use crate::findings::Findings;
use crate::number_set::{all_numbers, no_numbers, word_count};
use page_tree::{NoMemory, Page};
use std::alloc::Global;
use xpath_child::{Found, Path};

impl Findings {
    /// Nothing, for so many paths.
    pub(crate) fn new(alloc: Global, paths: usize) -> Result<Findings, NoMemory>
        ensures none { IfOk result (λ findings. (number : ℕ) → found_by findings number ≡ Found.Missing) }
        ensures len { IfOk result (λ findings. length findings.found.items ≡ paths) }
    {
        let found = vec![in alloc; Found::Missing; paths]?;
        let reached = no_numbers(alloc, word_count(paths))?;
        let settled = no_numbers(alloc, word_count(paths))?;
        Ok(Findings {
            found,
            reached,
            settled,
        })
    }

    /// What the path of that number found.
    pub(crate) fn at(&self, number: usize) -> Found
        ensures { result ≡ found_by self.now number }
    {
        self.found.get(number).copied().unwrap_or(Found::Missing)
    }

    /// How many words of paths there are of which one may have found something.
    pub(crate) fn words(&self) -> usize
        ensures { result ≡ length self.now.reached.items }
    {
        self.reached.len()
    }

    /// Which paths of one word may have found something.
    pub(crate) fn reached_at(&self, index: usize) -> u64
        ensures { result ≡ get_or self.now.reached.items index 0 }
    {
        self.reached.get(index).copied().unwrap_or(0)
    }

    /// Notes one node that the paths of one word of numbers reach.
    pub(crate) fn note_each(&mut self, index: usize, bits: u64, at: u32)
        ensures len { length self.new.found.items ≡ length self.old.found.items }
        ensures noted { (number : ℕ) → found_by self.new number ≡ found_by self.old number
            ⊎ (IsOfBits index bits number × (found_by self.new number ≡ noted at (found_by self.old number))) }
        ensures each { (number : ℕ) → IsOfBits index bits number → number < length self.old.found.items
            → (found_by self.new number ≡ Found.Several) ⊎ (found_by self.new number ≡ noted at (found_by self.old number)) }
    {
        self.reach(index, bits);
        let settled = self.settled.get(index).copied().unwrap_or(0);
        let mut left = bits & !settled;
        while left != 0 {
            let bit = left.trailing_zeros();
            left &= !(1u64 << bit);
            self.note(index, bit, at);
        }
    }

    // Lets the paths of one word have found something.
    fn reach(&mut self, index: usize, bits: u64)
        ensures found { self.new.found ≡ self.old.found }
        ensures settled { self.new.settled ≡ self.old.settled }
        ensures has { (number : ℕ) → IsOfBits index bits number → number < length self.old.found.items
            → Has self.new.reached.items number }
    {
        if index < self.reached.len() {
            self.reached[index] |= bits;
        }
    }

    // Notes one node that one path reaches: that number of the word, which may have found something.
    fn note(&mut self, index: usize, bit: u32, at: u32)
        requires bit { bit < 64 }
        requires reached { index * 64 + bit < length self.old.found.items → Has self.old.reached.items (index * 64 + bit) }
        ensures reached { self.new.reached ≡ self.old.reached }
        ensures len { length self.new.found.items ≡ length self.old.found.items }
        ensures noted { (other : ℕ) → found_by self.new other
            ≡ (if index * 64 + bit == other && nat_lt other (length self.old.found.items)
            then noted at (found_by self.old other) else found_by self.old other) }
    {
        let number = index.saturating_mul(64).saturating_add(bit as usize);
        if number < self.found.len() {
            let found = with_node(self.found[number], at);
            self.found[number] = found;
            if matches!(found, Found::Several) && index < self.settled.len() {
                self.settled[index] |= 1u64 << bit;
            }
        }
    }
}

// What was found, and one node more.
fn with_node(found: Found, at: u32) -> Found
    ensures { result ≡ noted at found }
{
    match found {
        Found::Missing => Found::One(at),
        Found::One(number) if number == at => found,
        Found::One(_) | Found::Several => Found::Several,
    }
}

/// What each of these paths finds on a page, one after another.
pub(crate) fn find_one_by_one(
    alloc: Global,
    paths: &[Path],
    page: &Page,
) -> Result<Findings, NoMemory>
    ensures { IfOk result (λ found. AreFound page.now paths.now found) }
{
    let reached = all_numbers(alloc, word_count(paths.len()))?;
    let mut found = Vec::with_capacity(alloc, paths.len())?;
    for path in paths {
        found.push(path.find(page))?;
    }
    Ok(Findings {
        found,
        reached,
        settled: Vec::new(alloc),
    })
}
