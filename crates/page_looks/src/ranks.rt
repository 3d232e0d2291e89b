//! What is kept of a page: its seen nodes in document order, and the numbers of their looks.
ghost use Rattle.std.specs.Prelude.{ℕ, ◌≡◌, ◌<◌, IfOk, Some, MatchOption, slice_get};
ghost use Rattle.page_looks.specs.inside.Numbers.{IsAbsent};
ghost use Rattle.page_looks.specs.inside.Ranks.{AreFirst, AreLast, AreAnchor, StandsAlone, IsFirstAt};

use crate::tables::few;
use page_tree::NoMemory;
use std::alloc::Global;

/// The rank of a seen node is how many of them stand before it.
#[derive(Drop)]
pub(crate) struct Ranked {
    /// The number of the node at each rank.
    pub nodes: Vec<u32>,
    /// By the number of a node its rank and 1, or 0.
    pub ranks: Vec<u32>,
    /// The number of the look at each rank.
    pub looks: Vec<u32>,
    /// By the number of a look the first rank at which it stands, and 1, or 0.
    pub first: Vec<u32>,
    /// The last one likewise.
    pub last: Vec<u32>,
}

/// For each number below that count the last index at which it stands, and 1, or 0.
pub(crate) fn last_places(
    alloc: Global,
    numbers: &[u32],
    count: usize,
) -> Result<Vec<u32>, NoMemory>
    requires { (j n : ℕ) → slice_get numbers.now j ≡ Some n → n < count }
    ensures { IfOk result (λ places. AreLast numbers.now places.items) }
{
    let mut places = vec![in alloc; 0; count]?;
    for i in 0..numbers.len() {
        let place = few(i + 1)?;
        places[numbers[i] as usize] = place;
    }
    Ok(places)
}

/// The first index likewise.
pub(crate) fn first_places(
    alloc: Global,
    numbers: &[u32],
    count: usize,
) -> Result<Vec<u32>, NoMemory>
    requires { (j n : ℕ) → slice_get numbers.now j ≡ Some n → n < count }
    ensures { IfOk result (λ places. AreFirst numbers.now places.items) }
{
    let mut places = vec![in alloc; 0; count]?;
    for i in 0..numbers.len() {
        let index = numbers.len() - 1 - i;
        let place = few(index + 1)?;
        places[numbers[index] as usize] = place;
    }
    Ok(places)
}

// The number at that index, where there is one.
pub(crate) fn number_at(numbers: &[u32], index: usize) -> Option<u32>
    ensures { result ≡ slice_get numbers.now index }
{
    numbers.get(index).copied()
}

impl Ranked {
    /// The rank of the look on the new page that makes an anchor of that rank of the old one.
    pub(crate) fn anchor(&self, new: &Ranked, rank: u32) -> Option<u32>
        requires first { AreFirst self.now.looks.items self.now.first.items }
        requires last { AreLast self.now.looks.items self.now.last.items }
        requires new_first { AreFirst new.now.looks.items new.now.first.items }
        requires new_last { AreLast new.now.looks.items new.now.last.items }
        ensures { MatchOption result ((there : ℕ) → ¬ AreAnchor self.now new.now rank there)
            (λ there. AreAnchor self.now new.now rank there) }
    {
        let look = self.only_look(rank)?;
        new.only_place(look)
    }

    // The number of the look at that rank, where it stands nowhere else.
    fn only_look(&self, rank: u32) -> Option<u32>
        requires first { AreFirst self.now.looks.items self.now.first.items }
        requires last { AreLast self.now.looks.items self.now.last.items }
        ensures { MatchOption result ((n : ℕ) → ¬ StandsAlone self.now.looks.items n rank)
            (λ n. StandsAlone self.now.looks.items n rank) }
    {
        let look = number_at(self.looks.as_slice(), rank as usize)?;
        if self.only_place(look).is_some() {
            Some(look)
        } else {
            None
        }
    }

    // The only rank at which the look of that number stands.
    fn only_place(&self, look: u32) -> Option<u32>
        requires first { AreFirst self.now.looks.items self.now.first.items }
        requires last { AreLast self.now.looks.items self.now.last.items }
        ensures { MatchOption result ((k : ℕ) → ¬ StandsAlone self.now.looks.items look k)
            (λ k. StandsAlone self.now.looks.items look k) }
    {
        let first = number_at(self.first.as_slice(), look as usize)?;
        let last = number_at(self.last.as_slice(), look as usize)?;
        if first == last {
            first.checked_sub(1)
        } else {
            None
        }
    }

    /// The first rank of the new page at which the look of that rank of this one stands.
    pub(crate) fn first_alike(&self, new: &Ranked, rank: u32) -> Option<u32>
        requires { AreFirst new.now.looks.items new.now.first.items }
        ensures { MatchOption result ((n : ℕ) → slice_get self.now.looks.items rank ≡ Some n → IsAbsent new.now.looks.items n)
            (λ k. (n : ℕ) × (slice_get self.now.looks.items rank ≡ Some n) × IsFirstAt new.now.looks.items n k) }
    {
        let look = number_at(self.looks.as_slice(), rank as usize)?;
        let place = number_at(new.first.as_slice(), look as usize)?;
        if place == 0 { None } else { Some(place - 1) }
    }
}
