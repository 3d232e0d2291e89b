//! Which addresses were repaired.
ghost use Rattle.std.specs.Prelude.{◌≡◌, ℕ, List};
ghost use Rattle.visit_replay.specs.Outcome.{is_listed, is_affected};

use crate::address::bare;
use client_log::Visit;
use page_tree::Text;
use std::marker::Model;

/// The addresses whose pages were repaired, each without `?` and `#`: an entry with one of them is met by no visit.
///
/// They stand in the order of their bytes, so that one is found by halves.
#[derive(Debug, Drop)]
pub struct Patch {
    addresses: Vec<Text>,
}

impl Model for Patch {
    ghost use Rattle.std.specs.Prelude.{ℕ, List};
    ghost use Rattle.std.specs.List.Sorted.{IsSorted};
    ghost use Rattle.std.specs.Ordering.{nat_cmp};
    ghost use Rattle.std.specs.Cmp.Lexicographic.{slice_cmp};

    ghost Value = { List (List ℕ) };

    ghost view = { λ p. p.addresses.items };

    ghost invariant = { λ p. IsSorted (slice_cmp nat_cmp) p.addresses.items };
}

impl Patch {
    /// It takes no memory.
    pub fn new(mut addresses: Vec<Text>) -> Patch
        ensures { (address : List ℕ) → is_listed result address ≡ is_listed addresses.items address }
    {
        addresses.sort_unstable_by(|a, b| a.as_str().cmp(b.as_str()));
        Patch { addresses }
    }

    fn lists(&self, address: &str) -> bool
        ensures { result ≡ is_listed self.now address.now }
    {
        self.addresses
            .binary_search_by(|entry| entry.as_str().cmp(address))
            .is_ok()
    }
}

/// Whether a visit is to be replayed: the patch lists its address up to the first `?` or `#`.
pub fn affected(patch: &Patch, visit: &Visit) -> bool
    ensures { result ≡ is_affected patch.now visit.now.address }
{
    patch.lists(bare(visit.address.as_str()))
}
