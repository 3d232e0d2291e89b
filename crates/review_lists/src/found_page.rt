//! The page of what is found, as far as it has been looked for.
ghost use Rattle.std.specs.Prelude.{ℕ, List, ◌≡◌, [], ◌∷◌, ◌++◌, true, false, OnOk};
ghost use Rattle.review_lists.specs.inside.FoundPages.{IsFoundPage, takes_next};

use page_tree::NoMemory;
use std::alloc::{AllocError, Global};

/// How many are shown.
pub(crate) const VISITS_FOUND: usize = 200;

/// Its rows, and how many were found in all. `from` is the first that it shows.
#[derive(Drop)]
pub(crate) struct FoundPage {
    from: usize,
    count: usize,
    shown: usize,
    rows: Vec<u8>,
}

impl FoundPage {
    /// Nothing was found yet.
    pub(crate) fn new(alloc: Global, from: usize) -> FoundPage
        ensures { IsFoundPage from [] result }
    {
        FoundPage {
            from,
            count: 0,
            shown: 0,
            rows: Vec::new(alloc),
        }
    }

    pub(crate) fn rows(&self) -> &[u8]
        ensures { result.now ≡ self.now.rows.items }
    {
        self.rows.as_slice()
    }

    pub(crate) fn count(&self) -> usize
        ensures { result ≡ self.now.count }
    {
        self.count
    }

    /// Whether the next one stands on it.
    pub(crate) fn takes_next(&self) -> bool
        ensures { result ≡ takes_next self.now }
    {
        self.from <= self.count && self.shown < VISITS_FOUND
    }

    /// The next one is found, and stands on it.
    pub(crate) fn add(&mut self, row: &[u8]) -> Result<(), NoMemory>
        requires { takes_next self.old ≡ true }
        ensures { OnOk result ((from : ℕ) (finds : List (List ℕ)) → IsFoundPage from finds self.old
            → IsFoundPage from (finds ++ row.now ∷ []) self.new) }
    {
        match self.rows.extend_from_slice(row) {
            Err(_) => Err(AllocError),
            Ok(()) => {
                self.shown += 1;
                self.count = self.count.saturating_add(1);
                Ok(())
            }
        }
    }

    /// The next one is found, and stands before it or behind it.
    pub(crate) fn pass(&mut self)
        requires { takes_next self.old ≡ false }
        ensures { (from : ℕ) (finds : List (List ℕ)) (row : List ℕ) → IsFoundPage from finds self.old
            → IsFoundPage from (finds ++ row ∷ []) self.new }
    {
        let _from = self.from;
        self.count = self.count.saturating_add(1);
    }
}
