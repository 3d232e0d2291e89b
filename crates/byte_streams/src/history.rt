//! What the reads of a source, or the writes of a sink, answered. It exists in proofs alone.
ghost use Rattle.std.specs.Prelude.{◌≡◌, ℕ, List, [], ◌∷◌, ◌++◌, Option, Some, None};
ghost use Rattle.std.specs.Borrow.{ftrue};

use std::marker::{Model, PhantomData};

/// The answers, in order. It takes no bytes, and its methods do nothing when they run.
#[derive(Drop)]
pub struct History {
    marker: PhantomData<u8>,
    pub ghost answers: { List (Option (List ℕ)) },
}

impl Model for History {
    ghost also_owns = { λ _. ftrue };
}

// It owns nothing.
unsafe impl Send for History {}

impl History {
    pub fn new() -> History
        ensures { result.answers ≡ [] }
    {
        History {
            marker: PhantomData,
        }
    }

    /// These bytes came or went.
    pub fn moved(&mut self, _bytes: &[u8])
        ensures { self.new.answers ≡ self.old.answers ++ Some _bytes.now ∷ [] }
    {}

    /// The call failed.
    pub fn failed(&mut self)
        ensures { self.new.answers ≡ self.old.answers ++ None ∷ [] }
    {}
}
