//! The question whether to take on.

/// A question with a promise for each number of items, which a thread's promise can name.
pub trait Halt: Sync {
    ghost use Rattle.std.specs.Prelude.{ℕ, Bool};

    // It can be asked at that number of items.
    ghost may: { Self → ℕ → Type 0 };

    // It may answer that there.
    ghost allows: { Self → ℕ → Bool → Type 0 };

    /// Whether to stop, behind so many items.
    fn ask(&self, items: u64) -> bool
        requires { may self.now items }
        ensures { allows self.now items result };
}

/// A closure that is asked so.
#[derive(Drop)]
pub struct Asks<'h, H> {
    pub halt: &'h H,
}

impl<'h, H: Fn(u64) -> bool + Sync> Halt for Asks<'h, H> {
    ghost may = { λ asks n. H.pre asks.halt.now n };

    ghost allows = { λ asks n answer. H.post asks.halt.now n answer };

    fn ask(&self, items: u64) -> bool {
        (self.halt)(items)
    }
}

/// Never stops.
#[derive(Drop)]
pub(crate) struct Never;

impl Halt for Never {
    ghost use Rattle.std.specs.Prelude.{⊤};
    ghost use Rattle.lanes_in_turn.specs.Taking.{never};

    ghost may = { λ _ _. ⊤ };

    ghost allows = { λ _. never };

    fn ask(&self, _items: u64) -> bool {
        false
    }
}
