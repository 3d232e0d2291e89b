//! Values that were handed over, in order. It exists in proofs alone.
ghost use Rattle.std.specs.Prelude.{◌≡◌, List, [], ◌∷◌, ◌++◌};
ghost use Rattle.std.specs.Borrow.{ftrue};

use std::marker::{Model, PhantomData};
use std::snapshot::Snapshot;

/// The values, in order. It takes no bytes, and its methods do nothing when they run.
#[derive(Drop)]
pub struct Trace<T> {
    of: PhantomData<T>,
    pub ghost items: { List T },
}

impl<T> Model for Trace<T> {
    ghost also_owns = { λ _. ftrue };
}

// It owns nothing.
unsafe impl<T> Send for Trace<T> {}

impl<T> Trace<T> {
    pub fn new() -> Trace<T>
        ensures { result.items ≡ [] }
    {
        Trace::holding(&(), &())
    }

    /// This value came next.
    pub fn and(&self, _item: &T) -> Trace<T>
        ensures { result.items ≡ self.now.items ++ _item.now ∷ [] }
    {
        Trace::holding(self, _item)
    }

    /// The value that this stands for came next.
    pub fn and_seen(&self, _item: &Snapshot<T>) -> Trace<T>
        ensures { result.items ≡ self.now.items ++ _item.now.value ∷ [] }
    {
        Trace::holding(self, _item)
    }

    /// The same values.
    pub fn again(&self) -> Trace<T>
        ensures { result.items ≡ self.now.items }
    {
        Trace::holding(self, &())
    }

    // The values are those that the caller's proof makes of what it passes.
    fn holding<U, V>(_before: &U, _item: &V) -> Trace<T>
        ghost values: { List T }
        ensures { result.items ≡ values }
    {
        Trace { of: PhantomData }
    }
}
