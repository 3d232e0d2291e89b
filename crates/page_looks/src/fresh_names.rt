//! The names whose values differ at each load of a page.
ghost use Rattle.std.specs.Prelude.{◌≡◌};

use page_tree::Text;
use std::hash::RandomState;
use std::marker::Model;

/// Names whose values differ at each load, as tokens against forged requests do, and the keys by which the texts of pages
/// are hashed. Contracts see the names alone: no answer differs by the keys.
#[derive(Debug, Drop)]
pub struct FreshNames {
    pub(crate) names: Vec<Text>,
    pub(crate) keys: RandomState,
}

impl Model for FreshNames {
    ghost use Rattle.std.specs.Prelude.{ℕ, List};

    ghost Value = { List (List ℕ) };

    ghost view = { λ f. f.names.items };
}

impl FreshNames {
    /// These names. Whoever writes a page mustn't know the keys.
    pub fn new(names: Vec<Text>, keys: RandomState) -> FreshNames
        ensures { result ≡ names.items }
    {
        FreshNames { names, keys }
    }

    /// The names.
    pub fn as_slice(&self) -> &[Text]
        ensures { result.now ≡ self.now }
    {
        self.names.as_slice()
    }
}
