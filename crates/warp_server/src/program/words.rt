//! Words that the program was called with.
ghost use Rattle.std.specs.Prelude.{◌≡◌, ◌<◌, [], ◌∷◌, length, map, string_bytes, MatchOption, OnSome};
ghost use Rattle.std.specs.Vec.Iter.{into_iter_items};

use page_tree::Text;
use std::env::Args;
use std::marker::Model;

/// Words that are still to come. Contracts see them as texts.
#[derive(Drop)]
pub struct Words {
    first: Option<Text>,
    rest: Args,
}

impl Model for Words {
    ghost use Rattle.std.specs.Prelude.{ℕ, List, ◌++◌, map, option_to_list, string_bytes};
    ghost use Rattle.std.specs.Vec.Iter.{into_iter_items};

    ghost Value = { List (List ℕ) };

    ghost view = { λ w. option_to_list w.first ++ map string_bytes (into_iter_items w.rest) };
}

impl Words {
    /// That word, and those behind it. It takes no memory.
    pub fn new(first: Text, rest: Args) -> Words
        ensures { result ≡ first ∷ map string_bytes (into_iter_items rest) }
    {
        Words {
            first: Some(first),
            rest,
        }
    }

    /// The next word.
    pub fn next(&mut self) -> Option<Text>
        ensures value { MatchOption result (self.old ≡ []) (λ word. self.old ≡ word ∷ self.new) }
        ensures shorter { OnSome result (length self.new < length self.old) }
    {
        if let Some(word) = self.first.take() {
            return Some(word);
        }
        match self.rest.next() {
            Some(word) => Some(Text::from(word)),
            None => None,
        }
    }
}
