//! The texts among the children of a node, one after another, as the page has them.
ghost use Rattle.std.specs.Prelude.{◌≡◌, ◌∷◌, [], MatchOption};
ghost use Rattle.page_tree.specs.Started.{texts_below};

use crate::page::Page;
use std::marker::Model;

/// Those that are still to come. Contracts see them as a list.
#[derive(Drop)]
pub struct ChildTexts<'p> {
    page: &'p Page,
    parent: u32,
    // how many children stand before the next one, and the number of that
    position: u32,
    child: u32,
}

impl<'p> Model for ChildTexts<'p> {
    ghost use Rattle.std.specs.Prelude.{ℕ, List};
    ghost use Rattle.page_tree.specs.inside.Coming.{texts_coming, IsNextChild};

    ghost Value = { List (List ℕ) };

    ghost view = { λ t. texts_coming t.page.now t.parent t.position };

    ghost invariant = { λ t. IsNextChild t.page.now t.parent t.position t.child };
}

impl Page {
    /// All those of the node with that number.
    #[tactic(auto, using(crate::proofs::ControlLaws::words_all))]
    pub fn child_texts_of(&self, number: u32) -> ChildTexts<'_>
        ensures { result ≡ texts_below self.now number }
    {
        ChildTexts {
            page: self,
            parent: number,
            position: 0,
            child: self.nodes_under(number).start,
        }
    }
}

impl<'p> ChildTexts<'p> {
    /// The next one, which is empty at an element. It takes no memory.
    #[tactic(auto, using(crate::proofs::ControlLaws::words_step, crate::proofs::ControlLaws::words_end))]
    pub fn next(&mut self) -> Option<&'p str>
        ensures { MatchOption result ((self.old ≡ []) × (self.new ≡ [])) (λ text. self.old ≡ text.now ∷ self.new) }
    {
        if self.position >= self.page.children_of(self.parent) {
            return None;
        }
        let text = self.page.words_of(self.child);
        self.child = self.page.nodes_under(self.child).end;
        self.position += 1;
        Some(text)
    }
}
