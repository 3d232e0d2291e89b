//! What holds of all texts and drawings, told by functions that do nothing.
ghost use Rattle.std.specs.Prelude.{◌≡◌, ◌++◌, ℕ, List, true};
ghost use Rattle.markup.specs.Escaping.{escaped, is_inert};
ghost use Rattle.markup.specs.Drawing.{IsInertHtml};

/// What is added for a text begins and ends no tag, and ends no attribute's value, whatever the text is.
#[tactic(auto, using(crate::proofs::Inert::always_inert))]
pub fn escaped_is_inert()
    ensures { (words : List ℕ) → is_inert (escaped words) ≡ true }
{}

/// Drawings behind drawings are drawings.
#[tactic(auto, using(crate::proofs::Joined::inert_joined))]
pub fn drawings_join()
    ensures { (front rest : List ℕ) → IsInertHtml front → IsInertHtml rest → IsInertHtml (front ++ rest) }
{}
