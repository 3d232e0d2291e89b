//! What is proved of the same element, for all pages: each function does nothing, and tells a proof a law.
ghost use Rattle.std.specs.Prelude.{ℕ, List, ◌≡◌, ◌++◌, true, Some, MatchOption};
ghost use Rattle.page_tree.specs.Tree.{Tree};
ghost use Rattle.page_tree.specs.Look.{node_at};
ghost use Rattle.page_looks.specs.Outline.{look, seen_place};
ghost use Rattle.page_looks.specs.Sending.{sends};
ghost use Rattle.page_looks.specs.SameElement.{IsAnchor, IsSame, IsSameSending};
ghost use Rattle.page_looks.specs.Counterpart.{same_place, still_sends};
ghost use Rattle.page_looks.specs.Laws.{SendsBelow, LookAlike, SendAlike, HasCounterparts};

/// On an unchanged page each seen node is itself, sends the same, and no other node is it.
pub fn unchanged()
    ensures itself { (t : Tree) (p s : List ℕ) → seen_place p t ≡ Some s → IsSame t t p p }
    ensures sending { (fresh : List (List ℕ)) (t : Tree) (p s : List ℕ) → seen_place p t ≡ Some s
        → IsSameSending fresh t t p p }
    ensures only { (t : Tree) (p q : List ℕ) → IsSame t t p q → q ≡ p }
{}

/// The same element as a function is the same element as a relation, and so it is with what it still sends.
pub fn same_place_is_the_same()
    ensures place { (old new : Tree) (p : List ℕ) → MatchOption (same_place old new p)
        ((q : List ℕ) → ¬ IsSame old new p q) (IsSame old new p) }
    ensures sending { (fresh : List (List ℕ)) (old new : Tree) (p q : List ℕ) → same_place old new p ≡ Some q
        → still_sends fresh old new p ≡ true → IsSameSending fresh old new p q }
    ensures sent { (fresh : List (List ℕ)) (old new : Tree) (p q : List ℕ) → IsSameSending fresh old new p q
        → still_sends fresh old new p ≡ true }
{}

/// No two elements have one counterpart, no element has two, and the other way round it is the same relation.
pub fn one_to_one()
    ensures one { (old new : Tree) (p q r : List ℕ) → IsSame old new p q → IsSame old new p r → q ≡ r }
    ensures source { (old new : Tree) (p q r : List ℕ) → IsSame old new p r → IsSame old new q r → p ≡ q }
    ensures turned { (old new : Tree) (p q : List ℕ) → IsSame old new p q → IsSame new old q p }
{}

/// All anchors around an element give the same place, and where one sends the same, each lower one does.
pub fn anchors_agree()
    ensures place { (old new : Tree) (at there next beyond way rest : List ℕ) → IsAnchor old new at there
        → IsAnchor old new next beyond → at ++ way ≡ next ++ rest → there ++ way ≡ beyond ++ rest }
    ensures sending { (fresh : List (List ℕ)) (old new : Tree) (at there next beyond : List ℕ)
        → SendsBelow fresh old new at there next beyond }
{}

/// What is the same looks alike, and what is seen below it has its counterparts; what still sends the same does so with all below it.
pub fn what_is_the_same_is_alike()
    ensures looks { (old new : Tree) (p q : List ℕ) → IsSame old new p q → LookAlike old new p q }
    ensures below { (old new : Tree) (p q : List ℕ) → IsSame old new p q → HasCounterparts old new p q }
    ensures sends { (fresh : List (List ℕ)) (old new : Tree) (p q : List ℕ) → IsSameSending fresh old new p q
        → SendAlike fresh old new p q }
{}
