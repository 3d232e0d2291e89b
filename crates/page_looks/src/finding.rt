//! The nearest anchor around an element, by the numbers of looks.
ghost use Rattle.std.specs.Prelude.{ℕ, List, ◌≡◌, ◌≢◌, Some, MatchOption};
ghost use Rattle.page_tree.specs.Tree.{Tree};
ghost use Rattle.page_tree.specs.Number.{place_numbered};
ghost use Rattle.page_looks.specs.Outline.{seen_place};
ghost use Rattle.page_looks.specs.SameElement.{IsSame};
ghost use Rattle.page_looks.specs.inside.Numbers.{AreApart};
ghost use Rattle.page_looks.specs.inside.Ranks.{IsRanked, HasRank};
ghost use Rattle.page_looks.specs.inside.Nearest.{IsNearest};

use crate::ranks::{Ranked, number_at};
use page_tree::Page;

/// The ranks of an anchor on the old page and on the new one, and that of the element on the old one.
#[derive(Clone, Copy)]
pub(crate) struct Nearest {
    pub at: u32,
    pub there: u32,
    pub own: u32,
}

/// The rank of the node with that number, where it is seen.
pub(crate) fn rank_of(ranked: &Ranked, number: u32) -> Option<u32>
    ensures { MatchOption result
        ((t : Tree) (known : List Tree) (s : List ℕ) → IsRanked t known ranked.now
        → seen_place (place_numbered number t) t ≢ Some s)
        (λ rank. (t : Tree) (known : List Tree) → IsRanked t known ranked.now → HasRank t number rank) }
{
    match number_at(ranked.ranks.as_slice(), number as usize) {
        None => None,
        Some(place) => { if place == 0 { None } else { Some(place - 1) } }
    }
}

/// The nearest anchor around the node of the old page with that number; without one, no node of the new page is the same.
pub(crate) fn nearest_anchor(
    page: &Page,
    old: &Ranked,
    new: &Ranked,
    new_page: &Page,
    number: u32,
) -> Option<Nearest>
    requires known { (known : List Tree) × AreApart known × IsRanked page.now known old.now
        × IsRanked new_page.now known new.now }
    ensures { MatchOption result ((q : List ℕ) → ¬ IsSame page.now new_page.now (place_numbered number page.now) q)
        (IsNearest page.now new_page.now number) }
{
    let Some(start) = rank_of(old, number) else {
        return None;
    };
    let mut at = number;
    let mut rank = start;
    loop {
        match old.anchor(new, rank) {
            Some(there) => {
                return Some(Nearest {
                    at: rank,
                    there,
                    own: start,
                });
            }
            None => {}
        }
        let Some(parent) = page.parent_of(at) else {
            return None;
        };
        let Some(above) = rank_of(old, parent) else {
            return None;
        };
        at = parent;
        rank = above;
    }
}
