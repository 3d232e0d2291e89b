//! Short ways up the chains of parents.
ghost use Rattle.std.specs.Prelude.{ℕ, ◌≡◌, ◌≤◌, ◌⊎◌, Bool, None, ◌<◌, ◌++◌, [], ◌∷◌, length, slice_get, Some, IfOk, IfSome};
ghost use Rattle.conflict_desk.specs.Docket.{AreAscending};
ghost use Rattle.conflict_desk.specs.inside.Settling.{Tell};
ghost use Rattle.conflict_desk.specs.inside.Links.{IsLink, AreLinks, AllLeadBack, LeadsTo, Follows};

use crate::docket::{Case, parent_of};
use page_tree::NoMemory;
use std::alloc::Global;

/// A case's way up: where its parent stands, and a place further up its chain of parents, so many steps away. By these places the way to any place on a
/// chain takes a number of steps that grows with the logarithm of the chain's length.
#[derive(Clone, Copy, Debug)]
pub(crate) struct Link {
    pub(crate) parent: Option<usize>,
    pub(crate) jump: Option<usize>,
    pub(crate) reach: usize,
}

pub(crate) fn links_of(alloc: Global, cases: &[Case]) -> Result<Vec<Link>, NoMemory>
    requires { AreAscending cases.now }
    ensures links { IfOk result (λ links. AreLinks cases.now links.items) }
    ensures count { IfOk result (λ links. length links.items ≡ length cases.now) }
{
    let mut links = Vec::with_capacity(alloc, cases.len())?;
    for case in cases {
        let link = link_of(cases, links.as_slice(), case);
        links.push(link)?;
    }
    Ok(links)
}

// The link of the case behind those that have theirs.
fn link_of(cases: &[Case], links: &[Link], case: &Case) -> Link
    requires ascending { AreAscending cases.now }
    requires links { AreLinks cases.now links.now }
    requires at { slice_get cases.now (length links.now) ≡ Some case.now }
    ensures { IsLink cases.now (links.now ++ result ∷ []) (length links.now) result }
{
    let Some(parent) = parent_of(cases, case) else {
        return Link {
            parent: None,
            jump: None,
            reach: 0,
        };
    };
    let (jump, reach) = jump_over(links, parent);
    Link {
        parent: Some(parent),
        jump: Some(jump),
        reach,
    }
}

// From below that parent: over two jumps above it where they are of one length, else to the parent. And how many steps that is.
fn jump_over(links: &[Link], parent: usize) -> (usize, usize)
    requires parent { parent < length links.now }
    requires back { AllLeadBack links.now }
    ensures { (result.0 ≡ parent) ⊎ LeadsTo links.now parent result.0 }
{
    let near = links[parent];
    if let Some(jump) = near.jump {
        let far = links[jump];
        if let Some(further) = far.jump {
            if near.reach == far.reach {
                return (further, near.reach.saturating_mul(2).saturating_add(1));
            }
        }
    }
    (parent, 1)
}

// Whether the case at that place is below one before `next` that is marked, or is itself such a one.
pub(crate) fn is_gone(links: &[Link], gone: &[bool], next: usize, place: usize) -> bool
    requires back { AllLeadBack links.now }
    requires count { length gone.now ≡ length links.now }
    requires place { place < length links.now }
    ensures { (said : ℕ → Bool) → Follows next links.now said → Tell said next gone.now → result ≡ said place }
{
    let mut at = place;
    while at >= next {
        let Some(above) = above(links[at], next) else {
            return false;
        };
        at = above;
    }
    gone[at]
}

// A place further up the chain of parents: by the jump, where that isn't before `next`, else the parent's.
fn above(link: Link, next: usize) -> Option<usize>
    ensures up { IfSome result (λ above. ((link.jump ≡ Some above) × (next ≤ above)) ⊎ (link.parent ≡ Some above)) }
    ensures none { result ≡ None → link.parent ≡ None }
{
    match link.jump {
        Some(jump) if jump >= next => Some(jump),
        _ => link.parent,
    }
}
