//! A client's visits as a tree.
ghost use Rattle.std.specs.Prelude.{◌≡◌, IfOk};
ghost use Rattle.review_state.specs.Branches.{IsBranched, AreOpeners};

use conflict_desk::OpenDocket;
use page_tree::NoMemory;
use std::alloc::Global;
use visit_tree::{levels_of, tree_order};

/// The places of a client's visits in the order of their tree, and by its place how many visits stand above each.
#[derive(Debug, Drop)]
pub struct Branches {
    pub order: Vec<usize>,
    pub levels: Vec<usize>,
}

/// The tree of a client's visits, each below the one that opened it.
pub fn branches_of(alloc: Global, docket: &OpenDocket) -> Result<Branches, NoMemory>
    ensures { IfOk result (λ branches. IsBranched docket.now.cases branches) }
{
    let openers = openers_of(alloc, docket)?;
    let order = tree_order(alloc, openers.as_slice())?;
    let levels = levels_of(alloc, openers.as_slice())?;
    Ok(Branches { order, levels })
}

fn openers_of(alloc: Global, docket: &OpenDocket) -> Result<Vec<Option<usize>>, NoMemory>
    ensures { IfOk result (λ openers. AreOpeners docket.now.cases openers.items) }
{
    let count = docket.cases().len();
    let mut openers = Vec::with_capacity(alloc, count)?;
    for place in 0..count {
        openers.push(docket.parent_at(place))?;
    }
    Ok(openers)
}
