//! The order in which visits are shown.
ghost use Rattle.std.specs.Prelude.{◌≡◌, ◌<◌, length, None, slice_index_or, IfOk};
ghost use Rattle.std.specs.Option.{option_or};
ghost use Rattle.visit_tree.specs.Tree.{tree_order};
ghost use Rattle.visit_tree.specs.inside.Siblings.{IsLinked};

use crate::linking::{link, pass_on};
use std::alloc::{AllocError, Global};

/// The places of the visits in the order in which they are shown: each is followed by those that it opened, each of these with what it opened. A number of
/// `parents` is the place of the visit that opened it, if any; one that isn't before its own counts for none.
pub fn tree_order(alloc: Global, parents: &[Option<usize>]) -> Result<Vec<usize>, AllocError>
    ensures { IfOk result (λ order. order.items ≡ tree_order parents.now) }
{
    let count = parents.len();
    let mut firsts = Vec::from_elem(alloc, None, count + 1)?;
    let mut nexts = Vec::from_elem(alloc, None, count)?;
    link(parents, firsts.as_mut_slice(), nexts.as_mut_slice());
    pass_on(parents, nexts.as_mut_slice());
    walk(alloc, parents, firsts.as_slice(), nexts.as_slice())
}

// From the first of those that none opened, by what follows each.
fn walk(
    alloc: Global,
    parents: &[Option<usize>],
    firsts: &[Option<usize>],
    followers: &[Option<usize>],
) -> Result<Vec<usize>, AllocError>
    requires { IsLinked parents.now firsts.now followers.now }
    ensures { IfOk result (λ order. order.items ≡ tree_order parents.now) }
{
    let mut order = Vec::with_capacity(alloc, parents.len())?;
    let mut at = firsts[parents.len()];
    while let Some(place) = at {
        order.push(place)?;
        at = next_of(firsts, followers, place);
    }
    Ok(order)
}

// The first below it, or what follows it behind those.
fn next_of(firsts: &[Option<usize>], followers: &[Option<usize>], place: usize) -> Option<usize>
    requires firsts { place < length firsts.now }
    requires followers { place < length followers.now }
    ensures { result ≡ option_or (slice_index_or firsts.now place None) (slice_index_or followers.now place None) }
{
    firsts[place].or(followers[place])
}
