//! How deep each visit stands.
ghost use Rattle.std.specs.Prelude.{◌≡◌, ◌≤◌, ◌<◌, ℕ, length, IfOk, IfSome, slice_index_or};
ghost use Rattle.visit_tree.specs.Tree.{opener_at, IsLevel, AreVisitLevels};

use std::alloc::{AllocError, Global};

/// How many visits stand above each, by its place: one more than above the visit that opened it. A number of `parents` is the place of that one, if any; one that
/// isn't before its own counts for none.
pub fn levels_of(alloc: Global, parents: &[Option<usize>]) -> Result<Vec<usize>, AllocError>
    ensures { IfOk result (λ levels. AreVisitLevels parents.now levels.items) }
{
    let mut levels = Vec::with_capacity(alloc, parents.len())?;
    for place in 0..parents.len() {
        let level = level_at(parents, levels.as_slice(), place);
        levels.push(level)?;
    }
    Ok(levels)
}

// That of the visit there, where those before it have theirs.
fn level_at(parents: &[Option<usize>], levels: &[usize], place: usize) -> usize
    requires within { place < length parents.now }
    requires before { length levels.now ≡ place }
    requires low { (k : ℕ) → k < place → slice_index_or levels.now k 0 ≤ k }
    ensures level { IsLevel parents.now levels.now place result }
    ensures low { result ≤ place }
{
    match opener_at(parents, place) {
        Some(opener) => levels[opener] + 1,
        None => 0,
    }
}

// Where the visit stands that opened the one there.
pub(crate) fn opener_at(parents: &[Option<usize>], place: usize) -> Option<usize>
    requires { place < length parents.now }
    ensures opener { result ≡ opener_at parents.now place }
    ensures before { IfSome result (λ opener. opener < place) }
{
    match parents[place] {
        Some(parent) if parent < place => Some(parent),
        _ => None,
    }
}
