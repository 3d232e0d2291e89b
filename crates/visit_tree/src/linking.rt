//! Links between visits, by which they are gone through in their order.
ghost use Rattle.std.specs.Prelude.{◌≡◌, ◌≤◌, ◌<◌, ◌+◌, ℕ, length, None, slice_index_or};
ghost use Rattle.std.specs.Option.{option_or};
ghost use Rattle.visit_tree.specs.inside.Siblings.{slot_at, AreFirsts, AreNexts, AreFollowers};

use crate::levels::opener_at;

/// Links the first visit below each, and behind these the first of those that none opened; and for each visit the next one below the same one.
pub(crate) fn link(
    parents: &[Option<usize>],
    firsts: &mut [Option<usize>],
    nexts: &mut [Option<usize>],
)
    requires firsts_count { length firsts.old ≡ length parents.now + 1 }
    requires nexts_count { length nexts.old ≡ length parents.now }
    requires none { (slot : ℕ) → slice_index_or firsts.old slot None ≡ None }
    ensures firsts { AreFirsts parents.now 0 firsts.new }
    ensures nexts { AreNexts parents.now 0 nexts.new }
{
    let mut place = parents.len();
    while place > 0 {
        place -= 1;
        let slot = slot_at(parents, place);
        nexts[place] = firsts[slot];
        firsts[slot] = Some(place);
    }
}

fn slot_at(parents: &[Option<usize>], place: usize) -> usize
    requires { place < length parents.now }
    ensures slot { result ≡ slot_at parents.now place }
    ensures within { result ≤ length parents.now }
{
    match opener_at(parents, place) {
        Some(opener) => opener,
        None => parents.len(),
    }
}

/// Where a visit has no next one, it is followed by what follows the one that opened it.
pub(crate) fn pass_on(parents: &[Option<usize>], nexts: &mut [Option<usize>])
    requires { length nexts.old ≡ length parents.now }
    ensures { AreFollowers parents.now nexts.old nexts.new }
{
    for place in 0..parents.len() {
        nexts[place] = follower(parents, nexts, place);
    }
}

fn follower(parents: &[Option<usize>], nexts: &[Option<usize>], place: usize) -> Option<usize>
    requires within { place < length parents.now }
    requires count { length nexts.now ≡ length parents.now }
    ensures { result ≡ option_or (slice_index_or nexts.now place None)
        (slice_index_or nexts.now (slot_at parents.now place) None) }
{
    match nexts[place] {
        Some(next) => Some(next),
        None => follower_of_opener(parents, nexts, place),
    }
}

fn follower_of_opener(
    parents: &[Option<usize>],
    nexts: &[Option<usize>],
    place: usize,
) -> Option<usize>
    requires within { place < length parents.now }
    requires count { length nexts.now ≡ length parents.now }
    ensures { result ≡ slice_index_or nexts.now (slot_at parents.now place) None }
{
    match opener_at(parents, place) {
        Some(opener) => nexts[opener],
        None => None,
    }
}
