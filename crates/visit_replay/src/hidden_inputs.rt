//! Hidden inputs: they aren't seen, so each is known by its parent, its name, and how many of that name stand before it.
ghost use Rattle.std.specs.Prelude.{◌==◌, ◌≡◌, ◌<◌, IfOk, IfSome, OnOk, length, position};
ghost use Rattle.page_tree.specs.Limits.{nodes};
ghost use Rattle.page_tree.specs.Number.{place_numbered};
ghost use Rattle.visit_replay.specs.Aim.{above, hidden_twin, is_hidden_at, twin_in};
ghost use Rattle.visit_replay.specs.inside.Differing.{AreLookedUp};
ghost use Rattle.visit_replay.specs.inside.OneEvent.{placed};

use crate::lookups::Lookups;
use crate::outcome::ConflictKind;
use page_looks::Beside;
use page_tree::{NoMemory, Page};
use std::alloc::Global;

/// The one under a node that stands there as the one with that number stands under its parent. The children of both are looked at once a visit.
pub(crate) fn hidden_twin(
    alloc: Global,
    beside: &Beside<'_>,
    number: u32,
    parent: u32,
    under: u32,
    lookups: &mut Lookups<'_, '_>,
) -> Result<Result<u32, ConflictKind>, NoMemory>
    requires there { number < nodes beside.now.old }
    requires parent { place_numbered parent beside.now.old ≡ above (place_numbered number beside.now.old) }
    requires known { AreLookedUp beside.now.old beside.now.new lookups.old }
    ensures place { IfOk result (λ found. placed beside.now.new found ≡ hidden_twin beside.now.old beside.now.new
        (place_numbered number beside.now.old) (place_numbered under beside.now.new)) }
    ensures within { IfOk result (λ found. IfOk found (λ n. n < nodes beside.now.new)) }
    ensures known { OnOk result (AreLookedUp beside.now.old beside.now.new lookups.new) }
{
    let name = beside.recorded_page().attribute_of(number, "name");
    lookups.recorded.look_under(alloc, parent)?;
    lookups.repaired.look_under(alloc, under)?;
    let were = lookups.recorded.inputs_under(parent);
    let are = lookups.repaired.inputs_under(under);
    let olds = were.numbers(alloc, name)?;
    let news = are.numbers(alloc, name)?;
    Ok(twin_in(olds.as_slice(), news.as_slice(), number))
}

/// The parent of a node; of the root itself.
pub(crate) fn parent_or_root(page: &Page, number: u32) -> u32
    requires { number < nodes page.now }
    ensures { place_numbered result page.now ≡ above (place_numbered number page.now) }
{
    match page.parent_of(number) {
        Some(parent) => parent,
        None => number,
    }
}

/// Whether a node is a hidden input.
pub(crate) fn is_hidden(page: &Page, number: u32) -> bool
    ensures { result ≡ is_hidden_at page.now (place_numbered number page.now) }
{
    if page.name_of(number) != Some("input") {
        return false;
    }
    match page.attribute_of(number, "type") {
        Some(kind) => kind.eq_ignore_ascii_case("hidden"),
        None => false,
    }
}

// The k-th of the one list, where the number is the k-th of the other and they are as many.
fn twin_in(olds: &[u32], news: &[u32], number: u32) -> Result<u32, ConflictKind>
    ensures { result ≡ twin_in (λ n. number == n) olds.now news.now }
{
    if news.is_empty() {
        return Err(ConflictKind::NoTarget);
    }
    if olds.len() != news.len() {
        return Err(ConflictKind::ManyTargets);
    }
    match position(olds, number) {
        Some(k) => Ok(news[k]),
        None => Err(ConflictKind::ManyTargets),
    }
}

fn position(numbers: &[u32], number: u32) -> Option<usize>
    ensures place { result ≡ position (λ n. number == n) numbers.now }
    ensures within { IfSome result (λ k. k < length numbers.now) }
{
    numbers.iter().position(|n| number == *n)
}
