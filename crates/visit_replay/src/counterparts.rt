//! The element of the repaired page that is the one of the recorded page, or why there is none.
ghost use Rattle.std.specs.Prelude.{◌≡◌, ◌<◌, None, IfOk, OnOk, if◌then◌else◌};
ghost use Rattle.page_tree.specs.Limits.{nodes};
ghost use Rattle.page_tree.specs.Number.{place_numbered};
ghost use Rattle.page_looks.specs.Counterpart.{alike_at, as_good_place};
ghost use Rattle.visit_replay.specs.Aim.{found_or, none_or_many, by_look, counterpart};
ghost use Rattle.visit_replay.specs.inside.Differing.{AreLookedUp};
ghost use Rattle.visit_replay.specs.inside.OneEvent.{placed};

use crate::hidden_inputs::{hidden_twin, is_hidden, parent_or_root};
use crate::lookups::Lookups;
use crate::outcome::ConflictKind;
use page_looks::Beside;
use page_tree::NoMemory;
use std::alloc::Global;

/// Its number, or K2, K3, K11. A hidden input goes by its parent.
pub(crate) fn counterpart(
    alloc: Global,
    beside: &Beside<'_>,
    asks: bool,
    number: u32,
    lookups: &mut Lookups<'_, '_>,
) -> Result<Result<u32, ConflictKind>, NoMemory>
    requires there { number < nodes beside.now.old }
    requires known { AreLookedUp beside.now.old beside.now.new lookups.old }
    ensures place { IfOk result (λ found. placed beside.now.new found
        ≡ counterpart beside.now.fresh beside.now.old beside.now.new asks (place_numbered number beside.now.old)) }
    ensures within { IfOk result (λ found. IfOk found (λ n. n < nodes beside.now.new)) }
    ensures known { OnOk result (AreLookedUp beside.now.old beside.now.new lookups.new) }
{
    if !is_hidden(beside.recorded_page(), number) {
        return Ok(by_look(beside, asks, number));
    }
    let parent = parent_or_root(beside.recorded_page(), number);
    match by_look(beside, false, parent) {
        Err(kind) => Ok(Err(kind)),
        Ok(under) => hidden_twin(alloc, beside, number, parent, under, lookups),
    }
}

// The same element; without an anchor one that is as good, of a link that was asked.
fn by_look(beside: &Beside<'_>, asks: bool, number: u32) -> Result<u32, ConflictKind>
    ensures place { placed beside.now.new result
        ≡ by_look beside.now.fresh beside.now.old beside.now.new asks (place_numbered number beside.now.old) }
    ensures within { IfOk result (λ n. n < nodes beside.now.new) }
{
    match beside.same(number) {
        None => without_anchor(beside, asks, number),
        Some(same) => {
            if same.sending {
                Ok(same.number)
            } else {
                Err(ConflictKind::Changed)
            }
        }
    }
}

fn without_anchor(beside: &Beside<'_>, asks: bool, number: u32) -> Result<u32, ConflictKind>
    ensures place { placed beside.now.new result ≡ found_or
        (none_or_many (alike_at beside.now.old beside.now.new (place_numbered number beside.now.old)))
        (if asks then as_good_place beside.now.fresh beside.now.old beside.now.new
        (place_numbered number beside.now.old) else None) }
    ensures within { IfOk result (λ n. n < nodes beside.now.new) }
{
    if !asks {
        return Err(none_or_many(beside, number));
    }
    match beside.as_good(number) {
        Some(found) => Ok(found),
        None => Err(none_or_many(beside, number)),
    }
}

// K3 where something looks so, K2 where nothing does.
fn none_or_many(beside: &Beside<'_>, number: u32) -> ConflictKind
    ensures { result ≡ none_or_many (alike_at beside.now.old beside.now.new (place_numbered number beside.now.old)) }
{
    if beside.has_look(number) {
        ConflictKind::ManyTargets
    } else {
        ConflictKind::NoTarget
    }
}
