//! Items in order, and dealt round as hands.
ghost use Rattle.std.specs.Prelude.{ℕ, ◌≡◌, ◌+◌, ◌<◌, ◌≤◌, ◌⊎◌, ◌++◌, Some, IfOk, OnOk, Vec};
ghost use Rattle.std.specs.Prelude.{List, [], length, replicate, reverse, slice_get};
ghost use Rattle.std.specs.Global.{Global};
ghost use Rattle.std.specs.Vec.{vec_capacity};
ghost use Rattle.round_robin.specs.Dealt.{every, given};

use std::alloc::{AllocError, Global};

/// Item k goes to hand k modulo so many, behind those that it has.
pub fn deal<T: Drop>(alloc: Global, items: Vec<T>, hands: usize) -> Result<Vec<Vec<T>>, AllocError>
    requires { 0 < hands }
    ensures count { IfOk result (λ dealt. length dealt.items ≡ hands) }
    ensures each { IfOk result (λ dealt.
        (hand : ℕ) (held : Vec T Global) → slice_get dealt.items hand ≡ Some held
        → held.items ≡ every hands hand items.items) }
{
    let mut dealt = empty(alloc, hands)?;
    let mut at = 0;
    for item in items {
        give(dealt.as_mut_slice(), at, item)?;
        at = next(at, hands);
    }
    Ok(dealt)
}

/// Back in order: item k from hand k modulo so many, each hand from its front.
pub fn collect<T: Drop>(mut hands: Vec<Vec<T>>, mut items: Vec<T>, count: usize) -> Vec<T>
    requires some { 0 < length hands.items }
    requires none { items.items ≡ [] }
    requires room { count ≤ vec_capacity items }
    requires shares { (hand : ℕ) (held : Vec T Global) → slice_get hands.items hand ≡ Some held
        → length held.items ≡ length (every {A = ℕ} (length hands.items) hand (replicate count 0)) }
    ensures count { length result.items ≡ count }
    ensures each { (hand : ℕ) (held : Vec T Global) → slice_get hands.items hand ≡ Some held
        → held.items ≡ every (length hands.items) hand result.items }
{
    reverse_each(hands.as_mut_slice());
    let mut at = 0;
    for _k in 0..count {
        items.push_reserved(take(hands.as_mut_slice(), at));
        at = next(at, hands.len());
    }
    items
}

fn empty<T: Drop>(alloc: Global, hands: usize) -> Result<Vec<Vec<T>>, AllocError>
    ensures count { IfOk result (λ dealt. length dealt.items ≡ hands) }
    ensures each { IfOk result (λ dealt.
        (hand : ℕ) (held : Vec T Global) → slice_get dealt.items hand ≡ Some held → held.items ≡ []) }
{
    let mut dealt = Vec::with_capacity(alloc, hands)?;
    for _k in 0..hands {
        dealt.push_reserved(Vec::new(alloc));
    }
    Ok(dealt)
}

fn give<T: Drop>(dealt: &mut [Vec<T>], at: usize, item: T) -> Result<(), AllocError>
    requires { at < length dealt.old }
    ensures count { length dealt.new ≡ length dealt.old }
    ensures each { OnOk result ((hand : ℕ) (held : Vec T Global) → slice_get dealt.new hand ≡ Some held
        → (before : Vec T Global) × (slice_get dealt.old hand ≡ Some before)
        × (held.items ≡ before.items ++ given at hand item)) }
{
    dealt[at].push(item)?;
    Ok(())
}

// The hand behind that one.
fn next(at: usize, hands: usize) -> usize
    requires { at < hands }
    ensures within { result < hands }
    ensures round { (result ≡ at + 1) ⊎ (result + hands ≡ at + 1) }
{
    if at + 1 == hands { 0 } else { at + 1 }
}

// Then the first of each hand is its last.
fn reverse_each<T: Drop>(hands: &mut [Vec<T>])
    ensures count { length hands.new ≡ length hands.old }
    ensures each { (hand : ℕ) (held : Vec T Global) → slice_get hands.new hand ≡ Some held
        → (before : Vec T Global) × (slice_get hands.old hand ≡ Some before)
        × (held.items ≡ reverse before.items) }
{
    for k in 0..hands.len() {
        hands[k].reverse();
    }
}

// The last of that hand.
fn take<T: Drop>(hands: &mut [Vec<T>], at: usize) -> T
    requires within { at < length hands.old }
    requires some { (held : Vec T Global) → slice_get hands.old at ≡ Some held → 0 < length held.items }
    ensures count { length hands.new ≡ length hands.old }
    ensures each { (hand : ℕ) (held : Vec T Global) → slice_get hands.new hand ≡ Some held
        → (before : Vec T Global) × (slice_get hands.old hand ≡ Some before)
        × (before.items ≡ held.items ++ given at hand result) }
{
    hands[at].pop().unwrap()
}
