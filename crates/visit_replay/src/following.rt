//! The outcomes of a list of visits, of which each follows its parent.
ghost use Rattle.std.specs.Prelude.{◌≡◌, ◌≢◌, ◌<◌, ◌≤◌, [], ℕ, length, map, zip, slice_get, IfOk, IfSome, OnOk};
ghost use Rattle.std.specs.BTreeMap.{get};
ghost use Rattle.std.specs.Ordering.{nat_cmp};
ghost use Rattle.visit_replay.specs.Following.{is_untouched, behind_parents};
ghost use Rattle.visit_replay.specs.inside.Families.{AreFresh, AreKnown, TellsElsewhere, IsBehind, parent_place};

use crate::finding::Finding;
use crate::moves::Asked;
use crate::outcome::{ConflictKind, Outcome};
use crate::requests::Requests;
use client_log::Visit;
use page_tree::NoMemory;
use std::alloc::Global;
use std::collections::BTreeMap;

/// The outcomes of visits in their order, from those that `replay` gives of each by itself. A visit that isn't untouched is a conflict at its load where its
/// parent's request that opened it goes elsewhere now (K10). Its parent is the last visit before it with the number `parent`, if that is less than its own.
///
/// Each visit that opened others is gone through once, up to the last event that opened one, however many these are.
pub fn follow_parents(
    alloc: Global,
    finding: &Finding,
    visits: &[Visit],
    outcomes: Vec<Outcome>,
) -> Result<Vec<Outcome>, NoMemory>
    requires { length outcomes.items ≡ length visits.now }
    ensures { IfOk result (λ all. all.items
        ≡ map (λ one. one.1) (behind_parents finding.now (zip visits.now outcomes.items))) }
{
    let mut asked = all_asked(alloc, visits, outcomes.as_slice())?;
    let mut outcomes = outcomes;
    let mut places = BTreeMap::new(alloc);
    for k in 0..visits.len() {
        settle(
            alloc,
            finding,
            visits,
            outcomes.as_mut_slice(),
            k,
            &places,
            asked.as_mut_slice(),
        )?;
        places.insert(visits[k].number, k)?;
    }
    Ok(outcomes)
}

// For each visit what those behind it ask for of its requests, so that one look finds all of that. No answer hangs on it: what wasn't asked for here is asked
// for when it is wanted.
fn all_asked(alloc: Global, visits: &[Visit], outcomes: &[Outcome]) -> Result<Vec<Asked>, NoMemory>
    requires { length outcomes.now ≡ length visits.now }
    ensures { IfOk result (λ all. AreFresh (length visits.now) all.items) }
{
    let mut earlier = BTreeMap::new(alloc);
    let mut all: Vec<Asked> = Vec::with_capacity(alloc, visits.len())?;
    for j in 0..visits.len() {
        ask_parent(&earlier, all.as_mut_slice(), &visits[j], &outcomes[j])?;
        earlier.insert(visits[j].number, j)?;
        all.push_reserved(Asked::new(alloc));
    }
    Ok(all)
}

// Asks for the request that opened the visit, unless that stays untouched.
fn ask_parent(
    places: &BTreeMap<u64, usize>,
    all: &mut [Asked],
    visit: &Visit,
    outcome: &Outcome,
) -> Result<(), NoMemory>
    requires within { (number : ℕ) → IfSome (get nat_cmp places.now number) (λ j. j < length all.old) }
    ensures { OnOk result (AreFresh (length all.old) all.old → AreFresh (length all.old) all.new) }
{
    if is_untouched(outcome) {
        return Ok(());
    }
    match parent_of(places, visit) {
        Some(place) => all[place].ask(visit.from),
        None => Ok(()),
    }
}

// Where its parent stands among the visits with these places, if it has a request there that opened it.
fn parent_of(places: &BTreeMap<u64, usize>, visit: &Visit) -> Option<usize>
    ensures { result ≡ parent_place (get nat_cmp places.now) visit.now }
{
    if visit.from == 0 || visit.parent >= visit.number {
        return None;
    }
    places.get(&visit.parent).copied()
}

// Gives the visit there the outcome that it has behind those before it: K10 where its parent leads elsewhere.
fn settle(
    alloc: Global,
    finding: &Finding,
    visits: &[Visit],
    outcomes: &mut [Outcome],
    k: usize,
    places: &BTreeMap<u64, usize>,
    asked: &mut [Asked],
) -> Result<(), NoMemory>
    requires there { (k < length visits.now) × (k < length outcomes.old) × (k ≤ length asked.old) }
    requires within { (number : ℕ) → IfSome (get nat_cmp places.now number) (λ j. j < k) }
    requires known { AreKnown finding.now visits.now outcomes.old k asked.old }
    ensures known { OnOk result (AreKnown finding.now visits.now outcomes.new k asked.new) }
    ensures others { (j : ℕ) → j ≢ k → slice_get outcomes.new j ≡ slice_get outcomes.old j }
    ensures settled { OnOk result (IsBehind finding.now visits.now (get nat_cmp places.now) k outcomes.old outcomes.new) }
{
    if is_untouched(&outcomes[k]) {
        return Ok(());
    }
    if !is_elsewhere(alloc, finding, visits, outcomes, k, places, asked)? {
        return Ok(());
    }
    move_away(&mut outcomes[k]);
    Ok(())
}

fn is_untouched(outcome: &Outcome) -> bool
    ensures { result ≡ is_untouched outcome.now }
{
    match outcome {
        Outcome::Untouched => true,
        Outcome::Done { .. } | Outcome::Conflict { .. } => false,
    }
}

// K10.
fn move_away(outcome: &mut Outcome)
    ensures { outcome.new ≡ Outcome.Conflict [] 0 ConflictKind.Moved }
{
    *outcome = Outcome::Conflict {
        requests: Requests::none(),
        at: 0,
        kind: ConflictKind::Moved,
    };
}

// Whether the parent of the visit there leads elsewhere now.
fn is_elsewhere(
    alloc: Global,
    finding: &Finding,
    visits: &[Visit],
    outcomes: &[Outcome],
    k: usize,
    places: &BTreeMap<u64, usize>,
    asked: &mut [Asked],
) -> Result<bool, NoMemory>
    requires there { (k < length visits.now) × (k < length outcomes.now) × (k ≤ length asked.old) }
    requires within { (number : ℕ) → IfSome (get nat_cmp places.now number) (λ j. j < k) }
    requires known { AreKnown finding.now visits.now outcomes.now k asked.old }
    ensures known { OnOk result (AreKnown finding.now visits.now outcomes.now k asked.new) }
    ensures answer { IfOk result (TellsElsewhere finding.now visits.now outcomes.now (get nat_cmp places.now) k) }
{
    let visit = &visits[k];
    match parent_of(places, visit) {
        Some(place) => asked[place].tell(
            alloc,
            finding,
            &visits[place],
            &outcomes[place],
            visit.from,
        ),
        None => Ok(false),
    }
}
