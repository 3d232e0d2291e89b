//! Puts the administrator's decisions to the desk.
ghost use Rattle.std.specs.Prelude.{◌≡◌, ◌+◌, ◌≤◌, [], ◌∷◌, ◌++◌, length, IfOk, OnOk, OnErr};
ghost use Rattle.std.specs.Vec.{vec_capacity};
ghost use Rattle.conflict_desk.specs.Desk.{after_call, after_calls};
ghost use Rattle.warp_run.specs.Settle.{put_on, after_decisions};

use crate::listed::Listed;
use crate::repaired::{PutDecision, Repaired};
use conflict_desk::{Decision, Desk};
use page_tree::NoMemory;
use std::alloc::{AllocError, Global};
use std::mem;

/// Puts the decisions to the desk in their order, and keeps each with its answer. Where memory is refused nothing is changed, as no decision was put yet.
pub fn settle(
    alloc: Global,
    repaired: &mut Repaired,
    decisions: &[Decision],
) -> Result<(), NoMemory>
    ensures ok { OnOk result (repaired.new ≡ after_decisions decisions.now repaired.old) }
    ensures same { OnErr result (repaired.new ≡ repaired.old) }
{
    let copies = copies_of(alloc, decisions)?;
    let mut decided = mem::replace(&mut repaired.decided, Listed::new(alloc)).into_vec();
    match decided.reserve(copies.len()) {
        Err(_) => {
            repaired.decided = Listed::from(decided);
            Err(AllocError)
        }
        Ok(()) => {
            let decided = put_all(&mut repaired.desk, decided, copies);
            repaired.decided = Listed::from(decided);
            Ok(())
        }
    }
}

fn copies_of(alloc: Global, decisions: &[Decision]) -> Result<Vec<Decision>, NoMemory>
    ensures { IfOk result (λ copies. copies.items ≡ decisions.now) }
{
    let mut copies = Vec::new(alloc);
    for decision in decisions {
        copies.push(decision.copy()?)?;
    }
    Ok(copies)
}

// Puts these decisions, each of which is kept behind those that were put before. There is room for them.
fn put_all(desk: &mut Desk, decided: Vec<PutDecision>, decisions: Vec<Decision>) -> Vec<PutDecision>
    requires room { length decided.items + length decisions.items ≤ vec_capacity decided }
    ensures desk { desk.new ≡ after_calls desk.old decisions.items }
    ensures decided { result.items ≡ decided.items ++ put_on desk.old decisions.items }
{
    let mut decided = decided;
    for decision in decisions {
        decided.push_reserved(put(desk, decision));
    }
    decided
}

/// Puts a decision, and gives it with the desk's answer. It takes no memory.
pub fn put(desk: &mut Desk, decision: Decision) -> PutDecision
    ensures desk { desk.new ≡ after_call desk.old decision }
    ensures put { result ∷ [] ≡ put_on desk.old (decision ∷ []) }
{
    let answer = desk.decide(&decision.client, decision.visit, decision.choice);
    PutDecision { decision, answer }
}
