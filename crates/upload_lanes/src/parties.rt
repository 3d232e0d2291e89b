//! The parties of all recorders of a round.
ghost use Rattle.std.specs.Prelude.{ℕ, ◌≡◌, ◌+◌, ◌≤◌, [], length, IfOk};
ghost use Rattle.std.specs.List.{AllByRecursion};
ghost use Rattle.std.specs.Vec.{vec_capacity};
ghost use Rattle.lane_queue.specs.Limits.{max_items};
ghost use Rattle.upload_lanes.specs.Threads.{both_stops};
ghost use Rattle.upload_lanes.specs.inside.Party.{IsFreshHand, TakeEach, TakesParty};
ghost use Rattle.upload_lanes.specs.inside.Party.{IsRunning, TakesByOne};

use crate::gate::Gate;
use crate::party::{Party, end_party, join_party, start_party};
use byte_streams::Source;
use lane_queue::Room;
use lanes_in_turn::{Halt, LaneResult, Stop};
use std::alloc::{AllocError, Global};
use std::sync::Wait;
use std::thread;
use std::thread::{Scope, Threads};
use upload_reader::Client;

/// Takes each hand of lanes by a party of its own, side by side.
pub(crate) fn take_hands<H: Halt, R: Source + Drop + Send, T: Threads + Wait + Sync>(
    rt: &T,
    alloc: Global,
    hands: Vec<Vec<(Client, LaneResult<R>)>>,
    room: Room,
    halt: &H,
) -> Result<(Vec<Vec<(Client, LaneResult<R>)>>, Stop), AllocError>
    requires fresh { AllByRecursion IsFreshHand hands.items }
    requires halt { (n : ℕ) → n ≤ max_items → H.may halt.now n }
    ensures { IfOk result (λ all.
        TakeEach (λ hand. TakesByOne (H.allows halt.now) (room + 1) hand.items) hands.items all.0.items all.1) }
{
    let gate = &Gate::new();
    thread::scope(
        thread::scope_env(),
        rt,
        move |scope| -> Result<(Vec<Vec<(Client, LaneResult<R>)>>, Stop), AllocError>
            requires { AllByRecursion IsFreshHand hands.items × ((n : ℕ) → n ≤ max_items → H.may halt.now n) }
            ensures { IfOk result (λ all.
                TakeEach (λ hand. TakesByOne (H.allows halt.entry.now) (room + 1) hand.items) hands.items all.0.items all.1) }
        { run_parties(scope, rt, alloc, hands, room, gate, halt) },
    )
}

// Starts all parties, opens the gate, and joins them. Where one can't be started, the gate is shut, and all end at once.
fn run_parties<'s, E, H: Halt + 's, R: Source + Drop + Send + 's, T: Threads + Wait + Sync>(
    scope: &Scope<'s, E>,
    rt: &'s T,
    alloc: Global,
    hands: Vec<Vec<(Client, LaneResult<R>)>>,
    room: Room,
    gate: &'s Gate,
    halt: &'s H,
) -> Result<(Vec<Vec<(Client, LaneResult<R>)>>, Stop), AllocError>
    requires fresh { AllByRecursion IsFreshHand hands.items }
    requires halt { (n : ℕ) → n ≤ max_items → H.may halt.now n }
    ensures { IfOk result (λ all.
        TakeEach (λ hand. TakesByOne (H.allows halt.now) (room + 1) hand.items) hands.items all.0.items all.1) }
{
    let taken = Vec::with_capacity(alloc, hands.len())?;
    let mut parties = Vec::with_capacity(alloc, hands.len())?;
    for hand in hands {
        match start_party(scope, rt, alloc, hand, room, gate, halt) {
            Ok(party) => parties.push_reserved(party),
            Err(refused) => {
                gate.shut(rt);
                end_parties(rt, parties);
                return Err(refused);
            }
        }
    }
    gate.open(rt);
    Ok(join_parties(rt, parties, taken))
}

fn end_parties<H: Halt, R: Source + Drop, T: Threads + Wait>(rt: &T, parties: Vec<Party<H, R>>)
    requires { AllByRecursion IsRunning parties.items }
{
    for party in parties {
        end_party(rt, party);
    }
}

// What was taken of each hand, and why the taking stopped.
fn join_parties<H: Halt, R: Source + Drop, T: Threads + Wait>(
    rt: &T,
    parties: Vec<Party<H, R>>,
    taken: Vec<Vec<(Client, LaneResult<R>)>>,
) -> (Vec<Vec<(Client, LaneResult<R>)>>, Stop)
    requires running { AllByRecursion IsRunning parties.items }
    requires none { taken.items ≡ [] }
    requires room { length parties.items ≤ vec_capacity taken }
    ensures { TakeEach (TakesParty H.allows) parties.items result.0.items result.1 }
{
    let mut taken = taken;
    let mut all = Stop::None;
    for party in parties {
        let (lanes, stop) = join_party(rt, party);
        taken.push_reserved(lanes);
        all = both_stops(all, stop);
    }
    (taken, all)
}

// Why the taking stopped by these two.
fn both_stops(a: Stop, b: Stop) -> Stop
    ensures { result ≡ both_stops a b }
{
    match a {
        Stop::Memory => Stop::Memory,
        Stop::None => b,
        Stop::Asked => match b {
            Stop::Memory => Stop::Memory,
            Stop::None | Stop::Asked => Stop::Asked,
        },
    }
}
