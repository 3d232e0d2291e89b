//! The clients are dealt to as many threads as there are workers, and each thread follows the parents of its clients' visits: one client's do not hang on
//! another's.
ghost use Rattle.std.specs.Prelude.{◌≡◌, ◌<◌, length, map, IfOk, Ok};
ghost use Rattle.replay_workers.specs.inside.Clients.{visits_of_all, followed, follow_all};

use crate::by_client::{ClientPart, parts_of};
use client_log::Visit;
use round_robin::{collect, deal};
use std::alloc::{AllocError, Global};
use std::thread;
use std::thread::Threads;
use visit_replay::{Finding, Outcome};

/// To follow the parents of fewer visits takes less than to start threads for it.
const FEW_VISITS: usize = 4_096;

/// What each client's visits give behind their parents, by what all give by themselves: by so many threads, of which the one that calls is one, and by that one
/// alone where there are few visits, or only one client.
pub(crate) fn follow_each<R: Threads + Sync>(
    rt: &R,
    alloc: Global,
    workers: u32,
    finding: &Finding,
    clients: &[&[Visit]],
    own: Vec<Outcome>,
) -> Result<Vec<Vec<Outcome>>, AllocError>
    requires count { length own.items ≡ length (visits_of_all clients.now) }
    ensures { IfOk result (λ all. map (λ one. one.items) all.items ≡ follow_all finding.now clients.now own.items) }
{
    let threads = threads_of(workers, clients.len(), own.len());
    let parts = parts_of(alloc, clients, own)?;
    if threads < 2 {
        return follow_hand(alloc, finding, parts);
    }
    follow_at_once(rt, alloc, finding, parts, threads)
}

// By how many threads.
fn threads_of(workers: u32, clients: usize, visits: usize) -> usize {
    if visits < FEW_VISITS {
        return 1;
    }
    clients.min(workers as usize)
}

// What these clients' visits give, one client after another.
fn follow_hand(
    alloc: Global,
    finding: &Finding,
    hand: Vec<ClientPart<'_>>,
) -> Result<Vec<Vec<Outcome>>, AllocError>
    ensures { IfOk result (λ all. map (λ one. one.items) all.items ≡ map (followed finding.now) hand.entry.items) }
{
    let mut all = Vec::with_capacity(alloc, hand.len())?;
    for part in hand {
        all.push_reserved(part.follow(alloc, finding)?);
    }
    Ok(all)
}

// The same by so many threads.
fn follow_at_once<R: Threads + Sync>(
    rt: &R,
    alloc: Global,
    finding: &Finding,
    parts: Vec<ClientPart<'_>>,
    threads: usize,
) -> Result<Vec<Vec<Outcome>>, AllocError>
    requires { 0 < threads }
    ensures { IfOk result (λ all. map (λ one. one.items) all.items ≡ map (followed finding.now) parts.entry.items) }
{
    let count = parts.len();
    let room = Vec::with_capacity(alloc, count)?;
    let hands = deal(alloc, parts, threads)?;
    let all = follow_hands(rt, alloc, finding, hands)?;
    Ok(collect(all, room, count))
}

// What the clients' visits of each hand give, each by a thread of its own, of which the one that calls is one.
fn follow_hands<R: Threads + Sync>(
    rt: &R,
    alloc: Global,
    finding: &Finding,
    hands: Vec<Vec<ClientPart<'_>>>,
) -> Result<Vec<Vec<Vec<Outcome>>>, AllocError>
    ensures { IfOk result (λ all. map (λ hand. map (λ one. one.items) hand.items) all.items
        ≡ map (λ hand. map (followed finding.now) hand.items) hands.entry.items) }
{
    let answers = thread::map_vec(
        rt,
        hands,
        &|hand| -> Result<Vec<Vec<Outcome>>, AllocError>
            ensures { IfOk result (λ all. map (λ one. one.items) all.items
                ≡ map (followed finding.entry.now) hand.entry.items) }
        { follow_hand(alloc, finding, hand) },
    )?;
    all_given(alloc, answers)
}

// Those of all hands, unless memory was refused at one.
fn all_given(
    alloc: Global,
    answers: Vec<Result<Vec<Vec<Outcome>>, AllocError>>,
) -> Result<Vec<Vec<Vec<Outcome>>>, AllocError>
    ensures { IfOk result (λ all. map (λ hand. Ok hand) all.items ≡ answers.items) }
{
    let mut all = Vec::with_capacity(alloc, answers.len())?;
    for answer in answers {
        all.push_reserved(answer?);
    }
    Ok(all)
}
