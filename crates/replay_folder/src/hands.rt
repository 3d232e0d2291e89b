//! The lanes of a round are taken to their ends: on several processors by threads at once, else by the thread that calls. Whoever reads a file records what it
//! reads, which is at hand, so nothing is gained by another thread that records it.
ghost use Rattle.std.specs.Prelude.{◌≡◌, ◌≤◌, [], false, length, map, IfOk};
ghost use Rattle.std.specs.List.{All, AllByRecursion, AllZip};
ghost use Rattle.std.specs.Vec.{vec_capacity};
ghost use Rattle.lanes_in_turn.specs.Round.{AreRoundLanes};
ghost use Rattle.lanes_in_turn.specs.Taking.{IsFreshLane, never};
ghost use Rattle.upload_lanes.specs.Threads.{AreTaken, both_stops, read_ahead, recorders_of, stop_of};
ghost use Rattle.upload_lanes.specs.inside.Party.{IsFreshHand, TakeEach, TakesByOne};
ghost use Rattle.warp_server.specs.Rounds.{server_room};

use crate::at_once::take_at_once;
use byte_streams::Source;
use lanes_in_turn::{Asks, LaneResult, Stop, take_alone};
use page_tree::NoMemory;
use round_robin::{collect, deal};
use std::alloc::Global;
use std::sync::Wait;
use std::thread;
use std::thread::Threads;
use thread_heap::make_room;
use upload_reader::Client;

/// The most hands of a round.
const MAX_HANDS: usize = 4;

/// What is kept of so many items fills about a block of a thread's heap.
const HEAP_ITEMS: u64 = 160;

/// What was taken of a hand's lanes, and why that stopped.
#[derive(Drop)]
struct TakenHand<F: Source> {
    lanes: Vec<(Client, LaneResult<F>)>,
    stop: Stop,
}

/// Whether threads can run beside one another here.
pub(crate) fn has_processors(rt: &impl Threads) -> bool {
    match thread::available_parallelism(rt) {
        Ok(count) => count.get() > 1,
        Err(_) => true,
    }
}

/// Takes lanes of which nothing was taken to their ends, each unless memory is refused: by threads at once, or by the thread that calls.
pub(crate) fn take_to_ends<F: Source + Drop + Send, T: AllocGlobal + Threads + Wait + Sync>(
    rt: &T,
    at_once: bool,
    lanes: Vec<(Client, LaneResult<F>)>,
) -> Result<(Vec<(Client, LaneResult<F>)>, Stop), NoMemory>
    requires fresh { AllByRecursion IsFreshLane lanes.items }
    requires lanes { AreRoundLanes (length lanes.items) }
    ensures { IfOk result (λ taken.
        AreTaken never (read_ahead server_room (length lanes.items)) lanes.items taken.0.items taken.1) }
{
    if at_once {
        take_at_once(rt, lanes)
    } else {
        take_by_hands(rt, lanes)
    }
}

// By the thread that calls: dealt to a few hands, which it takes one behind another.
fn take_by_hands<F: Source + Drop, T: AllocGlobal + Wait>(
    rt: &T,
    lanes: Vec<(Client, LaneResult<F>)>,
) -> Result<(Vec<(Client, LaneResult<F>)>, Stop), NoMemory>
    requires fresh { AllByRecursion IsFreshLane lanes.items }
    requires lanes { AreRoundLanes (length lanes.items) }
    ensures { IfOk result (λ taken. AreTaken never 0 lanes.items taken.0.items taken.1) }
{
    let count = lanes.len();
    let back = Vec::with_capacity(rt.alloc(), count)?;
    let hands = deal(rt.alloc(), lanes, hands_of(count))?;
    let (taken, stop) = take_hands(rt, hands)?;
    Ok((collect(taken, back, count), stop))
}

fn hands_of(lanes: usize) -> usize
    ensures { result ≡ recorders_of lanes }
{
    if lanes < MAX_HANDS { lanes } else { MAX_HANDS }
}

// What was taken of all hands, and why that stopped.
fn take_hands<F: Source + Drop, T: AllocGlobal + Wait>(
    rt: &T,
    hands: Vec<Vec<(Client, LaneResult<F>)>>,
) -> Result<(Vec<Vec<(Client, LaneResult<F>)>>, Stop), NoMemory>
    requires fresh { All IsFreshHand hands.items }
    ensures { IfOk result (λ all. TakeEach (λ hand. TakesByOne never 0 hand.items) hands.items all.0.items all.1) }
{
    let back = Vec::with_capacity(rt.alloc(), hands.len())?;
    let taken = take_in_turn(rt, hands)?;
    Ok(all_taken(taken, back))
}

// One hand behind another.
fn take_in_turn<F: Source + Drop, T: AllocGlobal + Wait>(
    rt: &T,
    hands: Vec<Vec<(Client, LaneResult<F>)>>,
) -> Result<Vec<TakenHand<F>>, NoMemory>
    requires fresh { All IsFreshHand hands.items }
    ensures { IfOk result (λ taken.
        AllZip (λ hand one. TakesByOne never 0 hand.items one.lanes.items one.stop) hands.items taken.items) }
{
    let mut taken = Vec::with_capacity(rt.alloc(), hands.len())?;
    for hand in hands {
        taken.push_reserved(take_hand(rt.alloc(), rt, hand));
    }
    Ok(taken)
}

// One lane behind another. Where memory is refused at one, the others go on.
fn take_hand<F: Source + Drop, W: Wait>(
    alloc: Global,
    rt: &W,
    hand: Vec<(Client, LaneResult<F>)>,
) -> TakenHand<F>
    requires { AllByRecursion IsFreshLane hand.items }
    ensures { TakesByOne never 0 hand.items result.lanes.items result.stop }
{
    let halt = Asks {
        halt: &|items: u64| goes_on(alloc, items),
    };
    let mut lanes = hand;
    let mut stop = Stop::None;
    for k in 0..lanes.len() {
        stop = both_stops(stop, take_alone(rt, &mut lanes[k], &halt));
    }
    TakenHand { lanes, stop }
}

/// Behind so many items of a lane: it is never stopped, but there is room for more now and then.
pub(crate) fn goes_on(alloc: Global, items: u64) -> bool
    ensures { result ≡ false }
{
    if items.is_multiple_of(HEAP_ITEMS) {
        make_room(alloc);
    }
    false
}

fn all_taken<F: Source + Drop>(
    taken: Vec<TakenHand<F>>,
    back: Vec<Vec<(Client, LaneResult<F>)>>,
) -> (Vec<Vec<(Client, LaneResult<F>)>>, Stop)
    requires none { back.items ≡ [] }
    requires room { length taken.items ≤ vec_capacity back }
    ensures hands { result.0.items ≡ map (λ one. one.lanes) taken.items }
    ensures stop { result.1 ≡ stop_of (map (λ one. one.stop) taken.items) }
{
    let mut hands = back;
    let mut all = Stop::None;
    for one in taken {
        let TakenHand { lanes, stop } = one;
        hands.push_reserved(lanes);
        all = both_stops(all, stop);
    }
    (hands, all)
}

/// Why the taking stopped by these two.
pub(crate) fn both_stops(a: Stop, b: Stop) -> Stop
    ensures { result ≡ both_stops a b }
{
    match a {
        Stop::Memory => Stop::Memory,
        Stop::None => b,
        Stop::Asked => match b {
            Stop::Memory => Stop::Memory,
            Stop::None | Stop::Asked => Stop::Asked,
        },
    }
}
