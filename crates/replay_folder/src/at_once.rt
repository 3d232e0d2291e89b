//! The lanes of a round by threads at once. Each draws a lane, takes it to its end, and draws the next, till none is left. There are more threads than processors:
//! where one has to wait for its processor, the others take more.
ghost use Rattle.std.specs.Prelude.{◌≡◌, ◌≤◌, [], length, map, IfOk};
ghost use Rattle.std.specs.List.{AllByRecursion};
ghost use Rattle.std.specs.Vec.{vec_capacity};
ghost use Rattle.lanes_in_turn.specs.Round.{AreRoundLanes};
ghost use Rattle.lanes_in_turn.specs.Taking.{IsFreshLane, never};
ghost use Rattle.upload_lanes.specs.Threads.{AreTaken, stop_of};
ghost use Rattle.replay_folder.specs.inside.AtOnce.{IsTakenOf};

use crate::hands::{both_stops, goes_on};
use byte_streams::Source;
use lanes_in_turn::{Asks, LaneResult, Stop, take_alone};
use page_tree::NoMemory;
use shared_stock::map_drawn;
use std::alloc::Global;
use std::sync::Wait;
use std::thread::Threads;
use upload_reader::Client;

/// The most threads of a round, the one that calls among them.
const MAX_THREADS: usize = 8;

/// What was taken of a lane, and why that stopped.
#[derive(Drop)]
pub(crate) struct TakenLane<F: Source> {
    pub(crate) lane: (Client, LaneResult<F>),
    pub(crate) stop: Stop,
}

/// Takes each of these lanes, of which nothing was taken, to its end, unless memory is refused.
pub(crate) fn take_at_once<F: Source + Drop + Send, T: AllocGlobal + Threads + Wait + Sync>(
    rt: &T,
    lanes: Vec<(Client, LaneResult<F>)>,
) -> Result<(Vec<(Client, LaneResult<F>)>, Stop), NoMemory>
    requires fresh { AllByRecursion IsFreshLane lanes.items }
    requires lanes { AreRoundLanes (length lanes.items) }
    ensures { IfOk result (λ taken. AreTaken never 0 lanes.items taken.0.items taken.1) }
{
    let back = Vec::with_capacity(rt.alloc(), lanes.len())?;
    let taken = map_drawn(
        rt,
        rt.alloc(),
        MAX_THREADS,
        lanes,
        &|lane| -> TakenLane<F>
            requires { IsFreshLane lane }
            ensures { IsTakenOf lane result }
        { take_lane(rt.alloc(), rt, lane) },
    )?;
    Ok(unpacked(taken, back))
}

/// One lane, to its end.
pub(crate) fn take_lane<F: Source + Drop, W: Wait>(
    alloc: Global,
    rt: &W,
    lane: (Client, LaneResult<F>),
) -> TakenLane<F>
    requires { IsFreshLane lane }
    ensures { IsTakenOf lane result }
{
    let halt = Asks {
        halt: &|items: u64| goes_on(alloc, items),
    };
    let mut lane = lane;
    let stop = take_alone(rt, &mut lane, &halt);
    TakenLane { lane, stop }
}

// The lanes, and why their taking stopped.
fn unpacked<F: Source + Drop>(
    taken: Vec<TakenLane<F>>,
    back: Vec<(Client, LaneResult<F>)>,
) -> (Vec<(Client, LaneResult<F>)>, Stop)
    requires none { back.items ≡ [] }
    requires room { length taken.items ≤ vec_capacity back }
    ensures lanes { result.0.items ≡ map (λ one. one.lane) taken.items }
    ensures stop { result.1 ≡ stop_of (map (λ one. one.stop) taken.items) }
{
    let mut lanes = back;
    let mut all = Stop::None;
    for one in taken {
        let TakenLane { lane, stop } = one;
        lanes.push_reserved(lane);
        all = both_stops(all, stop);
    }
    (lanes, all)
}
