//! A round of one lane.
ghost use Rattle.std.specs.Prelude.{ℕ, ◌≡◌, ◌≤◌, length};
ghost use Rattle.std.specs.List.{AllByRecursion};
ghost use Rattle.lane_queue.specs.Limits.{max_items};
ghost use Rattle.lanes_in_turn.specs.Taking.{IsFreshLane};
ghost use Rattle.upload_lanes.specs.Threads.{AreTaken};

use byte_streams::Source;
use lanes_in_turn::{Halt, LaneResult, Stop, take_alone};
use std::sync::Wait;
use upload_reader::Client;

/// Takes the only lane of a round on this thread: reads a message and records it, then the next. Recording is a small part of that, and to hand each message
/// to another thread would cost more.
pub(crate) fn take_only<H: Halt, R: Source + Drop, W: Wait>(
    rt: &W,
    lanes: Vec<(Client, LaneResult<R>)>,
    halt: &H,
) -> (Vec<(Client, LaneResult<R>)>, Stop)
    requires fresh { AllByRecursion IsFreshLane lanes.items }
    requires one { length lanes.items ≡ 1 }
    requires halt { (n : ℕ) → n ≤ max_items → H.may halt.now n }
    ensures { AreTaken (H.allows halt.now) 0 lanes.items result.0.items result.1 }
{
    let mut lanes = lanes;
    let stop = take_alone(rt, &mut lanes[0], halt);
    (lanes, stop)
}
