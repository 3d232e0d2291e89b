//! Lanes on threads: an uploader for each, and up to four recorders.
ghost use Rattle.std.specs.Prelude.{ℕ, ◌≡◌, ◌+◌, ◌≤◌, length, IfOk, IfErr};
ghost use Rattle.std.specs.List.{AllByRecursion};
ghost use Rattle.lane_queue.specs.Limits.{max_items};
ghost use Rattle.upload_reader.specs.Upload.{IsUntouched};
ghost use Rattle.lanes_in_turn.specs.Round.{AreRoundLanes, IsNoRound, RefusesRound};
ghost use Rattle.upload_lanes.specs.Threads.{recorders_of, read_ahead, Gathers, GathersFirst, AreTaken};
ghost use Rattle.lanes_in_turn.specs.Taking.{IsFreshLane};

use crate::alone::take_only;
use crate::parties::take_hands;
use byte_streams::Source;
use client_log::Quota;
use lane_queue::Room;
use lanes_in_turn::{
    Asks, BegunRound, GatherFault, Gathered, Halt, LaneResult, RefusedRound, Stop, begin_round,
    end_round,
};
use round_robin::{collect, deal};
use std::alloc::{AllocError, Global};
use std::sync::Wait;
use std::thread::Threads;
use upload_reader::{Client, Upload};

/// The most recorders: taking a message costs less than reading it, so more would only wait.
const MAX_RECORDERS: usize = 4;

/// Takes messages of 1 to `MAX_ROUND_LANES` lanes, each of a client of its own: an uploader for each lane reads it on a thread of its own, and up to four
/// recorders record what the uploaders put, each from a queue. Lane k is one of recorder k modulo their number. A message is put without a wait for another.
///
/// Of an upload no more messages are given than were recorded, the room says, and one; and one that couldn't be recorded for want of memory. A lane alone is
/// taken on the thread that calls, without a queue, as `take_alone` does: of it none but such a one.
///
/// A recorder asks, before it takes an item, whether to stop, with the number of items that it has taken: the messages and the ends of its lanes. It stops
/// where that is answered by true, where each of its lanes has ended, and where a message can't be recorded for want of memory. The others go on.
pub fn gather<
    H: Fn(u64) -> bool + Sync,
    R: Source + Drop + Send,
    T: AllocGlobal + Threads + Wait + Sync,
>(
    rt: &T,
    uploads: Vec<Upload<R>>,
    quota: Quota,
    room: Room,
    halt: &H,
) -> Result<Gathered<R>, GatherFault>
    requires untouched { AllByRecursion IsUntouched uploads.items }
    requires halt { (n : ℕ) → n ≤ max_items → H.pre halt.now n }
    ensures ok { IfOk result (GathersFirst (H.post halt.now) room uploads.items quota) }
    ensures refused { IfErr result (IsNoRound uploads.items) }
{
    match gather_again(rt, Gathered::new(rt.alloc()), uploads, quota, room, halt) {
        Ok(gathered) => Ok(gathered),
        Err(again) => Err(again.fault),
    }
}

/// A later round, as `begin_round` and `end_round` of `lanes_in_turn` say.
pub fn gather_again<
    H: Fn(u64) -> bool + Sync,
    R: Source + Drop + Send,
    T: AllocGlobal + Threads + Wait + Sync,
>(
    rt: &T,
    earlier: Gathered<R>,
    uploads: Vec<Upload<R>>,
    quota: Quota,
    room: Room,
    halt: &H,
) -> Result<Gathered<R>, RefusedRound<R>>
    requires untouched { AllByRecursion IsUntouched uploads.items }
    requires halt { (n : ℕ) → n ≤ max_items → H.pre halt.now n }
    ensures ok { IfOk result (λ gathered. Gathers (H.post halt.now) room earlier uploads.items quota gathered) }
    ensures refused { IfErr result (RefusesRound earlier uploads.items) }
{
    let BegunRound { earlier, lanes } = begin_round(rt.alloc(), earlier, uploads, quota)?;
    match take_lanes(rt, rt.alloc(), lanes, room, &Asks { halt }) {
        Err(_) => Err(RefusedRound::no_memory(rt.alloc(), earlier)),
        Ok((lanes, stop)) => Ok(end_round(earlier, lanes, stop)),
    }
}

/// Takes the lanes of a round, of which nothing was taken, side by side where there are more than one. They are moved, with their logs: where memory, or the
/// start of a thread, is refused before the first message was taken, they are gone.
pub fn take_lanes<H: Halt, R: Source + Drop + Send, T: Threads + Wait + Sync>(
    rt: &T,
    alloc: Global,
    lanes: Vec<(Client, LaneResult<R>)>,
    room: Room,
    halt: &H,
) -> Result<(Vec<(Client, LaneResult<R>)>, Stop), AllocError>
    requires fresh { AllByRecursion IsFreshLane lanes.items }
    requires lanes { AreRoundLanes (length lanes.items) }
    requires halt { (n : ℕ) → n ≤ max_items → H.may halt.now n }
    ensures { IfOk result (λ taken.
        AreTaken (H.allows halt.now) (read_ahead room (length lanes.items)) lanes.items taken.0.items taken.1) }
{
    if lanes.len() == 1 {
        return Ok(take_only(rt, lanes, halt));
    }
    let count = lanes.len();
    let back = Vec::with_capacity(alloc, count)?;
    let hands = deal(alloc, lanes, recorders_of(count))?;
    let (taken, stop) = take_hands(rt, alloc, hands, room, halt)?;
    Ok((collect(taken, back, count), stop))
}

fn recorders_of(lanes: usize) -> usize
    ensures { result ≡ recorders_of lanes }
{
    if lanes < MAX_RECORDERS {
        lanes
    } else {
        MAX_RECORDERS
    }
}
