//! How a round begins and ends, whatever takes its lanes.
ghost use Rattle.std.specs.Prelude.{◌≡◌, ◌≤◌, length, bytes_eq, IfOk, IfErr};
ghost use Rattle.std.specs.List.{AllByRecursion};
ghost use Rattle.indexmap.specs.IndexMap.{spare, insert_all};
ghost use Rattle.upload_reader.specs.Upload.{IsUntouched};
ghost use Rattle.lanes_in_turn.specs.Round.{RefusesRound, without_lanes};
ghost use Rattle.lanes_in_turn.specs.Taking.{IsBegunRound, IsFreshLane};

use crate::checks::check_round;
use crate::fault::RefusedRound;
use crate::gathered::{Gathered, LaneResult, Stop};
use crate::round::{begin_lanes, put_back, rest_all};
use byte_streams::Source;
use client_log::Quota;
use std::alloc::Global;
use upload_reader::{Client, Upload};

/// A round whose lanes are to be taken.
#[derive(Drop)]
pub struct BegunRound<R: Source> {
    /// What was gathered before, with room for the clients of this round.
    pub earlier: Gathered<R>,
    /// Each client with its lane, of which nothing was taken.
    pub lanes: Vec<(Client, LaneResult<R>)>,
}

/// Begins a round behind what was gathered earlier, of 1 to `MAX_ROUND_LANES` lanes, each of a client of its own. A client that is known goes on behind
/// its log and the session of that, with its own quota; a new one begins with this quota. Where there is no round, what was gathered before comes back, and the
/// uploads too where memory isn't why.
pub fn begin_round<R: Source + Drop>(
    alloc: Global,
    earlier: Gathered<R>,
    uploads: Vec<Upload<R>>,
    quota: Quota,
) -> Result<BegunRound<R>, RefusedRound<R>>
    requires untouched { AllByRecursion IsUntouched uploads.items }
    ensures begun { IfOk result (IsBegunRound earlier uploads.items quota) }
    ensures fresh { IfOk result (λ round. AllByRecursion IsFreshLane round.lanes.items) }
    ensures refused { IfErr result (RefusesRound earlier uploads.items) }
{
    if let Err(fault) = check_round(uploads.as_slice()) {
        return Err(RefusedRound {
            fault,
            earlier,
            uploads,
        });
    }
    let mut earlier = earlier;
    match begin_lanes(alloc, &mut earlier.clients, uploads, quota) {
        Err(_) => Err(RefusedRound::no_memory(alloc, earlier)),
        Ok(lanes) => Ok(BegunRound { earlier, lanes }),
    }
}

/// What was gathered, where this was taken of a round's lanes and it stopped so. Known clients stand first, in their order. One without a lane keeps its log.
pub fn end_round<R: Source + Drop>(
    earlier: Gathered<R>,
    lanes: Vec<(Client, LaneResult<R>)>,
    stop: Stop,
) -> Gathered<R>
    requires room { length lanes.items ≤ spare earlier.clients }
    ensures clients { result.clients.entries ≡ insert_all bytes_eq (without_lanes earlier.clients.entries) lanes.items }
    ensures stop { result.stop ≡ stop }
{
    let mut earlier = earlier;
    rest_all(&mut earlier.clients);
    put_back(&mut earlier.clients, lanes);
    earlier.stop = stop;
    earlier
}
