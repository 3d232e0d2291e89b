//! Lanes on one thread, in turn.
ghost use Rattle.std.specs.Prelude.{◌<◌, length, IfOk, IfErr, OnOk, OnErr};
ghost use Rattle.std.specs.List.{AllByRecursion};
ghost use Rattle.upload_reader.specs.Upload.{IsUntouched};
ghost use Rattle.lanes_in_turn.specs.Round.{GathersInTurn, IsFirst, IsNoRound, RefusesRound};
ghost use Rattle.lanes_in_turn.specs.inside.{one_more, only, HaveFewTaken, AreTogether, AskLanes, FollowsSchedule};

use crate::fault::{GatherFault, RefusedRound};
use crate::gathered::{Gathered, LaneResult, Stop};
use crate::lane::have_ended;
use crate::rounds::{BegunRound, begin_round, end_round};
use byte_streams::Source;
use client_log::Quota;
use page_tree::NoMemory;
use std::alloc::Global;
use upload_reader::{Client, Upload};

/// Takes messages of 1 to `MAX_ROUND_LANES` lanes in turn, each of a client of its own: the next of lane 0 for an entry 0, and so on. An entry for a
/// lane that has an end, or that isn't there, does nothing. A message that can't be recorded for want of memory stops it.
pub fn gather_in_order<R: Source + Drop>(
    alloc: Global,
    uploads: Vec<Upload<R>>,
    quota: Quota,
    schedule: &[u32],
) -> Result<Gathered<R>, GatherFault>
    requires untouched { AllByRecursion IsUntouched uploads.items }
    ensures ok { IfOk result (λ gathered.
        IsFirst (λ earlier. GathersInTurn earlier uploads.items quota schedule.now gathered)) }
    ensures refused { IfErr result (IsNoRound uploads.items) }
{
    match gather_again_in_order(alloc, Gathered::new(alloc), uploads, quota, schedule) {
        Ok(gathered) => Ok(gathered),
        Err(again) => Err(again.fault),
    }
}

/// A later round, as `begin_round` and `end_round` say.
pub fn gather_again_in_order<R: Source + Drop>(
    alloc: Global,
    earlier: Gathered<R>,
    uploads: Vec<Upload<R>>,
    quota: Quota,
    schedule: &[u32],
) -> Result<Gathered<R>, RefusedRound<R>>
    requires untouched { AllByRecursion IsUntouched uploads.items }
    ensures ok { IfOk result (λ gathered. GathersInTurn earlier uploads.items quota schedule.now gathered) }
    ensures refused { IfErr result (RefusesRound earlier uploads.items) }
{
    let BegunRound { earlier, mut lanes } = begin_round(alloc, earlier, uploads, quota)?;
    let stop = take_all(lanes.as_mut_slice(), schedule);
    Ok(end_round(earlier, lanes, stop))
}

// Each entry takes the next of its lane.
fn take_all<R: Source + Drop>(lanes: &mut [(Client, LaneResult<R>)], schedule: &[u32]) -> Stop
    requires few { HaveFewTaken lanes.old }
    requires together { AreTogether lanes.old }
    ensures { FollowsSchedule schedule.now lanes.old lanes.new result }
{
    for k in schedule {
        if take_at(lanes, *k as usize).is_err() {
            return Stop::Memory;
        }
    }
    if have_ended(lanes) {
        Stop::None
    } else {
        Stop::Asked
    }
}

fn take_at<R: Source + Drop>(
    lanes: &mut [(Client, LaneResult<R>)],
    k: usize,
) -> Result<(), NoMemory>
    requires few { HaveFewTaken lanes.old }
    requires together { AreTogether lanes.old }
    ensures few { HaveFewTaken lanes.new }
    ensures together { OnOk result (AreTogether lanes.new) }
    ensures goes { OnOk result (AskLanes (one_more k) (λ _. 0) lanes.old lanes.new) }
    ensures refused { OnErr result (AskLanes (λ asked. asked) (only k) lanes.old lanes.new) }
    ensures there { OnErr result (k < length lanes.new) }
{
    if k >= lanes.len() {
        return Ok(());
    }
    lanes[k].1.take_next()
}
