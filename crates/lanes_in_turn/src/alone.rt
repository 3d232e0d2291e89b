//! A lane alone, on the thread that calls.
ghost use Rattle.std.specs.Prelude.{ℕ, ◌≡◌, ◌+◌, ◌≤◌, [], ◌∷◌, ◌<◌, IfOk};
ghost use Rattle.indexmap.specs.IndexMap.{spare};
ghost use Rattle.upload_reader.specs.Limits.{max_messages};
ghost use Rattle.upload_reader.specs.Upload.{IsUntouched};
ghost use Rattle.lanes_in_turn.specs.Taking.{refused_by, IsGatheredAlone, Stops, IsFreshLane, TakesLane};

use crate::gathered::{Gathered, LaneResult, Stop};
use crate::halt::{Halt, Never};
use crate::round::{new_lane, put_one};
use byte_streams::Source;
use client_log::{ClientLog, Quota};
use indexmap::IndexMap;
use page_tree::NoMemory;
use std::sync::Wait;
use upload_reader::{Client, Session, Upload};

/// Takes one upload to its end, in a first round: reads a message and records it, then the next. Where a message can't be recorded it stops there.
pub fn gather_alone<R: Source + Drop, T: AllocGlobal + Wait>(
    rt: &T,
    upload: Upload<R>,
    quota: Quota,
) -> Result<Gathered<R>, NoMemory>
    requires untouched { IsUntouched upload }
    ensures { IfOk result (IsGatheredAlone upload quota) }
{
    let mut clients = IndexMap::new(rt.alloc());
    clients.reserve(1)?;
    let client = upload.client().copy()?;
    let log = ClientLog::new(rt.alloc(), client.copy()?, quota);
    let mut lane = (
        client,
        new_lane(log, upload.resume(Session::new(rt.alloc()))),
    );
    let stop = take_alone(rt, &mut lane, &Never);
    put_one(&mut clients, lane.0, lane.1);
    Ok(Gathered { clients, stop })
}

/// Takes a lane, message by message, until it has ended, the question is answered by true, or memory is refused. The question is asked before each item, with how many were taken.
pub fn take_alone<H: Halt, R: Source + Drop, W: Wait>(
    rt: &W,
    lane: &mut (Client, LaneResult<R>),
    halt: &H,
) -> Stop
    requires fresh { IsFreshLane lane.old }
    requires halt { (n : ℕ) → n ≤ max_messages + 1 → H.may halt.now n }
    ensures taken { TakesLane (refused_by result) lane.old lane.new }
    ensures stops { Stops (H.allows halt.now) (lane.new ∷ []) result }
{
    let mut items = 0;
    for _ in rt.forever() {
        if lane.1.end.is_some() {
            return Stop::None;
        }
        if halt.ask(items) {
            return Stop::Asked;
        }
        if lane.1.take_next().is_err() {
            return Stop::Memory;
        }
        items += 1;
    }
    unreachable!()
}
