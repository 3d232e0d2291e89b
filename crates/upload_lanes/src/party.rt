//! A recorder and the uploaders of its lanes: they are started, they run, and their join gives what was taken of the lanes.
ghost use Rattle.std.specs.Prelude.{◌≡◌, ◌+◌, ◌<◌, ◌≤◌, List, ℕ, length, map, set, slice_get, Some, IfOk};
ghost use Rattle.std.specs.Arc.{arc_value};
ghost use Rattle.std.specs.List.{AllByRecursion};
ghost use Rattle.crossbeam_queue.specs.Passes.{view};
ghost use Rattle.lane_queue.specs.Items.{of_lane};
ghost use Rattle.lane_queue.specs.Limits.{AreLanes, max_items};
ghost use Rattle.lane_queue.specs.Queue.{IsPassOf};
ghost use Rattle.lanes_in_turn.specs.Taking.{IsFreshLane};
ghost use Rattle.upload_lanes.specs.inside.Party.{IsFreshHand};
ghost use Rattle.upload_lanes.specs.inside.Party.{TellsParcels, AreEnds, AreUploads, AreSending, AreJoined, IsRunning, RunsBy, TakesByOne, with_upload, without_upload};
ghost use Rattle.lanes_in_turn.specs.declared.gathered.LaneResult.{LaneResult};

use crate::gate::Gate;
use crate::packing::Packing;
use crate::recorder::{Duty, HandedBack, Records, start_record};
use crate::sent::{Parcel, Sent};
use crate::uploader::{Uploaded, Uploads, start_upload};
use byte_streams::Source;
use lane_queue::{LaneQueue, Putter, Room, Taker, reckon};
use lanes_in_turn::{Halt, LaneResult, Stop};
use std::alloc::{AllocError, Global};
use std::snapshot::Snapshot;
use std::sync::{Arc, Wait};
use std::thread::{PromisedHandle, Scope, Threads};
use upload_reader::{Client, Ending, Upload};

/// The threads of a recorder and of its lanes' uploaders.
#[derive(Drop)]
pub(crate) struct Party<H: Halt, R: Source> {
    fresh: Snapshot<Vec<(Client, LaneResult<R>)>>,
    queue: Arc<LaneQueue<Parcel>>,
    room: Room,
    size: usize,
    recorder: PromisedHandle<HandedBack<R>, Records<H, R>>,
    uploads: Vec<PromisedHandle<Uploaded<R>, Uploads<R>>>,
}

/// Lanes without their uploads, and the uploaders of these.
#[derive(Drop)]
struct Sending<R: Source> {
    lanes: Vec<(Client, LaneResult<R>)>,
    uploads: Vec<PromisedHandle<Uploaded<R>, Uploads<R>>>,
}

/// Starts the threads of these lanes. The uploaders wait at the gate. Where one can't be started, those before it find the gate shut.
pub(crate) fn start_party<'s, E, H: Halt + 's, R: Source + Drop + Send + 's, W: Wait + Sync>(
    scope: &Scope<'s, E>,
    rt: &'s W,
    alloc: Global,
    lanes: Vec<(Client, LaneResult<R>)>,
    room: Room,
    gate: &'s Gate,
    halt: &'s H,
) -> Result<Party<H, R>, AllocError>
    requires fresh { IsFreshHand lanes }
    requires halt { (n : ℕ) → n ≤ max_items → H.may halt.now n }
    ensures fresh { IfOk result (λ party. party.fresh.value ≡ lanes) }
    ensures runs { IfOk result (RunsBy halt.now room) }
{
    let fresh = Snapshot::of(&lanes);
    let Packing { size, places } = Packing::of(room);
    match LaneQueue::open(alloc, lanes.len() as u32, places) {
        Err(_) => Err(AllocError),
        Ok((queue, taker, putters)) => {
            let queue = Arc::new(alloc, queue)?;
            let Sending { lanes, uploads } = start_uploads(
                scope, rt, alloc, &queue, gate, putters, lanes, size,
            )?;
            let recorder = start_record(scope, rt, queue.clone()?, Duty { taker, lanes }, halt)?;
            Ok(Party {
                fresh,
                queue,
                room,
                size,
                recorder,
                uploads,
            })
        }
    }
}

// Starts an uploader for each lane, at its own end of the queue.
fn start_uploads<'s, E, R: Source + Drop + Send + 's, W: Wait + Sync>(
    scope: &Scope<'s, E>,
    rt: &'s W,
    alloc: Global,
    queue: &Arc<LaneQueue<Parcel>>,
    gate: &'s Gate,
    putters: Vec<Putter<Parcel>>,
    lanes: Vec<(Client, LaneResult<R>)>,
    size: usize,
) -> Result<Sending<R>, AllocError>
    requires ends { AreEnds (arc_value queue.now) putters.items }
    requires count { length putters.items ≡ length lanes.items }
    requires fresh { AllByRecursion IsFreshLane lanes.items }
    requires size { 1 ≤ size }
    ensures lanes { IfOk result (λ sending. sending.lanes.items ≡ map without_upload lanes.items) }
    ensures sending { IfOk result (λ sending.
        AreSending (arc_value queue.now) size lanes.items (map (λ handle. handle.promise) sending.uploads.items)) }
{
    let mut uploads = Vec::with_capacity(alloc, lanes.len())?;
    let mut rest = Vec::with_capacity(alloc, lanes.len())?;
    let mut putters = putters.into_iter();
    for (client, lane) in lanes {
        let LaneResult {
            log,
            taken,
            end,
            upload,
        } = lane;
        let putter = putters.next().unwrap();
        uploads.push_reserved(start_upload(
            scope,
            rt,
            queue.clone()?,
            gate,
            putter,
            upload.unwrap(),
            size,
        )?);
        let lane = LaneResult {
            log,
            taken,
            end,
            upload: None,
        };
        rest.push_reserved((client, lane));
    }
    Ok(Sending {
        lanes: rest,
        uploads,
    })
}

/// Joins them, the recorder first: what was taken of the lanes, and why the recorder stopped.
pub(crate) fn join_party<H: Halt, R: Source + Drop, T: Threads + Wait>(
    rt: &T,
    party: Party<H, R>,
) -> (Vec<(Client, LaneResult<R>)>, Stop)
    requires { IsRunning party }
    ensures { TakesByOne (H.allows party.recorder.promise.halt.value) (party.room + 1)
        party.fresh.value.items result.0.items result.1 }
{
    let Party {
        fresh: _,
        queue,
        room: _,
        size: _,
        recorder,
        uploads,
    } = party;
    let HandedBack {
        mut taker,
        mut lanes,
        stop,
        items: _,
    } = recorder.join(rt);
    join_uploads(rt, &queue, &mut taker, lanes.as_mut_slice(), uploads);
    (lanes, stop)
}

/// Ends the lanes of uploaders that found the gate shut, so that their recorder ends; the scope waits for it.
pub(crate) fn end_party<H: Halt, R: Source + Drop, T: Threads + Wait>(rt: &T, party: Party<H, R>)
    requires { IsRunning party }
{
    let Party {
        fresh: _,
        queue,
        room: _,
        size: _,
        recorder: _recorder,
        uploads,
    } = party;
    for handle in uploads {
        let Uploaded { upload, mut putter } = handle.join(rt);
        let end = Parcel::of(upload.allocator(), Sent::Last(Ending::GaveUp));
        let _ended = putter.finish(rt, &queue, end);
    }
}

// Joins the uploaders of these lanes, and gives each lane its upload.
fn join_uploads<R: Source + Drop, T: Threads + Wait>(
    rt: &T,
    queue: &LaneQueue<Parcel>,
    taker: &mut Taker<Parcel>,
    lanes: &mut [(Client, LaneResult<R>)],
    handles: Vec<PromisedHandle<Uploaded<R>, Uploads<R>>>,
)
    requires of { IsPassOf queue.now taker.old }
    requires uploads { AreUploads queue.now (map (λ handle. handle.promise) handles.items) }
    requires count { length handles.items ≡ length lanes.old }
    ensures joined { AreJoined queue.now.room (map (λ handle. handle.promise) handles.items) (view taker.old).got
        lanes.old lanes.new }
{
    let mut handles = handles;
    while let Some(handle) = handles.pop() {
        let upload = join_upload(rt, queue, taker, handle);
        put_upload(lanes, handles.len(), upload);
    }
}

fn join_upload<R: Source + Drop, T: Threads + Wait>(
    rt: &T,
    queue: &LaneQueue<Parcel>,
    taker: &mut Taker<Parcel>,
    handle: PromisedHandle<Uploaded<R>, Uploads<R>>,
) -> Upload<R>
    requires of { IsPassOf queue.now taker.old }
    requires same { handle.promise.queue.value ≡ queue.now }
    ensures of { IsPassOf queue.now taker.new }
    ensures got { (view taker.new).got ≡ (view taker.old).got }
    ensures told { TellsParcels queue.now.room handle.promise result
        (of_lane (view handle.promise.putter.value).lane (view taker.old).got) }
{
    let Uploaded { upload, putter } = handle.join(rt);
    let _left = reckon(rt, queue, taker, putter);
    upload
}

fn put_upload<R: Source + Drop>(lanes: &mut [(Client, LaneResult<R>)], k: usize, upload: Upload<R>)
    requires { k < length lanes.old }
    ensures { (lane : List ℕ × LaneResult R) → slice_get lanes.old k ≡ Some lane
        → lanes.new ≡ set lanes.old k (with_upload lane upload) }
{
    lanes[k].1.upload = Some(upload);
}
