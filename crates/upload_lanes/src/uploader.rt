//! A lane's uploader: reads its upload, message by message, and puts each into the lane.
ghost use Rattle.std.specs.Prelude.{◌≡◌, ◌≤◌, ◌<◌, ◌+◌, [], length, Bool, None, true, false, IfOk, MatchBool};
ghost use Rattle.std.specs.Arc.{arc_value};
ghost use Rattle.std.specs.Option.{option_to_list};
ghost use Rattle.std.specs.Vec.{vec_capacity};
ghost use Rattle.crossbeam_queue.specs.Passes.{view};
ghost use Rattle.lane_queue.specs.Opened.{IsNewPutterOf};
ghost use Rattle.lane_queue.specs.Queue.{IsPassOf};
ghost use Rattle.upload_reader.specs.Limits.{max_messages};
ghost use Rattle.upload_reader.specs.Upload.{IsUntouched, NothingMore};
ghost use Rattle.upload_lanes.specs.inside.Sent.{parts, ReadsOn, GivesRead, IsPutting, IsHeld, HasPut, IsUploaded, Sends, is_done};

use crate::gate::Gate;
use crate::sent::{Parcel, Priced, Sent};
use byte_streams::Source;
use lane_queue::{LaneQueue, Put, Putter};
use std::alloc::AllocError;
use std::snapshot::Snapshot;
use std::sync::{Arc, Wait};
use std::thread::{Promise, PromisedHandle, Scope};
use thread_heap::Heap;
use upload_reader::{Ending, Next, Upload};

/// What is kept of so many messages that an uploader reads fills about a block of its heap.
const READ: u32 = 160;

/// What an uploader hands back.
#[derive(Drop)]
pub(crate) struct Uploaded<R: Source> {
    pub(crate) upload: Upload<R>,
    pub(crate) putter: Putter<Parcel>,
}

/// An uploader's end of the queue, and how many messages it puts there at once at the most.
#[derive(Drop)]
struct Outlet {
    putter: Putter<Parcel>,
    size: usize,
}

/// What its thread promises, by what it was given.
#[derive(Drop)]
pub(crate) struct Uploads<R: Source> {
    queue: Snapshot<LaneQueue<Parcel>>,
    putter: Snapshot<Putter<Parcel>>,
    upload: Snapshot<Upload<R>>,
    size: Snapshot<usize>,
}

impl<R: Source> Promise<Uploaded<R>> for Uploads<R> {
    ghost use Rattle.crossbeam_queue.specs.Passes.{view};
    ghost use Rattle.upload_lanes.specs.inside.Sent.{IsUploaded};

    ghost kept_by = { λ p done. IsUploaded p.queue.value (view p.putter.value).lane p.size.value p.upload.value done };
}

/// Starts an uploader on a thread of its own, which waits at the gate before it reads. What it puts at once is of that size at the most.
pub(crate) fn start_upload<'s, E, R: Source + Drop + Send + 's, W: Wait + Sync>(
    scope: &Scope<'s, E>,
    rt: &'s W,
    queue: Arc<LaneQueue<Parcel>>,
    gate: &'s Gate,
    putter: Putter<Parcel>,
    upload: Upload<R>,
    size: usize,
) -> Result<PromisedHandle<Uploaded<R>, Uploads<R>>, AllocError>
    requires fresh { IsNewPutterOf (arc_value queue) putter }
    requires untouched { IsUntouched upload }
    requires size { 1 ≤ size }
    ensures queue { IfOk result (λ handle. handle.promise.queue.value ≡ arc_value queue) }
    ensures putter { IfOk result (λ handle. handle.promise.putter.value ≡ putter) }
    ensures upload { IfOk result (λ handle. handle.promise.upload.value ≡ upload) }
    ensures size { IfOk result (λ handle. handle.promise.size.value ≡ size) }
{
    let promise = Uploads {
        queue: Snapshot::of(&*queue),
        putter: Snapshot::of(&putter),
        upload: Snapshot::of(&upload),
        size: Snapshot::of(&size),
    };
    let outlet = Outlet { putter, size };
    let run = move || -> Uploaded<R>
        requires { IsNewPutterOf (arc_value queue) outlet.putter × IsUntouched upload × (1 ≤ outlet.size) }
        ensures { IsUploaded (arc_value queue) (view outlet.putter).lane outlet.size upload result }
    { upload_once_open(rt, &*queue, gate, outlet, upload) };
    Ok(scope.spawn_with(promise, run)?)
}

// Reads nothing where the gate is shut.
fn upload_once_open<R: Source + Drop, W: Wait>(
    rt: &W,
    queue: &LaneQueue<Parcel>,
    gate: &Gate,
    outlet: Outlet,
    upload: Upload<R>,
) -> Uploaded<R>
    requires fresh { IsNewPutterOf queue.now outlet.putter }
    requires untouched { IsUntouched upload }
    requires size { 1 ≤ outlet.size }
    ensures { IsUploaded queue.now (view outlet.putter).lane outlet.size upload result }
{
    let Outlet { putter, size } = outlet;
    if gate.may_pass(rt) {
        upload_all(rt, queue, putter, upload, size)
    } else {
        Uploaded { upload, putter }
    }
}

// Reads the upload to its end, or until the lane is closed.
fn upload_all<R: Source + Drop, W: Wait>(
    rt: &W,
    queue: &LaneQueue<Parcel>,
    putter: Putter<Parcel>,
    upload: Upload<R>,
    size: usize,
) -> Uploaded<R>
    requires fresh { IsNewPutterOf queue.now putter }
    requires untouched { IsUntouched upload }
    requires size { 1 ≤ size }
    ensures { IsUploaded queue.now (view putter).lane size upload result }
{
    let mut upload = upload;
    let mut putter = putter;
    let mut heap = Heap::of_thread(upload.allocator(), READ);
    for _ in rt.forever() {
        if !put_next(rt, queue, &mut putter, &mut upload, &mut heap, size) {
            return Uploaded { upload, putter };
        }
    }
    unreachable!()
}

// Reads on with nothing held, since that may wait. Whether more may follow.
fn put_next<R: Source + Drop, W: Wait>(
    rt: &W,
    queue: &LaneQueue<Parcel>,
    putter: &mut Putter<Parcel>,
    upload: &mut Upload<R>,
    heap: &mut Heap,
    size: usize,
) -> bool
    requires of { IsPassOf queue.now putter.old }
    requires putting { IsPutting size (view putter.old).put [] upload.old }
    requires size { 1 ≤ size }
    ensures of { IsPassOf queue.now putter.new }
    ensures lane { (view putter.new).lane ≡ (view putter.old).lane }
    ensures read { ReadsOn upload.old upload.new }
    ensures put { MatchBool result (IsPutting size (view putter.new).put [] upload.new)
        (HasPut size (view putter.new).put upload.new) }
{
    heap.expect_item();
    let alloc = upload.allocator();
    match upload.next() {
        Next::Got(message, cost) => {
            let parcel = Parcel::of(alloc, Sent::One(Priced::new(message, cost)));
            put_filled(rt, queue, putter, upload, heap, parcel, size)
        }
        Next::Over(end) => {
            let last = Parcel::of(alloc, Sent::Last(Ending::Over(end)));
            end_lane(rt, queue, putter, last)
        }
        Next::GaveUp => {
            let last = Parcel::of(alloc, Sent::Last(Ending::GaveUp));
            end_lane(rt, queue, putter, last)
        }
    }
}

// Puts the message with those behind it that were read already, and the end if that was. Whether more may follow.
fn put_filled<R: Source + Drop, W: Wait>(
    rt: &W,
    queue: &LaneQueue<Parcel>,
    putter: &mut Putter<Parcel>,
    upload: &mut Upload<R>,
    heap: &mut Heap,
    parcel: Parcel,
    size: usize,
) -> bool
    requires of { IsPassOf queue.now putter.old }
    requires alone { parcel.more.items ≡ [] }
    requires putting { IsPutting size (view putter.old).put (parts parcel) upload.old }
    requires size { 1 ≤ size }
    ensures of { IsPassOf queue.now putter.new }
    ensures lane { (view putter.new).lane ≡ (view putter.old).lane }
    ensures gives { GivesRead upload.old upload.new }
    ensures put { MatchBool result (IsPutting size (view putter.new).put [] upload.new)
        (HasPut size (view putter.new).put upload.new) }
{
    let mut parcel = parcel;
    let ending = fill(&mut parcel, upload, heap, size);
    if !send(rt, queue, putter, parcel) {
        return false;
    }
    match ending {
        None => true,
        Some(ending) => {
            let last = Parcel::of(upload.allocator(), Sent::Last(ending));
            end_lane(rt, queue, putter, last)
        }
    }
}

// Adds messages while the parcel isn't full and what was read tells what comes next: nothing is held while a read may wait. How the upload ended, if it did.
// Where memory is refused, the parcel goes as it is, and no message was asked for.
fn fill<R: Source + Drop>(
    parcel: &mut Parcel,
    upload: &mut Upload<R>,
    heap: &mut Heap,
    size: usize,
) -> Option<Ending>
    requires alone { parcel.old.more.items ≡ [] }
    requires going { upload.old.ending ≡ None }
    requires few { length upload.old.given ≤ max_messages }
    requires size { 1 ≤ size }
    ensures gives { GivesRead upload.old upload.new }
    ensures ending { upload.new.ending ≡ result }
    ensures held { IsHeld parcel.old upload.old parcel.new upload.new }
    ensures fits { length (parts parcel.new) + length (option_to_list result) ≤ size }
{
    for held in 1..size {
        if !upload.has_next() {
            return None;
        }
        if let Err(_) = parcel.more.reserve(size - held) {
            return None;
        }
        if let Some(ending) = add_next(parcel, upload, heap) {
            return Some(ending);
        }
    }
    None
}

// Adds the next message, or tells how the upload ended.
fn add_next<R: Source + Drop>(
    parcel: &mut Parcel,
    upload: &mut Upload<R>,
    heap: &mut Heap,
) -> Option<Ending>
    requires room { length parcel.old.more.items < vec_capacity parcel.old.more }
    requires there { ¬ NothingMore upload.old upload.old.lines.answers }
    requires going { upload.old.ending ≡ None }
    ensures gives { GivesRead upload.old upload.new }
    ensures ending { upload.new.ending ≡ result }
    ensures held { IsHeld parcel.old upload.old parcel.new upload.new }
    ensures count { length (parts parcel.new) + length (option_to_list result) ≡ length (parts parcel.old) + 1 }
{
    heap.expect_item();
    match upload.next() {
        Next::Got(message, cost) => {
            parcel
                .more
                .push_reserved(Sent::One(Priced::new(message, cost)));
            None
        }
        Next::Over(end) => Some(Ending::Over(end)),
        Next::GaveUp => Some(Ending::GaveUp),
    }
}

// Whether it was put.
fn send<W: Wait>(
    rt: &W,
    queue: &LaneQueue<Parcel>,
    putter: &mut Putter<Parcel>,
    parcel: Parcel,
) -> bool
    requires of { IsPassOf queue.now putter.old }
    requires few { length (view putter.old).put ≤ max_messages }
    ensures of { IsPassOf queue.now putter.new }
    ensures sent { Sends (view putter.old) (view putter.new) false parcel result }
{
    is_done(putter.put(rt, queue, parcel))
}

// Nothing may follow.
fn end_lane<W: Wait>(
    rt: &W,
    queue: &LaneQueue<Parcel>,
    putter: &mut Putter<Parcel>,
    last: Parcel,
) -> bool
    requires of { IsPassOf queue.now putter.old }
    requires few { length (view putter.old).put ≤ max_messages }
    ensures of { IsPassOf queue.now putter.new }
    ensures sent { (done : Bool) × Sends (view putter.old) (view putter.new) true last done }
    ensures over { result ≡ false }
{
    let _done = is_done(putter.finish(rt, queue, last));
    false
}

fn is_done(put: Put<Parcel>) -> bool
    ensures { result ≡ is_done put }
{
    match put {
        Put::Done => true,
        Put::Closed(_) | Put::Over(_) => false,
    }
}
