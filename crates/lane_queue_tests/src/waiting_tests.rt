//! A wait burns no processor time, and is over once it can be.
ghost use Rattle.std.specs.Prelude.{◌≤◌, All, length};
ghost use Rattle.crossbeam_queue.specs.Passes.{view};
ghost use Rattle.lane_queue.specs.Opened.{IsNewPutterOf};
ghost use Rattle.lane_queue.specs.Queue.{IsPassOf};

use crate::tests::one_lane;
use crate::thread_tests::start_all;
use lane_queue::{LaneQueue, Put, Putter, Room, Take, Taker};
use std::alloc::AllocError;
use std::process::Abort;
use std::sync::Wait;
use std::test::Fail;
use std::thread;
use std::thread::Threads;
use std::time::{Clock, CpuClock, Duration};

// What a wait of two seconds may cost its thread.
const MILLIS: u64 = 20;

// What a call answered, and the processor time that its thread used meanwhile. None where there is no such clock.
type Timed<A> = (A, Option<Duration>);

fn worked<R: CpuClock>(rt: &R) -> Option<Duration> {
    match rt.thread_cpu_time() {
        Ok(time) => Some(time),
        Err(_) => None,
    }
}

fn busy(start: Option<Duration>, end: Option<Duration>) -> Option<Duration> {
    Some(end?.saturating_sub(start?))
}

fn take_timed<R: Wait + CpuClock>(
    rt: &R,
    lanes: &LaneQueue<u64>,
    taker: Taker<u64>,
) -> Timed<Take<u64>>
    requires { IsPassOf lanes.now taker }
{
    let mut taker = taker;
    let start = worked(rt);
    let taken = taker.take(rt, lanes);
    (taken, busy(start, worked(rt)))
}

fn put_timed<R: Wait + CpuClock>(
    rt: &R,
    lanes: &LaneQueue<u64>,
    putter: Putter<u64>,
    body: u64,
) -> Timed<Put<u64>>
    requires { IsPassOf lanes.now putter × (length (view putter).put ≤ 1) }
{
    let mut putter = putter;
    let start = worked(rt);
    let put = putter.put(rt, lanes, body);
    (put, busy(start, worked(rt)))
}

// The taker waits for an item that is put after that time.
fn take_after<R: Threads + Wait + Clock + CpuClock + Sync>(
    rt: &R,
    lanes: &LaneQueue<u64>,
    taker: Taker<u64>,
    putter: Putter<u64>,
    time: Duration,
) -> Result<Timed<Take<u64>>, AllocError>
    requires taker { IsPassOf lanes.now taker }
    requires putter { IsPassOf lanes.now putter × (length (view putter).put ≤ 1) }
{
    thread::scope(
        thread::scope_env(),
        rt,
        move |scope| -> Result<Timed<Take<u64>>, AllocError>
            requires { IsPassOf lanes.now taker × IsPassOf lanes.now putter × (length (view putter).put ≤ 1) }
        {
            let wait = move || -> Timed<Take<u64>>
                requires { IsPassOf lanes.now taker }
            { take_timed(rt, lanes, taker) };
            let waiting = scope.spawn(wait)?;
            thread::sleep(rt, time);
            let mut putter = putter;
            let _ = putter.put(rt, lanes, 7);
            Ok(waiting.join(rt))
        },
    )
}

// The putter waits for room, which is made after that time, or for the close, which comes then.
fn put_after<R: Threads + Wait + Clock + CpuClock + Sync>(
    rt: &R,
    lanes: &LaneQueue<u64>,
    taker: Taker<u64>,
    putter: Putter<u64>,
    time: Duration,
    closes: bool,
) -> Result<Timed<Put<u64>>, AllocError>
    requires taker { IsPassOf lanes.now taker }
    requires putter { IsPassOf lanes.now putter × (length (view putter).put ≤ 1) }
{
    thread::scope(
        thread::scope_env(),
        rt,
        move |scope| -> Result<Timed<Put<u64>>, AllocError>
            requires { IsPassOf lanes.now taker × IsPassOf lanes.now putter × (length (view putter).put ≤ 1) }
        {
            let wait = move || -> Timed<Put<u64>>
                requires { IsPassOf lanes.now putter × (length (view putter).put ≤ 1) }
            { put_timed(rt, lanes, putter, 8) };
            let waiting = scope.spawn(wait)?;
            thread::sleep(rt, time);
            if closes {
                lanes.close(rt);
            } else {
                let mut taker = taker;
                let _ = taker.take(rt, lanes);
            }
            Ok(waiting.join(rt))
        },
    )
}

// Each putter puts its last item, and waits where there is no room. After that time two items are taken, one right after the other, and no more. It is over
// once all have put theirs.
fn put_all_after<R: Threads + Wait + Clock + Sync>(
    rt: &R,
    lanes: &LaneQueue<u64>,
    taker: &mut Taker<u64>,
    putters: Vec<Putter<u64>>,
    time: Duration,
) -> Result<(), AllocError>
    requires taker { IsPassOf lanes.now taker.old }
    requires putters { All (IsNewPutterOf lanes.now) putters.items }
{
    thread::scope(
        thread::scope_env(),
        rt,
        move |scope| -> Result<(), AllocError>
            requires { All (IsNewPutterOf lanes.now) putters.items × IsPassOf lanes.now taker.now }
        {
            start_all(scope, rt, lanes, putters, 0)?;
            thread::sleep(rt, time);
            let _ = taker.take(rt, lanes);
            let _ = taker.take(rt, lanes);
            Ok(())
        },
    )
}

fn has_slept(busy: Option<Duration>) -> bool {
    match busy {
        Some(busy) => busy < Duration::from_millis(MILLIS),
        None => false,
    }
}

#[test]
fn a_taker_sleeps_at_an_empty_queue(rt: HostRuntime) -> Result<(), Fail> {
    let (lanes, taker, putter) = one_lane(rt.alloc(), 1)?;
    let (take, busy) = take_after(&rt, &lanes, taker, putter, Duration::from_secs(2))?;
    assert!(rt; matches!(take, Take::Item(item) if item.body == 7) && has_slept(busy));
    Ok(())
}

// How its wait ends.
fn sleeps<R: AllocGlobal + Threads + Wait + Clock + CpuClock + Sync>(
    rt: &R,
    closes: bool,
    seconds: u64,
) -> Result<Timed<Put<u64>>, Fail> {
    let (lanes, taker, mut putter) = one_lane(rt.alloc(), 1)?;
    let _ = putter.put(rt, &lanes, 7);
    let time = Duration::from_secs(seconds);
    Ok(put_after(rt, &lanes, taker, putter, time, closes)?)
}

#[test]
fn a_putter_sleeps_at_a_full_queue(rt: HostRuntime) -> Result<(), Fail> {
    let (made, closed) = (sleeps(&rt, false, 2)?, sleeps(&rt, true, 1)?);
    assert!(rt; matches!(made.0, Put::Done) && matches!(closed.0, Put::Closed(8)));
    assert!(rt; has_slept(made.1) && has_slept(closed.1));
    Ok(())
}

// Two of four putters have room.
#[test]
fn two_putters_go_on_where_there_is_room_for_both(rt: HostRuntime) -> Result<(), Fail> {
    let (lanes, mut taker, putters) = LaneQueue::open(rt.alloc(), 4, Room::new(2)?)?;
    put_all_after(&rt, &lanes, &mut taker, putters, Duration::from_millis(200))?;
    Ok(())
}
