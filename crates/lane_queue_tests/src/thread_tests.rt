//! Putters on threads of their own, and the taker on this one.
ghost use Rattle.std.specs.Prelude.{◌+◌, ◌≤◌, All, length};
ghost use Rattle.crossbeam_queue.specs.Passes.{view};
ghost use Rattle.lane_queue.specs.Opened.{IsNewPutterOf};
ghost use Rattle.lane_queue.specs.Queue.{IsPassOf};

use lane_queue::{Item, LaneQueue, Putter, Room, Take, Taker};
use std::alloc::{AllocError, Global};
use std::process::Abort;
use std::sync::Wait;
use std::test::Fail;
use std::thread;
use std::thread::{Scope, Threads};

// Puts a number behind at most so many items.
fn put_next<R: Wait>(rt: &R, lanes: &LaneQueue<u64>, putter: &mut Putter<u64>, body: u32)
    requires { IsPassOf lanes.now putter.old × (length (view putter.old).put ≤ body) }
    ensures { IsPassOf lanes.now putter.new × (length (view putter.new).put ≤ body + 1) }
{
    let _ = putter.put(rt, lanes, u64::from(body));
}

// Puts the numbers below that one, and then it as the last.
fn put_all<R: Wait>(rt: &R, lanes: &LaneQueue<u64>, putter: Putter<u64>, count: u32)
    requires { IsNewPutterOf lanes.now putter }
{
    let mut putter = putter;
    for body in 0..count {
        put_next(rt, lanes, &mut putter, body);
    }
    let _ = putter.finish(rt, lanes, u64::from(count));
}

// Counts an item. Whether it is the next of its lane.
fn count(counts: &mut [u64], item: &Item<u64>) -> bool {
    match counts.get_mut(item.lane as usize) {
        Some(next) if item.number == *next && item.body == *next => {
            *next = next.wrapping_add(1);
            true
        }
        _ => false,
    }
}

// Takes all items, and counts those that each lane got in order.
fn take_all<R: Wait>(
    rt: &R,
    lanes: &LaneQueue<u64>,
    taker: &mut Taker<u64>,
    counts: &mut [u64],
) -> bool
    requires { IsPassOf lanes.now taker.old }
{
    for _ in rt.forever() {
        match taker.take(rt, lanes) {
            Take::AllEnded => return true,
            Take::Item(item) => {
                if !count(counts, &item) {
                    return false;
                }
            }
        }
    }
    unreachable!()
}

// Starts a thread for each putter.
pub(crate) fn start_all<'s, E, R: Wait + Sync>(
    scope: &Scope<'s, E>,
    rt: &'s R,
    lanes: &'s LaneQueue<u64>,
    putters: Vec<Putter<u64>>,
    each: u32,
) -> Result<(), AllocError>
    requires { All (IsNewPutterOf lanes.now) putters.items }
{
    for putter in putters {
        let run = move ||
            requires { IsNewPutterOf lanes.now putter }
        { put_all(rt, lanes, putter, each) };
        scope.spawn(run)?;
    }
    Ok(())
}

// Whether all items came in order; how many did is counted by lane.
fn run_all<R: Threads + Wait + Sync>(
    rt: &R,
    lanes: &LaneQueue<u64>,
    taker: &mut Taker<u64>,
    putters: Vec<Putter<u64>>,
    each: u32,
    counts: &mut [u64],
) -> Result<bool, AllocError>
    requires putters { All (IsNewPutterOf lanes.now) putters.items }
    requires taker { IsPassOf lanes.now taker.old }
{
    thread::scope(
        thread::scope_env(),
        rt,
        move |scope| -> Result<bool, AllocError>
            requires { All (IsNewPutterOf lanes.now) putters.items × IsPassOf lanes.now taker.now }
        {
            start_all(scope, rt, lanes, putters, each)?;
            Ok(take_all(rt, lanes, taker, counts))
        },
    )
}

fn pass_all<R: Threads + Wait + Sync>(
    rt: &R,
    alloc: Global,
    count: u32,
    room: Room,
    each: u32,
) -> Result<Option<Vec<u64>>, Fail> {
    let (lanes, mut taker, putters) = LaneQueue::<u64>::open(alloc, count, room)?;
    let mut counts = Vec::from_elem(alloc, 0, count as usize)?;
    let whole = run_all(rt, &lanes, &mut taker, putters, each, counts.as_mut_slice())?;
    Ok(if whole { Some(counts) } else { None })
}

fn passes_all_in_order<R: AllocGlobal + Threads + Wait + Abort + Sync>(
    rt: &R,
    items: usize,
) -> Result<(), Fail> {
    let counts = pass_all(rt, rt.alloc(), 16, Room::new(items)?, 10_000)?;
    let counts = counts.ok_or("all items in order")?;
    assert!(rt; counts.as_slice() == [10_001; 16].as_slice());
    Ok(())
}

#[test]
fn passes_the_items_of_sixteen_threads(rt: HostRuntime) -> Result<(), Fail> {
    passes_all_in_order(&rt, 1)?;
    passes_all_in_order(&rt, 64)
}
