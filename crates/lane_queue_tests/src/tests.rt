//! What is answered where the queue is closed, and the machine. `refusals` has what is answered where it is open.
ghost use Rattle.std.specs.Prelude.{IfOk};
ghost use Rattle.lane_queue.specs.Opened.{IsNewPutterOf};
ghost use Rattle.lane_queue.specs.Queue.{IsPassOf};

use lane_queue::queue_core::{Did, QueueStep, State};
use lane_queue::{LaneQueue, Put, Putter, Room, Taker, TryPut, TryTake, reckon};
use std::alloc::{AllocError, Global};
use std::process::Abort;
use std::test::Fail;

// One lane, with room for so many items.
pub(crate) fn one_lane(
    alloc: Global,
    items: usize,
) -> Result<(LaneQueue<u64>, Taker<u64>, Putter<u64>), Fail>
    ensures { IfOk result (λ made. IsPassOf made.0 made.1 × IsNewPutterOf made.0 made.2) }
{
    let (lanes, taker, mut putters) = LaneQueue::open(alloc, 1, Room::new(items)?)?;
    match putters.pop() {
        Some(putter) => Ok((lanes, taker, putter)),
        None => Err(Fail::from("no putter")),
    }
}

#[test]
fn puts_nothing_where_it_is_closed(rt: HostRuntime) -> Result<(), Fail> {
    let (lanes, mut taker, mut putter) = one_lane(rt.alloc(), 2)?;
    let put = matches!(putter.put(&rt, &lanes, 4), Put::Done);
    lanes.close(&rt);
    let closed = matches!(putter.put(&rt, &lanes, 5), Put::Closed(5));
    let tried = matches!(putter.try_put(&rt, &lanes, 5), TryPut::Closed(5));
    let last = matches!(putter.finish(&rt, &lanes, 5), Put::Closed(5));
    let first = matches!(taker.try_take(&rt, &lanes), TryTake::Item(_));
    let empty = matches!(taker.try_take(&rt, &lanes), TryTake::Empty);
    let left = reckon(&rt, &lanes, &mut taker, putter);
    assert!(rt; put && closed && tried && last && first && empty && left == 0);
    Ok(())
}

// ---- steps

// The body of the item that is taken, if one is.
fn taken(state: &mut State) -> Result<Option<u64>, AllocError> {
    match state.apply(QueueStep::Take)? {
        Did::Took(item) => Ok(Some(item.body)),
        _ => Ok(None),
    }
}

// There is no room for the second item.
#[test]
fn steps_as_a_machine(rt: HostRuntime) -> Result<(), Fail> {
    let mut state = State::open(rt.alloc(), 2, Room::new(1)?)?;
    let (lane, item, last) = (1, 5, true);
    let put = QueueStep::Put { lane, item, last };
    let (lane, item) = (0, 6);
    state.run(&[put, QueueStep::Put { lane, item, last }])?;
    let (first, second) = (taken(&mut state)?, taken(&mut state)?);
    assert!(rt; first == Some(5) && second.is_none());
    Ok(())
}
