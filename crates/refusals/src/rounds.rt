//! Rounds of uploads, in turn and behind an earlier one.
use crate::fixtures::{Kept, MESSAGES, Reader, TURNS, gathered, kept_of, quota, uploads};
use crate::marks::{WHOLE, answer, begin, end};
use lane_queue::Room;
use std::sync::Wait;
use std::thread::Threads;
use upload_lanes::{GatherFault, Gathered, LaneResult, Stop, gather_again, gather_in_order};
use upload_reader::{Ending, LaneEnd};

pub(crate) fn in_turn<T: AllocGlobal + Eprint>(rt: &T) -> Option<&'static str> {
    let quota = quota()?;
    let uploads = uploads(rt.alloc(), &["c1", "c2"])?;
    begin(rt);
    let gathered = gather_in_order(rt.alloc(), uploads, quota, TURNS);
    end(rt);
    match gathered {
        Ok(gathered) => judge(&gathered, 0, 2),
        Err(fault) => answer(fault == GatherFault::NoMemory, "G3"),
    }
}

/// A later round of two new clients, on threads. A refused one hands back what was gathered before.
pub(crate) fn again<T: AllocGlobal + Threads + Wait + Eprint + Sync>(
    rt: &T,
) -> Option<&'static str> {
    let (quota, room) = (quota()?, Room::new(2).ok()?);
    let earlier = gathered(rt.alloc())?;
    let uploads = uploads(rt.alloc(), &["c3", "c4"])?;
    let halt = |_items: u64| -> bool { false };
    begin(rt);
    let gathered = gather_again(rt, earlier, uploads, quota, room, &halt);
    end(rt);
    match gathered {
        Ok(gathered) => judge(&gathered, 2, 1),
        Err(refused) => answer(
            refused.fault == GatherFault::NoMemory && is_whole(&refused.earlier),
            "G3, and the earlier round unchanged",
        ),
    }
}

// Each lane behind the resting ones has all, or gave up, or has no end where its recorder stopped. But for so many lanes as may stand still all have all.
fn judge(gathered: &Gathered<Reader>, resting: usize, still: u32) -> Option<&'static str> {
    let (end, most, text) = match gathered.stop {
        Stop::None => (
            Some(Ending::GaveUp),
            1,
            "one lane gave up, the others are whole",
        ),
        Stop::Memory => (
            None,
            still,
            "a recorder stopped with its lanes, the others are whole",
        ),
        Stop::Asked => return None,
    };
    match count_short(gathered, resting, end)? {
        0 => answer(gathered.stop == Stop::None, WHOLE),
        count => answer(count <= most, text),
    }
}

// How many lanes have this end, where all others have all.
fn count_short(gathered: &Gathered<Reader>, resting: usize, end: Option<Ending>) -> Option<u32> {
    let mut count = 0u32;
    for lane in gathered.clients.values().skip(resting) {
        let whole = lane.taken == MESSAGES && lane.end == Some(Ending::Over(LaneEnd::Bye));
        if !is_log_of(lane) || !whole && lane.end != end {
            return None;
        }
        if !whole {
            count = count.saturating_add(1);
        }
    }
    Some(count)
}

// What a log keeps behind each message.
const KEPT: &[Kept] = &[
    (0, 0, false, 0),
    (1, 0, false, 157),
    (1, 1, false, 219),
    (2, 1, false, 364),
    (2, 1, true, 364),
];

fn is_log_of(lane: &LaneResult<Reader>) -> bool {
    match KEPT.get(lane.taken as usize) {
        Some(&kept) => kept == kept_of(&lane.log),
        None => false,
    }
}

// Whether both clients have all that an earlier round took.
fn is_whole(gathered: &Gathered<Reader>) -> bool {
    gathered.stop == Stop::None
        && gathered.clients.len() == 2
        && is_client(gathered, 0, "c1")
        && is_client(gathered, 1, "c2")
        && count_short(gathered, 0, None) == Some(0)
}

fn is_client(gathered: &Gathered<Reader>, place: usize, name: &str) -> bool {
    match gathered.clients.get_index(place) {
        Some((client, _)) => client.text() == name,
        None => false,
    }
}
