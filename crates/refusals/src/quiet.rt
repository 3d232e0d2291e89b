//! Calls that take no memory, where no run of the server's program shows it: nothing is allocated between their marks.
use crate::fixtures::page;
use crate::marks::{WHOLE, answer, begin, end};
use lane_queue::{LaneQueue, Put, Room, Take, TryPut, TryTake, reckon};
use page_tree::{Page, Place};
use std::sync::Wait;

/// What a page is asked by places.
pub(crate) fn pages<T: AllocGlobal + Eprint>(rt: &T) -> Option<&'static str> {
    let page = page(rt.alloc())?;
    let place = page.place_of(2).ok()??;
    begin(rt);
    let right = is_link_at(&page, &place) && is_first(&page);
    end(rt);
    answer(right, WHOLE)
}

// Whether the link stands at that place.
fn is_link_at(page: &Page, place: &Place) -> bool {
    let _ = page.control(place);
    page.children(place) == 1
        && page.attribute(place, "href") == Some("/b")
        && page.name(place) == Some("a")
        && !page.start_checked(place)
        && page.number_of(place) == Some(2)
}

fn is_first(page: &Page) -> bool {
    page.elements_before(2) == 0 && page.same_before(2) == 0 && page.same(page)
}

/// What is put into the queue of lanes and taken from it.
pub(crate) fn lanes<T: AllocGlobal + Wait + Eprint>(rt: &T) -> Option<&'static str> {
    let room = Room::new(2).ok()?;
    let Ok((lanes, mut taker, mut putters)) = LaneQueue::open(rt.alloc(), 1, room) else {
        return None;
    };
    let mut putter = putters.pop()?;
    begin(rt);
    let empty = matches!(taker.try_take(rt, &lanes), TryTake::Empty);
    let one = matches!(putter.try_put(rt, &lanes, 5u64), TryPut::Done);
    let two = matches!(putter.put(rt, &lanes, 6), Put::Done);
    let full = matches!(putter.try_put(rt, &lanes, 7), TryPut::Full(7));
    let took = matches!(taker.take(rt, &lanes), Take::Item(_));
    let last = matches!(putter.finish(rt, &lanes, 8), Put::Done);
    let over = matches!(putter.put(rt, &lanes, 9), Put::Over(9));
    let _ = (putter.pass(), taker.pass());
    lanes.close(rt);
    let left = reckon(rt, &lanes, &mut taker, putter);
    end(rt);
    let all = empty && one && two && full && took && last && over;
    answer(all && left == 2, WHOLE)
}
