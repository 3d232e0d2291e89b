//! What the page that the user saw asked for, from the event of a conflict on.

use crate::requests::{add_single, listed};
use client_log::Visit;
use made_html::Html;
use page_tree::NoMemory;
use std::alloc::Global;
use visit_replay::was_asked;

/// How many events are asked. For each what was done before it is done again, and each of these may look at the whole page: so many nodes over all.
const MOST_ASKED: usize = 20;

const MOST_NODES: usize = 20_000_000;

/// What the events of a visit from that one on asked for on the page that they were made on.
pub(crate) fn asked_from(alloc: Global, visit: &Visit, from: usize) -> Result<Html, NoMemory> {
    let events = visit.events.as_slice();
    let nodes = visit.page.node_count() as usize;
    let mut items = Html::new(alloc);
    let mut asked: usize = 0;
    let mut looked: usize = 0;
    let mut left: usize = 0;
    for k in from..events.len() {
        if events[k].request() == 0 {
            continue;
        }
        let more = k.saturating_add(1).saturating_mul(nodes);
        if asked >= MOST_ASKED || more > MOST_NODES.saturating_sub(looked) {
            left = left.saturating_add(1);
        } else {
            add_asked(alloc, &mut items, visit, k)?;
            asked += 1;
            looked = looked.saturating_add(more);
        }
    }
    let none = if left > 0 {
        format!(in alloc;
            "{left} events asked for something, which isn't shown: much was done before."
        )?
    } else {
        String::from_str(alloc, "Nothing.")?
    };
    let mut part = listed(alloc, &items, none.as_str(), false)?;
    if left > 0 && asked > 0 {
        let more = format!(in alloc; "{left} more events asked for something.")?;
        part.add_requests_none(more.as_str())?;
    }
    Ok(part)
}

// What the event with k events before it asked for.
fn add_asked(alloc: Global, items: &mut Html, visit: &Visit, k: usize) -> Result<(), NoMemory> {
    let event = k.saturating_add(1);
    match was_asked(alloc, visit, k)? {
        Some(single) => {
            let behind = format!(in alloc; " (event {event})")?;
            add_single(alloc, items, &single, behind.as_str())
        }
        None => {
            let what = format!(in alloc; "event {event}")?;
            items.add_request(what.as_str(), "not known", &Html::new(alloc))
        }
    }
}
