//! The events of a visit, and the client's visits that wait before and behind it.
ghost use Rattle.std.specs.Prelude.{◌<◌, length, IfSome};

use crate::cutting::beginning_of;
use crate::events::{done_by, path_of, typed_by};
use crate::found_visit::FoundVisit;
use crate::words::number;
use client_log::Visit;
use conflict_desk::{OpenDocket, Standing};
use made_html::Html;
use page_tree::NoMemory;
use std::alloc::Global;
use upload_reader::Event;

/// How many events are shown, and of them how many before that of the conflict.
const MOST_EVENTS: usize = 200;

const MOST_BEFORE: usize = 100;

/// How many bytes are shown of what was typed.
const MOST_TYPED: usize = 2_000;

/// Adds the events around the one of that number, if there is any; 0 for none.
pub(crate) fn add_event_list(
    alloc: Global,
    out: &mut Html,
    found: &FoundVisit<'_>,
    visit: &Visit,
    at: u64,
) -> Result<(), NoMemory> {
    let events = visit.events.as_slice();
    if events.is_empty() {
        return add_around(alloc, out, found);
    }
    let from = (at as usize).saturating_sub(MOST_BEFORE + 1);
    let mut lines = Html::new(alloc);
    for k in from..events.len() {
        if k - from >= MOST_EVENTS {
            break;
        }
        add_line(alloc, &mut lines, &events[k], at == k as u64 + 1)?;
    }
    let mut around = Html::new(alloc);
    add_around(alloc, &mut around, found)?;
    if events.len() > MOST_EVENTS {
        let all = format!(in alloc; "There are {} events in all.", events.len())?;
        around.add_requests_none(all.as_str())?;
    }
    let start = number(alloc, from.saturating_add(1) as u64)?;
    out.add_visit_events(start.as_str(), &lines, &around)
}

fn add_line(alloc: Global, lines: &mut Html, event: &Event, is_here: bool) -> Result<(), NoMemory> {
    let what = done_by(alloc, event)?;
    let target = path_of(event).write()?;
    let mut here = Html::new(alloc);
    if is_here {
        here.add_event_here()?;
    }
    let mut value = Html::new(alloc);
    if let Some(typed) = typed_by(event) {
        value.add_value(beginning_of(typed, MOST_TYPED))?;
    }
    lines.add_event_line(what.as_str(), target.as_str(), &here, &value)
}

// Adds links to the visits of the client that wait before and behind this one, if it waits.
fn add_around(alloc: Global, out: &mut Html, found: &FoundVisit<'_>) -> Result<(), NoMemory> {
    if found.docket.standing_at(found.place) != Standing::Waiting {
        return Ok(());
    }
    let mut links = Html::new(alloc);
    if let Some(place) = waits_before(found.docket, found.place) {
        add_link(alloc, &mut links, found, place, "The one before that waits")?;
    }
    if let Some(place) = waits_behind(found.docket, found.place) {
        add_link(alloc, &mut links, found, place, "The next that waits")?;
    }
    if links.is_empty() {
        return Ok(());
    }
    out.add_around(&links)
}

fn waits_before(docket: &OpenDocket, place: usize) -> Option<usize>
    requires { place < length docket.now.cases }
    ensures { IfSome result (λ other. other < length docket.now.cases) }
{
    for k in (0..place).rev() {
        if docket.standing_at(k) == Standing::Waiting {
            return Some(k);
        }
    }
    None
}

fn waits_behind(docket: &OpenDocket, place: usize) -> Option<usize>
    requires { place < length docket.now.cases }
    ensures { IfSome result (λ other. other < length docket.now.cases) }
{
    let count = docket.cases().len();
    for k in place + 1..count {
        if docket.standing_at(k) == Standing::Waiting {
            return Some(k);
        }
    }
    None
}

fn add_link(
    alloc: Global,
    links: &mut Html,
    found: &FoundVisit<'_>,
    place: usize,
    words: &str,
) -> Result<(), NoMemory>
    requires { place < length found.now.docket.now.cases }
{
    let visit = found.docket.cases()[place].visit;
    let client = found.client.text();
    let address = format!(in alloc; "/visit?c={client}&v={visit}")?;
    links.add_page_link(address.as_str(), words)
}
