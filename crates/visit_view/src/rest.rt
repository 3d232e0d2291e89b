//! What stands below the forms: the event, the texts, the pages, the requests.

use crate::asked::asked_from;
use crate::event_list::add_event_list;
use crate::event_part::add_event_part;
use crate::events::typed_by;
use crate::figures::add_pages_part;
use crate::found_visit::FoundVisit;
use crate::requests::{requests_now, requests_then};
use crate::seen::{Seen, at_of, conflict_of, seen_of, spot_here, spot_there};
use crate::spots::{EventSpot, known_of, told_of};
use crate::texts::{add_field_texts, add_page_texts};
use crate::words::number;
use client_log::Visit;
use made_html::Html;
use page_tree::{NoMemory, Page};
use std::alloc::Global;
use upload_reader::Event;
use visit_replay::{ConflictKind, Finding, Outcome};

/// What stands below the forms, where that page stands now, and events find their places so.
pub fn rest_of(
    alloc: Global,
    found: &FoundVisit<'_>,
    new: Option<&Page>,
    finding: &Finding,
) -> Result<Html, NoMemory> {
    let mut rest = Html::new(alloc);
    match found.kept {
        Some(visit) => {
            let seen = seen_of(found, visit, new);
            add_seen(alloc, &mut rest, finding, found, &seen)?;
            add_requests_part(alloc, &mut rest, found, visit)?;
            add_event_list(alloc, &mut rest, found, visit, at_of(&found.case.outcome))?;
        }
        None => rest.add_requests_none("The log doesn't have it.")?,
    }
    Ok(rest)
}

// What was done on the page that the user saw, that page, and the one that stands there now.
fn add_seen(
    alloc: Global,
    rest: &mut Html,
    finding: &Finding,
    found: &FoundVisit<'_>,
    seen: &Seen<'_>,
) -> Result<(), NoMemory> {
    let then = spot_there(alloc, seen)?;
    let now = spot_here(alloc, finding, seen)?;
    let was = told_of(alloc, Some(seen.old), &then)?;
    let is = told_of(alloc, seen.new, &now)?;
    match seen.event {
        Some(event) => {
            let at = at_of(&found.case.outcome);
            add_event_part(
                alloc,
                rest,
                event,
                at,
                seen.count,
                was.as_str(),
                is.as_str(),
            )?;
            add_typed(alloc, rest, seen, event, &then, &now)?;
        }
        None => add_watched(alloc, rest, seen, &found.case.outcome)?,
    }
    let number = number(alloc, found.number)?;
    add_pages_part(
        alloc,
        rest,
        found.client.text(),
        number.as_str(),
        seen.new.is_some(),
        was.as_str(),
        is.as_str(),
    )
}

// What was typed, beside what stands there now.
fn add_typed(
    alloc: Global,
    rest: &mut Html,
    seen: &Seen<'_>,
    event: &Event,
    then: &EventSpot,
    now: &EventSpot,
) -> Result<(), NoMemory> {
    let Some(typed) = typed_by(event) else {
        return Ok(());
    };
    let (was, is) = (known_of(then), known_of(now));
    add_field_texts(alloc, rest, seen.old, was, seen.new, is, typed)
}

// The texts of both pages, where something of them is watched and has changed.
fn add_watched(
    alloc: Global,
    rest: &mut Html,
    seen: &Seen<'_>,
    outcome: &Outcome,
) -> Result<(), NoMemory> {
    match (conflict_of(outcome), seen.new) {
        (Some((ConflictKind::Ui, _at)), Some(new)) => add_page_texts(alloc, rest, seen.old, new),
        _ => Ok(()),
    }
}

// The requests that the visit makes now, and what the page that the user saw asked for.
fn add_requests_part(
    alloc: Global,
    rest: &mut Html,
    found: &FoundVisit<'_>,
    visit: &Visit,
) -> Result<(), NoMemory> {
    let case = found.case;
    let requests = found.docket.requests_at(found.place);
    let now = requests_now(alloc, requests, &case.difference)?;
    match conflict_of(&case.outcome) {
        Some((_kind, at)) => {
            let then = asked_from(alloc, visit, at.saturating_sub(1) as usize)?;
            rest.add_visit_requests(
                "Requests on the repaired page, before the conflict",
                "What the user's page asked for from there on",
                &now,
                &then,
            )
        }
        None => {
            let then = requests_then(alloc, requests, &case.difference)?;
            rest.add_visit_requests(
                "Requests on the repaired page",
                "What they were on the user's page, where they differ",
                &now,
                &then,
            )
        }
    }
}
