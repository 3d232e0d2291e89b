//! What is looked at of a conflict: its event, and the two pages.
ghost use Rattle.std.specs.Prelude.{◌≡◌};
ghost use Rattle.visit_view.specs.Deciding.{stops_at};

use crate::found_visit::FoundVisit;
use crate::spots::{EventSpot, spot_now, spot_then};
use client_log::Visit;
use page_tree::{NoMemory, Page};
use std::alloc::Global;
use upload_reader::Event;
use visit_replay::{ConflictKind, Finding, Outcome};

/// Why it is a conflict, and at which event.
pub(crate) fn conflict_of(outcome: &Outcome) -> Option<(ConflictKind, u64)> {
    match outcome {
        Outcome::Untouched => None,
        Outcome::Done { .. } => None,
        Outcome::Conflict { kind, at, .. } => Some((*kind, *at)),
    }
}

/// The event that the conflict stands at; 0 for none.
pub(crate) fn at_of(outcome: &Outcome) -> u64
    ensures { result ≡ stops_at outcome.now }
{
    match outcome {
        Outcome::Untouched => 0,
        Outcome::Done { .. } => 0,
        Outcome::Conflict { at, .. } => *at,
    }
}

// The event of a conflict, where it stands at one.
fn event_of<'v>(visit: &'v Visit, outcome: &Outcome) -> Option<&'v Event> {
    let (_kind, at) = conflict_of(outcome)?;
    let before = at.checked_sub(1)?;
    visit.events.as_slice().get(before as usize)
}

/// The page that the user saw, the one that stands there now, and the event that is looked for on them.
#[derive(Drop)]
pub(crate) struct Seen<'v> {
    pub(crate) old: &'v Page,
    pub(crate) new: Option<&'v Page>,
    pub(crate) event: Option<&'v Event>,
    /// How many events there are.
    pub(crate) count: usize,
}

/// The page that the visit was made on, that one, and the event of its conflict.
pub(crate) fn seen_of<'v>(
    found: &FoundVisit<'_>,
    visit: &'v Visit,
    new: Option<&'v Page>,
) -> Seen<'v> {
    Seen {
        old: &visit.page,
        new,
        event: event_of(visit, &found.case.outcome),
        count: visit.events.as_slice().len(),
    }
}

/// Where the event was made on the page that the user saw, if one is looked for.
pub(crate) fn spot_there(alloc: Global, seen: &Seen<'_>) -> Result<EventSpot, NoMemory> {
    match seen.event {
        Some(event) => spot_then(alloc, seen.old, event),
        None => Ok(EventSpot::Unsought),
    }
}

/// Where it acts on the page that stands there now, if there is one.
pub(crate) fn spot_here(
    alloc: Global,
    finding: &Finding,
    seen: &Seen<'_>,
) -> Result<EventSpot, NoMemory> {
    match (seen.new, seen.event) {
        (Some(new), Some(event)) => spot_now(alloc, finding, seen.old, new, event),
        _ => Ok(EventSpot::Unsought),
    }
}
