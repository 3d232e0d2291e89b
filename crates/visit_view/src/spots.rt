//! Where an event acts on a page, as far as that is known, for who looks at it.
ghost use Rattle.std.specs.Prelude.{OnOk};
ghost use Rattle.page_drawing.specs.Drawn.{DrawsBehind};

use crate::events::goes_by;
use crate::places::reached_by;
use page_drawing::{Mark, Marks, draw};
use page_tree::{NoMemory, Page};
use std::alloc::Global;
use upload_reader::Event;
use visit_replay::{Finding, place_of_event};

/// How many elements are marked at the most.
const MOST_MARKS: usize = 100;

/// Nodes by their numbers.
#[derive(Drop)]
pub(crate) enum EventSpot {
    /// No event is looked for.
    Unsought,
    /// It acts there.
    Here(u32),
    /// It isn't known where, and its path leads there.
    Perhaps(Vec<u32>),
    /// Its path selects nothing; it would be at that element's end.
    Gap(u32),
    Nowhere,
}

/// Where an event was made on the page that the user saw.
pub(crate) fn spot_then(alloc: Global, old: &Page, event: &Event) -> Result<EventSpot, NoMemory> {
    let spot = spot_by_path(alloc, old, event)?;
    match &spot {
        EventSpot::Perhaps(numbers) => match numbers.as_slice() {
            [only] => Ok(EventSpot::Here(*only)),
            _ => Ok(spot),
        },
        _ => Ok(spot),
    }
}

/// Where it acts on the page that stands there now.
pub(crate) fn spot_now(
    alloc: Global,
    finding: &Finding,
    old: &Page,
    new: &Page,
    event: &Event,
) -> Result<EventSpot, NoMemory> {
    match place_of_event(alloc, finding, old, new, event)? {
        Some(number) => Ok(EventSpot::Here(number)),
        None => spot_by_path(alloc, new, event),
    }
}

fn spot_by_path(alloc: Global, page: &Page, event: &Event) -> Result<EventSpot, NoMemory> {
    let reached = reached_by(alloc, page, goes_by(event))?;
    if !reached.all.is_empty() {
        return Ok(EventSpot::Perhaps(reached.all));
    }
    match reached.last {
        Some(number) => Ok(EventSpot::Gap(number)),
        None => Ok(EventSpot::Nowhere),
    }
}

/// The node, where it is known.
pub(crate) fn known_of(spot: &EventSpot) -> Option<u32> {
    match spot {
        EventSpot::Here(number) => Some(*number),
        _ => None,
    }
}

/// The same in a sentence, of that page.
pub(crate) fn told_of(
    alloc: Global,
    page: Option<&Page>,
    spot: &EventSpot,
) -> Result<String, NoMemory> {
    match spot {
        EventSpot::Unsought => String::from_str(alloc, ""),
        EventSpot::Here(number) => here(alloc, page, *number),
        EventSpot::Perhaps(numbers) => perhaps(alloc, numbers.len()),
        EventSpot::Gap(_number) => String::from_str(
            alloc,
            "Its path selects nothing. Where it would be is marked.",
        ),
        EventSpot::Nowhere => String::from_str(alloc, "Its path selects nothing."),
    }
}

fn here(alloc: Global, page: Option<&Page>, number: u32) -> Result<String, NoMemory> {
    match name_on(page, number) {
        Some(name) => format!(in alloc; "The element {name} is marked."),
        None => String::from_str(alloc, "It is marked."),
    }
}

fn name_on(page: Option<&Page>, number: u32) -> Option<&str> {
    page?.name_of(number)
}

fn perhaps(alloc: Global, count: usize) -> Result<String, NoMemory> {
    if count == 1 {
        return String::from_str(alloc, "The element to which its path leads is marked.");
    }
    if count <= MOST_MARKS {
        return format!(in alloc; "Its path selects {count} elements; all are marked.");
    }
    format!(in alloc; "Its path selects {count} elements; the first {MOST_MARKS} are marked.")
}

/// Draws a page with what is known marked.
pub(crate) fn draw_spot(
    alloc: Global,
    out: &mut Vec<u8>,
    page: &Page,
    spot: &EventSpot,
) -> Result<(), NoMemory>
    ensures { OnOk result (DrawsBehind out.old.items out.new.items) }
{
    match spot {
        EventSpot::Unsought => draw_marked(out, page, &[]),
        EventSpot::Here(number) => {
            let mark = Mark {
                number: *number,
                words: "here",
            };
            draw_marked(out, page, &[mark])
        }
        EventSpot::Perhaps(numbers) => {
            let marks = marks_at(alloc, numbers.as_slice())?;
            draw_marked(out, page, marks.as_slice())
        }
        EventSpot::Gap(number) => draw_gap(out, page, *number),
        EventSpot::Nowhere => draw_marked(out, page, &[]),
    }
}

fn draw_marked(out: &mut Vec<u8>, page: &Page, all: &[Mark<'static>]) -> Result<(), NoMemory>
    ensures { OnOk result (DrawsBehind out.old.items out.new.items) }
{
    draw(out, page, &Marks { all, gap: None })
}

fn draw_gap(out: &mut Vec<u8>, page: &Page, number: u32) -> Result<(), NoMemory>
    ensures { OnOk result (DrawsBehind out.old.items out.new.items) }
{
    let gap = Mark {
        number,
        words: "it would be here",
    };
    draw(
        out,
        page,
        &Marks {
            all: &[],
            gap: Some(gap),
        },
    )
}

// The first of these, marked.
fn marks_at(alloc: Global, numbers: &[u32]) -> Result<Vec<Mark<'static>>, NoMemory> {
    let mut marks = Vec::new(alloc);
    for number in numbers {
        if marks.len() < MOST_MARKS {
            marks.push(Mark {
                number: *number,
                words: "its path leads here",
            })?;
        }
    }
    Ok(marks)
}
