//! The event that a conflict stands at.

use crate::events::{done_by, path_of};
use made_html::Html;
use page_tree::NoMemory;
use std::alloc::Global;
use upload_reader::Event;

/// Adds what was done by the event of that number among so many, and what is told of where it acts on both pages.
pub(crate) fn add_event_part(
    alloc: Global,
    out: &mut Html,
    event: &Event,
    at: u64,
    count: usize,
    was: &str,
    is: &str,
) -> Result<(), NoMemory> {
    let done = done_by(alloc, event)?;
    let what = format!(in alloc; "{} (event {at} of {count})", done.as_str())?;
    let target = path_of(event).write()?;
    let by = pressed_by(alloc, event)?;
    out.add_event(what.as_str(), target.as_str(), was, is, &by)
}

// The button that was pressed, if any.
fn pressed_by(alloc: Global, event: &Event) -> Result<Html, NoMemory> {
    let mut pressed = Html::new(alloc);
    match event {
        Event::Submit { by: Some(path), .. } => {
            let by = path.write()?;
            pressed.add_pressed(by.as_str())?;
        }
        _ => {}
    }
    Ok(pressed)
}
