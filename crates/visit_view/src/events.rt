//! Events in words.

use page_tree::NoMemory;
use std::alloc::Global;
use upload_reader::Event;
use xpath_child::Path;

/// The path of its target.
pub(crate) fn path_of(event: &Event) -> &Path {
    match event {
        Event::Input { target, .. } => target,
        Event::Click { target, .. } => target,
        Event::Submit { target, .. } => target,
    }
}

/// The path of the button that was pressed, or else of its target.
pub(crate) fn goes_by(event: &Event) -> &Path {
    match event {
        Event::Submit { by: Some(path), .. } => path,
        _ => path_of(event),
    }
}

/// What was typed, if anything.
pub(crate) fn typed_by(event: &Event) -> Option<&str> {
    match event {
        Event::Input { value, .. } => Some(value.as_str()),
        _ => None,
    }
}

/// What was done.
pub(crate) fn done_by(alloc: Global, event: &Event) -> Result<String, NoMemory> {
    match event {
        Event::Input { .. } => String::from_str(alloc, "Input of a text"),
        Event::Click { req, .. } => with_request(alloc, "Click", *req),
        Event::Submit { req, .. } => with_request(alloc, "Submit", *req),
    }
}

fn with_request(alloc: Global, done: &str, request: u64) -> Result<String, NoMemory> {
    if request == 0 {
        return String::from_str(alloc, done);
    }
    format!(in alloc; "{done}, which made request {request}")
}
