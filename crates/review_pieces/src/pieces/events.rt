//! The pieces of `review/pieces/events/`, each with its slots filled. `tools/pieces` writes this file.
ghost use Rattle.std.specs.Prelude.{◌≡◌, ◌++◌, OnOk};
ghost use Rattle.review_pieces.specs.Pieces.{event_html, event_here_html, event_line_html, pressed_html, value_html, visit_events_html};

use markup::{Part, fill};
use std::alloc::AllocError;

/// Adds `event.html`.
#[tactic(auto, unfolding(crate::specs::Pieces::event_html))]
pub fn add_event<'t>(
    out: &mut Vec<u8>,
    what: &'t str,
    target: &'t str,
    then: &'t str,
    now: &'t str,
    pressed: &'t [u8],
) -> Result<(), AllocError>
    ensures { OnOk result (out.new.items ≡ out.old.items
        ++ event_html what.now target.now then.now now.now pressed.now) }
{
    fill(out, &EVENT, &[what, target, then, now], &[pressed])
}

const EVENT: [Part; 11] = [
    Part::Fixed("<h2>The event</h2>\n<dl>\n<dt>What was done</dt><dd>"),
    Part::Words(0),
    Part::Fixed("</dd>\n<dt>Where</dt><dd><code>"),
    Part::Words(1),
    Part::Fixed("</code></dd>\n"),
    Part::Made(0),
    Part::Fixed("<dt>On the user's page</dt><dd>"),
    Part::Words(2),
    Part::Fixed("</dd>\n<dt>On the page now</dt><dd>"),
    Part::Words(3),
    Part::Fixed("</dd>\n</dl>\n"),
];

/// Adds `event_here.html`.
#[tactic(auto, unfolding(crate::specs::Pieces::event_here_html))]
pub fn add_event_here(out: &mut Vec<u8>) -> Result<(), AllocError>
    ensures { OnOk result (out.new.items ≡ out.old.items ++ event_here_html) }
{
    fill(out, &EVENT_HERE, &[], &[])
}

const EVENT_HERE: [Part; 1] = [Part::Fixed(" class=\"here\" aria-current=\"step\"")];

/// Adds `event_line.html`.
#[tactic(auto, unfolding(crate::specs::Pieces::event_line_html))]
pub fn add_event_line<'t>(
    out: &mut Vec<u8>,
    what: &'t str,
    target: &'t str,
    here: &'t [u8],
    value: &'t [u8],
) -> Result<(), AllocError>
    ensures { OnOk result (out.new.items ≡ out.old.items ++ event_line_html what.now target.now here.now value.now) }
{
    fill(out, &EVENT_LINE, &[what, target], &[here, value])
}

const EVENT_LINE: [Part; 9] = [
    Part::Fixed("<li"),
    Part::Made(0),
    Part::Fixed(">"),
    Part::Words(0),
    Part::Fixed(" <code>"),
    Part::Words(1),
    Part::Fixed("</code>"),
    Part::Made(1),
    Part::Fixed("</li>\n"),
];

/// Adds `pressed.html`.
#[tactic(auto, unfolding(crate::specs::Pieces::pressed_html))]
pub fn add_pressed(out: &mut Vec<u8>, by: &str) -> Result<(), AllocError>
    ensures { OnOk result (out.new.items ≡ out.old.items ++ pressed_html by.now) }
{
    fill(out, &PRESSED, &[by], &[])
}

const PRESSED: [Part; 3] = [
    Part::Fixed("<dt>By</dt><dd><code>"),
    Part::Words(0),
    Part::Fixed("</code></dd>\n"),
];

/// Adds `value.html`.
#[tactic(auto, unfolding(crate::specs::Pieces::value_html))]
pub fn add_value(out: &mut Vec<u8>, value: &str) -> Result<(), AllocError>
    ensures { OnOk result (out.new.items ≡ out.old.items ++ value_html value.now) }
{
    fill(out, &VALUE, &[value], &[])
}

const VALUE: [Part; 3] = [
    Part::Fixed(": <span class=\"soft\">"),
    Part::Words(0),
    Part::Fixed("</span>\n"),
];

/// Adds `visit_events.html`.
#[tactic(auto, unfolding(crate::specs::Pieces::visit_events_html))]
pub fn add_visit_events<'t>(
    out: &mut Vec<u8>,
    start: &'t str,
    events: &'t [u8],
    around: &'t [u8],
) -> Result<(), AllocError>
    ensures { OnOk result (out.new.items ≡ out.old.items ++ visit_events_html start.now events.now around.now) }
{
    fill(out, &VISIT_EVENTS, &[start], &[events, around])
}

const VISIT_EVENTS: [Part; 7] = [
    Part::Fixed("<h2>Events</h2>\n<ol class=\"events\" start=\""),
    Part::Words(0),
    Part::Fixed("\">\n"),
    Part::Made(0),
    Part::Fixed("</ol>\n"),
    Part::Made(1),
    Part::Fixed("\n"),
];
