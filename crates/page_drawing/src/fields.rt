//! Fields as they start.
ghost use Rattle.std.specs.Prelude.{OnOk};
ghost use Rattle.page_drawing.specs.Drawn.{DrawsBehind};

use crate::notes::{add_note, said};
use crate::showing::{field_class, press_class, tick_class};
use page_tree::{Control, NoMemory, Page};

// What stands for a password, however long it is.
const DOTS: &str = "\u{2022}\u{2022}\u{2022}\u{2022}\u{2022}\u{2022}";

/// Adds the field that the element with that number and name is; nothing where it is none.
#[tactic(auto, using(crate::proofs::Adds::adds_none))]
pub(crate) fn add_field(
    out: &mut Vec<u8>,
    page: &Page,
    number: u32,
    name: &str,
) -> Result<(), NoMemory>
    ensures { OnOk result (DrawsBehind out.old.items out.new.items) }
{
    match name {
        "input" => add_input(out, page, number),
        "textarea" | "select" => add_text_field(out, page, number),
        _ => Ok(()),
    }
}

fn add_input(out: &mut Vec<u8>, page: &Page, number: u32) -> Result<(), NoMemory>
    ensures { OnOk result (DrawsBehind out.old.items out.new.items) }
{
    let kind = said(page, number, "type");
    if kind.eq_ignore_ascii_case("hidden") {
        let own = said(page, number, "name");
        return add_note(
            out,
            "undrawn",
            &["hidden ", own, " = ", said(page, number, "value")],
        );
    }
    match page.control_of(number) {
        Control::Check | Control::Radio => add_switch(out, page, number, kind),
        Control::Submit | Control::Other => add_press(out, page, number, kind),
        _ => if kind.eq_ignore_ascii_case("password") {
            add_password(out, page, number)
        } else {
            add_text_field(out, page, number)
        },
    }
}

// A checkbox or a radio button.
#[tactic(auto, using(crate::proofs::Adds::adds_more))]
fn add_switch(out: &mut Vec<u8>, page: &Page, number: u32, kind: &str) -> Result<(), NoMemory>
    ensures { OnOk result (DrawsBehind out.old.items out.new.items) }
{
    let state = if page.start_checked_of(number) {
        "\u{2611}"
    } else {
        "\u{2610}"
    };
    add_note(out, tick_class(page, number), &[state])?;
    add_note(out, "a", &[kind, " ", said(page, number, "name")])
}

// A button that is an input: its value, else what it is.
fn add_press(out: &mut Vec<u8>, page: &Page, number: u32, kind: &str) -> Result<(), NoMemory>
    ensures { OnOk result (DrawsBehind out.old.items out.new.items) }
{
    let value = page.attribute_of(number, "value");
    let words = match value {
        Some(words) => words,
        None => page.attribute_of(number, "alt").unwrap_or(kind),
    };
    add_note(out, press_class(page, number), &[words])
}

#[tactic(auto, using(crate::proofs::Adds::adds_more))]
fn add_password(out: &mut Vec<u8>, page: &Page, number: u32) -> Result<(), NoMemory>
    ensures { OnOk result (DrawsBehind out.old.items out.new.items) }
{
    let shown = if said(page, number, "value").is_empty() {
        ""
    } else {
        DOTS
    };
    add_note(out, "a", &[said(page, number, "name"), " "])?;
    add_note(out, field_class(page, number), &[shown])
}

#[tactic(auto, using(crate::proofs::Adds::adds_more))]
fn add_text_field(out: &mut Vec<u8>, page: &Page, number: u32) -> Result<(), NoMemory>
    ensures { OnOk result (DrawsBehind out.old.items out.new.items) }
{
    add_note(out, "a", &[said(page, number, "name"), " "])?;
    let class = field_class(page, number);
    match page.start_text_of(number)? {
        Some(text) => add_one(out, class, text.as_str()),
        None => add_one(out, class, ""),
    }
}

fn add_one(out: &mut Vec<u8>, class: &str, text: &str) -> Result<(), NoMemory>
    ensures { OnOk result (DrawsBehind out.old.items out.new.items) }
{
    add_note(out, class, &[text])
}
