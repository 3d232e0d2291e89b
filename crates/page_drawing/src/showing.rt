//! What is shown of an element, by its name.

use page_tree::Page;

/// What stands in the drawing of an element.
#[derive(Clone, Copy, Debug, PartialEq, Eq)]
pub(crate) enum Inside {
    /// What stands in the element.
    All,
    /// The same in a frame of that class.
    Framed(&'static str),
    /// What stands in a script, as a text.
    Script,
    /// What is said of it alone.
    Nothing,
}

/// What stands in the drawing of the element with that number and name.
pub(crate) fn inside_of(page: &Page, number: u32, name: &str) -> Inside {
    match name {
        "script" => Inside::Script,
        "base" | "link" | "meta" | "noscript" | "style" | "template" | "title" => Inside::Nothing,
        "input" | "textarea" | "select" | "img" => Inside::Nothing,
        "button" => Inside::Framed(press_class(page, number)),
        "a" | "area" => if page.attribute_of(number, "href").is_some() {
            Inside::Framed("link")
        } else {
            Inside::All
        },
        _ => Inside::All,
    }
}

/// Whether a page that a browser shows has nothing of an element of that name.
pub(crate) fn is_never_shown(name: &str) -> bool {
    match name {
        "base" | "link" | "meta" | "noscript" | "style" | "template" | "title" => true,
        _ => false,
    }
}

fn is_off(page: &Page, number: u32) -> bool {
    page.attribute_of(number, "disabled").is_some()
}

pub(crate) fn press_class(page: &Page, number: u32) -> &'static str {
    if is_off(page, number) {
        "press off"
    } else {
        "press"
    }
}

pub(crate) fn field_class(page: &Page, number: u32) -> &'static str {
    if is_off(page, number) {
        "field off"
    } else {
        "field"
    }
}

pub(crate) fn tick_class(page: &Page, number: u32) -> &'static str {
    if is_off(page, number) {
        "tick off"
    } else {
        "tick"
    }
}
