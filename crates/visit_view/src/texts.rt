//! Texts that were there and texts that are there now, side by side.

use made_html::Html;
use page_tree::{NoMemory, Page};
use std::alloc::Global;
use std::borrow::CowStr;
use text_difference::{TextParts, compare_texts};

/// Adds the text of a field on the page that the user saw beside that of the page now, and what was typed.
pub(crate) fn add_field_texts(
    alloc: Global,
    out: &mut Html,
    old: &Page,
    was: Option<u32>,
    new: Option<&Page>,
    is: Option<u32>,
    typed: &str,
) -> Result<(), NoMemory> {
    let before = start_text(Some(old), was)?;
    let after = start_text(new, is)?;
    let typed = typed_part(alloc, typed)?;
    let heads = Heads {
        all: "The field's text",
        was: "What stood there for the user",
        is: "What stands there now",
    };
    add_pair(alloc, out, &heads, lent(&before), lent(&after), &typed)
}

/// Adds the texts of both pages.
pub(crate) fn add_page_texts(
    alloc: Global,
    out: &mut Html,
    old: &Page,
    new: &Page,
) -> Result<(), NoMemory> {
    let before = lines_of(alloc, old)?;
    let after = lines_of(alloc, new)?;
    let heads = Heads {
        all: "The texts of the page, some of which are watched",
        was: "What the user saw",
        is: "What stands there now",
    };
    let none = Html::new(alloc);
    add_pair(
        alloc,
        out,
        &heads,
        Some(before.as_str()),
        Some(after.as_str()),
        &none,
    )
}

#[derive(Drop)]
struct Heads {
    all: &'static str,
    was: &'static str,
    is: &'static str,
}

fn lent<'t>(text: &'t Option<CowStr<'_, Global>>) -> Option<&'t str> {
    match text {
        Some(text) => Some(text.as_str()),
        None => None,
    }
}

// What a text field with that number starts with.
fn start_text<'p>(
    page: Option<&'p Page>,
    number: Option<u32>,
) -> Result<Option<CowStr<'p, Global>>, NoMemory> {
    match (page, number) {
        (Some(page), Some(number)) => page.start_text_of(number),
        _ => Ok(None),
    }
}

fn typed_part(alloc: Global, typed: &str) -> Result<Html, NoMemory> {
    let text = alone(alloc, Some(typed))?;
    let mut part = Html::new(alloc);
    part.add_typed(&text)?;
    Ok(part)
}

fn add_pair(
    alloc: Global,
    out: &mut Html,
    heads: &Heads,
    was: Option<&str>,
    is: Option<&str>,
    typed: &Html,
) -> Result<(), NoMemory> {
    let (old, new) = match (was, is) {
        (Some(was), Some(is)) => both(alloc, was, is)?,
        _ => (alone(alloc, was)?, alone(alloc, is)?),
    };
    out.add_texts(heads.all, heads.was, heads.is, &old, &new, typed)
}

// The texts that a page shows, each on a line of its own.
fn lines_of(alloc: Global, page: &Page) -> Result<String, NoMemory> {
    let mut lines = String::new(alloc);
    for number in 0..page.node_count() {
        let words = page.words_of(number).trim_ascii();
        if !words.is_empty() && is_shown(page, page.parent_of(number)) {
            lines.push_str(words)?;
            lines.push_str("\n")?;
        }
    }
    Ok(lines)
}

fn is_shown(page: &Page, parent: Option<u32>) -> bool {
    let Some(number) = parent else {
        return true;
    };
    match page.name_of(number) {
        Some("noscript" | "script" | "style" | "template" | "title") => false,
        _ => true,
    }
}

// Two texts, with what differs.
fn both(alloc: Global, was: &str, is: &str) -> Result<(Html, Html), NoMemory> {
    let parts = compare_texts(was, is);
    let old = old_text(alloc, &parts)?;
    let new = new_text(alloc, &parts)?;
    Ok((boxed(alloc, was, &old)?, boxed(alloc, is, &new)?))
}

fn old_text(alloc: Global, parts: &TextParts<'_>) -> Result<Html, NoMemory> {
    let mut text = Html::new(alloc);
    text.add_part_same(parts.front)?;
    if !parts.gone.is_empty() {
        text.add_part_gone(parts.gone)?;
    }
    text.add_part_same(parts.rest)?;
    Ok(text)
}

fn new_text(alloc: Global, parts: &TextParts<'_>) -> Result<Html, NoMemory> {
    let mut text = Html::new(alloc);
    text.add_part_same(parts.front)?;
    if !parts.added.is_empty() {
        text.add_part_new(parts.added)?;
    }
    text.add_part_same(parts.rest)?;
    Ok(text)
}

// A text by itself, if there is one.
fn alone(alloc: Global, text: Option<&str>) -> Result<Html, NoMemory> {
    let mut part = Html::new(alloc);
    match text {
        None => part.add_text_empty("no such field")?,
        Some(text) => {
            let mut same = Html::new(alloc);
            same.add_part_same(text)?;
            return boxed(alloc, text, &same);
        }
    }
    Ok(part)
}

fn boxed(alloc: Global, text: &str, parts: &Html) -> Result<Html, NoMemory> {
    let mut part = Html::new(alloc);
    if text.is_empty() {
        part.add_text_empty("empty")?;
    } else {
        part.add_text(parts)?;
    }
    Ok(part)
}
