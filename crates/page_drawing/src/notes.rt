//! Texts that stand in a drawing beside those of the page.
ghost use Rattle.std.specs.Prelude.{OnOk};
ghost use Rattle.page_drawing.specs.Drawn.{BeginsBehind, DrawsBehind};

use markup::{Facet, Layout, add_words, close, open};
use page_tree::{NoMemory, Page};

/// Begins an element.
pub(crate) fn begin(
    out: &mut Vec<u8>,
    layout: Layout,
    facets: &[(Facet, &str)],
) -> Result<(), NoMemory>
    ensures { OnOk result (BeginsBehind out.old.items out.new.items layout) }
{
    open(out, layout, facets)
}

/// Adds these texts, one behind the other, in a frame of that class.
#[tactic(auto, using(crate::proofs::Adds::adds_box))]
pub(crate) fn add_note(out: &mut Vec<u8>, class: &str, texts: &[&str]) -> Result<(), NoMemory>
    ensures { OnOk result (DrawsBehind out.old.items out.new.items) }
{
    begin(out, Layout::Inline, &[(Facet::Class, class)])?;
    add_texts(out, texts)?;
    close(out, Layout::Inline)
}

#[tactic(auto, using(crate::proofs::Adds::adds_none, crate::proofs::Adds::adds_words, crate::proofs::Adds::adds_more))]
fn add_texts(out: &mut Vec<u8>, texts: &[&str]) -> Result<(), NoMemory>
    ensures { OnOk result (DrawsBehind out.old.items out.new.items) }
{
    for text in texts {
        add_words(out, text)?;
    }
    Ok(())
}

/// What stands before an element's own: what it is and where it leads, where that isn't seen.
#[tactic(auto, using(crate::proofs::Adds::adds_none))]
pub(crate) fn add_notes_before(
    out: &mut Vec<u8>,
    page: &Page,
    number: u32,
    name: &str,
) -> Result<(), NoMemory>
    ensures { OnOk result (DrawsBehind out.old.items out.new.items) }
{
    match name {
        "form" => {
            let method = said(page, number, "method");
            add_note(
                out,
                "a",
                &["form ", method, " ", said(page, number, "action")],
            )
        }
        "img" => {
            let shown = said(page, number, "alt");
            add_note(
                out,
                "undrawn",
                &["image ", shown, " ", said(page, number, "src")],
            )
        }
        "audio" | "canvas" | "embed" | "iframe" | "math" | "object" | "svg" | "video" => {
            add_note(out, "undrawn", &[name, " ", said(page, number, "src")])
        }
        _ => Ok(()),
    }
}

/// What stands behind it: where a link leads.
#[tactic(auto, using(crate::proofs::Adds::adds_none))]
pub(crate) fn add_notes_behind(
    out: &mut Vec<u8>,
    page: &Page,
    number: u32,
    name: &str,
) -> Result<(), NoMemory>
    ensures { OnOk result (DrawsBehind out.old.items out.new.items) }
{
    if name != "a" && name != "area" {
        return Ok(());
    }
    match page.attribute_of(number, "href") {
        Some(address) => add_note(out, "a", &[" \u{2192} ", address]),
        None => Ok(()),
    }
}

/// The value of an attribute, empty where it isn't there.
pub(crate) fn said<'p>(page: &'p Page, number: u32, attribute: &str) -> &'p str {
    page.attribute_of(number, attribute).unwrap_or("")
}
