//! A page is drawn.
ghost use Rattle.std.specs.Prelude.{◌<◌, OnOk};
ghost use Rattle.page_tree.specs.Limits.{nodes};
ghost use Rattle.page_drawing.specs.Drawn.{BeginsBehind, DrawsBehind};
ghost use Rattle.markup.specs.declared.tags.Layout.TheVariants.{Block};

use crate::fields::add_field;
use crate::marks::Marks;
use crate::notes::{add_note, add_notes_before, add_notes_behind, begin};
use crate::showing::{Inside, inside_of, is_never_shown};
use markup::{Facet, Layout, add_words, close};
use page_tree::{NoMemory, Page};

/// Draws a page with its marks behind what is there. After an error a part of it may be there. The time grows with the page's size, and with that times how many
/// marks there are.
#[tactic(auto, using(crate::proofs::Adds::adds_none))]
pub fn draw(out: &mut Vec<u8>, page: &Page, marks: &Marks<'_>) -> Result<(), NoMemory>
    ensures inert { OnOk result (DrawsBehind out.old.items out.new.items) }
{
    if page.node_count() == 0 {
        return Ok(());
    }
    draw_node(out, page, 0, marks)
}

// The node with that number, and what stands under it.
#[cycle(drawing)]
#[tactic(auto, using(crate::proofs::Adds::adds_none, crate::proofs::Adds::adds_words, crate::proofs::Adds::adds_box))]
fn draw_node(out: &mut Vec<u8>, page: &Page, number: u32, marks: &Marks<'_>) -> Result<(), NoMemory>
    requires there { number < nodes page.now }
    ensures inert { OnOk result (DrawsBehind out.old.items out.new.items) }
{
    let Some(name) = page.name_of(number) else {
        let text = page.text_of(number)?;
        return add_words(out, text.as_str());
    };
    if is_never_shown(name) && !marks.is_any_in(number..page.nodes_under(number).end) {
        return Ok(());
    }
    begin_element(out, number, name, marks)?;
    draw_inside(out, page, number, name, marks)?;
    close(out, Layout::Block)
}

// Begins the drawing of an element, which tells its mark.
fn begin_element(
    out: &mut Vec<u8>,
    number: u32,
    name: &str,
    marks: &Marks<'_>,
) -> Result<(), NoMemory>
    ensures { OnOk result (BeginsBehind out.old.items out.new.items Block) }
{
    match marks.words_at(number) {
        None => begin(out, Layout::Block, &[(Facet::Name, name)]),
        Some(words) => begin_target(out, name, words, marks.is_first(number)),
    }
}

fn begin_target<'x>(
    out: &mut Vec<u8>,
    name: &'x str,
    words: &'x str,
    is_first: bool,
) -> Result<(), NoMemory>
    ensures { OnOk result (BeginsBehind out.old.items out.new.items Block) }
{
    if is_first {
        begin(
            out,
            Layout::Block,
            &[
                (Facet::Name, name),
                (Facet::Class, "target"),
                (Facet::Mark, words),
                (Facet::Anchor, "target"),
            ],
        )
    } else {
        begin(
            out,
            Layout::Block,
            &[
                (Facet::Name, name),
                (Facet::Class, "target"),
                (Facet::Mark, words),
            ],
        )
    }
}

// What is said of an element, what stands in it, and the gap at its end.
#[cycle(drawing)]
fn draw_inside(
    out: &mut Vec<u8>,
    page: &Page,
    number: u32,
    name: &str,
    marks: &Marks<'_>,
) -> Result<(), NoMemory>
    requires there { number < nodes page.now }
    ensures inert { OnOk result (DrawsBehind out.old.items out.new.items) }
{
    add_notes_before(out, page, number, name)?;
    add_field(out, page, number, name)?;
    draw_content(out, page, number, name, marks)?;
    add_notes_behind(out, page, number, name)?;
    add_gap(out, number, marks)
}

// What stands in an element, as far as it is drawn.
#[cycle(drawing)]
#[tactic(auto, using(crate::proofs::Adds::adds_none))]
fn draw_content(
    out: &mut Vec<u8>,
    page: &Page,
    number: u32,
    name: &str,
    marks: &Marks<'_>,
) -> Result<(), NoMemory>
    requires there { number < nodes page.now }
    ensures inert { OnOk result (DrawsBehind out.old.items out.new.items) }
{
    match inside_of(page, number, name) {
        Inside::All => draw_children(out, page, number, marks),
        Inside::Framed(class) => draw_framed(out, page, number, class, marks),
        Inside::Script => add_script(out, page, number),
        Inside::Nothing => Ok(()),
    }
}

fn add_script(out: &mut Vec<u8>, page: &Page, number: u32) -> Result<(), NoMemory>
    ensures { OnOk result (DrawsBehind out.old.items out.new.items) }
{
    let text = page.text_of(number)?;
    let from = page.attribute_of(number, "src").unwrap_or("");
    add_note(out, "undrawn", &["script ", from, " ", text.as_str()])
}

// Where what is missing would be.
#[tactic(auto, using(crate::proofs::Adds::adds_none, crate::proofs::Adds::adds_empty_box))]
fn add_gap(out: &mut Vec<u8>, number: u32, marks: &Marks<'_>) -> Result<(), NoMemory>
    ensures { OnOk result (DrawsBehind out.old.items out.new.items) }
{
    let Some(words) = marks.gap_at(number) else {
        return Ok(());
    };
    begin_gap(out, words, marks.all.is_empty())?;
    close(out, Layout::Block)
}

fn begin_gap(out: &mut Vec<u8>, words: &str, is_first: bool) -> Result<(), NoMemory>
    ensures { OnOk result (BeginsBehind out.old.items out.new.items Block) }
{
    if is_first {
        begin(
            out,
            Layout::Block,
            &[
                (Facet::Class, "gap"),
                (Facet::Mark, words),
                (Facet::Anchor, "target"),
            ],
        )
    } else {
        begin(
            out,
            Layout::Block,
            &[(Facet::Class, "gap"), (Facet::Mark, words)],
        )
    }
}

// The children, in a frame of that class.
#[cycle(drawing)]
#[tactic(auto, using(crate::proofs::Adds::adds_box))]
fn draw_framed(
    out: &mut Vec<u8>,
    page: &Page,
    number: u32,
    class: &str,
    marks: &Marks<'_>,
) -> Result<(), NoMemory>
    requires there { number < nodes page.now }
    ensures inert { OnOk result (DrawsBehind out.old.items out.new.items) }
{
    begin(out, Layout::Inline, &[(Facet::Class, class)])?;
    draw_children(out, page, number, marks)?;
    close(out, Layout::Inline)
}

// The children of the node with that number.
#[cycle(drawing)]
#[tactic(auto, using(crate::proofs::Adds::adds_none, crate::proofs::Adds::adds_more))]
fn draw_children(
    out: &mut Vec<u8>,
    page: &Page,
    number: u32,
    marks: &Marks<'_>,
) -> Result<(), NoMemory>
    requires there { number < nodes page.now }
    ensures inert { OnOk result (DrawsBehind out.old.items out.new.items) }
{
    let under = page.nodes_under(number);
    let mut child = under.start;
    while child < under.end {
        draw_node(out, page, child, marks)?;
        child = page.nodes_under(child).end;
    }
    Ok(())
}
