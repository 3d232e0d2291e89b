//! Tags of elements that do nothing.
ghost use Rattle.std.specs.Prelude.{◌≡◌, ◌++◌, flat_map, OnOk};
ghost use Rattle.markup.specs.Drawing.{layout_tag, facet_attribute, facet_html, start_tag, end_tag, facets_seen};

use crate::words::{add_bytes, add_words};
use std::alloc::AllocError;

/// An element of a drawing.
#[derive(Clone, Copy, Debug, PartialEq, Eq)]
pub enum Layout {
    /// A `div`.
    Block,
    /// A `span`.
    Inline,
}

/// An attribute of a drawing's element.
#[derive(Clone, Copy, Debug, PartialEq, Eq)]
pub enum Facet {
    /// `data-n`.
    Name,
    /// `class`.
    Class,
    /// `data-mark`.
    Mark,
    /// `id`.
    Anchor,
}

/// Begins an element. After an error a part of its tag may be there.
pub fn open(out: &mut Vec<u8>, layout: Layout, facets: &[(Facet, &str)]) -> Result<(), AllocError>
    ensures { OnOk result (out.new.items ≡ out.old.items ++ start_tag layout (facets_seen facets.now)) }
{
    add_bytes(out, b"<")?;
    add_bytes(out, layout_tag(layout))?;
    add_facets(out, facets)?;
    add_bytes(out, b">")
}

/// Ends an element. After an error a part of its tag may be there.
pub fn close(out: &mut Vec<u8>, layout: Layout) -> Result<(), AllocError>
    ensures { OnOk result (out.new.items ≡ out.old.items ++ end_tag layout) }
{
    add_bytes(out, b"</")?;
    add_bytes(out, layout_tag(layout))?;
    add_bytes(out, b">")
}

fn add_facets(out: &mut Vec<u8>, facets: &[(Facet, &str)]) -> Result<(), AllocError>
    ensures { OnOk result (out.new.items ≡ out.old.items ++ flat_map facet_html (facets_seen facets.now)) }
{
    for (facet, value) in facets {
        add_facet(out, *facet, value)?;
    }
    Ok(())
}

fn add_facet(out: &mut Vec<u8>, facet: Facet, value: &str) -> Result<(), AllocError>
    ensures { OnOk result (out.new.items ≡ out.old.items ++ facet_html (facet, value.now)) }
{
    add_bytes(out, b" ")?;
    add_bytes(out, facet_attribute(facet))?;
    add_bytes(out, b"=\"")?;
    add_words(out, value)?;
    add_bytes(out, b"\"")
}

fn layout_tag(layout: Layout) -> &'static [u8]
    ensures { result.now ≡ layout_tag layout }
{
    match layout {
        Layout::Block => b"div",
        Layout::Inline => b"span",
    }
}

fn facet_attribute(facet: Facet) -> &'static [u8]
    ensures { result.now ≡ facet_attribute facet }
{
    match facet {
        Facet::Name => b"data-n",
        Facet::Class => b"class",
        Facet::Mark => b"data-mark",
        Facet::Anchor => b"id",
    }
}
