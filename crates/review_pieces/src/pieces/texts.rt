//! The pieces of `review/pieces/texts/`, each with its slots filled. `tools/pieces` writes this file.
ghost use Rattle.std.specs.Prelude.{◌≡◌, ◌++◌, OnOk};
ghost use Rattle.review_pieces.specs.Pieces.{part_gone_html, part_new_html, part_same_html, text_html, text_empty_html, texts_html, typed_html};

use markup::{Part, fill};
use std::alloc::AllocError;

/// Adds `part_gone.html`.
#[tactic(auto, unfolding(crate::specs::Pieces::part_gone_html))]
pub fn add_part_gone(out: &mut Vec<u8>, text: &str) -> Result<(), AllocError>
    ensures { OnOk result (out.new.items ≡ out.old.items ++ part_gone_html text.now) }
{
    fill(out, &PART_GONE, &[text], &[])
}

const PART_GONE: [Part; 3] = [Part::Fixed("<del>"), Part::Words(0), Part::Fixed("</del>")];

/// Adds `part_new.html`.
#[tactic(auto, unfolding(crate::specs::Pieces::part_new_html))]
pub fn add_part_new(out: &mut Vec<u8>, text: &str) -> Result<(), AllocError>
    ensures { OnOk result (out.new.items ≡ out.old.items ++ part_new_html text.now) }
{
    fill(out, &PART_NEW, &[text], &[])
}

const PART_NEW: [Part; 3] = [Part::Fixed("<ins>"), Part::Words(0), Part::Fixed("</ins>")];

/// Adds `part_same.html`.
#[tactic(auto, unfolding(crate::specs::Pieces::part_same_html))]
pub fn add_part_same(out: &mut Vec<u8>, text: &str) -> Result<(), AllocError>
    ensures { OnOk result (out.new.items ≡ out.old.items ++ part_same_html text.now) }
{
    fill(out, &PART_SAME, &[text], &[])
}

const PART_SAME: [Part; 1] = [Part::Words(0)];

/// Adds `text.html`.
#[tactic(auto, unfolding(crate::specs::Pieces::text_html))]
pub fn add_text(out: &mut Vec<u8>, parts: &[u8]) -> Result<(), AllocError>
    ensures { OnOk result (out.new.items ≡ out.old.items ++ text_html parts.now) }
{
    fill(out, &TEXT, &[], &[parts])
}

const TEXT: [Part; 3] = [
    Part::Fixed("<div class=\"text\" tabindex=\"0\">"),
    Part::Made(0),
    Part::Fixed("</div>\n"),
];

/// Adds `text_empty.html`.
#[tactic(auto, unfolding(crate::specs::Pieces::text_empty_html))]
pub fn add_text_empty(out: &mut Vec<u8>, why: &str) -> Result<(), AllocError>
    ensures { OnOk result (out.new.items ≡ out.old.items ++ text_empty_html why.now) }
{
    fill(out, &TEXT_EMPTY, &[why], &[])
}

const TEXT_EMPTY: [Part; 3] = [
    Part::Fixed("<div class=\"text empty\">"),
    Part::Words(0),
    Part::Fixed("</div>\n"),
];

/// Adds `texts.html`.
#[tactic(auto, unfolding(crate::specs::Pieces::texts_html))]
pub fn add_texts<'t>(
    out: &mut Vec<u8>,
    head: &'t str,
    was_head: &'t str,
    is_head: &'t str,
    was: &'t [u8],
    is: &'t [u8],
    typed: &'t [u8],
) -> Result<(), AllocError>
    ensures { OnOk result (out.new.items ≡ out.old.items
        ++ texts_html head.now was_head.now is_head.now was.now is.now typed.now) }
{
    fill(out, &TEXTS, &[head, was_head, is_head], &[was, is, typed])
}

const TEXTS: [Part; 13] = [
    Part::Fixed("<h2>"),
    Part::Words(0),
    Part::Fixed("</h2>\n<div class=\"split\">\n<div><h3>"),
    Part::Words(1),
    Part::Fixed("</h3>"),
    Part::Made(0),
    Part::Fixed("</div>\n<div><h3>"),
    Part::Words(2),
    Part::Fixed("</h3>"),
    Part::Made(1),
    Part::Fixed("</div>\n</div>\n"),
    Part::Made(2),
    Part::Fixed("\n"),
];

/// Adds `typed.html`.
#[tactic(auto, unfolding(crate::specs::Pieces::typed_html))]
pub fn add_typed(out: &mut Vec<u8>, text: &[u8]) -> Result<(), AllocError>
    ensures { OnOk result (out.new.items ≡ out.old.items ++ typed_html text.now) }
{
    fill(out, &TYPED, &[], &[text])
}

const TYPED: [Part; 3] = [
    Part::Fixed("<h3>What was typed</h3>\n"),
    Part::Made(0),
    Part::Fixed("\n"),
];
