//! Pieces of HTML whose slots are filled.
ghost use Rattle.std.specs.Prelude.{◌≡◌, ◌++◌, OnOk};
ghost use Rattle.markup.specs.Escaping.{escaped};
ghost use Rattle.markup.specs.Filling.{in_slot, part_html, filled, texts_seen};

use crate::words::{add_bytes, add_words};
use std::alloc::AllocError;

/// A part of a piece.
#[derive(Clone, Copy, Debug)]
pub enum Part {
    /// HTML that the program has.
    Fixed(&'static str),
    /// The slot of a text, by its number.
    Words(usize),
    /// The slot of HTML that was made of pieces or drawings.
    Made(usize),
}

/// Adds a piece with these texts and this HTML in its slots. After an error a part of it may be there.
pub fn fill(
    out: &mut Vec<u8>,
    piece: &[Part],
    words: &[&str],
    made: &[&[u8]],
) -> Result<(), AllocError>
    ensures { OnOk result (out.new.items ≡ out.old.items
        ++ filled (texts_seen words.now) (texts_seen made.now) piece.now) }
{
    for part in piece {
        add_part(out, *part, words, made)?;
    }
    Ok(())
}

fn add_part(out: &mut Vec<u8>, part: Part, words: &[&str], made: &[&[u8]]) -> Result<(), AllocError>
    ensures { OnOk result (out.new.items ≡ out.old.items ++ part_html (texts_seen words.now) (texts_seen made.now) part) }
{
    match part {
        Part::Fixed(text) => add_bytes(out, text.as_bytes()),
        Part::Words(slot) => add_text_of(out, words, slot),
        Part::Made(slot) => add_made_of(out, made, slot),
    }
}

fn add_text_of(out: &mut Vec<u8>, words: &[&str], slot: usize) -> Result<(), AllocError>
    ensures { OnOk result (out.new.items ≡ out.old.items ++ escaped (in_slot (texts_seen words.now) slot)) }
{
    match words.get(slot) {
        Some(text) => add_words(out, text),
        None => Ok(()),
    }
}

fn add_made_of(out: &mut Vec<u8>, made: &[&[u8]], slot: usize) -> Result<(), AllocError>
    ensures { OnOk result (out.new.items ≡ out.old.items ++ in_slot (texts_seen made.now) slot) }
{
    match made.get(slot) {
        Some(html) => add_bytes(out, html),
        None => Ok(()),
    }
}
