//! What is looked for stands in a text.
ghost use Rattle.std.specs.Prelude.{◌↔◌, map, IfOk, IsTrue};
ghost use Rattle.review_state.specs.Finding.{IsFoundIn, AreMarkedFound};

use memchr::memmem::Finder;
use page_tree::NoMemory;
use std::alloc::Global;

/// Whether a text has that part. It takes a pass over the text, whatever stands in it.
pub fn has_part(part: &Finder, text: &[u8]) -> bool
    ensures { IsTrue result ↔ IsFoundIn part.now text.now }
{
    part.find(text).is_some()
}

/// Marks those of some texts that have that part.
pub fn found_in(alloc: Global, part: &Finder, texts: &[&str]) -> Result<Vec<bool>, NoMemory>
    ensures { IfOk result (λ marks. AreMarkedFound part.now (map (λ text. text.now) texts.now) marks.items) }
{
    let mut marks = Vec::with_capacity(alloc, texts.len())?;
    for place in 0..texts.len() {
        let mark = is_found(part, texts[place]);
        marks.push(mark)?;
    }
    Ok(marks)
}

fn is_found(part: &Finder, text: &str) -> bool
    ensures { IsTrue result ↔ IsFoundIn part.now text.now }
{
    has_part(part, text.as_bytes())
}
