//! What a control holds before a user touches it.
ghost use Rattle.std.specs.Prelude.{ℕ, ◌≡◌, ◌++◌, List, [], IfOk, option_map};
ghost use Rattle.std.specs.Cow.{cow_str_bytes};
ghost use Rattle.page_tree.specs.Number.{place_numbered};
ghost use Rattle.page_tree.specs.Control.{child_texts, start_text_at, start_checked_at};
ghost use Rattle.page_tree.specs.Started.{text_started};
ghost use Rattle.page_tree.specs.inside.Kept.{children_at, named_start_text, words_at};

use crate::memory::NoMemory;
use crate::page::Page;
use std::alloc::Global;
use std::borrow::CowStr;

/// The text that a Text control starts with: as it stands in an attribute, or the texts among the children of a `textarea` (`child_texts_of`).
#[derive(Clone, Copy, Debug)]
pub enum StartText<'p> {
    Whole(&'p str),
    OfChildren,
}

impl Page {
    /// The text that a Text control starts with, without a copy of it; none for every other node. It takes no memory.
    #[tactic(auto, using(crate::proofs::ControlLaws::start_named, crate::proofs::ControlLaws::start_other, crate::proofs::ControlLaws::start_unnamed, crate::proofs::ControlLaws::words_joined))]
    pub fn start_of(&self, number: u32) -> Option<StartText<'_>>
        ensures { option_map (text_started self.now number) result ≡ start_text_at (place_numbered number self.now) self.now }
    {
        let name = self.name_of(number)?;
        if !self.element_control(number, name).is_text() {
            return None;
        }
        if name != "textarea" {
            return Some(StartText::Whole(self.value_of(number, "value").unwrap_or("")));
        }
        Some(StartText::OfChildren)
    }

    /// The text that a Text control starts with; none for every other node. It is borrowed from the page but for a `textarea` with several
    /// texts that aren't empty.
    #[tactic(auto, using(crate::proofs::ControlLaws::start_named, crate::proofs::ControlLaws::start_other, crate::proofs::ControlLaws::start_unnamed))]
    pub fn start_text_of(&self, number: u32) -> Result<Option<CowStr<'_, Global>>, NoMemory>
        ensures { IfOk result (λ t. option_map cow_str_bytes t ≡ start_text_at (place_numbered number self.now) self.now) }
    {
        let Some(name) = self.name_of(number) else {
            return Ok(None);
        };
        if !self.element_control(number, name).is_text() {
            return Ok(None);
        }
        Ok(Some(self.started(number, name)?))
    }

    // That of a Text control of that name.
    fn started(&self, number: u32, name: &str) -> Result<CowStr<'_, Global>, NoMemory>
        ensures { IfOk result (λ t. cow_str_bytes t ≡ named_start_text name.now (place_numbered number self.now) self.now) }
    {
        if name == "textarea" {
            self.child_texts(number)
        } else {
            Ok(CowStr::Borrowed(self.value_of(number, "value").unwrap_or("")))
        }
    }

    // The texts among its children, joined.
    #[tactic(auto, using(crate::proofs::ControlLaws::text_step, crate::proofs::ControlLaws::text_end))]
    fn child_texts(&self, number: u32) -> Result<CowStr<'_, Global>, NoMemory>
        ensures { IfOk result (λ t. cow_str_bytes t ≡ child_texts (children_at (place_numbered number self.now) self.now)) }
    {
        let alloc = self.table().allocator();
        let mut joined = CowStr::Borrowed("");
        let mut child = self.nodes_under(number).start;
        for _i in 0..self.children_of(number) {
            joined = join(alloc, joined, self.words_of(child))?;
            child = self.nodes_under(child).end;
        }
        Ok(joined)
    }

    /// The text with that number, which takes no memory; empty for an element.
    #[tactic(auto, using(crate::proofs::LookLaws::line_is, crate::proofs::Numbers::has_none))]
    pub fn words_of(&self, number: u32) -> &str
        ensures { result.now ≡ words_at (place_numbered number self.now) self.now }
    {
        match self.index(number) {
            None => "",
            Some(index) => self.table().words(index),
        }
    }

    /// Whether a Check or Radio with that number starts on; false for every other node.
    #[tactic(auto, using(crate::proofs::ControlLaws::checked_named, crate::proofs::ControlLaws::checked_unnamed))]
    pub fn start_checked_of(&self, number: u32) -> bool
        ensures { result ≡ start_checked_at (place_numbered number self.now) self.now }
    {
        let Some(name) = self.name_of(number) else {
            return false;
        };
        self.element_control(number, name).is_switch() && self.value_of(number, "checked").is_some()
    }
}

// A text and one more, copied only where neither is empty.
fn join<'a>(
    alloc: Global,
    before: CowStr<'a, Global>,
    more: &'a str,
) -> Result<CowStr<'a, Global>, NoMemory>
    ensures { IfOk result (λ text. cow_str_bytes text ≡ cow_str_bytes before.entry ++ more.now) }
{
    if more.is_empty() {
        return Ok(before);
    }
    match before {
        CowStr::Borrowed("") => Ok(CowStr::Borrowed(more)),
        CowStr::Borrowed(first) => {
            let mut joined = String::from_str(alloc, first)?;
            joined.push_str(more)?;
            Ok(CowStr::Owned(joined))
        }
        CowStr::Owned(mut joined) => {
            joined.push_str(more)?;
            Ok(CowStr::Owned(joined))
        }
    }
}
