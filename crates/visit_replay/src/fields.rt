//! The fields of a page that events have changed so far.
ghost use Rattle.std.specs.Prelude.{ℕ, List, ◌≡◌, ◌==◌, ◌<◌, ◌≤◌, [], All, Bool, take, length, IfOk, None, Some, if◌then◌else◌, not, get_or};
ghost use Rattle.page_tree.specs.Tree.{Tree};
ghost use Rattle.page_tree.specs.Limits.{nodes};
ghost use Rattle.upload_reader.specs.declared.message.Event.{Event as PlainEvent};
ghost use Rattle.visit_replay.specs.Aim.{Aim};
ghost use Rattle.visit_replay.specs.inside.KeptFields.{HasRoom, Hold, TakesIn, turned_now};
ghost use Rattle.visit_replay.specs.inside.OneEvent.{IsNodeOf};
ghost use Rattle.visit_replay.specs.inside.Deeds.{IsDeedOn, text_behind, is_on_behind, text_done, is_on_done};
ghost use Rattle.visit_replay.specs.inside.KeptDeeds.{deed_seen};

use crate::deeds::{Deeds, SeenDeed};
use page_tree::{Control, NoMemory, Page};
use std::alloc::Global;
use upload_reader::Event;

/// What they hold, by their nodes' numbers. The texts are those of the events.
#[derive(Drop)]
pub(crate) struct Fields<'a> {
    texts: Vec<Option<&'a str>>,
    /// Which checkboxes aren't as they started.
    turned: Vec<bool>,
}

impl<'a> Fields<'a> {
    /// Before any event, on a page of so many nodes.
    pub(crate) fn new(alloc: Global, count: u32) -> Result<Fields<'a>, NoMemory>
        ensures held { IfOk result (λ fields. (new : Tree) → nodes new ≤ count → Hold fields new
            (text_behind new []) (is_on_behind new [])) }
        ensures room { IfOk result (λ fields. (length fields.texts.items ≡ count) × (length fields.turned.items ≡ count)) }
    {
        Ok(Fields {
            texts: vec![in alloc; None; count as usize]?,
            turned: vec![in alloc; false; count as usize]?,
        })
    }

    /// What the field holds, if something was typed into it.
    pub(crate) fn typed(&self, number: u32) -> Option<&'a str>
        ensures { result ≡ get_or self.now.texts.items number None }
    {
        *self.texts.get(number as usize)?
    }

    /// Whether the checkbox is on that started so.
    pub(crate) fn is_on_from(&self, start: bool, number: u32) -> bool
        ensures { result ≡ (if turned_now self.now number then not start else start) }
    {
        if self.is_turned(number) {
            return !start;
        }
        start
    }

    fn is_turned(&self, number: u32) -> bool
        ensures { result ≡ turned_now self.now number }
    {
        self.turned.get(number as usize).copied().unwrap_or(false)
    }

    /// Takes in one event more, whose target has that number. A click turns a checkbox; of any other nothing is kept.
    pub(crate) fn note(&mut self, new: &Page, event: &'a Event, number: u32)
        ensures { (aim : PlainEvent → Aim) → IsNodeOf (aim event.now) new.now number
            → TakesIn aim new.now event.now self.old self.new }
    {
        match event {
            Event::Input { value, .. } => self.type_into(number, value.as_str()),
            Event::Click { .. } => match new.control_of(number) {
                Control::Check => self.turn(number),
                _ => {}
            },
            Event::Submit { .. } => {}
        }
    }

    /// Takes in deeds from one place up to another, one after another.
    pub(crate) fn take_all(&mut self, deeds: &'a Deeds, from: usize, to: usize)
        requires up { from ≤ to }
        requires there { to ≤ length deeds.now.items }
        ensures held { (page : Tree) → All (IsDeedOn page) deeds.now.items
            → Hold self.old page (text_behind page (take from deeds.now.items)) (is_on_behind page (take from deeds.now.items))
            → Hold self.new page (text_behind page (take to deeds.now.items)) (is_on_behind page (take to deeds.now.items)) }
        ensures room { (length self.new.texts.items ≡ length self.old.texts.items)
            × (length self.new.turned.items ≡ length self.old.turned.items) }
    {
        for place in from..to {
            self.take_in(deeds.seen(place));
        }
    }

    // Takes in one deed more.
    fn take_in(&mut self, deed: SeenDeed<'a>)
        ensures held { (page : Tree) (text : List ℕ → List ℕ) (on : List ℕ → Bool) → IsDeedOn page (deed_seen deed.entry)
            → Hold self.old page text on → Hold self.new page (λ place. text_done page place (text place) (deed_seen deed.entry))
            (λ place. is_on_done page place (on place) (deed_seen deed.entry)) }
        ensures room { (length self.new.texts.items ≡ length self.old.texts.items)
            × (length self.new.turned.items ≡ length self.old.turned.items) }
    {
        match deed {
            SeenDeed::Typed { field, value } => self.type_into(field, value),
            SeenDeed::Clicked { node, .. } => self.turn(node),
            SeenDeed::Sent { .. } => {}
        }
    }

    // That text was typed into the field.
    fn type_into(&mut self, number: u32, text: &'a str)
        ensures texts { (other : ℕ) → other < length self.old.texts.items → get_or self.new.texts.items other None
            ≡ (if number == other then Some text.entry else get_or self.old.texts.items other None) }
        ensures room { length self.new.texts.items ≡ length self.old.texts.items }
        ensures turned { self.new.turned ≡ self.old.turned }
    {
        let at = number as usize;
        if at < self.texts.len() {
            self.texts[at] = Some(text);
        }
    }

    // The checkbox was clicked.
    fn turn(&mut self, number: u32)
        ensures turned { (other : ℕ) → other < length self.old.turned.items → turned_now self.new other
            ≡ (if number == other then not (turned_now self.old other) else turned_now self.old other) }
        ensures room { length self.new.turned.items ≡ length self.old.turned.items }
        ensures texts { self.new.texts ≡ self.old.texts }
    {
        let at = number as usize;
        if at < self.turned.len() {
            self.turned[at] = !self.turned[at];
        }
    }

    /// All nodes of that page are as they started.
    pub(crate) fn reset(&mut self, page: &Page)
        requires { HasRoom self.old page.now }
        ensures held { Hold self.new page.now (text_behind page.now []) (is_on_behind page.now []) }
        ensures room { (length self.new.texts.items ≡ length self.old.texts.items)
            × (length self.new.turned.items ≡ length self.old.turned.items) }
    {
        for at in 0..page.node_count() as usize {
            self.texts[at] = None;
            self.turned[at] = false;
        }
    }
}
