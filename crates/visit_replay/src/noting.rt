//! What is noted on a trail, and what that asks for.
ghost use Rattle.std.specs.Prelude.{ℕ, ◌≡◌, ◌≤◌, ◌<◌, ◌+◌, ◌^◌, ◌++◌, [], ◌∷◌, true, length, IfOk, OnOk, IfSome, is_some, None};
ghost use Rattle.page_tree.specs.Limits.{nodes};
ghost use Rattle.visit_replay.specs.inside.Deeds.{deed_of};
ghost use Rattle.visit_replay.specs.inside.OneEvent.{IsWithin};
ghost use Rattle.visit_replay.specs.inside.Trails.{asked_at, asked_from};

use crate::deeds::{Deeds, SeenDeed};
use crate::trail::Trail;
use page_tree::{NoMemory, Page, Text};
use std::alloc::Global;
use upload_reader::Event;

impl Trail {
    /// Behind the load of that page.
    pub(crate) fn new(alloc: Global, address: &str, page: &Page) -> Result<Trail, NoMemory>
        ensures { IfOk result (λ trail. (trail.address ≡ address.now) × (trail.page ≡ page.now) × (trail.deeds.items ≡ [])) }
    {
        Ok(Trail {
            address: Text::from_str(alloc, address)?,
            page: page.copy()?,
            deeds: Deeds::new(alloc),
        })
    }

    /// One event more, which acts on the node with that number, by that button.
    pub(crate) fn note(
        &mut self,
        event: &Event,
        number: u32,
        button: Option<u32>,
    ) -> Result<(), NoMemory>
        requires there { number < nodes self.old.page }
        requires button { IsWithin button self.old.page }
        ensures deeds { OnOk result (self.new.deeds.items ≡ self.old.deeds.items ++ deed_of event.now number button ∷ []) }
        ensures address { self.new.address ≡ self.old.address }
        ensures page { self.new.page ≡ self.old.page }
    {
        self.deeds.push(event, number, button)?;
        Ok(())
    }

    /// The same, without room for further events.
    pub(crate) fn fitted(self) -> Trail
        ensures { result ≡ self }
    {
        let mut trail = self;
        trail.deeds.fit();
        trail
    }

    /// Where the next deed stands, from that place on, which asks for something.
    pub(crate) fn asking_from(&self, from: usize) -> Option<usize>
        ensures none { result ≡ None → asked_from self.now from ≡ [] }
        ensures some { IfSome result (λ place. (from ≤ place) × (place < length self.now.deeds.items)
            × (asked_from self.now from ≡ asked_from self.now place)) }
        ensures passed { IfSome result (λ place. (k : ℕ) → from ≤ k → k < place → asked_at self.now k ≡ None) }
        ensures asks { IfSome result (λ place. is_some (asked_at self.now place) ≡ true) }
        ensures next { IfSome result (λ place. place + 1 < 2 ^ 64) }
    {
        for place in from..self.deeds.len() {
            if self.asks(place) {
                return Some(place);
            }
        }
        None
    }

    /// Whether the deed at that place asks for something.
    pub(crate) fn asks(&self, place: usize) -> bool
        requires { place < length self.now.deeds.items }
        ensures { result ≡ is_some (asked_at self.now place) }
    {
        match self.deeds.seen(place) {
            SeenDeed::Typed { .. } => false,
            SeenDeed::Clicked { node, req } => {
                req != 0 && self.page.attribute_of(node, "href").is_some()
            }
            SeenDeed::Sent { req, .. } => req != 0,
        }
    }
}
