//! A page as a visit filled it in, at any point of its trail. It is gone along without memory, which is asked for once, for pages of so many nodes.
ghost use Rattle.std.specs.Prelude.{ℕ, List, ◌≡◌, ◌<◌, ◌≤◌, true, length, take, IfOk, IfSome, IsTrue, Some, option_map};
ghost use Rattle.page_tree.specs.Limits.{nodes};
ghost use Rattle.page_tree.specs.Number.{place_numbered};
ghost use Rattle.visit_replay.specs.Requests.{link_request};
ghost use Rattle.visit_replay.specs.declared.told.ToldRequest.TheVariants.{Form};
ghost use Rattle.visit_replay.specs.inside.Boards.{IsWide, IsOn, IsBefore, IsListedFor, known_page};
ghost use Rattle.visit_replay.specs.inside.Deed.{Sent};
ghost use Rattle.visit_replay.specs.inside.Deeds.{IsDeedOn, form_asked};
ghost use Rattle.visit_replay.specs.inside.KeptDeeds.{deed_seen};
ghost use Rattle.visit_replay.specs.inside.OneEvent.{IsWithin};
ghost use Rattle.visit_replay.specs.inside.Tellings.{told_request, KnowsFresh};
ghost use Rattle.visit_replay.specs.inside.Trails.{asked_at};

use crate::deeds::SeenDeed;
use crate::fields::Fields;
use crate::forms::{self, Filled};
use crate::page_senders::PageSenders;
use crate::sent_pairs::SentPairs;
use crate::told::{ToldForm, ToldRequest};
use crate::trail::Trail;
use page_tree::{NoMemory, Page, Text};
use std::alloc::Global;

/// How many deeds of a trail were taken in, and what the fields of its page hold then.
#[derive(Drop)]
pub(crate) struct Board<'r> {
    nodes: u32,
    pub(crate) names: &'r [Text],
    fields: Fields<'r>,
    // what is known of the nodes of the last page of which a form was sent
    senders: PageSenders<'r>,
    known: Option<&'r Page>,
    // whether that page is the trail's
    is_listed: bool,
    at: usize,
}

impl<'r> Board<'r> {
    /// For pages of so many nodes at most, where these names are fresh.
    pub(crate) fn new(alloc: Global, nodes: u32, names: &'r [Text]) -> Result<Board<'r>, NoMemory>
        ensures wide { IfOk result IsWide }
        ensures nodes { IfOk result (λ board. board.nodes ≡ nodes) }
        ensures names { IfOk result (λ board. board.names ≡ names.entry) }
    {
        Ok(Board {
            nodes,
            names,
            fields: Fields::new(alloc, nodes)?,
            senders: PageSenders::new(alloc, nodes)?,
            known: None,
            is_listed: false,
            at: 0,
        })
    }

    /// Behind the load of that trail.
    pub(crate) fn begin(&mut self, trail: &Trail)
        requires wide { IsWide self.old }
        requires few { nodes trail.now.page ≤ self.old.nodes }
        ensures on { IsOn trail.now.page trail.now.deeds.items self.new }
        ensures nodes { self.new.nodes ≡ self.old.nodes }
        ensures names { self.new.names ≡ self.old.names }
    {
        self.fields.reset(&trail.page);
        self.is_listed = false;
        self.at = 0;
    }

    /// Before the deed at that place.
    pub(crate) fn go_to(&mut self, trail: &'r Trail, place: usize)
        requires on { IsOn trail.now.page trail.now.deeds.items self.old }
        requires there { place < length trail.now.deeds.items }
        ensures before { IsBefore trail.now place self.new }
        ensures nodes { self.new.nodes ≡ self.old.nodes }
        ensures names { self.new.names ≡ self.old.names }
    {
        self.rewind(trail, place);
        self.advance(trail, place);
        self.prepare(&trail.page, trail.deeds.seen(place));
    }

    // Behind the load again, if it has gone past that place.
    fn rewind(&mut self, trail: &Trail, place: usize)
        requires { IsOn trail.now.page trail.now.deeds.items self.old }
        ensures on { IsOn trail.now.page trail.now.deeds.items self.new }
        ensures up { self.new.at ≤ place }
        ensures rest { (self.new.nodes ≡ self.old.nodes) × (self.new.names ≡ self.old.names) }
    {
        if self.at <= place {
            return;
        }
        self.fields.reset(&trail.page);
        self.at = 0;
    }

    // On to that place.
    fn advance(&mut self, trail: &'r Trail, place: usize)
        requires on { IsOn trail.now.page trail.now.deeds.items self.old }
        requires up { self.old.at ≤ place }
        requires there { place ≤ length trail.now.deeds.items }
        ensures on { IsOn trail.now.page trail.now.deeds.items self.new }
        ensures at { self.new.at ≡ place }
        ensures rest { (self.new.nodes ≡ self.old.nodes) × (self.new.names ≡ self.old.names) }
    {
        self.fields.take_all(&trail.deeds, self.at, place);
        self.at = place;
    }

    // Lists what may send something under the form that this deed sends, if any.
    fn prepare(&mut self, page: &'r Page, deed: SeenDeed<'_>)
        requires wide { IsWide self.old }
        requires few { nodes page.now ≤ self.old.nodes }
        requires on { IsDeedOn page.now (deed_seen deed) }
        requires listed { self.old.is_listed ≡ true → known_page self.old ≡ Some page.now }
        ensures wide { IsWide self.new }
        ensures listed { self.new.is_listed ≡ true → known_page self.new ≡ Some page.now }
        ensures ready { IsListedFor self.new (deed_seen deed.entry) }
        ensures rest { (self.new.nodes ≡ self.old.nodes) × (self.new.names ≡ self.old.names) × (self.new.at ≡ self.old.at)
            × (self.new.fields ≡ self.old.fields) }
    {
        match deed {
            SeenDeed::Typed { .. } => {}
            SeenDeed::Clicked { .. } => {}
            SeenDeed::Sent { form, .. } => self.list(page, form),
        }
    }

    // Lists what may send something under that form, unless it was listed last.
    fn list(&mut self, page: &'r Page, form: u32)
        requires wide { IsWide self.old }
        requires few { nodes page.now ≤ self.old.nodes }
        requires form { form < nodes page.now }
        requires listed { self.old.is_listed ≡ true → known_page self.old ≡ Some page.now }
        ensures listed { self.new.is_listed ≡ true }
        ensures form { self.new.senders.form ≡ Some form }
        ensures known { known_page self.new ≡ Some page.now }
        ensures wide { IsWide self.new }
        ensures rest { (self.new.nodes ≡ self.old.nodes) × (self.new.names ≡ self.old.names) × (self.new.at ≡ self.old.at)
            × (self.new.fields ≡ self.old.fields) }
    {
        self.look_anew(page);
        self.senders.list(page, form, self.names);
    }

    // Nothing is known of the page, if no form of it was sent so far, nor of an equal page by the visit before: many visits were to equal pages.
    fn look_anew(&mut self, page: &'r Page)
        requires wide { IsWide self.old }
        requires few { nodes page.now ≤ self.old.nodes }
        requires listed { self.old.is_listed ≡ true → known_page self.old ≡ Some page.now }
        ensures listed { self.new.is_listed ≡ true }
        ensures known { known_page self.new ≡ Some page.now }
        ensures wide { IsWide self.new }
        ensures rest { (self.new.nodes ≡ self.old.nodes) × (self.new.names ≡ self.old.names) × (self.new.at ≡ self.old.at)
            × (self.new.fields ≡ self.old.fields) }
    {
        if self.is_listed {
            return;
        }
        if !self.knows(page) {
            self.senders.forget(page);
            self.known = Some(page);
        }
        self.is_listed = true;
    }

    // Whether an equal page is known.
    fn knows(&self, page: &Page) -> bool
        ensures { IsTrue result → known_page self.now ≡ Some page.now }
    {
        match self.known {
            Some(known) => known.same(page),
            None => false,
        }
    }

    /// What the deed at that place asks for, if anything.
    pub(crate) fn told<'s>(&'s self, trail: &'s Trail, place: usize) -> Option<ToldRequest<'s>>
        requires { IsBefore trail.now place self.now }
        ensures told { option_map told_request result ≡ asked_at trail.now place }
        ensures marked { IfSome result (KnowsFresh self.now.names.now) }
    {
        match trail.deeds.seen(place) {
            SeenDeed::Typed { .. } => None,
            SeenDeed::Clicked { req: 0, .. } => None,
            SeenDeed::Clicked { node, req } => link_told(&trail.page, node, req),
            SeenDeed::Sent { req: 0, .. } => None,
            SeenDeed::Sent { form, button, req } => {
                Some(ToldRequest::Form(self.form_told(trail, form, button, req)))
            }
        }
    }

    fn form_told<'s>(
        &'s self,
        trail: &'s Trail,
        form: u32,
        button: Option<u32>,
        req: u64,
    ) -> ToldForm<'s>
        requires on { IsOn trail.now.page trail.now.deeds.items self.now }
        requires ready { IsListedFor self.now (Sent form button req) }
        requires button { IsWithin button trail.now.page }
        ensures told { told_request (Form result)
            ≡ form_asked trail.now.address trail.now.page (take self.now.at trail.now.deeds.items) form button req }
        ensures marked { KnowsFresh self.now.names.now (Form result) }
    {
        let page = &trail.page;
        ToldForm {
            number: req,
            post: forms::is_post(page, form),
            action: forms::action_of(trail.address.as_str(), page, form),
            pairs: SentPairs {
                filled: self.filled(page, button),
                senders: self.senders.as_slice(),
            },
        }
    }

    // The page as it is filled in here.
    fn filled<'s>(&'s self, page: &'s Page, button: Option<u32>) -> Filled<'s, 's>
        ensures page { result.page.now ≡ page.now }
        ensures fields { result.fields.now ≡ self.now.fields }
        ensures button { result.button ≡ button }
    {
        Filled {
            page,
            fields: &self.fields,
            button,
        }
    }
}

// That of the link there, with its address as it is written.
fn link_told(page: &Page, node: u32, number: u64) -> Option<ToldRequest<'_>>
    ensures told { option_map told_request result ≡ link_request number (place_numbered node page.now) page.now }
    ensures marked { (names : List (List ℕ)) → IfSome result (KnowsFresh names) }
{
    let address = page.attribute_of(node, "href")?;
    Some(ToldRequest::Link { number, address })
}
