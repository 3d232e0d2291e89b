//! The nodes of a page that may send something. They are listed for one form after another, and each is looked at once for all of them.
ghost use Rattle.std.specs.Prelude.{ℕ, List, ◌≡◌, ◌<◌, length, IfOk, IfSome, IsTrue, None, Some, vec_len, vec_capacity};
ghost use Rattle.page_tree.specs.Tree.{Tree};
ghost use Rattle.page_tree.specs.Limits.{nodes};
ghost use Rattle.visit_replay.specs.inside.Senders.{AddsNode, AreRight, HasPlaces, IsSenderAt, IsSilent, KnowsNodes};

use crate::senders::{Sender, sender_at};
use page_tree::{NoMemory, Page, Text};
use std::alloc::Global;

/// Those under one form, in document order, and what is known of the page's nodes.
#[derive(Drop)]
pub(crate) struct PageSenders<'p> {
    all: Vec<Sender<'p>>,
    // that form
    form: Option<u32>,
    // those that were found so far, in the order in which they were
    found: Vec<Sender<'p>>,
    known: Vec<Known>,
}

/// What is known of a node: that it sends nothing, or where it stands among those that were found.
#[derive(Clone, Copy)]
pub(crate) enum Known {
    Nothing,
    Silent,
    At(usize),
}

impl<'p> PageSenders<'p> {
    /// None, with room for pages of so many nodes.
    pub(crate) fn new(alloc: Global, nodes: u32) -> Result<PageSenders<'p>, NoMemory>
        ensures room { IfOk result (HasPlaces nodes) }
    {
        Ok(PageSenders {
            all: Vec::with_capacity(alloc, nodes as usize)?,
            form: None,
            found: Vec::with_capacity(alloc, nodes as usize)?,
            known: vec![in alloc; Known::Nothing; nodes as usize]?,
        })
    }

    /// Nothing is known of that page.
    pub(crate) fn forget(&mut self, page: &Page)
        requires { HasPlaces (nodes page.now) self.old }
        ensures right { (names : List (List ℕ)) → AreRight names page.now self.new }
        ensures room { (n : ℕ) → HasPlaces n self.old → HasPlaces n self.new }
    {
        self.form = None;
        self.found.clear();
        for number in 0..page.node_count() as usize {
            self.known[number] = Known::Nothing;
        }
    }

    /// Those under that form, where these names are fresh, in place of what was listed before. It takes no memory.
    pub(crate) fn list(&mut self, page: &'p Page, form: u32, names: &[Text])
        requires room { HasPlaces (nodes page.now) self.old }
        requires form { form < nodes page.now }
        requires right { AreRight names.now page.now self.old }
        ensures right { AreRight names.now page.now self.new }
        ensures form { self.new.form ≡ Some form }
        ensures room { (n : ℕ) → HasPlaces n self.old → HasPlaces n self.new }
    {
        if self.is_listed(form) {
            return;
        }
        self.all.clear();
        let under = page.nodes_under(form);
        for number in under.start..under.end {
            self.take_in(page, number, names);
        }
        self.form = Some(form);
    }

    fn is_listed(&self, form: u32) -> bool
        ensures { IsTrue result → self.now.form ≡ Some form }
    {
        match self.form {
            Some(last) => last == form,
            None => false,
        }
    }

    // One node more.
    fn take_in(&mut self, page: &'p Page, number: u32, names: &[Text])
        requires more { vec_len self.old.all < vec_capacity self.old.all }
        requires room { HasPlaces (nodes page.now) self.old }
        requires there { number < nodes page.now }
        requires known { KnowsNodes names.now page.now self.old }
        ensures next { AddsNode names.now page.now number self.old.all.items self.new.all.items }
        ensures known { KnowsNodes names.now page.now self.new }
        ensures room { (n : ℕ) → HasPlaces n self.old → HasPlaces n self.new }
    {
        match self.sender_of(page, number, names) {
            Some(sender) => self.all.push_reserved(sender),
            None => {}
        }
    }

    // The node, if it may send something. It is looked at, unless that is known.
    fn sender_of(&mut self, page: &'p Page, number: u32, names: &[Text]) -> Option<Sender<'p>>
        requires room { HasPlaces (nodes page.now) self.old }
        requires there { number < nodes page.now }
        requires known { KnowsNodes names.now page.now self.old }
        ensures some { IfSome result (IsSenderAt names.now page.now number) }
        ensures none { result ≡ None → IsSilent page.now number }
        ensures known { KnowsNodes names.now page.now self.new }
        ensures all { self.new.all ≡ self.old.all }
        ensures room { (n : ℕ) → HasPlaces n self.old → HasPlaces n self.new }
    {
        match self.known[number as usize] {
            Known::Nothing => {}
            Known::Silent => return None,
            Known::At(place) => return Some(self.found[place]),
        }
        let sender = sender_at(page, number, names);
        self.keep(number, sender);
        sender
    }

    // That is the node, if it may send something.
    fn keep(&mut self, number: u32, sender: Option<Sender<'p>>)
        requires there { number < length self.old.known.items }
        ensures known { (names : List (List ℕ)) (page : Tree) → IfSome sender.entry (IsSenderAt names page number)
            → (sender.entry ≡ None → IsSilent page number)
            → KnowsNodes names page self.old → KnowsNodes names page self.new }
        ensures all { self.new.all ≡ self.old.all }
        ensures room { (n : ℕ) → HasPlaces n self.old → HasPlaces n self.new }
    {
        match sender {
            None => self.known[number as usize] = Known::Silent,
            Some(sender) => {
                let place = self.found.len();
                if place < self.found.capacity() {
                    self.found.push_reserved(sender);
                    self.known[number as usize] = Known::At(place);
                }
            }
        }
    }

    /// Those of the form that was listed last.
    pub(crate) fn as_slice(&self) -> &[Sender<'p>]
        ensures { result.now ≡ self.now.all.items }
    {
        self.all.as_slice()
    }
}
