//! The hidden inputs of a page under the nodes that were looked at: many events may act on inputs of one parent.
ghost use Rattle.std.specs.Prelude.{◌≡◌, OnOk, IsSome};
ghost use Rattle.std.specs.BTreeMap.{get};
ghost use Rattle.std.specs.Ordering.{nat_cmp};
ghost use Rattle.page_tree.specs.Tree.{Tree};
ghost use Rattle.page_tree.specs.Number.{place_numbered};
ghost use Rattle.visit_replay.specs.inside.Differing.{AreHiddenUnder, KnowsInputs};

use crate::named_inputs::NamedInputs;
use page_tree::{NoMemory, Page};
use std::alloc::Global;
use std::collections::BTreeMap;
use std::mem;

/// Those of each parent that was asked for. All together are no more than the nodes of the page.
#[derive(Drop)]
pub(crate) struct KnownInputs<'p> {
    page: &'p Page,
    parents: BTreeMap<u32, NamedInputs<'p>>,
}

impl<'p> KnownInputs<'p> {
    /// Of no parent. It takes no memory.
    pub(crate) fn new(alloc: Global, page: &'p Page) -> KnownInputs<'p>
        ensures { KnowsInputs page.now result }
    {
        KnownInputs {
            page,
            parents: BTreeMap::new(alloc),
        }
    }

    /// All of them; none are left here. It takes no memory.
    pub(crate) fn take(&mut self, alloc: Global) -> KnownInputs<'p>
        ensures taken { result ≡ self.old }
        ensures left { (page : Tree) → KnowsInputs page self.old → KnowsInputs page self.new }
    {
        let none = KnownInputs::new(alloc, self.page);
        mem::replace(self, none)
    }

    /// Looks at the children of a node, unless that was done.
    pub(crate) fn look_under(&mut self, alloc: Global, parent: u32) -> Result<(), NoMemory>
        ensures known { OnOk result ((page : Tree) → KnowsInputs page self.old → KnowsInputs page self.new) }
        ensures there { OnOk result (IsSome (get nat_cmp self.new.parents parent)) }
    {
        if self.parents.contains_key(&parent) {
            return Ok(());
        }
        let inputs = NamedInputs::under(alloc, self.page, parent)?;
        self.parents.insert(parent, inputs)?;
        Ok(())
    }

    /// Those of a node that was looked at.
    pub(crate) fn inputs_under(&self, parent: u32) -> &NamedInputs<'p>
        requires { IsSome (get nat_cmp self.now.parents parent) }
        ensures { (page : Tree) → KnowsInputs page self.now
            → AreHiddenUnder page (place_numbered parent page) result.now }
    {
        match self.parents.get(&parent) {
            None => unreachable!(),
            Some(inputs) => inputs,
        }
    }
}
