//! The nodes that may send something under the forms of a page that were sent.
ghost use Rattle.std.specs.Prelude.{◌≡◌, ◌<◌, OnOk, IsSome};
ghost use Rattle.std.specs.BTreeMap.{get};
ghost use Rattle.std.specs.Ordering.{nat_cmp};
ghost use Rattle.page_tree.specs.Tree.{Tree};
ghost use Rattle.page_tree.specs.Limits.{nodes};
ghost use Rattle.visit_replay.specs.inside.Senders.{KnowsForms, SendUnder};

use crate::senders::Senders;
use page_tree::{NoMemory, Page, Text};
use std::alloc::Global;
use std::collections::BTreeMap;

/// Those of each form that was asked for, with the names that are fresh.
#[derive(Drop)]
pub(crate) struct KnownForms<'p> {
    page: &'p Page,
    pub(crate) names: &'p [Text],
    forms: BTreeMap<u32, Senders<'p>>,
}

impl<'p> KnownForms<'p> {
    /// Of no form. It takes no memory.
    pub(crate) fn new(alloc: Global, page: &'p Page, names: &'p [Text]) -> KnownForms<'p>
        ensures known { KnowsForms page.now result }
        ensures names { result.names.now ≡ names.now }
    {
        KnownForms {
            page,
            names,
            forms: BTreeMap::new(alloc),
        }
    }

    /// Looks at what stands under a form, unless that was done.
    pub(crate) fn look_under(&mut self, alloc: Global, form: u32) -> Result<(), NoMemory>
        requires { form < nodes self.old.page.now }
        ensures known { OnOk result ((page : Tree) → KnowsForms page self.old → KnowsForms page self.new) }
        ensures names { self.new.names ≡ self.old.names }
        ensures there { OnOk result (IsSome (get nat_cmp self.new.forms form)) }
    {
        if self.forms.contains_key(&form) {
            return Ok(());
        }
        let senders = Senders::under(alloc, self.page, form, self.names)?;
        self.forms.insert(form, senders)?;
        Ok(())
    }

    /// Those under a form that was looked at.
    pub(crate) fn senders_under(&self, form: u32) -> &Senders<'p>
        requires { IsSome (get nat_cmp self.now.forms form) }
        ensures { (page : Tree) → KnowsForms page self.now → SendUnder self.now.names.now page form result.now.all.items }
    {
        match self.forms.get(&form) {
            None => unreachable!(),
            Some(senders) => senders,
        }
    }
}
