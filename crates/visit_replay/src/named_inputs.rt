//! The hidden inputs among the children of one node, with their names.
ghost use Rattle.std.specs.Prelude.{◌≡◌, ◌++◌, ◌∷◌, [], List, Option, ℕ, IfOk, OnOk, if◌then◌else◌, option_map};
ghost use Rattle.page_tree.specs.Number.{place_numbered};
ghost use Rattle.visit_replay.specs.Aim.{is_hidden_named, is_same_name};
ghost use Rattle.visit_replay.specs.inside.Differing.{AreHiddenUnder, numbers_named};

use crate::hidden_inputs::is_hidden;
use page_tree::{NoMemory, Page};
use std::alloc::Global;

/// The number of one, and its name.
#[derive(Drop)]
pub(crate) struct NamedInput<'p> {
    number: u32,
    name: Option<&'p str>,
}

/// All of them, in order. Most visits ask only a few times, so that a map by name wouldn't pay.
#[derive(Drop)]
pub(crate) struct NamedInputs<'p> {
    inputs: Vec<NamedInput<'p>>,
}

impl<'p> NamedInputs<'p> {
    /// Those of a node. The time grows with how many children it has.
    pub(crate) fn under(
        alloc: Global,
        page: &'p Page,
        parent: u32,
    ) -> Result<NamedInputs<'p>, NoMemory>
        ensures { IfOk result (AreHiddenUnder page.now (place_numbered parent page.now)) }
    {
        let mut all = NamedInputs {
            inputs: Vec::new(alloc),
        };
        let mut child = page.nodes_under(parent).start;
        for _i in 0..page.children_of(parent) {
            all.note(page, child)?;
            child = page.nodes_under(child).end;
        }
        Ok(all)
    }

    /// The numbers of those of that name.
    pub(crate) fn numbers(&self, alloc: Global, name: Option<&str>) -> Result<Vec<u32>, NoMemory>
        ensures { IfOk result (λ found. found.items ≡ numbers_named self.now (option_map (λ n. n.now) name.entry)) }
    {
        let mut found = Vec::new(alloc);
        for input in self.inputs.iter() {
            push_if(&mut found, input.number, is_same_name(input.name, name))?;
        }
        Ok(found)
    }

    // Takes in one node more, if it is a hidden input.
    fn note(&mut self, page: &'p Page, number: u32) -> Result<(), NoMemory>
        ensures { OnOk result ((name : Option (List ℕ)) → numbers_named self.new name ≡ numbers_named self.old name
            ++ (if is_hidden_named name page.now (place_numbered number page.now) then number ∷ [] else [])) }
    {
        if is_hidden(page, number) {
            let name = page.attribute_of(number, "name");
            self.inputs.push(NamedInput { number, name })?;
        }
        Ok(())
    }
}

fn push_if(found: &mut Vec<u32>, number: u32, is_one: bool) -> Result<(), NoMemory>
    ensures { OnOk result (found.new.items ≡ found.old.items ++ (if is_one then number ∷ [] else [])) }
{
    if is_one {
        found.push(number)?;
    }
    Ok(())
}

fn is_same_name(name: Option<&str>, other: Option<&str>) -> bool
    ensures { result ≡ is_same_name (option_map (λ n. n.now) name.entry) (option_map (λ n. n.now) other.entry) }
{
    match (name, other) {
        (Some(name), Some(other)) => name == other,
        (None, None) => true,
        (Some(_), None) => false,
        (None, Some(_)) => false,
    }
}
