//! Which paths have which step at which level, and which end there.
ghost use Rattle.std.specs.Prelude.{◌≡◌, ◌++◌, ◌↔◌, ◌⊎◌, ◌<◌, ◌≤◌, ℕ, List, Ok, length, OnOk, IfOk};
ghost use Rattle.xpath_child.specs.Path.{Step, index_text};
ghost use Rattle.xpath_child.specs.Fault.{path_in};
ghost use Rattle.site_hooks.specs.Sets.{IsIn, AddsSome};
ghost use Rattle.site_hooks.specs.Levels.{IsOfStep, IsOfStepAt, IsOfEndAt, AddsNumber};

use crate::number_set::NumberSet;
use page_tree::{NoMemory, Text};
use std::alloc::Global;
use std::collections::BTreeMap;
use std::fmt::Write;

/// The paths that have a step at one level, by the step's text, and those that end there.
#[derive(Drop)]
pub(crate) struct Level {
    steps: BTreeMap<String, NumberSet>,
    pub(crate) ends: NumberSet,
}

impl Level {
    /// It takes no memory.
    pub(crate) fn new(alloc: Global) -> Level
        ensures steps { (text : List ℕ) (number : ℕ) → ¬ (IsOfStep result text number) }
        ensures ends { (number : ℕ) → ¬ (IsIn result.ends number) }
    {
        Level {
            steps: BTreeMap::new(alloc),
            ends: NumberSet::new(alloc),
        }
    }

    /// Notes that the path of that number has this step.
    pub(crate) fn insert(
        &mut self,
        alloc: Global,
        step: &str,
        number: usize,
    ) -> Result<(), NoMemory>
        ensures steps { OnOk result ((text : List ℕ) (other : ℕ) → IsOfStep self.new text other
            ↔ (IsOfStep self.old text other ⊎ ((text ≡ step.now) × (other ≡ number)))) }
        ensures ends { self.new.ends ≡ self.old.ends }
    {
        if let Some(set) = self.steps.get_mut(step) {
            return set.insert(number);
        }
        let mut set = NumberSet::new(alloc);
        set.insert(number)?;
        self.steps.insert(String::from_str(alloc, step)?, set)?;
        Ok(())
    }

    /// Adds those of the others whose step here is written so.
    pub(crate) fn add_common(
        &self,
        alloc: Global,
        test: &str,
        index: Option<u32>,
        others: &[u64],
        into: &mut [u64],
    ) -> Result<(), NoMemory>
        requires len { length into.old ≡ length others.now }
        ensures len { length into.new ≡ length others.now }
        ensures adds { OnOk result (AddsSome (IsOfStep self.now (test.now ++ index_text index)) others.now into.old into.new) }
    {
        let text = text_of(alloc, test, index)?;
        if let Some(set) = self.steps.get(text.as_str()) {
            set.add_common(others, into);
        }
        Ok(())
    }
}

/// Notes that the path of that number has this text.
pub(crate) fn add_path(
    alloc: Global,
    levels: &mut Vec<Level>,
    text: &str,
    number: usize,
) -> Result<(), NoMemory>
    ensures { OnOk result ((path : List Step) → path_in text.now ≡ Ok path
        → AddsNumber path number levels.old.items levels.new.items) }
{
    let Some(steps) = text.strip_prefix('/') else {
        return Ok(());
    };
    let mut at = 0;
    for step in steps.split('/') {
        insert_at(alloc, levels, at, step, number)?;
        at += 1;
    }
    levels[at - 1].ends.insert(number)
}

// Notes that the path of that number has this step at that level.
fn insert_at(
    alloc: Global,
    levels: &mut Vec<Level>,
    at: usize,
    step: &str,
    number: usize,
) -> Result<(), NoMemory>
    requires { at ≤ length levels.old.items }
    ensures there { OnOk result (at < length levels.new.items) }
    ensures steps { OnOk result ((level other : ℕ) (text : List ℕ) → IsOfStepAt levels.new.items level text other
        ↔ (IsOfStepAt levels.old.items level text other ⊎ ((level ≡ at) × ((text ≡ step.now) × (other ≡ number))))) }
    ensures ends { OnOk result ((level other : ℕ) → IsOfEndAt levels.new.items level other
        ↔ IsOfEndAt levels.old.items level other) }
{
    if at == levels.len() {
        levels.push(Level::new(alloc))?;
    }
    levels[at].insert(alloc, step, number)
}

// The text of a step.
fn text_of(alloc: Global, test: &str, index: Option<u32>) -> Result<Text, NoMemory>
    ensures { IfOk result (λ text. text ≡ test.now ++ index_text index) }
{
    let mut text = String::from_str(alloc, test)?;
    if let Some(n) = index {
        write!(text, "[{n}]")?;
    }
    Ok(Text::from(text))
}
