//! A walk over a page that finds what any of many paths reaches.
ghost use Rattle.std.specs.Prelude.{◌≡◌, ◌↔◌, ◌+◌, ◌^◌, ◌<◌, [], ℕ, length, get_or, IsTrue, IfOk, OnOk};
ghost use Rattle.page_tree.specs.Limits.{nodes};
ghost use Rattle.page_tree.specs.Name.{is_name};
ghost use Rattle.page_tree.specs.Number.{place_numbered};
ghost use Rattle.xpath_child.specs.Path.{max_index_digits};
ghost use Rattle.site_hooks.specs.Findings.{AreFound, Grows};
ghost use Rattle.site_hooks.specs.Levels.{AreLevels};
ghost use Rattle.site_hooks.specs.Sets.{Has};
ghost use Rattle.site_hooks.specs.Walk.{PicksAt, AreAlive, EndsFound, FindsAll};

use crate::findings::Findings;
use crate::levels::Level;
use crate::number_set::{all_numbers, clear, has_none, no_numbers, word_count};
use crate::siblings::Siblings;
use page_tree::{NoMemory, Page};
use std::alloc::Global;
use xpath_child::Path;

/// A walk over a page, by the steps of these paths.
#[derive(Drop)]
pub(crate) struct Walk<'a> {
    pub(crate) alloc: Global,
    pub(crate) paths: &'a [Path],
    pub(crate) levels: &'a [Level],
    pub(crate) page: &'a Page,
}

impl<'a> Walk<'a> {
    /// What each path finds.
    pub(crate) fn find(&self) -> Result<Findings, NoMemory>
        requires { AreLevels self.now.levels.now self.now.paths.now }
        ensures { IfOk result (λ found. AreFound self.now.page.now self.now.paths.now found) }
    {
        let mut found = Findings::new(self.alloc, self.paths.len())?;
        let Some(name) = self.page.name_of(0) else {
            return Ok(found);
        };
        self.page.within_limits();
        let all = all_numbers(self.alloc, word_count(self.paths.len()))?;
        let mut alive = no_numbers(self.alloc, all.len())?;
        self.lead(0, name, 0, 0, &all, &mut alive)?;
        self.visit(0, 0, &alive, &mut found)?;
        Ok(found)
    }

    // Notes the node for the paths in the set that end there, which all lead to it, and goes on below.
    #[inline(never)]
    fn visit(
        &self,
        at: u32,
        level: usize,
        alive: &[u64],
        found: &mut Findings,
    ) -> Result<(), NoMemory>
        requires levels { AreLevels self.now.levels.now self.now.paths.now }
        requires inside { at < nodes self.now.page.now }
        requires level { level ≡ length (place_numbered at self.now.page.now) }
        requires alive { AreAlive self.now (place_numbered at self.now.page.now) alive.now }
        requires found { length found.old.found.items ≡ length self.now.paths.now }
        ensures len { length found.new.found.items ≡ length self.now.paths.now }
        ensures finds { OnOk result (FindsAll self.now alive.now (place_numbered at self.now.page.now) found.old found.new) }
    {
        if level >= self.levels.len() || has_none(alive) {
            return Ok(());
        }
        self.page.within_limits();
        self.note(at, level, alive, found);
        let mut below = no_numbers(self.alloc, alive.len())?;
        let mut siblings = Siblings::new(self.alloc);
        let mut child = self.page.nodes_under(at).start;
        for i in 0..self.page.children_of(at) {
            if let Some(name) = self.page.name_of(child) {
                let (same, elements) = (siblings.named(name), siblings.elements);
                self.lead(level + 1, name, same, elements, alive, &mut below)?;
                self.visit(child, level + 1, &below, found)?;
                siblings.count(name)?;
            }
            child = self.page.nodes_under(child).end;
        }
        Ok(())
    }

    // Notes a node for the paths in the set that end at this level.
    fn note(&self, at: u32, level: usize, alive: &[u64], found: &mut Findings)
        requires levels { AreLevels self.now.levels.now self.now.paths.now }
        requires inside { at < nodes self.now.page.now }
        requires level { level ≡ length (place_numbered at self.now.page.now) }
        requires alive { AreAlive self.now (place_numbered at self.now.page.now) alive.now }
        requires found { length found.old.found.items ≡ length self.now.paths.now }
        ensures len { length found.new.found.items ≡ length self.now.paths.now }
        ensures grows { Grows self.now.page.now self.now.paths.now found.old found.new }
        ensures ends { EndsFound self.now alive.now (place_numbered at self.now.page.now) found.new }
    {
        let Some(level) = self.levels.get(level) else {
            return;
        };
        let words = level.ends.words();
        for word in words {
            if let Some(others) = alive.get(word.index) {
                found.note_each(word.index, *others & word.bits, at);
            }
        }
    }

    // Of the paths that lead to a node, those that lead to such a child, before which so many of its name stand, and so many elements.
    fn lead(
        &self,
        level: usize,
        name: &str,
        same: u32,
        elements: u32,
        alive: &[u64],
        below: &mut [u64],
    ) -> Result<(), NoMemory>
        requires levels { AreLevels self.now.levels.now self.now.paths.now }
        requires name { IsTrue (is_name name.now) }
        requires few_named { same + 1 < 10 ^ max_index_digits }
        requires few_elements { elements + 1 < 10 ^ max_index_digits }
        requires len { length below.old ≡ length alive.now }
        ensures len { length below.new ≡ length alive.now }
        ensures leads { OnOk result ((number : ℕ) → Has below.new number ↔ (Has alive.now number
            × PicksAt (get_or self.now.paths.now number []) level name.now same elements)) }
    {
        clear(below);
        let Some(level) = self.levels.get(level) else {
            return Ok(());
        };
        level.add_common(self.alloc, name, None, alive, below)?;
        level.add_common(self.alloc, name, Some(same + 1), alive, below)?;
        level.add_common(self.alloc, "*", None, alive, below)?;
        level.add_common(self.alloc, "*", Some(elements + 1), alive, below)
    }
}
