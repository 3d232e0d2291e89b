//! Which children of a node stand before the next one.
ghost use Rattle.std.specs.Prelude.{◌≡◌, ◌+◌, ◌<◌, ◌^◌, ℕ, List, OnOk, IfOk, unwrap_or, if◌then◌else◌};
ghost use Rattle.std.specs.Str.{bytes_eq};
ghost use Rattle.site_hooks.specs.Siblings.{count_named};

use page_tree::NoMemory;
use std::alloc::Global;
use std::collections::BTreeMap;

/// How many elements, and how many of each name.
#[derive(Drop)]
pub(crate) struct Siblings<'a> {
    pub(crate) elements: u32,
    named: BTreeMap<&'a str, u32>,
}

impl<'a> Siblings<'a> {
    /// Before the first. It takes no memory.
    pub(crate) fn new(alloc: Global) -> Siblings<'a>
        ensures elements { result.elements ≡ 0 }
        ensures named { (name : List ℕ) → count_named result name ≡ 0 }
    {
        Siblings {
            elements: 0,
            named: BTreeMap::new(alloc),
        }
    }

    pub(crate) fn named(&self, name: &str) -> u32
        ensures { result ≡ count_named self.now name.now }
    {
        self.named.get(name).copied().unwrap_or(0)
    }

    /// Counts an element more.
    pub(crate) fn count(&mut self, name: &'a str) -> Result<(), NoMemory>
        requires elements { self.old.elements + 1 < 2 ^ 32 }
        requires named { count_named self.old name.now + 1 < 2 ^ 32 }
        ensures elements { OnOk result (self.new.elements ≡ self.old.elements + 1) }
        ensures named { OnOk result ((other : List ℕ) → count_named self.new other
            ≡ (if bytes_eq name.now other then count_named self.old other + 1 else count_named self.old other)) }
    {
        let count = self.named(name);
        self.named.insert(name, count + 1)?;
        self.elements += 1;
        Ok(())
    }
}
