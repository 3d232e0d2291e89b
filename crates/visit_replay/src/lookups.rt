//! What was looked up on a recorded page and a repaired one, for the events to come.
ghost use Rattle.visit_replay.specs.inside.Differing.{AreLookedUp, KnowsInputs};

use crate::known_inputs::KnownInputs;
use crate::known_paths::KnownPaths;
use page_tree::Page;
use std::alloc::Global;

/// Paths on the recorded page, and hidden inputs on both.
#[derive(Drop)]
pub(crate) struct Lookups<'v, 'p> {
    pub(crate) paths: KnownPaths<'v>,
    pub(crate) recorded: KnownInputs<'v>,
    pub(crate) repaired: KnownInputs<'p>,
}

impl<'v, 'p> Lookups<'v, 'p> {
    /// None on the recorded page. It takes no memory.
    pub(crate) fn new(
        alloc: Global,
        old: &'v Page,
        new: &'v Page,
        repaired: KnownInputs<'p>,
    ) -> Lookups<'v, 'p>
        ensures { KnowsInputs new.now repaired.entry → AreLookedUp old.now new.now result }
    {
        Lookups {
            paths: KnownPaths::new(alloc),
            recorded: KnownInputs::new(alloc, old),
            repaired,
        }
    }
}
