//! What was looked up on the page that a visit was made on, to tell what it asked for there.
ghost use Rattle.visit_replay.specs.inside.Differing.{KnowsOwn};

use crate::known_forms::KnownForms;
use crate::known_paths::KnownPaths;
use page_tree::{Page, Text};
use std::alloc::Global;

/// Paths, and what stands under forms.
#[derive(Drop)]
pub(crate) struct OwnLookups<'v> {
    pub(crate) paths: KnownPaths<'v>,
    pub(crate) forms: KnownForms<'v>,
}

impl<'v> OwnLookups<'v> {
    /// Nothing yet, where these names are fresh. It takes no memory.
    pub(crate) fn new(alloc: Global, page: &'v Page, names: &'v [Text]) -> OwnLookups<'v>
        ensures { KnowsOwn names.now page.now result }
    {
        OwnLookups {
            paths: KnownPaths::new(alloc),
            forms: KnownForms::new(alloc, page, names),
        }
    }
}
