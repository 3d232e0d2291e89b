//! The paths that were looked up on a page a short while ago: most events act where one of the last few did, or where the one behind the last was looked up.
ghost use Rattle.std.specs.Prelude.{◌≡◌, IfOk, OnOk, IfSome};
ghost use Rattle.page_tree.specs.Tree.{Tree};
ghost use Rattle.visit_replay.specs.Aim.{button_by_path, by_of};
ghost use Rattle.visit_replay.specs.inside.Differing.{IsAt, IsTargetOf, KnowsPaths, Selects};
ghost use Rattle.visit_replay.specs.inside.OneEvent.{IsWithin, places_numbered};

use crate::aims::{only, path_of};
use page_tree::{NoMemory, Page};
use std::alloc::Global;
use upload_reader::Event;
use xpath_child::Path;

// How many are kept.
const MOST: usize = 256;

/// A path, and the node that it selects alone.
#[derive(Drop)]
pub(crate) struct KnownPath<'v> {
    pub(crate) path: &'v Path,
    pub(crate) node: Option<u32>,
}

/// Some paths that were looked up on one page. Once there are too many, all are forgotten.
#[derive(Drop)]
pub(crate) struct KnownPaths<'v> {
    paths: Vec<KnownPath<'v>>,
    /// Where the last one that was asked for stands.
    last: usize,
}

impl<'v> KnownPaths<'v> {
    /// None. It takes no memory.
    pub(crate) fn new(alloc: Global) -> KnownPaths<'v>
        ensures { (page : Tree) → KnowsPaths page result.paths.items }
    {
        KnownPaths {
            paths: Vec::new(alloc),
            last: 0,
        }
    }

    /// The only node of that page that the event's path leads to.
    pub(crate) fn target_of(
        &mut self,
        page: &Page,
        event: &'v Event,
    ) -> Result<Option<u32>, NoMemory>
        requires { KnowsPaths page.now self.old.paths.items }
        ensures known { OnOk result (KnowsPaths page.now self.new.paths.items) }
        ensures target { IfOk result (IsTargetOf page.now event.now) }
    {
        self.only(page, path_of(event))
    }

    /// The node of that page that the path selects, if it is the only one.
    pub(crate) fn only(&mut self, page: &Page, path: &'v Path) -> Result<Option<u32>, NoMemory>
        requires { KnowsPaths page.now self.old.paths.items }
        ensures known { OnOk result (KnowsPaths page.now self.new.paths.items) }
        ensures node { IfOk result (Selects page.now path.now) }
    {
        match place_of(self.paths.as_slice(), self.last, path) {
            Some(place) => {
                self.last = place;
                Ok(self.paths[place].node)
            }
            None => self.look_up(page, path),
        }
    }

    /// The same, which needn't be remembered.
    pub(crate) fn known_or_only(&self, page: &Page, path: &Path) -> Option<u32>
        requires { KnowsPaths page.now self.now.paths.items }
        ensures { Selects page.now path.now result }
    {
        match place_of(self.paths.as_slice(), self.last, path) {
            Some(place) => self.paths[place].node,
            None => only(path, page),
        }
    }

    /// The button that was pressed, if its path selects one node.
    pub(crate) fn button_of(
        &mut self,
        page: &Page,
        event: &'v Event,
    ) -> Result<Option<u32>, NoMemory>
        requires { KnowsPaths page.now self.old.paths.items }
        ensures known { OnOk result (KnowsPaths page.now self.new.paths.items) }
        ensures within { IfOk result (λ button. IsWithin button page.now) }
        ensures place { IfOk result (λ button. places_numbered button page.now ≡ button_by_path page.now (by_of event.now)) }
    {
        match event {
            Event::Submit { by: Some(path), .. } => self.only(page, path),
            _ => Ok(None),
        }
    }

    fn look_up(&mut self, page: &Page, path: &'v Path) -> Result<Option<u32>, NoMemory>
        requires { KnowsPaths page.now self.old.paths.items }
        ensures known { OnOk result (KnowsPaths page.now self.new.paths.items) }
        ensures node { IfOk result (Selects page.now path.now) }
    {
        if self.paths.len() >= MOST {
            self.paths.clear();
        }
        let node = only(path, page);
        self.last = self.paths.len();
        self.paths.push(KnownPath { path, node })?;
        Ok(node)
    }
}

// Where the path stands among these. It is looked for from that place on: in forms, one field follows another.
fn place_of(paths: &[KnownPath<'_>], from: usize, path: &Path) -> Option<usize>
    ensures { IfSome result (λ place. IsAt paths.now path.now place) }
{
    for place in from..paths.len() {
        if paths[place].path.same(path) {
            return Some(place);
        }
    }
    for place in 0..from.min(paths.len()) {
        if paths[place].path.same(path) {
            return Some(place);
        }
    }
    None
}
