//! The paths that a site watches, each of them once.
ghost use Rattle.std.specs.Prelude.{◌≡◌, ◌≢◌, ◌<◌, [], ℕ, length, get_or, false, IsTrue, IfOk, IfSome, OnOk, OnErr};
ghost use Rattle.std.specs.List.{list_any, Contains};
ghost use Rattle.xpath_child.specs.Path.{path_text};
ghost use Rattle.site_hooks.specs.Table.{is_changed};
ghost use Rattle.site_hooks.specs.Findings.{AreFound};
ghost use Rattle.site_hooks.specs.Kept.{HaveNumbers, AddsPath};

use crate::changes::{differ, differ_one_by_one};
use crate::findings::Findings;
use crate::levels::{Level, add_path};
use crate::noting::find_one_by_one;
use crate::walk::Walk;
use page_tree::{NoMemory, Page};
use std::alloc::Global;
use std::collections::BTreeMap;
use std::marker::Model;
use xpath_child::Path;

/// With more paths a page is gone through once for all of them, with fewer for one after another.
const FEW: usize = 32;

/// Paths that are looked for together. Contracts see the list of them.
#[derive(Drop)]
pub(crate) struct WatchList {
    paths: Vec<Path>,
    // their numbers, by their texts
    numbers: BTreeMap<String, usize>,
    levels: Vec<Level>,
    // whether the levels are those of the paths; no more, once memory was wanting halfway
    is_whole: bool,
}

impl Model for WatchList {
    ghost use Rattle.std.specs.Prelude.{List, IsTrue};
    ghost use Rattle.xpath_child.specs.Path.{Step};
    ghost use Rattle.site_hooks.specs.Kept.{HaveNumbers};
    ghost use Rattle.site_hooks.specs.Levels.{AreLevels};

    ghost Value = { List (List Step) };

    ghost view = { λ l. l.paths.items };

    ghost invariant = { λ l. HaveNumbers l.numbers l.paths.items × (IsTrue l.is_whole → AreLevels l.levels.items l.paths.items) };
}

impl WatchList {
    /// It takes no memory.
    pub(crate) fn new(alloc: Global) -> WatchList
        ensures { result ≡ [] }
    {
        WatchList {
            paths: Vec::new(alloc),
            numbers: BTreeMap::new(alloc),
            levels: Vec::new(alloc),
            is_whole: true,
        }
    }

    /// How many there are.
    pub(crate) fn len(&self) -> usize
        ensures { result ≡ length self.now }
    {
        self.paths.len()
    }

    /// Adds a path, unless it is there; after an error all is as before.
    pub(crate) fn add(&mut self, path: Path) -> Result<(), NoMemory>
        ensures ok { OnOk result (AddsPath self.old path self.new) }
        ensures err { OnErr result (self.new ≡ self.old) }
    {
        let text = path.write()?;
        if is_among(&self.paths, &self.numbers, &path, text.as_str()) {
            return Ok(());
        }
        let number = self.paths.len();
        let alloc = *self.paths.allocator();
        let was_whole = self.is_whole && path.is_of(text.as_str());
        self.is_whole = false;
        add_path(alloc, &mut self.levels, text.as_str(), number)?;
        self.numbers.insert(text.into_string(), number)?;
        self.paths.push(path)?;
        self.is_whole = was_whole;
        Ok(())
    }

    /// What each of them finds on a page.
    pub(crate) fn find(&self, page: &Page) -> Result<Findings, NoMemory>
        ensures { IfOk result (λ found. AreFound page.now self.now found) }
    {
        match self.walk(page)? {
            Some(found) => Ok(found),
            None => find_one_by_one(*self.paths.allocator(), &self.paths, page),
        }
    }

    /// Whether one of them has another text on an old page than on a new one. What they find on the new one may be known.
    pub(crate) fn differ(
        &self,
        old: &Page,
        new: &Page,
        after: Option<&Findings>,
    ) -> Result<bool, NoMemory>
        requires { IfSome after (λ found. AreFound new.now self.now found.now) }
        ensures { IfOk result (λ changed. changed ≡ list_any (is_changed old.now new.now) self.now) }
    {
        let Some(before) = self.walk(old)? else {
            return Ok(differ_one_by_one(&self.paths, old, new, after));
        };
        match after {
            Some(after) => Ok(differ(old, &before, new, after)),
            None => Ok(differ(old, &before, new, &self.find(new)?)),
        }
    }

    // What each of them finds, by one walk over the page. None where they are few, or memory was wanting as they came.
    fn walk(&self, page: &Page) -> Result<Option<Findings>, NoMemory>
        ensures { IfOk result (λ found. IfSome found (λ findings. AreFound page.now self.now findings)) }
    {
        if self.paths.len() <= FEW || !self.is_whole {
            return Ok(None);
        }
        let walk = Walk {
            alloc: *self.paths.allocator(),
            paths: &self.paths,
            levels: &self.levels,
            page,
        };
        Ok(Some(walk.find()?))
    }
}

// Whether a path, which has that text, is one of these.
fn is_among(paths: &[Path], numbers: &BTreeMap<String, usize>, path: &Path, text: &str) -> bool
    requires numbers { HaveNumbers numbers.now paths.now }
    requires text { path_text path.now ≡ text.now }
    ensures yes { IsTrue result → Contains paths.now path.now }
    ensures no { result ≡ false → (number : ℕ) → number < length paths.now
        → path_text (get_or paths.now number []) ≢ text.now }
{
    match numbers.get(text) {
        Some(number) if *number < paths.len() => paths[*number].is_of(text) && path.is_of(text),
        _ => false,
    }
}
