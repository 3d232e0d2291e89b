//! A site of pages by address, with watched paths.
ghost use Rattle.std.specs.Prelude.{ℕ, List};
ghost use Rattle.std.specs.Option.{ForSome};
ghost use Rattle.std.specs.BTreeMap.{get_by_text};
ghost use Rattle.site_hooks.specs.Kept.{HaveTheSame, IsOfFirst};

use crate::site_page::SitePage;
use crate::watch_list::WatchList;
use std::collections::BTreeMap;
use std::fmt;
use xpath_child::Path;

/// A site that was set up page by page. The page at an address is the one that was added for the whole address; a conflict is signalled where a
/// watched path has another text on the old page than on the new, at whatever address.
///
/// What the watched paths find on a page is searched when it is added, and of use until one more is watched: so watch first.
#[derive(Drop)]
pub struct Table {
    pub(crate) pages: BTreeMap<String, SitePage>,
    pub(crate) watched: Vec<Path>,
    // the same paths, each of them once
    pub(crate) list: WatchList,
    ghost same: { HaveTheSame watched.items list },
    ghost kept: { (address : List ℕ) → ForSome (get_by_text pages address) (IsOfFirst list) },
}

impl fmt::Debug for Table {
    fn fmt<W: fmt::Write>(&self, f: &mut fmt::Formatter<W>) -> fmt::Result {
        f.debug_struct("Table")
            .field("pages", &self.pages)
            .field("watched", &self.watched)
            .finish()
    }
}
