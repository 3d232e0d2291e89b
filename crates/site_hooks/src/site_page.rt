//! A page of the site, with what watched paths find on it.
ghost use Rattle.std.specs.Prelude.{◌≡◌, IfOk};
ghost use Rattle.site_hooks.specs.Kept.{IsOfFirst};

use crate::findings::Findings;
use crate::watch_list::WatchList;
use page_tree::{NoMemory, Page};
use std::fmt;

/// A page, and what the paths find on it that were watched when it was added, so many; none where that isn't kept.
#[derive(Drop)]
pub(crate) struct SitePage {
    pub(crate) page: Page,
    pub(crate) found: Option<Findings>,
    pub(crate) watched: usize,
}

impl SitePage {
    pub(crate) fn new(page: Page, watched: &WatchList, is_kept: bool) -> Result<SitePage, NoMemory>
        ensures page { IfOk result (λ site_page. site_page.page ≡ page) }
        ensures kept { IfOk result (λ site_page. IsOfFirst watched.now site_page) }
    {
        let found = if is_kept {
            Some(watched.find(&page)?)
        } else {
            None
        };
        Ok(SitePage {
            page,
            found,
            watched: watched.len(),
        })
    }
}

impl fmt::Debug for SitePage {
    fn fmt<W: fmt::Write>(&self, f: &mut fmt::Formatter<W>) -> fmt::Result {
        self.page.fmt(f)
    }
}
