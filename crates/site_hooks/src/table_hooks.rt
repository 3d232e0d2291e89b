//! What a table of pages and watched paths answers.
ghost use Rattle.std.specs.Prelude.{IfSome};
ghost use Rattle.site_hooks.specs.Findings.{AreFound};
ghost use Rattle.site_hooks.specs.Table.{table_page, signals_in};

use crate::findings::Findings;
use crate::hooks::SiteHooks;
use crate::law::SiteLaw;
use crate::table::Table;
use page_tree::{NoMemory, Page};

impl Table {
    // What the watched paths find on a page, where it is kept, the page is the one at that address, and no path came since it was added.
    fn found(&self, address: &str, page: &Page) -> Option<&Findings>
        ensures { IfSome result (λ found. AreFound page.now self.now.list found.now) }
    {
        let site_page = self.pages.get(address)?;
        let found = site_page.found.as_ref()?;
        if site_page.watched == self.list.len() && site_page.page.same(page) {
            Some(found)
        } else {
            None
        }
    }
}

impl SiteLaw for Table {
    ghost page_of = { table_page };

    ghost signals = { λ table address old new. signals_in table old new };
}

impl SiteHooks for Table {
    fn make(&self, address: &str) -> Result<Option<Page>, NoMemory> {
        match self.pages.get(address) {
            None => Ok(None),
            Some(site_page) => Ok(Some(site_page.page.copy()?)),
        }
    }

    // K9 of a replay, where it is true
    fn signals(&self, address: &str, old: &Page, new: &Page) -> Result<bool, NoMemory> {
        if self.list.len() == 0 || old.same(new) {
            return Ok(false);
        }
        self.list.differ(old, new, self.found(address, new))
    }
}
