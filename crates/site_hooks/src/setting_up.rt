//! How a table of pages and watched paths is set up.
ghost use Rattle.std.specs.Prelude.{◌≡◌, [], ◌∷◌, ◌++◌, ℕ, List, None, OnOk, OnErr};
ghost use Rattle.site_hooks.specs.Table.{AddsPage, table_page, watched_in};

use crate::site_page::SitePage;
use crate::table::Table;
use crate::watch_list::WatchList;
use page_tree::{NoMemory, Page, Text};
use std::alloc::Global;
use std::collections::BTreeMap;
use xpath_child::Path;

/// How many findings of watched paths a table keeps at the most, 8 bytes each.
const MOST_FINDINGS: usize = 1_048_576;

impl Table {
    /// A site without pages that watches nothing. It takes no memory.
    pub fn new(alloc: Global) -> Table
        ensures pages { (address : List ℕ) → table_page result address ≡ None }
        ensures watched { watched_in result ≡ [] }
    {
        Table {
            pages: BTreeMap::new(alloc),
            watched: Vec::new(alloc),
            list: WatchList::new(alloc),
        }
    }

    /// Adds the page at an address, in place of an earlier one; after an error all is as before.
    pub fn add_page(&mut self, address: Text, page: Page) -> Result<(), NoMemory>
        ensures ok { OnOk result (AddsPage self.old address page self.new) }
        ensures err { OnErr result ((other : List ℕ) → table_page self.new other ≡ table_page self.old other) }
        ensures watched { watched_in self.new ≡ watched_in self.old }
    {
        let is_kept = self.pages.len() < MOST_FINDINGS / self.list.len().max(1);
        let site_page = SitePage::new(page, &self.list, is_kept)?;
        self.pages.insert(address.into_string(), site_page)?;
        Ok(())
    }

    /// Watches one path more; after an error all is as before.
    pub fn watch(&mut self, path: Path) -> Result<(), NoMemory>
        ensures ok { OnOk result (watched_in self.new ≡ watched_in self.old ++ path ∷ []) }
        ensures err { OnErr result (watched_in self.new ≡ watched_in self.old) }
        ensures pages { (address : List ℕ) → table_page self.new address ≡ table_page self.old address }
    {
        self.watched.push(path.copy()?)?;
        if let Err(e) = self.list.add(path) {
            self.watched.pop();
            return Err(e);
        }
        Ok(())
    }
}
