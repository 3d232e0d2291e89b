//! Pages of single visits.
ghost use Rattle.std.specs.Prelude.{◌≡◌, ℕ, List, None, OnOk, OnErr, option_map};
ghost use Rattle.own_pages.specs.OwnPages.{own_page_at, AddsOwnPage, KeepsOwnPages};

use page_tree::{NoMemory, Page};
use std::alloc::Global;
use std::collections::BTreeMap;

/// The pages that single visits have of their own, by the name of the client and the number of the visit.
#[derive(Debug, Drop)]
pub struct OwnPages {
    clients: BTreeMap<String, BTreeMap<u64, Page>>,
}

impl OwnPages {
    /// None. It takes no memory.
    pub fn new(alloc: Global) -> OwnPages
        ensures { (client : List ℕ) (visit : ℕ) → own_page_at result client visit ≡ None }
    {
        OwnPages {
            clients: BTreeMap::new(alloc),
        }
    }

    /// Adds the page of a visit, in place of an earlier one; after an error all is as before.
    pub fn add(
        &mut self,
        alloc: Global,
        client: &str,
        visit: u64,
        page: Page,
    ) -> Result<(), NoMemory>
        ensures ok { OnOk result (AddsOwnPage self.old client.now visit page self.new) }
        ensures err { OnErr result (KeepsOwnPages self.old self.new) }
    {
        if let Some(visits) = self.clients.get_mut(client) {
            visits.insert(visit, page)?;
            return Ok(());
        }
        let mut visits = BTreeMap::new(alloc);
        visits.insert(visit, page)?;
        self.clients
            .insert(String::from_str(alloc, client)?, visits)?;
        Ok(())
    }

    /// The page of that visit, where it has one of its own. It takes no memory.
    pub fn get(&self, client: &str, visit: u64) -> Option<&Page>
        ensures { option_map (λ page. page.now) result ≡ own_page_at self.now client.now visit }
    {
        self.clients.get(client)?.get(&visit)
    }
}
