//! The pages of the site beside which visits are replayed by their elements.
ghost use Rattle.std.specs.Prelude.{ℕ, List, ◌≡◌, Option, Some, IfOk, IfSome, OnOk};
ghost use Rattle.page_tree.specs.Tree.{Tree};
ghost use Rattle.replay_workers.specs.SitePages.{ArePagesOf};

use client_log::Visit;
use page_tree::{NoMemory, Page};
use site_hooks::SiteHooks;
use std::alloc::Global;
use std::collections::BTreeMap;
use visit_replay::{Finding, Patch, affected};

/// The site's page at an address.
#[derive(Drop)]
pub struct PageAt<'a> {
    pub address: &'a str,
    pub page: Page,
}

/// Those of all addresses.
#[derive(Drop)]
pub struct SitePages<'a> {
    pub all: Vec<PageAt<'a>>,
    // where that of an address stands
    places: BTreeMap<&'a str, usize>,
}

/// The site's pages at the visits' addresses, each once; none where events go by their paths.
pub fn pages_of<'a, H: SiteHooks>(
    alloc: Global,
    hooks: &H,
    patch: &Patch,
    finding: &Finding,
    visits: &[&'a Visit],
) -> Result<SitePages<'a>, NoMemory>
    ensures { IfOk result (λ pages. ArePagesOf (H.page_of hooks.now) pages.all.items) }
{
    let mut pages = SitePages::none(alloc);
    if finding.names().is_none() {
        return Ok(pages);
    }
    let mut before = None;
    for visit in visits {
        let address = visit.address.as_str();
        if before == Some(address) {
            continue;
        }
        before = Some(address);
        if affected(patch, visit) && !pages.places.contains_key(address) {
            add_page(hooks, address, &mut pages)?;
        }
    }
    Ok(pages)
}

fn add_page<'a, H: SiteHooks>(
    hooks: &H,
    address: &'a str,
    pages: &mut SitePages<'a>,
) -> Result<(), NoMemory>
    ensures { OnOk result (ArePagesOf (H.page_of hooks.now) pages.old.all.items
        → ArePagesOf (H.page_of hooks.now) pages.new.all.items) }
{
    match hooks.make(address)? {
        None => Ok(()),
        Some(page) => {
            pages.places.insert(address, pages.all.len())?;
            pages.all.push(PageAt { address, page })?;
            Ok(())
        }
    }
}

impl<'a> SitePages<'a> {
    /// None. It takes no memory.
    pub fn none(alloc: Global) -> SitePages<'a>
        ensures { (page_of : List ℕ → Option Tree) → ArePagesOf page_of result.all.items }
    {
        SitePages {
            all: Vec::new(alloc),
            places: BTreeMap::new(alloc),
        }
    }

    /// That at an address.
    pub fn at(&self, address: &str) -> Option<&PageAt<'a>>
        ensures page { (page_of : List ℕ → Option Tree) → ArePagesOf page_of self.now.all.items
            → IfSome result (λ one. page_of one.now.address.now ≡ Some one.now.page) }
        ensures address { IfSome result (λ one. one.now.address.now ≡ address.now) }
    {
        let place = self.places.get(address).copied()?;
        let one = self.all.as_slice().get(place)?;
        if one.address == address {
            Some(one)
        } else {
            None
        }
    }
}
