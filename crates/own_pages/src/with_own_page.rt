//! A site for one visit.
ghost use Rattle.std.specs.Prelude.{◌≡◌, option_map};
ghost use Rattle.std.specs.Option.{option_or};

use page_tree::{NoMemory, Page};
use site_hooks::{SiteHooks, SiteLaw};

/// A site as a visit sees it that may have a page of its own: that one stands at each address, and else what the others have. Signals are the others'.
#[derive(Debug, Drop)]
pub struct WithOwnPage<'a, H> {
    pub own: Option<&'a Page>,
    pub others: &'a H,
}

impl<'a, L: SiteLaw> SiteLaw for WithOwnPage<'a, L> {
    ghost page_of = { λ site address. option_or (option_map (λ page. page.now) site.own) (L.page_of site.others.now address) };

    ghost signals = { λ site address old new. L.signals site.others.now address old new };
}

impl<'a, H: SiteHooks> SiteHooks for WithOwnPage<'a, H> {
    fn make(&self, address: &str) -> Result<Option<Page>, NoMemory> {
        match self.own {
            Some(page) => Ok(Some(page.copy()?)),
            None => self.others.make(address),
        }
    }

    fn signals(&self, address: &str, old: &Page, new: &Page) -> Result<bool, NoMemory> {
        self.others.signals(address, old, new)
    }
}
