//! What a replay asks of a site.
ghost use Rattle.std.specs.Prelude.{◌≡◌, IfOk};

use crate::law::SiteLaw;
use page_tree::{NoMemory, Page};

/// The calls by which a replay asks a site. Each `Ok` is what the site's law says; the only error is want of memory.
pub trait SiteHooks: SiteLaw + Sync {
    /// The repaired page at an address, or none where the site has no page there.
    fn make(&self, address: &str) -> Result<Option<Page>, NoMemory>
        ensures { IfOk result (λ page. page ≡ Self.page_of self.now address.now) };

    /// Whether the new page at an address conflicts with what the user saw on the old one.
    fn signals(&self, address: &str, old: &Page, new: &Page) -> Result<bool, NoMemory>
        ensures { IfOk result (λ signalled. signalled ≡ Self.signals self.now address.now old.now new.now) };
}

impl<H: SiteHooks> SiteHooks for &H {
    fn make(&self, address: &str) -> Result<Option<Page>, NoMemory> {
        (**self).make(address)
    }

    fn signals(&self, address: &str, old: &Page, new: &Page) -> Result<bool, NoMemory> {
        (**self).signals(address, old, new)
    }
}
