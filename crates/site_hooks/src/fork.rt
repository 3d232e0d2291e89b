//! Two sites, parted by a prefix of the address.
ghost use Rattle.std.specs.Prelude.{◌≡◌, nat_eq};
ghost use Rattle.std.specs.List.{starts_with};
ghost use Rattle.site_hooks.specs.Fork.{fork_prefix, fork_inside, fork_outside, fork_answer};

use crate::hooks::SiteHooks;
use crate::law::SiteLaw;
use page_tree::{NoMemory, Page, Text};

/// A site made of two: one has the addresses that begin with a prefix, the other has the rest.
#[derive(Debug, Drop)]
pub struct Fork<A, B> {
    prefix: Text,
    inside: A,
    outside: B,
}

impl<A, B> Fork<A, B> {
    /// The site that asks `inside` at each address that begins with the prefix, byte by byte, and `outside` at every other. It takes no memory.
    pub fn new(prefix: Text, inside: A, outside: B) -> Fork<A, B>
        ensures prefix { fork_prefix result ≡ prefix }
        ensures inside { fork_inside result ≡ inside }
        ensures outside { fork_outside result ≡ outside }
    {
        Fork {
            prefix,
            inside,
            outside,
        }
    }

    fn is_inside(&self, address: &str) -> bool
        ensures { result ≡ starts_with nat_eq address.now (fork_prefix self.now) }
    {
        address.starts_with(self.prefix.as_str())
    }
}

impl<A: SiteLaw, B: SiteLaw> SiteLaw for Fork<A, B> {
    ghost page_of = { λ fork address. fork_answer (fork_prefix fork) address (A.page_of (fork_inside fork) address) (B.page_of (fork_outside fork) address) };

    ghost signals = { λ fork address old new. fork_answer (fork_prefix fork) address (A.signals (fork_inside fork) address old new) (B.signals (fork_outside fork) address old new) };
}

impl<A: SiteHooks, B: SiteHooks> SiteHooks for Fork<A, B> {
    fn make(&self, address: &str) -> Result<Option<Page>, NoMemory> {
        if self.is_inside(address) {
            self.inside.make(address)
        } else {
            self.outside.make(address)
        }
    }

    fn signals(&self, address: &str, old: &Page, new: &Page) -> Result<bool, NoMemory> {
        if self.is_inside(address) {
            self.inside.signals(address, old, new)
        } else {
            self.outside.signals(address, old, new)
        }
    }
}
