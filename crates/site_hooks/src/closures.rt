//! A site of two closures.
ghost use Rattle.std.specs.Prelude.{◌≡◌, ℕ, List, Option, Bool, Result, Ok};
ghost use Rattle.std.specs.declared.alloc.AllocError.{AllocError};
ghost use Rattle.page_tree.specs.Tree.{Tree};
ghost use Rattle.site_hooks.specs.Closures.{AtAddresses, AtPages, MakesBy, TellsBy};

use crate::hooks::SiteHooks;
use crate::law::SiteLaw;
use page_tree::{NoMemory, Page};
use std::marker::Model;

/// What makes the page at an address: every closure from an address to a page, or to none.
pub trait PageMaker {
    // Where it may be called.
    ghost can_make: { Self → List ℕ → Type 0 };
    // What it may answer there.
    ghost may_make: { Self → List ℕ → Result (Option Tree) AllocError → Type 0 };

    fn make_page(&self, address: &str) -> Result<Option<Page>, NoMemory>
        requires { can_make self.now address.now }
        ensures { may_make self.now address.now result };
}

impl<F: Fn(&str) -> Result<Option<Page>, NoMemory>> PageMaker for F {
    ghost can_make = { λ f address. (a : _) → a.now ≡ address → F.pre f a };

    ghost may_make = { λ f address answer. (a : _) × (a.now ≡ address) × F.post f a answer };

    fn make_page(&self, address: &str) -> Result<Option<Page>, NoMemory> {
        self(address)
    }
}

/// What tells conflicts: every closure from an address, an old page and a new one to a truth value.
pub trait ConflictTeller {
    // Where it may be called.
    ghost can_tell: { Self → List ℕ → Tree → Tree → Type 0 };
    // What it may answer there.
    ghost may_tell: { Self → List ℕ → Tree → Tree → Result Bool AllocError → Type 0 };

    fn tell_conflict(&self, address: &str, old: &Page, new: &Page) -> Result<bool, NoMemory>
        requires { can_tell self.now address.now old.now new.now }
        ensures { may_tell self.now address.now old.now new.now result };
}

impl<C: Fn(&str, &Page, &Page) -> Result<bool, NoMemory>> ConflictTeller for C {
    ghost can_tell = { λ c address old new. (a : _) (o : _) (n : _) → a.now ≡ address → o.now ≡ old → n.now ≡ new → C.pre c a o n };

    ghost may_tell = { λ c address old new answer. (a : _) × (o : _) × (n : _) × (a.now ≡ address) × (o.now ≡ old) × (n.now ≡ new) × C.post c a o n answer };

    fn tell_conflict(&self, address: &str, old: &Page, new: &Page) -> Result<bool, NoMemory> {
        self(address, old, new)
    }
}

/// A site by a page maker and a conflict teller, beside the law that they keep. Contracts see it as that law.
///
/// It can be named where the closures' types are parameters: code that makes closures hands them to a function that is generic in
/// `F: PageMaker` and `C: ConflictTeller`, and that one makes the site.
#[derive(Drop)]
pub struct Closures<F: PageMaker, C: ConflictTeller, L: SiteLaw> {
    maker: F,
    teller: C,
    law: L,
}

impl<F: PageMaker, C: ConflictTeller, L: SiteLaw> Model for Closures<F, C, L> {
    ghost use Rattle.site_hooks.specs.Closures.{AtAddresses, AtPages, MakesBy, TellsBy};

    ghost Value = { L };

    ghost view = { λ c. c.law };

    ghost invariant = { λ c. AtAddresses (F.can_make c.maker) × MakesBy (L.page_of c.law) (F.may_make c.maker) × AtPages (C.can_tell c.teller) × TellsBy (L.signals c.law) (C.may_tell c.teller) };
}

impl<F: PageMaker, C: ConflictTeller, L: SiteLaw> Closures<F, C, L> {
    /// The site that the two make. They must keep the law: wherever the address is UTF-8 and the pages are within the limits, both may be called, and
    /// what they answer, want of memory aside, is what the law says. It takes no memory.
    pub fn new(maker: F, teller: C, law: L) -> Closures<F, C, L>
        requires callable_maker { AtAddresses (F.can_make maker) }
        requires lawful_maker { MakesBy (L.page_of law) (F.may_make maker) }
        requires callable_teller { AtPages (C.can_tell teller) }
        requires lawful_teller { TellsBy (L.signals law) (C.may_tell teller) }
        ensures { result ≡ law }
    {
        Closures { maker, teller, law }
    }
}

impl<F: PageMaker, C: ConflictTeller, L: SiteLaw> SiteLaw for Closures<F, C, L> {
    ghost page_of = { λ law address. L.page_of law address };

    ghost signals = { λ law address old new. L.signals law address old new };
}

impl<F: PageMaker + Sync, C: ConflictTeller + Sync, L: SiteLaw + Sync> SiteHooks
    for Closures<F, C, L> {
    fn make(&self, address: &str) -> Result<Option<Page>, NoMemory> {
        self.maker.make_page(address)
    }

    fn signals(&self, address: &str, old: &Page, new: &Page) -> Result<bool, NoMemory> {
        old.within_limits();
        new.within_limits();
        self.teller.tell_conflict(address, old, new)
    }
}
