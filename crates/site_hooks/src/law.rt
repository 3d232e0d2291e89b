//! The law of a site.
ghost use Rattle.std.specs.Prelude.{ℕ, List, Option, Bool};
ghost use Rattle.page_tree.specs.Tree.{Tree};

/// What a site answers, as two definitions over plain data. They exist in proofs alone.
pub trait SiteLaw {
    // The page at an address, or none.
    ghost page_of: { Self → List ℕ → Option Tree };
    // Whether the site signals a conflict at an address, between an old page and a new one.
    ghost signals: { Self → List ℕ → Tree → Tree → Bool };
}

impl<L: SiteLaw> SiteLaw for &L {
    ghost page_of = { λ law address. L.page_of law.now address };

    ghost signals = { λ law address old new. L.signals law.now address old new };
}
