//! What is looked for.
ghost use Rattle.std.specs.Prelude.{◌≡◌};

use memchr::memmem::Finder;
use review_state::has_part;

/// A text, and what finds it as a part of others.
#[derive(Drop)]
pub(crate) struct Sought<'t> {
    pub(crate) text: &'t str,
    pub(crate) part: Finder<'t>,
    ghost is_part: { part ≡ text.now },
}

impl<'t> Sought<'t> {
    ghost use Rattle.review_lists.specs.SearchView.{has_in_it};

    pub(crate) fn new(text: &'t str) -> Sought<'t>
        ensures { result.text.now ≡ text.now }
    {
        Sought {
            text,
            part: Finder::new(text.as_bytes()),
        }
    }

    /// Whether that text has it in it.
    pub(crate) fn is_in(&self, text: &str) -> bool
        ensures { result ≡ has_in_it self.now.text.now text.now }
    {
        has_part(&self.part, text.as_bytes())
    }
}
