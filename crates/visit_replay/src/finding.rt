//! How events find their places on a repaired page: a part of the site's law.
ghost use Rattle.std.specs.Prelude.{◌≡◌, None, Some, option_map};

use page_looks::FreshNames;
use std::marker::Model;

/// By their paths, or by the elements that they were made on. Contracts see the second as the names whose values differ
/// at each load.
#[derive(Debug, Drop)]
pub struct Finding {
    fresh: Option<FreshNames>,
}

impl Model for Finding {
    ghost use Rattle.std.specs.Prelude.{ℕ, List, Option};

    ghost Value = { Option (List (List ℕ)) };

    ghost view = { λ f. f.fresh };
}

impl Finding {
    /// By their paths.
    pub fn by_path() -> Finding
        ensures { result ≡ None }
    {
        Finding { fresh: None }
    }

    /// By their elements, where these names are fresh.
    pub fn by_element(fresh: FreshNames) -> Finding
        ensures { result ≡ Some fresh }
    {
        Finding { fresh: Some(fresh) }
    }

    /// The fresh names, where events go by their elements.
    pub fn names(&self) -> Option<&FreshNames>
        ensures { option_map (λ names. names.now) result ≡ self.now }
    {
        match &self.fresh {
            None => None,
            Some(names) => Some(names),
        }
    }
}
