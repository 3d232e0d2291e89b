//! Pages that single visits have of their own, and the site as such a visit sees it.
#![tactic(auto)]

mod pages;
mod with_own_page;

pub use pages::OwnPages;
pub use with_own_page::WithOwnPage;
