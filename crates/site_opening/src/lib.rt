//! A site is read from its file, by the handle by which decisions are written behind it.
#![tactic(auto)]

mod opening;

pub use opening::{NoSite, SiteInFile, open_site};
