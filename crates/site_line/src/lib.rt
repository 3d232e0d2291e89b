//! The site line: what an administrator repaired, which pages the site shows now, and how its uploads are replayed.
//!
//! A line is read as a site exactly where it is one, and what is kept answers as that site does (`Site::read`).
#![tactic(auto)]

mod decision;
mod fault;
mod parts;
mod reading;
mod refused;
mod site;

pub use fault::SiteFault;
pub use parts::SiteParts;
pub use refused::{SiteMember, refused_member};
pub use site::Site;
