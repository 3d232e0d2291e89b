//! What a repaired site answers to a replay: the page at an address, and whether the new page at an address conflicts with the old one.
//!
//! A site has a law (`SiteLaw`): two definitions over plain pages, which exist in proofs alone. What a replay asks are its hooks (`SiteHooks`), and
//! each of their answers is proved to be the law's. Three kinds of site are here: pages by address with watched paths (`Table`), two closures of the
//! caller's beside the law that they keep (`Closures`), and two sites parted by a prefix of the address (`Fork`).
#![tactic(auto)]

mod changes;
mod closures;
mod findings;
mod fork;
mod hooks;
mod law;
mod levels;
mod noting;
mod number_set;
mod setting_up;
mod siblings;
mod site_page;
mod table;
mod table_hooks;
mod walk;
mod watch_list;

pub use closures::{Closures, ConflictTeller, PageMaker};
pub use fork::Fork;
pub use hooks::SiteHooks;
pub use law::SiteLaw;
pub use table::Table;
