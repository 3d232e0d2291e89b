//! What the administrator's page shows of what waits and of what was decided: the visits of each client by how they stand, the clients' fronts, a client's
//! visits as a tree, and what is found.
//!
//! All of it reads a desk, and keeps nothing: so it can't differ from what the desk says. A request for a page looks at each visit of a client a few times.
#![tactic(auto)]

mod branches;
mod codes;
mod counts;
mod finding;
mod fronts;
mod paging;

pub use branches::{Branches, branches_of};
pub use codes::coded;
pub use counts::{VisitCounts, counts_of};
pub use finding::{found_in, has_part};
pub use fronts::{Front, fronts_of};
pub use paging::{ShownPage, page_of};
