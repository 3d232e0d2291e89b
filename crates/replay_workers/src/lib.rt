//! The visits of several clients replayed by several worker threads, which divide the list of them all among themselves: each draws numbers, and the visit at a
//! number that it drew is its own to replay. Then each visit follows its parent among its client's: the clients are
//! dealt to as many threads.
//!
//! What a contract says of the numbers that threads draw is said by seats. A seat is one worker's, and knows which numbers it drew (in proofs alone).
#![tactic(auto)]

mod by_client;
mod claims;
mod fault;
mod hands;
mod in_order;
mod last_page;
mod pool;
mod rule;
mod seat;
mod share;
mod site_pages;
mod view;

pub use claims::Claims;
pub use fault::PoolFault;
pub use last_page::{LastPage, PageThere};
pub use pool::{KeptVisits, replay_all, replay_owned};
pub use seat::Seat;
pub use share::{Done, Share, work};
pub use site_pages::{PageAt, SitePages, pages_of};
pub use visit_replay::MAX_WORKERS;
