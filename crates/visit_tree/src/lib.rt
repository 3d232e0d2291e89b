//! A client's visits as a tree, each below the one that opened it: in which order they are shown, and how deep each stands.
//!
//! It goes over the visits a few times, without recursion, however long a chain of them is.
#![tactic(auto)]

mod levels;
mod linking;
mod ordering;

pub use levels::levels_of;
pub use ordering::tree_order;
