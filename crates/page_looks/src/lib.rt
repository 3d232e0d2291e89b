//! The same element on a repaired page: what a user sees of an element, and around it, tells which it was, whatever a repair took out before it.
//!
//! The looks of a page are made once (`Looks::of`), then set beside a recorded page (`Looks::beside`), and then tell for an element of that which one of
//! this page is the same, and whether it still sends the same (`Beside::same`). What is proved of that relation for all pages is told by functions
//! that do nothing (`laws`).
#![tactic(auto)]

mod addresses;
mod beside;
mod finding;
mod fresh_names;
mod guesses;
mod in_forms;
mod laws;
mod looks;
mod numbering;
mod ranks;
mod seeing;
mod sending;
mod sent_numbers;
mod shapes;
mod tables;
mod telling;

pub use addresses::{first_pair, is_passed_over, without_fresh};
pub use beside::{Beside, Same};
pub use fresh_names::FreshNames;
pub use laws::{
    anchors_agree, one_to_one, same_place_is_the_same, unchanged, what_is_the_same_is_alike,
};
pub use looks::Looks;
