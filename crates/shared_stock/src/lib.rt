//! A list of items that threads draw from, one at a time.
//!
//! `map_drawn` gives what the work makes of each, in the order of the list. Threads that draw in another way put what they made into order by `in_order`.
#![tactic(auto)]

mod drawing;
mod slots;
mod stock;

pub use drawing::map_drawn;
pub use slots::{Made, in_order};
