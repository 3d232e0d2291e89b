//! Items dealt round to hands in turn, and collected back in order.
//!
//! Item k of a row goes to hand k modulo the number of hands, behind the items that this hand has.
#![tactic(auto)]

mod dealt;

pub use dealt::{collect, deal};
