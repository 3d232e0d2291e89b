//! How two texts differ: what they begin with alike and what they end with alike, in whole words, and what stands in between in each.
//!
//! It goes over the texts a few times, whatever stands in them, and takes no memory.
#![tactic(auto)]

mod comparing;
mod edges;

pub use comparing::{TextParts, compare_texts};
