//! Room in the heap of a thread.
#![tactic(auto)]

mod heap;

pub use heap::{Heap, make_room};
