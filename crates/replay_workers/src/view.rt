//! What is known of the claims in proofs alone: no value of a view is made.
use std::collections::LinkedList;

/// How many numbers there are to claim, and how many seats.
#[derive(Drop)]
pub struct Terms {
    pub count: u64,
    pub workers: u32,
}

/// What a seat knows.
pub struct SeatView {
    /// It is the first seat: it knows how many seats were made.
    pub leads: bool,
    pub made: u32,
    /// What it drew, in order. When the claims are closed, it takes over what the other seats drew, each list as a row of its own.
    pub rows: LinkedList<LinkedList<u64>>,
}
