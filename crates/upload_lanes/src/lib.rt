//! Uploads of several clients at once, each taken into its client's log by threads: an uploader for each, and up to four recorders.
//!
//! What is taken of a lane is said by the words of `lanes_in_turn`, of that lane alone.
#![tactic(auto)]

mod alone;
mod gate;
mod packing;
mod parties;
mod party;
mod recorder;
mod sent;
mod threads;
mod uploader;

pub use lanes_in_turn::{
    GatherFault, Gathered, LaneResult, RefusedRound, Stop, gather_again_in_order, gather_in_order,
};
pub use threads::{gather, gather_again, take_lanes};
