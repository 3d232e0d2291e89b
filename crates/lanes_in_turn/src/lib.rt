//! Rounds of uploads: each upload is a lane, which is taken into its client's log. Here lanes are taken on one thread, in turn or one alone.
//!
//! What is taken of a lane is said by the same words for all ways, of that lane alone: the first messages of its stream are recorded behind those of the
//! client's earlier rounds, each once and in order, and all of them where the lane has its end.
#![tactic(auto)]

// How a round begins and what it leaves.
mod checks;
mod fault;
mod gathered;
mod lane;
mod limits;
mod round;
mod rounds;

// Lanes in turn, and a lane alone.
mod alone;
mod halt;
mod in_turn;

pub use alone::{gather_alone, take_alone};
pub use fault::{GatherFault, RefusedRound};
pub use gathered::{Gathered, LaneResult, Stop};
pub use halt::{Asks, Halt};
pub use in_turn::{gather_again_in_order, gather_in_order};
pub use lane::have_ended;
pub use limits::MAX_ROUND_LANES;
pub use rounds::{BegunRound, begin_round, end_round};
