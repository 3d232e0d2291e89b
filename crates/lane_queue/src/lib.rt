//! One bounded queue from the uploaders of some lanes to one recorder. A lane is one upload's items, in order.
//!
//! What a contract says of a queue that threads share is said by passes. A pass is a token of no bytes that one thread has; what its holder knows of
//! the queue (`QueueView`) is known in proofs alone.
#![tactic(auto)]

mod answers;
mod fault;
mod item;
mod lanes;
mod limits;
mod putter;
pub mod queue_core;
mod room;
mod rule;
mod taker;
mod view;
mod waiting;

pub use answers::{Put, Take, TryPut, TryTake};
pub use fault::QueueFault;
pub use item::Item;
pub use lanes::LaneQueue;
pub use limits::{MAX_LANES, MAX_ROOM};
pub use putter::Putter;
pub use room::Room;
pub use taker::{Taker, reckon};
pub use view::QueueView;
