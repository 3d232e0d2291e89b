//! The collector's answers: what each request gets, and what becomes of the clients' files.
#![tactic(auto)]

mod asking;
mod beginning;
mod collector;
mod cookie;
mod fields;
mod heard;
mod names;
mod saying;
mod telling;
mod verdict;

pub use collector::Collector;
pub use names::Names;
