//! What a request to the administrator's page asks for: a function of the request, the port and the token alone.
//!
//! `judge` refuses what comes to another host or from another page, and gives what is to be shown or decided.
#![tactic(auto)]

mod form;
mod host;
mod origin;
mod refusal;
mod target;
mod verdict;

pub use refusal::Refusal;
pub use target::{Side, View};
pub use verdict::{Judged, judge};
