//! The administrator's page over sockets and files of this machine: `review PORT SITE UPLOADS..`.
#![tactic(auto)]

mod call;
mod fault;
mod opening;
mod server;
mod site_lock;

pub use call::{ReviewCallFault, Reviewing, accept_call};
pub use fault::ReviewFault;
pub use opening::review_by;
pub use server::ReviewServer;
