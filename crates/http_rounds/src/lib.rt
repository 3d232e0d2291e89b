//! A service over the sockets of one address, in rounds: reading, one settle, writing.
#![tactic(auto)]

mod peer;
mod peers;
mod round_server;
mod round_service;
mod work;

pub use round_server::RoundServer;
pub use round_service::RoundService;
