//! Files of this machine that grow at their end.
#![tactic(auto)]

mod fault;
mod file;

pub use fault::file_fault;
pub use file::DiskFile;
