//! The collector over sockets and files of this machine: `collect PORT FOLDER [ORIGIN] [MEBIBYTES]`.
#![tactic(auto)]

mod call;
mod disk_folder;
mod recorder;
mod round_collector;
mod serve_fault;
mod serving;

pub use call::{CollectFault, Collecting, accept_call};
pub use disk_file::DiskFile;
pub use disk_folder::{DiskFolder, FolderFault};
pub use serve_fault::ServeFault;
pub use serving::Serving;
