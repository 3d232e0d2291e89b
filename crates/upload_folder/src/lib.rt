//! The files of all clients in one folder: each is opened as it is needed, read back, and written to in rounds that end
//! with a sync of all that was told.
//!
//! What is believed of the system stands in two traits, `Folder` and `GrowingFile`.
#![tactic(auto)]

mod clients;
mod folder;
mod held;
mod laws;
mod letting_go;
mod round;
mod slot;
mod slots;
mod taking;
mod untold;

pub use clients::Clients;
pub use folder::Folder;
pub use laws::told_stay;
pub use untold::Untold;
