//! Replays uploads from files and folders on the site of a file, and writes one report.
//!
//! Which uploads a call names is told first (`names`); then each is opened, its hello read, and they are taken to their ends, round by round (`taking`); then what
//! the logs keep is replayed, decided and reported (`replaying`). The contract of `replay_by` says what its report is of, by what its files gave.
#![tactic(auto)]

// The uploads that are named, and what becomes of each.
mod at_once;
mod closing;
mod drawing;
mod drawn_files;
mod ends;
mod greeting;
mod hands;
mod met_clients;
mod names;
mod open_round;
mod opens;
mod own_lanes;
mod stretch;
mod taken_round;
mod taking;

// The report, and all of it.
mod concluding;
mod halves;
mod lines;
mod machine;
mod replayed;
mod replaying;
mod site;
mod summaries;

pub use ends::UploadEnd;
pub use halves::{replay_uploads, report_replayed};
pub use machine::{Folders, ProgressLine};
pub use names::{Named, name_uploads};
pub use opens::{OpensUploads, Watches};
pub use replayed::{Replayed, ToldUploads};
pub use replaying::{ReplayEnd, replay, replay_by};
