//! What browsers upload, read as messages: whatever comes, each message is taken once and in order, and the first thing that is wrong is named with
//! its line.
#![tactic(auto)]

// What a line says.
mod client;
mod documents;
mod hello_fault;
mod hello_reading;
mod lane_fault;
mod last_members;
mod limits;
mod line;
mod line_reading;
mod members;
mod message;
mod session_fault;
mod unread;

// Which message may follow.
mod counts;
mod header;
mod session;
mod trace;

// A lane, line by line.
mod ending;
mod greeting;
mod next;
mod progress;
mod recent;
mod refused;
mod upload;

pub use byte_streams::{Fed, Last, LineFault, Lines, Source};
pub use client::Client;
pub use documents::Documents;
pub use ending::Ending;
pub use header::Header;
pub use hello_fault::HelloFault;
pub use lane_fault::{LaneEnd, LaneFault};
pub use limits::MAX_NUMBER;
pub use line::Line;
pub use line_reading::read_line;
pub use message::{Event, Message};
pub use next::Next;
pub use recent::Recent;
pub use refused::Refused;
pub use session::Session;
pub use session_fault::SessionFault;
pub use unread::Unread;
pub use upload::Upload;
