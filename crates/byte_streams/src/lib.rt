//! Bytes in and bytes out: readers and writers that tell what their calls answered, lines that are cut from a source, and texts that are written to a
//! sink.
#![tactic(auto)]

// What reads and writes answered.
mod history;

// Bytes in, and the lines that are cut from them.
mod fault;
mod limits;
mod lines;
mod source;
mod window;

// Bytes out.
mod sink;

pub use fault::LineFault;
pub use history::History;
pub use limits::READ_BYTES;
pub use lines::Lines;
pub use sink::{Sink, Told, WriteFailed, write_text};
pub use source::{Fed, Last, Source};
