//! A file that grows at its end as a source: it is read from its start, by the handle that it is written by.
//!
//! What is believed of the system stands in `GrowingFile` of `upload_files`.
#![tactic(auto)]

mod source;

pub use source::FileSource;
