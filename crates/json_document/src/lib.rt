//! JSON texts (RFC 8259) read fast, by the tape of `json`, with the meaning of `serde_json`: arrays and objects nest at most 127 deep, each number fits
//! 64 bits or a finite float, and of the members of one name the last counts. Nothing is copied: a document is looked into by places.
#![tactic(auto)]

mod document;
mod fault;
mod fitting;
mod items;
mod members;
mod place;

pub use document::Document;
pub use fault::Fault;
pub use items::Items;
pub use members::Members;
pub use place::JsonPlace;
