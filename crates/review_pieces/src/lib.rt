//! The files of the administrator's page: a function for each piece of HTML, which adds it with what stands in its slots, and the style and the script.
//!
//! What a slot of a text is given is escaped, whatever it is; what a slot of HTML is given was made of pieces or drawings. `tools/pieces` writes it all of
//! `review/`.
#![tactic(auto)]

pub mod files;
pub mod pieces;
