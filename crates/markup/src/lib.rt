//! Texts as HTML of which nothing is markup, pieces with slots for them, and drawings: HTML that does nothing, whatever texts and values stand in it.
//!
//! A drawing has two elements that mean nothing to a browser, with four attributes that do nothing (`IsInertHtml` in `specs/Drawing.antt`). What is
//! written between `open` and `close` is drawn inside.
#![tactic(auto)]

mod filling;
mod laws;
mod tags;
mod words;

pub use filling::{Part, fill};
pub use laws::{drawings_join, escaped_is_inert};
pub use tags::{Facet, Layout, close, open};
pub use words::add_words;
