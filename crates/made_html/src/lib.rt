//! HTML of the administrator's page that is made of the pieces of `review/pieces/` and of drawings, and of nothing else.
//!
//! A value of `Html` can't be made in another way: so no text of a user is markup in it, whatever a view puts where, and nothing in it decides anything.
#![tactic(auto)]

mod html;
mod parts;

pub use html::Html;
