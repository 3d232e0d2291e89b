//! The pieces of `review/pieces/` as parts of HTML that is made of them. `tools/pieces` writes this file and those in its folder.

mod client;
mod drawn;
mod events;
mod frame;
mod overview;
mod requests;
mod search;
mod texts;
mod visit;
