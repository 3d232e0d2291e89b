//! Pages as trees: what a browser saw, and what a repaired site would show.
//!
//! A page is read from a JSON value (`Page::from_value`), or from a place in a JSON document, of which no tree of values is made (`Page::from_place`), or
//! made of a tree (`Page::new`), and is then only looked at: by the numbers of its nodes, each of which is found at once, or by places, which are turned into
//! numbers first. An attribute is found by bisection. Each call's answer is proved to be its definition's, in `specs/`.
#![tactic(auto)]

mod building;
mod child_texts;
mod control;
mod fault;
mod inspection;
mod limits;
mod memory;
mod numbered;
mod page;
mod parts;
mod place;
mod reading;
mod rows;
mod siblings;
mod starting;
mod table;
mod text;
mod text_walk;
mod texts;
mod tree;
mod walking;

pub use child_texts::ChildTexts;
pub use control::Control;
pub use fault::PageFault;
pub use limits::{MAX_DEPTH, MAX_NAME_BYTES, MAX_NODES};
pub use memory::NoMemory;
pub use page::Page;
pub use place::Place;
pub use starting::StartText;
pub use text::{Text, is_name};
pub use tree::{Attributes, Tree};
