//! Pages as drawings: what a page shows, with marks, as HTML that does nothing.
//!
//! Each element is a `div` that tells its name, whatever it is; texts are texts, and what matters of an element's attributes stands beside it as a text.
//! So nothing of a page runs, leads anywhere or is loaded: what is written is the HTML of drawings (`DrawsBehind` in `specs/Drawn.antt`).
#![tactic(auto)]

mod drawing;
mod fields;
mod marks;
mod notes;
mod showing;

pub use drawing::draw;
pub use marks::{Mark, Marks};
