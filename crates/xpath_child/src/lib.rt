//! Paths to elements, as a browser writes them: which text is a path, and which element of a page it selects.
//!
//! A path is read once (`Path::read`), in time linear in its text, and then selects on any page: no node, the only one, or several, by its number
//! (`Path::find`) or by its place (`Path::select`). It is proved that a text is read exactly where a path of the grammar has it, that a fault is
//! the first one in the stated order, at its byte, that a path is written back as it was read, and that a selection is what the path reaches. Each
//! rule is a definition in `specs/`.
#![tactic(auto)]

mod cutting;
mod fault;
mod limits;
mod path;
mod shared_text;
mod step;

pub use fault::{PathFault, PathFaultKind};
pub use limits::{MAX_INDEX_DIGITS, MAX_STEPS};
pub use path::{Found, Path, Target};
