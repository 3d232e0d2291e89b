//! Decisions that are kept in a site file: each stands there, and is synced, before the desk has it.
//!
//! As long as the file is open, what is shown is what the file says, read again: the repair before any decision, with the decisions of the file made
//! (`IsShown` in `specs/Keeping.antt`). A decision that the desk refuses is written nowhere. Of one that can't be written nothing is left, or the file is closed.
#![tactic(auto)]

mod keeping;
mod line;
mod refusing;
mod undecided;

pub use keeping::DecisionFile;
pub use undecided::Undecided;
