//! What each code of a conflict means, and what to do about it, in the words of `docs/CODES.md`.
#![tactic(auto)]

mod meanings;
mod todos;

pub use meanings::meaning_of;
pub use todos::todo_of;
