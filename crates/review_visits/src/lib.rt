//! The view of one visit on the administrator's page, and the pages that it shows in frames.
//!
//! `add_visit` adds why a visit is a conflict, what was done on the page that the user saw and what stands there now, its requests, and what a cancel takes
//! along. The two forms that decide stand there just where the visit is the first of its client that waits, by the desk's own word. All else is made of pieces
//! and drawings (`IsMade` of `made_html`), so nothing of a user is markup. It reads, and keeps nothing. `visit_view` has the parts of the page.
#![tactic(auto)]

mod drawn;
mod finding;
mod telling;
mod visit;

pub use drawn::add_drawing;
pub use telling::add_told;
pub use visit::add_visit;
