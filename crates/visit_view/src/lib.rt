//! The parts of a visit's page, by its client's docket, the visits of the log, and the page that stands there now.
//!
//! `add_top` adds which visit it is, why it is a conflict, and the two forms that decide, just where it is the first of its client that waits; `rest_of` makes
//! what stands below, of pieces and drawings alone; `draw_recorded` and `draw_repaired` draw its pages.
#![tactic(auto)]

// a visit, and where it stands
mod found_visit;
mod numbered;

// what is looked at of a conflict
mod places;
mod seen;
mod spots;

// words
mod cutting;
mod events;
mod words;

// the parts of the page
mod along;
mod asked;
mod deciding;
mod drawing;
mod event_list;
mod event_part;
mod figures;
mod opener;
mod requests;
mod rest;
mod texts;
mod top;

pub use drawing::{draw_recorded, draw_repaired};
pub use found_visit::FoundVisit;
pub use numbered::{place_of, visit_of};
pub use rest::rest_of;
pub use top::add_top;
