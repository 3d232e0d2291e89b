//! What waits for the administrator's decision, client by client.
//!
//! A case is a visit of a client's log with what its replay gave, and a docket has the cases of one client, in the order of their numbers.
//! A desk is opened with the dockets of several clients. Contracts see of each a book: its cases as they were opened, and the decisions made on them.
//! The front of a book is the least visit whose conflict waits. It alone may be decided, and is kept or cancelled; then the next one is the front.
//! A cancelled visit takes along the visits that it led to, and these need no decision: those that have it on their chain of parents within the docket.
//! A visit that the log discarded cuts that chain, so what it led to stands by itself.
//!
//! It is proved that a desk answers what `specs/Book.antt` says of the dockets as they were opened and of the decisions made, and that conflicts are decided
//! in order, none twice and none below a cancelled visit, and stay as they were left (`specs/Laws.antt`). `decide` never answers `C3`: all memory is taken
//! when a desk is opened. That it allocates nothing is only tested, and how long a call takes is neither.
#![tactic(auto)]

mod below;
mod decided;
mod decision;
mod desk;
mod docket;
mod fault;
mod links;
mod open_docket;

pub use decided::{Choice, Standing};
pub use decision::Decision;
pub use desk::Desk;
pub use docket::{Case, Cases, Docket, are_dockets};
pub use fault::DeskFault;
pub use open_docket::OpenDocket;
