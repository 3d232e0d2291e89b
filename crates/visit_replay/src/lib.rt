//! What a visit gives when it is replayed on the page that stands at its address now: the requests that result, or a conflict.
//!
//! - `replay` goes through a visit's events once. Each event must find one element of the page (by its path, or by the element that it was made on: `Finding`),
//!   which must still take it; what was typed and
//!   clicked is kept by the numbers of the fields, and a form sends what its fields hold. It costs events times the length of their paths and siblings.
//! - `moved` says whether a request of a visit goes elsewhere now, and `follow_parents` what visits give behind the visits that opened them (K10).
//!
//! It is proved that each answer is the one that `specs/` defines: `Conflict` says why one event can't be replayed and has the conflicts' codes, `Field`
//! what a field holds, `Form` what a form sends, `Requests` and `Outcome` the rest, `Moved` and `Following` what depends on a parent. `RepairedSite` is what
//! replay asks a site. What serves private contracts stands in `specs/inside`.
#![tactic(auto)]

mod address;
mod aims;
mod board;
mod changes;
mod comparing;
mod comparisons;
mod conflicts;
mod counted_query;
mod counterparts;
mod deeds;
mod difference;
mod differing;
mod encoded_words;
mod event_places;
mod fields;
mod finding;
mod first_deeds;
mod following;
mod former;
mod forms;
mod fresh_queries;
mod hidden_inputs;
mod known_forms;
mod known_inputs;
mod known_paths;
mod laws;
mod limits;
mod lookups;
mod moves;
mod moving;
mod named_inputs;
mod noting;
mod outcome;
mod own_lookups;
mod page_senders;
mod passing;
mod patch;
mod repaired_page;
mod replaying;
mod requests;
mod senders;
mod sent_pairs;
mod single;
mod stage;
mod telling;
mod telling_former;
mod told;
mod touched;
mod trail;

pub use difference::{Contrast, Difference};
pub use differing::{told_beside, told_difference, was_asked};
pub use encoded_words::written_as;
pub use event_places::place_of_event;
pub use finding::Finding;
pub use following::follow_parents;
pub use former::Former;
pub use forms::{SentPair, SentValue};
pub use laws::done_asks_alike;
pub use limits::MAX_WORKERS;
pub use moving::moved;
pub use outcome::{ConflictKind, Outcome, conflict_code};
pub use patch::{Patch, affected};
pub use repaired_page::RepairedPage;
pub use replaying::{replay, replay_beside};
pub use requests::{Method, Request, Requests};
pub use sent_pairs::SentPairs;
pub use single::Single;
pub use telling::RequestTelling;
pub use telling_former::FormerTelling;
pub use told::{ToldForm, ToldRequest};
