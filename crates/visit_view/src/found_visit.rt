//! A visit with what there is of it.
ghost use Rattle.std.specs.Prelude.{◌<◌, length};
ghost use Rattle.std.proofs.Props.{props};
ghost use Rattle.visit_view.specs.Visits.{AreVisitsInOrder};

use client_log::Visit;
use conflict_desk::{Case, OpenDocket};
use upload_reader::Client;

/// A visit on its client's docket, where it stands there, and the visits that the client's log keeps.
#[derive(Drop)]
pub struct FoundVisit<'s> {
    pub client: &'s Client,
    pub number: u64,
    pub docket: &'s OpenDocket,
    pub place: usize,
    pub case: &'s Case,
    pub visits: &'s [Visit],
    /// The visit as the log has it.
    pub kept: Option<&'s Visit>,
    pub ghost within: { place < length docket.now.cases },
    pub ghost ascend: { AreVisitsInOrder visits.now } by { Prim.hlevel props },
}
