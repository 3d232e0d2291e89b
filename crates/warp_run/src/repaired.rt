//! What was repaired, and what was decided of it.
use crate::listed::Listed;
use conflict_desk::{Decision, Desk, DeskFault};
use lanes_in_turn::Stop;
use upload_reader::{Client, Ending};

/// What is said of a client beside its visits.
#[derive(Debug, Drop)]
pub struct ClientSummary {
    pub client: Client,
    /// How many messages were taken of its upload in the last round, and how that ended; none where no end was taken.
    pub taken: u64,
    pub end: Option<Ending>,
    /// How many bytes its log keeps, and how many visits were lost for want of room.
    pub cost: u64,
    pub lost: u64,
}

/// A decision that was put to the desk, and what this answered: that the decision was made, or why it wasn't.
#[derive(Debug, Drop)]
pub struct PutDecision {
    pub decision: Decision,
    pub answer: Result<(), DeskFault>,
}

/// What became of all clients' visits, in the order of the clients, with the decisions so far.
#[derive(Drop)]
pub struct Repaired {
    /// Why the taking of messages stopped.
    pub stop: Stop,
    pub clients: Listed<ClientSummary>,
    /// A docket for each client, with a case for each visit that its log keeps.
    pub desk: Desk,
    pub decided: Listed<PutDecision>,
}
