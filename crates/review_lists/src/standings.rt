//! How many visits stand so or so: of a client, and of all of them.
ghost use Rattle.std.specs.Prelude.{◌≡◌, count_by, sum_by};
ghost use Rattle.conflict_desk.specs.declared.decided.Standing.{Standing as OneStanding};
ghost use Rattle.conflict_desk.specs.declared.decided.Standing.TheVariants.{Waiting};
ghost use Rattle.review_state.specs.Counts.{count_in};
ghost use Rattle.review_lists.specs.Capped.{capped};
ghost use Rattle.review_lists.specs.Standings.{how_many_of, was_made, all_waiting};

use conflict_desk::Desk;
use review_state::{VisitCounts, counts_of};
use upload_reader::Client;
use warp_run::{ClientSummary, PutDecision, Repaired};

/// Of all clients.
#[derive(Clone, Copy, Debug, PartialEq, Eq)]
pub struct Totals {
    /// How many visits wait.
    pub waiting: usize,
    /// How many decisions were made.
    pub decided: usize,
}

/// What the head of each page tells. It asks for each visit how it stands.
pub fn totals_of(repaired: &Repaired) -> Totals
    ensures waiting { result.waiting ≡ capped (all_waiting repaired.now) }
    ensures decided { result.decided ≡ count_by was_made repaired.now.decided }
{
    Totals {
        waiting: all_waiting(&repaired.desk, repaired.clients.as_slice()),
        decided: all_made(repaired.decided.as_slice()),
    }
}

fn all_waiting(desk: &Desk, clients: &[ClientSummary]) -> usize
    ensures { result ≡ capped (sum_by (λ client. how_many_of desk.now client.client Waiting) clients.now) }
{
    let mut waiting: usize = 0;
    for client in clients {
        waiting = waiting.saturating_add(counts_for(desk, &client.client).waiting);
    }
    waiting
}

fn all_made(decided: &[PutDecision]) -> usize
    ensures { result ≡ count_by was_made decided.now }
{
    decided.iter().filter(|put| was_made(put)).count()
}

pub(crate) fn was_made(put: &PutDecision) -> bool
    ensures { result ≡ was_made put.now }
{
    put.answer.is_ok()
}

/// Of a client; none of one that the desk doesn't have.
pub(crate) fn counts_for(desk: &Desk, client: &Client) -> VisitCounts
    ensures { (standing : OneStanding) → count_in result standing ≡ how_many_of desk.now client.now standing }
{
    match desk.docket(client) {
        Some(docket) => counts_of(docket),
        None => VisitCounts {
            waiting: 0,
            kept: 0,
            cancelled: 0,
            done: 0,
            untouched: 0,
        },
    }
}
