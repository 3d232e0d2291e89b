//! What the desk has against a decision.
ghost use Rattle.std.specs.Prelude.{◌≡◌};
ghost use Rattle.conflict_desk.specs.Desk.{refusal};

use conflict_desk::{Desk, DeskFault};
use upload_reader::Client;

/// What the desk has against a decision on that visit: C1 where the client isn't there, C2 where the visit isn't its front.
pub(crate) fn refusal(desk: &Desk, client: &Client, visit: u64) -> Option<DeskFault>
    ensures { result ≡ refusal client.now visit desk.now }
{
    match desk.front(client) {
        Err(fault) => Some(fault),
        Ok(None) => Some(DeskFault::NotFront(None)),
        Ok(Some(front)) => if front == visit {
            None
        } else {
            Some(DeskFault::NotFront(Some(front)))
        },
    }
}
