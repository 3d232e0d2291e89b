//! The pairs that a form sends, by what is on the page and what was typed there.
ghost use Rattle.std.specs.Prelude.{All};
ghost use Rattle.std.proofs.Props.{props};
ghost use Rattle.visit_replay.specs.inside.Senders.{IsSender};

use crate::forms::Filled;
use crate::senders::Sender;

/// They are told one by one (`at`).
#[derive(Drop)]
pub struct SentPairs<'w> {
    pub(crate) filled: Filled<'w, 'w>,
    // those under the form
    pub(crate) senders: &'w [Sender<'w>],
    ghost are: { All (IsSender filled.page.now) senders.now } by { Prim.hlevel props },
}
