//! What one worker draws numbers with.
ghost use Rattle.std.specs.Prelude.{◌≡◌, [], ◌∷◌};
ghost use Rattle.replay_workers.specs.Draws.{is_spent};
ghost use Rattle.replay_workers.specs.inside.Rule.{own_list};

use crate::view::SeatView;
use atomic_table::Seat as Pass;
use std::marker::Model;

/// One worker's seat, on whatever thread it is. Contracts see of which claims it is, and which numbers it drew.
#[derive(Drop)]
pub struct Seat {
    pub(crate) pass: Pass<(), SeatView>,
    pub(crate) count: u64,
    pub(crate) spent: bool,
}

impl Model for Seat {
    ghost use Rattle.replay_workers.specs.Draws.{Draws};
    ghost use Rattle.replay_workers.specs.inside.Rule.{own_list};
    ghost use Rattle.replay_workers.specs.inside.Seats.{IsSeat};

    ghost Value = { Draws };

    ghost view = { λ s. record { table_id = s.pass.table_id; count = s.count; drawn = own_list s.pass.me.0 } };

    ghost invariant = { λ s. IsSeat s.pass s.count s.spent };
}

impl Seat {
    /// A seat that has drawn nothing.
    pub(crate) fn of_pass(pass: Pass<(), SeatView>, count: u64) -> Seat
        requires whole { pass.me.1 ≡ [] }
        requires fresh { pass.me.0.rows ≡ [] ∷ [] }
        ensures { result ≡ record { table_id = pass.table_id; count = count; drawn = [] } }
    {
        Seat {
            pass,
            count,
            spent: false,
        }
    }

    /// Whether it drew a number at or past the count: then it draws no more.
    pub fn spent(&self) -> bool
        ensures { result ≡ is_spent self.now }
    {
        self.spent
    }

    /// The pass that it holds.
    pub(crate) fn into_pass(self) -> Pass<(), SeatView>
        ensures of { result.table_id ≡ self.table_id }
        ensures whole { result.me.1 ≡ [] }
        ensures list { result.me.0.rows ≡ self.drawn ∷ [] }
    {
        let Self {
            pass,
            count: _,
            spent: _,
        } = self;
        pass
    }
}
