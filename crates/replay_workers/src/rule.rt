//! The rule that the claims are under, and the steps that are taken on them.
use crate::view::{SeatView, Terms};
use atomic_table::{Join, Play, Split, TableRule};

pub(crate) struct InTurn;

impl TableRule<(), SeatView, Terms> for InTurn {
    ghost use Rattle.replay_workers.specs.inside.Rule.{IsInTurn, first_of};

    ghost holds = { IsInTurn };

    ghost first = { λ _. first_of 1 };
}

/// A seat more.
pub(crate) struct OpensSeat;

impl Split<SeatView> for OpensSeat {
    ghost use Rattle.std.specs.Prelude.{◌+◌, [], ◌∷◌};
    ghost use Rattle.replay_workers.specs.inside.Rule.{seat_with};

    ghost left = { λ v. record v { made = v.made + 1 } };

    ghost right = { λ _. seat_with ([] ∷ []) };
}

/// A seat draws the next number.
pub(crate) struct Draw;

impl Play<(), SeatView> for Draw {
    ghost use Rattle.std.specs.Prelude.{◌≡◌};
    ghost use Rattle.replay_workers.specs.inside.Rule.{DrewNumber};

    ghost then = { λ _ before x after. DrewNumber before.0 x after.0 × (after.1 ≡ before.1) };
}

/// A seat takes over what another drew.
pub(crate) struct GathersSeats;

impl Join<SeatView> for GathersSeats {
    ghost use Rattle.std.specs.Prelude.{[], ◌++◌};
    ghost use Rattle.replay_workers.specs.inside.Rule.{seat_with};

    ghost both = { λ v w. record v { rows = v.rows ++ w.rows } };

    ghost spent = { seat_with [] };
}
