//! The rule that the queue is under, and the steps that are taken on it.
use crate::item::Item;
use crate::view::QueueView;
use crossbeam_queue::protocol::{Join, Lesson, Outcome, Protocol, Split};

pub(crate) struct InLanes;

impl<T> Protocol<Item<T>, QueueView<T>> for InLanes {
    ghost use Rattle.lane_queue.specs.Rule.{KeepsOrder};
    ghost use Rattle.lane_queue.specs.Opened.{fresh_taker};

    ghost holds = { KeepsOrder };

    ghost first = { fresh_taker 0 };
}

/// A push by a putter, and what it sees where the queue is full.
pub(crate) struct Sends;

impl<T> Outcome<Item<T>, QueueView<T>> for Sends {
    ghost use Rattle.std.specs.Prelude.{◌≡◌};
    ghost use Rattle.lane_queue.specs.Rule.{with_put};

    ghost then = { λ v x w. w ≡ with_put v x };
}

impl<T> Lesson<Item<T>, QueueView<T>> for Sends {
    ghost use Rattle.lane_queue.specs.Rule.{IsSeen};

    ghost fact = { IsSeen };
}

/// A pop by the taker, and what it sees where the queue is empty.
pub(crate) struct Gets;

impl<T> Outcome<Item<T>, QueueView<T>> for Gets {
    ghost use Rattle.lane_queue.specs.Rule.{TakesItem};

    ghost then = { TakesItem };
}

impl<T> Lesson<Item<T>, QueueView<T>> for Gets {
    ghost use Rattle.lane_queue.specs.Rule.{IsSeen};

    ghost fact = { IsSeen };
}

/// A lane more.
pub(crate) struct OpensLane;

impl<T> Split<QueueView<T>> for OpensLane {
    ghost use Rattle.std.specs.Prelude.{◌+◌};
    ghost use Rattle.lane_queue.specs.Opened.{fresh_putter};

    ghost left = { λ v. record v { made = v.made + 1 } };

    ghost right = { λ v. fresh_putter v.made };
}

/// The taker takes a putter in, and learns what became of its items.
pub(crate) struct Reckons;

impl<T> Join<QueueView<T>> for Reckons {
    ghost use Rattle.std.specs.Prelude.{false};
    ghost use Rattle.lane_queue.specs.Opened.{fresh_putter};
    ghost use Rattle.lane_queue.specs.inside.Passes.{with_putter};

    ghost both = { with_putter };

    ghost spent = { record (fresh_putter 0) { puts = false } };
}

impl<T> Lesson<Item<T>, QueueView<T>> for Reckons {
    ghost use Rattle.std.specs.Prelude.{◌≡◌, ◌<◌, ◌++◌};
    ghost use Rattle.lane_queue.specs.Items.{of_lane};

    // what was put in the putter's lane is what was taken of it, and what the queue held of it
    ghost fact = { λ v held. (v.lane < v.made) × (v.put ≡ of_lane v.lane v.got ++ of_lane v.lane held) };
}
