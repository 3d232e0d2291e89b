//! The end of the queue at which items are taken.
ghost use Rattle.std.specs.Prelude.{◌≡◌, [], replicate};
ghost use Rattle.crossbeam_queue.specs.Passes.{view, IsSamePass};
ghost use Rattle.lane_queue.specs.Answers.{TakesOne, TriesToTake, LeavesRest};
ghost use Rattle.lane_queue.specs.Opened.{fresh_taker};
ghost use Rattle.lane_queue.specs.Queue.{IsPassOf};

use crate::answers::{Take, TryTake};
use crate::item::Item;
use crate::lanes::LaneQueue;
use crate::putter::Putter;
use crate::view::QueueView;
use crate::waiting::{Turns, rest};
use crossbeam_queue::Pass;
use std::marker::Model;
use std::sync::Wait;

// How often the taker yields the processor before it sleeps, for some 0.1 ms in all: each sleep costs the putter that ends it a good part of that, and the
// putters are what it waits for.
const YIELDS: u32 = 128;

/// Takes the items of all lanes, on whatever thread it is. Contracts see its pass, which knows the items that were taken.
pub struct Taker<T> {
    pass: Pass<Item<T>, QueueView<T>>,
    // how many items of each lane were taken
    counts: Vec<u64>,
    // how many lanes have not ended
    running: u32,
}

impl<T> Model for Taker<T> {
    ghost use Rattle.crossbeam_queue.specs.Passes.{Pass};
    ghost use Rattle.lane_queue.specs.declared.item.Item.{Item};
    ghost use Rattle.lane_queue.specs.declared.view.QueueView.{QueueView};
    ghost use Rattle.lane_queue.specs.inside.Passes.{IsTaker};

    ghost Value = { Pass (Item T) (QueueView T) };

    ghost view = { λ t. t.pass };

    ghost invariant = { λ t. IsTaker t.pass t.counts.items t.running };
}

impl<T> Drop for Taker<T> {
    fn drop(self) {
        let Self {
            pass: _pass,
            counts: _counts,
            running: _,
        } = self;
    }
}

impl<T> Taker<T> {
    /// The taker of so many lanes of which nothing was taken.
    #[tactic(auto, using(crate::proofs::Counts::fresh))]
    pub(crate) fn over(pass: Pass<Item<T>, QueueView<T>>, counts: Vec<u64>, lanes: u32) -> Taker<T>
        requires whole { pass.me.1 ≡ [] }
        requires fresh { view pass ≡ fresh_taker lanes }
        requires counts { counts.items ≡ replicate lanes 0 }
        ensures { result ≡ pass }
    {
        Taker {
            pass,
            counts,
            running: lanes,
        }
    }

    /// The pass that it holds.
    pub fn pass(&self) -> &Pass<Item<T>, QueueView<T>>
        ensures { result.now ≡ self.now }
    {
        &self.pass
    }

    /// The next item, once there is one, or that each lane has ended. Where a lane's putter is gone without its last item, it waits for ever.
    pub fn take<R: Wait>(&mut self, rt: &R, lanes: &LaneQueue<T>) -> Take<T>
        requires lanes { IsPassOf lanes.now self.old }
        ensures pass { IsSamePass self.old self.new }
        ensures lanes { IsPassOf lanes.now self.new }
        ensures answer { TakesOne (view self.old) (view self.new) result }
    {
        let mut turns = Turns::Yields(YIELDS);
        for _ in rt.forever() {
            let sleep = if turns.are_over() {
                Some(lanes.announce_taker_sleep())
            } else {
                None
            };
            match self.try_take(rt, lanes) {
                TryTake::Item(item) => return Take::Item(item),
                TryTake::AllEnded => return Take::AllEnded,
                TryTake::Empty => {}
            }
            rest(rt, &mut turns, sleep);
        }
        unreachable!()
    }

    /// One try to take the next item. It waits only for another thread that is in the middle of its step.
    #[tactic(auto, using(crate::proofs::Counts::ended))]
    pub fn try_take<R: Wait>(&mut self, rt: &R, lanes: &LaneQueue<T>) -> TryTake<T>
        requires lanes { IsPassOf lanes.now self.old }
        ensures pass { IsSamePass self.old self.new }
        ensures lanes { IsPassOf lanes.now self.new }
        ensures answer { TriesToTake (view self.old) (view self.new) result }
    {
        if self.running == 0 {
            return TryTake::AllEnded;
        }
        let Some(item) = lanes.pop(rt, &mut self.pass) else {
            return TryTake::Empty;
        };
        self.counts[item.lane as usize] += 1;
        self.running -= u32::from(item.last);
        TryTake::Item(item)
    }
}

/// How many of the items that were put in that putter's lane weren't taken: no more than the queue holds. Those that were taken are the first of them. It waits
/// only where other putters put at that moment.
#[tactic(auto, using(crate::proofs::Counts::joined))]
pub fn reckon<T, R: Wait>(
    rt: &R,
    lanes: &LaneQueue<T>,
    taker: &mut Taker<T>,
    putter: Putter<T>,
) -> u64
    requires taker { IsPassOf lanes.now taker.old }
    requires putter { IsPassOf lanes.now putter }
    ensures pass { IsSamePass taker.old taker.new }
    ensures lanes { IsPassOf lanes.now taker.new }
    ensures kept { ((view taker.new).made ≡ (view taker.old).made) × ((view taker.new).got ≡ (view taker.old).got) }
    ensures rest { LeavesRest lanes.now.room (view taker.old) (view putter) result }
{
    let (pass, lane, next) = putter.into_parts();
    lanes.take_in(rt, &mut taker.pass, pass);
    next - taker.counts[lane as usize]
}
