//! The end of the queue at which one lane's items are put.
ghost use Rattle.std.specs.Prelude.{◌≡◌, ◌<◌, ◌≤◌, ◌+◌, [], length, true, false};
ghost use Rattle.crossbeam_queue.specs.Passes.{view, IsSamePass};
ghost use Rattle.lane_queue.specs.Answers.{Puts, TriesToPut};
ghost use Rattle.lane_queue.specs.Limits.{max_lane_items};
ghost use Rattle.lane_queue.specs.Opened.{fresh_putter};
ghost use Rattle.lane_queue.specs.Queue.{IsPassOf};

use crate::answers::{Put, TryPut};
use crate::item::Item;
use crate::lanes::LaneQueue;
use crate::view::QueueView;
use crossbeam_queue::Pass;
use std::marker::Model;
use std::sync::Wait;

/// Puts the items of one lane, on whatever thread it is. Contracts see its pass, which knows the items that were put.
pub struct Putter<T> {
    pass: Pass<Item<T>, QueueView<T>>,
    lane: u32,
    // the number of the next item
    next: u64,
    over: bool,
}

impl<T> Model for Putter<T> {
    ghost use Rattle.crossbeam_queue.specs.Passes.{Pass};
    ghost use Rattle.lane_queue.specs.declared.item.Item.{Item};
    ghost use Rattle.lane_queue.specs.declared.view.QueueView.{QueueView};
    ghost use Rattle.lane_queue.specs.inside.Passes.{IsPutter};

    ghost Value = { Pass (Item T) (QueueView T) };

    ghost view = { λ p. p.pass };

    ghost invariant = { λ p. IsPutter p.pass p.lane p.next p.over };
}

impl<T> Drop for Putter<T> {
    fn drop(self) {
        let Self {
            pass: _pass,
            lane: _,
            next: _,
            over: _,
        } = self;
    }
}

impl<T> Putter<T> {
    ghost use Rattle.lane_queue.specs.Items.{next_item};
    ghost use Rattle.lane_queue.specs.Rule.{with_put};

    /// The putter of a lane in which nothing was put.
    pub(crate) fn of_lane(pass: Pass<Item<T>, QueueView<T>>, lane: u32) -> Putter<T>
        requires whole { pass.me.1 ≡ [] }
        requires fresh { view pass ≡ fresh_putter lane }
        ensures { result ≡ pass }
    {
        Putter {
            pass,
            lane,
            next: 0,
            over: false,
        }
    }

    /// The pass that it holds.
    pub fn pass(&self) -> &Pass<Item<T>, QueueView<T>>
        ensures { result.now ≡ self.now }
    {
        &self.pass
    }

    /// Puts an item more into the lane, once there is room; fewer than 2^57 (`max_lane_items`) were put in it before.
    pub fn put<R: Wait>(&mut self, rt: &R, lanes: &LaneQueue<T>, body: T) -> Put<T>
        requires lanes { IsPassOf lanes.now self.old }
        requires few { length (view self.old).put < max_lane_items }
        ensures pass { IsSamePass self.old self.new }
        ensures lanes { IsPassOf lanes.now self.new }
        ensures count { length (view self.new).put ≤ length (view self.old).put + 1 }
        ensures answer { Puts (view self.old) (view self.new) false body result }
    {
        self.put_as(rt, lanes, body, false)
    }

    /// Puts the lane's last item, once there is room; fewer than 2^57 (`max_lane_items`) were put in it before.
    pub fn finish<R: Wait>(&mut self, rt: &R, lanes: &LaneQueue<T>, body: T) -> Put<T>
        requires lanes { IsPassOf lanes.now self.old }
        requires few { length (view self.old).put < max_lane_items }
        ensures pass { IsSamePass self.old self.new }
        ensures lanes { IsPassOf lanes.now self.new }
        ensures count { length (view self.new).put ≤ length (view self.old).put + 1 }
        ensures answer { Puts (view self.old) (view self.new) true body result }
    {
        self.put_as(rt, lanes, body, true)
    }

    #[tactic(auto, using(crate::proofs::Counts::put_more))]
    fn put_as<R: Wait>(&mut self, rt: &R, lanes: &LaneQueue<T>, body: T, last: bool) -> Put<T>
        requires lanes { IsPassOf lanes.now self.old }
        requires few { length (view self.old).put < max_lane_items }
        ensures pass { IsSamePass self.old self.new }
        ensures answer { Puts (view self.old) (view self.new) last body result }
    {
        if self.over {
            return Put::Over(body);
        }
        let item = Item {
            lane: self.lane,
            number: self.next,
            last,
            body,
        };
        match lanes.push_or_closed(rt, &mut self.pass, item) {
            Ok(()) => {
                self.next += 1;
                self.over = last;
                Put::Done
            }
            Err(back) => Put::Closed(back.body),
        }
    }

    /// One try to put an item more into the lane, where fewer than 2^57 (`max_lane_items`) were put before. It waits only for another thread that is in the middle of its step.
    #[tactic(auto, using(crate::proofs::Counts::put_more))]
    pub fn try_put<R: Wait>(&mut self, rt: &R, lanes: &LaneQueue<T>, body: T) -> TryPut<T>
        requires lanes { IsPassOf lanes.now self.old }
        requires few { length (view self.old).put < max_lane_items }
        ensures pass { IsSamePass self.old self.new }
        ensures lanes { IsPassOf lanes.now self.new }
        ensures count { length (view self.new).put ≤ length (view self.old).put + 1 }
        ensures answer { TriesToPut lanes.now.room (view self.old) (view self.new) body result }
    {
        if self.over {
            return TryPut::Over(body);
        }
        if lanes.is_closed() {
            return TryPut::Closed(body);
        }
        let item = Item {
            lane: self.lane,
            number: self.next,
            last: false,
            body,
        };
        match lanes.push(rt, &mut self.pass, item) {
            Ok(()) => {
                self.next += 1;
                TryPut::Done
            }
            Err(back) => TryPut::Full(back.body),
        }
    }

    /// Its pass, its lane, and how many items were put in it.
    pub(crate) fn into_parts(self) -> (Pass<Item<T>, QueueView<T>>, u32, u64)
        ensures pass { result.0 ≡ self }
        ensures whole { self.me.1 ≡ [] }
        ensures puts { (view self).puts ≡ true }
        ensures lane { result.1 ≡ (view self).lane }
        ensures count { result.2 ≡ length (view self).put }
    {
        let Self {
            pass,
            lane,
            next,
            over: _,
        } = self;
        (pass, lane, next)
    }
}
