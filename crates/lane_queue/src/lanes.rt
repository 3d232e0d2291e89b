//! The queue itself, which putters and the taker share.
ghost use Rattle.std.specs.Prelude.{◌≡◌, ◌≢◌, ◌<◌, ◌≤◌, List, [], ◌++◌, length, true, IfOk, IfErr, OnOk, OnErr, MatchOption};
ghost use Rattle.std.specs.Vec.{vec_capacity};
ghost use Rattle.crossbeam_queue.specs.Fifo.{Held};
ghost use Rattle.crossbeam_queue.specs.Passes.{view, IsSamePass};
ghost use Rattle.lane_queue.specs.Items.{of_lane};
ghost use Rattle.lane_queue.specs.Limits.{AreLanes};
ghost use Rattle.lane_queue.specs.Opened.{fresh_taker, ArePutters, IsOpenedQueue};
ghost use Rattle.lane_queue.specs.Rule.{with_put, TakesItem, IsSeen};
ghost use Rattle.lane_queue.specs.declared.fault.QueueFault.TheVariants.{BadLanes, NoMemory};
ghost use Rattle.lane_queue.specs.inside.Passes.{IsWholePass, MayPut, with_putter};

use crate::fault::QueueFault;
use crate::item::Item;
use crate::limits::MAX_LANES;
use crate::putter::Putter;
use crate::room::Room;
use crate::rule::{Gets, InLanes, OpensLane, Reckons, Sends};
use crate::taker::Taker;
use crate::view::QueueView;
use crate::waiting::{Turns, rest};
use crossbeam_queue::{Pass, RuledArrayQueue};
use crossbeam_utils::Backoff;
use crossbeam_utils::sync::{EventCount, Key};
use std::alloc::Global;
use std::marker::Model;
use std::sync::Wait;
use std::sync::atomic::{AtomicBool, Ordering};

/// A bounded queue of the items of some lanes, to be shared by reference. Contracts see which queue it is, and how many items it holds at the most.
#[derive(Drop)]
pub struct LaneQueue<T> {
    queue: RuledArrayQueue<Item<T>, QueueView<T>, InLanes>,
    closed: AtomicBool,
    // told by a step that finds putters at rest, and at the close
    room: EventCount,
    // set by each putter that announces a sleep, and taken down by the step that tells one
    putters_at_rest: AtomicBool,
    // told by a push that finds the taker at rest
    items: EventCount,
    // set by the taker when it announces a sleep, and taken down by the push that tells it
    taker_at_rest: AtomicBool,
}

impl<T> Model for LaneQueue<T> {
    ghost use Rattle.crossbeam_queue.specs.Passes.{ruled_capacity};
    ghost use Rattle.lane_queue.specs.Queue.{Queue};

    ghost Value = { Queue };

    ghost view = { λ l. record { table_id = l.queue.table.shared.table_id; room = ruled_capacity l.queue } };
}

impl<T> LaneQueue<T> {
    #[tactic(auto, using(crate::proofs::Steps::begins))]
    /// A queue for so many lanes, 1 to `MAX_LANES`, that holds as many items as the room says, with its taker and a putter for each lane;
    /// Q1 for another number of lanes, Q3 where memory is refused.
    pub fn open(
        alloc: Global,
        lanes: u32,
        room: Room,
    ) -> Result<(LaneQueue<T>, Taker<T>, Vec<Putter<T>>), QueueFault>
        ensures opened { IfOk result (λ made. AreLanes lanes × IsOpenedQueue lanes room made.0 made.1 made.2.items) }
        ensures refused { IfErr result (λ fault. fault ≢ NoMemory → (fault ≡ BadLanes) × ¬ AreLanes lanes) }
    {
        if lanes == 0 || lanes > MAX_LANES {
            return Err(QueueFault::BadLanes);
        }
        let counts = Vec::from_elem(alloc, 0, lanes as usize)?;
        let putters = Vec::with_capacity(alloc, lanes as usize)?;
        let (queue, pass) = RuledArrayQueue::ruled(alloc, room.items())?;
        let opened = LaneQueue {
            queue,
            closed: AtomicBool::new(false),
            room: EventCount::new(),
            putters_at_rest: AtomicBool::new(false),
            items: EventCount::new(),
            taker_at_rest: AtomicBool::new(false),
        };
        let (pass, putters) = opened.split(pass, lanes, putters);
        Ok((opened, Taker::over(pass, counts, lanes), putters))
    }

    // The taker's pass, and a putter for each lane. There is room for them.
    fn split(
        &self,
        pass: Pass<Item<T>, QueueView<T>>,
        lanes: u32,
        putters: Vec<Putter<T>>,
    ) -> (Pass<Item<T>, QueueView<T>>, Vec<Putter<T>>)
        requires queue { IsWholePass self.now pass }
        requires first { view pass ≡ fresh_taker 0 }
        requires none { putters.items ≡ [] }
        requires fits { lanes ≤ vec_capacity putters }
        ensures queue { IsWholePass self.now result.0 }
        ensures taker { view result.0 ≡ fresh_taker lanes }
        ensures putters { ArePutters self.now lanes result.1.items }
    {
        let mut pass = pass;
        let mut putters = putters;
        for lane in 0..lanes {
            let own = self.queue.another::<OpensLane>(&mut pass);
            putters.push_reserved(Putter::of_lane(own, lane));
        }
        (pass, putters)
    }

    /// From the moment that a putter sees it, that one puts nothing more, and one that waits wakes. What the queue holds can still be taken; a taker isn't
    /// told, and waits on where a lane has no last item. It never waits itself: the handle is only that of the other calls.
    pub fn close<R: Wait>(&self, _rt: &R) {
        self.closed.store(true, Ordering::SeqCst);
        self.room.notify_all();
    }

    pub(crate) fn is_closed(&self) -> bool {
        self.closed.load(Ordering::SeqCst)
    }

    /// The taker announces a sleep before it looks at the queue once more: a push from then on ends the sleep.
    pub(crate) fn announce_taker_sleep(&self) -> Key<'_> {
        let sleep = self.items.prepare_wait();
        self.taker_at_rest.store(true, Ordering::SeqCst);
        sleep
    }

    // Of the pushes that find the taker at rest, the first wakes it. It takes its time to wake, and each further call to the system would be in vain.
    fn wake_taker(&self) {
        if take_down(&self.taker_at_rest) {
            self.items.notify_one();
        }
    }

    // A putter announces a sleep before it tries once more: the first pop from then on ends the sleep of one putter, and the close that of all.
    fn announce_putter_sleep(&self) -> Key<'_> {
        let sleep = self.room.prepare_wait();
        self.putters_at_rest.store(true, Ordering::SeqCst);
        sleep
    }

    // Of the pops that find putters at rest, the first wakes one, for the same reason.
    fn wake_putter(&self) {
        if take_down(&self.putters_at_rest) {
            self.room.notify_one();
        }
    }

    // A putter that announced a sleep, and then put its item, wakes another where there is room. So no putter sleeps on at a queue with room, though the pops
    // that made it woke but one.
    #[tactic(auto, using(crate::proofs::Steps::sees))]
    fn wake_next(&self, pass: &mut Pass<Item<T>, QueueView<T>>)
        requires { IsWholePass self.now pass.old }
        ensures pass { IsSamePass pass.old pass.new }
        ensures view { view pass.new ≡ view pass.old }
    {
        if !self.queue.is_full_as::<Sends>(pass) {
            self.wake_putter();
        }
    }

    /// One push.
    #[tactic(auto, using(crate::proofs::Steps::pushes, crate::proofs::Steps::sees))]
    pub(crate) fn push<R: Wait>(
        &self,
        rt: &R,
        pass: &mut Pass<Item<T>, QueueView<T>>,
        item: Item<T>,
    ) -> Result<(), Item<T>>
        requires queue { IsWholePass self.now pass.old }
        requires may { MayPut (view pass.old) item }
        ensures pass { IsSamePass pass.old pass.new }
        ensures ok { OnOk result (view pass.new ≡ with_put (view pass.old) item) }
        ensures back { IfErr result (λ back. (back ≡ item) × (view pass.new ≡ view pass.old)) }
        ensures full { OnErr result (Held self.now.room (IsSeen (view pass.old))) }
    {
        let pushed = self.queue.push_as::<Sends, R>(rt, pass, item);
        if pushed.is_ok() {
            self.wake_taker();
        }
        pushed
    }

    /// One pop.
    #[tactic(auto, using(crate::proofs::Steps::pops, crate::proofs::Steps::sees))]
    pub(crate) fn pop<R: Wait>(
        &self,
        rt: &R,
        pass: &mut Pass<Item<T>, QueueView<T>>,
    ) -> Option<Item<T>>
        requires queue { IsWholePass self.now pass.old }
        requires takes { (view pass.old).takes ≡ true }
        ensures pass { IsSamePass pass.old pass.new }
        ensures answer { MatchOption result ((view pass.new ≡ view pass.old) × Held 0 (IsSeen (view pass.old)))
            (λ item. TakesItem (view pass.old) item (view pass.new)) }
    {
        let popped = self.queue.pop_as::<Gets, R>(rt, pass);
        if popped.is_some() {
            self.wake_putter();
        }
        popped
    }

    /// One push after another, until one goes through or the lanes are closed, which hands the item back. Between pushes it rests. Once its turns are over it
    /// announces a sleep before each push, also after it woke: others may sleep on, and have to be told.
    pub(crate) fn push_or_closed<R: Wait>(
        &self,
        rt: &R,
        pass: &mut Pass<Item<T>, QueueView<T>>,
        item: Item<T>,
    ) -> Result<(), Item<T>>
        requires queue { IsWholePass self.now pass.old }
        requires may { MayPut (view pass.old) item }
        ensures pass { IsSamePass pass.old pass.new }
        ensures ok { OnOk result (view pass.new ≡ with_put (view pass.old) item) }
        ensures back { IfErr result (λ back. (back ≡ item) × (view pass.new ≡ view pass.old)) }
    {
        let mut item = item;
        let mut turns = Turns::Pauses(Backoff::new());
        for _ in rt.forever() {
            let sleep = if turns.are_over() {
                Some(self.announce_putter_sleep())
            } else {
                None
            };
            if self.is_closed() {
                return Err(item);
            }
            match self.push(rt, pass, item) {
                Ok(()) => {
                    if sleep.is_some() {
                        self.wake_next(pass);
                    }
                    return Ok(());
                }
                Err(back) => item = back,
            }
            rest(rt, &mut turns, sleep);
        }
        unreachable!()
    }

    /// The taker's pass takes in a putter's, and learns that what was put in its lane is what was taken of it, and what the queue holds of it.
    pub(crate) fn take_in<R: Wait>(
        &self,
        rt: &R,
        pass: &mut Pass<Item<T>, QueueView<T>>,
        putter: Pass<Item<T>, QueueView<T>>,
    )
        requires queue { IsWholePass self.now pass.old × IsWholePass self.now putter }
        requires takes { (view pass.old).takes ≡ true }
        requires puts { (view putter).puts ≡ true }
        ensures pass { IsSamePass pass.old pass.new }
        ensures both { view pass.new ≡ with_putter (view pass.old) (view putter) }
        ensures made { (view putter).lane < (view pass.old).made }
        ensures told { (rest : List _) × ((view putter).put ≡ of_lane (view putter).lane (view pass.old).got ++ rest)
            × (length rest ≤ self.now.room) }
    {
        self.queue.absorb::<Reckons>(pass, putter);
        let _held = self.queue.len_as::<Reckons, R>(rt, pass);
    }
}

// Whether the flag was set, and this call took it down.
fn take_down(flag: &AtomicBool) -> bool {
    flag.load(Ordering::SeqCst) && flag.swap(false, Ordering::SeqCst)
}
