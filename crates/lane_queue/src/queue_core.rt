//! The queue as a machine on one thread: its steps, and what is so after any of them.
ghost use Rattle.std.specs.Prelude.{◌≡◌, ◌≢◌, ◌<◌, ℕ, length, take, fold, IfOk, IfErr, OnOk, OnErr};
ghost use Rattle.lane_queue.specs.Core.{opening, may_put, after_step, answer, IsFifo, HasWhole};
ghost use Rattle.lane_queue.specs.declared.queue_core.QueueStep.TheVariants as step;
ghost use Rattle.lane_queue.specs.Limits.{AreLanes};
ghost use Rattle.lane_queue.specs.declared.fault.QueueFault.TheVariants.{BadLanes, NoMemory};

use crate::fault::QueueFault;
use crate::item::Item;
use crate::limits::MAX_LANES;
use crate::room::Room;
use std::alloc::{AllocError, Global};
use std::marker::Model;

/// One step on the queue.
#[derive(Clone, Copy, Debug)]
pub enum QueueStep {
    /// An item for the back of the row, as its lane's last or not.
    Put { lane: u32, item: u64, last: bool },
    /// The front of the row is taken.
    Take,
}

/// What a step did.
#[derive(Drop)]
pub enum Did {
    Put,
    /// There is no such lane, it is over, or the row is as long as its room.
    Refused,
    Took(Item<u64>),
    /// The row had no front.
    Empty,
}

/// The queue between two steps. It keeps all items that were put. Contracts see it as a machine: what was put, the row, and what was taken.
#[derive(Drop)]
pub struct State {
    room: usize,
    items: Vec<Item<u64>>,
    // how many of them were taken
    taken: usize,
    // how many each lane has, and whether it has its last
    counts: Vec<u64>,
    over: Vec<bool>,
}

impl Model for State {
    ghost use Rattle.lane_queue.specs.Core.{Machine};
    ghost use Rattle.lane_queue.specs.inside.Core.{machine_of, IsMachine};

    ghost Value = { Machine };

    ghost view = { λ s. machine_of s.room s.items.items s.taken s.counts.items };

    ghost invariant = { λ s. IsMachine s.items.items s.taken s.counts.items s.over.items };
}

impl State {
    /// With so many lanes, 1 to `MAX_LANES`, and nothing put; Q1 and Q3 likewise.
    #[tactic(auto, using(crate::proofs::CoreLaws::opened))]
    pub fn open(alloc: Global, lanes: u32, room: Room) -> Result<State, QueueFault>
        ensures ok { IfOk result (λ state. AreLanes lanes × (state ≡ opening lanes room)) }
        ensures refused { IfErr result (λ fault. fault ≢ NoMemory → (fault ≡ BadLanes) × ¬ AreLanes lanes) }
    {
        if lanes == 0 || lanes > MAX_LANES {
            return Err(QueueFault::BadLanes);
        }
        Ok(State {
            room: room.items(),
            items: Vec::new(alloc),
            taken: 0,
            counts: Vec::from_elem(alloc, 0, lanes as usize)?,
            over: Vec::from_elem(alloc, false, lanes as usize)?,
        })
    }

    /// One step. Where memory is refused, all is as before.
    pub fn apply(&mut self, step: QueueStep) -> Result<Did, AllocError>
        ensures ok { OnOk result (self.new ≡ after_step self.old step) }
        ensures did { IfOk result (λ did. did ≡ answer self.old step) }
        ensures err { OnErr result (self.new ≡ self.old) }
        ensures fifo { IsFifo self.new }
        ensures whole { HasWhole self.new }
    {
        let did = match step {
            QueueStep::Put { lane, item, last } => self.put(lane, item, last),
            QueueStep::Take => Ok(self.take()),
        };
        self.tell();
        did
    }

    /// One step after another, up to the first one for which memory is refused.
    pub fn run(&mut self, steps: &[QueueStep]) -> Result<(), AllocError>
        ensures ok { OnOk result (self.new ≡ fold after_step self.old steps.now) }
        ensures err { OnErr result
            ((n : ℕ) × (n < length steps.now) × (self.new ≡ fold after_step self.old (take n steps.now))) }
        ensures fifo { IsFifo self.new }
        ensures whole { HasWhole self.new }
    {
        self.tell();
        for step in steps {
            self.apply(*step)?;
        }
        Ok(())
    }

    #[tactic(auto, using(crate::proofs::CoreLaws::put_one))]
    fn put(&mut self, lane: u32, item: u64, last: bool) -> Result<Did, AllocError>
        ensures ok { OnOk result (self.new ≡ after_step self.old (step.Put lane item last)) }
        ensures did { IfOk result (λ did. did ≡ answer self.old (step.Put lane item last)) }
        ensures err { OnErr result (self.new ≡ self.old) }
    {
        if !self.may_put(lane) {
            return Ok(Did::Refused);
        }
        let at = lane as usize;
        let number = self.counts[at];
        self.items.push(Item {
            lane,
            number,
            last,
            body: item,
        })?;
        self.counts[at] = number + 1;
        self.over[at] = last;
        Ok(Did::Put)
    }

    fn may_put(&self, lane: u32) -> bool
        ensures { result ≡ may_put self.now lane }
    {
        let at = lane as usize;
        at < self.counts.as_slice().len()
            && !self.over[at]
            && self.items.as_slice().len() - self.taken < self.room
    }

    fn take(&mut self) -> Did
        ensures after { self.new ≡ after_step self.old step.Take }
        ensures did { result ≡ answer self.old step.Take }
    {
        if self.taken == self.items.as_slice().len() {
            return Did::Empty;
        }
        let front = &self.items[self.taken];
        let item = Item {
            lane: front.lane,
            number: front.number,
            last: front.last,
            body: front.body,
        };
        self.taken += 1;
        Did::Took(item)
    }

    // Tells a proof what is so of each state; nothing is done.
    #[tactic(auto, using(crate::proofs::CoreLaws::fifo, crate::proofs::CoreLaws::has_whole))]
    fn tell(&self)
        ensures fifo { IsFifo self.now }
        ensures whole { HasWhole self.now }
    {
        let _ = &self.items;
    }
}
