ghost use Rattle.std.specs.Prelude.{◌≡◌, []};
ghost use Rattle.lanes_in_turn.specs.declared.gathered.Stop.TheVariants.{None};

use byte_streams::Source;
use client_log::ClientLog;
use indexmap::IndexMap;
use std::alloc::Global;
use upload_reader::{Client, Ending, Upload};

/// Why the taking of messages stopped.
#[derive(Clone, Copy, Debug, PartialEq, Eq)]
pub enum Stop {
    /// Each lane has an end.
    None,
    /// No more was asked for.
    Asked,
    /// A message could not be recorded for want of memory.
    Memory,
}

/// What was taken of a client's lane in a round, behind all its rounds before.
#[derive(Drop)]
pub struct LaneResult<R: Source> {
    /// What is kept of the client's messages of all rounds.
    pub log: ClientLog,
    /// How many messages of this round were recorded.
    pub taken: u64,
    /// How the lane ended, once that was taken.
    pub end: Option<Ending>,
    /// The upload as the round left it, or none where the client had no lane in this round.
    pub upload: Option<Upload<R>>,
}

/// What was taken of clients in all rounds.
#[derive(Drop)]
pub struct Gathered<R: Source> {
    /// Each client with its lane, in the order in which they came.
    pub clients: IndexMap<Client, LaneResult<R>>,
    /// Why the last round stopped.
    pub stop: Stop,
}

impl<R: Source> Gathered<R> {
    /// Before the first round.
    pub fn new(alloc: Global) -> Gathered<R>
        ensures clients { result.clients.entries ≡ [] }
        ensures stop { result.stop ≡ None }
    {
        Gathered {
            clients: IndexMap::new(alloc),
            stop: Stop::None,
        }
    }
}
