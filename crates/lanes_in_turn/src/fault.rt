ghost use Rattle.std.specs.Prelude.{◌≡◌, [], Some};
ghost use Rattle.lanes_in_turn.specs.declared.fault.GatherFault.TheVariants.{NoMemory};
ghost use Rattle.lanes_in_turn.specs.Fault.{gather_fault_code};

use crate::gathered::Gathered;
use byte_streams::Source;
use std::alloc::Global;
use std::error::Error;
use std::fmt;
use upload_reader::Upload;

/// Why there is no round. Its text is its code, as `G1`.
#[derive(Clone, Copy, Debug, PartialEq, Eq)]
pub enum GatherFault {
    /// G1: no lane, or more than `MAX_ROUND_LANES`.
    BadLanes,
    /// G2: two lanes of one client.
    DuplicateClient,
    /// G3: memory, or the start of a thread, was refused before the first message was taken.
    NoMemory,
}

/// A round that was refused, and what was gathered before it.
#[derive(Drop)]
pub struct RefusedRound<R: Source> {
    pub fault: GatherFault,
    pub earlier: Gathered<R>,
    /// The round's uploads, of which no message was asked for. Where memory was refused they are gone.
    pub uploads: Vec<Upload<R>>,
}

impl<R: Source> RefusedRound<R> {
    /// Refused for want of memory.
    pub fn no_memory(alloc: Global, earlier: Gathered<R>) -> RefusedRound<R>
        ensures fault { result.fault ≡ NoMemory }
        ensures earlier { result.earlier ≡ earlier }
        ensures uploads { result.uploads.items ≡ [] }
    {
        RefusedRound {
            fault: GatherFault::NoMemory,
            earlier,
            uploads: Vec::new(alloc),
        }
    }
}

impl fmt::Display for GatherFault {
    ghost output = { λ fault. Some (gather_fault_code fault) };

    fn fmt<W: fmt::Write>(&self, f: &mut fmt::Formatter<W>) -> fmt::Result {
        f.write_str(match self {
            GatherFault::BadLanes => "G1",
            GatherFault::DuplicateClient => "G2",
            GatherFault::NoMemory => "G3",
        })
    }
}

impl Error for GatherFault {}
