ghost use Rattle.std.specs.Prelude.{Some};
ghost use Rattle.lane_queue.specs.Fault.{queue_fault_code};

use std::alloc::AllocError;
use std::error::Error;
use std::fmt;

/// Why there is no queue. Its text is its code, as `Q1`.
#[derive(Clone, Copy, Debug, PartialEq, Eq)]
pub enum QueueFault {
    /// Q1: no lane, or more than `MAX_LANES`.
    BadLanes,
    /// Q2: no room, or more than `MAX_ROOM`.
    BadRoom,
    /// Q3: memory was refused.
    NoMemory,
}

impl fmt::Display for QueueFault {
    ghost output = { λ fault. Some (queue_fault_code fault) };

    fn fmt<W: fmt::Write>(&self, f: &mut fmt::Formatter<W>) -> fmt::Result {
        f.write_str(match self {
            QueueFault::BadLanes => "Q1",
            QueueFault::BadRoom => "Q2",
            QueueFault::NoMemory => "Q3",
        })
    }
}

impl Error for QueueFault {}

impl From<AllocError> for QueueFault {
    ghost use Rattle.std.specs.Prelude.{◌≡◌};
    ghost use Rattle.lane_queue.specs.declared.fault.QueueFault.TheVariants.{NoMemory};

    ghost from_gives = { λ _ fault. fault ≡ NoMemory };

    fn from(_: AllocError) -> QueueFault {
        QueueFault::NoMemory
    }
}
