ghost use Rattle.std.specs.Prelude.{Some};
ghost use Rattle.replay_workers.specs.Fault.{pool_fault_code};

use std::alloc::AllocError;
use std::error::Error;
use std::fmt;

/// Why no workers can begin. Its text is its code, as `F1`.
#[derive(Clone, Copy, Debug, PartialEq, Eq)]
pub enum PoolFault {
    /// F1: no worker, or more than `MAX_WORKERS`.
    BadWorkers,
    /// F2: memory was refused.
    NoMemory,
}

impl fmt::Display for PoolFault {
    ghost output = { λ fault. Some (pool_fault_code fault) };

    fn fmt<W: fmt::Write>(&self, f: &mut fmt::Formatter<W>) -> fmt::Result {
        f.write_str(match self {
            PoolFault::BadWorkers => "F1",
            PoolFault::NoMemory => "F2",
        })
    }
}

impl Error for PoolFault {}

impl From<AllocError> for PoolFault {
    ghost use Rattle.std.specs.Prelude.{◌≡◌};
    ghost use Rattle.replay_workers.specs.declared.fault.PoolFault.TheVariants.{NoMemory};

    ghost from_gives = { λ _ fault. fault ≡ NoMemory };

    fn from(_: AllocError) -> PoolFault {
        PoolFault::NoMemory
    }
}
