ghost use Rattle.std.specs.Prelude.{Some};
ghost use Rattle.conflict_desk.specs.Fault.{desk_fault_code};

use std::alloc::AllocError;
use std::error::Error;
use std::fmt;

/// Why a desk refuses. Its text is its code, as `C1`.
#[derive(Clone, Copy, Debug, PartialEq, Eq)]
pub enum DeskFault {
    /// C1: no docket of that client. Of `front` and `decide`.
    NoClient,
    /// C2: the visit isn't the client's front. With the front, or none where no conflict waits. Of `decide`.
    NotFront(Option<u64>),
    /// C3: memory was refused. Of `open` alone.
    NoMemory,
}

impl fmt::Display for DeskFault {
    ghost output = { λ fault. Some (desk_fault_code fault) };

    fn fmt<W: fmt::Write>(&self, f: &mut fmt::Formatter<W>) -> fmt::Result {
        f.write_str(match self {
            DeskFault::NoClient => "C1",
            DeskFault::NotFront(_) => "C2",
            DeskFault::NoMemory => "C3",
        })
    }
}

impl Error for DeskFault {}

impl From<AllocError> for DeskFault {
    ghost use Rattle.std.specs.Prelude.{◌≡◌};
    ghost use Rattle.conflict_desk.specs.declared.fault.DeskFault.TheVariants.{NoMemory};

    ghost from_gives = { λ _ fault. fault ≡ NoMemory };

    fn from(_: AllocError) -> DeskFault {
        DeskFault::NoMemory
    }
}
