ghost use Rattle.std.specs.Prelude.{◌≡◌, Some};
ghost use Rattle.upload_reader.specs.Hello.{hello_fault_code};
ghost use Rattle.upload_reader.specs.declared.hello_fault.HelloFault.TheVariants.{NoMemory};

use crate::lane_fault::LaneFault;
use std::alloc::{AllocError, AllocFailed};
use std::error::Error;
use std::fmt;

/// Why an upload doesn't begin. Its text is its code, as `U2`.
#[derive(Clone, Copy, Debug, PartialEq, Eq)]
pub enum HelloFault {
    /// U1: the client is no text of 1 to 64 of `[A-Za-z0-9_-]`.
    BadClient,
    /// U2: the first line that isn't blank is no hello.
    NoHello,
    /// U3: there is no such line, or it is no JSON text: `ReadFailed`, `TooManyReads`, `Truncated`, `LineTooLong` or `NotJson`.
    Line { line: u64, fault: LaneFault },
    /// U4: an allocation was refused.
    NoMemory,
}

impl fmt::Display for HelloFault {
    ghost output = { λ fault. Some (hello_fault_code fault) };

    fn fmt<W: fmt::Write>(&self, f: &mut fmt::Formatter<W>) -> fmt::Result {
        match self {
            HelloFault::BadClient => f.write_str("U1"),
            HelloFault::NoHello => f.write_str("U2"),
            HelloFault::Line { .. } => f.write_str("U3"),
            HelloFault::NoMemory => f.write_str("U4"),
        }
    }
}

impl Error for HelloFault {}

impl From<AllocError> for HelloFault {
    ghost from_gives = { λ _ e. e ≡ NoMemory };

    fn from(_e: AllocError) -> HelloFault {
        HelloFault::NoMemory
    }
}

impl<T: Drop> From<AllocFailed<T>> for HelloFault {
    ghost from_gives = { λ _ e. e ≡ NoMemory };

    fn from(_e: AllocFailed<T>) -> HelloFault {
        HelloFault::NoMemory
    }
}
