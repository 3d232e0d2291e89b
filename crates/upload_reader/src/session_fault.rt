ghost use Rattle.std.specs.Prelude.{◌≡◌, Some};
ghost use Rattle.upload_reader.specs.Session.{session_fault_code};
ghost use Rattle.upload_reader.specs.declared.session_fault.SessionFault.TheVariants.{NoMemory};

use std::alloc::{AllocError, AllocFailed};
use std::error::Error;
use std::fmt;

/// Why a message doesn't fit what came before it. Its text is its code, as `S4`.
#[derive(Clone, Copy, Debug, PartialEq, Eq)]
pub enum SessionFault {
    /// S1: a load whose number isn't above that of every earlier load.
    VisitOrder,
    /// S2: a load whose parent was never loaded.
    NoParent,
    /// S3: the visit was never loaded.
    NoVisit,
    /// S4: the visit has ended.
    AfterEnd,
    /// S5: a request whose number is neither 0 nor one more than the visit's largest.
    RequestOrder,
    /// S6: the visit has as many events as may be.
    VisitFull,
    /// S7: as many visits are open as may be.
    TooManyOpen,
    /// S8: an allocation was refused.
    NoMemory,
}

impl fmt::Display for SessionFault {
    ghost output = { λ fault. Some (session_fault_code fault) };

    fn fmt<W: fmt::Write>(&self, f: &mut fmt::Formatter<W>) -> fmt::Result {
        match self {
            SessionFault::VisitOrder => f.write_str("S1"),
            SessionFault::NoParent => f.write_str("S2"),
            SessionFault::NoVisit => f.write_str("S3"),
            SessionFault::AfterEnd => f.write_str("S4"),
            SessionFault::RequestOrder => f.write_str("S5"),
            SessionFault::VisitFull => f.write_str("S6"),
            SessionFault::TooManyOpen => f.write_str("S7"),
            SessionFault::NoMemory => f.write_str("S8"),
        }
    }
}

impl Error for SessionFault {}

impl From<AllocError> for SessionFault {
    ghost from_gives = { λ _ e. e ≡ NoMemory };

    fn from(_e: AllocError) -> SessionFault {
        SessionFault::NoMemory
    }
}

impl<T: Drop> From<AllocFailed<T>> for SessionFault {
    ghost from_gives = { λ _ e. e ≡ NoMemory };

    fn from(_e: AllocFailed<T>) -> SessionFault {
        SessionFault::NoMemory
    }
}
