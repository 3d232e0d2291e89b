ghost use Rattle.std.specs.Prelude.{◌≡◌, Some};
ghost use Rattle.xpath_child.specs.Fault.{path_fault_code};
ghost use Rattle.xpath_child.specs.declared.fault.PathFaultKind.TheVariants.{NoMemory};

use std::alloc::{AllocError, AllocFailed};
use std::error::Error;
use std::fmt;

/// Why a text is no path. Its text is the kind's code, as `X4`.
#[derive(Clone, Copy, Debug, PartialEq, Eq)]
pub struct PathFault {
    /// The byte offset in the text; 0 for want of memory.
    pub at: usize,
    pub kind: PathFaultKind,
}

/// What is wrong. Of a step's own faults the first counts, in the order `TooManySteps`, `EmptyStep`, `BadName`, `BadIndex`.
#[derive(Clone, Copy, Debug, PartialEq, Eq)]
pub enum PathFaultKind {
    /// X1: the text is empty or doesn't begin with `/`; at 0.
    NotAbsolute,
    /// X2: nothing stands between a `/` and the next one or the end; at the step's start.
    EmptyStep,
    /// X3: what stands before the first `[`, or the whole step, is neither `*` nor a name; at the step's start.
    BadName,
    /// X4: what stands from the first `[` on is no `[n]` with 1 to 9 digits, the first not 0; at the `[`.
    BadIndex,
    /// X5: there is one step too many; at its start.
    TooManySteps,
    /// X6: an allocation was refused; at 0.
    NoMemory,
}

impl PathFaultKind {
    pub(crate) fn at(self, at: usize) -> PathFault
        ensures { result ≡ record { at = at; kind = self } }
    {
        PathFault { at, kind: self }
    }
}

impl fmt::Display for PathFaultKind {
    ghost output = { λ fault. Some (path_fault_code fault) };

    fn fmt<W: fmt::Write>(&self, f: &mut fmt::Formatter<W>) -> fmt::Result {
        match self {
            PathFaultKind::NotAbsolute => f.write_str("X1"),
            PathFaultKind::EmptyStep => f.write_str("X2"),
            PathFaultKind::BadName => f.write_str("X3"),
            PathFaultKind::BadIndex => f.write_str("X4"),
            PathFaultKind::TooManySteps => f.write_str("X5"),
            PathFaultKind::NoMemory => f.write_str("X6"),
        }
    }
}

impl Error for PathFaultKind {}

impl fmt::Display for PathFault {
    ghost output = { λ fault. Some (path_fault_code fault.kind) };

    fn fmt<W: fmt::Write>(&self, f: &mut fmt::Formatter<W>) -> fmt::Result {
        let kind = self.kind;
        write!(f, "{kind}")
    }
}

impl Error for PathFault {}

impl From<AllocError> for PathFault {
    ghost from_gives = { λ _ e. e ≡ record { at = 0; kind = NoMemory } };

    fn from(_e: AllocError) -> PathFault {
        PathFaultKind::NoMemory.at(0)
    }
}

impl<T: Drop> From<AllocFailed<T>> for PathFault {
    ghost from_gives = { λ _ e. e ≡ record { at = 0; kind = NoMemory } };

    fn from(_e: AllocFailed<T>) -> PathFault {
        PathFaultKind::NoMemory.at(0)
    }
}
