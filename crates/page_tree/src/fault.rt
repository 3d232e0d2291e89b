ghost use Rattle.std.specs.Prelude.{◌≡◌, Some};
ghost use Rattle.page_tree.specs.Fault.{page_fault_code};
ghost use Rattle.page_tree.specs.declared.fault.PageFault.TheVariants.{NoMemory};

use std::alloc::{AllocError, AllocFailed};
use std::error::Error;
use std::fmt;

/// Why something is no page. Its text is its code, as `P1`.
#[derive(Clone, Copy, Debug, PartialEq, Eq)]
pub enum PageFault {
    /// P1: the root is no element.
    NotAnElement,
    /// P2: an element's name is absent, no text, or no name of an element.
    BadName,
    /// P3: an element's attributes are no object of texts, or don't ascend by name.
    BadAttribute,
    /// P4: a child is neither an object nor a string, or children are no array.
    BadChildren,
    /// P5: an element stands below the last level.
    TooDeep,
    /// P6: there is one node too many.
    TooMany,
    /// P7: an allocation was refused.
    NoMemory,
}

impl fmt::Display for PageFault {
    ghost output = { λ fault. Some (page_fault_code fault) };

    fn fmt<W: fmt::Write>(&self, f: &mut fmt::Formatter<W>) -> fmt::Result {
        match self {
            PageFault::NotAnElement => f.write_str("P1"),
            PageFault::BadName => f.write_str("P2"),
            PageFault::BadAttribute => f.write_str("P3"),
            PageFault::BadChildren => f.write_str("P4"),
            PageFault::TooDeep => f.write_str("P5"),
            PageFault::TooMany => f.write_str("P6"),
            PageFault::NoMemory => f.write_str("P7"),
        }
    }
}

impl Error for PageFault {}

impl From<AllocError> for PageFault {
    ghost from_gives = { λ _ e. e ≡ NoMemory };

    fn from(_e: AllocError) -> PageFault {
        PageFault::NoMemory
    }
}

impl<T: Drop> From<AllocFailed<T>> for PageFault {
    ghost from_gives = { λ _ e. e ≡ NoMemory };

    fn from(_e: AllocFailed<T>) -> PageFault {
        PageFault::NoMemory
    }
}
