ghost use Rattle.std.specs.Prelude.{◌≡◌, Some};
ghost use Rattle.site_line.specs.declared.fault.SiteFault.TheVariants.{NoMemory};
ghost use Rattle.site_line.specs.Fault.{site_fault_code, fault_of_page};

use page_tree::PageFault;
use std::alloc::{AllocError, AllocFailed};
use std::error::Error;
use std::fmt;

/// Why a line is no site. Its text is its code, as `Z1`.
#[derive(Clone, Copy, Debug, PartialEq, Eq)]
pub enum SiteFault {
    /// Z1: the line is no JSON value.
    NotJson,
    /// Z2: the value is no object, or a member is of another form, out of its range, or a page that is refused.
    BadMember,
    /// Z3: an allocation was refused.
    NoMemory,
}

impl fmt::Display for SiteFault {
    ghost output = { λ fault. Some (site_fault_code fault) };

    fn fmt<W: fmt::Write>(&self, f: &mut fmt::Formatter<W>) -> fmt::Result {
        match self {
            SiteFault::NotJson => f.write_str("Z1"),
            SiteFault::BadMember => f.write_str("Z2"),
            SiteFault::NoMemory => f.write_str("Z3"),
        }
    }
}

impl Error for SiteFault {}

impl From<AllocError> for SiteFault {
    ghost from_gives = { λ _ e. e ≡ NoMemory };

    fn from(_e: AllocError) -> SiteFault {
        SiteFault::NoMemory
    }
}

impl<T: Drop> From<AllocFailed<T>> for SiteFault {
    ghost from_gives = { λ _ e. e ≡ NoMemory };

    fn from(_e: AllocFailed<T>) -> SiteFault {
        SiteFault::NoMemory
    }
}

impl From<PageFault> for SiteFault {
    ghost from_gives = { λ fault e. e ≡ fault_of_page fault };

    fn from(fault: PageFault) -> SiteFault {
        match fault {
            PageFault::NoMemory => SiteFault::NoMemory,
            _ => SiteFault::BadMember,
        }
    }
}
