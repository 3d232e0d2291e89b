ghost use Rattle.std.specs.Prelude.{◌≡◌};
ghost use Rattle.upload_reader.specs.declared.unread.Unread.TheVariants.{NoMemory};

use crate::lane_fault::LaneFault;
use std::alloc::{AllocError, AllocFailed};

/// Why a line could not be read.
#[derive(Clone, Copy, Debug, PartialEq, Eq)]
pub enum Unread {
    /// It says nothing that a line may.
    Fault(LaneFault),
    /// An allocation was refused.
    NoMemory,
}

impl From<AllocError> for Unread {
    ghost from_gives = { λ _ e. e ≡ NoMemory };

    fn from(_e: AllocError) -> Unread {
        Unread::NoMemory
    }
}

impl<T: Drop> From<AllocFailed<T>> for Unread {
    ghost from_gives = { λ _ e. e ≡ NoMemory };

    fn from(_e: AllocFailed<T>) -> Unread {
        Unread::NoMemory
    }
}
