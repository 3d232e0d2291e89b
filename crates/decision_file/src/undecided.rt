//! Why a decision wasn't made.
ghost use Rattle.std.specs.Prelude.{◌≡◌};
ghost use Rattle.decision_file.specs.declared.undecided.Undecided.TheVariants.{NoMemory};

use conflict_desk::DeskFault;
use std::alloc::AllocError;
use upload_files::FileFault;

/// Why a decision wasn't made. What is shown is as it was.
#[derive(Clone, Copy, Debug, PartialEq, Eq)]
pub enum Undecided {
    /// The desk refuses it (C1, C2), and nothing was written.
    Refused(DeskFault),
    /// No site file can say a visit of that number.
    Unsayable,
    /// An allocation was refused, and nothing was written.
    NoMemory,
    /// It couldn't be written. Where the file is open still, nothing of it is left there.
    Unwritten(FileFault),
    /// The file is closed: nothing was written.
    Closed,
}

impl From<AllocError> for Undecided {
    ghost from_gives = { λ _ result. result ≡ NoMemory };

    fn from(_: AllocError) -> Undecided {
        Undecided::NoMemory
    }
}
