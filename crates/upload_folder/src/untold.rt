//! Why nothing is told of a client.
ghost use Rattle.std.specs.Prelude.{◌≡◌, false};
ghost use Rattle.upload_folder.specs.Held.{takes_none};

use upload_files::FileFault;

/// Why a call on a client's file answers nothing.
#[derive(Clone, Copy, Debug, PartialEq, Eq)]
pub enum Untold {
    /// The file is still being read, or too many are in use: whoever asks is to come again.
    Busy,
    /// The system lets no more files be open.
    Crowded,
    /// An allocation was refused.
    NoMemory,
    /// There is no room on the disk, or for one more client.
    Full,
    /// The client's file is as long as it may be.
    TooLong,
    /// A call of the system failed.
    Failed,
    /// The file isn't touched any more, until the server starts again.
    Closed,
}

impl Untold {
    pub(crate) fn of(fault: FileFault) -> Untold
        ensures { takes_none result ≡ false }
    {
        match fault {
            FileFault::Full => Untold::Full,
            FileFault::Crowded => Untold::Crowded,
            FileFault::Failed => Untold::Failed,
        }
    }
}
