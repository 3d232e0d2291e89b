//! Why the server ends.
ghost use Rattle.std.specs.Prelude.{◌≡◌};
ghost use Rattle.std.specs.IoError.{error_kind};
ghost use Rattle.collect_server.specs.Fault.{fault_by, fault_of_folder, serve_exit_code, serve_error_line};
ghost use Rattle.collect_server.specs.declared.serve_fault.ServeFault.TheVariants.{Failed, NoMemory};

use crate::disk_folder::FolderFault;
use std::alloc::AllocError;
use std::io;
use std::io::ErrorKind;

/// Why the server doesn't begin, or ends.
#[derive(Debug, Drop)]
pub enum ServeFault {
    Folder(FolderFault),
    NoMemory,
    Failed(io::Error),
}

impl ServeFault {
    /// The exit status of the program.
    pub fn code(&self) -> u8
        ensures { result ≡ serve_exit_code self.now }
    {
        match self {
            ServeFault::NoMemory => 5,
            ServeFault::Folder(_) => 6,
            ServeFault::Failed(_) => 6,
        }
    }

    /// The line for standard error.
    pub fn line(&self) -> &'static str
        ensures { result.now ≡ serve_error_line self.now }
    {
        match self {
            ServeFault::NoMemory => "no memory",
            ServeFault::Folder(FolderFault::InUse) => "another server has the folder",
            ServeFault::Folder(FolderFault::Failed(_)) => "the folder can't be used",
            ServeFault::Failed(_) => "the port can't be used",
        }
    }
}

impl From<FolderFault> for ServeFault {
    ghost from_gives = { λ fault result. result ≡ fault_of_folder fault };

    fn from(fault: FolderFault) -> ServeFault {
        match fault {
            FolderFault::InUse => ServeFault::Folder(FolderFault::InUse),
            FolderFault::Failed(error) => match error.kind() {
                ErrorKind::OutOfMemory => ServeFault::NoMemory,
                _ => ServeFault::Folder(FolderFault::Failed(error)),
            },
        }
    }
}

impl From<io::Error> for ServeFault {
    ghost from_gives = { λ error result. result ≡ fault_by (error_kind error) (Failed error) };

    fn from(error: io::Error) -> ServeFault {
        match error.kind() {
            ErrorKind::OutOfMemory => ServeFault::NoMemory,
            _ => ServeFault::Failed(error),
        }
    }
}

impl From<AllocError> for ServeFault {
    ghost from_gives = { λ _ result. result ≡ NoMemory };

    fn from(_fault: AllocError) -> ServeFault {
        ServeFault::NoMemory
    }
}
