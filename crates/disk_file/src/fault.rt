//! What is told of a file where a call of the system failed.
ghost use Rattle.std.specs.Prelude.{◌≡◌};
ghost use Rattle.disk_file.specs.Fault.{fault_by_kind, file_fault};

use std::io;
use std::io::ErrorKind;
use upload_files::FileFault;

// As many files are open as this process, or the system, lets be.
const TOO_MANY_HERE: i32 = 24;

const TOO_MANY: i32 = 23;

/// Why a call failed.
pub fn file_fault(fault: &io::Error) -> FileFault
    ensures { result ≡ file_fault fault.now }
{
    match fault.raw_os_error() {
        Some(TOO_MANY_HERE) => FileFault::Crowded,
        Some(TOO_MANY) => FileFault::Crowded,
        _ => fault_by_kind(fault.kind()),
    }
}

fn fault_by_kind(kind: ErrorKind) -> FileFault
    ensures { result ≡ fault_by_kind kind }
{
    match kind {
        ErrorKind::StorageFull => FileFault::Full,
        ErrorKind::QuotaExceeded => FileFault::Full,
        ErrorKind::FileTooLarge => FileFault::Full,
        _ => FileFault::Failed,
    }
}
