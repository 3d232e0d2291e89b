//! Why the page isn't served.
ghost use Rattle.std.specs.Prelude.{◌≡◌};
ghost use Rattle.std.specs.IoError.{error_kind};
ghost use Rattle.review_server.specs.Fault.{failed_by, fault_of_site, review_exit_code, review_error_line, wrong_of};
ghost use Rattle.review_server.specs.declared.fault.ReviewFault.TheVariants.{NoMemory, PortFailed};

use site_file::{FileWrong, NoSiteFile};
use site_opening::NoSite;
use std::alloc::AllocError;
use std::io;
use std::io::ErrorKind;

/// Why the page isn't served, or no longer.
#[derive(Clone, Copy, Debug, PartialEq, Eq)]
pub enum ReviewFault {
    /// The site's file says no site.
    BadSite(FileWrong),
    /// Memory was refused, or random bytes.
    NoMemory,
    /// Another program has the site's file.
    InUse,
    /// The site's file can't be opened, locked, read or synced.
    SiteFailed,
    /// The port can't be listened on, or no longer.
    PortFailed,
}

impl ReviewFault {
    /// The exit status of the program.
    pub fn code(self) -> u8
        ensures { result ≡ review_exit_code self }
    {
        match self {
            ReviewFault::BadSite(_) => 3,
            ReviewFault::NoMemory => 5,
            ReviewFault::InUse => 6,
            ReviewFault::SiteFailed => 6,
            ReviewFault::PortFailed => 6,
        }
    }

    /// The line for standard error.
    pub fn line(self) -> &'static str
        ensures { result.now ≡ review_error_line self }
    {
        match self {
            ReviewFault::BadSite(_) => "bad site",
            ReviewFault::NoMemory => "no memory",
            ReviewFault::InUse => "another program has the site's file",
            ReviewFault::SiteFailed => "the site's file can't be used",
            ReviewFault::PortFailed => "the port can't be used",
        }
    }

    /// What is wrong with the site's file, where that is why.
    pub fn wrong(self) -> Option<FileWrong>
        ensures { result ≡ wrong_of self }
    {
        match self {
            ReviewFault::BadSite(wrong) => Some(wrong),
            _ => None,
        }
    }
}

impl From<NoSite> for ReviewFault {
    ghost from_gives = { λ none result. result ≡ fault_of_site none };

    fn from(none: NoSite) -> ReviewFault {
        match none {
            NoSite::Unread(NoSiteFile::Wrong(wrong)) => ReviewFault::BadSite(wrong),
            NoSite::Unread(NoSiteFile::ReadFailed) => ReviewFault::SiteFailed,
            NoSite::Unread(NoSiteFile::NoMemory) => ReviewFault::NoMemory,
            NoSite::Unsynced(_) => ReviewFault::SiteFailed,
        }
    }
}

/// Of a socket.
impl From<io::Error> for ReviewFault {
    ghost from_gives = { λ error result. result ≡ failed_by (error_kind error) PortFailed };

    fn from(error: io::Error) -> ReviewFault {
        failed_by(error.kind(), ReviewFault::PortFailed)
    }
}

impl From<AllocError> for ReviewFault {
    ghost from_gives = { λ _ result. result ≡ NoMemory };

    fn from(_fault: AllocError) -> ReviewFault {
        ReviewFault::NoMemory
    }
}

/// Want of memory is told as that.
pub(crate) fn failed_by(kind: ErrorKind, fault: ReviewFault) -> ReviewFault
    ensures { result ≡ failed_by kind fault }
{
    match kind {
        ErrorKind::OutOfMemory => ReviewFault::NoMemory,
        _ => fault,
    }
}
