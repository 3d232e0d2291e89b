//! How an upload ends.
ghost use Rattle.std.specs.Prelude.{◌≡◌, Some};
ghost use Rattle.upload_reader.specs.LaneFaultCode.{lane_fault_code};
ghost use Rattle.upload_reader.specs.Stream.{kind_of};

use crate::session_fault::SessionFault;
use byte_streams::LineFault;
use page_tree::PageFault;
use std::error::Error;
use std::fmt;
use xpath_child::PathFault;

/// Why nothing more is taken of an upload. Its text is its code, with the inner fault's where there is one, as `E9.S4`. Of one line the first counts,
/// in the order `LineTooLong`, `NotJson`, `BadMessage`, `BadPage`, `BadTarget`, `LaneFull`, `BadSession`.
#[derive(Clone, Copy, Debug, PartialEq, Eq)]
pub enum LaneFault {
    /// E1: a read failed.
    ReadFailed,
    /// E2: as many reads were made as may be.
    TooManyReads,
    /// E3: the input ended before a bye.
    Truncated,
    /// E4: a line of more than 65,536 bytes.
    LineTooLong,
    /// E5: a line that is no JSON text (RFC 8259).
    NotJson,
    /// E6: a JSON text that is none of the messages.
    BadMessage,
    /// E7: a load of something that is no page.
    BadPage(PageFault),
    /// E8: a target, or the button of a submit, that is no path.
    BadTarget(PathFault),
    /// E9: a message that doesn't fit what came before it.
    BadSession(SessionFault),
    /// E10: one message more than may be.
    LaneFull,
}

impl LaneFault {
    /// The same fault of a lane; none for want of memory, which is no fault of the input.
    pub(crate) fn of(fault: LineFault) -> Option<LaneFault>
        ensures { result ≡ kind_of fault }
    {
        match fault {
            LineFault::ReadFailed => Some(LaneFault::ReadFailed),
            LineFault::TooManyReads => Some(LaneFault::TooManyReads),
            LineFault::Truncated => Some(LaneFault::Truncated),
            LineFault::LineTooLong => Some(LaneFault::LineTooLong),
            LineFault::NoMemory => None,
        }
    }
}

impl fmt::Display for LaneFault {
    ghost output = { λ fault. Some (lane_fault_code fault) };

    fn fmt<W: fmt::Write>(&self, f: &mut fmt::Formatter<W>) -> fmt::Result {
        match self {
            LaneFault::ReadFailed => f.write_str("E1"),
            LaneFault::TooManyReads => f.write_str("E2"),
            LaneFault::Truncated => f.write_str("E3"),
            LaneFault::LineTooLong => f.write_str("E4"),
            LaneFault::NotJson => f.write_str("E5"),
            LaneFault::BadMessage => f.write_str("E6"),
            LaneFault::BadPage(fault) => write!(f, "E7.{fault}"),
            LaneFault::BadTarget(fault) => write!(f, "E8.{fault}"),
            LaneFault::BadSession(fault) => write!(f, "E9.{fault}"),
            LaneFault::LaneFull => f.write_str("E10"),
        }
    }
}

impl Error for LaneFault {}

/// How a lane ended.
#[derive(Clone, Copy, Debug, PartialEq, Eq)]
pub enum LaneEnd {
    /// The browser said bye.
    Bye,
    /// The line of that number, counted from 1 with the hello's and blank ones, is the first that can't be taken.
    Fault { line: u64, kind: LaneFault },
}
