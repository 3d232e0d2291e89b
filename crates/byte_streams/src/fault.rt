ghost use Rattle.std.specs.Prelude.{Some};
ghost use Rattle.byte_streams.specs.LineFaultCode.{line_fault_code};

use std::error::Error;
use std::fmt;

/// Why there is no next line. Its text is its code, as `E1`.
#[derive(Clone, Copy, Debug, PartialEq, Eq)]
pub enum LineFault {
    /// E1: a read failed.
    ReadFailed,
    /// E2: as many reads were made as may be.
    TooManyReads,
    /// E3: the input ended, and the line had no line end.
    Truncated,
    /// E4: there are more bytes than the limit before a line end.
    LineTooLong,
    /// An allocation was refused.
    NoMemory,
}

impl fmt::Display for LineFault {
    ghost output = { λ fault. Some (line_fault_code fault) };

    fn fmt<W: fmt::Write>(&self, f: &mut fmt::Formatter<W>) -> fmt::Result {
        match self {
            LineFault::ReadFailed => f.write_str("E1"),
            LineFault::TooManyReads => f.write_str("E2"),
            LineFault::Truncated => f.write_str("E3"),
            LineFault::LineTooLong => f.write_str("E4"),
            LineFault::NoMemory => f.write_str("no memory"),
        }
    }
}

impl Error for LineFault {}
