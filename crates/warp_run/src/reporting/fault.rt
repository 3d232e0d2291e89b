ghost use Rattle.std.specs.Prelude.{Some};
ghost use Rattle.warp_run.specs.Report.{report_fault_code};

use byte_streams::WriteFailed;
use page_tree::NoMemory;
use std::error::Error;
use std::fmt;

/// Why a report wasn't written whole. Its text is its code, as `O1`.
#[derive(Clone, Copy, Debug, PartialEq, Eq)]
pub enum ReportFault {
    /// O1: a write failed or took nothing. A part from the front of the text was written.
    WriteFailed,
    /// O2: memory was refused. Nothing was written.
    NoMemory,
}

impl fmt::Display for ReportFault {
    ghost output = { λ fault. Some (report_fault_code fault) };

    fn fmt<W: fmt::Write>(&self, f: &mut fmt::Formatter<W>) -> fmt::Result {
        f.write_str(match self {
            ReportFault::WriteFailed => "O1",
            ReportFault::NoMemory => "O2",
        })
    }
}

impl Error for ReportFault {}

impl From<WriteFailed> for ReportFault {
    ghost use Rattle.std.specs.Prelude.{◌≡◌};
    ghost use Rattle.warp_run.specs.declared.reporting.fault.ReportFault.TheVariants as fault;

    ghost from_gives = { λ _ e. e ≡ fault.WriteFailed };

    fn from(_: WriteFailed) -> ReportFault {
        ReportFault::WriteFailed
    }
}

impl From<NoMemory> for ReportFault {
    ghost use Rattle.std.specs.Prelude.{◌≡◌};
    ghost use Rattle.warp_run.specs.declared.reporting.fault.ReportFault.TheVariants as fault;

    ghost from_gives = { λ _ e. e ≡ fault.NoMemory };

    fn from(_: NoMemory) -> ReportFault {
        ReportFault::NoMemory
    }
}
