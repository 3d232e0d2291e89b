//! The codes of faults in a report. Their `Display` prints the same, but its contract leaves open that it fails.
ghost use Rattle.std.specs.Prelude.{◌≡◌, ◌++◌, codes, decimal};
ghost use Rattle.page_tree.specs.Fault.{page_fault_code};
ghost use Rattle.xpath_child.specs.Fault.{path_fault_code};
ghost use Rattle.upload_reader.specs.LaneFaultCode.{lane_fault_code};
ghost use Rattle.upload_reader.specs.Session.{session_fault_code};
ghost use Rattle.conflict_desk.specs.Fault.{desk_fault_code};
ghost use Rattle.warp_run.specs.Buffer.{AddsText};

use super::buffer::ReportBuffer;
use byte_streams::Sink;
use conflict_desk::DeskFault;
use page_tree::PageFault;
use upload_reader::{LaneFault, SessionFault};
use xpath_child::PathFaultKind;

/// Adds a fault and the line that it stands at.
pub fn add_lane_fault<W: Sink>(
    buffer: &mut ReportBuffer,
    writer: &mut W,
    kind: LaneFault,
    line: u64,
)
    ensures { AddsText W.puts W.contents writer.old buffer.old writer.new buffer.new
        (lane_fault_code kind ++ codes "@" ++ decimal line) }
{
    let (code, inner) = lane_fault_code(kind);
    buffer.add(writer, code);
    buffer.add(writer, inner);
    buffer.add_with_number(writer, "@", line);
}

// With that of the fault in it, if any.
fn lane_fault_code(kind: LaneFault) -> (&'static str, &'static str)
    ensures { result.0.now ++ result.1.now ≡ lane_fault_code kind }
{
    match kind {
        LaneFault::ReadFailed => ("E1", ""),
        LaneFault::TooManyReads => ("E2", ""),
        LaneFault::Truncated => ("E3", ""),
        LaneFault::LineTooLong => ("E4", ""),
        LaneFault::NotJson => ("E5", ""),
        LaneFault::BadMessage => ("E6", ""),
        LaneFault::BadPage(fault) => ("E7.", page_fault_code(fault)),
        LaneFault::BadTarget(fault) => ("E8.", path_fault_code(fault.kind)),
        LaneFault::BadSession(fault) => ("E9.", session_fault_code(fault)),
        LaneFault::LaneFull => ("E10", ""),
    }
}

fn page_fault_code(fault: PageFault) -> &'static str
    ensures { result.now ≡ page_fault_code fault }
{
    match fault {
        PageFault::NotAnElement => "P1",
        PageFault::BadName => "P2",
        PageFault::BadAttribute => "P3",
        PageFault::BadChildren => "P4",
        PageFault::TooDeep => "P5",
        PageFault::TooMany => "P6",
        PageFault::NoMemory => "P7",
    }
}

fn path_fault_code(kind: PathFaultKind) -> &'static str
    ensures { result.now ≡ path_fault_code kind }
{
    match kind {
        PathFaultKind::NotAbsolute => "X1",
        PathFaultKind::EmptyStep => "X2",
        PathFaultKind::BadName => "X3",
        PathFaultKind::BadIndex => "X4",
        PathFaultKind::TooManySteps => "X5",
        PathFaultKind::NoMemory => "X6",
    }
}

fn session_fault_code(fault: SessionFault) -> &'static str
    ensures { result.now ≡ session_fault_code fault }
{
    match fault {
        SessionFault::VisitOrder => "S1",
        SessionFault::NoParent => "S2",
        SessionFault::NoVisit => "S3",
        SessionFault::AfterEnd => "S4",
        SessionFault::RequestOrder => "S5",
        SessionFault::VisitFull => "S6",
        SessionFault::TooManyOpen => "S7",
        SessionFault::NoMemory => "S8",
    }
}

pub(super) fn desk_fault_code(fault: DeskFault) -> &'static str
    ensures { result.now ≡ desk_fault_code fault }
{
    match fault {
        DeskFault::NoClient => "C1",
        DeskFault::NotFront(_) => "C2",
        DeskFault::NoMemory => "C3",
    }
}
