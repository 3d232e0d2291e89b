ghost use Rattle.std.specs.Prelude.{◌≡◌};
ghost use Rattle.upload_reader.specs.Next.{next_of, ending_by};
ghost use Rattle.upload_reader.specs.inside.Taken.{fault_next};
ghost use Rattle.upload_reader.specs.declared.lane_fault.LaneEnd.TheVariants.{Fault};
ghost use Rattle.upload_reader.specs.declared.next.Next.TheVariants.{Over};

use crate::ending::Ending;
use crate::lane_fault::{LaneEnd, LaneFault};
use crate::message::Message;
use byte_streams::LineFault;

/// What an upload gives next.
#[derive(Debug, Drop)]
pub enum Next {
    /// A message with its cost: the length of its line in bytes, without the line end.
    Got(Message, u32),
    /// All messages were given, and this is the end.
    Over(LaneEnd),
    /// An allocation was refused.
    GaveUp,
}

impl Next {
    pub(crate) fn of(ending: Ending) -> Next
        ensures { result ≡ next_of ending }
    {
        match ending {
            Ending::Over(end) => Next::Over(end),
            Ending::GaveUp => Next::GaveUp,
        }
    }

    /// The end by that fault, at the line of that number.
    pub(crate) fn at(line: u64, kind: LaneFault) -> Next
        ensures { result ≡ Over (Fault line kind) }
    {
        Next::Over(LaneEnd::Fault { line, kind })
    }

    /// Where there is no line of that number.
    pub(crate) fn without_line(number: u64, fault: LineFault) -> Next
        ensures { result ≡ fault_next number fault }
    {
        match LaneFault::of(fault) {
            Some(kind) => Next::at(number, kind),
            None => Next::GaveUp,
        }
    }

    /// How it ends the upload, if it does.
    pub(crate) fn ending(&self) -> Option<Ending>
        ensures { result ≡ ending_by self.now }
    {
        match self {
            Next::Got(_, _) => None,
            Next::Over(end) => Some(Ending::Over(*end)),
            Next::GaveUp => Some(Ending::GaveUp),
        }
    }
}
