//! How a run ends.
ghost use Rattle.std.specs.Prelude.{◌≡◌};
ghost use Rattle.indexmap.specs.IndexMap.{values};
ghost use Rattle.warp_run.specs.Shortage.{status_of, status_of_lanes, gave_up};
ghost use Rattle.warp_run.specs.Status.{written_status};

use crate::reporting::ReportFault;
use crate::status::Status;
use byte_streams::Source;
use indexmap::IndexMap;
use lanes_in_turn::{Gathered, LaneResult, Stop};
use upload_reader::{Client, Ending};

/// How a run ends whose report is of this, once that is written. Where memory was refused, it is of less than the uploads (status 5).
pub fn status_of<R: Source + Drop>(gathered: &Gathered<R>) -> Status
    ensures { result ≡ status_of gathered.now }
{
    match gathered.stop {
        Stop::Memory => Status::OutOfMemory,
        Stop::None | Stop::Asked => status_of_lanes(&gathered.clients),
    }
}

fn status_of_lanes<R: Source + Drop>(clients: &IndexMap<Client, LaneResult<R>>) -> Status
    ensures { result ≡ status_of_lanes (values clients.now) }
{
    for lane in clients.values() {
        if gave_up(lane.end) {
            return Status::OutOfMemory;
        }
    }
    Status::Done
}

fn gave_up(end: Option<Ending>) -> bool
    ensures { result ≡ gave_up end }
{
    match end {
        Some(Ending::GaveUp) => true,
        _ => false,
    }
}

/// How a run ends that would end so, had its report been written: status 6 where a write failed, 5 where memory was refused.
pub fn written_status(status: Status, report: Result<(), ReportFault>) -> Status
    ensures { result ≡ written_status status report }
{
    match report {
        Ok(()) => status,
        Err(ReportFault::WriteFailed) => Status::InputOutput,
        Err(ReportFault::NoMemory) => Status::OutOfMemory,
    }
}
