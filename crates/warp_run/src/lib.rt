//! One run of the replay server: a site line and one upload come in, a report goes out.
//!
//! The upload is taken (`lanes_in_turn`), `repair` replays what is kept of it, `settle` puts the administrator's decisions to the desk, and `report` writes
//! what became of it all; the last three for any number of clients. `run` is the program on one upload: its contract says which report was written, or which
//! fault the input has, by what its reads gave.
#![tactic(auto)]

mod concluding;
mod ending;
mod exiting;
mod intake;
mod listed;
mod repaired;
mod repairing;
mod reporting;
mod running;
mod settling;
mod status;
mod telling;

pub use byte_streams::{Sink, Told};
pub use concluding::{Concluded, conclude};
pub use conflict_desk::Decision;
pub use ending::{status_of, written_status};
pub use exiting::exit_with;
pub use intake::{no_hello, read_site};
pub use lanes_in_turn::{Gathered, LaneResult, Stop};
pub use listed::Listed;
pub use repaired::{ClientSummary, PutDecision, Repaired};
pub use repairing::{repair, repair_with_own};
pub use reporting::{
    ReportBuffer, ReportFault, ReportRoom, add_end, add_lane_fault, add_quoted, add_repaired,
    add_stop, report,
};
pub use running::run;
pub use settling::{put, settle};
pub use site_line::{Site, SiteFault};
pub use status::Status;
