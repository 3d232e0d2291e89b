//! The replay server: sites and uploads come in, reports go out.
//!
//! `answer` is what `warp_run` does with one upload for up to 16 at once, and carries what the server promises (`specs/Headline.antt`). `serve_callers` takes
//! uploads in rounds from whoever brings them, and carries the same promise of all rounds; `serve` is its case of a listener's connections, and `listen` the
//! program that serves.
#![tactic(auto)]

mod program;

pub use program::{
    AnswerFault, Answered, Call, CallFault, Callers, Listening, MAX_ROUNDS, Opens, Replaying,
    Words, accept_call, answer, listen, listen_by, serve, serve_callers,
};
pub use upload_lanes::{
    GatherFault, Gathered, LaneResult, RefusedRound, Stop, gather, gather_again,
    gather_again_in_order, gather_in_order,
};
pub use warp_run::{
    ClientSummary, Decision, Listed, PutDecision, Repaired, ReportFault, Sink, Site, SiteFault,
    Status, Told, exit_with, repair, report, run, settle,
};
