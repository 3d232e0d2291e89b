//! What replaying uploads comes to.
ghost use Rattle.std.specs.Prelude.{◌≡◌, length};

use crate::ends::UploadEnd;
use crate::names::Named;
use byte_streams::Source;
use upload_lanes::Gathered;
use warp_run::{Listed, Repaired, Status};

/// The uploads that were named, and what became of each.
#[derive(Drop)]
pub struct ToldUploads {
    pub named: Listed<Named>,
    pub ends: Listed<UploadEnd>,
    ghost each: { length named ≡ length ends },
}

/// What replaying uploads came to. It has all that a report tells, and what the uploads gave.
#[derive(Drop)]
pub struct Replayed<F: Source> {
    pub told: ToldUploads,
    /// The logs of all clients.
    pub gathered: Gathered<F>,
    pub repaired: Repaired,
    /// How the program ends once this is reported.
    pub status: Status,
}
