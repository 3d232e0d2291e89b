//! The note behind a decision.
ghost use Rattle.std.specs.Prelude.{◌≡◌, ◌++◌, OnOk};
ghost use Rattle.review_visits.specs.Visit.{AddsNote};

use byte_streams::Source;
use conflict_desk::Standing;
use page_tree::NoMemory;
use replay_folder::Replayed;
use review_pieces::pieces::add_note;
use std::alloc::Global;
use upload_reader::Client;

/// Adds the note that a client's visit was decided, where it was: it stands kept or cancelled.
pub fn add_told<R: Source>(
    alloc: Global,
    out: &mut Vec<u8>,
    replayed: &Replayed<R>,
    client: &Client,
    visit: u64,
) -> Result<(), NoMemory>
    ensures { OnOk result (AddsNote out.old.items out.new.items) }
{
    let word = match replayed.repaired.desk.standing(client, visit) {
        Some(Standing::Kept) => "kept",
        Some(Standing::Cancelled) => "cancelled",
        _ => return Ok(()),
    };
    let text = format!(in alloc; "Visit {visit} is {word}: its line stands in the site's file.")?;
    add_note(out, "status", text.as_str())
}
