//! What wants the administrator's attention before any conflict.
ghost use Rattle.std.specs.Prelude.{ℕ, ◌≡◌, ◌++◌, count_by, not, OnOk};
ghost use Rattle.upload_reader.specs.declared.ending.Ending.TheVariants.{Over};
ghost use Rattle.upload_reader.specs.declared.lane_fault.LaneEnd.TheVariants.{Fault};
ghost use Rattle.review_lists.specs.Standings.{was_made};
ghost use Rattle.review_lists.specs.Attention.{was_taken, ends_well, loses_visits, ends_oddly, counted_note, closed_note, stop_note, attention_html};

use crate::standings::was_made;
use crate::words::counted_words;
use lanes_in_turn::Stop;
use page_tree::NoMemory;
use replay_folder::{ToldUploads, UploadEnd};
use review_pieces::pieces;
use std::alloc::Global;
use upload_reader::{Ending, LaneEnd, LaneFault};
use warp_run::{ClientSummary, PutDecision, Repaired};

const STOPPED: &str =
    "Memory was refused while uploads were taken: what is shown is of the first messages.";

const ONE_UNTAKEN: &str = "1 upload couldn't be taken: see Uploads below.";

const MORE_UNTAKEN: &str = " uploads couldn't be taken: see Uploads below.";

const ONE_LOSES: &str =
    "1 client lost visits for want of room: raise quota and start again, before you decide.";

const MORE_LOSE: &str =
    " clients lost visits for want of room: raise quota and start again, before you decide.";

const ONE_FAILS: &str =
    "The last upload of 1 client ended otherwise than by its bye or by being cut off (E3): see Clients below.";

const MORE_FAIL: &str =
    " clients have a last upload that ended otherwise than by its bye or by being cut off (E3): see Clients below.";

const ONE_UNMADE: &str =
    "1 decision of the site file wasn't made: the report's last lines say why.";

const MORE_UNMADE: &str =
    " decisions of the site file weren't made: the report's last lines say why.";

/// Adds what there is of it, the closed file first.
pub(crate) fn add_attention(
    alloc: Global,
    out: &mut Vec<u8>,
    told: &ToldUploads,
    repaired: &Repaired,
    is_closed: bool,
) -> Result<(), NoMemory>
    ensures { OnOk result (out.new.items ≡ out.old.items ++ attention_html told.now repaired.now is_closed) }
{
    let clients = repaired.clients.as_slice();
    add_closed_note(out, is_closed)?;
    add_stop_note(out, repaired.stop)?;
    let untaken = untaken_of(told.ends.as_slice());
    add_counted_note(alloc, out, untaken, ONE_UNTAKEN, MORE_UNTAKEN)?;
    add_counted_note(alloc, out, losing(clients), ONE_LOSES, MORE_LOSE)?;
    add_counted_note(alloc, out, failing(clients), ONE_FAILS, MORE_FAIL)?;
    let unmade = unmade_of(repaired.decided.as_slice());
    add_counted_note(alloc, out, unmade, ONE_UNMADE, MORE_UNMADE)
}

fn add_closed_note(out: &mut Vec<u8>, is_closed: bool) -> Result<(), NoMemory>
    ensures { OnOk result (out.new.items ≡ out.old.items ++ closed_note is_closed) }
{
    if is_closed {
        pieces::add_closed(out)
    } else {
        Ok(())
    }
}

fn add_stop_note(out: &mut Vec<u8>, stop: Stop) -> Result<(), NoMemory>
    ensures { OnOk result (out.new.items ≡ out.old.items ++ stop_note stop) }
{
    match stop {
        Stop::None => Ok(()),
        Stop::Asked => Ok(()),
        Stop::Memory => pieces::add_note(out, "alert", STOPPED),
    }
}

#[tactic(auto, unfolding(crate::specs::Attention::counted_note))]
fn add_counted_note(
    alloc: Global,
    out: &mut Vec<u8>,
    count: usize,
    one: &str,
    several: &str,
) -> Result<(), NoMemory>
    ensures { OnOk result (out.new.items ≡ out.old.items ++ counted_note count one.now several.now) }
{
    if count == 0 {
        return Ok(());
    }
    let text = counted_words(alloc, count, one, several)?;
    pieces::add_note(out, "note", text.as_str())
}

// ---- what is counted

fn untaken_of(ends: &[UploadEnd]) -> usize
    ensures { result ≡ count_by (λ end. not (was_taken end)) ends.now }
{
    ends.iter().filter(|end| !was_taken(end)).count()
}

/// It was taken, however it ended.
pub(crate) fn was_taken(end: &UploadEnd) -> bool
    ensures { result ≡ was_taken end.now }
{
    match end {
        UploadEnd::Unopened => false,
        UploadEnd::NoHello(_) => false,
        UploadEnd::Taken { .. } => true,
        UploadEnd::Unread => false,
    }
}

// Those of which visits were lost.
fn losing(clients: &[ClientSummary]) -> usize
    ensures { result ≡ count_by loses_visits clients.now }
{
    clients.iter().filter(|client| client.lost > 0).count()
}

// Those whose last upload ended so that somebody has to look at it.
fn failing(clients: &[ClientSummary]) -> usize
    ensures { result ≡ count_by ends_oddly clients.now }
{
    clients
        .iter()
        .filter(|client| !ends_well(client.end))
        .count()
}

// Those that the desk refused.
fn unmade_of(decided: &[PutDecision]) -> usize
    ensures { result ≡ count_by (λ put. not (was_made put)) decided.now }
{
    decided.iter().filter(|put| !was_made(put)).count()
}

fn ends_well(end: Option<Ending>) -> bool
    ensures { result ≡ ends_well end }
{
    match end {
        None => false,
        Some(Ending::GaveUp) => false,
        Some(Ending::Over(end)) => is_whole_or_cut(end),
    }
}

fn is_whole_or_cut(end: LaneEnd) -> bool
    ensures { result ≡ ends_well (Some (Over end)) }
{
    match end {
        LaneEnd::Bye => true,
        LaneEnd::Fault { kind, .. } => is_cut(kind),
    }
}

fn is_cut(kind: LaneFault) -> bool
    ensures { (line : ℕ) → result ≡ ends_well (Some (Over (Fault line kind))) }
{
    match kind {
        LaneFault::Truncated => true,
        _ => false,
    }
}
