//! Rounds of uploads, one after another.
ghost use Rattle.std.specs.Prelude.{ℕ, List, [], ◌∷◌, false, ◌≡◌, ◌≢◌, map, slice_get, true, Some, IfOk, IfErr};
ghost use Rattle.std.specs.List.{FoldsTo};
ghost use Rattle.indexmap.specs.IndexMap.{set_value_at};
ghost use Rattle.lanes_in_turn.specs.Round.{AreRoundLanes};
ghost use Rattle.upload_reader.specs.Upload.{UploadState};
ghost use Rattle.byte_streams.specs.Reading.{WasRead};
ghost use Rattle.site_line.specs.Reading.{site_quota};
ghost use Rattle.warp_server.specs.Rounds.{without_reader};
ghost use Rattle.warp_server.specs.program.Callers.{sayings, uploads_in, GivesBack, RoundFails, MakesRound, NoFurtherRound, MakesAll};
ghost use Rattle.warp_run.specs.Shortage.{status_of};
ghost use Rattle.warp_run.specs.declared.status.Status.TheVariants.{Done, OutOfMemory};

use crate::program::answering::take_to_ends;
use crate::program::callers::Callers;
use crate::program::greeting::accept_uploads;
use byte_streams::Source;
use indexmap::IndexMap;
use site_line::Site;
use std::sync::Wait;
use std::thread::Threads;
use upload_lanes::{GatherFault, Gathered, LaneResult};
use upload_reader::{Client, Upload};
use warp_run::{Status, status_of};

/// What so many rounds of these callers gather, each of so many uploads. A round in which memory is refused is the last.
pub(crate) fn gather_rounds<
    R: Source + Drop + Send,
    C: Callers<Reader = R>,
    T: AllocGlobal + Threads + Wait + Sync,
>(rt: &T, callers: &mut C, lanes: u32, rounds: u32, site: &Site) -> Result<Gathered<R>, Status>
    requires lanes { AreRoundLanes lanes }
    ensures ok { IfOk result (λ gathered. MakesAll
        (sayings (WasRead R.answers R.remaining) C.brings C.brings_none C.takes_back)
        site.now lanes rounds callers.old gathered callers.new) }
    ensures refused { IfErr result (NoFurtherRound
        (sayings (WasRead R.answers R.remaining) C.brings C.brings_none C.takes_back)
        site.now lanes rounds callers.old callers.new) }
{
    let mut gathered = Gathered::new(rt.alloc());
    for _ in 0..rounds {
        if is_short(&gathered) {
            return Ok(gathered);
        }
        gathered = gather_round(rt, callers, lanes, site, gathered)?;
    }
    Ok(gathered)
}

// Whether memory was refused.
fn is_short<R: Source + Drop>(gathered: &Gathered<R>) -> bool
    ensures whole { result ≡ false → status_of gathered.now ≡ Done }
    ensures short { result ≡ true → status_of gathered.now ≢ Done }
{
    match status_of(gathered) {
        Status::Done => false,
        _ => true,
    }
}

// One round more. Its sources are given back when it is over.
fn gather_round<
    R: Source + Drop + Send,
    C: Callers<Reader = R>,
    T: AllocGlobal + Threads + Wait + Sync,
>(
    rt: &T,
    callers: &mut C,
    lanes: u32,
    site: &Site,
    earlier: Gathered<R>,
) -> Result<Gathered<R>, Status>
    requires lanes { AreRoundLanes lanes }
    requires whole { status_of earlier ≡ Done }
    ensures ok { IfOk result (λ gathered. (uploads : List (UploadState R)) × MakesRound
        (sayings (WasRead R.answers R.remaining) C.brings C.brings_none C.takes_back)
        (site_quota site.now) lanes callers.old earlier uploads gathered callers.new) }
    ensures refused { IfErr result (RoundFails
        (sayings (WasRead R.answers R.remaining) C.brings C.brings_none C.takes_back)
        lanes callers.old callers.new) }
{
    let uploads = accept_uploads(rt.alloc(), callers, lanes)?;
    match take_to_ends(rt, earlier, uploads, site.quota()) {
        Ok(round) => Ok(give_back_all(callers, round)),
        Err(refused) => match refused.fault {
            GatherFault::BadLanes => unreachable!(),
            GatherFault::DuplicateClient => {
                give_back(callers, refused.uploads);
                Err(Status::BadHello)
            }
            GatherFault::NoMemory => Err(Status::OutOfMemory),
        },
    }
}

// Gives the sources of these uploads back, one after another.
fn give_back<R: Source + Drop + Send, C: Callers<Reader = R>>(
    callers: &mut C,
    uploads: Vec<Upload<R>>,
)
    ensures { FoldsTo
        (GivesBack (sayings (WasRead R.answers R.remaining) C.brings C.brings_none C.takes_back))
        callers.old uploads.items callers.new }
{
    for upload in uploads {
        callers.take_back(upload.into_reader());
    }
}

// The same of all that the lanes of the round hold.
fn give_back_all<R: Source + Drop + Send, C: Callers<Reader = R>>(
    callers: &mut C,
    round: Gathered<R>,
) -> Gathered<R>
    ensures clients { result.clients.entries ≡ map (λ entry. (entry.0, without_reader entry.1)) round.clients.entries }
    ensures stop { result.stop ≡ round.stop }
    ensures back { FoldsTo
        (GivesBack (sayings (WasRead R.answers R.remaining) C.brings C.brings_none C.takes_back))
        callers.old (uploads_in round.clients.entries) callers.new }
{
    let mut round = round;
    for k in 0..round.clients.len() {
        give_back_at(callers, &mut round.clients, k);
    }
    round
}

// The same of the entry at that place.
fn give_back_at<R: Source + Drop + Send, C: Callers<Reader = R>>(
    callers: &mut C,
    clients: &mut IndexMap<Client, LaneResult<R>>,
    k: usize,
)
    ensures clients { (entry : List ℕ × LaneResult R) → slice_get clients.old.entries k ≡ Some entry
        → clients.new.entries ≡ set_value_at clients.old.entries k (without_reader entry.1) }
    ensures back { (entry : List ℕ × LaneResult R) → slice_get clients.old.entries k ≡ Some entry → FoldsTo
        (GivesBack (sayings (WasRead R.answers R.remaining) C.brings C.brings_none C.takes_back))
        callers.old (uploads_in (entry ∷ [])) callers.new }
{
    if let Some(lane) = clients.get_index_mut(k) {
        if let Some(upload) = lane.upload.take() {
            callers.take_back(upload.into_reader());
        }
    }
}
