//! The lanes of a round's own clients: their logs are moved out of those of all clients, and put back behind the round. So a round costs what its own uploads cost.
ghost use Rattle.std.specs.Prelude.{◌≡◌, ◌≢◌, ℕ, List, [], ◌∷◌, false, map, bytes_eq, IfOk, IfSome, OnOk};
ghost use Rattle.std.specs.List.{AllByRecursion};
ghost use Rattle.std.specs.Option.{option_map_or};
ghost use Rattle.byte_streams.specs.Reading.{WasRead};
ghost use Rattle.indexmap.specs.IndexMap.{get, insert_all};
ghost use Rattle.upload_reader.specs.Upload.{IsUntouched};
ghost use Rattle.lanes_in_turn.specs.Round.{behind_log, clients_of, has_twice, new_log, without_lanes};
ghost use Rattle.lanes_in_turn.specs.Taking.{begun_lane, new_lane};
ghost use Rattle.warp_server.specs.Rounds.{without_reader};
ghost use Rattle.warp_server.specs.program.Callers.{IsReadSo, uploads_in};
ghost use Rattle.replay_folder.specs.inside.Stretch.{first_lane};
ghost use Rattle.replay_folder.specs.inside.{AreReady, IsOwnRound, IsSameBehind, lane_of_log};

use crate::hands::take_to_ends;
use byte_streams::Source;
use client_log::{ClientLog, Quota};
use indexmap::IndexMap;
use page_tree::NoMemory;
use std::alloc::Global;
use std::sync::Wait;
use std::thread::Threads;
use upload_lanes::{Gathered, LaneResult};
use upload_reader::{Client, Upload};

/// A round of these, some uploads, each behind the log of its client, which is moved out of those of all clients: taken by threads at once, or by the thread that
/// calls. Their sources are let go.
pub(crate) fn take_own<F: Source + Drop + Send, T: AllocGlobal + Threads + Wait + Sync>(
    rt: &T,
    at_once: bool,
    clients: &mut IndexMap<Client, LaneResult<F>>,
    uploads: Vec<Upload<F>>,
    quota: Quota,
) -> Result<Gathered<F>, NoMemory>
    requires ready { AreReady uploads.items }
    requires some { uploads.items ≢ [] }
    ensures own { IfOk result
        (IsOwnRound (WasRead F.answers F.remaining) quota (get bytes_eq clients.old) uploads.items) }
    ensures others { OnOk result (IsSameBehind (clients_of uploads.items) clients.old.entries clients.new.entries) }
{
    let fresh = move_out(rt.alloc(), clients, uploads, quota)?;
    let (lanes, stop) = take_to_ends(rt, at_once, fresh)?;
    Ok(Gathered {
        clients: close_all(rt.alloc(), lanes)?,
        stop,
    })
}

// ---- the round begins

// The lanes of these uploads, of which nothing was taken.
fn move_out<F: Source + Drop>(
    alloc: Global,
    clients: &mut IndexMap<Client, LaneResult<F>>,
    uploads: Vec<Upload<F>>,
    quota: Quota,
) -> Result<Vec<(Client, LaneResult<F>)>, NoMemory>
    requires untouched { AllByRecursion IsUntouched uploads.items }
    requires apart { has_twice (clients_of uploads.items) ≡ false }
    ensures lanes { IfOk result (λ lanes.
        lanes.items ≡ map (begun_lane (get bytes_eq clients.old) quota) uploads.items) }
    ensures others { OnOk result (IsSameBehind (clients_of uploads.items) clients.old.entries clients.new.entries) }
{
    let mut lanes = Vec::with_capacity(alloc, uploads.len())?;
    for upload in uploads {
        lanes.push(move_lane(alloc, clients, upload, quota)?)?;
    }
    Ok(lanes)
}

fn move_lane<F: Source + Drop>(
    alloc: Global,
    clients: &mut IndexMap<Client, LaneResult<F>>,
    upload: Upload<F>,
    quota: Quota,
) -> Result<(Client, LaneResult<F>), NoMemory>
    requires untouched { IsUntouched upload }
    ensures lane { IfOk result (λ lane. lane ≡ begun_lane (get bytes_eq clients.old) quota upload) }
    ensures others { OnOk result ((other : List ℕ) → bytes_eq upload.client other ≡ false
        → get bytes_eq clients.new other ≡ get bytes_eq clients.old other) }
    ensures same { OnOk result (IsSameBehind (upload.client ∷ []) clients.old.entries clients.new.entries) }
{
    let client = upload.client().copy()?;
    let log = move_log(alloc, clients, &client, quota)?;
    Ok((client, begin_behind(log, upload)?))
}

// The client's log: a new one, where there is none, else a new one stays in its place.
fn move_log<F: Source + Drop>(
    alloc: Global,
    clients: &mut IndexMap<Client, LaneResult<F>>,
    client: &Client,
    quota: Quota,
) -> Result<ClientLog, NoMemory>
    ensures log { IfOk result (λ log.
        log ≡ option_map_or (λ lane. lane.log) (get bytes_eq clients.old client.now) (new_log quota client.now)) }
    ensures others { OnOk result ((other : List ℕ) → bytes_eq client.now other ≡ false
        → get bytes_eq clients.new other ≡ get bytes_eq clients.old other) }
    ensures same { OnOk result (IsSameBehind (client.now ∷ []) clients.old.entries clients.new.entries) }
{
    let new = ClientLog::new(alloc, client.copy()?, quota);
    if !clients.contains_key(client) {
        return Ok(new);
    }
    match clients.insert(client.copy()?, lane_of_log(new))? {
        Some(lane) => Ok(lane.log),
        None => unreachable!(),
    }
}

/// The lane of a client's first upload, of which nothing was taken.
pub(crate) fn first_lane<F: Source + Drop>(
    alloc: Global,
    upload: Upload<F>,
    quota: Quota,
) -> Result<(Client, LaneResult<F>), NoMemory>
    requires untouched { IsUntouched upload }
    ensures { IfOk result (λ lane. lane ≡ first_lane quota upload) }
{
    let client = upload.client().copy()?;
    let log = ClientLog::new(alloc, client.copy()?, quota);
    Ok((client, begin_behind(log, upload)?))
}

// Behind that log. Of the log itself nothing is copied, but of its session the numbers of the visits.
fn begin_behind<F: Source + Drop>(
    log: ClientLog,
    upload: Upload<F>,
) -> Result<LaneResult<F>, NoMemory>
    requires untouched { IsUntouched upload }
    ensures { IfOk result (λ lane. lane ≡ new_lane log (behind_log log upload)) }
{
    let session = log.session().copy()?;
    Ok(LaneResult {
        log,
        taken: 0,
        end: None,
        upload: Some(upload.resume(session)),
    })
}

// ---- it is over

// The sources of all lanes are let go.
fn close_all<F: Source + Drop>(
    alloc: Global,
    lanes: Vec<(Client, LaneResult<F>)>,
) -> Result<IndexMap<Client, LaneResult<F>>, NoMemory>
    ensures clients { IfOk result (λ own. own.entries
        ≡ insert_all bytes_eq [] (map (λ entry. (entry.0, without_reader entry.1)) lanes.items)) }
    ensures read { IfOk result (λ _. AllByRecursion (IsReadSo (WasRead F.answers F.remaining)) (uploads_in lanes.items)) }
{
    let mut own = IndexMap::new(alloc);
    for (client, lane) in lanes {
        own.insert(client, without_reader(lane))?;
    }
    Ok(own)
}

/// Its source is let go.
pub(crate) fn without_reader<F: Source + Drop>(lane: LaneResult<F>) -> LaneResult<F>
    ensures lane { result ≡ without_reader lane }
    ensures read { IfSome lane.upload (IsReadSo (WasRead F.answers F.remaining)) }
{
    let LaneResult {
        log,
        taken,
        end,
        upload,
    } = lane;
    close(upload);
    LaneResult {
        log,
        taken,
        end,
        upload: None,
    }
}

fn close<F: Source + Drop>(upload: Option<Upload<F>>)
    ensures { IfSome upload (IsReadSo (WasRead F.answers F.remaining)) }
{
    match upload {
        Some(upload) => {
            let _source = upload.into_reader();
        }
        None => {}
    }
}

/// Puts the logs of these lanes among those of all clients.
pub(crate) fn put_back<F: Source + Drop>(
    clients: &mut IndexMap<Client, LaneResult<F>>,
    own: IndexMap<Client, LaneResult<F>>,
) -> Result<(), NoMemory>
    ensures { OnOk result (clients.new.entries ≡ insert_all bytes_eq clients.old.entries (without_lanes own.entries)) }
{
    for (client, lane) in own {
        clients.insert(client, lane_of_log(lane.log))?;
    }
    Ok(())
}

// Of which nothing was taken in the last round.
fn lane_of_log<F: Source>(log: ClientLog) -> LaneResult<F>
    ensures { result ≡ lane_of_log log }
{
    LaneResult {
        log,
        taken: 0,
        end: None,
        upload: None,
    }
}
