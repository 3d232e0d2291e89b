//! What all rounds have in common: how one begins, and what it leaves.
ghost use Rattle.std.specs.Prelude.{◌≡◌, ◌+◌, ◌≤◌, ◌<◌, length, map, bytes_eq, slice_get, Some, IfOk, IfErr};
ghost use Rattle.std.specs.List.{AllByRecursion};
ghost use Rattle.indexmap.specs.IndexMap.{get, spare, insert_entry, insert_all, set_value_at, IsUnchanged};
ghost use Rattle.upload_reader.specs.Upload.{IsUntouched};
ghost use Rattle.lanes_in_turn.specs.Round.{resumed_upload, without_lane, without_lanes};
ghost use Rattle.lanes_in_turn.specs.Taking.{new_lane, begun_lane};
ghost use Rattle.lanes_in_turn.specs.declared.gathered.LaneResult.{LaneResult};

use crate::gathered::LaneResult;
use byte_streams::Source;
use client_log::{ClientLog, Quota};
use indexmap::IndexMap;
use page_tree::NoMemory;
use std::alloc::Global;
use upload_reader::{Client, Session, Upload};

/// The lanes of a round, of which nothing was taken, and room for all of them among the clients.
pub(crate) fn begin_lanes<R: Source + Drop>(
    alloc: Global,
    clients: &mut IndexMap<Client, LaneResult<R>>,
    uploads: Vec<Upload<R>>,
    quota: Quota,
) -> Result<Vec<(Client, LaneResult<R>)>, NoMemory>
    requires untouched { AllByRecursion IsUntouched uploads.items }
    ensures same { IsUnchanged clients.old clients.new }
    ensures lanes { IfOk result (λ lanes. lanes.items ≡ map (begun_lane (get bytes_eq clients.old) quota) uploads.items) }
    ensures room { IfOk result (λ lanes. length lanes.items ≤ spare clients.new) }
{
    let lanes = begin_all(alloc, clients, uploads, quota)?;
    clients.reserve(lanes.len())?;
    Ok(lanes)
}

fn begin_all<R: Source + Drop>(
    alloc: Global,
    clients: &IndexMap<Client, LaneResult<R>>,
    uploads: Vec<Upload<R>>,
    quota: Quota,
) -> Result<Vec<(Client, LaneResult<R>)>, NoMemory>
    requires untouched { AllByRecursion IsUntouched uploads.items }
    ensures { IfOk result (λ lanes. lanes.items ≡ map (begun_lane (get bytes_eq clients.now) quota) uploads.items) }
{
    let mut lanes = Vec::with_capacity(alloc, uploads.len())?;
    for upload in uploads {
        lanes.push(begin_lane(alloc, clients, upload, quota)?)?;
    }
    Ok(lanes)
}

fn begin_lane<R: Source + Drop>(
    alloc: Global,
    clients: &IndexMap<Client, LaneResult<R>>,
    upload: Upload<R>,
    quota: Quota,
) -> Result<(Client, LaneResult<R>), NoMemory>
    requires untouched { IsUntouched upload }
    ensures { IfOk result (λ lane. lane ≡ begun_lane (get bytes_eq clients.now) quota upload) }
{
    let client = upload.client().copy()?;
    let lane = match clients.get(&client) {
        Some(known) => begin_behind(known, upload)?,
        None => {
            let log = ClientLog::new(alloc, client.copy()?, quota);
            new_lane(log, upload.resume(Session::new(alloc)))
        }
    };
    Ok((client, lane))
}

// Behind what an earlier round took of the client.
fn begin_behind<R: Source + Drop>(
    known: &LaneResult<R>,
    upload: Upload<R>,
) -> Result<LaneResult<R>, NoMemory>
    requires untouched { IsUntouched upload }
    ensures { IfOk result (λ lane. lane ≡ new_lane known.now.log (resumed_upload upload (Some known.now))) }
{
    let log = known.log.copy()?;
    let session = known.log.session().copy()?;
    Ok(new_lane(log, upload.resume(session)))
}

/// A lane of which nothing was taken.
pub(crate) fn new_lane<R: Source + Drop>(log: ClientLog, upload: Upload<R>) -> LaneResult<R>
    ensures { result ≡ new_lane log upload }
{
    LaneResult {
        log,
        taken: 0,
        end: None,
        upload: Some(upload),
    }
}

/// What a later round leaves of the lanes of the earlier ones.
pub(crate) fn rest_all<R: Source + Drop>(clients: &mut IndexMap<Client, LaneResult<R>>)
    ensures rested { clients.new.entries ≡ without_lanes clients.old.entries }
    ensures room { spare clients.old ≤ spare clients.new }
{
    for k in 0..clients.len() {
        rest_at(clients, k);
    }
}

fn rest_at<R: Source + Drop>(clients: &mut IndexMap<Client, LaneResult<R>>, k: usize)
    ensures entries { (lane : LaneResult R) → slice_get (map (λ entry. entry.1) clients.old.entries) k ≡ Some lane
        → clients.new.entries ≡ set_value_at clients.old.entries k (without_lane lane) }
    ensures room { spare clients.new ≡ spare clients.old }
{
    if let Some(lane) = clients.get_index_mut(k) {
        lane.rest();
    }
}

/// Puts the lanes of a round among the clients, where there is room for all of them.
pub(crate) fn put_back<R: Source + Drop>(
    clients: &mut IndexMap<Client, LaneResult<R>>,
    lanes: Vec<(Client, LaneResult<R>)>,
)
    requires room { length lanes.items ≤ spare clients.old }
    ensures { clients.new.entries ≡ insert_all bytes_eq clients.old.entries lanes.items }
{
    for (client, lane) in lanes {
        put_one(clients, client, lane);
    }
}

/// There is room for it.
pub(crate) fn put_one<R: Source + Drop>(
    clients: &mut IndexMap<Client, LaneResult<R>>,
    client: Client,
    lane: LaneResult<R>,
)
    requires room { 0 < spare clients.old }
    ensures entries { clients.new.entries ≡ insert_entry bytes_eq clients.old.entries client lane }
    ensures room { spare clients.old ≤ spare clients.new + 1 }
{
    let _known = clients.insert(client, lane);
}
