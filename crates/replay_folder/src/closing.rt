//! A round is taken, and what became of its names is told.
ghost use Rattle.std.specs.Prelude.{◌≡◌, [], ◌++◌, ◌⊎◌, map, IfOk};
ghost use Rattle.byte_streams.specs.Reading.{WasRead};
ghost use Rattle.warp_run.specs.declared.status.Status.TheVariants.{Done};
ghost use Rattle.replay_folder.specs.inside.Stretch.{PutsRound};
ghost use Rattle.replay_folder.specs.inside.{AreReady, AreHeld, Closes, held_end, told_by_lane};

use crate::ends::UploadEnd;
use crate::open_round::{OpenRound, RoundName, TakenFiles};
use crate::own_lanes::{put_back, take_own};
use byte_streams::Source;
use client_log::Quota;
use indexmap::IndexMap;
use page_tree::NoMemory;
use std::sync::Wait;
use std::thread::Threads;
use upload_lanes::{Gathered, LaneResult};
use upload_reader::Client;
use warp_run::status_of;

/// Takes the round, and tells what became of its names.
pub(crate) fn close_round<F: Source + Drop + Send, T: AllocGlobal + Threads + Wait + Sync>(
    rt: &T,
    at_once: bool,
    quota: Quota,
    round: OpenRound<F>,
) -> Result<TakenFiles<F>, NoMemory>
    requires ready { AreReady round.uploads.items }
    requires held { AreHeld round }
    requires whole { (round.taken.status ≡ Done) ⊎ (round.uploads.items ≡ []) }
    ensures { IfOk result (Closes (WasRead F.answers F.remaining) quota round) }
{
    let OpenRound {
        taken,
        held,
        uploads,
    } = round;
    let TakenFiles {
        gathered,
        ends,
        status,
    } = taken;
    if uploads.is_empty() {
        let ends = tell_all(&gathered, ends, held)?;
        return Ok(TakenFiles {
            gathered,
            ends,
            status,
        });
    }
    let mut clients = gathered.clients;
    let own = take_own(rt, at_once, &mut clients, uploads, quota)?;
    put_round(clients, ends, held, own)
}

/// The lanes of a round tell what became of its names, and their logs are put among those of all clients.
pub(crate) fn put_round<F: Source + Drop>(
    clients: IndexMap<Client, LaneResult<F>>,
    ends: Vec<UploadEnd>,
    held: Vec<RoundName>,
    own: Gathered<F>,
) -> Result<TakenFiles<F>, NoMemory>
    ensures { IfOk result (PutsRound clients.entries ends.items held.items own) }
{
    let (stop, status) = (own.stop, status_of(&own));
    let ends = tell_all(&own, ends, held)?;
    let mut clients = clients;
    put_back(&mut clients, own.clients)?;
    Ok(TakenFiles {
        gathered: Gathered { clients, stop },
        ends,
        status,
    })
}

/// What became of these, behind those.
pub(crate) fn tell_all<F: Source + Drop>(
    gathered: &Gathered<F>,
    ends: Vec<UploadEnd>,
    held: Vec<RoundName>,
) -> Result<Vec<UploadEnd>, NoMemory>
    ensures { IfOk result (λ all. all.items ≡ ends.items ++ map (held_end gathered.now) held.items) }
{
    let mut ends = ends;
    for one in held {
        ends.push(held_end(gathered, one))?;
    }
    Ok(ends)
}

fn held_end<F: Source + Drop>(gathered: &Gathered<F>, one: RoundName) -> UploadEnd
    ensures { result ≡ held_end gathered.now one }
{
    match one {
        RoundName::Told(end) => end,
        RoundName::Waits(client) => told_by_lane(gathered, client),
    }
}

// What the lane of the client tells of its upload.
fn told_by_lane<F: Source + Drop>(gathered: &Gathered<F>, client: Client) -> UploadEnd
    ensures { result ≡ told_by_lane gathered.now client }
{
    match gathered.clients.get(&client) {
        Some(lane) => UploadEnd::Taken {
            client,
            taken: lane.taken,
            end: lane.end,
        },
        None => UploadEnd::Unread,
    }
}
