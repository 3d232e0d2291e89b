//! What is said of each client: of its last upload how many messages were taken, and how it ended.
ghost use Rattle.std.specs.Prelude.{◌≡◌, ℕ, List, map, IfOk, OnOk};
ghost use Rattle.warp_run.specs.Repair.{summary_by};
ghost use Rattle.replay_folder.specs.FolderReport.{told_of, last_told, last_summary};
ghost use Rattle.replay_folder.specs.inside.{told_in};

use crate::ends::UploadEnd;
use byte_streams::Source;
use indexmap::IndexMap;
use page_tree::NoMemory;
use std::alloc::Global;
use upload_lanes::LaneResult;
use upload_reader::{Client, Ending};
use warp_run::ClientSummary;

/// Of each client, in their order.
pub(crate) fn summaries<F: Source>(
    alloc: Global,
    ends: &[UploadEnd],
    clients: &IndexMap<Client, LaneResult<F>>,
) -> Result<Vec<ClientSummary>, NoMemory>
    ensures { IfOk result (λ all. all.items ≡ map (last_summary ends.now) clients.now.entries) }
{
    let last = last_of_all(alloc, ends)?;
    let mut all = Vec::new(alloc);
    for (client, lane) in clients.iter() {
        all.push(summary_of_last(client, lane, told_in(&last, client))?)?;
    }
    Ok(all)
}

fn summary_of_last<F: Source>(
    client: &Client,
    lane: &LaneResult<F>,
    last: (u64, Option<Ending>),
) -> Result<ClientSummary, NoMemory>
    ensures { IfOk result (λ said. said ≡ summary_by client.now last.0 last.1 lane.now.log.log) }
{
    let (taken, end) = last;
    Ok(ClientSummary {
        client: client.copy()?,
        taken,
        end,
        cost: lane.log.cost(),
        lost: lane.log.lost(),
    })
}

// The last of each client.
fn last_of_all(
    alloc: Global,
    ends: &[UploadEnd],
) -> Result<IndexMap<Client, (u64, Option<Ending>)>, NoMemory>
    ensures { IfOk result (λ last. (client : List ℕ) → told_in last client ≡ last_told ends.now client) }
{
    let mut last = IndexMap::new(alloc);
    for end in ends {
        put_end(&mut last, end)?;
    }
    Ok(last)
}

fn put_end(
    last: &mut IndexMap<Client, (u64, Option<Ending>)>,
    end: &UploadEnd,
) -> Result<(), NoMemory>
    ensures { OnOk result ((client : List ℕ)
        → told_in last.new client ≡ told_of client (told_in last.old client) end.now) }
{
    match end {
        UploadEnd::Taken { client, taken, end } => {
            last.insert(client.copy()?, (*taken, *end))?;
            Ok(())
        }
        UploadEnd::Unopened => Ok(()),
        UploadEnd::NoHello(_) => Ok(()),
        UploadEnd::Unread => Ok(()),
    }
}

fn told_in(last: &IndexMap<Client, (u64, Option<Ending>)>, client: &Client) -> (u64, Option<Ending>)
    ensures { result ≡ told_in last.now client.now }
{
    match last.get(client) {
        Some(told) => *told,
        None => (0, None),
    }
}
