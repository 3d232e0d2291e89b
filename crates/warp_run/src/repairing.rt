//! Replays what was gathered.
ghost use Rattle.std.specs.Prelude.{◌≡◌, ◌≢◌, map, bytes_eq, IfOk, IfErr};
ghost use Rattle.std.specs.List.{zip, AllByRecursion, IsDistinct};
ghost use Rattle.std.specs.List.Sorted.{IsStrictlyIncreasing};
ghost use Rattle.std.specs.Map.{keys_of};
ghost use Rattle.conflict_desk.specs.Desk.{AreDockets, new_books};
ghost use Rattle.conflict_desk.specs.Laws.{IsInOrder};
ghost use Rattle.conflict_desk.specs.Docket.{AreAscending};
ghost use Rattle.visit_replay.specs.RepairedSite.{site_by};
ghost use Rattle.visit_replay.specs.Limits.{AreWorkers};
ghost use Rattle.replay_workers.specs.declared.fault.PoolFault.TheVariants.{BadWorkers, NoMemory};
ghost use Rattle.own_pages.specs.OwnPages.{own_page_at};
ghost use Rattle.warp_run.specs.Repair.{visit_page, summary_of, docket_with, docket_for, docket_with_own, repaired_of};
ghost use Rattle.warp_run.specs.inside.{client_visits, lane_visits};
ghost use Rattle.warp_run.specs.inside.Telling.{AreAllTold, AreTold, IsTold, as_pair, case_made, docket_told};

use crate::listed::Listed;
use crate::repaired::{ClientSummary, Repaired};
use crate::telling::{ToldVisit, tell_changed, with_visits};
use byte_streams::Source;
use client_log::Visit;
use conflict_desk::{Case, Cases, Desk, Docket};
use indexmap::IndexMap;
use lanes_in_turn::{Gathered, LaneResult};
use own_pages::{OwnPages, WithOwnPage};
use page_tree::NoMemory;
use replay_workers::{KeptVisits, MAX_WORKERS, PoolFault, replay_all, replay_owned};
use site_hooks::SiteHooks;
use std::alloc::{AllocError, Global};
use std::thread::Threads;
use upload_reader::Client;
use visit_replay::{Finding, Outcome, Patch, told_difference};

/// Replays the visits that all clients' logs keep, each behind its client's parent of it, by one pool of so many workers, 1 to `replay_workers::MAX_WORKERS`;
/// and opens a desk with their outcomes, on which nothing is decided. F1 for another number of workers.
pub fn repair<H: SiteHooks, R: Source, T: AllocGlobal + Threads + Sync>(
    rt: &T,
    workers: u32,
    hooks: &H,
    patch: &Patch,
    finding: &Finding,
    gathered: &Gathered<R>,
) -> Result<Repaired, PoolFault>
    ensures workers { IfOk result (λ _. AreWorkers workers) }
    ensures ok { IfOk result (λ made. made
        ≡ repaired_of (site_by H.page_of H.signals hooks.now patch.now finding.now) gathered.now) }
    ensures refused { IfErr result (λ fault. fault ≢ NoMemory → (fault ≡ BadWorkers) × ¬ AreWorkers workers) }
    ensures memory { IfErr result (λ fault. fault ≡ NoMemory → AreWorkers workers) }

    // Whatever is decided then, each client's conflicts leave in order, none twice, and none below a cancelled visit.
    ensures leave { IfOk result (λ repaired. IsInOrder repaired.desk) }
{
    if workers == 0 || workers > MAX_WORKERS {
        return Err(PoolFault::BadWorkers);
    }
    let clients = summaries(rt.alloc(), &gathered.clients)?;
    let dockets = replay_lanes(
        rt,
        rt.alloc(),
        workers,
        hooks,
        patch,
        finding,
        &gathered.clients,
    )?;
    let desk = open_desk(rt.alloc(), dockets)?;
    Ok(Repaired {
        stop: gathered.stop,
        clients: Listed::from(clients),
        desk,
        decided: Listed::new(rt.alloc()),
    })
}

/// The desk that `repair` opens, on a site where visits may have such pages of their own.
pub fn repair_with_own<H: SiteHooks, R: Source, T: AllocGlobal + Threads + Sync>(
    rt: &T,
    workers: u32,
    hooks: &H,
    own: &OwnPages,
    patch: &Patch,
    finding: &Finding,
    clients: &IndexMap<Client, LaneResult<R>>,
) -> Result<Desk, PoolFault>
    ensures workers { IfOk result (λ _. AreWorkers workers) }
    ensures ok { IfOk result (λ desk. desk ≡ new_books (map
        (docket_with_own (site_by H.page_of H.signals hooks.now patch.now finding.now) (own_page_at own.now)) clients.now.entries)) }
    ensures refused { IfErr result (λ fault. fault ≢ NoMemory → (fault ≡ BadWorkers) × ¬ AreWorkers workers) }
    ensures memory { IfErr result (λ fault. fault ≡ NoMemory → AreWorkers workers) }
    ensures leave { IfOk result IsInOrder }
{
    if workers < 1 || workers > MAX_WORKERS {
        return Err(PoolFault::BadWorkers);
    }
    let dockets = replay_with_own(rt, rt.alloc(), workers, hooks, own, patch, finding, clients)?;
    Ok(open_desk(rt.alloc(), dockets)?)
}

// What is said of each client.
fn summaries<R: Source>(
    alloc: Global,
    clients: &IndexMap<Client, LaneResult<R>>,
) -> Result<Vec<ClientSummary>, NoMemory>
    ensures { IfOk result (λ all. all.items ≡ map summary_of clients.now.entries) }
{
    let mut all = Vec::new(alloc);
    for (client, lane) in clients.iter() {
        all.push(summary(client, lane)?)?;
    }
    Ok(all)
}

fn summary<R: Source>(client: &Client, lane: &LaneResult<R>) -> Result<ClientSummary, NoMemory>
    ensures { IfOk result (λ summary. summary ≡ summary_of (client.now, lane.now)) }
{
    Ok(ClientSummary {
        client: client.copy()?,
        taken: lane.taken,
        end: lane.end,
        cost: lane.log.cost(),
        lost: lane.log.lost(),
    })
}

// A docket of each client, for a desk.
fn replay_lanes<H: SiteHooks, R: Source, T: AllocGlobal + Threads + Sync>(
    rt: &T,
    alloc: Global,
    workers: u32,
    hooks: &H,
    patch: &Patch,
    finding: &Finding,
    clients: &IndexMap<Client, LaneResult<R>>,
) -> Result<Vec<Docket>, NoMemory>
    requires workers { AreWorkers workers }
    ensures dockets { IfOk result (λ all. all.items ≡
        map (docket_for (site_by H.page_of H.signals hooks.now patch.now finding.now)) clients.now.entries) }
    ensures for_desk { IfOk result (λ dockets. AreDockets dockets.items) }
{
    let visits = kept_visits(alloc, clients)?;
    let Ok(outcomes) = replay_all(rt, workers, hooks, patch, finding, visits.as_slice()) else {
        return Err(AllocError);
    };
    let none = OwnPages::new(alloc);
    told_dockets(alloc, hooks, &none, patch, finding, clients, outcomes)
}

// The same where visits may have pages of their own.
fn replay_with_own<H: SiteHooks, R: Source, T: AllocGlobal + Threads + Sync>(
    rt: &T,
    alloc: Global,
    workers: u32,
    hooks: &H,
    own: &OwnPages,
    patch: &Patch,
    finding: &Finding,
    clients: &IndexMap<Client, LaneResult<R>>,
) -> Result<Vec<Docket>, NoMemory>
    requires workers { AreWorkers workers }
    ensures dockets { IfOk result (λ all. all.items ≡ map
        (docket_with_own (site_by H.page_of H.signals hooks.now patch.now finding.now) (own_page_at own.now)) clients.now.entries) }
    ensures for_desk { IfOk result (λ dockets. AreDockets dockets.items) }
{
    let kept = visits_by_client(alloc, clients)?;
    let Ok(outcomes) = replay_owned(rt, workers, hooks, own, patch, finding, kept.as_slice()) else {
        return Err(AllocError);
    };
    told_dockets(alloc, hooks, own, patch, finding, clients, outcomes)
}

// A docket of each client with the outcomes of its visits, and what their requests were.
fn told_dockets<H: SiteHooks, R: Source>(
    alloc: Global,
    hooks: &H,
    own: &OwnPages,
    patch: &Patch,
    finding: &Finding,
    clients: &IndexMap<Client, LaneResult<R>>,
    outcomes: Vec<Vec<Outcome>>,
) -> Result<Vec<Docket>, NoMemory>
    ensures dockets { IfOk result (λ all. all.items
        ≡ map (λ one. docket_with (visit_page (H.page_of hooks.now) (own_page_at own.now) one.0.0) finding.now
        one.0.0 one.0.1.log.log one.1.items) (zip clients.now.entries outcomes.items)) }
    ensures distinct { IfOk result (λ _. IsDistinct bytes_eq (keys_of clients.now.entries)) }
    ensures ascend { IfOk result (λ all. AllByRecursion (λ docket. AreAscending docket.cases) all.items) }
{
    let kept = visits_by_client(alloc, clients)?;
    let mut told = with_visits(alloc, own, kept.as_slice(), outcomes)?;
    tell_changed(alloc, hooks, patch, finding, &mut told)?;
    dockets_of(alloc, hooks, finding, clients, told)
}

// The visits that each client's log keeps.
fn kept_visits<R: Source>(
    alloc: Global,
    clients: &IndexMap<Client, LaneResult<R>>,
) -> Result<Vec<&[Visit]>, NoMemory>
    ensures { IfOk result (λ all. map (λ visits. visits.now) all.items
        ≡ map (λ entry. entry.1.log.log.visits) clients.now.entries) }
{
    let mut all = Vec::new(alloc);
    for lane in clients.values() {
        all.push(lane.log.visits())?;
    }
    Ok(all)
}

// Each client with them.
fn visits_by_client<R: Source>(
    alloc: Global,
    clients: &IndexMap<Client, LaneResult<R>>,
) -> Result<Vec<KeptVisits<'_>>, NoMemory>
    ensures visits { IfOk result (λ all. map client_visits all.items ≡ map lane_visits clients.now.entries) }
    ensures ascend { IfOk result (λ all. AllByRecursion
        (λ one. IsStrictlyIncreasing (map (λ visit. visit.number) one.visits.now)) all.items) }
{
    let mut all = Vec::new(alloc);
    for (client, lane) in clients.iter() {
        all.push(KeptVisits {
            client: client.text(),
            visits: lane.log.visits(),
        })?;
    }
    Ok(all)
}

// A docket of each client with what became of its visits.
fn dockets_of<H: SiteHooks, R: Source>(
    alloc: Global,
    hooks: &H,
    finding: &Finding,
    clients: &IndexMap<Client, LaneResult<R>>,
    told: Vec<Vec<ToldVisit<'_>>>,
) -> Result<Vec<Docket>, NoMemory>
    requires { AreAllTold (H.page_of hooks.now) finding.now told.items }
    ensures dockets { IfOk result (λ all. all.items
        ≡ map (docket_told (H.page_of hooks.now) finding.now) (zip clients.now.entries told.entry.items)) }
    ensures distinct { IsDistinct bytes_eq (keys_of clients.now.entries) }
{
    let mut dockets = Vec::new(alloc);
    let mut rest = told.into_iter();
    for (client, _lane) in clients.iter() {
        let Some(own) = rest.next() else {
            break;
        };
        dockets.push(Docket {
            client: client.copy()?,
            cases: cases_of(alloc, hooks, finding, own)?,
        })?;
    }
    Ok(dockets)
}

// A case of each visit.
fn cases_of<H: SiteHooks>(
    alloc: Global,
    hooks: &H,
    finding: &Finding,
    told: Vec<ToldVisit<'_>>,
) -> Result<Cases, NoMemory>
    requires { AreTold (H.page_of hooks.now) finding.now told.items }
    ensures { IfOk result (λ cases. cases
        ≡ map (case_made (H.page_of hooks.now) finding.now) (map as_pair told.entry.items)) }
{
    let mut cases = Vec::new(alloc);
    let mut rest = told.into_iter();
    while let Some(one) = rest.next() {
        cases.push(case_of(alloc, hooks, finding, one)?)?;
    }
    Ok(Cases::from(cases))
}

// Where it isn't told yet what the visit's requests were, that is done now.
fn case_of<H: SiteHooks>(
    alloc: Global,
    hooks: &H,
    finding: &Finding,
    one: ToldVisit<'_>,
) -> Result<Case, NoMemory>
    requires { IsTold (H.page_of hooks.now) finding.now one }
    ensures { IfOk result (λ case. case ≡ case_made (H.page_of hooks.now) finding.now (as_pair one.entry)) }
{
    let ToldVisit {
        visit,
        own,
        outcome,
        difference,
    } = one;
    let site = WithOwnPage { own, others: hooks };
    let difference = match difference {
        Some(difference) => difference,
        None => told_difference(alloc, &site, finding, visit, &outcome)?,
    };
    Ok(Case {
        visit: visit.number,
        parent: visit.parent,
        outcome,
        difference,
    })
}

fn open_desk(alloc: Global, dockets: Vec<Docket>) -> Result<Desk, NoMemory>
    requires { AreDockets dockets.items }
    ensures opened { IfOk result (λ desk. desk ≡ new_books dockets.items) }
    ensures leave { IfOk result IsInOrder }
{
    match Desk::open(alloc, dockets) {
        Ok(desk) => Ok(desk),
        Err(_) => Err(AllocError),
    }
}
