//! All workers together.
ghost use Rattle.std.specs.Prelude.{◌≡◌, ◌≢◌, ◌<◌, ◌≤◌, ◌^◌, [], length, map, replicate, slice_get, All, IfOk, IfErr, vec_len, Some};
ghost use Rattle.std.specs.List.{sum_by};
ghost use Rattle.std.specs.Vec.{vec_capacity};
ghost use Rattle.visit_replay.specs.Following.{outcomes};
ghost use Rattle.visit_replay.specs.RepairedSite.{site_by};
ghost use Rattle.visit_replay.specs.declared.outcome.Outcome.TheVariants.{Untouched};
ghost use Rattle.replay_workers.specs.Draws.{fresh_seat};
ghost use Rattle.visit_replay.specs.Limits.{AreWorkers};
ghost use Rattle.own_pages.specs.OwnPages.{own_page_at};
ghost use Rattle.replay_workers.specs.Work.{own_outcomes, own_page_outcomes, outcomes_with_own, IsShare};
ghost use Rattle.replay_workers.specs.inside.Clients.{plain_page};
ghost use Rattle.replay_workers.specs.inside.Shares.{PlacesAll, PlacesThese};
ghost use Rattle.replay_workers.specs.SitePages.{ArePagesOf};
ghost use Rattle.replay_workers.specs.declared.fault.PoolFault.TheVariants.{BadWorkers, NoMemory};

use crate::by_client::{in_one_list, lists_of, pages_by_visit};
use crate::claims::Claims;
use crate::fault::PoolFault;
use crate::hands::follow_each;
use crate::in_order::{by_address, by_number, pages_in_order, visits_of};
use crate::seat::Seat;
use crate::share::{Done, Share, work_with};
use crate::site_pages::{SitePages, pages_of};
use crate::view::Terms;
use client_log::Visit;
use own_pages::OwnPages;
use page_tree::Page;
use site_hooks::SiteHooks;
use std::alloc::{AllocError, Global};
use std::thread;
use std::thread::Threads;
use visit_replay::{Finding, MAX_WORKERS, Outcome, Patch};

/// The outcomes of each client's visits in their order, each behind its parent's among these, by one pool of so many workers for
/// all clients, 1 to `MAX_WORKERS`: the thread that calls is one, and the others have threads of their own, unless there are no
/// visits. F1 for another number of workers, F2 where memory is refused. Where one of these can't be started, the thread that calls does its part too.
pub fn replay_all<H: SiteHooks, R: AllocGlobal + Threads + Sync>(
    rt: &R,
    workers: u32,
    hooks: &H,
    patch: &Patch,
    finding: &Finding,
    clients: &[&[Visit]],
) -> Result<Vec<Vec<Outcome>>, PoolFault>
    ensures workers { IfOk result (λ _. AreWorkers workers) }
    ensures ok { IfOk result (λ all. map (λ own. own.items) all.items ≡
        map (λ visits. outcomes (site_by H.page_of H.signals hooks.now patch.now finding.now) visits.now) clients.now) }
    ensures refused { IfErr result (λ fault. fault ≢ NoMemory → (fault ≡ BadWorkers) × ¬ AreWorkers workers) }
    ensures memory { IfErr result (λ fault. fault ≡ NoMemory → AreWorkers workers) }
{
    if workers == 0 || workers > MAX_WORKERS {
        return Err(PoolFault::BadWorkers);
    }
    let visits = in_one_list(rt.alloc(), clients)?;
    let own = replay_listed(
        rt,
        rt.alloc(),
        workers,
        hooks,
        patch,
        finding,
        visits.as_slice(),
    )?;
    Ok(follow_each(rt, rt.alloc(), workers, finding, clients, own)?)
}

/// A client, and the visits that are kept of it.
#[derive(Clone, Copy)]
pub struct KeptVisits<'v> {
    pub client: &'v str,
    pub visits: &'v [Visit],
}

/// The same on a site that has pages of single visits too: such a page stands, for its visit, at whatever address.
pub fn replay_owned<H: SiteHooks, R: AllocGlobal + Threads + Sync>(
    rt: &R,
    workers: u32,
    hooks: &H,
    own: &OwnPages,
    patch: &Patch,
    finding: &Finding,
    clients: &[KeptVisits<'_>],
) -> Result<Vec<Vec<Outcome>>, PoolFault>
    ensures workers { IfOk result (λ _. AreWorkers workers) }
    ensures ok { IfOk result (λ all. map (λ own. own.items) all.items ≡
        map (λ one. outcomes_with_own (site_by H.page_of H.signals hooks.now patch.now finding.now) (own_page_at own.now)
        one.client.now one.visits.now) clients.now) }
    ensures refused { IfErr result (λ fault. fault ≢ NoMemory → (fault ≡ BadWorkers) × ¬ AreWorkers workers) }
    ensures memory { IfErr result (λ fault. fault ≡ NoMemory → AreWorkers workers) }
{
    if workers < 1 || workers > MAX_WORKERS {
        return Err(PoolFault::BadWorkers);
    }
    let alloc = rt.alloc();
    let kept = lists_of(alloc, clients)?;
    let lists = kept.as_slice();
    let visits = in_one_list(alloc, lists)?;
    let all = visits.as_slice();
    let pages = pages_by_visit(alloc, own, clients)?;
    let own_pages = pages.as_slice();
    let outcomes = replay_with_pages(rt, alloc, workers, hooks, patch, finding, all, own_pages)?;
    Ok(follow_each(rt, alloc, workers, finding, lists, outcomes)?)
}

// What each visit gives by itself.
fn replay_listed<H: SiteHooks, R: Threads + Sync>(
    rt: &R,
    alloc: Global,
    workers: u32,
    hooks: &H,
    patch: &Patch,
    finding: &Finding,
    visits: &[&Visit],
) -> Result<Vec<Outcome>, AllocError>
    requires { AreWorkers workers }
    ensures { IfOk result (λ own. own.items ≡
        own_outcomes (site_by H.page_of H.signals hooks.now patch.now finding.now) (map (λ visit. visit.now) visits.now)) }
{
    replay_with_pages(rt, alloc, workers, hooks, patch, finding, visits, &[])
}

// The same where visits have such pages of their own. Where events go by their elements, those to one page of the site are replayed one after another.
fn replay_with_pages<H: SiteHooks, R: Threads + Sync>(
    rt: &R,
    alloc: Global,
    workers: u32,
    hooks: &H,
    patch: &Patch,
    finding: &Finding,
    visits: &[&Visit],
    own_pages: &[Option<&Page>],
) -> Result<Vec<Outcome>, AllocError>
    requires { AreWorkers workers }
    ensures { IfOk result (λ outcomes. outcomes.items ≡
        own_page_outcomes (site_by H.page_of H.signals hooks.now patch.now finding.now)
        (map plain_page own_pages.now) (map (λ visit. visit.now) visits.now)) }
{
    if finding.names().is_none() {
        return replay_in_turn(rt, alloc, workers, hooks, patch, finding, visits, own_pages);
    }
    let all = by_address(alloc, visits)?;
    let these = all.as_slice();
    let sorted = visits_of(alloc, these)?;
    let listed = sorted.as_slice();
    let moved = pages_in_order(alloc, own_pages, these)?;
    let pages = moved.as_slice();
    let outcomes = replay_in_turn(rt, alloc, workers, hooks, patch, finding, listed, pages)?;
    by_number(alloc, visits, these, outcomes)
}

// The same in the order of the list. No thread is started where there are none.
fn replay_in_turn<H: SiteHooks, R: Threads + Sync>(
    rt: &R,
    alloc: Global,
    workers: u32,
    hooks: &H,
    patch: &Patch,
    finding: &Finding,
    visits: &[&Visit],
    own_pages: &[Option<&Page>],
) -> Result<Vec<Outcome>, AllocError>
    requires { AreWorkers workers }
    ensures { IfOk result (λ outcomes. outcomes.items ≡
        own_page_outcomes (site_by H.page_of H.signals hooks.now patch.now finding.now)
        (map plain_page own_pages.now) (map (λ visit. visit.now) visits.now)) }
{
    if visits.is_empty() {
        return Ok(Vec::new(alloc));
    }
    let pages = pages_of(alloc, hooks, patch, finding, visits)?;
    let count = visits.len() as u64;
    let (claims, seats) = Claims::under(alloc, Terms { count, workers })?;
    replay_each(
        rt, alloc, hooks, patch, finding, &pages, visits, own_pages, claims, seats,
    )
}

// The same by the workers with these seats.
fn replay_each<H: SiteHooks, R: Threads + Sync>(
    rt: &R,
    alloc: Global,
    hooks: &H,
    patch: &Patch,
    finding: &Finding,
    pages: &SitePages<'_>,
    visits: &[&Visit],
    own_pages: &[Option<&Page>],
    claims: Claims,
    seats: Vec<Seat>,
) -> Result<Vec<Outcome>, AllocError>
    requires pages { ArePagesOf (H.page_of hooks.now) pages.now.all.items }
    requires fresh { seats.items ≡ replicate claims.workers (fresh_seat claims) }
    requires some { 1 ≤ claims.workers }
    requires count { claims.count ≡ length visits.now }
    ensures { IfOk result (λ own. own.items ≡
        own_page_outcomes (site_by H.page_of H.signals hooks.now patch.now finding.now)
        (map plain_page own_pages.now) (map (λ visit. visit.now) visits.now)) }
{
    let mut own = untouched(alloc, visits.len())?;
    let room = Vec::with_capacity(alloc, seats.len())?;
    let lent = &claims;
    let shares = thread::map_vec(
        rt,
        seats,
        &|seat| -> Share
            requires { (seat ≡ fresh_seat lent.now) × (lent.now.count ≡ length visits.now)
                × ArePagesOf (H.page_of hooks.now) pages.now.all.items }
            ensures { IsShare
                (own_page_outcomes (site_by H.page_of H.signals hooks.entry.now patch.entry.now finding.entry.now)
                (map plain_page own_pages.entry.now) (map (λ visit. visit.now) visits.entry.now))
                lent.entry.now (fresh_seat lent.entry.now) result }
        {
            work_with(
                alloc, hooks, patch, finding, pages, visits, own_pages, lent, seat,
            )
        },
    )?;
    let seats = place_all(shares, own.as_mut_slice(), room)?;
    let _drawn = claims.close(seats);
    Ok(own)
}

/// As many outcomes, which say nothing yet.
pub(crate) fn untouched(alloc: Global, count: usize) -> Result<Vec<Outcome>, AllocError>
    ensures { IfOk result (λ all. length all.items ≡ count) }
{
    let mut all = Vec::with_capacity(alloc, count)?;
    for k in 0..count {
        all.push_reserved(Outcome::Untouched);
    }
    Ok(all)
}

// Puts all outcomes at their places, and gives the seats back.
fn place_all(
    shares: Vec<Share>,
    all: &mut [Outcome],
    room: Vec<Seat>,
) -> Result<Vec<Seat>, AllocError>
    requires room { (room.items ≡ []) × (length shares.items ≤ vec_capacity room) }
    requires within { All (λ share. IfOk share.done (λ done. All (λ one. one.number < length all.old) done.items))
        shares.items }
    ensures { IfOk result (λ seats. PlacesAll shares.items all.old all.new seats.items) }
{
    let mut shares = shares;
    let mut seats = room;
    while let Some(share) = shares.pop() {
        let Share { seat, done } = share;
        place(all, done?);
        seats.push_reserved(seat);
    }
    Ok(seats)
}

/// Puts these outcomes at their places.
pub(crate) fn place(all: &mut [Outcome], done: Vec<Done>)
    requires { All (λ one. one.number < length all.old) done.items }
    ensures { PlacesThese done.items all.old all.new }
{
    let mut done = done;
    while let Some(one) = done.pop() {
        put(&mut all[one.number as usize], one.outcome);
    }
}

fn put(place: &mut Outcome, outcome: Outcome)
    ensures { place.new ≡ outcome }
{
    *place = outcome;
}
