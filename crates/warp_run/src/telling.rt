//! What the requests of visits were, where they differ: of those that stop since an element has changed (K11) page by page, so that the looks of each page are made
//! once, and those of one page kept at a time.
ghost use Rattle.std.specs.Prelude.{ℕ, List, Option, ◌≡◌, map, All, IfOk, OnOk};
ghost use Rattle.page_tree.specs.Tree.{Tree};
ghost use Rattle.std.specs.List.{zip};
ghost use Rattle.replay_workers.specs.SitePages.{ArePagesOf, IsLastOf};
ghost use Rattle.own_pages.specs.OwnPages.{own_page_at};
ghost use Rattle.warp_run.specs.inside.Telling.{AreAllTold, AreTold, IsTold, as_pair, as_pairs, pairs_made};

use client_log::Visit;
use own_pages::OwnPages;
use page_tree::{NoMemory, Page};
use replay_workers::{KeptVisits, LastPage, SitePages, pages_of};
use site_hooks::SiteHooks;
use std::alloc::Global;
use visit_replay::{ConflictKind, Difference, Finding, Outcome, Patch};

/// A visit, the page of its own that it has, if any, and its outcome; and what its requests were, where that is known already.
#[derive(Drop)]
pub(crate) struct ToldVisit<'a> {
    pub(crate) visit: &'a Visit,
    pub(crate) own: Option<&'a Page>,
    pub(crate) outcome: Outcome,
    pub(crate) difference: Option<Difference>,
}

/// Each client's visits with their outcomes.
pub(crate) fn with_visits<'a>(
    alloc: Global,
    own: &'a OwnPages,
    clients: &[KeptVisits<'a>],
    outcomes: Vec<Vec<Outcome>>,
) -> Result<Vec<Vec<ToldVisit<'a>>>, NoMemory>
    ensures pairs { IfOk result (λ all. map as_pairs all.items
        ≡ map (pairs_made (own_page_at own.now)) (zip clients.now outcomes.items)) }
    ensures told { IfOk result (λ all. (page_of : List ℕ → Option Tree) (same : Option (List (List ℕ)))
        → AreAllTold page_of same all.items) }
{
    let mut all = Vec::new(alloc);
    let mut rest = outcomes.into_iter();
    for one in clients {
        let Some(these) = rest.next() else {
            break;
        };
        all.push(pair_up(alloc, own, one, these)?)?;
    }
    Ok(all)
}

fn pair_up<'a>(
    alloc: Global,
    own: &'a OwnPages,
    kept: &KeptVisits<'a>,
    outcomes: Vec<Outcome>,
) -> Result<Vec<ToldVisit<'a>>, NoMemory>
    ensures pairs { IfOk result (λ all. as_pairs all ≡ pairs_made (own_page_at own.now) (kept.now, outcomes)) }
    ensures told { IfOk result (λ all. (page_of : List ℕ → Option Tree) (same : Option (List (List ℕ)))
        → AreTold page_of same all.items) }
{
    let mut all = Vec::new(alloc);
    let mut rest = outcomes.into_iter();
    for visit in kept.visits {
        let Some(outcome) = rest.next() else {
            break;
        };
        all.push(ToldVisit {
            visit,
            own: own.get(kept.client, visit.number),
            outcome,
            difference: None,
        })?;
    }
    Ok(all)
}

// ---- of those that stop

// Where a visit stands that does, and which it is.
#[derive(Drop)]
struct Stopped<'a> {
    client: usize,
    index: usize,
    visit: &'a Visit,
}

/// Tells what was asked by the visits that stop since an element has changed, in the order of their addresses.
pub(crate) fn tell_changed<H: SiteHooks>(
    alloc: Global,
    hooks: &H,
    patch: &Patch,
    finding: &Finding,
    all: &mut Vec<Vec<ToldVisit<'_>>>,
) -> Result<(), NoMemory>
    requires { AreAllTold (H.page_of hooks.now) finding.now all.old.items }
    ensures pairs { OnOk result (map as_pairs all.new.items ≡ map as_pairs all.old.items) }
    ensures told { OnOk result (AreAllTold (H.page_of hooks.now) finding.now all.new.items) }
{
    let mut stopped = stopped_visits(alloc, all.as_slice())?;
    stopped.sort_unstable_by(|a, b| a.visit.address.as_str().cmp(b.visit.address.as_str()));
    let visits = visits_of(alloc, stopped.as_slice())?;
    let pages = pages_of(alloc, hooks, patch, finding, visits.as_slice())?;
    let mut last = LastPage::none();
    for one in stopped.iter() {
        tell_at(
            alloc, hooks, finding, &pages, &mut last, all, one.client, one.index,
        )?;
    }
    Ok(())
}

fn stopped_visits<'a>(
    alloc: Global,
    all: &[Vec<ToldVisit<'a>>],
) -> Result<Vec<Stopped<'a>>, NoMemory> {
    let mut stopped = Vec::new(alloc);
    for client in 0..all.len() {
        add_stopped(&mut stopped, client, all[client].as_slice())?;
    }
    Ok(stopped)
}

fn add_stopped<'a>(
    stopped: &mut Vec<Stopped<'a>>,
    client: usize,
    told: &[ToldVisit<'a>],
) -> Result<(), NoMemory> {
    for index in 0..told.len() {
        let one = &told[index];
        if is_stopped(one) {
            stopped.push(Stopped {
                client,
                index,
                visit: one.visit,
            })?;
        }
    }
    Ok(())
}

fn visits_of<'a>(alloc: Global, stopped: &[Stopped<'a>]) -> Result<Vec<&'a Visit>, NoMemory> {
    let mut visits = Vec::new(alloc);
    for one in stopped {
        visits.push(one.visit)?;
    }
    Ok(visits)
}

// One with a page of its own is told by itself.
fn is_stopped(one: &ToldVisit<'_>) -> bool {
    one.own.is_none()
        && matches!(
            one.outcome,
            Outcome::Conflict {
                kind: ConflictKind::Changed,
                ..
            }
        )
}

// Tells it of the visit at that place among those of the client at that place.
fn tell_at<'p, H: SiteHooks>(
    alloc: Global,
    hooks: &H,
    finding: &'p Finding,
    pages: &'p SitePages<'_>,
    last: &mut LastPage<'p>,
    all: &mut Vec<Vec<ToldVisit<'_>>>,
    client: usize,
    index: usize,
) -> Result<(), NoMemory>
    requires pages { ArePagesOf (H.page_of hooks.now) pages.now.all.items }
    requires last { IsLastOf (H.page_of hooks.now) finding.now last.old }
    requires told { AreAllTold (H.page_of hooks.now) finding.now all.old.items }
    ensures last { IsLastOf (H.page_of hooks.now) finding.now last.new }
    ensures pairs { map as_pairs all.new.items ≡ map as_pairs all.old.items }
    ensures told { AreAllTold (H.page_of hooks.now) finding.now all.new.items }
{
    if client < all.len() {
        tell_one(alloc, hooks, finding, pages, last, &mut all[client], index)?;
    }
    Ok(())
}

fn tell_one<'p, H: SiteHooks>(
    alloc: Global,
    hooks: &H,
    finding: &'p Finding,
    pages: &'p SitePages<'_>,
    last: &mut LastPage<'p>,
    own: &mut Vec<ToldVisit<'_>>,
    index: usize,
) -> Result<(), NoMemory>
    requires pages { ArePagesOf (H.page_of hooks.now) pages.now.all.items }
    requires last { IsLastOf (H.page_of hooks.now) finding.now last.old }
    requires told { AreTold (H.page_of hooks.now) finding.now own.old.items }
    ensures last { IsLastOf (H.page_of hooks.now) finding.now last.new }
    ensures pairs { as_pairs own.new ≡ as_pairs own.old }
    ensures told { AreTold (H.page_of hooks.now) finding.now own.new.items }
{
    if index < own.len() {
        tell(alloc, hooks, finding, pages, last, &mut own[index])?;
    }
    Ok(())
}

fn tell<'p, H: SiteHooks>(
    alloc: Global,
    hooks: &H,
    finding: &'p Finding,
    pages: &'p SitePages<'_>,
    last: &mut LastPage<'p>,
    one: &mut ToldVisit<'_>,
) -> Result<(), NoMemory>
    requires pages { ArePagesOf (H.page_of hooks.now) pages.now.all.items }
    requires last { IsLastOf (H.page_of hooks.now) finding.now last.old }
    requires told { IsTold (H.page_of hooks.now) finding.now one.old }
    ensures last { IsLastOf (H.page_of hooks.now) finding.now last.new }
    ensures pair { as_pair one.new ≡ as_pair one.old }
    ensures told { IsTold (H.page_of hooks.now) finding.now one.new }
{
    match one.own {
        Some(_) => Ok(()),
        None => {
            let difference = last.told(alloc, hooks, finding, pages, one.visit, &one.outcome)?;
            one.difference = Some(difference);
            Ok(())
        }
    }
}
