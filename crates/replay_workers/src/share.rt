//! What one worker does: it draws numbers, and replays the visits that they are of.
ghost use Rattle.std.specs.Prelude.{◌≡◌, ◌<◌, false, length, map, IfOk, IsOkAnd};
ghost use Rattle.replay_workers.specs.Draws.{IsSeatOf, is_spent};
ghost use Rattle.replay_workers.specs.Work.{with_own_page, own_outcomes, own_page_outcomes, IsShare};
ghost use Rattle.replay_workers.specs.inside.Clients.{plain_page, page_at};
ghost use Rattle.replay_workers.specs.inside.Shares.{HasNext};
ghost use Rattle.replay_workers.specs.SitePages.{ArePagesOf, IsLastOf};
ghost use Rattle.visit_replay.specs.Outcome.{outcome};
ghost use Rattle.visit_replay.specs.RepairedSite.{site_by};

use crate::claims::Claims;
use crate::last_page::LastPage;
use crate::seat::Seat;
use crate::site_pages::SitePages;
use client_log::Visit;
use own_pages::WithOwnPage;
use page_tree::{NoMemory, Page};
use site_hooks::SiteHooks;
use std::alloc::Global;
use thread_heap::make_room;
use visit_replay::{Finding, Outcome, Patch, replay};

/// So often there is room for a block in a worker's heap: what is kept of so many visits mostly fits there.
const HEAP_VISITS: usize = 8;

/// A visit's number in the list with what the visit gives by itself.
#[derive(Debug, Drop)]
pub struct Done {
    pub number: u64,
    pub outcome: Outcome,
}

/// What a worker did.
#[derive(Drop)]
pub struct Share {
    /// Its seat, spent.
    pub seat: Seat,
    /// The visits that it replayed, in the order in which it drew them; or memory was refused at one of them.
    pub done: Result<Vec<Done>, NoMemory>,
}

/// Draws until the seat is spent, and replays each visit whose number it drew, without a wait. The looks of one page are kept at a time. Where memory is refused, the rest is drawn all the same.
pub fn work<'p, H: SiteHooks>(
    alloc: Global,
    hooks: &H,
    patch: &Patch,
    finding: &'p Finding,
    pages: &'p SitePages<'_>,
    visits: &[&Visit],
    claims: &Claims,
    seat: Seat,
) -> Share
    requires pages { ArePagesOf (H.page_of hooks.now) pages.now.all.items }
    requires of { IsSeatOf claims.now seat }
    requires unspent { is_spent seat ≡ false }
    requires count { claims.now.count ≡ length visits.now }
    ensures { IsShare
        (own_outcomes (site_by H.page_of H.signals hooks.now patch.now finding.now) (map (λ visit. visit.now) visits.now))
        claims.now seat result }
{
    work_with(
        alloc,
        hooks,
        patch,
        finding,
        pages,
        visits,
        &[],
        claims,
        seat,
    )
}

/// The same where visits have such pages of their own.
pub(crate) fn work_with<'p, H: SiteHooks>(
    alloc: Global,
    hooks: &H,
    patch: &Patch,
    finding: &'p Finding,
    pages: &'p SitePages<'_>,
    visits: &[&Visit],
    own_pages: &[Option<&Page>],
    claims: &Claims,
    seat: Seat,
) -> Share
    requires pages { ArePagesOf (H.page_of hooks.now) pages.now.all.items }
    requires of { IsSeatOf claims.now seat }
    requires unspent { is_spent seat ≡ false }
    requires count { claims.now.count ≡ length visits.now }
    ensures { IsShare
        (own_page_outcomes (site_by H.page_of H.signals hooks.now patch.now finding.now)
        (map plain_page own_pages.now) (map (λ visit. visit.now) visits.now))
        claims.now seat result }
{
    let mut seat = seat;
    let mut last = LastPage::none();
    let mut done = Ok(Vec::new(alloc));
    loop {
        let number = claims.draw(&mut seat);
        if seat.spent() {
            return Share { seat, done };
        }
        done = with_one(
            alloc, hooks, patch, finding, pages, &mut last, visits, own_pages, number, done,
        );
    }
}

// One visit more, unless memory was refused.
fn with_one<'p, H: SiteHooks>(
    alloc: Global,
    hooks: &H,
    patch: &Patch,
    finding: &'p Finding,
    pages: &'p SitePages<'_>,
    last: &mut LastPage<'p>,
    visits: &[&Visit],
    own_pages: &[Option<&Page>],
    number: u64,
    done: Result<Vec<Done>, NoMemory>,
) -> Result<Vec<Done>, NoMemory>
    requires pages { ArePagesOf (H.page_of hooks.now) pages.now.all.items }
    requires last { IsLastOf (H.page_of hooks.now) finding.now last.old }
    requires there { number < length visits.now }
    ensures last { IsLastOf (H.page_of hooks.now) finding.now last.new }
    ensures more { IfOk result (λ more. IsOkAnd done (λ some.
        HasNext
        (own_page_outcomes (site_by H.page_of H.signals hooks.now patch.now finding.now)
        (map plain_page own_pages.now) (map (λ visit. visit.now) visits.now))
        number some.items more.items)) }
{
    let mut done = done?;
    if done.len().is_multiple_of(HEAP_VISITS) {
        make_room(alloc);
    }
    let visit = visits[number as usize];
    let own = page_at(own_pages, number);
    let outcome = replay_visit(alloc, hooks, own, patch, finding, pages, last, visit)?;
    done.push(Done { number, outcome })?;
    Ok(done)
}

/// The page of its own that the visit of that number has.
pub(crate) fn page_at<'a>(own_pages: &[Option<&'a Page>], number: u64) -> Option<&'a Page>
    ensures { plain_page result ≡ page_at (map plain_page own_pages.now) number }
{
    if number < own_pages.len() as u64 {
        own_pages[number as usize]
    } else {
        None
    }
}

// What a visit gives by itself that may have a page of its own.
fn replay_visit<'p, H: SiteHooks>(
    alloc: Global,
    hooks: &H,
    own: Option<&Page>,
    patch: &Patch,
    finding: &'p Finding,
    pages: &'p SitePages<'_>,
    last: &mut LastPage<'p>,
    visit: &Visit,
) -> Result<Outcome, NoMemory>
    requires pages { ArePagesOf (H.page_of hooks.now) pages.now.all.items }
    requires last { IsLastOf (H.page_of hooks.now) finding.now last.old }
    ensures last { IsLastOf (H.page_of hooks.now) finding.now last.new }
    ensures answer { IfOk result (λ answer. answer ≡ outcome
        (with_own_page (site_by H.page_of H.signals hooks.now patch.now finding.now) (plain_page own.entry)) visit.now) }
{
    match own {
        None => last.replay(alloc, hooks, patch, finding, pages, visit),
        Some(_) => {
            let site = WithOwnPage { own, others: hooks };
            replay(alloc, &site, patch, finding, visit)
        }
    }
}
