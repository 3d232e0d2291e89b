//! Visits in the order of their addresses, so that those to one page are replayed one after another, and what they give in their own order again.
ghost use Rattle.std.specs.Prelude.{◌≡◌, List, Option, length, map, IfOk};
ghost use Rattle.std.specs.List.{zip};
ghost use Rattle.visit_replay.specs.RepairedSite.{RepairedSite};
ghost use Rattle.page_tree.specs.Tree.{Tree};
ghost use Rattle.replay_workers.specs.Work.{own_page_outcomes};
ghost use Rattle.replay_workers.specs.inside.Clients.{plain_page, page_at};
ghost use Rattle.replay_workers.specs.inside.Ordered.{AreAll, as_done};

use crate::pool::{place, untouched};
use crate::share::{Done, page_at};
use client_log::Visit;
use page_tree::Page;
use std::alloc::{AllocError, Global};
use visit_replay::Outcome;

/// A visit, and its number among all.
#[derive(Drop)]
pub(crate) struct Numbered<'a> {
    pub(crate) number: u64,
    pub(crate) visit: &'a Visit,
}

/// All of them in the order of their addresses.
pub(crate) fn by_address<'a>(
    alloc: Global,
    visits: &[&'a Visit],
) -> Result<Vec<Numbered<'a>>, AllocError>
    ensures { IfOk result (λ all. AreAll (map (λ visit. visit.now) visits.now) all.items) }
{
    let mut all = Vec::with_capacity(alloc, visits.len())?;
    for k in 0..visits.len() {
        all.push_reserved(Numbered {
            number: k as u64,
            visit: visits[k],
        });
    }
    all.sort_unstable_by(|a, b| a.visit.address.as_str().cmp(b.visit.address.as_str()));
    Ok(all)
}

/// The visits of these.
pub(crate) fn visits_of<'a>(
    alloc: Global,
    all: &[Numbered<'a>],
) -> Result<Vec<&'a Visit>, AllocError>
    ensures { IfOk result (λ visits. map (λ visit. visit.now) visits.items ≡ map (λ one. one.visit.now) all.now) }
{
    let mut visits = Vec::with_capacity(alloc, all.len())?;
    for one in all {
        visits.push_reserved(one.visit);
    }
    Ok(visits)
}

/// The page of its own that each of these has.
pub(crate) fn pages_in_order<'a>(
    alloc: Global,
    own_pages: &[Option<&'a Page>],
    all: &[Numbered<'_>],
) -> Result<Vec<Option<&'a Page>>, AllocError>
    ensures { IfOk result (λ pages. map plain_page pages.items
        ≡ map (λ one. page_at (map plain_page own_pages.now) one.number) all.now) }
{
    let mut pages = Vec::with_capacity(alloc, all.len())?;
    for one in all {
        pages.push_reserved(page_at(own_pages, one.number));
    }
    Ok(pages)
}

/// What these give, by their numbers.
pub(crate) fn by_number(
    alloc: Global,
    visits: &[&Visit],
    all: &[Numbered<'_>],
    own: Vec<Outcome>,
) -> Result<Vec<Outcome>, AllocError>
    requires all { AreAll (map (λ visit. visit.now) visits.now) all.now }
    requires count { length own.items ≡ length all.now }
    ensures { IfOk result (λ outcomes. (site : RepairedSite) (pages : List (Option Tree))
        → own.items ≡ own_page_outcomes site (map (λ one. page_at pages one.number) all.now)
        (map (λ one. one.visit.now) all.now)
        → outcomes.items ≡ own_page_outcomes site pages (map (λ visit. visit.now) visits.now)) }
{
    let mut outcomes = untouched(alloc, visits.len())?;
    let done = beside_numbers(alloc, all, own)?;
    place(outcomes.as_mut_slice(), done);
    Ok(outcomes)
}

fn beside_numbers(
    alloc: Global,
    all: &[Numbered<'_>],
    own: Vec<Outcome>,
) -> Result<Vec<Done>, AllocError>
    ensures { IfOk result (λ done. done.items ≡ map as_done (zip all.now own.items)) }
{
    let mut done = Vec::with_capacity(alloc, all.len())?;
    let mut own = own.into_iter();
    for one in all {
        let Some(outcome) = own.next() else {
            break;
        };
        done.push_reserved(Done {
            number: one.number,
            outcome,
        });
    }
    Ok(done)
}
