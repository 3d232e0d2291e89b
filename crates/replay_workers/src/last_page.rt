//! The page that visits were replayed beside last, with its looks: those of one page are kept at a time.
ghost use Rattle.std.specs.Prelude.{◌≡◌, IfOk, IfSome, List, ℕ, Option};
ghost use Rattle.page_tree.specs.Tree.{Tree};
ghost use Rattle.visit_replay.specs.Difference.{difference};
ghost use Rattle.visit_replay.specs.Outcome.{outcome};
ghost use Rattle.visit_replay.specs.RepairedSite.{site_by};
ghost use Rattle.replay_workers.specs.SitePages.{ArePagesOf, IsLastOf, IsThere};

use crate::site_pages::SitePages;
use client_log::Visit;
use page_tree::NoMemory;
use site_hooks::SiteHooks;
use std::alloc::Global;
use visit_replay::{
    Difference, Finding, Outcome, Patch, RepairedPage, replay, replay_beside, told_beside,
    told_difference,
};

/// A page of the site, and its address.
#[derive(Drop)]
pub struct PageThere<'p> {
    pub address: &'p str,
    pub page: RepairedPage<'p>,
}

/// The last one, if there is one. Visits in the order of their addresses need the looks of each page once.
#[derive(Drop)]
pub struct LastPage<'p> {
    pub there: Option<PageThere<'p>>,
}

impl<'p> LastPage<'p> {
    /// None yet.
    pub fn none() -> LastPage<'p>
        ensures { (page_of : List ℕ → Option Tree) (same : Option (List (List ℕ))) → IsLastOf page_of same result }
    {
        LastPage { there: None }
    }

    /// What a visit gives by itself: beside the page of its address, where that is one of these.
    pub fn replay<H: SiteHooks>(
        &mut self,
        alloc: Global,
        hooks: &H,
        patch: &Patch,
        finding: &'p Finding,
        pages: &'p SitePages<'_>,
        visit: &Visit,
    ) -> Result<Outcome, NoMemory>
        requires pages { ArePagesOf (H.page_of hooks.now) pages.now.all.items }
        requires last { IsLastOf (H.page_of hooks.now) finding.now self.old }
        ensures last { IsLastOf (H.page_of hooks.now) finding.now self.new }
        ensures answer { IfOk result
            (λ answer. answer ≡ outcome (site_by H.page_of H.signals hooks.now patch.now finding.now) visit.now) }
    {
        match self.take(alloc, finding, pages, visit.address.as_str())? {
            None => replay(alloc, hooks, patch, finding, visit),
            Some(there) => {
                let mut there = there;
                let answer = replay_beside(alloc, hooks, patch, &mut there.page, visit)?;
                self.there = Some(there);
                Ok(answer)
            }
        }
    }

    /// What the requests of a visit with this outcome were, likewise.
    pub fn told<H: SiteHooks>(
        &mut self,
        alloc: Global,
        hooks: &H,
        finding: &'p Finding,
        pages: &'p SitePages<'_>,
        visit: &Visit,
        outcome: &Outcome,
    ) -> Result<Difference, NoMemory>
        requires pages { ArePagesOf (H.page_of hooks.now) pages.now.all.items }
        requires last { IsLastOf (H.page_of hooks.now) finding.now self.old }
        ensures last { IsLastOf (H.page_of hooks.now) finding.now self.new }
        ensures told { IfOk result (λ it. it
            ≡ difference finding.now visit.now (H.page_of hooks.now visit.now.address) outcome.now) }
    {
        match self.take(alloc, finding, pages, visit.address.as_str())? {
            None => told_difference(alloc, hooks, finding, visit, outcome),
            Some(there) => {
                let mut there = there;
                let told = told_beside(alloc, &mut there.page, visit, outcome)?;
                self.there = Some(there);
                Ok(told)
            }
        }
    }

    // That at an address, where there is one; none stays.
    fn take(
        &mut self,
        alloc: Global,
        finding: &'p Finding,
        pages: &'p SitePages<'_>,
        address: &str,
    ) -> Result<Option<PageThere<'p>>, NoMemory>
        ensures last { (page_of : List ℕ → Option Tree) → IsLastOf page_of finding.now self.new }
        ensures there { (page_of : List ℕ → Option Tree) → ArePagesOf page_of pages.now.all.items
            → IsLastOf page_of finding.now self.old
            → IfOk result (λ found. IfSome found (IsThere page_of finding.now)) }
        ensures address { IfOk result (λ found. IfSome found (λ there. there.address.now ≡ address.now)) }
    {
        if let Some(there) = self.there.take() {
            if there.address == address {
                return Ok(Some(there));
            }
        }
        let Some(fresh) = finding.names() else {
            return Ok(None);
        };
        let Some(one) = pages.at(address) else {
            return Ok(None);
        };
        let page = RepairedPage::of(alloc, &one.page, fresh)?;
        Ok(Some(PageThere {
            address: one.address,
            page,
        }))
    }
}
