//! What a site is asked, and when.
ghost use Rattle.std.specs.Prelude.{true};

use crate::made::{NEW, page, patch, visit};
use client_log::Visit;
use page_tree::{NoMemory, Page};
use site_hooks::{SiteHooks, SiteLaw};
use std::alloc::{AllocError, Global};
use std::process::Abort;
use std::test::Fail;
use upload_reader::Event;
use visit_replay::{ConflictKind, Finding, Outcome, replay};
use xpath_child::Path;

// A site that wants memory whenever it is asked whether it signals a conflict, and, where it makes nothing, for a page too.
#[derive(Drop)]
struct Wanting {
    page: Option<Page>,
    makes: bool,
}

impl SiteLaw for Wanting {
    ghost page_of = { λ site address. site.page };

    ghost signals = { λ site address old new. true };
}

impl SiteHooks for Wanting {
    fn make(&self, _address: &str) -> Result<Option<Page>, NoMemory> {
        if !self.makes {
            return Err(AllocError);
        }
        match &self.page {
            Some(page) => Ok(Some(page.copy()?)),
            None => Ok(None),
        }
    }

    fn signals(&self, _address: &str, _old: &Page, _new: &Page) -> Result<bool, NoMemory> {
        Err(AllocError)
    }
}

// What was clicked.
const GOOD: &str = "/html/p";

const BAD: &str = "/html/b";

// A visit to `/p` in which that was clicked, and whether the log kept only a part of it.
fn clicked(alloc: Global, target: &str, cut: bool) -> Result<Visit, Fail> {
    let mut visit = visit(alloc, 1, "/p")?;
    let (target, at, req) = (Path::read(alloc, target)?, 7, 0);
    visit.events.push(Event::Click { at, target, req })?;
    visit.cut = cut;
    Ok(visit)
}

// What a visit gives.
#[derive(Clone, Copy, PartialEq, Eq)]
enum Given {
    Untouched,
    Conflict(ConflictKind),
    // The site was asked what it wants memory for.
    Asked,
    Done,
}

// Where that address is patched.
fn answered(alloc: Global, hooks: &Wanting, patched: &str, visit: &Visit) -> Result<Given, Fail> {
    let patch = patch(alloc, &[patched])?;
    Ok(
        match replay(alloc, hooks, &patch, &Finding::by_path(), visit) {
            Ok(Outcome::Untouched) => Given::Untouched,
            Ok(Outcome::Conflict { kind, .. }) => Given::Conflict(kind),
            Ok(Outcome::Done { .. }) => Given::Done,
            Err(_) => Given::Asked,
        },
    )
}

// It gives that, and is untouched where only `/q` is patched.
fn gives(
    rt: &impl Abort,
    alloc: Global,
    hooks: &Wanting,
    target: &str,
    cut: bool,
    want: Given,
) -> Result<(), Fail> {
    let visit = clicked(alloc, target, cut)?;
    assert!(rt; answered(alloc, hooks, "/p", &visit)? == want);
    assert!(rt; answered(alloc, hooks, "/q", &visit)? == Given::Untouched);
    Ok(())
}

// K9 comes behind K2 and K8.
#[test]
fn signals_are_asked_for_where_all_else_is_good(rt: HostRuntime) -> Result<(), Fail> {
    let (alloc, makes) = (rt.alloc(), true);
    let page = Some(page(alloc, NEW)?);
    let hooks = Wanting { page, makes };
    let (no_target, cut) = (ConflictKind::NoTarget, ConflictKind::LogCut);
    gives(&rt, alloc, &hooks, BAD, false, Given::Conflict(no_target))?;
    gives(&rt, alloc, &hooks, GOOD, true, Given::Conflict(cut))?;
    gives(&rt, alloc, &hooks, GOOD, false, Given::Asked)
}

// K1.
#[test]
fn a_site_is_asked_for_the_pages_of_affected_visits(rt: HostRuntime) -> Result<(), Fail> {
    let (alloc, page, makes) = (rt.alloc(), None, true);
    let hooks = Wanting { page, makes };
    gives(
        &rt,
        alloc,
        &hooks,
        BAD,
        true,
        Given::Conflict(ConflictKind::NoPage),
    )?;
    let (page, makes) = (None, false);
    gives(
        &rt,
        alloc,
        &Wanting { page, makes },
        BAD,
        false,
        Given::Asked,
    )
}
