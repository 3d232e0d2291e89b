//! The outcome of a visit: the walk over its events, up to the first that can't be replayed, and what stands at its end.
ghost use Rattle.std.specs.Prelude.{◌≡◌, ◌<◌, ◌+◌, length, take, IfOk, OnOk, IfSome, IfNone, Some};
ghost use Rattle.visit_replay.specs.Requests.{requests_before};
ghost use Rattle.visit_replay.specs.Outcome.{outcome, conflict_of, on_page, at_end};
ghost use Rattle.visit_replay.specs.RepairedSite.{site_by};
ghost use Rattle.upload_reader.specs.declared.message.Event.{Event as PlainEvent};
ghost use Rattle.visit_replay.specs.Aim.{Aim};
ghost use Rattle.visit_replay.specs.inside.Differing.{AreLookedUp, KnowsInputs};
ghost use Rattle.visit_replay.specs.inside.OneEvent.{IsBetween, names_aimed, aimed};
ghost use Rattle.visit_replay.specs.inside.Trails.{IsTrailOf};
ghost use Rattle.visit_replay.specs.inside.TouchedFields.{AreTouched};

use crate::aims::{Aiming, aim_at};
use crate::conflicts::{Located, judged};
use crate::finding::Finding;
use crate::known_inputs::KnownInputs;
use crate::lookups::Lookups;
use crate::outcome::{ConflictKind, Outcome};
use crate::patch::{Patch, affected};
use crate::repaired_page::RepairedPage;
use crate::requests::Requests;
use crate::touched::{Touched, has_strayed};
use crate::trail::Trail;
use client_log::Visit;
use page_tree::{NoMemory, Page};
use site_hooks::SiteHooks;
use std::alloc::Global;
use upload_reader::Event;

/// What replaying a visit gives. It is untouched where the patch doesn't list its address. It is a conflict at the load where the site has no page
/// there (K1); at the first event that can't be replayed on that page (K2 to K7, K11); behind the last event where the log kept only a part of the visit
/// (K8), or where the site signals one between the old page and the new (K9). Else it is done.
///
/// The hooks are asked only where no case before decides (which is tested, not proved).
pub fn replay<H: SiteHooks>(
    alloc: Global,
    hooks: &H,
    patch: &Patch,
    finding: &Finding,
    visit: &Visit,
) -> Result<Outcome, NoMemory>
    ensures { IfOk result
        (λ answer. answer ≡ outcome (site_by H.page_of H.signals hooks.now patch.now finding.now) visit.now) }
{
    if !affected(patch, visit) {
        return Ok(Outcome::Untouched);
    }
    match hooks.make(visit.address.as_str())? {
        Some(new) => find_on(alloc, hooks, finding, visit, &new),
        None => Ok(Outcome::Conflict {
            requests: Requests::none(),
            at: 0,
            kind: ConflictKind::NoPage,
        }),
    }
}

/// The same, where events find their places by their elements, on the page that the site has there now.
pub fn replay_beside<H: SiteHooks>(
    alloc: Global,
    hooks: &H,
    patch: &Patch,
    page: &mut RepairedPage<'_>,
    visit: &Visit,
) -> Result<Outcome, NoMemory>
    ensures page { page.new ≡ page.old }
    ensures answer { IfOk result (λ answer. H.page_of hooks.now visit.now.address ≡ Some page.old.0
        → answer ≡ outcome (site_by H.page_of H.signals hooks.now patch.now (Some page.old.1)) visit.now) }
{
    if affected(patch, visit) {
        by_looks(alloc, hooks, page, visit)
    } else {
        Ok(Outcome::Untouched)
    }
}

// On the page that the site has there now, as the site's law says where events act.
fn find_on<H: SiteHooks>(
    alloc: Global,
    hooks: &H,
    finding: &Finding,
    visit: &Visit,
    new: &Page,
) -> Result<Outcome, NoMemory>
    ensures { IfOk result (λ answer. answer ≡ on_page finding.now visit.now
        (H.signals hooks.now visit.now.address visit.now.page) (Some new.now)) }
{
    match finding.names() {
        None => {
            let mut lookups = Lookups::new(alloc, &visit.page, new, KnownInputs::new(alloc, new));
            replay_on(alloc, hooks, &Aiming::ByPath, visit, new, &mut lookups)
        }
        Some(fresh) => {
            let mut page = RepairedPage::of(alloc, new, fresh)?;
            by_looks(alloc, hooks, &mut page, visit)
        }
    }
}

// On a page whose looks were made.
fn by_looks<H: SiteHooks>(
    alloc: Global,
    hooks: &H,
    page: &mut RepairedPage<'_>,
    visit: &Visit,
) -> Result<Outcome, NoMemory>
    ensures page { page.new ≡ page.old }
    ensures answer { IfOk result (λ answer. answer ≡ on_page (Some page.old.1) visit.now
        (H.signals hooks.now visit.now.address visit.now.page) (Some page.old.0)) }
{
    let beside = page.beside(alloc, &visit.page)?;
    let aiming = Aiming::ByElement(beside);
    let new = page.page();
    let mut lookups = Lookups::new(alloc, &visit.page, new, page.take_inputs(alloc));
    let answer = replay_on(alloc, hooks, &aiming, visit, new, &mut lookups)?;
    page.keep_inputs(lookups.repaired);
    if let Aiming::ByElement(beside) = aiming {
        page.keep(beside);
    }
    Ok(answer)
}

// The events, up to the first that can't be replayed.
#[tactic(auto, using(crate::proofs::TrailLaws::trail_begins))]
fn replay_on<'v, H: SiteHooks>(
    alloc: Global,
    hooks: &H,
    aiming: &Aiming<'_>,
    visit: &'v Visit,
    new: &'v Page,
    lookups: &mut Lookups<'v, '_>,
) -> Result<Outcome, NoMemory>
    requires between { IsBetween aiming.now visit.now.page new.now }
    requires known { AreLookedUp visit.now.page new.now lookups.old }
    ensures answer { IfOk result (λ answer. answer ≡ on_page (names_aimed aiming.now) visit.now
        (H.signals hooks.now visit.now.address visit.now.page) (Some new.now)) }
    ensures known { OnOk result (AreLookedUp visit.now.page new.now lookups.new) }
{
    let mut touched = Touched::new(alloc);
    let mut trail = Trail::new(alloc, visit.address.as_str(), new)?;
    for i in 0..visit.events.as_slice().len() {
        if let Some(kind) = step(
            alloc,
            aiming,
            visit,
            new,
            i,
            lookups,
            &mut touched,
            &mut trail,
        )? {
            let at = i as u64 + 1;
            let requests = Requests::of(alloc, trail)?;
            return Ok(Outcome::Conflict { requests, at, kind });
        }
    }
    finish(hooks, visit, new, Requests::of(alloc, trail)?)
}

// Behind the last event: K8, K9, or done.
fn finish<H: SiteHooks>(
    hooks: &H,
    visit: &Visit,
    new: &Page,
    requests: Requests,
) -> Result<Outcome, NoMemory>
    ensures { IfOk result (λ answer. (aim : PlainEvent → Aim)
        → requests ≡ requests_before aim visit.now.address new.now visit.now.events (length visit.now.events)
        → answer ≡ at_end aim visit.now new.now (H.signals hooks.now visit.now.address visit.now.page new.now)) }
{
    let at = visit.events.as_slice().len() as u64 + 1;
    if visit.cut {
        let kind = ConflictKind::LogCut;
        return Ok(Outcome::Conflict { requests, at, kind });
    }
    if hooks.signals(visit.address.as_str(), &visit.page, new)? {
        let kind = ConflictKind::Ui;
        return Ok(Outcome::Conflict { requests, at, kind });
    }
    Ok(Outcome::Done { requests })
}

// Replays the event with i events before it, or says why it can't be.
fn step<'a>(
    alloc: Global,
    aiming: &Aiming<'_>,
    visit: &'a Visit,
    new: &'a Page,
    i: usize,
    lookups: &mut Lookups<'a, '_>,
    touched: &mut Touched,
    trail: &mut Trail,
) -> Result<Option<ConflictKind>, NoMemory>
    requires there { i < length visit.now.events }
    requires between { IsBetween aiming.now visit.now.page new.now }
    requires known { AreLookedUp visit.now.page new.now lookups.old }
    requires so_far { IsTrailOf (aimed aiming.now visit.now.page new.now) visit.now new.now i trail.old }
    requires touched { AreTouched (names_aimed aiming.now) visit.now.page new.now touched.old (take i visit.now.events) }
    ensures conflict { IfOk result (λ found. found
        ≡ conflict_of (names_aimed aiming.now) visit.now.page new.now visit.now.events i) }
    ensures known { OnOk result (AreLookedUp visit.now.page new.now lookups.new) }
    ensures stays { IfOk result (λ found. IfSome found (λ _. trail.new ≡ trail.old)) }
    ensures further { IfOk result (λ found. IfNone found
        (IsTrailOf (aimed aiming.now visit.now.page new.now) visit.now new.now (i + 1) trail.new)) }
    ensures touched { IfOk result (λ found. IfNone found
        (AreTouched (names_aimed aiming.now) visit.now.page new.now touched.new (take (i + 1) visit.now.events))) }
{
    let event = &visit.events.as_slice()[i];
    let old = &visit.page;
    let aim = aim_at(alloc, aiming, old, new, event, lookups)?;
    if has_strayed(aiming, old, new, event, &aim, &lookups.paths, touched) {
        return Ok(Some(ConflictKind::Changed));
    }
    let (target, button) = match judged(old, new, event, aim, &lookups.paths)? {
        Located::Bad(kind) => return Ok(Some(kind)),
        Located::Idle => return Ok(None),
        Located::At { target, button } => (target, button),
    };
    trail.note(event, target, button)?;
    touched.note(aiming, old, new, event, target, &lookups.paths)?;
    Ok(None)
}
