//! What a visit asked for on the page that it was made on, where that differs from what its replay asks for.
ghost use Rattle.std.specs.Prelude.{ℕ, List, ◌≡◌, ◌+◌, ◌<◌, ◌≤◌, [], ◌∷◌, All, length, map, slice_get, Some, None, IfOk, IfSome, IsFalse, OnOk, option_and_then};
ghost use Rattle.upload_reader.specs.Session.{request_of};
ghost use Rattle.visit_replay.specs.Aim.{by_path};
ghost use Rattle.visit_replay.specs.Difference.{are_alike, difference, was_asked, was_other, asks_now};
ghost use Rattle.visit_replay.specs.declared.difference.Contrast.TheVariants.{Changed};
ghost use Rattle.visit_replay.specs.declared.told.ToldRequest.TheVariants.{Form};
ghost use Rattle.visit_replay.specs.inside.Boards.{IsOn};
ghost use Rattle.visit_replay.specs.inside.Deeds.{requests_on};
ghost use Rattle.visit_replay.specs.inside.Differing.{AreCompared, AreLookedUp, KnowsInputs, KnowsPaths, other_by};
ghost use Rattle.visit_replay.specs.inside.FirstDeeds.{FindsFirst};
ghost use Rattle.visit_replay.specs.inside.Marks.{AreMarks};
ghost use Rattle.visit_replay.specs.inside.OneEvent.{IsBetween, aimed};
ghost use Rattle.visit_replay.specs.inside.Tellings.{told_request, KnowsFresh};
ghost use Rattle.visit_replay.specs.inside.Told.{told_marked};
ghost use Rattle.visit_replay.specs.inside.Trails.{IsTrailOf, asked_at, asked_from};

use crate::aims::{Aiming, aim_at};
use crate::board::Board;
use crate::comparisons::Comparisons;
use crate::conflicts::Located;
use crate::difference::{Contrast, Difference};
use crate::finding::Finding;
use crate::first_deeds::FirstDeeds;
use crate::former::Former;
use crate::known_paths::KnownPaths;
use crate::lookups::Lookups;
use crate::outcome::{ConflictKind, Outcome};
use crate::passing::passing_over;
use crate::repaired_page::RepairedPage;
use crate::requests::Requests;
use crate::single::Single;
use crate::told::{ToldForm, ToldRequest, are_pairs_alike};
use crate::trail::Trail;
use client_log::Visit;
use page_looks::FreshNames;
use page_tree::{NoMemory, Page, Text};
use site_hooks::SiteHooks;
use std::alloc::{AllocError, Global};
use upload_reader::Event;

/// That of a visit with this outcome: where events find their places by their elements, of a visit that is done or stops at K11. A visit that is done is gone
/// through once more, on its own page, and one that stops up to its conflict, on both.
pub fn told_difference<H: SiteHooks>(
    alloc: Global,
    hooks: &H,
    finding: &Finding,
    visit: &Visit,
    outcome: &Outcome,
) -> Result<Difference, NoMemory>
    ensures { IfOk result (λ it. it
        ≡ difference finding.now visit.now (H.page_of hooks.now visit.now.address) outcome.now) }
{
    let Some(fresh) = finding.names() else {
        return Ok(Difference::none());
    };
    match outcome {
        Outcome::Untouched => Ok(Difference::none()),
        Outcome::Done { requests } => {
            let was = all_former(alloc, fresh.as_slice(), visit, requests)?;
            Difference::of(alloc, Contrast::Done { was })
        }
        Outcome::Conflict {
            at,
            kind: ConflictKind::Changed,
            ..
        } => changed(alloc, hooks, fresh, visit, at.saturating_sub(1) as usize),
        Outcome::Conflict { .. } => Ok(Difference::none()),
    }
}

/// The same beside the page that the site has there now.
pub fn told_beside(
    alloc: Global,
    page: &mut RepairedPage<'_>,
    visit: &Visit,
    outcome: &Outcome,
) -> Result<Difference, NoMemory>
    ensures page { page.new ≡ page.old }
    ensures told { IfOk result (λ it. it
        ≡ difference (Some page.old.1) visit.now (Some page.old.0) outcome.now) }
{
    match outcome {
        Outcome::Untouched => Ok(Difference::none()),
        Outcome::Done { requests } => {
            let was = all_former(alloc, page.looks.fresh(), visit, requests)?;
            Difference::of(alloc, Contrast::Done { was })
        }
        Outcome::Conflict {
            at,
            kind: ConflictKind::Changed,
            ..
        } => {
            let k = at.saturating_sub(1) as usize;
            changed_beside(alloc, page, visit, k)
        }
        Outcome::Conflict { .. } => Ok(Difference::none()),
    }
}

// ---- of a visit that is done

// What each of these requests was, where it differs.
fn all_former(
    alloc: Global,
    fresh: &[Text],
    visit: &Visit,
    requests: &Requests,
) -> Result<Former, NoMemory>
    ensures { IfOk result (λ all. all ≡ map (was_other fresh.now visit.now) requests.now) }
{
    match requests.trail() {
        None => Ok(Former::new(alloc)),
        Some(trail) => former_of(alloc, fresh, visit, trail),
    }
}

// The same of those of a trail.
fn former_of(
    alloc: Global,
    fresh: &[Text],
    visit: &Visit,
    trail: &Trail,
) -> Result<Former, NoMemory>
    ensures { IfOk result (λ all. all ≡ map (was_other fresh.now visit.now)
        (requests_on trail.now.address trail.now.page trail.now.deeds.items)) }
{
    let own = own_trail(alloc, visit, asking_end(visit.events.as_slice()))?;
    let marks = marks_of(alloc, fresh, &own, trail)?;
    let own = kept_for(own, marks.as_slice());
    let former = Former::of(alloc, own, marks)?;
    Ok(former)
}

// The trail, unless nothing on it is marked.
#[tactic(auto, using(crate::proofs::FormerLaws::none_marked))]
fn kept_for(own: Trail, marks: &[Option<u32>]) -> Option<Trail>
    ensures within { AreMarks own marks.now → IfSome result (λ kept. AreMarks kept marks.now) }
    ensures told { map (told_marked result) marks.now ≡ map (told_marked (Some own)) marks.now }
{
    if is_any_there(marks) {
        Some(own.fitted())
    } else {
        None
    }
}

fn is_any_there(marks: &[Option<u32>]) -> bool
    ensures { IsFalse result → All (λ mark. mark ≡ None) marks.now }
{
    for mark in marks {
        if mark.is_some() {
            return true;
        }
    }
    false
}

// What the first so many events did on the visit's own page, where their paths lead.
fn own_trail(alloc: Global, visit: &Visit, count: usize) -> Result<Trail, NoMemory>
    requires { count ≤ length visit.now.events }
    ensures { IfOk result (IsTrailOf (by_path visit.now.page) visit.now visit.now.page count) }
{
    let page = &visit.page;
    let mut trail = Trail::new(alloc, visit.address.as_str(), page)?;
    let mut paths = KnownPaths::new(alloc);
    for k in 0..count {
        note_own(visit, k, &mut paths, &mut trail)?;
    }
    Ok(trail)
}

// Takes in one event more, if its path leads to one node.
fn note_own<'v>(
    visit: &'v Visit,
    k: usize,
    paths: &mut KnownPaths<'v>,
    trail: &mut Trail,
) -> Result<(), NoMemory>
    requires there { k < length visit.now.events }
    requires known { KnowsPaths visit.now.page paths.old.paths.items }
    requires so_far { IsTrailOf (by_path visit.now.page) visit.now visit.now.page k trail.old }
    ensures known { OnOk result (KnowsPaths visit.now.page paths.new.paths.items) }
    ensures further { OnOk result (IsTrailOf (by_path visit.now.page) visit.now visit.now.page (k + 1) trail.new) }
{
    let page = &visit.page;
    let event = &visit.events.as_slice()[k];
    let Some(target) = paths.target_of(page, event)? else {
        return Ok(());
    };
    let button = paths.button_of(page, event)?;
    trail.note(event, target, button)?;
    Ok(())
}

// Of each request of a trail, the load first, which deed of the visit's own asked for it, where that asked for something else. Both trails are gone along side by
// side.
fn marks_of(
    alloc: Global,
    fresh: &[Text],
    own: &Trail,
    trail: &Trail,
) -> Result<Vec<Option<u32>>, NoMemory>
    ensures within { IfOk result (λ marks. AreMarks own.now marks.items) }
    ensures told { IfOk result (λ marks. map (told_marked (Some own.now)) marks.items
        ≡ None ∷ map (other_by fresh.now own.now) (asked_from trail.now 0)) }
{
    let mut firsts = FirstDeeds::new();
    let mut was = Board::new(alloc, own.page.node_count(), fresh)?;
    was.begin(own);
    let mut is = Board::new(alloc, trail.page.node_count(), fresh)?;
    is.begin(trail);
    let mut compared = Comparisons::new(alloc);
    let mut marks = mark_of_load(alloc)?;
    let mut from = 0;
    while let Some(place) = trail.asking_from(from) {
        let mark = mark_at(
            alloc,
            own,
            trail,
            place,
            &mut firsts,
            &mut was,
            &mut is,
            &mut compared,
        )?;
        marks.push(mark)?;
        from = place + 1;
    }
    Ok(marks)
}

// Of the load alone, which nothing else asked for.
fn mark_of_load(alloc: Global) -> Result<Vec<Option<u32>>, NoMemory>
    ensures { IfOk result (λ marks. marks.items ≡ None ∷ []) }
{
    let mut marks = Vec::new(alloc);
    marks.push(None)?;
    Ok(marks)
}

// The same of what the deed at that place asks for, if it asks for anything.
fn mark_at<'o, 't>(
    alloc: Global,
    own: &'o Trail,
    trail: &'t Trail,
    place: usize,
    firsts: &mut FirstDeeds,
    was: &mut Board<'o>,
    is: &mut Board<'t>,
    compared: &mut Comparisons,
) -> Result<Option<u32>, NoMemory>
    requires there { place < length trail.now.deeds.items }
    requires firsts { FindsFirst own.now firsts.old }
    requires was { IsOn own.now.page own.now.deeds.items was.old }
    requires is { IsOn trail.now.page trail.now.deeds.items is.old }
    requires names { is.old.names.now ≡ was.old.names.now }
    requires known { AreCompared was.old.names.now compared.old.all.items }
    ensures firsts { OnOk result (FindsFirst own.now firsts.new) }
    ensures was { OnOk result (IsOn own.now.page own.now.deeds.items was.new) }
    ensures is { OnOk result (IsOn trail.now.page trail.now.deeds.items is.new) }
    ensures names { (was.new.names ≡ was.old.names) × (is.new.names ≡ is.old.names) }
    ensures known { OnOk result (AreCompared was.old.names.now compared.new.all.items) }
    ensures within { IfOk result (λ mark. IfSome mark (λ p. p < length own.now.deeds.items)) }
    ensures told { IfOk result (λ mark. IfSome (asked_at trail.now place)
        (λ now. told_marked (Some own.now) mark ≡ other_by was.old.names.now own.now now)) }
{
    is.go_to(trail, place);
    match is.told(trail, place) {
        Some(now) => mark_of(alloc, own, firsts, was, &now, compared),
        None => Ok(None),
    }
}

// Which deed asked for it, where that asked for something else but for the values of the names that are fresh on that board.
fn mark_of<'o>(
    alloc: Global,
    own: &'o Trail,
    firsts: &mut FirstDeeds,
    was: &mut Board<'o>,
    now: &ToldRequest<'_>,
    compared: &mut Comparisons,
) -> Result<Option<u32>, NoMemory>
    requires firsts { FindsFirst own.now firsts.old }
    requires on { IsOn own.now.page own.now.deeds.items was.old }
    requires marked { KnowsFresh was.old.names.now now.now }
    requires known { AreCompared was.old.names.now compared.old.all.items }
    ensures firsts { OnOk result (FindsFirst own.now firsts.new) }
    ensures on { OnOk result (IsOn own.now.page own.now.deeds.items was.new) }
    ensures names { was.new.names ≡ was.old.names }
    ensures known { OnOk result (AreCompared was.old.names.now compared.new.all.items) }
    ensures within { IfOk result (λ mark. IfSome mark (λ place. place < length own.now.deeds.items)) }
    ensures told { IfOk result (λ mark. told_marked (Some own.now) mark
        ≡ other_by was.old.names.now own.now (told_request now.now)) }
{
    let Some(place) = firsts.place_of(alloc, own, now.number())? else {
        return Ok(None);
    };
    was.go_to(own, place);
    let Some(before) = was.told(own, place) else {
        return Ok(None);
    };
    if is_alike(alloc, was.names, &before, now, compared)? {
        return Ok(None);
    }
    let mark = as_mark(place)?;
    Ok(Some(mark))
}

// A place that doesn't fit is refused as want of memory: so many deeds take more than there is.
fn as_mark(place: usize) -> Result<u32, NoMemory>
    ensures { IfOk result (λ mark. mark ≡ place) }
{
    match u32::try_from(place) {
        Ok(mark) => Ok(mark),
        Err(_) => Err(AllocError),
    }
}

// Whether both ask for the same, but for the values of fresh names. Links are compared by their addresses, and forms by what they send, pair by pair. Others are made,
// without these values: no visit has such ones, since an event asks by links alone or by forms, and by the forms' one method, or has changed (K11).
fn is_alike(
    alloc: Global,
    fresh: &[Text],
    was: &ToldRequest<'_>,
    is: &ToldRequest<'_>,
    compared: &mut Comparisons,
) -> Result<bool, NoMemory>
    requires was { KnowsFresh fresh.now was.now }
    requires is { KnowsFresh fresh.now is.now }
    requires known { AreCompared fresh.now compared.old.all.items }
    ensures known { OnOk result (AreCompared fresh.now compared.new.all.items) }
    ensures alike { IfOk result (λ alike. alike ≡ are_alike fresh.now (told_request was.now) (told_request is.now)) }
{
    match (was, is) {
        (
            ToldRequest::Link {
                address: before,
                ..
            },
            ToldRequest::Link { address: now, .. },
        ) => {
            let apart = compared.differ(alloc, fresh, before, now)?;
            Ok(!apart)
        }
        (ToldRequest::Form(before), ToldRequest::Form(now)) => {
            match are_submits_alike(alloc, fresh, before, now, compared)? {
                Some(alike) => Ok(alike),
                None => are_made_alike(alloc, fresh, was, is, compared),
            }
        }
        _ => are_made_alike(alloc, fresh, was, is, compared),
    }
}

// The same of two forms, but where they send the same and one of them alone is posted.
fn are_submits_alike(
    alloc: Global,
    fresh: &[Text],
    was: &ToldForm<'_>,
    is: &ToldForm<'_>,
    compared: &mut Comparisons,
) -> Result<Option<bool>, NoMemory>
    requires was { KnowsFresh fresh.now (Form was.now) }
    requires is { KnowsFresh fresh.now (Form is.now) }
    requires known { AreCompared fresh.now compared.old.all.items }
    ensures known { OnOk result (AreCompared fresh.now compared.new.all.items) }
    ensures alike { IfOk result (λ told. IfSome told
        (λ alike. alike ≡ are_alike fresh.now (told_request (Form was.now)) (told_request (Form is.now)))) }
{
    if !are_pairs_alike(alloc, &was.pairs, &is.pairs)? {
        return Ok(Some(false));
    }
    if was.post != is.post {
        return Ok(None);
    }
    if was.post {
        let apart = compared.differ(alloc, fresh, was.action, is.action)?;
        return Ok(Some(!apart));
    }
    Ok(Some(was.goes_with(is)))
}

// The same, where both are made without these values.
fn are_made_alike(
    alloc: Global,
    fresh: &[Text],
    was: &ToldRequest<'_>,
    is: &ToldRequest<'_>,
    compared: &mut Comparisons,
) -> Result<bool, NoMemory>
    requires was { KnowsFresh fresh.now was.now }
    requires is { KnowsFresh fresh.now is.now }
    requires known { AreCompared fresh.now compared.old.all.items }
    ensures known { OnOk result (AreCompared fresh.now compared.new.all.items) }
    ensures alike { IfOk result (λ alike. alike ≡ are_alike fresh.now (told_request was.now) (told_request is.now)) }
{
    let before = was.counted(alloc)?;
    let now = is.counted(alloc)?;
    compared.are_alike(alloc, fresh, &before, &now)
}

// How many events there are up to the last one with a request.
fn asking_end(events: &[Event]) -> usize
    ensures within { result ≤ length events.now }
    ensures rest { (k : ℕ) → result ≤ k → IfSome (slice_get events.now k) (λ event. request_of event ≡ 0) }
{
    let mut end = events.len();
    while end > 0 && events[end - 1].request() == 0 {
        end -= 1;
    }
    end
}

// ---- of a visit that stops since an element has changed

// What the event with k events before it asked for, and what it asks for now.
fn changed<H: SiteHooks>(
    alloc: Global,
    hooks: &H,
    fresh: &FreshNames,
    visit: &Visit,
    k: usize,
) -> Result<Difference, NoMemory>
    ensures { IfOk result (λ it. it ≡ Some (Changed (was_asked visit.now k)
        (option_and_then (λ page. asks_now fresh.now visit.now page k) (H.page_of hooks.now visit.now.address)))) }
{
    match hooks.make(visit.address.as_str())? {
        None => {
            let was = was_asked(alloc, visit, k)?;
            Difference::of(alloc, Contrast::Changed { was, now: None })
        }
        Some(new) => {
            let mut page = RepairedPage::of(alloc, &new, fresh)?;
            changed_beside(alloc, &mut page, visit, k)
        }
    }
}

// The same beside the page there, whose looks were made.
fn changed_beside(
    alloc: Global,
    page: &mut RepairedPage<'_>,
    visit: &Visit,
    k: usize,
) -> Result<Difference, NoMemory>
    ensures page { page.new ≡ page.old }
    ensures told { IfOk result (λ it. it
        ≡ Some (Changed (was_asked visit.now k) (asks_now page.old.1 visit.now page.old.0 k))) }
{
    let was = was_asked(alloc, visit, k)?;
    let now = asks_now(alloc, page, visit, k)?;
    Difference::of(alloc, Contrast::Changed { was, now })
}

/// What the visit's event with `k` events before it asked for on the page that it was made on, behind all these.
pub fn was_asked(alloc: Global, visit: &Visit, k: usize) -> Result<Option<Single>, NoMemory>
    ensures { IfOk result (λ request. request ≡ was_asked visit.now k) }
{
    let events = visit.events.as_slice();
    if k >= events.len() {
        return Ok(None);
    }
    let event = &events[k];
    if event.request() == 0 {
        return Ok(None);
    }
    let mut paths = KnownPaths::new(alloc);
    let Some(target) = paths.target_of(&visit.page, event)? else {
        return Ok(None);
    };
    let button = paths.button_of(&visit.page, event)?;
    let mut trail = own_trail(alloc, visit, k)?;
    trail.note(event, target, button)?;
    let single = Single::of(alloc, trail)?;
    Ok(single)
}

fn asks_now(
    alloc: Global,
    page: &mut RepairedPage<'_>,
    visit: &Visit,
    k: usize,
) -> Result<Option<Single>, NoMemory>
    ensures page { page.new ≡ page.old }
    ensures asks { IfOk result (λ request. request ≡ asks_now page.old.1 visit.now page.old.0 k) }
{
    let events = visit.events.as_slice();
    if k >= events.len() {
        return Ok(None);
    }
    let event = &events[k];
    if event.request() == 0 {
        return Ok(None);
    }
    let beside = page.beside(alloc, &visit.page)?;
    let (target, button) = match passing_over(&beside, event) {
        Located::Bad(_kind) => return Ok(None),
        Located::Idle => return Ok(None),
        Located::At { target, button } => (target, button),
    };
    let aiming = Aiming::ByElement(beside);
    let new = page.page();
    let mut lookups = Lookups::new(alloc, &visit.page, new, page.take_inputs(alloc));
    let mut trail = trail_beside(alloc, &aiming, visit, new, k, &mut lookups)?;
    page.keep_inputs(lookups.repaired);
    if let Aiming::ByElement(beside) = aiming {
        page.keep(beside);
    }
    trail.note(event, target, button)?;
    let single = Single::of(alloc, trail)?;
    Ok(single)
}

// What the first so many events did on the page that stands there now.
fn trail_beside<'v>(
    alloc: Global,
    aiming: &Aiming<'_>,
    visit: &'v Visit,
    new: &'v Page,
    count: usize,
    lookups: &mut Lookups<'v, '_>,
) -> Result<Trail, NoMemory>
    requires between { IsBetween aiming.now visit.now.page new.now }
    requires count { count ≤ length visit.now.events }
    requires known { AreLookedUp visit.now.page new.now lookups.old }
    ensures trail { IfOk result (IsTrailOf (aimed aiming.now visit.now.page new.now) visit.now new.now count) }
    ensures known { OnOk result (AreLookedUp visit.now.page new.now lookups.new) }
{
    let mut trail = Trail::new(alloc, visit.address.as_str(), new)?;
    for k in 0..count {
        note_beside(alloc, aiming, visit, new, k, lookups, &mut trail)?;
    }
    Ok(trail)
}

// Takes in one event more, if it acts somewhere.
fn note_beside<'v>(
    alloc: Global,
    aiming: &Aiming<'_>,
    visit: &'v Visit,
    new: &Page,
    k: usize,
    lookups: &mut Lookups<'v, '_>,
    trail: &mut Trail,
) -> Result<(), NoMemory>
    requires there { k < length visit.now.events }
    requires between { IsBetween aiming.now visit.now.page new.now }
    requires known { AreLookedUp visit.now.page new.now lookups.old }
    requires so_far { IsTrailOf (aimed aiming.now visit.now.page new.now) visit.now new.now k trail.old }
    ensures known { OnOk result (AreLookedUp visit.now.page new.now lookups.new) }
    ensures further { OnOk result
        (IsTrailOf (aimed aiming.now visit.now.page new.now) visit.now new.now (k + 1) trail.new) }
{
    let event = &visit.events.as_slice()[k];
    let (target, button) = match aim_at(alloc, aiming, &visit.page, new, event, lookups)? {
        Located::Bad(_kind) => return Ok(()),
        Located::Idle => return Ok(()),
        Located::At { target, button } => (target, button),
    };
    trail.note(event, target, button)?;
    Ok(())
}
