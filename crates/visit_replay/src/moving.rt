//! Whether a request of a visit goes elsewhere now.
ghost use Rattle.std.specs.Prelude.{[], ◌≡◌, ◌≢◌, ◌<◌, unwrap_or, length, take, option_map, Some, IfOk, IfSome, OnOk};
ghost use Rattle.visit_replay.specs.Aim.{by_path};
ghost use Rattle.std.specs.Option.{option_map_or};
ghost use Rattle.visit_replay.specs.Moved.{requests_of, address_now, event_numbered, own_request, are_apart, is_moved};
ghost use Rattle.visit_replay.specs.inside.Boards.{IsOn};
ghost use Rattle.visit_replay.specs.inside.Deeds.{requests_on};
ghost use Rattle.visit_replay.specs.inside.FirstDeeds.{FindsFirst};
ghost use Rattle.visit_replay.specs.inside.KeptFields.{Keeps, TakesIn};
ghost use Rattle.visit_replay.specs.inside.Differing.{IsTargetOf, KnowsOwn, KnowsPaths, KnowsTexts, asked_as};

use crate::board::Board;
use crate::comparisons::Comparisons;
use crate::conflicts::{Located, judged};
use crate::fields::Fields;
use crate::finding::Finding;
use crate::first_deeds::FirstDeeds;
use crate::forms::Filled;
use crate::known_paths::KnownPaths;
use crate::outcome::Outcome;
use crate::own_lookups::OwnLookups;
use crate::requests::leads_elsewhere;
use crate::trail::Trail;
use client_log::Visit;
use page_tree::{NoMemory, Page, Text};
use std::alloc::Global;
use upload_reader::Event;

/// Whether the request of that number goes to another address by the visit's outcome than it did on the page that the visit was made on (but for the
/// values of fresh names, where events find their places by their elements). It doesn't where
/// either of both is missing. `from` is the number as a visit gives it that the request opened; 0 is none.
pub fn moved(
    alloc: Global,
    finding: &Finding,
    visit: &Visit,
    outcome: &Outcome,
    from: u64,
) -> Result<bool, NoMemory>
    ensures { IfOk result (λ answer. answer ≡ is_moved finding.now visit.now outcome.now from) }
{
    if from == 0 {
        return Ok(false);
    }
    let Some(now) = address_now(alloc, outcome, from)? else {
        return Ok(false);
    };
    let events = visit.events.as_slice();
    let Some(k) = event_numbered(events, from) else {
        return Ok(false);
    };
    let mut own = OwnLookups::new(alloc, &visit.page, names_of(finding));
    let fields = fields_behind(alloc, &visit.page, events, k, &mut own.paths)?;
    let mut compared = Comparisons::new(alloc);
    let now = now.as_str();
    goes_elsewhere(
        alloc,
        finding,
        visit,
        &fields,
        k,
        now,
        &mut compared,
        &mut own,
    )
}

/// The names that are fresh, if events find their places by their elements.
pub(crate) fn names_of(finding: &Finding) -> &[Text]
    ensures { result.now ≡ unwrap_or finding.now [] }
{
    match finding.names() {
        None => &[],
        Some(fresh) => fresh.as_slice(),
    }
}

// ---- what the replay asks for

pub(crate) fn trail_of(outcome: &Outcome) -> Option<&Trail>
    ensures { requests_of outcome.now ≡ option_map_or
        (λ t. requests_on t.now.address t.now.page t.now.deeds.items) result [] }
{
    match outcome {
        Outcome::Untouched => None,
        Outcome::Done { requests } => requests.trail(),
        Outcome::Conflict { requests, .. } => requests.trail(),
    }
}

fn address_now(alloc: Global, outcome: &Outcome, number: u64) -> Result<Option<Text>, NoMemory>
    requires { number ≢ 0 }
    ensures { IfOk result (λ address. address ≡ address_now outcome.now number) }
{
    let Some(trail) = trail_of(outcome) else {
        return Ok(None);
    };
    let mut firsts = FirstDeeds::new();
    let mut board = Board::new(alloc, trail.page.node_count(), &[])?;
    board.begin(trail);
    address_asked(alloc, trail, &mut firsts, &mut board, number)
}

/// Where the first request with that number goes.
pub(crate) fn address_asked<'t>(
    alloc: Global,
    trail: &'t Trail,
    firsts: &mut FirstDeeds,
    board: &mut Board<'t>,
    number: u64,
) -> Result<Option<Text>, NoMemory>
    requires firsts { FindsFirst trail.now firsts.old }
    requires on { IsOn trail.now.page trail.now.deeds.items board.old }
    ensures firsts { OnOk result (FindsFirst trail.now firsts.new) }
    ensures on { OnOk result (IsOn trail.now.page trail.now.deeds.items board.new) }
    ensures address { IfOk result (λ address. address ≡ option_map (λ r. r.address) (asked_as trail.now number)) }
{
    let Some(place) = firsts.place_of(alloc, trail, number)? else {
        return Ok(None);
    };
    board.go_to(trail, place);
    match board.told(trail, place) {
        Some(told) => Ok(Some(told.address(alloc)?)),
        None => Ok(None),
    }
}

// ---- what the visit asked for

// Where the first event stands that made the request of that number.
fn event_numbered(events: &[Event], number: u64) -> Option<usize>
    ensures place { result ≡ event_numbered events.now number }
    ensures within { IfSome result (λ k. k < length events.now) }
{
    events.iter().position(|event| event.request() == number)
}

/// Whether the event with k events before it made a request of another address, by the fields as these left them. Only the addresses count: what is sent under
/// post isn't looked at.
pub(crate) fn goes_elsewhere<'v>(
    alloc: Global,
    finding: &Finding,
    visit: &'v Visit,
    fields: &Fields<'_>,
    k: usize,
    now: &str,
    compared: &mut Comparisons,
    own: &mut OwnLookups<'v>,
) -> Result<bool, NoMemory>
    requires there { k < length visit.now.events }
    requires fields { Keeps (by_path visit.now.page) fields.now visit.now.page (take k visit.now.events) }
    requires known { KnowsTexts finding.now compared.old }
    requires own { KnowsOwn (unwrap_or finding.now []) visit.now.page own.old }
    ensures answer { IfOk result (λ answer. answer ≡ are_apart finding.now (own_request visit.now k) (Some now.now)) }
    ensures known { OnOk result (KnowsTexts finding.now compared.new) }
    ensures own { OnOk result (KnowsOwn (unwrap_or finding.now []) visit.now.page own.new) }
{
    let page = &visit.page;
    let event = &visit.events.as_slice()[k];
    let Some(target) = own.paths.target_of(page, event)? else {
        return Ok(false);
    };
    let button = own.paths.button_of(page, event)?;
    let located = Located::At { target, button };
    let (target, button) = match judged(page, page, event, located, &own.paths)? {
        Located::Bad(_kind) => return Ok(false),
        Located::Idle => return Ok(false),
        Located::At { target, button } => (target, button),
    };
    let filled = Filled {
        page,
        fields,
        button,
    };
    leads_elsewhere(
        alloc,
        visit.address.as_str(),
        &filled,
        event,
        target,
        finding,
        now,
        compared,
        &mut own.forms,
    )
}

/// The fields as the first so many events left them.
pub(crate) fn fields_behind<'a>(
    alloc: Global,
    page: &Page,
    events: &'a [Event],
    count: usize,
    paths: &mut KnownPaths<'a>,
) -> Result<Fields<'a>, NoMemory>
    requires count { count < length events.now }
    requires known { KnowsPaths page.now paths.old.paths.items }
    ensures fields { IfOk result (λ fields. Keeps (by_path page.now) fields page.now (take count events.now)) }
    ensures known { OnOk result (KnowsPaths page.now paths.new.paths.items) }
{
    let mut fields = Fields::new(alloc, page.node_count())?;
    for k in 0..count {
        note(page, &events[k], &mut fields, paths)?;
    }
    Ok(fields)
}

/// Takes in one event more, if its path selects one node.
pub(crate) fn note<'a>(
    page: &Page,
    event: &'a Event,
    fields: &mut Fields<'a>,
    paths: &mut KnownPaths<'a>,
) -> Result<(), NoMemory>
    requires { KnowsPaths page.now paths.old.paths.items }
    ensures takes { OnOk result (TakesIn (by_path page.now) page.now event.now fields.old fields.new) }
    ensures known { OnOk result (KnowsPaths page.now paths.new.paths.items) }
{
    let target = paths.target_of(page, event)?;
    note_at(page, event, target, fields);
    Ok(())
}

/// The same at its target, which is known.
pub(crate) fn note_at<'a>(
    page: &Page,
    event: &'a Event,
    target: Option<u32>,
    fields: &mut Fields<'a>,
)
    requires { IsTargetOf page.now event.now target }
    ensures { TakesIn (by_path page.now) page.now event.now fields.old fields.new }
{
    match target {
        Some(target) => fields.note(page, event, target),
        None => {}
    }
}
