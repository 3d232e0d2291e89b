//! Visits that are found by a part of their addresses or by their conflict's code.
ghost use Rattle.std.specs.Prelude.{◌≡◌, [], ◌∷◌, Some, slice_get, flat_map, map, IfOk, OnOk};
ghost use Rattle.std.specs.List.Sorted.{IsStrictlyIncreasing};
ghost use Rattle.review_state.specs.Finding.{has_code};
ghost use Rattle.review_lists.specs.SearchView.{is_found_visit, visit_find, visit_finds, finds_in, finds_of};
ghost use Rattle.review_lists.specs.inside.FoundPages.{AddsFinds};

use crate::addresses::{logged_visits, visit_address};
use crate::found_page::FoundPage;
use crate::sought::Sought;
use crate::words::{outcome_text, standing_word};
use byte_streams::Source;
use client_log::Visit;
use conflict_desk::{Case, Desk, OpenDocket};
use itoa::Buffer;
use lanes_in_turn::Gathered;
use page_tree::NoMemory;
use review_pieces::pieces;
use std::alloc::Global;
use visit_replay::{Outcome, conflict_code};
use warp_run::ClientSummary;

/// Those of all these clients.
pub(crate) fn find_all<R: Source>(
    alloc: Global,
    page: &mut FoundPage,
    sought: &Sought<'_>,
    logs: &Gathered<R>,
    desk: &Desk,
    clients: &[ClientSummary],
) -> Result<(), NoMemory>
    ensures { OnOk result (AddsFinds page.old page.new
        (flat_map (finds_of sought.now.text.now logs.now desk.now) clients.now)) }
{
    for client in clients {
        find_of(alloc, page, sought, logs, desk, client)?;
    }
    Ok(())
}

#[tactic(auto, unfolding(crate::specs::SearchView::finds_of))]
fn find_of<R: Source>(
    alloc: Global,
    page: &mut FoundPage,
    sought: &Sought<'_>,
    logs: &Gathered<R>,
    desk: &Desk,
    client: &ClientSummary,
) -> Result<(), NoMemory>
    ensures { OnOk result (AddsFinds page.old page.new (finds_of sought.now.text.now logs.now desk.now client.now)) }
{
    match desk.docket(&client.client) {
        None => Ok(()),
        Some(docket) => {
            let visits = logged_visits(logs, &client.client);
            find_in(alloc, page, sought, client.client.text(), visits, docket)
        }
    }
}

// Those of one client, in the order of their numbers.
fn find_in(
    alloc: Global,
    page: &mut FoundPage,
    sought: &Sought<'_>,
    client: &str,
    visits: &[Visit],
    docket: &OpenDocket,
) -> Result<(), NoMemory>
    requires { IsStrictlyIncreasing (map (λ visit. visit.number) visits.now) }
    ensures { OnOk result (AddsFinds page.old page.new (finds_in sought.now.text.now client.now visits.now docket.now)) }
{
    for (place, case) in docket.cases().iter().enumerate() {
        look_at(alloc, page, sought, client, visits, docket, place, case)?;
    }
    Ok(())
}

// The visit of the case at that place, where it is found.
#[tactic(auto, unfolding(crate::specs::SearchView::visit_finds))]
fn look_at(
    alloc: Global,
    page: &mut FoundPage,
    sought: &Sought<'_>,
    client: &str,
    visits: &[Visit],
    docket: &OpenDocket,
    place: usize,
    case: &Case,
) -> Result<(), NoMemory>
    requires there { slice_get docket.now.cases place ≡ Some case.now }
    requires ascend { IsStrictlyIncreasing (map (λ visit. visit.number) visits.now) }
    ensures { OnOk result (AddsFinds page.old page.new
        (visit_finds sought.now.text.now client.now docket.now visits.now case.now)) }
{
    if !is_found_visit(sought, visits, case) {
        return Ok(());
    }
    take_find(alloc, page, client, visits, docket, place, case)
}

// It is found.
fn take_find(
    alloc: Global,
    page: &mut FoundPage,
    client: &str,
    visits: &[Visit],
    docket: &OpenDocket,
    place: usize,
    case: &Case,
) -> Result<(), NoMemory>
    requires there { slice_get docket.now.cases place ≡ Some case.now }
    requires ascend { IsStrictlyIncreasing (map (λ visit. visit.number) visits.now) }
    ensures { OnOk result (AddsFinds page.old page.new
        (visit_find client.now docket.now visits.now case.now ∷ [])) }
{
    if !page.takes_next() {
        page.pass();
        return Ok(());
    }
    let row = visit_find(alloc, client, visits, docket, place, case)?;
    page.add(row.as_slice())
}

#[tactic(auto, unfolding(crate::specs::SearchView::is_found_visit))]
fn is_found_visit(sought: &Sought<'_>, visits: &[Visit], case: &Case) -> bool
    requires { IsStrictlyIncreasing (map (λ visit. visit.number) visits.now) }
    ensures { result ≡ is_found_visit sought.now.text.now visits.now case.now }
{
    has_code(sought.text, &case.outcome) || sought.is_in(visit_address(visits, case.visit))
}

fn has_code(code: &str, outcome: &Outcome) -> bool
    ensures { result ≡ has_code code.now outcome.now }
{
    match outcome {
        Outcome::Untouched => false,
        Outcome::Done { .. } => false,
        Outcome::Conflict { kind, .. } => conflict_code(*kind) == code,
    }
}

// Its row.
#[tactic(auto, unfolding(crate::specs::SearchView::visit_find))]
fn visit_find(
    alloc: Global,
    client: &str,
    visits: &[Visit],
    docket: &OpenDocket,
    place: usize,
    case: &Case,
) -> Result<Vec<u8>, NoMemory>
    requires there { slice_get docket.now.cases place ≡ Some case.now }
    requires ascend { IsStrictlyIncreasing (map (λ visit. visit.number) visits.now) }
    ensures { IfOk result (λ row. row.items ≡ visit_find client.now docket.now visits.now case.now) }
{
    let mut row = Vec::new(alloc);
    let mut number = Buffer::new();
    let conflict = outcome_text(alloc, &case.outcome)?;
    pieces::add_found(
        &mut row,
        client,
        number.format(case.visit),
        standing_word(docket.standing_at(place)),
        visit_address(visits, case.visit),
        conflict.as_str(),
    )?;
    Ok(row)
}
