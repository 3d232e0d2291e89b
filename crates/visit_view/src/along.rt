//! What a cancel takes along, by name.
ghost use Rattle.std.specs.Prelude.{◌≡◌, ◌++◌, take, IfOk, OnOk};
ghost use Rattle.std.specs.List.{flat_map};
ghost use Rattle.conflict_desk.specs.Below.{is_below_visit, AreThePassing};
ghost use Rattle.visit_view.specs.Deciding.{address_of, along_part, below_of, more_along, named, one_at};
ghost use Rattle.visit_view.specs.Visits.{AreVisitsInOrder};

use crate::found_visit::FoundVisit;
use crate::numbered::visit_of;
use crate::words::{counted_visits, number, state_word};
use client_log::Visit;
use page_tree::NoMemory;
use review_pieces::pieces::{add_along, add_along_more, add_along_none, add_along_one};
use std::alloc::Global;

/// How many are named.
const MOST_NAMED: usize = 100;

/// Adds what a cancel of the visit takes along, which stands at these places: the first by name, and how many more.
pub(crate) fn add_along_part(
    alloc: Global,
    out: &mut Vec<u8>,
    found: &FoundVisit<'_>,
    places: &[usize],
) -> Result<(), NoMemory>
    requires { AreThePassing (is_below_visit found.now.docket.now.cases found.now.number)
        found.now.docket.now.cases places.now }
    ensures { OnOk result (out.new.items ≡ out.old.items ++ along_part found.now.client.now found.now.visits.now
        found.now.docket.now (below_of found.now.docket.now found.now.number)) }
{
    if places.is_empty() {
        return add_along_none(out);
    }
    let items = named(alloc, found, places)?;
    let count = counted_visits(alloc, places.len())?;
    add_along(out, count.as_str(), items.as_slice())
}

// The first by name, and how many more.
fn named(alloc: Global, found: &FoundVisit<'_>, places: &[usize]) -> Result<Vec<u8>, NoMemory>
    requires { AreThePassing (is_below_visit found.now.docket.now.cases found.now.number)
        found.now.docket.now.cases places.now }
    ensures { IfOk result (λ items. items.items ≡ named found.now.client.now found.now.visits.now found.now.docket.now
        (below_of found.now.docket.now found.now.number)) }
{
    let mut items = Vec::new(alloc);
    add_named(alloc, &mut items, found, first_of(places))?;
    add_more(alloc, &mut items, found.client.text(), places.len())?;
    Ok(items)
}

fn first_of(places: &[usize]) -> &[usize]
    ensures { result.now ≡ take 100 places.now }
{
    if places.len() <= MOST_NAMED {
        return places;
    }
    let (first, _rest) = places.split_at(MOST_NAMED);
    first
}

// How many of so many aren't named.
fn add_more(alloc: Global, out: &mut Vec<u8>, client: &str, count: usize) -> Result<(), NoMemory>
    ensures { OnOk result (out.new.items ≡ out.old.items ++ more_along client.now count) }
{
    if count <= MOST_NAMED {
        return Ok(());
    }
    let more = number(alloc, (count - MOST_NAMED) as u64)?;
    add_along_more(out, client, more.as_str())
}

fn add_named(
    alloc: Global,
    out: &mut Vec<u8>,
    found: &FoundVisit<'_>,
    places: &[usize],
) -> Result<(), NoMemory>
    ensures { OnOk result (out.new.items ≡ out.old.items
        ++ flat_map (one_at found.now.client.now found.now.visits.now found.now.docket.now) places.now) }
{
    for place in places {
        add_one(alloc, out, found, *place)?;
    }
    Ok(())
}

fn add_one(
    alloc: Global,
    out: &mut Vec<u8>,
    found: &FoundVisit<'_>,
    place: usize,
) -> Result<(), NoMemory>
    ensures { OnOk result (out.new.items ≡ out.old.items
        ++ one_at found.now.client.now found.now.visits.now found.now.docket.now place) }
{
    let cases = found.docket.cases();
    if place >= cases.len() {
        return Ok(());
    }
    let visit = cases[place].visit;
    let standing = found.docket.standing_at(place);
    let text = number(alloc, visit)?;
    add_along_one(
        out,
        found.client.text(),
        text.as_str(),
        state_word(standing),
        address_of(found.visits, visit),
    )
}

/// The address of that visit, where the log has it.
pub(crate) fn address_of(visits: &[Visit], number: u64) -> &str
    requires { AreVisitsInOrder visits.now }
    ensures { result.now ≡ address_of visits.now number }
{
    match visit_of(visits, number) {
        Some(visit) => visit.address.as_str(),
        None => "",
    }
}
