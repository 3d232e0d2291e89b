//! The visits that a cancel takes along.
ghost use Rattle.std.specs.Prelude.{◌≡◌, ◌<◌, ◌++◌, [], ◌∷◌, length, slice_get, slice_index_or, false, Some, if◌then◌else◌, IfOk, IfSome, OnOk};
ghost use Rattle.std.specs.Option.{option_map_or};
ghost use Rattle.conflict_desk.specs.Below.{is_below_visit, AreThePassing};
ghost use Rattle.conflict_desk.specs.inside.Along.{goes_at};
ghost use Rattle.conflict_desk.specs.inside.Links.{AreLinks};
ghost use Rattle.conflict_desk.specs.inside.Settling.{Tell};
ghost use Rattle.conflict_desk.specs.declared.docket.Case.{Case as OneCase};

use crate::docket::Case;
use crate::links::Link;
use page_tree::NoMemory;
use std::alloc::Global;

/// The places of the cases that have that visit on their chain of parents. It looks at each case twice.
pub(crate) fn places_below(
    alloc: Global,
    cases: &[Case],
    links: &[Link],
    visit: u64,
) -> Result<Vec<usize>, NoMemory>
    requires links { AreLinks cases.now links.now }
    requires count { length links.now ≡ length cases.now }
    ensures { IfOk result (λ places. AreThePassing (is_below_visit cases.now visit) cases.now places.items) }
{
    let mut marks = Vec::from_elem(alloc, false, cases.len())?;
    mark_along(cases, links, visit, marks.as_mut_slice());
    marked_places(alloc, cases, visit, marks.as_slice())
}

// Marks that visit and those that have it on their chain of parents.
fn mark_along(cases: &[Case], links: &[Link], visit: u64, marks: &mut [bool])
    requires links { AreLinks cases.now links.now }
    requires count { length links.now ≡ length cases.now }
    requires marks_count { length marks.old ≡ length cases.now }
    ensures { Tell (goes_at cases.now visit) (length cases.now) marks.new }
{
    for place in 0..cases.len() {
        marks[place] = goes_along(cases, links, visit, marks, place);
    }
}

// Whether the case at that place goes with that visit, where those before it are marked.
fn goes_along(cases: &[Case], links: &[Link], visit: u64, marks: &[bool], place: usize) -> bool
    requires links { AreLinks cases.now links.now }
    requires count { length links.now ≡ length cases.now }
    requires marks_count { length marks.now ≡ length cases.now }
    requires place { place < length cases.now }
    ensures { Tell (goes_at cases.now visit) place marks.now → result ≡ goes_at cases.now visit place }
{
    cases[place].visit == visit || is_marked(marks, links[place].parent)
}

fn is_marked(marks: &[bool], place: Option<usize>) -> bool
    requires { IfSome place (λ place. place < length marks.now) }
    ensures { result ≡ option_map_or (λ place. slice_index_or marks.now place false) place false }
{
    match place {
        Some(place) => marks[place],
        None => false,
    }
}

// The places of those that are marked but for that visit.
fn marked_places(
    alloc: Global,
    cases: &[Case],
    visit: u64,
    marks: &[bool],
) -> Result<Vec<usize>, NoMemory>
    requires count { length marks.now ≡ length cases.now }
    requires told { Tell (goes_at cases.now visit) (length cases.now) marks.now }
    ensures { IfOk result (λ places. AreThePassing (is_below_visit cases.now visit) cases.now places.items) }
{
    let mut places = Vec::new(alloc);
    for place in 0..cases.len() {
        let is_wanted = is_below(cases, visit, marks, place);
        push_where(&mut places, place, is_wanted)?;
    }
    Ok(places)
}

fn is_below(cases: &[Case], visit: u64, marks: &[bool], place: usize) -> bool
    requires count { length marks.now ≡ length cases.now }
    requires told { Tell (goes_at cases.now visit) (length cases.now) marks.now }
    requires place { place < length cases.now }
    ensures { (case : OneCase) → slice_get cases.now place ≡ Some case → result ≡ is_below_visit cases.now visit case }
{
    cases[place].visit != visit && marks[place]
}

fn push_where(places: &mut Vec<usize>, place: usize, is_wanted: bool) -> Result<(), NoMemory>
    ensures { OnOk result (places.new.items ≡ places.old.items ++ (if is_wanted then place ∷ [] else [])) }
{
    if is_wanted {
        places.push(place)?;
    }
    Ok(())
}
