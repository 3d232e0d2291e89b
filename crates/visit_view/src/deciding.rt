//! The two forms that a decision is sent by.
ghost use Rattle.std.specs.Prelude.{◌≡◌, ◌++◌, Some, slice_get, string_bytes, IfOk, OnOk};
ghost use Rattle.conflict_desk.specs.Below.{is_below_visit, AreThePassing};
ghost use Rattle.conflict_desk.specs.Book.{front_visit};
ghost use Rattle.conflict_desk.specs.Desk.{book_of};
ghost use Rattle.visit_view.specs.Deciding.{decide_by, decide_part, forms, is_waiting, keeps_words, voids_words, with_words};

use crate::along::add_along_part;
use crate::found_visit::FoundVisit;
use crate::seen::at_of;
use crate::words::{counted_visits, number};
use conflict_desk::{Desk, Standing};
use page_tree::NoMemory;
use review_pieces::pieces::{add_decide, add_not_front};
use std::alloc::Global;

/// Adds the forms where the visit is the first of its client that waits, else where that one is, if the visit waits.
pub(crate) fn add_decide_part(
    alloc: Global,
    out: &mut Vec<u8>,
    desk: &Desk,
    found: &FoundVisit<'_>,
    token: &str,
) -> Result<(), NoMemory>
    requires book { book_of found.now.client.now desk.now ≡ Some found.now.docket.now }
    requires at { slice_get found.now.docket.now.cases found.now.place ≡ Some found.now.case.now }
    ensures { OnOk result (out.new.items ≡ out.old.items ++ decide_part token.now found.now.client.now
        found.now.visits.now found.now.docket.now found.now.number found.now.case.now) }
{
    match front_of(desk, found) {
        None => Ok(()),
        Some(front) => add_by_front(alloc, out, found, front, token),
    }
}

fn front_of(desk: &Desk, found: &FoundVisit<'_>) -> Option<u64>
    requires { book_of found.now.client.now desk.now ≡ Some found.now.docket.now }
    ensures { result ≡ front_visit found.now.docket.now }
{
    match desk.front(found.client) {
        Ok(front) => front,
        Err(_) => None,
    }
}

// The same by the front.
fn add_by_front(
    alloc: Global,
    out: &mut Vec<u8>,
    found: &FoundVisit<'_>,
    front: u64,
    token: &str,
) -> Result<(), NoMemory>
    requires { slice_get found.now.docket.now.cases found.now.place ≡ Some found.now.case.now }
    ensures { OnOk result (out.new.items ≡ out.old.items ++ decide_by token.now found.now.client.now
        found.now.visits.now found.now.docket.now found.now.number found.now.case.now front) }
{
    if front == found.number {
        return add_forms(alloc, out, found, token);
    }
    if !is_waiting(found.docket.standing_at(found.place)) {
        return Ok(());
    }
    let text = number(alloc, front)?;
    add_not_front(out, text.as_str(), found.client.text())
}

fn is_waiting(standing: Standing) -> bool
    ensures { result ≡ is_waiting standing }
{
    match standing {
        Standing::Untouched => false,
        Standing::Done => false,
        Standing::Waiting => true,
        Standing::Kept => false,
        Standing::Cancelled => false,
    }
}

fn add_forms(
    alloc: Global,
    out: &mut Vec<u8>,
    found: &FoundVisit<'_>,
    token: &str,
) -> Result<(), NoMemory>
    ensures { OnOk result (out.new.items ≡ out.old.items ++ forms token.now found.now.client.now
        found.now.visits.now found.now.docket.now found.now.number found.now.case.now) }
{
    let below = found.docket.visits_below(alloc, found.number)?;
    add_forms_along(alloc, out, found, token, below.as_slice())
}

// The same where those that go along with a cancel stand at these places.
fn add_forms_along(
    alloc: Global,
    out: &mut Vec<u8>,
    found: &FoundVisit<'_>,
    token: &str,
    places: &[usize],
) -> Result<(), NoMemory>
    requires { AreThePassing (is_below_visit found.now.docket.now.cases found.now.number)
        found.now.docket.now.cases places.now }
    ensures { OnOk result (out.new.items ≡ out.old.items ++ forms token.now found.now.client.now
        found.now.visits.now found.now.docket.now found.now.number found.now.case.now) }
{
    let mut along = Vec::new(alloc);
    add_along_part(alloc, &mut along, found, places)?;
    let at = at_of(&found.case.outcome);
    let visit = number(alloc, found.number)?;
    let with = with_words(alloc, places.len())?;
    add_decide(
        out,
        keeps_words(at),
        found.client.text(),
        visit.as_str(),
        token,
        voids_words(at),
        with.as_str(),
        along.as_slice(),
    )
}

fn keeps_words(at: u64) -> &'static str
    ensures { result.now ≡ keeps_words at }
{
    if at == 0 {
        "no request"
    } else {
        "its requests"
    }
}

fn voids_words(at: u64) -> &'static str
    ensures { result.now ≡ voids_words at }
{
    if at == 0 {
        "its load"
    } else {
        "those before its conflict"
    }
}

// What the button says of what goes along.
fn with_words(alloc: Global, count: usize) -> Result<String, NoMemory>
    ensures { IfOk result (λ text. string_bytes text ≡ with_words count) }
{
    if count == 0 {
        return String::from_str(alloc, "");
    }
    let visits = counted_visits(alloc, count)?;
    format!(in alloc; ", and {} with it", visits.as_str())
}
