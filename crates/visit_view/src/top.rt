//! What stands on top of a visit's page.
ghost use Rattle.std.specs.Prelude.{◌≡◌, Some, slice_get, OnOk};
ghost use Rattle.conflict_desk.specs.Desk.{book_of};
ghost use Rattle.visit_view.specs.Top.{AddsTop};

use crate::along::address_of;
use crate::deciding::add_decide_part;
use crate::found_visit::FoundVisit;
use crate::opener::opener_of;
use crate::seen::conflict_of;
use crate::words::{number, state_word};
use conflict_desk::Desk;
use conflict_words::{meaning_of, todo_of};
use made_html::Html;
use page_tree::NoMemory;
use review_pieces::pieces;
use std::alloc::Global;
use visit_replay::{Outcome, conflict_code};

/// Adds which visit it is, how it stands, why it is a conflict, and the forms, with that token.
pub fn add_top(
    alloc: Global,
    out: &mut Vec<u8>,
    desk: &Desk,
    found: &FoundVisit<'_>,
    token: &str,
) -> Result<(), NoMemory>
    requires book { book_of found.now.client.now desk.now ≡ Some found.now.docket.now }
    requires at { slice_get found.now.docket.now.cases found.now.place ≡ Some found.now.case.now }
    ensures { OnOk result (AddsTop token.now found.now out.old.items out.new.items) }
{
    let opener = opener_of(alloc, found)?;
    let conflict = conflict_part(alloc, &found.case.outcome)?;
    let mut decide = Vec::new(alloc);
    add_decide_part(alloc, &mut decide, desk, found, token)?;
    let visit = number(alloc, found.number)?;
    let standing = found.docket.standing_at(found.place);
    pieces::add_visit(
        out,
        found.client.text(),
        visit.as_str(),
        state_word(standing),
        address_of(found.visits, found.number),
        opener.as_slice(),
        &[],
        conflict.as_slice(),
        decide.as_slice(),
    )
}

fn conflict_part(alloc: Global, outcome: &Outcome) -> Result<Html, NoMemory> {
    let mut part = Html::new(alloc);
    if let Some((kind, at)) = conflict_of(outcome) {
        let at = number(alloc, at)?;
        part.add_conflict(
            conflict_code(kind),
            at.as_str(),
            meaning_of(kind),
            todo_of(kind),
        )?;
    }
    Ok(part)
}
