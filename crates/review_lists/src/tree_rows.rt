//! Rows of the tree of a client's visits.
ghost use Rattle.std.specs.Prelude.{◌≡◌, ◌++◌, ◌<◌, [], length, flat_map, nat_eq, if◌then◌else◌, IfOk, OnOk, slice_get, slice_index_or, Some, map, string_bytes};
ghost use Rattle.std.specs.List.Sorted.{IsStrictlyIncreasing};
ghost use Rattle.std.specs.Option.{option_eq};
ghost use Rattle.conflict_desk.specs.declared.docket.Case.{Case as OneCase};
ghost use Rattle.conflict_desk.specs.Book.{front_visit};
ghost use Rattle.review_lists.specs.ClientView.{opened_text, opened_words, level_marks, visit_branch, branch_at};

use crate::addresses::visit_address;
use crate::words::{outcome_text, standing_word};
use client_log::Visit;
use conflict_desk::{Case, OpenDocket};
use itoa::Buffer;
use page_tree::NoMemory;
use review_pieces::pieces;
use std::alloc::Global;

/// How many rows a page has.
pub(crate) const VISITS_A_PAGE: usize = 200;

/// How many levels are drawn at most.
const LEVELS_DRAWN: usize = 12;

// What marks the row of the front.
const HERE: &str = " class=\"here\"";

/// What a row tells of its client.
#[derive(Drop)]
pub(crate) struct TreeOf<'t> {
    pub(crate) client: &'t str,
    pub(crate) docket: &'t OpenDocket,
    pub(crate) visits: &'t [Visit],
    pub(crate) front: Option<u64>,
}

/// Adds the rows of the visits at these places.
pub(crate) fn add_branches(
    alloc: Global,
    out: &mut Vec<u8>,
    tree: &TreeOf<'_>,
    levels: &[usize],
    places: &[usize],
) -> Result<(), NoMemory>
    requires ascend { IsStrictlyIncreasing (map (λ visit. visit.number) tree.now.visits.now) }
    requires front { tree.now.front ≡ front_visit tree.now.docket.now }
    ensures { OnOk result (out.new.items ≡ out.old.items
        ++ flat_map (branch_at tree.now.client.now tree.now.docket.now tree.now.visits.now levels.now) places.now) }
{
    for place in places {
        add_branch_at(alloc, out, tree, levels, *place)?;
    }
    Ok(())
}

#[tactic(auto, unfolding(crate::specs::ClientView::branch_at))]
fn add_branch_at(
    alloc: Global,
    out: &mut Vec<u8>,
    tree: &TreeOf<'_>,
    levels: &[usize],
    place: usize,
) -> Result<(), NoMemory>
    requires ascend { IsStrictlyIncreasing (map (λ visit. visit.number) tree.now.visits.now) }
    requires front { tree.now.front ≡ front_visit tree.now.docket.now }
    ensures { OnOk result (out.new.items ≡ out.old.items
        ++ branch_at tree.now.client.now tree.now.docket.now tree.now.visits.now levels.now place) }
{
    match tree.docket.cases().get(place) {
        None => Ok(()),
        Some(case) => add_branch(alloc, out, tree, level_at(levels, place), place, case),
    }
}

fn level_at(levels: &[usize], place: usize) -> usize
    ensures { result ≡ slice_index_or levels.now place 0 }
{
    match levels.get(place) {
        None => 0,
        Some(level) => *level,
    }
}

// The row of the case at that place.
#[tactic(auto, unfolding(crate::specs::ClientView::visit_branch))]
fn add_branch(
    alloc: Global,
    out: &mut Vec<u8>,
    tree: &TreeOf<'_>,
    level: usize,
    place: usize,
    case: &Case,
) -> Result<(), NoMemory>
    requires there { slice_get tree.now.docket.now.cases place ≡ Some case.now }
    requires ascend { IsStrictlyIncreasing (map (λ visit. visit.number) tree.now.visits.now) }
    requires front { tree.now.front ≡ front_visit tree.now.docket.now }
    ensures { OnOk result (out.new.items ≡ out.old.items
        ++ visit_branch tree.now.client.now tree.now.docket.now tree.now.visits.now level case.now) }
{
    let mut number = Buffer::new();
    let conflict = outcome_text(alloc, &case.outcome)?;
    let opened = opened_text(alloc, tree.docket, place)?;
    let mut levels = Vec::new(alloc);
    add_levels(&mut levels, level)?;
    pieces::add_branch(
        out,
        tree.client,
        number.format(case.visit),
        standing_word(tree.docket.standing_at(place)),
        visit_address(tree.visits, case.visit),
        conflict.as_str(),
        opened.as_str(),
        front_mark(tree.front, case.visit).as_bytes(),
        levels.as_slice(),
    )
}

// Which visit opened the one at that place, where the docket has that.
fn opened_text(alloc: Global, docket: &OpenDocket, place: usize) -> Result<String, NoMemory>
    requires { place < length docket.now.cases }
    ensures { IfOk result (λ text. (case : OneCase) → slice_get docket.now.cases place ≡ Some case
        → string_bytes text ≡ opened_text docket.now.cases case) }
{
    match docket.parent_at(place) {
        None => Ok(String::new(alloc)),
        Some(parent) => opened_by(alloc, docket.cases(), parent),
    }
}

// By the one at that place.
fn opened_by(alloc: Global, cases: &[Case], parent: usize) -> Result<String, NoMemory>
    ensures { IfOk result (λ text. string_bytes text ≡ opened_words (slice_get cases.now parent)) }
{
    match cases.get(parent) {
        None => Ok(String::new(alloc)),
        Some(parent) => {
            let visit = parent.visit;
            format!(in alloc; "opened by visit {visit}")
        }
    }
}

#[tactic(auto, using(crate::proofs::Levels::one_drawn), unfolding(crate::specs::ClientView::drawn_levels))]
fn add_levels(out: &mut Vec<u8>, level: usize) -> Result<(), NoMemory>
    ensures { OnOk result (out.new.items ≡ out.old.items ++ level_marks level) }
{
    let drawn = level.min(LEVELS_DRAWN);
    let mut left = drawn;
    while left > 0 {
        pieces::add_level(out)?;
        left -= 1;
    }
    Ok(())
}

fn front_mark(front: Option<u64>, visit: u64) -> &'static str
    ensures { result.now ≡ (if option_eq nat_eq front (Some visit) then HERE.now else []) }
{
    if front == Some(visit) { HERE } else { "" }
}
