//! A docket on the desk.
ghost use Rattle.std.specs.Prelude.{◌≡◌, ◌≤◌, ◌<◌, length, slice_get, Some, None, option_map, option_and_then, IfOk, IfErr, OnOk};
ghost use Rattle.conflict_desk.specs.Docket.{AreAscending, case_of_visit, parent_of};
ghost use Rattle.conflict_desk.specs.Below.{is_below_visit, AreThePassing, CancelTakesAlong};
ghost use Rattle.conflict_desk.specs.Book.{new_book, at_visit, is_cancel, is_cancelled, front_visit, with_decision, standing_by, standing_in, standing_requests};
ghost use Rattle.conflict_desk.specs.declared.docket.Case.{Case as OneCase};
ghost use Rattle.conflict_desk.specs.Desk.{refusal_of};
ghost use Rattle.conflict_desk.specs.inside.Links.{AreLinks};
ghost use Rattle.conflict_desk.specs.inside.Settling.{Settles};

use crate::below::places_below;
use crate::decided::{Choice, Decided, Standing};
use crate::docket::{Case, Cases, place_of};
use crate::fault::DeskFault;
use crate::links::{Link, is_gone, links_of};
use page_tree::NoMemory;
use std::alloc::Global;
use std::marker::Model;
use visit_replay::{Outcome, Requests};

/// A client's docket with the decisions made on it. Contracts see it as a book. Its cases stand in the order of their visits' numbers, and by a case's
/// place among them it tells how it stands.
#[derive(Drop)]
pub struct OpenDocket {
    cases: Cases,
    // with room for a decision on each case
    decisions: Vec<Decided>,
    links: Vec<Link>,
    // of each case before `next`, whether it is cancelled
    gone: Vec<bool>,
    // where the front stands, or the number of cases
    next: usize,
    // those of a visit that has none
    none: Requests,
}

impl Model for OpenDocket {
    ghost use Rattle.conflict_desk.specs.Book.{Book};

    ghost Value = { Book };

    ghost use Rattle.conflict_desk.specs.inside.Kept.{book_in, IsOpenDocket};

    ghost view = { book_in };

    ghost invariant = { IsOpenDocket };
}

impl OpenDocket {
    /// With nothing decided yet.
    pub(crate) fn open(alloc: Global, cases: Cases) -> Result<OpenDocket, NoMemory>
        requires { AreAscending cases }
        ensures { IfOk result (λ book. book ≡ new_book cases) }
    {
        let count = cases.as_slice().len();
        let links = links_of(alloc, cases.as_slice())?;
        let decisions = Vec::with_capacity(alloc, count)?;
        let mut gone = Vec::from_elem(alloc, false, count)?;
        let next = settle(cases.as_slice(), links.as_slice(), gone.as_mut_slice(), 0);
        Ok(OpenDocket {
            cases,
            decisions,
            links,
            gone,
            next,
            none: Requests::none(),
        })
    }

    /// The cases, as they were opened.
    pub fn cases(&self) -> &[Case]
        ensures cases { result.now ≡ self.now.cases }
        ensures ascend { AreAscending result.now }
    {
        self.cases.as_slice()
    }

    /// The least visit that waits.
    pub(crate) fn front(&self) -> Option<u64>
        ensures { result ≡ front_visit self.now }
    {
        let cases = self.cases.as_slice();
        if self.next < cases.len() {
            Some(cases[self.next].visit)
        } else {
            None
        }
    }

    /// Decides the front. C2 with the front for any other visit.
    pub(crate) fn decide(&mut self, visit: u64, choice: Choice) -> Result<(), DeskFault>
        ensures ok { OnOk result (refusal_of visit self.old ≡ None) }
        ensures decided { OnOk result (self.new ≡ with_decision visit choice self.old) }
        ensures refused { IfErr result (λ fault. (refusal_of visit self.old ≡ Some fault) × (self.new ≡ self.old)) }
    {
        let next = self.next;
        if next >= self.cases.as_slice().len() {
            return Err(DeskFault::NotFront(None));
        }
        let front = self.cases.as_slice()[next].visit;
        if front != visit {
            return Err(DeskFault::NotFront(Some(front)));
        }
        self.decisions.push_reserved(Decided { visit, choice });
        self.gone[next] = is_cancel(choice);
        self.next = settle(
            self.cases.as_slice(),
            self.links.as_slice(),
            self.gone.as_mut_slice(),
            next + 1,
        );
        Ok(())
    }

    /// How the visit of that number stands.
    pub(crate) fn standing(&self, visit: u64) -> Option<Standing>
        ensures { result ≡ at_visit standing_in self.now visit }
    {
        let place = place_of(self.cases.as_slice(), visit)?;
        Some(self.standing_at(place))
    }

    /// The case of the visit of that number.
    pub(crate) fn case(&self, visit: u64) -> Option<&Case>
        ensures { option_map (λ case. case.now) result ≡ case_of_visit self.now.cases visit }
    {
        let place = place_of(self.cases.as_slice(), visit)?;
        Some(&self.cases.as_slice()[place])
    }

    /// The requests of the visit of that number: none where it is cancelled.
    pub(crate) fn requests(&self, visit: u64) -> Option<&Requests>
        ensures { option_map (λ requests. requests.now) result ≡ at_visit standing_requests self.now visit }
    {
        let place = place_of(self.cases.as_slice(), visit)?;
        Some(self.requests_at(place))
    }

    /// Where the visit stands that opened the one at that place, if the docket has it.
    pub fn parent_at(&self, place: usize) -> Option<usize>
        requires { place < length self.now.cases }
        ensures { (case : OneCase) → slice_get self.now.cases place ≡ Some case
            → option_and_then (slice_get self.now.cases) result ≡ parent_of self.now.cases case }
    {
        self.links.as_slice()[place].parent
    }

    /// The places of the cases that a cancel of that visit takes along: those that have it on their chain of parents.
    pub fn visits_below(&self, alloc: Global, visit: u64) -> Result<Vec<usize>, NoMemory>
        ensures places { IfOk result (λ places.
            AreThePassing (is_below_visit self.now.cases visit) self.now.cases places.items) }
        ensures law { CancelTakesAlong self.now visit }
    {
        places_below(alloc, self.cases.as_slice(), self.links.as_slice(), visit)
    }

    fn is_cancelled_at(&self, place: usize) -> bool
        requires { place < length self.now.cases }
        ensures { (case : OneCase) → slice_get self.now.cases place ≡ Some case → result ≡ is_cancelled self.now case }
    {
        is_gone(
            self.links.as_slice(),
            self.gone.as_slice(),
            self.next,
            place,
        )
    }

    /// How the visit of the case at that place stands.
    pub fn standing_at(&self, place: usize) -> Standing
        requires { place < length self.now.cases }
        ensures { (case : OneCase) → slice_get self.now.cases place ≡ Some case → result ≡ standing_in self.now case }
    {
        if self.is_cancelled_at(place) {
            return Standing::Cancelled;
        }
        standing_by(&self.cases.as_slice()[place].outcome, place < self.next)
    }

    /// The requests of the visit of the case at that place: none where it is cancelled.
    pub fn requests_at(&self, place: usize) -> &Requests
        requires { place < length self.now.cases }
        ensures { (case : OneCase) → slice_get self.now.cases place ≡ Some case → result.now ≡ standing_requests self.now case }
    {
        if self.is_cancelled_at(place) {
            return &self.none;
        }
        self.cases.as_slice()[place].requests(&self.none)
    }
}

// How a visit stands that isn't cancelled.
fn standing_by(outcome: &Outcome, decided: bool) -> Standing
    ensures { result ≡ standing_by outcome.now decided }
{
    match outcome {
        Outcome::Untouched => Standing::Untouched,
        Outcome::Done { .. } => Standing::Done,
        Outcome::Conflict { .. } => {
            if decided {
                Standing::Kept
            } else {
                Standing::Waiting
            }
        }
    }
}

fn is_cancel(choice: Choice) -> bool
    ensures { result ≡ is_cancel choice }
{
    match choice {
        Choice::Cancel => true,
        Choice::Keep => false,
    }
}

// Goes from there to the next conflict that isn't below a cancelled visit, or to the end, and marks the cancelled visits before it.
fn settle(cases: &[Case], links: &[Link], gone: &mut [bool], from: usize) -> usize
    requires links { AreLinks cases.now links.now }
    requires links_count { length links.now ≡ length cases.now }
    requires gone_count { length gone.old ≡ length cases.now }
    requires from { from ≤ length cases.now }
    ensures from { from ≤ result }
    ensures within { result ≤ length cases.now }
    ensures settled { Settles cases.now links.now gone.old from result gone.new }
{
    let mut place = from;
    while place < cases.len() {
        gone[place] = is_gone(links, gone, place, place);
        if !gone[place] && cases[place].is_conflict() {
            return place;
        }
        place += 1;
    }
    place
}
