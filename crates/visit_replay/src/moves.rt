//! Which requests of a visit go elsewhere now: those that later visits name, all of them at once.
ghost use Rattle.std.specs.Prelude.{ℕ, List, [], Option, unwrap_or, ◌≡◌, ◌≤◌, ◌<◌, true, length, take, IfOk, OnOk, IsSome};
ghost use Rattle.std.specs.BTreeMap.{get};
ghost use Rattle.std.specs.Ordering.{nat_cmp};
ghost use Rattle.upload_reader.specs.declared.message.Event.{Event};
ghost use Rattle.client_log.specs.declared.visit.Visit.{Visit};
ghost use Rattle.visit_replay.specs.Aim.{by_path};
ghost use Rattle.visit_replay.specs.Moved.{event_numbered, requests_of, is_moved};
ghost use Rattle.visit_replay.specs.declared.outcome.Outcome.{Outcome};
ghost use Rattle.visit_replay.specs.inside.Boards.{IsOn};
ghost use Rattle.visit_replay.specs.inside.Deeds.{requests_on};
ghost use Rattle.visit_replay.specs.inside.Differing.{KnowsOwn, KnowsTexts};
ghost use Rattle.visit_replay.specs.inside.FirstDeeds.{FindsFirst};
ghost use Rattle.visit_replay.specs.inside.KeptFields.{Keeps};
ghost use Rattle.visit_replay.specs.inside.Moves.{IsFresh, IsRight, MeetsOne, is_pending, answer_in};

use crate::board::Board;
use crate::comparisons::Comparisons;
use crate::fields::Fields;
use crate::finding::Finding;
use crate::first_deeds::FirstDeeds;
use crate::moving::{address_asked, goes_elsewhere, names_of, note, trail_of};
use crate::outcome::Outcome;
use crate::own_lookups::OwnLookups;
use crate::trail::Trail;
use client_log::Visit;
use page_tree::NoMemory;
use std::alloc::Global;
use std::collections::BTreeMap;
use upload_reader::Event;

/// The numbers of a visit's requests that are asked for, each with whether that goes elsewhere now, where it was found. Once all events up to the last of them
/// were looked at, one that wasn't found goes nowhere else.
#[derive(Drop)]
pub(crate) struct Asked {
    numbers: BTreeMap<u64, Option<bool>>,
    looked: bool,
}

impl Asked {
    /// No number.
    pub(crate) fn new(alloc: Global) -> Asked
        ensures { IsFresh result }
    {
        Asked {
            numbers: BTreeMap::new(alloc),
            looked: false,
        }
    }

    /// One number more.
    pub(crate) fn ask(&mut self, number: u64) -> Result<(), NoMemory>
        ensures right { OnOk result ((finding : Option (List (List ℕ))) (visit : Visit) (outcome : Outcome)
            → IsRight finding visit outcome self.old → IsRight finding visit outcome self.new) }
        ensures fresh { OnOk result (IsFresh self.old → IsFresh self.new) }
        ensures there { OnOk result (IsSome (get nat_cmp self.new.numbers number)) }
    {
        if self.numbers.contains_key(&number) {
            return Ok(());
        }
        self.looked = false;
        self.numbers.insert(number, None)?;
        Ok(())
    }

    /// Whether the request of that number goes elsewhere now. Where that wasn't asked before, the events are gone through for it.
    #[tactic(auto, using(crate::proofs::Looking::answer_is))]
    pub(crate) fn tell(
        &mut self,
        alloc: Global,
        finding: &Finding,
        visit: &Visit,
        outcome: &Outcome,
        number: u64,
    ) -> Result<bool, NoMemory>
        requires { IsRight finding.now visit.now outcome.now self.old }
        ensures right { OnOk result (IsRight finding.now visit.now outcome.now self.new) }
        ensures answer { IfOk result (λ answer. answer ≡ is_moved finding.now visit.now outcome.now number) }
    {
        let Some(trail) = trail_of(outcome) else {
            return Ok(false);
        };
        if number == 0 {
            return Ok(false);
        }
        self.ask(number)?;
        self.look(alloc, finding, visit, trail)?;
        Ok(self.answer(number))
    }

    fn answer(&self, number: u64) -> bool
        ensures { result ≡ answer_in (get nat_cmp self.now.numbers number) }
    {
        match self.numbers.get(&number).copied() {
            Some(Some(answer)) => answer,
            _ => false,
        }
    }

    // Finds all numbers that are asked for and weren't looked for, in one pass over the events up to the last of them.
    fn look(
        &mut self,
        alloc: Global,
        finding: &Finding,
        visit: &Visit,
        trail: &Trail,
    ) -> Result<(), NoMemory>
        ensures right { OnOk result ((outcome : Outcome)
            → requests_of outcome ≡ requests_on trail.now.address trail.now.page trail.now.deeds.items
            → IsRight finding.now visit.now outcome self.old → IsRight finding.now visit.now outcome self.new) }
        ensures looked { OnOk result (self.new.looked ≡ true) }
        ensures there { OnOk result ((number : ℕ) → IsSome (get nat_cmp self.old.numbers number)
            → IsSome (get nat_cmp self.new.numbers number)) }
    {
        if self.looked {
            return Ok(());
        }
        let mut firsts = FirstDeeds::new();
        let mut board = Board::new(alloc, trail.page.node_count(), &[])?;
        board.begin(trail);
        let mut fields = Fields::new(alloc, visit.page.node_count())?;
        let mut compared = Comparisons::new(alloc);
        let mut own = OwnLookups::new(alloc, &visit.page, names_of(finding));
        let events = visit.events.as_slice();
        for k in 0..last_asked(events, &self.numbers) {
            meet(
                alloc,
                finding,
                visit,
                k,
                &fields,
                trail,
                &mut firsts,
                &mut board,
                &mut compared,
                &mut own,
                &mut self.numbers,
            )?;
            note(&visit.page, &events[k], &mut fields, &mut own.paths)?;
        }
        self.looked = true;
        Ok(())
    }
}

// How many events there are up to the last one with a number that is asked for.
fn last_asked(events: &[Event], numbers: &BTreeMap<u64, Option<bool>>) -> usize
    ensures within { result ≤ length events.now }
    ensures all { (number : ℕ) → IsSome (get nat_cmp numbers.now number)
        → event_numbered events.now number ≡ event_numbered (take result events.now) number }
{
    let mut count = events.len();
    while count > 0 {
        if numbers.contains_key(&events[count - 1].request()) {
            return count;
        }
        count -= 1;
    }
    0
}

// Finds the request of the event with k events before it, if its number is asked for and no earlier event has it.
fn meet<'v, 't>(
    alloc: Global,
    finding: &Finding,
    visit: &'v Visit,
    k: usize,
    fields: &Fields<'_>,
    trail: &'t Trail,
    firsts: &mut FirstDeeds,
    board: &mut Board<'t>,
    compared: &mut Comparisons,
    own: &mut OwnLookups<'v>,
    numbers: &mut BTreeMap<u64, Option<bool>>,
) -> Result<(), NoMemory>
    requires there { k < length visit.now.events }
    requires fields { Keeps (by_path visit.now.page) fields.now visit.now.page (take k visit.now.events) }
    requires firsts { FindsFirst trail.now firsts.old }
    requires board { IsOn trail.now.page trail.now.deeds.items board.old }
    requires known { KnowsTexts finding.now compared.old }
    requires own { KnowsOwn (unwrap_or finding.now []) visit.now.page own.old }
    ensures meets { OnOk result (MeetsOne finding.now visit.now k trail.now numbers.old numbers.new) }
    ensures firsts { OnOk result (FindsFirst trail.now firsts.new) }
    ensures board { OnOk result (IsOn trail.now.page trail.now.deeds.items board.new) }
    ensures known { OnOk result (KnowsTexts finding.now compared.new) }
    ensures own { OnOk result (KnowsOwn (unwrap_or finding.now []) visit.now.page own.new) }
{
    let number = visit.events.as_slice()[k].request();
    if !is_pending(numbers, number) {
        return Ok(());
    }
    let Some(now) = address_asked(alloc, trail, firsts, board, number)? else {
        numbers.insert(number, Some(false))?;
        return Ok(());
    };
    let now = now.as_str();
    let apart = goes_elsewhere(alloc, finding, visit, fields, k, now, compared, own)?;
    numbers.insert(number, Some(apart))?;
    Ok(())
}

fn is_pending(numbers: &BTreeMap<u64, Option<bool>>, number: u64) -> bool
    ensures { result ≡ is_pending (get nat_cmp numbers.now number) }
{
    matches!(numbers.get(&number).copied(), Some(None))
}
