//! Where the first deed of a trail stands that asked for something with a number.
ghost use Rattle.std.specs.Prelude.{ℕ, ◌≡◌, ◌<◌, ◌==◌, ◌&&◌, if◌then◌else◌, not, length, IfOk, OnOk, IfSome, is_some, Some};
ghost use Rattle.std.specs.BTreeMap.{get};
ghost use Rattle.std.specs.Ordering.{nat_cmp};
ghost use Rattle.visit_replay.specs.declared.trail.Trail.{Trail as PlainTrail};
ghost use Rattle.visit_replay.specs.inside.FirstDeeds.{first_asked, HasFirst, HavePassed, FindsFirst};

use crate::trail::Trail;
use page_tree::NoMemory;
use std::alloc::{AllocError, Global};
use std::collections::BTreeMap;

/// How far they were looked for: numbers ascend in visits that sessions took, and then one walk along the trail finds all. Where one isn't found so, all are kept
/// by their numbers.
#[derive(Drop)]
pub(crate) struct FirstDeeds {
    // behind so many deeds, which asked with numbers up to the last
    from: usize,
    last: u64,
    places: Option<BTreeMap<u64, usize>>,
}

impl FirstDeeds {
    /// None was looked for. It takes no memory.
    pub(crate) fn new() -> FirstDeeds
        ensures { (trail : PlainTrail) → FindsFirst trail result }
    {
        FirstDeeds {
            from: 0,
            last: 0,
            places: None,
        }
    }

    /// Of that number, if there is one.
    pub(crate) fn place_of(
        &mut self,
        alloc: Global,
        trail: &Trail,
        number: u64,
    ) -> Result<Option<usize>, NoMemory>
        requires { FindsFirst trail.now self.old }
        ensures finds { OnOk result (FindsFirst trail.now self.new) }
        ensures first { IfOk result (λ place. place ≡ first_asked trail.now number) }
        ensures there { IfOk result (λ place. IfSome place (λ p. p < length trail.now.deeds.items)) }
    {
        if let Some(places) = &self.places {
            return Ok(places.get(&number).copied());
        }
        if let Some(place) = self.walk_to(trail, number) {
            return Ok(Some(place));
        }
        let places = first_by_number(alloc, trail)?;
        let place = places.get(&number).copied();
        self.places = Some(places);
        Ok(place)
    }

    // The same by a walk on along the trail, where that comes to it behind smaller numbers alone.
    fn walk_to(&mut self, trail: &Trail, number: u64) -> Option<usize>
        requires { HavePassed trail.now self.old.from self.old.last }
        ensures passed { HavePassed trail.now self.new.from self.new.last }
        ensures places { self.new.places ≡ self.old.places }
        ensures first { IfSome result (λ place. first_asked trail.now number ≡ Some place) }
        ensures there { IfSome result (λ place. place < length trail.now.deeds.items) }
    {
        if number <= self.last {
            return None;
        }
        while let Some(place) = trail.asking_from(self.from) {
            let here = trail.deeds.seen(place).request();
            if here > number {
                return None;
            }
            self.from = place + 1;
            if here == number {
                self.last = here;
                return Some(place);
            }
            self.last = self.last.max(here);
        }
        None
    }
}

// Of each number that place.
fn first_by_number(alloc: Global, trail: &Trail) -> Result<BTreeMap<u64, usize>, AllocError>
    ensures { IfOk result (HasFirst trail.now) }
{
    let mut places = BTreeMap::new(alloc);
    for place in 0..trail.deeds.len() {
        if trail.asks(place) {
            put_first(&mut places, trail.deeds.seen(place).request(), place)?;
        }
    }
    Ok(places)
}

fn put_first(places: &mut BTreeMap<u64, usize>, number: u64, place: usize) -> Result<(), AllocError>
    ensures { OnOk result ((other : ℕ) → get nat_cmp places.new other
        ≡ (if not (is_some (get nat_cmp places.old number)) && number == other then Some place else get nat_cmp places.old other)) }
{
    if places.contains_key(&number) {
        return Ok(());
    }
    places.insert(number, place)?;
    Ok(())
}
