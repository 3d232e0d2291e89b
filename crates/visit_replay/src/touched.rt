//! The fields that events have touched so far, where they find their places by their elements: a submit must find each of them under its form, if it stood under
//! that on the page that the user saw, and none else.
ghost use Rattle.std.specs.Prelude.{List, ℕ, [], ◌∷◌, ◌++◌, ◌≡◌, ◌<◌, All, OnOk, Option, Some, IsTrue};
ghost use Rattle.std.specs.BTreeMap.{get};
ghost use Rattle.std.specs.Ordering.{nat_cmp};
ghost use Rattle.std.specs.List.{list_any};
ghost use Rattle.page_tree.specs.Tree.{Tree};
ghost use Rattle.page_tree.specs.Limits.{nodes};
ghost use Rattle.page_tree.specs.Number.{place_numbered};
ghost use Rattle.upload_reader.specs.declared.message.Event.{Event as PlainEvent};
ghost use Rattle.visit_replay.specs.Aim.{Aim, path_of, touches, is_submit, has_strayed};
ghost use Rattle.visit_replay.specs.inside.Differing.{KnowsPaths, Selects};
ghost use Rattle.visit_replay.specs.inside.OneEvent.{AimsAt, IsNodeOf, names_aimed, aimed};
ghost use Rattle.visit_replay.specs.inside.TouchedFields.{AreTouched, HasTouched, strays_now};

use crate::aims::{Aiming, path_of};
use crate::changes::{is_check, is_one_state};
use crate::conflicts::{Located, is_under};
use crate::known_paths::KnownPaths;
use page_tree::{NoMemory, Page};
use std::alloc::Global;
use std::collections::BTreeMap;
use upload_reader::Event;

/// A field, by its numbers on the recorded page and on the repaired one.
#[derive(Drop)]
pub(crate) struct TouchedField {
    was: u32,
    is: u32,
}

/// Each of them once.
#[derive(Drop)]
pub(crate) struct Touched {
    fields: Vec<TouchedField>,
    known: BTreeMap<u32, u32>,
}

impl Touched {
    /// None. It takes no memory.
    pub(crate) fn new(alloc: Global) -> Touched
        ensures { (same : Option (List (List ℕ))) (old new : Tree) → AreTouched same old new result [] }
    {
        Touched {
            fields: Vec::new(alloc),
            known: BTreeMap::new(alloc),
        }
    }

    /// Takes in an event that acts on the node with that number.
    pub(crate) fn note(
        &mut self,
        aiming: &Aiming<'_>,
        old: &Page,
        new: &Page,
        event: &Event,
        is: u32,
        paths: &KnownPaths<'_>,
    ) -> Result<(), NoMemory>
        requires known { KnowsPaths old.now paths.now.paths.items }
        requires acts { IsNodeOf (aimed aiming.now old.now new.now event.now) new.now is }
        ensures { OnOk result ((before : List PlainEvent)
            → AreTouched (names_aimed aiming.now) old.now new.now self.old before
            → AreTouched (names_aimed aiming.now) old.now new.now self.new (before ++ event.now ∷ [])) }
    {
        match aiming {
            Aiming::ByPath => Ok(()),
            Aiming::ByElement(_) => match paths.known_or_only(old, path_of(event)) {
                Some(was) => self.note_at(old, new, event, was, is),
                None => Ok(()),
            },
        }
    }

    // The same, where its path led to that one.
    fn note_at(
        &mut self,
        old: &Page,
        new: &Page,
        event: &Event,
        was: u32,
        is: u32,
    ) -> Result<(), NoMemory>
        requires path { Selects old.now (path_of event.now) (Some was) }
        ensures { OnOk result ((aim : PlainEvent → Aim) (before : List PlainEvent) → IsNodeOf (aim event.now) new.now is
            → HasTouched aim old.now new.now self.old before
            → HasTouched aim old.now new.now self.new (before ++ event.now ∷ [])) }
    {
        if self.has(was, is) || !touches(old, event, was) {
            return Ok(());
        }
        self.fields.push(TouchedField { was, is })?;
        self.known.insert(was, is)?;
        Ok(())
    }

    fn has(&self, was: u32, is: u32) -> bool
        ensures { IsTrue result → get nat_cmp self.now.known was ≡ Some is }
    {
        match self.known.get(&was) {
            Some(known) => *known == is,
            None => false,
        }
    }
}

fn touches(old: &Page, event: &Event, was: u32) -> bool
    ensures { result ≡ touches old.now event.now (place_numbered was old.now) }
{
    match event {
        Event::Input { .. } => true,
        Event::Click { .. } => is_check(old.control_of(was)),
        Event::Submit { .. } => false,
    }
}

/// Whether a submit that acts there has a form under which another touched field stands than on the recorded page (K11).
pub(crate) fn has_strayed(
    aiming: &Aiming<'_>,
    old: &Page,
    new: &Page,
    event: &Event,
    located: &Located,
    paths: &KnownPaths<'_>,
    touched: &Touched,
) -> bool
    requires known { KnowsPaths old.now paths.now.paths.items }
    requires located { AimsAt new.now (aimed aiming.now old.now new.now event.now) located.now }
    requires touched { (before : List PlainEvent)
        × AreTouched (names_aimed aiming.now) old.now new.now touched.now before }
    ensures { (before : List PlainEvent) → AreTouched (names_aimed aiming.now) old.now new.now touched.now before
        → result ≡ has_strayed (names_aimed aiming.now) old.now new.now before event.now }
{
    let Aiming::ByElement(_) = aiming else {
        return false;
    };
    let Located::At { target, .. } = located else {
        return false;
    };
    if !is_submit(event) {
        return false;
    }
    match paths.known_or_only(old, path_of(event)) {
        Some(form) => any_strays(old, new, form, *target, touched.fields.as_slice()),
        None => false,
    }
}

fn is_submit(event: &Event) -> bool
    ensures { result ≡ is_submit event.now }
{
    matches!(event, Event::Submit { .. })
}

// Whether one of these stands under one of the two forms alone.
fn any_strays(old: &Page, new: &Page, form: u32, other: u32, fields: &[TouchedField]) -> bool
    requires forms { (form < nodes old.now) × (other < nodes new.now) }
    requires within { All (λ field. (field.was < nodes old.now) × (field.is < nodes new.now)) fields.now }
    ensures { result ≡ list_any (strays_now old.now new.now (place_numbered form old.now)
        (place_numbered other new.now)) fields.now }
{
    for field in fields {
        if strays(old, new, form, other, field) {
            return true;
        }
    }
    false
}

fn strays(old: &Page, new: &Page, form: u32, other: u32, field: &TouchedField) -> bool
    requires forms { (form < nodes old.now) × (other < nodes new.now) }
    requires within { (field.now.was < nodes old.now) × (field.now.is < nodes new.now) }
    ensures { result ≡ strays_now old.now new.now (place_numbered form old.now) (place_numbered other new.now)
        field.now }
{
    !is_one_state(
        is_under(old, form, field.was),
        is_under(new, other, field.is),
    )
}
