//! Whether an element that was found, or its form, sends something else now (K11).
ghost use Rattle.std.specs.Prelude.{◌≡◌, ◌<◌};
ghost use Rattle.page_tree.specs.Tree.{Tree};
ghost use Rattle.page_tree.specs.Control.{control_at};
ghost use Rattle.page_tree.specs.Limits.{nodes};
ghost use Rattle.page_tree.specs.Number.{place_numbered};
ghost use Rattle.visit_replay.specs.Aim.{acts, unless_changed, are_forms_alike, form_around, is_check, is_form, is_kept, is_clicked_alike, is_one_state, settled};
ghost use Rattle.visit_replay.specs.inside.OneEvent.{AimsAt, IsWithin, control_clicked, places_numbered};

use crate::conflicts::Located;
use crate::outcome::ConflictKind;
use page_looks::Beside;
use page_tree::{Control, Page};
use upload_reader::Event;

/// K11 where the two or the forms around them send different things, or a clicked checkbox starts otherwise; K7 where no form is around a pressed button.
pub(crate) fn settled(
    beside: &Beside<'_>,
    event: &Event,
    control: Control,
    was: u32,
    is: u32,
) -> Located
    requires there { (was < nodes beside.now.old) × (is < nodes beside.now.new) }
    requires control { control ≡ control_clicked beside.now.old event.now (place_numbered was beside.now.old) }
    ensures { AimsAt beside.now.new (settled beside.now.fresh beside.now.old beside.now.new event.now
        (place_numbered was beside.now.old) (place_numbered is beside.now.new)) result }
{
    match event {
        Event::Input { .. } => unless_changed(is_kept(beside, was, is), is, None),
        Event::Click { .. } => unless_changed(is_clicked_alike(beside, control, was, is), is, None),
        Event::Submit { by: None, .. } => unless_changed(beside.sends_alike(was, is), is, None),
        Event::Submit { by: Some(_), .. } => match form_around(beside.repaired_page(), is) {
            None => Located::Bad(ConflictKind::NotAForm),
            Some(form) => unless_changed(is_kept(beside, was, is), form, Some(is)),
        },
    }
}

fn unless_changed(alike: bool, target: u32, button: Option<u32>) -> Located
    ensures { (new : Tree) → target < nodes new → IsWithin button new → AimsAt new
        (unless_changed alike (acts (place_numbered target new) (places_numbered button new))) result }
{
    if alike {
        Located::At { target, button }
    } else {
        Located::Bad(ConflictKind::Changed)
    }
}

// Whether a field, a checkbox or a button sends what it sent, and so does the form around it.
fn is_kept(beside: &Beside<'_>, was: u32, is: u32) -> bool
    requires there { (was < nodes beside.now.old) × (is < nodes beside.now.new) }
    ensures { result ≡ is_kept beside.now.fresh beside.now.old beside.now.new (place_numbered was beside.now.old)
        (place_numbered is beside.now.new) }
{
    let form = form_around(beside.recorded_page(), was);
    let other = form_around(beside.repaired_page(), is);
    beside.sends_alike(was, is) && are_forms_alike(beside, form, other)
}

fn are_forms_alike(beside: &Beside<'_>, was: Option<u32>, is: Option<u32>) -> bool
    ensures { result ≡ are_forms_alike beside.now.fresh beside.now.old beside.now.new
        (places_numbered was beside.now.old) (places_numbered is beside.now.new) }
{
    match (was, is) {
        (Some(form), Some(other)) => beside.sends_alike(form, other),
        (None, None) => true,
        (Some(_), None) => false,
        (None, Some(_)) => false,
    }
}

// Whether what is clicked sends what it sent, and a checkbox starts as it did, in a form that sends what it sent.
fn is_clicked_alike(beside: &Beside<'_>, control: Control, was: u32, is: u32) -> bool
    requires there { (was < nodes beside.now.old) × (is < nodes beside.now.new) }
    requires control { control ≡ control_at (place_numbered was beside.now.old) beside.now.old }
    ensures { result ≡ is_clicked_alike beside.now.fresh beside.now.old beside.now.new
        (place_numbered was beside.now.old) (place_numbered is beside.now.new) }
{
    if !is_check(control) {
        return beside.sends_alike(was, is);
    }
    let before = beside.recorded_page().start_checked_of(was);
    let now = beside.repaired_page().start_checked_of(is);
    is_kept(beside, was, is) && is_one_state(before, now)
}

pub(crate) fn is_one_state(was: bool, is: bool) -> bool
    ensures { result ≡ is_one_state was is }
{
    if was { is } else { !is }
}

pub(crate) fn is_check(control: Control) -> bool
    ensures { result ≡ is_check control }
{
    matches!(control, Control::Check)
}

fn is_form(control: Control) -> bool
    ensures { result ≡ is_form control }
{
    matches!(control, Control::Form)
}

/// The nearest form around a node.
pub(crate) fn form_around(page: &Page, number: u32) -> Option<u32>
    requires { number < nodes page.now }
    ensures within { IsWithin result page.now }
    ensures place { places_numbered result page.now ≡ form_around page.now (place_numbered number page.now) }
{
    let mut at = number;
    while let Some(parent) = page.parent_of(at) {
        if is_form(page.control_of(parent)) {
            return Some(parent);
        }
        at = parent;
    }
    None
}
