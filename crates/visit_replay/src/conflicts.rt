//! Why one event can't be replayed where it acts (K4 to K7).
ghost use Rattle.std.specs.Prelude.{◌≡◌, ◌<◌, IfOk};
ghost use Rattle.page_tree.specs.Limits.{nodes};
ghost use Rattle.page_tree.specs.Number.{place_numbered};
ghost use Rattle.page_tree.specs.Under.{is_under};
ghost use Rattle.upload_reader.specs.declared.message.Event.{Event as PlainEvent};
ghost use Rattle.visit_replay.specs.Aim.{Aim};
ghost use Rattle.visit_replay.specs.Conflict.{is_disabled, input_conflict, is_unchanged, off_link, click_conflict, is_enabled_submit, is_button_of, has_button, submit_conflict, conflict_at};
ghost use Rattle.visit_replay.specs.inside.Differing.{KnowsPaths};
ghost use Rattle.visit_replay.specs.inside.OneEvent.{AimsAt, Locates, IsWithin, places_numbered};

use crate::known_paths::KnownPaths;
use crate::outcome::ConflictKind;
use page_tree::{Control, NoMemory, Page};
use upload_reader::Event;
use xpath_child::Path;

/// Where an event acts or can be replayed: by the numbers of its target and of the button that was pressed, if any; or nowhere, since it needs no
/// element; or why not.
#[derive(Drop)]
pub(crate) enum Located {
    Bad(ConflictKind),
    Idle,
    At { target: u32, button: Option<u32> },
}

/// Where an event can be replayed that acts there, or why it can't: K4 to K7. Some paths may be known on the old page.
pub(crate) fn judged(
    old: &Page,
    new: &Page,
    event: &Event,
    located: Located,
    paths: &KnownPaths<'_>,
) -> Result<Located, NoMemory>
    requires located { (aim : Aim) × AimsAt new.now aim located }
    requires known { KnowsPaths old.now paths.now.paths.items }
    ensures { IfOk result (λ judged. (aim : PlainEvent → Aim) → AimsAt new.now (aim event.now) located
        → Locates aim old.now new.now event.now judged) }
{
    let Located::At { target, button } = located else {
        return Ok(located);
    };
    match conflict_at(old, new, event, target, button, paths)? {
        Some(kind) => Ok(Located::Bad(kind)),
        None => Ok(Located::At { target, button }),
    }
}

fn conflict_at(
    old: &Page,
    new: &Page,
    event: &Event,
    target: u32,
    button: Option<u32>,
    paths: &KnownPaths<'_>,
) -> Result<Option<ConflictKind>, NoMemory>
    requires there { target < nodes new.now }
    requires button { IsWithin button new.now }
    requires known { KnowsPaths old.now paths.now.paths.items }
    ensures { IfOk result (λ found. found ≡ conflict_at old.now new.now event.now (place_numbered target new.now)
        (places_numbered button new.now)) }
{
    let control = new.control_of(target);
    match event {
        Event::Input { target: path, .. } => {
            let unchanged = is_unchanged(old, new, path, target, paths)?;
            Ok(input_conflict(control, is_disabled(new, target), unchanged))
        }
        Event::Click { req, .. } => Ok(click_conflict(control, is_disabled(new, target), *req)),
        Event::Submit { by, .. } => Ok(submit_conflict(
            control,
            has_button(new, target, by, button),
        )),
    }
}

pub(crate) fn is_disabled(page: &Page, number: u32) -> bool
    ensures { result ≡ is_disabled (place_numbered number page.now) page.now }
{
    page.attribute_of(number, "disabled").is_some()
}

// ---- inputs: K4, K5

// K4 off a text control or into a disabled one, K5 over a changed text.
#[tactic(auto, unfolding(crate::specs::Conflict::input_conflict))]
fn input_conflict(control: Control, disabled: bool, unchanged: bool) -> Option<ConflictKind>
    ensures { result ≡ input_conflict control disabled unchanged }
{
    match control {
        Control::Text if disabled => Some(ConflictKind::NotAField),
        Control::Text if unchanged => None,
        Control::Text => Some(ConflictKind::BaseChanged),
        _ => Some(ConflictKind::NotAField),
    }
}

// Whether the path selected, on the old page, one text control that started as the one with the number does.
fn is_unchanged(
    old: &Page,
    new: &Page,
    path: &Path,
    number: u32,
    paths: &KnownPaths<'_>,
) -> Result<bool, NoMemory>
    requires { KnowsPaths old.now paths.now.paths.items }
    ensures { IfOk result (λ same. same ≡ is_unchanged old.now new.now path.now (place_numbered number new.now)) }
{
    let Some(there) = paths.known_or_only(old, path) else {
        return Ok(false);
    };
    match (old.start_text_of(there)?, new.start_text_of(number)?) {
        (Some(before), Some(now)) => Ok(before.as_str() == now.as_str()),
        _ => Ok(false),
    }
}

// ---- clicks: K4, K6

// K4 on a radio button or a disabled checkbox.
#[tactic(auto, unfolding(crate::specs::Conflict::click_conflict))]
fn click_conflict(control: Control, disabled: bool, req: u64) -> Option<ConflictKind>
    ensures { result ≡ click_conflict control disabled req }
{
    match control {
        Control::Radio => Some(ConflictKind::NotAField),
        Control::Check if disabled => Some(ConflictKind::NotAField),
        Control::Link => None,
        _ => off_link(req),
    }
}

// K6 where a request was made.
fn off_link(req: u64) -> Option<ConflictKind>
    ensures { result ≡ off_link req }
{
    if req == 0 {
        None
    } else {
        Some(ConflictKind::NotALink)
    }
}

// ---- submits: K7

// K7 off a form, or without its button.
#[tactic(auto, unfolding(crate::specs::Conflict::submit_conflict))]
fn submit_conflict(control: Control, button: bool) -> Option<ConflictKind>
    ensures { result ≡ submit_conflict control button }
{
    match control {
        Control::Form if button => None,
        _ => Some(ConflictKind::NotAForm),
    }
}

// Whether the button that was pressed, if any, is an enabled one of the form.
fn has_button(new: &Page, form: u32, by: &Option<Path>, button: Option<u32>) -> bool
    requires there { form < nodes new.now }
    requires button { IsWithin button new.now }
    ensures { result ≡ has_button new.now (place_numbered form new.now) by.now (places_numbered button new.now) }
{
    match (by, button) {
        (None, _) => true,
        (Some(_), Some(button)) => is_button_of(new, form, button),
        (Some(_), None) => false,
    }
}

fn is_button_of(new: &Page, form: u32, number: u32) -> bool
    requires form { form < nodes new.now }
    requires there { number < nodes new.now }
    ensures { result ≡ is_button_of new.now (place_numbered form new.now) (place_numbered number new.now) }
{
    is_under(new, form, number)
        && is_enabled_submit(new.control_of(number), is_disabled(new, number))
}

pub(crate) fn is_under(page: &Page, above: u32, number: u32) -> bool
    requires above { above < nodes page.now }
    requires there { number < nodes page.now }
    ensures { result ≡ is_under (place_numbered above page.now) (place_numbered number page.now) }
{
    let under = page.nodes_under(above);
    under.start <= number && number < under.end
}

#[tactic(auto, unfolding(crate::specs::Conflict::is_enabled_submit))]
fn is_enabled_submit(control: Control, disabled: bool) -> bool
    ensures { result ≡ is_enabled_submit control disabled }
{
    match control {
        Control::Submit => !disabled,
        _ => false,
    }
}
