//! Where an event acts on the page that stands there now: by its path, or by the element that it was made on.
ghost use Rattle.std.specs.Prelude.{ℕ, List, [], ◌∷◌, ◌≡◌, ◌<◌, None, IfOk, OnOk, false, codes, option_map};
ghost use Rattle.std.specs.Option.{option_map_or};
ghost use Rattle.std.specs.Str.{bytes_eq};
ghost use Rattle.page_tree.specs.Tree.{Tree};
ghost use Rattle.page_tree.specs.Limits.{nodes};
ghost use Rattle.page_tree.specs.Number.{place_numbered};
ghost use Rattle.page_looks.specs.Outline.{is_one_of};
ghost use Rattle.xpath_child.specs.Targets.{target_in, only_place};
ghost use Rattle.visit_replay.specs.Aim.{Aim, lost, on_target, by_path, by_element, from_place, path_of, by_of, button_by_path, place_of_aim, goes_by, needs_none, is_active, is_link, asks_by_link, is_in_its_form};
ghost use Rattle.visit_replay.specs.inside.Differing.{AreLookedUp, KnowsPaths};
ghost use Rattle.visit_replay.specs.inside.OneEvent.{AimsAt, IsBetween, IsWithin, aimed, control_clicked, places_numbered};

use crate::changes::{form_around, settled};
use crate::conflicts::Located;
use crate::counterparts::counterpart;
use crate::known_paths::KnownPaths;
use crate::lookups::Lookups;
use crate::outcome::ConflictKind;
use page_looks::Beside;
use page_tree::{Control, NoMemory, Page};
use std::alloc::Global;
use upload_reader::Event;
use xpath_child::{Found, Path};

/// How events find their places on a page: by their paths, or by their elements on the recorded page beside it.
#[derive(Drop)]
pub(crate) enum Aiming<'b> {
    ByPath,
    ByElement(Beside<'b>),
}

/// Where the event acts on the new page, or why that isn't known (K2, K3, K7, K11). What was looked up on both pages is remembered.
pub(crate) fn aim_at<'v>(
    alloc: Global,
    aiming: &Aiming<'_>,
    old: &Page,
    new: &Page,
    event: &'v Event,
    lookups: &mut Lookups<'v, '_>,
) -> Result<Located, NoMemory>
    requires between { IsBetween aiming.now old.now new.now }
    requires known { AreLookedUp old.now new.now lookups.old }
    ensures aims { IfOk result (AimsAt new.now (aimed aiming.now old.now new.now event.now)) }
    ensures known { OnOk result (AreLookedUp old.now new.now lookups.new) }
{
    match aiming {
        Aiming::ByPath => Ok(by_path(new, event)),
        Aiming::ByElement(beside) => by_element(alloc, beside, event, lookups),
    }
}

// Where its path leads.
fn by_path(new: &Page, event: &Event) -> Located
    ensures { AimsAt new.now (by_path new.now event.now) result }
{
    match path_of(event).find(new) {
        Found::Missing => Located::Bad(ConflictKind::NoTarget),
        Found::Several => Located::Bad(ConflictKind::ManyTargets),
        Found::One(target) => Located::At {
            target,
            button: button_of(new, event),
        },
    }
}

/// The path of its target.
pub(crate) fn path_of(event: &Event) -> &Path
    ensures { result.now ≡ path_of event.now }
{
    match event {
        Event::Input { target, .. } => target,
        Event::Click { target, .. } => target,
        Event::Submit { target, .. } => target,
    }
}

// The button that was pressed, if its path selects one node.
fn button_of(page: &Page, event: &Event) -> Option<u32>
    ensures within { IsWithin result page.now }
    ensures place { places_numbered result page.now ≡ button_by_path page.now (by_of event.now) }
{
    match event {
        Event::Submit { by: Some(path), .. } => only(path, page),
        _ => None,
    }
}

/// The node that a path selects, if it is the only one.
pub(crate) fn only(path: &Path, page: &Page) -> Option<u32>
    ensures within { IsWithin result page.now }
    ensures place { places_numbered result page.now ≡ only_place (target_in path.now page.now) }
{
    match path.find(page) {
        Found::One(number) => Some(number),
        Found::Missing | Found::Several => None,
    }
}

// ---- by its element

/// The path of the button that was pressed, or else of its target.
pub(crate) fn goes_by(event: &Event) -> &Path
    ensures { result.now ≡ goes_by event.now }
{
    match event {
        Event::Submit { by: Some(path), .. } => path,
        _ => path_of(event),
    }
}

// Where its element is.
fn by_element<'v>(
    alloc: Global,
    beside: &Beside<'_>,
    event: &'v Event,
    lookups: &mut Lookups<'v, '_>,
) -> Result<Located, NoMemory>
    requires { AreLookedUp beside.now.old beside.now.new lookups.old }
    ensures aims { IfOk result (AimsAt beside.now.new
        (by_element beside.now.fresh beside.now.old beside.now.new event.now)) }
    ensures known { OnOk result (AreLookedUp beside.now.old beside.now.new lookups.new) }
{
    let old = beside.recorded_page();
    match lookups.paths.only(old, goes_by(event))? {
        Some(number) => from_node(alloc, beside, event, number, lookups),
        None => Ok(Located::Bad(why_not_one(goes_by(event), old))),
    }
}

// Why the path selects no node alone (K2, K3).
fn why_not_one(path: &Path, page: &Page) -> ConflictKind
    requires { only_place (target_in path.now page.now) ≡ None }
    ensures { (found : List ℕ → Aim) → on_target (target_in path.now page.now) found ≡ lost result }
{
    match path.find(page) {
        Found::Missing => ConflictKind::NoTarget,
        Found::Several => ConflictKind::ManyTargets,
        Found::One(_number) => unreachable!(),
    }
}

// The same, from the node that it goes by.
fn from_node<'v>(
    alloc: Global,
    beside: &Beside<'_>,
    event: &'v Event,
    number: u32,
    lookups: &mut Lookups<'v, '_>,
) -> Result<Located, NoMemory>
    requires there { number < nodes beside.now.old }
    requires known { AreLookedUp beside.now.old beside.now.new lookups.old }
    ensures aims { IfOk result (AimsAt beside.now.new (from_place beside.now.fresh beside.now.old beside.now.new
        event.now (place_numbered number beside.now.old))) }
    ensures known { OnOk result (AreLookedUp beside.now.old beside.now.new lookups.new) }
{
    let old = beside.recorded_page();
    if !is_in_its_form(old, event, number, &mut lookups.paths)? {
        return Ok(Located::Bad(ConflictKind::NotAForm));
    }
    let control = control_clicked(old, event, number);
    if needs_none(old, event, number, control) {
        return Ok(Located::Idle);
    }
    let asks = asks_by_link(event, control);
    match counterpart(alloc, beside, asks, number, lookups)? {
        Err(kind) => Ok(Located::Bad(kind)),
        Ok(found) => Ok(settled(beside, event, control, number, found)),
    }
}

// ---- on one page

// Whether the event's target is the form around the button that was pressed.
fn is_in_its_form<'v>(
    old: &Page,
    event: &'v Event,
    place: u32,
    paths: &mut KnownPaths<'v>,
) -> Result<bool, NoMemory>
    requires there { place < nodes old.now }
    requires known { KnowsPaths old.now paths.old.paths.items }
    ensures is { IfOk result (λ is. is ≡ is_in_its_form old.now event.now (place_numbered place old.now)) }
    ensures known { OnOk result (KnowsPaths old.now paths.new.paths.items) }
{
    match event {
        Event::Submit {
            target,
            by: Some(_),
            ..
        } => match form_around(old, place) {
            Some(form) => is_only(target, old, form, paths),
            None => Ok(false),
        },
        _ => Ok(true),
    }
}

// Whether the path selects that node alone.
fn is_only<'v>(
    path: &'v Path,
    page: &Page,
    number: u32,
    paths: &mut KnownPaths<'v>,
) -> Result<bool, NoMemory>
    requires there { number < nodes page.now }
    requires known { KnowsPaths page.now paths.old.paths.items }
    ensures only { IfOk result (λ is. is ≡ option_map_or (bytes_eq (place_numbered number page.now))
        (only_place (target_in path.now page.now)) false) }
    ensures known { OnOk result (KnowsPaths page.now paths.new.paths.items) }
{
    match paths.only(page, path)? {
        Some(found) => Ok(number == found),
        None => Ok(false),
    }
}

// What a click is on; Other for any other event, which isn't looked at.
fn control_clicked(old: &Page, event: &Event, place: u32) -> Control
    ensures { result ≡ control_clicked old.now event.now (place_numbered place old.now) }
{
    match event {
        Event::Input { .. } => Control::Other,
        Event::Click { .. } => old.control_of(place),
        Event::Submit { .. } => Control::Other,
    }
}

// Whether it is a click without a request on what does nothing by itself.
fn needs_none(old: &Page, event: &Event, place: u32, control: Control) -> bool
    requires { control ≡ control_clicked old.now event.now (place_numbered place old.now) }
    ensures { result ≡ needs_none old.now event.now (place_numbered place old.now) }
{
    match event {
        Event::Click { req, .. } => *req == 0 && !is_active(control, old.name_of(place)),
        _ => false,
    }
}

fn is_active(control: Control, name: Option<&str>) -> bool
    ensures { result ≡ is_active control (option_map (λ n. n.now) name.entry) }
{
    match control {
        Control::Text => false,
        Control::Form => false,
        Control::Other => is_pushed(name),
        _ => true,
    }
}

fn is_pushed(name: Option<&str>) -> bool
    ensures { result ≡ option_map_or (is_one_of (codes "button" ∷ codes "input" ∷ []))
        (option_map (λ n. n.now) name.entry) false }
{
    match name {
        Some(name) => name == "button" || name == "input",
        None => false,
    }
}

// Whether it is a click on a link that made a request.
fn asks_by_link(event: &Event, control: Control) -> bool
    ensures { (old : Tree) (place : List ℕ) → control ≡ control_clicked old event.now place
        → result ≡ asks_by_link old event.now place }
{
    match event {
        Event::Click { req, .. } => *req != 0 && is_link(control),
        _ => false,
    }
}

fn is_link(control: Control) -> bool
    ensures { result ≡ is_link control }
{
    matches!(control, Control::Link)
}
