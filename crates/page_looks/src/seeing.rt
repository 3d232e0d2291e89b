//! What is seen of a page, and what is shown of an element.
ghost use Rattle.std.specs.Prelude.{ℕ, List, [], ◌∷◌, ◌++◌, ◌≡◌, IfOk, OnOk, Some, if◌then◌else◌, false, unwrap_or, option_map, codes};
ghost use Rattle.std.specs.List.{list_all};
ghost use Rattle.std.specs.Option.{option_map_or};
ghost use Rattle.std.specs.Char.{is_ascii_whitespace};
ghost use Rattle.std.specs.Str.{bytes_eq, str_to_ascii_lowercase};
ghost use Rattle.page_tree.specs.Tree.{Tree, element, no_trees};
ghost use Rattle.page_tree.specs.Look.{node_at, name_at, children_of};
ghost use Rattle.page_tree.specs.Number.{place_numbered};
ghost use Rattle.page_tree.specs.inside.Kept.{attributes_at};
ghost use Rattle.page_looks.specs.Outline.{is_one_of, unseen_names, is_seen, open_children, shown, those_named, type_of, is_push_type};
ghost use Rattle.page_looks.specs.inside.Told.{told_seen};

use page_tree::{NoMemory, Page};
use std::alloc::Global;
use std::borrow::CowStr;

/// Whether the node with that number is seen, where what stands above it is.
pub(crate) fn is_seen(page: &Page, number: u32) -> bool
    ensures { (m : Tree) → node_at (place_numbered number page.now) page.now ≡ Some m → result ≡ is_seen m }
{
    match page.name_of(number) {
        None => !is_blank(page.words_of(number)),
        Some(name) => is_seen_element(page, number, name),
    }
}

/// The same of the element with that number, which has that name.
pub(crate) fn is_seen_element(page: &Page, number: u32, name: &str) -> bool
    ensures { result ≡ is_seen
        (element name.now (attributes_at (place_numbered number page.now) page.now) no_trees) }
{
    let hidden = name == "input" && is_hidden(page.attribute_of(number, "type"));
    !is_unseen_name(name) && !hidden
}

fn is_blank(text: &str) -> bool
    ensures { result ≡ list_all is_ascii_whitespace text.now }
{
    text.as_bytes().iter().all(|c| c.is_ascii_whitespace())
}

fn is_unseen_name(name: &str) -> bool
    ensures { result ≡ is_one_of unseen_names name.now }
{
    match name {
        "head" | "script" | "style" | "noscript" | "template" | "link" | "meta" | "base" => true,
        _ => false,
    }
}

// Whether the `type` of an input hides it.
fn is_hidden(kind: Option<&str>) -> bool
    ensures { result ≡ bytes_eq (str_to_ascii_lowercase (unwrap_or (option_map (λ k. k.now) kind.entry) []))
        (codes "hidden") }
{
    match kind {
        None => false,
        Some(kind) => kind.eq_ignore_ascii_case("hidden"),
    }
}

/// Whether the node with that number is a text area, under which nothing is seen.
pub(crate) fn is_covered(page: &Page, number: u32) -> bool
    ensures name { result ≡ option_map_or (λ name. bytes_eq name (codes "textarea"))
        (name_at (place_numbered number page.now) page.now) false }
    ensures open { (m : Tree) → node_at (place_numbered number page.now) page.now ≡ Some m
        → open_children m ≡ (if result then no_trees else children_of m) }
{
    match page.name_of(number) {
        None => false,
        Some(name) => name == "textarea",
    }
}

/// Tells the attribute of that name, where the element has it.
pub(crate) fn tell<'p>(
    page: &'p Page,
    number: u32,
    name: &'static str,
    told: &mut Vec<(CowStr<'p, Global>, CowStr<'p, Global>)>,
) -> Result<(), NoMemory>
    ensures { OnOk result (told_seen told.new.items ≡ told_seen told.old.items
        ++ those_named (name.now ∷ []) (attributes_at (place_numbered number page.now) page.now)) }
{
    match page.attribute_of(number, name) {
        None => Ok(()),
        Some(value) => {
            told.push((CowStr::Borrowed(name), CowStr::Borrowed(value)))?;
            Ok(())
        }
    }
}

// Tells those of five names that a user sees something of.
fn tell_shown<'p>(
    page: &'p Page,
    number: u32,
    told: &mut Vec<(CowStr<'p, Global>, CowStr<'p, Global>)>,
) -> Result<(), NoMemory>
    ensures { OnOk result (told_seen told.new.items ≡ told_seen told.old.items
        ++ those_named (codes "alt" ∷ codes "aria-label" ∷ codes "placeholder" ∷ codes "src" ∷ codes "title" ∷ [])
        (attributes_at (place_numbered number page.now) page.now)) }
{
    tell(page, number, "alt", told)?;
    tell(page, number, "aria-label", told)?;
    tell(page, number, "placeholder", told)?;
    tell(page, number, "src", told)?;
    tell(page, number, "title", told)
}

// Tells the type of an input or button, in lower case.
fn tell_type<'p>(
    alloc: Global,
    page: &'p Page,
    number: u32,
    told: &mut Vec<(CowStr<'p, Global>, CowStr<'p, Global>)>,
) -> Result<(), NoMemory>
    ensures { OnOk result (told_seen told.new.items ≡ told_seen told.old.items
        ++ (codes "type", type_of (attributes_at (place_numbered number page.now) page.now)) ∷ []) }
{
    let kind = page.attribute_of(number, "type").unwrap_or("");
    let lower = kind.to_ascii_lowercase(alloc)?;
    told.push((CowStr::Borrowed("type"), CowStr::Owned(lower)))?;
    Ok(())
}

// Whether what is written on an input of that type is its value.
fn is_push_type(kind: Option<&str>) -> bool
    ensures { result ≡ is_push_type (str_to_ascii_lowercase (unwrap_or (option_map (λ k. k.now) kind.entry) [])) }
{
    match kind {
        None => false,
        Some(kind) => {
            kind.eq_ignore_ascii_case("submit")
                || kind.eq_ignore_ascii_case("reset")
                || kind.eq_ignore_ascii_case("button")
        }
    }
}

/// What is shown of the element with that number, which has that name.
pub(crate) fn shown_of<'p>(
    alloc: Global,
    page: &'p Page,
    number: u32,
    name: &str,
) -> Result<Vec<(CowStr<'p, Global>, CowStr<'p, Global>)>, NoMemory>
    ensures { IfOk result (λ told. told_seen told.items
        ≡ shown (element name.now (attributes_at (place_numbered number page.now) page.now) no_trees)) }
{
    let mut told = Vec::new(alloc);
    if name == "input" || name == "button" {
        tell_type(alloc, page, number, &mut told)?;
    }
    tell_shown(page, number, &mut told)?;
    if name == "input" && is_push_type(page.attribute_of(number, "type")) {
        tell(page, number, "value", &mut told)?;
    }
    Ok(told)
}
