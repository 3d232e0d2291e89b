//! What an element sends itself: of a form all but the pairs of the controls under it.
ghost use Rattle.std.specs.Prelude.{ℕ, List, [], ◌∷◌, ◌++◌, ◌≡◌, if◌then◌else◌, unwrap_or, IfOk, OnOk, Some, option_map, option_to_list, codes};
ghost use Rattle.std.specs.Cow.{cow_str_bytes};
ghost use Rattle.page_tree.specs.Tree.{Tree, element, no_trees};
ghost use Rattle.page_tree.specs.Look.{node_at, name_at, value_of};
ghost use Rattle.page_tree.specs.Number.{place_numbered};
ghost use Rattle.page_tree.specs.inside.Kept.{attributes_at};
ghost use Rattle.page_looks.specs.Outline.{is_one_of};
ghost use Rattle.page_looks.specs.Sending.{addresses_named, untouched_value, untouched_pairs, posts, sent_by_form, sent_by_control, sent};
ghost use Rattle.page_looks.specs.inside.Told.{told_seen};

use crate::addresses::{is_fresh, without_fresh};
use crate::seeing::tell;
use page_tree::{Control, NoMemory, Page, Text};
use std::alloc::Global;
use std::borrow::CowStr;

/// What the element with that number sends, which has that name, without the values of fresh names; of a form without
/// what stands under it.
pub(crate) fn sent_of<'p>(
    alloc: Global,
    page: &'p Page,
    number: u32,
    name: &str,
    fresh: &[Text],
) -> Result<Vec<(CowStr<'p, Global>, CowStr<'p, Global>)>, NoMemory>
    requires { name_at (place_numbered number page.now) page.now ≡ Some name.now }
    ensures { IfOk result (λ told. told_seen told.items
        ≡ sent fresh.now (element name.now (attributes_at (place_numbered number page.now) page.now) no_trees)) }
{
    let mut told = Vec::new(alloc);
    tell_sent(alloc, page, number, name, fresh, &mut told)?;
    Ok(told)
}

// Tells it.
fn tell_sent<'p>(
    alloc: Global,
    page: &'p Page,
    number: u32,
    name: &str,
    fresh: &[Text],
    told: &mut Vec<(CowStr<'p, Global>, CowStr<'p, Global>)>,
) -> Result<(), NoMemory>
    requires { name_at (place_numbered number page.now) page.now ≡ Some name.now }
    ensures { OnOk result (told_seen told.new.items ≡ told_seen told.old.items
        ++ sent fresh.now (element name.now (attributes_at (place_numbered number page.now) page.now) no_trees)) }
{
    if name == "form" {
        return tell_form(alloc, page, number, fresh, told);
    }
    if is_control_name(name) {
        return tell_control(alloc, page, number, fresh, told);
    }
    if is_link_name(name) {
        return tell_address(alloc, page, number, fresh, "href", told);
    }
    if name == "option" {
        return tell(page, number, "value", told);
    }
    Ok(())
}

fn is_control_name(name: &str) -> bool
    ensures { result ≡ is_one_of (codes "input" ∷ codes "button" ∷ codes "select" ∷ codes "textarea" ∷ []) name.now }
{
    match name {
        "input" | "button" | "select" | "textarea" => true,
        _ => false,
    }
}

fn is_link_name(name: &str) -> bool
    ensures { result ≡ is_one_of (codes "a" ∷ codes "area" ∷ []) name.now }
{
    match name {
        "a" | "area" => true,
        _ => false,
    }
}

// Tells the address in the attribute of that name, where the element has it.
fn tell_address<'p>(
    alloc: Global,
    page: &'p Page,
    number: u32,
    fresh: &[Text],
    name: &'static str,
    told: &mut Vec<(CowStr<'p, Global>, CowStr<'p, Global>)>,
) -> Result<(), NoMemory>
    ensures { OnOk result (told_seen told.new.items ≡ told_seen told.old.items
        ++ addresses_named fresh.now (name.now ∷ []) (attributes_at (place_numbered number page.now) page.now)) }
{
    match page.attribute_of(number, name) {
        None => Ok(()),
        Some(address) => {
            let kept = without_fresh(alloc, fresh, address)?;
            tell_pair(told, name, CowStr::Owned(kept.into_string()))
        }
    }
}

// Tells the name of a control, where it sends its form to, and its value, unless that is a start text.
fn tell_control<'p>(
    alloc: Global,
    page: &'p Page,
    number: u32,
    fresh: &[Text],
    told: &mut Vec<(CowStr<'p, Global>, CowStr<'p, Global>)>,
) -> Result<(), NoMemory>
    ensures { OnOk result ((name : List ℕ) → name_at (place_numbered number page.now) page.now ≡ Some name
        → told_seen told.new.items ≡ told_seen told.old.items
        ++ sent_by_control fresh.now name (attributes_at (place_numbered number page.now) page.now)) }
{
    tell(page, number, "name", told)?;
    tell(page, number, "formmethod", told)?;
    tell_address(alloc, page, number, fresh, "formaction", told)?;
    match page.control_of(number) {
        Control::Text => Ok(()),
        _ => {
            tell(page, number, "value", told)?;
            Ok(())
        }
    }
}

// ---- forms

// Tells whether a form posts, and its action.
fn tell_form<'p>(
    alloc: Global,
    page: &'p Page,
    number: u32,
    fresh: &[Text],
    told: &mut Vec<(CowStr<'p, Global>, CowStr<'p, Global>)>,
) -> Result<(), NoMemory>
    ensures { OnOk result (told_seen told.new.items ≡ told_seen told.old.items
        ++ sent_by_form fresh.now (attributes_at (place_numbered number page.now) page.now) no_trees) }
{
    tell_pair(told, "method", CowStr::Borrowed(method_of(page, number)))?;
    let kept = without_fresh(alloc, fresh, action_of(page, number))?;
    tell_pair(told, "action", CowStr::Owned(kept.into_string()))?;
    Ok(())
}

// `post`, or an empty text for any other method.
fn method_of(page: &Page, number: u32) -> &'static str
    ensures { result.now ≡ (if posts (attributes_at (place_numbered number page.now) page.now)
        then codes "post" else []) }
{
    match page.attribute_of(number, "method") {
        Some(method) if method.eq_ignore_ascii_case("post") => "post",
        _ => "",
    }
}

fn action_of(page: &Page, number: u32) -> &str
    ensures { result.now ≡ unwrap_or (value_of (codes "action") (attributes_at (place_numbered number page.now) page.now))
        [] }
{
    page.attribute_of(number, "action").unwrap_or("")
}

fn tell_pair<'p>(
    told: &mut Vec<(CowStr<'p, Global>, CowStr<'p, Global>)>,
    name: &'static str,
    value: CowStr<'p, Global>,
) -> Result<(), NoMemory>
    ensures { OnOk result (told_seen told.new.items ≡ told_seen told.old.items
        ++ (name.now, cow_str_bytes value.entry) ∷ []) }
{
    told.push((CowStr::Borrowed(name), value))?;
    Ok(())
}

/// The pair that the node with that number sends if nobody touches it.
pub(crate) fn untouched_of<'p>(
    page: &'p Page,
    number: u32,
    fresh: &[Text],
) -> Result<Option<(CowStr<'p, Global>, CowStr<'p, Global>)>, NoMemory>
    ensures { IfOk result (λ pair. (m : Tree) → node_at (place_numbered number page.now) page.now ≡ Some m
        → told_seen (option_to_list pair) ≡ untouched_pairs fresh.now (m ∷ [])) }
{
    let Some(name) = page.attribute_of(number, "name") else {
        return Ok(None);
    };
    if name.is_empty() || is_fresh(fresh, name) {
        return Ok(None);
    }
    if page.attribute_of(number, "disabled").is_some() {
        return Ok(None);
    }
    match untouched_value(page, number)? {
        None => Ok(None),
        Some(value) => Ok(Some((CowStr::Borrowed(name), value))),
    }
}

// The value in that pair: its start text, or its value where it starts on.
fn untouched_value<'p>(page: &'p Page, number: u32) -> Result<Option<CowStr<'p, Global>>, NoMemory>
    ensures { IfOk result (λ value. (m : Tree) → node_at (place_numbered number page.now) page.now ≡ Some m
        → option_map cow_str_bytes value ≡ untouched_value m) }
{
    if let Some(text) = page.start_text_of(number)? {
        return Ok(Some(text));
    }
    if page.start_checked_of(number) {
        let value = page.attribute_of(number, "value").unwrap_or("on");
        return Ok(Some(CowStr::Borrowed(value)));
    }
    Ok(None)
}
