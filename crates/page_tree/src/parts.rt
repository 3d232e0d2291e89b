//! The parts of an element in a JSON document, found in one walk over its members.
ghost use Rattle.std.specs.Prelude.{◌≡◌, IfOk, IfSome, true, Some, option_map, option_and_then};
ghost use Rattle.std.specs.Option.{option_map_or};
ghost use Rattle.serde_json.specs.Data.{Data, Members as PlainMembers, object, no_items, no_members, put};
ghost use Rattle.serde_json.specs.Find.{as_object};
ghost use Rattle.json_document.specs.Standing.{data_of, items_behind, members_behind, put_all};
ghost use Rattle.page_tree.specs.Name.{is_name};
ghost use Rattle.page_tree.specs.Limits.{have_ascending_names};
ghost use Rattle.page_tree.specs.Value.{name_in, attributes_in, children_in, texts_of};
ghost use Rattle.page_tree.specs.inside.Reading.{ReadsPart};
ghost use Rattle.page_tree.specs.inside.Walking.{ArePartsOf, members_kept, attributes_seen, is_name_above};
ghost use Rattle.page_tree.specs.declared.fault.PageFault.TheVariants.{BadName, BadAttribute, BadChildren};

use crate::fault::PageFault;
use crate::memory::NoMemory;
use crate::text::is_name;
use json_document::{Items, JsonPlace, Members};
use std::alloc::Global;
use std::collections::BTreeMap;

/// The members of an element that count. Of several with one name it is the last.
#[derive(Drop)]
pub(crate) struct Parts<'t, 'a> {
    name: Option<JsonPlace<'t, 'a>>,
    attributes: Option<JsonPlace<'t, 'a>>,
    children: Option<JsonPlace<'t, 'a>>,
}

impl<'t, 'a> Parts<'t, 'a> {
    /// Walks all members.
    pub(crate) fn of(members: Members<'t, 'a>) -> Parts<'t, 'a>
        ensures { ArePartsOf (object (put_all (members_behind members.entry) no_members)) result }
    {
        let mut members = members;
        let mut parts = Parts {
            name: None,
            attributes: None,
            children: None,
        };
        while let Some((name, place)) = members.next() {
            parts.keep(name, place);
        }
        parts
    }

    fn keep(&mut self, name: &str, place: JsonPlace<'t, 'a>)
        ensures { (before : PlainMembers) → ArePartsOf (object before) self.old
            → ArePartsOf (object (put name.now (data_of place.entry) before)) self.new }
    {
        match name {
            "n" => self.name = Some(place),
            "a" => self.attributes = Some(place),
            "c" => self.children = Some(place),
            _other => {}
        }
    }

    /// P2 where it is no name of an element.
    pub(crate) fn name(&self) -> Result<&'a str, PageFault>
        ensures { (d : Data) → ArePartsOf d self.now → ReadsPart (λ name. name.now) is_name BadName (name_in d) result }
    {
        let Some(place) = &self.name else {
            return Err(PageFault::BadName);
        };
        let Some(name) = place.as_str() else {
            return Err(PageFault::BadName);
        };
        if !is_name(name) {
            return Err(PageFault::BadName);
        }
        Ok(name)
    }

    /// The attributes by their names, in linear time where they stand so, else in time n log n; P3 where they are no object of texts.
    pub(crate) fn attributes(&self, alloc: Global) -> Result<Vec<(&'a str, &'a str)>, PageFault>
        ensures { (d : Data) → ArePartsOf d self.now
            → ReadsPart (λ pairs. attributes_seen pairs.items) have_ascending_names BadAttribute (attributes_in d) result }
    {
        let Some(place) = &self.attributes else {
            return Ok(Vec::new(alloc));
        };
        if let Some(pairs) = ascending_texts(alloc, place)? {
            return Ok(pairs);
        }
        let Some(members) = place.members() else {
            return Err(PageFault::BadAttribute);
        };
        let sorted = sorted_members(alloc, members)?;
        sorted_texts(alloc, &sorted)
    }

    /// What stands for the children; P4 where it is no array.
    pub(crate) fn children(&self) -> Result<Option<Items<'t, 'a>>, PageFault>
        ensures { (d : Data) → ArePartsOf d self.now
            → ReadsPart (λ items. option_map_or items_behind items no_items) (λ _. true) BadChildren (children_in d) result }
    {
        let Some(place) = &self.children else {
            return Ok(None);
        };
        match place.items() {
            Some(items) => Ok(Some(items)),
            None => Err(PageFault::BadChildren),
        }
    }
}

// The texts of an object whose members stand in the order of their names, as those of most do. None tells nothing.
fn ascending_texts<'t, 'a>(
    alloc: Global,
    place: &JsonPlace<'t, 'a>,
) -> Result<Option<Vec<(&'a str, &'a str)>>, NoMemory>
    ensures texts { IfOk result (λ found. IfSome found (λ pairs.
        option_and_then texts_of (as_object (data_of place.now)) ≡ Some (attributes_seen pairs.items))) }
    ensures ascending { IfOk result (λ found. IfSome found (λ pairs.
        have_ascending_names (attributes_seen pairs.items) ≡ true)) }
{
    let Some(members) = place.members() else {
        return Ok(None);
    };
    let mut members = members;
    let mut pairs = Vec::new(alloc);
    let mut before = None;
    while let Some((name, value)) = members.next() {
        let Some(text) = value.as_str() else {
            return Ok(None);
        };
        if !is_above(name, before) {
            return Ok(None);
        }
        pairs.push((name, text))?;
        before = Some(name);
    }
    Ok(Some(pairs))
}

fn is_above(name: &str, before: Option<&str>) -> bool
    ensures { result ≡ is_name_above name.now (option_map (λ last. last.now) before.entry) }
{
    match before {
        None => true,
        Some(last) => last < name,
    }
}

// The last one of each name.
fn sorted_members<'t, 'a>(
    alloc: Global,
    members: Members<'t, 'a>,
) -> Result<BTreeMap<&'a str, JsonPlace<'t, 'a>>, NoMemory>
    ensures { IfOk result (λ found.
        members_kept data_of found.entries ≡ put_all (members_behind members.entry) no_members) }
{
    let mut members = members;
    let mut found = BTreeMap::new(alloc);
    while let Some((name, place)) = members.next() {
        found.insert(name, place)?;
    }
    Ok(found)
}

// P3 where one is no text.
fn sorted_texts<'t, 'a>(
    alloc: Global,
    members: &BTreeMap<&'a str, JsonPlace<'t, 'a>>,
) -> Result<Vec<(&'a str, &'a str)>, PageFault>
    ensures { ReadsPart (λ pairs. attributes_seen pairs.items) have_ascending_names BadAttribute
        (texts_of (members_kept data_of members.now.entries)) result }
{
    let mut pairs = Vec::new(alloc);
    for (name, place) in members.iter() {
        let Some(text) = place.as_str() else {
            return Err(PageFault::BadAttribute);
        };
        pairs.push((*name, text))?;
    }
    Ok(pairs)
}
