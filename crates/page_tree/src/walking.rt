//! The table of the tree that a value in a JSON document stands for, made by one walk over the document: what `reading` does of a value.
ghost use Rattle.std.specs.Prelude.{◌≡◌, ◌≢◌, ◌<◌, ◌≤◌, length, IsSome, IfOk, IfErr, OnOk, Some, None};
ghost use Rattle.std.specs.Option.{option_map_or};
ghost use Rattle.serde_json.specs.Data.{object, no_items, no_members};
ghost use Rattle.serde_json.specs.Events.{items_len};
ghost use Rattle.json_document.specs.Standing.{data_of, items_behind, members_behind, put_all};
ghost use Rattle.page_tree.specs.Tree.{Tree};
ghost use Rattle.page_tree.specs.Limits.{max_nodes};
ghost use Rattle.page_tree.specs.Value.{IsPageOf};
ghost use Rattle.page_tree.specs.Fault.{all_faults, value_faults, fault_of_value};
ghost use Rattle.page_tree.specs.inside.Table.{lines};
ghost use Rattle.page_tree.specs.inside.Reading.{Judges, Adds, AddsAll};
ghost use Rattle.page_tree.specs.declared.fault.PageFault.TheVariants.{NoMemory};

use crate::fault::PageFault;
use crate::limits::{MAX_DEPTH, MAX_NODES};
use crate::parts::Parts;
use crate::rows::Spot;
use crate::table::NodeTable;
use json_document::{Items, JsonPlace, Members};
use std::alloc::Global;

/// The table of the tree that the value at a place stands for, or its first fault in document order; P1 where it is no object.
pub(crate) fn walk_root(alloc: Global, place: &JsonPlace<'_, '_>) -> Result<NodeTable, PageFault>
    ensures page { IfOk result (λ table. (t : Tree) × IsPageOf (data_of place.now) t × (table ≡ lines t)) }
    ensures free { IfOk result (λ _. fault_of_value (data_of place.now) ≡ None) }
    ensures fault { IfErr result (λ e. e ≢ NoMemory → fault_of_value (data_of place.now) ≡ Some e) }
{
    let Some(members) = place.members() else {
        return Err(PageFault::NotAnElement);
    };
    let mut table = NodeTable::new(alloc);
    let spot = Spot {
        parent: 0,
        position: 0,
    };
    walk_element(alloc, members, MAX_DEPTH, spot, &mut table)?;
    Ok(table)
}

// Adds the node that a value stands for, which stands there, and those under it. So many levels of elements are left for it.
// P6 where it is a node too many, P4 where it is neither an object nor a string.
#[cycle(walking)]
fn walk_node<'t, 'a>(
    alloc: Global,
    place: &JsonPlace<'t, 'a>,
    levels: u32,
    spot: Spot,
    table: &mut NodeTable,
) -> Result<(), PageFault>
    ensures judged { Judges (λ _. length table.new) result (length table.old) (value_faults levels (data_of place.now)) }
    ensures added { OnOk result (Adds (data_of place.now) spot table.old table.new) }
{
    if table.len() >= MAX_NODES as usize {
        return Err(PageFault::TooMany);
    }
    if let Some(text) = place.as_str() {
        table.push_words(spot, text)?;
        return Ok(());
    }
    match place.members() {
        Some(members) => walk_element(alloc, members, levels, spot, table),
        None => Err(PageFault::BadChildren),
    }
}

// The same of an object with those members. P5 below the last level.
#[cycle(walking)]
fn walk_element<'t, 'a>(
    alloc: Global,
    members: Members<'t, 'a>,
    levels: u32,
    spot: Spot,
    table: &mut NodeTable,
) -> Result<(), PageFault>
    requires few { length table.old < max_nodes }
    ensures judged { Judges (λ _. length table.new) result (length table.old)
        (value_faults levels (object (put_all (members_behind members.entry) no_members))) }
    ensures added { OnOk result (Adds (object (put_all (members_behind members.entry) no_members)) spot
        table.old table.new) }
{
    if levels == 0 {
        return Err(PageFault::TooDeep);
    }
    let parts = Parts::of(members);
    let name = parts.name()?;
    let attributes = parts.attributes(alloc)?;
    let children = parts.children()?;
    let number = table.len() as u16;
    table.push_borrowed(spot, name, attributes.as_slice())?;
    let count = walk_items(alloc, children, levels - 1, number, table)?;
    table.set_children(number, count);
    table.end(number);
    Ok(())
}

// Adds the children of the node with that number, and tells how many they are.
#[cycle(walking)]
fn walk_items(
    alloc: Global,
    items: Option<Items<'_, '_>>,
    levels: u32,
    parent: u16,
    table: &mut NodeTable,
) -> Result<u16, PageFault>
    requires { length table.old ≤ max_nodes }
    ensures judged { Judges (λ _. length table.new) result (length table.old)
        (all_faults (value_faults levels) (option_map_or items_behind items.entry no_items)) }
    ensures added { OnOk result (AddsAll (option_map_or items_behind items.entry no_items) parent table.old table.new) }
    ensures count { IfOk result (λ count. count ≡ items_len (option_map_or items_behind items.entry no_items)) }
{
    let Some(items) = items else {
        return Ok(0);
    };
    let mut rest = items;
    let mut position = 0;
    while let Some(place) = rest.next() {
        walk_node(alloc, &place, levels, Spot { parent, position }, table)?;
        position += 1;
    }
    Ok(position)
}
