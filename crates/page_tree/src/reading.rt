ghost use Rattle.std.specs.Prelude.{◌≡◌, ◌≢◌, ◌<◌, ◌≤◌, length, true, IsSome, IfOk, IfErr, OnOk, Some, None};
ghost use Rattle.serde_json.specs.Find.{as_str, as_object};
ghost use Rattle.serde_json.specs.View.{view, items_view};
ghost use Rattle.page_tree.specs.Name.{is_name};
ghost use Rattle.page_tree.specs.Tree.{Tree};
ghost use Rattle.page_tree.specs.Limits.{max_nodes, have_ascending_names};
ghost use Rattle.page_tree.specs.Value.{IsPageOf, name_in, attributes_in, children_in};
ghost use Rattle.page_tree.specs.Fault.{all_faults, value_faults, fault_of_value};
ghost use Rattle.page_tree.specs.inside.Table.{lines};
ghost use Rattle.page_tree.specs.inside.Reading.{Judges, ReadsPart, Adds, AddsAll};
ghost use Rattle.page_tree.specs.declared.fault.PageFault.TheVariants.{BadName, BadAttribute, BadChildren, NoMemory};

use crate::fault::PageFault;
use crate::limits::{MAX_DEPTH, MAX_NODES};
use crate::rows::Spot;
use crate::table::NodeTable;
use crate::text::{Text, is_name};
use crate::tree::Attributes;
use serde_json::Value;
use std::alloc::Global;

/// The table of the tree that a value stands for, or its first fault in document order; P1 where it is no object.
pub(crate) fn read_root(alloc: Global, value: &Value) -> Result<NodeTable, PageFault>
    ensures page { IfOk result (λ table. (t : Tree) × IsPageOf (view value.now) t × (table ≡ lines t)) }
    ensures free { IfOk result (λ _. fault_of_value (view value.now) ≡ None) }
    ensures fault { IfErr result (λ e. e ≢ NoMemory → fault_of_value (view value.now) ≡ Some e) }
{
    if value.as_object().is_none() {
        return Err(PageFault::NotAnElement);
    }
    let mut table = NodeTable::new(alloc);
    let spot = Spot {
        parent: 0,
        position: 0,
    };
    read_node(alloc, value, MAX_DEPTH, spot, &mut table)?;
    Ok(table)
}

// Adds the node that a value stands for, which stands there, and those under it. So many levels of elements are left for it.
// P6 where it is a node too many, P4 where it is neither an object nor a string.
#[cycle(reading)]
fn read_node(
    alloc: Global,
    value: &Value,
    levels: u32,
    spot: Spot,
    table: &mut NodeTable,
) -> Result<(), PageFault>
    ensures judged { Judges (λ _. length table.new) result (length table.old) (value_faults levels (view value.now)) }
    ensures added { OnOk result (Adds (view value.now) spot table.old table.new) }
{
    if table.len() >= MAX_NODES as usize {
        return Err(PageFault::TooMany);
    }
    if let Some(text) = value.as_str() {
        table.push_words(spot, text)?;
        return Ok(());
    }
    match value.as_object() {
        Some(_) => read_object(alloc, value, levels, spot, table),
        None => Err(PageFault::BadChildren),
    }
}

// P5 below the last level.
#[cycle(reading)]
fn read_object(
    alloc: Global,
    value: &Value,
    levels: u32,
    spot: Spot,
    table: &mut NodeTable,
) -> Result<(), PageFault>
    requires object { IsSome (as_object (view value.now)) }
    requires few { length table.old < max_nodes }
    ensures judged { Judges (λ _. length table.new) result (length table.old) (value_faults levels (view value.now)) }
    ensures added { OnOk result (Adds (view value.now) spot table.old table.new) }
{
    if levels == 0 {
        return Err(PageFault::TooDeep);
    }
    let name = read_name(value)?;
    let attributes = read_attributes(alloc, value)?;
    let children = read_children(value)?;
    let number = table.len() as u16;
    // More children than a page can have are a fault, which comes with one of them.
    let count = children.len().min(MAX_NODES as usize) as u16;
    table.push_element(spot, name, attributes.as_slice(), count)?;
    read_items(alloc, children, levels - 1, number, table)?;
    table.end(number);
    Ok(())
}

// P2 where it is no name of an element.
fn read_name(value: &Value) -> Result<&str, PageFault>
    ensures { ReadsPart (λ name. name.now) is_name BadName (name_in (view value.now)) result }
{
    let Some(name) = value.get("n").and_then(Value::as_str) else {
        return Err(PageFault::BadName);
    };
    if !is_name(name) {
        return Err(PageFault::BadName);
    }
    Ok(name)
}

// P3 where they are no object of texts, or their names don't ascend.
fn read_attributes(alloc: Global, value: &Value) -> Result<Attributes, PageFault>
    ensures { ReadsPart (λ given. given) have_ascending_names BadAttribute (attributes_in (view value.now)) result }
{
    let Some(given) = value.get("a") else {
        return Ok(Attributes::from(Vec::new(alloc)));
    };
    let Some(members) = given.as_object() else {
        return Err(PageFault::BadAttribute);
    };
    let mut pairs = Vec::new(alloc);
    for (name, text) in members.iter() {
        pairs.push(read_attribute(alloc, name.as_str(), text)?)?;
    }
    Ok(Attributes::from(pairs))
}

fn read_attribute(alloc: Global, name: &str, text: &Value) -> Result<(Text, Text), PageFault>
    ensures value { ReadsPart (λ pair. pair.1) (λ _. true) BadAttribute (as_str (view text.now)) result }
    ensures name { IfOk result (λ pair. pair.0 ≡ name.now) }
{
    let Some(text) = text.as_str() else {
        return Err(PageFault::BadAttribute);
    };
    Ok((Text::from_str(alloc, name)?, Text::from_str(alloc, text)?))
}

// The values that stand for the children; P4 where they are no array.
fn read_children(value: &Value) -> Result<&[Value], PageFault>
    ensures { ReadsPart (λ vs. items_view vs.now) (λ _. true) BadChildren (children_in (view value.now)) result }
{
    let Some(given) = value.get("c") else {
        return Ok(&[]);
    };
    let Some(items) = given.as_array() else {
        return Err(PageFault::BadChildren);
    };
    Ok(items.as_slice())
}

// Adds the children of the node with that number.
#[cycle(reading)]
fn read_items(
    alloc: Global,
    items: &[Value],
    levels: u32,
    parent: u16,
    table: &mut NodeTable,
) -> Result<(), PageFault>
    requires { length table.old ≤ max_nodes }
    ensures judged { Judges (λ _. length table.new) result (length table.old)
        (all_faults (value_faults levels) (items_view items.now)) }
    ensures added { OnOk result (AddsAll (items_view items.now) parent table.old table.new) }
{
    let mut position = 0;
    for item in items {
        read_node(alloc, item, levels, Spot { parent, position }, table)?;
        position += 1;
    }
    Ok(())
}
