//! The table of a tree.

ghost use Rattle.std.specs.Prelude.{◌≡◌, ◌+◌, ◌≤◌, ◌++◌, IfOk, OnOk, length};
ghost use Rattle.page_tree.specs.Limits.{nodes, max_nodes};
ghost use Rattle.page_tree.specs.inside.Building.{nodes_in};
ghost use Rattle.page_tree.specs.Seen.{plain_tree, plain_trees};
ghost use Rattle.page_tree.specs.inside.Table.{lines, lines_of, lines_from};

use crate::memory::NoMemory;
use crate::rows::Spot;
use crate::table::NodeTable;
use crate::tree::Tree;
use std::alloc::Global;

/// The table of a tree that has not too many nodes.
pub(crate) fn table_of(alloc: Global, root: &Tree) -> Result<NodeTable, NoMemory>
    requires { nodes (plain_tree root.now) ≤ max_nodes }
    ensures { IfOk result (λ table. table ≡ lines (plain_tree root.now)) }
{
    let mut table = NodeTable::new(alloc);
    let spot = Spot {
        parent: 0,
        position: 0,
    };
    add_node(&mut table, root, spot)?;
    Ok(table)
}

// Adds a node that stands there, and those under it.
#[cycle(building)]
fn add_node(table: &mut NodeTable, tree: &Tree, spot: Spot) -> Result<(), NoMemory>
    requires few { length table.old + nodes (plain_tree tree.now) ≤ max_nodes }
    ensures { OnOk result (table.new ≡ table.old ++ lines_of spot (length table.old) (plain_tree tree.now)) }
{
    match tree {
        Tree::Words(text) => table.push_words(spot, text.as_str())?,
        Tree::Element {
            name,
            attributes,
            children,
        } => {
            let number = table.len() as u16;
            table.push_element(
                spot,
                name.as_str(),
                attributes.as_slice(),
                children.as_slice().len() as u16,
            )?;
            add_children(table, children.as_slice(), number)?;
            table.end(number);
        }
    }
    Ok(())
}

// Adds the children of the node of that number, and those under them.
#[cycle(building)]
fn add_children(table: &mut NodeTable, children: &[Tree], parent: u16) -> Result<(), NoMemory>
    requires few { length table.old + nodes_in children.now ≤ max_nodes }
    ensures { OnOk result (table.new ≡ table.old ++ lines_from parent 0 (length table.old) (plain_trees children.now)) }
{
    let mut position = 0;
    for child in children {
        add_node(table, child, Spot { parent, position })?;
        position += 1;
    }
    Ok(())
}
