ghost use Rattle.page_tree.specs.declared.fault.PageFault.TheVariants.{NoMemory};
ghost use Rattle.std.specs.Prelude.{◌≡◌, ◌≢◌, IfOk, IfErr, Some, None};
ghost use Rattle.page_tree.specs.Seen.{plain_tree, plain_trees};
ghost use Rattle.page_tree.specs.Fault.{fault_of_tree, all_faults, value_faults, data_of, data_of_all};
ghost use Rattle.page_tree.specs.inside.Reading.{Judges};

use crate::fault::PageFault;
use crate::limits::{MAX_DEPTH, MAX_NODES};
use crate::text::is_name;
use crate::tree::Tree;

/// How many nodes a tree has that is a page, or its first fault in document order; P1 where it is a text.
pub(crate) fn inspect_root(root: &Tree) -> Result<u32, PageFault>
    ensures free { IfOk result (λ _. fault_of_tree (plain_tree root.now) ≡ None) }
    ensures fault { IfErr result (λ e. e ≢ NoMemory → fault_of_tree (plain_tree root.now) ≡ Some e) }
{
    match root {
        Tree::Words(_) => Err(PageFault::NotAnElement),
        Tree::Element { .. } => inspect_node(root, MAX_DEPTH, 0),
    }
}

// So many levels of elements are left for the node, and so many nodes stand before it. Its own fault is P6, P5, P2 or P3, the first in this order.
#[cycle(inspection)]
fn inspect_node(tree: &Tree, levels: u32, before: u32) -> Result<u32, PageFault>
    ensures { Judges (λ n. n) result before (value_faults levels (data_of (plain_tree tree.now))) }
{
    if before >= MAX_NODES {
        return Err(PageFault::TooMany);
    }
    match tree {
        Tree::Words(_text) => Ok(before + 1),
        Tree::Element {
            name,
            attributes,
            children,
        } => {
            if levels == 0 {
                return Err(PageFault::TooDeep);
            }
            if !is_name(name.as_str()) {
                return Err(PageFault::BadName);
            }
            if !attributes.is_ascending() {
                return Err(PageFault::BadAttribute);
            }
            inspect_nodes(children.as_slice(), levels - 1, before + 1)
        }
    }
}

#[cycle(inspection)]
fn inspect_nodes(trees: &[Tree], levels: u32, before: u32) -> Result<u32, PageFault>
    ensures { Judges (λ n. n) result before (all_faults (value_faults levels) (data_of_all (plain_trees trees.now))) }
{
    let mut count = before;
    for tree in trees {
        count = inspect_node(tree, levels, count)?;
    }
    Ok(count)
}
