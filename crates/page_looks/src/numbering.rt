//! The numbers of looks, and of what is sent, made from the leaves of a page up.
ghost use Rattle.std.specs.Prelude.{suc, [], ◌∷◌, ◌++◌, ◌≡◌, ◌<◌, ◌≤◌, length, IfOk, OnOk, Some};
ghost use Rattle.page_tree.specs.Tree.{Tree, element, tree, no_trees};
ghost use Rattle.page_tree.specs.Limits.{nodes};
ghost use Rattle.page_tree.specs.Look.{node_at, name_at};
ghost use Rattle.page_tree.specs.inside.Kept.{attributes_at, children_at, words_at};
ghost use Rattle.page_tree.specs.Number.{place_numbered};
ghost use Rattle.page_looks.specs.Outline.{open_children, outlines};
ghost use Rattle.page_looks.specs.inside.Told.{told_by};
ghost use Rattle.page_looks.specs.inside.Ranks.{seen_from, seen_in};
ghost use Rattle.page_looks.specs.inside.InForms.{IsReady};
ghost use Rattle.page_looks.specs.inside.Numbering.{PushesTexts, BeginsNode, NumbersNode, NumbersParts};

use crate::seeing::{is_covered, is_seen};
use crate::shapes::{Shapes, begin_key, count_told, push_text};
use crate::tables::key_number;
use crate::telling::{Telling, push_telling};
use page_tree::{NoMemory, Page};
use std::alloc::Global;
use std::borrow::CowStr;

// The key of the text with that number.
fn words_key<'p>(
    alloc: Global,
    page: &'p Page,
    number: u32,
    below: &Shapes<'_>,
    own: &mut Shapes<'p>,
) -> Result<Vec<u32>, NoMemory>
    ensures { IfOk result (λ key. PushesTexts below.now own.old own.new (0 ∷ []) key.items
        (words_at (place_numbered number page.now) page.now ∷ [])) }
{
    let mut key = Vec::with_capacity(alloc, 2)?;
    key.push(0)?;
    push_text(
        below,
        own,
        &mut key,
        CowStr::Borrowed(page.words_of(number)),
    )?;
    Ok(key)
}

// How the key of the element with that number and that name begins: all but its parts.
fn element_key<'p>(
    alloc: Global,
    page: &'p Page,
    number: u32,
    name: &'p str,
    telling: &Telling<'_>,
    below: &Shapes<'_>,
    own: &mut Shapes<'p>,
) -> Result<Vec<u32>, NoMemory>
    requires there { number < nodes page.now }
    requires name { name_at (place_numbered number page.now) page.now ≡ Some name.now }
    requires ready { IsReady telling.now (below.now.texts ++ own.old.texts) page.now }
    ensures { IfOk result (λ key. BeginsNode (told_by telling.now) below.now own.old own.new key.items
        (element name.now (attributes_at (place_numbered number page.now) page.now)
        (children_at (place_numbered number page.now) page.now))) }
{
    let mut key = begin_key(alloc, name, below, own)?;
    push_telling(alloc, page, number, name, telling, below, own, &mut key)?;
    count_told(&mut key)?;
    Ok(key)
}

// How the key of the node with that number begins.
fn own_key<'p>(
    alloc: Global,
    page: &'p Page,
    number: u32,
    telling: &Telling<'_>,
    below: &Shapes<'_>,
    own: &mut Shapes<'p>,
) -> Result<Vec<u32>, NoMemory>
    requires there { number < nodes page.now }
    requires ready { IsReady telling.now (below.now.texts ++ own.old.texts) page.now }
    ensures { IfOk result (λ key. (m : Tree) → node_at (place_numbered number page.now) page.now ≡ Some m
        → BeginsNode (told_by telling.now) below.now own.old own.new key.items m) }
{
    match page.name_of(number) {
        None => {
            let text_key = words_key(alloc, page, number, below, own)?;
            Ok(text_key)
        }
        Some(name) => {
            let key = element_key(alloc, page, number, name, telling, below, own)?;
            Ok(key)
        }
    }
}

/// Numbers what is told of the node with that number and of the seen nodes under it, each with all below it; it gives the number of its own.
#[cycle(numbering)]
pub(crate) fn number_node<'p>(
    alloc: Global,
    page: &'p Page,
    number: u32,
    telling: &Telling<'_>,
    below: &Shapes<'_>,
    own: &mut Shapes<'p>,
    seen: &mut Vec<u32>,
    looks: &mut Vec<u32>,
) -> Result<u32, NoMemory>
    requires there { number < nodes page.now }
    requires ready { IsReady telling.now (below.now.texts ++ own.old.texts) page.now }
    ensures seen { OnOk result ((m : Tree) → node_at (place_numbered number page.now) page.now ≡ Some m
        → seen.new.items ≡ seen.old.items ++ seen_from number m) }
    ensures looks { IfOk result (λ n. (m : Tree) → node_at (place_numbered number page.now) page.now ≡ Some m
        → NumbersNode (told_by telling.now) below.now own.old own.new looks.old.items looks.new.items n m) }
    ensures longer { OnOk result (length looks.old.items ≤ length looks.new.items) }
    ensures ready { OnOk result (IsReady telling.now (below.now.texts ++ own.new.texts) page.now) }
{
    let mut key = own_key(alloc, page, number, telling, below, own)?;
    let rank = looks.len();
    seen.push(number)?;
    looks.push(0)?;
    number_parts(
        alloc, page, number, telling, below, own, seen, looks, &mut key,
    )?;
    let look = key_number(&below.keys, &mut own.keys, key)?;
    looks[rank] = look;
    Ok(look)
}

// The same of a child, if it is seen; the number of its look is pushed.
#[cycle(numbering)]
fn number_child<'p>(
    alloc: Global,
    page: &'p Page,
    child: u32,
    telling: &Telling<'_>,
    below: &Shapes<'_>,
    own: &mut Shapes<'p>,
    seen: &mut Vec<u32>,
    looks: &mut Vec<u32>,
    key: &mut Vec<u32>,
) -> Result<(), NoMemory>
    requires there { child < nodes page.now }
    requires ready { IsReady telling.now (below.now.texts ++ own.old.texts) page.now }
    ensures seen { OnOk result ((m : Tree) → node_at (place_numbered child page.now) page.now ≡ Some m
        → seen.new.items ≡ seen.old.items ++ seen_in child (tree m no_trees)) }
    ensures looks { OnOk result ((m : Tree) → node_at (place_numbered child page.now) page.now ≡ Some m
        → NumbersParts below.now own.old own.new looks.old.items looks.new.items key.old.items key.new.items
        (outlines (told_by telling.now) (tree m no_trees))) }
    ensures longer { OnOk result (length looks.old.items ≤ length looks.new.items) }
    ensures ready { OnOk result (IsReady telling.now (below.now.texts ++ own.new.texts) page.now) }
{
    if is_seen(page, child) {
        let part = number_node(alloc, page, child, telling, below, own, seen, looks)?;
        key.push(part)?;
    }
    Ok(())
}

// The same of the children of the node with that number.
#[cycle(numbering)]
fn number_parts<'p>(
    alloc: Global,
    page: &'p Page,
    number: u32,
    telling: &Telling<'_>,
    below: &Shapes<'_>,
    own: &mut Shapes<'p>,
    seen: &mut Vec<u32>,
    looks: &mut Vec<u32>,
    key: &mut Vec<u32>,
) -> Result<(), NoMemory>
    requires there { number < nodes page.now }
    requires ready { IsReady telling.now (below.now.texts ++ own.old.texts) page.now }
    ensures seen { OnOk result ((m : Tree) → node_at (place_numbered number page.now) page.now ≡ Some m
        → seen.new.items ≡ seen.old.items ++ seen_in (suc number) (open_children m)) }
    ensures looks { OnOk result ((m : Tree) → node_at (place_numbered number page.now) page.now ≡ Some m
        → NumbersParts below.now own.old own.new looks.old.items looks.new.items key.old.items key.new.items
        (outlines (told_by telling.now) (open_children m))) }
    ensures longer { OnOk result (length looks.old.items ≤ length looks.new.items) }
    ensures ready { OnOk result (IsReady telling.now (below.now.texts ++ own.new.texts) page.now) }
{
    if is_covered(page, number) {
        return Ok(());
    }
    let mut child = page.nodes_under(number).start;
    for _i in 0..page.children_of(number) {
        number_child(alloc, page, child, telling, below, own, seen, looks, key)?;
        child = page.nodes_under(child).end;
    }
    Ok(())
}
