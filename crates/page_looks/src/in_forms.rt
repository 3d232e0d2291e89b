//! What the nodes of a page are in the forms around them: looked up once, since forms may stand in one another, and each
//! tells what all unseen controls under it send.
ghost use Rattle.std.specs.Prelude.{ℕ, List, [], ◌++◌, ◌≡◌, ◌<◌, IfOk, OnOk, Some, ◌||◌, not, if◌then◌else◌};
ghost use Rattle.page_tree.specs.Tree.{Tree};
ghost use Rattle.page_tree.specs.Limits.{nodes};
ghost use Rattle.page_tree.specs.Look.{node_at};
ghost use Rattle.page_tree.specs.Number.{place_numbered};
ghost use Rattle.page_tree.specs.inside.Kept.{children_at};
ghost use Rattle.page_looks.specs.Sending.{unseen_at, unseen_in, untouched_pairs};
ghost use Rattle.page_looks.specs.inside.Numbering.{GrowsTexts};
ghost use Rattle.page_looks.specs.inside.InForms.{pair_numbers, IsInForm, AreInForms, PushesKnown};

use crate::seeing::is_seen_element;
use crate::sending::untouched_of;
use crate::shapes::{Shapes, number_pair};
use page_tree::{NoMemory, Page, Text};
use std::alloc::Global;

/// What a node is in the forms around it.
#[derive(Clone, Copy)]
pub(crate) struct InForm {
    /// Whether an element is seen, where what stands above it is.
    pub seen: bool,
    /// Whether nothing is seen under it.
    pub closed: bool,
    /// The numbers of the name and the value that it sends if nobody touches it.
    pub pair: Option<(u32, u32)>,
}

impl InForm {
    // Whether nobody sees it, or what covers it.
    fn hides(&self, covered: bool) -> bool
        ensures { result ≡ (covered || not self.now.seen) }
    {
        covered || !self.seen
    }

    // Whether nobody sees what stands under it.
    fn closes(&self, hidden: bool) -> bool
        ensures { result ≡ (hidden || self.now.closed) }
    {
        hidden || self.closed
    }
}

/// What all nodes of a page are there, in their order.
pub(crate) fn nodes_in_forms<'p>(
    alloc: Global,
    page: &'p Page,
    fresh: &[Text],
    below: &Shapes<'_>,
    own: &mut Shapes<'p>,
) -> Result<Vec<InForm>, NoMemory>
    ensures all { IfOk result (λ all. AreInForms (below.now.texts ++ own.new.texts) fresh.now page.now all.items) }
    ensures grown { OnOk result (GrowsTexts below.now own.old own.new) }
{
    let mut all = Vec::new(alloc);
    for number in 0..page.node_count() {
        let one = node_in_forms(page, number, fresh, below, own)?;
        all.push(one)?;
    }
    Ok(all)
}

// What one is.
fn node_in_forms<'p>(
    page: &'p Page,
    number: u32,
    fresh: &[Text],
    below: &Shapes<'_>,
    own: &mut Shapes<'p>,
) -> Result<InForm, NoMemory>
    ensures one { IfOk result (λ one. (m : Tree) → node_at (place_numbered number page.now) page.now ≡ Some m
        → IsInForm (below.now.texts ++ own.new.texts) fresh.now m one) }
    ensures grown { OnOk result (GrowsTexts below.now own.old own.new) }
{
    match page.name_of(number) {
        None => Ok(InForm {
            seen: true,
            closed: false,
            pair: None,
        }),
        Some(name) => {
            let told = untouched_of(page, number, fresh)?;
            let pair = number_pair(below, own, told)?;
            let seen = is_seen_element(page, number, name);
            let closed = name == "textarea";
            Ok(InForm { seen, closed, pair })
        }
    }
}

// Pushes the numbers of the pairs of the unseen controls at and under the node with that number; `covered` says that it stands under what isn't seen.
#[cycle(unseen)]
fn push_unseen(
    page: &Page,
    number: u32,
    covered: bool,
    all: &[InForm],
    key: &mut Vec<u32>,
) -> Result<(), NoMemory>
    requires { number < nodes page.now }
    ensures { OnOk result ((texts fresh : List (List ℕ)) → AreInForms texts fresh page.now all.now → (m : Tree)
        → node_at (place_numbered number page.now) page.now ≡ Some m
        → PushesKnown texts key.old.items key.new.items (untouched_pairs fresh (unseen_at covered m))) }
{
    let Some(one) = all.get(number as usize) else {
        return Ok(());
    };
    let hidden = one.hides(covered);
    push_hidden(hidden, one.pair, key)?;
    let closed = one.closes(hidden);
    push_under(page, number, closed, all, key)?;
    Ok(())
}

/// The same of the children of the node with that number.
#[cycle(unseen)]
pub(crate) fn push_under(
    page: &Page,
    number: u32,
    covered: bool,
    all: &[InForm],
    key: &mut Vec<u32>,
) -> Result<(), NoMemory>
    requires { number < nodes page.now }
    ensures { OnOk result ((texts fresh : List (List ℕ)) → AreInForms texts fresh page.now all.now
        → PushesKnown texts key.old.items key.new.items
        (untouched_pairs fresh (unseen_in covered (children_at (place_numbered number page.now) page.now)))) }
{
    let mut child = page.nodes_under(number).start;
    for _i in 0..page.children_of(number) {
        push_unseen(page, child, covered, all, key)?;
        child = page.nodes_under(child).end;
    }
    Ok(())
}

// Pushes the numbers of a pair, where what sends it is hidden.
fn push_hidden(hidden: bool, pair: Option<(u32, u32)>, key: &mut Vec<u32>) -> Result<(), NoMemory>
    ensures { OnOk result (key.new.items ≡ key.old.items ++ (if hidden then pair_numbers pair else [])) }
{
    if !hidden {
        return Ok(());
    }
    match pair {
        None => Ok(()),
        Some((name, value)) => {
            key.push(name)?;
            key.push(value)?;
            Ok(())
        }
    }
}
