//! What the nodes of a page send, by numbers.
ghost use Rattle.std.specs.Prelude.{ℕ, List, ◌++◌, ◌≡◌, ◌<◌, ◌==◌, false, if◌then◌else◌, length, set, unwrap_or, IfOk, OnOk, slice_get};
ghost use Rattle.page_tree.specs.Tree.{Tree};
ghost use Rattle.page_tree.specs.Limits.{nodes};
ghost use Rattle.page_tree.specs.Number.{place_numbered};
ghost use Rattle.page_looks.specs.Counterpart.{sent_at};
ghost use Rattle.page_looks.specs.inside.InForms.{AreInForms};
ghost use Rattle.page_looks.specs.inside.Shapes.{told_texts};
ghost use Rattle.page_looks.specs.inside.Ranks.{AreFirst, IsRanked};
ghost use Rattle.page_looks.specs.inside.Numbering.{KnowsAll, PushesTexts};
ghost use Rattle.page_looks.specs.inside.Sends.{leaf_at, is_true, AreEven, NumbersLeaf, NumbersLeaves};
ghost use Rattle.page_looks.specs.inside.Kept.{SendsPage};

use crate::in_forms::{InForm, nodes_in_forms};
use crate::numbering::number_node;
use crate::ranks::{Ranked, number_at};
use crate::shapes::{Shapes, begin_key, count_told};
use crate::tables::key_number;
use crate::telling::{Telling, push_sent};
use page_tree::{NoMemory, Page, Text};
use std::alloc::Global;

/// Equal numbers are those of what sends the same.
#[derive(Drop)]
pub(crate) struct SentNumbers {
    /// By the rank of a seen node what it sends with all that is seen below it.
    pub all: Vec<u32>,
    /// By the number of a node what it sends by itself.
    pub own: Vec<u32>,
    /// What sends nothing by itself.
    pub nothing: u32,
    /// By the number of a look whether all nodes of that look send the same, with all below them.
    pub even: Vec<bool>,
}

impl SentNumbers {
    /// The number of what that node sends by itself, of which there may be none.
    pub(crate) fn own_at(&self, number: u32) -> u32
        ensures { result ≡ unwrap_or (slice_get self.now.own.items number) self.now.nothing }
    {
        match number_at(self.own.as_slice(), number as usize) {
            None => self.nothing,
            Some(own) => own,
        }
    }

    /// Whether all nodes of that look send the same.
    pub(crate) fn is_even(&self, look: u32) -> bool
        ensures { result ≡ is_true (slice_get self.now.even.items look) }
    {
        match self.even.as_slice().get(look as usize) {
            None => false,
            Some(even) => *even,
        }
    }
}

/// Numbers what the nodes of a page send, without the values of fresh names.
pub(crate) fn numbered_sends<'p>(
    alloc: Global,
    page: &'p Page,
    fresh: &[Text],
    ranked: &Ranked,
    below: &Shapes<'_>,
    own: &mut Shapes<'p>,
) -> Result<SentNumbers, NoMemory>
    requires ranked { (known : List Tree) × IsRanked page.now known ranked.now }
    requires knows { (known : List Tree) × KnowsAll below.now own.old known }
    ensures { IfOk result (λ numbers. (known : List Tree) → KnowsAll below.now own.old known
        → SendsPage below.now own.new known fresh.now page.now ranked.now.looks.items numbers) }
{
    let mut nodes = Vec::new(alloc);
    let mut all = Vec::new(alloc);
    let nodes_there = nodes_in_forms(alloc, page, fresh, below, own)?;
    let in_forms = nodes_there.as_slice();
    let telling = Telling::Sent(fresh, in_forms);
    let _root = number_node(alloc, page, 0, &telling, below, own, &mut nodes, &mut all)?;
    let owns = leaf_numbers(alloc, page, fresh, in_forms, below, own)?;
    let past = page.node_count();
    let nothing = leaf_number(alloc, page, past, fresh, in_forms, below, own)?;
    let even = even_looks(
        alloc,
        ranked.looks.as_slice(),
        ranked.first.as_slice(),
        all.as_slice(),
    )?;
    Ok(SentNumbers {
        all,
        own: owns,
        nothing,
        even,
    })
}

// The numbers of what the nodes send by themselves, in their order.
fn leaf_numbers<'p>(
    alloc: Global,
    page: &'p Page,
    fresh: &[Text],
    in_forms: &[InForm],
    below: &Shapes<'_>,
    own: &mut Shapes<'p>,
) -> Result<Vec<u32>, NoMemory>
    requires { AreInForms (below.now.texts ++ own.old.texts) fresh.now page.now in_forms.now }
    ensures leaves { IfOk result (λ numbers. NumbersLeaves below.now own.old own.new numbers.items fresh.now page.now
        (nodes page.now)) }
    ensures in_forms { OnOk result (AreInForms (below.now.texts ++ own.new.texts) fresh.now page.now in_forms.now) }
{
    let mut numbers = Vec::new(alloc);
    for number in 0..page.node_count() {
        let own_one = leaf_number(alloc, page, number, fresh, in_forms, below, own)?;
        numbers.push(own_one)?;
    }
    Ok(numbers)
}

// The number of what a node sends by itself.
fn leaf_number<'p>(
    alloc: Global,
    page: &'p Page,
    number: u32,
    fresh: &[Text],
    in_forms: &[InForm],
    below: &Shapes<'_>,
    own: &mut Shapes<'p>,
) -> Result<u32, NoMemory>
    requires { AreInForms (below.now.texts ++ own.old.texts) fresh.now page.now in_forms.now }
    ensures leaf { IfOk result (λ n. NumbersLeaf below.now own.old own.new n (leaf_at fresh.now page.now number)) }
    ensures in_forms { OnOk result (AreInForms (below.now.texts ++ own.new.texts) fresh.now page.now in_forms.now) }
{
    let mut key = begin_key(alloc, "", below, own)?;
    push_leaf(alloc, page, number, fresh, in_forms, below, own, &mut key)?;
    count_told(&mut key)?;
    let leaf = key_number(&below.keys, &mut own.keys, key)?;
    Ok(leaf)
}

// Pushes the numbers of the texts of what the node with that number sends by itself; a text sends nothing.
#[tactic(auto, using(crate::proofs::SentLaws::named_there, crate::proofs::SentLaws::text_sends, crate::proofs::SentLaws::element_sends))]
fn push_leaf<'p>(
    alloc: Global,
    page: &'p Page,
    number: u32,
    fresh: &[Text],
    in_forms: &[InForm],
    below: &Shapes<'_>,
    own: &mut Shapes<'p>,
    key: &mut Vec<u32>,
) -> Result<(), NoMemory>
    requires { AreInForms (below.now.texts ++ own.old.texts) fresh.now page.now in_forms.now }
    ensures { OnOk result (PushesTexts below.now own.old own.new key.old.items key.new.items
        (told_texts (sent_at fresh.now page.now (place_numbered number page.now)))) }
{
    match page.name_of(number) {
        None => Ok(()),
        Some(name) => {
            push_sent(alloc, page, number, name, fresh, in_forms, below, own, key)?;
            Ok(())
        }
    }
}

// By the number of a look whether all that look so send the same.
fn even_looks(
    alloc: Global,
    looks: &[u32],
    first: &[u32],
    sends: &[u32],
) -> Result<Vec<bool>, NoMemory>
    requires first { AreFirst looks.now first.now }
    requires long { length sends.now ≡ length looks.now }
    ensures { IfOk result (λ even. AreEven looks.now sends.now even.items) }
{
    let mut even = vec![in alloc; true; first.len()]?;
    for i in 0..looks.len() {
        let look = looks[i] as usize;
        let place = first[look] as usize;
        note_look(&mut even, look, sends[i], sends[place - 1]);
    }
    Ok(even)
}

// Notes what one of that look sends, and what the first one does.
fn note_look(even: &mut Vec<bool>, look: usize, sends: u32, first: u32)
    requires { look < length even.old.items }
    ensures { even.new.items ≡ (if sends == first then even.old.items else set even.old.items look false) }
{
    if sends != first {
        even[look] = false;
    }
}
