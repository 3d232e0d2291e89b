//! Paths, and what they select on a page.
ghost use Rattle.std.specs.Prelude.{◌≡◌, ◌≢◌, ◌↔◌, ◌<◌, ℕ, List, [], ◌∷◌, length, IsTrue, Ok, Some, None, MatchOption, IfSome, IfOk, IfErr, option_map};
ghost use Rattle.page_tree.specs.Tree.{Tree};
ghost use Rattle.page_tree.specs.Limits.{nodes};
ghost use Rattle.page_tree.specs.Name.{is_name};
ghost use Rattle.page_tree.specs.Look.{name_at};
ghost use Rattle.page_tree.specs.Number.{place_numbered};
ghost use Rattle.xpath_child.specs.Path.{Step as Plain, IsPath, path_text};
ghost use Rattle.xpath_child.specs.Fault.{path_in, path_fault, GivesPath};
ghost use Rattle.xpath_child.specs.Reaches.{IsTarget};
ghost use Rattle.xpath_child.specs.Targets.{target_in, only_place, place_found};
ghost use Rattle.xpath_child.specs.declared.fault.PathFaultKind.TheVariants.{NoMemory};
ghost use Rattle.xpath_child.specs.inside.Search.{AreSteps, steps_in, steps_left, step_for, note, Notes, hits};

use crate::cutting::{CutStep, CutSteps, FEW, MOST};
use crate::fault::PathFault;
use crate::shared_text::SharedText;
use crate::step::{fault_of, is_match, picks_first};
use page_tree::{NoMemory, Page, Place, Text};
use std::alloc::Global;
use std::marker::Model;

/// A path: 1 to 48 steps, each `/`, then `*` or a name of 1 to 64 bytes, then at most one index `[n]` of 1 to 9 digits, the first not 0. It is
/// this project's own part of the location paths of XPath 1.0 (sections 2 to 2.5). Contracts see it as the list of its steps.
///
/// It is kept as its text alone, which copies share, and cut into steps at each search.
#[derive(Debug, Drop)]
pub struct Path {
    text: SharedText,
}

impl Model for Path {
    ghost use Rattle.std.specs.Prelude.{◌≡◌, List, None, map, drop};
    ghost use Rattle.xpath_child.specs.Path.{Step};
    ghost use Rattle.xpath_child.specs.Fault.{path_fault, step_in, written_steps};

    ghost Value = { List Step };

    ghost view = { λ p. map step_in (written_steps (drop 1 p.text)) };

    ghost invariant = { λ p. path_fault p.text ≡ None };
}

impl Path {
    /// The path that has this text, or the first fault; X1 where it doesn't begin with `/`. The text is cut at each `/`, inside brackets too.
    pub fn read(alloc: Global, text: &str) -> Result<Path, PathFault>
        // Where a path of the grammar has the text, want of memory aside: that path, and no other has the text.
        ensures ok { IfOk result (λ path. IsPath path × (path_text path ≡ text.now)) }
        ensures only { IfOk result (λ path. (other : List Plain) → IsPath other → path_text other ≡ text.now → other ≡ path) }

        // Where none has, and only there: the first fault.
        ensures refused { IfErr result (λ e. e.kind ≢ NoMemory → (p : List Plain) → IsPath p → path_text p ≢ text.now) }
        ensures no_fault { IfOk result (λ _. path_fault text.now ≡ None) }
        ensures fault { IfErr result (λ e. e.kind ≢ NoMemory → path_fault text.now ≡ Some e) }
        ensures memory { IfErr result (λ e. e.kind ≡ NoMemory → e.at ≡ 0) }

        // The same as a function of the text.
        ensures exact { GivesPath (λ path. path) result (path_in text.now) }
    {
        match fault_of(text) {
            Some(fault) => Err(fault),
            None => Ok(Path {
                text: SharedText::from_str(alloc, text)?,
            }),
        }
    }

    /// The text of the path, which is the one that was read.
    pub fn write(&self) -> Result<Text, NoMemory>
        ensures { IfOk result (λ text. text ≡ path_text self.now) }
    {
        self.text.to_text()
    }

    /// What the path selects on a page, as `select`, by its number. The first step selects from the document, whose only child is the root.
    ///
    /// It takes no memory. Each child of a node that a step reached is looked at once, and its name compared with the step's. The search stops at a second
    /// node, and at each node once the index is past.
    pub fn find(&self, page: &Page) -> Found
        ensures target { IsTarget self.now page.now (place_found page.now result) }
        ensures exact { place_found page.now result ≡ target_in self.now page.now }
        ensures there { (number : ℕ) → result ≡ Found.One number → number < nodes page.now }
    {
        let Some(text) = self.text.as_str().strip_prefix('/') else {
            return Found::Missing;
        };
        let few: CutSteps<'_, FEW> = CutSteps::of(text);
        if few.rest.is_none() {
            return find_cut(page, few.cut.as_slice(), few.rest);
        }
        let most: CutSteps<'_, MOST> = CutSteps::of(text);
        find_cut(page, most.cut.as_slice(), most.rest)
    }

    /// What the path selects on a page, by its place.
    pub fn select(&self, page: &Page) -> Result<Target, NoMemory>
        ensures target { IfOk result (λ target. IsTarget self.now page.now target) }
        ensures exact { IfOk result (λ target. target ≡ target_in self.now page.now) }
    {
        match self.find(page) {
            Found::Missing => Ok(Target::Missing),
            Found::One(number) => Ok(Target::One(page.place_of(number)?.unwrap())),
            Found::Several => Ok(Target::Several),
        }
    }

    /// An equal path. Its text isn't copied.
    pub fn copy(&self) -> Result<Path, NoMemory>
        ensures { IfOk result (λ copy. copy ≡ self.now) }
    {
        Ok(Path {
            text: self.text.copy()?,
        })
    }

    /// Whether two paths are equal: their texts are.
    pub fn same(&self, other: &Path) -> bool
        ensures { IsTrue result ↔ (self.now ≡ other.now) }
    {
        self.text.as_str() == other.text.as_str()
    }

    /// Whether it is the path of this text.
    pub fn is_of(&self, text: &str) -> bool
        ensures same { IsTrue result ↔ (path_text self.now ≡ text.now) }
        ensures read { IsTrue result → path_in text.now ≡ Ok self.now }
    {
        self.text.as_str() == text
    }
}

/// What a path selects on a page.
#[derive(Debug, Drop)]
pub enum Target {
    /// No place.
    Missing,
    /// The only place.
    One(Place),
    /// Two places or more.
    Several,
}

impl Target {
    /// The place, where it is the only one.
    pub fn only(&self) -> Option<&Place>
        ensures { option_map (λ place. place.now) result ≡ only_place self.now }
    {
        match self {
            Target::One(place) => Some(place),
            Target::Missing | Target::Several => None,
        }
    }
}

/// What a path selects on a page, by its number among the page's nodes.
#[derive(Clone, Copy, Debug, PartialEq, Eq)]
pub enum Found {
    /// No node.
    Missing,
    /// The only node.
    One(u32),
    /// Two nodes or more.
    Several,
}

impl Found {
    /// Takes in one node more.
    pub(crate) fn note(&mut self, number: u32)
        ensures { (page : Tree) → place_found page self.new ≡ note (place_found page self.old) (place_numbered number page) }
    {
        *self = match self {
            Found::Missing => Found::One(number),
            Found::One(_) | Found::Several => Found::Several,
        };
    }

    pub(crate) fn is_several(&self) -> bool
        ensures { IsTrue result ↔ (self.now ≡ Found.Several) }
    {
        matches!(self, Found::Several)
    }
}

// What a path of these steps selects on a page: those that are cut out, and then those that are left in a text.
fn find_cut(page: &Page, steps: &[CutStep<'_>], left: Option<&str>) -> Found
    requires some { 0 < length steps.now }
    requires left { AreSteps (option_map (λ text. text.now) left) }
    ensures { place_found page.now result
        ≡ target_in (steps_left steps.now (option_map (λ text. text.now) left.entry)) page.now }
{
    let mut found = Found::Missing;
    if let Some((first, others)) = steps.split_first() {
        if is_match(first.test, page.name_of(0)) && picks_first(first.index) {
            visit_child(page, others, left, 0, &mut found);
        }
    }
    found
}

// Notes the nodes that these steps reach from a node: the node itself where there are none. The first ones are cut out of the path's text, the others are
// left in it.
#[cycle(visit)]
#[inline(never)]
fn visit(page: &Page, steps: &[CutStep<'_>], left: Option<&str>, at: u32, found: &mut Found)
    requires { AreSteps (option_map (λ text. text.now) left) }
    ensures { Notes page.now found.old found.new
        (hits page.now (steps_left steps.now (option_map (λ text. text.now) left.entry)) at) }
{
    let Some((step, others)) = steps.split_first() else {
        visit_left(page, left, at, found);
        return;
    };
    let Some(nth) = step.index else {
        visit_each(page, step.test, others, left, at, found);
        return;
    };
    if let Some(child) = nth_child(page, step.test, nth, at) {
        visit_child(page, others, left, child, found);
    }
}

// The same where none is cut out yet.
#[cycle(visit)]
fn visit_left(page: &Page, left: Option<&str>, at: u32, found: &mut Found)
    requires { AreSteps (option_map (λ text. text.now) left) }
    ensures { Notes page.now found.old found.new (hits page.now (steps_in (option_map (λ text. text.now) left.entry)) at) }
{
    match left {
        None => found.note(at),
        Some(text) => {
            let steps: CutSteps<'_, FEW> = CutSteps::of(text);
            visit(page, steps.cut.as_slice(), steps.rest, at, found);
        }
    }
}

// The same, where the first step has that test and no index.
#[cycle(visit)]
fn visit_each(
    page: &Page,
    test: &[u8],
    steps: &[CutStep<'_>],
    left: Option<&str>,
    at: u32,
    found: &mut Found,
)
    requires { AreSteps (option_map (λ text. text.now) left) }
    ensures { Notes page.now found.old found.new (hits page.now
        (step_for test.now None ∷ steps_left steps.now (option_map (λ text. text.now) left.entry)) at) }
{
    let mut child = page.nodes_under(at).start;
    for i in 0..page.children_of(at) {
        if is_match(test, page.name_of(child)) {
            visit_child(page, steps, left, child, found);
            if found.is_several() {
                return;
            }
        }
        child = page.nodes_under(child).end;
    }
}

// The same from a child that matches. It stands within the loop, so that a child from which nothing is reached costs no call.
#[cycle(visit)]
#[inline(always)]
fn visit_child(
    page: &Page,
    steps: &[CutStep<'_>],
    left: Option<&str>,
    child: u32,
    found: &mut Found,
)
    requires { AreSteps (option_map (λ text. text.now) left) }
    ensures { Notes page.now found.old found.new
        (hits page.now (steps_left steps.now (option_map (λ text. text.now) left.entry)) child) }
{
    // (further steps reach nothing from a child without children)
    if page.children_of(child) == 0 && are_more(steps, left) {
        return;
    }
    visit(page, steps, left, child, found);
}

// Whether there is a step.
#[inline(always)]
fn are_more(steps: &[CutStep<'_>], left: Option<&str>) -> bool
    ensures { IsTrue result → 0 < length (steps_left steps.now (option_map (λ text. text.now) left.entry)) }
{
    !steps.is_empty() || left.is_some()
}

// The n-th child of those that match: from there alone further steps lead on. The loop calls and writes nothing, since it goes over each sibling.
fn nth_child(page: &Page, test: &[u8], nth: u32, at: u32) -> Option<u32>
    ensures { MatchOption result ((rest : List Plain) → hits page.now (step_for test.now (Some nth) ∷ rest) at ≡ [])
        (λ child. (rest : List Plain) → hits page.now (step_for test.now (Some nth) ∷ rest) at ≡ hits page.now rest child) }
{
    let mut sibling = page.nodes_under(at).start;
    let mut count = 0;
    for i in 0..page.children_of(at) {
        if is_match(test, page.name_of(sibling)) {
            count += 1;
            if count == nth {
                return Some(sibling);
            }
        }
        sibling = page.nodes_under(sibling).end;
    }
    None
}
