ghost use Rattle.std.specs.Prelude.{ℕ, List, ◌≡◌, ◌≢◌, ◌↔◌, IsTrue, IsSome, IfOk, IfErr, MatchResult, Some, None, option_map, length};
ghost use Rattle.std.specs.List.{Contains};
ghost use Rattle.std.specs.List.Sorted.{IsStrictlySortedBy};
ghost use Rattle.std.specs.Ordering.{nat_cmp};
ghost use Rattle.std.specs.Cmp.Lexicographic.{slice_cmp};
ghost use Rattle.serde_json.specs.View.{view};
ghost use Rattle.json_document.specs.Standing.{data_of};
ghost use Rattle.page_tree.specs.Tree.{Tree as PlainTree};
ghost use Rattle.page_tree.specs.Limits.{IsPage, nodes};
ghost use Rattle.page_tree.specs.Value.{IsPageOf};
ghost use Rattle.page_tree.specs.Fault.{fault_of_tree, fault_of_value, page_or_fault, GivesPage, FindsPage};
ghost use Rattle.page_tree.specs.declared.fault.PageFault.TheVariants.{NoMemory};
ghost use Rattle.page_tree.specs.Look.{node_at, name_at, child_count_at, attribute_at, text_at};
ghost use Rattle.page_tree.specs.Under.{AreUnder, places_under};
ghost use Rattle.page_tree.specs.Control.{control_at, start_text_at, start_checked_at};

use crate::building::table_of;
use crate::control::Control;
use crate::fault::PageFault;
use crate::inspection::inspect_root;
use crate::memory::NoMemory;
use crate::place::Place;
use crate::reading::read_root;
use crate::table::NodeTable;
use crate::text::Text;
use crate::tree::Tree;
use crate::walking::walk_root;
use json_document::JsonPlace;
use serde_json::Value;
use std::alloc::{AllocError, Global};
use std::marker::Model;
use std::sync::Arc;

/// A page: a tree whose root is an element, within the limits. Contracts see it as its plain tree. It is kept as the table of its nodes, which are
/// numbered from 0 on in document order, texts too; a copy shares the table.
#[derive(Debug, Drop)]
pub struct Page {
    table: Arc<NodeTable>,
}

impl Model for Page {
    ghost use Rattle.std.specs.Arc.{arc_value};
    ghost use Rattle.page_tree.specs.Tree.{Tree};
    ghost use Rattle.page_tree.specs.inside.TreeCode.{tree_code};
    ghost use Rattle.page_tree.specs.inside.Table.{tree_of_lines, IsTable};

    ghost Value = { Tree };

    ghost coded = { tree_code };

    ghost view = { λ p. tree_of_lines (arc_value p.table) };

    ghost invariant = { λ p. IsTable (arc_value p.table) };
}

impl Page {
    ghost use Rattle.page_tree.specs.Seen.{plain_tree};
    ghost use Rattle.page_tree.specs.inside.Table.{lines, tree_of_lines, IsTable};

    /// The page that a tree is.
    ///
    /// Its faults are `NotAnElement`, `TooMany`, `TooDeep`, `BadName` and `BadAttribute` (names that don't ascend strictly, in byte order): the
    /// first in document order, and at one node the first in this order.
    pub fn new(alloc: Global, root: Tree) -> Result<Page, PageFault>
        ensures page { IfOk result (λ page. page ≡ plain_tree root) }
        ensures ok { IfOk result (λ page. IsPage page × (fault_of_tree page ≡ None)) }
        ensures refused { IfErr result (λ e. e ≢ NoMemory → ¬ IsPage (plain_tree root)) }
        ensures fault { IfErr result (λ e. e ≢ NoMemory → fault_of_tree (plain_tree root) ≡ Some e) }
    {
        match inspect_root(&root) {
            Ok(_count) => {
                let table = table_of(alloc, &root)?;
                Ok(Page::holding(alloc, &table)?)
            }
            Err(fault) => {
                root.take_apart(alloc);
                Err(fault)
            }
        }
    }

    /// The page that a JSON value stands for: an element is an object with `n` (its name), `a` (an object of attributes whose values are texts,
    /// optional) and `c` (an array of children, optional), a text is a string; other members are ignored.
    ///
    /// The fault is the first in document order, and at one node the first of `TooMany`, `NotAnElement` (the root is no object) or `BadChildren`
    /// (a child is neither object nor string), `TooDeep`, `BadName`, `BadAttribute`, `BadChildren` (`c` is no array).
    pub fn from_value(alloc: Global, value: &Value) -> Result<Page, PageFault>
        ensures ok { IfOk result (λ page. IsPageOf (view value.now) page × (fault_of_value (view value.now) ≡ None)) }
        ensures only { IfOk result (λ page. (other : PlainTree) → IsPageOf (view value.now) other → other ≡ page) }
        ensures refused { IfErr result (λ e. e ≢ NoMemory → (page : PlainTree) → ¬ IsPageOf (view value.now) page) }
        ensures fault { IfErr result (λ e. e ≢ NoMemory → fault_of_value (view value.now) ≡ Some e) }

        // The same as functions.
        ensures exact { GivesPage result (page_or_fault (view value.now)) }
        ensures found { FindsPage (view value.now) result }
    {
        let table = read_root(alloc, value)?;
        Ok(Page::holding(alloc, &table)?)
    }

    /// The page that the value at a place of a JSON document stands for: the same as of the value (`from_value`), of which no tree is made first.
    pub fn from_place(alloc: Global, place: &JsonPlace<'_, '_>) -> Result<Page, PageFault>
        ensures ok { IfOk result (λ page. IsPageOf (data_of place.now) page × (fault_of_value (data_of place.now) ≡ None)) }
        ensures only { IfOk result (λ page. (other : PlainTree) → IsPageOf (data_of place.now) other → other ≡ page) }
        ensures refused { IfErr result (λ e. e ≢ NoMemory → (page : PlainTree) → ¬ IsPageOf (data_of place.now) page) }
        ensures fault { IfErr result (λ e. e ≢ NoMemory → fault_of_value (data_of place.now) ≡ Some e) }

        // The same as functions.
        ensures exact { GivesPage result (page_or_fault (data_of place.now)) }
        ensures found { FindsPage (data_of place.now) result }
    {
        let table = walk_root(alloc, place)?;
        Ok(Page::holding(alloc, &table)?)
    }

    // The page of that table.
    fn holding(alloc: Global, table: &NodeTable) -> Result<Page, NoMemory>
        requires { IsTable table.now }
        ensures { IfOk result (λ page. page ≡ tree_of_lines table.now) }
    {
        match Arc::new(alloc, table.fitted()?) {
            Ok(table) => Ok(Page { table }),
            Err(_) => Err(AllocError),
        }
    }

    #[tactic(auto, using(crate::proofs::LookLaws::line_count))]
    pub(crate) fn table(&self) -> &NodeTable
        ensures lines { result.now ≡ lines self.now }
        ensures count { length result.now ≡ nodes self.now }
        ensures page { IsPage self.now }
    {
        &self.table
    }

    /// An equal page, which shares the table: nothing of it is copied.
    pub fn copy(&self) -> Result<Page, NoMemory>
        ensures { IfOk result (λ page. page ≡ self.now) }
    {
        let table = Arc::try_clone(&self.table)?;
        Ok(Page { table })
    }

    /// Whether two pages are equal: their trees are.
    pub fn same(&self, other: &Page) -> bool
        ensures { IsTrue result ↔ (self.now ≡ other.now) }
    {
        self.table().same(other.table())
    }

    /// Tells a proof that the page is within the limits; nothing is done.
    pub fn within_limits(&self)
        ensures { IsPage self.now }
    {
        let _ = &self.table;
    }

    /// The name of the element there; none for a text, or where no node is.
    pub fn name(&self, place: &Place) -> Option<&str>
        ensures { option_map (λ name. name.now) result ≡ name_at place.now self.now }
    {
        self.name_of(self.number_of(place)?)
    }

    /// How many children the node there has, texts too; 0 where no node is.
    pub fn children(&self, place: &Place) -> u32
        ensures { result ≡ child_count_at place.now self.now }
    {
        match self.number_of(place) {
            None => 0,
            Some(number) => self.children_of(number),
        }
    }

    /// The value of an attribute of the element there.
    pub fn attribute(&self, place: &Place, name: &str) -> Option<&str>
        ensures { option_map (λ value. value.now) result ≡ attribute_at place.now name.now self.now }
    {
        self.attribute_of(self.number_of(place)?, name)
    }

    /// What the node there is to a form; Other for a text, or where no node is.
    pub fn control(&self, place: &Place) -> Control
        ensures { result ≡ control_at place.now self.now }
    {
        match self.number_of(place) {
            None => Control::Other,
            Some(number) => self.control_of(number),
        }
    }

    /// The text that a Text control starts with; none for every other node, or where no node is.
    pub fn start_text(&self, place: &Place) -> Result<Option<Text>, NoMemory>
        ensures { IfOk result (λ text. text ≡ start_text_at place.now self.now) }
    {
        let Some(number) = self.number_of(place) else {
            return Ok(None);
        };
        match self.start_text_of(number)? {
            None => Ok(None),
            Some(text) => Ok(Some(Text::from(text.into_owned(self.table().allocator())?))),
        }
    }

    /// Whether a Check or Radio starts on; false for every other node, or where no node is.
    pub fn start_checked(&self, place: &Place) -> bool
        ensures { result ≡ start_checked_at place.now self.now }
    {
        match self.number_of(place) {
            None => false,
            Some(number) => self.start_checked_of(number),
        }
    }

    /// All texts at or under the node there, joined in document order; empty where no node is.
    pub fn text_under(&self, place: &Place) -> Result<Text, NoMemory>
        ensures { IfOk result (λ text. text ≡ text_at place.now self.now) }
    {
        match self.number_of(place) {
            None => Ok(Text::from(String::new(self.table().allocator()))),
            Some(number) => self.text_of(number),
        }
    }

    /// The places of all nodes under the one there, texts too, in document order; none where no node is.
    pub fn places_under(&self, place: &Place) -> Result<Vec<Place>, NoMemory>
        ensures exact { IfOk result (λ found. found.items ≡ places_under place.now self.now) }
        ensures every { IfOk result (λ found. AreUnder place.now self.now found.items) }
        ensures order { IfOk result (λ found. IsStrictlySortedBy (slice_cmp nat_cmp) found.items) }
    {
        let mut found = Vec::new(self.table().allocator());
        if let Some(number) = self.number_of(place) {
            let under = self.nodes_under(number);
            for below in under.start..under.end {
                found.push(self.place_numbered(below)?)?;
            }
        }
        Ok(found)
    }
}
