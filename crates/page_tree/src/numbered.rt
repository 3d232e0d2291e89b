//! Looks at a page by the numbers of its nodes. Past the last one they answer as where no node is.
ghost use Rattle.std.specs.Prelude.{◌⊎◌, ◌≡◌, ◌<◌, ◌≤◌, suc, IfOk, MatchOption, option_map, None};
ghost use Rattle.page_tree.specs.Limits.{nodes, max_nodes};
ghost use Rattle.page_tree.specs.Look.{node_at, name_at, child_count_at, attribute_at, text_at};
ghost use Rattle.page_tree.specs.Number.{place_numbered, place_of, AreNumbersUnder, IsNumberOf, IsChild, IsParent, IsNext};

use crate::memory::NoMemory;
use crate::page::Page;
use crate::place::Place;
use crate::text::Text;
use std::ops::Range;

impl Page {
    /// How many nodes the page has, texts too.
    pub fn node_count(&self) -> u32
        ensures { result ≡ nodes self.now }
    {
        self.table().len() as u32
    }

    // The number as an index, where a node has it.
    pub(crate) fn index(&self, number: u32) -> Option<usize>
        ensures index { MatchOption result (nodes self.now ≤ number) (λ index. (index ≡ number) × (number < nodes self.now)) }
        ensures few { nodes self.now ≤ max_nodes }
    {
        let index = number as usize;
        if index < self.table().len() {
            Some(index)
        } else {
            None
        }
    }

    /// The name of the element with that number; none for a text.
    #[tactic(auto, using(crate::proofs::LookLaws::line_is, crate::proofs::Numbers::has_none))]
    pub fn name_of(&self, number: u32) -> Option<&str>
        ensures { option_map (λ name. name.now) result ≡ name_at (place_numbered number self.now) self.now }
    {
        self.table().name(self.index(number)?)
    }

    /// How many children the node with that number has, texts too.
    #[tactic(auto, using(crate::proofs::LookLaws::line_is, crate::proofs::Numbers::has_none))]
    pub fn children_of(&self, number: u32) -> u32
        ensures { result ≡ child_count_at (place_numbered number self.now) self.now }
    {
        match self.index(number) {
            None => 0,
            Some(index) => self.table().children(index),
        }
    }

    /// The value of an attribute of the element with that number. The time is logarithmic in how many it has.
    #[tactic(auto, using(crate::proofs::LookLaws::line_is, crate::proofs::ControlLaws::attribute_is, crate::proofs::Numbers::has_none, crate::proofs::LookLaws::ascends_there))]
    pub fn attribute_of(&self, number: u32, name: &str) -> Option<&str>
        ensures { option_map (λ value. value.now) result ≡ attribute_at (place_numbered number self.now) name.now self.now }
    {
        self.table().attribute(self.index(number)?, name)
    }

    /// All texts at or under the node with that number, joined in document order.
    #[tactic(auto, using(crate::proofs::LoopLaws::texts_first, crate::proofs::Numbers::has_none))]
    pub fn text_of(&self, number: u32) -> Result<Text, NoMemory>
        ensures { IfOk result (λ text. text ≡ text_at (place_numbered number self.now) self.now) }
    {
        let mut joined = String::new(self.table().allocator());
        let Some(index) = self.index(number) else {
            return Ok(Text::from(joined));
        };
        for below in number..self.table().end_of(index) {
            joined.push_str(self.words_of(below))?;
        }
        Ok(Text::from(joined))
    }

    /// The numbers of the nodes under that one, texts too. Its first child comes first; behind them comes its next sibling, if it has one.
    #[tactic(auto, using(crate::proofs::NodesUnder::ends, crate::proofs::NodesUnder::under_there, crate::proofs::NodesUnder::first_there, crate::proofs::NodesUnder::next_there, crate::proofs::NodesUnder::under_past, crate::proofs::Numbers::has_none, crate::proofs::NodesUnder::next_past))]
    pub fn nodes_under(&self, number: u32) -> Range<u32>
        ensures under { AreNumbersUnder self.now number result.start result.end }
        ensures first { 0 < child_count_at (place_numbered number self.now) self.now → IsChild self.now number 0 result.start }
        ensures next { IsNext self.now number result.end }
        ensures start { number < nodes self.now → result.start ≡ suc number }
        ensures within { number < nodes self.now → (result.start ≤ result.end) × (result.end ≤ nodes self.now) }
        ensures none { nodes self.now ≤ number → (result.start ≡ number) × (result.end ≡ number) }
    {
        match self.index(number) {
            None => number..number,
            Some(index) => number + 1..self.table().end_of(index),
        }
    }
}

impl Page {
    /// The number of the node at a place; none where no node is. The time grows with how many siblings stand before the nodes on the way.
    #[tactic(auto, using(crate::proofs::NodesUnder::no_node_past))]
    pub fn number_of(&self, place: &Place) -> Option<u32>
        ensures { MatchOption result (node_at place.now self.now ≡ None) (λ number. IsNumberOf self.now place.now number) }
    {
        let mut number = 0;
        for position in place.as_slice() {
            if *position >= self.children_of(number) {
                return None;
            }
            number = self.child(number, *position);
        }
        Some(number)
    }

    // The number of the child at that position.
    #[tactic(auto, using(crate::proofs::NodesUnder::child_there))]
    fn child(&self, number: u32, position: u32) -> u32
        requires { position < child_count_at (place_numbered number self.now) self.now }
        ensures there { result < nodes self.now }
        ensures place { IsChild self.now number position result }
    {
        let mut child = self.nodes_under(number).start;
        for _i in 0..position {
            child = self.nodes_under(child).end;
        }
        child
    }

    /// The place of the node with that number.
    pub fn place_of(&self, number: u32) -> Result<Option<Place>, NoMemory>
        ensures { IfOk result (λ place. place ≡ place_of number self.now) }
    {
        match self.index(number) {
            None => Ok(None),
            Some(_) => Ok(Some(self.place_numbered(number)?)),
        }
    }

    #[tactic(auto, using(crate::proofs::NodesUnder::up_there, crate::proofs::NodesUnder::root_numbered))]
    pub(crate) fn place_numbered(&self, number: u32) -> Result<Place, NoMemory>
        requires { number < nodes self.now }
        ensures { IfOk result (λ place. place ≡ place_numbered number self.now) }
    {
        let mut positions = Vec::new(self.table().allocator());
        let mut at = number;
        while at != 0 {
            positions.push(self.table().position(at as usize))?;
            at = self.table().parent(at as usize);
        }
        positions.as_mut_slice().reverse();
        Ok(Place::from(positions))
    }

    /// The number of the parent of the node with that number; the root has none.
    #[tactic(auto, using(crate::proofs::NodesUnder::up_there))]
    pub fn parent_of(&self, number: u32) -> Option<u32>
        ensures { MatchOption result ((number ≡ 0) ⊎ (nodes self.now ≤ number)) (λ parent. IsParent self.now number parent) }
    {
        if number == 0 {
            return None;
        }
        Some(self.table().parent(self.index(number)?))
    }
}
