//! The table that a page is kept as.
ghost use Rattle.std.specs.Prelude.{◌≡◌, ◌↔◌, IsTrue, IfOk, ◌<◌, ◌≤◌, ◌+◌, ◌*◌, suc, [], ◌∷◌, ◌++◌, OnOk, get_or, length, true, option_map};
ghost use Rattle.page_tree.specs.Tree.{element, words, no_trees};
ghost use Rattle.page_tree.specs.Look.{value_of};
ghost use Rattle.page_tree.specs.Limits.{max_nodes, have_ascending_names};
ghost use Rattle.page_tree.specs.inside.Table.{line_on, nth_spot};
ghost use Rattle.page_tree.specs.inside.Walking.{attributes_seen};
ghost use Rattle.page_tree.specs.inside.Rows.{line_in, with_line_end, with_line_children, texts_of_attributes, attributes_from, line_of_element};

use crate::memory::NoMemory;
use crate::rows::{
    ElementRow, Row, Spot, own_number, own_row, push_row, same_but_place, same_own_rows, same_rows,
    same_spot,
};
use crate::text::Text;
use crate::texts::Texts;
use std::alloc::{AllocError, Global};
use std::cmp::Ordering;
use std::marker::Model;

/// The nodes of a page in document order, each with what it is without its children. Contracts see their lines.
#[derive(Debug, Drop)]
pub(crate) struct NodeTable {
    // of each node its name, or what it says
    texts: Texts,
    rows: Vec<Row>,
    elements: Vec<ElementRow>,
    // the names and values of attributes, behind one another
    attributes: Texts,
}

impl Model for NodeTable {
    ghost use Rattle.std.specs.Prelude.{List};
    ghost use Rattle.page_tree.specs.inside.Table.{Line};
    ghost use Rattle.page_tree.specs.inside.Rows.{lines_kept, AreTableRows};

    ghost Value = { List Line };

    ghost view = { λ t. lines_kept t.texts t.attributes t.rows.items t.elements.items };

    ghost invariant = { λ t. AreTableRows t.texts t.attributes t.rows.items t.elements.items };
}

impl NodeTable {
    /// It takes no memory.
    pub(crate) fn new(alloc: Global) -> NodeTable
        ensures { result ≡ [] }
    {
        NodeTable {
            texts: Texts::new(alloc),
            rows: Vec::new(alloc),
            elements: Vec::new(alloc),
            attributes: Texts::new(alloc),
        }
    }

    #[tactic(auto, using(crate::proofs::RowLaws::lines_count))]
    pub(crate) fn len(&self) -> usize
        ensures { result ≡ length self.now }
    {
        self.rows.as_slice().len()
    }

    pub(crate) fn allocator(&self) -> Global {
        *self.rows.allocator()
    }

    // ---- looks

    #[tactic(auto, using(crate::proofs::RowLaws::lines_count, crate::proofs::RowLaws::spot_there))]
    pub(crate) fn parent(&self, number: usize) -> u32
        requires { number < length self.now }
        ensures { result ≡ (line_in number self.now).spot.parent }
    {
        self.rows[number].spot.parent as u32
    }

    /// The number behind those of the nodes under it.
    #[tactic(auto, using(crate::proofs::RowLaws::lines_count))]
    pub(crate) fn end_of(&self, number: usize) -> u32
        requires there { number < length self.now }
        requires few { length self.now ≤ max_nodes }
        ensures { result ≡ (line_in number self.now).end }
    {
        match own_row(self.rows.as_slice(), self.elements.as_slice(), number) {
            None => number as u32 + 1,
            Some(own) => own.end as u32,
        }
    }

    #[tactic(auto, using(crate::proofs::RowLaws::lines_count, crate::proofs::RowLaws::spot_there))]
    pub(crate) fn position(&self, number: usize) -> u32
        requires { number < length self.now }
        ensures { result ≡ (line_in number self.now).spot.position }
    {
        self.rows[number].spot.position as u32
    }

    /// How many children it has.
    #[tactic(auto, using(crate::proofs::RowLaws::lines_count))]
    pub(crate) fn children(&self, number: usize) -> u32
        requires { number < length self.now }
        ensures { result ≡ (line_in number self.now).children }
    {
        match own_row(self.rows.as_slice(), self.elements.as_slice(), number) {
            None => 0,
            Some(own) => own.children as u32,
        }
    }

    #[tactic(auto, using(crate::proofs::RowLaws::lines_count))]
    pub(crate) fn name(&self, number: usize) -> Option<&str>
        requires { number < length self.now }
        ensures { option_map (λ name. name.now) result ≡ (line_in number self.now).name }
    {
        match own_number(self.rows.as_slice(), number) {
            None => None,
            Some(_own) => Some(self.texts.get(number)),
        }
    }

    /// What a text says; empty for an element.
    #[tactic(auto, using(crate::proofs::RowLaws::lines_count))]
    pub(crate) fn words(&self, number: usize) -> &str
        requires { number < length self.now }
        ensures { result.now ≡ (line_in number self.now).text }
    {
        match own_number(self.rows.as_slice(), number) {
            None => self.texts.get(number),
            Some(_own) => "",
        }
    }

    /// The value of the attribute of that name, where the names ascend. The time is logarithmic in the number of attributes.
    #[tactic(auto, using(crate::proofs::RowLaws::lines_count))]
    pub(crate) fn attribute(&self, number: usize, name: &str) -> Option<&str>
        requires there { number < length self.now }
        requires ascending { have_ascending_names (line_in number self.now).attributes ≡ true }
        ensures { option_map (λ value. value.now) result ≡ value_of name.now (line_in number self.now).attributes }
    {
        match own_row(self.rows.as_slice(), self.elements.as_slice(), number) {
            None => None,
            Some(own) => value_among(
                &self.attributes,
                own.attributes as usize,
                own.attribute_count as usize,
                name,
            ),
        }
    }

    // ---- comparing

    /// Whether the two tables have the same lines. It takes no memory, and little time where one is a copy of the other.
    pub(crate) fn same(&self, other: &NodeTable) -> bool
        ensures { IsTrue result ↔ (self.now ≡ other.now) }
    {
        if self.len() != other.len() {
            return false;
        }
        if self.is_copy_of(other) {
            return true;
        }
        for number in 0..self.len() {
            if !self.same_line(other, number) {
                return false;
            }
        }
        true
    }

    // Whether they are the same also in where their texts stand.
    fn is_copy_of(&self, other: &NodeTable) -> bool
        ensures { IsTrue result → self.now ≡ other.now }
    {
        if !same_rows(self.rows.as_slice(), other.rows.as_slice()) {
            return false;
        }
        if !same_own_rows(self.elements.as_slice(), other.elements.as_slice()) {
            return false;
        }
        self.texts.same(&other.texts) && self.attributes.same(&other.attributes)
    }

    #[tactic(auto, using(crate::proofs::RowLaws::lines_count))]
    fn same_line(&self, other: &NodeTable, number: usize) -> bool
        requires there { number < length self.now }
        requires other_there { number < length other.now }
        ensures { IsTrue result ↔ (line_in number self.now ≡ line_in number other.now) }
    {
        if !same_spot(self.rows.as_slice(), other.rows.as_slice(), number) {
            return false;
        }
        if !same_text(&self.texts, number, &other.texts, number) {
            return false;
        }
        let own = own_row(self.rows.as_slice(), self.elements.as_slice(), number);
        let other_own = own_row(other.rows.as_slice(), other.elements.as_slice(), number);
        match (own, other_own) {
            (None, None) => true,
            (None, Some(_)) => false,
            (Some(_), None) => false,
            (Some(own), Some(other_own)) => same_element(
                &self.attributes,
                own,
                &other.attributes,
                other_own,
            ),
        }
    }

    // ---- building

    /// Adds a text.
    pub(crate) fn push_words(&mut self, spot: Spot, text: &str) -> Result<(), NoMemory>
        ensures { OnOk result (self.new ≡ self.old ++ line_on (words text.now) spot (suc (length self.old)) 0 ∷ []) }
    {
        self.rows.reserve(1)?;
        self.texts.push(text)?;
        self.rows.push(Row::of_text(spot)).unwrap();
        Ok(())
    }

    /// Adds an element without its children; where those under it end is told later, by `end`.
    pub(crate) fn push_element(
        &mut self,
        spot: Spot,
        name: &str,
        attributes: &[(Text, Text)],
        children: u16,
    ) -> Result<(), NoMemory>
        ensures { OnOk result (self.new ≡ self.old ++ line_on (element name.now attributes.now no_trees) spot 0 children ∷ []) }
    {
        let own = ElementRow {
            attributes: few(self.attributes.len())?,
            attribute_count: few(attributes.len())?,
            end: 0,
            children,
        };
        push_attributes(&mut self.attributes, attributes)?;
        push_row(
            &mut self.texts,
            &mut self.rows,
            &mut self.elements,
            spot,
            name,
            own,
        )?;
        Ok(())
    }

    /// The same of an element whose attributes are borrowed, and whose children are counted later, by `set_children`.
    pub(crate) fn push_borrowed(
        &mut self,
        spot: Spot,
        name: &str,
        attributes: &[(&str, &str)],
    ) -> Result<(), NoMemory>
        ensures { OnOk result (self.new ≡ self.old
            ++ line_on (element name.now (attributes_seen attributes.now) no_trees) spot 0 0 ∷ []) }
    {
        let own = ElementRow {
            attributes: few(self.attributes.len())?,
            attribute_count: few(attributes.len())?,
            end: 0,
            children: 0,
        };
        push_pairs(&mut self.attributes, attributes)?;
        push_row(
            &mut self.texts,
            &mut self.rows,
            &mut self.elements,
            spot,
            name,
            own,
        )?;
        Ok(())
    }

    /// An equal table that has no unused room. What the first one gives back is then in whole pieces, which the next page can take.
    pub(crate) fn fitted(&self) -> Result<NodeTable, NoMemory>
        ensures { IfOk result (λ table. table ≡ self.now) }
    {
        Ok(NodeTable {
            texts: self.texts.fitted()?,
            rows: self.rows.clone()?,
            elements: self.elements.clone()?,
            attributes: self.attributes.fitted()?,
        })
    }

    /// Tells that all nodes under that element were added.
    #[tactic(auto, using(crate::proofs::RowLaws::lines_count))]
    pub(crate) fn end(&mut self, number: u16)
        requires there { number < length self.old }
        requires few { length self.old ≤ max_nodes }
        ensures { self.new ≡ with_line_end number (length self.old) self.old }
    {
        let end = self.len() as u16;
        if let Some(own) = own_number(self.rows.as_slice(), number as usize) {
            self.elements[own].end = end;
        }
    }

    /// Tells how many children that element has.
    #[tactic(auto, using(crate::proofs::RowLaws::lines_count))]
    pub(crate) fn set_children(&mut self, number: u16, count: u16)
        requires { number < length self.old }
        ensures { self.new ≡ with_line_children number count self.old }
    {
        if let Some(own) = own_number(self.rows.as_slice(), number as usize) {
            self.elements[own].children = count;
        }
    }
}

// A count of texts or of bytes that fits 32 bits; a greater one is refused as want of memory.
pub(crate) fn few(count: usize) -> Result<u32, NoMemory>
    ensures { IfOk result (λ few. few ≡ count) }
{
    match u32::try_from(count) {
        Ok(few) => Ok(few),
        Err(_) => Err(AllocError),
    }
}

// the value of that name among so many attributes, whose names and values are the texts from that one on
fn value_among<'a>(texts: &'a Texts, at: usize, count: usize, name: &str) -> Option<&'a str>
    requires within { at + 2 * count ≤ length texts.now }
    requires ascending { have_ascending_names (attributes_from texts.now at count) ≡ true }
    ensures { option_map (λ value. value.now) result ≡ value_of name.now (attributes_from texts.now at count) }
{
    // the sums below are at most that, so they fit
    let _ = texts.len();
    let mut at = at;
    let mut count = count;
    while count > 0 {
        let half = count / 2;
        let middle = at + 2 * half;
        match texts.get(middle).cmp(name) {
            Ordering::Equal => return Some(texts.get(middle + 1)),
            Ordering::Less => {
                at = middle + 2;
                count -= half + 1;
            }
            Ordering::Greater => count = half,
        }
    }
    None
}

// whether they have the same attributes, ends and counts of children
fn same_element(texts: &Texts, own: ElementRow, others: &Texts, other: ElementRow) -> bool
    requires within { own.attributes + 2 * own.attribute_count ≤ length texts.now }
    requires other_within { other.attributes + 2 * other.attribute_count ≤ length others.now }
    ensures { IsTrue result
        ↔ (line_of_element texts.now [] (nth_spot 0 0) own ≡ line_of_element others.now [] (nth_spot 0 0) other) }
{
    if !same_but_place(own, other) {
        return false;
    }
    same_attributes(
        texts,
        own.attributes as usize,
        others,
        other.attributes as usize,
        own.attribute_count as usize,
    )
}

// whether so many attributes are the same, whose names and values are the texts from those on
fn same_attributes(texts: &Texts, at: usize, others: &Texts, other_at: usize, count: usize) -> bool
    requires within { at + 2 * count ≤ length texts.now }
    requires other_within { other_at + 2 * count ≤ length others.now }
    ensures { IsTrue result ↔ (attributes_from texts.now at count ≡ attributes_from others.now other_at count) }
{
    // the sums below are at most those, so they fit
    let _ = texts.len();
    let _ = others.len();
    let mut at = at;
    let mut other_at = other_at;
    let mut count = count;
    while count > 0 {
        if !same_text(texts, at, others, other_at) {
            return false;
        }
        if !same_text(texts, at + 1, others, other_at + 1) {
            return false;
        }
        at += 2;
        other_at += 2;
        count -= 1;
    }
    true
}

fn same_text(texts: &Texts, number: usize, others: &Texts, other: usize) -> bool
    requires there { number < length texts.now }
    requires other_there { other < length others.now }
    ensures { IsTrue result ↔ (get_or texts.now number [] ≡ get_or others.now other []) }
{
    texts.get(number) == others.get(other)
}

fn push_attributes(texts: &mut Texts, attributes: &[(Text, Text)]) -> Result<(), NoMemory>
    ensures ok { OnOk result (texts.new ≡ texts.old ++ texts_of_attributes attributes.now) }
    ensures kept { length texts.old ≤ length texts.new }
{
    for (name, value) in attributes {
        texts.push(name.as_str())?;
        texts.push(value.as_str())?;
    }
    Ok(())
}

fn push_pairs(texts: &mut Texts, attributes: &[(&str, &str)]) -> Result<(), NoMemory>
    ensures ok { OnOk result (texts.new ≡ texts.old ++ texts_of_attributes (attributes_seen attributes.now)) }
    ensures kept { length texts.old ≤ length texts.new }
{
    for (name, value) in attributes {
        texts.push(name)?;
        texts.push(value)?;
    }
    Ok(())
}
