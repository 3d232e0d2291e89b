//! The rows that a table keeps of its nodes.
ghost use Rattle.std.specs.Prelude.{◌≡◌, ◌↔◌, ◌<◌, ◌++◌, [], ◌∷◌, IsTrue, IfOk, IfSome, OnOk, OnErr, Some, None, length, option_map};
ghost use Rattle.page_tree.specs.declared.rows.Row.{Row as PlainRow};
ghost use Rattle.page_tree.specs.inside.Rows.{element_of, row_in, element_in};

use crate::memory::NoMemory;
use crate::texts::Texts;
use std::alloc::AllocError;
use std::mem::size_of;

/// Where a node stands.
#[derive(Debug, Clone, Copy, PartialEq, Eq)]
pub(crate) struct Spot {
    /// The number of its parent; 0 for the root.
    pub(crate) parent: u16,
    /// How many siblings stand before it, texts too.
    pub(crate) position: u16,
}

/// What is kept of each node, beside its name or its text.
#[derive(Debug, Clone, Copy, PartialEq, Eq)]
pub(crate) struct Row {
    pub(crate) spot: Spot,
    // the number of an element's own row, `NO_ELEMENT` for a text: half of what an `Option<u16>` takes
    element: u16,
}

const NO_ELEMENT: u16 = u16::MAX;

/// What is kept of an element besides.
#[derive(Debug, Clone, Copy, PartialEq, Eq)]
pub(crate) struct ElementRow {
    /// The number of its first attribute's name among the names and values of all attributes.
    pub(crate) attributes: u32,
    pub(crate) attribute_count: u32,
    /// The number behind those of the nodes under it.
    pub(crate) end: u16,
    /// How many children it has.
    pub(crate) children: u16,
}

// so that a page of texts alone takes 10 bytes a node
const _: () = prove!(size_of::<Row>() == 6);

const _: () = prove!(size_of::<ElementRow>() == 12);

impl Row {
    pub(crate) fn of_text(spot: Spot) -> Row
        ensures spot { result.spot ≡ spot }
        ensures text { element_of result ≡ None }
    {
        Row {
            spot,
            element: NO_ELEMENT,
        }
    }

    /// That of an element whose own row has that number. A greater one than 16 bits hold is refused as want of memory.
    pub(crate) fn of_element(spot: Spot, number: usize) -> Result<Row, NoMemory>
        ensures spot { IfOk result (λ row. row.spot ≡ spot) }
        ensures element { IfOk result (λ row. element_of row ≡ Some number) }
    {
        if number >= NO_ELEMENT as usize {
            return Err(AllocError);
        }
        Ok(Row {
            spot,
            element: number as u16,
        })
    }

    /// The number of an element's own row; none for a text.
    pub(crate) fn element(&self) -> Option<usize>
        ensures { result ≡ element_of self.now }
    {
        if self.element < NO_ELEMENT {
            Some(self.element as usize)
        } else {
            None
        }
    }
}

/// The number of an element's own row, by the element's number; none for a text.
pub(crate) fn own_number(rows: &[Row], number: usize) -> Option<usize>
    requires { number < length rows.now }
    ensures { result ≡ element_of (row_in number rows.now) }
{
    rows[number].element()
}

/// The own row of the element with that number; none for a text.
pub(crate) fn own_row(rows: &[Row], elements: &[ElementRow], number: usize) -> Option<ElementRow>
    requires there { number < length rows.now }
    requires linked { IfSome (element_of (row_in number rows.now)) (λ k. k < length elements.now) }
    ensures { result ≡ option_map (λ k. element_in k elements.now) (element_of (row_in number rows.now)) }
{
    match own_number(rows, number) {
        None => None,
        Some(own) => Some(elements[own]),
    }
}

/// Adds an element of that name, with that row of its own.
pub(crate) fn push_row(
    texts: &mut Texts,
    rows: &mut Vec<Row>,
    elements: &mut Vec<ElementRow>,
    spot: Spot,
    name: &str,
    own: ElementRow,
) -> Result<(), NoMemory>
    ensures texts { OnOk result (texts.new ≡ texts.old ++ name.now ∷ []) }
    ensures elements { OnOk result (elements.new.items ≡ elements.old.items ++ own ∷ []) }
    ensures rows { OnOk result ((row : PlainRow) × (rows.new.items ≡ rows.old.items ++ row ∷ []) × (row.spot ≡ spot)
        × (element_of row ≡ Some (length elements.old.items))) }
    ensures err { OnErr result ((texts.new ≡ texts.old) × (rows.new.items ≡ rows.old.items)
        × (elements.new.items ≡ elements.old.items)) }
{
    let row = Row::of_element(spot, elements.as_slice().len())?;
    rows.reserve(1)?;
    elements.reserve(1)?;
    texts.push(name)?;
    elements.push(own).unwrap();
    rows.push(row).unwrap();
    Ok(())
}

/// Whether the nodes with that number stand at the same spot.
pub(crate) fn same_spot(rows: &[Row], others: &[Row], number: usize) -> bool
    requires there { number < length rows.now }
    requires other_there { number < length others.now }
    ensures { IsTrue result ↔ ((row_in number rows.now).spot ≡ (row_in number others.now).spot) }
{
    rows[number].spot == others[number].spot
}

pub(crate) fn same_rows(rows: &[Row], others: &[Row]) -> bool
    ensures { IsTrue result → rows.now ≡ others.now }
{
    rows == others
}

pub(crate) fn same_own_rows(rows: &[ElementRow], others: &[ElementRow]) -> bool
    ensures { IsTrue result → rows.now ≡ others.now }
{
    rows == others
}

/// Whether they differ in where their attributes stand alone.
pub(crate) fn same_but_place(row: ElementRow, other: ElementRow) -> bool
    ensures { IsTrue result ↔ (record row { attributes = 0 } ≡ record other { attributes = 0 }) }
{
    row.attribute_count == other.attribute_count
        && row.end == other.end
        && row.children == other.children
}
