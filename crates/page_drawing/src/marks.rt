//! Where something is marked on a page.

use std::ops::Range;

/// A node by its number, and what its mark says.
#[derive(Clone, Copy, Debug)]
pub struct Mark<'m> {
    pub number: u32,
    pub words: &'m str,
}

/// The marks of a page. A frame shows the first one, else the gap.
#[derive(Clone, Copy, Debug)]
pub struct Marks<'m> {
    pub all: &'m [Mark<'m>],
    /// The element at whose end something is missing, and what is said there.
    pub gap: Option<Mark<'m>>,
}

impl<'m> Marks<'m> {
    /// What the mark of that node says, if it has one.
    pub(crate) fn words_at(&self, number: u32) -> Option<&'m str> {
        for mark in self.all {
            if mark.number == number {
                return Some(mark.words);
            }
        }
        None
    }

    pub(crate) fn gap_at(&self, number: u32) -> Option<&'m str> {
        match self.gap {
            Some(gap) => if gap.number == number {
                Some(gap.words)
            } else {
                None
            },
            None => None,
        }
    }

    /// Whether that node is the first that is marked.
    pub(crate) fn is_first(&self, number: u32) -> bool {
        match self.all.first() {
            Some(mark) => mark.number == number,
            None => false,
        }
    }

    /// Whether one of these nodes is marked.
    pub(crate) fn is_any_in(&self, numbers: Range<u32>) -> bool {
        for mark in self.all {
            if numbers.start <= mark.number && mark.number < numbers.end {
                return true;
            }
        }
        false
    }
}
