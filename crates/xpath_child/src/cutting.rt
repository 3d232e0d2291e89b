//! The steps of a path, cut out of its text a few at a time.
ghost use Rattle.std.specs.Prelude.{◌≡◌, ◌<◌, Some, length, option_map};
ghost use Rattle.xpath_child.specs.inside.Search.{AreSteps, steps_in, steps_left};

use crate::step::{Tail, test_of};
use arrayvec::ArrayVec;

/// Most paths have no more steps than these.
pub(crate) const FEW: usize = 8;

/// A path has no more steps than these.
pub(crate) const MOST: usize = 48;

/// A step: its test, and its index, counted from 1, if it has one.
#[derive(Clone, Copy)]
pub(crate) struct CutStep<'a> {
    pub(crate) test: &'a [u8],
    pub(crate) index: Option<u32>,
}

impl<'a> Default for CutStep<'a> {
    fn default() -> CutStep<'a> {
        CutStep {
            test: b"".as_slice(),
            index: None,
        }
    }
}

/// The first steps of a text, so many at the most, and what is left of it behind a further `/`.
#[derive(Drop)]
pub(crate) struct CutSteps<'a, const N: usize> {
    pub(crate) cut: ArrayVec<CutStep<'a>, N>,
    pub(crate) rest: Option<&'a str>,
}

impl<'a, const N: usize> CutSteps<'a, N> {
    /// Those of a text: one at least.
    pub(crate) fn of(text: &'a str) -> CutSteps<'a, N>
        requires room { 0 < N }
        requires steps { AreSteps (Some text.now) }
        ensures some { 0 < length result.cut.items }
        ensures steps { steps_left result.cut.items (option_map (λ rest. rest.now) result.rest) ≡ steps_in (Some text.now) }
        ensures rest { AreSteps (option_map (λ rest. rest.now) result.rest) }
    {
        let mut cut = ArrayVec::new();
        let mut left = text;
        for _before in 0..N {
            let test = test_of(left);
            let tail = Tail::of(left, test.len());
            cut.push(CutStep {
                test,
                index: tail.index,
            });
            let Some(rest) = tail.rest else {
                return CutSteps { cut, rest: None };
            };
            left = rest;
        }
        CutSteps {
            cut,
            rest: Some(left),
        }
    }
}
