//! The steps of a path: how they stand in its text, their faults, and which nodes they match.
ghost use Rattle.std.specs.Prelude.{◌≡◌, ◌+◌, ◌^◌, ◌<◌, ◌==◌, length, drop, option_map, if◌then◌else◌, IsTrue, Some, None, IfSome};
ghost use Rattle.std.specs.List.{list_all, before_first, position};
ghost use Rattle.std.specs.Char.{is_ascii_digit};
ghost use Rattle.std.specs.Option.{option_map_or};
ghost use Rattle.std.specs.Str.{bytes_eq};
ghost use Rattle.std.specs.Str.Parse.{digits_value};
ghost use Rattle.page_tree.specs.Name.{is_name};
ghost use Rattle.xpath_child.specs.Fault.{is_test, is_index, is_closed_index, test_part, test_in, front, text_fault, first_step_fault, written_steps, path_fault};
ghost use Rattle.xpath_child.specs.Reaches.{matches, is_nth};
ghost use Rattle.xpath_child.specs.inside.Search.{AreSteps, first_in, IsTail};

use crate::fault::{PathFault, PathFaultKind};
use crate::limits::{MAX_INDEX_DIGITS, MAX_STEPS};
use page_tree::is_name;

/// What stands behind the test of a step: its index, counted from 1, and the steps that follow, if there are any.
#[derive(Clone, Copy)]
pub(crate) struct Tail<'a> {
    pub(crate) index: Option<u32>,
    pub(crate) rest: Option<&'a str>,
}

impl<'a> Tail<'a> {
    /// That of the first of these steps, whose test ends there.
    pub(crate) fn of(steps: &'a str, end: usize) -> Tail<'a>
        requires steps { AreSteps (Some steps.now) }
        requires end { end ≡ length (test_part (first_in steps.now)) }
        ensures { IsTail steps.now result }
    {
        match steps.as_bytes().get(end) {
            None => Tail {
                index: None,
                rest: None,
            },
            Some(b'[') => {
                let (index, rest) = cut(&steps[end + 1..], b'/');
                Tail {
                    index: Some(closed_index(index)),
                    rest,
                }
            }
            Some(_) => Tail {
                index: None,
                rest: Some(&steps[end + 1..]),
            },
        }
    }
}

/// Whether the index, if there is one, picks the first match.
pub(crate) fn picks_first(index: Option<u32>) -> bool
    ensures { result ≡ is_nth index 0 }
{
    match index {
        None => true,
        Some(nth) => nth == 1,
    }
}

/// The test of the first of these steps.
pub(crate) fn test_of(steps: &str) -> &[u8]
    ensures { result.now ≡ test_part (first_in steps.now) }
{
    let bytes = steps.as_bytes();
    match bytes.iter().position(|c| *c == b'/' || *c == b'[') {
        None => bytes,
        Some(end) => &bytes[..end],
    }
}

/// Whether a node of that name matches the test.
#[inline(always)]
pub(crate) fn is_match(test: &[u8], name: Option<&str>) -> bool
    ensures { result ≡ matches (test_in test.now) (option_map (λ name. name.now) name.entry) }
{
    match name {
        None => false,
        Some(name) => name.as_bytes() == test || test == b"*".as_slice(),
    }
}

// What stands before the first such byte, and what stands after it, if there is one. It looks at byte after byte: for a short step that is less work
// than `split_once`, for one of 64 bytes more.
fn cut(text: &str, mark: u8) -> (&str, Option<&str>)
    requires { mark < 128 }
    ensures before { result.0.now ≡ before_first (λ c. c == mark) text.now }
    ensures after { option_map (λ rest. rest.now) result.1
        ≡ option_map (λ i. drop (i + 1) text.now) (position (λ c. c == mark) text.now) }
{
    match place_of(text, mark) {
        None => (text, None),
        Some(at) => (&text[..at], Some(&text[at + 1..])),
    }
}

fn place_of(text: &str, mark: u8) -> Option<usize>
    ensures { result ≡ position (λ c. c == mark) text.now }
{
    text.as_bytes().iter().position(|c| *c == mark)
}

/// The first fault of a text; X1 where it doesn't begin with `/`.
pub(crate) fn fault_of(text: &str) -> Option<PathFault>
    ensures { result ≡ path_fault text.now }
{
    match text.strip_prefix('/') {
        Some(rest) => fault_of_steps(rest),
        None => Some(PathFaultKind::NotAbsolute.at(0)),
    }
}

// The first fault of what stands after the first `/` of a text; X5 where there are too many steps.
fn fault_of_steps(text: &str) -> Option<PathFault>
    requires { length text.now + 1 < 2 ^ 64 }
    ensures { result ≡ first_step_fault 0 1 (written_steps text.now) }
{
    let mut start = 1;
    let mut left = text;
    for _before in 0..MAX_STEPS {
        let (step, rest) = cut(left, b'/');
        let fault = fault_of_step(start, step);
        if fault.is_some() {
            return fault;
        }
        let Some(rest) = rest else {
            return None;
        };
        start += step.len() + 1;
        left = rest;
    }
    Some(PathFaultKind::TooManySteps.at(start))
}

// The fault of a step's own text, which begins at that byte: X2, X3 or X4.
fn fault_of_step(start: usize, text: &str) -> Option<PathFault>
    requires { start + length text.now < 2 ^ 64 }
    ensures { result ≡ text_fault start text.now }
{
    if text.is_empty() {
        return Some(PathFaultKind::EmptyStep.at(start));
    }
    let (test, index) = cut(text, b'[');
    if !is_test(test) {
        return Some(PathFaultKind::BadName.at(start));
    }
    match index {
        Some(rest) if read_index(rest).is_none() => {
            Some(PathFaultKind::BadIndex.at(start + test.len()))
        }
        _ => None,
    }
}

fn is_test(text: &str) -> bool
    ensures { result ≡ is_test text.now }
{
    text == "*" || is_name(text)
}

// The index of what stands after a `[`.
fn read_index(text: &str) -> Option<u32>
    ensures { result ≡ (if is_closed_index text.now then Some (digits_value 10 (front text.now)) else None) }
{
    let digits = text.strip_suffix(']')?;
    if is_index(digits) {
        Some(number(digits.as_bytes()))
    } else {
        None
    }
}

// The same, where it is known to be one.
fn closed_index(text: &str) -> u32
    requires { IsTrue (is_closed_index text.now) }
    ensures { result ≡ digits_value 10 (front text.now) }
{
    let bytes = text.as_bytes();
    number(&bytes[..bytes.len() - 1])
}

// What the digits of an index say: byte after byte is half the work of `parse`.
fn number(digits: &[u8]) -> u32
    requires { IsTrue (is_index digits.now) }
    ensures { result ≡ digits_value 10 digits.now }
{
    let mut n = 0;
    for c in digits {
        n = n * 10 + u32::from(*c - b'0');
    }
    n
}

// 1 to 9 digits, the first not 0.
fn is_index(digits: &str) -> bool
    ensures { result ≡ is_index digits.now }
{
    match digits.as_bytes() {
        [] => false,
        [first, ..] => digits.len() <= MAX_INDEX_DIGITS
            && are_digits(digits.as_bytes())
            && *first != b'0',
    }
}

fn are_digits(bytes: &[u8]) -> bool
    ensures { result ≡ list_all is_ascii_digit bytes.now }
{
    bytes.iter().all(|c| c.is_ascii_digit())
}
