//! The words of a form, or of a query, and what they say.
ghost use Rattle.std.specs.Prelude.{◌≡◌, ◌==◌, bytes_eq, false, not, IfOk};
ghost use Rattle.std.specs.Char.{is_ascii_digit};
ghost use Rattle.std.specs.List.{list_all, slice_get};
ghost use Rattle.std.specs.Option.{option_map_or};
ghost use Rattle.form_urlencoded.specs.Form.{pair_text};
ghost use Rattle.review_requests.specs.Form.{begin_word, client_word, is_numeral, number_said, read_word, value_named, visit_word_if_any, visit_written, visit_word, word_in};

use form_urlencoded::{decode, raw_pairs};
use page_tree::{NoMemory, Text};
use std::alloc::{AllocError, Global};
use upload_reader::{Client, HelloFault, MAX_NUMBER};

/// The value of the first pair that has this name.
pub(crate) fn word_in(alloc: Global, name: &str, form: &[u8]) -> Result<Option<Text>, NoMemory>
    ensures { IfOk result (λ word. word ≡ word_in name.now form.now) }
{
    for pair in raw_pairs(form) {
        match value_named(alloc, name, pair) {
            Ok(Some(value)) => return Ok(Some(value)),
            Ok(None) => {}
            Err(e) => return Err(e),
        }
    }
    Ok(None)
}

// The value of a pair that has this name.
fn value_named(alloc: Global, name: &str, pair: (&[u8], &[u8])) -> Result<Option<Text>, NoMemory>
    ensures { IfOk result (λ value. value ≡ value_named name.now (pair_text pair.entry)) }
{
    if !is_named(alloc, name, pair.0)? {
        return Ok(None);
    }
    let value = decode(alloc, pair.1)?;
    Ok(Some(Text::from_str(alloc, &value)?))
}

fn is_named(alloc: Global, name: &str, written: &[u8]) -> Result<bool, NoMemory>
    ensures { IfOk result (λ named. named ≡ bytes_eq (read_word written.now) name.now) }
{
    let read = decode(alloc, written)?;
    Ok(read.as_str() == name)
}

/// The client of that name in a form.
pub(crate) fn client_word(
    alloc: Global,
    name: &str,
    form: &[u8],
) -> Result<Option<Client>, NoMemory>
    ensures { IfOk result (λ client. client ≡ client_word name.now form.now) }
{
    match word_in(alloc, name, form)? {
        Some(word) => match Client::read(alloc, word.as_str()) {
            Ok(client) => Ok(Some(client)),
            Err(HelloFault::NoMemory) => Err(AllocError),
            Err(_) => Ok(None),
        },
        None => Ok(None),
    }
}

/// The number of a visit, from 1 on.
pub(crate) fn visit_word(alloc: Global, name: &str, form: &[u8]) -> Result<Option<u64>, NoMemory>
    ensures { IfOk result (λ visit. visit ≡ visit_word name.now form.now) }
{
    match word_in(alloc, name, form)? {
        Some(word) => Ok(visit_written(word.as_str())),
        None => Ok(None),
    }
}

/// The same where it may be left out: without a number where another word is said.
pub(crate) fn visit_word_if_any(
    alloc: Global,
    name: &str,
    form: &[u8],
) -> Result<Option<Option<u64>>, NoMemory>
    ensures { IfOk result (λ visit. visit ≡ visit_word_if_any name.now form.now) }
{
    match word_in(alloc, name, form)? {
        Some(word) => match visit_written(word.as_str()) {
            Some(visit) => Ok(Some(Some(visit))),
            None => Ok(None),
        },
        None => Ok(Some(None)),
    }
}

fn visit_written(text: &str) -> Option<u64>
    ensures { result ≡ visit_written text.now }
{
    let visit = number_said(text)?;
    if 1 <= visit { Some(visit) } else { None }
}

/// Where a list is to begin: at 0 where nothing is said.
pub(crate) fn begin_word(alloc: Global, name: &str, form: &[u8]) -> Result<Option<u64>, NoMemory>
    ensures { IfOk result (λ begin. begin ≡ begin_word name.now form.now) }
{
    match word_in(alloc, name, form)? {
        Some(word) => Ok(number_said(word.as_str())),
        None => Ok(Some(0)),
    }
}

fn number_said(text: &str) -> Option<u64>
    ensures { result ≡ number_said text.now }
{
    if !is_numeral(text.as_bytes()) {
        return None;
    }
    let n: u64 = text.parse().ok()?;
    if n <= MAX_NUMBER { Some(n) } else { None }
}

// Digits alone, and no 0 before others.
fn is_numeral(text: &[u8]) -> bool
    ensures { result ≡ is_numeral text.now }
{
    are_digits(text) && (text.len() == 1 || begins_above_zero(text))
}

fn are_digits(text: &[u8]) -> bool
    ensures { result ≡ list_all is_ascii_digit text.now }
{
    text.iter().all(|c| c.is_ascii_digit())
}

fn begins_above_zero(text: &[u8]) -> bool
    ensures { result ≡ option_map_or (λ c. not (c == 48)) (slice_get text.now 0) false }
{
    match text.first() {
        Some(c) => *c != b'0',
        None => false,
    }
}
