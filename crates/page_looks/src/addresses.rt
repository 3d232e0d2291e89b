//! Addresses without what differs at each load.
ghost use Rattle.std.specs.Prelude.{ℕ, List, [], ◌∷◌, ◌++◌, ◌≡◌, ◌<◌, ◌==◌, length, IfOk, IfSome, OnOk, MatchOption, not, ◌||◌, if◌then◌else◌, codes, string_bytes};
ghost use Rattle.std.specs.List.{before_first, list_all, slice_split};
ghost use Rattle.page_looks.specs.Outline.{is_one_of};
ghost use Rattle.page_looks.specs.Sending.{is_passed_over, pair_name, kept_pairs, query_text, unmarked_without, without_fresh};

use form_urlencoded::decode;
use page_tree::{NoMemory, Text};
use std::alloc::Global;

/// An address without the pairs of fresh names in its query. The time grows with its length, times how many names these are.
pub fn without_fresh(alloc: Global, fresh: &[Text], address: &str) -> Result<Text, NoMemory>
    ensures { IfOk result (λ kept. kept ≡ without_fresh fresh.now address.now) }
{
    let mut kept = String::with_capacity(alloc, address.len())?;
    match address.split_once('#') {
        None => push_unmarked(alloc, &mut kept, fresh, address)?,
        Some((start, fragment)) => {
            push_unmarked(alloc, &mut kept, fresh, start)?;
            kept.push_str("#")?;
            kept.push_str(fragment)?;
        }
    }
    Ok(Text::from(kept))
}

// Pushes an address that has no fragment, without the pairs of fresh names.
fn push_unmarked(
    alloc: Global,
    kept: &mut String,
    fresh: &[Text],
    address: &str,
) -> Result<(), NoMemory>
    ensures { OnOk result (string_bytes kept.new ≡ string_bytes kept.old ++ unmarked_without fresh.now address.now) }
{
    match address.split_once('?') {
        None => kept.push_str(address)?,
        Some((start, query)) => {
            kept.push_str(start)?;
            push_kept(alloc, kept, fresh, query)?;
        }
    }
    Ok(())
}

// Pushes the pairs of a query that have no fresh name, with what is written before each.
fn push_kept(alloc: Global, kept: &mut String, fresh: &[Text], query: &str) -> Result<(), NoMemory>
    ensures { OnOk result (string_bytes kept.new ≡ string_bytes kept.old ++ query_text (kept_pairs fresh.now query.now)) }
{
    let mut rest = query;
    let mut mark = "?";
    loop {
        let (pair, next) = first_pair(rest);
        mark = push_pair(alloc, kept, fresh, mark, pair)?;
        match next {
            None => return Ok(()),
            Some(further) => rest = further,
        }
    }
}

// Pushes a pair behind that mark, unless its name is fresh; it gives the mark of the next one.
fn push_pair(
    alloc: Global,
    kept: &mut String,
    fresh: &[Text],
    mark: &'static str,
    pair: &str,
) -> Result<&'static str, NoMemory>
    ensures kept { OnOk result (string_bytes kept.new ≡ string_bytes kept.old
        ++ (if is_passed_over fresh.now pair.now then [] else mark.now ++ pair.now)) }
    ensures next { IfOk result (λ next. next.now
        ≡ (if is_passed_over fresh.now pair.now then mark.now else codes "&")) }
{
    if is_passed_over(alloc, fresh, pair)? {
        return Ok(mark);
    }
    kept.push_str(mark)?;
    kept.push_str(pair)?;
    Ok("&")
}

/// The first pair of a query, and what stands behind its `&`, if there is one.
pub fn first_pair(query: &str) -> (&str, Option<&str>)
    ensures pairs { MatchOption result.1 (slice_split (λ c. c == 38) query.now ≡ result.0.now ∷ [])
        (λ rest. slice_split (λ c. c == 38) query.now ≡ result.0.now ∷ slice_split (λ c. c == 38) rest.now) }
    ensures shorter { IfSome result.1 (λ rest. length rest.now < length query.now) }
{
    match query.split_once('&') {
        None => (query, None),
        Some((pair, rest)) => (pair, Some(rest)),
    }
}

/// Whether a pair, as it is written in a query, doesn't count: it is empty (URL Standard, section 5.1), or its name is one of these.
pub fn is_passed_over(alloc: Global, fresh: &[Text], pair: &str) -> Result<bool, NoMemory>
    ensures { IfOk result (λ over. over ≡ is_passed_over fresh.now pair.now) }
{
    if pair.is_empty() {
        return Ok(true);
    }
    has_fresh_name(alloc, fresh, pair)
}

// Whether its name is one of these. A name is decoded only where that could change it.
fn has_fresh_name(alloc: Global, fresh: &[Text], pair: &str) -> Result<bool, NoMemory>
    ensures { IfOk result (λ fresh_one. fresh_one ≡ is_one_of fresh.now (pair_name pair.now)) }
{
    let name = written_name(pair);
    if is_plain(name) {
        return Ok(is_fresh(fresh, name));
    }
    let read = decode(alloc, name.as_bytes())?;
    Ok(is_fresh(fresh, &read))
}

fn written_name(pair: &str) -> &str
    ensures { result.now ≡ before_first (λ c. c == 61) pair.now }
{
    match pair.split_once('=') {
        None => pair,
        Some((name, _value)) => name,
    }
}

// Whether a name has neither `+` nor `%`, so that it stands for itself.
fn is_plain(name: &str) -> bool
    ensures { result ≡ list_all (λ c. not (c == 43 || c == 37)) name.now }
{
    name.as_bytes().iter().all(|c| !(*c == b'+' || *c == b'%'))
}

/// Whether the name is one of these.
pub(crate) fn is_fresh(fresh: &[Text], name: &str) -> bool
    ensures { result ≡ is_one_of fresh.now name.now }
{
    fresh.iter().any(|one| name == one.as_str())
}
