//! Whether two addresses differ but for the values of fresh names. Pairs that are written alike in both aren't decoded.
ghost use Rattle.std.specs.Prelude.{ℕ, List, ◌≡◌, ◌==◌, not, IfOk, IfSome, IsTrue, Some};
ghost use Rattle.std.specs.List.{list_all};
ghost use Rattle.std.specs.Str.{bytes_eq};
ghost use Rattle.page_looks.specs.Sending.{kept_pairs, query_text, without_fresh};
ghost use Rattle.visit_replay.specs.declared.fresh_queries.Queries.{Queries as PlainQueries};
ghost use Rattle.visit_replay.specs.declared.fresh_queries.Compared.TheVariants.{Left};
ghost use Rattle.visit_replay.specs.inside.Queries.{IsQueryOf, TellsFirst};

use page_looks::{first_pair, is_passed_over, without_fresh};
use page_tree::{NoMemory, Text};
use std::alloc::Global;

/// What is left of two queries, if anything is.
#[derive(Clone, Copy)]
pub(crate) struct Queries<'a> {
    was: Option<&'a str>,
    is: Option<&'a str>,
}

/// What the first pairs of two queries tell.
#[derive(Drop)]
pub(crate) enum Compared<'a> {
    Alike,
    Apart,
    Left(Queries<'a>),
}

/// Whether two addresses differ but for the values of these names.
pub(crate) fn differ(
    alloc: Global,
    fresh: &[Text],
    before: &str,
    now: &str,
) -> Result<bool, NoMemory>
    ensures { IfOk result (λ apart. apart
        ≡ not (bytes_eq (without_fresh fresh.now before.now) (without_fresh fresh.now now.now))) }
{
    let (Some(was), Some(is)) = (query_of(before), query_of(now)) else {
        return differ_whole(alloc, fresh, before, now);
    };
    if was.0 == is.0 {
        differ_in_pairs(alloc, fresh, was.1, is.1)
    } else {
        differ_whole(alloc, fresh, before, now)
    }
}

/// Whether that is the query of an address which has no fragment.
pub(crate) fn has_query(address: &str, query: &str) -> bool
    ensures { IsTrue result → (start : List ℕ) × IsQueryOf address.now start query.now }
{
    match query_of(address) {
        None => false,
        Some((_start, own)) => own == query,
    }
}

// The same of any two.
fn differ_whole(alloc: Global, fresh: &[Text], before: &str, now: &str) -> Result<bool, NoMemory>
    ensures { IfOk result (λ apart. apart
        ≡ not (bytes_eq (without_fresh fresh.now before.now) (without_fresh fresh.now now.now))) }
{
    let was = without_fresh(alloc, fresh, before)?;
    let is = without_fresh(alloc, fresh, now)?;
    Ok(was.as_str() != is.as_str())
}

// What stands before and behind the first `?` of an address that has no fragment.
fn query_of(address: &str) -> Option<(&str, &str)>
    ensures { IfSome result (λ cut. IsQueryOf address.now cut.0.now cut.1.now) }
{
    if is_whole(address) {
        address.split_once('?')
    } else {
        None
    }
}

/// Whether an address has no fragment.
pub(crate) fn is_whole(address: &str) -> bool
    ensures { result ≡ list_all (λ c. not (c == 35)) address.now }
{
    address.as_bytes().iter().all(|c| !(*c == b'#'))
}

// ---- two queries

fn differ_in_pairs(alloc: Global, fresh: &[Text], was: &str, is: &str) -> Result<bool, NoMemory>
    ensures { IfOk result (λ apart. apart ≡ not (bytes_eq (query_text (kept_pairs fresh.now was.now))
        (query_text (kept_pairs fresh.now is.now)))) }
{
    let mut left = Queries {
        was: Some(was),
        is: Some(is),
    };
    loop {
        match told_first(alloc, fresh, left)? {
            Compared::Alike => return Ok(false),
            Compared::Apart => return Ok(true),
            Compared::Left(further) => left = further,
        }
    }
}

// What their first pairs tell.
fn told_first<'a>(
    alloc: Global,
    fresh: &[Text],
    left: Queries<'a>,
) -> Result<Compared<'a>, NoMemory>
    ensures { IfOk result (TellsFirst fresh.now left.entry) }
{
    match (left.was, left.is) {
        (None, None) => Ok(Compared::Alike),
        (Some(was), None) => {
            let (pair, rest) = first_pair(was);
            if is_passed_over(alloc, fresh, pair)? {
                let further = Queries {
                    was: rest,
                    is: None,
                };
                return Ok(Compared::Left(further));
            }
            Ok(Compared::Apart)
        }
        (None, Some(is)) => {
            let (pair, rest) = first_pair(is);
            if is_passed_over(alloc, fresh, pair)? {
                let further = Queries {
                    was: None,
                    is: rest,
                };
                return Ok(Compared::Left(further));
            }
            Ok(Compared::Apart)
        }
        (Some(was), Some(is)) => told_of_both(alloc, fresh, was, is),
    }
}

fn told_of_both<'a>(
    alloc: Global,
    fresh: &[Text],
    was: &'a str,
    is: &'a str,
) -> Result<Compared<'a>, NoMemory>
    ensures { IfOk result (TellsFirst fresh.now (record { was = Some was.entry; is = Some is.entry })) }
{
    let (pair, rest) = first_pair(was);
    let (other, others) = first_pair(is);
    if pair == other {
        let further = Queries {
            was: rest,
            is: others,
        };
        return Ok(Compared::Left(further));
    }
    if is_passed_over(alloc, fresh, pair)? {
        let further = Queries {
            was: rest,
            is: Some(is),
        };
        return Ok(left_behind(further));
    }
    if is_passed_over(alloc, fresh, other)? {
        let further = Queries {
            was: Some(was),
            is: others,
        };
        return Ok(left_behind(further));
    }
    Ok(Compared::Apart)
}

// What tells what is left behind a pair that doesn't count: mostly that both are written alike.
fn left_behind(further: Queries<'_>) -> Compared<'_>
    ensures { (fresh : List (List ℕ)) (left : PlainQueries) → TellsFirst fresh left (Left further.entry)
        → TellsFirst fresh left result }
{
    let (Some(was), Some(is)) = (further.was, further.is) else {
        return Compared::Left(further);
    };
    if was == is {
        return Compared::Alike;
    }
    Compared::Left(further)
}
