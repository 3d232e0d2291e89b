//! Texts that were compared a short while ago: most events ask for what one of the last few did.
ghost use Rattle.std.specs.Prelude.{ℕ, List, Option, ◌≡◌, ◌++◌, not, IfOk, OnOk, IfSome, IsTrue, codes};
ghost use Rattle.std.specs.Str.{bytes_eq};
ghost use Rattle.page_looks.specs.Sending.{without_fresh};
ghost use Rattle.visit_replay.specs.Difference.{are_alike};
ghost use Rattle.visit_replay.specs.inside.Differing.{AreCompared, KnowsTexts};
ghost use Rattle.visit_replay.specs.inside.Queries.{IsQueryOf};

use crate::fresh_queries::{differ, has_query};
use crate::requests::{Request, with_query};
use page_tree::{NoMemory, Text};
use std::alloc::Global;

// Once so many are kept, or so many bytes stand in them, all are forgotten.
const MOST: usize = 64;

const ROOM: usize = 4_194_304;

/// Two texts, and whether they differ but for the values of fresh names.
#[derive(Drop)]
pub(crate) struct Comparison {
    was: Text,
    is: Text,
    apart: bool,
}

/// Some that were compared but for the values of the same names.
#[derive(Drop)]
pub(crate) struct Comparisons {
    all: Vec<Comparison>,
    bytes: usize,
    /// Where the next is looked for first: behind the one that was found last.
    next: usize,
}

impl Comparisons {
    /// None. It takes no memory.
    pub(crate) fn new(alloc: Global) -> Comparisons
        ensures compared { (fresh : List (List ℕ)) → AreCompared fresh result.all.items }
        ensures found { (same : Option (List (List ℕ))) → KnowsTexts same result }
    {
        Comparisons {
            all: Vec::new(alloc),
            bytes: 0,
            next: 0,
        }
    }

    /// Whether both ask for the same, but for the values of fresh names.
    pub(crate) fn are_alike(
        &mut self,
        alloc: Global,
        fresh: &[Text],
        was: &Request,
        is: &Request,
    ) -> Result<bool, NoMemory>
        requires { AreCompared fresh.now self.old.all.items }
        ensures known { OnOk result (AreCompared fresh.now self.new.all.items) }
        ensures alike { IfOk result (λ alike. alike ≡ are_alike fresh.now was.now is.now) }
    {
        let elsewhere = self.differ(alloc, fresh, was.address.as_str(), is.address.as_str())?;
        if elsewhere {
            return Ok(false);
        }
        if asks_by_address(was) && asks_by_address(is) {
            return Ok(true);
        }
        let apart = self.differ_sent(alloc, fresh, was.pairs.as_str(), is.pairs.as_str())?;
        Ok(!apart)
    }

    /// Whether two texts differ but for the values of fresh names. Nothing is looked at of two that are equal.
    pub(crate) fn differ(
        &mut self,
        alloc: Global,
        fresh: &[Text],
        was: &str,
        is: &str,
    ) -> Result<bool, NoMemory>
        requires { AreCompared fresh.now self.old.all.items }
        ensures known { OnOk result (AreCompared fresh.now self.new.all.items) }
        ensures apart { IfOk result (λ apart. apart
            ≡ not (bytes_eq (without_fresh fresh.now was.now) (without_fresh fresh.now is.now))) }
    {
        if was == is {
            return Ok(false);
        }
        match answer_of(self.all.as_slice(), self.next, was, is) {
            Some((at, apart)) => {
                self.next = at.saturating_add(1);
                Ok(apart)
            }
            None => self.compare(alloc, fresh, was, is),
        }
    }

    // The same of the pairs that are sent.
    fn differ_sent(
        &mut self,
        alloc: Global,
        fresh: &[Text],
        was: &str,
        is: &str,
    ) -> Result<bool, NoMemory>
        requires { AreCompared fresh.now self.old.all.items }
        ensures known { OnOk result (AreCompared fresh.now self.new.all.items) }
        ensures apart { IfOk result (λ apart. apart ≡ not (bytes_eq
            (without_fresh fresh.now (codes "?" ++ was.now)) (without_fresh fresh.now (codes "?" ++ is.now)))) }
    {
        if was == is {
            return Ok(false);
        }
        let before = with_query(alloc, "", was)?;
        let now = with_query(alloc, "", is)?;
        self.differ(alloc, fresh, before.as_str(), now.as_str())
    }

    fn compare(
        &mut self,
        alloc: Global,
        fresh: &[Text],
        was: &str,
        is: &str,
    ) -> Result<bool, NoMemory>
        requires { AreCompared fresh.now self.old.all.items }
        ensures known { OnOk result (AreCompared fresh.now self.new.all.items) }
        ensures apart { IfOk result (λ apart. apart
            ≡ not (bytes_eq (without_fresh fresh.now was.now) (without_fresh fresh.now is.now))) }
    {
        self.forget_if_full();
        let apart = differ(alloc, fresh, was, is)?;
        self.bytes = self.bytes.saturating_add(was.len());
        self.bytes = self.bytes.saturating_add(is.len());
        let before = Text::from_str(alloc, was)?;
        let now = Text::from_str(alloc, is)?;
        self.all.push(Comparison {
            was: before,
            is: now,
            apart,
        })?;
        Ok(apart)
    }

    fn forget_if_full(&mut self)
        ensures { (fresh : List (List ℕ)) → AreCompared fresh self.old.all.items → AreCompared fresh self.new.all.items }
    {
        if self.all.len() >= MOST || self.bytes >= ROOM {
            self.all.clear();
            self.bytes = 0;
        }
    }
}

// Whether the query of its address is all that it sends, as of what a form sends under get.
fn asks_by_address(request: &Request) -> bool
    ensures { IsTrue result → (start : List ℕ) × IsQueryOf request.now.address start request.now.pairs }
{
    has_query(request.address.as_str(), request.pairs.as_str())
}

// Where these were compared, and whether they differ. What stands at `next` is looked at first.
fn answer_of(all: &[Comparison], next: usize, was: &str, is: &str) -> Option<(usize, bool)>
    ensures { IfSome result (λ found. (fresh : List (List ℕ)) → AreCompared fresh all.now → found.1
        ≡ not (bytes_eq (without_fresh fresh was.now) (without_fresh fresh is.now))) }
{
    match answer_at(all, next, was, is) {
        Some(apart) => return Some((next, apart)),
        None => {}
    }
    for at in 0..all.len() {
        match answer_at(all, at, was, is) {
            Some(apart) => return Some((at, apart)),
            None => {}
        }
    }
    None
}

// Whether these differ, where they are the ones that were compared there.
fn answer_at(all: &[Comparison], at: usize, was: &str, is: &str) -> Option<bool>
    ensures { IfSome result (λ apart. (fresh : List (List ℕ)) → AreCompared fresh all.now → apart
        ≡ not (bytes_eq (without_fresh fresh was.now) (without_fresh fresh is.now))) }
{
    let known = all.get(at)?;
    if known.was.as_str() == was && known.is.as_str() == is {
        Some(known.apart)
    } else {
        None
    }
}
