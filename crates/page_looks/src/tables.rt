//! Texts and lists of numbers, each with its own number. They are hashed by keys that nobody knows who writes a page, unless they stand where a guess says.
ghost use Rattle.std.specs.Prelude.{◌≡◌, ◌++◌, ◌<◌, ◌^◌, [], Some, length, IfOk, IfSome, MatchOption, slice_get};
ghost use Rattle.std.specs.Cow.{cow_str_bytes};
ghost use Rattle.page_looks.specs.inside.Numbers.{IsAbsent, IsPutIn};

use crate::guesses::{Guesses, quick_hash, quick_hash_of_text};
use indexmap::IndexSet;
use page_tree::NoMemory;
use std::alloc::{AllocError, Global};
use std::borrow::CowStr;
use std::hash::RandomState;
use std::marker::Model;

/// Texts, each kept once.
#[derive(Drop)]
pub(crate) struct TextTable<'p> {
    set: IndexSet<CowStr<'p, Global>, RandomState>,
    guesses: Guesses,
}

impl<'p> Model for TextTable<'p> {
    ghost use Rattle.std.specs.Prelude.{ℕ, List, map};
    ghost use Rattle.std.specs.Cow.{cow_str_bytes};

    ghost Value = { List (List ℕ) };

    ghost view = { λ t. map cow_str_bytes t.set.keys };
}

impl<'p> TextTable<'p> {
    pub(crate) fn new(alloc: Global, keys: RandomState) -> TextTable<'p>
        ensures { result ≡ [] }
    {
        TextTable {
            set: IndexSet::with_hasher(alloc, keys),
            guesses: Guesses::none(alloc),
        }
    }

    pub(crate) fn len(&self) -> usize
        ensures count { result ≡ length self.now }
        ensures small { result < 2 ^ 63 }
    {
        self.set.len()
    }

    pub(crate) fn find(&self, text: &str) -> Option<usize>
        ensures { MatchOption result (IsAbsent self.now text.now) (λ i. slice_get self.now i ≡ Some text.now) }
    {
        self.set.get_index_of(text)
    }

    /// Where a text with that quick hash is guessed to stand, if it does.
    pub(crate) fn guess(&self, hash: u32, text: &str) -> Option<usize>
        ensures { IfSome result (λ i. slice_get self.now i ≡ Some text.now) }
    {
        let place = self.guesses.at(hash)?;
        let Some(there) = self.set.get_index(place) else {
            return None;
        };
        if there.as_str() == text {
            Some(place)
        } else {
            None
        }
    }

    /// The index of a text with that quick hash, which is put behind the others where it isn't there.
    pub(crate) fn put(&mut self, hash: u32, text: CowStr<'p, Global>) -> Result<usize, NoMemory>
        ensures { IfOk result (λ i. IsPutIn self.old self.new (cow_str_bytes text.entry) i) }
    {
        let put = self.set.insert_full(text)?;
        self.guesses.note(hash, few(put.0)?, self.set.len())?;
        Ok(put.0)
    }
}

/// Lists of numbers, each kept once.
#[derive(Drop)]
pub(crate) struct KeyTable {
    set: IndexSet<Vec<u32>, RandomState>,
    guesses: Guesses,
}

impl Model for KeyTable {
    ghost use Rattle.std.specs.Prelude.{ℕ, List, map};

    ghost Value = { List (List ℕ) };

    ghost view = { λ t. map (λ v. v.items) t.set.keys };
}

impl KeyTable {
    pub(crate) fn new(alloc: Global, keys: RandomState) -> KeyTable
        ensures { result ≡ [] }
    {
        KeyTable {
            set: IndexSet::with_hasher(alloc, keys),
            guesses: Guesses::none(alloc),
        }
    }

    pub(crate) fn len(&self) -> usize
        ensures count { result ≡ length self.now }
        ensures small { result < 2 ^ 63 }
    {
        self.set.len()
    }

    pub(crate) fn find(&self, key: &[u32]) -> Option<usize>
        ensures { MatchOption result (IsAbsent self.now key.now) (λ i. slice_get self.now i ≡ Some key.now) }
    {
        self.set.get_index_of(key)
    }

    /// Where a list with that quick hash is guessed to stand, if it does.
    pub(crate) fn guess(&self, hash: u32, key: &[u32]) -> Option<usize>
        ensures { IfSome result (λ i. slice_get self.now i ≡ Some key.now) }
    {
        let place = self.guesses.at(hash)?;
        let Some(there) = self.set.get_index(place) else {
            return None;
        };
        if there.as_slice() == key {
            Some(place)
        } else {
            None
        }
    }

    /// The index of a list with that quick hash, which is put behind the others where it isn't there.
    pub(crate) fn put(&mut self, hash: u32, key: Vec<u32>) -> Result<usize, NoMemory>
        ensures { IfOk result (λ i. IsPutIn self.old self.new key.items i) }
    {
        let put = self.set.insert_full(key)?;
        self.guesses.note(hash, few(put.0)?, self.set.len())?;
        Ok(put.0)
    }
}

// A number in 32 bits; want of memory where it is larger.
pub(crate) fn few(number: usize) -> Result<u32, NoMemory>
    ensures { IfOk result (λ n. n ≡ number) }
{
    match u32::try_from(number) {
        Ok(n) => Ok(n),
        Err(_) => Err(AllocError),
    }
}

/// The number of a text among those of both, the further ones behind the first ones. A text that is in neither is put into the further ones.
pub(crate) fn text_number<'p>(
    below: &TextTable<'_>,
    own: &mut TextTable<'p>,
    text: CowStr<'p, Global>,
) -> Result<u32, NoMemory>
    ensures { IfOk result (λ n. IsPutIn (below.now ++ own.old) (below.now ++ own.new) (cow_str_bytes text.entry) n) }
{
    let hash = quick_hash_of_text(text.as_str());
    if let Some(known) = guessed_text(below, own, hash, text.as_str()) {
        let guessed = few(known)?;
        return Ok(guessed);
    }
    let first = below.len();
    match below.find(text.as_str()) {
        Some(known) => {
            let number = few(known)?;
            Ok(number)
        }
        None => {
            let place = own.put(hash, text)?;
            let at = few(place)?;
            let further = few(first + at as usize)?;
            Ok(further)
        }
    }
}

// That number, where a guess is right.
fn guessed_text(below: &TextTable<'_>, own: &TextTable<'_>, hash: u32, text: &str) -> Option<usize>
    ensures { IfSome result (λ n. slice_get (below.now ++ own.now) n ≡ Some text.now) }
{
    if let Some(known) = below.guess(hash, text) {
        return Some(known);
    }
    let known = own.guess(hash, text)?;
    below.len().checked_add(known)
}

/// The same of a list of numbers.
pub(crate) fn key_number(
    below: &KeyTable,
    own: &mut KeyTable,
    key: Vec<u32>,
) -> Result<u32, NoMemory>
    ensures { IfOk result (λ n. IsPutIn (below.now ++ own.old) (below.now ++ own.new) key.items n) }
{
    let hash = quick_hash(key.as_slice());
    if let Some(known) = guessed_key(below, own, hash, key.as_slice()) {
        let guessed = few(known)?;
        return Ok(guessed);
    }
    let first = below.len();
    match below.find(key.as_slice()) {
        Some(known) => {
            let number = few(known)?;
            Ok(number)
        }
        None => {
            let place = own.put(hash, key)?;
            let at = few(place)?;
            let further = few(first + at as usize)?;
            Ok(further)
        }
    }
}

// The same where a guess is right.
fn guessed_key(below: &KeyTable, own: &KeyTable, hash: u32, key: &[u32]) -> Option<usize>
    ensures { IfSome result (λ n. slice_get (below.now ++ own.now) n ≡ Some key.now) }
{
    if let Some(known) = below.guess(hash, key) {
        return Some(known);
    }
    let known = own.guess(hash, key)?;
    below.len().checked_add(known)
}
