//! Requests as they are told: by what is on the page and what was typed there, not as texts of their own.
ghost use Rattle.std.specs.Prelude.{ℕ, List, ◌≡◌, ◌≢◌, ◌≤◌, ◌<◌, [], ◌++◌, All, true, None, is_some, if◌then◌else◌, length, drop, slice_get, IfOk, IsTrue, IsFalse, codes, option_map, option_and_then};
ghost use Rattle.std.specs.Str.{bytes_eq};
ghost use Rattle.form_urlencoded.specs.Form.{byte_serialize, extend_pairs, serialize_pair};
ghost use Rattle.visit_replay.specs.Form.{bare, sent_to};
ghost use Rattle.visit_replay.specs.declared.told.ToldRequest.TheVariants.{Form};
ghost use Rattle.visit_replay.specs.inside.FieldsNow.{pair_of, told, value_sent};
ghost use Rattle.visit_replay.specs.inside.Senders.{SaysCounted, SaysFresh, sent_all};
ghost use Rattle.visit_replay.specs.inside.Tellings.{counted_told, encoded_told, pair_told, pairs_told, told_request, told_counted, KnowsFresh};

use crate::address::bare;
use crate::forms::{SentPair, SentValue, encoded, sent_by, whole};
use crate::requests::{Method, Request, with_query};
use crate::sent_pairs::SentPairs;
use page_tree::{NoMemory, Text};
use std::alloc::Global;

/// A request. Its texts are borrowed.
#[derive(Drop)]
pub enum ToldRequest<'w> {
    Load { address: &'w str },
    Link { number: u64, address: &'w str },
    Form(ToldForm<'w>),
}

/// That of a form, which goes to the action. Under get the pairs stand in the address, in the place of the action's own query.
#[derive(Drop)]
pub struct ToldForm<'w> {
    pub number: u64,
    pub post: bool,
    pub action: &'w str,
    pub pairs: SentPairs<'w>,
}

impl<'w> SentPairs<'w> {
    /// How many places there are at which one may stand.
    pub fn places(&self) -> usize
        ensures { result ≡ length self.now.senders.now }
    {
        self.senders.len()
    }

    /// The one at that place, if there is one.
    pub fn at(&self, place: usize) -> Option<SentPair<'_>>
        ensures { option_map pair_of result
            ≡ option_and_then (pair_told self.now) (slice_get self.now.senders.now place) }
    {
        let sender = self.senders.get(place)?;
        sent_by(&self.filled, sender)
    }

    // The same, unless its name is fresh.
    pub(crate) fn counted_at(&self, place: usize) -> Option<SentPair<'_>>
        ensures { option_map pair_of result
            ≡ option_and_then (counted_told self.now) (slice_get self.now.senders.now place) }
    {
        let sender = self.senders.get(place)?;
        if sender.is_fresh {
            return None;
        }
        self.at(place)
    }

    // The first place, from that one on, at which one stands that counts; else one past the last.
    fn next_counted(&self, from: usize) -> usize
        requires { from ≤ length self.now.senders.now }
        ensures within { result ≤ length self.now.senders.now }
        ensures some { result < length self.now.senders.now
            → is_some (option_and_then (counted_told self.now) (slice_get self.now.senders.now result)) ≡ true }
        ensures same { (names : List (List ℕ)) → All (SaysFresh names) self.now.senders.now
            → told true names (sent_all self.now.filled (drop result self.now.senders.now))
            ≡ told true names (sent_all self.now.filled (drop from self.now.senders.now)) }
    {
        let mut place = from;
        while place < self.senders.len() {
            if self.counted_at(place).is_some() {
                return place;
            }
            place += 1;
        }
        place
    }

    fn encoded(&self, alloc: Global, counted: bool) -> Result<Text, NoMemory>
        ensures { IfOk result (λ text. (names : List (List ℕ)) → All (SaysCounted counted names) self.now.senders.now
            → text ≡ extend_pairs [] (told counted names (pairs_told self.now))) }
    {
        encoded(alloc, &self.filled, self.senders, counted)
    }
}

impl<'w> ToldForm<'w> {
    /// Where it goes, but for the query of its pairs.
    pub fn start(&self) -> &'w str
        ensures { result.now ≡ (if self.now.post then self.now.action.now else bare self.now.action.now) }
    {
        if self.post {
            self.action
        } else {
            bare(self.action)
        }
    }

    // Whether both go there. Nothing is looked for in two actions that are equal.
    pub(crate) fn goes_with(&self, other: &ToldForm<'_>) -> bool
        ensures { result ≡ bytes_eq (if self.now.post then self.now.action.now else bare self.now.action.now)
            (if other.now.post then other.now.action.now else bare other.now.action.now) }
    {
        if self.post == other.post && self.action == other.action {
            return true;
        }
        self.start() == other.start()
    }
}

impl<'w> ToldRequest<'w> {
    /// The number of the click or submit that made it; 0 for the visit's own load.
    pub fn number(&self) -> u64
        ensures { result ≡ (told_request self.now).number }
    {
        match self {
            ToldRequest::Load { .. } => 0,
            ToldRequest::Link { number, .. } => *number,
            ToldRequest::Form(form) => form.number,
        }
    }

    /// The request with its whole texts, which may be long.
    pub fn whole(&self, alloc: Global) -> Result<Request, NoMemory>
        ensures { IfOk result (λ request. request ≡ told_request self.now) }
    {
        self.written(alloc, false)
    }

    /// The same without the pairs of fresh names.
    pub(crate) fn counted(&self, alloc: Global) -> Result<Request, NoMemory>
        ensures { IfOk result (λ request. (names : List (List ℕ)) → KnowsFresh names self.now
            → request ≡ told_counted names self.now) }
    {
        self.written(alloc, true)
    }

    /// Where it goes, in one text.
    pub(crate) fn address(&self, alloc: Global) -> Result<Text, NoMemory>
        ensures { IfOk result (λ address. address ≡ (told_request self.now).address) }
    {
        match self {
            ToldRequest::Load { address } => Text::from_str(alloc, address),
            ToldRequest::Link { address, .. } => Text::from_str(alloc, address),
            ToldRequest::Form(form) if form.post => Text::from_str(alloc, form.action),
            ToldRequest::Form(form) => {
                let pairs = form.pairs.encoded(alloc, false)?;
                with_query(alloc, form.start(), pairs.as_str())
            }
        }
    }

    fn written(&self, alloc: Global, counted: bool) -> Result<Request, NoMemory>
        ensures { IfOk result (λ request. (names : List (List ℕ)) → (counted ≡ true → KnowsFresh names self.now)
            → request ≡ (if counted then told_counted names self.now else told_request self.now)) }
    {
        match self {
            ToldRequest::Load { address } => bare_request(alloc, 0, Method::Load, address),
            ToldRequest::Link { number, address } => bare_request(
                alloc,
                *number,
                Method::Get,
                address,
            ),
            ToldRequest::Form(form) => {
                let pairs = form.pairs.encoded(alloc, counted)?;
                form_request(alloc, form, pairs)
            }
        }
    }
}

fn form_request(alloc: Global, form: &ToldForm<'_>, pairs: Text) -> Result<Request, NoMemory>
    ensures { IfOk result (λ request. request ≡ sent_to form.now.post form.now.number form.now.action.now pairs) }
{
    if form.post {
        return Ok(Request {
            number: form.number,
            method: Method::Post,
            address: Text::from_str(alloc, form.action)?,
            pairs,
        });
    }
    Ok(Request {
        number: form.number,
        method: Method::Get,
        address: with_query(alloc, form.start(), pairs.as_str())?,
        pairs,
    })
}

fn bare_request(
    alloc: Global,
    number: u64,
    method: Method,
    address: &str,
) -> Result<Request, NoMemory>
    ensures { IfOk result (λ request. request
        ≡ record { number = number; method = method; address = address.now; pairs = [] }) }
{
    Ok(Request {
        number,
        method,
        address: Text::from_str(alloc, address)?,
        pairs: Text::from(String::new(alloc)),
    })
}

/// Whether two forms send the same, but for the pairs of fresh names.
pub(crate) fn are_pairs_alike(
    alloc: Global,
    was: &SentPairs<'_>,
    is: &SentPairs<'_>,
) -> Result<bool, NoMemory>
    ensures alike { IfOk result (λ alike. IsTrue alike
        → (names : List (List ℕ)) → All (SaysFresh names) was.now.senders.now → All (SaysFresh names) is.now.senders.now
        → told true names (pairs_told was.now) ≡ told true names (pairs_told is.now)) }
    ensures apart { IfOk result (λ alike. IsFalse alike
        → (names : List (List ℕ)) → All (SaysFresh names) was.now.senders.now → All (SaysFresh names) is.now.senders.now
        → encoded_told names was.now ≢ encoded_told names is.now) }
{
    let mut at = 0;
    for place in 0..was.places() {
        let Some(before) = was.counted_at(place) else {
            continue;
        };
        at = is.next_counted(at);
        let Some(now) = is.counted_at(at) else {
            return Ok(false);
        };
        if !are_same(alloc, &before, &now)? {
            return Ok(false);
        }
        at += 1;
    }
    Ok(is.next_counted(at) == is.places())
}

fn are_same(alloc: Global, was: &SentPair<'_>, is: &SentPair<'_>) -> Result<bool, NoMemory>
    ensures same { IfOk result (λ same. IsTrue same → pair_of was.now ≡ pair_of is.now) }
    ensures apart { IfOk result (λ same. IsFalse same
        → serialize_pair (pair_of was.now) ≢ serialize_pair (pair_of is.now)) }
{
    if !are_words_same(was.name, is.name) {
        return Ok(false);
    }
    are_values_same(alloc, was.value, is.value)
}

fn are_values_same(alloc: Global, was: SentValue<'_>, is: SentValue<'_>) -> Result<bool, NoMemory>
    ensures same { IfOk result (λ same. IsTrue same → value_sent was.entry ≡ value_sent is.entry) }
    ensures apart { IfOk result (λ same. IsFalse same
        → byte_serialize (value_sent was.entry) ≢ byte_serialize (value_sent is.entry)) }
{
    if let (SentValue::Text(was), SentValue::Text(is)) = (was, is) {
        return Ok(are_words_same(was, is));
    }
    let was = whole(alloc, was)?;
    let is = whole(alloc, is)?;
    Ok(are_words_same(was.as_str(), is.as_str()))
}

// Words that differ are written as others.
fn are_words_same(was: &str, is: &str) -> bool
    ensures same { IsTrue result → was.now ≡ is.now }
    ensures apart { IsFalse result → byte_serialize was.now ≢ byte_serialize is.now }
{
    is_word(was, is)
}

fn is_word(was: &str, is: &str) -> bool
    ensures { result ≡ bytes_eq was.now is.now }
{
    was == is
}
