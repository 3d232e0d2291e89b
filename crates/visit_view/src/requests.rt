//! Requests as they are told.

use crate::cutting::beginning_of;
use made_html::Html;
use page_tree::{ChildTexts, NoMemory};
use std::alloc::Global;
use visit_replay::{
    Contrast, Difference, Former, FormerTelling, RequestTelling, Requests, SentPair, SentPairs,
    SentValue, Single, ToldForm, ToldRequest,
};

/// How many requests are shown, of each how many pairs, of its address how many bytes, and of a pair's name and value.
const MOST_REQUESTS: usize = 50;

const MOST_ADDRESS: usize = 2_000;

const MOST_PAIRS: usize = 30;

const MOST_BYTES: usize = 500;

/// How many requests are looked at for those that were others. A visit has no more.
const MOST_LOOKED_AT: usize = 10_001;

/// How many texts of a field are joined.
const MOST_TEXTS: usize = 100;

/// The requests that a visit makes on the repaired page, and behind them what its event asks for now, where an element has changed.
pub(crate) fn requests_now(
    alloc: Global,
    requests: &Requests,
    difference: &Difference,
) -> Result<Html, NoMemory> {
    let mut items = Html::new(alloc);
    let mut telling = RequestTelling::new(alloc)?;
    telling.begin(requests);
    let mut more = false;
    for k in 0..MOST_REQUESTS + 1 {
        if !telling.advance() {
            break;
        }
        if k < MOST_REQUESTS {
            add_now(alloc, &mut items, &telling, "")?;
        } else {
            more = true;
        }
    }
    if let Some(Contrast::Changed { now: Some(now), .. }) = difference.contrast() {
        add_single(alloc, &mut items, now, ", as it would be now")?;
    }
    listed(alloc, &items, "None.", more)
}

/// What the requests of a visit that is done were on the page that the user saw, where they are others now.
pub(crate) fn requests_then(
    alloc: Global,
    requests: &Requests,
    difference: &Difference,
) -> Result<Html, NoMemory> {
    let mut items = Html::new(alloc);
    if let Some(Contrast::Done { was }) = difference.contrast() {
        add_former(alloc, &mut items, requests, was)?;
    }
    listed(alloc, &items, "Nothing is told to differ.", false)
}

fn add_former(
    alloc: Global,
    items: &mut Html,
    requests: &Requests,
    was: &Former,
) -> Result<(), NoMemory> {
    let mut telling = RequestTelling::new(alloc)?;
    let mut former = FormerTelling::new(alloc)?;
    telling.begin(requests);
    former.begin(Some(was));
    let mut count: usize = 0;
    for _k in 0..MOST_LOOKED_AT {
        if count >= MOST_REQUESTS || !telling.advance() {
            break;
        }
        former.advance();
        if let Some(told) = former.told() {
            add_told(alloc, items, &told, "")?;
            count += 1;
        }
    }
    Ok(())
}

/// A list of requests, and whether there are more; or that there are none.
pub(crate) fn listed(
    alloc: Global,
    items: &Html,
    none: &str,
    more: bool,
) -> Result<Html, NoMemory> {
    let mut part = Html::new(alloc);
    if items.is_empty() {
        part.add_requests_none(none)?;
        return Ok(part);
    }
    part.add_requests(items)?;
    if more {
        part.add_requests_none("There are more: the report has them all.")?;
    }
    Ok(part)
}

/// Adds one request, with that said behind its number.
pub(crate) fn add_single(
    alloc: Global,
    items: &mut Html,
    single: &Single,
    behind: &str,
) -> Result<(), NoMemory> {
    let mut telling = RequestTelling::new(alloc)?;
    telling.tell(single);
    add_now(alloc, items, &telling, behind)
}

// The one that is told now.
fn add_now(
    alloc: Global,
    items: &mut Html,
    telling: &RequestTelling<'_>,
    behind: &str,
) -> Result<(), NoMemory> {
    match telling.told() {
        Some(told) => add_told(alloc, items, &told, behind),
        None => Ok(()),
    }
}

fn add_told(
    alloc: Global,
    items: &mut Html,
    told: &ToldRequest<'_>,
    behind: &str,
) -> Result<(), NoMemory> {
    match told {
        ToldRequest::Load { address } => {
            add_request(alloc, items, "load", address, &Html::new(alloc))
        }
        ToldRequest::Link { number, address } => {
            let method = format!(in alloc; "get {number}{behind}")?;
            add_request(alloc, items, method.as_str(), address, &Html::new(alloc))
        }
        ToldRequest::Form(form) => add_form(alloc, items, form, behind),
    }
}

fn add_form(
    alloc: Global,
    items: &mut Html,
    form: &ToldForm<'_>,
    behind: &str,
) -> Result<(), NoMemory> {
    let kind = if form.post { "post" } else { "get" };
    let number = form.number;
    let method = format!(in alloc; "{kind} {number}{behind}")?;
    let pairs = pairs_of(alloc, &form.pairs)?;
    add_request(alloc, items, method.as_str(), form.start(), &pairs)
}

fn add_request(
    alloc: Global,
    items: &mut Html,
    method: &str,
    address: &str,
    pairs: &Html,
) -> Result<(), NoMemory> {
    let mut shown = String::new(alloc);
    push_front(&mut shown, address, MOST_ADDRESS)?;
    items.add_request(method, shown.as_str(), pairs)
}

// What a form sends, as it was typed and not as it is encoded.
fn pairs_of(alloc: Global, pairs: &SentPairs<'_>) -> Result<Html, NoMemory> {
    let mut shown = Html::new(alloc);
    let mut count: usize = 0;
    for place in 0..pairs.places() {
        let Some(pair) = pairs.at(place) else {
            continue;
        };
        if count >= MOST_PAIRS {
            shown.add_pairs("and more")?;
            break;
        }
        count += 1;
        let text = pair_text(alloc, &pair)?;
        shown.add_pairs(text.as_str())?;
    }
    Ok(shown)
}

fn pair_text(alloc: Global, pair: &SentPair<'_>) -> Result<String, NoMemory> {
    let mut text = String::from_str(alloc, beginning_of(pair.name, MOST_BYTES))?;
    text.push_str(" = ")?;
    match pair.value {
        SentValue::Text(value) => push_front(&mut text, value, MOST_BYTES)?,
        SentValue::Children { page, number } => {
            push_texts(&mut text, page.child_texts_of(number))?;
        }
    }
    Ok(text)
}

// As much of it as there is room for, so many bytes.
fn push_front(text: &mut String, more: &str, most: usize) -> Result<(), NoMemory> {
    let front = beginning_of(more, most);
    text.push_str(front)?;
    if front.len() < more.len() {
        text.push_str("\u{2026}")?;
    }
    Ok(())
}

fn push_texts(text: &mut String, texts: ChildTexts<'_>) -> Result<(), NoMemory> {
    let mut texts = texts;
    for _k in 0..MOST_TEXTS {
        let Some(more) = texts.next() else {
            return Ok(());
        };
        if text.len() > 2 * MOST_BYTES {
            text.push_str("\u{2026}")?;
            return Ok(());
        }
        push_front(text, more, MOST_BYTES)?;
    }
    Ok(())
}
