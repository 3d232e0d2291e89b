//! What is told of a client's visits, as JSON. No name of a visit and no code of a fault needs to be escaped.
ghost use Rattle.std.specs.Prelude.{◌≡◌, ◌++◌, ℕ, List, [], codes, decimal, drop, flat_map, Some, IfOk, OnOk};
ghost use Rattle.upload_store.specs.Standing.{KeepsState};
ghost use Rattle.upload_store.specs.Store.{StoreState, unrefused};
ghost use Rattle.upload_folder.specs.Standing.{IsOpenAt};
ghost use Rattle.http1.specs.Fields.{Header};
ghost use Rattle.http_server.specs.Response.{IsResponse};
ghost use Rattle.collect_http.specs.Answering.{text_fields};
ghost use Rattle.collect_http.specs.Telling.{cookie_text, count_text, member_of, quoted_code, refusal_text, told_text};

use crate::cookie::COOKIE_START;
use crate::saying::say;
use http::StatusCode;
use http_server::Response;
use page_tree::NoMemory;
use std::alloc::Global;
use upload_files::GrowingFile;
use upload_folder::{Clients, Folder};
use upload_reader::{Client, LaneFault};
use upload_store::{Store, VisitSet};

/// What is told of a client whose file is open.
pub(crate) fn say_told<F: GrowingFile + Drop, D: Folder<F>>(
    alloc: Global,
    clients: &Clients<F, D>,
    client: &Client,
    visits: &VisitSet,
    response: &mut Response,
) -> Result<(), NoMemory>
    ensures { OnOk result ((code : ℕ) (sent : List Header) (state : StoreState) → IsResponse code sent [] response.old
        → IsOpenAt F.seen F.durable F.lost clients.now client.now state
        → IsResponse 200 (sent ++ text_fields) (told_text state visits.now.keys) response.new) }
{
    let text = told_text(alloc, clients, client, visits.as_slice())?;
    say(response, StatusCode::OK, &text)
}

/// What is told of a client of which nothing is stored.
pub(crate) fn say_nothing(
    alloc: Global,
    visits: &VisitSet,
    response: &mut Response,
) -> Result<(), NoMemory>
    ensures { OnOk result ((code : ℕ) (sent : List Header) (client : List ℕ) → IsResponse code sent [] response.old
        → IsResponse 200 (sent ++ text_fields) (told_text (unrefused client []) visits.now.keys) response.new) }
{
    let text = nothing_text(alloc, visits.as_slice())?;
    say(response, StatusCode::OK, &text)
}

/// What is told of a client that has no file, by the store that has taken its body.
pub(crate) fn say_unstored(
    alloc: Global,
    store: &Store,
    visits: &VisitSet,
    response: &mut Response,
) -> Result<(), NoMemory>
    ensures { OnOk result ((code : ℕ) (sent : List Header) (state : StoreState) → IsResponse code sent [] response.old
        → KeepsState store.now state → state.kept ≡ []
        → IsResponse 200 (sent ++ text_fields) (told_text state visits.now.keys) response.new) }
{
    let text = unstored_text(alloc, store, visits.as_slice())?;
    say(response, StatusCode::OK, &text)
}

// How many lines of each visit are stored, and which visits are refused, with why.
fn told_text<F: GrowingFile + Drop, D: Folder<F>>(
    alloc: Global,
    clients: &Clients<F, D>,
    client: &Client,
    visits: &[Client],
) -> Result<Vec<u8>, NoMemory>
    ensures { IfOk result (λ text. (state : StoreState)
        → IsOpenAt F.seen F.durable F.lost clients.now client.now state
        → text.items ≡ told_text state visits.now) }
{
    let counts = put_counts(alloc, clients, client, visits)?;
    let refusals = put_refusals(alloc, clients, client, visits)?;
    join(alloc, &counts, &refusals)
}

// Nothing is stored of these visits of a client.
fn nothing_text(alloc: Global, visits: &[Client]) -> Result<Vec<u8>, NoMemory>
    ensures { IfOk result (λ text. (client : List ℕ) → text.items ≡ told_text (unrefused client []) visits.now) }
{
    let counts = no_counts(alloc, visits)?;
    join(alloc, &counts, b"")
}

// Nothing is stored of these visits, of which some may be refused.
fn unstored_text(alloc: Global, store: &Store, visits: &[Client]) -> Result<Vec<u8>, NoMemory>
    ensures { IfOk result (λ text. (state : StoreState) → KeepsState store.now state → state.kept ≡ []
        → text.items ≡ told_text state visits.now) }
{
    let counts = no_counts(alloc, visits)?;
    let refusals = store_refusals(alloc, store, visits)?;
    join(alloc, &counts, &refusals)
}

fn no_counts(alloc: Global, visits: &[Client]) -> Result<Vec<u8>, NoMemory>
    ensures { IfOk result (λ text. text.items ≡ flat_map (member_of (λ _. Some (decimal 0))) visits.now) }
{
    let mut counts = Vec::new(alloc);
    for visit in visits {
        put_count(alloc, &mut counts, visit, 0)?;
    }
    Ok(counts)
}

fn store_refusals(alloc: Global, store: &Store, visits: &[Client]) -> Result<Vec<u8>, NoMemory>
    ensures { IfOk result (λ text. (state : StoreState) → KeepsState store.now state
        → text.items ≡ flat_map (member_of (refusal_text state)) visits.now) }
{
    let mut text = Vec::new(alloc);
    for visit in visits {
        put_refusal(alloc, &mut text, visit, store.refusal(visit))?;
    }
    Ok(text)
}

// Members with commas before them, joined to the object.
fn join(alloc: Global, counts: &[u8], refusals: &[u8]) -> Result<Vec<u8>, NoMemory>
    ensures { IfOk result (λ text. text.items ≡ codes "{\"have\":{" ++ (drop 1 counts.now
        ++ (codes "},\"refused\":{" ++ (drop 1 refusals.now ++ codes "}}\n")))) }
{
    let mut text = Vec::new(alloc);
    text.extend_from_slice(b"{\"have\":{")?;
    text.extend_from_slice(without_first(counts))?;
    text.extend_from_slice(b"},\"refused\":{")?;
    text.extend_from_slice(without_first(refusals))?;
    text.extend_from_slice(b"}}\n")?;
    Ok(text)
}

fn without_first(bytes: &[u8]) -> &[u8]
    ensures { result.now ≡ drop 1 bytes.now }
{
    match bytes {
        [] => bytes,
        [_, rest @ ..] => rest,
    }
}

fn put_counts<F: GrowingFile + Drop, D: Folder<F>>(
    alloc: Global,
    clients: &Clients<F, D>,
    client: &Client,
    visits: &[Client],
) -> Result<Vec<u8>, NoMemory>
    ensures { IfOk result (λ text. (state : StoreState)
        → IsOpenAt F.seen F.durable F.lost clients.now client.now state
        → text.items ≡ flat_map (member_of (count_text state)) visits.now) }
{
    let mut text = Vec::new(alloc);
    for visit in visits {
        put_count(alloc, &mut text, visit, clients.have(client, visit))?;
    }
    Ok(text)
}

fn put_refusals<F: GrowingFile + Drop, D: Folder<F>>(
    alloc: Global,
    clients: &Clients<F, D>,
    client: &Client,
    visits: &[Client],
) -> Result<Vec<u8>, NoMemory>
    ensures { IfOk result (λ text. (state : StoreState)
        → IsOpenAt F.seen F.durable F.lost clients.now client.now state
        → text.items ≡ flat_map (member_of (refusal_text state)) visits.now) }
{
    let mut text = Vec::new(alloc);
    for visit in visits {
        put_refusal(alloc, &mut text, visit, clients.refusal(client, visit))?;
    }
    Ok(text)
}

// How many lines are stored of a visit.
fn put_count(alloc: Global, text: &mut Vec<u8>, visit: &Client, count: u64) -> Result<(), NoMemory>
    ensures { OnOk result (text.new.items ≡ text.old.items
        ++ member_of (λ _. Some (decimal count)) visit.now) }
{
    let count = count.to_string(alloc)?;
    put_member(text, visit, count.as_bytes())
}

// A refusal of a visit, if it is refused.
fn put_refusal(
    alloc: Global,
    text: &mut Vec<u8>,
    visit: &Client,
    refusal: Option<LaneFault>,
) -> Result<(), NoMemory>
    ensures { OnOk result (text.new.items ≡ text.old.items
        ++ member_of (λ _. quoted_code refusal) visit.now) }
{
    match refusal {
        Some(fault) => {
            let code = format!(in alloc; "\"{fault}\"")?;
            put_member(text, visit, code.as_bytes())
        }
        None => Ok(()),
    }
}

// A comma, the name of a visit, and its value.
fn put_member(text: &mut Vec<u8>, visit: &Client, value: &[u8]) -> Result<(), NoMemory>
    ensures { OnOk result (text.new.items ≡ text.old.items
        ++ (codes ",\"" ++ (visit.now ++ (codes "\":" ++ value.now)))) }
{
    text.extend_from_slice(b",\"")?;
    text.extend_from_slice(visit.text().as_bytes())?;
    text.extend_from_slice(b"\":")?;
    text.extend_from_slice(value)?;
    Ok(())
}

/// The field that gives a browser its name, for a year.
pub(crate) fn cookie_text(alloc: Global, client: &Client) -> Result<Vec<u8>, NoMemory>
    ensures { IfOk result (λ text. text.items ≡ cookie_text client.now) }
{
    let mut text = Vec::new(alloc);
    text.extend_from_slice(COOKIE_START.as_bytes())?;
    text.extend_from_slice(client.text().as_bytes())?;
    text.extend_from_slice(b"; Path=/; Max-Age=31536000; HttpOnly; SameSite=Lax")?;
    Ok(text)
}
