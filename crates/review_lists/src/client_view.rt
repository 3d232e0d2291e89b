//! A client: its last upload, how its visits stand, and the tree of them.
ghost use Rattle.std.specs.Prelude.{ℕ, List, ◌≡◌, ◌++◌, [], decimal, map, option_and_then, option_map, IfOk, OnOk};
ghost use Rattle.std.specs.List.Sorted.{IsStrictlyIncreasing};
ghost use Rattle.std.specs.Option.{option_map_or};
ghost use Rattle.conflict_desk.specs.Book.{front_visit};
ghost use Rattle.conflict_desk.specs.Desk.{book_of};
ghost use Rattle.review_pieces.specs.Pieces.{next_html};
ghost use Rattle.review_lists.specs.ClientView.{summary_named, told_upload, told_counts, tree_pages, client_told, TellsClient, AddsBook, AddsClient};

use crate::addresses::logged_visits;
use crate::page_links::{add_page_links, listed_from};
use crate::tree_rows::{TreeOf, VISITS_A_PAGE, add_branches};
use crate::words::end_word;
use byte_streams::Source;
use client_log::Visit;
use conflict_desk::{Desk, OpenDocket};
use itoa::Buffer;
use lanes_in_turn::Gathered;
use page_tree::NoMemory;
use review_pieces::pieces;
use review_state::{Branches, branches_of, counts_of};
use std::alloc::Global;
use upload_reader::Client;
use warp_run::{ClientSummary, Repaired};

/// Adds what is told of a client, with its visits from that one on in the order of their tree. False where there is no such client, and then nothing is
/// added.
pub fn add_client<R: Source>(
    alloc: Global,
    out: &mut Vec<u8>,
    logs: &Gathered<R>,
    repaired: &Repaired,
    client: &Client,
    from: u64,
) -> Result<bool, NoMemory>
    ensures { IfOk result (AddsClient logs.now repaired.now client.now from out.old.items out.new.items) }
{
    match summary_named(client, repaired.clients.as_slice()) {
        None => Ok(false),
        Some(summary) => add_summary(alloc, out, logs, &repaired.desk, client, summary, from),
    }
}

// The same of a client with that summary.
fn add_summary<R: Source>(
    alloc: Global,
    out: &mut Vec<u8>,
    logs: &Gathered<R>,
    desk: &Desk,
    client: &Client,
    summary: &ClientSummary,
    from: u64,
) -> Result<bool, NoMemory>
    ensures { IfOk result (AddsBook logs.now (book_of client.now desk.now) summary.now client.now from
        out.old.items out.new.items) }
{
    match desk.docket(client) {
        None => Ok(false),
        Some(docket) => {
            let visits = logged_visits(logs, client);
            let front = front_of(desk, client);
            add_told(alloc, out, summary, docket, visits, front, from as usize)?;
            Ok(true)
        }
    }
}

// What is said of a client of that name.
fn summary_named<'s>(client: &Client, clients: &'s [ClientSummary]) -> Option<&'s ClientSummary>
    ensures { option_map (λ summary. summary.now) result ≡ summary_named client.now clients.now }
{
    clients.iter().find(|summary| *client == summary.client)
}

fn front_of(desk: &Desk, client: &Client) -> Option<u64>
    ensures { result ≡ option_and_then front_visit (book_of client.now desk.now) }
{
    match desk.front(client) {
        Ok(front) => front,
        Err(_) => None,
    }
}

fn add_told(
    alloc: Global,
    out: &mut Vec<u8>,
    summary: &ClientSummary,
    docket: &OpenDocket,
    visits: &[Visit],
    front: Option<u64>,
    from: usize,
) -> Result<(), NoMemory>
    requires ascend { IsStrictlyIncreasing (map (λ visit. visit.number) visits.now) }
    requires front { front ≡ front_visit docket.now }
    ensures { OnOk result ((html : List ℕ) × (out.new.items ≡ out.old.items ++ html)
        × TellsClient summary.now docket.now visits.now from html) }
{
    let tree = branches_of(alloc, docket)?;
    add_tree(alloc, out, summary, docket, visits, &tree, front, from)?;
    Ok(())
}

// All of it, with that tree of its visits.
#[tactic(auto, unfolding(crate::specs::ClientView::client_told))]
fn add_tree(
    alloc: Global,
    out: &mut Vec<u8>,
    summary: &ClientSummary,
    docket: &OpenDocket,
    visits: &[Visit],
    tree: &Branches,
    front: Option<u64>,
    from: usize,
) -> Result<(), NoMemory>
    requires ascend { IsStrictlyIncreasing (map (λ visit. visit.number) visits.now) }
    requires front { front ≡ front_visit docket.now }
    ensures { OnOk result (out.new.items ≡ out.old.items
        ++ client_told summary.now docket.now visits.now tree.now from) }
{
    let client = summary.client.text();
    let order = tree.order.as_slice();
    let mut upload = Vec::new(alloc);
    add_told_upload(alloc, &mut upload, summary)?;
    let mut counts = Vec::new(alloc);
    add_told_counts(&mut counts, docket)?;
    let mut next = Vec::new(alloc);
    add_told_next(&mut next, client, front)?;
    let mut items = Vec::new(alloc);
    let rows = TreeOf {
        client,
        docket,
        visits,
        front,
    };
    let places = listed_from(order, from, VISITS_A_PAGE);
    add_branches(alloc, &mut items, &rows, tree.levels.as_slice(), places)?;
    let mut pages = Vec::new(alloc);
    add_tree_pages(alloc, &mut pages, client, from, order.len())?;
    pieces::add_client(
        out,
        client,
        upload.as_slice(),
        counts.as_slice(),
        next.as_slice(),
        items.as_slice(),
        pages.as_slice(),
    )
}

fn add_told_upload(alloc: Global, out: &mut Vec<u8>, client: &ClientSummary) -> Result<(), NoMemory>
    ensures { OnOk result (out.new.items ≡ out.old.items ++ told_upload client.now) }
{
    let end = end_word(alloc, client.end)?;
    let mut taken = Buffer::new();
    let mut cost = Buffer::new();
    let mut lost = Buffer::new();
    pieces::add_client_upload(
        out,
        end.as_str(),
        taken.format(client.taken),
        cost.format(client.cost),
        lost.format(client.lost),
    )
}

fn add_told_counts(out: &mut Vec<u8>, docket: &OpenDocket) -> Result<(), NoMemory>
    ensures { OnOk result (out.new.items ≡ out.old.items ++ told_counts docket.now) }
{
    let counts = counts_of(docket);
    let mut waiting = Buffer::new();
    let mut kept = Buffer::new();
    let mut cancelled = Buffer::new();
    let mut done = Buffer::new();
    let mut untouched = Buffer::new();
    pieces::add_client_counts(
        out,
        waiting.format(counts.waiting),
        kept.format(counts.kept),
        cancelled.format(counts.cancelled),
        done.format(counts.done),
        untouched.format(counts.untouched),
    )
}

// The front, if anything waits.
fn add_told_next(out: &mut Vec<u8>, client: &str, front: Option<u64>) -> Result<(), NoMemory>
    ensures { OnOk result (out.new.items ≡ out.old.items
        ++ option_map_or (λ visit. next_html client.now (decimal visit)) front []) }
{
    match front {
        None => Ok(()),
        Some(visit) => {
            let mut number = Buffer::new();
            pieces::add_next(out, client, number.format(visit))
        }
    }
}

fn add_tree_pages(
    alloc: Global,
    out: &mut Vec<u8>,
    client: &str,
    from: usize,
    count: usize,
) -> Result<(), NoMemory>
    ensures { OnOk result (out.new.items ≡ out.old.items ++ tree_pages client.now from count) }
{
    let before = format!(in alloc; "/client?c={client}&from=")?;
    add_page_links(
        alloc,
        out,
        "Visits",
        before.as_str(),
        "#visits",
        VISITS_A_PAGE,
        from,
        count,
    )
}
