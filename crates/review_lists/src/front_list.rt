//! What each client has to be decided first.
ghost use Rattle.std.specs.Prelude.{◌≡◌, ◌++◌, map, flat_map, IfOk, OnOk, string_bytes};
ghost use Rattle.review_lists.specs.Overview.{behind_words, client_names, conflict_at_visit, front_entry, front_entry_of, front_list, front_pages, waiting_front};

use crate::addresses::{logged_visits, visit_address};
use crate::page_links::{add_page_links, listed_from};
use crate::standings::counts_for;
use crate::words::{conflict_in, counted_words};
use byte_streams::Source;
use conflict_desk::Desk;
use conflict_words::meaning_of;
use itoa::Buffer;
use lanes_in_turn::Gathered;
use page_tree::NoMemory;
use review_pieces::pieces;
use review_state::{Front, fronts_of};
use std::alloc::Global;
use upload_reader::Client;
use visit_replay::{ConflictKind, conflict_code};
use warp_run::ClientSummary;

const FRONTS_A_PAGE: usize = 50;

const ONE_BEHIND: &str = "1 more waits behind it.";

const MORE_BEHIND: &str = " more wait behind it.";

/// Adds the page of them that begins at the front `from`. `shown` is the first client of the table on the same page.
#[tactic(auto, unfolding(crate::specs::Overview::front_list))]
pub(crate) fn add_front_list<R: Source>(
    alloc: Global,
    out: &mut Vec<u8>,
    logs: &Gathered<R>,
    desk: &Desk,
    summaries: &[ClientSummary],
    from: usize,
    shown: usize,
) -> Result<(), NoMemory>
    ensures { OnOk result (out.new.items ≡ out.old.items
        ++ front_list logs.now desk.now (client_names summaries.now) from shown) }
{
    let clients = clients_of(alloc, summaries)?;
    let fronts = fronts_of(alloc, desk, clients.as_slice())?;
    if fronts.len() == 0 {
        return pieces::add_no_fronts(out);
    }
    let page = listed_from(fronts.as_slice(), from, FRONTS_A_PAGE);
    let mut items = Vec::new(alloc);
    add_front_entries(alloc, &mut items, logs, desk, clients.as_slice(), page)?;
    let mut pages = Vec::new(alloc);
    add_front_pages(alloc, &mut pages, from, shown, fronts.len())?;
    pieces::add_fronts(out, items.as_slice(), pages.as_slice())
}

fn clients_of<'s>(
    alloc: Global,
    summaries: &'s [ClientSummary],
) -> Result<Vec<&'s Client>, NoMemory>
    ensures { IfOk result (λ clients. map (λ client. client.now) clients.items ≡ client_names summaries.now) }
{
    let mut clients = Vec::with_capacity(alloc, summaries.len())?;
    for summary in summaries {
        clients.push(&summary.client)?;
    }
    Ok(clients)
}

fn add_front_pages(
    alloc: Global,
    out: &mut Vec<u8>,
    from: usize,
    shown: usize,
    count: usize,
) -> Result<(), NoMemory>
    ensures { OnOk result (out.new.items ≡ out.old.items ++ front_pages from shown count) }
{
    let before = format!(in alloc; "/?clients={shown}&from=")?;
    add_page_links(
        alloc,
        out,
        "Clients whose visits wait",
        before.as_str(),
        "",
        FRONTS_A_PAGE,
        from,
        count,
    )
}

fn add_front_entries<R: Source>(
    alloc: Global,
    out: &mut Vec<u8>,
    logs: &Gathered<R>,
    desk: &Desk,
    clients: &[&Client],
    fronts: &[Front],
) -> Result<(), NoMemory>
    ensures { OnOk result (out.new.items ≡ out.old.items
        ++ flat_map (front_entry logs.now desk.now (map (λ client. client.now) clients.now)) fronts.now) }
{
    for front in fronts {
        add_front_entry(alloc, out, logs, desk, clients, *front)?;
    }
    Ok(())
}

// A front is of the client at its place.
#[tactic(auto, unfolding(crate::specs::Overview::front_entry))]
fn add_front_entry<R: Source>(
    alloc: Global,
    out: &mut Vec<u8>,
    logs: &Gathered<R>,
    desk: &Desk,
    clients: &[&Client],
    front: Front,
) -> Result<(), NoMemory>
    ensures { OnOk result (out.new.items ≡ out.old.items
        ++ front_entry logs.now desk.now (map (λ client. client.now) clients.now) front) }
{
    match clients.get(front.client) {
        None => Ok(()),
        Some(client) => add_front_of(alloc, out, logs, desk, client, front.visit),
    }
}

#[tactic(auto, unfolding(crate::specs::Overview::front_entry_of))]
fn add_front_of<R: Source>(
    alloc: Global,
    out: &mut Vec<u8>,
    logs: &Gathered<R>,
    desk: &Desk,
    client: &Client,
    visit: u64,
) -> Result<(), NoMemory>
    ensures { OnOk result (out.new.items ≡ out.old.items ++ front_entry_of logs.now desk.now client.now visit) }
{
    match conflict_at_visit(desk, client, visit) {
        None => Ok(()),
        Some(conflict) => {
            let address = visit_address(logged_visits(logs, client), visit);
            let waiting = counts_for(desk, client).waiting;
            add_waiting_front(alloc, out, client.text(), visit, address, waiting, conflict)
        }
    }
}

fn conflict_at_visit(desk: &Desk, client: &Client, visit: u64) -> Option<(u64, ConflictKind)>
    ensures { result ≡ conflict_at_visit desk.now client.now visit }
{
    match desk.outcome(client, visit) {
        None => None,
        Some(outcome) => conflict_in(outcome),
    }
}

// With its address, its conflict, and how many wait behind it.
#[tactic(auto, unfolding(crate::specs::Overview::waiting_front))]
fn add_waiting_front<'t>(
    alloc: Global,
    out: &mut Vec<u8>,
    client: &'t str,
    visit: u64,
    address: &'t str,
    waiting: usize,
    conflict: (u64, ConflictKind),
) -> Result<(), NoMemory>
    ensures { OnOk result (out.new.items ≡ out.old.items
        ++ waiting_front client.now visit address.now waiting conflict) }
{
    let (at, kind) = conflict;
    let behind = behind_words(alloc, waiting)?;
    let mut number = Buffer::new();
    let mut event = Buffer::new();
    pieces::add_front(
        out,
        client,
        number.format(visit),
        conflict_code(kind),
        event.format(at),
        address,
        meaning_of(kind),
        behind.as_str(),
    )
}

// Of so many that wait.
fn behind_words(alloc: Global, waiting: usize) -> Result<String, NoMemory>
    ensures { IfOk result (λ text. string_bytes text ≡ behind_words waiting) }
{
    if waiting <= 1 {
        return Ok(String::new(alloc));
    }
    counted_words(alloc, waiting - 1, ONE_BEHIND, MORE_BEHIND)
}
