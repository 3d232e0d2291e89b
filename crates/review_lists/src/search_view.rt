//! What is found.
ghost use Rattle.std.specs.Prelude.{ℕ, List, ◌≡◌, ◌++◌, codes, flat_map, map, IfOk, OnOk, string_bytes};
ghost use Rattle.form_urlencoded.specs.Form.{byte_serialize};
ghost use Rattle.review_pieces.specs.Pieces.{found_client_html};
ghost use Rattle.review_lists.specs.inside.FoundPages.{IsFoundPage};
ghost use Rattle.review_lists.specs.SearchView.{searched, found_names, finds_of, client_finds, found_told, search_pages, search_told};

use crate::found_page::{FoundPage, VISITS_FOUND};
use crate::page_links::{add_page_links, listed_from};
use crate::search_rows::find_all;
use crate::sought::Sought;
use crate::upload_list::add_more_than;
use byte_streams::Source;
use conflict_desk::Desk;
use form_urlencoded::byte_serialize;
use itoa::Buffer;
use lanes_in_turn::Gathered;
use page_tree::NoMemory;
use review_pieces::pieces;
use std::alloc::Global;
use warp_run::{ClientSummary, Repaired};

/// How many clients are shown.
const CLIENTS_FOUND: usize = 100;

/// Adds the clients whose names have that part, and the visits whose addresses have it or whose conflicts have that code, from that visit on. Nothing is
/// found where nothing is asked for.
pub fn add_search<R: Source>(
    alloc: Global,
    out: &mut Vec<u8>,
    logs: &Gathered<R>,
    repaired: &Repaired,
    text: &str,
    from: u64,
) -> Result<(), NoMemory>
    ensures { OnOk result (out.new.items ≡ out.old.items ++ search_told logs.now repaired.now text.now from) }
{
    let from = from as usize;
    let sought = Sought::new(text);
    let clients = searched(text, repaired.clients.as_slice());
    let names = found_names(alloc, &sought, clients)?;
    let page = found_page(alloc, &sought, logs, &repaired.desk, clients, from)?;
    add_found(alloc, out, text, names.as_slice(), &page, from)?;
    Ok(())
}

fn found_page<R: Source>(
    alloc: Global,
    sought: &Sought<'_>,
    logs: &Gathered<R>,
    desk: &Desk,
    clients: &[ClientSummary],
    from: usize,
) -> Result<FoundPage, NoMemory>
    ensures { IfOk result (IsFoundPage from (flat_map (finds_of sought.now.text.now logs.now desk.now) clients.now)) }
{
    let mut page = FoundPage::new(alloc, from);
    find_all(alloc, &mut page, sought, logs, desk, clients)?;
    Ok(page)
}

fn add_found<'t>(
    alloc: Global,
    out: &mut Vec<u8>,
    text: &'t str,
    names: &[&'t str],
    page: &FoundPage,
    from: usize,
) -> Result<(), NoMemory>
    ensures { OnOk result ((finds : List (List ℕ)) → IsFoundPage from finds page.now
        → out.new.items ≡ out.old.items ++ found_told text.now (map (λ name. name.now) names.now) finds from) }
{
    let mut items = Vec::new(alloc);
    add_client_finds(alloc, &mut items, names)?;
    let mut pages = Vec::new(alloc);
    add_search_pages(alloc, &mut pages, text, from, page.count())?;
    let mut count = Buffer::new();
    pieces::add_search(
        out,
        count.format(names.len().saturating_add(page.count())),
        text,
        items.as_slice(),
        page.rows(),
        pages.as_slice(),
    )?;
    Ok(())
}

// None, where nothing is asked for.
fn searched<'s>(text: &str, clients: &'s [ClientSummary]) -> &'s [ClientSummary]
    ensures { result.now ≡ searched text.now clients.now }
{
    if text.len() == 0 { &[] } else { clients }
}

// ---- clients

fn found_names<'s>(
    alloc: Global,
    sought: &Sought<'_>,
    clients: &'s [ClientSummary],
) -> Result<Vec<&'s str>, NoMemory>
    ensures { IfOk result (λ names. map (λ name. name.now) names.items ≡ found_names sought.now.text.now clients.now) }
{
    let mut names = Vec::new(alloc);
    for client in clients {
        let name = client.client.text();
        if sought.is_in(name) {
            names.push(name)?;
        }
    }
    Ok(names)
}

// The first of them, and how many more there are; nothing where none is.
#[tactic(auto, unfolding(crate::specs::SearchView::client_finds))]
fn add_client_finds(alloc: Global, out: &mut Vec<u8>, names: &[&str]) -> Result<(), NoMemory>
    ensures { OnOk result (out.new.items ≡ out.old.items ++ client_finds (map (λ name. name.now) names.now)) }
{
    if names.len() == 0 {
        return Ok(());
    }
    let mut items = Vec::new(alloc);
    add_found_clients(&mut items, listed_from(names, 0, CLIENTS_FOUND))?;
    add_more_than(&mut items, CLIENTS_FOUND, names.len())?;
    pieces::add_found_clients(out, items.as_slice())?;
    Ok(())
}

fn add_found_clients(out: &mut Vec<u8>, names: &[&str]) -> Result<(), NoMemory>
    ensures { OnOk result (out.new.items ≡ out.old.items
        ++ flat_map found_client_html (map (λ name. name.now) names.now)) }
{
    for name in names {
        pieces::add_found_client(out, name)?;
    }
    Ok(())
}

// ---- pages

fn add_search_pages(
    alloc: Global,
    out: &mut Vec<u8>,
    text: &str,
    from: usize,
    count: usize,
) -> Result<(), NoMemory>
    ensures { OnOk result (out.new.items ≡ out.old.items ++ search_pages text.now from count) }
{
    let before = search_address(alloc, text)?;
    add_page_links(
        alloc,
        out,
        "Visits found",
        before.as_str(),
        "",
        VISITS_FOUND,
        from,
        count,
    )
}

// That of a page of what is found, up to the number of its first visit.
fn search_address(alloc: Global, text: &str) -> Result<String, NoMemory>
    ensures { IfOk result (λ address. string_bytes address
        ≡ codes "/search?q=" ++ (byte_serialize text.now ++ codes "&from=")) }
{
    let mut address = String::from_str(alloc, "/search?q=")?;
    add_encoded(&mut address, text)?;
    address.push_str("&from=")?;
    Ok(address)
}

fn add_encoded(address: &mut String, text: &str) -> Result<(), NoMemory>
    ensures { OnOk result (string_bytes address.new ≡ string_bytes address.old ++ byte_serialize text.now) }
{
    for piece in byte_serialize(text.as_bytes()) {
        address.push_str(piece)?;
    }
    Ok(())
}
