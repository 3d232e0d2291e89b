//! The table of clients.
ghost use Rattle.std.specs.Prelude.{◌≡◌, ◌++◌, OnOk};
ghost use Rattle.review_lists.specs.Overview.{client_row, client_rows, client_pages};

use crate::page_links::{add_page_links, listed_from};
use crate::standings::counts_for;
use crate::words::end_word;
use conflict_desk::Desk;
use itoa::Buffer;
use page_tree::NoMemory;
use review_pieces::pieces;
use std::alloc::Global;
use warp_run::ClientSummary;

const CLIENTS_A_PAGE: usize = 100;

/// Adds the rows of the page of it that begins there.
pub(crate) fn add_client_rows(
    alloc: Global,
    out: &mut Vec<u8>,
    desk: &Desk,
    from: usize,
    clients: &[ClientSummary],
) -> Result<(), NoMemory>
    ensures { OnOk result (out.new.items ≡ out.old.items ++ client_rows desk.now from clients.now) }
{
    for client in listed_from(clients, from, CLIENTS_A_PAGE) {
        add_client_row(alloc, out, desk, client)?;
    }
    Ok(())
}

#[tactic(auto, unfolding(crate::specs::Overview::client_row))]
fn add_client_row(
    alloc: Global,
    out: &mut Vec<u8>,
    desk: &Desk,
    client: &ClientSummary,
) -> Result<(), NoMemory>
    ensures { OnOk result (out.new.items ≡ out.old.items ++ client_row desk.now client.now) }
{
    let counts = counts_for(desk, &client.client);
    let end = end_word(alloc, client.end)?;
    let mut waiting = Buffer::new();
    let mut kept = Buffer::new();
    let mut cancelled = Buffer::new();
    let mut done = Buffer::new();
    let mut untouched = Buffer::new();
    let mut lost = Buffer::new();
    pieces::add_row(
        out,
        client.client.text(),
        end.as_str(),
        waiting.format(counts.waiting),
        kept.format(counts.kept),
        cancelled.format(counts.cancelled),
        done.format(counts.done),
        untouched.format(counts.untouched),
        lost.format(client.lost),
    )
}

/// Adds links to other pages of it. `from` is the first front on the same page.
pub(crate) fn add_client_pages(
    alloc: Global,
    out: &mut Vec<u8>,
    from: usize,
    shown: usize,
    count: usize,
) -> Result<(), NoMemory>
    ensures { OnOk result (out.new.items ≡ out.old.items ++ client_pages from shown count) }
{
    let before = format!(in alloc; "/?from={from}&clients=")?;
    add_page_links(
        alloc,
        out,
        "Clients",
        before.as_str(),
        "#clients",
        CLIENTS_A_PAGE,
        shown,
        count,
    )
}
