//! The pieces of `review/pieces/search/`, each with its slots filled. `tools/pieces` writes this file.
ghost use Rattle.std.specs.Prelude.{◌≡◌, ◌++◌, OnOk};
ghost use Rattle.review_pieces.specs.Pieces.{found_html, found_client_html, found_clients_html, search_html};

use markup::{Part, fill};
use std::alloc::AllocError;

/// Adds `found.html`.
#[tactic(auto, unfolding(crate::specs::Pieces::found_html))]
pub fn add_found<'t>(
    out: &mut Vec<u8>,
    client: &'t str,
    visit: &'t str,
    state: &'t str,
    address: &'t str,
    conflict: &'t str,
) -> Result<(), AllocError>
    ensures { OnOk result (out.new.items ≡ out.old.items
        ++ found_html client.now visit.now state.now address.now conflict.now) }
{
    fill(out, &FOUND, &[client, visit, state, address, conflict], &[])
}

const FOUND: [Part; 17] = [
    Part::Fixed("<li><span class=\"what\"><a href=\"/visit?c="),
    Part::Words(0),
    Part::Fixed("&amp;v="),
    Part::Words(1),
    Part::Fixed("\">"),
    Part::Words(0),
    Part::Fixed(", visit "),
    Part::Words(1),
    Part::Fixed("</a><span class=\"state "),
    Part::Words(2),
    Part::Fixed("\">"),
    Part::Words(2),
    Part::Fixed("</span><code>"),
    Part::Words(3),
    Part::Fixed("</code><span>"),
    Part::Words(4),
    Part::Fixed("</span></span></li>\n"),
];

/// Adds `found_client.html`.
#[tactic(auto, unfolding(crate::specs::Pieces::found_client_html))]
pub fn add_found_client(out: &mut Vec<u8>, client: &str) -> Result<(), AllocError>
    ensures { OnOk result (out.new.items ≡ out.old.items ++ found_client_html client.now) }
{
    fill(out, &FOUND_CLIENT, &[client], &[])
}

const FOUND_CLIENT: [Part; 5] = [
    Part::Fixed("<li><span class=\"what\"><a href=\"/client?c="),
    Part::Words(0),
    Part::Fixed("\">"),
    Part::Words(0),
    Part::Fixed("</a></span></li>\n"),
];

/// Adds `found_clients.html`.
#[tactic(auto, unfolding(crate::specs::Pieces::found_clients_html))]
pub fn add_found_clients(out: &mut Vec<u8>, items: &[u8]) -> Result<(), AllocError>
    ensures { OnOk result (out.new.items ≡ out.old.items ++ found_clients_html items.now) }
{
    fill(out, &FOUND_CLIENTS, &[], &[items])
}

const FOUND_CLIENTS: [Part; 3] = [
    Part::Fixed("<ul class=\"tree\">\n"),
    Part::Made(0),
    Part::Fixed("</ul>\n"),
];

/// Adds `search.html`.
#[tactic(auto, unfolding(crate::specs::Pieces::search_html))]
pub fn add_search<'t>(
    out: &mut Vec<u8>,
    count: &'t str,
    query: &'t str,
    clients: &'t [u8],
    items: &'t [u8],
    pages: &'t [u8],
) -> Result<(), AllocError>
    ensures { OnOk result (out.new.items ≡ out.old.items
        ++ search_html count.now query.now clients.now items.now pages.now) }
{
    fill(out, &SEARCH, &[count, query], &[clients, items, pages])
}

const SEARCH: [Part; 11] = [
    Part::Fixed("<h1>"),
    Part::Words(0),
    Part::Fixed(" found</h1>\n<p class=\"soft\">Looked for &ldquo;"),
    Part::Words(1),
    Part::Fixed("&rdquo; in names of clients, in addresses of visits, and in codes.</p>\n"),
    Part::Made(0),
    Part::Fixed("\n<ol class=\"tree\">\n"),
    Part::Made(1),
    Part::Fixed("</ol>\n"),
    Part::Made(2),
    Part::Fixed("\n"),
];
