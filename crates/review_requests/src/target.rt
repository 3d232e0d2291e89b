//! The views, by their addresses.
ghost use Rattle.std.specs.Prelude.{◌≡◌, IfOk};
ghost use Rattle.review_requests.specs.Target.{address_at, asks_drawing, asks_overview, asks_search, side_word, side_named, view_at, asks_visit, asks_visits};

use crate::form::{begin_word, client_word, visit_word, visit_word_if_any, word_in};
use page_tree::{NoMemory, Text};
use std::alloc::Global;
use upload_reader::Client;

/// What stands at an address, and is only read.
#[derive(Clone, Copy, Debug, PartialEq, Eq)]
pub(crate) enum Address {
    Overview,
    Visits,
    Visit,
    Drawing,
    Search,
    Report,
    State,
    PageStyle,
    DrawingStyle,
    Script,
}

/// One of the two pages of a visit.
#[derive(Clone, Copy, Debug, PartialEq, Eq)]
pub enum Side {
    /// As it was recorded.
    Recorded,
    /// As it is after the repair.
    Repaired,
}

/// What is to be shown.
#[derive(Debug, Drop)]
pub enum View {
    /// What wants attention: conflicts from one place on, clients from the other.
    Overview {
        from: u64,
        clients: u64,
    },
    /// A client, and its visits from a place on.
    Visits {
        client: Client,
        from: u64,
    },
    /// A visit, and which one was decided before, where this is told.
    Visit {
        client: Client,
        visit: u64,
        told: Option<u64>,
    },
    /// A page of a visit, drawn.
    Drawing {
        client: Client,
        visit: u64,
        side: Side,
    },
    /// What has this text, from a place on.
    Search {
        text: Text,
        from: u64,
    },
    Report,
    /// How many decisions there are.
    State,
    PageStyle,
    DrawingStyle,
    Script,
}

pub(crate) fn address_at(path: &str) -> Option<Address>
    ensures { result ≡ address_at path.now }
{
    if path == "/" {
        return Some(Address::Overview);
    }
    if path == "/client" {
        return Some(Address::Visits);
    }
    if path == "/visit" {
        return Some(Address::Visit);
    }
    if path == "/page" {
        return Some(Address::Drawing);
    }
    if path == "/search" {
        return Some(Address::Search);
    }
    if path == "/report" {
        return Some(Address::Report);
    }
    if path == "/state" {
        return Some(Address::State);
    }
    if path == "/review.css" {
        return Some(Address::PageStyle);
    }
    if path == "/page.css" {
        return Some(Address::DrawingStyle);
    }
    if path == "/review.js" {
        return Some(Address::Script);
    }
    None
}

/// The view at an address, where the query says all that it needs.
pub(crate) fn view_at(
    alloc: Global,
    address: Address,
    query: &[u8],
) -> Result<Option<View>, NoMemory>
    ensures { IfOk result (λ view. view ≡ view_at address query.now) }
{
    match address {
        Address::Overview => asks_overview(alloc, query),
        Address::Visits => asks_visits(alloc, query),
        Address::Visit => asks_visit(alloc, query),
        Address::Drawing => asks_drawing(alloc, query),
        Address::Search => asks_search(alloc, query),
        Address::Report => Ok(Some(View::Report)),
        Address::State => Ok(Some(View::State)),
        Address::PageStyle => Ok(Some(View::PageStyle)),
        Address::DrawingStyle => Ok(Some(View::DrawingStyle)),
        Address::Script => Ok(Some(View::Script)),
    }
}

fn asks_overview(alloc: Global, query: &[u8]) -> Result<Option<View>, NoMemory>
    ensures { IfOk result (λ view. view ≡ asks_overview query.now) }
{
    let Some(from) = begin_word(alloc, "from", query)? else {
        return Ok(None);
    };
    match begin_word(alloc, "clients", query)? {
        Some(clients) => Ok(Some(View::Overview { from, clients })),
        None => Ok(None),
    }
}

fn asks_visits(alloc: Global, query: &[u8]) -> Result<Option<View>, NoMemory>
    ensures { IfOk result (λ view. view ≡ asks_visits query.now) }
{
    let Some(client) = client_word(alloc, "c", query)? else {
        return Ok(None);
    };
    match begin_word(alloc, "from", query)? {
        Some(from) => Ok(Some(View::Visits { client, from })),
        None => Ok(None),
    }
}

fn asks_visit(alloc: Global, query: &[u8]) -> Result<Option<View>, NoMemory>
    ensures { IfOk result (λ view. view ≡ asks_visit query.now) }
{
    let Some(client) = client_word(alloc, "c", query)? else {
        return Ok(None);
    };
    let Some(visit) = visit_word(alloc, "v", query)? else {
        return Ok(None);
    };
    match visit_word_if_any(alloc, "told", query)? {
        Some(told) => Ok(Some(View::Visit {
            client,
            visit,
            told,
        })),
        None => Ok(None),
    }
}

fn asks_drawing(alloc: Global, query: &[u8]) -> Result<Option<View>, NoMemory>
    ensures { IfOk result (λ view. view ≡ asks_drawing query.now) }
{
    let Some(client) = client_word(alloc, "c", query)? else {
        return Ok(None);
    };
    let Some(visit) = visit_word(alloc, "v", query)? else {
        return Ok(None);
    };
    match side_word(alloc, query)? {
        Some(side) => Ok(Some(View::Drawing {
            client,
            visit,
            side,
        })),
        None => Ok(None),
    }
}

fn side_word(alloc: Global, query: &[u8]) -> Result<Option<Side>, NoMemory>
    ensures { IfOk result (λ side. side ≡ side_word query.now) }
{
    match word_in(alloc, "of", query)? {
        Some(word) => Ok(side_named(word.as_str())),
        None => Ok(None),
    }
}

fn side_named(word: &str) -> Option<Side>
    ensures { result ≡ side_named word.now }
{
    if word == "recorded" {
        return Some(Side::Recorded);
    }
    if word == "repaired" {
        return Some(Side::Repaired);
    }
    None
}

fn asks_search(alloc: Global, query: &[u8]) -> Result<Option<View>, NoMemory>
    ensures { IfOk result (λ view. view ≡ asks_search query.now) }
{
    let Some(from) = begin_word(alloc, "from", query)? else {
        return Ok(None);
    };
    match word_in(alloc, "q", query)? {
        Some(text) => Ok(Some(View::Search { text, from })),
        None => Ok(Some(View::Search {
            text: Text::from_str(alloc, "")?,
            from,
        })),
    }
}
