//! The pieces of `review/pieces/requests/`, each with its slots filled. `tools/pieces` writes this file.
ghost use Rattle.std.specs.Prelude.{◌≡◌, ◌++◌, OnOk};
ghost use Rattle.review_pieces.specs.Pieces.{pairs_html, request_html, requests_html, requests_none_html, visit_requests_html};

use markup::{Part, fill};
use std::alloc::AllocError;

/// Adds `pairs.html`.
#[tactic(auto, unfolding(crate::specs::Pieces::pairs_html))]
pub fn add_pairs(out: &mut Vec<u8>, pairs: &str) -> Result<(), AllocError>
    ensures { OnOk result (out.new.items ≡ out.old.items ++ pairs_html pairs.now) }
{
    fill(out, &PAIRS, &[pairs], &[])
}

const PAIRS: [Part; 3] = [
    Part::Fixed("<br><code>"),
    Part::Words(0),
    Part::Fixed("</code>\n"),
];

/// Adds `request.html`.
#[tactic(auto, unfolding(crate::specs::Pieces::request_html))]
pub fn add_request<'t>(
    out: &mut Vec<u8>,
    method: &'t str,
    address: &'t str,
    pairs: &'t [u8],
) -> Result<(), AllocError>
    ensures { OnOk result (out.new.items ≡ out.old.items ++ request_html method.now address.now pairs.now) }
{
    fill(out, &REQUEST, &[method, address], &[pairs])
}

const REQUEST: [Part; 7] = [
    Part::Fixed("<li>"),
    Part::Words(0),
    Part::Fixed(" <code>"),
    Part::Words(1),
    Part::Fixed("</code>"),
    Part::Made(0),
    Part::Fixed("</li>\n"),
];

/// Adds `requests.html`.
#[tactic(auto, unfolding(crate::specs::Pieces::requests_html))]
pub fn add_requests(out: &mut Vec<u8>, items: &[u8]) -> Result<(), AllocError>
    ensures { OnOk result (out.new.items ≡ out.old.items ++ requests_html items.now) }
{
    fill(out, &REQUESTS, &[], &[items])
}

const REQUESTS: [Part; 3] = [
    Part::Fixed("<ol class=\"requests\">\n"),
    Part::Made(0),
    Part::Fixed("</ol>\n"),
];

/// Adds `requests_none.html`.
#[tactic(auto, unfolding(crate::specs::Pieces::requests_none_html))]
pub fn add_requests_none(out: &mut Vec<u8>, why: &str) -> Result<(), AllocError>
    ensures { OnOk result (out.new.items ≡ out.old.items ++ requests_none_html why.now) }
{
    fill(out, &REQUESTS_NONE, &[why], &[])
}

const REQUESTS_NONE: [Part; 3] = [
    Part::Fixed("<p class=\"soft\">"),
    Part::Words(0),
    Part::Fixed("</p>\n"),
];

/// Adds `visit_requests.html`.
#[tactic(auto, unfolding(crate::specs::Pieces::visit_requests_html))]
pub fn add_visit_requests<'t>(
    out: &mut Vec<u8>,
    stand: &'t str,
    asked_head: &'t str,
    before: &'t [u8],
    asked: &'t [u8],
) -> Result<(), AllocError>
    ensures { OnOk result (out.new.items ≡ out.old.items
        ++ visit_requests_html stand.now asked_head.now before.now asked.now) }
{
    fill(out, &VISIT_REQUESTS, &[stand, asked_head], &[before, asked])
}

const VISIT_REQUESTS: [Part; 9] = [
    Part::Fixed("<h2>Requests</h2>\n<div class=\"split\">\n<div><h3>"),
    Part::Words(0),
    Part::Fixed("</h3>"),
    Part::Made(0),
    Part::Fixed("</div>\n<div><h3>"),
    Part::Words(1),
    Part::Fixed("</h3>"),
    Part::Made(1),
    Part::Fixed("</div>\n</div>\n"),
];
