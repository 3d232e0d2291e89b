//! The pieces of `review/pieces/visit/`, each with its slots filled. `tools/pieces` writes this file.
ghost use Rattle.std.specs.Prelude.{◌≡◌, ◌++◌, OnOk};
ghost use Rattle.review_pieces.specs.Pieces.{along_html, along_more_html, along_none_html, along_one_html, around_html, conflict_html, decide_html, not_front_html, opener_html, visit_html};

use markup::{Part, fill};
use std::alloc::AllocError;

/// Adds `along.html`.
#[tactic(auto, unfolding(crate::specs::Pieces::along_html))]
pub fn add_along(out: &mut Vec<u8>, count: &str, items: &[u8]) -> Result<(), AllocError>
    ensures { OnOk result (out.new.items ≡ out.old.items ++ along_html count.now items.now) }
{
    fill(out, &ALONG, &[count], &[items])
}

const ALONG: [Part; 5] = [
    Part::Fixed("<p>It takes along "),
    Part::Words(0),
    Part::Fixed(" that it led to:</p>\n<ul class=\"along\">\n"),
    Part::Made(0),
    Part::Fixed("</ul>\n"),
];

/// Adds `along_more.html`.
#[tactic(auto, unfolding(crate::specs::Pieces::along_more_html))]
pub fn add_along_more<'t>(
    out: &mut Vec<u8>,
    client: &'t str,
    count: &'t str,
) -> Result<(), AllocError>
    ensures { OnOk result (out.new.items ≡ out.old.items ++ along_more_html client.now count.now) }
{
    fill(out, &ALONG_MORE, &[client, count], &[])
}

const ALONG_MORE: [Part; 5] = [
    Part::Fixed("<li><a href=\"/client?c="),
    Part::Words(0),
    Part::Fixed("#visits\">and "),
    Part::Words(1),
    Part::Fixed(" more</a></li>\n"),
];

/// Adds `along_none.html`.
#[tactic(auto, unfolding(crate::specs::Pieces::along_none_html))]
pub fn add_along_none(out: &mut Vec<u8>) -> Result<(), AllocError>
    ensures { OnOk result (out.new.items ≡ out.old.items ++ along_none_html) }
{
    fill(out, &ALONG_NONE, &[], &[])
}

const ALONG_NONE: [Part; 1] = [Part::Fixed("<p>No other visit goes with it.</p>\n")];

/// Adds `along_one.html`.
#[tactic(auto, unfolding(crate::specs::Pieces::along_one_html))]
pub fn add_along_one<'t>(
    out: &mut Vec<u8>,
    client: &'t str,
    visit: &'t str,
    state: &'t str,
    address: &'t str,
) -> Result<(), AllocError>
    ensures { OnOk result (out.new.items ≡ out.old.items ++ along_one_html client.now visit.now state.now address.now) }
{
    fill(out, &ALONG_ONE, &[client, visit, state, address], &[])
}

const ALONG_ONE: [Part; 13] = [
    Part::Fixed("<li><a href=\"/visit?c="),
    Part::Words(0),
    Part::Fixed("&amp;v="),
    Part::Words(1),
    Part::Fixed("\">Visit "),
    Part::Words(1),
    Part::Fixed("</a> <span class=\"state "),
    Part::Words(2),
    Part::Fixed("\">"),
    Part::Words(2),
    Part::Fixed("</span> <code>"),
    Part::Words(3),
    Part::Fixed("</code></li>\n"),
];

/// Adds `around.html`.
#[tactic(auto, unfolding(crate::specs::Pieces::around_html))]
pub fn add_around(out: &mut Vec<u8>, links: &[u8]) -> Result<(), AllocError>
    ensures { OnOk result (out.new.items ≡ out.old.items ++ around_html links.now) }
{
    fill(out, &AROUND, &[], &[links])
}

const AROUND: [Part; 3] = [
    Part::Fixed("<nav class=\"pages\" aria-label=\"Visits that wait\">"),
    Part::Made(0),
    Part::Fixed("</nav>\n"),
];

/// Adds `conflict.html`.
#[tactic(auto, unfolding(crate::specs::Pieces::conflict_html))]
pub fn add_conflict<'t>(
    out: &mut Vec<u8>,
    code: &'t str,
    at: &'t str,
    sentence: &'t str,
    todo: &'t str,
) -> Result<(), AllocError>
    ensures { OnOk result (out.new.items ≡ out.old.items ++ conflict_html code.now at.now sentence.now todo.now) }
{
    fill(out, &CONFLICT, &[code, at, sentence, todo], &[])
}

const CONFLICT: [Part; 9] = [
    Part::Fixed("<p><strong>"),
    Part::Words(0),
    Part::Fixed(" at event "),
    Part::Words(1),
    Part::Fixed(".</strong> "),
    Part::Words(2),
    Part::Fixed("</p>\n<p>What to do: "),
    Part::Words(3),
    Part::Fixed("</p>\n"),
];

/// Adds `decide.html`.
#[tactic(auto, unfolding(crate::specs::Pieces::decide_html))]
pub fn add_decide<'t>(
    out: &mut Vec<u8>,
    keeps: &'t str,
    client: &'t str,
    visit: &'t str,
    token: &'t str,
    voids: &'t str,
    with: &'t str,
    along: &'t [u8],
) -> Result<(), AllocError>
    ensures { OnOk result (out.new.items ≡ out.old.items
        ++ decide_html keeps.now client.now visit.now token.now voids.now with.now along.now) }
{
    fill(
        out,
        &DECIDE,
        &[keeps, client, visit, token, voids, with],
        &[along],
    )
}

const DECIDE: [Part; 32] = [
    Part::Fixed(
        "<section class=\"decide\" aria-label=\"Decide\">\n<div class=\"split\">\n<div>\n<h3>Keep</h3>\n<p>The visit stands as it is reported: ",
    ),
    Part::Words(0),
    Part::Fixed(
        " before its conflict. What came behind that isn't made up for: do it by hand where it is wanted. Other visits don't change.</p>\n<form method=\"post\" action=\"/decide\" data-client=\"",
    ),
    Part::Words(1),
    Part::Fixed("\" data-visit=\""),
    Part::Words(2),
    Part::Fixed("\">\n<input type=\"hidden\" name=\"token\" value=\""),
    Part::Words(3),
    Part::Fixed("\"><input type=\"hidden\" name=\"client\" value=\""),
    Part::Words(1),
    Part::Fixed("\"><input type=\"hidden\" name=\"visit\" value=\""),
    Part::Words(2),
    Part::Fixed("\">\n<button name=\"keep\" value=\"1\">Keep visit "),
    Part::Words(2),
    Part::Fixed(
        "</button>\n</form>\n</div>\n<div>\n<h3>Cancel</h3>\n<p>The visit is void: it has no requests then, not even ",
    ),
    Part::Words(4),
    Part::Fixed(".</p>\n"),
    Part::Made(0),
    Part::Fixed("\n<form method=\"post\" action=\"/decide\" data-client=\""),
    Part::Words(1),
    Part::Fixed("\" data-visit=\""),
    Part::Words(2),
    Part::Fixed("\">\n<input type=\"hidden\" name=\"token\" value=\""),
    Part::Words(3),
    Part::Fixed("\"><input type=\"hidden\" name=\"client\" value=\""),
    Part::Words(1),
    Part::Fixed("\"><input type=\"hidden\" name=\"visit\" value=\""),
    Part::Words(2),
    Part::Fixed("\">\n<button name=\"cancel\" value=\"1\">Cancel visit "),
    Part::Words(2),
    Part::Words(5),
    Part::Fixed("</button>\n</form>\n</div>\n</div>\n</section>\n"),
];

/// Adds `not_front.html`.
#[tactic(auto, unfolding(crate::specs::Pieces::not_front_html))]
pub fn add_not_front<'t>(
    out: &mut Vec<u8>,
    front: &'t str,
    client: &'t str,
) -> Result<(), AllocError>
    ensures { OnOk result (out.new.items ≡ out.old.items ++ not_front_html front.now client.now) }
{
    fill(out, &NOT_FRONT, &[front, client], &[])
}

const NOT_FRONT: [Part; 7] = [
    Part::Fixed("<p class=\"note\">Visit "),
    Part::Words(0),
    Part::Fixed(" of this client is to be decided first: <a href=\"/visit?c="),
    Part::Words(1),
    Part::Fixed("&amp;v="),
    Part::Words(0),
    Part::Fixed("\">go there</a>.</p>\n"),
];

/// Adds `opener.html`.
#[tactic(auto, unfolding(crate::specs::Pieces::opener_html))]
pub fn add_opener<'t>(
    out: &mut Vec<u8>,
    client: &'t str,
    parent: &'t str,
    from: &'t str,
) -> Result<(), AllocError>
    ensures { OnOk result (out.new.items ≡ out.old.items ++ opener_html client.now parent.now from.now) }
{
    fill(out, &OPENER, &[client, parent, from], &[])
}

const OPENER: [Part; 9] = [
    Part::Fixed(", opened by <a href=\"/visit?c="),
    Part::Words(0),
    Part::Fixed("&amp;v="),
    Part::Words(1),
    Part::Fixed("\">visit "),
    Part::Words(1),
    Part::Fixed("</a>, its request "),
    Part::Words(2),
    Part::Fixed("\n"),
];

/// Adds `visit.html`.
#[tactic(auto, unfolding(crate::specs::Pieces::visit_html))]
pub fn add_visit<'t>(
    out: &mut Vec<u8>,
    client: &'t str,
    visit: &'t str,
    state: &'t str,
    address: &'t str,
    opener: &'t [u8],
    told: &'t [u8],
    conflict: &'t [u8],
    decide: &'t [u8],
) -> Result<(), AllocError>
    ensures { OnOk result (out.new.items ≡ out.old.items
        ++ visit_html client.now visit.now state.now address.now opener.now told.now conflict.now decide.now) }
{
    fill(
        out,
        &VISIT,
        &[client, visit, state, address],
        &[opener, told, conflict, decide],
    )
}

const VISIT: [Part; 21] = [
    Part::Fixed("<p><a href=\"/client?c="),
    Part::Words(0),
    Part::Fixed("\">"),
    Part::Words(0),
    Part::Fixed("</a>"),
    Part::Made(0),
    Part::Fixed("</p>\n<h1>Visit "),
    Part::Words(1),
    Part::Fixed(" <span class=\"state "),
    Part::Words(2),
    Part::Fixed("\">"),
    Part::Words(2),
    Part::Fixed("</span></h1>\n<p><code>"),
    Part::Words(3),
    Part::Fixed("</code></p>\n"),
    Part::Made(1),
    Part::Fixed("\n"),
    Part::Made(2),
    Part::Fixed("\n"),
    Part::Made(3),
    Part::Fixed("\n"),
];
