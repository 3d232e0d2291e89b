//! The pieces of `review/pieces/client/`, each with its slots filled. `tools/pieces` writes this file.
ghost use Rattle.std.specs.Prelude.{◌≡◌, ◌++◌, OnOk};
ghost use Rattle.review_pieces.specs.Pieces.{branch_html, client_html, client_counts_html, client_upload_html, level_html, next_html};

use markup::{Part, fill};
use std::alloc::AllocError;

/// Adds `branch.html`.
#[tactic(auto, unfolding(crate::specs::Pieces::branch_html))]
pub fn add_branch<'t>(
    out: &mut Vec<u8>,
    client: &'t str,
    visit: &'t str,
    state: &'t str,
    address: &'t str,
    conflict: &'t str,
    opened: &'t str,
    here: &'t [u8],
    levels: &'t [u8],
) -> Result<(), AllocError>
    ensures { OnOk result (out.new.items ≡ out.old.items
        ++ branch_html client.now visit.now state.now address.now conflict.now opened.now here.now levels.now) }
{
    fill(
        out,
        &BRANCH,
        &[client, visit, state, address, conflict, opened],
        &[here, levels],
    )
}

const BRANCH: [Part; 21] = [
    Part::Fixed("<li"),
    Part::Made(0),
    Part::Fixed(">"),
    Part::Made(1),
    Part::Fixed("<span class=\"what\"><a href=\"/visit?c="),
    Part::Words(0),
    Part::Fixed("&amp;v="),
    Part::Words(1),
    Part::Fixed("\">"),
    Part::Words(1),
    Part::Fixed("</a><span class=\"state "),
    Part::Words(2),
    Part::Fixed("\">"),
    Part::Words(2),
    Part::Fixed("</span><code>"),
    Part::Words(3),
    Part::Fixed("</code><span>"),
    Part::Words(4),
    Part::Fixed("</span><span class=\"hidden\">"),
    Part::Words(5),
    Part::Fixed("</span></span></li>\n"),
];

/// Adds `client.html`.
#[tactic(auto, unfolding(crate::specs::Pieces::client_html))]
pub fn add_client<'t>(
    out: &mut Vec<u8>,
    client: &'t str,
    upload: &'t [u8],
    counts: &'t [u8],
    next: &'t [u8],
    items: &'t [u8],
    pages: &'t [u8],
) -> Result<(), AllocError>
    ensures { OnOk result (out.new.items ≡ out.old.items
        ++ client_html client.now upload.now counts.now next.now items.now pages.now) }
{
    fill(
        out,
        &CLIENT,
        &[client],
        &[upload, counts, next, items, pages],
    )
}

const CLIENT: [Part; 12] = [
    Part::Fixed("<h1>"),
    Part::Words(0),
    Part::Fixed("</h1>\n<dl>\n"),
    Part::Made(0),
    Part::Made(1),
    Part::Fixed("</dl>\n"),
    Part::Made(2),
    Part::Fixed(
        "\n<h2 id=\"visits\">Visits, each below the one that opened it</h2>\n<ol class=\"tree\">\n",
    ),
    Part::Made(3),
    Part::Fixed("</ol>\n"),
    Part::Made(4),
    Part::Fixed("\n"),
];

/// Adds `client_counts.html`.
#[tactic(auto, unfolding(crate::specs::Pieces::client_counts_html))]
pub fn add_client_counts<'t>(
    out: &mut Vec<u8>,
    waiting: &'t str,
    kept: &'t str,
    cancelled: &'t str,
    done: &'t str,
    untouched: &'t str,
) -> Result<(), AllocError>
    ensures { OnOk result (out.new.items ≡ out.old.items
        ++ client_counts_html waiting.now kept.now cancelled.now done.now untouched.now) }
{
    fill(
        out,
        &CLIENT_COUNTS,
        &[waiting, kept, cancelled, done, untouched],
        &[],
    )
}

const CLIENT_COUNTS: [Part; 11] = [
    Part::Fixed("<dt>Visits</dt><dd>"),
    Part::Words(0),
    Part::Fixed(" waiting, "),
    Part::Words(1),
    Part::Fixed(" kept, "),
    Part::Words(2),
    Part::Fixed(" cancelled, "),
    Part::Words(3),
    Part::Fixed(" done, "),
    Part::Words(4),
    Part::Fixed(" untouched</dd>\n"),
];

/// Adds `client_upload.html`.
#[tactic(auto, unfolding(crate::specs::Pieces::client_upload_html))]
pub fn add_client_upload<'t>(
    out: &mut Vec<u8>,
    end: &'t str,
    taken: &'t str,
    cost: &'t str,
    lost: &'t str,
) -> Result<(), AllocError>
    ensures { OnOk result (out.new.items ≡ out.old.items ++ client_upload_html end.now taken.now cost.now lost.now) }
{
    fill(out, &CLIENT_UPLOAD, &[end, taken, cost, lost], &[])
}

const CLIENT_UPLOAD: [Part; 9] = [
    Part::Fixed("<dt>Last upload's end</dt><dd>"),
    Part::Words(0),
    Part::Fixed(", "),
    Part::Words(1),
    Part::Fixed(" messages taken</dd>\n<dt>Log</dt><dd>"),
    Part::Words(2),
    Part::Fixed(" bytes, "),
    Part::Words(3),
    Part::Fixed(" visits lost for want of room</dd>\n"),
];

/// Adds `level.html`.
#[tactic(auto, unfolding(crate::specs::Pieces::level_html))]
pub fn add_level(out: &mut Vec<u8>) -> Result<(), AllocError>
    ensures { OnOk result (out.new.items ≡ out.old.items ++ level_html) }
{
    fill(out, &LEVEL, &[], &[])
}

const LEVEL: [Part; 1] = [Part::Fixed("<span class=\"level\"></span>")];

/// Adds `next.html`.
#[tactic(auto, unfolding(crate::specs::Pieces::next_html))]
pub fn add_next<'t>(out: &mut Vec<u8>, client: &'t str, visit: &'t str) -> Result<(), AllocError>
    ensures { OnOk result (out.new.items ≡ out.old.items ++ next_html client.now visit.now) }
{
    fill(out, &NEXT, &[client, visit], &[])
}

const NEXT: [Part; 7] = [
    Part::Fixed("<p><a href=\"/visit?c="),
    Part::Words(0),
    Part::Fixed("&amp;v="),
    Part::Words(1),
    Part::Fixed("\">Decide visit "),
    Part::Words(1),
    Part::Fixed("</a>, the first that waits.</p>\n"),
];
