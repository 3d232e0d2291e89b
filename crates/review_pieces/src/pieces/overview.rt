//! The pieces of `review/pieces/overview/`, each with its slots filled. `tools/pieces` writes this file.
ghost use Rattle.std.specs.Prelude.{◌≡◌, ◌++◌, OnOk};
ghost use Rattle.review_pieces.specs.Pieces.{front_html, fronts_html, no_fronts_html, overview_html, row_html, upload_html, uploads_html};

use markup::{Part, fill};
use std::alloc::AllocError;

/// Adds `front.html`.
#[tactic(auto, unfolding(crate::specs::Pieces::front_html))]
pub fn add_front<'t>(
    out: &mut Vec<u8>,
    client: &'t str,
    visit: &'t str,
    code: &'t str,
    at: &'t str,
    address: &'t str,
    sentence: &'t str,
    behind: &'t str,
) -> Result<(), AllocError>
    ensures { OnOk result (out.new.items ≡ out.old.items
        ++ front_html client.now visit.now code.now at.now address.now sentence.now behind.now) }
{
    fill(
        out,
        &FRONT,
        &[client, visit, code, at, address, sentence, behind],
        &[],
    )
}

const FRONT: [Part; 19] = [
    Part::Fixed("<li>\n<p><a href=\"/visit?c="),
    Part::Words(0),
    Part::Fixed("&amp;v="),
    Part::Words(1),
    Part::Fixed("\"><strong>"),
    Part::Words(0),
    Part::Fixed("</strong>, visit "),
    Part::Words(1),
    Part::Fixed("</a>: <span class=\"state waiting\">"),
    Part::Words(2),
    Part::Fixed("</span> at event "),
    Part::Words(3),
    Part::Fixed(" <code>"),
    Part::Words(4),
    Part::Fixed("</code></p>\n<p class=\"soft\">"),
    Part::Words(5),
    Part::Fixed(" "),
    Part::Words(6),
    Part::Fixed("</p>\n</li>\n"),
];

/// Adds `fronts.html`.
#[tactic(auto, unfolding(crate::specs::Pieces::fronts_html))]
pub fn add_fronts<'t>(out: &mut Vec<u8>, items: &'t [u8], pages: &'t [u8]) -> Result<(), AllocError>
    ensures { OnOk result (out.new.items ≡ out.old.items ++ fronts_html items.now pages.now) }
{
    fill(out, &FRONTS, &[], &[items, pages])
}

const FRONTS: [Part; 5] = [
    Part::Fixed(
        "<p>Each client's visits are decided in their order: here is the first of each that waits. Before you decide, look whether the page in the site's file can be made to fit.</p>\n<ol class=\"fronts\">\n",
    ),
    Part::Made(0),
    Part::Fixed("</ol>\n"),
    Part::Made(1),
    Part::Fixed("\n"),
];

/// Adds `no_fronts.html`.
#[tactic(auto, unfolding(crate::specs::Pieces::no_fronts_html))]
pub fn add_no_fronts(out: &mut Vec<u8>) -> Result<(), AllocError>
    ensures { OnOk result (out.new.items ≡ out.old.items ++ no_fronts_html) }
{
    fill(out, &NO_FRONTS, &[], &[])
}

const NO_FRONTS: [Part; 1] = [Part::Fixed(
    "<p>Nothing waits. The <a href=\"/report\">report</a> has no open conflict.</p>\n",
)];

/// Adds `overview.html`.
#[tactic(auto, unfolding(crate::specs::Pieces::overview_html))]
pub fn add_overview<'t>(
    out: &mut Vec<u8>,
    notes: &'t [u8],
    fronts: &'t [u8],
    rows: &'t [u8],
    pages: &'t [u8],
    uploads: &'t [u8],
) -> Result<(), AllocError>
    ensures { OnOk result (out.new.items ≡ out.old.items
        ++ overview_html notes.now fronts.now rows.now pages.now uploads.now) }
{
    fill(out, &OVERVIEW, &[], &[notes, fronts, rows, pages, uploads])
}

const OVERVIEW: [Part; 11] = [
    Part::Fixed("<h1>What waits for a decision</h1>\n"),
    Part::Made(0),
    Part::Fixed("\n"),
    Part::Made(1),
    Part::Fixed(
        "\n<h2 id=\"clients\">Clients</h2>\n<div class=\"wide\">\n<table class=\"stack\">\n<thead><tr><th scope=\"col\">Client</th><th scope=\"col\">Upload's end</th><th scope=\"col\" class=\"number\">Waiting</th><th scope=\"col\" class=\"number\">Kept</th><th scope=\"col\" class=\"number\">Cancelled</th><th scope=\"col\" class=\"number\">Done</th><th scope=\"col\" class=\"number\">Untouched</th><th scope=\"col\" class=\"number\">Lost</th></tr></thead>\n<tbody>\n",
    ),
    Part::Made(2),
    Part::Fixed("</tbody>\n</table>\n</div>\n"),
    Part::Made(3),
    Part::Fixed("\n"),
    Part::Made(4),
    Part::Fixed("\n"),
];

/// Adds `row.html`.
#[tactic(auto, unfolding(crate::specs::Pieces::row_html))]
pub fn add_row<'t>(
    out: &mut Vec<u8>,
    client: &'t str,
    end: &'t str,
    waiting: &'t str,
    kept: &'t str,
    cancelled: &'t str,
    done: &'t str,
    untouched: &'t str,
    lost: &'t str,
) -> Result<(), AllocError>
    ensures { OnOk result (out.new.items ≡ out.old.items
        ++ row_html client.now end.now waiting.now kept.now cancelled.now done.now untouched.now lost.now) }
{
    fill(
        out,
        &ROW,
        &[client, end, waiting, kept, cancelled, done, untouched, lost],
        &[],
    )
}

const ROW: [Part; 19] = [
    Part::Fixed("<tr><th scope=\"row\"><a href=\"/client?c="),
    Part::Words(0),
    Part::Fixed("\">"),
    Part::Words(0),
    Part::Fixed("</a></th><td data-head=\"Upload's end\">"),
    Part::Words(1),
    Part::Fixed("</td><td class=\"number\" data-head=\"Waiting\">"),
    Part::Words(2),
    Part::Fixed("</td><td class=\"number\" data-head=\"Kept\">"),
    Part::Words(3),
    Part::Fixed("</td><td class=\"number\" data-head=\"Cancelled\">"),
    Part::Words(4),
    Part::Fixed("</td><td class=\"number\" data-head=\"Done\">"),
    Part::Words(5),
    Part::Fixed("</td><td class=\"number\" data-head=\"Untouched\">"),
    Part::Words(6),
    Part::Fixed("</td><td class=\"number\" data-head=\"Lost\">"),
    Part::Words(7),
    Part::Fixed("</td></tr>\n"),
];

/// Adds `upload.html`.
#[tactic(auto, unfolding(crate::specs::Pieces::upload_html))]
pub fn add_upload<'t>(out: &mut Vec<u8>, name: &'t str, end: &'t str) -> Result<(), AllocError>
    ensures { OnOk result (out.new.items ≡ out.old.items ++ upload_html name.now end.now) }
{
    fill(out, &UPLOAD, &[name, end], &[])
}

const UPLOAD: [Part; 5] = [
    Part::Fixed("<li><code>"),
    Part::Words(0),
    Part::Fixed("</code> "),
    Part::Words(1),
    Part::Fixed("</li>\n"),
];

/// Adds `uploads.html`.
#[tactic(auto, unfolding(crate::specs::Pieces::uploads_html))]
pub fn add_uploads<'t>(
    out: &mut Vec<u8>,
    count: &'t str,
    refused: &'t str,
    items: &'t [u8],
) -> Result<(), AllocError>
    ensures { OnOk result (out.new.items ≡ out.old.items ++ uploads_html count.now refused.now items.now) }
{
    fill(out, &UPLOADS, &[count, refused], &[items])
}

const UPLOADS: [Part; 7] = [
    Part::Fixed("<h2>Uploads</h2>\n<details><summary>"),
    Part::Words(0),
    Part::Fixed(" in all, "),
    Part::Words(1),
    Part::Fixed(" of which couldn't be taken</summary>\n<ul>\n"),
    Part::Made(0),
    Part::Fixed("</ul>\n</details>\n"),
];
