//! The pieces of `review/pieces/frame/`, each with its slots filled. `tools/pieces` writes this file.
ghost use Rattle.std.specs.Prelude.{◌≡◌, ◌++◌, OnOk};
ghost use Rattle.review_pieces.specs.Pieces.{closed_html, foot_html, head_html, more_html, note_html, page_here_html, page_link_html, pages_html, refused_html};

use markup::{Part, fill};
use std::alloc::AllocError;

/// Adds `closed.html`.
#[tactic(auto, unfolding(crate::specs::Pieces::closed_html))]
pub fn add_closed(out: &mut Vec<u8>) -> Result<(), AllocError>
    ensures { OnOk result (out.new.items ≡ out.old.items ++ closed_html) }
{
    fill(out, &CLOSED, &[], &[])
}

const CLOSED: [Part; 1] = [Part::Fixed(
    "<div class=\"note\" role=\"alert\"><p>The site's file is closed: a decision couldn't be kept. What is shown is what it said before. End this program, look at the end of the file, and start it again.</p></div>\n",
)];

/// Adds `foot.html`.
#[tactic(auto, unfolding(crate::specs::Pieces::foot_html))]
pub fn add_foot(out: &mut Vec<u8>) -> Result<(), AllocError>
    ensures { OnOk result (out.new.items ≡ out.old.items ++ foot_html) }
{
    fill(out, &FOOT, &[], &[])
}

const FOOT: [Part; 1] = [Part::Fixed("</main>\n</body>\n</html>\n")];

/// Adds `head.html`.
#[tactic(auto, unfolding(crate::specs::Pieces::head_html))]
pub fn add_head<'t>(
    out: &mut Vec<u8>,
    title: &'t str,
    waiting: &'t str,
    decided: &'t str,
    query: &'t str,
    at_overview: &'t [u8],
) -> Result<(), AllocError>
    ensures { OnOk result (out.new.items ≡ out.old.items
        ++ head_html title.now waiting.now decided.now query.now at_overview.now) }
{
    fill(
        out,
        &HEAD,
        &[title, waiting, decided, query],
        &[at_overview],
    )
}

const HEAD: [Part; 13] = [
    Part::Fixed(
        "<!doctype html>\n<html lang=\"en\">\n<head>\n<meta charset=\"utf-8\">\n<meta name=\"viewport\" content=\"width=device-width, initial-scale=1\">\n<title>",
    ),
    Part::Words(0),
    Part::Fixed(
        "</title>\n<link rel=\"stylesheet\" href=\"/review.css\">\n<script src=\"/review.js\" defer></script>\n</head>\n<body>\n<a class=\"skip\" href=\"#main\">To the content</a>\n<header class=\"top\">\n<nav aria-label=\"Review\">\n<a href=\"/\"",
    ),
    Part::Made(0),
    Part::Fixed(">Overview</a>\n<a href=\"/report\">Report</a>\n<span class=\"soft\">"),
    Part::Words(1),
    Part::Fixed(" waiting, "),
    Part::Words(2),
    Part::Fixed(
        " decided</span>\n<form role=\"search\" action=\"/search\">\n<label for=\"q\">Client, address or code</label>\n<input id=\"q\" name=\"q\" type=\"search\" value=\"",
    ),
    Part::Words(3),
    Part::Fixed(
        "\">\n<button>Search</button>\n</form>\n</nav>\n</header>\n<main id=\"main\">\n<p class=\"note\" id=\"meanwhile\" data-decided=\"",
    ),
    Part::Words(2),
    Part::Fixed(
        "\" role=\"status\" hidden>Another browser has decided something since. <a href=\"\">Load this page anew</a></p>\n",
    ),
];

/// Adds `more.html`.
#[tactic(auto, unfolding(crate::specs::Pieces::more_html))]
pub fn add_more(out: &mut Vec<u8>, count: &str) -> Result<(), AllocError>
    ensures { OnOk result (out.new.items ≡ out.old.items ++ more_html count.now) }
{
    fill(out, &MORE, &[count], &[])
}

const MORE: [Part; 3] = [
    Part::Fixed("<li class=\"soft\">and "),
    Part::Words(0),
    Part::Fixed(" more</li>\n"),
];

/// Adds `note.html`.
#[tactic(auto, unfolding(crate::specs::Pieces::note_html))]
pub fn add_note<'t>(out: &mut Vec<u8>, role: &'t str, text: &'t str) -> Result<(), AllocError>
    ensures { OnOk result (out.new.items ≡ out.old.items ++ note_html role.now text.now) }
{
    fill(out, &NOTE, &[role, text], &[])
}

const NOTE: [Part; 5] = [
    Part::Fixed("<div class=\"note\" role=\""),
    Part::Words(0),
    Part::Fixed("\"><p>"),
    Part::Words(1),
    Part::Fixed("</p></div>\n"),
];

/// Adds `page_here.html`.
#[tactic(auto, unfolding(crate::specs::Pieces::page_here_html))]
pub fn add_page_here(out: &mut Vec<u8>, text: &str) -> Result<(), AllocError>
    ensures { OnOk result (out.new.items ≡ out.old.items ++ page_here_html text.now) }
{
    fill(out, &PAGE_HERE, &[text], &[])
}

const PAGE_HERE: [Part; 3] = [
    Part::Fixed("<strong aria-current=\"page\">"),
    Part::Words(0),
    Part::Fixed("</strong>\n"),
];

/// Adds `page_link.html`.
#[tactic(auto, unfolding(crate::specs::Pieces::page_link_html))]
pub fn add_page_link<'t>(out: &mut Vec<u8>, href: &'t str, text: &'t str) -> Result<(), AllocError>
    ensures { OnOk result (out.new.items ≡ out.old.items ++ page_link_html href.now text.now) }
{
    fill(out, &PAGE_LINK, &[href, text], &[])
}

const PAGE_LINK: [Part; 5] = [
    Part::Fixed("<a href=\""),
    Part::Words(0),
    Part::Fixed("\">"),
    Part::Words(1),
    Part::Fixed("</a>\n"),
];

/// Adds `pages.html`.
#[tactic(auto, unfolding(crate::specs::Pieces::pages_html))]
pub fn add_pages(out: &mut Vec<u8>, label: &str, links: &[u8]) -> Result<(), AllocError>
    ensures { OnOk result (out.new.items ≡ out.old.items ++ pages_html label.now links.now) }
{
    fill(out, &PAGES, &[label], &[links])
}

const PAGES: [Part; 5] = [
    Part::Fixed("<nav class=\"pages\" aria-label=\""),
    Part::Words(0),
    Part::Fixed("\">"),
    Part::Made(0),
    Part::Fixed("</nav>\n"),
];

/// Adds `refused.html`.
#[tactic(auto, unfolding(crate::specs::Pieces::refused_html))]
pub fn add_refused<'t>(
    out: &mut Vec<u8>,
    head: &'t str,
    answer: &'t str,
    text: &'t str,
    href: &'t str,
    link: &'t str,
) -> Result<(), AllocError>
    ensures { OnOk result (out.new.items ≡ out.old.items
        ++ refused_html head.now answer.now text.now href.now link.now) }
{
    fill(out, &REFUSED, &[head, answer, text, href, link], &[])
}

const REFUSED: [Part; 11] = [
    Part::Fixed("<h1>"),
    Part::Words(0),
    Part::Fixed("</h1>\n<div class=\"note\" role=\"alert\"><p><strong>"),
    Part::Words(1),
    Part::Fixed("</strong> "),
    Part::Words(2),
    Part::Fixed("</p></div>\n<p><a href=\""),
    Part::Words(3),
    Part::Fixed("\">"),
    Part::Words(4),
    Part::Fixed("</a></p>\n"),
];
