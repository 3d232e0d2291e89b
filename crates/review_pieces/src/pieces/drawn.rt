//! The pieces of `review/pieces/drawn/`, each with its slots filled. `tools/pieces` writes this file.
ghost use Rattle.std.specs.Prelude.{◌≡◌, ◌++◌, OnOk};
ghost use Rattle.review_pieces.specs.Pieces.{drawn_html, figure_html, no_page_html, visit_pages_html};

use markup::{Part, fill};
use std::alloc::AllocError;

/// Adds `drawn.html`.
#[tactic(auto, unfolding(crate::specs::Pieces::drawn_html))]
pub fn add_drawn(out: &mut Vec<u8>, title: &str, tree: &[u8]) -> Result<(), AllocError>
    ensures { OnOk result (out.new.items ≡ out.old.items ++ drawn_html title.now tree.now) }
{
    fill(out, &DRAWN, &[title], &[tree])
}

const DRAWN: [Part; 5] = [
    Part::Fixed("<!doctype html>\n<html lang=\"en\">\n<head><meta charset=\"utf-8\"><title>"),
    Part::Words(0),
    Part::Fixed(
        "</title><link rel=\"stylesheet\" href=\"/page.css\"></head>\n<body tabindex=\"0\">\n",
    ),
    Part::Made(0),
    Part::Fixed("\n</body>\n</html>\n"),
];

/// Adds `figure.html`.
#[tactic(auto, unfolding(crate::specs::Pieces::figure_html))]
pub fn add_figure<'t>(
    out: &mut Vec<u8>,
    head: &'t str,
    client: &'t str,
    visit: &'t str,
    of: &'t str,
    caption: &'t str,
) -> Result<(), AllocError>
    ensures { OnOk result (out.new.items ≡ out.old.items
        ++ figure_html head.now client.now visit.now of.now caption.now) }
{
    fill(out, &FIGURE, &[head, client, visit, of, caption], &[])
}

const FIGURE: [Part; 13] = [
    Part::Fixed("<figure>\n<h3>"),
    Part::Words(0),
    Part::Fixed("</h3>\n<iframe sandbox title=\""),
    Part::Words(0),
    Part::Fixed("\" src=\"/page?c="),
    Part::Words(1),
    Part::Fixed("&amp;v="),
    Part::Words(2),
    Part::Fixed("&amp;of="),
    Part::Words(3),
    Part::Fixed("#target\"></iframe>\n<figcaption class=\"soft\">"),
    Part::Words(4),
    Part::Fixed("</figcaption>\n</figure>\n"),
];

/// Adds `no_page.html`.
#[tactic(auto, unfolding(crate::specs::Pieces::no_page_html))]
pub fn add_no_page<'t>(out: &mut Vec<u8>, head: &'t str, caption: &'t str) -> Result<(), AllocError>
    ensures { OnOk result (out.new.items ≡ out.old.items ++ no_page_html head.now caption.now) }
{
    fill(out, &NO_PAGE, &[head, caption], &[])
}

const NO_PAGE: [Part; 5] = [
    Part::Fixed("<figure>\n<h3>"),
    Part::Words(0),
    Part::Fixed("</h3>\n<p class=\"note\">"),
    Part::Words(1),
    Part::Fixed("</p>\n</figure>\n"),
];

/// Adds `visit_pages.html`.
#[tactic(auto, unfolding(crate::specs::Pieces::visit_pages_html))]
pub fn add_visit_pages<'t>(
    out: &mut Vec<u8>,
    recorded: &'t [u8],
    repaired: &'t [u8],
) -> Result<(), AllocError>
    ensures { OnOk result (out.new.items ≡ out.old.items ++ visit_pages_html recorded.now repaired.now) }
{
    fill(out, &VISIT_PAGES, &[], &[recorded, repaired])
}

const VISIT_PAGES: [Part; 5] = [
    Part::Fixed("<h2>The page, as the user saw it and as it is now</h2>\n<div class=\"split\">\n"),
    Part::Made(0),
    Part::Fixed("\n"),
    Part::Made(1),
    Part::Fixed("\n</div>\n"),
];
