//! Pages, each with its head and foot, and those that say why something isn't shown or done.
ghost use Rattle.std.specs.Prelude.{OnOk};
ghost use Rattle.http_server.specs.Response.{IsBlank};
ghost use Rattle.review_service.specs.Fields.{IsDrawing, IsHtmlPage};

use crate::fields::{add_drawing, add_page};
use crate::texts::shared;
use http::StatusCode;
use http_server::Response;
use page_tree::NoMemory;
use review_lists::totals_of;
use review_pieces::pieces::{add_foot, add_head, add_refused};
use std::alloc::Global;
use warp_run::Repaired;

// Of the link to the overview, on that page itself.
const HERE: &[u8] = b" aria-current=\"page\"";

/// What a page says first, and what stands in its field for a search.
#[derive(Drop)]
pub(crate) struct Head<'a> {
    pub(crate) title: &'a str,
    pub(crate) query: &'a str,
    pub(crate) is_overview: bool,
}

/// Why something isn't shown or done.
#[derive(Drop)]
pub(crate) struct Why<'a> {
    pub(crate) head: &'a str,
    pub(crate) answer: &'a str,
    pub(crate) text: &'a str,
    pub(crate) href: &'a str,
    pub(crate) link: &'a str,
}

/// A page that has its head.
pub(crate) fn begin_page(
    alloc: Global,
    repaired: &Repaired,
    head: Head<'_>,
) -> Result<Vec<u8>, NoMemory> {
    let totals = totals_of(repaired);
    let waiting = format!(in alloc; "{}", totals.waiting)?;
    let decided = format!(in alloc; "{}", totals.decided)?;
    let mut page = Vec::new(alloc);
    add_head(
        &mut page,
        head.title,
        waiting.as_str(),
        decided.as_str(),
        head.query,
        if head.is_overview { HERE } else { b"" },
    )?;
    Ok(page)
}

/// Answers with a page, behind which its foot comes.
pub(crate) fn end_page(
    mut page: Vec<u8>,
    status: StatusCode,
    response: &mut Response,
) -> Result<(), NoMemory>
    requires { IsBlank response.old }
    ensures { OnOk result (IsHtmlPage status response.new) }
{
    add_foot(&mut page)?;
    say_html(page, status, response)
}

/// Answers with a page as it is.
pub(crate) fn say_html(
    page: Vec<u8>,
    status: StatusCode,
    response: &mut Response,
) -> Result<(), NoMemory>
    requires { IsBlank response.old }
    ensures { OnOk result (IsHtmlPage status response.new) }
{
    add_page(response)?;
    response.status = status;
    response.body.push(shared(page)?)
}

/// Answers with a drawn page.
pub(crate) fn say_drawing(drawing: Vec<u8>, response: &mut Response) -> Result<(), NoMemory>
    requires { IsBlank response.old }
    ensures { OnOk result (IsDrawing response.new) }
{
    add_drawing(response)?;
    response.body.push(shared(drawing)?)
}

/// A page that says why.
pub(crate) fn say_why(
    alloc: Global,
    repaired: &Repaired,
    status: StatusCode,
    why: Why<'_>,
    response: &mut Response,
) -> Result<(), NoMemory>
    requires { IsBlank response.old }
    ensures { OnOk result (IsHtmlPage status response.new) }
{
    let head = Head {
        title: why.head,
        query: "",
        is_overview: false,
    };
    let mut page = begin_page(alloc, repaired, head)?;
    add_why(&mut page, why)?;
    end_page(page, status, response)
}

/// Adds why.
pub(crate) fn add_why(page: &mut Vec<u8>, why: Why<'_>) -> Result<(), NoMemory> {
    add_refused(page, why.head, why.answer, why.text, why.href, why.link)
}
