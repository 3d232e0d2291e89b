//! Requests that aren't answered.
ghost use Rattle.std.specs.Prelude.{◌≡◌, OnOk};
ghost use Rattle.http_server.specs.Response.{IsBlank};
ghost use Rattle.review_service.specs.Fields.{IsHtmlPage};
ghost use Rattle.review_requests.specs.Status.{refusal_status};
ghost use Rattle.review_service.specs.Statuses.{IsRefusal};

use crate::pages::{Why, add_why, say_html, say_why};
use http::{HeaderValue, StatusCode};
use http_header::ALLOW;
use http_server::Response;
use page_tree::NoMemory;
use review_requests::Refusal;
use std::alloc::Global;
use warp_run::Repaired;

/// Says why a request isn't answered.
pub(crate) fn refuse(
    alloc: Global,
    repaired: &Repaired,
    port: u16,
    refusal: Refusal,
    response: &mut Response,
) -> Result<(), NoMemory>
    requires { IsBlank response.old }
    ensures { OnOk result (IsRefusal refusal response.new) }
{
    match refusal {
        Refusal::OtherHost => refuse_host(alloc, port, response),
        Refusal::OnlyRead => {
            say_refusal(alloc, repaired, refusal, response)?;
            response.add_header(ALLOW, HeaderValue::from_static("GET, HEAD"))
        }
        Refusal::OnlyPosted => {
            say_refusal(alloc, repaired, refusal, response)?;
            response.add_header(ALLOW, HeaderValue::from_static("POST"))
        }
        _ => say_refusal(alloc, repaired, refusal, response),
    }
}

// Who asked for another host is told nothing of what is here.
fn refuse_host(alloc: Global, port: u16, response: &mut Response) -> Result<(), NoMemory>
    requires { IsBlank response.old }
    ensures { OnOk result (IsHtmlPage 421 response.new) }
{
    let here = format!(in alloc; "http://127.0.0.1:{port}/")?;
    let mut page = Vec::new(alloc);
    add_why(
        &mut page,
        Why {
            head: "Another host",
            answer: "421",
            text: "The administrator's page is on this machine alone.",
            href: here.as_str(),
            link: here.as_str(),
        },
    )?;
    say_html(page, StatusCode::MISDIRECTED_REQUEST, response)
}

fn say_refusal(
    alloc: Global,
    repaired: &Repaired,
    refusal: Refusal,
    response: &mut Response,
) -> Result<(), NoMemory>
    requires { IsBlank response.old }
    ensures { OnOk result (IsHtmlPage (refusal_status refusal) response.new) }
{
    let (answer, text) = words_of(refusal);
    let why = Why {
        head: "Not answered",
        answer,
        text,
        href: "/",
        link: "To the overview",
    };
    say_why(alloc, repaired, refusal_status(refusal), why, response)
}

fn refusal_status(refusal: Refusal) -> StatusCode
    ensures { result ≡ refusal_status refusal }
{
    match refusal {
        Refusal::OtherHost => StatusCode::MISDIRECTED_REQUEST,
        Refusal::NoAddress => StatusCode::NOT_FOUND,
        Refusal::OnlyRead => StatusCode::METHOD_NOT_ALLOWED,
        Refusal::OnlyPosted => StatusCode::METHOD_NOT_ALLOWED,
        Refusal::OtherPage => StatusCode::FORBIDDEN,
        Refusal::NoForm => StatusCode::UNSUPPORTED_MEDIA_TYPE,
        Refusal::LongForm => StatusCode::PAYLOAD_TOO_LARGE,
        Refusal::BadForm => StatusCode::BAD_REQUEST,
        Refusal::OldToken => StatusCode::FORBIDDEN,
    }
}

// The status as a text, and a sentence.
fn words_of(refusal: Refusal) -> (&'static str, &'static str) {
    match refusal {
        Refusal::OtherHost => ("421", "The administrator's page is on this machine alone."),
        Refusal::NoAddress => ("404", "There is no such page."),
        Refusal::OnlyRead => ("405", "What stands here is only read."),
        Refusal::OnlyPosted => (
            "405",
            "Decisions are made by the buttons of a visit's page.",
        ),
        Refusal::OtherPage => (
            "403",
            "A decision has to come from this page itself. Nothing was decided.",
        ),
        Refusal::NoForm => ("415", "What was sent is no form. Nothing was decided."),
        Refusal::LongForm => ("413", "The form is too long. Nothing was decided."),
        Refusal::BadForm => ("400", "The form says no decision. Nothing was decided."),
        Refusal::OldToken => (
            "403",
            "The page was loaded before this program's start. Load it anew: nothing was decided.",
        ),
    }
}
