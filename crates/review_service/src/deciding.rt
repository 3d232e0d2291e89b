//! What whoever decided is told.
ghost use Rattle.std.specs.Prelude.{◌≡◌, ◌⊎◌, ◌<◌, [], codes, vec_len, vec_capacity, IfOk, OnOk};
ghost use Rattle.http_server.specs.Response.{IsBlank, IsResponse};
ghost use Rattle.review_service.specs.Answering.{front_of_client, next_place};
ghost use Rattle.review_service.specs.Fields.{IsBare, IsHtmlPage, own_fields};
ghost use Rattle.review_service.specs.Statuses.{undecided_status};

use crate::fields::add_own;
use crate::pages::{Why, say_why};
use conflict_desk::{Desk, DeskFault};
use decision_file::Undecided;
use http::{HeaderValue, StatusCode};
use http_server::Response;
use page_tree::{NoMemory, Text};
use std::alloc::{AllocError, Global};
use upload_files::FileFault;
use upload_reader::Client;
use warp_run::Repaired;

/// All of the answer but the place that is gone on to, for which there is room then.
pub(crate) fn begin_sending_on(response: &mut Response) -> Result<(), NoMemory>
    requires { IsBlank response.old }
    ensures response { OnOk result (IsResponse 303 own_fields [] response.new) }
    ensures room { OnOk result (vec_len response.new.headers < vec_capacity response.new.headers) }
{
    add_own(response)?;
    response.status = StatusCode::SEE_OTHER;
    match response.headers.reserve(1) {
        Ok(()) => Ok(()),
        Err(_) => Err(AllocError),
    }
}

/// Where whoever decided is sent on to.
pub(crate) fn next_place(alloc: Global, desk: &Desk, client: &Client, decided: u64) -> HeaderValue
    ensures { (result.bytes ≡ codes "/")
        ⊎ (result.bytes ≡ next_place client.now decided (front_of_client client.now desk.now)) }
{
    match written_place(alloc, desk, client, decided) {
        Ok(place) => place,
        Err(_) => HeaderValue::from_static("/"),
    }
}

fn written_place(
    alloc: Global,
    desk: &Desk,
    client: &Client,
    decided: u64,
) -> Result<HeaderValue, NoMemory>
    ensures { IfOk result (λ place.
        place.bytes ≡ next_place client.now decided (front_of_client client.now desk.now)) }
{
    let name = client.text();
    let text = match front_of(desk, client) {
        Some(front) => format!(in alloc; "/visit?c={name}&v={front}&told={decided}")?,
        None => format!(in alloc; "/client?c={name}&told={decided}")?,
    };
    match HeaderValue::from_bytes(alloc, text.as_bytes()) {
        Ok(place) => Ok(place),
        Err(_) => Err(AllocError),
    }
}

fn front_of(desk: &Desk, client: &Client) -> Option<u64>
    ensures { result ≡ front_of_client client.now desk.now }
{
    match desk.front(client) {
        Ok(front) => front,
        Err(_) => None,
    }
}

/// Says why a decision wasn't made.
pub(crate) fn tell_undecided(
    alloc: Global,
    repaired: &Repaired,
    client: &Client,
    why: Undecided,
    response: &mut Response,
)
    ensures { IsHtmlPage (undecided_status why) response.new ⊎ IsBare response.new }
{
    response.clear();
    match say_undecided(alloc, repaired, client, why, response) {
        Ok(()) => {}
        Err(_) => say_bare(response),
    }
}

/// Without memory an answer is this alone.
pub(crate) fn say_bare(response: &mut Response)
    ensures { IsBare response.new }
{
    response.clear();
    response.status = StatusCode::SERVICE_UNAVAILABLE;
}

fn say_undecided(
    alloc: Global,
    repaired: &Repaired,
    client: &Client,
    why: Undecided,
    response: &mut Response,
) -> Result<(), NoMemory>
    requires { IsBlank response.old }
    ensures { OnOk result (IsHtmlPage (undecided_status why) response.new) }
{
    let answer = answer_of(alloc, why)?;
    let name = client.text();
    let (href, link) = match front_of(&repaired.desk, client) {
        Some(front) => (
            format!(in alloc; "/visit?c={name}&v={front}")?,
            format!(in alloc; "To visit {front} of {name}")?,
        ),
        None => (
            String::from_str(alloc, "/")?,
            String::from_str(alloc, "To the overview")?,
        ),
    };
    let said = Why {
        head: "Not decided",
        answer: answer.as_str(),
        text: sentence_of(why),
        href: href.as_str(),
        link: link.as_str(),
    };
    say_why(alloc, repaired, undecided_status(why), said, response)
}

fn undecided_status(why: Undecided) -> StatusCode
    ensures { result ≡ undecided_status why }
{
    match why {
        Undecided::Refused(_) => StatusCode::CONFLICT,
        Undecided::Unwritten(FileFault::Full) => StatusCode::INSUFFICIENT_STORAGE,
        _ => StatusCode::SERVICE_UNAVAILABLE,
    }
}

// The desk's own answer, as the report has it, or else what failed.
fn answer_of(alloc: Global, why: Undecided) -> Result<Text, NoMemory> {
    match why {
        Undecided::Refused(DeskFault::NotFront(Some(front))) => {
            Ok(Text::from(format!(in alloc; "C2 front {front}")?))
        }
        Undecided::Refused(DeskFault::NotFront(None)) => Text::from_str(alloc, "C2 front none"),
        Undecided::Refused(DeskFault::NoClient) => Text::from_str(alloc, "C1"),
        Undecided::Refused(DeskFault::NoMemory) => Text::from_str(alloc, "C3"),
        Undecided::Unsayable => Text::from_str(alloc, "No line."),
        Undecided::NoMemory => Text::from_str(alloc, "No memory."),
        Undecided::Unwritten(FileFault::Full) => Text::from_str(alloc, "No room."),
        Undecided::Unwritten(_) => Text::from_str(alloc, "Not written."),
        Undecided::Closed => Text::from_str(alloc, "Closed."),
    }
}

fn sentence_of(why: Undecided) -> &'static str {
    match why {
        Undecided::Refused(DeskFault::NotFront(Some(_))) =>
            "This visit isn't the first of its client that waits: another is, or this one was decided already.",
        Undecided::Refused(DeskFault::NotFront(None)) => "No visit of this client waits.",
        Undecided::Refused(DeskFault::NoClient) => "No client of that name uploaded anything.",
        Undecided::Refused(DeskFault::NoMemory) => "Memory was refused.",
        Undecided::Unsayable => "No site file can say a decision on that visit.",
        Undecided::NoMemory => "Nothing was written. Try again.",
        Undecided::Unwritten(FileFault::Full) =>
            "There is no room for it in the site's file. Make some, and try again.",
        Undecided::Unwritten(_) => "The site's file couldn't be written.",
        Undecided::Closed =>
            "The site's file is closed: an earlier decision couldn't be kept. Look at the end of the file, and start this program again.",
    }
}
