//! Uploads, what is taken of them, and a page.
ghost use Rattle.std.specs.Prelude.{IfSome};
ghost use Rattle.std.specs.List.{AllByRecursion};
ghost use Rattle.upload_reader.specs.Upload.{IsUntouched};

use byte_streams::{Fed, Lines};
use client_log::{ClientLog, Quota};
use page_tree::Page;
use std::alloc::{AllocError, Global};
use stream_fakes::Drip;
use upload_lanes::{Gathered, gather_in_order};
use upload_reader::{Message, Next, Upload};

pub(crate) type Reader = Fed<Drip>;

// The first page has a link and an input.
const LINES: &str =
    r#"{"t":"load","visit":1,"at":1,"path":"/a","page":{"n":"html","c":[{"n":"body","c":[{"n":"a","a":{"href":"/b"},"c":["go"]},{"n":"input","a":{"value":"x"}}]}]}}
{"t":"click","visit":1,"at":2,"target":"/html/body/a","req":1}
{"t":"load","visit":2,"at":3,"parent":1,"from":1,"path":"/b","page":{"n":"html","c":[{"n":"body","c":[{"n":"a","a":{"href":"/b"},"c":["go"]}]}]}}
{"t":"end","visit":1,"at":4}
{"t":"bye"}
"#;

/// How many messages the upload has.
pub(crate) const MESSAGES: u64 = 4;

/// How often each of two lanes is taken from: for each message, and for the end.
pub(crate) const TURNS: &[u32] = &[0, 0, 0, 0, 0, 1, 1, 1, 1, 1];

/// The page of the first load.
pub(crate) fn page(alloc: Global) -> Option<Page> {
    let mut upload = upload(alloc, "c1")?;
    match upload.next() {
        Next::Got(Message::Load { page, .. }, _) => Some(page),
        _ => None,
    }
}

pub(crate) fn quota() -> Option<Quota> {
    Quota::new(1_048_576).ok()
}

fn text_of(alloc: Global, client: &str) -> Result<String, AllocError> {
    format!(in alloc; "{{\"t\":\"hello\",\"client\":\"{client}\"}}\n{LINES}")
}

fn upload(alloc: Global, client: &str) -> Option<Upload<Reader>>
    ensures { IfSome result IsUntouched }
{
    let text = text_of(alloc, client).ok()?;
    let drip = Drip::new(alloc, text.as_bytes(), 4096).ok()?;
    let lines = Lines::over(alloc, Fed::new(drip)).ok()?;
    match Upload::hello(alloc, lines) {
        Ok(upload) => Some(upload),
        Err(_) => None,
    }
}

/// An upload of each client.
pub(crate) fn uploads(alloc: Global, clients: &[&str]) -> Option<Vec<Upload<Reader>>>
    ensures { IfSome result (λ uploads. AllByRecursion IsUntouched uploads.items) }
{
    let mut uploads = Vec::new(alloc);
    for client in clients {
        uploads.push(upload(alloc, client)?).ok()?;
    }
    Some(uploads)
}

/// All that is taken of two clients.
pub(crate) fn gathered(alloc: Global) -> Option<Gathered<Reader>> {
    let uploads = uploads(alloc, &["c1", "c2"])?;
    gather_in_order(alloc, uploads, quota()?, TURNS).ok()
}

/// How many visits a log has, how many events their first, whether that has ended, and what all cost.
pub(crate) type Kept = (usize, usize, bool, u64);

pub(crate) fn kept_of(log: &ClientLog) -> Kept {
    let visits = log.visits();
    match visits.first() {
        Some(first) => {
            let events = first.events.as_slice().len();
            (visits.len(), events, first.ended, log.cost())
        }
        None => (0, 0, false, log.cost()),
    }
}
