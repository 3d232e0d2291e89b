//! What a request is, judged by itself alone.
ghost use Rattle.std.specs.Prelude.{◌≡◌, codes, false, IfOk};
ghost use Rattle.std.specs.Option.{option_copied, option_map_or};
ghost use Rattle.collect_http.specs.Asking.{body_verdict, client_of, is_body_type, is_let_in, is_of, is_other, is_reading, resource_at, reading_verdict, text_of, verdict_at, verdict_of};

use crate::cookie::client_in;
use crate::fields::{is_body_type, is_own, text_of};
use bytes::Bytes;
use http::Request;
use http_header::{CONTENT_TYPE, COOKIE, ORIGIN};
use page_tree::NoMemory;
use std::alloc::Global;
use upload_reader::Client;

const MAX_BODY_BYTES: usize = 1 << 20;

/// What stands at a path.
#[derive(Clone, Copy, Debug, PartialEq, Eq)]
pub(crate) enum Resource {
    /// Where what was recorded is sent to.
    Upload,
    /// The script that records.
    Script,
    /// Whether the server runs.
    Health,
}

/// What is said to a request without a look at any file.
#[derive(Clone, Copy, Debug, PartialEq, Eq)]
pub(crate) enum Plain {
    /// There is no such path.
    NoPath,
    /// The path doesn't take this method.
    NoMethod(Resource),
    /// A browser asks whether a page may send.
    Preflight,
    /// The page is of an origin that isn't let in.
    Foreign,
    /// What stands there.
    Gives(Resource),
    /// A body without a client.
    Nameless,
    /// A body of a type that isn't taken.
    BadType,
    /// A body that is too long.
    TooLong,
}

/// What a request is.
#[derive(Drop)]
pub(crate) enum Verdict {
    Says(Plain),
    /// What is stored of a client's visits; without a client it gets a name.
    Asks(Option<Client>),
    /// A client's body.
    Takes(Client),
}

/// Judges a request, where pages of that other origin are let in, too.
pub(crate) fn judge(
    alloc: Global,
    request: &Request<Bytes>,
    origin: Option<&str>,
) -> Result<Verdict, NoMemory>
    ensures { IfOk result (λ verdict. verdict ≡ verdict_of request.now (option_copied origin.entry)) }
{
    match resource_at(request.uri().path()) {
        Some(Resource::Upload) => judge_upload(alloc, request, origin),
        Some(Resource::Script) => Ok(judge_reading(Resource::Script, request, origin)),
        Some(Resource::Health) => Ok(judge_reading(Resource::Health, request, origin)),
        None => Ok(Verdict::Says(Plain::NoPath)),
    }
}

fn resource_at(path: &str) -> Option<Resource>
    ensures { result ≡ resource_at path.now }
{
    if path == "/upload" {
        return Some(Resource::Upload);
    }
    if path == "/recorder.js" {
        return Some(Resource::Script);
    }
    if path == "/health" {
        return Some(Resource::Health);
    }
    None
}

fn judge_upload(
    alloc: Global,
    request: &Request<Bytes>,
    origin: Option<&str>,
) -> Result<Verdict, NoMemory>
    ensures { IfOk result (λ verdict. verdict ≡ verdict_at Resource.Upload request.now (option_copied origin.entry)) }
{
    let method = request.method().as_str();
    if method == "OPTIONS" {
        return Ok(Verdict::Says(Plain::Preflight));
    }
    let reading = is_reading(method);
    if !reading && method != "POST" {
        return Ok(Verdict::Says(Plain::NoMethod(Resource::Upload)));
    }
    if !is_let_in(request, origin) {
        return Ok(Verdict::Says(Plain::Foreign));
    }
    match client_of(alloc, request) {
        Ok(client) => Ok(if reading {
            Verdict::Asks(client)
        } else {
            judge_body(request, client)
        }),
        Err(e) => Err(e),
    }
}

// Of what is only read.
fn judge_reading(resource: Resource, request: &Request<Bytes>, origin: Option<&str>) -> Verdict
    ensures { result ≡ reading_verdict resource request.now (option_copied origin.entry) }
{
    if !is_reading(request.method().as_str()) {
        return Verdict::Says(Plain::NoMethod(resource));
    }
    if is_let_in(request, origin) {
        Verdict::Says(Plain::Gives(resource))
    } else {
        Verdict::Says(Plain::Foreign)
    }
}

fn is_reading(method: &str) -> bool
    ensures { result ≡ is_reading method.now }
{
    method == "GET" || method == "HEAD"
}

fn client_of(alloc: Global, request: &Request<Bytes>) -> Result<Option<Client>, NoMemory>
    ensures { IfOk result (λ client. client ≡ client_of request.now) }
{
    match text_of(request, COOKIE) {
        Some(field) => client_in(alloc, field),
        None => Ok(None),
    }
}

fn judge_body(request: &Request<Bytes>, client: Option<Client>) -> Verdict
    ensures { result ≡ body_verdict request.now client }
{
    let Some(client) = client else {
        return Verdict::Says(Plain::Nameless);
    };
    if !has_body_type(request) {
        return Verdict::Says(Plain::BadType);
    }
    if request.body().len() > MAX_BODY_BYTES {
        return Verdict::Says(Plain::TooLong);
    }
    Verdict::Takes(client)
}

fn has_body_type(request: &Request<Bytes>) -> bool
    ensures { result ≡ option_map_or is_body_type (text_of request.now (codes "content-type")) false }
{
    match text_of(request, CONTENT_TYPE) {
        Some(value) => is_body_type(value),
        None => false,
    }
}

// Whether there is no page, or it is the host's own or of that other origin.
fn is_let_in(request: &Request<Bytes>, origin: Option<&str>) -> bool
    ensures { result ≡ is_let_in request.now (option_copied origin.entry) }
{
    match request.headers().get(ORIGIN) {
        Some(value) => match value.to_str() {
            Ok(page) => is_own(request, page) || is_other(origin, page),
            Err(_) => false,
        },
        None => true,
    }
}

/// Whether its page is of that other origin.
pub(crate) fn is_of(request: &Request<Bytes>, origin: Option<&str>) -> bool
    ensures { result ≡ is_of request.now (option_copied origin.entry) }
{
    match text_of(request, ORIGIN) {
        Some(page) => is_other(origin, page),
        None => false,
    }
}

fn is_other(origin: Option<&str>, page: &str) -> bool
    ensures { result ≡ is_other (option_copied origin.entry) page.now }
{
    match origin {
        Some(other) => page == other,
        None => false,
    }
}
