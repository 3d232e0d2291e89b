//! What a request is, judged by itself, the port and the token alone.
ghost use Rattle.std.specs.Prelude.{◌≡◌, ◌==◌, is_some, IfOk};
ghost use Rattle.std.specs.List.{before_first};
ghost use Rattle.review_requests.specs.Form.{word_in};
ghost use Rattle.review_requests.specs.Posting.{DecidesByOwnPosting};
ghost use Rattle.review_requests.specs.Verdict.{asked_of, asked_of_host, choice_by, choice_pressed, decision_asked, form_asks, has_token, sends_form, is_form_type, only_looks, posting_asks, reading_asks};

use crate::form::{client_word, visit_word, word_in};
use crate::host::{field_text, host_of, is_local};
use crate::origin::is_from_host;
use crate::refusal::Refusal;
use crate::target::{Address, View, address_at, view_at};
use bytes::Bytes;
use conflict_desk::{Choice, Decision};
use http::Request;
use http_header::CONTENT_TYPE;
use page_tree::NoMemory;
use std::alloc::Global;

const MAX_FORM_BYTES: usize = 4096;

/// What a request is.
#[derive(Debug, Drop)]
pub enum Judged {
    Refused(Refusal),
    Shows(View),
    Decides(Decision),
}

/// Judges a request to the page at that port, whose forms have that token.
pub fn judge(
    alloc: Global,
    request: &Request<Bytes>,
    port: u16,
    token: &str,
) -> Result<Judged, NoMemory>
    ensures asked { IfOk result (λ asked. asked ≡ asked_of request.now port token.now) }
    ensures own { IfOk result (DecidesByOwnPosting request.now port token.now) }
{
    judge_request(alloc, request, port, token)
}

fn judge_request(
    alloc: Global,
    request: &Request<Bytes>,
    port: u16,
    token: &str,
) -> Result<Judged, NoMemory>
    ensures { IfOk result (λ asked. asked ≡ asked_of request.now port token.now) }
{
    let Some(host) = host_of(request) else {
        return Ok(Judged::Refused(Refusal::OtherHost));
    };
    match is_local(alloc, port, host) {
        Ok(true) => judge_local(alloc, request, host, token),
        Ok(false) => Ok(Judged::Refused(Refusal::OtherHost)),
        Err(e) => Err(e),
    }
}

// A request to this host.
fn judge_local(
    alloc: Global,
    request: &Request<Bytes>,
    host: &str,
    token: &str,
) -> Result<Judged, NoMemory>
    ensures { IfOk result (λ asked. asked ≡ asked_of_host request.now host.now token.now) }
{
    let path = request.uri().path();
    if path == "/decide" {
        return if request.method().as_str() == "POST" {
            judge_posting(alloc, request, host, token)
        } else {
            Ok(Judged::Refused(Refusal::OnlyPosted))
        };
    }
    match address_at(path) {
        Some(address) => judge_reading(alloc, address, request),
        None => Ok(Judged::Refused(Refusal::NoAddress)),
    }
}

fn judge_reading(
    alloc: Global,
    address: Address,
    request: &Request<Bytes>,
) -> Result<Judged, NoMemory>
    ensures { IfOk result (λ asked. asked ≡ reading_asks address request.now) }
{
    if !only_looks(request.method().as_str()) {
        return Ok(Judged::Refused(Refusal::OnlyRead));
    }
    let query = match request.uri().query() {
        Some(query) => query,
        None => "",
    };
    match view_at(alloc, address, query.as_bytes()) {
        Ok(Some(view)) => Ok(Judged::Shows(view)),
        Ok(None) => Ok(Judged::Refused(Refusal::NoAddress)),
        Err(e) => Err(e),
    }
}

fn only_looks(method: &str) -> bool
    ensures { result ≡ only_looks method.now }
{
    method == "GET" || method == "HEAD"
}

fn judge_posting(
    alloc: Global,
    request: &Request<Bytes>,
    host: &str,
    token: &str,
) -> Result<Judged, NoMemory>
    ensures { IfOk result (λ asked. asked ≡ posting_asks request.now host.now token.now) }
{
    if !is_from_host(request, host) {
        return Ok(Judged::Refused(Refusal::OtherPage));
    }
    if !sends_form(request) {
        return Ok(Judged::Refused(Refusal::NoForm));
    }
    if request.body().len() > MAX_FORM_BYTES {
        return Ok(Judged::Refused(Refusal::LongForm));
    }
    judge_form(alloc, token, request.body().as_slice())
}

fn sends_form(request: &Request<Bytes>) -> bool
    ensures { result ≡ sends_form request.now }
{
    match field_text(request, CONTENT_TYPE) {
        Some(value) => is_form_type(value),
        None => false,
    }
}

// A form as a browser sends it, its parameters aside.
fn is_form_type(value: &str) -> bool
    ensures { result ≡ is_form_type value.now }
{
    kind_of(value)
        .trim()
        .eq_ignore_ascii_case("application/x-www-form-urlencoded")
}

// What stands before the first semicolon.
fn kind_of(value: &str) -> &str
    ensures { result.now ≡ before_first (λ c. c == 59) value.now }
{
    match value.split_once(';') {
        Some((kind, _)) => kind,
        None => value,
    }
}

fn judge_form(alloc: Global, token: &str, form: &[u8]) -> Result<Judged, NoMemory>
    ensures { IfOk result (λ asked. asked ≡ form_asks token.now form.now) }
{
    let Some(decision) = decision_asked(alloc, form)? else {
        return Ok(Judged::Refused(Refusal::BadForm));
    };
    if has_token(alloc, token, form)? {
        Ok(Judged::Decides(decision))
    } else {
        Ok(Judged::Refused(Refusal::OldToken))
    }
}

fn has_token(alloc: Global, token: &str, form: &[u8]) -> Result<bool, NoMemory>
    ensures { IfOk result (λ has. has ≡ has_token token.now form.now) }
{
    match word_in(alloc, "token", form)? {
        Some(word) => Ok(word.as_str() == token),
        None => Ok(false),
    }
}

fn decision_asked(alloc: Global, form: &[u8]) -> Result<Option<Decision>, NoMemory>
    ensures { IfOk result (λ decision. decision ≡ decision_asked form.now) }
{
    let Some(client) = client_word(alloc, "client", form)? else {
        return Ok(None);
    };
    let Some(visit) = visit_word(alloc, "visit", form)? else {
        return Ok(None);
    };
    match choice_pressed(alloc, form)? {
        Some(choice) => Ok(Some(Decision {
            client,
            visit,
            choice,
        })),
        None => Ok(None),
    }
}

fn choice_pressed(alloc: Global, form: &[u8]) -> Result<Option<Choice>, NoMemory>
    ensures { IfOk result (λ choice. choice ≡ choice_pressed form.now) }
{
    let keeps = has_word(alloc, "keep", form)?;
    let cancels = has_word(alloc, "cancel", form)?;
    Ok(choice_by(keeps, cancels))
}

fn has_word(alloc: Global, name: &str, form: &[u8]) -> Result<bool, NoMemory>
    ensures { IfOk result (λ has. has ≡ is_some (word_in name.now form.now)) }
{
    match word_in(alloc, name, form)? {
        Some(_) => Ok(true),
        None => Ok(false),
    }
}

// One of the two buttons alone.
fn choice_by(keeps: bool, cancels: bool) -> Option<Choice>
    ensures { result ≡ choice_by keeps cancels }
{
    if keeps {
        return if cancels { None } else { Some(Choice::Keep) };
    }
    if cancels { Some(Choice::Cancel) } else { None }
}
