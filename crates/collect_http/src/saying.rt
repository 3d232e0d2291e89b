//! What an answer says that no file has a part in.
ghost use Rattle.std.specs.Prelude.{◌≡◌, ◌∷◌, ◌++◌, ℕ, List, [], codes, OnOk};
ghost use Rattle.std.specs.Option.{option_copied};
ghost use Rattle.http1.specs.Fields.{Header};
ghost use Rattle.http_server.specs.Response.{IsResponse};
ghost use Rattle.collect_http.specs.Answering.{fields_said, methods_at, preflight_fields, read_fields, script_fields, status_said, status_untold, text_fields};

use crate::verdict::{Plain, Resource, is_of};
use bytes::{BufMut, Bytes};
use http::{HeaderValue, Request, StatusCode};
use http_header::{
    ACCESS_CONTROL_ALLOW_CREDENTIALS, ACCESS_CONTROL_ALLOW_HEADERS, ACCESS_CONTROL_ALLOW_METHODS,
    ACCESS_CONTROL_ALLOW_ORIGIN, ACCESS_CONTROL_MAX_AGE, ALLOW, CACHE_CONTROL, CONTENT_TYPE,
    RETRY_AFTER, VARY,
};
use http_server::Response;
use page_tree::NoMemory;
use std::alloc::{AllocError, Global};
use upload_folder::Untold;

/// An answer of one line.
pub(crate) fn say(response: &mut Response, status: StatusCode, text: &[u8]) -> Result<(), NoMemory>
    ensures { OnOk result ((code : ℕ) (sent : List Header) → IsResponse code sent [] response.old
        → IsResponse status (sent ++ text_fields) text.now response.new) }
{
    response.status = status;
    response.add_header(CONTENT_TYPE, HeaderValue::from_static("application/json"))?;
    response.add_header(CACHE_CONTROL, HeaderValue::from_static("no-store"))?;
    response.body.put_slice(text)
}

/// Nothing is told.
pub(crate) fn refuse(response: &mut Response, untold: Untold) -> Result<(), NoMemory>
    ensures { OnOk result (response.new.status ≡ status_untold untold) }
{
    match untold {
        Untold::Busy => {
            response.add_header(RETRY_AFTER, HeaderValue::from_static("1"))?;
            say_why(
                response,
                StatusCode::SERVICE_UNAVAILABLE,
                b"{\"why\":\"come again\"}\n",
            )
        }
        Untold::Crowded => say_why(
            response,
            StatusCode::SERVICE_UNAVAILABLE,
            b"{\"why\":\"too many files are open\"}\n",
        ),
        Untold::NoMemory => say_why(
            response,
            StatusCode::SERVICE_UNAVAILABLE,
            b"{\"why\":\"no memory\"}\n",
        ),
        Untold::Full => say_why(
            response,
            StatusCode::INSUFFICIENT_STORAGE,
            b"{\"why\":\"no room\"}\n",
        ),
        Untold::TooLong => {
            say_why(
                response,
                StatusCode::PAYLOAD_TOO_LARGE,
                b"{\"why\":\"the client's file is full\",\"full\":true}\n",
            )
        }
        Untold::Failed => say_why(
            response,
            StatusCode::SERVICE_UNAVAILABLE,
            b"{\"why\":\"a file can't be used\"}\n",
        ),
        Untold::Closed => say_why(
            response,
            StatusCode::SERVICE_UNAVAILABLE,
            b"{\"why\":\"the client's file is closed\"}\n",
        ),
    }
}

fn say_why(response: &mut Response, status: StatusCode, text: &[u8]) -> Result<(), NoMemory>
    ensures { OnOk result (response.new.status ≡ status) }
{
    response.status = status;
    response.add_header(CONTENT_TYPE, HeaderValue::from_static("application/json"))?;
    response.add_header(CACHE_CONTROL, HeaderValue::from_static("no-store"))?;
    response.body.put_slice(text)
}

/// What is said to a request without a look at any file.
pub(crate) fn say_plain(
    plain: Plain,
    request: &Request<Bytes>,
    origin: Option<&str>,
    recorder: &'static [u8],
    response: &mut Response,
) -> Result<(), NoMemory>
    ensures { OnOk result ((code : ℕ) (sent : List Header) → IsResponse code sent [] response.old → (text : List ℕ)
        × IsResponse (status_said plain) (sent ++ fields_said plain request.now (option_copied origin.entry)) text
        response.new) }
{
    match plain {
        Plain::Gives(Resource::Script) => give_script(recorder, response),
        Plain::Gives(Resource::Health) => say(response, StatusCode::OK, b"{\"ok\":true}\n"),
        Plain::Gives(Resource::Upload) => say(response, StatusCode::OK, b"{\"ok\":true}\n"),
        Plain::Preflight => answer_preflight(request, origin, response),
        Plain::NoMethod(resource) => {
            allow(resource, response)?;
            say(
                response,
                StatusCode::METHOD_NOT_ALLOWED,
                b"{\"why\":\"no such method\"}\n",
            )
        }
        Plain::NoPath => say(
            response,
            StatusCode::NOT_FOUND,
            b"{\"why\":\"no such path\"}\n",
        ),
        Plain::Foreign => say(
            response,
            StatusCode::FORBIDDEN,
            b"{\"why\":\"a page of another origin\"}\n",
        ),
        Plain::Nameless => say(
            response,
            StatusCode::UNAUTHORIZED,
            b"{\"why\":\"no cookie: GET /upload gives one\"}\n",
        ),
        Plain::BadType => say(
            response,
            StatusCode::UNSUPPORTED_MEDIA_TYPE,
            b"{\"why\":\"neither JSON nor plain text\"}\n",
        ),
        Plain::TooLong => say(
            response,
            StatusCode::PAYLOAD_TOO_LARGE,
            b"{\"why\":\"more than 1 MiB\"}\n",
        ),
    }
}

// The methods that a path takes.
fn allow(resource: Resource, response: &mut Response) -> Result<(), NoMemory>
    ensures { OnOk result ((code : ℕ) (sent : List Header) → IsResponse code sent [] response.old
        → IsResponse code (sent ++ (codes "allow", methods_at resource) ∷ []) [] response.new) }
{
    let methods = match resource {
        Resource::Upload => HeaderValue::from_static("GET, HEAD, POST, OPTIONS"),
        Resource::Script => HeaderValue::from_static("GET, HEAD"),
        Resource::Health => HeaderValue::from_static("GET, HEAD"),
    };
    response.add_header(ALLOW, methods)
}

fn give_script(recorder: &'static [u8], response: &mut Response) -> Result<(), NoMemory>
    ensures { OnOk result ((code : ℕ) (sent : List Header) → IsResponse code sent [] response.old
        → IsResponse 200 (sent ++ script_fields) recorder.now response.new) }
{
    response.status = StatusCode::OK;
    response.add_header(CONTENT_TYPE, HeaderValue::from_static("text/javascript"))?;
    response.add_header(CACHE_CONTROL, HeaderValue::from_static("max-age=3600"))?;
    response.body.push(Bytes::from_static(recorder))
}

// What a page of the other origin may send.
fn answer_preflight(
    request: &Request<Bytes>,
    origin: Option<&str>,
    response: &mut Response,
) -> Result<(), NoMemory>
    ensures { OnOk result ((code : ℕ) (sent : List Header) → IsResponse code sent [] response.old
        → IsResponse 204 (sent ++ preflight_fields request.now (option_copied origin.entry)) [] response.new) }
{
    response.status = StatusCode::NO_CONTENT;
    if is_of(request, origin) {
        response.add_header(
            ACCESS_CONTROL_ALLOW_METHODS,
            HeaderValue::from_static("GET, POST"),
        )?;
        response.add_header(
            ACCESS_CONTROL_ALLOW_HEADERS,
            HeaderValue::from_static("content-type"),
        )?;
        response.add_header(ACCESS_CONTROL_MAX_AGE, HeaderValue::from_static("86400"))?;
    }
    Ok(())
}

/// A page of the other origin may read the answer.
pub(crate) fn let_read(
    alloc: Global,
    request: &Request<Bytes>,
    origin: Option<&str>,
    response: &mut Response,
) -> Result<(), NoMemory>
    ensures { OnOk result ((code : ℕ) (sent : List Header) → IsResponse code sent [] response.old
        → IsResponse code (sent ++ read_fields request.now (option_copied origin.entry)) [] response.new) }
{
    let Some(other) = origin else {
        return Ok(());
    };
    response.add_header(VARY, HeaderValue::from_static("origin"))?;
    if !is_of(request, origin) {
        return Ok(());
    }
    match HeaderValue::from_bytes(alloc, other.as_bytes()) {
        Ok(value) => {
            response.add_header(ACCESS_CONTROL_ALLOW_ORIGIN, value)?;
            response.add_header(
                ACCESS_CONTROL_ALLOW_CREDENTIALS,
                HeaderValue::from_static("true"),
            )
        }
        Err(_) => Err(AllocError),
    }
}
