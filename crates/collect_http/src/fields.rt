//! What a request's fields say.
ghost use Rattle.std.specs.Prelude.{◌≡◌, ◌++◌, ◌==◌, bytes_eq};
ghost use Rattle.std.specs.List.{before_first};
ghost use Rattle.std.specs.Option.{option_copied};
ghost use Rattle.collect_http.specs.Asking.{behind_front, is_body_type, is_own, text_of};

use bytes::Bytes;
use http::{HeaderName, Request};
use http_header::HOST;

/// The first value of a field, where it is visible text.
pub(crate) fn text_of<'a>(request: &'a Request<Bytes>, name: HeaderName) -> Option<&'a str>
    ensures { option_copied result ≡ text_of request.now name }
{
    match request.headers().get(name) {
        Some(value) => match value.to_str() {
            Ok(text) => Some(text),
            Err(_) => None,
        },
        None => None,
    }
}

/// What stands behind that front.
pub(crate) fn behind_front<'a>(front: &str, text: &'a str) -> Option<&'a str>
    ensures { option_copied result ≡ behind_front front.now text.now }
{
    text.strip_prefix(front)
}

/// Whether a page is the host's own.
pub(crate) fn is_own(request: &Request<Bytes>, page: &str) -> bool
    ensures { result ≡ is_own request.now page.now }
{
    match text_of(request, HOST) {
        Some(host) => is_page_of("http://", host, page) || is_page_of("https://", host, page),
        None => false,
    }
}

// Whether a page is that of the host.
fn is_page_of(scheme: &str, host: &str, page: &str) -> bool
    ensures { result ≡ bytes_eq page.now (scheme.now ++ host.now) }
{
    match behind_front(scheme, page) {
        Some(rest) => rest == host,
        None => false,
    }
}

/// Whether a body of this type is taken: what a page may send without asking first, and JSON.
pub(crate) fn is_body_type(value: &str) -> bool
    ensures { result ≡ is_body_type value.now }
{
    let kind = kind_of(value).trim();
    kind.eq_ignore_ascii_case("application/json") || kind.eq_ignore_ascii_case("text/plain")
}

// What stands before the first semicolon.
fn kind_of(value: &str) -> &str
    ensures { result.now ≡ before_first (λ c. c == 59) value.now }
{
    match value.split_once(';') {
        Some((kind, _)) => kind,
        None => value,
    }
}
