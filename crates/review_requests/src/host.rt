//! The host that a request is for.
ghost use Rattle.std.specs.Prelude.{◌≡◌, ◌++◌, bytes_eq, codes, decimal, IfOk};
ghost use Rattle.std.specs.Option.{option_copied};
ghost use Rattle.review_requests.specs.Host.{field_text, host_of, is_local};

use bytes::Bytes;
use http::{HeaderName, Request};
use http_header::HOST;
use page_tree::NoMemory;
use std::alloc::Global;

/// The first value of a field, where it is visible text.
pub(crate) fn field_text<'a>(request: &'a Request<Bytes>, name: HeaderName) -> Option<&'a str>
    ensures { option_copied result ≡ field_text request.now name }
{
    match request.headers().get(name) {
        Some(value) => match value.to_str() {
            Ok(text) => Some(text),
            Err(_) => None,
        },
        None => None,
    }
}

/// That of the target where it has one, else that of the field.
pub(crate) fn host_of(request: &Request<Bytes>) -> Option<&str>
    ensures { option_copied result ≡ host_of request.now }
{
    match request.uri().authority() {
        Some(authority) => Some(authority.as_str()),
        None => field_text(request, HOST),
    }
}

/// Whether it is this machine's own name, with that port; 80 may be left out.
pub(crate) fn is_local(alloc: Global, port: u16, host: &str) -> Result<bool, NoMemory>
    ensures { IfOk result (λ local. local ≡ is_local port host.now) }
{
    let digits = format!(in alloc; "{port}")?;
    let digits = digits.as_bytes();
    let named = host.as_bytes();
    Ok(
        is_joined(named, b"127.0.0.1:", digits)
            || is_joined(named, b"localhost:", digits)
            || (port == 80 && (host == "127.0.0.1" || host == "localhost")),
    )
}

/// Whether a text is made of these two.
pub(crate) fn is_joined(text: &[u8], front: &[u8], rest: &[u8]) -> bool
    ensures { result ≡ bytes_eq text.now (front.now ++ rest.now) }
{
    match text.strip_prefix(front) {
        Some(left) => left == rest,
        None => false,
    }
}
