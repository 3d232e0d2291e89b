//! The page that a request comes from.
ghost use Rattle.std.specs.Prelude.{◌≡◌};
ghost use Rattle.review_requests.specs.Origin.{is_from_host};

use crate::host::is_joined;
use bytes::Bytes;
use http::Request;
use http_header::ORIGIN;

/// Whether the page is the host's own; it has to be said once.
pub(crate) fn is_from_host(request: &Request<Bytes>, host: &str) -> bool
    ensures { result ≡ is_from_host request.now host.now }
{
    let mut pages = request.headers().get_all(ORIGIN).iter();
    match pages.next() {
        Some(page) => match pages.next() {
            Some(_) => false,
            None => is_joined(page.as_bytes(), b"http://", host.as_bytes()),
        },
        None => false,
    }
}
