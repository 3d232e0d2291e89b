//! The cookie that has a client's name.
ghost use Rattle.std.specs.Prelude.{◌≡◌, IfOk};
ghost use Rattle.std.specs.List.{list_all};
ghost use Rattle.std.specs.Option.{option_copied};
ghost use Rattle.collect_http.specs.Asking.{client_in_cookie, is_given, is_hex, name_in_part};

use crate::fields::behind_front;
use page_tree::NoMemory;
use std::alloc::{AllocError, Global};
use upload_reader::Client;

/// The cookie's name.
pub(crate) const COOKIE_START: &str = "yugdemor=";

const NAME_LEN: usize = 32;

/// The client that a cookie field names, by the first of its parts that has a name as the server gives them.
pub(crate) fn client_in(alloc: Global, field: &str) -> Result<Option<Client>, NoMemory>
    ensures { IfOk result (λ client. client ≡ client_in_cookie field.now) }
{
    for part in field.split(';') {
        match name_in_part(part) {
            Some(name) => {
                return match read_name(alloc, name) {
                    Ok(client) => Ok(Some(client)),
                    Err(e) => Err(e),
                };
            }
            None => {}
        }
    }
    Ok(None)
}

// The name in a part of a cookie field.
fn name_in_part(part: &str) -> Option<&str>
    ensures { option_copied result ≡ name_in_part part.now }
{
    match behind_front(COOKIE_START, part.trim()) {
        Some(name) => { if is_given(name) { Some(name) } else { None } }
        None => None,
    }
}

/// The name as a client; without memory alone where it is given.
pub(crate) fn read_name(alloc: Global, name: &str) -> Result<Client, NoMemory>
    ensures { IfOk result (λ client. client ≡ name.now) }
{
    match Client::read(alloc, name) {
        Ok(client) => Ok(client),
        Err(_) => Err(AllocError),
    }
}

/// Whether it is 32 of `[0-9a-f]`.
pub(crate) fn is_given(name: &str) -> bool
    ensures { result ≡ is_given name.now }
{
    name.len() == NAME_LEN && are_hex(name.as_bytes())
}

fn are_hex(bytes: &[u8]) -> bool
    ensures { result ≡ list_all is_hex bytes.now }
{
    bytes.iter().all(|c| is_hex(*c))
}

fn is_hex(c: u8) -> bool
    ensures { result ≡ is_hex c }
{
    (48 <= c && c <= 57) || (97 <= c && c <= 102)
}
