//! The words of the command.
ghost use Rattle.std.specs.Prelude.{◌≡◌, ◌∷◌, [], drop, map, string_bytes, IfOk, IfErr, Err};
ghost use Rattle.std.specs.List.{list_all};
ghost use Rattle.std.specs.Char.{is_ascii_digit};
ghost use Rattle.std.specs.IoError.{error_kind};
ghost use Rattle.std.specs.Net.Socket.{socket_ip, socket_port};
ghost use Rattle.std.specs.Vec.Iter.{into_iter_items};
ghost use Rattle.std.specs.declared.net.ip_addr.IpAddr.TheVariants.{V4};
ghost use Rattle.review_server.specs.Call.{is_port, port_said, reviewing_of, named_review, review_by_words, unread_words, words_exit_code, words_error_line};

use page_tree::Text;
use std::env::Args;
use std::io;
use std::io::ErrorKind;
use std::net::{IpAddr, Ipv4Addr, SocketAddr};
use warp_server::Words;

/// Where to listen, which site to read and to write to, and what to replay on it.
#[derive(Drop)]
pub struct Reviewing {
    pub port: u16,
    pub site_file: Text,
    /// The paths of uploads and of folders of uploads, one at the least.
    pub uploads: Words,
}

// As many as the greatest port has.
const MAX_DIGITS: usize = 5;

const MAX_PORT: u32 = 65_535;

impl Reviewing {
    /// That port of this machine alone.
    pub fn address(&self) -> SocketAddr
        ensures ip { socket_ip result ≡ V4 (record { octets = 127 ∷ 0 ∷ 0 ∷ 1 ∷ [] }) }
        ensures port { socket_port result ≡ self.now.port }
    {
        SocketAddr::new(IpAddr::V4(Ipv4Addr::LOCALHOST), self.port)
    }
}

/// Why the words aren't understood.
#[derive(Clone, Copy, Debug, PartialEq, Eq)]
pub enum ReviewCallFault {
    Words,
    NoMemory,
}

impl ReviewCallFault {
    /// The exit status of the program.
    pub fn code(self) -> u8
        ensures { result ≡ words_exit_code self }
    {
        match self {
            ReviewCallFault::Words => 2,
            ReviewCallFault::NoMemory => 5,
        }
    }

    /// The line for standard error.
    pub fn line(self) -> &'static str
        ensures { result.now ≡ words_error_line self }
    {
        match self {
            ReviewCallFault::Words => "usage: warp_server review PORT SITEFILE UPLOADS..",
            ReviewCallFault::NoMemory => "no memory",
        }
    }
}

/// What the program does, called with these words: its own name and those behind it.
pub fn accept_call(called: io::Result<Args>) -> Result<Reviewing, ReviewCallFault>
    ensures words { IfOk called (λ words. result ≡ review_by_words (map string_bytes (into_iter_items words))) }
    ensures unread { IfErr called (λ error. result ≡ Err (unread_words (error_kind error))) }
{
    match called {
        Ok(words) => match read_call(words) {
            Some(reviewing) => Ok(reviewing),
            None => Err(ReviewCallFault::Words),
        },
        Err(error) => Err(unread_words(error.kind())),
    }
}

fn unread_words(kind: ErrorKind) -> ReviewCallFault
    ensures { result ≡ unread_words kind }
{
    match kind {
        ErrorKind::OutOfMemory => ReviewCallFault::NoMemory,
        _ => ReviewCallFault::Words,
    }
}

fn read_call(mut words: Args) -> Option<Reviewing>
    ensures { result ≡ named_review (drop 1 (map string_bytes (into_iter_items words))) }
{
    let _name = words.next()?;
    read_named_call(words)
}

// The words behind the program's own name.
fn read_named_call(mut words: Args) -> Option<Reviewing>
    ensures { result ≡ named_review (map string_bytes (into_iter_items words)) }
{
    let word = words.next()?;
    if word.as_str() != "review" {
        return None;
    }
    read_reviewing(words)
}

// The words behind `review`.
fn read_reviewing(mut words: Args) -> Option<Reviewing>
    ensures { result ≡ reviewing_of (map string_bytes (into_iter_items words)) }
{
    let port = words.next()?;
    let site_file = words.next()?;
    let first = words.next()?;
    Some(Reviewing {
        port: port_said(&port)?,
        site_file: Text::from(site_file),
        uploads: Words::new(Text::from(first), words),
    })
}

fn port_said(word: &str) -> Option<u16>
    ensures { result ≡ port_said word.now }
{
    if !is_port(word) {
        return None;
    }
    let n: u32 = word.parse().ok()?;
    if 1 <= n && n <= MAX_PORT {
        Some(n as u16)
    } else {
        None
    }
}

// 1 to 5 digits.
fn is_port(word: &str) -> bool
    ensures { result ≡ is_port word.now }
{
    0 < word.len() && word.len() <= MAX_DIGITS && are_digits(word.as_bytes())
}

fn are_digits(bytes: &[u8]) -> bool
    ensures { result ≡ list_all is_ascii_digit bytes.now }
{
    bytes.iter().all(|c| c.is_ascii_digit())
}
