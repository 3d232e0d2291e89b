//! The words of the command.
ghost use Rattle.std.specs.Prelude.{◌≡◌, ◌∷◌, [], drop, map, string_bytes, IfOk, IfErr, Err};
ghost use Rattle.std.specs.List.{list_all};
ghost use Rattle.std.specs.Char.{is_ascii_digit};
ghost use Rattle.std.specs.IoError.{error_kind};
ghost use Rattle.std.specs.Net.Socket.{socket_ip, socket_port};
ghost use Rattle.std.specs.Vec.Iter.{into_iter_items};
ghost use Rattle.std.specs.declared.net.ip_addr.IpAddr.TheVariants.{V4};
ghost use Rattle.collect_server.specs.Call.{is_written_number, written_number, is_origin, is_origin_by, is_of_host, collecting_at, with_choices, collecting_of, named_collect, collect_by, unread_fault, fault_exit_code, fault_error_line};

use page_tree::Text;
use std::env::Args;
use std::io;
use std::io::ErrorKind;
use std::net::{IpAddr, Ipv4Addr, SocketAddr};

/// Where to listen, where to keep, which other origin is let in, and from how many bytes on a client's file takes no
/// more.
#[derive(Drop)]
pub struct Collecting {
    pub port: u16,
    pub folder: Text,
    pub origin: Option<Text>,
    pub limit: u64,
}

// As many as the greatest number has that a word may write, a port's.
const MAX_DIGITS: usize = 5;

const MAX_NUMBER: u32 = 65_535;

const MEBIBYTE: u64 = 1 << 20;

// Where no word says another number of mebibytes.
const USUAL_MEBIBYTES: u16 = 64;

impl Collecting {
    /// That port of this machine alone: a proxy in front of it brings names and TLS.
    pub fn address(&self) -> SocketAddr
        ensures ip { socket_ip result ≡ V4 (record { octets = 127 ∷ 0 ∷ 0 ∷ 1 ∷ [] }) }
        ensures port { socket_port result ≡ self.now.port }
    {
        SocketAddr::new(IpAddr::V4(Ipv4Addr::LOCALHOST), self.port)
    }
}

/// Why the words aren't understood.
#[derive(Clone, Copy, Debug, PartialEq, Eq)]
pub enum CollectFault {
    Words,
    NoMemory,
}

impl CollectFault {
    /// The exit status of the program.
    pub fn code(self) -> u8
        ensures { result ≡ fault_exit_code self }
    {
        match self {
            CollectFault::Words => 2,
            CollectFault::NoMemory => 5,
        }
    }

    /// The line for standard error.
    pub fn line(self) -> &'static str
        ensures { result.now ≡ fault_error_line self }
    {
        match self {
            CollectFault::Words => "usage: warp_server collect PORT FOLDER [ORIGIN] [MEBIBYTES]",
            CollectFault::NoMemory => "no memory",
        }
    }
}

/// What the program does, called with these words: its own name and those behind it.
pub fn accept_call(called: io::Result<Args>) -> Result<Collecting, CollectFault>
    ensures words { IfOk called (λ words. result ≡ collect_by (map string_bytes (into_iter_items words))) }
    ensures unread { IfErr called (λ error. result ≡ Err (unread_fault (error_kind error))) }
{
    match called {
        Ok(words) => match read_call(words) {
            Some(collecting) => Ok(collecting),
            None => Err(CollectFault::Words),
        },
        Err(error) => Err(unread_fault(error.kind())),
    }
}

fn unread_fault(kind: ErrorKind) -> CollectFault
    ensures { result ≡ unread_fault kind }
{
    match kind {
        ErrorKind::OutOfMemory => CollectFault::NoMemory,
        _ => CollectFault::Words,
    }
}

fn read_call(mut words: Args) -> Option<Collecting>
    ensures { result ≡ named_collect (drop 1 (map string_bytes (into_iter_items words))) }
{
    let _name = words.next()?;
    read_named_call(words)
}

// The words behind the program's own name.
fn read_named_call(mut words: Args) -> Option<Collecting>
    ensures { result ≡ named_collect (map string_bytes (into_iter_items words)) }
{
    let word = words.next()?;
    if word.as_str() != "collect" {
        return None;
    }
    read_collecting(words)
}

// The words behind `collect`.
fn read_collecting(mut words: Args) -> Option<Collecting>
    ensures { result ≡ collecting_of (map string_bytes (into_iter_items words)) }
{
    let port = words.next()?;
    let folder = words.next()?;
    let port = written_number(&port)?;
    with_choices(port, Text::from(folder), words)
}

// An origin, and then a number of mebibytes.
fn with_choices(port: u16, folder: Text, mut words: Args) -> Option<Collecting>
    ensures { result ≡ with_choices port folder (map string_bytes (into_iter_items words)) }
{
    let Some(first) = words.next() else {
        return collecting_at(port, folder, None, USUAL_MEBIBYTES);
    };
    let Some(second) = words.next() else {
        if is_origin(&first) {
            return collecting_at(port, folder, Some(Text::from(first)), USUAL_MEBIBYTES);
        }
        return collecting_at(port, folder, None, written_number(&first)?);
    };
    match words.next() {
        Some(_) => None,
        None => if is_origin(&first) {
            collecting_at(
                port,
                folder,
                Some(Text::from(first)),
                written_number(&second)?,
            )
        } else {
            None
        },
    }
}

fn collecting_at(
    port: u16,
    folder: Text,
    origin: Option<Text>,
    mebibytes: u16,
) -> Option<Collecting>
    ensures { result ≡ collecting_at port folder origin mebibytes }
{
    Some(Collecting {
        port,
        folder,
        origin,
        limit: mebibytes as u64 * MEBIBYTE,
    })
}

fn written_number(word: &str) -> Option<u16>
    ensures { result ≡ written_number word.now }
{
    if !is_written_number(word) {
        return None;
    }
    let n: u32 = word.parse().ok()?;
    if 1 <= n && n <= MAX_NUMBER {
        Some(n as u16)
    } else {
        None
    }
}

// 1 to 5 digits.
fn is_written_number(word: &str) -> bool
    ensures { result ≡ is_written_number word.now }
{
    0 < word.len() && word.len() <= MAX_DIGITS && are_digits(word.as_bytes())
}

fn are_digits(bytes: &[u8]) -> bool
    ensures { result ≡ list_all is_ascii_digit bytes.now }
{
    bytes.iter().all(|c| c.is_ascii_digit())
}

fn is_origin(word: &str) -> bool
    ensures { result ≡ is_origin word.now }
{
    is_origin_by(b"http://", b":80", word.as_bytes())
        || is_origin_by(b"https://", b":443", word.as_bytes())
}

fn is_origin_by(scheme: &[u8], port: &[u8], word: &[u8]) -> bool
    ensures { result ≡ is_origin_by scheme.now port.now word.now }
{
    word.starts_with(scheme)
        && !word.ends_with(port)
        && scheme.len() < word.len()
        && are_of_host(&word[scheme.len()..])
}

fn are_of_host(bytes: &[u8]) -> bool
    ensures { result ≡ list_all is_of_host bytes.now }
{
    bytes.iter().all(|c| is_of_host(*c))
}

// A small letter or a digit, or one of `-.:[]_`.
fn is_of_host(c: u8) -> bool
    ensures { result ≡ is_of_host c }
{
    (b'a' <= c && c <= b'z')
        || (c.is_ascii_digit() || (b'-' <= c && c <= b'.'))
        || (c == b':' || (c == b'[' || (c == b']' || c == b'_')))
}
