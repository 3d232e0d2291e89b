//! How the program was called.
ghost use Rattle.std.specs.Prelude.{◌≡◌, ◌≤◌, ◌∷◌, map, option_map, string_bytes, IfOk, IfErr, IfSome, Err};
ghost use Rattle.std.specs.List.{list_all};
ghost use Rattle.std.specs.Char.{is_ascii_digit};
ghost use Rattle.std.specs.IoError.{error_kind};
ghost use Rattle.std.specs.Vec.Iter.{into_iter_items};
ghost use Rattle.lanes_in_turn.specs.Round.{AreRoundLanes};
ghost use Rattle.warp_server.specs.program.Call.{is_number, number_of_word, rounds_in, listening_of, replaying_of, named_call, call_by, MayListen, fault_of_kind, call_exit_code, call_error_line};

use crate::program::words::Words;
use lanes_in_turn::MAX_ROUND_LANES;
use page_tree::Text;
use std::env::Args;
use std::io;
use std::io::ErrorKind;
use warp_run::Status;

/// How many rounds of uploads the program takes at the most. Nothing hangs on it but how long a mistyped number keeps the program up.
pub const MAX_ROUNDS: u32 = 1000;

// A port has 16 bits (RFC 9293, section 3.1).
const MAX_PORT: u32 = 65_535;

// As many as the greatest port has, so that a number of that many digits fits.
const MAX_DIGITS: usize = 5;

/// What the program is called to do.
#[derive(Drop)]
pub enum Call {
    /// Read the site and one upload from standard input.
    Run,
    /// Take uploads over sockets.
    Listen(Listening),
    /// Take uploads from files and folders.
    Replay(Replaying),
}

/// How the program listens.
#[derive(Drop)]
pub struct Listening {
    /// The port that clients connect to, not 0.
    pub port: u16,
    /// How many lanes a round has, 1 to `MAX_ROUND_LANES`.
    pub lanes: u32,
    /// How many rounds there are, 1 to `MAX_ROUNDS`.
    pub rounds: u32,
    /// The path of the file that has the site.
    pub site_file: Text,
}

/// What the program replays.
#[derive(Drop)]
pub struct Replaying {
    /// The path of the file that has the site.
    pub site_file: Text,
    /// The paths of uploads and of folders of uploads, one at the least.
    pub uploads: Words,
}

/// Why the program doesn't run.
#[derive(Clone, Copy, Debug, PartialEq, Eq)]
pub enum CallFault {
    /// It was called with words that have no meaning, or with one that is no UTF-8.
    Words,
    /// An allocation was refused.
    NoMemory,
}

impl CallFault {
    /// The exit status of the program.
    pub fn code(self) -> u8
        ensures { result ≡ call_exit_code self }
    {
        match self {
            CallFault::Words => 2,
            CallFault::NoMemory => Status::OutOfMemory.code(),
        }
    }

    /// The line for standard error.
    pub fn line(self) -> &'static str
        ensures { result.now ≡ call_error_line self }
    {
        match self {
            CallFault::Words =>
                "usage: warp_server [listen PORT LANES SITEFILE [ROUNDS]]\n       warp_server replay SITEFILE UPLOADS..",
            CallFault::NoMemory => "no memory",
        }
    }
}

/// What the program does, called with these words: its own name, which may be absent, and those behind it.
pub fn accept_call(called: io::Result<Args>) -> Result<Call, CallFault>
    ensures words { IfOk called (λ words. result ≡ call_by (map string_bytes (into_iter_items words))) }
    ensures unread { IfErr called (λ error. result ≡ Err (fault_of_kind (error_kind error))) }
    ensures lanes { IfOk result MayListen }
{
    match called {
        Ok(words) => read_call(words),
        Err(error) => Err(fault_of(error.kind())),
    }
}

fn read_call(mut words: Args) -> Result<Call, CallFault>
    ensures call { result ≡ call_by (map string_bytes (into_iter_items words)) }
    ensures lanes { IfOk result MayListen }
{
    match words.next() {
        None => Ok(Call::Run),
        Some(_name) => read_named_call(words),
    }
}

// The words behind the program's own name. Any others are status 2.
fn read_named_call(mut words: Args) -> Result<Call, CallFault>
    ensures call { result ≡ named_call (map string_bytes (into_iter_items words)) }
    ensures lanes { IfOk result MayListen }
{
    let Some(word) = words.next() else {
        return Ok(Call::Run);
    };
    match word.as_str() {
        "listen" => match read_listening(words) {
            None => Err(CallFault::Words),
            Some(listening) => Ok(Call::Listen(listening)),
        },
        "replay" => match read_replaying(words) {
            None => Err(CallFault::Words),
            Some(replaying) => Ok(Call::Replay(replaying)),
        },
        _ => Err(CallFault::Words),
    }
}

// The words behind `listen`.
fn read_listening(mut words: Args) -> Option<Listening>
    ensures listening { result ≡ listening_of (map string_bytes (into_iter_items words)) }
    ensures lanes { IfSome result (λ listening. AreRoundLanes listening.lanes) }
{
    let port = words.next()?;
    let lanes = words.next()?;
    let site_file = words.next()?;
    Some(Listening {
        port: number_of_word(1, MAX_PORT, &port)? as u16,
        lanes: number_of_word(1, MAX_ROUND_LANES, &lanes)?,
        rounds: read_rounds(words)?,
        site_file: Text::from(site_file),
    })
}

// The words behind `replay`.
fn read_replaying(mut words: Args) -> Option<Replaying>
    ensures { result ≡ replaying_of (map string_bytes (into_iter_items words)) }
{
    let site_file = words.next()?;
    let first = words.next()?;
    Some(Replaying {
        site_file: Text::from(site_file),
        uploads: Words::new(Text::from(first), words),
    })
}

// One round where no word says how many.
fn read_rounds(mut words: Args) -> Option<u32>
    ensures { result ≡ rounds_in (map string_bytes (into_iter_items words)) }
{
    let Some(rounds) = words.next() else {
        return Some(1);
    };
    match words.next() {
        None => number_of_word(1, MAX_ROUNDS, &rounds),
        Some(_) => None,
    }
}

fn number_of_word(low: u32, high: u32, word: &str) -> Option<u32>
    ensures value { result ≡ number_of_word low high word.now }
    ensures least { IfSome result (λ n. low ≤ n) }
    ensures most { IfSome result (λ n. n ≤ high) }
{
    if !is_number(word) {
        return None;
    }
    let n = word.parse().ok()?;
    if low <= n && n <= high { Some(n) } else { None }
}

// 1 to 5 digits.
fn is_number(word: &str) -> bool
    ensures { result ≡ is_number word.now }
{
    0 < word.len() && word.len() <= MAX_DIGITS && are_digits(word.as_bytes())
}

fn are_digits(bytes: &[u8]) -> bool
    ensures { result ≡ list_all is_ascii_digit bytes.now }
{
    bytes.iter().all(|c| c.is_ascii_digit())
}

fn fault_of(kind: ErrorKind) -> CallFault
    ensures { result ≡ fault_of_kind kind }
{
    match kind {
        ErrorKind::OutOfMemory => CallFault::NoMemory,
        _ => CallFault::Words,
    }
}
