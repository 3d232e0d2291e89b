//! The program that serves: a site is read from its file, and whoever connects to a port of this machine is served.
ghost use Rattle.std.specs.Prelude.{◌≡◌, None, MatchResult, ◌⊎◌, ⊤};
ghost use Rattle.byte_streams.specs.Streams.{fed_answers};
ghost use Rattle.byte_streams.specs.declared.source.Fed.{Fed};
ghost use Rattle.byte_streams.specs.Reading.{WasRead};
ghost use Rattle.byte_streams.specs.Writing.{writes_of};
ghost use Rattle.lanes_in_turn.specs.Round.{AreRoundLanes};
ghost use Rattle.warp_server.specs.program.Callers.{sayings, silent};
ghost use Rattle.warp_server.specs.program.Listen.{unopened_status, IsLocal, SaysSite, ReadsFile, Listens};
ghost use Rattle.warp_run.specs.Intake.{SaysNoSite};
ghost use Rattle.warp_run.specs.declared.status.Status.TheVariants.{OutOfMemory};

use crate::program::call::Listening;
use crate::program::callers::Callers;
use crate::program::opens::{Machine, Opens};
use crate::program::serving::serve_callers;
use byte_streams::{Lines, Sink, Source};
use site_line::Site;
use std::fs::File;
use std::hash::RandomState;
use std::io::ErrorKind;
use std::net::{IpAddr, Ipv4Addr, Net, SocketAddr, TcpListener, TcpStream};
use std::random::RandomSource;
use std::rt::Files;
use std::sync::Wait;
use std::thread::Threads;
use warp_run::{Status, read_site};

/// Reads the site from the first line of its file, listens on that port of 127.0.0.1, and serves. It is `listen_by` with the files and ports of this machine, of
/// which no contract says what was opened.
pub fn listen<
    W: Sink,
    T: AllocGlobal
        + Files<File = File>
        + Net<Listener = TcpListener, Stream = TcpStream>
        + RandomSource
        + Threads
        + Wait
        + Sync,
>(rt: &T, listening: &Listening, writer: &mut W) -> Status
    requires lanes { AreRoundLanes listening.now.lanes }
    ensures { Listens {F = Fed File} {C = Unit {0}} (λ _ _. ⊤) (λ _ _. ⊤)
        (WasRead {R = Fed File} fed_answers (λ _. None)) (silent (WasRead {R = Fed TcpStream} fed_answers (λ _. None))) listening.now
        (writes_of W.puts W.contents writer.old writer.new) result }
{
    listen_by(rt, &Machine { rt }, listening, writer)
}

/// `listen` with the file and the port that this opens.
pub fn listen_by<
    F: Source + Drop,
    R: Source + Drop + Send,
    C: Callers<Reader = R> + Drop,
    O: Opens<File = F, Callers = C>,
    W: Sink,
    T: AllocGlobal + RandomSource + Threads + Wait + Sync,
>(rt: &T, opener: &O, listening: &Listening, writer: &mut W) -> Status
    requires lanes { AreRoundLanes listening.now.lanes }
    ensures { Listens O.opened O.bound (WasRead F.answers F.remaining)
        (sayings (WasRead R.answers R.remaining) C.brings C.brings_none C.takes_back) listening.now
        (writes_of W.puts W.contents writer.old writer.new) result }
{
    let file = match opener.open(listening.site_file.as_str()) {
        Ok(file) => file,
        Err(error) => return unopened_status(error.kind()),
    };
    let site = match site_of_file(rt, file) {
        Ok(site) => site,
        Err(status) => return status,
    };
    let mut callers = match opener.bind(local(listening.port)) {
        Ok(callers) => callers,
        Err(error) => return unopened_status(error.kind()),
    };
    serve_callers(
        rt,
        &mut callers,
        listening.lanes,
        listening.rounds,
        &site,
        writer,
    )
}

// The site that the first line of the file says.
fn site_of_file<F: Source + Drop, T: AllocGlobal + RandomSource>(
    rt: &T,
    file: F,
) -> Result<Site, Status>
    ensures { MatchResult result
        (λ site. ReadsFile (WasRead F.answers F.remaining) file (SaysSite site))
        (λ status. (status ≡ OutOfMemory) ⊎ ReadsFile (WasRead F.answers F.remaining) file (SaysNoSite status)) }
{
    let Ok(keys) = RandomState::new(rt) else {
        return Err(Status::OutOfMemory);
    };
    let Ok(mut lines) = Lines::over(rt.alloc(), file) else {
        return Err(Status::OutOfMemory);
    };
    let site = read_site(rt.alloc(), keys, &mut lines);
    let _read = lines.into_reader();
    site
}

// The port of 127.0.0.1, which only this machine reaches.
fn local(port: u16) -> SocketAddr
    ensures { IsLocal port result }
{
    SocketAddr::new(IpAddr::V4(Ipv4Addr::new(127, 0, 0, 1)), port)
}

// How it ends where a file or a port can't be opened.
fn unopened_status(kind: ErrorKind) -> Status
    ensures { result ≡ unopened_status kind }
{
    match kind {
        ErrorKind::OutOfMemory => Status::OutOfMemory,
        _ => Status::InputOutput,
    }
}
