//! Rounds of uploads are taken, from callers or over connections, and one report is written.
ghost use Rattle.byte_streams.specs.Streams.{fed_reader, fed_answers};
ghost use Rattle.lanes_in_turn.specs.Round.{AreRoundLanes};
ghost use Rattle.byte_streams.specs.Reading.{WasRead};
ghost use Rattle.byte_streams.specs.Writing.{writes_of};
ghost use Rattle.warp_server.specs.program.Callers.{sayings, silent, Serves};

use crate::program::callers::Callers;
use crate::program::connections::Connections;
use crate::program::rounds::gather_rounds;
use byte_streams::{Sink, Source};
use site_line::Site;
use std::io::Read;
use std::net::OpenListener;
use std::sync::Wait;
use std::thread::Threads;
use warp_run::{Status, conclude, status_of, written_status};

/// Takes rounds of uploads from these callers, replays what the logs keep of all rounds on the site, puts the site's decisions, and writes one report. Each
/// round waits for so many callers, then reads the hello of each in that order, and then takes all uploads to their ends at once. A client that uploaded in an
/// earlier round goes on behind it. When the round is over each source is given back.
///
/// Nothing is written where too few callers come, where one of them doesn't begin with a hello, and where two of a round are of one client; in the last case
/// the round's sources are given back, else they are dropped. A fault of a later line ends that upload alone, and stands in the report. Where memory is refused
/// while messages are taken, the round is the last, and its report is written; elsewhere nothing is written then.
pub fn serve_callers<
    R: Source + Drop + Send,
    C: Callers<Reader = R>,
    W: Sink,
    T: AllocGlobal + Threads + Wait + Sync,
>(rt: &T, callers: &mut C, lanes: u32, rounds: u32, site: &Site, writer: &mut W) -> Status
    requires lanes { AreRoundLanes lanes }
    ensures { Serves
        (sayings (WasRead R.answers R.remaining) C.brings C.brings_none C.takes_back)
        site.now lanes rounds callers.old callers.new (writes_of W.puts W.contents writer.old writer.new) result }
{
    let gathered = match gather_rounds(rt, callers, lanes, rounds, site) {
        Ok(gathered) => gathered,
        Err(status) => return status,
    };
    match conclude(rt, site, &gathered, writer) {
        Err(_) => Status::OutOfMemory,
        Ok(concluded) => written_status(status_of(&gathered), concluded.report),
    }
}

/// Serves the connections that this listener accepts: `serve_callers` on them. The connections of a round are closed when it is over, and nothing is written to
/// them. Where a connection can't be accepted, too few callers came.
pub fn serve<
    S: Read + Send + Drop,
    L: OpenListener<Stream = S>,
    W: Sink,
    T: AllocGlobal + Threads + Wait + Sync,
>(rt: &T, listener: &L, lanes: u32, rounds: u32, site: &Site, writer: &mut W) -> Status
    requires lanes { AreRoundLanes lanes }
    ensures { Serves (silent (WasRead fed_answers (λ fed. S.remaining (fed_reader fed))))
        site.now lanes rounds tt tt (writes_of W.puts W.contents writer.old writer.new) result }
{
    let mut connections = Connections { listener };
    serve_callers(rt, &mut connections, lanes, rounds, site, writer)
}
