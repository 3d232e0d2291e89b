//! One connection.
ghost use Rattle.std.specs.Prelude.{◌≡◌, ◌++◌, ℕ, List, true};
ghost use Rattle.http_server.specs.Connection.{history};
ghost use Rattle.http_server.specs.Exchange.{Calls};
ghost use Rattle.http_rounds.specs.Rounds.{SendsOut};

use crate::round_service::RoundService;
use http_server::Connection;
use mio::net::TcpStream;
use std::io::ErrorKind;
use std::time::{Duration, Instant};

// A request and its answer have so many seconds, and so long a connection may be quiet.
const PATIENCE: u64 = 30;

// A request of more bytes waits for its turn, of which there is one a round, so that it holds up nobody for long.
const LARGE_BYTES: usize = 4096;

/// A connection, and what its socket was told to be ready for.
#[derive(Drop)]
pub(crate) struct Peer {
    stream: TcpStream,
    pub(crate) connection: Connection,
    // Since when it is quiet, or else a request and its answer last.
    since: Instant,
    quiet: bool,
    readable: bool,
    writable: bool,
    // The service may have more of its requests to answer.
    stirred: bool,
    // None of its requests that came whole is left, so that more is read.
    hungry: bool,
    // So many bytes came that aren't answered, at most, and of these so many since there was no whole request.
    unanswered: usize,
    fresh: usize,
    // Its large request waits for its turn, or has it.
    pub(crate) waits: bool,
    pub(crate) has_turn: bool,
    // It is to be closed.
    pub(crate) over: bool,
}

impl Peer {
    pub(crate) fn new(stream: TcpStream, connection: Connection, now: Instant) -> Peer
        ensures { result.connection ≡ connection }
    {
        Peer {
            stream,
            connection,
            since: now,
            quiet: true,
            readable: true,
            writable: true,
            stirred: false,
            hungry: true,
            unanswered: 0,
            fresh: 0,
            waits: false,
            has_turn: false,
            over: false,
        }
    }

    pub(crate) fn since(&self) -> Instant {
        self.since
    }

    pub(crate) fn is_over(&self) -> bool
        ensures { result ≡ self.now.over }
    {
        self.over
    }

    /// Its socket is ready for this.
    pub(crate) fn wake(&mut self, readable: bool, writable: bool)
        ensures { self.new.connection ≡ self.old.connection }
    {
        self.readable = self.readable || readable;
        self.writable = self.writable || writable;
    }

    /// Whether there is something to do before its socket tells more.
    pub(crate) fn is_busy(&self) -> bool {
        self.over || self.has_input() || (self.writable && self.connection.wants_write())
    }

    // Whether there is something to read or to answer.
    fn has_input(&self) -> bool {
        self.stirred || self.may_read()
    }

    fn may_read(&self) -> bool {
        self.readable && self.hungry && self.connection.wants_read()
    }

    /// It has its turn in this round.
    pub(crate) fn give_turn(&mut self)
        ensures { self.new ≡ record self.old { has_turn = true } }
    {
        self.has_turn = true;
    }

    // Its request is large, and it has no turn.
    fn is_held(&self) -> bool {
        self.unanswered > LARGE_BYTES && !self.has_turn
    }

    /// Reads once, and has what came answered, unless that waits for its turn. Nothing is sent. It gives the bytes of a
    /// small request that is answered; a large one has its turn.
    pub(crate) fn read<S: RoundService>(&mut self, service: &mut S, now: Instant) -> usize
        ensures calls { Calls S.answers service.old service.new
            (history self.old.connection).calls (history self.new.connection).calls }
        ensures sent { (history self.new.connection).sent ≡ (history self.old.connection).sent }
        ensures received { (more : List ℕ)
            × ((history self.new.connection).received ≡ (history self.old.connection).received ++ more) }
    {
        self.receive(now);
        let bytes = if self.has_turn { 0 } else { self.unanswered };
        let answers = self.may_answer();
        if answers {
            self.answer(service);
        }
        self.waits = self.is_held() && self.has_input();
        self.has_turn = false;
        if answers { bytes } else { 0 }
    }

    fn may_answer(&self) -> bool {
        self.stirred && !self.is_held()
    }

    // Has what came answered.
    fn answer<S: RoundService>(&mut self, service: &mut S)
        ensures calls { Calls S.answers service.old service.new
            (history self.old.connection).calls (history self.new.connection).calls }
        ensures sent { (history self.new.connection).sent ≡ (history self.old.connection).sent }
        ensures received { (history self.new.connection).received ≡ (history self.old.connection).received }
    {
        self.stirred = false;
        self.connection.advance(service);
        self.count_on();
    }

    // Where there is an answer, what is left came since there was no whole request. Else there is none now, and more is
    // read.
    fn count_on(&mut self)
        ensures { self.new.connection ≡ self.old.connection }
    {
        self.hungry = !self.connection.wants_write();
        if self.hungry {
            self.fresh = 0;
        } else {
            self.unanswered = self.fresh;
        }
    }

    // Reads once, where its socket is ready, there is room, and it needn't wait for its turn.
    fn receive(&mut self, now: Instant)
        ensures calls { (history self.new.connection).calls ≡ (history self.old.connection).calls }
        ensures sent { (history self.new.connection).sent ≡ (history self.old.connection).sent }
        ensures received { (more : List ℕ)
            × ((history self.new.connection).received ≡ (history self.old.connection).received ++ more) }
    {
        if self.is_held() || !self.may_read() {
            return;
        }
        match self.connection.read_from(&mut &self.stream) {
            Ok(count) => {
                self.stirred = true;
                self.unanswered = self.unanswered.saturating_add(count);
                self.fresh = self.fresh.saturating_add(count);
                if self.quiet {
                    self.quiet = false;
                    self.since = now;
                }
            }
            Err(fault) => {
                self.readable = false;
                self.over = fault.kind() != ErrorKind::WouldBlock;
            }
        }
    }

    /// Sends what waits where the round stands. Else it is over where something waits, and so it is when its time is.
    pub(crate) fn write(&mut self, stands: bool, now: Instant)
        ensures { SendsOut stands self.old self.new }
    {
        if self.connection.wants_write() {
            if stands {
                self.send(now);
            }
            self.over = self.over || !stands;
        }
        if self.connection.is_done() || self.is_late(now) {
            self.over = true;
        }
    }

    // Writes once, where its socket is ready.
    fn send(&mut self, now: Instant)
        ensures { SendsOut true self.old self.new }
    {
        if !self.writable {
            return;
        }
        match self.connection.write_to(&mut &self.stream) {
            Ok(0) => self.over = true,
            Ok(_) => {
                self.stirred = true;
                if !self.connection.wants_write() {
                    self.quiet = true;
                    self.since = now;
                }
            }
            Err(fault) => {
                self.writable = false;
                self.over = self.over || fault.kind() != ErrorKind::WouldBlock;
            }
        }
    }

    // Whether its time is over.
    fn is_late(&self, now: Instant) -> bool {
        now.duration_since(self.since) > Duration::from_secs(PATIENCE)
    }
}
