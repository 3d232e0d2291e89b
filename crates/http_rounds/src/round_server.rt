//! The server: rounds of reading, one settle, and writing.
ghost use Rattle.std.specs.Prelude.{◌≡◌, None, IfOk, OnOk, OnErr, replicate};
ghost use Rattle.http_rounds.specs.Rounds.{AreAt, IsServingRound, PlaceKeeps, places_of, service_of};

use crate::peer::Peer;
use crate::peers::Peers;
use crate::round_service::RoundService;
use http_server::{Config, Connection};
use mio::net::{TcpListener, TcpStream};
use mio::{Events, Interest, Poll, Token};
use std::alloc::Global;
use std::hash::RandomState;
use std::io;
use std::net::{Net, SocketAddr};
use std::rt::Clock;
use std::time::{Duration, Instant};

// The listener's token. Those of connections are their places.
const LISTENER: Token = Token(1 << 32);

const MAX_EVENTS: usize = 512;

// How many seconds a round waits for sockets, so that late connections are closed.
const TICK: u64 = 1;

// How many connections are accepted in a round.
const MAX_ACCEPTS: u32 = 64;

// As many files and sockets are open as this process, or the system, lets be.
const TOO_MANY_HERE: i32 = 24;

const TOO_MANY: i32 = 23;

/// A service over sockets. What comes is answered in rounds.
#[derive(Drop)]
pub struct RoundServer<S> {
    alloc: Global,
    keys: RandomState,
    // How many bytes the body of a request may have.
    longest: usize,
    service: S,
    listener: TcpListener,
    poll: Poll,
    events: Events,
    peers: Peers,
    // So many rounds in a row lacked descriptors for connections, the last one among them.
    crowded: u64,
    // More connections may have come than the last round accepted, of which the listener tells nothing further.
    has_more: bool,
}

impl<S: Drop> RoundServer<S> {
    /// At that address. Names of fields are hashed by these keys; bodies of requests have at most so many bytes.
    pub fn open<R: AllocGlobal + Net>(
        rt: &R,
        address: SocketAddr,
        keys: RandomState,
        longest: usize,
        service: S,
    ) -> io::Result<RoundServer<S>>
        ensures service { IfOk result (λ server. service_of server ≡ service) }
        ensures places { IfOk result (λ server. places_of server ≡ replicate 256 None) }
    {
        let alloc = rt.alloc();
        let mut listener = TcpListener::bind(rt, address)?;
        let poll = Poll::new(rt)?;
        poll.registry()
            .register(&mut listener, LISTENER, Interest::READABLE)?;
        Ok(RoundServer {
            alloc,
            keys,
            longest,
            service,
            listener,
            poll,
            events: Events::with_capacity(alloc, MAX_EVENTS)?,
            peers: Peers::new(alloc)?,
            crowded: 0,
            has_more: false,
        })
    }
}

impl<S: RoundService> RoundServer<S> {
    /// A round: what comes is answered, the service settles, and where the round stands the answers are sent. An error
    /// comes before anything is read.
    pub fn round<R: Clock>(&mut self, rt: &R) -> io::Result<()>
        ensures round { OnOk result (IsServingRound S.answers S.settles
            (service_of self.old) (places_of self.old) (service_of self.new) (places_of self.new)) }
        ensures err { OnErr result (service_of self.new ≡ service_of self.old) }
    {
        self.peers.sweep();
        self.wait()?;
        let now = Instant::now(rt)?;
        self.accept(now);
        self.peers.give_turn();
        self.peers.read(&mut self.service, now);
        let stands = self.service.settle(self.crowded > 0);
        self.peers.write(stands, now);
        Ok(())
    }

    // Waits until a socket is ready, or not at all where there is something to do, more connections may have come, or
    // files were just closed for connections that wait.
    fn wait(&mut self) -> io::Result<()>
        ensures places { AreAt PlaceKeeps (places_of self.old) (places_of self.new) }
        ensures service { service_of self.new ≡ service_of self.old }
    {
        let is_busy = self.peers.is_busy() || self.has_more || self.crowded == 1;
        let timeout = Duration::from_secs(if is_busy { 0 } else { TICK });
        self.poll.poll(&mut self.events, Some(timeout))?;
        wake_all(&self.events, &mut self.peers);
        Ok(())
    }

    // Takes the connections that have come, and looks whether there are descriptors for them.
    fn accept(&mut self, now: Instant)
        ensures places { AreAt PlaceKeeps (places_of self.old) (places_of self.new) }
        ensures service { service_of self.new ≡ service_of self.old }
    {
        let mut is_crowded = false;
        self.has_more = true;
        for _ in 0..MAX_ACCEPTS {
            match self.listener.accept() {
                Ok((stream, _)) => self.take_in(stream, now),
                Err(fault) => {
                    is_crowded = lacks_descriptors(&fault);
                    self.has_more = false;
                    break;
                }
            }
        }
        self.crowded = if is_crowded {
            self.crowded.saturating_add(1)
        } else {
            0
        };
    }

    // Gives a connection a place. One that can't be waited for is closed.
    fn take_in(&mut self, stream: TcpStream, now: Instant)
        ensures places { AreAt PlaceKeeps (places_of self.old) (places_of self.new) }
        ensures service { service_of self.new ≡ service_of self.old }
    {
        let mut stream = stream;
        let place = self.peers.free();
        let _sent_at_once = stream.set_nodelay(true);
        let wanted = Interest::READABLE | Interest::WRITABLE;
        match self
            .poll
            .registry()
            .register(&mut stream, Token(place), wanted)
        {
            Ok(()) => {
                let connection = Connection::new(self.alloc, self.keys, config(self.longest));
                self.peers.put(place, Peer::new(stream, connection, now));
            }
            Err(_) => {}
        }
    }
}

fn lacks_descriptors(fault: &io::Error) -> bool {
    match fault.raw_os_error() {
        Some(code) => code == TOO_MANY_HERE || code == TOO_MANY,
        None => false,
    }
}

// The sockets that the events name are ready.
fn wake_all(events: &Events, peers: &mut Peers)
    ensures { AreAt PlaceKeeps peers.old.places.items peers.new.places.items }
{
    for event in events.iter() {
        let Token(place) = event.token();
        peers.wake(
            place,
            event.is_readable() || event.is_read_closed() || event.is_error(),
            event.is_writable() || event.is_write_closed(),
        );
    }
}

// A connection has one answer a round.
fn config(longest: usize) -> Config {
    Config {
        max_body_len: longest,
        max_pending: 0,
        ..Config::default()
    }
}
