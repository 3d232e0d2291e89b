//! The connections.
ghost use Rattle.std.specs.Prelude.{◌≡◌, ℕ, None, IfOk, position, replicate};
ghost use Rattle.http_server.specs.Connection.{history};
ghost use Rattle.http_server.specs.History.{new_history};
ghost use Rattle.http_rounds.specs.Rounds.{AreAt, AreAnswered, AreAnsweredFrom, PlaceAnswers, PlaceBegins, PlaceKeeps, PlaceSends};
ghost use Rattle.http_rounds.specs.inside.Turns.{GivesTurn, next_turn, turn_now, waits_for_turn, with_turn};

use crate::peer::Peer;
use crate::round_service::RoundService;
use crate::work::Work;
use std::alloc::{AllocError, Global};
use std::time::Instant;

/// How many connections there may be.
pub(crate) const MAX_PEERS: usize = 256;

/// Places for connections, each known by its number.
#[derive(Drop)]
pub(crate) struct Peers {
    pub(crate) places: Vec<Option<Peer>>,
    // The place behind that of the last turn.
    pub(crate) turn: usize,
    // The last round had a turn.
    pub(crate) rests: bool,
    // The place from which on the next round reads.
    pub(crate) first: usize,
}

impl Peers {
    pub(crate) fn new(alloc: Global) -> Result<Peers, AllocError>
        ensures { IfOk result (λ made. made.places.items ≡ replicate 256 None) }
    {
        let mut places = Vec::new(alloc);
        for _ in 0..MAX_PEERS {
            places.push(None)?;
        }
        Ok(Peers {
            places,
            turn: 0,
            rests: false,
            first: 0,
        })
    }

    /// A free place; without one that of the connection whose request lasts longest, which is closed.
    pub(crate) fn free(&self) -> usize {
        let mut oldest = 0;
        let mut since = None;
        for place in 0..self.places.len() {
            match &self.places[place] {
                None => return place,
                Some(peer) => {
                    if is_older(peer.since(), since) {
                        oldest = place;
                        since = Some(peer.since());
                    }
                }
            }
        }
        oldest
    }

    /// Puts a new connection there.
    pub(crate) fn put(&mut self, place: usize, peer: Peer)
        requires { history peer.connection ≡ new_history }
        ensures { AreAt PlaceKeeps self.old.places.items self.new.places.items }
    {
        if place < self.places.len() {
            self.places[place] = Some(peer);
        }
    }

    /// The socket of the connection there is ready for this.
    pub(crate) fn wake(&mut self, place: usize, readable: bool, writable: bool)
        ensures { AreAt PlaceKeeps self.old.places.items self.new.places.items }
    {
        if place < self.places.len() {
            wake(&mut self.places[place], readable, writable);
        }
    }

    /// Whether a connection has something to do at once.
    pub(crate) fn is_busy(&self) -> bool {
        self.places.iter().any(|peer| is_busy(peer))
    }

    /// Closes the connections that are over.
    pub(crate) fn sweep(&mut self)
        ensures { AreAt PlaceBegins self.old.places.items self.new.places.items }
    {
        for peer in self.places.iter_mut() {
            sweep(peer);
        }
    }

    /// Gives the turn of this round to the next connection whose large request waits. Behind a round with a turn none has
    /// it, so that who came meanwhile doesn't wait for a second one.
    pub(crate) fn give_turn(&mut self)
        ensures keeps { AreAt PlaceKeeps self.old.places.items self.new.places.items }
        ensures gives { GivesTurn self.old self.new (turn_now self.old) }
    {
        if self.rests {
            self.rests = false;
            return;
        }
        if let Some(place) = self.next_turn() {
            give_turn(&mut self.places[place]);
            self.turn = place + 1;
            self.rests = true;
        }
    }

    // The first from the place behind the last turn's on, else the first of all.
    fn next_turn(&self) -> Option<usize>
        ensures { result ≡ next_turn self.now.turn self.now.places.items }
    {
        let from = self.turn.min(self.places.len());
        match first_waiting(&self.places[from..]) {
            Some(behind) => Some(from + behind),
            None => first_waiting(&self.places),
        }
    }

    /// Reads once from each connection, and has what came answered, but for large requests without a turn. It goes round
    /// from behind the place where the last round had no work left, until this one has none.
    pub(crate) fn read<S: RoundService>(&mut self, service: &mut S, now: Instant)
        ensures { (first : ℕ) × AreAnsweredFrom S.answers
            first service.old self.old.places.items self.new.places.items service.new }
    {
        let first = if self.first < self.places.len() {
            self.first
        } else {
            0
        };
        let mut work = Work::begin(first);
        let (before, behind) = self.places.split_at_mut(first);
        read_all(behind, service, &mut work, now);
        work.go_round();
        read_all(before, service, &mut work, now);
        self.first = work.next(first);
    }

    /// Sends what waits where the round stands. Else connections where something waits are over.
    pub(crate) fn write(&mut self, stands: bool, now: Instant)
        ensures { AreAt (PlaceSends stands) self.old.places.items self.new.places.items }
    {
        for peer in self.places.iter_mut() {
            write(peer, stands, now);
        }
    }
}

fn wake(peer: &mut Option<Peer>, readable: bool, writable: bool)
    ensures { PlaceKeeps peer.old peer.new }
{
    match peer {
        Some(peer) => peer.wake(readable, writable),
        None => {}
    }
}

fn first_waiting(places: &[Option<Peer>]) -> Option<usize>
    ensures { result ≡ position waits_for_turn places.now }
{
    places.iter().position(|peer| waits_for_turn(peer))
}

fn waits_for_turn(peer: &Option<Peer>) -> bool
    ensures { result ≡ waits_for_turn peer.now }
{
    match peer {
        Some(peer) => peer.waits,
        None => false,
    }
}

fn give_turn(peer: &mut Option<Peer>)
    ensures { peer.new ≡ with_turn peer.old }
{
    match peer {
        Some(peer) => peer.give_turn(),
        None => {}
    }
}

fn is_busy(peer: &Option<Peer>) -> bool {
    match peer {
        Some(peer) => peer.is_busy(),
        None => false,
    }
}

fn sweep(peer: &mut Option<Peer>)
    ensures { PlaceBegins peer.old peer.new }
{
    let over = match peer {
        Some(peer) => peer.is_over(),
        None => false,
    };
    if over {
        *peer = None;
    }
}

fn read_all<S: RoundService>(
    places: &mut [Option<Peer>],
    service: &mut S,
    work: &mut Work,
    now: Instant,
)
    ensures { AreAnswered S.answers service.old places.old places.new service.new }
{
    for peer in places.iter_mut() {
        read_next(peer, service, work, now);
    }
}

fn read_next<S: RoundService>(
    peer: &mut Option<Peer>,
    service: &mut S,
    work: &mut Work,
    now: Instant,
)
    ensures { PlaceAnswers S.answers service.old peer.old peer.new service.new }
{
    if !work.goes_on() {
        return;
    }
    let bytes = read(peer, service, now);
    work.count(bytes, service.has_read_enough());
}

// Gives the bytes of a small request that is answered.
fn read<S: RoundService>(peer: &mut Option<Peer>, service: &mut S, now: Instant) -> usize
    ensures { PlaceAnswers S.answers service.old peer.old peer.new service.new }
{
    match peer {
        Some(peer) => peer.read(service, now),
        None => 0,
    }
}

fn write(peer: &mut Option<Peer>, stands: bool, now: Instant)
    ensures { PlaceSends stands peer.old peer.new }
{
    match peer {
        Some(peer) => peer.write(stands, now),
        None => {}
    }
}

fn is_older(since: Instant, than: Option<Instant>) -> bool {
    match than {
        Some(than) => since < than,
        None => true,
    }
}
