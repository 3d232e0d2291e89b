//! The word that the seats draw from.
ghost use Rattle.std.specs.Prelude.{◌≡◌, ◌≢◌, ◌<◌, ◌≤◌, ◌+◌, ◌^◌, false, [], ◌∷◌, All, IfOk, IfErr, replicate, vec_len};
ghost use Rattle.std.specs.Vec.{vec_capacity};
ghost use Rattle.visit_replay.specs.Limits.{AreWorkers};
ghost use Rattle.replay_workers.specs.Draws.{IsSeatOf, is_spent, EndsOnce, with_draw, AreClaimed, fresh_seat, AreOpenedClaims};
ghost use Rattle.replay_workers.specs.declared.fault.PoolFault.TheVariants.{BadWorkers, NoMemory};
ghost use Rattle.replay_workers.specs.inside.Rule.{first_of};
ghost use Rattle.replay_workers.specs.inside.Seats.{IsGathered};

use crate::fault::PoolFault;
use crate::rule::{Draw, GathersSeats, InTurn, OpensSeat};
use crate::seat::Seat;
use crate::view::{SeatView, Terms};
use atomic_table::{Seat as Pass, Table};
use std::alloc::{AllocError, Global};
use std::marker::Model;
use visit_replay::MAX_WORKERS;

/// The next number to be drawn, to be shared by reference. Contracts see which claims they are, for how many numbers, and how many seats they have.
#[derive(Drop)]
pub struct Claims {
    table: Table<(), SeatView, Terms, InTurn, Global>,
}

impl Model for Claims {
    ghost use Rattle.replay_workers.specs.Draws.{Pool};
    ghost use Rattle.replay_workers.specs.inside.Seats.{pool_of, IsClaims};

    ghost Value = { Pool };

    ghost view = { λ c. pool_of c.table.shared.table_id c.table.shared.key };

    ghost invariant = { λ c. IsClaims c.table.shared.table_id c.table.shared.key };
}

impl Claims {
    /// The claims to the numbers below the count, with a seat for each of so many workers, 1 to `MAX_WORKERS`; F1 for
    /// another number of workers, F2 where memory is refused.
    pub fn open(alloc: Global, count: u32, workers: u32) -> Result<(Claims, Vec<Seat>), PoolFault>
        ensures opened { IfOk result (λ made. AreWorkers workers × AreOpenedClaims count workers made.0 made.1.items) }
        ensures refused { IfErr result (λ fault. fault ≢ NoMemory → (fault ≡ BadWorkers) × ¬ AreWorkers workers) }
        ensures memory { IfErr result (λ fault. fault ≡ NoMemory → AreWorkers workers) }
    {
        if workers == 0 || workers > MAX_WORKERS {
            return Err(PoolFault::BadWorkers);
        }
        let count = u64::from(count);
        Ok(Claims::under(alloc, Terms { count, workers })?)
    }

    #[tactic(auto, using(crate::proofs::Steps::begins))]
    /// The claims under these terms, with a seat for each worker.
    pub(crate) fn under(alloc: Global, terms: Terms) -> Result<(Claims, Vec<Seat>), AllocError>
        requires count { terms.count < 2 ^ 63 }
        requires workers { AreWorkers terms.workers }
        ensures { IfOk result (λ made. AreOpenedClaims terms.count terms.workers made.0 made.1.items) }
    {
        let seats = Vec::with_capacity(alloc, terms.workers as usize)?;
        let (table, first) = Table::of_words(alloc, &[0], &terms)?;
        let claims = Claims { table };
        let seats = claims.split(first, &terms, seats);
        Ok((claims, seats))
    }

    // A seat for each worker. There is room for them.
    fn split(&self, first: Pass<(), SeatView>, terms: &Terms, seats: Vec<Seat>) -> Vec<Seat>
        requires terms { (self.now.count ≡ terms.now.count) × (self.now.workers ≡ terms.now.workers) }
        requires first { (first.table_id ≡ self.now.table_id) × (first.me ≡ (first_of 1, [])) }
        requires none { seats.items ≡ [] }
        requires fits { terms.now.workers ≤ vec_capacity seats }
        ensures { result.items ≡ replicate terms.now.workers (fresh_seat self.now) }
    {
        let mut first = first;
        let mut seats = seats;
        for _ in 1..terms.workers {
            let own = self.table.shared.split_seat::<OpensSeat>(&mut first);
            seats.push_reserved(Seat::of_pass(own, terms.count));
        }
        seats.push_reserved(Seat::of_pass(first, terms.count));
        seats
    }

    /// One draw of the next number: 0, 1, and so on, to whichever seat. It waits for nothing.
    pub fn draw(&self, seat: &mut Seat) -> u64
        requires of { IsSeatOf self.now seat.old }
        requires unspent { is_spent seat.old ≡ false }
        ensures seat { seat.new ≡ with_draw seat.old result }
        ensures of { IsSeatOf self.now seat.new }
        ensures above { All (λ x. x < result) seat.old.drawn }
    {
        let number = self.table.shared.fetch_add::<Draw>(&mut seat.pass, 0, 1);
        seat.spent = number >= seat.count;
        number
    }

    /// How many numbers were drawn. All seats of these claims come back, in any order.
    pub fn close(self, seats: Vec<Seat>) -> u64
        requires all { vec_len seats ≡ self.workers }
        requires of { All (IsSeatOf self) seats.items }
        ensures claimed { AreClaimed result seats.items }
        ensures few { result ≤ self.count + self.workers }
        ensures ends { All (λ seat. EndsOnce self.count seat.drawn) seats.items }
    {
        let pass = self.gather(seats);
        let Self { table } = self;
        let closed = table.close_with(pass);
        let word = closed.word(0);
        closed.free();
        word
    }

    // A pass that takes over what all of these seats drew.
    fn gather(&self, seats: Vec<Seat>) -> Pass<(), SeatView>
        requires all { vec_len seats ≡ self.now.workers }
        requires of { All (IsSeatOf self.now) seats.items }
        ensures { IsGathered self.now [] seats.items result }
    {
        let shared = &self.table.shared;
        let mut seats = seats;
        let Some(last) = seats.pop() else {
            unreachable!()
        };
        let mut all = last.into_pass();
        while let Some(seat) = seats.pop() {
            let mut pass = seat.into_pass();
            shared.join_seat::<GathersSeats>(&mut pass, all);
            all = pass;
        }
        all
    }
}
