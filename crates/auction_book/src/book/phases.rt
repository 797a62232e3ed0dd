// Phases.
ghost use Rattle.std.specs.Prelude.{◌≡◌, pos, ◌-ℤ◌, ◌≤ℤ◌, ◌<ℤ◌, ◌≤◌, None, true, length, replicate, int_div, All, OnOk, OnErr};
ghost use Rattle.auction_book.specs.Book.{phase_accepted, phase_bound, prices_of, room_under};
ghost use Rattle.auction_book.specs.Changes.{phased};
ghost use Rattle.auction_book.specs.Phases.{is_over};
ghost use Rattle.auction_book.specs.Free.{IsFree};

use super::Book;
use super::opening::{greatest, queue_all};
use assign_core::{MOST_PERSONS, PRICE_END, Person, Price, Prices};
use bidder::Ask;
use scaled_values::next_eps;
use std::alloc::{AllocError, Global};

// Takes all objects from their owners.
fn free_all(owners: &mut [Option<Person>])
    ensures { owners.new ≡ replicate (length owners.old) None }
{
    owners.fill(None);
}

// The amount by which a price is below the top.
fn gap(top: Price, price: Price) -> u128
    requires least { pos 0 ≤ℤ price }
    requires under { price ≤ℤ top }
    requires top { top <ℤ PRICE_END }
    ensures value { pos result ≡ top -ℤ price }
    ensures few { pos result <ℤ PRICE_END }
{
    (top - price) as u128
}

// The sum of the amounts by which the prices are below the top.
fn room_under(top: Price, prices: &[Price]) -> u128
    requires few { length prices.now ≤ MOST_PERSONS }
    requires top { top <ℤ PRICE_END }
    requires least { All (λ p. pos 0 ≤ℤ p) prices.now }
    requires under { All (λ p. p ≤ℤ top) prices.now }
    ensures { pos result ≡ room_under top prices.now }
{
    let mut room = 0;
    for price in prices {
        room += gap(top, *price);
    }
    room
}

// The number of steps of eps in some room.
fn steps_in(room: u128, eps: i64) -> u128
    requires { pos 1 ≤ℤ eps }
    ensures { pos result ≡ int_div (pos room) eps }
{
    room / eps as u128
}

impl Book {
    /// Whether everybody is assigned and another phase follows.
    pub fn phase_over(&self) -> bool
        ensures over { result ≡ is_over self.now }
    {
        self.is_assigned() && self.ask.eps != 1
    }

    // Begins the next phase at the current prices.
    fn begin_phase(&mut self, start: Prices)
        requires over { is_over self.old ≡ true }
        requires start { start ≡ prices_of self.old }
        ensures book { self.new ≡ phased self.old }
        ensures free { IsFree self.new }
    {
        let eps = next_eps(self.ask.eps).unwrap_or(1);
        let p0 = greatest(start.as_slice());
        let floor = self.scaled.floor(p0, eps);
        let n = self.scaled.n();
        self.start_version = self.log.version();
        self.start = start;
        self.ask = Ask {
            phase: self.ask.phase + 1,
            eps,
            floor,
        };
        free_all(self.owners.as_mut_slice());
        self.owned = 0;
        queue_all(&mut self.queue, n);
    }

    /// Begins the next phase if this one is over: nobody is assigned, all persons wait, and each
    /// price stays (epsilon-scaling; Bertsekas, Network Optimization, 1998, section 7.1.4). The
    /// time is linear in n.
    ///
    /// # Errors
    /// `AllocError` if memory is refused. The book is then unchanged.
    pub fn next_phase(&mut self, alloc: Global) -> Result<(), AllocError>
        requires { is_over self.old ≡ true }
        ensures ok { OnOk result (self.new ≡ phased self.old) }
        ensures err { OnErr result (self.new ≡ self.old) }
        ensures free { IsFree self.new }
    {
        let start = self.log.prices().copy(alloc)?;
        self.begin_phase(start);
        Ok(())
    }

    /// An upper bound on the bids that this phase accepts: each raises a price by eps or more, and
    /// none goes above the phase's top. The time is linear in n.
    pub fn phase_bound(&self) -> u128
        ensures bound { pos result ≡ phase_bound self.now }
    {
        let start = self.start.as_slice();
        let top = self.scaled.top(greatest(start), self.ask.eps);
        steps_in(room_under(top, start), self.ask.eps)
    }

    /// The number of bids accepted in this phase.
    pub fn phase_accepted(&self) -> u128
        ensures { result ≡ phase_accepted self.now }
    {
        self.log.version() - self.start_version
    }
}
