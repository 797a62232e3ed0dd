// Bids, and notices below the floor.
ghost use Rattle.std.specs.Prelude.{◌≡◌, ◌+◌, ◌+ℤ◌, ◌≤ℤ◌, ◌<ℤ◌, ℤ, List, None, cond, length, MatchBool, IfOk, OnErr, is_some};
ghost use Rattle.assign_core.specs.Hall.{IsHallSet};
ghost use Rattle.assign_core.specs.Matching.{owner_of};
ghost use Rattle.assign_core.specs.Numbered.{IsNumber};
ghost use Rattle.assign_core.specs.Prices.{IsBelow, IsPrice, price_of};
ghost use Rattle.bidder.specs.Offers.{IsSound};
ghost use Rattle.auction_book.specs.Book.{Holds, prices_of};
ghost use Rattle.auction_book.specs.Changes.{accepted, with_set};
ghost use Rattle.auction_book.specs.Free.{IsFree};
ghost use Rattle.auction_book.specs.Submissions.{IsFitting, IsHigh, IsRecorded, IsSubmitted};

use super::super::answers::{Accepted, Refused};
use super::{Book, requeue};
use assign_core::{HallSet, Object, Person, Price};
use bidder::{BelowFloor, Bid};
use std::alloc::AllocError;

// Whether the level is less than eps above the price.
fn is_low(level: Price, price: Price, eps: i64) -> bool
    requires { IsPrice price }
    ensures { MatchBool result (level <ℤ (price +ℤ eps)) ((price +ℤ eps) ≤ℤ level) }
{
    level < price + Price::from(eps)
}

// 1 for an object that nobody owned.
fn newly_owned(owner: &Option<Person>) -> u16
    ensures { result + cond (is_some owner.now) 1 0 ≡ 1 }
{
    if owner.is_some() { 0 } else { 1 }
}

impl Book {
    fn price(&self, object: Object) -> Price
        requires { IsNumber (length (prices_of self.now)) object }
        ensures price { result ≡ price_of (prices_of self.now) object }
        ensures range { IsPrice result }
    {
        self.log.price(object)
    }

    // The bidder gets the object at the bid's level. The previous owner is returned, and waits
    // again.
    fn accept(&mut self, worker: u16, bid: Bid) -> Result<Option<Person>, AllocError>
        requires worker { IsNumber (length self.old.claims) worker }
        requires held { Holds self.old worker bid.person }
        requires object { IsNumber (length self.old.owners) bid.object }
        requires high { IsHigh self.old bid }
        requires sound { (q : List ℤ) × IsBelow q (prices_of self.old)
            × IsSound self.old.base self.old.ask q bid }
        ensures ok { IfOk result (λ evicted. (evicted ≡ owner_of self.old.owners bid.object)
            × (self.new ≡ accepted self.old worker bid)) }
        ensures err { OnErr result (self.new ≡ self.old) }
        ensures free { IsFree self.new }
    {
        let Bid {
            person,
            object,
            level,
            ..
        } = bid;
        self.log.raise(object, level)?;
        let place = object.place();
        let evicted = self.owners[place];
        self.owned += newly_owned(&evicted);
        self.owners[place] = Some(person);
        requeue(&mut self.queue, evicted);
        self.claims[worker as usize - 1] = None;
        self.counts[worker as usize - 1] += 1;
        Ok(evicted)
    }

    /// A worker submits the bid of a person that it claimed. The bid is refused unless the worker
    /// holds the person's claim, the bid names this phase, and its level is above the object's
    /// price by eps or more. After an accepted bid the price is the level, the person owns the
    /// object, and the previous owner waits at the back of the queue. A bid may be made from an old
    /// table (Bertsekas and Castanon, Parallel synchronous and asynchronous implementations of the
    /// auction algorithm, 1991).
    ///
    /// The claim ends, even if the bid is refused; only `NotClaimed` changes nothing. The person of
    /// a refused bid waits at the back of the queue, and nothing else changes. The cost is O(1)
    /// amortized.
    ///
    /// # Errors
    /// The first of `NotClaimed`, `WrongPhase`, `TooLow` and `Memory` that applies.
    pub fn submit(&mut self, worker: u16, bid: Bid) -> Result<Accepted, Refused>
        requires worker { IsNumber (length self.old.claims) worker }
        requires fitting { IsFitting self.old bid }
        ensures submitted { IsSubmitted self.old worker bid result self.new }
        ensures free { IsFree self.new }
    {
        self.invariant();
        let ask = self.ask();
        let person = bid.person;
        if !self.holds(worker, person) {
            return Err(Refused::NotClaimed);
        }
        if bid.phase != ask.phase {
            self.release(worker, person);
            return Err(Refused::WrongPhase);
        }
        let price = self.price(bid.object);
        if is_low(bid.level, price, ask.eps) {
            self.release(worker, person);
            return Err(Refused::TooLow(price));
        }
        match self.accept(worker, bid) {
            Ok(evicted) => Ok(Accepted { evicted }),
            Err(_) => {
                self.release(worker, person);
                Err(Refused::Memory)
            }
        }
    }

    fn set_refuted(&mut self, hall: HallSet)
        requires { IsHallSet self.old.base.problem hall.persons hall.objects }
        ensures set { self.new ≡ with_set self.old hall }
        ensures free { IsFree self.new }
    {
        self.refuted = Some(hall);
    }

    /// A worker records a Hall set of the problem, because no object that its person lists has a
    /// value of at least the floor. The claim ends, and the person waits at the back of the queue.
    /// An earlier recorded Hall set is replaced. It takes no memory.
    ///
    /// # Errors
    /// `NotClaimed`, which changes nothing; else `WrongPhase`, which ends the claim and puts the
    /// person at the back of the queue.
    pub fn below(&mut self, worker: u16, below: BelowFloor, hall: HallSet) -> Result<(), Refused>
        requires worker { IsNumber (length self.old.claims) worker }
        requires hall { IsHallSet self.old.base.problem hall.persons hall.objects }
        ensures recorded { IsRecorded self.old worker below hall result self.new }
        ensures free { IsFree self.new }
    {
        self.invariant();
        let person = below.person;
        if !self.holds(worker, person) {
            return Err(Refused::NotClaimed);
        }
        if below.phase != self.ask().phase {
            self.release(worker, person);
            return Err(Refused::WrongPhase);
        }
        self.release(worker, person);
        self.set_refuted(hall);
        Ok(())
    }
}
