// The content of a book.
ghost use Rattle.std.specs.Prelude.{◌≡◌, None, Some, MatchOption, count_by, length, is_some};
ghost use Rattle.std.specs.Arc.{arc_value};
ghost use Rattle.assign_core.specs.Numbered.{IsNumber, numbered};
ghost use Rattle.auction_book.specs.Book.{prices_of, version_of};
ghost use Rattle.auction_book.specs.Free.{IsFree};

use super::Book;
use assign_core::{HallSet, Person, Prices};
use bidder::Ask;
use scaled_values::Scaled;
use std::collections::VecDeque;
use std::sync::Arc;

impl Book {
    /// States the fact that the book is free, as it is between any two calls, for a caller's proof.
    /// It does nothing else.
    pub fn invariant(&self)
        ensures { IsFree self.now }
    {
        // This use of a field opens the model.
        let _opened = &self.claims;
    }

    /// The problem with its benefits.
    pub fn scaled(&self) -> &Arc<Scaled>
        ensures scaled { arc_value result.now ≡ self.now.base }
    {
        &self.scaled
    }

    /// The number of workers.
    pub fn workers(&self) -> u16
        ensures workers { result ≡ length self.now.claims }
    {
        self.workers
    }

    /// The current prices.
    pub fn prices(&self) -> &Prices
        ensures prices { result.now ≡ prices_of self.now }
    {
        self.log.prices()
    }

    /// The number of bids accepted since the opening, which is the version of the prices.
    pub fn version(&self) -> u128
        ensures version { result ≡ version_of self.now }
    {
        self.log.version()
    }

    /// The first version of the prices that the book still reaches.
    pub fn first_kept(&self) -> u128
        ensures { result ≡ self.now.log.first_kept }
    {
        self.log.first_kept()
    }

    /// The prices at the phase's start.
    pub fn start(&self) -> &Prices
        ensures { result.now ≡ self.now.start }
    {
        &self.start
    }

    /// The version that each worker last took.
    pub fn taken(&self) -> &[u128]
        ensures { result.now ≡ self.now.taken }
    {
        self.taken.as_slice()
    }

    /// The persons who wait, the next one at the front.
    pub fn waiting(&self) -> &VecDeque<Person>
        ensures { result.now.items ≡ self.now.queue }
    {
        &self.queue
    }

    /// Who owns objects 1, 2, ..
    pub fn owners(&self) -> &[Option<Person>]
        ensures owners { result.now ≡ self.now.owners }
    {
        self.owners.as_slice()
    }

    /// The number of persons who own an object.
    pub fn assigned(&self) -> u16
        ensures { result ≡ count_by is_some self.now.owners }
    {
        self.owned
    }

    /// What the phase asks of a bid.
    pub fn ask(&self) -> Ask
        ensures { result ≡ self.now.ask }
    {
        self.ask
    }

    /// The number of bids of a worker accepted since the opening.
    pub fn accepted_by(&self, worker: u16) -> u128
        requires { IsNumber (length self.now.claims) worker }
        ensures { result ≡ numbered self.now.counts worker 0 }
    {
        // There are as many counts as claims.
        self.invariant();
        self.counts[worker as usize - 1]
    }

    /// The person that a worker has claimed.
    pub fn claimed_by(&self, worker: u16) -> Option<Person>
        requires { IsNumber (length self.now.claims) worker }
        ensures claim { result ≡ numbered self.now.claims worker None }
    {
        self.claims[worker as usize - 1]
    }

    /// The recorded Hall set, if there is one; no assignment exists then.
    pub fn refuted(&self) -> Option<&HallSet>
        ensures { MatchOption result (self.now.refuted ≡ None) (λ hall. self.now.refuted ≡ Some hall.now) }
    {
        self.refuted.as_ref()
    }

    /// Whether the auction was stopped.
    pub fn stopped(&self) -> bool
        ensures { result ≡ self.now.stopped }
    {
        self.stopped
    }
}
