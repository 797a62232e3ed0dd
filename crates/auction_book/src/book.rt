// The book.
ghost use Rattle.std.specs.Prelude.{◌≡◌, ◌↔◌, ◌<◌, IsTrue, length};
ghost use Rattle.std.specs.Arc.{arc_value};
ghost use Rattle.std.specs.VecDeque.{deque_capacity};
ghost use Rattle.assign_core.specs.Numbered.{IsNumber};
ghost use Rattle.auction_book.specs.Book.{Holds};
ghost use Rattle.auction_book.specs.Changes.{released, requeued};
ghost use Rattle.auction_book.specs.Phases.{is_assigned, is_done};
ghost use Rattle.auction_book.specs.Free.{IsFree};

mod answering;
mod catching_up;
mod claiming;
mod listing;
mod opening;
mod phases;
mod reading;
mod submitting;

use assign_core::{HallSet, Person, Prices};
use bidder::Ask;
use candidates::CandidateLists;
use price_log::PriceLog;
use scaled_values::Scaled;
use std::collections::VecDeque;
use std::marker::Model;
use std::sync::Arc;

/// The shared state of a running auction: who owns each object, who waits, which person each worker
/// claimed, and the prices with their log.
///
/// Workers are numbered from 1. A contract sees plain data, and `IsFree` holds of it between any
/// two calls.
#[derive(Drop)]
pub struct Book {
    // The problem with its benefits.
    scaled: Arc<Scaled>,
    // What the phase asks of a bid.
    ask: Ask,
    // The prices at the phase's start, and their version.
    start: Prices,
    start_version: u128,
    // Who owns each object.
    owners: Vec<Option<Person>>,
    // The persons who wait, the next one at the front.
    queue: VecDeque<Person>,
    // For each worker the person that it claimed, how many of its bids were accepted, and the
    // version that it last took.
    claims: Vec<Option<Person>>,
    counts: Vec<u128>,
    taken: Vec<u128>,
    // The current prices, and their raises.
    log: PriceLog,
    // The candidates of persons that no worker has taken.
    lists: CandidateLists,
    // The last recorded Hall set.
    refuted: Option<HallSet>,
    // Whether workers shall end.
    stopped: bool,
    // The number of owned objects, and the number of workers.
    owned: u16,
    workers: u16,
}

impl Model for Book {
    ghost use Rattle.auction_book.specs.Book.{BookData};

    ghost Value = { BookData };

    ghost use Rattle.auction_book.specs.Stored.{IsKept, book_of};

    ghost view = { book_of };

    ghost invariant = { IsKept };
}

// Puts the person, if there is one, at the back of the queue.
fn requeue(queue: &mut VecDeque<Person>, person: Option<Person>)
    requires { length queue.old.items < deque_capacity queue.old }
    ensures queue { queue.new.items ≡ requeued queue.old.items person }
    ensures capacity { deque_capacity queue.new ≡ deque_capacity queue.old }
{
    if let Some(person) = person {
        queue.push_back_reserved(person);
    }
}

impl Book {
    // Whether the worker holds the person's claim.
    fn holds(&self, worker: u16, person: Person) -> bool
        requires { IsNumber (length self.now.claims) worker }
        ensures holds { IsTrue result ↔ Holds self.now worker person }
    {
        match self.claims[worker as usize - 1] {
            Some(held) => held == person,
            None => false,
        }
    }

    // Ends the worker's claim; its person waits again.
    fn release(&mut self, worker: u16, person: Person)
        requires worker { IsNumber (length self.old.claims) worker }
        requires held { Holds self.old worker person }
        ensures book { self.new ≡ released self.old worker person }
        ensures free { IsFree self.new }
    {
        requeue(&mut self.queue, Some(person));
        self.claims[worker as usize - 1] = None;
    }

    // Whether everybody is assigned.
    fn is_assigned(&self) -> bool
        ensures { result ≡ is_assigned self.now }
    {
        self.owned == self.scaled.n()
    }

    /// Whether everybody is assigned in the last phase.
    pub fn is_done(&self) -> bool
        ensures done { result ≡ is_done self.now }
    {
        self.is_assigned() && self.ask.eps == 1
    }
}
