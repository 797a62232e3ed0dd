// The candidates of persons.
ghost use Rattle.std.specs.Prelude.{◌≡◌, ◌<◌, ℤ, List, IfSome};
ghost use Rattle.assign_core.specs.Prices.{IsBelow};
ghost use Rattle.bidder.specs.Offers.{benefits_at};
ghost use Rattle.candidates.specs.Candidates.{AreCandidates};
ghost use Rattle.auction_book.specs.Book.{prices_of};
ghost use Rattle.auction_book.specs.Free.{IsFree};

use super::Book;
use assign_core::Person;
use candidates::{CandidateLists, Candidates};
use std::alloc::Global;

impl Book {
    /// Makes lists of candidates for the persons: as many as memory allows. They spare scans of
    /// rows, and change no offer.
    pub fn keep_lists(&mut self, alloc: Global)
        ensures book { self.new ≡ self.old }
        ensures free { IsFree self.new }
    {
        self.lists = CandidateLists::new(alloc, &self.scaled);
    }

    /// Whether the book has room for any lists.
    pub fn has_lists(&self) -> bool {
        self.lists.has_room()
    }

    /// Takes a person's candidates at the book's prices, if they are here.
    pub fn take_list(&mut self, person: Person) -> Option<Candidates>
        requires { 0 < person }
        ensures book { self.new ≡ self.old }
        ensures list { IfSome result (AreCandidates (benefits_at self.old.base person) (prices_of self.old)) }
        ensures free { IsFree self.new }
    {
        self.lists.take(person)
    }

    /// Puts a person's candidates back, which may be those at lower prices: no price falls.
    pub fn put_list(&mut self, person: Person, list: Candidates)
        requires person { 0 < person }
        requires list { (q : List ℤ) × IsBelow q (prices_of self.old)
            × AreCandidates (benefits_at self.old.base person) q list }
        ensures book { self.new ≡ self.old }
        ensures free { IsFree self.new }
    {
        self.lists.put(person, list);
    }
}
