// Claims, and how they end without a bid.
ghost use Rattle.std.specs.Prelude.{◌≡◌, ℕ, List, [], ◌∷◌, None, false, not, true, IfNone, IfSome, length, is_some};
ghost use Rattle.assign_core.specs.Numbered.{IsNumber, numbered};
ghost use Rattle.auction_book.specs.Changes.{claimed, given_up};
ghost use Rattle.auction_book.specs.Claims.{IsAsked, IsHeld, after_claim, claim_of, is_wait};
ghost use Rattle.auction_book.specs.Free.{IsFree};

use super::super::answers::Claim;
use super::Book;
use assign_core::Person;

impl Book {
    fn is_refuted(&self) -> bool
        ensures refuted { result ≡ is_some self.now.refuted }
    {
        self.refuted.is_some()
    }

    // Claims the front of the queue, if somebody waits.
    fn claim_first(&mut self, worker: u16) -> Option<Person>
        requires worker { IsNumber (length self.old.claims) worker }
        requires none { numbered self.old.claims worker None ≡ None }
        ensures some { IfSome result (λ person. (rest : List ℕ) × (self.old.queue ≡ person ∷ rest)
            × (self.new ≡ claimed self.old worker)) }
        ensures none { IfNone result ((self.old.queue ≡ []) × (self.new ≡ self.old)) }
        ensures free { IsFree self.new }
    {
        let person = self.queue.pop_front()?;
        self.claims[worker as usize - 1] = Some(person);
        Some(person)
    }

    /// The answer to a worker without a claim that asks for a person: the first of `Refuted`,
    /// `Done`, `Stopped`, `Person` and `Wait` that applies. Only `Person` changes the book. It
    /// takes no memory.
    pub fn claim(&mut self, worker: u16) -> Claim
        requires worker { IsNumber (length self.old.claims) worker }
        requires none { numbered self.old.claims worker None ≡ None }
        ensures answer { result ≡ claim_of self.old }
        ensures asked { IsAsked self.old.base result }
        ensures held { IsHeld self.new worker result }
        ensures book { self.new ≡ after_claim self.old worker result }
        ensures free { IsFree self.new }
    {
        self.invariant();
        if self.is_refuted() {
            return Claim::Refuted;
        }
        if self.is_done() {
            return Claim::Done;
        }
        if self.stopped() {
            return Claim::Stopped;
        }
        let ask = self.ask();
        match self.claim_first(worker) {
            Some(person) => Claim::Person(person, ask),
            None => Claim::Wait,
        }
    }

    /// Whether a claim would be answered by anything but `Wait`.
    pub fn has_work(&self) -> bool
        ensures { result ≡ not (is_wait (claim_of self.now)) }
    {
        if self.is_refuted() {
            return true;
        }
        if self.is_done() {
            return true;
        }
        if self.stopped() {
            return true;
        }
        !self.queue.is_empty()
    }

    /// Ends a worker's claim, if it has one; its person waits at the back of the queue. It takes no
    /// memory.
    pub fn give_up(&mut self, worker: u16)
        requires { IsNumber (length self.old.claims) worker }
        ensures book { self.new ≡ given_up self.old worker (numbered self.old.claims worker None) }
        ensures free { IsFree self.new }
    {
        self.invariant();
        if let Some(person) = self.claimed_by(worker) {
            self.release(worker, person);
        }
    }

    /// Lets no person be claimed, until `resume`.
    pub fn stop(&mut self)
        ensures book { self.new ≡ record self.old { stopped = true } }
        ensures free { IsFree self.new }
    {
        self.stopped = true;
    }

    /// Lets persons be claimed again after a stop.
    pub fn resume(&mut self)
        ensures book { self.new ≡ record self.old { stopped = false } }
        ensures free { IsFree self.new }
    {
        self.stopped = false;
    }
}
