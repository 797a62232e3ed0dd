// Laws of books.
ghost use Rattle.std.specs.Prelude.{◌≡◌, ◌≢◌, ℕ, ℤ, pos, ◌≤ℤ◌, ◌<◌, [], None, Some, Option, Result, false, true, List, IsTrue, length};
ghost use Rattle.assign_core.specs.Hall.{HallLists, IsHallSet};
ghost use Rattle.assign_core.specs.Matching.{owner_of};
ghost use Rattle.assign_core.specs.Numbered.{IsNumber, numbered};
ghost use Rattle.assign_core.specs.Prices.{IsBelow};
ghost use Rattle.assign_core.specs.Reach.{IsBlocked, IsPath};
ghost use Rattle.bidder.specs.declared.offers.BelowFloor.{BelowFloor};
ghost use Rattle.bidder.specs.declared.offers.Bid.{Bid};
ghost use Rattle.bidder.specs.declared.offers.Offer.{Offer};
ghost use Rattle.bidder.specs.Offers.{IsBid, IsSound, IsUnder, benefits_at};
ghost use Rattle.price_log.specs.History.{IsEarlier};
ghost use Rattle.auction_book.specs.declared.answers.Accepted.{Accepted};
ghost use Rattle.auction_book.specs.declared.answers.Claim.{Claim};
ghost use Rattle.auction_book.specs.declared.answers.Note.{Note};
ghost use Rattle.auction_book.specs.declared.answers.Refused.{Refused};
ghost use Rattle.auction_book.specs.Book.{BookData, Holds, persons_of, phase_accepted, phase_bound, prices_of};
ghost use Rattle.auction_book.specs.Claims.{after_claim};
ghost use Rattle.auction_book.specs.Phases.{is_over};
ghost use Rattle.auction_book.specs.Changes.{accepted, caught_up, claimed, given_up, phased, released, recorded};
ghost use Rattle.auction_book.specs.Session.{EndsClaim, IsNoted, IsPrepared, IsUndone};
ghost use Rattle.auction_book.specs.Submissions.{IsFitting, IsHigh, IsRecorded, IsSubmitted};
ghost use Rattle.auction_book.specs.Follows.{Follows, GoesOn};
ghost use Rattle.auction_book.specs.Free.{IsFree};

/// Each change of a book by a worker keeps what other workers rely on: no price falls, the log
/// continues, and other workers' counts, claims and what is asked of their claimed persons stay.
/// Changes of one worker can be combined.
pub fn changes_follow()
    ensures itself { (b : BookData) (worker : ℕ) → Follows worker b b }
    ensures through { (first second third : BookData) (worker : ℕ) → Follows worker first second
        → Follows worker second third → Follows worker first third }
    ensures claimed { (b : BookData) (worker : ℕ) → Follows worker b (claimed b worker) }
    ensures accepted { (b : BookData) (worker : ℕ) (bid : Bid) (q : List ℤ) → IsFree b → IsBelow q (prices_of b)
        → IsSound b.base b.ask q bid → IsHigh b bid
        → Follows worker b (accepted b worker bid) }
    ensures released { (b : BookData) (worker person : ℕ) → Follows worker b (released b worker person) }
    ensures given_up { (b : BookData) (worker : ℕ)
        → Follows worker b (given_up b worker (numbered b.claims worker None)) }
    ensures recorded { (b : BookData) (worker person : ℕ) (lists : HallLists)
        → Follows worker b (recorded b worker person lists) }
    ensures caught_up { (b : BookData) (worker : ℕ) → IsFree b → Follows worker b (caught_up b worker) }
    ensures phased { (b : BookData) (worker : ℕ) → IsFree b → is_over b ≡ true → Follows worker b (phased b) }
    ensures stopped { (b : BookData) (worker : ℕ) → Follows worker b (record b { stopped = true }) }
    ensures resumed { (b : BookData) (worker : ℕ) → Follows worker b (record b { stopped = false }) }
{}

/// The change by a submitted bid, a recorded Hall set or a claim follows, whatever the answer.
/// After a submitted offer its worker has no claim, whatever the answer. If a book goes on, a
/// worker's table that was below the old prices, and the log's at its version as far back as the
/// log reached, is so for the new book.
pub fn submissions_follow()
    ensures submitted { (b new : BookData) (worker : ℕ) (bid : Bid) (answer : Result Accepted Refused) → IsFree b
        → IsFitting b bid → IsSubmitted b worker bid answer new → Follows worker b new }
    ensures recorded { (b new : BookData) (worker : ℕ) (below : BelowFloor) (lists : HallLists)
        (answer : Result (Unit {0}) Refused) → IsRecorded b worker below lists answer new → Follows worker b new }
    ensures answered { (b : BookData) (worker : ℕ) (answer : Claim) → Follows worker b (after_claim b worker answer) }
    ensures noted { (b new : BookData) (worker version : ℕ) (table : List ℤ) (offer : Option Offer) (told : Note)
        → IsFree b → IsBelow table (prices_of b) → IsPrepared b worker table version offer
        → IsNoted b worker offer new told → EndsClaim worker b new }
    ensures undone { (b new : BookData) (worker version : ℕ) (table : List ℤ) (offer : Option Offer) (told : Note)
        → IsFree b → IsBelow table (prices_of b) → IsPrepared b worker table version offer
        → IsUndone b worker offer new told → EndsClaim worker b new }
    ensures tables { (b new : BookData) (table : List ℤ) (version : ℕ) → IsFree b → GoesOn b new
        → IsBelow table (prices_of b) → IsEarlier b.log table version
        → IsBelow table (prices_of new) × IsEarlier new.log table version }
{}

/// A claimed person is one of the problem, and owns nothing.
pub fn claimed_persons_own_nothing()
    ensures person { (b : BookData) (worker person : ℕ) → IsFree b → Holds b worker person
        → IsNumber (persons_of b) person }
    ensures unowned { (b : BookData) (worker person object : ℕ) → IsFree b → Holds b worker person
        → owner_of b.owners object ≡ Some person → ⊥ }
{}

/// A bid made from the current prices and phase is never too low.
pub fn fresh_bids_are_high()
    ensures { (b : BookData) (bid : Bid) → IsBid b.base (prices_of b) b.ask bid → IsHigh b bid }
{}

/// The floor is exact: if a person lists nothing, or all its listed objects have values below the
/// book's floor under a table below the book's, each object that its alternating walks reach is
/// owned. So no path to an unowned object is ever found (Bertsekas, Network Optimization, 1998,
/// section 7.1.5).
pub fn floor_is_exact()
    ensures blocked { (b : BookData) (q : List ℤ) (i : ℕ) → IsFree b → IsBelow q (prices_of b)
        → IsUnder (benefits_at b.base i) q b.ask.floor → IsBlocked b.base.problem b.owners i }
    ensures no_path { (b : BookData) (q : List ℤ) (i : ℕ) (js : List ℕ) → IsFree b → IsBelow q (prices_of b)
        → IsUnder (benefits_at b.base i) q b.ask.floor → IsPath b.base.problem b.owners i js → ⊥ }
{}

/// A phase accepts at most as many bids as there are steps of eps under its top.
pub fn phase_is_bounded()
    ensures { (b : BookData) → IsFree b → pos (phase_accepted b) ≤ℤ phase_bound b }
{}
