// The steps of a worker's session with the book.
ghost use Rattle.std.specs.Prelude.{◌≡◌, ℕ, ℤ, List, None, Some, OnErr, OnOk, length, true};
ghost use Rattle.assign_core.specs.Numbered.{IsNumber, numbered};
ghost use Rattle.assign_core.specs.Prices.{IsBelow};
ghost use Rattle.scaled_values.specs.Scaled.{ScaledProblem};
ghost use Rattle.bidder.specs.Offers.{IsUnder, benefits_at};
ghost use Rattle.bidder.specs.declared.offers.Offer.TheVariants as made;
ghost use Rattle.price_log.specs.History.{IsEarlier};
ghost use Rattle.auction_book.specs.Book.{Holds, prices_of};
ghost use Rattle.auction_book.specs.Claims.{IsAsked};
ghost use Rattle.auction_book.specs.Free.{IsFree};
ghost use Rattle.auction_book.specs.Phases.{is_over};
ghost use Rattle.auction_book.specs.Submissions.{IsFitting};
ghost use Rattle.auction_book.specs.Session.{EndsClaim, IsHandedIn, IsPrepared, IsReachRecorded, book_kept_up, next_if_over, prepared, table_kept_up, version_kept_up};

use super::answers::{Claim, Note, Refused, Submission};
use super::book::Book;
use assign_core::Prices;
use bidder::{BelowFloor, Bid, Offer, make_bid};
use hall_refuter::{Search, refute};
use scaled_values::Scaled;
use std::alloc::{AllocError, Global};

// Searches for what blocks a person whose offer is below the floor, and records it: always a Hall
// set, since the floor is exact. The claim ends. If memory is refused, nothing changes.
fn record_below(
    alloc: Global,
    book: &mut Book,
    worker: u16,
    below: BelowFloor,
) -> Result<(), AllocError>
    requires worker { IsNumber (length book.old.claims) worker }
    requires held { Holds book.old worker below.person }
    requires phase { below.phase ≡ book.old.ask.phase }
    requires under { (q : List ℤ) × IsBelow q (prices_of book.old)
        × IsUnder (benefits_at book.old.base below.person) q book.old.ask.floor }
    ensures ok { OnOk result (IsReachRecorded book.old worker below.person book.new) }
    ensures err { OnErr result (book.new ≡ book.old) }
    ensures free { IsFree book.new }
{
    book.invariant();
    let person = below.person;
    match refute(alloc, book.scaled(), book.owners(), person)? {
        Search::Hall(hall) => {
            let _ = book.below(worker, below, hall);
            Ok(())
        }
        Search::Path(_) => unreachable!(),
    }
}

// Submits a bid.
fn submit_bid(book: &mut Book, worker: u16, bid: Bid) -> Submission
    requires worker { IsNumber (length book.old.claims) worker }
    requires fitting { IsFitting book.old bid }
    ensures handed_in { IsHandedIn book.old worker (Some (made.Bid bid)) book.new result.note result.outcome }
    ensures free { IsFree book.new }
{
    match book.submit(worker, bid) {
        Ok(_) => Submission {
            note: Note::Accepted,
            outcome: Ok(()),
        },
        Err(refused) => Submission {
            note: Note::Refused(refused),
            outcome: match refused {
                Refused::Memory => Err(AllocError),
                _ => Ok(()),
            },
        },
    }
}

// Records the Hall set for a person below the floor. If memory is refused, the claim is given up.
fn submit_below(alloc: Global, book: &mut Book, worker: u16, below: BelowFloor) -> Submission
    requires worker { IsNumber (length book.old.claims) worker }
    requires held { Holds book.old worker below.person }
    requires phase { below.phase ≡ book.old.ask.phase }
    requires under { (q : List ℤ) × IsBelow q (prices_of book.old)
        × IsUnder (benefits_at book.old.base below.person) q book.old.ask.floor }
    ensures handed_in { IsHandedIn book.old worker (Some (made.Below below)) book.new result.note result.outcome }
    ensures free { IsFree book.new }
{
    let outcome = record_below(alloc, book, worker, below);
    if outcome.is_err() {
        book.give_up(worker);
    }
    Submission {
        note: Note::Nothing,
        outcome,
    }
}

/// Submits a worker's prepared offer, if it has one: a bid is accepted or refused, and for a person
/// below the floor a Hall set is recorded. The worker then has no claim, whatever the result.
///
/// The outcome is an error if memory is refused: the bid is then refused, or, after a search, only
/// the claim is given up and the person waits again.
pub fn submit_offer(alloc: Global, book: &mut Book, worker: u16, offer: Option<Offer>) -> Submission
    requires worker { IsNumber (length book.old.claims) worker }
    requires prepared { (table : List ℤ) × (version : ℕ) × IsBelow table (prices_of book.old)
        × IsPrepared book.old worker table version offer }
    ensures handed_in { IsHandedIn book.old worker offer book.new result.note result.outcome }
    ensures ends { EndsClaim worker book.old book.new }
    ensures free { IsFree book.new }
{
    book.invariant();
    match offer {
        None => Submission {
            note: Note::Nothing,
            outcome: Ok(()),
        },
        Some(Offer::Bid(bid)) => submit_bid(book, worker, bid),
        Some(Offer::Below(below)) => submit_below(alloc, book, worker, below),
    }
}

// Makes a worker's table current if `catch_up` is true.
pub(super) fn take_prices(
    book: &mut Book,
    worker: u16,
    table: &mut Prices,
    version: &mut u128,
    catch_up: bool,
)
    requires worker { IsNumber (length book.old.claims) worker }
    requires earlier { IsEarlier book.old.log table.old version.old }
    ensures book { book.new ≡ book_kept_up catch_up book.old worker }
    ensures table { table.new ≡ table_kept_up catch_up book.old table.old }
    ensures version { version.new ≡ version_kept_up catch_up book.old version.old }
    ensures free { IsFree book.new }
{
    book.invariant();
    if catch_up {
        book.catch_up(worker, table, version);
    }
}

/// Begins the next phase if this one is over.
///
/// # Errors
/// `AllocError` if the phase is over and memory is refused. The book is then unchanged.
pub fn begin_next_if_over(alloc: Global, book: &mut Book) -> Result<(), AllocError>
    ensures ok { OnOk result (book.new ≡ next_if_over book.old) }
    ensures err { OnErr result ((book.new ≡ book.old) × (is_over book.old ≡ true)) }
    ensures free { IsFree book.new }
{
    book.invariant();
    if book.phase_over() {
        book.next_phase(alloc)?;
    }
    Ok(())
}

/// The offer of a claimed person, from the worker's own table. It doesn't need the book.
pub fn prepare(scaled: &Scaled, table: &Prices, version: u128, claim: Claim) -> Option<Offer>
    requires table { length table.now ≡ length scaled.now.problem }
    requires asked { IsAsked scaled.now claim }
    ensures { result ≡ prepared scaled.now table.now version claim }
{
    match claim {
        Claim::Person(person, ask) => Some(make_bid(scaled, table, version, ask, person)),
        _ => None,
    }
}
