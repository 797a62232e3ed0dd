// A session with the book in hand.
ghost use Rattle.std.specs.Prelude.{◌≡◌, None, false, true, length, IfOk, OnErr};
ghost use Rattle.assign_core.specs.Numbered.{IsNumber, numbered};
ghost use Rattle.auction_book.specs.declared.answers.Claim.{Claim};
ghost use Rattle.auction_book.specs.Book.{BookData};
ghost use Rattle.auction_book.specs.Claims.{IsAsked, after_claim, claim_of};
ghost use Rattle.auction_book.specs.Free.{IsFree};
ghost use Rattle.auction_book.specs.Phases.{is_over};
ghost use Rattle.auction_book.specs.Session.{IsHandedIn, IsPrepared, book_kept_up, next_if_over};
ghost use Rattle.async_workers.specs.inside.Hand.{Ends, HasBook, KeepsBook};
ghost use Rattle.async_workers.specs.Session.{catches_up, is_too_low, with_table};

use super::listing::fetch_list;
use super::{Desk, Held};
use auction_book::{Claim, Note, Refused, Submission, begin_next_if_over, submit_offer};
use bidder::Offer;
use std::alloc::{AllocError, Global};

// The result of a session: the note on its offer, and the answer to the worker's claim.
#[derive(Drop)]
pub(super) struct Ended {
    pub note: Note,
    pub outcome: Result<Claim, AllocError>,
}

impl Held {
    // Takes the offer out of the book in hand.
    fn take_offer(&mut self) -> Option<Offer>
        ensures offer { result ≡ self.old.offer }
        ensures held { self.new ≡ record self.old { offer = None } }
    {
        self.offer.take()
    }
}

// Submits the desk's offer.
fn offer_in(alloc: Global, held: &mut Held, desk: &Desk) -> Submission
    requires hand { HasBook desk.now held.old.book }
    requires prepared { IsPrepared held.old.book desk.now.known.number desk.now.known.table desk.now.known.version held.old.offer }
    ensures hand { KeepsBook desk.now held.old.book desk.now held.new.book }
    ensures handed_in { IsHandedIn held.old.book desk.now.known.number held.old.offer held.new.book result.note result.outcome }
    ensures none { numbered held.new.book.claims desk.now.known.number None ≡ None }
    ensures caught_up { held.new.caught_up ≡ held.old.caught_up }
{
    let offer = held.take_offer();
    submit_offer(alloc, held.book_mut(), desk.known.number, offer)
}

fn was_too_low(note: Note) -> bool
    ensures { result ≡ is_too_low note }
{
    matches!(note, Note::Refused(Refused::TooLow(_)))
}

impl Desk {
    // Whether the table shall catch up, with this session counted.
    fn is_late(&self, refresh: u64, too_low: bool) -> bool
        ensures { result ≡ catches_up refresh too_low self.now.since }
    {
        let since = self.since.saturating_add(1);
        too_low || (0 < refresh && refresh <= since)
    }
}

// Lets the desk's table catch up if it shall.
fn keep_up(held: &mut Held, desk: &mut Desk, refresh: u64, too_low: bool)
    requires hand { HasBook desk.old held.old.book }
    requires fresh { held.old.caught_up ≡ false }
    ensures hand { KeepsBook desk.old held.old.book desk.new held.new.book }
    ensures caught_up { held.new.caught_up ≡ catches_up refresh too_low desk.old.since }
    ensures book { held.new.book ≡ book_kept_up (catches_up refresh too_low desk.old.since) held.old.book desk.old.known.number }
    ensures desk { desk.new ≡ record desk.old { known = with_table (catches_up refresh too_low desk.old.since) held.old.book desk.old.known } }
{
    if desk.is_late(refresh, too_low) {
        held.catch_up(desk);
    }
}

// Lets the worker claim a person.
fn claim_next(held: &mut Held, worker: u16) -> Claim
    requires worker { IsNumber (length held.old.book.claims) worker }
    requires none { numbered held.old.book.claims worker None ≡ None }
    ensures answer { result ≡ claim_of held.old.book }
    ensures asked { IsAsked held.old.book.base result }
    ensures held { held.new ≡ record held.old { book = after_claim held.old.book worker result } }
    ensures free { IsFree held.new.book }
{
    held.book_mut().claim(worker)
}

// Begins the next phase if this one is over, and lets the worker claim a person.
fn move_on(alloc: Global, held: &mut Held, desk: &Desk) -> Result<Claim, AllocError>
    requires hand { HasBook desk.now held.old.book }
    requires none { numbered held.old.book.claims desk.now.known.number None ≡ None }
    ensures hand { KeepsBook desk.now held.old.book desk.now held.new.book }
    ensures ok { IfOk result (λ answer. let b : BookData = next_if_over held.old.book in
        (answer ≡ claim_of b) × (held.new.book ≡ after_claim b desk.now.known.number answer)) }
    ensures asked { IfOk result (IsAsked desk.now.base) }
    ensures err { OnErr result ((held.new.book ≡ held.old.book) × (is_over held.old.book ≡ true)) }
    ensures caught_up { held.new.caught_up ≡ held.old.caught_up }
{
    begin_next_if_over(alloc, held.book_mut())?;
    Ok(claim_next(held, desk.known.number))
}

// Submits the offer, lets the table catch up if it shall, begins the next phase if this one is
// over, and lets the worker claim a person. If memory is refused, the session ends there.
fn take_steps(alloc: Global, held: &mut Held, desk: &mut Desk, refresh: u64) -> Ended
    requires hand { HasBook desk.old held.old.book }
    requires prepared { IsPrepared held.old.book desk.old.known.number desk.old.known.table desk.old.known.version held.old.offer }
    requires fresh { held.old.caught_up ≡ false }
    ensures hand { KeepsBook desk.old held.old.book desk.new held.new.book }
    ensures desk { desk.new ≡ record desk.old { known = desk.new.known } }
    ensures ends { Ends refresh desk.old.since desk.old.known held.old.offer result.note result.outcome
        held.old.book desk.new.known held.new.book held.new.caught_up }
    ensures asked { IfOk result.outcome (IsAsked desk.new.base) }
{
    let Submission { note, outcome } = offer_in(alloc, held, desk);
    if let Err(refused) = outcome {
        return Ended {
            note,
            outcome: Err(refused),
        };
    }
    keep_up(held, desk, refresh, was_too_low(note));
    let outcome = move_on(alloc, held, desk);
    Ended { note, outcome }
}

// A session: these steps, and then the claimed person's candidates come along to the desk if its
// table is the book's.
pub(super) fn session(alloc: Global, held: &mut Held, desk: &mut Desk, refresh: u64) -> Ended
    requires hand { HasBook desk.old held.old.book }
    requires prepared { IsPrepared held.old.book desk.old.known.number desk.old.known.table desk.old.known.version held.old.offer }
    requires fresh { held.old.caught_up ≡ false }
    ensures hand { KeepsBook desk.old held.old.book desk.new held.new.book }
    ensures desk { desk.new ≡ record desk.old { known = desk.new.known } }
    ensures ends { Ends refresh desk.old.since desk.old.known held.old.offer result.note result.outcome
        held.old.book desk.new.known held.new.book held.new.caught_up }
    ensures asked { IfOk result.outcome (IsAsked desk.new.base) }
{
    let ended = take_steps(alloc, held, desk, refresh);
    fetch_list(held, desk);
    ended
}
