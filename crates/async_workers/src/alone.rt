// One thread goes on with a book alone.
ghost use Rattle.std.specs.Prelude.{◌≡◌, ◌<◌, ℕ, None, IfOk, IfSome, OnOk, false, length};
ghost use Rattle.assign_core.specs.Numbered.{IsNumber, numbered};
ghost use Rattle.auction_book.specs.Follows.{GoesOn};
ghost use Rattle.auction_book.specs.Free.{IsFree};
ghost use Rattle.async_workers.specs.Solving.{IsAnsweredBy};

use assign_core::Outcome;
use auction_book::{Book, begin_next_if_over, prepare, submit_offer};
use std::alloc::{AllocError, Global};
use std::sync::Wait;

/// The book's answer, if it has one: its Hall set, or the assignment of its owners if everybody is
/// assigned in the last phase.
///
/// # Errors
/// `AllocError` if memory is refused.
pub fn outcome_of(alloc: Global, book: &Book) -> Result<Option<Outcome>, AllocError>
    ensures { IfOk result (λ found. IfSome found (IsAnsweredBy book.now)) }
{
    book.invariant();
    if let Some(hall) = book.refuted() {
        return Ok(Some(Outcome::Hall(hall.copy(alloc)?)));
    }
    match book.answer(alloc)? {
        Some(certificate) => Ok(Some(Outcome::Best(certificate))),
        None => Ok(None),
    }
}

// Gives up all claims.
fn give_up_all(book: &mut Book)
    ensures goes_on { GoesOn book.old book.new }
    ensures none { (worker : ℕ) → numbered book.new.claims worker None ≡ None }
    ensures free { IsFree book.new }
{
    book.invariant();
    for before in 0..book.workers() {
        book.give_up(before + 1);
    }
}

// Lets worker 1 claim a person, if one waits, and submits its offer from the current prices.
fn offer_alone(alloc: Global, book: &mut Book) -> Result<(), AllocError>
    requires worker { IsNumber (length book.old.claims) 1 }
    requires none { numbered book.old.claims 1 None ≡ None }
    ensures goes_on { GoesOn book.old book.new }
    ensures none { numbered book.new.claims 1 None ≡ None }
    ensures stopped { book.new.stopped ≡ book.old.stopped }
    ensures free { IsFree book.new }
{
    book.invariant();
    let claim = book.claim(1);
    let offer = prepare(book.scaled(), book.prices(), book.version(), claim);
    submit_offer(alloc, book, 1, offer).outcome
}

// The offer of a person, and the next phase if this one is then over.
fn step_alone(alloc: Global, book: &mut Book) -> Result<(), AllocError>
    requires worker { IsNumber (length book.old.claims) 1 }
    requires none { numbered book.old.claims 1 None ≡ None }
    ensures goes_on { GoesOn book.old book.new }
    ensures none { OnOk result (numbered book.new.claims 1 None ≡ None) }
    ensures stopped { book.new.stopped ≡ book.old.stopped }
    ensures free { IsFree book.new }
{
    offer_alone(alloc, book)?;
    begin_next_if_over(alloc, book)
}

/// Gives up all claims, lifts a stop, and goes on with the book alone, as worker 1, until it has an
/// answer.
///
/// # Errors
/// `AllocError` if memory is refused. The run can then go on with the book.
pub fn go_alone<R: Wait>(rt: &R, alloc: Global, book: &mut Book) -> Result<Outcome, AllocError>
    requires { 0 < length book.old.claims }
    ensures goes_on { GoesOn book.old book.new }
    ensures answers { IfOk result (IsAnsweredBy book.new) }
    ensures resumed { book.new.stopped ≡ false }
    ensures free { IsFree book.new }
{
    give_up_all(book);
    book.resume();
    for _ in rt.forever() {
        if let Some(outcome) = outcome_of(alloc, book)? {
            return Ok(outcome);
        }
        step_alone(alloc, book)?;
    }
    unreachable!()
}
