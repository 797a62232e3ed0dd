// Calls of a book by workers with their own tables, each made only if its conditions hold.
ghost use Rattle.std.specs.Prelude.{◌≡◌, All, IfOk, length};
ghost use Rattle.assign_core.specs.Numbered.{IsNumber};
ghost use Rattle.assign_core.specs.Prices.{IsBelow};
ghost use Rattle.bidder.specs.Offers.{IsSound, IsSoundOffer};
ghost use Rattle.price_log.specs.History.{IsEarlier};
ghost use Rattle.auction_book.specs.Book.{persons_of, prices_of};
ghost use Rattle.auction_book.specs.Follows.{GoesOn};

use assign_core::{Object, Person, Price, Prices};
use auction_book::{Accepted, Book, Claim, Refused};
use bidder::{BelowFloor, Bid, Offer, make_bid};
use hall_refuter::{Search, refute};
use std::alloc::{AllocError, Global};
use test_helpers::number;

// A worker's table with its version.
#[derive(Drop)]
pub(crate) struct Desk {
    pub table: Prices,
    pub version: u128,
}

// A book and the desks of its workers.
#[derive(Drop)]
pub(crate) struct Trial {
    pub book: Book,
    pub desks: Vec<Desk>,
    ghost below: { All (λ d. IsBelow d.table (prices_of book)) desks.items },
    ghost earlier: { All (λ d. IsEarlier book.log d.table d.version) desks.items },
}

// How a worker's bid or Hall set differs from the right one.
#[derive(Clone, Copy, PartialEq, Eq)]
pub(crate) enum Mistake {
    Nothing,
    // It names another phase.
    Phase,
    // It belongs to another person than the claimed one.
    Person,
}

// A call, by some worker.
#[derive(Clone, Copy, PartialEq, Eq)]
pub(crate) enum Call {
    Claim,
    // The bid of the claimed person, from the worker's table.
    Submit(Mistake),
    // The Hall set that a search from the claimed person finds.
    Below(Mistake),
    GiveUp,
    CatchUp,
    Stop,
    Resume,
    NextPhase,
}

// The answer of a call, in plain numbers.
#[derive(Clone, Copy, PartialEq, Eq)]
pub(crate) enum Reply {
    // The call's conditions don't hold, so it wasn't made.
    Unasked,
    Refuted,
    Done,
    Stopped,
    Wait,
    // A person, and the phase, eps and floor of its bid.
    Person(u16, u16, i64, Price),
    // The object and the level of the bid, and the previous owner, 0 for none.
    Accepted(u16, Price, u16),
    // The object and the level of the bid; the same below.
    NotClaimed(u16, Price),
    WrongPhase(u16, Price),
    // The object and the level of the bid, and the object's current price.
    TooLow(u16, Price, Price),
    Memory,
    // A Hall set was recorded.
    Recorded,
    // The search found an unowned object.
    Path,
    // The call has no answer.
    Nothing,
}

pub(crate) fn told_claim(claim: Claim) -> Reply {
    match claim {
        Claim::Refuted => Reply::Refuted,
        Claim::Done => Reply::Done,
        Claim::Stopped => Reply::Stopped,
        Claim::Wait => Reply::Wait,
        Claim::Person(person, ask) => Reply::Person(person.0, ask.phase, ask.eps, ask.floor),
    }
}

fn told_refusal(object: u16, level: Price, refused: Refused) -> Reply {
    match refused {
        Refused::NotClaimed => Reply::NotClaimed(object, level),
        Refused::WrongPhase => Reply::WrongPhase(object, level),
        Refused::TooLow(price) => Reply::TooLow(object, level, price),
        Refused::Memory => Reply::Memory,
    }
}

pub(crate) fn told_bid(object: Object, level: Price, answer: Result<Accepted, Refused>) -> Reply {
    match answer {
        Ok(accepted) => {
            let evicted = accepted.evicted.unwrap_or(Person(0));
            Reply::Accepted(object.0, level, evicted.0)
        }
        Err(refused) => told_refusal(object.0, level, refused),
    }
}

// A Hall set has no object and no level: 0 replaces both.
pub(crate) fn told_below(answer: Result<(), Refused>) -> Reply {
    match answer {
        Ok(()) => Reply::Recorded,
        Err(refused) => told_refusal(0, 0, refused),
    }
}

pub(crate) fn claim(book: &mut Book, worker: u16) -> Reply
    requires { IsNumber (length book.old.claims) worker }
    ensures { GoesOn book.old book.new }
{
    if book.claimed_by(worker).is_some() {
        return Reply::Unasked;
    }
    told_claim(book.claim(worker))
}

// The person that a worker claimed, or another person.
fn spoken_for(book: &Book, worker: u16, mistake: Mistake) -> Person
    requires { IsNumber (length book.now.claims) worker }
    ensures person { IsNumber (persons_of book.now) result }
    ensures long { length (prices_of book.now) ≡ persons_of book.now }
{
    book.invariant();
    let n = book.scaled().n();
    let person = match book.claimed_by(worker) {
        Some(person) => person.0,
        None => 1,
    };
    if mistake == Mistake::Person {
        Person(number(n, if person < n { person + 1 } else { 1 }))
    } else {
        Person(number(n, person))
    }
}

// This phase, or another one.
pub(crate) fn named(phase: u16, mistake: Mistake) -> u16 {
    if mistake != Mistake::Phase {
        phase
    } else if phase > 1 {
        phase - 1
    } else {
        2
    }
}

// The offer of a person from a worker's table.
pub(crate) fn offered(book: &Book, desk: &Desk, person: Person) -> Offer
    requires person { IsNumber (persons_of book.now) person }
    requires table { length desk.now.table ≡ persons_of book.now }
    ensures { IsSoundOffer book.now.base book.now.ask desk.now.table result }
{
    book.invariant();
    make_bid(book.scaled(), &desk.table, desk.version, book.ask(), person)
}

// The offer of a person from the table of a worker, if there is one.
pub(crate) fn offer_of(trial: &Trial, worker: u16, person: u16) -> Option<Offer> {
    trial.book.invariant();
    let desk = trial.desks.get((worker as usize).wrapping_sub(1))?;
    let person = Person(number(trial.book.scaled().n(), person));
    Some(offered(&trial.book, desk, person))
}

fn submit_bid(book: &mut Book, desk: &Desk, worker: u16, bid: Bid) -> Reply
    requires worker { IsNumber (length book.old.claims) worker }
    requires below { IsBelow desk.now.table (prices_of book.old) }
    requires sound { IsSound book.old.base book.old.ask desk.now.table bid }
    ensures { GoesOn book.old book.new }
{
    book.invariant();
    let Bid { object, level, .. } = bid;
    told_bid(object, level, book.submit(worker, bid))
}

// The same bid in this phase.
fn in_phase(bid: Bid, phase: u16) -> Bid
    ensures person { result.person ≡ bid.person }
    ensures object { result.object ≡ bid.object }
    ensures level { result.level ≡ bid.level }
{
    Bid { phase, ..bid }
}

pub(crate) fn submit(book: &mut Book, desk: &Desk, worker: u16, mistake: Mistake) -> Reply
    requires worker { IsNumber (length book.old.claims) worker }
    requires below { IsBelow desk.now.table (prices_of book.old) }
    ensures { GoesOn book.old book.new }
{
    let person = spoken_for(book, worker, mistake);
    match offered(book, desk, person) {
        Offer::Bid(bid) => submit_bid(book, desk, worker, in_phase(bid, named(bid.phase, mistake))),
        Offer::Below(_) => Reply::Unasked,
    }
}

// Submits a bid of an earlier phase or of a later one.
pub(crate) fn submit_untimely(book: &mut Book, worker: u16, bid: Bid) -> Reply
    requires { IsNumber (length book.old.claims) worker }
    ensures { GoesOn book.old book.new }
{
    book.invariant();
    if bid.phase == book.ask().phase {
        return Reply::Unasked;
    }
    let Bid { object, level, .. } = bid;
    told_bid(object, level, book.submit(worker, bid))
}

pub(crate) fn below(
    alloc: Global,
    book: &mut Book,
    worker: u16,
    mistake: Mistake,
) -> Result<Reply, AllocError>
    requires { IsNumber (length book.old.claims) worker }
    ensures { GoesOn book.old book.new }
{
    book.invariant();
    let Some(person) = book.claimed_by(worker) else {
        return Ok(Reply::Unasked);
    };
    let below = BelowFloor {
        person: spoken_for(book, worker, mistake),
        phase: named(book.ask().phase, mistake),
    };
    match refute(alloc, book.scaled(), book.owners(), person)? {
        Search::Hall(hall) => Ok(told_below(book.below(worker, below, hall))),
        Search::Path(_) => Ok(Reply::Path),
    }
}

fn next_phase(alloc: Global, book: &mut Book) -> Result<Reply, AllocError>
    ensures { GoesOn book.old book.new }
{
    book.invariant();
    if !book.phase_over() {
        return Ok(Reply::Unasked);
    }
    book.next_phase(alloc)?;
    Ok(Reply::Nothing)
}

fn give_up(book: &mut Book, worker: u16) -> Reply
    requires { IsNumber (length book.old.claims) worker }
    ensures { GoesOn book.old book.new }
{
    book.give_up(worker);
    Reply::Nothing
}

fn stop(book: &mut Book) -> Reply
    ensures { GoesOn book.old book.new }
{
    book.stop();
    Reply::Nothing
}

fn resume(book: &mut Book) -> Reply
    ensures { GoesOn book.old book.new }
{
    book.resume();
    Reply::Nothing
}

// A call that doesn't change the worker's table.
fn call_at(
    alloc: Global,
    book: &mut Book,
    desk: &Desk,
    worker: u16,
    call: Call,
) -> Result<Reply, AllocError>
    requires worker { IsNumber (length book.old.claims) worker }
    requires below { IsBelow desk.now.table (prices_of book.old) }
    ensures { GoesOn book.old book.new }
{
    match call {
        Call::Claim => Ok(claim(book, worker)),
        Call::Submit(mistake) => Ok(submit(book, desk, worker, mistake)),
        Call::Below(mistake) => below(alloc, book, worker, mistake),
        Call::NextPhase => next_phase(alloc, book),
        Call::GiveUp => Ok(give_up(book, worker)),
        Call::Stop => Ok(stop(book)),
        Call::Resume => Ok(resume(book)),
        Call::CatchUp => Ok(Reply::Unasked),
    }
}

fn catch_up(book: &mut Book, desk: &mut Desk, worker: u16) -> Reply
    requires worker { IsNumber (length book.old.claims) worker }
    requires earlier { IsEarlier book.old.log desk.old.table desk.old.version }
    ensures on { GoesOn book.old book.new }
    ensures below { IsBelow desk.new.table (prices_of book.new) }
    ensures earlier { IsEarlier book.new.log desk.new.table desk.new.version }
{
    book.invariant();
    book.catch_up(worker, &mut desk.table, &mut desk.version);
    Reply::Nothing
}

fn call_by(
    alloc: Global,
    book: &mut Book,
    desk: &mut Desk,
    worker: u16,
    call: Call,
) -> Result<Reply, AllocError>
    requires worker { IsNumber (length book.old.claims) worker }
    requires below { IsBelow desk.old.table (prices_of book.old) }
    requires earlier { IsEarlier book.old.log desk.old.table desk.old.version }
    ensures on { GoesOn book.old book.new }
    ensures below { IsBelow desk.new.table (prices_of book.new) }
    ensures earlier { IsEarlier book.new.log desk.new.table desk.new.version }
{
    book.invariant();
    if call == Call::CatchUp {
        return Ok(catch_up(book, desk, worker));
    }
    call_at(alloc, book, desk, worker, call)
}

// A call by a worker, if there is a worker with this number.
pub(crate) fn call_of(
    alloc: Global,
    trial: &mut Trial,
    worker: u16,
    call: Call,
) -> Result<Reply, AllocError> {
    if worker == 0 || worker > trial.book.workers() || worker as usize > trial.desks.len() {
        return Ok(Reply::Unasked);
    }
    trial.book.invariant();
    let desk = &mut trial.desks[worker as usize - 1];
    call_by(alloc, &mut trial.book, desk, worker, call)
}

// A desk for each worker, with these prices.
fn open_desks(alloc: Global, book: &Book, workers: u16) -> Result<Vec<Desk>, AllocError>
    ensures below { IfOk result (λ desks. All (λ d. IsBelow d.table (prices_of book.now)) desks.items) }
    ensures earlier { IfOk result (λ desks. All (λ d. IsEarlier book.now.log d.table d.version) desks.items) }
{
    let mut desks = Vec::with_capacity(alloc, workers as usize)?;
    for _ in 0..workers {
        let table = book.prices().copy(alloc)?;
        desks.push(Desk {
            table,
            version: book.version(),
        })?;
    }
    Ok(desks)
}

// The book with these desks.
pub(crate) fn open_trial(alloc: Global, book: Book, workers: u16) -> Result<Trial, AllocError> {
    let desks = open_desks(alloc, &book, workers)?;
    Ok(Trial { book, desks })
}
