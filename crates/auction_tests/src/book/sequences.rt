// Drawn sequences of calls, compared with a plain book.
use super::calls::{
    Call, Mistake, Reply, Trial, call_of, named, open_trial, told_below, told_bid, told_claim,
};
use super::drawn::{Case, drawn_case};
use super::plain::{PlainBook, at, bound, offer, opened, prices, version};
use super::plain_calls;
use super::plain_calls::{ask, phase_over};
use super::seen::{answers, records, waiting};
use assign_core::{Person, Price};
use auction_book::Book;
use std::alloc::{AllocError, Global};
use std::test::Fail;
use test_helpers::{draw_wide, first_prices, scaled_of, size};

// A worker's table with its version.
#[derive(Drop)]
pub(crate) struct PlainDesk {
    table: Vec<Price>,
    version: u128,
}

// A plain book and the desks of its workers.
#[derive(Drop)]
pub(crate) struct PlainTrial {
    pub book: PlainBook,
    pub desks: Vec<PlainDesk>,
}

// The person that a worker claimed, or another person.
fn spoken_for(plain: &PlainBook, worker: u16, mistake: Mistake) -> Person {
    let held = at(plain.claims.as_slice(), worker).flatten();
    let person = held.unwrap_or(Person(1));
    if mistake != Mistake::Person {
        person
    } else if person.0 < plain.n {
        Person(person.0.wrapping_add(1))
    } else {
        Person(1)
    }
}

fn submit(
    alloc: Global,
    plain: &mut PlainBook,
    desk: &PlainDesk,
    worker: u16,
    mistake: Mistake,
) -> Result<Reply, AllocError> {
    let person = spoken_for(plain, worker, mistake);
    let Some((object, level)) = offer(plain, desk.table.as_slice(), person.0) else {
        return Ok(Reply::Unasked);
    };
    let phase = named(plain.phase, mistake);
    let answer = plain_calls::submit(alloc, plain, worker, person, phase, object, level)?;
    Ok(told_bid(object, level, answer))
}

fn below(
    alloc: Global,
    plain: &mut PlainBook,
    worker: u16,
    mistake: Mistake,
) -> Result<Reply, AllocError> {
    let Some(person) = at(plain.claims.as_slice(), worker).flatten() else {
        return Ok(Reply::Unasked);
    };
    let Some(hall) = plain_calls::search(alloc, plain, person)? else {
        return Ok(Reply::Path);
    };
    let person = spoken_for(plain, worker, mistake);
    let phase = named(plain.phase, mistake);
    let answer = plain_calls::below(plain, worker, person, phase, hall)?;
    Ok(told_below(answer))
}

fn claim(plain: &mut PlainBook, worker: u16) -> Reply {
    if at(plain.claims.as_slice(), worker).flatten().is_some() {
        return Reply::Unasked;
    }
    told_claim(plain_calls::claim(plain, worker))
}

fn next_phase(alloc: Global, plain: &mut PlainBook) -> Result<Reply, AllocError> {
    if !phase_over(plain) {
        return Ok(Reply::Unasked);
    }
    plain_calls::next_phase(alloc, plain)?;
    Ok(Reply::Nothing)
}

fn give_up(plain: &mut PlainBook, worker: u16) -> Result<Reply, AllocError> {
    plain_calls::give_up(plain, worker)?;
    Ok(Reply::Nothing)
}

fn catch_up(
    alloc: Global,
    plain: &mut PlainBook,
    desk: &mut PlainDesk,
    worker: u16,
) -> Result<Reply, AllocError> {
    plain_calls::catch_up(plain, worker);
    desk.table = prices(plain).to_vec(alloc)?;
    desk.version = version(plain);
    Ok(Reply::Nothing)
}

fn set_stopped(plain: &mut PlainBook, stopped: bool) -> Reply {
    plain.stopped = stopped;
    Reply::Nothing
}

pub(crate) fn plain_call(
    alloc: Global,
    plain: &mut PlainBook,
    desk: &mut PlainDesk,
    worker: u16,
    call: Call,
) -> Result<Reply, AllocError> {
    match call {
        Call::Claim => Ok(claim(plain, worker)),
        Call::Submit(mistake) => submit(alloc, plain, desk, worker, mistake),
        Call::Below(mistake) => below(alloc, plain, worker, mistake),
        Call::NextPhase => next_phase(alloc, plain),
        Call::GiveUp => give_up(plain, worker),
        Call::Stop => Ok(set_stopped(plain, true)),
        Call::Resume => Ok(set_stopped(plain, false)),
        Call::CatchUp => catch_up(alloc, plain, desk, worker),
    }
}

// A desk with these prices.
fn open_plain_desk(alloc: Global, first: &[Price]) -> Result<PlainDesk, AllocError> {
    Ok(PlainDesk {
        table: first.to_vec(alloc)?,
        version: 0,
    })
}

// Adds a desk for each worker, with these prices.
fn add_plain_desks(
    alloc: Global,
    desks: &mut Vec<PlainDesk>,
    first: &[Price],
    workers: u16,
) -> Result<(), AllocError> {
    for _ in 0..workers {
        desks.push(open_plain_desk(alloc, first)?)?;
    }
    Ok(())
}

// Whether both books have the same recorded Hall set, or none.
fn same_hall(book: &Book, plain: &PlainBook) -> bool {
    match &plain.hall {
        None => book.refuted().is_none(),
        Some((persons, objects)) => records(book, persons.as_slice(), objects.as_slice()),
    }
}

// Whether both books have the same claims and counts.
fn same_workers(book: &Book, plain: &PlainBook) -> bool {
    let workers = book.workers();
    for i in 0..workers {
        let worker = i + 1;
        if Some(book.claimed_by(worker)) != at(plain.claims.as_slice(), worker)
            || Some(book.accepted_by(worker)) != at(plain.counts.as_slice(), worker)
        {
            return false;
        }
    }
    workers as usize == plain.claims.len() && book.taken() == plain.taken.as_slice()
}

// Whether both books are in the same phase.
fn same_phase(book: &Book, plain: &PlainBook) -> bool {
    book.ask() == ask(plain)
        && book.start().as_slice() == plain.start.as_slice()
        && book.phase_over() == phase_over(plain)
        && book.phase_accepted() == version(plain).wrapping_sub(plain.start_version)
        && i128::try_from(book.phase_bound()) == Ok(bound(plain))
}

// Whether both books are the same.
pub(crate) fn same(alloc: Global, book: &Book, plain: &PlainBook) -> Result<bool, AllocError> {
    let waiting = waiting(alloc, book)?;
    Ok(
        waiting.as_slice() == plain.queue.as_slice()
            && book.owners() == plain.owners.as_slice()
            && book.prices().as_slice() == prices(plain)
            && book.version() == version(plain)
            && book.first_kept() == plain.first_kept
            && book.stopped() == plain.stopped
            && same_hall(book, plain)
            && same_workers(book, plain)
            && same_phase(book, plain),
    )
}

// Whether both books answer the same.
pub(crate) fn same_answer(
    alloc: Global,
    book: &Book,
    plain: &PlainBook,
) -> Result<bool, AllocError> {
    match plain_calls::answer(alloc, plain)? {
        None => Ok(book.answer(alloc)?.is_none()),
        Some(objects) => answers(alloc, book, objects.as_slice(), prices(plain)),
    }
}

// A worker's bid or Hall set is right in most draws.
fn drawn_mistake(seed: &mut u64) -> Mistake {
    match draw_wide(seed, 12) {
        0 => Mistake::Phase,
        1 => Mistake::Person,
        _ => Mistake::Nothing,
    }
}

fn drawn_call(seed: &mut u64) -> Call {
    match draw_wide(seed, 40) {
        0..=12 => Call::Claim,
        13..=26 => Call::Submit(drawn_mistake(seed)),
        27..=30 => Call::CatchUp,
        31 => Call::Below(drawn_mistake(seed)),
        32 => Call::GiveUp,
        33 => Call::Stop,
        34..=35 => Call::Resume,
        _ => Call::NextPhase,
    }
}

// The number of answers of each kind.
#[derive(Clone, Copy)]
struct Kinds {
    refuted: u64,
    done: u64,
    stopped: u64,
    waits: u64,
    accepted: u64,
    evicted: u64,
    not_claimed: u64,
    wrong_phase: u64,
    too_low: u64,
    recorded: u64,
    paths: u64,
    phases: u64,
}

// The count of an answer's kind, if this kind is counted.
fn count_of(kinds: &mut Kinds, call: Call, told: Reply) -> Option<&mut u64> {
    match told {
        Reply::Refuted => Some(&mut kinds.refuted),
        Reply::Done => Some(&mut kinds.done),
        Reply::Stopped => Some(&mut kinds.stopped),
        Reply::Wait => Some(&mut kinds.waits),
        Reply::Accepted(_, _, 0) => Some(&mut kinds.accepted),
        Reply::Accepted(_, _, _) => Some(&mut kinds.evicted),
        Reply::NotClaimed(_, _) => Some(&mut kinds.not_claimed),
        Reply::WrongPhase(_, _) => Some(&mut kinds.wrong_phase),
        Reply::TooLow(_, _, _) => Some(&mut kinds.too_low),
        Reply::Recorded => Some(&mut kinds.recorded),
        Reply::Path => Some(&mut kinds.paths),
        Reply::Nothing if call == Call::NextPhase => Some(&mut kinds.phases),
        _ => None,
    }
}

fn note(kinds: &mut Kinds, call: Call, told: Reply) {
    if let Some(count) = count_of(kinds, call, told) {
        *count = count.wrapping_add(1);
    }
}

// Whether each kind came at least `times` times.
fn all_came(kinds: Kinds, times: u64) -> bool {
    [
        kinds.refuted,
        kinds.done,
        kinds.stopped,
        kinds.waits,
        kinds.accepted,
        kinds.evicted,
        kinds.not_claimed,
        kinds.wrong_phase,
        kinds.too_low,
        kinds.recorded,
        kinds.paths,
        kinds.phases,
    ]
    .iter()
    .all(|count| *count >= times)
}

// The state of the drawing, and the counts so far.
#[derive(Drop)]
struct Draws {
    seed: u64,
    kinds: Kinds,
}

// Whether a drawn call does the same to both books.
fn agrees(
    alloc: Global,
    trial: &mut Trial,
    plain: &mut PlainTrial,
    draws: &mut Draws,
) -> Result<bool, AllocError> {
    let place = draw_wide(&mut draws.seed, plain.desks.len() as u64) as usize;
    let call = drawn_call(&mut draws.seed);
    let worker = u16::try_from(place).unwrap_or(0).wrapping_add(1);
    let told = call_of(alloc, trial, worker, call)?;
    let Some(desk) = plain.desks.get_mut(place) else {
        return Ok(false);
    };
    let expected = plain_call(alloc, &mut plain.book, desk, worker, call)?;
    note(&mut draws.kinds, call, told);
    Ok(
        told == expected
            && same(alloc, &trial.book, &plain.book)?
            && same_answer(alloc, &trial.book, &plain.book)?,
    )
}

// Whether `calls` drawn calls do the same to both books.
fn all_agree(
    alloc: Global,
    trial: &mut Trial,
    plain: &mut PlainTrial,
    draws: &mut Draws,
    calls: u32,
) -> Result<bool, AllocError> {
    for _ in 0..calls {
        if !agrees(alloc, trial, plain, draws)? {
            return Ok(false);
        }
    }
    Ok(true)
}

// The trial of a case, of at least one worker.
pub(crate) fn open_case(alloc: Global, case: &Case) -> Result<Trial, AllocError> {
    let n = size(case.n);
    let workers = case.workers.max(1);
    let scaled = scaled_of(alloc, n, case.pairs.as_slice(), case.sense)?;
    let prices = first_prices(alloc, n, case.first.as_slice())?;
    let book = Book::open_from(alloc, scaled, prices, workers)?;
    open_trial(alloc, book, workers)
}

// The plain trial of a case.
fn open_plain(alloc: Global, case: &Case) -> Result<PlainTrial, AllocError> {
    let mut plain = PlainTrial {
        book: opened(alloc, case)?,
        desks: Vec::new(alloc),
    };
    add_plain_desks(alloc, &mut plain.desks, case.first.as_slice(), case.workers)?;
    Ok(plain)
}

pub(crate) fn open_both(alloc: Global, case: &Case) -> Result<(Trial, PlainTrial), AllocError> {
    let trial = open_case(alloc, case)?;
    Ok((trial, open_plain(alloc, case)?))
}

// Whether `calls` drawn calls on a drawn problem do the same to both books.
fn sequence_agrees(alloc: Global, draws: &mut Draws, calls: u32) -> Result<bool, AllocError> {
    let case = drawn_case(alloc, &mut draws.seed, 4, 3)?;
    let (mut trial, mut plain) = open_both(alloc, &case)?;
    all_agree(alloc, &mut trial, &mut plain, draws, calls)
}

const NONE_YET: Kinds = Kinds {
    refuted: 0,
    done: 0,
    stopped: 0,
    waits: 0,
    accepted: 0,
    evicted: 0,
    not_claimed: 0,
    wrong_phase: 0,
    too_low: 0,
    recorded: 0,
    paths: 0,
    phases: 0,
};

#[test]
fn drawn_sequences_of_calls(rt: HostRuntime) -> Result<(), Fail> {
    let mut draws = Draws {
        seed: 2026,
        kinds: NONE_YET,
    };
    for _ in 0..2000 {
        assert!(rt; sequence_agrees(rt.alloc(), &mut draws, 40)?);
    }
    assert!(rt; all_came(draws.kinds, 50));
    Ok(())
}
