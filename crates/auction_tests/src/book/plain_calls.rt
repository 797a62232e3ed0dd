// The calls of a plain book.
use super::plain::{PlainBook, at, begin_phase, benefit, is_assigned, prices, put, version};
use assign_core::{Object, Person, Price};
use auction_book::{Accepted, Claim, Refused};
use bidder::Ask;
use std::alloc::{AllocError, Global};

// What the phase asks of a bid.
pub(crate) fn ask(book: &PlainBook) -> Ask {
    Ask {
        phase: book.phase,
        eps: i64::try_from(book.eps).unwrap_or(0),
        floor: book.floor,
    }
}

fn is_done(book: &PlainBook) -> bool {
    is_assigned(book) && book.eps == 1
}

pub(crate) fn claim(book: &mut PlainBook, worker: u16) -> Claim {
    if book.hall.is_some() {
        return Claim::Refuted;
    }
    if is_done(book) {
        return Claim::Done;
    }
    if book.stopped {
        return Claim::Stopped;
    }
    if book.queue.is_empty() {
        return Claim::Wait;
    }
    let person = book.queue.remove(0);
    put(book.claims.as_mut_slice(), worker, Some(person));
    Claim::Person(person, ask(book))
}

// Ends the worker's claim; its person waits.
pub(crate) fn give_up(book: &mut PlainBook, worker: u16) -> Result<(), AllocError> {
    if let Some(person) = at(book.claims.as_slice(), worker).flatten() {
        book.queue.push(person)?;
        put(book.claims.as_mut_slice(), worker, None);
    }
    Ok(())
}

// Whether the worker holds the person's claim in this phase. If it holds the claim in another
// phase, the claim ends.
fn admitted(
    book: &mut PlainBook,
    worker: u16,
    person: Person,
    phase: u16,
) -> Result<Result<(), Refused>, AllocError> {
    if at(book.claims.as_slice(), worker).flatten() != Some(person) {
        return Ok(Err(Refused::NotClaimed));
    }
    if phase != book.phase {
        give_up(book, worker)?;
        return Ok(Err(Refused::WrongPhase));
    }
    Ok(Ok(()))
}

pub(crate) fn submit(
    alloc: Global,
    book: &mut PlainBook,
    worker: u16,
    person: Person,
    phase: u16,
    object: Object,
    level: Price,
) -> Result<Result<Accepted, Refused>, AllocError> {
    if let Err(refused) = admitted(book, worker, person, phase)? {
        return Ok(Err(refused));
    }
    let price = at(prices(book), object.0).unwrap_or(0);
    if level < price.wrapping_add(book.eps) {
        give_up(book, worker)?;
        return Ok(Err(Refused::TooLow(price)));
    }
    let mut table = prices(book).to_vec(alloc)?;
    put(table.as_mut_slice(), object.0, level);
    book.tables.push(table)?;
    let evicted = at(book.owners.as_slice(), object.0).flatten();
    if let Some(before) = evicted {
        book.queue.push(before)?;
    }
    put(book.owners.as_mut_slice(), object.0, Some(person));
    put(book.claims.as_mut_slice(), worker, None);
    let count = at(book.counts.as_slice(), worker).unwrap_or(0);
    put(book.counts.as_mut_slice(), worker, count.wrapping_add(1));
    Ok(Ok(Accepted { evicted }))
}

pub(crate) fn below(
    book: &mut PlainBook,
    worker: u16,
    person: Person,
    phase: u16,
    hall: (Vec<Person>, Vec<Object>),
) -> Result<Result<(), Refused>, AllocError> {
    if let Err(refused) = admitted(book, worker, person, phase)? {
        return Ok(Err(refused));
    }
    give_up(book, worker)?;
    book.hall = Some(hall);
    Ok(Ok(()))
}

// The worker has the current prices from here on. What no worker needs is forgotten.
pub(crate) fn catch_up(book: &mut PlainBook, worker: u16) {
    let now = version(book);
    put(book.taken.as_mut_slice(), worker, now);
    let mut least = now;
    for version in book.taken.iter() {
        least = least.min(*version);
    }
    book.first_kept = book.first_kept.max(least);
}

pub(crate) fn phase_over(book: &PlainBook) -> bool {
    is_assigned(book) && book.eps > 1
}

pub(crate) fn next_phase(alloc: Global, book: &mut PlainBook) -> Result<(), AllocError> {
    begin_phase(alloc, book)
}

// The objects of persons 1, 2, .., if the auction has ended with an assignment.
pub(crate) fn answer(alloc: Global, book: &PlainBook) -> Result<Option<Vec<Object>>, AllocError> {
    if !is_done(book) {
        return Ok(None);
    }
    let mut objects = vec![in alloc; Object(0); book.n as usize]?;
    let mut object: u16 = 0;
    for owner in book.owners.iter() {
        object = object.wrapping_add(1);
        if let Some(person) = owner {
            put(objects.as_mut_slice(), person.0, Object(object));
        }
    }
    Ok(Some(objects))
}

// Takes the objects that a person lists, and their owners. Returns whether one of the objects is
// unowned.
fn spread(
    book: &PlainBook,
    person: Person,
    persons: &mut Vec<Person>,
    objects: &mut Vec<Object>,
) -> Result<bool, AllocError> {
    for j in 0..book.n {
        let object = Object(j.wrapping_add(1));
        if benefit(book, person.0, object.0).is_none() || objects.contains(&object) {
            continue;
        }
        objects.push(object)?;
        match at(book.owners.as_slice(), object.0).flatten() {
            None => return Ok(true),
            Some(owner) if persons.contains(&owner) => {}
            Some(owner) => persons.push(owner)?,
        }
    }
    Ok(false)
}

// The persons that a person reaches and the objects that they list, both rising, if all these
// objects are owned.
pub(crate) fn search(
    alloc: Global,
    book: &PlainBook,
    person: Person,
) -> Result<Option<(Vec<Person>, Vec<Object>)>, AllocError> {
    let mut persons = vec![in alloc; person]?;
    let mut objects = Vec::new(alloc);
    for i in 0..book.n {
        let Some(next) = persons.get(i as usize).copied() else {
            break;
        };
        if spread(book, next, &mut persons, &mut objects)? {
            return Ok(None);
        }
    }
    persons.sort()?;
    objects.sort()?;
    Ok(Some((persons, objects)))
}
