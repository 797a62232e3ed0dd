// A plain book: the rules of the auction over lists, with the table of every version.
use super::drawn::Case;
use assign_core::{Object, Person, Price};
use std::alloc::{AllocError, Global};
use test_helpers::{benefit_range, plain_benefits};

#[derive(Drop)]
pub(crate) struct PlainBook {
    pub n: u16,
    // Benefits row by row; `None` for a pair that isn't listed.
    pub benefits: Vec<Option<i128>>,
    pub least: i128,
    pub spread: i128,
    pub phase: u16,
    pub eps: i128,
    pub floor: i128,
    pub start: Vec<Price>,
    pub start_version: u128,
    pub owners: Vec<Option<Person>>,
    pub queue: Vec<Person>,
    pub claims: Vec<Option<Person>>,
    pub counts: Vec<u128>,
    pub taken: Vec<u128>,
    // The prices of versions 0, 1, .., the current ones last.
    pub tables: Vec<Vec<Price>>,
    pub first_kept: u128,
    pub hall: Option<(Vec<Person>, Vec<Object>)>,
    pub stopped: bool,
}

// The element with a number, from 1.
pub(crate) fn at<T: Copy>(items: &[T], number: u16) -> Option<T> {
    items.get((number as usize).wrapping_sub(1)).copied()
}

// Writes the element with a number, from 1.
pub(crate) fn put<T: Copy>(items: &mut [T], number: u16, item: T) {
    if let Some(place) = items.get_mut((number as usize).wrapping_sub(1)) {
        *place = item;
    }
}

// A book of n persons with nothing in it.
fn empty(alloc: Global, n: u16) -> PlainBook {
    PlainBook {
        n,
        benefits: Vec::new(alloc),
        least: 0,
        spread: 0,
        phase: 0,
        eps: 0,
        floor: 0,
        start: Vec::new(alloc),
        start_version: 0,
        owners: Vec::new(alloc),
        queue: Vec::new(alloc),
        claims: Vec::new(alloc),
        counts: Vec::new(alloc),
        taken: Vec::new(alloc),
        tables: Vec::new(alloc),
        first_kept: 0,
        hall: None,
        stopped: false,
    }
}

// Adds workers without claims.
fn add_workers(book: &mut PlainBook, workers: u16) -> Result<(), AllocError> {
    for _ in 0..workers {
        book.claims.push(None)?;
        book.counts.push(0)?;
        book.taken.push(0)?;
    }
    Ok(())
}

// Fills an empty book with a case.
fn fill(alloc: Global, book: &mut PlainBook, case: &Case) -> Result<(), AllocError> {
    book.benefits = plain_benefits(alloc, case.n, case.pairs.as_slice(), case.sense)?;
    let (least, spread) = benefit_range(book.benefits.as_slice());
    book.least = least;
    book.spread = spread;
    book.eps = spread;
    book.tables.push(case.first.to_vec(alloc)?)?;
    add_workers(book, case.workers)?;
    begin_phase(alloc, book)
}

// A book with these first prices.
pub(crate) fn opened(alloc: Global, case: &Case) -> Result<PlainBook, AllocError> {
    let mut book = empty(alloc, case.n);
    fill(alloc, &mut book, case)?;
    Ok(book)
}

// The next phase: an eps of a fifth, nobody owns anything, all wait.
pub(crate) fn begin_phase(alloc: Global, book: &mut PlainBook) -> Result<(), AllocError> {
    book.phase = book.phase.wrapping_add(1);
    book.eps = book.eps.wrapping_div(5).max(1);
    book.start = prices(book).to_vec(alloc)?;
    book.start_version = version(book);
    let steps = i128::from(book.n).wrapping_sub(1);
    book.floor = book
        .least
        .wrapping_sub(greatest(book.start.as_slice()))
        .wrapping_sub(steps.wrapping_mul(book.spread.wrapping_add(book.eps)));
    book.owners.clear();
    book.queue.clear();
    for i in 0..book.n {
        book.owners.push(None)?;
        book.queue.push(Person(i.wrapping_add(1)))?;
    }
    Ok(())
}

// The current prices.
pub(crate) fn prices(book: &PlainBook) -> &[Price] {
    match book.tables.last() {
        Some(table) => table.as_slice(),
        None => &[],
    }
}

// The current version.
pub(crate) fn version(book: &PlainBook) -> u128 {
    (book.tables.len() as u128).wrapping_sub(1)
}

fn greatest(prices: &[Price]) -> Price {
    let mut most = 0;
    for price in prices {
        most = most.max(*price);
    }
    most
}

// The top of the phase.
fn top(book: &PlainBook) -> Price {
    let steps = i128::from(book.n).wrapping_mul(book.spread.wrapping_add(book.eps));
    greatest(book.start.as_slice()).wrapping_add(steps)
}

// The most bids that the phase accepts.
pub(crate) fn bound(book: &PlainBook) -> i128 {
    let top = top(book);
    let mut room: i128 = 0;
    for price in book.start.iter() {
        room = room.wrapping_add(top.wrapping_sub(*price));
    }
    room.checked_div(book.eps).unwrap_or(0)
}

// The benefit of a pair, if the person lists the object.
pub(crate) fn benefit(book: &PlainBook, person: u16, object: u16) -> Option<i128> {
    let place = (person as usize)
        .wrapping_sub(1)
        .wrapping_mul(book.n as usize)
        .wrapping_add(object as usize)
        .wrapping_sub(1);
    book.benefits.get(place).copied().flatten()
}

// The best object of a person under a table, its value, and the second value.
fn best_of(book: &PlainBook, table: &[Price], person: u16) -> Option<(u16, i128, Option<i128>)> {
    let mut best: Option<(u16, i128)> = None;
    let mut second: Option<i128> = None;
    for j in 0..book.n {
        let object = j.wrapping_add(1);
        let Some(benefit) = benefit(book, person, object) else {
            continue;
        };
        let value = benefit.wrapping_sub(at(table, object).unwrap_or(0));
        match best {
            Some((_, most)) if value <= most => second = second.max(Some(value)),
            Some((_, most)) => {
                second = Some(most);
                best = Some((object, value));
            }
            None => best = Some((object, value)),
        }
    }
    let (object, value) = best?;
    Some((object, value, second))
}

// The offer of a person under a table: an object at a level, if the value of one is at least the
// floor.
pub(crate) fn offer(book: &PlainBook, table: &[Price], person: u16) -> Option<(Object, Price)> {
    let (object, value, second) = best_of(book, table, person)?;
    if value < book.floor {
        return None;
    }
    let bar = second.unwrap_or(book.floor).max(book.floor);
    let benefit = benefit(book, person, object)?;
    Some((
        Object(object),
        benefit.wrapping_sub(bar).wrapping_add(book.eps),
    ))
}

// Whether everybody is assigned.
pub(crate) fn is_assigned(book: &PlainBook) -> bool {
    book.owners.iter().all(|owner| owner.is_some())
}
