// Turns worked by hand: persons 1 and 2 list objects 1 and 2 at costs 1, 2 and 3, 5.
ghost use Rattle.std.specs.Prelude.{◌<◌, All, IfOk};
ghost use Rattle.async_workers.specs.PlaceRule.{IsUntouched};
ghost use Rattle.async_workers.specs.Turns.{CanTurn};

use super::accepted_by;
use super::scripts::{
    Heard, Story, give_all_up, new_book, next_person, opened, played, run_script,
};
use assign_core::{Outcome, Price, Prices, Sense};
use async_workers::{BookPlace, Desk, Note, OpenGate, go_alone, take_turns};
use auction_book::{Book, Refused};
use std::alloc::{AllocError, Global};
use std::sync::Wait;
use std::test::Fail;
use test_helpers::{Pair, first_prices, numbers_of, scaled_of};

const PAIRS: [Pair; 4] = [(1, 1, 1), (1, 2, 2), (2, 1, 3), (2, 2, 5)];

// A script with its refresh and its expected result: its letters, what the gate sees, and the final
// prices, acceptances and claims of the book.
#[derive(Clone, Copy)]
struct Wanted {
    script: &'static str,
    refresh: u64,
    came: &'static str,
    heard: &'static str,
    prices: [Price; 2],
    accepted: [u128; 2],
    held: [u16; 2],
}

// A book of that problem.
fn book_of(alloc: Global, workers: u16) -> Result<Book, AllocError>
    requires { 0 < workers }
    ensures { IfOk result IsUntouched }
{
    let scaled = scaled_of(alloc, 2, PAIRS.as_slice(), Sense::Min)?;
    let prices = first_prices(alloc, 2, &[])?;
    new_book(alloc, &scaled, &prices, workers)
}

// A script of two desks.
fn story_of<R: Wait>(
    rt: &R,
    alloc: Global,
    script: &str,
    refresh: u64,
) -> Result<Story, AllocError> {
    let book = book_of(alloc, 2)?;
    played(rt, alloc, book, script.as_bytes(), refresh)
}

fn digit(number: u64) -> u8 {
    (number % 10) as u8 + b'0'
}

// The worker's number, and o for an offer, s and the number of sessions before a submission, and
// after a session a sign for its note.
fn letters_of(alloc: Global, heard: &[Heard]) -> Result<Vec<u8>, AllocError> {
    let mut letters = Vec::new(alloc);
    for step in heard {
        match *step {
            Heard::Offer(worker) => {
                letters.push(digit(u64::from(worker)))?;
                letters.push(b'o')?;
            }
            Heard::Submit(worker, turns) => {
                letters.push(digit(u64::from(worker)))?;
                letters.push(b's')?;
                letters.push(digit(turns))?;
            }
            Heard::Session(worker, note) => {
                letters.push(digit(u64::from(worker)))?;
                letters.push(sign_of(note))?;
            }
        }
    }
    Ok(letters)
}

fn sign_of(note: Note) -> u8 {
    match note {
        Note::Nothing => b'-',
        Note::Accepted => b'+',
        Note::Refused(Refused::TooLow(_)) => b'<',
        Note::Refused(_) => b'!',
    }
}

// The persons that workers 1, 2, .. of a book hold.
fn held_by(alloc: Global, book: &Book) -> Result<Vec<u16>, AllocError> {
    let mut held = Vec::new(alloc);
    for worker in 0..book.workers() {
        let person = match book.claimed_by(worker + 1) {
            Some(person) => person.0,
            None => 0,
        };
        held.push(person)?;
    }
    Ok(held)
}

// The part of a story that isn't as expected, if there is one.
fn fault_of(alloc: Global, story: &Story, wanted: &Wanted) -> Result<&'static str, AllocError> {
    let heard = letters_of(alloc, story.heard.as_slice())?;
    if story.came.as_slice() != wanted.came.as_bytes() {
        Ok("came")
    } else if heard.as_slice() != wanted.heard.as_bytes() {
        Ok("heard")
    } else {
        book_fault_of(alloc, story, wanted)
    }
}

fn book_fault_of(
    alloc: Global,
    story: &Story,
    wanted: &Wanted,
) -> Result<&'static str, AllocError> {
    let Some(book) = &story.book else {
        return Ok("no book");
    };
    let accepted = accepted_by(alloc, book)?;
    let held = held_by(alloc, book)?;
    if book.prices().as_slice() != wanted.prices.as_slice() {
        Ok("prices")
    } else if accepted.as_slice() != wanted.accepted.as_slice() {
        Ok("accepted")
    } else if held.as_slice() != wanted.held.as_slice() {
        Ok("held")
    } else {
        Ok("")
    }
}

// The expectation that a script doesn't meet, if there is one.
fn fault<R: Wait>(rt: &R, alloc: Global, wanted: &Wanted) -> Result<&'static str, AllocError> {
    let story = story_of(rt, alloc, wanted.script, wanted.refresh)?;
    fault_of(alloc, &story, wanted)
}

// A worker leaves and the other ends.
const LEFT: Wanted = Wanted {
    script: "1t 1l 1l 2t 2t 2t 2t 2t 2t",
    refresh: 1,
    came: "CynCCCCCD",
    heard: "1-1o2-2o2s12+2o2s22+2o2s32+2o2s42+2o2s52+",
    prices: [14, 12],
    accepted: [0, 5],
    held: [0, 0],
};

// A stop leaves a prepared bid.
const STOPPED: Wanted = Wanted {
    script: "1t 2t 1s 2t 1t",
    refresh: 1,
    came: "CCaSS",
    heard: "1-1o2-2o2s12+1-",
    prices: [8, 0],
    accepted: [0, 1],
    held: [0, 0],
};

// A bid from an old table is too low.
const TOO_LOW: Wanted = Wanted {
    script: "1t 2t 2t 1t 2l",
    refresh: 0,
    came: "CCICn",
    heard: "1-1o2-2o2s12+1s11<1o",
    prices: [8, 0],
    accepted: [0, 1],
    held: [1, 0],
};

// Two claims outlive their place.
const CLAIMED: Wanted = Wanted {
    script: "1t 2t",
    refresh: 1,
    came: "CC",
    heard: "1-1o2-2o",
    prices: [0, 0],
    accepted: [0, 0],
    held: [1, 2],
};

#[test]
fn worked_scripts(rt: HostRuntime) -> Result<(), Fail> {
    for wanted in [LEFT, STOPPED, TOO_LOW, CLAIMED] {
        let script = wanted.script;
        assert_eq!(rt; fault(&rt, rt.alloc(), &wanted)?, "", "{script}");
    }
    Ok(())
}

// The person that worker 1 claims next from the book of the closed place after all claims are given
// up, and whether this is then the only claim.
fn claimed_again<R: Wait>(
    rt: &R,
    alloc: Global,
    script: &str,
) -> Result<(Option<u16>, bool), AllocError> {
    let Story { book, .. } = story_of(rt, alloc, script, 1)?;
    let Some(mut book) = book else {
        return Ok((None, false));
    };
    give_all_up(&mut book);
    let person = next_person(&mut book, 1).map(|person| person.0);
    let held = held_by(alloc, &book)?;
    Ok((
        person,
        held.as_slice() == [person.unwrap_or(0), 0].as_slice(),
    ))
}

#[test]
fn a_claim_outlives_its_place(rt: HostRuntime) -> Result<(), Fail> {
    let claimed = claimed_again(&rt, rt.alloc(), CLAIMED.script)?;
    assert_eq!(rt; claimed, (Some(1), true));
    Ok(())
}

// What a test sees of a book of two objects.
#[derive(Clone, Copy)]
struct Found {
    prices: [Price; 2],
    assigned: u16,
    stopped: bool,
}

// The first two prices of a table.
fn two_of(prices: &Prices) -> [Price; 2] {
    let prices = prices.as_slice();
    [0, 1].map(|at: usize| prices.get(at).copied().unwrap_or(-1))
}

// The book that a desk finds in the place.
fn look<R: Wait>(rt: &R, place: &BookPlace, desk: &mut Desk) -> Found
    requires { CanTurn place.now desk.old }
{
    let held = desk.take(rt, place);
    let book = held.book();
    let found = Found {
        prices: two_of(book.prices()),
        assigned: book.assigned(),
        stopped: book.stopped(),
    };
    held.give(rt, place, desk);
    found
}

// The table of the first desk, and the prices of the book that it finds in the place.
fn prices_found<R: Wait>(
    rt: &R,
    place: &BookPlace,
    mut desks: Vec<Desk>,
) -> Option<([Price; 2], [Price; 2])>
    requires { All (CanTurn place.now) desks.items }
{
    if desks.is_empty() {
        return None;
    }
    let own = two_of(desks[0].table());
    let Found { prices, .. } = look(rt, place, &mut desks[0]);
    Some((own, prices))
}

// The table and the prices found after a script of one desk.
fn prices_after<R: Wait>(
    rt: &R,
    alloc: Global,
    script: &str,
) -> Result<Option<([Price; 2], [Price; 2])>, AllocError> {
    let book = book_of(alloc, 1)?;
    let (place, desks) = opened(rt, alloc, book)?;
    let (desks, _came) = run_script(rt, alloc, &place, desks, script.as_bytes(), 0, &OpenGate)?;
    Ok(prices_found(rt, &place, desks))
}

#[test]
fn the_next_book_has_the_own_raise(rt: HostRuntime) -> Result<(), Fail> {
    let found = prices_after(&rt, rt.alloc(), "1t1t")?;
    assert_eq!(rt; found, Some(([0, 0], [5, 0])));
    Ok(())
}

// A desk's turns up to the one that ends its run: whether there was a fault, the number of
// sessions, and the book found then.
fn run_of<R: Wait>(rt: &R, alloc: Global, place: &BookPlace, desk: &mut Desk) -> (bool, u64, Found)
    requires { CanTurn place.now desk.old }
{
    let fault = take_turns(rt, alloc, place, desk, 1, &OpenGate);
    let sessions = desk.sessions();
    (fault.is_some(), sessions, look(rt, place, desk))
}

fn run_first<R: Wait>(
    rt: &R,
    alloc: Global,
    place: &BookPlace,
    mut desks: Vec<Desk>,
) -> Option<(bool, u64, Found)>
    requires { All (CanTurn place.now) desks.items }
{
    if desks.is_empty() {
        return None;
    }
    Some(run_of(rt, alloc, place, &mut desks[0]))
}

// The run of the first of two desks after a script.
fn run_after<R: Wait>(
    rt: &R,
    alloc: Global,
    script: &str,
) -> Result<Option<(bool, u64, Found)>, AllocError> {
    let book = book_of(alloc, 2)?;
    let (place, desks) = opened(rt, alloc, book)?;
    let (desks, _came) = run_script(rt, alloc, &place, desks, script.as_bytes(), 1, &OpenGate)?;
    Ok(run_first(rt, alloc, &place, desks))
}

// A run ends when all have an object, and after a stop.
#[test]
fn a_worker_takes_turns_to_its_end(rt: HostRuntime) -> Result<(), Fail> {
    for (script, wanted, assigned, stopped, prices) in [
        ("", 7, 2, false, [14, 12]),
        ("1t1t2s", 3, 1, true, [8, 0]),
    ] {
        let Some((fault, sessions, found)) = run_after(&rt, rt.alloc(), script)? else {
            panic!(rt; "no desk");
        };
        assert_eq!(rt; (fault, sessions), (false, wanted));
        assert_eq!(rt; (found.assigned, found.stopped), (assigned, stopped));
        assert_eq!(rt; found.prices, prices);
    }
    Ok(())
}

// The objects of an optimal assignment, and none of another outcome.
fn objects_given(alloc: Global, outcome: &Outcome) -> Result<Vec<u16>, AllocError> {
    match outcome {
        Outcome::Best(certificate) => numbers_of(alloc, certificate.assignment.objects()),
        Outcome::Hall(_) => Ok(Vec::new(alloc)),
    }
}

// Whether one thread alone gives these objects to persons 1 and 2, after a claim of each worker and a stop.
fn are_given_alone<R: Wait>(rt: &R, alloc: Global, objects: &[u16]) -> Result<bool, AllocError> {
    let mut book = book_of(alloc, 2)?;
    let _first = next_person(&mut book, 1);
    let _second = next_person(&mut book, 2);
    book.stop();
    if book.workers() == 0 {
        return Ok(false);
    }
    let outcome = go_alone(rt, alloc, &mut book)?;
    Ok(objects_given(alloc, &outcome)?.as_slice() == objects)
}

#[test]
fn one_thread_goes_on_after_claims_and_a_stop(rt: HostRuntime) -> Result<(), Fail> {
    assert!(rt; are_given_alone(&rt, rt.alloc(), &[2, 1])?);
    Ok(())
}
