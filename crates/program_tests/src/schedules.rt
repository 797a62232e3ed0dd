// The answers and Hall sets of drawn runs of the book, checked by the checkers.
use crate::texts::problem_in;
use assign_core::{Price, Problem, Sense};
use auction_book::{Book, Event, World, run_schedule_from};
use dual_checker::{HallVerdict, Verdict, check, check_hall};
use scaled_values::scale;
use std::alloc::{AllocError, Global};
use std::process::Abort;
use std::sync::Arc;
use std::test::Fail;
use test_helpers::{first_prices, next_number};

// The text of at most five persons, who list all objects or some, with few different costs or many.
fn drawn_text(alloc: Global, seed: &mut u64) -> Result<String, AllocError> {
    let n = next_number(seed) % 5 + 1;
    let share = next_number(seed) % 3 + 2;
    let costs = [3, 20, 1000][(next_number(seed) % 3) as usize];
    let mut text = format!(in alloc; "{n}")?;
    for place in 0..n * n {
        let cost = next_number(seed).wrapping_rem(costs) as i64 - 2;
        if next_number(seed) % 4 < share {
            write!(text, " {} {} {cost}", place / n + 1, place % n + 1)?;
        }
    }
    Ok(text)
}

// First prices of n objects: up to 40 for some of them, and 0 for the rest.
fn drawn_prices(alloc: Global, seed: &mut u64, n: u16) -> Result<Vec<Price>, AllocError> {
    let priced = next_number(seed) % 6;
    let mut prices = Vec::with_capacity(alloc, n as usize)?;
    for i in 0..n {
        let most = if u64::from(i) < priced { 40 } else { 0 };
        prices.push((next_number(seed) % (most + 1)) as Price)?;
    }
    Ok(prices)
}

// Events of workers 0 to 4, some of which don't exist.
fn drawn_events(alloc: Global, seed: &mut u64) -> Result<Vec<Event>, AllocError> {
    let share = next_number(seed) % 4 + 1;
    let mut events = Vec::new(alloc);
    for _ in 0..500 {
        events.push(Event {
            worker: (next_number(seed) % 5) as u16,
            catch_up: next_number(seed) % 4 < share,
        })?;
    }
    Ok(events)
}

// The world of some workers on this problem, after drawn events from drawn prices.
fn drawn_world(
    alloc: Global,
    seed: &mut u64,
    problem: Problem,
    sense: Sense,
) -> Result<World, AllocError> {
    let n = problem.n();
    let scaled = Arc::new(alloc, scale(alloc, problem, sense)?)?;
    let given = drawn_prices(alloc, seed, n)?;
    let prices = first_prices(alloc, n, given.as_slice())?;
    let workers = (next_number(seed) % 4) as u16 + 1;
    let events = drawn_events(alloc, seed)?;
    run_schedule_from(alloc, scaled, prices, workers, events.as_slice())
}

// The ends of the runs.
#[derive(Clone, Copy)]
struct Ends {
    done: u32,
    refuted: u32,
}

// Whether a checker accepts what the book has found, if it has found anything.
fn is_taken(
    alloc: Global,
    problem: &Problem,
    sense: Sense,
    book: &Book,
    ends: &mut Ends,
) -> Result<bool, AllocError> {
    if let Some(hall) = book.refuted() {
        ends.refuted = ends.refuted.wrapping_add(1);
        let verdict = check_hall(alloc, problem, hall.persons(), hall.objects())?;
        return Ok(verdict == HallVerdict::Yes);
    }
    let Some(certificate) = book.answer(alloc)? else {
        return Ok(true);
    };
    ends.done = ends.done.wrapping_add(1);
    let objects = certificate.assignment.objects();
    let verdict = check(
        alloc,
        problem,
        sense,
        objects,
        certificate.prices.as_slice(),
    )?;
    Ok(verdict == Verdict::Yes)
}

// Whether the checkers accept the result of a drawn list of events on the problem of a text.
fn goes_well(
    alloc: Global,
    seed: &mut u64,
    text: &str,
    sense: Sense,
    ends: &mut Ends,
) -> Result<bool, Fail> {
    let world = drawn_world(
        alloc,
        seed,
        problem_in(alloc, text.as_bytes(), true)?,
        sense,
    )?;
    let problem = problem_in(alloc, text.as_bytes(), true)?;
    Ok(is_taken(alloc, &problem, sense, &world.book, ends)?)
}

// Asserts that they accept it on a drawn problem.
fn assert_drawn(
    rt: &impl Abort,
    alloc: Global,
    seed: &mut u64,
    sense: Sense,
    ends: &mut Ends,
) -> Result<(), Fail> {
    let text = drawn_text(alloc, seed)?;
    assert!(rt;
        goes_well(alloc, seed, text.as_str(), sense, ends)?,
        "on {text}"
    );
    Ok(())
}

#[test]
fn drawn_worlds(rt: HostRuntime) -> Result<(), Fail> {
    let alloc = rt.alloc();
    let mut seed = 2028;
    let mut ends = Ends {
        done: 0,
        refuted: 0,
    };
    for _ in 0..400 {
        for sense in [Sense::Min, Sense::Max] {
            assert_drawn(&rt, alloc, &mut seed, sense, &mut ends)?;
        }
    }
    assert!(rt; ends.done > 300 && ends.refuted > 100);
    Ok(())
}
