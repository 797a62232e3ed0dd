// Runs of the core on small problems, worked by hand.
use super::seen::{answers, records};
use assign_core::{Object, Person, Price, Problem, Sense};
use auction_book::{Book, Event, WorkerState, World, run_schedule};
use bidder::Offer;
use scaled_values::{Scaled, scale};
use std::alloc::{AllocError, Global};
use std::sync::Arc;
use std::test::Fail;

// Two persons: person 1 lists objects 1 and 2 at 1 and 2, person 2 at 3 and 5.
fn two_persons(alloc: Global) -> Result<Arc<Scaled>, AllocError> {
    let problem = Problem::dense(alloc, 2, &[1, 2, 3, 5])?;
    Ok(Arc::new(alloc, scale(alloc, problem, Sense::Min)?)?)
}

// Three persons, of which 1 and 2 list only object 1.
fn three_persons(alloc: Global) -> Result<Arc<Scaled>, AllocError> {
    let first = vec![in alloc; (Object(1), 4)]?;
    let second = vec![in alloc; (Object(1), 6)]?;
    let third = vec![in alloc; (Object(2), 1), (Object(3), 2)]?;
    let problem = Problem::from_rows(vec![in alloc; first, second, third]?);
    Ok(Arc::new(alloc, scale(alloc, problem, Sense::Min)?)?)
}

fn event(worker: u16, catch_up: bool) -> Event {
    Event { worker, catch_up }
}

// After an event: the prices of the worker's table and their version, its prepared bid as person,
// object and level, and the current prices and their version.
type Step = (
    [Price; 2],
    u128,
    Option<(u16, u16, Price)>,
    [Price; 2],
    u128,
);

fn twelve_events() -> [(Event, Step); 12] {
    [
        (event(1, false), ([0, 0], 0, Some((1, 1, 5)), [0, 0], 0)),
        (event(2, false), ([0, 0], 0, Some((2, 1, 8)), [0, 0], 0)),
        (event(2, false), ([0, 0], 0, None, [8, 0], 1)),
        (event(1, true), ([8, 0], 1, Some((1, 2, 7)), [8, 0], 1)),
        (event(1, false), ([8, 0], 1, Some((1, 2, 6)), [8, 7], 2)),
        (event(2, false), ([0, 0], 0, Some((2, 1, 7)), [8, 7], 2)),
        (event(1, true), ([8, 7], 2, Some((1, 1, 11)), [8, 7], 2)),
        (event(2, false), ([0, 0], 0, Some((2, 1, 7)), [8, 7], 2)),
        (event(1, false), ([8, 7], 2, None, [11, 7], 3)),
        (event(2, true), ([11, 7], 3, Some((2, 1, 14)), [11, 7], 3)),
        (event(2, false), ([11, 7], 3, Some((1, 2, 9)), [14, 7], 4)),
        (event(2, false), ([11, 7], 3, None, [14, 9], 5)),
    ]
}

fn bid_of(offer: Option<Offer>) -> Option<(u16, u16, Price)> {
    match offer {
        Some(Offer::Bid(bid)) => Some((bid.person.0, bid.object.0, bid.level)),
        _ => None,
    }
}

fn is_step(world: &World, worker: u16, step: Step) -> bool {
    let (table, of_table, bid, prices, version) = step;
    match world.states.get((worker as usize).wrapping_sub(1)) {
        Some(state) => {
            state.table.as_slice() == table.as_slice()
                && state.version == of_table
                && bid_of(state.offer) == bid
                && world.book.prices().as_slice() == prices.as_slice()
                && world.book.version() == version
        }
        None => false,
    }
}

// The world of the two persons after these events of two workers.
fn run_two(alloc: Global, events: &[Event]) -> Result<World, AllocError> {
    let scaled = two_persons(alloc)?;
    run_schedule(alloc, scaled, 2, events)
}

// Whether this holds after the last of these events.
fn goes(alloc: Global, events: &[Event], worker: u16, step: Step) -> Result<bool, AllocError> {
    let world = run_two(alloc, events)?;
    Ok(is_step(&world, worker, step))
}

// Whether the twelve events go as worked out, one after the other.
fn steps_go(alloc: Global) -> Result<bool, AllocError> {
    let mut events = Vec::new(alloc);
    for (event, step) in twelve_events() {
        events.push(event)?;
        if !goes(alloc, events.as_slice(), event.worker, step)? {
            return Ok(false);
        }
    }
    Ok(true)
}

// The twelve events.
fn known_events(alloc: Global) -> Result<Vec<Event>, AllocError> {
    let mut events = Vec::new(alloc);
    for (known, _) in twelve_events() {
        events.push(known)?;
    }
    Ok(events)
}

// Whether these acceptances were reported to the workers.
fn told(states: &[WorkerState]) -> bool {
    match states {
        [first, second] => first.accepted == 2 && second.accepted == 3,
        _ => false,
    }
}

// Whether all is right after the twelve events.
fn ends(alloc: Global, world: &World) -> Result<bool, AllocError> {
    let answered = answers(alloc, &world.book, &[Object(2), Object(1)], &[14, 9])?;
    Ok(
        answered
            && world.book.owners() == [Some(Person(2)), Some(Person(1))].as_slice()
            && world.book.first_kept() == 2
            && told(world.states.as_slice()),
    )
}

fn twelve_end(alloc: Global) -> Result<bool, AllocError> {
    let events = known_events(alloc)?;
    let world = run_two(alloc, events.as_slice())?;
    ends(alloc, &world)
}

#[test]
fn twelve_events_of_two_workers(rt: HostRuntime) -> Result<(), Fail> {
    assert!(rt; steps_go(rt.alloc())?);
    assert!(rt; twelve_end(rt.alloc())?);
    Ok(())
}

// The twelve events, each between two events for numbers without a worker.
fn events_between(alloc: Global) -> Result<Vec<Event>, AllocError> {
    let mut events = Vec::new(alloc);
    for (known, _) in twelve_events() {
        events.push(event(0, true))?;
        events.push(known)?;
        events.push(event(3, false))?;
    }
    Ok(events)
}

fn ends_between(book: &Book) -> bool {
    book.prices().as_slice() == [14, 9].as_slice() && book.version() == 5 && book.first_kept() == 2
}

fn alike(first: &WorkerState, second: &WorkerState) -> bool {
    first.table.as_slice() == second.table.as_slice()
        && first.version == second.version
        && first.offer == second.offer
        && first.accepted == second.accepted
}

fn both_alike(first: &[WorkerState], second: &[WorkerState]) -> bool {
    match (first, second) {
        ([a, b], [c, d]) => alike(a, c) && alike(b, d),
        _ => false,
    }
}

fn known_world(alloc: Global) -> Result<World, AllocError> {
    let known = known_events(alloc)?;
    run_two(alloc, known.as_slice())
}

fn world_between(alloc: Global) -> Result<World, AllocError> {
    let events = events_between(alloc)?;
    run_two(alloc, events.as_slice())
}

// Whether the book and all states end as without the events between.
fn between_end(alloc: Global) -> Result<bool, AllocError> {
    let plain = known_world(alloc)?;
    let world = world_between(alloc)?;
    Ok(ends_between(&world.book) && both_alike(world.states.as_slice(), plain.states.as_slice()))
}

#[test]
fn events_of_no_worker_change_nothing(rt: HostRuntime) -> Result<(), Fail> {
    assert!(rt; between_end(rt.alloc())?);
    Ok(())
}

// Sixty events of workers in turn. A worker that never catches up never learns that its bids are
// too low, so the last half of the events catch up.
fn in_turn(alloc: Global, workers: u16, catch_up: bool) -> Result<Vec<Event>, AllocError> {
    let mut events = Vec::new(alloc);
    let mut worker = 1u16;
    for i in 0..60u16 {
        events.push(event(worker, catch_up || i >= 30))?;
        worker = if worker < workers { worker + 1 } else { 1 };
    }
    Ok(events)
}

// Whether these events refute the problem of the three persons.
fn refutes(alloc: Global, workers: u16, catch_up: bool) -> Result<bool, AllocError> {
    let events = in_turn(alloc, workers, catch_up)?;
    let scaled = three_persons(alloc)?;
    let world = run_schedule(alloc, scaled, workers.max(1), events.as_slice())?;
    Ok(records(&world.book, &[Person(1), Person(2)], &[Object(1)]))
}

#[test]
fn an_infeasible_problem_is_refuted(rt: HostRuntime) -> Result<(), Fail> {
    for (workers, catch_up) in [(1u16, true), (2, true), (3, false)] {
        assert!(rt; refutes(rt.alloc(), workers, catch_up)?);
    }
    Ok(())
}
