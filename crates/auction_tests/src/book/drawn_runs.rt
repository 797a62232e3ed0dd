// Runs over drawn lists of events, compared with a plain book and its workers.
use super::drawn::{Case, drawn_case};
use super::plain::PlainBook;
use super::plain_calls::answer;
use super::plain_world::{PlainState, PlainWorld, plain_run};
use super::sequences::{same, same_answer};
use auction_book::{Event, WorkerState, World, run_schedule_from};
use std::alloc::{AllocError, Global};
use std::test::Fail;
use test_helpers::{draw_wide, first_prices, scaled_of, size};

// At most `most` events, a few of them for numbers without a worker.
fn drawn_events(
    alloc: Global,
    seed: &mut u64,
    workers: u16,
    most: u64,
) -> Result<Vec<Event>, AllocError> {
    let share = draw_wide(seed, 5);
    let numbers = u64::from(workers).wrapping_mul(8).wrapping_add(2);
    let mut events = Vec::new(alloc);
    for _ in 0..draw_wide(seed, most.wrapping_add(1)) {
        let place = draw_wide(seed, numbers).wrapping_add(7);
        events.push(Event {
            worker: u16::try_from(place.wrapping_div(8)).unwrap_or(0),
            catch_up: draw_wide(seed, 4) < share,
        })?;
    }
    Ok(events)
}

fn same_state(state: &WorkerState, plain: &PlainState) -> bool {
    state.table.as_slice() == plain.table.as_slice()
        && state.version == plain.version
        && state.offer == plain.offer
        && state.accepted == plain.accepted
}

fn same_states(states: &[WorkerState], plain: &[PlainState]) -> bool {
    for i in 0..states.len() {
        match plain.get(i) {
            Some(other) if same_state(&states[i], other) => {}
            _ => return false,
        }
    }
    states.len() == plain.len()
}

// The world of a case after these events.
fn run(alloc: Global, case: &Case, events: &[Event]) -> Result<World, AllocError> {
    let n = size(case.n);
    let scaled = scaled_of(alloc, n, case.pairs.as_slice(), case.sense)?;
    let prices = first_prices(alloc, n, case.first.as_slice())?;
    run_schedule_from(alloc, scaled, prices, case.workers.max(1), events)
}

// The ends of the runs.
#[derive(Clone, Copy)]
struct Ends {
    done: u32,
    refuted: u32,
    further: u32,
}

fn note(alloc: Global, plain: &PlainBook, ends: &mut Ends) -> Result<(), AllocError> {
    let count = if plain.hall.is_some() {
        &mut ends.refuted
    } else if answer(alloc, plain)?.is_some() {
        &mut ends.done
    } else {
        &mut ends.further
    };
    *count = count.wrapping_add(1);
    Ok(())
}

// Whether both worlds are the same, with the end of the plain one counted.
fn note_and_compare(
    alloc: Global,
    world: &World,
    plain: &PlainWorld,
    ends: &mut Ends,
) -> Result<bool, AllocError> {
    note(alloc, &plain.book, ends)?;
    same_world(alloc, world, plain)
}

fn same_world(alloc: Global, world: &World, plain: &PlainWorld) -> Result<bool, AllocError> {
    Ok(
        same_states(world.states.as_slice(), plain.states.as_slice())
            && same(alloc, &world.book, &plain.book)?
            && same_answer(alloc, &world.book, &plain.book)?,
    )
}

// Whether the plain world of these events is the same, with its end counted.
fn agrees(
    alloc: Global,
    world: &World,
    case: &Case,
    events: &[Event],
    ends: &mut Ends,
) -> Result<bool, AllocError> {
    let plain = plain_run(alloc, case, events)?;
    note_and_compare(alloc, world, &plain, ends)
}

// Whether the book's world after these events and the plain one are the same.
fn events_agree(
    alloc: Global,
    case: &Case,
    events: &[Event],
    ends: &mut Ends,
) -> Result<bool, AllocError> {
    let world = run(alloc, case, events)?;
    agrees(alloc, &world, case, events, ends)
}

// Whether a drawn run ends in the same world as the plain one.
fn run_agrees(
    alloc: Global,
    seed: &mut u64,
    most: u64,
    ends: &mut Ends,
) -> Result<bool, AllocError> {
    let case = drawn_case(alloc, seed, 5, 4)?;
    let events = drawn_events(alloc, seed, case.workers, most)?;
    events_agree(alloc, &case, events.as_slice(), ends)
}

#[test]
fn drawn_runs(rt: HostRuntime) -> Result<(), Fail> {
    let mut seed = 12;
    let mut ends = Ends {
        done: 0,
        refuted: 0,
        further: 0,
    };
    for _ in 0..800 {
        assert!(rt; run_agrees(rt.alloc(), &mut seed, 200, &mut ends)?);
    }
    assert!(rt; ends.done > 100 && ends.refuted > 100 && ends.further > 100);
    Ok(())
}
