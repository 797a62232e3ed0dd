// A plain book and its workers, over lists of events.
use super::drawn::Case;
use super::plain::{PlainBook, at, offer, opened, prices, version};
use super::plain_calls;
use assign_core::{Person, Price};
use auction_book::{Claim, Event};
use bidder::{BelowFloor, Bid, Offer};
use std::alloc::{AllocError, Global};

// The state of a worker.
#[derive(Drop)]
pub(crate) struct PlainState {
    pub table: Vec<Price>,
    pub version: u128,
    pub offer: Option<Offer>,
    pub accepted: u128,
}

// A state with these prices.
fn open_state(alloc: Global, first: &[Price]) -> Result<PlainState, AllocError> {
    Ok(PlainState {
        table: first.to_vec(alloc)?,
        version: 0,
        offer: None,
        accepted: 0,
    })
}

// Adds a state for each worker, with these prices.
fn add_states(
    alloc: Global,
    states: &mut Vec<PlainState>,
    first: &[Price],
    workers: u16,
) -> Result<(), AllocError> {
    for _ in 0..workers {
        states.push(open_state(alloc, first)?)?;
    }
    Ok(())
}

// Submits the prepared offer. For a person below the floor it searches, and if it finds an unowned
// object the person waits again.
fn submit(
    alloc: Global,
    plain: &mut PlainBook,
    worker: u16,
    offer: Option<Offer>,
) -> Result<(), AllocError> {
    match offer {
        None => {}
        Some(Offer::Bid(bid)) => {
            let _answer = plain_calls::submit(
                alloc, plain, worker, bid.person, bid.phase, bid.object, bid.level,
            )?;
        }
        Some(Offer::Below(below)) => match plain_calls::search(alloc, plain, below.person)? {
            Some(hall) => {
                let _answer = plain_calls::below(plain, worker, below.person, below.phase, hall)?;
            }
            None => plain_calls::give_up(plain, worker)?,
        },
    }
    Ok(())
}

// The offer of a person, from a table of this version.
fn offer_from(plain: &PlainBook, table: &[Price], version: u128, person: Person) -> Offer {
    let phase = plain.phase;
    match offer(plain, table, person.0) {
        Some((object, level)) => Offer::Bid(Bid {
            person,
            object,
            level,
            phase,
            version,
        }),
        None => Offer::Below(BelowFloor { person, phase }),
    }
}

// One event.
fn happen(
    alloc: Global,
    plain: &mut PlainBook,
    states: &mut [PlainState],
    event: Event,
) -> Result<(), AllocError> {
    let worker = event.worker;
    let Some(state) = states.get_mut((worker as usize).wrapping_sub(1)) else {
        return Ok(());
    };
    let offer = state.offer.take();
    submit(alloc, plain, worker, offer)?;
    state.accepted = at(plain.counts.as_slice(), worker).unwrap_or(0);
    if event.catch_up {
        plain_calls::catch_up(plain, worker);
        state.table = prices(plain).to_vec(alloc)?;
        state.version = version(plain);
    }
    if plain_calls::phase_over(plain) {
        plain_calls::next_phase(alloc, plain)?;
    }
    state.offer = match plain_calls::claim(plain, worker) {
        Claim::Person(person, _) => {
            Some(offer_from(plain, state.table.as_slice(), state.version, person))
        }
        _ => None,
    };
    Ok(())
}

// A plain book and the states of its workers.
#[derive(Drop)]
pub(crate) struct PlainWorld {
    pub book: PlainBook,
    pub states: Vec<PlainState>,
}

// The plain world of a case before the first event, without its workers' states.
fn open_world(alloc: Global, case: &Case) -> Result<PlainWorld, AllocError> {
    let book = opened(alloc, case)?;
    Ok(PlainWorld {
        book,
        states: Vec::new(alloc),
    })
}

// The events of a case, from new states of its workers.
fn all_happen(
    alloc: Global,
    world: &mut PlainWorld,
    case: &Case,
    events: &[Event],
) -> Result<(), AllocError> {
    add_states(
        alloc,
        &mut world.states,
        case.first.as_slice(),
        case.workers,
    )?;
    for event in events {
        happen(alloc, &mut world.book, world.states.as_mut_slice(), *event)?;
    }
    Ok(())
}

// The plain world of a case after these events.
pub(crate) fn plain_run(
    alloc: Global,
    case: &Case,
    events: &[Event],
) -> Result<PlainWorld, AllocError> {
    let mut world = open_world(alloc, case)?;
    all_happen(alloc, &mut world, case, events)?;
    Ok(world)
}
