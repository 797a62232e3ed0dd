// Rounds of offers: the outcome of a run.
mod beside;
mod drawn;
mod equal_rows;
mod round_by_round;
mod transcription;
mod worked;

use assign_core::{Cost, GREATEST_COST, GREATEST_FIRST_PRICE, Outcome, Price, Sense, SolveFault};
use rounds::{Alone, InPieces, LEAST_PAIRS, Offering, solve_rounds_by};
use std::alloc::{AllocError, Global};
use std::thread::Threads;
use test_helpers::{
    Pair, benefit_range, best_cost, cost_of, dense, draw, first_prices, numbers_of, plain_benefits,
    scaled_of, size,
};

// Persons 1 and 2 list objects 1 and 2 at costs 1, 2 and 3, 5.
const TWO_PERSONS: [Pair; 4] = [(1, 1, 1), (1, 2, 2), (2, 1, 3), (2, 2, 5)];

// Persons 1 and 2 list only object 1, and person 3 the two others.
const CONTESTED: [Pair; 4] = [(1, 1, 4), (2, 1, 6), (3, 2, 1), (3, 3, 2)];

// Both senses in turn.
fn sense_of(turn: usize) -> Sense {
    if turn % 2 == 0 {
        Sense::Min
    } else {
        Sense::Max
    }
}

// The result of a run: the objects and prices, or the persons and objects of a Hall set.
#[derive(PartialEq, Eq, Drop)]
enum Seen {
    Best(Vec<u16>, Vec<Price>),
    Hall(Vec<u16>, Vec<u16>),
}

fn seen_in(alloc: Global, outcome: &Outcome) -> Result<Seen, AllocError> {
    match outcome {
        Outcome::Best(certificate) => {
            let objects = numbers_of(alloc, certificate.assignment.objects())?;
            let prices = certificate.prices.as_slice().to_vec(alloc)?;
            Ok(Seen::Best(objects, prices))
        }
        Outcome::Hall(hall) => {
            let persons = numbers_of(alloc, hall.persons())?;
            Ok(Seen::Hall(persons, numbers_of(alloc, hall.objects())?))
        }
    }
}

// The result of a call.
fn settled(alloc: Global, came: Result<Outcome, SolveFault>) -> Result<Seen, AllocError> {
    match came {
        Ok(outcome) => seen_in(alloc, &outcome),
        Err(_) => Err(AllocError),
    }
}

// The result of rounds with this maker of offers.
fn solved_by<O: Offering>(
    offering: &mut O,
    alloc: Global,
    n: u16,
    pairs: &[Pair],
    sense: Sense,
    first: &[Price],
) -> Result<Seen, AllocError>
    requires { O.ready }
{
    let n = size(n);
    let scaled = scaled_of(alloc, n, pairs, sense)?;
    let prices = first_prices(alloc, n, first)?;
    settled(alloc, solve_rounds_by(offering, alloc, scaled, prices))
}

// The result of rounds in pieces of at least this many pairs.
fn solved(
    rt: &(impl Threads + Sync),
    alloc: Global,
    least: usize,
    n: u16,
    pairs: &[Pair],
    sense: Sense,
    first: &[Price],
) -> Result<Seen, AllocError> {
    solved_by(&mut InPieces { rt, least }, alloc, n, pairs, sense, first)
}
