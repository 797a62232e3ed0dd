// What a search found, if the checkers accept it.
ghost use Rattle.std.specs.Prelude.{IfOk, IfSome};
ghost use Rattle.assign_core.specs.declared.sense.Sense.{Sense};
ghost use Rattle.assign_core.specs.Outcomes.{IsProof};

use super::pieces::{PieceEnd, State};
use assign_core::{Numbered, Outcome, Price, Problem, Sense};
use dual_checker::{confirm_best, confirm_hall};
use sparse_search::HallSet;
use std::alloc::{AllocError, Global};

// The persons or objects at these places; number 0 for nobody.
fn numbers_at<T: Numbered + Drop>(alloc: Global, places: &[u32]) -> Result<Vec<T>, AllocError> {
    let mut numbers = Vec::with_capacity(alloc, places.len())?;
    for place in places {
        let number = u16::try_from(place.wrapping_add(1)).unwrap_or(0);
        numbers.push(T::with_number(number))?;
    }
    Ok(numbers)
}

// Prices in the unit of benefits.
fn scaled_prices(alloc: Global, prices: &[i64]) -> Result<Vec<Price>, AllocError> {
    let step = Price::from(prices.len() as u64).wrapping_add(1);
    let mut scaled = Vec::with_capacity(alloc, prices.len())?;
    for price in prices {
        scaled.push(Price::from(*price).wrapping_mul(step))?;
    }
    Ok(scaled)
}

// These objects of all persons at these prices.
fn best_of(
    alloc: Global,
    problem: &Problem,
    sense: Sense,
    state: &State,
) -> Result<Option<Outcome>, AllocError>
    ensures { IfOk result (λ found. IfSome found (IsProof sense problem.now)) }
{
    let objects = numbers_at(alloc, state.objects.as_slice())?;
    let prices = scaled_prices(alloc, state.prices.as_slice())?;
    confirm_best(alloc, problem, sense, objects, prices)
}

// These persons with these objects.
fn hall_of(alloc: Global, problem: &Problem, set: &HallSet) -> Result<Option<Outcome>, AllocError>
    ensures { IfOk result (λ found. IfSome found
        (λ outcome. (sense : Sense) → IsProof sense problem.now outcome)) }
{
    let persons = numbers_at(alloc, set.persons.as_slice())?;
    let objects = numbers_at(alloc, set.objects.as_slice())?;
    confirm_hall(alloc, problem, persons, objects)
}

/// The outcome at the end of a search. `None` if it is no proof.
pub fn outcome_of(
    alloc: Global,
    problem: &Problem,
    sense: Sense,
    end: PieceEnd,
    state: &State,
) -> Result<Option<Outcome>, AllocError>
    ensures { IfOk result (λ found. IfSome found (IsProof sense problem.now)) }
{
    match end {
        PieceEnd::Best => best_of(alloc, problem, sense, state),
        PieceEnd::Hall(set) => hall_of(alloc, problem, &set),
        PieceEnd::Stopped | PieceEnd::Lost => Ok(None),
    }
}
