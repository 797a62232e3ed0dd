// Shortest paths: problems of all kinds, compared with a slow search and with rounds. The contract
// also allows a search that finds nothing; only these tests show that it finds answers.
mod kinds;
mod pieces;
mod starts;
mod wide;
mod worked;

use assign_core::{
    Cost, GREATEST_COST, GREATEST_FIRST_PRICE, MOST_PERSONS, Object, Outcome, Person, Price,
    Problem, Sense,
};
use exact_paths::{Observer, Unobserved, solve_by_rounds, solve_paths, try_paths};
use rounds::Alone;
use std::alloc::{AllocError, Global};
use test_helpers::{Pair, best_cost, first_prices, next_number, problem_of, scaled_of, size};

// The result of a search.
#[derive(Clone, Copy, Debug, PartialEq, Eq)]
enum Finding {
    // An assignment of this cost, with prices that are multiples of n + 1.
    Best(Cost),
    // An assignment with other prices.
    Inexact(Cost),
    Hall,
    Nothing,
}

// Whether all prices are multiples of n + 1.
fn are_exact(n: u16, prices: &[Price]) -> bool {
    let step = Price::from(n) + 1;
    prices.iter().all(|price| price.wrapping_rem(step) == 0)
}

// The sum of the costs of the objects of persons 1, 2, ..
fn cost_by(problem: &Problem, objects: &[Object]) -> Cost {
    let mut sum: Cost = 0;
    for i in 0..problem.n() {
        if let Some(object) = objects.get(i as usize) {
            let cost = problem.cost_of(Person(i + 1), *object);
            sum = sum.wrapping_add(cost.unwrap_or(0));
        }
    }
    sum
}

fn found_in(problem: &Problem, outcome: &Outcome) -> Finding {
    match outcome {
        Outcome::Hall(_) => Finding::Hall,
        Outcome::Best(best) => {
            let cost = cost_by(problem, best.assignment.objects());
            if are_exact(problem.n(), best.prices.as_slice()) {
                Finding::Best(cost)
            } else {
                Finding::Inexact(cost)
            }
        }
    }
}

// These prices, if first prices are given.
fn wished<'a>(first: Option<&[Price]>, prices: &'a [Price]) -> Option<&'a [Price]> {
    first.is_some().then_some(prices)
}

// What paths find, from first prices if they are given.
fn found(
    alloc: Global,
    n: u16,
    pairs: &[Pair],
    sense: Sense,
    first: Option<&[Price]>,
) -> Result<Finding, AllocError> {
    let problem = problem_of(alloc, size(n), pairs)?;
    let prices = first_prices(alloc, size(n), first.unwrap_or(&[]))?;
    let first = wished(first, prices.as_slice());
    match try_paths(alloc, &problem, sense, first, &Unobserved)? {
        Some(outcome) => Ok(found_in(&problem, &outcome)),
        None => Ok(Finding::Nothing),
    }
}

// The solver's outcome, from first prices if they are given, while this observer hears of it.
fn solved_by<O: Observer>(
    alloc: Global,
    problem: &Problem,
    first: Option<&[Price]>,
    observer: &O,
) -> Result<Outcome, AllocError> {
    solve_paths(alloc, problem, Sense::Min, first, observer, &mut Alone)
}
