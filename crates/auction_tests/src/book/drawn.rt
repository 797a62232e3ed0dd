// Small problems with first prices and workers, drawn from a seed or given.
ghost use Rattle.std.specs.Prelude.{◌<◌};

use assign_core::{Price, Sense};
use std::alloc::{AllocError, Global};
use test_helpers::{Pair, draw, draw_wide, drawn_pairs, drawn_sense};

// A problem with first prices, and the number of workers.
#[derive(Drop)]
pub(crate) struct Case {
    pub n: u16,
    pub pairs: Vec<Pair>,
    pub sense: Sense,
    pub first: Vec<Price>,
    pub workers: u16,
}

// A case of two persons and two workers: person 1 lists objects 1 and 2 at 1 and 2, person 2 at 3
// and 5.
pub(crate) fn two_persons(alloc: Global, first: &[Price]) -> Result<Case, AllocError> {
    Ok(Case {
        n: 2,
        pairs: vec![in alloc; (1, 1, 1), (1, 2, 2), (2, 1, 3), (2, 2, 5)]?,
        sense: Sense::Min,
        first: first.to_vec(alloc)?,
        workers: 2,
    })
}

// A number from 1 to `last`.
fn drawn_number(seed: &mut u64, last: u16) -> u16 {
    let place = draw_wide(seed, u64::from(last));
    u16::try_from(place).unwrap_or(0).wrapping_add(1)
}

// The number of different costs, few or many.
fn drawn_costs(seed: &mut u64) -> u16
    ensures { 0 < result }
{
    match draw(seed, 3) {
        0 => 3,
        1 => 20,
        _ => 1000,
    }
}

// First prices of n objects: all 0, or up to 40.
fn drawn_first(alloc: Global, seed: &mut u64, n: u16) -> Result<Vec<Price>, AllocError> {
    let range = if draw(seed, 2) == 0 { 1 } else { 41 };
    let mut first = Vec::new(alloc);
    for _ in 0..n {
        first.push(Price::from(draw(seed, range)))?;
    }
    Ok(first)
}

// Pairs of n persons: all of them or some, with few costs or many.
fn drawn_rows(alloc: Global, seed: &mut u64, n: u16) -> Result<Vec<Pair>, AllocError> {
    let costs = drawn_costs(seed);
    let share = draw(seed, 4) + 1;
    drawn_pairs(alloc, seed, n, share, costs)
}

// A case of at most this many persons and workers.
pub(crate) fn drawn_case(
    alloc: Global,
    seed: &mut u64,
    persons: u16,
    workers: u16,
) -> Result<Case, AllocError> {
    let n = drawn_number(seed, persons);
    let workers = drawn_number(seed, workers);
    let sense = drawn_sense(seed);
    let pairs = drawn_rows(alloc, seed, n)?;
    let first = drawn_first(alloc, seed, n)?;
    Ok(Case {
        n,
        pairs,
        sense,
        first,
        workers,
    })
}
