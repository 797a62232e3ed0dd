// A plan of a dense problem that is best for its costs alone, and of all these plans one that changes fewest persons.
// Nobody vouches for what is found here.
use super::cycles::{Cycles, Rows, starts_of};
use super::tight::Tight;
use assign_core::{Cost, Sense};
use cost_lists::{Object, Price};
use dense_search::{DenseProblem, Outcome, Record, search};
use search_base::{NOBODY, place_at};
use std::alloc::{AllocError, Global};

/// A plan by places from 0, with prices, and what each person's own pair costs with its price.
#[derive(Drop)]
pub struct First {
    pub objects: Vec<Object>,
    pub prices: Vec<Price>,
    pub values: Vec<Price>,
}

/// A plan of fewest changes by numbers from 1, with prices at combined costs, of which none is more than `by` below
/// n + 1 times the first one.
#[derive(Drop)]
pub struct Fewest {
    pub objects: Vec<Object>,
    pub prices: Vec<i128>,
    pub by: u32,
}

// What a pair costs with its price, turned so that less is better.
fn value_of(problem: DenseProblem<'_>, person: usize, object: u32, prices: &[Price]) -> Price {
    let place = person
        .wrapping_mul(problem.objects)
        .wrapping_add(object as usize);
    let cost = problem.costs.get(place).copied().unwrap_or(0);
    let price = prices.get(object as usize).copied().unwrap_or(0);
    match problem.sense {
        Sense::Min => price.wrapping_add(cost),
        Sense::Max => price.wrapping_sub(cost),
    }
}

fn values_of(
    alloc: Global,
    problem: DenseProblem<'_>,
    objects: &[Object],
    prices: &[Price],
) -> Result<Vec<Price>, AllocError> {
    let mut values = vec![in alloc; 0i64; objects.len()]?;
    for (person, (value, object)) in values.iter_mut().zip(objects).enumerate() {
        *value = value_of(problem, person, *object, prices);
    }
    Ok(values)
}

/// A best plan of `n` persons and `m` objects, if the search finds one.
pub fn first_plan(
    alloc: Global,
    sense: Sense,
    n: usize,
    m: usize,
    costs: &[Cost],
) -> Result<Option<First>, AllocError> {
    let problem = DenseProblem {
        sense,
        persons: n,
        objects: m,
        costs,
    };
    let mut prices = vec![in alloc; 0i64; m]?;
    let mut objects = vec![in alloc; NOBODY; n]?;
    let (slice, places) = (prices.as_mut_slice(), objects.as_mut_slice());
    let outcome = search(alloc, problem, slice, places, &mut Record::cold(), 0)?;
    let Outcome::Best = outcome else {
        return Ok(None);
    };
    let values = values_of(alloc, problem, objects.as_slice(), prices.as_slice())?;
    Ok(Some(First {
        objects,
        prices,
        values,
    }))
}

// The objects whose price is 0: those that nobody has are among them.
fn unpriced(alloc: Global, prices: &[Price]) -> Result<Vec<u32>, AllocError> {
    let mut found = Vec::new(alloc);
    for (object, price) in prices.iter().enumerate() {
        if *price == 0 {
            found.push(place_at(object))?;
        }
    }
    Ok(found)
}

// Prices at combined costs, and how far one is below n + 1 times the first one.
fn prices_of(
    alloc: Global,
    cycles: &Cycles<'_>,
    first: &[Price],
) -> Result<(Vec<i128>, u32), AllocError> {
    let by = i128::from(place_at(cycles.objects.len())).wrapping_add(1);
    let mut prices = Vec::with_capacity(alloc, first.len())?;
    let mut least = 0i64;
    for (object, price) in first.iter().enumerate() {
        let potential = cycles.potential(place_at(object));
        least = least.min(potential);
        prices.push(
            i128::from(*price)
                .wrapping_mul(by)
                .wrapping_add(i128::from(potential)),
        )?;
    }
    Ok((prices, u32::try_from(least.unsigned_abs()).unwrap_or(0)))
}

fn to_numbers(places: &mut [u32]) {
    for place in places.iter_mut() {
        *place = place.wrapping_add(1);
    }
}

/// Of all plans over tight pairs one that changes fewest persons, if it is found before too many pairs are read.
pub fn fewest_over(
    alloc: Global,
    objects: Vec<Object>,
    prices: &[Price],
    kept: &[Object],
    tight: &[Tight],
    most: usize,
) -> Result<Option<Fewest>, AllocError> {
    let (n, m) = (objects.len(), prices.len());
    let starts = starts_of(alloc, n, tight)?;
    let rows = Rows {
        starts: starts.as_slice(),
        pairs: tight,
    };
    let free = if n < m {
        unpriced(alloc, prices)?
    } else {
        Vec::new(alloc)
    };
    let mut cycles = Cycles::new(alloc, rows, kept, free.as_slice(), objects, m, most)?;
    if !cycles.settle_all()? {
        return Ok(None);
    }
    let (found, by) = prices_of(alloc, &cycles, prices)?;
    let mut objects = cycles.objects;
    to_numbers(objects.as_mut_slice());
    Ok(Some(Fewest {
        objects,
        prices: found,
        by,
    }))
}
