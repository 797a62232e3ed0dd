// A slow search of all assignments, slow prices, and a slow checker.
use super::problem::{Problem, cost_at};
use assign_core::{Cost, Sense};
use cost_lists::GREATEST_PRICE;
use exact_checker::Verdict;
use std::alloc::{AllocError, Global};

/// The objects that a code gives persons 1, 2, ..: its digits to base `m`, the last first.
fn decode(code: u64, m: u32, objects: &mut [u32]) {
    let mut left = code;
    for object in objects.iter_mut() {
        let digit = left.checked_rem(u64::from(m)).unwrap_or(0);
        left = left.checked_div(u64::from(m)).unwrap_or(0);
        *object = (digit.min(1000) as u32).wrapping_add(1);
    }
}

/// How often an object is given.
pub fn count_of(objects: &[u32], object: u32) -> usize {
    objects.iter().filter(|other| **other == object).count()
}

// Whether no object is given twice.
fn are_apart(objects: &[u32]) -> bool {
    objects.iter().all(|object| count_of(objects, *object) == 1)
}

/// The cost of these objects of persons 1, 2, .., if they are an assignment.
pub fn cost_of(table: &[Option<Cost>], m: u32, objects: &[u32]) -> Option<Cost> {
    if !are_apart(objects) {
        return None;
    }
    let mut sum: Cost = 0;
    let mut person = 0u32;
    for object in objects {
        person = person.wrapping_add(1);
        sum = sum.wrapping_add(cost_at(table, m, person, *object)?);
    }
    Some(sum)
}

/// Whether a cost is better than another, or there is no other.
pub fn is_better(sense: Sense, cost: Cost, other: Option<Cost>) -> bool {
    match (sense, other) {
        (_, None) => true,
        (Sense::Min, Some(other)) => cost < other,
        (Sense::Max, Some(other)) => cost > other,
    }
}

/// An optimal assignment with its cost, by a search of all assignments.
pub fn best_of(
    alloc: Global,
    problem: &Problem,
    table: &[Option<Cost>],
) -> Result<Option<(Vec<u32>, Cost)>, AllocError> {
    let mut objects: Vec<u32> = vec![in alloc; 0; problem.n as usize]?;
    let mut best: Option<Cost> = None;
    let mut found: u64 = 0;
    let codes = u64::from(problem.m).wrapping_pow(problem.n);
    for code in 0..codes {
        decode(code, problem.m, objects.as_mut_slice());
        if let Some(cost) = cost_of(table, problem.m, objects.as_slice()) {
            if is_better(problem.sense, cost, best) {
                best = Some(cost);
                found = code;
            }
        }
    }
    decode(found, problem.m, objects.as_mut_slice());
    match best {
        Some(cost) => Ok(Some((objects, cost))),
        None => Ok(None),
    }
}

/// A cost with its object's price, turned so that less is better.
pub fn turned(sense: Sense, cost: Cost, price: i64) -> i128 {
    let (cost, price) = (i128::from(cost), i128::from(price));
    match sense {
        Sense::Min => price.wrapping_add(cost),
        Sense::Max => price.wrapping_sub(cost),
    }
}

// Raises the prices of the objects that are better for a person than its own one.
fn raise_for(problem: &Problem, table: &[Option<Cost>], person: u32, own: u32, prices: &mut [i64]) {
    let Some(cost) = cost_at(table, problem.m, person, own) else {
        return;
    };
    let own_price = prices
        .get(own.wrapping_sub(1) as usize)
        .copied()
        .unwrap_or(0);
    let value = turned(problem.sense, cost, own_price);
    let mut object = 0u32;
    for price in prices.iter_mut() {
        object = object.wrapping_add(1);
        if let Some(other) = cost_at(table, problem.m, person, object) {
            let short = value.wrapping_sub(turned(problem.sense, other, *price));
            if short > 0 && short < 1_000_000_000_000_000_000 {
                *price = price.wrapping_add(short as i64);
            }
        }
    }
}

/// The least prices of at least 0 at which each person's own object is a cheapest; they are 0 where
/// nobody owns the object if the assignment is optimal.
pub fn prices_of(
    alloc: Global,
    problem: &Problem,
    table: &[Option<Cost>],
    objects: &[u32],
) -> Result<Vec<i64>, AllocError> {
    let mut prices: Vec<i64> = vec![in alloc; 0; problem.m as usize]?;
    for _ in 0..problem.m {
        let mut person = 0u32;
        for own in objects {
            person = person.wrapping_add(1);
            raise_for(problem, table, person, *own, prices.as_mut_slice());
        }
    }
    Ok(prices)
}

// The lowest object that is better for a person than its own one.
fn broken_by(
    problem: &Problem,
    table: &[Option<Cost>],
    person: u32,
    own: u32,
    prices: &[i64],
) -> Option<u32> {
    let cost = cost_at(table, problem.m, person, own)?;
    let own_price = prices.get(own.wrapping_sub(1) as usize).copied()?;
    let value = turned(problem.sense, cost, own_price);
    let mut object = 0u32;
    for price in prices {
        object = object.wrapping_add(1);
        if let Some(other) = cost_at(table, problem.m, person, object) {
            if turned(problem.sense, other, *price) < value {
                return Some(object);
            }
        }
    }
    None
}

fn unlisted_of(problem: &Problem, table: &[Option<Cost>], objects: &[u32]) -> Option<u32> {
    let mut person = 0u32;
    for own in objects {
        person = person.wrapping_add(1);
        if cost_at(table, problem.m, person, *own).is_none() {
            return Some(person);
        }
    }
    None
}

fn twice_of(problem: &Problem, objects: &[u32]) -> Option<u32> {
    (1..=problem.m).find(|object| count_of(objects, *object) > 1)
}

fn out_of_range(prices: &[i64]) -> Option<u32> {
    let mut object = 0u32;
    for price in prices {
        object = object.wrapping_add(1);
        if *price < 0 || *price > GREATEST_PRICE {
            return Some(object);
        }
    }
    None
}

fn short_of(
    problem: &Problem,
    table: &[Option<Cost>],
    objects: &[u32],
    prices: &[i64],
) -> Option<(u32, u32)> {
    let mut person = 0u32;
    for own in objects {
        person = person.wrapping_add(1);
        if let Some(object) = broken_by(problem, table, person, *own, prices) {
            return Some((person, object));
        }
    }
    None
}

fn priced_unowned(objects: &[u32], prices: &[i64]) -> Option<u32> {
    let mut object = 0u32;
    for price in prices {
        object = object.wrapping_add(1);
        if *price != 0 && count_of(objects, object) == 0 {
            return Some(object);
        }
    }
    None
}

/// The verdict on these lists, fault by fault.
pub fn verdict_of(
    problem: &Problem,
    table: &[Option<Cost>],
    objects: &[u32],
    prices: &[i64],
) -> Verdict {
    if objects.len() != problem.n as usize || prices.len() != problem.m as usize {
        return Verdict::Length;
    }
    if let Some(person) = unlisted_of(problem, table, objects) {
        return Verdict::Unlisted(person);
    }
    if let Some(object) = twice_of(problem, objects) {
        return Verdict::Twice(object);
    }
    if let Some(object) = out_of_range(prices) {
        return Verdict::PriceRange(object);
    }
    if let Some((person, object)) = short_of(problem, table, objects, prices) {
        return Verdict::Slack(person, object);
    }
    if let Some(object) = priced_unowned(objects, prices) {
        return Verdict::Overpriced(object);
    }
    Verdict::Yes
}
