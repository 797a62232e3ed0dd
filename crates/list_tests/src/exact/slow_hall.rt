// A slow search for a Hall set, and a slow checker of one.
use super::problem::{Problem, cost_at};
use assign_core::Cost;
use exact_checker::HallVerdict;
use std::alloc::{AllocError, Global};

// Whether one of these persons lists an object.
fn is_listed(table: &[Option<Cost>], m: u32, persons: &[u32], object: u32) -> bool {
    persons
        .iter()
        .any(|person| cost_at(table, m, *person, object).is_some())
}

// The persons whose bits are set in a code.
fn members(alloc: Global, code: u64, n: u32) -> Result<Vec<u32>, AllocError> {
    let mut persons = Vec::new(alloc);
    let mut left = code;
    for person in 1..=n {
        if left % 2 == 1 {
            persons.push(person)?;
        }
        left /= 2;
    }
    Ok(persons)
}

/// The objects that one of these persons lists, rising.
pub fn neighbours(
    alloc: Global,
    problem: &Problem,
    table: &[Option<Cost>],
    persons: &[u32],
) -> Result<Vec<u32>, AllocError> {
    let mut objects = Vec::new(alloc);
    for object in 1..=problem.m {
        if is_listed(table, problem.m, persons, object) {
            objects.push(object)?;
        }
    }
    Ok(objects)
}

/// A Hall set, by a search of all sets of persons.
pub fn hall_set_of(
    alloc: Global,
    problem: &Problem,
    table: &[Option<Cost>],
) -> Result<Option<(Vec<u32>, Vec<u32>)>, AllocError> {
    for code in 0..2u64.wrapping_pow(problem.n) {
        let persons = members(alloc, code, problem.n)?;
        let objects = neighbours(alloc, problem, table, persons.as_slice())?;
        if objects.len() < persons.len() {
            return Ok(Some((persons, objects)));
        }
    }
    Ok(None)
}

// Whether all numbers are from 1 to n.
fn are_within(n: u32, numbers: &[u32]) -> bool {
    numbers.iter().all(|number| 0 < *number && *number <= n)
}

fn rise(numbers: &[u32]) -> bool {
    let mut last = 0u32;
    for number in numbers {
        if *number <= last {
            return false;
        }
        last = *number;
    }
    true
}

// The lowest person that lists an unnamed object, with its lowest object of this kind.
fn missing_of(
    problem: &Problem,
    table: &[Option<Cost>],
    persons: &[u32],
    objects: &[u32],
) -> Option<(u32, u32)> {
    for person in persons {
        for object in 1..=problem.m {
            let listed = cost_at(table, problem.m, *person, object).is_some();
            if listed && !objects.contains(&object) {
                return Some((*person, object));
            }
        }
    }
    None
}

/// The verdict on these lists, fault by fault.
pub fn hall_verdict_of(
    problem: &Problem,
    table: &[Option<Cost>],
    persons: &[u32],
    objects: &[u32],
) -> HallVerdict {
    if !are_within(problem.n, persons) || !are_within(problem.m, objects) {
        return HallVerdict::Range;
    }
    if !rise(persons) || !rise(objects) {
        return HallVerdict::Order;
    }
    if let Some((person, object)) = missing_of(problem, table, persons, objects) {
        return HallVerdict::Missing(person, object);
    }
    for object in objects {
        if !is_listed(table, problem.m, persons, *object) {
            return HallVerdict::Extra(*object);
        }
    }
    if objects.len() >= persons.len() {
        return HallVerdict::Count;
    }
    HallVerdict::Yes
}
