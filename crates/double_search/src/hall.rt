// Hall sets: persons who together list fewer objects than they are.
use super::lists::{Lists, at, place_of};
use super::solver::Problem;
use std::alloc::{AllocError, Global};

/// Persons, and the objects that they list; numbers from 1 that rise.
#[derive(Drop)]
pub struct HallSet {
    pub persons: Vec<u32>,
    pub objects: Vec<u32>,
}

// A place as a number from 1.
pub fn as_number(place: usize) -> u32 {
    u32::try_from(place).unwrap_or(u32::MAX).wrapping_add(1)
}

// The numbers of places, rising.
fn numbers_of(alloc: Global, places: &[i64], count: usize) -> Result<Vec<u32>, AllocError> {
    let mut numbers = Vec::new(alloc);
    for k in 0..count {
        numbers.push(as_number(place_of(at(places, k))))?;
    }
    numbers.as_mut_slice().sort_unstable();
    Ok(numbers)
}

// The persons that a search scanned in so many turns, and the objects that it passed.
pub fn hall_set_of(alloc: Global, lists: &Lists<'_>, turns: usize) -> Result<HallSet, AllocError> {
    Ok(HallSet {
        persons: numbers_of(alloc, lists.scanned, turns)?,
        objects: numbers_of(alloc, lists.passed, turns.saturating_sub(1))?,
    })
}

fn mark_listed(costs: &[f64], marks: &mut [bool]) {
    for (cost, mark) in costs.iter().zip(marks.iter_mut()) {
        *mark = *mark || (*cost < f64::INFINITY && *cost > f64::NEG_INFINITY);
    }
}

fn mark_all(costs: &[f64], marks: &mut [bool]) {
    for row in costs.chunks(marks.len().max(1)) {
        mark_listed(row, marks);
    }
}

// The numbers of the places that have a mark.
fn marked(alloc: Global, marks: &[bool]) -> Result<Vec<u32>, AllocError> {
    let mut numbers = Vec::new(alloc);
    for (k, mark) in marks.iter().enumerate() {
        if *mark {
            numbers.push(as_number(k))?;
        }
    }
    Ok(numbers)
}

// All persons, where there are more of them than objects, and the objects that anybody lists.
pub fn all_persons(alloc: Global, problem: Problem<'_>) -> Result<HallSet, AllocError> {
    let persons = vec![in alloc; true; problem.persons]?;
    let mut objects = vec![in alloc; false; problem.objects]?;
    mark_all(problem.costs, objects.as_mut_slice());
    Ok(HallSet {
        persons: marked(alloc, persons.as_slice())?,
        objects: marked(alloc, objects.as_slice())?,
    })
}
