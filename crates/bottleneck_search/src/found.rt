// What a search found.
use cost_lists::{Object, Person};
use list_solver::HallSet;
use sparse_search::{Matching, SparseProblem, hall_set};
use std::alloc::{AllocError, Global};

/// A plan, and persons who list fewer objects than they are at costs better than its worst pair's.
#[derive(Drop)]
pub struct Shown {
    pub objects: Vec<Object>,
    pub short: HallSet,
}

/// The end of a search.
#[derive(Drop)]
pub enum Found {
    Shown(Shown),
    /// Persons who list fewer objects than they are: there is no plan.
    Short(HallSet),
    /// The budget is spent. The objects and the record say where the search goes on.
    Stopped,
    /// Nothing was found.
    Lost,
}

// Places from 0 as numbers from 1; no place as 0.
fn numbers_of(places: &mut [u32]) {
    for place in places.iter_mut() {
        *place = place.wrapping_add(1);
    }
}

/// Numbers from 1 as places from 0; 0 as no place.
pub fn places_of(numbers: &mut [u32]) {
    for number in numbers.iter_mut() {
        *number = number.wrapping_sub(1);
    }
}

/// A plan by places, with what shows it.
pub fn made_of(objects: Vec<u32>, short: HallSet) -> Found {
    let mut objects = objects;
    numbers_of(objects.as_mut_slice());
    Found::Shown(Shown { objects, short })
}

/// A Hall set by places.
pub fn set_of(persons: Vec<Person>, objects: Vec<Object>) -> HallSet {
    let (mut persons, mut objects) = (persons, objects);
    numbers_of(persons.as_mut_slice());
    numbers_of(objects.as_mut_slice());
    HallSet { persons, objects }
}

/// Writes a matching by places as objects from 1.
pub fn write_objects(objects: &mut [Object], places: &[u32]) {
    for (object, place) in objects.iter_mut().zip(places.iter()) {
        *object = place.wrapping_add(1);
    }
}

/// Persons that a matching leaves short, and their objects.
pub fn short_of(
    alloc: Global,
    problem: SparseProblem<'_>,
    matching: Matching,
    person: u32,
) -> Result<HallSet, AllocError> {
    let mut matching = matching;
    matching.blocked_persons(problem, person)?;
    let set = hall_set(alloc, problem, matching.persons())?;
    Ok(set_of(set.persons, set.objects))
}
