// A cost that the worst pair of each plan is no better than.
use super::found::set_of;
use super::lists::cost_in;
use super::rows::Rows;
use assign_core::Cost;
use list_solver::HallSet;
use search_base::{NOBODY, place_at};
use sparse_search::SparseProblem;
use std::alloc::{AllocError, Global};

/// Who has the worst of the best costs.
#[derive(Clone, Copy)]
pub enum Who {
    Person(u32),
    Object(u32),
}

/// The worst of the persons' best costs, and of the objects' where each has to be used.
#[derive(Clone, Copy)]
pub struct Bound {
    pub cost: Cost,
    pub who: Who,
}

// The place and the value of the greatest of these costs.
fn greatest_at(costs: &[Cost]) -> (u32, Cost) {
    let (mut place, mut greatest) = (0, Cost::MIN);
    for (k, cost) in costs.iter().enumerate() {
        if *cost > greatest {
            place = place_at(k);
            greatest = *cost;
        }
    }
    (place, greatest)
}

// The bound by the least costs of persons and objects.
fn bound_by(of_persons: &[Cost], of_objects: &[Cost]) -> Bound {
    let (person, by_persons) = greatest_at(of_persons);
    let (object, by_objects) = greatest_at(of_objects);
    if of_persons.len() == of_objects.len() && by_objects > by_persons {
        return Bound {
            cost: by_objects,
            who: Who::Object(object),
        };
    }
    Bound {
        cost: by_persons,
        who: Who::Person(person),
    }
}

/// The bound of costs row by row.
pub fn bound_of_rows(alloc: Global, rows: Rows<'_>, persons: usize) -> Result<Bound, AllocError> {
    let (of_persons, of_objects) = rows.least_costs(alloc, persons)?;
    Ok(bound_by(of_persons.as_slice(), of_objects.as_slice()))
}

// Lowers the least costs of objects to those of a row, and returns the row's least.
fn lower_by_row(problem: SparseProblem<'_>, person: u32, least: &mut [Cost]) -> Cost {
    let mut best = Cost::MAX;
    for pair in problem.row(person) {
        best = best.min(pair.cost);
        if let Some(object_least) = least.get_mut(pair.object as usize) {
            *object_least = pair.cost.min(*object_least);
        }
    }
    best
}

/// The bound of listed pairs; `Cost::MAX` where somebody has no pair.
pub fn bound_of_pairs(alloc: Global, problem: SparseProblem<'_>) -> Result<Bound, AllocError> {
    let mut of_persons = Vec::new(alloc);
    let mut of_objects = vec![in alloc; Cost::MAX; problem.objects]?;
    for person in 0..place_at(problem.persons()) {
        of_persons.push(lower_by_row(problem, person, of_objects.as_mut_slice()))?;
    }
    Ok(bound_by(of_persons.as_slice(), of_objects.as_slice()))
}

// The places up to a number but one.
fn places_but(alloc: Global, count: usize, left_out: u32) -> Result<Vec<u32>, AllocError> {
    let mut places = Vec::new(alloc);
    for place in 0..place_at(count) {
        if place != left_out {
            places.push(place)?;
        }
    }
    Ok(places)
}

impl Bound {
    /// Who shows the bound: the person alone with no object; or all persons, none of
    /// which lists the object at a better cost, with the other objects.
    pub fn shown_by(self, alloc: Global, n: usize, m: usize) -> Result<HallSet, AllocError> {
        match self.who {
            Who::Person(person) => {
                let mut alone = Vec::new(alloc);
                alone.push(person)?;
                Ok(set_of(alone, Vec::new(alloc)))
            }
            Who::Object(object) => Ok(set_of(
                places_but(alloc, n, NOBODY)?,
                places_but(alloc, m, object)?,
            )),
        }
    }

    /// Whether a plan's worst pair is as good as the bound.
    pub fn is_met(self, problem: SparseProblem<'_>, objects: &[u32]) -> bool {
        let mut person: u32 = 0;
        for object in objects {
            if cost_in(problem.row(person), *object) > self.cost {
                return false;
            }
            person = person.wrapping_add(1);
        }
        true
    }
}
