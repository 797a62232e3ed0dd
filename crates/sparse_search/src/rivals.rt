// Two persons who list the same object alone.
use super::problem::SparseProblem;
use search_base::{NOBODY, at, place_at, put};
use std::alloc::{AllocError, Global};

/// The first two persons who list one object each, and the same one: there is no assignment then.
pub fn first_rivals(
    alloc: Global,
    problem: SparseProblem<'_>,
) -> Result<Option<[u32; 2]>, AllocError> {
    let mut persons = vec![in alloc; NOBODY; problem.objects]?;
    for person in 0..place_at(problem.persons()) {
        let row = problem.row(person);
        if row.len() == 1 {
            let object = row.first().map_or(NOBODY, |pair| pair.object);
            let other = at(persons.as_slice(), object);
            if other != NOBODY {
                return Ok(Some([other, person]));
            }
            put(persons.as_mut_slice(), object, person);
        }
    }
    Ok(None)
}
