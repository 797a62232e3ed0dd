// Dense problems from their costs, and the costs of their assignments.
use super::plain::plain_best;
use super::problems::{Pair, problem_of, size};
use assign_core::{Cost, Sense};
use std::alloc::{AllocError, Global};

/// The pairs of a dense problem, from its costs row by row.
pub fn dense(alloc: Global, n: u16, costs: &[Cost]) -> Result<Vec<Pair>, AllocError> {
    let mut pairs = Vec::new(alloc);
    for i in 0..n {
        for j in 0..n {
            let at = i as usize * n as usize + j as usize;
            pairs.push((i + 1, j + 1, costs.get(at).copied().unwrap_or(0)))?;
        }
    }
    Ok(pairs)
}

/// The sum of the costs of the objects given to persons 1, 2, ..
pub fn cost_of(pairs: &[Pair], objects: &[u16]) -> Cost {
    let mut sum: Cost = 0;
    for (person, object, cost) in pairs {
        let given = objects.get((*person as usize).wrapping_sub(1)).copied();
        if given == Some(*object) {
            sum = sum.wrapping_add(*cost);
        }
    }
    sum
}

/// The cost of an optimal assignment, if one exists, by a search of all assignments.
pub fn best_cost(
    alloc: Global,
    n: u16,
    pairs: &[Pair],
    sense: Sense,
) -> Result<Option<Cost>, AllocError> {
    let problem = problem_of(alloc, size(n), pairs)?;
    match plain_best(alloc, &problem, sense)? {
        Some(best) => Ok(Some(problem.total(&best))),
        None => Ok(None),
    }
}
