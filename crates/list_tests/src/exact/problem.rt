// A problem of a test: its lists, and its costs as a plain table.
use assign_core::{Cost, Sense};
use std::alloc::{AllocError, Global};

/// Costs row by row, if there are no persons and objects of pairs, or of listed pairs.
#[derive(Drop)]
pub struct Problem {
    pub sense: Sense,
    pub n: u32,
    pub m: u32,
    pub is_dense: bool,
    pub persons: Vec<u32>,
    pub objects: Vec<u32>,
    pub costs: Vec<Cost>,
}

/// A dense problem of these costs.
pub fn dense(
    alloc: Global,
    sense: Sense,
    n: u32,
    m: u32,
    costs: &[Cost],
) -> Result<Problem, AllocError> {
    Ok(Problem {
        sense,
        n,
        m,
        is_dense: true,
        persons: Vec::new(alloc),
        objects: Vec::new(alloc),
        costs: costs.to_vec(alloc)?,
    })
}

/// A problem of these pairs.
pub fn sparse(
    alloc: Global,
    sense: Sense,
    n: u32,
    m: u32,
    persons: &[u32],
    objects: &[u32],
    costs: &[Cost],
) -> Result<Problem, AllocError> {
    Ok(Problem {
        sense,
        n,
        m,
        is_dense: false,
        persons: persons.to_vec(alloc)?,
        objects: objects.to_vec(alloc)?,
        costs: costs.to_vec(alloc)?,
    })
}

// The better one of two costs.
fn better(sense: Sense, cost: Cost, other: Option<Cost>) -> Cost {
    match (sense, other) {
        (_, None) => cost,
        (Sense::Min, Some(other)) => cost.min(other),
        (Sense::Max, Some(other)) => cost.max(other),
    }
}

/// The place of person `i` and object `j` in a table of `m` objects.
pub fn place_of(m: u32, i: u32, j: u32) -> usize {
    let row = i.wrapping_sub(1) as usize;
    row.wrapping_mul(m as usize)
        .wrapping_add(j.wrapping_sub(1) as usize)
}

fn table_of_rows(problem: &Problem, table: &mut [Option<Cost>]) {
    for (place, cost) in table.iter_mut().zip(problem.costs.as_slice()) {
        *place = Some(*cost);
    }
}

fn table_of_pairs(problem: &Problem, table: &mut [Option<Cost>]) {
    let (persons, objects) = (problem.persons.as_slice(), problem.objects.as_slice());
    for ((i, j), cost) in persons.iter().zip(objects).zip(problem.costs.as_slice()) {
        if let Some(place) = table.get_mut(place_of(problem.m, *i, *j)) {
            *place = Some(better(problem.sense, *cost, *place));
        }
    }
}

/// The cost that counts for each person and object, row by row; `None` for a pair that isn't listed.
pub fn table_of(alloc: Global, problem: &Problem) -> Result<Vec<Option<Cost>>, AllocError> {
    let size = (problem.n as usize).wrapping_mul(problem.m as usize);
    let mut table: Vec<Option<Cost>> = vec![in alloc; None; size]?;
    if problem.is_dense {
        table_of_rows(problem, table.as_mut_slice());
    } else {
        table_of_pairs(problem, table.as_mut_slice());
    }
    Ok(table)
}

/// The cost of a pair in a table of `m` objects.
pub fn cost_at(table: &[Option<Cost>], m: u32, i: u32, j: u32) -> Option<Cost> {
    if j == 0 || j > m || i == 0 {
        return None;
    }
    table.get(place_of(m, i, j)).copied().unwrap_or(None)
}
