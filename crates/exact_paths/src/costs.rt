// The costs of a problem in the lists of the searches.
use assign_core::{Cost, Object, Person, Problem, Sense};
use sparse_search::Pair;
use std::alloc::{AllocError, Global};

/// The number of listed pairs.
pub fn count_pairs(problem: &Problem) -> usize {
    let mut pairs = 0usize;
    for i in 0..problem.n() {
        pairs = pairs.saturating_add(problem.row(Person(i + 1)).len());
    }
    pairs
}

/// Whether each person lists each object, as so many pairs say.
pub fn is_dense(problem: &Problem, pairs: usize) -> bool {
    let n = problem.n() as usize;
    pairs == n.saturating_mul(n)
}

fn add_costs(row: &[(Object, Cost)], costs: &mut Vec<i64>) -> Result<(), AllocError> {
    for (_, cost) in row {
        costs.push(*cost)?;
    }
    Ok(())
}

/// The costs row by row.
pub fn costs_of(alloc: Global, problem: &Problem, pairs: usize) -> Result<Vec<i64>, AllocError> {
    let mut costs = Vec::with_capacity(alloc, pairs)?;
    for i in 0..problem.n() {
        add_costs(problem.row(Person(i + 1)), &mut costs)?;
    }
    Ok(costs)
}

/// The pairs row by row, and where the rows begin and end. Less cost is better.
#[derive(Drop)]
pub struct Lists {
    pub starts: Vec<usize>,
    pub pairs: Vec<Pair>,
}

fn pair_of(object: Object, cost: Cost, sense: Sense) -> Pair {
    Pair {
        object: u32::from(object.0).saturating_sub(1),
        cost: match sense {
            Sense::Min => cost,
            Sense::Max => cost.wrapping_neg(),
        },
    }
}

impl Lists {
    fn add_row(&mut self, row: &[(Object, Cost)], sense: Sense) -> Result<(), AllocError> {
        for (object, cost) in row {
            self.pairs.push(pair_of(*object, *cost, sense))?;
        }
        self.starts.push(self.pairs.len())?;
        Ok(())
    }

    /// Those of a problem with so many pairs.
    pub fn of(
        alloc: Global,
        problem: &Problem,
        sense: Sense,
        pairs: usize,
    ) -> Result<Lists, AllocError> {
        let n = problem.n();
        let mut lists = Lists {
            starts: Vec::with_capacity(alloc, (n as usize).saturating_add(1))?,
            pairs: Vec::with_capacity(alloc, pairs)?,
        };
        lists.starts.push(0)?;
        for i in 0..n {
            lists.add_row(problem.row(Person(i + 1)), sense)?;
        }
        Ok(lists)
    }
}
