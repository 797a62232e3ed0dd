// A copy of a problem.
ghost use Rattle.std.specs.Prelude.{◌≡◌, IfOk, map};

use assign_core::{Cost, Object, Person, Problem};
use std::alloc::{AllocError, Global};

// The rows of a problem.
fn rows_of(alloc: Global, problem: &Problem) -> Result<Vec<Vec<(Object, Cost)>>, AllocError>
    ensures { IfOk result (λ rows. map (λ r. r.items) rows.items ≡ problem.now) }
{
    let n = problem.n();
    let mut rows = Vec::with_capacity(alloc, n as usize)?;
    for i in 0..n {
        rows.push(problem.row(Person(i + 1)).to_vec(alloc)?)?;
    }
    Ok(rows)
}

/// The same problem again.
pub fn copy_of(alloc: Global, problem: &Problem) -> Result<Problem, AllocError>
    ensures { IfOk result (λ copy. copy ≡ problem.now) }
{
    // This call shows the prover that it is a problem.
    let _persons = problem.n();
    let rows = rows_of(alloc, problem)?;
    Ok(Problem::from_rows(rows))
}
