// What an optimal assignment costs.
ghost use Rattle.std.specs.Prelude.{◌≡◌, ◌*◌, ℕ, List, All, IfOk, MatchOption, length};
ghost use Rattle.assign_core.specs.Assignment.{IsAssignment};
ghost use Rattle.assign_core.specs.Dense.{dense_rows};
ghost use Rattle.assign_core.specs.Rows.{IsCost, IsSize};
ghost use Rattle.assign_core.specs.Slackness.{IsCertificate};
ghost use Rattle.calling.specs.Costs.{IsLeastCost};

use crate::solving::solve_problem;
use assign_core::{Certificate, Cost, Outcome, Problem, Sense, slack_means_best};
use std::alloc::{AllocError, Global};

/// What an assignment costs that its prices prove optimal.
pub fn cost_of_best(problem: &Problem, best: &Certificate) -> Cost
    requires { IsCertificate Sense.Min problem.now best.now.assignment best.now.prices }
    ensures { IsLeastCost problem.now result }
{
    // The law's premises are the rule of problems, which `n` gives, and the certificate.
    let _persons = problem.n();
    slack_means_best();
    problem.total(&best.assignment)
}

/// The least cost of an assignment. `None` exactly where the problem has no assignment.
///
/// # Errors
/// `AllocError` if memory is refused.
pub fn least_cost(alloc: Global, problem: Problem) -> Result<Option<Cost>, AllocError>
    ensures { IfOk result (λ found. MatchOption found
        ((xs : List ℕ) → IsAssignment problem xs → ⊥) (IsLeastCost problem)) }
{
    match solve_problem(alloc, &problem, Sense::Min)? {
        Outcome::Best(best) => Ok(Some(cost_of_best(&problem, &best))),
        Outcome::Hall(_) => Ok(None),
    }
}

/// The least cost of an assignment of `n` persons and `n` objects with these costs, row by row.
/// `None` exactly where there is none.
///
/// # Errors
/// `AllocError` if memory is refused.
pub fn cost_of_dense(alloc: Global, n: u16, costs: &[Cost]) -> Result<Option<Cost>, AllocError>
    requires size { IsSize n }
    requires count { length costs.now ≡ n * n }
    requires costs { All IsCost costs.now }
    ensures { IfOk result (λ found. let rows = dense_rows n costs.now in MatchOption found
        ((xs : List ℕ) → IsAssignment rows xs → ⊥) (IsLeastCost rows)) }
{
    let problem = Problem::dense(alloc, n, costs)?;
    least_cost(alloc, problem)
}
