// One call of each solver.
ghost use Rattle.std.specs.Prelude.{◌≡◌, ◌*◌, ◌<◌, All, IfOk, length, pos, replicate};
ghost use Rattle.assign_core.specs.Dense.{dense_rows};
ghost use Rattle.assign_core.specs.Outcomes as core;
ghost use Rattle.assign_core.specs.Rows.{IsCost, IsSize};
ghost use Rattle.rounds.specs.Outcomes.{IsOfRounds, IsProof};
ghost use Rattle.calling.specs.Solving.{problem_under};

use assign_core::{Cost, Outcome, Problem, Sense};
use async_workers::{OpenGate, solve_workers};
use exact_paths::{Unobserved, solve_paths};
use rounds::{Alone, solve_rounds, solve_rounds_alone};
use scaled_values::scale;
use std::alloc::{AllocError, Global};
use std::sync::{Arc, Wait};
use std::thread::Threads;

/// Solves a problem by shortest augmenting paths.
///
/// # Errors
/// `AllocError` if memory is refused.
pub fn solve_problem(alloc: Global, problem: &Problem, sense: Sense) -> Result<Outcome, AllocError>
    ensures proof { IfOk result (core.IsProof sense problem.now) }
    ensures decided { IfOk result (core.IsDecided problem.now) }
{
    solve_paths(alloc, problem, sense, None, &Unobserved, &mut Alone)
}

/// Solves the problem of `n` persons and `n` objects at these costs, row by row.
///
/// # Errors
/// `AllocError` if memory is refused.
pub fn solve_costs(
    alloc: Global,
    n: u16,
    sense: Sense,
    costs: &[Cost],
) -> Result<Outcome, AllocError>
    requires size { IsSize n }
    requires count { length costs.now ≡ n * n }
    requires costs { All IsCost costs.now }
    ensures proof { IfOk result (core.IsProof sense (dense_rows n costs.now)) }
    ensures decided { IfOk result (core.IsDecided (dense_rows n costs.now)) }
{
    let problem = Problem::dense(alloc, n, costs)?;
    solve_problem(alloc, &problem, sense)
}

/// Solves by rounds in the calling thread.
///
/// # Errors
/// `AllocError` if memory is refused.
pub fn solve_alone(alloc: Global, problem: Problem, sense: Sense) -> Result<Outcome, AllocError>
    ensures rounds { IfOk result
        (IsOfRounds (problem_under sense problem) (replicate (length problem) (pos 0))) }
    ensures proof { IfOk result (IsProof (problem_under sense problem)) }
{
    let scaled = Arc::new(alloc, scale(alloc, problem, sense)?)?;
    match solve_rounds_alone(alloc, scaled) {
        Ok(outcome) => Ok(outcome),
        // The one fault of rounds is that memory was refused.
        Err(_) => Err(AllocError),
    }
}

/// Solves by rounds in several threads. The outcome is that of `solve_alone`: the law
/// `rounds_have_one_outcome` says so.
///
/// # Errors
/// `AllocError` if memory is refused.
pub fn solve_in_threads(
    rt: &(impl Threads + Sync),
    alloc: Global,
    problem: Problem,
    sense: Sense,
) -> Result<Outcome, AllocError>
    ensures rounds { IfOk result
        (IsOfRounds (problem_under sense problem) (replicate (length problem) (pos 0))) }
    ensures proof { IfOk result (IsProof (problem_under sense problem)) }
{
    let scaled = Arc::new(alloc, scale(alloc, problem, sense)?)?;
    match solve_rounds(rt, alloc, scaled) {
        Ok(outcome) => Ok(outcome),
        Err(_) => Err(AllocError),
    }
}

/// Solves by workers in threads of their own, and may wait for them.
///
/// # Errors
/// `AllocError` if memory is refused.
pub fn solve_by_workers<R: Threads + Wait + Sync>(
    rt: &R,
    alloc: Global,
    problem: Problem,
    sense: Sense,
    workers: u16,
) -> Result<Outcome, AllocError>
    requires { 0 < workers }
    ensures { IfOk result (IsProof (problem_under sense problem)) }
{
    let scaled = Arc::new(alloc, scale(alloc, problem, sense)?)?;
    match solve_workers(rt, alloc, scaled, workers, 0, &OpenGate) {
        Ok((outcome, _)) => Ok(outcome),
        Err(_) => Err(AllocError),
    }
}
