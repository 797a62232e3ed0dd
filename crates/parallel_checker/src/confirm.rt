// Outcomes of any origin, accepted if they are proofs, by several threads.
ghost use Rattle.std.specs.Prelude.{◌↔◌, IsTrue, IfOk};
ghost use Rattle.assign_core.specs.Slackness.{IsCertificate};
ghost use Rattle.assign_core.specs.Outcomes.{IsProof};

use super::slack::all_slack;
use assign_core::{Assignment, Outcome, Person, Prices, Problem, Sense};
use dual_checker::confirms;
use std::alloc::{AllocError, Global};
use std::thread::Threads;

// Whether an assignment and prices are a certificate. By their types no object is given twice, and
// the prices are in range.
fn is_certificate(
    rt: &(impl Threads + Sync),
    alloc: Global,
    problem: &Problem,
    sense: Sense,
    assignment: &Assignment,
    prices: &Prices,
) -> Result<bool, AllocError>
    ensures { IfOk result (λ yes.
        IsTrue yes ↔ IsCertificate sense problem.now assignment.now prices.now) }
{
    let n = problem.n() as usize;
    let objects = assignment.objects();
    if objects.len() != n {
        return Ok(false);
    }
    if prices.as_slice().len() != n {
        return Ok(false);
    }
    all_slack(rt, alloc, problem, sense, objects, prices)
}

// Whether the persons list so many pairs.
fn lists_pairs(problem: &Problem, least: usize) -> bool {
    let mut pairs: usize = 0;
    for i in 0..problem.n() {
        pairs = pairs.saturating_add(problem.row(Person(i + 1)).len());
    }
    pairs >= least
}

/// Whether an outcome is a proof: a certificate under this sense, or a Hall set. It answers as
/// `dual_checker::confirms` does. If the persons list `least` pairs or more, a thread for each
/// processor looks at a part of the rows of a certificate.
///
/// # Errors
/// `AllocError` if memory is refused, before the outcome is read.
pub fn confirms_in_parts(
    rt: &(impl Threads + Sync),
    least: usize,
    alloc: Global,
    problem: &Problem,
    sense: Sense,
    outcome: &Outcome,
) -> Result<bool, AllocError>
    ensures { IfOk result (λ yes. IsTrue yes ↔ IsProof sense problem.now outcome.now) }
{
    if !lists_pairs(problem, least) {
        return confirms(alloc, problem, sense, outcome);
    }
    match outcome {
        Outcome::Best(best) => {
            is_certificate(rt, alloc, problem, sense, &best.assignment, &best.prices)
        }
        Outcome::Hall(_) => confirms(alloc, problem, sense, outcome),
    }
}
