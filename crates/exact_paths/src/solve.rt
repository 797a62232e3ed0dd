// The solver.
ghost use Rattle.std.specs.Prelude.{◌≡◌, IfOk, IfSome};
ghost use Rattle.assign_core.specs.Outcomes.{IsDecided, IsProof};

use super::answer::outcome_of;
use super::copied::copy_of;
use super::costs::{Lists, costs_of, count_pairs, is_dense};
use super::first::whole_prices;
use super::observer::Observer;
use super::pieces::{DensePieces, SparsePieces, State, run_pieces};
use assign_core::{Outcome, Price, Prices, Problem, Sense, proofs_decide};
use dense_search::DenseProblem;
use rounds::{Offering, solve_rounds_by};
use scaled_values::scale;
use sparse_search::SparseProblem;
use std::alloc::{AllocError, Global};
use std::sync::Arc;

// Where a search begins: at 0, or at first prices if there is one for each object.
fn begin(
    alloc: Global,
    problem: &Problem,
    first: Option<&[Price]>,
) -> Result<(State, bool), AllocError> {
    let n = problem.n();
    if let Some(prices) = first
        && prices.len() == n as usize
    {
        let prices = whole_prices(alloc, prices, n)?;
        return Ok((State::at(alloc, prices, n)?, true));
    }
    let prices = vec![in alloc; 0i64; n as usize]?;
    Ok((State::at(alloc, prices, n)?, false))
}

// What a search over the costs of all pairs finds.
fn try_dense<O: Observer>(
    alloc: Global,
    problem: &Problem,
    sense: Sense,
    pairs: usize,
    first: Option<&[Price]>,
    observer: &O,
) -> Result<Option<Outcome>, AllocError>
    ensures { IfOk result (λ found. IfSome found (IsProof sense problem.now)) }
{
    let n = problem.n() as usize;
    let costs = costs_of(alloc, problem, pairs)?;
    let (mut state, is_warm) = begin(alloc, problem, first)?;
    let mut search = DensePieces {
        problem: DenseProblem {
            sense,
            persons: n,
            objects: n,
            costs: costs.as_slice(),
        },
        record: if is_warm {
            dense_search::Record::warm()
        } else {
            dense_search::Record::cold()
        },
    };
    let arc_scans = observer.arc_scans(pairs);
    let end = run_pieces(alloc, &mut search, &mut state, arc_scans, observer)?;
    outcome_of(alloc, problem, sense, end, &state)
}

// What a search over listed pairs finds.
fn try_sparse<O: Observer>(
    alloc: Global,
    problem: &Problem,
    sense: Sense,
    pairs: usize,
    first: Option<&[Price]>,
    observer: &O,
) -> Result<Option<Outcome>, AllocError>
    ensures { IfOk result (λ found. IfSome found (IsProof sense problem.now)) }
{
    let lists = Lists::of(alloc, problem, sense, pairs)?;
    let (mut state, is_warm) = begin(alloc, problem, first)?;
    let mut search = SparsePieces {
        problem: SparseProblem {
            starts: lists.starts.as_slice(),
            pairs: lists.pairs.as_slice(),
            objects: problem.n() as usize,
        },
        record: if is_warm {
            sparse_search::Record::warm()
        } else {
            sparse_search::Record::cold()
        },
    };
    let arc_scans = observer.arc_scans(pairs);
    let end = run_pieces(alloc, &mut search, &mut state, arc_scans, observer)?;
    outcome_of(alloc, problem, sense, end, &state)
}

/// Searches for a proof: an optimal assignment with prices that prove it, or a Hall set. `None` if
/// what the search finds is no proof, which is not known to happen.
///
/// The prices of an optimal assignment are multiples of `n + 1`, at which each person has slackness
/// 0. First prices are used by how far they are above the least one, in whole costs; a list of
/// another length counts as none. Prices of a similar problem save most of the work, and any prices
/// are allowed. None of this is proved, and no clause says what the observer hears.
///
/// Where each person lists each object it takes 8 bytes a pair, else 16, and more for each person.
///
/// # Errors
/// `AllocError` if memory is refused.
pub fn try_paths<O: Observer>(
    alloc: Global,
    problem: &Problem,
    sense: Sense,
    first: Option<&[Price]>,
    observer: &O,
) -> Result<Option<Outcome>, AllocError>
    ensures { IfOk result (λ found. IfSome found (IsProof sense problem.now)) }
{
    let pairs = count_pairs(problem);
    if is_dense(problem, pairs) {
        try_dense(alloc, problem, sense, pairs, first, observer)
    } else {
        try_sparse(alloc, problem, sense, pairs, first, observer)
    }
}

/// Solves by rounds from prices of 0, for which `offering` makes the offers.
///
/// # Errors
/// `AllocError` if memory is refused.
pub fn solve_by_rounds<F: Offering>(
    alloc: Global,
    problem: &Problem,
    sense: Sense,
    offering: &mut F,
) -> Result<Outcome, AllocError>
    requires ready { F.ready }
    ensures { IfOk result (IsProof sense problem.now) }
{
    let n = problem.n();
    let scaled = Arc::new(alloc, scale(alloc, copy_of(alloc, problem)?, sense)?)?;
    match solve_rounds_by(offering, alloc, scaled, Prices::zeros(alloc, n)?) {
        Ok(outcome) => Ok(outcome),
        // Rounds have only one fault: memory was refused.
        Err(_) => Err(AllocError),
    }
}

// What a search finds, or the outcome of rounds.
fn solve<O: Observer, F: Offering>(
    alloc: Global,
    problem: &Problem,
    sense: Sense,
    first: Option<&[Price]>,
    observer: &O,
    offering: &mut F,
) -> Result<Outcome, AllocError>
    requires ready { F.ready }
    ensures { IfOk result (IsProof sense problem.now) }
{
    match try_paths(alloc, problem, sense, first, observer)? {
        Some(outcome) => Ok(outcome),
        None => solve_by_rounds(alloc, problem, sense, offering),
    }
}

/// Solves by shortest paths: an optimal assignment with prices that prove it if an assignment
/// exists, and a Hall set otherwise, as `try_paths` finds them. From first prices, one for each
/// object, it searches less if they fit; any prices are allowed.
///
/// If the checkers refuse what the search finds, which is not known to happen, `offering` makes the
/// offers of rounds, which answer without first prices.
///
/// # Errors
/// `AllocError` if memory is refused.
///
/// # Example
/// The body of `calling::solve_problem`:
/// ```
/// solve_paths(alloc, problem, sense, None, &Unobserved, &mut Alone)
/// ```
pub fn solve_paths<O: Observer, F: Offering>(
    alloc: Global,
    problem: &Problem,
    sense: Sense,
    first: Option<&[Price]>,
    observer: &O,
    offering: &mut F,
) -> Result<Outcome, AllocError>
    requires ready { F.ready }
    ensures proof { IfOk result (IsProof sense problem.now) }
    ensures decided { IfOk result (IsDecided problem.now) }
{
    proofs_decide();
    solve(alloc, problem, sense, first, observer, offering)
}
