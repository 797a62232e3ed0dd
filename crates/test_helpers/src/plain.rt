// A slow search for an optimal assignment, which tries all assignments.
ghost use Rattle.std.specs.Prelude.{◌≡◌, ℕ, ◌↔◌, List, [], ◌∷◌, ◌++◌, IfOk, IfSome, IsTrue, MatchOption};
ghost use Rattle.std.specs.List.{Contains};
ghost use Rattle.assign_core.specs.Assignment.{IsAssignment, IsBest, IsNoWorse};
ghost use Rattle.test_helpers.specs.inside.Plain.{Begins, IsBestIn, IsBetterOf, IsFront};

use assign_core::{Assignment, Cost, Object, Person, Problem, Sense};
use std::alloc::{AllocError, Global};

// Whether a cost is as good as another, or better.
fn is_no_worse(sense: Sense, cost: Cost, other: Cost) -> bool
    ensures { IsTrue result ↔ IsNoWorse sense cost other }
{
    match sense {
        Sense::Min => cost <= other,
        Sense::Max => other <= cost,
    }
}

// The better one of two answers.
fn better(
    problem: &Problem,
    sense: Sense,
    first: Option<Assignment>,
    second: Option<Assignment>,
) -> Option<Assignment>
    requires first { IfSome first (IsAssignment problem.now) }
    requires second { IfSome second (IsAssignment problem.now) }
    ensures { IsBetterOf sense problem.now first second result }
{
    let Some(one) = first else {
        return second;
    };
    let Some(other) = second else {
        return Some(one);
    };
    if is_no_worse(sense, problem.total(&one), problem.total(&other)) {
        Some(one)
    } else {
        Some(other)
    }
}

// Whether an object is one of these.
fn is_among(objects: &[Object], object: Object) -> bool
    ensures { IsTrue result ↔ Contains objects.now object }
{
    objects.contains(&object)
}

// The objects with one more.
fn with_object(alloc: Global, front: &[Object], object: Object) -> Result<Vec<Object>, AllocError>
    ensures { IfOk result (λ longer. longer.items ≡ front.now ++ object ∷ []) }
{
    let mut longer = front.to_vec(alloc)?;
    longer.push(object)?;
    Ok(longer)
}

// The best of the assignments that begin with these objects.
fn best_after(
    alloc: Global,
    problem: &Problem,
    sense: Sense,
    front: &[Object],
) -> Result<Option<Assignment>, AllocError>
    requires { IsFront problem.now front.now }
    ensures { IfOk result (IsBestIn sense problem.now (Begins problem.now front.now)) }
{
    if front.len() == problem.n() as usize {
        let objects = front.to_vec(alloc)?;
        return Ok(Some(Assignment::new(objects)));
    }
    let mut best = None;
    for (object, _) in problem.row(Person(front.len() as u16 + 1)) {
        if !is_among(front, *object) {
            let longer = with_object(alloc, front, *object)?;
            let found = best_after(alloc, problem, sense, longer.as_slice())?;
            best = better(problem, sense, best, found);
        }
    }
    Ok(best)
}

/// An optimal assignment of the problem, or `None` if it has none: the expected answer of a solver,
/// found by trying all assignments. For tests on a few persons only, since its time grows as the
/// factorial of their number.
///
/// # Errors
/// `AllocError` if memory is refused.
pub fn plain_best(
    alloc: Global,
    problem: &Problem,
    sense: Sense,
) -> Result<Option<Assignment>, AllocError>
    ensures { IfOk result (λ answer. MatchOption answer
        ((xs : List ℕ) → IsAssignment problem.now xs → ⊥) (IsBest sense problem.now)) }
{
    best_after(alloc, problem, sense, &[])
}
