// Outcomes of any origin, accepted if they are proofs.
ghost use Rattle.std.specs.Prelude.{◌≡◌, ◌↔◌, IsTrue, IfOk, IfSome};
ghost use Rattle.assign_core.specs.declared.sense.Sense.{Sense};
ghost use Rattle.assign_core.specs.Slackness.{IsCertificate};
ghost use Rattle.assign_core.specs.Hall.{IsHallSet};
ghost use Rattle.assign_core.specs.Outcomes.{IsProof};
ghost use Rattle.dual_checker.specs.Confirmed.{IsConfirmed};

use super::checker::check;
use super::hall::check_hall;
use super::hall_verdict::HallVerdict;
use super::verdict::Verdict;
use assign_core::{
    Assignment, Certificate, HallSet, Object, Outcome, Person, Price, Prices, Problem, Sense,
};
use std::alloc::{AllocError, Global};

/// Whether an outcome is a proof: a certificate under this sense, or a Hall set. It takes the time
/// of `check` or of `check_hall`.
///
/// # Errors
/// `AllocError` if memory is refused, before the outcome is read.
pub fn confirms(
    alloc: Global,
    problem: &Problem,
    sense: Sense,
    outcome: &Outcome,
) -> Result<bool, AllocError>
    ensures { IfOk result (λ yes. IsTrue yes ↔ IsProof sense problem.now outcome.now) }
{
    match outcome {
        Outcome::Best(best) => {
            let (objects, prices) = (best.assignment.objects(), best.prices.as_slice());
            Ok(check(alloc, problem, sense, objects, prices)? == Verdict::Yes)
        }
        Outcome::Hall(hall) => {
            let verdict = check_hall(alloc, problem, hall.persons(), hall.objects())?;
            Ok(verdict == HallVerdict::Yes)
        }
    }
}

/// These objects of persons 1, 2, .. and these prices of objects 1, 2, .. as an outcome, if they
/// are a certificate under this sense. `None` exactly where they aren't.
///
/// The lists may have any length and hold any numbers. They are not copied.
///
/// # Errors
/// `AllocError` if memory is refused. The lists are then dropped.
///
/// # Example
/// From `calling::confirmed`, which takes a report:
/// ```
/// Some(prices) => {
///     let objects = objects_in(alloc, rows.as_slice())?;
///     confirm_best(alloc, problem, sense, objects, prices)
/// }
/// ```
pub fn confirm_best(
    alloc: Global,
    problem: &Problem,
    sense: Sense,
    objects: Vec<Object>,
    prices: Vec<Price>,
) -> Result<Option<Outcome>, AllocError>
    ensures lists { IfOk result (IsConfirmed
        (IsCertificate sense problem.now objects.items prices.items)
        (Outcome.Best (record { assignment = objects.items; prices = prices.items }))) }
    ensures proof { IfOk result (λ found. IfSome found (IsProof sense problem.now)) }
{
    let verdict = check(alloc, problem, sense, objects.as_slice(), prices.as_slice())?;
    if verdict != Verdict::Yes {
        return Ok(None);
    }
    // This call shows the prover that there are few enough prices for a table.
    let _few = problem.n();
    let prices = Prices::new(alloc, prices)?;
    let assignment = Assignment::new(objects);
    Ok(Some(Outcome::Best(Certificate { assignment, prices })))
}

/// These persons and objects as an outcome, if they are a Hall set. `None` exactly where they
/// aren't.
///
/// The lists may have any length and hold any numbers. They are not copied.
///
/// # Errors
/// `AllocError` if memory is refused. The lists are then dropped.
///
/// # Example
/// From `calling::confirmed`, which takes a report:
/// ```
/// Report::Hall {
///     persons,
///     objects,
///     ..
/// } => confirm_hall(alloc, problem, persons, objects),
/// ```
pub fn confirm_hall(
    alloc: Global,
    problem: &Problem,
    persons: Vec<Person>,
    objects: Vec<Object>,
) -> Result<Option<Outcome>, AllocError>
    ensures lists { IfOk result (IsConfirmed
        (IsHallSet problem.now persons.items objects.items)
        (Outcome.Hall (record { persons = persons.items; objects = objects.items }))) }
    ensures proof { IfOk result (λ found. IfSome found (λ outcome. (sense : Sense)
        → IsProof sense problem.now outcome)) }
{
    let verdict = check_hall(alloc, problem, persons.as_slice(), objects.as_slice())?;
    if verdict != HallVerdict::Yes {
        return Ok(None);
    }
    Ok(Some(Outcome::Hall(HallSet::new(persons, objects))))
}
