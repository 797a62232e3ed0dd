// The checker of Hall sets: the first fault of the verdicts' order.
ghost use Rattle.std.specs.Prelude.{◌≡◌, ℕ, ◌↔◌, List, false, length, replicate, IfOk};
ghost use Rattle.assign_core.specs.Assignment.{IsAssignment};
ghost use Rattle.assign_core.specs.Hall.{IsHallSet};
ghost use Rattle.dual_checker.specs.HallVerdicts.{IsHallVerdict};

use super::hall_lists::{are_in_range, are_rising};
use super::hall_marks::{first_missing, mark_listed};
use super::hall_verdict::HallVerdict;
use super::marks::{first_unmarked, mark_numbers};
use assign_core::{Object, Person, Problem};
use std::alloc::{AllocError, Global};

// The first fault. No mark is set at first.
fn first_hall_fault(
    named: &mut [bool],
    listed: &mut [bool],
    problem: &Problem,
    persons: &[Person],
    objects: &[Object],
) -> HallVerdict
    requires named { named.old ≡ replicate (length problem.now) false }
    requires listed { listed.old ≡ replicate (length problem.now) false }
    ensures { IsHallVerdict (length problem.now) problem.now persons.now objects.now result }
{
    if !are_in_range(problem, persons, objects) {
        return HallVerdict::Range;
    }
    if !are_rising(persons, objects) {
        return HallVerdict::Order;
    }
    mark_numbers(named, objects);
    if let Some((person, object)) = first_missing(problem, persons, named) {
        return HallVerdict::Missing(person, object);
    }
    mark_listed(listed, problem, persons);
    if let Some(object) = first_unmarked(objects, listed) {
        return HallVerdict::Extra(object);
    }
    if objects.len() >= persons.len() {
        return HallVerdict::Count;
    }
    HallVerdict::Yes
}

/// Whether these persons and objects are a Hall set of the problem; if not, the first fault in the
/// order of `HallVerdict`, by its lowest number.
///
/// `Yes` proves that no assignment exists: the persons would need different objects out of fewer
/// (P. Hall, On representatives of subsets, 1935). The lists may have any length and hold any
/// numbers. The time is linear in the lists, the pairs that the named persons list, and the number
/// of persons.
///
/// # Errors
/// `AllocError` if memory is refused, before the lists are read.
///
/// # Example
/// The body of `calling::proves_infeasible`:
/// ```
/// let problem = read_sparse(alloc, r)?;
/// let verdict = check_hall(alloc, &problem, persons, objects)?;
/// Ok(verdict == HallVerdict::Yes)
/// ```
pub fn check_hall(
    alloc: Global,
    problem: &Problem,
    persons: &[Person],
    objects: &[Object],
) -> Result<HallVerdict, AllocError>
    ensures verdict { IfOk result (λ v.
        IsHallVerdict (length problem.now) problem.now persons.now objects.now v) }
    ensures yes { IfOk result (λ v.
        (v ≡ HallVerdict.Yes) ↔ IsHallSet problem.now persons.now objects.now) }
    ensures none { IfOk result (λ v.
        v ≡ HallVerdict.Yes → (xs : List ℕ) → IsAssignment problem.now xs → ⊥) }
{
    let n = problem.n() as usize;
    let mut named = vec![in alloc; false; n]?;
    let mut listed = vec![in alloc; false; n]?;
    let (named, listed) = (named.as_mut_slice(), listed.as_mut_slice());
    Ok(first_hall_fault(named, listed, problem, persons, objects))
}
