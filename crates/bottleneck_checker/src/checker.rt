// The checker of bottlenecks.
ghost use Rattle.std.specs.Prelude.{IfOk, MatchOption, ℤ};
ghost use Rattle.assign_core.specs.Assignment.{IsAssignment};
ghost use Rattle.cost_lists.specs.Own.{AreOwnCosts};
ghost use Rattle.bottleneck_checker.specs.Bottleneck.{IsShown};

use super::assigned::is_assignment;
use super::short::are_short;
use super::worst::greatest_of;
use assign_core::Cost;
use cost_lists::{CostLists, Object, Person, to_minimise};
use std::alloc::{AllocError, Global};

// The cost of an assignment's worst pair if these persons are short of objects at better costs.
fn worst_by(
    alloc: Global,
    lists: &CostLists<'_>,
    objects: &[Object],
    own: &[Cost],
    persons: &[Person],
    few: &[Object],
) -> Result<Option<Cost>, AllocError>
    requires assigned { IsAssignment lists.now.rows objects.now }
    requires own { AreOwnCosts lists.now.sense lists.now.rows objects.now own.now }
    ensures { IfOk result (λ found. MatchOption found
        ((b : ℤ) → ¬ IsShown lists.now objects.now b persons.now few.now)
        (λ b. IsShown lists.now objects.now b persons.now few.now)) }
{
    // This call shows the prover that there is a person, and that costs are in range.
    let _persons = lists.persons();
    let worst = greatest_of(own);
    if !are_short(alloc, lists, worst, persons, few)? {
        return Ok(None);
    }
    Ok(Some(to_minimise(lists.sense(), worst)))
}

/// The cost of the worst pair if these objects of persons 1 to `n` are an assignment, and these persons
/// show that no assignment has a better worst pair: at better costs they list only these few objects,
/// which are fewer than they are. All lists may have any length and hold any numbers.
///
/// The time is linear in the costs; the memory is some 17 bytes a person and 13 an object.
///
/// # Errors
/// `AllocError` if memory is refused.
pub fn worst_shown(
    alloc: Global,
    lists: &CostLists<'_>,
    objects: &[Object],
    persons: &[Person],
    few: &[Object],
) -> Result<Option<Cost>, AllocError>
    ensures { IfOk result (λ found. MatchOption found
        ((b : ℤ) → ¬ IsShown lists.now objects.now b persons.now few.now)
        (λ b. IsShown lists.now objects.now b persons.now few.now)) }
{
    if !is_assignment(alloc, lists, objects)? {
        return Ok(None);
    }
    let own = lists.own_costs(alloc, objects)?;
    worst_by(alloc, lists, objects, own.as_slice(), persons, few)
}
