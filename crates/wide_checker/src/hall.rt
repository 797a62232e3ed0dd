// Hall sets, by the checker over 64 bits: they depend on who lists what, and on no cost.
ghost use Rattle.std.specs.Prelude.{◌≡◌, ◌↔◌, ◌≤◌, ℕ, List, length, map, IsTrue, IfOk};
ghost use Rattle.assign_core.specs.declared.sense.Sense.{Sense};
ghost use Rattle.assign_core.specs.Assignment.{IsAssignment};
ghost use Rattle.assign_core.specs.Dense.{rows_cut};
ghost use Rattle.assign_core.specs.Hall.{IsHallSet};
ghost use Rattle.cost_lists.specs.Given.{rows_given};
ghost use Rattle.cost_lists.specs.ListedCosts.{IsCount};
ghost use Rattle.wide_checker.specs.WideNumbers.{wide_value};
ghost use Rattle.wide_checker.specs.WideSources.{AreWideCosts, AreWidePairs, triples_in};

use super::lists::WideLists;
use super::numbers::Wide;
use super::source::{WidePairs, WideSource};
use assign_core::Sense;
use cost_lists::{CostLists, Object, Pairs, Person};
use exact_checker::{HallVerdict, check_hall};
use std::alloc::{AllocError, Global};

// Whether the verdict is that lists are a Hall set.
fn is_yes(verdict: HallVerdict) -> bool
    ensures { IsTrue result ↔ (verdict ≡ HallVerdict.Yes) }
{
    match verdict {
        HallVerdict::Yes => true,
        _ => false,
    }
}

// Whether they are a Hall set where each person lists each object.
fn is_hall_of_rows(
    alloc: Global,
    n: Person,
    m: Object,
    costs: &[Wide],
    persons: &[Person],
    objects: &[Object],
) -> Result<bool, AllocError>
    requires persons { IsCount n }
    requires objects { IsCount m }
    requires costs { AreWideCosts n m costs.now }
    ensures { IfOk result (λ b. IsTrue b
        ↔ IsHallSet (rows_cut m n (map wide_value costs.now)) persons.now objects.now) }
{
    let zeros = vec![in alloc; 0i64; costs.len()]?;
    let lists = CostLists::dense(Sense::Min, n, m, zeros.as_slice());
    Ok(is_yes(check_hall(alloc, &lists, persons, objects)?))
}

// Whether they are a Hall set of listed pairs.
fn is_hall_of_pairs(
    alloc: Global,
    n: Person,
    m: Object,
    pairs: WidePairs<'_>,
    persons: &[Person],
    objects: &[Object],
) -> Result<bool, AllocError>
    requires persons { IsCount n }
    requires objects { IsCount m }
    requires pairs { AreWidePairs n m pairs }
    ensures { (sense : Sense) → IfOk result (λ b. IsTrue b
        ↔ IsHallSet (rows_given sense (triples_in pairs.entry) m 1 n) persons.now objects.now) }
{
    let zeros = vec![in alloc; 0i64; pairs.costs.len()]?;
    let plain = Pairs {
        persons: pairs.persons,
        objects: pairs.objects,
        costs: zeros.as_slice(),
    };
    let lists = CostLists::sparse(Sense::Min, n, m, plain);
    Ok(is_yes(check_hall(alloc, &lists, persons, objects)?))
}

/// Whether these persons and objects are a Hall set of the costs, so that no assignment exists:
/// the persons would need different objects out of fewer (P. Hall, On representatives of subsets,
/// 1935). The lists may have any length and hold any numbers.
///
/// The time is linear in the costs, or in the listed pairs; the memory is 8 bytes for each of them.
///
/// # Errors
/// `AllocError` if memory is refused. None is taken where there are at least as many objects as
/// persons.
pub fn leaves_no_plan(
    alloc: Global,
    lists: &WideLists<'_>,
    persons: &[Person],
    objects: &[Object],
) -> Result<bool, AllocError>
    ensures yes { IfOk result (λ b. IsTrue b
        ↔ IsHallSet lists.now.rows persons.now objects.now) }
    ensures none { IfOk result (λ b. IsTrue b
        → (xs : List ℕ) → IsAssignment lists.now.rows xs → ⊥) }
{
    if objects.len() >= persons.len() {
        return Ok(false);
    }
    let (n, m) = (lists.persons(), lists.objects());
    match lists.source() {
        WideSource::Dense(costs) => is_hall_of_rows(alloc, n, m, costs, persons, objects),
        WideSource::Listed(pairs) => is_hall_of_pairs(alloc, n, m, pairs, persons, objects),
    }
}
