// Single pairs that are read where the costs are.
ghost use Rattle.std.specs.Prelude.{◌≡◌, ◌≤◌, ℕ, IsTrue, length};
ghost use Rattle.assign_core.specs.Numbered.{IsNumber};
ghost use Rattle.assign_core.specs.Rows.{IsCost};
ghost use Rattle.cost_lists.specs.Source.{AreCosts, ArePairs};
ghost use Rattle.group_checker.specs.inside.Reading.{IsPlan, IsShown, IsShownInPairs, IsShownInRow};

use super::plan::{Plan, other_sum, own_sum};
use assign_core::Cost;
use cost_lists::{GREATEST_NUMBER, Object, Pairs, Person, part};

// Whether a person has the object `from`, and this other one is as good for it.
fn is_shown(plan: Plan<'_>, from: Object, person: Person, object: Object, cost: Cost) -> bool
    requires plan { (n m : ℕ) × IsPlan n m plan × IsNumber n person × IsNumber m object }
    requires cost { IsCost cost }
    ensures { IsTrue result → IsShown plan.entry from person object cost }
{
    if plan.objects[person as usize - 1] != from || object == from {
        return false;
    }
    if other_sum(plan, object, cost) > own_sum(plan, person) {
        return false;
    }
    true
}

// Whether the person at a place shows it in its row.
pub fn is_shown_in_row(
    plan: Plan<'_>,
    costs: &[Cost],
    place: usize,
    from: Object,
    to: Object,
) -> bool
    requires plan { IsPlan (length plan.own.now) (length plan.prices.now) plan }
    requires persons { length plan.own.now ≤ GREATEST_NUMBER }
    requires costs { AreCosts (length plan.own.now) (length plan.prices.now) costs.now }
    requires object { IsNumber (length plan.prices.now) to }
    ensures { IsTrue result → IsShownInRow plan.entry costs.now place from to }
{
    if place >= plan.own.len() {
        return false;
    }
    let row = part(costs, place, plan.prices.len());
    is_shown(plan, from, place as u32 + 1, to, row[to as usize - 1])
}

// Whether the listed pair at a place shows it.
pub fn is_shown_in_pairs(
    plan: Plan<'_>,
    pairs: Pairs<'_>,
    place: usize,
    from: Object,
    to: Object,
) -> bool
    requires plan { IsPlan (length plan.own.now) (length plan.prices.now) plan }
    requires pairs { ArePairs (length plan.own.now) (length plan.prices.now) pairs }
    ensures { IsTrue result → IsShownInPairs plan.entry pairs.entry place from to }
{
    if place >= pairs.persons.len() || pairs.objects[place] != to {
        return false;
    }
    is_shown(plan, from, pairs.persons[place], to, pairs.costs[place])
}
